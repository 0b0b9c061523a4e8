//! Rules one by one, with the tables' answers given or by asking the tables.
ghost use Rattle.std.specs.Prelude.{◌≡◌, ◌<◌, ◌≤◌, ◌*◌, ◌&&◌, ℕ, length, slice_get};
ghost use Rattle.pf_rule.specs.{Value.Tests.holds, Value.Ports.port_holds, Host.Hosts.host_holds, Rules.matches};
ghost use Rattle.pf_lanes.specs.Masks.{is_set};
ghost use Rattle.pf_lanes.specs.Answered.{answered, answered_bit, bit_by, block_bit, block_match, matches_answered, eight_from};

use crate::lanes::{ALL_LANES, LANES};
use crate::mask::is_set;
use pf_addr::Addr;
use pf_rule::{Host, Packet, PortTest, Rule, TableAnswers};

// A missing test holds.
fn is_wanted<T: PartialEq>(wanted: &Option<T>, value: &T) -> bool
    ensures { result ≡ holds wanted.now (λ x. T.eq x value.now) }
{
    match wanted {
        Some(wanted) => *wanted == *value,
        None => true,
    }
}

fn host_holds(host: &Host, answer: bool, address: Addr) -> bool
    ensures { result ≡ host_holds (answered answer) host.now address }
{
    match host {
        Host::Any => true,
        Host::Net { net, is_negated } => net.contains(address) != *is_negated,
        Host::Table { is_negated, .. } => answer != *is_negated,
    }
}

fn port_holds(test: Option<PortTest>, port: u16) -> bool
    ensures { result ≡ holds test (λ t. port_holds t port) }
{
    match test {
        Some(test) => test.holds(port),
        None => true,
    }
}

fn ends_hold(rule: &Rule, packet: &Packet, source: bool, destination: bool) -> bool
    ensures { result ≡ (host_holds (answered source) rule.now.source packet.now.source
        && holds rule.now.source_port (λ t. port_holds t packet.now.source_port)
        && host_holds (answered destination) rule.now.destination packet.now.destination
        && holds rule.now.destination_port (λ t. port_holds t packet.now.destination_port)) }
{
    host_holds(&rule.source(), source, packet.source())
        && port_holds(rule.source_port(), packet.source_port())
        && host_holds(&rule.destination(), destination, packet.destination())
        && port_holds(rule.destination_port(), packet.destination_port())
}

// Whether a rule matches a packet, given the answers for its source and its destination if they are tables.
fn matches(rule: &Rule, packet: &Packet, source: bool, destination: bool) -> bool
    ensures { result ≡ matches_answered source destination rule.now packet.now }
{
    is_wanted(&rule.direction(), &packet.direction())
        && is_wanted(&rule.interface(), packet.interface())
        && is_wanted(&rule.family(), &packet.source().family())
        && is_wanted(&rule.protocol(), &packet.protocol())
        && ends_hold(rule, packet, source, destination)
}

/// The rules of a block: eight, or fewer at the end.
pub fn eight_of(rules: &[Rule], block: usize) -> &[Rule]
    ensures few { length result.now ≤ 8 }
    ensures value { result.now ≡ eight_from (8 * block) rules.now }
{
    if block > rules.len() / LANES {
        return &[];
    }
    let rest = &rules[LANES * block..];
    &rest[..rest.len().min(LANES)]
}

// Which of up to eight rules match, one by one: bit i is for rule i, given bit i of each mask of answers.
fn matching(rules: &[Rule], packet: &Packet, sources: u8, destinations: u8) -> u8
    requires { length rules.now ≤ 8 }
    ensures { (i : ℕ) → i < 8 → is_set result i ≡ answered_bit (slice_get rules.now i) packet.now sources destinations i }
{
    let mut mask = 0;
    for (i, rule) in rules.iter().enumerate() {
        if matches(rule, packet, is_set(sources, i), is_set(destinations, i)) {
            mask |= 1 << i;
        }
    }
    mask
}

/// Which rules of a block match, one by one.
#[cold]
#[inline(never)]
pub(crate) fn matching_in(
    rules: &[Rule],
    packet: &Packet,
    block: usize,
    sources: u8,
    destinations: u8,
) -> u8
    ensures { (i : ℕ) → i < 8 → is_set result i ≡ block_bit rules.now packet.now block sources destinations i }
{
    matching(eight_of(rules, block), packet, sources, destinations)
}

// Which of the wanted rules, of up to eight, match, one by one, by what tables say.
fn asked<T: TableAnswers>(rules: &[Rule], tables: &T, packet: &Packet, wanted: u8) -> u8
    requires { length rules.now ≤ 8 }
    ensures { (i : ℕ) → i < 8 → is_set result i ≡ bit_by (λ r. is_set wanted i && matches (T.says tables.now) r packet.now) (slice_get rules.now i) }
{
    let mut mask = 0;
    for (i, rule) in rules.iter().enumerate() {
        if is_set(wanted, i) && rule.matches(tables, packet) {
            mask |= 1 << i;
        }
    }
    mask
}

/// Which of the wanted rules of a block match, one by one, by what tables say.
#[cold]
#[inline(never)]
pub(crate) fn asked_in<T: TableAnswers>(
    rules: &[Rule],
    tables: &T,
    packet: &Packet,
    block: usize,
    wanted: u8,
) -> u8
    ensures { (i : ℕ) → i < 8 → is_set result i ≡ (is_set wanted i && block_match (T.says tables.now) rules.now packet.now block i) }
{
    asked(eight_of(rules, block), tables, packet, wanted)
}

/// Which rules of a block match, by what tables say, without columns: bit i is set if rule `8 * block + i` exists and matches. Doesn't
/// allocate, unless the tables do.
pub fn match_one_by_one<T: TableAnswers>(
    rules: &[Rule],
    tables: &T,
    packet: &Packet,
    block: usize,
) -> u8
    ensures { (i : ℕ) → i < 8 → is_set result i ≡ block_match (T.says tables.now) rules.now packet.now block i }
{
    asked_in(rules, tables, packet, block, ALL_LANES)
}
