//! What a configuration says.
ghost use Rattle.std.specs.Prelude.{◌≡◌, ◌<◌, ◌≤◌, ℕ, length, min, slice_get, Some, IfSome, MatchOption};
ghost use Rattle.pf_anchor.specs.Evaluation.{judged};
ghost use Rattle.pf_core.specs.{Durable.Changes.{main_sum, verdict}, declared.durable.verdict.Verdict.TheVariants.{State as Stateful, Rules}};
ghost use Rattle.wirdalf_c.specs.Answers.{AreCounts, IsJudged, IsTested};

use crate::holding::Holding;
use crate::packet::address_in;
use crate::record::{CountsRecord, FAMILY_V4, FAMILY_V6, PacketRecord, VerdictRecord};
use crate::verdict::{tell_nothing, tell_rules, tell_state};
use pf_addr::path::{Path, TableName};
use pf_core::Durable;
use pf_rule::Packet;
use pf_state::StateName;

/// Judges the packet that a record says, and writes the verdict. It takes no memory.
#[tactic(auto, unfolding(crate::specs::Answers::IsJudged))]
pub fn judge(holding: &mut Holding, packet: &PacketRecord, verdict: &mut VerdictRecord)
    ensures judged { IsJudged holding.old packet.now verdict.new }
    ensures same { holding.new ≡ holding.old }
{
    let Some(packet) = holding.packet_in(packet) else {
        return tell_nothing(verdict);
    };
    let durable = holding.durable();
    match passing_state(durable, &packet) {
        Some(name) => tell_state(name, verdict),
        None => tell_rules(durable.config().judge(&packet), verdict),
    }
}

// The state that passes a packet; None: the rules decide. Where there are no states the packet's flow isn't even made.
#[tactic(auto, using(crate::proofs::Passing::none_passes))]
fn passing_state(durable: &Durable, packet: &Packet) -> Option<StateName>
    ensures { MatchOption result (verdict durable.now packet.now ≡ Rules (judged durable.now.config packet.now))
        (λ name. verdict durable.now packet.now ≡ Stateful name) }
{
    if durable.states().len() == 0 {
        return None;
    }
    match durable.states().find(packet) {
        Some(state) if state.value().stands(durable.tick()) => Some(*state.key()),
        _ => None,
    }
}

/// Judges each of these packets, as [`judge`] does, and writes as many verdicts. If there are fewer of one of them, so many are judged;
/// the verdicts after them stay as they were. Returns how many were judged.
pub fn judge_many(
    holding: &mut Holding,
    packets: &[PacketRecord],
    verdicts: &mut [VerdictRecord],
) -> usize
    ensures count { result ≡ min (length packets.now) (length verdicts.old) }
    ensures judged { (i : ℕ) → i < result
        → IfSome (slice_get packets.now i) (λ p. IfSome (slice_get verdicts.new i) (λ v. IsJudged holding.old p v)) }
    ensures rest { (i : ℕ) → result ≤ i → slice_get verdicts.new i ≡ slice_get verdicts.old i }
    ensures same { holding.new ≡ holding.old }
{
    let count = packets.len().min(verdicts.len());
    for i in 0..count {
        judge(holding, &packets[i], &mut verdicts[i]);
    }
    count
}

/// Writes how much is held.
pub fn count(durable: &Durable, counts: &mut CountsRecord)
    ensures { AreCounts durable.now counts.new }
{
    counts.tick = durable.tick();
    counts.rulesets = durable.config().ruleset_count() as u64;
    counts.tables = durable.config().table_count() as u64;
    counts.states = durable.states().len() as u64;
    counts.epoch = durable.epoch();
}

/// No entry of the table contains the address, or there is no such table.
pub const NO_ENTRY: u32 = 0;
/// The entry that decides is plain.
pub const IN_TABLE: u32 = 1;
/// The entry that decides is negated.
pub const NEGATED: u32 = 2;
/// The path, the table's name or the family is none.
pub const BAD_NAME: u32 = 3;

/// Which entry of the table at this path and name decides on an address, in network order. The path is `-` for the main ruleset. If there
/// is one, its prefix length is written: its network is that of the address and this length.
pub fn test(
    durable: &Durable,
    path: &[u8],
    table: &[u8],
    family: u8,
    address: [u8; 16],
    prefix_length: &mut u8,
) -> u32
    ensures { IsTested durable.now path.now table.now family address prefix_length.old prefix_length.new result }
{
    if family != FAMILY_V4 && family != FAMILY_V6 {
        return BAD_NAME;
    }
    let (Ok(path), Ok(table)) = (Path::from_ascii(path), TableName::from_ascii(table)) else {
        return BAD_NAME;
    };
    match durable.lookup(&path, &table, address_in(family, address)) {
        None => NO_ENTRY,
        Some(entry) => {
            *prefix_length = entry.net().prefix_len();
            if entry.is_negated() {
                NEGATED
            } else {
                IN_TABLE
            }
        }
    }
}
