//! Rules in bytes, and read from them.
ghost use Rattle.std.specs.Prelude.{◌≡◌, ◌<◌, ◌==◌, false, true, IfOk, IfSome, length, map, unwrap_or};
ghost use Rattle.std.specs.List.{AllByRecursion, list_all};
ghost use Rattle.pf_form.specs.{Bytes.Forms.{ByteForm, Fits, times}, Bytes.Codes.below, Bytes.Readers.Reads};
ghost use Rattle.pf_rule.specs.{Value.Values.{IsInterfaceName, IsLabel, IsProtocol, has_ports}, Value.Ports.has_ports_of};
ghost use Rattle.pf_rule.specs.{Rules.{IsEffect, IsRule, LabelFits}, Sum.Forms.{direction_byte, effect_byte, keeps_state}};
ghost use Rattle.pf_rule.specs.Sum.Layouts.{some_family, plain_family, interface, plain_interface, has_labels, label_form, plain_label};
ghost use Rattle.pf_rule.specs.Sum.Layouts.{named, plain_ending, rule_layout, plain_rule, allows};

use crate::rule::RuleParts;
use crate::sum::end_layout::read_end;
use crate::sum::form::{INTERFACE_FIELD, rule_bytes};
use crate::{Action, Direction, Effect, Interface, Label, Protocol, Rule};
use pf_addr::path::{Reference, read_name};
use pf_addr::{Family, read_family};
use pf_form::bytes::{
    Fault, Layout, Rest, Undecoded, expect, push_bytes, read_below, read_flag, read_u8, takes,
};
use std::alloc::{AllocError, Global};

/// The number of an effect that passes, and that of an anchor.
const PASS: u8 = 1;

const ANCHOR: u8 = 2;

/// The first version whose forms have labels.
pub const LABELS_FROM: u8 = 2;

/// The 204 bytes of [`rule_bytes`], followed by the label. Forms of a version before [`LABELS_FROM`] have no label, and are otherwise the
/// same.
///
/// Reading other bytes fails at the place where they go wrong: a port is tested without a protocol that has ports, a network is in a rule
/// without a family or has host bits, a rule that doesn't pass keeps state, an anchor rule or a form of an older version has a label, or
/// a zero or a name is wrong. Reading doesn't allocate.
impl Layout for Rule {
    ghost use Rattle.std.specs.Prelude.{true};
    ghost use Rattle.pf_rule.specs.Sum.Layouts.{RuleShape, rule_layout, plain_rule};

    ghost shape = { RuleShape };

    ghost form = { rule_layout };

    ghost plain = { plain_rule };

    ghost before = { λ r s. true };

    #[tactic(auto, unfolding(crate::specs::Sum::Layouts::rule_layout))]
    fn read<'a>(alloc: Global, version: u8, from: &mut Rest<'a>) -> Result<Rule, Undecoded> {
        let kind = read_below(3, from)?;
        let direction = read_direction(from)?;
        let quick = read_flag(from)?;
        let keeps = read_below(if kind == PASS { 2 } else { 1 }, from)?;
        let family = read_some_family(from)?;
        let protocol = read_protocol(from)?;
        expect(from, &[0, 0])?;
        let interface = read_interface(from)?;
        let ports = has_ports(protocol);
        let (source, source_port) = read_end(ports, family, from)?;
        let (destination, destination_port) = read_end(ports, family, from)?;
        let (effect, label) = read_ending(alloc, version, kind, keeps == 1, from)?;
        Ok(Rule::of(RuleParts {
            source,
            destination,
            effect,
            interface,
            source_port,
            destination_port,
            direction,
            quick,
            family,
            protocol,
            label,
        }))
    }

    #[tactic(auto, using(crate::proofs::RuleBytes::form_pushed))]
    fn write(&self, _version: u8, out: &mut Vec<u8>) -> Result<(), AllocError> {
        // `effect` promises that this is a rule
        let _effect = self.effect();
        push_bytes(out, &rule_bytes(self))?;
        push_bytes(out, self.label().as_bytes())
    }
}

impl Rule {
    /// Whether a version allows the rule: one before [`LABELS_FROM`] allows no rule with a label.
    pub fn is_allowed_in(&self, version: u8) -> bool
        ensures { result ≡ allows version self.now }
    {
        version >= LABELS_FROM || self.own_label().is_none()
    }
}

/// Tells contracts that each of these rules, which the version allows, fits its form; does nothing.
pub fn rules_fit(rules: &[Rule], version: u8)
    requires { list_all (allows version) rules.now ≡ true }
    ensures { AllByRecursion (Fits (rule_layout version)) (map plain_rule rules.now) }
{
    for rule in rules {
        // `effect` promises that this is a rule
        let _effect = rule.effect();
    }
}

/// A direction's byte: 0 any, 1 in, 2 out.
fn read_direction<'a>(from: &mut Rest<'a>) -> Result<Option<Direction>, Undecoded>
    ensures { Reads direction_byte (below 3) result from.old.now from.new.now }
{
    Ok(match read_below(3, from)? {
        0 => None,
        1 => Some(Direction::In),
        _ => Some(Direction::Out),
    })
}

/// A family's byte, or 0 for none.
#[tactic(auto, unfolding(crate::specs::Sum::Layouts::some_family), using(crate::proofs::RuleBytes::family_begins))]
fn read_some_family<'a>(from: &mut Rest<'a>) -> Result<Option<Family>, Undecoded>
    ensures { Reads plain_family some_family result from.old.now from.new.now }
{
    if takes(from, 0)? {
        return Ok(None);
    }
    Ok(Some(read_family(from)?))
}

/// A protocol's number, or 0 for none.
fn read_protocol<'a>(from: &mut Rest<'a>) -> Result<Option<Protocol>, Undecoded>
    ensures read { Reads (λ p. unwrap_or p 0) (ByteForm.number 1) result from.old.now from.new.now }
    ensures kept { IfOk result (λ p. IfSome p IsProtocol) }
{
    let number = read_u8(from)?;
    if number == 0 {
        return Ok(None);
    }
    Ok(Some(Protocol::new(number)))
}

/// An interface's name in its field, or zeros for none.
#[tactic(auto, unfolding(crate::specs::Sum::Layouts::interface), using(crate::proofs::RuleBytes::interface_begins))]
fn read_interface<'a>(from: &mut Rest<'a>) -> Result<Option<Interface>, Undecoded>
    ensures read { Reads plain_interface interface result from.old.now from.new.now }
    ensures kept { IfOk result (λ i. IfSome i IsInterfaceName) }
{
    if takes(from, 0)? {
        expect(from, &[0; 15])?;
        return Ok(None);
    }
    let name: Interface = read_name(INTERFACE_FIELD, from)?;
    // `as_bytes` promises that this is a name
    let _bytes = name.as_bytes();
    Ok(Some(name))
}

fn has_ports(protocol: Option<Protocol>) -> bool
    ensures value { result ≡ has_ports_of protocol }
    ensures number { result ≡ has_ports (unwrap_or protocol 0) }
{
    match protocol {
        Some(protocol) => protocol.has_ports(),
        None => false,
    }
}

/// The effect with this number, with what it names if it is an anchor, and otherwise the label.
#[tactic(auto, unfolding(crate::specs::Sum::Layouts::named))]
fn read_ending<'a>(
    alloc: Global,
    version: u8,
    kind: u8,
    keeps: bool,
    from: &mut Rest<'a>,
) -> Result<(Effect, Option<Label>), Undecoded>
    requires kind { kind < 3 }
    requires keeps { (kind == 1) ≡ false → keeps ≡ false }
    ensures read { Reads (λ e. plain_ending e.0 e.1) (named (has_labels version) (kind == 2)) result from.old.now from.new.now }
    ensures kind { IfOk result (λ e. effect_byte e.0 ≡ kind) }
    ensures keeps { IfOk result (λ e. keeps_state e.0 ≡ keeps) }
    ensures kept { IfOk result (λ e. IsEffect e.0) }
    ensures label { IfOk result (λ e. LabelFits e.0 e.1) }
{
    if kind == ANCHOR {
        let reference = Reference::read(alloc, version, from)?;
        // `names` promises that this is a reference
        let _names = reference.names();
        return Ok((Effect::Evaluate(reference), None));
    }
    expect(from, &[0; 65])?;
    let label = read_label(version, from)?;
    if kind == PASS {
        return Ok((Effect::Decide(Action::Pass { keeps_state: keeps }), label));
    }
    Ok((Effect::Decide(Action::Block), label))
}

/// A label's length, two zeros and the label; three zeros in a version without labels.
#[tactic(auto, unfolding(crate::specs::Sum::Layouts::label_form))]
fn read_label<'a>(version: u8, from: &mut Rest<'a>) -> Result<Option<Label>, Undecoded>
    ensures read { Reads plain_label (label_form (has_labels version)) result from.old.now from.new.now }
    ensures kept { IfOk result (λ l. IfSome l IsLabel) }
{
    if version < LABELS_FROM {
        expect(from, &[0; 3])?;
        return Ok(None);
    }
    let left = from.len();
    let length = read_u8(from)?;
    expect(from, &[0, 0])?;
    let bytes = read_front(length as usize, from)?;
    if length == 0 {
        return Ok(None);
    }
    match Label::from_ascii(bytes) {
        Ok(label) => Ok(Some(label)),
        Err(_) => Err(Undecoded::Fault(Fault::Bad(left))),
    }
}

/// The next `count` bytes. Fails if fewer are left.
fn read_front<'a>(count: usize, from: &mut Rest<'a>) -> Result<&'a [u8], Undecoded>
    ensures read { Reads (λ b. b.now) (times count (ByteForm.number 1)) result from.old.now from.new.now }
    ensures length { IfOk result (λ b. length b.now ≡ count) }
{
    if from.len() < count {
        return Err(Undecoded::Fault(Fault::Short));
    }
    let (front, rest) = from.split_at(count);
    *from = rest;
    Ok(front)
}
