//! The forms of rules in bytes.
ghost use Rattle.std.specs.Prelude.{◌≡◌, ◌∷◌, [], length, unwrap_or};
ghost use Rattle.pf_form.specs.Bytes.Codes.{flag_byte};
ghost use Rattle.pf_rule.specs.Sum.Forms.{filled, heading, effect_byte, keeps_state, direction_byte, family_byte, names, wildcard};
ghost use Rattle.pf_rule.specs.Sum.Forms.{label_bytes, rule_form};

use crate::sum::field::filled;
use crate::sum::host_form::{HOST_FORM, host_bytes};
use crate::{Action, Direction, Effect, Rule};
use pf_addr::Family;

/// How many bytes a rule's form has before the label.
pub const RULE_FORM: usize = 204;

const HEADING: usize = 8;

pub(crate) const INTERFACE_FIELD: usize = 16;

const REFERENCE_FIELD: usize = 64;

const TAIL: usize = 4;

/// The rule's form before its label: all that the rule says but the label, in bytes at fixed places. Numbers have their highest byte
/// first (network order), names are padded with zeros, and what doesn't apply is 0. The places are in the table at the definition
/// `rule_form`; they are this project's own.
///
/// Never runs out of memory. The whole form is these bytes followed by those of [`Rule::label`]. The rule can be read from it, so
/// different rules have different forms.
#[tactic(auto, unfolding(crate::specs::Sum::Forms::rule_form))]
pub fn rule_bytes(rule: &Rule) -> [u8; RULE_FORM]
    ensures { result ≡ rule_form rule.now }
{
    let mut form = [0; RULE_FORM];
    let (heading, rest) = form.split_at_mut(HEADING);
    let (interface, rest) = rest.split_at_mut(INTERFACE_FIELD);
    let (source, rest) = rest.split_at_mut(HOST_FORM);
    let (destination, rest) = rest.split_at_mut(HOST_FORM);
    let (reference, tail) = rest.split_at_mut(REFERENCE_FIELD);
    heading.copy_from_slice(&heading_of(rule));
    interface.copy_from_slice(&interface_field(rule));
    source.copy_from_slice(&host_bytes(&rule.source(), rule.source_port()));
    destination.copy_from_slice(&host_bytes(&rule.destination(), rule.destination_port()));
    reference.copy_from_slice(&reference_field(rule));
    tail.copy_from_slice(&tail_of(rule));
    form
}

// The effect, the direction, the flags, the family and the protocol.
fn heading_of(rule: &Rule) -> [u8; HEADING]
    ensures { result ≡ heading rule.now }
{
    let effect = rule.effect();
    [
        effect_byte(&effect),
        direction_byte(rule.direction()),
        u8::from(rule.is_quick()),
        u8::from(keeps_state(&effect)),
        family_byte(rule.family()),
        protocol_byte(rule),
        0,
        0,
    ]
}

fn effect_byte(effect: &Effect) -> u8
    ensures { result ≡ effect_byte effect.now }
{
    match effect {
        Effect::Decide(Action::Block) => 0,
        Effect::Decide(Action::Pass { .. }) => 1,
        Effect::Evaluate(_) => 2,
    }
}

fn keeps_state(effect: &Effect) -> bool
    ensures { result ≡ keeps_state effect.now }
{
    match effect {
        Effect::Decide(Action::Pass { keeps_state }) => *keeps_state,
        Effect::Decide(Action::Block) | Effect::Evaluate(_) => false,
    }
}

fn direction_byte(direction: Option<Direction>) -> u8
    ensures { result ≡ direction_byte direction }
{
    match direction {
        None => 0,
        Some(Direction::In) => 1,
        Some(Direction::Out) => 2,
    }
}

fn family_byte(family: Option<Family>) -> u8
    ensures { result ≡ family_byte family }
{
    match family {
        None => 0,
        Some(Family::V4) => 4,
        Some(Family::V6) => 6,
    }
}

fn protocol_byte(rule: &Rule) -> u8
    ensures { result ≡ unwrap_or rule.now.protocol 0 }
{
    match rule.protocol() {
        Some(protocol) => protocol.number(),
        None => 0,
    }
}

fn interface_field(rule: &Rule) -> [u8; INTERFACE_FIELD]
    ensures { result ≡ filled 16 (unwrap_or rule.now.interface []) }
{
    match rule.interface() {
        Some(name) => filled(name.as_bytes()),
        None => filled(b""),
    }
}

fn reference_field(rule: &Rule) -> [u8; REFERENCE_FIELD]
    ensures { result ≡ filled 64 (names rule.now.effect) }
{
    match rule.effect() {
        Effect::Evaluate(reference) => filled(reference.names()),
        Effect::Decide(_) => filled(b""),
    }
}

// Whether the reference ended in `/*`, the label's length, and zeros.
fn tail_of(rule: &Rule) -> [u8; TAIL]
    ensures { result ≡ flag_byte (wildcard rule.now.effect) ∷ length (label_bytes rule.now) ∷ 0 ∷ 0 ∷ [] }
{
    let is_wildcard = match rule.effect() {
        Effect::Evaluate(reference) => reference.is_wildcard(),
        Effect::Decide(_) => false,
    };
    [u8::from(is_wildcard), label_length(rule), 0, 0]
}

fn label_length(rule: &Rule) -> u8
    ensures { result ≡ length (label_bytes rule.now) }
{
    match rule.own_label() {
        Some(label) => label.as_bytes().len() as u8,
        None => 0,
    }
}
