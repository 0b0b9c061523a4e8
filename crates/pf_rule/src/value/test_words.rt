//! Reading a rule's tests of the direction, the interface, the family and the protocol.
ghost use Rattle.std.specs.Prelude.{◌≡◌, Ok};
ghost use Rattle.pf_form.specs.{Form.Forms.reads, Form.Readers.Moves, Form.Words.texts};
ghost use Rattle.pf_rule.specs.Value.Tests.{direction, interface, family, protocol};

use crate::value::direction::Direction;
use crate::value::interface::Interface;
use crate::value::protocol::Protocol;
use crate::value::value_words::{interface_word, protocol_word};
use pf_addr::Family;
use pf_form::form::{WordFault, Words, takes};

/// The test of the direction, if there is one.
#[tactic(auto, unfolding(crate::specs::Value::Tests::direction))]
pub fn read_direction<'a>(words: &mut Words<'a>) -> Option<Direction>
    ensures { reads direction (texts words.old.now) ≡ Ok (result, texts words.new.now) }
{
    if takes(words, b"in") {
        Some(Direction::In)
    } else if takes(words, b"out") {
        Some(Direction::Out)
    } else {
        None
    }
}

/// The test of the interface, if there is one.
#[tactic(auto, unfolding(crate::specs::Value::Tests::interface))]
pub fn read_interface<'a>(words: &mut Words<'a>) -> Result<Option<Interface>, WordFault>
    ensures { Moves interface result words.old.now words.new.now }
{
    if !takes(words, b"on") {
        return Ok(None);
    }
    Ok(Some(interface_word(words)?))
}

/// The test of the family, if there is one.
#[tactic(auto, unfolding(crate::specs::Value::Tests::family))]
pub fn read_family<'a>(words: &mut Words<'a>) -> Option<Family>
    ensures { reads family (texts words.old.now) ≡ Ok (result, texts words.new.now) }
{
    if takes(words, b"inet") {
        Some(Family::V4)
    } else if takes(words, b"inet6") {
        Some(Family::V6)
    } else {
        None
    }
}

/// The test of the protocol, if there is one.
#[tactic(auto, unfolding(crate::specs::Value::Tests::protocol))]
pub fn read_protocol<'a>(words: &mut Words<'a>) -> Result<Option<Protocol>, WordFault>
    ensures { Moves protocol result words.old.now words.new.now }
{
    if !takes(words, b"proto") {
        return Ok(None);
    }
    Ok(Some(protocol_word(words)?))
}
