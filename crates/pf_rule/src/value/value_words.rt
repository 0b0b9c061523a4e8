//! Reading the words that stand for values, each from the front of the remaining words.
ghost use Rattle.pf_form.specs.Form.Readers.{Moves};
ghost use Rattle.pf_rule.specs.Value.Values.{an_interface, a_protocol, a_label, an_address, a_port};

use crate::value::interface::Interface;
use crate::value::label::Label;
use crate::value::protocol::Protocol;
use crate::value::values::{address_of, label_of, port_of, protocol_of};
use pf_addr::Addr;
use pf_form::form::{WordFault, Words};

/// Takes the first word if it reads as a value.
#[macro_export]
macro_rules! take_word {
    ($words:ident, $word:ident => $read:expr) => {
        match *$words {
            [$word, rest @ ..] => match $read {
                Ok(value) => {
                    *$words = rest;
                    Ok(value)
                }
                Err(kind) => Err(pf_form::form::stop(kind, $words)),
            },
            [] => Err(pf_form::form::bad_word($words)),
        }
    };
}

/// An interface's name.
pub fn interface_word<'a>(words: &mut Words<'a>) -> Result<Interface, WordFault>
    ensures { Moves an_interface result words.old.now words.new.now }
{
    take_word!(words, word => Interface::from_ascii(word))
}

/// A protocol, by its name or its number.
pub fn protocol_word<'a>(words: &mut Words<'a>) -> Result<Protocol, WordFault>
    ensures { Moves a_protocol result words.old.now words.new.now }
{
    take_word!(words, word => protocol_of(word))
}

/// A rule's label.
pub fn label_word<'a>(words: &mut Words<'a>) -> Result<Label, WordFault>
    ensures { Moves a_label result words.old.now words.new.now }
{
    take_word!(words, word => label_of(word))
}

/// An address.
pub fn address_word<'a>(words: &mut Words<'a>) -> Result<Addr, WordFault>
    ensures { Moves an_address result words.old.now words.new.now }
{
    take_word!(words, word => address_of(word))
}

/// A port of a protocol that has ports, or of one that has none.
pub fn port_word<'a>(ports: bool, words: &mut Words<'a>) -> Result<u16, WordFault>
    ensures { Moves (a_port ports) result words.old.now words.new.now }
{
    take_word!(words, word => port_of(ports, word))
}
