//! Reading the words that stand for hosts.
ghost use Rattle.std.specs.{Prelude.◌≡◌, Option.option_map};
ghost use Rattle.pf_form.specs.Form.Readers.{Moves};
ghost use Rattle.pf_rule.specs.Host.Hosts.{bracketed, marked, host_of, a_negated_host, a_host, host};

use crate::host::host::Host;
use crate::take_word;
use pf_addr::Net;
use pf_addr::path::TableName;
use pf_form::form::{Kind, WordFault, Words, takes};

/// What is between `<` and `>`.
fn bracketed(word: &[u8]) -> Option<&[u8]>
    ensures { option_map (λ name. name.now) result ≡ bracketed word.now }
{
    let following = word.strip_prefix(b"<".as_slice());
    following.and_then(|rest| rest.strip_suffix(b">".as_slice()))
}

/// A table's name between `<` and `>`, or else a network, as a host; negated or not.
fn marked(is_negated: bool, word: &[u8]) -> Result<Host, Kind>
    ensures { result ≡ marked is_negated word.now }
{
    if let Some(name) = bracketed(word) {
        let name = TableName::from_ascii(name)?;
        return Ok(Host::Table { name, is_negated });
    }
    match Net::from_ascii(word) {
        Ok(net) => Ok(Host::Net { net, is_negated }),
        Err(_) => Err(Kind::BadWord),
    }
}

/// A table or a network, with or without a `!` joined to it.
fn host_of(word: &[u8]) -> Result<Host, Kind>
    ensures { result ≡ host_of word.now }
{
    match word.strip_prefix(b"!".as_slice()) {
        Some(text) => marked(true, text),
        None => marked(false, word),
    }
}

/// The table or the network after a `!` that is a word of its own.
#[tactic(auto, unfolding(crate::specs::Host::Hosts::a_negated_host))]
fn negated_word<'a>(words: &mut Words<'a>) -> Result<Host, WordFault>
    ensures { Moves a_negated_host result words.old.now words.new.now }
{
    take_word!(words, word => marked(true, word))
}

#[tactic(auto, unfolding(crate::specs::Host::Hosts::a_host))]
fn host_word<'a>(words: &mut Words<'a>) -> Result<Host, WordFault>
    ensures { Moves a_host result words.old.now words.new.now }
{
    take_word!(words, word => host_of(word))
}

#[tactic(auto, unfolding(crate::specs::Host::Hosts::host))]
pub(crate) fn read_host<'a>(words: &mut Words<'a>) -> Result<Host, WordFault>
    ensures { Moves host result words.old.now words.new.now }
{
    if takes(words, b"any") {
        return Ok(Host::Any);
    }
    if takes(words, b"!") {
        return negated_word(words);
    }
    host_word(words)
}
