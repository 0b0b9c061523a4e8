//! References to rulesets.
ghost use Rattle.std.specs.Prelude.{◌≡◌, ◌≤◌, length, None, Some};
ghost use Rattle.pf_addr.specs.{Path.Paths.main, Path.Nested.path_within};
ghost use Rattle.pf_addr.specs.Path.References.{refers, unquoted, split_wildcard, reference_in, reference_of};
ghost use Rattle.pf_addr.specs.Path.ReferenceGrammar.{IsReference};

use crate::path::keys::PathBytes;
use crate::path::limits::REFERENCE_LIMIT;
use crate::path::path_text::fault_in;
use pf_form::form::Kind;
use std::marker::Model;

/// What an anchor rule names (pf.conf(5), ANCHORS): the names of a path, relative to the ruleset that holds the rule, and whether they
/// end in `/*`, which means the rulesets attached to that path. It is stored inline. Contracts see it as a `PlainReference`.
#[derive(Clone, Copy)]
pub struct Reference {
    bytes: [u8; REFERENCE_LIMIT],
    len: u8,
    wildcard: bool,
}

impl Model for Reference {
    ghost use Rattle.pf_addr.specs.Path.References.{PlainReference};
    ghost use Rattle.pf_addr.specs.Path.KeptReferences.{reference_kept, IsKept, inside_of, inside_of-kept};

    ghost Value = { PlainReference };

    ghost view = { reference_kept };

    ghost invariant = { IsKept };

    ghost inverse = { inside_of };

    ghost inverse_ok = { inside_of-kept };
}

impl Reference {
    /// Reads a reference from a word: names of a path, perhaps followed by `/*`, perhaps all in double quotes.
    ///
    /// It has at most 63 bytes, with `/*` and without quotes. A longer one is `NameTooLong`; then the first faulty component decides, as
    /// in [`Path::from_ascii`](crate::path::Path::from_ascii): `BadWord` or `NameTooLong`; then more than 16 components are
    /// `NameTooLong`. A word is in quotes if it has one at its start and another at its end. Doesn't allocate.
    pub fn from_ascii(word: &[u8]) -> Result<Reference, Kind>
        ensures { result ≡ reference_of word.now }
    {
        let text = unquoted(word);
        let (names, wildcard) = split(text);
        match fault_in(REFERENCE_LIMIT, text, names) {
            None => Ok(Reference::holding(names, wildcard)),
            Some(kind) => Err(kind),
        }
    }

    // The reference of these names.
    pub(crate) fn holding(names: &[u8], wildcard: bool) -> Reference
        requires { IsReference (refers names.now wildcard) }
        ensures { result ≡ refers names.now wildcard }
    {
        let mut bytes = [0; REFERENCE_LIMIT];
        bytes[..names.len()].copy_from_slice(names);
        Reference {
            bytes,
            len: names.len() as u8,
            wildcard,
        }
    }

    /// Its names, without `/*`: the text of a path, relative to the ruleset that holds the rule.
    pub fn names(&self) -> &[u8]
        ensures value { result.now ≡ self.now.names }
        // what every reference maintains
        ensures kept { IsReference self.now }
    {
        &self.bytes[..self.len as usize]
    }

    /// The path that its names lead to from the main ruleset: the names alone (pf.conf(5), ANCHORS); of one with a wildcard, the path whose
    /// children are meant.
    pub fn path_from_main(&self) -> PathBytes<'_>
        ensures { path_within main self.now.names ≡ Some result.bytes.now }
    {
        PathBytes {
            bytes: self.names(),
        }
    }

    /// Whether it means the rulesets directly under its path, and not the one at it.
    pub fn is_wildcard(&self) -> bool
        ensures { result ≡ self.now.wildcard }
    {
        self.wildcard
    }
}

/// What is between the double quotes that a word begins and ends with, or the whole word if it isn't in quotes. Doesn't allocate.
pub fn unquoted(word: &[u8]) -> &[u8]
    ensures { result.now ≡ unquoted word.now }
{
    let following = word.strip_prefix(b"\"".as_slice());
    following
        .and_then(|rest| rest.strip_suffix(b"\"".as_slice()))
        .unwrap_or(word)
}

// The names before `/*`, and whether it is there.
fn split(text: &[u8]) -> (&[u8], bool)
    ensures names { result.0.now ≡ (split_wildcard text.now).names }
    ensures wildcard { result.1 ≡ (split_wildcard text.now).wildcard }
{
    match text.strip_suffix(b"/*".as_slice()) {
        Some(names) => (names, true),
        None => (text, false),
    }
}
