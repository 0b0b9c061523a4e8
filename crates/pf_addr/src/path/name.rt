//! Names, stored inline.
ghost use Rattle.std.specs.{Prelude.{◌≡◌, ◌≤◌, ◌-◌, length, slice_index}, Str.bytes_eq, Cmp.Lexicographic.lists_per};
ghost use Rattle.std.proofs.Common.{rules};
ghost use Rattle.pf_addr.specs.Path.Names.{IsName, name_of, name_order, same_name};

use crate::path::limits::TABLE_NAME_LIMIT;
use crate::path::names::has_name_bytes;
use pf_form::form::Kind;
use std::cmp::Ordering;
use std::marker::Model;

/// A name of 1 to `LIMIT` bytes, each a letter, a digit, `_`, `.` or `-`. It is stored inline. Contracts see it as the list of its bytes.
#[derive(Clone, Copy)]
pub struct Name<const LIMIT: usize> {
    bytes: [u8; LIMIT],
    len: u8,
}

/// The name of a table (pf.conf(5), Tables), of at most [`TABLE_NAME_LIMIT`] bytes.
pub type TableName = Name<TABLE_NAME_LIMIT>;

impl<const LIMIT: usize> Model for Name<LIMIT> {
    ghost use Rattle.std.specs.Prelude.{List, ℕ};
    ghost use Rattle.pf_addr.specs.Path.KeptNames.{name_kept, IsKept, inside_of, inside_of-kept};

    ghost Value = { List ℕ };

    ghost view = { name_kept LIMIT };

    ghost invariant = { IsKept LIMIT };

    ghost inverse = { inside_of LIMIT };

    ghost inverse_ok = { inside_of-kept LIMIT };
}

impl<const LIMIT: usize> Name<LIMIT> {
    /// Reads a word as a name.
    ///
    /// A word past the limit is `NameTooLong`, whatever its bytes; an empty one, or one with any other byte, is `BadWord`. Doesn't
    /// allocate.
    pub fn from_ascii(word: &[u8]) -> Result<Name<LIMIT>, Kind>
        requires fits { LIMIT ≤ 255 }
        ensures { result ≡ name_of LIMIT word.now }
    {
        if word.len() > LIMIT {
            return Err(Kind::NameTooLong);
        }
        if !word.is_empty() && has_name_bytes(word) {
            Ok(Name::holding(word))
        } else {
            Err(Kind::BadWord)
        }
    }

    // The name with these bytes.
    fn holding(name: &[u8]) -> Name<LIMIT>
        requires fits { LIMIT ≤ 255 }
        requires name { IsName LIMIT name.now }
        ensures { result ≡ name.now }
    {
        let mut bytes = [0; LIMIT];
        bytes[..name.len()].copy_from_slice(name);
        Name {
            bytes,
            len: name.len() as u8,
        }
    }

    /// The name's bytes.
    pub fn as_bytes(&self) -> &[u8]
        ensures value { result.now ≡ self.now }
        // what every name maintains
        ensures kept { IsName LIMIT self.now }
    {
        &self.bytes[..self.len as usize]
    }

    // The name's last byte.
    fn last(&self) -> u8
        ensures { result ≡ slice_index self.now (length self.now - 1) }
    {
        let bytes = self.as_bytes();
        bytes[bytes.len() - 1]
    }

    /// Compares two names by their bytes.
    pub fn order(&self, other: &Name<LIMIT>) -> Ordering
        ensures { result ≡ name_order self.now other.now }
    {
        self.as_bytes().cmp(other.as_bytes())
    }

    /// Whether both names are the same.
    #[tactic(auto, using(crate::proofs::PathTexts::same_bytes))]
    pub fn same(&self, other: &Name<LIMIT>) -> bool
        ensures { result ≡ same_name self.now other.now }
    {
        // unlike `order`, this compares the lengths first
        self == other
    }
}

impl<const LIMIT: usize> PartialEq for Name<LIMIT> {
    ghost eq = { bytes_eq };

    ghost laws = { Prim.search (rules, lists_per) };

    #[tactic(auto, using(crate::proofs::PathTexts::last_differs))]
    fn eq(&self, other: &Name<LIMIT>) -> bool {
        // most names on one machine differ in their last byte
        self.last() == other.last() && self.as_bytes() == other.as_bytes()
    }
}
