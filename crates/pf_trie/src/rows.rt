//! Rows: addresses with the signs of all their prefixes.
ghost use Rattle.std.specs.Prelude.{◌≡◌, ◌<◌, false};
ghost use Rattle.pf_trie.specs.Rows.{IsNoStart, Marks, cut_row};

use crate::prefix::Prefix;
use crate::signs::Signs;

/// An address, and the signs of all its prefixes.
#[derive(Clone, Copy)]
pub struct Row {
    /// The address.
    pub first: u128,
    /// The signs.
    pub signs: Signs,
}

impl Row {
    /// The row once a prefix's sign was replaced.
    pub(crate) fn marked(self, prefix: Prefix, sign: Option<bool>) -> Row
        requires { prefix.free < 128 }
        ensures { Marks prefix sign self result }
    {
        if !prefix.contains(self.first) {
            return self;
        }
        Row {
            first: self.first,
            signs: self.signs.with(prefix.free, sign),
        }
    }

    /// The row with the signs of the prefixes that leave fewer bits free.
    pub(crate) fn cut(self, most: u8) -> Row
        requires { most < 128 }
        ensures { result ≡ cut_row most self }
    {
        Row {
            first: self.first,
            signs: self.signs.below(most),
        }
    }

    /// Whether a prefix that has a sign begins at its address. If any does, the longest one that has a sign does.
    pub(crate) fn is_start(self) -> bool
        ensures { result ≡ false → IsNoStart self }
    {
        match self.signs.longest() {
            Some(found) => {
                let prefix = Prefix {
                    address: self.first,
                    free: found.free,
                };
                prefix.first() == self.first
            }
            None => false,
        }
    }
}
