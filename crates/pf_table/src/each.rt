//! Going over a table.
ghost use Rattle.std.specs.{Prelude.{◌≡◌}, Iterator.{item_count, YieldsFirstBy}};

use crate::entry::Entry;
use pf_addr::Net;
use pf_map::Entries;
use std::marker::Model;

/// The entries of a table that are left to come, in order. Contracts see it as the list.
///
/// It has no type parameters, so that a proof that loops over a table or drops this says nothing of pages.
pub struct EachEntry<'a> {
    entries: Entries<'a, Net, bool, Entry>,
}

impl<'a> Drop for EachEntry<'a> {
    fn drop(self) {
        let EachEntry { entries: _ } = self;
    }
}

impl<'a> Model for EachEntry<'a> {
    ghost use Rattle.std.specs.Prelude.{List};
    ghost use Rattle.pf_table.specs.Entries.{PlainEntry};

    ghost Value = { List PlainEntry };

    ghost view = { λ s. s.entries };
}

impl<'a> EachEntry<'a> {
    /// These entries.
    pub(crate) fn of(entries: Entries<'a, Net, bool, Entry>) -> EachEntry<'a>
        ensures { result ≡ entries.entry }
    {
        EachEntry { entries }
    }
}

impl<'a> Iterator for EachEntry<'a> {
    type Item = &'a Entry;

    ghost next_gives = { YieldsFirstBy (λ e. e.now) (λ s. s) };

    ghost remaining = { item_count (λ s. s) };

    fn next(&mut self) -> Option<&'a Entry> {
        self.entries.next()
    }
}
