//! Going over a map whose entries are shared pairs.
ghost use Rattle.std.specs.{Prelude.{◌≡◌}, Iterator.{item_count, YieldsFirstBy}};

use crate::entries::Entries;
use crate::entry::KeyValue;
use pf_key::Key;
use std::marker::Model;

/// The entries of a map that are left to come, in order, each a key and the value there. Contracts see it as the list.
///
/// A proof that loops over `Entries` or drops it spells out all that holds pages, at each call; here this is proved once.
pub struct Each<'a, K: Key, V: Drop> {
    entries: Entries<'a, K, V, KeyValue<K, V>>,
}

impl<'a, K: Key, V: Drop> Drop for Each<'a, K, V> {
    fn drop(self) {
        let Each { entries: _ } = self;
    }
}

impl<'a, K: Key, V: Drop> Model for Each<'a, K, V> {
    ghost use Rattle.std.specs.Prelude.{List};

    ghost Value = { List (K × V) };

    ghost view = { λ s. s.entries };
}

impl<'a, K: Key, V: Drop> Each<'a, K, V> {
    /// These entries.
    pub(crate) fn of(entries: Entries<'a, K, V, KeyValue<K, V>>) -> Each<'a, K, V>
        ensures { result ≡ entries.entry }
    {
        Each { entries }
    }
}

impl<'a, K: Key, V: Drop> Iterator for Each<'a, K, V> {
    type Item = &'a KeyValue<K, V>;

    ghost next_gives = { YieldsFirstBy (λ e. e.now) (λ s. s) };

    ghost remaining = { item_count (λ s. s) };

    fn next(&mut self) -> Option<&'a KeyValue<K, V>> {
        self.entries.next()
    }
}
