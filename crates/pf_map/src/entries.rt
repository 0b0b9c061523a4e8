//! Going over a map.
ghost use Rattle.std.specs.{Prelude.{◌≡◌, ◌++◌, [], MatchOption}, Iterator.{item_count, YieldsFirstBy}};
ghost use Rattle.pf_map.specs.MapParts.{joined};

use crate::entry::Holder;
use crate::level::{Leaf, Middle};
use crate::page::Page;
use crate::part::Single;
use crate::slot::Slot;
use pf_key::Key;
use std::marker::Model;

/// The entries of a map that are left to come, in order: what is left of one page in each level. Contracts see it as the list.
pub struct Entries<'a, K: Key, V: Drop, E: Holder<K, V>, L: Page<K, V, E> = Leaf<K, V, E>> {
    middles: &'a [Slot<K, V, E, Middle<K, V, E, L>>],
    leaves: &'a [Slot<K, V, E, L>],
    entries: &'a [Slot<K, V, E, Single<K, V, E>>],
}

impl<'a, K: Key, V: Drop, E: Holder<K, V>, L: Page<K, V, E>> Drop for Entries<'a, K, V, E, L> {
    fn drop(self) {
        let Entries {
            middles: _,
            leaves: _,
            entries: _,
        } = self;
    }
}

impl<'a, K: Key, V: Drop, E: Holder<K, V>, L: Page<K, V, E>> Model for Entries<'a, K, V, E, L> {
    ghost use Rattle.std.specs.Prelude.{List, ◌++◌};
    ghost use Rattle.pf_map.specs.MapParts.{joined};

    ghost Value = { List (K × V) };

    ghost view = { λ s. joined s.entries.now ++ (joined s.leaves.now ++ joined s.middles.now) };
}

// The next page of entries, and what is left behind it.
fn next_leaf<'a, K: Key, V: Drop, E: Holder<K, V>, L: Page<K, V, E>>(
    leaves: &'a [Slot<K, V, E, L>],
    middles: &'a [Slot<K, V, E, Middle<K, V, E, L>>],
) -> Option<
    (
        &'a Slot<K, V, E, L>,
        &'a [Slot<K, V, E, L>],
        &'a [Slot<K, V, E, Middle<K, V, E, L>>],
    ),
>
    ensures { MatchOption result (joined leaves.now ++ joined middles.now ≡ []) (λ p. joined leaves.now ++ joined middles.now ≡ p.0.now ++ (joined p.1.now ++ joined p.2.now)) }
{
    if let Some((leaf, others)) = leaves.split_first() {
        return Some((leaf, others, middles));
    }
    let (middle, others) = middles.split_first()?;
    let (leaf, more) = middle.part().slots().split_first()?;
    Some((leaf, more, others))
}

impl<'a, K: Key, V: Drop, E: Holder<K, V>, L: Page<K, V, E>> Entries<'a, K, V, E, L> {
    /// Those of these pages.
    pub(crate) fn over(middles: &'a [Slot<K, V, E, Middle<K, V, E, L>>]) -> Entries<'a, K, V, E, L>
        ensures { result ≡ joined middles.now }
    {
        Entries {
            middles,
            leaves: &[],
            entries: &[],
        }
    }
}

impl<'a, K: Key, V: Drop, E: Holder<K, V>, L: Page<K, V, E>> Iterator for Entries<'a, K, V, E, L> {
    type Item = &'a E;

    ghost next_gives = { YieldsFirstBy (λ e. E.pair e.now) (λ s. s) };

    ghost remaining = { item_count (λ s. s) };

    fn next(&mut self) -> Option<&'a E> {
        if self.entries.is_empty() {
            let (leaf, leaves, middles) = next_leaf(self.leaves, self.middles)?;
            self.entries = leaf.part().slots();
            self.leaves = leaves;
            self.middles = middles;
        }
        let (entry, others) = self.entries.split_first()?;
        self.entries = others;
        Some(entry.part().entry())
    }
}
