//! Pages of entries.
ghost use Rattle.std.specs.Prelude.{◌≡◌, ◌<◌, length, map, IfOk};
ghost use Rattle.pf_map.specs.MapParts.{joined};

use crate::entry::Holder;
use crate::part::{Part, Single};
use crate::slot::Slot;
use pf_key::Key;
use std::alloc::{AllocError, Global};

/// A page of entries.
pub trait Page<K: Key, V: Drop, E: Holder<K, V>>: Part<K, V, E> {
    /// The page of these entries, one at least. `AllocError`: nothing is made.
    fn of_entries(alloc: Global, page: &[E]) -> Result<Self, AllocError>
        requires { 0 < length page.now }
        ensures { IfOk result (λ p. Self.entries p ≡ map E.pair page.now) };

    /// Its entries.
    fn slots(&self) -> &[Slot<K, V, E, Single<K, V, E>>]
        ensures value { joined result.now ≡ Self.entries self.now }
        ensures some { 0 < length result.now };
}

/// Each entry as a part of its own.
pub(crate) fn each_alone<K: Key, V: Drop, E: Holder<K, V>>(
    alloc: Global,
    entries: &[E],
) -> Result<Vec<Slot<K, V, E, Single<K, V, E>>>, AllocError>
    ensures { IfOk result (λ v. joined v.items ≡ map E.pair entries.now) }
{
    let mut slots = Vec::with_capacity(alloc, entries.len())?;
    for entry in entries {
        slots.push(Slot::new(Part::of_entry(alloc, entry)?))?;
    }
    Ok(slots)
}
