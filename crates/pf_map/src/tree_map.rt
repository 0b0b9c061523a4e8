//! Maps in trees.
ghost use Rattle.std.specs.Prelude.{◌≡◌, ◌+◌, ◌<◌, T, [], length, map, cond, true, Some, None, is_some, IfOk, IfSome, MatchOption, nat_lt};
ghost use Rattle.std.specs.{Option.{option_map, option_map_or}, FinMap.{find, is_sorted}};
ghost use Rattle.pf_map.specs.{Maps.{with_value, without, entry_at}, MapParts.{joined, first_of}};

use crate::entries::Entries;
use crate::entry::Holder;
use crate::level::{Leaf, Level, Middle, find_in};
use crate::page::Page;
use crate::part::Part;
use crate::raised::{leaves, middles};
use crate::slot::Slot;
use pf_key::{Key, Sought};
use std::alloc::{AllocError, Global};
use std::marker::Model;

// The page above all others.
type Top<K, V, E, L> = Level<K, V, E, Middle<K, V, E, L>>;

// A count of entries, once the value at a key was replaced where there was one or none.
fn recount(count: usize, had: bool, has: bool) -> Result<usize, AllocError>
    requires { had ≡ true → 0 < count }
    ensures { IfOk result (λ n. n + cond had 1 0 ≡ count + cond has 1 0) }
{
    let others = if had { count - 1 } else { count };
    if has {
        others.checked_add(1).ok_or(AllocError)
    } else {
        Ok(others)
    }
}

// The page above all others with the entry at a key replaced, or taken out where there is no new one; none where no entry is left.
fn top_with<K: Key, V: Drop, E: Holder<K, V>, L: Page<K, V, E>, Q: Sought<K>>(
    alloc: Global,
    top: Option<Top<K, V, E, L>>,
    sought: &Q,
    new: Option<&E>,
) -> Result<Option<Top<K, V, E, L>>, AllocError>
    requires named { IfSome new (λ e. (E.pair e.now).0 ≡ Q.key sought.now) }
    requires sorted { T (is_sorted K.order (option_map_or (λ l. l) top [])) }
    ensures { IfOk result (λ t. option_map_or (λ l. l) t [] ≡ with_value K.order (option_map_or (λ l. l) top []) (Q.key sought.now) (option_map (λ e. (E.pair e.now).1) new.entry)) }
{
    match (top, new) {
        (Some(mut top), _) => {
            let is_left = top.replace_whole(alloc, sought.hint(), sought, new)?;
            Ok(is_left.then_some(top))
        }
        (None, Some(new)) => Ok(Some(Part::of_entry(alloc, new)?)),
        (None, None) => Ok(None),
    }
}

/// A finite map: entries in the order of their keys, no key twice. Contracts see it as the list.
///
/// The entries stand in a tree of three levels, so that a changed map shares with an old one all pages but the three on the way to
/// the entry that changed; pages that no other map holds are changed in place.
pub struct TreeMap<K: Key, V: Drop, E: Holder<K, V>, L: Page<K, V, E> = Leaf<K, V, E>> {
    top: Option<Top<K, V, E, L>>,
    count: usize,
}

impl<K: Key, V: Drop, E: Holder<K, V>, L: Page<K, V, E>> Drop for TreeMap<K, V, E, L> {
    fn drop(self) {
        let TreeMap { top: _, count: _ } = self;
    }
}

impl<K: Key, V: Drop, E: Holder<K, V>, L: Page<K, V, E>> Model for TreeMap<K, V, E, L> {
    ghost use Rattle.std.specs.{Prelude.{◌≡◌, T, List, [], length}, Option.option_map_or, FinMap.is_sorted};

    ghost Value = { List (K × V) };

    ghost view = { λ m. option_map_or (λ l. l) m.top [] };

    ghost invariant = { λ m. T (is_sorted K.order (option_map_or (λ l. l) m.top [])) × (m.count ≡ length (option_map_or (λ l. l) m.top [])) };
}

impl<K: Key, V: Drop, E: Holder<K, V>, L: Page<K, V, E>> TreeMap<K, V, E, L> {
    /// The map of nothing. It takes no memory.
    pub fn empty() -> TreeMap<K, V, E, L>
        ensures { result ≡ [] }
    {
        TreeMap {
            top: None,
            count: 0,
        }
    }

    /// The map of these entries, which stand in the order of their keys, no key twice. Its pages are full but for the last ones.
    /// `AllocError`: nothing is made.
    pub fn of(alloc: Global, entries: &[E]) -> Result<TreeMap<K, V, E, L>, AllocError>
        requires { T (is_sorted K.order (map E.pair entries.now)) }
        ensures { IfOk result (λ m. m ≡ map E.pair entries.now) }
    {
        let middles = middles(alloc, leaves::<K, V, E, L>(alloc, entries)?)?;
        Ok(TreeMap {
            top: Level::whole(alloc, middles)?,
            count: entries.len(),
        })
    }

    /// How many entries it has.
    pub fn len(&self) -> usize
        ensures { result ≡ length self.now }
    {
        self.count
    }

    /// Whether it has more entries than this.
    pub fn is_more_than(&self, limit: usize) -> bool
        ensures { result ≡ nat_lt limit (length self.now) }
    {
        limit < self.count
    }

    // The parts below its top.
    fn slots(&self) -> &[Slot<K, V, E, Middle<K, V, E, L>>]
        ensures value { joined result.now ≡ self.now }
        ensures sorted { T (is_sorted K.order self.now) }
    {
        match &self.top {
            Some(top) => top.slots(),
            None => &[],
        }
    }

    /// The entry at a key, or `None` if there is none.
    pub fn get<Q: Sought<K>>(&self, sought: &Q) -> Option<&E>
        ensures entry { option_map (λ e. E.pair e.now) result ≡ entry_at K.order (Q.key sought.now) self.now }
        // what each map keeps
        ensures sorted { T (is_sorted K.order self.now) }
    {
        find_in(self.slots(), sought.hint(), sought)
    }

    /// Its first entry; None where it has none.
    pub fn first(&self) -> Option<&E>
        ensures { option_map (λ e. E.pair e.now) result ≡ first_of self.now }
    {
        match &self.top {
            Some(top) => Some(top.first()),
            None => None,
        }
    }

    /// The same map, with one owner more. No page is copied. `AllocError`: nothing is made.
    pub fn shared(&self) -> Result<TreeMap<K, V, E, L>, AllocError>
        ensures { IfOk result (λ m. m ≡ self.now) }
    {
        let top = match &self.top {
            Some(top) => Some(top.share()?),
            None => None,
        };
        Ok(TreeMap {
            top,
            count: self.count,
        })
    }

    // Whether there is an entry at a key.
    fn has<Q: Sought<K>>(&self, sought: &Q) -> bool
        ensures { result ≡ is_some (find K.order (Q.key sought.now) self.now) }
    {
        self.get(sought).is_some()
    }

    /// The map with the entry at a key, if it had one, replaced, or taken out where there is no new one. `AllocError`: nothing is left of
    /// this map; what shares its pages stays.
    pub(crate) fn with_value<'a, Q: Sought<K>>(
        self,
        alloc: Global,
        sought: &'a Q,
        had: bool,
        new: Option<&'a E>,
    ) -> Result<TreeMap<K, V, E, L>, AllocError>
        requires had { had ≡ is_some (find K.order (Q.key sought.now) self) }
        requires named { IfSome new (λ e. (E.pair e.now).0 ≡ Q.key sought.now) }
        ensures { IfOk result (λ m. m ≡ with_value K.order self (Q.key sought.now) (option_map (λ e. (E.pair e.now).1) new.entry)) }
    {
        let TreeMap { top, count } = self;
        let count = recount(count, had, new.is_some())?;
        let top = top_with(alloc, top, sought, new)?;
        Ok(TreeMap { top, count })
    }

    /// The map with an entry, in the place of the one at its key if there is one. Pages on the way to it that other maps hold are
    /// copied, three at most, and all else is shared. `AllocError`: nothing is left of this map; what shares its pages stays.
    pub fn with(self, alloc: Global, new: &E) -> Result<TreeMap<K, V, E, L>, AllocError>
        ensures { IfOk result (λ m. m ≡ with_value K.order self (E.pair new.now).0 (Some (E.pair new.now).1)) }
    {
        let had = self.has(new.held_key());
        self.with_value(alloc, new.held_key(), had, Some(new))
    }

    /// As [`TreeMap::with`], of an entry whose key has none yet, by one look-up less. `AllocError`: as there.
    pub fn with_new(self, alloc: Global, new: &E) -> Result<TreeMap<K, V, E, L>, AllocError>
        requires { find K.order (E.pair new.now).0 self ≡ None }
        ensures { IfOk result (λ m. m ≡ with_value K.order self (E.pair new.now).0 (Some (E.pair new.now).1)) }
    {
        self.with_value(alloc, new.held_key(), false, Some(new))
    }

    /// The map with no value at a key. Pages on the way to it that other maps hold are copied, three at most, and all else is
    /// shared. `AllocError`: nothing is left of this map; what shares its pages stays.
    pub fn without<Q: Sought<K>>(
        self,
        alloc: Global,
        sought: &Q,
    ) -> Result<TreeMap<K, V, E, L>, AllocError>
        ensures { IfOk result (λ m. m ≡ without K.order self (Q.key sought.now)) }
    {
        let had = self.has(sought);
        self.with_value(alloc, sought, had, None)
    }

    /// Its entries, in order. It takes no memory.
    pub fn entries(&self) -> Entries<'_, K, V, E, L>
        ensures { result ≡ self.now }
    {
        Entries::over(self.slots())
    }
}
