//! Maps of values some of which stand for none.
ghost use Rattle.std.specs.{Prelude.{◌≡◌, ◌<◌, ◌^◌, T, [], length, IfOk, fold, nat_lt}, FinMap.is_sorted, List.sum_by, Option.option_map};
ghost use Rattle.pf_map.specs.{Maps.{with_entry, entry_at, IsMap}, Weights.{weight_of, IsWeighed}};

use crate::each::Each;
use crate::entry::{Content, KeyValue};
use crate::pairs::Pairs;
use crate::weight::Weigher;
use pf_key::{Key, Sought};
use std::alloc::{AllocError, Global};
use std::marker::{Model, PhantomData};

/// A finite map: entries in the order of their keys, no key twice, and no value that stands for none. Contracts see it as the
/// list.
///
/// The entries stand in pages, so that a changed map shares with the old one all pages but those in which an entry changed. What
/// they weigh together is kept, and changes with each that is replaced.
pub struct PagedMap<K: Key, V: Content, W: Weigher<K, V>> {
    map: Pairs<K, V>,
    weight: u128,
    of: PhantomData<W>,
}

impl<K: Key, V: Content, W: Weigher<K, V>> Drop for PagedMap<K, V, W> {
    fn drop(self) {
        let PagedMap {
            map: _,
            weight: _,
            of: _,
        } = self;
    }
}

impl<K: Key, V: Content, W: Weigher<K, V>> Model for PagedMap<K, V, W> {
    ghost use Rattle.std.specs.Prelude.{List};
    ghost use Rattle.pf_map.specs.{Maps.{IsMap}, Weights.{IsWeighed}};

    ghost Value = { List (K × V) };

    ghost view = { λ m. m.map };

    ghost invariant = { λ m. IsMap K.order V.kept m.map × IsWeighed W.weight m.map m.weight };
}

// What the entry at a key weighs; nothing where there is none.
fn weight_at<K: Key, V: Content, W: Weigher<K, V>>(map: &Pairs<K, V>, key: &K) -> u32
    ensures weight { result ≡ weight_of W.weight (entry_at K.order key.now map.now) }
    ensures sorted { T (is_sorted K.order map.now) }
{
    match map.get(key) {
        Some(entry) => W::weigh(entry),
        None => 0,
    }
}

// What an entry weighs where it is kept; nothing where its value stands for none.
fn weight_kept<K: Key, V: Content, W: Weigher<K, V>>(entry: &KeyValue<K, V>) -> u32
    ensures { result ≡ weight_of W.weight (option_map (λ v. (entry.now.0, v)) (V.kept entry.now.1)) }
{
    if entry.value().is_none() {
        0
    } else {
        W::weigh(entry)
    }
}

// What entries that weigh so much weigh once the value at one entry's key is replaced.
fn reweighed<K: Key, V: Content, W: Weigher<K, V>>(
    map: &Pairs<K, V>,
    weight: u128,
    change: &KeyValue<K, V>,
) -> u128
    requires { IsWeighed W.weight map.now weight }
    ensures { IsWeighed W.weight (with_entry K.order V.kept map.now change.now) result }
{
    let _count = map.len();
    let had = weight_at::<K, V, W>(map, change.key());
    let has = weight_kept::<K, V, W>(change);
    weight - u128::from(had) + u128::from(has)
}

// The map with the value at one entry's key replaced, or taken out where the new one stands for none.
fn with_change<K: Key, V: Content>(
    map: Pairs<K, V>,
    alloc: Global,
    change: &KeyValue<K, V>,
) -> Result<Pairs<K, V>, AllocError>
    ensures { IfOk result (λ m. m ≡ with_entry K.order V.kept map change.now) }
{
    if change.value().is_none() {
        map.without(alloc, change.key())
    } else {
        map.with(alloc, change)
    }
}

// What entries weigh together.
fn weight_of_all<K: Key, V: Content, W: Weigher<K, V>>(entries: &[KeyValue<K, V>]) -> u128
    ensures { IsWeighed W.weight entries.now result }
{
    // there are fewer than 2^64, so the sum fits
    let _count = entries.len();
    let mut weight = 0;
    for entry in entries {
        weight += u128::from(W::weigh(entry));
    }
    weight
}

impl<K: Key, V: Content, W: Weigher<K, V>> PagedMap<K, V, W> {
    /// The map of nothing. It takes no memory.
    pub fn empty() -> PagedMap<K, V, W>
        ensures { result ≡ [] }
    {
        PagedMap {
            map: Pairs::empty(),
            weight: 0,
            of: PhantomData,
        }
    }

    /// The map of these entries, which stand in the order of their keys, no key twice, and of which no value stands for none. Its pages
    /// are full but for the last ones. `AllocError`: nothing is made.
    pub fn of(alloc: Global, entries: &[KeyValue<K, V>]) -> Result<PagedMap<K, V, W>, AllocError>
        requires { IsMap K.order V.kept entries.now }
        ensures { IfOk result (λ m. m ≡ entries.now) }
    {
        Ok(PagedMap {
            map: Pairs::of(alloc, entries)?,
            weight: weight_of_all::<K, V, W>(entries),
            of: PhantomData,
        })
    }

    /// What its entries weigh together. It looks at none of them.
    pub fn weight(&self) -> u128
        ensures exact { result ≡ sum_by W.weight self.now }
        ensures light { result < 2 ^ 96 }
    {
        let _count = self.map.len();
        self.weight
    }

    // The map with the value at one entry's key replaced, or taken out where the new one stands for none.
    fn with_change(
        self,
        alloc: Global,
        change: &KeyValue<K, V>,
    ) -> Result<PagedMap<K, V, W>, AllocError>
        ensures { IfOk result (λ m. m ≡ with_entry K.order V.kept self change.now) }
    {
        let PagedMap { map, weight, of: _ } = self;
        let weight = reweighed::<K, V, W>(&map, weight, change);
        Ok(PagedMap {
            map: with_change(map, alloc, change)?,
            weight,
            of: PhantomData,
        })
    }

    /// The entry at a key; None where it has no value.
    pub fn get<Q: Sought<K>>(&self, sought: &Q) -> Option<&KeyValue<K, V>>
        ensures entry { option_map (λ e. e.now) result ≡ entry_at K.order (Q.key sought.now) self.now }
        // what each map keeps
        ensures map { IsMap K.order V.kept self.now }
    {
        self.map.get(sought)
    }

    /// The map with the values at these entries' keys replaced in turn, or taken out where a new one stands for none. All other
    /// entries are shared, and no key and no value is copied. `AllocError`: nothing is made.
    pub fn with(
        &self,
        alloc: Global,
        changes: &[KeyValue<K, V>],
    ) -> Result<PagedMap<K, V, W>, AllocError>
        ensures { IfOk result (λ m. m ≡ fold (with_entry K.order V.kept) self.now changes.now) }
    {
        let mut map = self.shared()?;
        for change in changes {
            map = map.with_change(alloc, change)?;
        }
        Ok(map)
    }

    /// The same map. No page is copied. `AllocError`: nothing is made.
    pub fn shared(&self) -> Result<PagedMap<K, V, W>, AllocError>
        ensures { IfOk result (λ m. m ≡ self.now) }
    {
        Ok(PagedMap {
            map: self.map.shared()?,
            weight: self.weight,
            of: PhantomData,
        })
    }

    /// How many entries it has. It looks at none of them.
    pub fn len(&self) -> usize
        ensures { result ≡ length self.now }
    {
        self.map.len()
    }

    /// Whether it has more entries than this.
    pub fn is_more_than(&self, limit: usize) -> bool
        ensures { result ≡ nat_lt limit (length self.now) }
    {
        self.map.is_more_than(limit)
    }

    /// Whether it would have more entries than this after these changes. Only near the limit they are made, to be counted;
    /// else it takes no memory. `AllocError`: nothing is made.
    pub fn would_be_more_than(
        &self,
        alloc: Global,
        changes: &[KeyValue<K, V>],
        limit: usize,
    ) -> Result<bool, AllocError>
        ensures { IfOk result (λ b. b ≡ nat_lt limit (length (fold (with_entry K.order V.kept) self.now changes.now))) }
    {
        if let Some(room) = limit.checked_sub(changes.len()) {
            if !self.is_more_than(room) {
                return Ok(false);
            }
        }
        let after = self.with(alloc, changes)?;
        Ok(after.is_more_than(limit))
    }

    /// Its entries, in order. It takes no memory.
    pub fn entries(&self) -> Each<'_, K, V>
        ensures { result ≡ self.now }
    {
        self.map.entries()
    }
}
