//! A level of the tree: parts that follow one another, in one page.
ghost use Rattle.std.specs.Prelude.{◌≡◌, ◌<◌, T, cond, suc, [], ◌++◌, length, get_or, take, drop, IfOk, IfSome};
ghost use Rattle.std.specs.{Arc.arc_value, FinMap.is_sorted, Option.{option_map, option_map_or}};
ghost use Rattle.pf_map.specs.{Maps.{with_value, entry_at}, MapParts.{joined, IsPlace}, Pieces.all_of};

use crate::entry::Holder;
use crate::page::{Page, each_alone};
use crate::part::{Part, Single};
use crate::pieces::Pieces;
use crate::slot::Slot;
use pf_key::{Key, Sought};
use std::alloc::{AllocError, Global};
use std::marker::Model;
use std::sync::Arc;

/// How many parts a page has at most: with one more it fills what the allocator gives.
pub(crate) const PAGE_LIMIT: usize = 31;

/// Parts that follow one another, one at least, in a page that all maps share that hold it. Contracts see it as the entries of
/// its parts.
pub struct Level<K: Key, V: Drop, E: Holder<K, V>, P: Part<K, V, E>> {
    slots: Arc<Vec<Slot<K, V, E, P>>>,
}

/// A page of entries.
pub type Leaf<K, V, E> = Level<K, V, E, Single<K, V, E>>;

/// A page of pages of entries.
pub type Middle<K, V, E, L> = Level<K, V, E, L>;

impl<K: Key, V: Drop, E: Holder<K, V>, P: Part<K, V, E>> Drop for Level<K, V, E, P> {
    fn drop(self) {
        let Level { slots: _ } = self;
    }
}

impl<K: Key, V: Drop, E: Holder<K, V>, P: Part<K, V, E>> Model for Level<K, V, E, P> {
    ghost use Rattle.std.specs.Prelude.{List, length, ◌<◌};
    ghost use Rattle.std.specs.Arc.{arc_value};
    ghost use Rattle.pf_map.specs.MapParts.{joined};

    ghost Value = { List (K × V) };

    ghost view = { λ l. joined (arc_value l.slots).items };

    ghost invariant = { λ l. 0 < length (arc_value l.slots).items };
}

// How many parts there are up to the one where a key's entry is, or would be: the last that doesn't start behind the key, or
// else the first. What is left to look at is halved at each step.
fn place_in<K: Key, V: Drop, E: Holder<K, V>, P: Part<K, V, E>, Q: Sought<K>>(
    slots: &[Slot<K, V, E, P>],
    hint: u64,
    sought: &Q,
) -> usize
    requires { hint ≡ K.hint (Q.key sought.now) }
    ensures { IsPlace K.order (Q.key sought.now) slots.now result }
{
    let mut low = slots.len().min(1);
    let mut high = slots.len();
    'halving: while low < high {
        let middle = low + (high - low) / 2;
        if slots[middle].starts_after(hint, sought) {
            high = middle;
        } else {
            low = middle + 1;
        }
    }
    low
}

/// The entry at a key among those of parts that follow one another, if there is one.
pub(crate) fn find_in<'a, K: Key, V: Drop, E: Holder<K, V>, P: Part<K, V, E>, Q: Sought<K>>(
    slots: &'a [Slot<K, V, E, P>],
    hint: u64,
    sought: &Q,
) -> Option<&'a E>
    requires hinted { hint ≡ K.hint (Q.key sought.now) }
    requires sorted { T (is_sorted K.order (joined slots.now)) }
    ensures { option_map (λ e. E.pair e.now) result ≡ entry_at K.order (Q.key sought.now) (joined slots.now) }
{
    let place = place_in(slots, hint, sought);
    if place == 0 {
        return None;
    }
    slots[place - 1].part().find(hint, sought)
}

// The same parts in a page of their own.
fn copied<K: Key, V: Drop, E: Holder<K, V>, P: Part<K, V, E>>(
    alloc: Global,
    slots: &[Slot<K, V, E, P>],
) -> Result<Vec<Slot<K, V, E, P>>, AllocError>
    ensures { IfOk result (λ v. v.items ≡ slots.now) }
{
    let mut made = Vec::with_capacity(alloc, slots.len().saturating_add(1))?;
    for slot in slots {
        made.push(slot.shared()?)?;
    }
    Ok(made)
}

// Keeps what there is of a part that was changed in its place. Whether there is a part left; none is taken out where it is the last.
fn keep<K: Key, V: Drop, E: Holder<K, V>, P: Part<K, V, E>>(
    slots: &mut Vec<Slot<K, V, E, P>>,
    place: usize,
    pieces: Pieces<P>,
) -> Result<bool, AllocError>
    requires { place < length slots.old.items }
    ensures some { 0 < length slots.new.items }
    ensures value { IfOk result (λ left. cond left (joined slots.new.items) [] ≡ joined (take place slots.old.items) ++ (all_of P.entries (get_or slots.old.items place []) pieces ++ joined (drop (suc place) slots.old.items))) }
{
    match pieces {
        Pieces::Gone => {
            if slots.len() == 1 {
                return Ok(false);
            }
            let _gone = slots.remove(place);
            Ok(true)
        }
        Pieces::One => Ok(true),
        Pieces::Two(following) => {
            slots.insert(place + 1, Slot::new(following))?;
            Ok(true)
        }
    }
}

// Replaces the entry at a key in these parts, or takes it out where there is no new one. Whether any entry is left. `AllocError`: they
// hold some entries, nothing says which.
fn replace_in<K: Key, V: Drop, E: Holder<K, V>, P: Part<K, V, E>, Q: Sought<K>>(
    alloc: Global,
    slots: &mut Vec<Slot<K, V, E, P>>,
    hint: u64,
    sought: &Q,
    new: Option<&E>,
) -> Result<bool, AllocError>
    requires hinted { hint ≡ K.hint (Q.key sought.now) }
    requires named { IfSome new (λ e. (E.pair e.now).0 ≡ Q.key sought.now) }
    requires some { 0 < length slots.old.items }
    requires sorted { T (is_sorted K.order (joined slots.old.items)) }
    ensures some { 0 < length slots.new.items }
    ensures value { IfOk result (λ left. cond left (joined slots.new.items) [] ≡ with_value K.order (joined slots.old.items) (Q.key sought.now) (option_map (λ e. (E.pair e.now).1) new.entry)) }
{
    let place = place_in(slots, hint, sought) - 1;
    let pieces = slots[place].replace(alloc, hint, sought, new)?;
    keep(slots, place, pieces)
}

// The same of a page: others that hold it keep it as it was, by a copy.
fn replace_page<K: Key, V: Drop, E: Holder<K, V>, P: Part<K, V, E>, Q: Sought<K>>(
    alloc: Global,
    slots: &mut Arc<Vec<Slot<K, V, E, P>>>,
    hint: u64,
    sought: &Q,
    new: Option<&E>,
) -> Result<bool, AllocError>
    requires hinted { hint ≡ K.hint (Q.key sought.now) }
    requires named { IfSome new (λ e. (E.pair e.now).0 ≡ Q.key sought.now) }
    requires some { 0 < length (arc_value slots.old).items }
    requires sorted { T (is_sorted K.order (joined (arc_value slots.old).items)) }
    ensures some { 0 < length (arc_value slots.new).items }
    ensures value { IfOk result (λ left. cond left (joined (arc_value slots.new).items) [] ≡ with_value K.order (joined (arc_value slots.old).items) (Q.key sought.now) (option_map (λ e. (E.pair e.now).1) new.entry)) }
{
    if let Some(own) = Arc::get_mut(slots) {
        return replace_in(alloc, own, hint, sought, new);
    }
    let mut copy = copied(alloc, slots)?;
    let is_left = replace_in(alloc, &mut copy, hint, sought, new)?;
    *slots = Arc::new(alloc, copy)?;
    Ok(is_left)
}

// Cuts off the back half of a page that nobody else holds, as a page of its own, if it has too many parts.
fn cut<K: Key, V: Drop, E: Holder<K, V>, P: Part<K, V, E>>(
    alloc: Global,
    slots: &mut Arc<Vec<Slot<K, V, E, P>>>,
) -> Result<Pieces<Level<K, V, E, P>>, AllocError>
    requires { 0 < length (arc_value slots.old).items }
    ensures some { 0 < length (arc_value slots.new).items }
    ensures value { IfOk result (λ p. all_of (λ l. l) (joined (arc_value slots.new).items) p ≡ joined (arc_value slots.old).items) }
{
    if slots.len() <= PAGE_LIMIT {
        return Ok(Pieces::One);
    }
    let Some(own) = Arc::get_mut(slots) else {
        return Ok(Pieces::One);
    };
    let following = own.split_off(PAGE_LIMIT / 2 + 1)?;
    Ok(Pieces::Two(Level::of(alloc, following)?))
}

impl<K: Key, V: Drop, E: Holder<K, V>, P: Part<K, V, E>> Level<K, V, E, P> {
    /// Its parts, in order.
    pub fn slots(&self) -> &[Slot<K, V, E, P>]
        ensures value { joined result.now ≡ self.now }
        ensures some { 0 < length result.now }
    {
        self.slots.as_slice()
    }

    /// As `replace`, however many parts it has then. Whether any entry is left. `AllocError`: as there.
    pub(crate) fn replace_whole<Q: Sought<K>>(
        &mut self,
        alloc: Global,
        hint: u64,
        sought: &Q,
        new: Option<&E>,
    ) -> Result<bool, AllocError>
        requires hinted { hint ≡ K.hint (Q.key sought.now) }
        requires named { IfSome new (λ e. (E.pair e.now).0 ≡ Q.key sought.now) }
        requires sorted { T (is_sorted K.order self.old) }
        ensures { IfOk result (λ left. cond left self.new [] ≡ with_value K.order self.old (Q.key sought.now) (option_map (λ e. (E.pair e.now).1) new.entry)) }
    {
        replace_page(alloc, &mut self.slots, hint, sought, new)
    }

    /// A page of these parts. `AllocError`: nothing is left of them.
    pub(crate) fn of(
        alloc: Global,
        slots: Vec<Slot<K, V, E, P>>,
    ) -> Result<Level<K, V, E, P>, AllocError>
        requires { 0 < length slots.items }
        ensures { IfOk result (λ l. l ≡ joined slots.items) }
    {
        Ok(Level {
            slots: Arc::new(alloc, slots)?,
        })
    }

    /// A page of all these parts, however many; none where there are none. `AllocError`: nothing is made.
    pub(crate) fn whole(
        alloc: Global,
        slots: Vec<Slot<K, V, E, P>>,
    ) -> Result<Option<Level<K, V, E, P>>, AllocError>
        ensures { IfOk result (λ l. option_map_or (λ l. l) l [] ≡ joined slots.items) }
    {
        if slots.is_empty() {
            return Ok(None);
        }
        Ok(Some(Level {
            slots: Arc::new(alloc, slots)?,
        }))
    }
}

impl<K: Key, V: Drop, E: Holder<K, V>, P: Part<K, V, E>> Part<K, V, E> for Level<K, V, E, P> {
    ghost entries = { λ l. l };

    fn of_entry(alloc: Global, entry: &E) -> Result<Level<K, V, E, P>, AllocError> {
        let mut slots = Vec::with_capacity(alloc, 1)?;
        slots.push(Slot::new(P::of_entry(alloc, entry)?))?;
        Ok(Level {
            slots: Arc::new(alloc, slots)?,
        })
    }

    fn share(&self) -> Result<Level<K, V, E, P>, AllocError> {
        Ok(Level {
            slots: Arc::try_clone(&self.slots)?,
        })
    }

    fn first(&self) -> &E {
        self.slots()[0].part().first()
    }

    fn find<Q: Sought<K>>(&self, hint: u64, sought: &Q) -> Option<&E> {
        find_in(self.slots(), hint, sought)
    }

    fn replace<Q: Sought<K>>(
        &mut self,
        alloc: Global,
        hint: u64,
        sought: &Q,
        new: Option<&E>,
    ) -> Result<Pieces<Level<K, V, E, P>>, AllocError> {
        if self.replace_whole(alloc, hint, sought, new)? {
            cut(alloc, &mut self.slots)
        } else {
            Ok(Pieces::Gone)
        }
    }
}

impl<K: Key, V: Drop, E: Holder<K, V>> Page<K, V, E> for Level<K, V, E, Single<K, V, E>> {
    fn of_entries(
        alloc: Global,
        page: &[E],
    ) -> Result<Level<K, V, E, Single<K, V, E>>, AllocError> {
        Level::of(alloc, each_alone(alloc, page)?)
    }

    fn slots(&self) -> &[Slot<K, V, E, Single<K, V, E>>] {
        Level::slots(self)
    }
}
