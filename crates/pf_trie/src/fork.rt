//! Forks: signs that are divided by four bits of their addresses.
ghost use Rattle.std.specs.Prelude.{◌≡◌, ℕ, ◌+◌, ◌*◌, ◌/◌, ◌%◌, ◌^◌, ◌<◌, ◌≤◌, length, All, IfOk, OnOk};
ghost use Rattle.pf_trie.specs.{Prefixes.{AllSigns, Finds, with_sign}, Rows.{AreOfOneSlot, AreRows}, Forks.{IsEmptySlot, IsFork, SameFork}};

use crate::found::Found;
use crate::in_order::one_slot_of;
use crate::level::Level;
use crate::prefix::Prefix;
use crate::row_list::RowList;
use crate::slot::{SLOT_BITS, SLOTS, Slot};
use std::alloc::{AllocError, Global};
use std::marker::Model;

/// The slots of addresses that begin with one front, one for each digit behind it. Contracts see the list of them.
pub struct Fork<T: Level> {
    slots: Vec<Slot<T>>,
}

impl<T: Level> Drop for Fork<T> {
    fn drop(self) {
        let Fork { slots: _ } = self;
    }
}

impl<T: Level> Model for Fork<T> {
    ghost use Rattle.std.specs.Prelude.{◌≡◌, List, length};
    ghost use Rattle.pf_trie.specs.declared.{signs.Signs.{Signs}, slot.TheConstants.SLOTS};

    ghost Value = { List (Signs × T) };

    ghost view = { λ f. f.slots.items };

    ghost invariant = { λ f. length f.slots.items ≡ SLOTS };
}

// The slot of an address, by the digit above its last `at` bits.
fn place_of(address: u128, at: u8) -> usize
    requires { at < 128 }
    ensures value { result ≡ address / 2 ^ at % SLOTS }
    ensures within { result < SLOTS }
{
    ((address >> at) % SLOTS as u128) as usize
}

// The front of the slots of a fork before the first bit in which they differ, with that many zeros behind it.
fn fronts_of(address: u128, at: u8) -> u128
    requires { at < 128 }
    ensures { result ≡ address / 2 ^ at / SLOTS * SLOTS }
{
    (address >> at) / SLOTS as u128 * SLOTS as u128
}

// The same slots, each with one owner more. `AllocError`: nothing is made.
fn shared_slots<T: Level>(alloc: Global, slots: &[Slot<T>]) -> Result<Vec<Slot<T>>, AllocError>
    ensures { IfOk result (λ v. SameFork T.holds slots.now v.items) }
{
    let mut shared = Vec::with_capacity(alloc, slots.len())?;
    for slot in slots {
        shared.push(slot.shared()?)?;
    }
    Ok(shared)
}

// The slots of rows, which are those of an address's region. `AllocError`: nothing is made.
fn slots_of<T: Level>(
    alloc: Global,
    at: u8,
    address: u128,
    rows: &RowList,
) -> Result<Vec<Slot<T>>, AllocError>
    requires { at ≤ 124 }
    ensures count { IfOk result (λ v. length v.items ≡ SLOTS) }
    ensures slots { IfOk result (λ v. (s : AllSigns) → AreRows s (at + SLOT_BITS) (address / 2 ^ at / SLOTS) rows.now → IsFork T.holds s at (address / 2 ^ at / SLOTS) v.items) }
{
    let first = fronts_of(address, at);
    let mut slots = Vec::with_capacity(alloc, SLOTS)?;
    for place in 0..SLOTS {
        slots.push(Slot::of(alloc, at, first + place as u128, rows)?)?;
    }
    Ok(slots)
}

// A fork's slots, with no signs. `AllocError`: nothing is made.
fn empty_slots<T: Level>(alloc: Global) -> Result<Vec<Slot<T>>, AllocError>
    ensures count { IfOk result (λ v. length v.items ≡ SLOTS) }
    ensures empty { IfOk result (λ v. All (IsEmptySlot T.holds) v.items) }
{
    let mut slots = Vec::with_capacity(alloc, SLOTS)?;
    for _ in 0..SLOTS {
        slots.push(Slot::none())?;
    }
    Ok(slots)
}

// The slots of rows that are all in the one of an address, which no prefix that has a sign contains. `AllocError`: nothing is left of the rows.
fn one_full_slot<T: Level>(
    alloc: Global,
    at: u8,
    address: u128,
    rows: RowList,
) -> Result<Vec<Slot<T>>, AllocError>
    requires at { at ≤ 124 }
    requires alike { AreOfOneSlot at (address / 2 ^ at) rows }
    ensures count { IfOk result (λ v. length v.items ≡ SLOTS) }
    ensures slots { IfOk result (λ v. (s : AllSigns) (front : ℕ) → AreRows s (at + SLOT_BITS) front rows → IsFork T.holds s at front v.items) }
{
    let mut slots = empty_slots(alloc)?;
    let below = T::of_rows(alloc, at, address, rows)?;
    slots[place_of(address, at)] = Slot::over(below);
    Ok(slots)
}

// Replaces in slots the sign at a prefix that leaves at least `at` bits free.
fn mark_slots<T: Level>(slots: &mut Vec<Slot<T>>, at: u8, prefix: Prefix, sign: Option<bool>)
    requires at { at ≤ 124 }
    requires count { length slots.old.items ≡ SLOTS }
    requires free { prefix.free < 128 }
    requires wide { at ≤ prefix.free }
    ensures count { length slots.new.items ≡ SLOTS }
    ensures slots { (s : AllSigns) → prefix.free < at + SLOT_BITS → IsFork T.holds s at (prefix.address / 2 ^ at / SLOTS) slots.old.items → IsFork T.holds (with_sign s prefix sign) at (prefix.address / 2 ^ at / SLOTS) slots.new.items }
{
    let first = fronts_of(prefix.address, at);
    for place in 0..SLOTS {
        slots[place].mark(at, first + place as u128, prefix, sign);
    }
}

// Replaces in slots the sign at a prefix that leaves fewer than `at` bits free. `AllocError`: nothing says which signs they hold then.
fn replace_in_slots<T: Level>(
    alloc: Global,
    slots: &mut Vec<Slot<T>>,
    at: u8,
    prefix: Prefix,
    sign: Option<bool>,
) -> Result<(), AllocError>
    requires at { at < 128 }
    requires count { length slots.old.items ≡ SLOTS }
    requires free { prefix.free < at }
    ensures count { length slots.new.items ≡ SLOTS }
    ensures slots { OnOk result ((s : AllSigns) → IsFork T.holds s at (prefix.address / 2 ^ at / SLOTS) slots.old.items → IsFork T.holds (with_sign s prefix sign) at (prefix.address / 2 ^ at / SLOTS) slots.new.items) }
{
    let place = place_of(prefix.address, at);
    slots[place].replace(alloc, at, prefix, sign)
}

impl<T: Level> Fork<T> {
    /// The fork of rows, which are those of an address's region. Where they are all in one slot they are moved there. `AllocError`: nothing is
    /// left of them.
    pub(crate) fn of(
        alloc: Global,
        at: u8,
        address: u128,
        rows: RowList,
    ) -> Result<Fork<T>, AllocError>
        requires { at ≤ 124 }
        ensures { IfOk result (λ f. (s : AllSigns) → AreRows s (at + SLOT_BITS) (address / 2 ^ at / SLOTS) rows → IsFork T.holds s at (address / 2 ^ at / SLOTS) f) }
    {
        match one_slot_of(&rows, at) {
            Some(first) => Ok(Fork {
                slots: one_full_slot(alloc, at, first, rows)?,
            }),
            None => Ok(Fork {
                slots: slots_of(alloc, at, address, &rows)?,
            }),
        }
    }

    /// The same fork, for another owner. `AllocError`: nothing is made.
    pub(crate) fn copied(&self, alloc: Global) -> Result<Fork<T>, AllocError>
        ensures { IfOk result (λ f. SameFork T.holds self.now f) }
    {
        Ok(Fork {
            slots: shared_slots(alloc, &self.slots)?,
        })
    }

    /// The sign of the longest prefix that contains an address. It takes no memory.
    pub(crate) fn longest(&self, at: u8, address: u128) -> Option<Found>
        requires { at < 128 }
        ensures { (s : AllSigns) → IsFork T.holds s at (address / 2 ^ at / SLOTS) self.now → Finds s 0 (at + SLOT_BITS) address result }
    {
        self.slots[place_of(address, at)].longest(at, address)
    }

    /// Replaces the sign at a prefix. `AllocError`: nothing says which signs it holds then.
    pub(crate) fn replace(
        &mut self,
        alloc: Global,
        at: u8,
        prefix: Prefix,
        sign: Option<bool>,
    ) -> Result<(), AllocError>
        requires at { at ≤ 124 }
        requires free { prefix.free < 128 }
        ensures { OnOk result ((s : AllSigns) → prefix.free < at + SLOT_BITS → IsFork T.holds s at (prefix.address / 2 ^ at / SLOTS) self.old → IsFork T.holds (with_sign s prefix sign) at (prefix.address / 2 ^ at / SLOTS) self.new) }
    {
        if prefix.free < at {
            return replace_in_slots(alloc, &mut self.slots, at, prefix, sign);
        }
        mark_slots(&mut self.slots, at, prefix, sign);
        Ok(())
    }
}
