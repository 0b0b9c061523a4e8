//! Slots of forks.
ghost use Rattle.std.specs.Prelude.{◌≡◌, ℕ, ◌+◌, ◌-◌, ◌/◌, ◌^◌, ◌<◌, ◌≤◌, None, IfOk, OnOk};
ghost use Rattle.pf_trie.specs.{Prefixes.{AllSigns, Finds, with_sign}, Signs.sign_of, Rows.AreRows, Forks.{IsSlot, IsEmptySlot, SameSlot}};

use crate::found::Found;
use crate::in_order::{rows_within, signs_at};
use crate::level::Level;
use crate::prefix::Prefix;
use crate::row_list::RowList;
use crate::signs::Signs;
use std::alloc::{AllocError, Global};
use std::marker::Model;

/// How many bits a fork divides by. Definitions cite it.
pub(crate) const SLOT_BITS: u8 = 4;

/// How many slots a fork has. Definitions cite it.
pub(crate) const SLOTS: usize = 16;

/// A part of a fork: the addresses that begin with one front before their last `at` bits. It has the signs of their prefixes that leave at
/// least `at` bits free and fewer than `at + SLOT_BITS`, which contain all of them, and the level below. Contracts see the two.
pub struct Slot<T: Level> {
    wide: Signs,
    below: T,
}

impl<T: Level> Drop for Slot<T> {
    fn drop(self) {
        let Slot { wide: _, below: _ } = self;
    }
}

impl<T: Level> Model for Slot<T> {
    ghost use Rattle.pf_trie.specs.declared.signs.Signs.{Signs};

    ghost Value = { Signs × T };

    ghost view = { λ s. (s.wide, s.below) };
}

impl<T: Level> Slot<T> {
    /// No signs. It takes no memory.
    pub(crate) fn none() -> Slot<T>
        ensures { IsEmptySlot T.holds result }
    {
        Slot::over(T::empty())
    }

    /// The slot with this level below it, and with no signs of prefixes that contain all of its addresses.
    pub(crate) fn over(below: T) -> Slot<T>
        ensures wide { (k : ℕ) → sign_of result.0 k ≡ None }
        ensures below { result.1 ≡ below }
    {
        Slot {
            wide: Signs::none(),
            below,
        }
    }

    /// The slot of the addresses that begin with `front`, of rows that have it before the last `at + SLOT_BITS` bits. `AllocError`: nothing is
    /// made.
    pub(crate) fn of(
        alloc: Global,
        at: u8,
        front: u128,
        rows: &RowList,
    ) -> Result<Slot<T>, AllocError>
        requires at { at < 128 }
        requires front { front < 2 ^ (128 - at) }
        ensures { IfOk result (λ slot. (s : AllSigns) → AreRows s (at + SLOT_BITS) (front / SLOTS) rows.now → IsSlot T.holds s at front slot) }
    {
        let first = front << at;
        let within = rows_within(alloc, rows, at, front)?;
        Ok(Slot {
            wide: signs_at(rows, first).from(at),
            below: T::of_rows(alloc, at, first, within)?,
        })
    }

    /// The same slot, with one owner more. `AllocError`: it can't have another.
    pub(crate) fn shared(&self) -> Result<Slot<T>, AllocError>
        ensures { IfOk result (λ slot. SameSlot T.holds self.now slot) }
    {
        Ok(Slot {
            wide: self.wide,
            below: self.below.shared()?,
        })
    }

    /// The sign of the longest prefix that contains an address of the slot. It takes no memory.
    pub(crate) fn longest(&self, at: u8, address: u128) -> Option<Found>
        requires { at ≤ 128 }
        ensures { (s : AllSigns) → IsSlot T.holds s at (address / 2 ^ at) self.now → Finds s 0 (at + SLOT_BITS) address result }
    {
        match self.below.longest(at, address) {
            Some(found) => Some(found),
            None => self.wide.longest(),
        }
    }

    /// Replaces the sign at a prefix of the slot's addresses, which leaves fewer than `at` bits free. `AllocError`: nothing says which signs it
    /// holds then.
    pub(crate) fn replace(
        &mut self,
        alloc: Global,
        at: u8,
        prefix: Prefix,
        sign: Option<bool>,
    ) -> Result<(), AllocError>
        requires free { prefix.free < 128 }
        requires at { at ≤ 128 }
        ensures { OnOk result ((s : AllSigns) → prefix.free < at → IsSlot T.holds s at (prefix.address / 2 ^ at) self.old → IsSlot T.holds (with_sign s prefix sign) at (prefix.address / 2 ^ at) self.new) }
    {
        self.below.replace(alloc, at, prefix, sign)
    }

    /// Replaces, in the slot of the addresses that begin with `front`, the sign at a prefix that leaves at least `at` bits free.
    pub(crate) fn mark(&mut self, at: u8, front: u128, prefix: Prefix, sign: Option<bool>)
        requires free { prefix.free < 128 }
        requires wide { at ≤ prefix.free }
        ensures { (s : AllSigns) → prefix.free < at + SLOT_BITS → IsSlot T.holds s at front self.old → IsSlot T.holds (with_sign s prefix sign) at front self.new }
    {
        if front >> (prefix.free - at) != prefix.address >> prefix.free {
            return;
        }
        self.wide = self.wide.with(prefix.free, sign);
    }
}
