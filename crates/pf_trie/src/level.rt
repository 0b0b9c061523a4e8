//! Levels of a trie.
ghost use Rattle.std.specs.Prelude.{◌≡◌, ℕ, ◌*◌, ◌/◌, ◌^◌, ◌<◌, ◌≤◌, [], IfOk, OnOk};
ghost use Rattle.pf_trie.specs.{Prefixes.{AllSigns, Finds, Agree, with_sign}, Rows.AreRows};

use crate::found::Found;
use crate::prefix::Prefix;
use crate::row_list::RowList;
use std::alloc::{AllocError, Global};

/// A level of a trie: the signs of prefixes whose addresses begin with one front before their last `top` bits, and which leave fewer than
/// `top` bits free.
pub trait Level: Drop {
    /// Whether it holds just these signs, for this `top` and this front.
    ghost holds: { AllSigns → ℕ → ℕ → Self → Type 0 };

    /// It holds the same wherever two agree on the prefixes that it has.
    ghost agrees: { (s t : AllSigns) (top front : ℕ) (l : Self) → Agree s t top front → holds s top front l → holds t top front l };

    /// No signs. It takes no memory.
    fn empty() -> Self
        ensures { (s : AllSigns) (top front : ℕ) → AreRows s top front [] → holds s top front result };

    /// The signs of these rows, whose addresses begin as this one does. `AllocError`: nothing is left of them.
    fn of_rows(alloc: Global, top: u8, address: u128, rows: RowList) -> Result<Self, AllocError>
        requires { top ≤ 128 }
        ensures { IfOk result (λ l. (s : AllSigns) → AreRows s top (address / 2 ^ top) rows → holds s top (address / 2 ^ top) l) };

    /// The same signs, shared and not copied. `AllocError`: they can't have another owner.
    fn shared(&self) -> Result<Self, AllocError>
        ensures { IfOk result (λ l. (s : AllSigns) (top front : ℕ) → holds s top front self.now → holds s top front l) };

    /// The sign of the longest prefix that contains an address. It takes no memory.
    fn longest(&self, top: u8, address: u128) -> Option<Found>
        requires { top ≤ 128 }
        ensures { (s : AllSigns) → holds s top (address / 2 ^ top) self.now → Finds s 0 top address result };

    /// Replaces the sign at a prefix, or takes it out where there is no new one. What nobody else holds is changed in place, all else is
    /// shared. `AllocError`: nothing says which signs it holds then.
    fn replace(
        &mut self,
        alloc: Global,
        top: u8,
        prefix: Prefix,
        sign: Option<bool>,
    ) -> Result<(), AllocError>
        requires free { prefix.free < 128 }
        requires top { top ≤ 128 }
        ensures { OnOk result ((s : AllSigns) → prefix.free < top → holds s top (prefix.address / 2 ^ top) self.old → holds (with_sign s prefix sign) top (prefix.address / 2 ^ top) self.new) };
}
