//! Types that have a form.
ghost use Rattle.std.specs.Prelude.{◌≡◌, ℕ, Bool, OnOk};
ghost use Rattle.pf_form.specs.{Bytes.Forms.{Shape, Value, ByteForm, onto, Fits}, Bytes.Readers.Reads};

use crate::bytes::fault::Undecoded;
use crate::bytes::reading::Rest;
use std::alloc::{AllocError, Global};

/// A type that is read and written as a form says, in each version of it.
///
/// Contracts see its values by the ghost members; `read` and `write` call the functions of `bytes` in a straight line, each with the
/// attribute `#[tactic(auto, unfolding(..))]` for the form.
pub trait Layout: Drop + Sized {
    /// The shape of its plain data.
    ghost shape: { Shape };

    /// The form that it has in a version.
    ghost form: { ℕ → ByteForm shape };

    /// A value's plain data: contracts see nothing else of it.
    ghost plain: { Self → Value shape };

    /// Whether one comes before another in ordered lists; any relation if the type has none.
    ghost before: { Value shape → Value shape → Bool };

    /// Takes a value from the front of the bytes.
    ///
    /// Fails with the first fault of its form there, or out of memory. How many bytes are left then isn't said.
    fn read<'a>(alloc: Global, version: u8, from: &mut Rest<'a>) -> Result<Self, Undecoded>
        ensures { Reads plain (form version) result from.old.now from.new.now };

    /// Appends a value that fits its form to the bytes.
    ///
    /// Fails only when out of memory. What the bytes are then isn't said.
    fn write(&self, version: u8, out: &mut Vec<u8>) -> Result<(), AllocError>
        requires { Fits (form version) (plain self.now) }
        ensures { OnOk result (out.new.items ≡ onto (form version) (plain self.now) out.old.items) };
}

/// A type that may be in ordered lists.
pub trait Ordered: Layout {
    /// Whether it has to come before the other.
    fn comes_before(&self, other: &Self) -> bool
        ensures { result ≡ Self.before (Self.plain self.now) (Self.plain other.now) };
}
