//! Types whose values all fit their form.
ghost use Rattle.std.specs.{Prelude.{◌≡◌, ◌<◌, ◌^◌, length, map, OnOk}, List.AllByRecursion};
ghost use Rattle.pf_form.specs.Bytes.Forms.{counted, onto, Fits};

use crate::bytes::layout::Layout;
use crate::bytes::lists::write_list;
use std::alloc::AllocError;

/// A type that keeps what its form requires, so that each of its values can be written.
pub trait Fitting: Layout {
    /// Gives contracts the fact that the value fits its form; it does nothing.
    fn fits(&self, version: u8)
        ensures { Fits (Self.form version) (Self.plain self.now) };
}

/// Gives contracts the fact that each of these fits its form; it does nothing.
pub fn all_fit<T: Fitting>(items: &[T], version: u8)
    ensures { AllByRecursion (Fits (T.form version)) (map T.plain items.now) }
{
    for item in items {
        item.fits(version);
    }
}

/// Appends a value to the bytes. Fails only when out of memory, and then what the bytes are isn't said.
pub fn push_fitting<T: Fitting>(out: &mut Vec<u8>, version: u8, value: &T) -> Result<(), AllocError>
    ensures written { OnOk result (out.new.items ≡ onto (T.form version) (T.plain value.now) out.old.items) }
    ensures fits { Fits (T.form version) (T.plain value.now) }
{
    value.fits(version);
    value.write(version, out)
}

/// Appends at most 4,294,967,295 values to the bytes, after their number in four bytes. Fails only when out of memory,
/// and then what the bytes are isn't said.
pub fn push_list<T: Fitting>(out: &mut Vec<u8>, version: u8, items: &[T]) -> Result<(), AllocError>
    requires { length items.now < 2 ^ 32 }
    ensures written { OnOk result (out.new.items ≡ onto (counted 4 (T.form version)) (map T.plain items.now) out.old.items) }
    ensures fits { Fits (counted 4 (T.form version)) (map T.plain items.now) }
{
    all_fit(items, version);
    write_list(items, version, out)
}
