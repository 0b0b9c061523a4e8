//! Lists of values of a type that has a form. They fail as the type's reader or writer does.
ghost use Rattle.std.specs.{Prelude.{◌≡◌, true, IfOk, OnOk, map, length}, List.AllByRecursion};
ghost use Rattle.pf_form.specs.{Bytes.BasicForms.onto_each, Bytes.Forms.{ByteForm, times, counted, onto, Fits}};
ghost use Rattle.pf_form.specs.{Bytes.Lists.{ordered, in_order}, Bytes.Readers.Reads};

use crate::bytes::fault::{Fault, Undecoded};
use crate::bytes::layout::{Layout, Ordered};
use crate::bytes::reading::{Rest, read_u32};
use crate::bytes::writing::push_u32;
use std::alloc::{AllocError, Global};

/// `count` values in a row, from the front of the bytes; 0 is allowed.
///
/// Fails with the fault of the first that has one, or out of memory: a great count takes no memory before its values are read.
pub fn read_times<'a, T: Layout>(
    alloc: Global,
    version: u8,
    count: usize,
    from: &mut Rest<'a>,
) -> Result<Vec<T>, Undecoded>
    ensures { Reads (λ v. map T.plain v.items) (times count (T.form version)) result from.old.now from.new.now }
{
    let mut items = Vec::new(alloc);
    for _ in 0..count {
        let item = T::read(alloc, version, from)?;
        items.push(item)?;
    }
    Ok(items)
}

/// A list after the number of its values, which is in four bytes.
///
/// Fails as `read_times` does, and if the number is cut short.
pub fn read_list<'a, T: Layout>(
    alloc: Global,
    version: u8,
    from: &mut Rest<'a>,
) -> Result<Vec<T>, Undecoded>
    ensures { Reads (λ v. map T.plain v.items) (counted 4 (T.form version)) result from.old.now from.new.now }
{
    let count = read_u32(from)?;
    let items = read_times(alloc, version, count as usize, from)?;
    Ok(items)
}

/// Such a list, in which each value comes before the next.
///
/// Fails as `read_list` does. If two are out of order, the fault is at the list's start, the first byte of its number.
pub fn read_ordered_list<'a, T: Ordered>(
    alloc: Global,
    version: u8,
    from: &mut Rest<'a>,
) -> Result<Vec<T>, Undecoded>
    ensures read { Reads (λ v. map T.plain v.items) (ordered T.before 4 (T.form version)) result from.old.now from.new.now }
    ensures ordered { IfOk result (λ v. in_order T.before (map T.plain v.items) ≡ true) }
{
    let left = from.len();
    let items = read_list(alloc, version, from)?;
    if !are_in_order(&items) {
        return Err(Undecoded::Fault(Fault::Bad(left)));
    }
    Ok(items)
}

/// Whether each comes before the next.
#[tactic(auto, using(crate::proofs::BytesInTurn::few_in_order))]
pub fn are_in_order<T: Ordered>(items: &[T]) -> bool
    ensures { result ≡ in_order T.before (map T.plain items.now) }
{
    let mut rest = items;
    while rest.len() > 1 {
        if !rest[0].comes_before(&rest[1]) {
            return false;
        }
        rest = &rest[1..];
    }
    true
}

/// Appends values in a row. Fails only when out of memory.
pub fn write_each<T: Layout>(items: &[T], version: u8, out: &mut Vec<u8>) -> Result<(), AllocError>
    requires { AllByRecursion (Fits (T.form version)) (map T.plain items.now) }
    ensures { OnOk result (out.new.items ≡ onto_each (onto (T.form version)) (map T.plain items.now) out.old.items) }
{
    for item in items {
        item.write(version, out)?;
    }
    Ok(())
}

/// Appends a list: the number of its values in four bytes, and each of them. Fails only when out of memory.
pub fn write_list<T: Layout>(items: &[T], version: u8, out: &mut Vec<u8>) -> Result<(), AllocError>
    requires { Fits (counted 4 (T.form version)) (map T.plain items.now) }
    ensures { OnOk result (out.new.items ≡ onto (counted 4 (T.form version)) (map T.plain items.now) out.old.items) }
{
    push_u32(out, items.len() as u32)?;
    write_each(items, version, out)
}
