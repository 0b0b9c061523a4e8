//! Names in fields of one width, filled with zeros.
ghost use Rattle.std.specs.{Prelude.{◌≡◌, ◌≤◌, ◌++◌, length, replicate, nat_lt, IfOk, OnOk}, List.prefix_len};
ghost use Rattle.pf_form.specs.{Bytes.Forms.{ByteForm, onto}, Bytes.Names.{filled, are_zeros, padded, before_zero}, Bytes.Readers.Reads};

use crate::bytes::fault::{Fault, Undecoded};
use crate::bytes::reading::Rest;
use crate::bytes::writing::push_bytes;
use std::alloc::AllocError;

/// The name in a field of so many bytes: those before its first zero, or all. It takes no memory.
///
/// Fails if fewer bytes are left; or, if another byte comes after a zero, at the field's first byte.
pub fn read_filled<'a>(width: usize, from: &mut Rest<'a>) -> Result<&'a [u8], Undecoded>
    ensures read { Reads (λ name. filled width name.now) (padded width) result from.old.now from.new.now }
    ensures name { IfOk result (λ name. before_zero (filled width name.now) ≡ name.now) }
{
    let left = from.len();
    if left < width {
        return Err(Undecoded::Fault(Fault::Short));
    }
    let (field, rest) = from.split_at(width);
    let (name, zeros) = field.split_at(name_length(field));
    if !are_zeros(zeros) {
        return Err(Undecoded::Fault(Fault::Bad(left)));
    }
    *from = rest;
    Ok(name)
}

/// How many bytes come before the first zero.
fn name_length(field: &[u8]) -> usize
    ensures length { result ≡ prefix_len (nat_lt 0) field.now }
    ensures within { result ≤ length field.now }
{
    let mut length = 0;
    for byte in field {
        if *byte == 0 {
            return length;
        }
        length += 1;
    }
    length
}

fn are_zeros(bytes: &[u8]) -> bool
    ensures { result ≡ are_zeros bytes.now }
{
    bytes.iter().all(|byte| *byte == 0)
}

/// Appends a name of at most so many bytes, and zeros after it up to that many. Fails only when out of memory.
pub fn push_padded(out: &mut Vec<u8>, width: usize, name: &[u8]) -> Result<(), AllocError>
    requires { length name.now ≤ width }
    ensures { OnOk result (out.new.items ≡ onto (padded width) (filled width name.now) out.old.items) }
{
    push_bytes(out, name)?;
    push_zeros(out, width - name.len())
}

fn push_zeros(out: &mut Vec<u8>, count: usize) -> Result<(), AllocError>
    ensures { OnOk result (out.new.items ≡ out.old.items ++ replicate count 0) }
{
    for _ in 0..count {
        out.push(0)?;
    }
    Ok(())
}
