//! Parts at the front of bytes. A reader moves the bytes on past its part; after an error nothing is said of where they are.
ghost use Rattle.std.specs.Prelude.{◌≡◌, ◌≤◌, length, Ok, IfOk};
ghost use Rattle.pf_form.specs.{Bytes.BasicForms.{constant_at, is_next, number_at}, Bytes.Forms.{ByteForm, number, times, counted}};
ghost use Rattle.pf_form.specs.Bytes.Readers.{Gives, Reads};

use crate::bytes::fault::{Fault, Undecoded};
use byteorder::{BigEndian, ByteOrder};
use std::alloc::Global;

/// The bytes that are left to read.
pub type Rest<'a> = &'a [u8];

/// A number in one byte. Fails if no byte is left.
pub fn read_u8<'a>(from: &mut Rest<'a>) -> Result<u8, Undecoded>
    ensures { Reads (λ n. n) (number 1) result from.old.now from.new.now }
{
    if from.is_empty() {
        return Err(Undecoded::Fault(Fault::Short));
    }
    let number = from[0];
    *from = &from[1..];
    Ok(number)
}

/// A number in two bytes, big-endian. Fails if fewer are left.
pub fn read_u16<'a>(from: &mut Rest<'a>) -> Result<u16, Undecoded>
    ensures { Reads (λ n. n) (number 2) result from.old.now from.new.now }
{
    if from.len() < 2 {
        return Err(Undecoded::Fault(Fault::Short));
    }
    let number = BigEndian::read_u16(from);
    *from = &from[2..];
    Ok(number)
}

/// A number in four bytes, big-endian. Fails if fewer are left.
pub fn read_u32<'a>(from: &mut Rest<'a>) -> Result<u32, Undecoded>
    ensures { Reads (λ n. n) (number 4) result from.old.now from.new.now }
{
    if from.len() < 4 {
        return Err(Undecoded::Fault(Fault::Short));
    }
    let number = BigEndian::read_u32(from);
    *from = &from[4..];
    Ok(number)
}

/// A number in eight bytes, big-endian. Fails if fewer are left.
pub fn read_u64<'a>(from: &mut Rest<'a>) -> Result<u64, Undecoded>
    ensures { Reads (λ n. n) (number 8) result from.old.now from.new.now }
{
    if from.len() < 8 {
        return Err(Undecoded::Fault(Fault::Short));
    }
    let number = BigEndian::read_u64(from);
    *from = &from[8..];
    Ok(number)
}

/// A number in 16 bytes, big-endian. Fails if fewer are left.
pub fn read_u128<'a>(from: &mut Rest<'a>) -> Result<u128, Undecoded>
    ensures { Reads (λ n. n) (number 16) result from.old.now from.new.now }
{
    if from.len() < 16 {
        return Err(Undecoded::Fault(Fault::Short));
    }
    let number = BigEndian::read_u128(from);
    *from = &from[16..];
    Ok(number)
}

/// Takes this byte if it is the next one, and returns whether it was. Fails if no byte is left.
pub fn takes<'a>(from: &mut Rest<'a>, key: u8) -> Result<bool, Undecoded>
    ensures { Gives (λ t. t) result from.new.now (is_next key from.old.now) }
{
    match *from {
        [] => Err(Undecoded::Fault(Fault::Short)),
        [first, rest @ ..] => {
            if *first == key {
                *from = rest;
                Ok(true)
            } else {
                Ok(false)
            }
        }
    }
}

/// Takes these bytes, which have to be the next ones.
///
/// Fails if fewer are left and those agree, or at the first one that differs.
pub fn expect<'a>(from: &mut Rest<'a>, bytes: &[u8]) -> Result<(), Undecoded>
    ensures { Gives (λ u. tt) result from.new.now (constant_at bytes.now from.old.now) }
{
    for byte in bytes {
        match *from {
            [] => return Err(Undecoded::Fault(Fault::Short)),
            [first, rest @ ..] => {
                if *first != *byte {
                    return Err(Undecoded::Fault(Fault::Bad(from.len())));
                }
                *from = rest;
            }
        }
    }
    Ok(())
}

/// So many bytes as they are. Fails if fewer are left, or out of memory.
pub fn read_bytes<'a>(
    alloc: Global,
    count: usize,
    from: &mut Rest<'a>,
) -> Result<Vec<u8>, Undecoded>
    ensures read { Reads (λ v. v.items) (times count (number 1)) result from.old.now from.new.now }
    ensures length { IfOk result (λ v. length v.items ≡ count) }
{
    if from.len() < count {
        return Err(Undecoded::Fault(Fault::Short));
    }
    let (front, rest) = from.split_at(count);
    let bytes = Vec::from_slice(alloc, front)?;
    *from = rest;
    Ok(bytes)
}

/// So many bytes as an array. Fails if fewer are left.
pub fn read_array<'a, const N: usize>(from: &mut Rest<'a>) -> Result<[u8; N], Undecoded>
    ensures { Reads (λ a. a) (times N (number 1)) result from.old.now from.new.now }
{
    if from.len() < N {
        return Err(Undecoded::Fault(Fault::Short));
    }
    let mut bytes = [0; N];
    let (front, rest) = from.split_at(N);
    bytes.copy_from_slice(front);
    *from = rest;
    Ok(bytes)
}

/// Up to 255 bytes after their number, which is in one byte. Fails if fewer are left, or out of memory.
pub fn read_counted_bytes<'a>(alloc: Global, from: &mut Rest<'a>) -> Result<Vec<u8>, Undecoded>
    ensures { Reads (λ v. v.items) (counted 1 (number 1)) result from.old.now from.new.now }
{
    let count = read_u8(from)?;
    let bytes = read_bytes(alloc, count as usize, from)?;
    Ok(bytes)
}
