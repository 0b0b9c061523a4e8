//! Appending parts to bytes. Each function fails only when out of memory, and then what the bytes are isn't said.
ghost use Rattle.std.specs.Prelude.{◌≡◌, ◌++◌, ◌∷◌, [], ◌<◌, length, OnOk};
ghost use Rattle.pf_form.specs.Bytes.Forms.{ByteForm, number, times, counted, onto};

use byteorder::{BigEndian, ByteOrder};
use std::alloc::AllocError;

/// Appends a number in one byte. Fails only when out of memory.
#[tactic(auto, unfolding(crate::specs::Bytes::BasicForms::number_bytes))]
pub fn push_u8(out: &mut Vec<u8>, number: u8) -> Result<(), AllocError>
    ensures { OnOk result (out.new.items ≡ onto (ByteForm.number 1) number out.old.items) }
{
    out.extend_from_slice(&[number])
}

/// Appends a number in two bytes, big-endian. Fails only when out of memory.
#[tactic(auto, unfolding(crate::specs::Bytes::BasicForms::number_bytes))]
pub fn push_u16(out: &mut Vec<u8>, number: u16) -> Result<(), AllocError>
    ensures { OnOk result (out.new.items ≡ onto (ByteForm.number 2) number out.old.items) }
{
    let mut bytes = [0; 2];
    BigEndian::write_u16(&mut bytes, number);
    out.extend_from_slice(&bytes)
}

/// Appends a number in four bytes, big-endian. Fails only when out of memory.
#[tactic(auto, unfolding(crate::specs::Bytes::BasicForms::number_bytes))]
pub fn push_u32(out: &mut Vec<u8>, number: u32) -> Result<(), AllocError>
    ensures { OnOk result (out.new.items ≡ onto (ByteForm.number 4) number out.old.items) }
{
    let mut bytes = [0; 4];
    BigEndian::write_u32(&mut bytes, number);
    out.extend_from_slice(&bytes)
}

/// Appends a number in eight bytes, big-endian. Fails only when out of memory.
#[tactic(auto, unfolding(crate::specs::Bytes::BasicForms::number_bytes))]
pub fn push_u64(out: &mut Vec<u8>, number: u64) -> Result<(), AllocError>
    ensures { OnOk result (out.new.items ≡ onto (ByteForm.number 8) number out.old.items) }
{
    let mut bytes = [0; 8];
    BigEndian::write_u64(&mut bytes, number);
    out.extend_from_slice(&bytes)
}

/// Appends a number in 16 bytes, big-endian. Fails only when out of memory.
#[tactic(auto, unfolding(crate::specs::Bytes::BasicForms::number_bytes))]
pub fn push_u128(out: &mut Vec<u8>, number: u128) -> Result<(), AllocError>
    ensures { OnOk result (out.new.items ≡ onto (ByteForm.number 16) number out.old.items) }
{
    let mut bytes = [0; 16];
    BigEndian::write_u128(&mut bytes, number);
    out.extend_from_slice(&bytes)
}

/// Appends the byte that says which way a choice goes. Fails only when out of memory.
pub fn push_key(out: &mut Vec<u8>, key: u8) -> Result<(), AllocError>
    ensures { OnOk result (out.new.items ≡ out.old.items ++ key ∷ []) }
{
    out.extend_from_slice(&[key])
}

/// Appends these bytes as they are. Fails only when out of memory.
pub fn push_bytes(out: &mut Vec<u8>, bytes: &[u8]) -> Result<(), AllocError>
    ensures constant { OnOk result (out.new.items ≡ out.old.items ++ bytes.now) }
    ensures text { OnOk result (out.new.items ≡ onto (times (length bytes.now) (ByteForm.number 1)) bytes.now out.old.items) }
{
    out.extend_from_slice(bytes)
}

/// Appends at most 255 bytes, after their number in one byte. Fails only when out of memory.
pub fn push_counted_bytes(out: &mut Vec<u8>, bytes: &[u8]) -> Result<(), AllocError>
    requires { length bytes.now < 256 }
    ensures { OnOk result (out.new.items ≡ onto (counted 1 (ByteForm.number 1)) bytes.now out.old.items) }
{
    push_u8(out, bytes.len() as u8)?;
    push_bytes(out, bytes)
}
