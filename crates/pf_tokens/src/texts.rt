//! Bytes with their places, as texts.
ghost use Rattle.std.specs.{Prelude.{◌≡◌, IfOk}, Str.bytes_eq};
ghost use Rattle.pf_tokens.specs.Places.{text_of, each_is_digit, is_digits};

use crate::items::{Bytes, Items};
use crate::place::Placed;
use std::alloc::{AllocError, Global};

/// The bytes without their places.
#[tactic(auto, using(crate::proofs::Steps::map_item))]
pub(crate) fn bytes_of(alloc: Global, text: &[Placed]) -> Result<Bytes, AllocError>
    ensures { IfOk result (λ b. b ≡ text_of text.now) }
{
    let mut bytes = Items::new(alloc);
    for placed in text {
        bytes.push(placed.byte)?;
    }
    Ok(bytes)
}

/// Whether these are the bytes.
#[tactic(auto, using(crate::proofs::Steps::texts_step, crate::proofs::Steps::texts_end))]
pub(crate) fn same_bytes(text: &[Placed], bytes: &[u8]) -> bool
    ensures { result ≡ bytes_eq (text_of text.now) bytes.now }
{
    if text.len() != bytes.len() {
        return false;
    }
    for at in 0..text.len() {
        if text[at].byte != bytes[at] {
            return false;
        }
    }
    true
}

/// Whether each byte is a digit.
fn each_is_digit(text: &[Placed]) -> bool
    ensures { result ≡ each_is_digit text.now }
{
    text.iter().all(|placed| placed.byte.is_ascii_digit())
}

/// Whether there are bytes, and each is a digit.
pub(crate) fn has_digits_alone(text: &[Placed]) -> bool
    ensures { result ≡ is_digits text.now }
{
    !text.is_empty() && each_is_digit(text)
}
