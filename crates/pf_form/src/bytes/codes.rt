//! Values of which there are few, each as one byte.
ghost use Rattle.std.specs.Prelude.{◌≡◌, ◌<◌, IfOk};
ghost use Rattle.pf_form.specs.{Bytes.Codes.{below, flag, flag_byte}, Bytes.Readers.Reads};

use crate::bytes::fault::{Fault, Undecoded};
use crate::bytes::reading::{Rest, read_u8};

/// A byte less than `limit`. Fails if no byte is left, or at a byte that isn't less.
#[tactic(auto, unfolding(crate::specs::Bytes::Codes::below))]
pub fn read_below<'a>(limit: u8, from: &mut Rest<'a>) -> Result<u8, Undecoded>
    ensures read { Reads (λ n. n) (below limit) result from.old.now from.new.now }
    ensures below { IfOk result (λ n. n < limit) }
{
    let left = from.len();
    let number = read_u8(from)?;
    if number >= limit {
        return Err(Undecoded::Fault(Fault::Bad(left)));
    }
    Ok(number)
}

/// A flag: 0 or 1. Fails if no byte is left, or at another byte.
pub fn read_flag<'a>(from: &mut Rest<'a>) -> Result<bool, Undecoded>
    ensures { Reads flag_byte flag result from.old.now from.new.now }
{
    Ok(read_below(2, from)? == 1)
}
