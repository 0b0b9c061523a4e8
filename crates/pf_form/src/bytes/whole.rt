//! Bytes that are exactly one value.
ghost use Rattle.std.specs.Prelude.{◌≡◌, Ok, IfOk, IfErr};
ghost use Rattle.pf_form.specs.{Bytes.Forms.{Value, Spells}, Bytes.Readers.{GivesAll, IfFault, Refused, read_all}};

use crate::bytes::fault::{Fault, Undecoded};
use crate::bytes::layout::Layout;
use std::alloc::Global;

/// The value whose bytes these are in a version.
///
/// Fails with the one fault of bytes that aren't a value's, for instance that more bytes come after a value. Fails too when
/// out of memory, whatever the bytes are.
pub fn decode<T: Layout>(alloc: Global, version: u8, bytes: &[u8]) -> Result<T, Undecoded>
    // the value that is returned is written as these bytes
    ensures found { IfOk result (λ x. Spells (T.form version) (T.plain x) bytes.now) }
    // bytes that a value is written as give that value
    ensures only { (x : Value T.shape) → Spells (T.form version) x bytes.now → GivesAll T.plain result (Ok x) }
    // a fault is returned only if the bytes have it
    ensures refused { IfErr result (λ e. IfFault e (Refused (T.form version) bytes.now)) }
{
    read_whole(alloc, version, bytes)
}

fn read_whole<T: Layout>(alloc: Global, version: u8, bytes: &[u8]) -> Result<T, Undecoded>
    ensures { GivesAll T.plain result (read_all (T.form version) bytes.now) }
{
    let mut rest = bytes;
    let value = T::read(alloc, version, &mut rest)?;
    if !rest.is_empty() {
        return Err(Undecoded::Fault(Fault::Bad(rest.len())));
    }
    Ok(value)
}
