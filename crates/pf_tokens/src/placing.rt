//! Bytes with their places, without continued lines.
ghost use Rattle.std.specs.Prelude.{◌≡◌, ◌+◌, ◌<◌, ◌^◌, ◌++◌, length, IfOk, OnOk};
ghost use Rattle.pf_tokens.specs.{Places.place_after, Placed.{pair_at, place_after_pair, placed}};

use crate::items::{Items, PlacedText};
use crate::place::{Place, Placed};
use std::alloc::{AllocError, Global};

/// The place behind this byte.
pub(crate) fn place_after(byte: u8, place: Place) -> Place
    requires line { place.line + 1 < 2 ^ 32 }
    requires column { place.column + 1 < 2 ^ 32 }
    ensures { result ≡ place_after byte place }
{
    if byte == b'\n' {
        place.next_line()
    } else {
        place.next_column()
    }
}

/// Appends a backslash and the byte behind it, unless that is a newline, and gives the place behind both.
fn push_pair(out: &mut PlacedText, place: Place, next: u8) -> Result<Place, AllocError>
    requires line { place.line + 1 < 2 ^ 32 }
    requires column { place.column + 2 < 2 ^ 32 }
    ensures out { OnOk result (out.new ≡ out.old ++ pair_at place next) }
    ensures place { IfOk result (λ p. p ≡ place_after_pair place next) }
{
    if next == b'\n' {
        return Ok(place.next_line());
    }
    let byte = b'\\';
    out.push(Placed { byte, place })?;
    let place = place.next_column();
    let byte = next;
    out.push(Placed { byte, place })?;
    Ok(place.next_column())
}

/// The bytes of a file that begins at this place, each with its place, and a newline at its end. A backslash and the newline behind it are
/// left out, read in pairs from the left (pf.conf(5): lines are continued by a backslash).
pub fn placed(alloc: Global, start: Place, text: &[u8]) -> Result<PlacedText, AllocError>
    requires line { start.line + length text.now + 1 < 2 ^ 32 }
    requires column { start.column + length text.now + 1 < 2 ^ 32 }
    ensures { IfOk result (λ t. t ≡ placed start text.now) }
{
    let mut out = Items::new(alloc);
    let mut place = start;
    let mut at = 0;
    while at < text.len() {
        let byte = text[at];
        if byte == b'\\' && at + 1 < text.len() {
            place = push_pair(&mut out, place, text[at + 1])?;
            at += 2;
        } else {
            out.push(Placed { byte, place })?;
            place = place_after(byte, place);
            at += 1;
        }
    }
    let byte = b'\n';
    out.push(Placed { byte, place })?;
    Ok(out)
}
