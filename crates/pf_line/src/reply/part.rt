//! The parts that a text is made of.
//!
//! Each call is given the result of the writes so far, and writes after them. It has no allocator.
ghost use Rattle.std.specs.Prelude.{◌≡◌, [], ◌∷◌, ◌++◌, decimal};
ghost use Rattle.pf_addr.specs.Writing.{Continues};
ghost use Rattle.pf_line.specs.Reply.TextLines.{newlines, GoesOn};

use pf_addr::{write_more, write_more_number};
use std::io::{self, Write};

pub(crate) fn end_line<W: Write>(out: &mut W, so_far: io::Result<()>) -> io::Result<()>
    ensures { Continues so_far (W.contents out.old) result (W.contents out.new) (10 ∷ []) }
{
    write_more(out, so_far, b"\n")
}

/// Writes a text that has no newline.
pub(crate) fn write_part<W: Write>(
    out: &mut W,
    so_far: io::Result<()>,
    text: &[u8],
) -> io::Result<()>
    requires { newlines text.now ≡ 0 }
    ensures { GoesOn so_far (W.contents out.old) result (W.contents out.new) text.now }
{
    write_more(out, so_far, text)
}

/// Writes a number in decimal digits.
pub(crate) fn write_number<W: Write>(
    out: &mut W,
    so_far: io::Result<()>,
    number: u64,
) -> io::Result<()>
    ensures { GoesOn so_far (W.contents out.old) result (W.contents out.new) (decimal number) }
{
    write_more_number(out, so_far, number)
}

/// Writes a text that has no newline, and a number after it.
pub(crate) fn write_numbered<W: Write>(
    out: &mut W,
    so_far: io::Result<()>,
    text: &[u8],
    number: u64,
) -> io::Result<()>
    requires { newlines text.now ≡ 0 }
    ensures { GoesOn so_far (W.contents out.old) result (W.contents out.new) (text.now ++ decimal number) }
{
    let so_far = write_part(out, so_far, text);
    write_number(out, so_far, number)
}
