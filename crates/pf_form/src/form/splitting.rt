//! The words of a line.
ghost use Rattle.std.specs.Prelude.{◌≡◌, IfOk};
ghost use Rattle.pf_form.specs.Form.Words.{is_blank, words_of, texts};

use std::alloc::{AllocError, Global};

/// Whether the byte is a space, a tab or a carriage return.
pub fn is_blank(b: u8) -> bool
    ensures { result ≡ is_blank b }
{
    b == b' ' || b == b'\t' || b == b'\r'
}

/// The words of a line: what is between blanks, which are spaces, tabs and carriage returns. Fails only when out of memory.
pub fn words<'a>(alloc: Global, line: &'a [u8]) -> Result<Vec<&'a [u8]>, AllocError>
    ensures { IfOk result (λ v. texts v.items ≡ words_of line.now) }
{
    line.split(|b| is_blank(*b))
        .filter(|w| !w.is_empty())
        .collect(alloc)
}
