//! Lists of a table's entries, at the end of a line.
ghost use Rattle.pf_form.specs.{Form.Forms.{one_or_more, any_number}, Form.Readers.ReadsAll};
ghost use Rattle.pf_line.specs.Grammar.{row};

use crate::words::row_word;
use pf_core::EntryList;
use pf_form::form::{Unread, Words, each};
use std::alloc::Global;

/// One entry or more, up to the last word.
pub(crate) fn read_some_rows<'a>(alloc: Global, words: Words<'a>) -> Result<EntryList, Unread>
    ensures { ReadsAll (λ x. x) (one_or_more row) result words.now }
{
    let rows = each(alloc, words, row_word)?;
    Ok(EntryList::new(rows))
}

/// Entries up to the last word, or none.
pub(crate) fn read_rows<'a>(alloc: Global, words: Words<'a>) -> Result<EntryList, Unread>
    ensures { ReadsAll (λ x. x) (any_number row) result words.now }
{
    if words.is_empty() {
        return Ok(EntryList::new(Vec::new(alloc)));
    }
    read_some_rows(alloc, words)
}
