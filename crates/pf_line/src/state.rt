//! Words for a state's number, its creator, and bytes.
ghost use Rattle.std.specs.Prelude.{◌≡◌};
ghost use Rattle.pf_form.specs.Form.Readers.{ReadsAll};
ghost use Rattle.pf_line.specs.{Grammar.{or_bad, hex}, States.id_of, Tickets.part_of};

use crate::ticket::part;
use hex::{FromHexError, decode};
use pf_form::form::{Kind, Unread, Words, bad_word, end, read_number};
use std::alloc::Global;

/// How many digits a state's number may have, leading zeros among them.
pub(crate) const ID_DIGIT_LIMIT: usize = 20;

/// The state's number that a word spells: 1 to 20 decimal digits, below 2^64.
pub(crate) fn read_id(word: &[u8]) -> Result<u64, Kind>
    ensures { result ≡ or_bad (id_of word.now) }
{
    read_number(word, ID_DIGIT_LIMIT).ok_or(Kind::BadWord)
}

/// The creator of a state, as a word spells it: 1 to 10 decimal digits, below 2^32.
pub(crate) fn read_creator(word: &[u8]) -> Result<u32, Kind>
    ensures { result ≡ or_bad (part_of word.now) }
{
    part(word).ok_or(Kind::BadWord)
}

/// The bytes that the only word left spells in hexadecimal.
pub(crate) fn read_bytes<'a>(alloc: Global, words: Words<'a>) -> Result<Vec<u8>, Unread>
    ensures { ReadsAll (λ v. v.items) hex result words.now }
{
    let [word, rest @ ..] = words else {
        return Err(Unread::Stopped(bad_word(words)));
    };
    match decode(alloc, *word) {
        Ok(bytes) => {
            end(rest)?;
            Ok(bytes)
        }
        Err(FromHexError::OutOfMemory) => Err(Unread::Memory),
        Err(_) => Err(Unread::Stopped(bad_word(words))),
    }
}
