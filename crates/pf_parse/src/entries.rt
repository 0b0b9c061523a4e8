//! Files of a table's entries.
ghost use Rattle.std.specs.{Prelude.{◌≡◌, ◌≤◌, ◌<◌, ◌+◌, ◌^◌, ◌++◌, length, take_while, OnOk}, Option.option_to_list};
ghost use Rattle.pf_tokens.specs.Places.{place_after};
ghost use Rattle.pf_parse.specs.{Stops.Gives, Entries.{is_space, in_word, in_line, entry_of, front_of, file_entries, Appends, AppendsFirst}};

use crate::fault::{Mistake, Stop, refusal};
use crate::lists::net_of;
use crate::tree::Entry;
use pf_tokens::{FILE_LIMIT, Items, Mistake as TokenMistake, Place};
use std::alloc::{AllocError, Global};

/// A blank or a newline.
fn is_space(byte: u8) -> bool
    ensures { result ≡ is_space byte }
{
    byte == b' ' || byte == b'\t' || byte == b'\n'
}

/// Whether a byte can stand in a word.
fn in_word(byte: u8) -> bool
    ensures { result ≡ in_word byte }
{
    b' ' < byte && byte <= b'~'
}

/// How many bytes come first that can stand in a word.
fn length_of_word(text: &[u8]) -> usize
    ensures { result ≡ length (take_while in_word text.now) }
{
    text.iter().take_while(|byte| in_word(**byte)).count()
}

/// How many bytes come first that stand on the same line.
fn length_of_line(text: &[u8]) -> usize
    ensures { result ≡ length (take_while in_line text.now) }
{
    text.iter().take_while(|byte| **byte != b'\n').count()
}

/// The entry that a word of a table's file spells.
#[tactic(auto, unfolding(crate::specs::Entries::entry_of))]
fn entry_of(alloc: Global, place: Place, word: &[u8]) -> Result<Entry, Stop>
    ensures { Gives result (entry_of place word.now) }
{
    let (is_negated, text) = match word {
        [b'!', text @ ..] => (true, text),
        _ => (false, word),
    };
    let net = net_of(alloc, place, text, word)?;
    Ok(Entry {
        place,
        net,
        is_negated,
    })
}

/// What stands at the front of a text.
#[derive(Drop)]
struct Front {
    /// An entry, if one does.
    entry: Option<Entry>,
    /// How many bytes more than one it takes.
    more: usize,
}

/// What stands at the front of a text, by its first byte and those behind it.
#[tactic(auto, unfolding(crate::specs::Entries::front_of))]
fn front_of(alloc: Global, place: Place, text: &[u8]) -> Result<Front, Stop>
    requires { 0 < length text.now }
    ensures { Gives result (front_of place text.now) }
{
    let byte = text[0];
    if is_space(byte) {
        return Ok(Front {
            entry: None,
            more: 0,
        });
    }
    if byte == b'#' {
        let more = length_of_line(&text[1..]);
        return Ok(Front { entry: None, more });
    }
    if !in_word(byte) {
        let mistake = Mistake::Token(TokenMistake::Byte(byte));
        return Err(refusal(place, mistake));
    }
    let length = length_of_word(text);
    let entry = entry_of(alloc, place, &text[..length])?;
    Ok(Front {
        entry: Some(entry),
        more: length - 1,
    })
}

/// Where the byte behind this one stands.
fn place_after(byte: u8, place: Place) -> Place
    requires line { place.line + 1 < 2 ^ 32 }
    requires column { place.column + 1 < 2 ^ 32 }
    ensures { result ≡ place_after byte place }
{
    let (line, column) = if byte == b'\n' {
        (place.line + 1, 1)
    } else {
        (place.line, place.column + 1)
    };
    Place {
        line,
        column,
        ..place
    }
}

/// Takes the first byte of a text, of which so many bytes belong to what stands before: appends the entry that begins with it, and returns
/// how many bytes behind it belong to that.
#[tactic(auto, using(crate::proofs::EntriesInTurn::byte_skipped, crate::proofs::EntriesInTurn::front_taken, crate::proofs::EntriesInTurn::front_stops))]
fn take_byte(
    alloc: Global,
    place: Place,
    more: usize,
    text: &[u8],
    entries: &mut Items<Entry>,
) -> Result<usize, Stop>
    requires { 0 < length text.now }
    ensures { AppendsFirst result place more text.now entries.old entries.new }
{
    if more > 0 {
        return Ok(more - 1);
    }
    let front = front_of(alloc, place, text)?;
    push_some(entries, front.entry)?;
    Ok(front.more)
}

fn push_some(entries: &mut Items<Entry>, entry: Option<Entry>) -> Result<(), AllocError>
    ensures { OnOk result (entries.new ≡ entries.old ++ option_to_list entry) }
{
    match entry {
        Some(entry) => entries.push(entry),
        None => Ok(()),
    }
}

/// Appends the entries of a table's file, of this number: the words between blanks. One that begins with `#` begins a comment.
///
/// `Stop::Faulty`: the first word that is no entry, or byte that can't stand there; `Stop::Memory`: out of memory. Either leaves some of
/// the entries appended.
#[tactic(auto, using(crate::proofs::EntriesInTurn::no_byte))]
pub fn read_entries(
    alloc: Global,
    file: usize,
    text: &[u8],
    entries: &mut Items<Entry>,
) -> Result<(), Stop>
    requires { length text.now ≤ FILE_LIMIT }
    ensures { Appends result entries.old entries.new (file_entries file text.now) }
{
    let mut place = Place::start(file);
    let mut more: usize = 0;
    for at in 0..text.len() {
        more = take_byte(alloc, place, more, &text[at..], entries)?;
        place = place_after(text[at], place);
    }
    Ok(())
}
