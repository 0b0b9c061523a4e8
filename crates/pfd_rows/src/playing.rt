//! Lines and their replies, played over Books.
ghost use Rattle.std.specs.Prelude.{◌≡◌, ◌≤◌, ℕ, List, [], Option, Some, None, Ok};
ghost use Rattle.pf_book.specs.Books.{IsNamed};
ghost use Rattle.pf_session.specs.{LineEngine.Sessions.IsSession, Serving.Serves};

use crate::spelling::{fill, line_bytes, reply_bytes};
use crate::table::Table;
use crate::tally::Tally;
use pfd::{Book, Chapter, Disk, FuseDisk, MemDisk, Opening, open_fresh, serve_alone};
use std::alloc::{AllocError, Global};
use std::marker::Brand;
use std::sync::Wait;

/// The most changes that a history may have.
const MOST_HISTORY: usize = 1_048_576;

/// The most calls of a disk that an opening may make.
const MOST_CALLS: u64 = 100;

/// A disk in memory that may fail.
pub(crate) type Device = FuseDisk<MemDisk>;

// What is written for an input, if that isn't what is wanted. It is `None` only if a session over the input came to its end and wrote just
// the wanted bytes.
fn written_instead<J: Chapter, H: Wait + Drop>(
    alloc: Global,
    book: &mut Book<Device, J, H>,
    input: &[u8],
    wanted: &[u8],
) -> Option<Vec<u8>>
    ensures { result ≡ None → (unread : Option (List ℕ)) ×
        IsSession (Serves ⟦<FuseDisk<MemDisk> as Disk>⟧.fault_count) (Ok tt) (Some input.now) unread
        book.old book.new (Some []) (Some wanted.now) }
{
    let mut reader = input;
    let mut written = Vec::new(alloc);
    match serve_alone(alloc, &mut reader, &mut written, book) {
        Ok(()) if written.as_slice() == wanted => None,
        _ => Some(written),
    }
}

// A Book whose lines are played, whatever the name of its opening and what waits.
trait Play {
    // What is written for an input, if that isn't what is wanted.
    fn written_instead(&mut self, alloc: Global, input: &[u8], wanted: &[u8]) -> Option<Vec<u8>>;
}

impl<J: Chapter, H: Wait + Drop> Play for Book<Device, J, H> {
    fn written_instead(&mut self, alloc: Global, input: &[u8], wanted: &[u8]) -> Option<Vec<u8>> {
        written_instead(alloc, self, input, wanted)
    }
}

// Plays a line, and notes it if the reply differs.
fn play_line<B: Play>(
    alloc: Global,
    table: &Table,
    book: &mut B,
    line: &str,
    reply: &str,
    differing: &mut String,
) -> Result<(), AllocError> {
    let mut input = line_bytes(alloc, line)?;
    if !table.as_input {
        input.push(b'\n')?;
    }
    let wanted = reply_bytes(alloc, reply)?;
    if let Some(written) = book.written_instead(alloc, input.as_slice(), wanted.as_slice()) {
        let written = std::str::from_utf8(written.as_slice()).unwrap_or("no text");
        write!(differing, "  {line} -> {written:?}\n")?;
    }
    Ok(())
}

// Plays rows in turn, with the fields put into their places.
fn play_rows<B: Play>(
    alloc: Global,
    table: &Table,
    book: &mut B,
    rows: &[&str],
    fields: &[String],
    differing: &mut String,
) -> Result<(), AllocError> {
    for row in rows {
        let (line, reply) = row.split_once(" -> ").unwrap_or((row, ""));
        let line = fill(alloc, line, fields)?;
        let reply = fill(alloc, reply, fields)?;
        play_line(alloc, table, book, line.as_str(), reply.as_str(), differing)?;
    }
    Ok(())
}

// Plays what comes before the rows of a table, and then some of its rows.
fn play_some<B: Play>(
    alloc: Global,
    table: &Table,
    book: &mut B,
    rows: &[Vec<String>],
    tally: &mut Tally,
) -> Result<(), AllocError> {
    let before = table.before.as_slice();
    play_rows(alloc, table, book, before, &[], &mut tally.differing)?;
    let shapes = table.shapes.as_slice();
    for fields in rows {
        play_rows(alloc, table, book, shapes, fields, &mut tally.differing)?;
        tally.rows = tally.rows.saturating_add(1);
    }
    Ok(())
}

// A fresh disk of a table, opened, whose calls fail after the first `calls`.
fn opened(alloc: Global, table: &Table, calls: u64) -> Result<Opening<Device>, AllocError> {
    let bytes = Vec::from_elem(alloc, 0, table.size)?;
    let disk = FuseDisk::after(MemDisk::of(alloc, bytes)?, calls);
    match open_fresh(alloc, disk) {
        Ok(opening) => Ok(opening),
        Err(_) => Err(AllocError),
    }
}

// How many calls of a table's disk go through: all, or those of the opening and as many more as the table says.
fn calls_of(alloc: Global, table: &Table) -> u64 {
    let Some(more) = table.fails else {
        return u64::MAX;
    };
    for calls in 0..MOST_CALLS {
        if opened(alloc, table, calls).is_ok() {
            return calls.saturating_add(more);
        }
    }
    0
}

/// A fresh disk of a table, opened, whose calls fail after those of the opening and as many more as the table says.
pub(crate) fn opening_of(alloc: Global, table: &Table) -> Result<Opening<Device>, AllocError> {
    opened(alloc, table, calls_of(alloc, table))
}

/// The most changes that the history of a table's Book may have.
pub(crate) fn history_of(table: &Table) -> usize
    ensures { (1 ≤ result) × (result ≤ 1_048_576) }
{
    table.history.clamp(1, MOST_HISTORY)
}

// Plays some rows of a table over a Book of their own.
fn play_over<J: Chapter, H: Wait + Drop>(
    waits: H,
    alloc: Global,
    table: &Table,
    opening: Opening<Device>,
    history: usize,
    rows: &[Vec<String>],
    tally: &mut Tally,
) -> Result<(), AllocError>
    requires name { IsNamed J.base J.history J.setting opening history }
    requires history { (1 ≤ history) × (history ≤ 1_048_576) }
{
    match Book::<Device, J, H>::of(waits, alloc, opening, history, 1) {
        Ok((mut book, _seers)) => play_some(alloc, table, &mut book, rows, tally),
        Err(_) => Err(AllocError),
    }
}

/// Plays all rows of a table of lines: over one Book, or each over its own.
pub(crate) fn play_lines<H: Wait + Drop + Copy>(
    waits: H,
    alloc: Global,
    table: &Table,
) -> Result<Tally, AllocError> {
    let history = history_of(table);
    let mut tally = Tally::none(alloc);
    let count = if table.in_turn {
        table.rows.len().max(1)
    } else {
        1
    };
    for rows in table.rows.chunks(count) {
        let opening = opening_of(alloc, table)?;
        play_over::<Brand, _>(waits, alloc, table, opening, history, rows, &mut tally)?;
    }
    Ok(tally)
}
