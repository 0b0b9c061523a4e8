//! What a table came to.

use crate::spelling::is_reply;
use std::alloc::{AllocError, Global};
use std::io::{self, Write};

/// A row that isn't a line: what is played, how it has to end, and what has to be written.
#[derive(Drop)]
pub(crate) struct Case {
    pub(crate) line: String,
    pub(crate) end: String,
    pub(crate) written: String,
}

/// What a case came to: how it ended, in whole lines, and what was written.
#[derive(Drop)]
pub(crate) struct Outcome {
    pub(crate) end: String,
    pub(crate) written: Vec<u8>,
}

/// What a table came to: how many rows were played, or facts looked at, and a line for each that differs.
#[derive(Drop)]
pub(crate) struct Tally {
    pub(crate) rows: usize,
    pub(crate) differing: String,
}

impl Tally {
    /// A tally of no rows.
    pub(crate) fn none(alloc: Global) -> Tally {
        Tally {
            rows: 0,
            differing: String::new(alloc),
        }
    }

    /// Counts a case, and notes what it came to if that isn't what is wanted.
    pub(crate) fn note(
        &mut self,
        alloc: Global,
        case: &Case,
        outcome: &Outcome,
    ) -> Result<(), AllocError> {
        let ended = is_reply(alloc, outcome.end.as_bytes(), case.end.as_str())?;
        let wrote = is_reply(alloc, outcome.written.as_slice(), case.written.as_str())?;
        self.rows = self.rows.saturating_add(1);
        if ended && wrote {
            return Ok(());
        }
        let written = std::str::from_utf8(outcome.written.as_slice()).unwrap_or("no text");
        let end = outcome.end.as_str();
        write!(
            self.differing,
            "  {} -> {end:?} -> {written:?}\n",
            case.line
        )
    }

    /// Counts a fact, and notes it if it doesn't hold.
    pub(crate) fn hold(&mut self, fact: &str, holds: bool) -> Result<(), AllocError> {
        self.rows = self.rows.saturating_add(1);
        if holds {
            return Ok(());
        }
        write!(self.differing, "  {fact}\n")
    }

    /// Writes how many rows were played, and those that differ.
    pub(crate) fn tell<W: Write>(&self, out: &mut W, name: &str) -> io::Result<()> {
        writeln!(out, "{name}: {} rows", self.rows)?;
        out.write_all(self.differing.as_bytes())
    }
}
