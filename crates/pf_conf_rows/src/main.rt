//! A program of tests: it reads files as pfctl would, and writes what each means, or its fault. It also asks of files what the program is
//! asked, and compares the answers with what is wanted: it writes each that differs, and how many it compared. The head of its input,
//! `stdin`, says how files and rows are written; `stdout` is what it has to write.
//!
//! What is wanted was worked out by hand from pf.conf(5), TAP's and JUnit's descriptions, never taken from the program. The modules: `rows`
//! (how files and rows are spelled), `again` (what is printed of main's rules, read once more: it has to be the same rules), `telling`
//! (what is told of a case), `asking` (what is asked of a file).
#![tactic(auto)]

mod again;
mod asking;
mod rows;
mod telling;

use crate::asking::ask;
use crate::rows::Row;
use crate::telling::tell;
use std::alloc::Global;
use std::io::{self, BufWriter, Write};

/// Keeps a file for what stands behind it, writes what is told of a case, or compares what a row is answered. Returns whether it compared.
fn play<'a, W: Write>(
    alloc: Global,
    out: &mut W,
    given: &mut Vec<Row<'a>>,
    row: Row<'a>,
) -> io::Result<bool> {
    match row.kind {
        "file" => {
            given.push(row)?;
            Ok(false)
        }
        "case" => {
            tell(alloc, out, given, &row)?;
            Ok(false)
        }
        _ => {
            ask(alloc, out, given, &row)?;
            Ok(true)
        }
    }
}

/// Plays a text: how many answers were compared. What stands before the first row says how rows are written.
fn play_all<W: Write>(alloc: Global, out: &mut W, text: &str) -> io::Result<u32> {
    let mut given = Vec::new(alloc);
    let mut compared: u32 = 0;
    for text in text.split("\n== ").skip(1) {
        if play(alloc, out, &mut given, Row::read(text))? {
            compared = compared.saturating_add(1);
        }
    }
    Ok(compared)
}

fn main(rt: HostRuntime) -> io::Result<()> {
    let text = io::read_to_string(rt.alloc(), rt.stdin())?;
    let mut out = BufWriter::new(rt.alloc(), rt.stdout())?;
    let compared = play_all(rt.alloc(), &mut out, text.as_str())?;
    if compared > 0 {
        writeln!(out, "{compared} rows")?;
    }
    out.flush()
}
