//! Starts of the program: its words and its input, its status, what it says of its faults, and its output.

use crate::spelling::{line_bytes, push_bytes};
use crate::streams::{Script, Tight, Watch};
use crate::table::Table;
use crate::tally::{Case, Outcome, Tally};
use pfd::start;
use std::alloc::{AllocError, Global};
use std::fs::{File, OpenOptions};
use std::io::{self, ErrorKind, Write};
use std::net::{Net, TcpListener, TcpStream};
use std::sync::Wait;
use std::thread::Threads;

// The file of a table, made anew and open; locked if the table says so.
fn made(rt: &HostRuntime, table: &Table) -> io::Result<Option<File>> {
    let Some(file) = table.file else {
        return Ok(None);
    };
    let (name, rest) = file.split_once(' ').unwrap_or((file, ""));
    let (length, front) = rest.split_once(' ').unwrap_or((rest, ""));
    let mut bytes = Vec::new(rt.alloc());
    push_bytes(&mut bytes, front)?;
    let mut file = OpenOptions::new().write(true).create(true).open(rt, name)?;
    file.set_len(0)?;
    file.write_all(bytes.as_slice())?;
    file.set_len(length.parse::<u64>().unwrap_or(0))?;
    if table.is_locked && file.try_lock().is_err() {
        return Err(io::Error::from(ErrorKind::Other));
    }
    Ok(Some(file))
}

fn words_of(alloc: Global, line: &str) -> Result<Vec<String>, AllocError> {
    let mut words = Vec::new(alloc);
    for word in line.split(' ') {
        words.push(String::from_str(alloc, word)?)?;
    }
    Ok(words)
}

// The status, followed by what was written of faults.
pub(crate) fn end_of(alloc: Global, status: u8, reported: &[u8]) -> Result<String, AllocError> {
    let reported = std::str::from_utf8(reported).unwrap_or("no text");
    if reported.is_empty() {
        format!(in alloc; "{status}\n")
    } else {
        format!(in alloc; "{status} {reported}")
    }
}

/// Starts the program with the words of a line, which end in what it reads and in the limits of its writer.
pub(crate) fn started<N: Wait + Threads + Net<Listener = TcpListener, Stream = TcpStream> + Sync>(
    machine: &N,
    rt: &HostRuntime,
    line: &str,
    watch: &Watch,
) -> Result<Outcome, AllocError> {
    let alloc = rt.alloc();
    let (line, limits) = line.split_once(" > ").unwrap_or((line, ""));
    let (words, input) = line.split_once(" < ").unwrap_or((line, ""));
    let words = words_of(alloc, words)?;
    let input = line_bytes(alloc, input)?;
    let mut written = Vec::new(alloc);
    let mut reported = Vec::new(alloc);
    let mut reader = Script::new(input.as_slice(), watch);
    let mut writer = Tight::new(&mut written, limits, watch);
    let words = words.as_slice();
    let status = start(
        machine,
        alloc,
        rt,
        words,
        &mut reader,
        &mut writer,
        &mut reported,
    );
    if status == 0 && watch.is_waiting() {
        reported.extend_from_slice(b"what was written waits to be flushed\n")?;
    }
    let end = end_of(alloc, status, reported.as_slice())?;
    Ok(Outcome { end, written })
}

/// Plays all rows of a table of starts, one after the other.
pub(crate) fn start_each<
    N: Wait + Threads + Net<Listener = TcpListener, Stream = TcpStream> + Sync,
>(machine: &N, rt: &HostRuntime, table: &Table) -> io::Result<Tally> {
    let alloc = rt.alloc();
    let _file = made(rt, table)?;
    let mut tally = Tally::none(alloc);
    for case in &table.cases(alloc)? {
        let outcome = started(machine, rt, case.line.as_str(), &Watch::new(true))?;
        tally.note(alloc, case, &outcome)?;
    }
    Ok(tally)
}
