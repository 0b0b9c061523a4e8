//! What is asked of a file, as the program is asked: what it means, how cases come out by it, and which rules match a packet.

use crate::rows::{Row, bytes_of};
use pf_addr::path::Path;
use pf_tokens::{Bytes, Contents, Items};
use pfd_conf::{Cases, Fault, Firewall, Mode, Tried, check, given_interfaces, take};
use std::alloc::{AllocError, Global};
use std::io::{self, Write};

/// The interfaces that are given, with their addresses.
const INTERFACES: [&str; 2] = ["em0=192.0.2.1/24,2001:db8::1/64", "em1=10.0.0.1/8"];

/// What a file of this name has.
fn contents(alloc: Global, files: &[Row<'_>], name: &[u8]) -> Result<Contents, AllocError> {
    for file in files {
        if file.name.as_bytes() == name {
            return Ok(Contents::Text(bytes_of(alloc, file.lines)?));
        }
    }
    Ok(Contents::Unreadable)
}

fn firewall(alloc: Global, files: &[Row<'_>], name: &str) -> Result<Firewall, Fault> {
    let read = |name: &[u8]| contents(alloc, files, name);
    let interfaces = given_interfaces(alloc, &INTERFACES)?;
    let taken = take(
        alloc,
        &read,
        interfaces.as_slice(),
        Mode::Strict,
        &Path::main(),
        name.as_bytes(),
    )?;
    Ok(Firewall::of(alloc, taken)?)
}

/// The bytes of a file of cases; none if it isn't given.
fn case_bytes(alloc: Global, files: &[Row<'_>], name: &str) -> Result<Bytes, AllocError> {
    match contents(alloc, files, name.as_bytes())? {
        Contents::Text(text) => Ok(text),
        Contents::Unreadable => Ok(Items::new(alloc)),
    }
}

/// The files of cases with these names.
fn cases(alloc: Global, files: &[Row<'_>], names: &str) -> Result<Vec<Cases>, AllocError> {
    let mut cases = Vec::new(alloc);
    for name in names.split_whitespace() {
        let text = case_bytes(alloc, files, name)?;
        let name = Items::copied(alloc, name.as_bytes())?;
        cases.push(Cases { name, text })?;
    }
    Ok(cases)
}

/// Writes what a file means, behind its notes.
fn tell_meaning(
    alloc: Global,
    files: &[Row<'_>],
    name: &str,
    reported: &mut Vec<u8>,
) -> Result<(), Fault> {
    let read = |name: &[u8]| contents(alloc, files, name);
    let mut notes = Vec::new(alloc);
    let interfaces = given_interfaces(alloc, &INTERFACES)?;
    check(
        alloc,
        &read,
        interfaces.as_slice(),
        Mode::Strict,
        &Path::main(),
        name,
        reported,
        &mut notes,
    )
}

/// Writes which rules match a packet.
fn tell_matches(
    alloc: Global,
    files: &[Row<'_>],
    row: &Row<'_>,
    reported: &mut Vec<u8>,
) -> Result<(), Fault> {
    let packet = [row.words];
    firewall(alloc, files, row.name)?.explain(alloc, reported, &packet)
}

/// Writes which rules decide no case.
fn tell_cover(
    alloc: Global,
    firewall: &Firewall,
    tried: &[Tried<'_>],
    reported: &mut Vec<u8>,
) -> Result<(), Fault> {
    match firewall.cover(alloc, reported, tried) {
        Ok(_) => Ok(()),
        Err(fault) => Err(fault),
    }
}

/// Writes what cases come to, in the way that the row's word says.
fn tell_tried(
    alloc: Global,
    firewall: &Firewall,
    word: &str,
    cases: &[Cases],
    reported: &mut Vec<u8>,
) -> Result<(), Fault> {
    let tried = firewall.judged(alloc, cases)?;
    match word {
        "test" => firewall.report(alloc, reported, &tried),
        "tap" => firewall.report_tap(alloc, reported, &tried),
        "junit" => firewall.report_junit(alloc, reported, &tried),
        "cover" => tell_cover(alloc, firewall, &tried, reported),
        _ => Ok(()),
    }
}

/// Writes what files of cases come to.
fn tell_cases(
    alloc: Global,
    files: &[Row<'_>],
    row: &Row<'_>,
    reported: &mut Vec<u8>,
) -> Result<(), Fault> {
    let firewall = firewall(alloc, files, row.name)?;
    let cases = cases(alloc, files, row.words)?;
    tell_tried(alloc, &firewall, row.kind, &cases, reported)
}

/// Writes what the words of a row are answered.
fn answer(
    alloc: Global,
    files: &[Row<'_>],
    row: &Row<'_>,
    reported: &mut Vec<u8>,
) -> Result<(), Fault> {
    match row.kind {
        "check" => tell_meaning(alloc, files, row.name, reported),
        "explain" => tell_matches(alloc, files, row, reported),
        _ => tell_cases(alloc, files, row, reported),
    }
}

/// What the words of a row are answered, with the fault at its end if there is one.
fn answered(alloc: Global, files: &[Row<'_>], row: &Row<'_>) -> io::Result<Vec<u8>> {
    let mut reported = Vec::new(alloc);
    if let Err(fault) = answer(alloc, files, row, &mut reported) {
        writeln!(reported, "{fault}")?;
    }
    Ok(reported)
}

/// Writes what a row is answered, if that isn't what is wanted.
pub(crate) fn ask<W: Write>(
    alloc: Global,
    out: &mut W,
    files: &[Row<'_>],
    row: &Row<'_>,
) -> io::Result<()> {
    let reported = answered(alloc, files, row)?;
    let wanted = bytes_of(alloc, row.lines)?;
    if reported.as_slice() == wanted.as_slice() {
        return Ok(());
    }
    writeln!(out, "{} {} {}: it is told:", row.kind, row.name, row.words)?;
    out.write_all(reported.as_slice())
}
