//! What is told of a case: what its file means, behind its notes; or the fault.

use crate::again::is_read_again;
use crate::rows::Row;
use pf_conf::{Conf, Unread, resolve, write_conf};
use pf_tokens::{Bytes, Contents, File, Files, Items, READING_LIMIT};
use std::alloc::{AllocError, Global};
use std::io::{self, Write};

/// The files that a case is read with: those that any case may name, and its own.
fn files_of(alloc: Global, given: &[Row<'_>], case: &Row<'_>) -> Result<Files, AllocError> {
    let mut files = Items::new(alloc);
    for row in given {
        files.push(row.file(alloc)?)?;
    }
    files.push(case.file(alloc)?)?;
    Ok(files)
}

/// A file that can't be read.
fn unreadable(name: Bytes) -> File {
    File {
        name,
        contents: Contents::Unreadable,
    }
}

/// What a case's file means. A file that isn't given can't be read.
fn meaning(alloc: Global, files: &mut Files, case: &Row<'_>) -> Result<Conf, Unread> {
    let interfaces = case.interfaces(alloc)?;
    for _ in 0..READING_LIMIT {
        match resolve(
            alloc,
            files,
            interfaces.as_slice(),
            case.mode(),
            &case.base(),
            case.name.as_bytes(),
        ) {
            Err(Unread::Needs(name)) => files.push(unreadable(name))?,
            reported => return reported,
        }
    }
    Err(Unread::Memory)
}

/// Writes what a file means, behind its notes.
fn write_meaning<W: Write>(alloc: Global, out: &mut W, conf: &Conf) -> io::Result<()> {
    for note in conf.notes.as_slice() {
        writeln!(out, "{note}")?;
    }
    write_conf(out, conf)?;
    if !is_read_again(alloc, conf)? {
        writeln!(out, "main's rules are read otherwise")?;
    }
    Ok(())
}

/// Writes why a file means nothing.
fn write_unread<W: Write>(out: &mut W, unread: &Unread) -> io::Result<()> {
    match unread {
        Unread::Faulty(fault) => writeln!(out, "{fault}"),
        Unread::Needs(name) => writeln!(out, "{name} isn't given"),
        Unread::Memory => writeln!(out, "out of memory"),
    }
}

/// Writes what came of a case's file.
fn write_outcome<W: Write>(
    alloc: Global,
    out: &mut W,
    reported: &Result<Conf, Unread>,
) -> io::Result<()> {
    match reported {
        Ok(conf) => write_meaning(alloc, out, conf),
        Err(unread) => write_unread(out, unread),
    }
}

/// Writes a case's name, and what is told of it.
pub(crate) fn tell<W: Write>(
    alloc: Global,
    out: &mut W,
    given: &[Row<'_>],
    case: &Row<'_>,
) -> io::Result<()> {
    writeln!(out, "== {}", case.name)?;
    let mut files = files_of(alloc, given, case)?;
    write_outcome(alloc, out, &meaning(alloc, &mut files, case))
}
