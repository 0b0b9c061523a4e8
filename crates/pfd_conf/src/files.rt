//! Reading files. What a file holds no contract can say, so that is only tested.
ghost use Rattle.std.specs.{Prelude.{IfOk}, Io.ReadsAtMost};
ghost use Rattle.pfd_conf.specs.Outcomes.{IsShort};

use crate::fault::Fault;
use crate::outcomes::{CASES_LIMIT, Cases};
use pf_tokens::{Bytes, Contents, FILE_LIMIT, Items};
use std::alloc::{AllocError, Global};
use std::fs::{self, File, Files, Metadata};
use std::io::{self, ErrorKind, Read};
use std::os::unix::fs::FileTypeExt;

/// Whether it is a file, or a pipe: what else has a name isn't opened, since that alone may do something, and a device may never end.
fn is_readable(metadata: &io::Result<Metadata>) -> bool {
    match metadata {
        Ok(metadata) => metadata.is_file() || metadata.file_type().is_fifo(),
        Err(_) => false,
    }
}

/// One read, tried again if a signal interrupts it.
fn read_some<R: Read>(reader: &mut R, some: &mut [u8]) -> io::Result<usize>
    ensures { ReadsAtMost result some.new }
{
    for _ in 0..u64::MAX {
        match reader.read(some) {
            Err(error) if error.kind() == ErrorKind::Interrupted => {}
            done => return done,
        }
    }
    let message = "each read was interrupted";
    Err(io::Error::new(ErrorKind::TimedOut, message))
}

/// Appends what a reader gives, until there is more than the limit or no more, so that whatever grows has an end.
fn read_up_to<R: Read>(reader: &mut R, limit: usize, bytes: &mut Vec<u8>) -> io::Result<()> {
    let mut some = [0; 65536];
    for _ in 0..u64::MAX {
        if bytes.len() > limit {
            return Ok(());
        }
        let count = read_some(reader, &mut some)?;
        if count == 0 {
            return Ok(());
        }
        bytes.extend_from_slice(&some[..count])?;
    }
    Ok(())
}

/// What an open file has, up to a part past the limit; nothing if it can't be read.
fn bytes_of(alloc: Global, mut file: File, limit: usize) -> Result<Option<Bytes>, AllocError> {
    if !is_readable(&file.metadata()) {
        return Ok(None);
    }
    let mut bytes = Vec::new(alloc);
    match read_up_to(&mut file, limit, &mut bytes) {
        Ok(()) => Ok(Some(Items::of(bytes))),
        Err(error) if error.kind() == ErrorKind::OutOfMemory => Err(AllocError),
        Err(_) => Ok(None),
    }
}

/// What the file of this name has, up to a part past the limit; nothing if it can't be read. `-` is standard input.
fn bytes_at<S: Files<File = File>>(
    alloc: Global,
    files: &S,
    name: &[u8],
    limit: usize,
) -> Result<Option<Bytes>, AllocError> {
    let Ok(name) = str::from_utf8(name) else {
        return Ok(None);
    };
    let path = if name == "-" { "/dev/stdin" } else { name };
    if !is_readable(&fs::metadata(files, path)) {
        return Ok(None);
    }
    match File::open(files, path) {
        Ok(file) => bytes_of(alloc, file, limit),
        Err(error) if error.kind() == ErrorKind::OutOfMemory => Err(AllocError),
        Err(_) => Ok(None),
    }
}

/// What the file of this name has that is a pf.conf, or is named in one: a file or a pipe is read to its end, or until it is too
/// long, and nothing else can be read. `-` is standard input.
pub fn read_conf<S: Files<File = File>>(
    alloc: Global,
    files: &S,
    name: &[u8],
) -> Result<Contents, AllocError> {
    match bytes_at(alloc, files, name, FILE_LIMIT)? {
        Some(bytes) => Ok(Contents::Text(bytes)),
        None => Ok(Contents::Unreadable),
    }
}

/// The file of cases of this name, which has at most [`CASES_LIMIT`] bytes.
pub fn read_cases<S: Files<File = File>>(
    alloc: Global,
    files: &S,
    name: &str,
) -> Result<Cases, Fault>
    ensures { IfOk result IsShort }
{
    let name = Items::copied(alloc, name.as_bytes())?;
    match bytes_at(alloc, files, name.as_slice(), CASES_LIMIT)? {
        Some(text) if text.len() <= CASES_LIMIT => Ok(Cases { name, text }),
        Some(_) => Err(Fault::LongCases(name)),
        None => Err(Fault::Unread(name)),
    }
}
