//! What is sent to a server, and what is read of it.
ghost use Rattle.std.specs.{Prelude.{◌≡◌, ◌∷◌, ◌++◌, ◌<◌, [], length, IfOk}, Io.KnownBytes.Consumes};
ghost use Rattle.pf_addr.specs.Writing.{Writes};

use crate::fault::Fault;
use pf_addr::write_text;
use std::alloc::Global;
use std::io::{BufRead, ErrorKind, Write};

/// Sends lines at once. `Fault::Ended`: the server is gone; a front of them was sent.
pub fn send<W: Write>(server: &mut W, lines: &[u8]) -> Result<(), Fault>
    ensures { Writes result (W.contents server.old) (W.contents server.new) lines.now }
{
    match write_text(server, lines) {
        Ok(()) => match server.flush() {
            Ok(()) => Ok(()),
            Err(_) => Err(Fault::Ended),
        },
        Err(_) => Err(Fault::Ended),
    }
}

/// The next line of the replies, without its newline.
///
/// `Fault::Ended`: the server ended before its end, or it couldn't be read. `Fault::Memory`: out of memory.
pub fn read_reply<B: BufRead>(alloc: Global, replies: &mut B) -> Result<Vec<u8>, Fault>
    ensures { IfOk result (λ reply. Consumes (B.remaining replies.old) (B.remaining replies.new) (reply.items ++ 10 ∷ [])) }
{
    let mut reply = Vec::new(alloc);
    match replies.read_until(b'\n', &mut reply) {
        Ok(_) => {}
        Err(error) if error.kind() == ErrorKind::OutOfMemory => return Err(Fault::Memory),
        Err(_) => return Err(Fault::Ended),
    }
    match reply.pop() {
        Some(b'\n') => Ok(reply),
        _ => Err(Fault::Ended),
    }
}

/// The first of some lines, without its newline, and those behind it.
pub fn first_line(lines: &[u8]) -> (&[u8], &[u8])
    ensures { 0 < length lines.now → length result.1.now < length lines.now }
{
    match lines.iter().position(|byte| *byte == b'\n') {
        Some(end) => (&lines[..end], &lines[end + 1..]),
        None => (lines, &[]),
    }
}

/// Reads the replies to some lines. `Fault::Refused`: all were read, and this line is the first whose reply isn't `ok`.
pub(crate) fn heed<B: BufRead>(alloc: Global, replies: &mut B, lines: &[u8]) -> Result<(), Fault> {
    let mut refused = Ok(());
    let mut left = lines;
    while !left.is_empty() {
        let (line, rest) = first_line(left);
        let reply = read_reply(alloc, replies)?;
        if refused.is_ok() && reply.as_slice() != b"ok".as_slice() {
            refused = Err(Fault::refused(alloc, line, &reply));
        }
        left = rest;
    }
    refused
}
