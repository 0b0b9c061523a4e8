//! Which lines of a session are denied that may only ask, and what is written for them.
ghost use Rattle.std.specs.{Prelude.{◌≡◌, ◌<◌, length, IfSome}, List.position};
ghost use Rattle.pf_addr.specs.Writing.{Writes};
ghost use Rattle.pf_form.specs.Form.Words.{is_blank};
ghost use Rattle.pf_session.specs.{LineEngine.Lines.seen, Server.Askings.{asks, denied_text, denies, from_word, is_denied, is_of_word, to_blank}};

use crate::line_engine::LOOKED_AT;
use pf_addr::write_text;
use pf_form::form::is_blank;
use std::io::{self, Write};

// Whether a line that begins with this word asks and changes nothing.
fn asks(word: &[u8]) -> bool
    ensures { result ≡ asks word.now }
{
    word == b"judge".as_slice()
        || word == b"test".as_slice()
        || word == b"show".as_slice()
        || word == b"sum".as_slice()
        || word == b"log".as_slice()
        || word == b"export".as_slice()
}

fn first_of_word(line: &[u8]) -> Option<usize>
    ensures place { result ≡ position is_of_word line.now }
    ensures within { IfSome result (λ i. i < length line.now) }
{
    line.iter().position(|b| !is_blank(*b))
}

fn first_blank(line: &[u8]) -> Option<usize>
    ensures place { result ≡ position is_blank line.now }
    ensures within { IfSome result (λ i. i < length line.now) }
{
    line.iter().position(|b| is_blank(*b))
}

// A line from its first word on.
fn from_word(line: &[u8]) -> &[u8]
    ensures { result.now ≡ from_word line.now }
{
    match first_of_word(line) {
        Some(at) => &line[at..],
        None => &[],
    }
}

// What stands before the first blank.
fn to_blank(line: &[u8]) -> &[u8]
    ensures { result.now ≡ to_blank line.now }
{
    match first_blank(line) {
        Some(at) => &line[..at],
        None => line,
    }
}

// As much of a line as is looked at.
fn seen(line: &[u8]) -> &[u8]
    ensures { result.now ≡ seen line.now }
{
    match line.get(..LOOKED_AT) {
        Some(front) => front,
        None => line,
    }
}

// Whether a line is denied that has this first word.
fn denies(word: &[u8]) -> bool
    ensures { result ≡ denies word.now }
{
    match word {
        [first, ..] => *first != b'#' && !asks(word),
        [] => false,
    }
}

/// Whether a line is denied, by what is looked at of it, its first 4,097 bytes: it has a word, and the first one begins no comment and no
/// question.
pub(super) fn is_denied(line: &[u8]) -> bool
    ensures { result ≡ is_denied line.now }
{
    denies(to_blank(from_word(seen(line))))
}

/// Writes that what came isn't let in: `err denied`. `Err`: a write failed; some front of it is out.
pub fn deny<W: Write>(writer: &mut W) -> io::Result<()>
    ensures { Writes result (W.contents writer.old) (W.contents writer.new) denied_text }
{
    write_text(writer, b"err denied\n")
}
