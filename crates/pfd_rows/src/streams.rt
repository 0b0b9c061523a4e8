//! Readers and writers that follow a script.

use std::io::{self, ErrorKind, Read, Write};
use std::sync::atomic::{AtomicBool, AtomicU32, Ordering};
use std::thread;

/// The most times that a client yields to other threads until a server listens.
const MOST_TURNS: u32 = 10_000_000;

/// At how many addresses a server listens at most.
const MOST_ADDRESSES: usize = 3;

/// What a writer tells others of what was written.
#[derive(Drop)]
pub(crate) struct Watch {
    /// Nothing may be read while something waits to be flushed.
    is_strict: bool,
    /// Something waits to be flushed.
    is_waiting: AtomicBool,
    /// The ports at which a server said that it listens, in the order of its addresses; each is 0 before that.
    ports: [AtomicU32; MOST_ADDRESSES],
}

impl Watch {
    pub(crate) fn new(is_strict: bool) -> Watch {
        Watch {
            is_strict,
            is_waiting: AtomicBool::new(false),
            ports: [AtomicU32::new(0), AtomicU32::new(0), AtomicU32::new(0)],
        }
    }

    /// Whether something that was written waits to be flushed.
    pub(crate) fn is_waiting(&self) -> bool {
        self.is_waiting.load(Ordering::SeqCst)
    }

    // Takes note of the ports in all that a server wrote.
    fn note_ports(&self, text: &[u8]) {
        let text = std::str::from_utf8(text).unwrap_or("");
        for (line, noted) in text.lines().zip(&self.ports) {
            if let Some(port) = line.strip_prefix("listening 127.0.0.1:") {
                noted.store(port.parse::<u32>().unwrap_or(0), Ordering::SeqCst);
            }
        }
    }

    /// The port of a server's address of this number, from 1 on, once it listens there; 0 if it doesn't in time.
    pub(crate) fn port(&self, number: usize) -> u32 {
        let Some(port) = self.ports.get(number.saturating_sub(1)) else {
            return 0;
        };
        for _ in 0..MOST_TURNS {
            if port.load(Ordering::SeqCst) != 0 {
                break;
            }
            thread::yield_now();
        }
        port.load(Ordering::SeqCst)
    }
}

/// A reader whose reads each give the next piece, and after the last one are at the end. A piece `~` is an interruption, `!` a fault, and
/// `*` newlines without end. Under a strict watch a read also fails while replies wait to be flushed.
#[derive(Drop)]
pub(crate) struct Script<'a> {
    rest: &'a [u8],
    watch: &'a Watch,
}

impl<'a> Script<'a> {
    /// The reader of these bytes, with `|` between its pieces.
    pub(crate) fn new(bytes: &'a [u8], watch: &'a Watch) -> Script<'a> {
        Script { rest: bytes, watch }
    }

    fn next_piece(&mut self) -> &'a [u8] {
        let rest = self.rest;
        let end = rest.iter().position(|byte| *byte == b'|');
        let end = end.unwrap_or(rest.len());
        self.rest = rest.get(end.saturating_add(1)..).unwrap_or(&[]);
        rest.get(..end).unwrap_or(rest)
    }
}

impl Read for Script<'_> {
    fn read(&mut self, buf: &mut [u8]) -> io::Result<usize> {
        if self.rest == b"*".as_slice() {
            buf.fill(b'\n');
            return Ok(buf.len());
        }
        let mut piece = self.next_piece();
        if self.watch.is_strict && self.watch.is_waiting() || piece == b"!".as_slice() {
            return Err(io::Error::from(ErrorKind::Other));
        }
        if piece == b"~".as_slice() {
            return Err(io::Error::from(ErrorKind::Interrupted));
        }
        piece.read(buf)
    }
}

/// A writer with room for `room` bytes, whose first `interruptions` writes are interrupted, and which can be flushed `flushes` times.
#[derive(Drop)]
pub(crate) struct Tight<'a> {
    text: &'a mut Vec<u8>,
    room: usize,
    interruptions: u32,
    flushes: u32,
    watch: &'a Watch,
}

impl<'a> Tight<'a> {
    /// A writer with these limits, as `stdin` spells them. What isn't named has no limit.
    pub(crate) fn new(text: &'a mut Vec<u8>, limits: &str, watch: &'a Watch) -> Tight<'a> {
        let mut writer = Tight {
            text,
            room: usize::MAX,
            interruptions: 0,
            flushes: u32::MAX,
            watch,
        };
        for limit in limits.split(", ") {
            writer.limit(limit);
        }
        writer
    }

    // Sets one limit: a word and its number.
    fn limit(&mut self, limit: &str) {
        let (word, number) = limit.split_once(' ').unwrap_or((limit, ""));
        let number = number.parse::<u32>().unwrap_or(0);
        match word {
            "room" => self.room = number as usize,
            "interrupted" => self.interruptions = number,
            "flushes" => self.flushes = number,
            _ => {}
        }
    }
}

impl Write for Tight<'_> {
    fn write(&mut self, buf: &[u8]) -> io::Result<usize> {
        if self.interruptions > 0 {
            self.interruptions -= 1;
            return Err(io::Error::from(ErrorKind::Interrupted));
        }
        if self.room == 0 {
            return Err(io::Error::from(ErrorKind::Other));
        }
        let n = buf.len().min(self.room);
        self.text.extend_from_slice(&buf[..n])?;
        self.room -= n;
        self.watch.is_waiting.store(true, Ordering::SeqCst);
        Ok(n)
    }

    fn flush(&mut self) -> io::Result<()> {
        if self.flushes == 0 {
            return Err(io::Error::from(ErrorKind::Other));
        }
        self.flushes -= 1;
        self.watch.is_waiting.store(false, Ordering::SeqCst);
        self.watch.note_ports(self.text);
        Ok(())
    }
}
