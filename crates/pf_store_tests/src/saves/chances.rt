// Lines, peers' streams and images at random.

use super::{Bench, Opened};
use crate::books::{Hold, answered_text, ask, asked_by};
use crate::chance::{Chance, Tally};
use crate::rows::{bytes_of, cut_word, number};
use crate::streams::{asked_by_stream, cut_text, front_of, pieces_of, rest_from, stream_at_random};
use std::alloc::{AllocError, Global};
use std::sync::Wait;

/// The first ticket of a device's first opening.
const FIRST_TICKET: &str = "1.1";

/// Bytes that mean something on a device.
const BYTES: &[u8] = &[
    0, 1, 2, 4, 5, 6, 7, 9, 0x10, 0x2B, 0x7D, 0x7E, 0x80, 0xA5, 0xA5, 0xFF,
];

/// How many bytes are mostly changed, from the start on, and how many at the start of the second half.
const FRONT: usize = 64;

const HEADER: usize = 26;

/// What a reply begins with: its first word, and behind `err` the next one too. What a question is told has no kind of its own.
fn kind_of(alloc: Global, reply: &str) -> Result<String, AllocError> {
    let (word, rest) = cut_word(reply);
    match word {
        "" => String::from_str(alloc, "no reply"),
        "err" => format!(in alloc; "err {}", cut_word(rest).0),
        "ok" | "applied" | "busy" | "pass" | "block" | "match" | "nomatch" => {
            String::from_str(alloc, word)
        }
        _ => String::from_str(alloc, "told"),
    }
}

/// Whether a reply is a refusal.
fn is_refusal(reply: &str) -> bool {
    reply.starts_with("err ") || reply.starts_with("busy ")
}

impl<H: Wait + Drop + Copy> Bench<H> {
    /// Takes over the words of a row.
    pub(super) fn add_word(&mut self, reported: &mut String, row: &str) -> Result<(), AllocError> {
        let count = self.words.add(row)?;
        write!(reported, "{count} texts")
    }

    /// Plays lines at random: how often each kind of reply came, and after how many refused lines something else was kept than before.
    pub(super) fn tell_lines<B: Hold>(
        &mut self,
        reported: &mut String,
        book: &mut B,
        how: &str,
    ) -> Result<(), AllocError> {
        let (seed, times) = cut_word(how);
        let (mut chance, mut tally) = (Chance::new(number(seed) as u64), Tally::new(self.alloc));
        self.words.ticket = String::from_str(self.alloc, FIRST_TICKET)?;
        let mut kept = self.kept_by(book)?;
        let mut others = 0u64;
        for _ in 0..number(times) {
            let line = self.words.line(&mut chance, "LINE")?;
            let reply = answered_text(self.alloc, book, asked_by(self.alloc, &line)?)?;
            let now = self.kept_by(book)?;
            if is_refusal(reply.as_str()) && now != kept {
                others = others.saturating_add(1);
            }
            kept = now;
            self.note_ticket(reply.as_str())?;
            tally.count(kind_of(self.alloc, reply.as_str())?, reply.as_str())?;
        }
        tally.tell(reported)?;
        write!(reported, "\n  refused and not as before: {others}")?;
        self.keep(book)
    }

    // Keeps the last of the tickets that a reply gives.
    fn note_ticket(&mut self, reply: &str) -> Result<(), AllocError> {
        if let Some(tickets) = reply.strip_prefix("ok ") {
            let last = tickets
                .rsplit_once(' ')
                .map_or(tickets, |(_, ticket)| ticket);
            self.words.ticket = String::from_str(self.alloc, last)?;
        }
        Ok(())
    }

    /// Plays streams at random, each over the device with its bytes, whole and in pieces.
    pub(super) fn tell_streams(&self, reported: &mut String, how: &str) -> Result<(), AllocError> {
        let (seed, times) = cut_word(how);
        let (mut chance, mut tally) = (Chance::new(number(seed) as u64), Tally::new(self.alloc));
        let mut same = 0u64;
        for _ in 0..number(times) {
            let stream = stream_at_random(self.alloc, &self.words, &mut chance)?;
            let whole = self.stream_text(&[stream.as_slice()])?;
            let pieces = pieces_of(self.alloc, &mut chance, &stream)?;
            if self.stream_text(&pieces)? == whole {
                same = same.saturating_add(1);
            }
            let kind = whole.split_once(": ").map_or("", |(kind, _)| kind);
            tally.count(String::from_str(self.alloc, kind)?, whole.as_str())?;
        }
        tally.tell(reported)?;
        write!(reported, "\n  in pieces the same: {same}")
    }

    /// What a stream in these pieces comes to over the device with its bytes.
    fn stream_text(&self, pieces: &[&[u8]]) -> Result<String, AllocError> {
        let (head, asked) = asked_by_stream(self.alloc, pieces)?;
        let over = ask(self.waits, self.alloc, self.device()?, asked)?;
        match over.opened {
            Ok(_) => format!(in self.alloc; "{head}{}", over.text),
            Err(fault) => format!(in self.alloc; "{fault:?}"),
        }
    }

    /// Writes how a message ends that is cut at each place, and at how many pairs of places it comes to the same as whole.
    pub(super) fn tell_cuts(&self, reported: &mut String, digits: &str) -> Result<(), AllocError> {
        let message = bytes_of(self.alloc, digits)?;
        let mut last = String::new(self.alloc);
        for cut in 0..message.len().saturating_add(1) {
            let text = cut_text(
                self.alloc,
                front_of(&message, cut),
                rest_from(&message, cut),
            )?;
            if text != last {
                write!(reported, "\n  behind {cut} bytes: {text}")?;
                last = text;
            }
        }
        self.tell_pairs_of_cuts(reported, &message)
    }

    fn tell_pairs_of_cuts(&self, reported: &mut String, message: &[u8]) -> Result<(), AllocError> {
        let whole = self.stream_text(&[message])?;
        let (mut same, mut all) = (0u64, 0u64);
        for second in 0..message.len().saturating_add(1) {
            let (front, last) = (front_of(message, second), rest_from(message, second));
            for first in 0..second.saturating_add(1) {
                let pieces = [front_of(front, first), rest_from(front, first), last];
                all = all.saturating_add(1);
                if self.stream_text(&pieces)? == whole {
                    same = same.saturating_add(1);
                }
            }
        }
        write!(
            reported,
            "\n  whole: {whole}\n  at two places the same: {same} of {all}"
        )
    }

    /// Opens the device with up to four bytes changed at random, again and again.
    pub(super) fn tell_images(&self, reported: &mut String, how: &str) -> Result<(), AllocError> {
        let (seed, times) = cut_word(how);
        let (mut chance, mut tally) = (Chance::new(number(seed) as u64), Tally::new(self.alloc));
        for _ in 0..number(times) {
            let bytes = self.with_changes(&mut chance)?;
            let (kind, outcome) = self.opened_texts(bytes)?;
            tally.count(kind, outcome.as_str())?;
        }
        tally.tell(reported)
    }

    // What a device with these bytes is opened as, without its epoch; and that with the epoch and all that is kept.
    fn opened_texts(&self, bytes: Vec<u8>) -> Result<(String, String), AllocError> {
        let (mut kind, mut outcome) = (String::new(self.alloc), String::new(self.alloc));
        match self.opened(bytes)? {
            Ok(opened) => {
                let Opened {
                    epoch,
                    gate,
                    kept,
                    ..
                } = &opened;
                write!(kind, "opened, gate {gate}, saves ")?;
                self.tell_saves(&mut kind, kept)?;
                write!(outcome, "epoch {epoch}, gate {gate}: {kept}")?;
            }
            Err(fault) => write!(kind, "{fault:?}")?,
        }
        outcome.push_str(kind.as_str())?;
        Ok((kind, outcome))
    }

    // The device's bytes with one to four changes, mostly at its start.
    fn with_changes(&self, chance: &mut Chance) -> Result<Vec<u8>, AllocError> {
        let mut bytes = self.bytes.to_vec(self.alloc)?;
        let (size, half) = (bytes.len(), bytes.len() / 2);
        let changes = chance.below(4);
        for _ in 0..changes.saturating_add(1) {
            let place = match chance.below(8) {
                0 => chance.below(size),
                1 => half.saturating_add(chance.below(HEADER)),
                _ => chance.below(FRONT),
            };
            if let Some(byte) = bytes.get_mut(place) {
                *byte = chance.byte(*byte, BYTES);
            }
        }
        Ok(bytes)
    }
}
