// How rows are spelled. The head of `stdin` says what each kind means.

use crate::chance::Chance;
use std::alloc::{AllocError, Global};

/// What is written between the lines of a group, and between its replies.
pub const GROUPED: &str = " + ";

/// Rows that are played in turn, over an opening if they open a device.
#[derive(Drop)]
pub struct Segment<'a> {
    pub opens: bool,
    pub rows: Vec<&'a str>,
}

impl<'a> Segment<'a> {
    fn new(alloc: Global, opens: bool) -> Segment<'a> {
        Segment {
            opens,
            rows: Vec::new(alloc),
        }
    }
}

/// The rows of a text, cut before each that makes, formats or opens a device. The row of an opening is left out.
pub fn segments<'a>(alloc: Global, text: &'a str) -> Result<Vec<Segment<'a>>, AllocError> {
    let mut segments = Vec::new(alloc);
    let mut segment = Segment::new(alloc, false);
    for row in text.split('\n') {
        let opens = row == "open";
        let makes = row.starts_with("zeros ") || row.starts_with("file ");
        if opens || makes || row == "format" {
            segments.push(segment)?;
            segment = Segment::new(alloc, opens);
        }
        if !opens {
            segment.rows.push(row)?;
        }
    }
    segments.push(segment)?;
    Ok(segments)
}

/// Writes a row, and returns whether it is played: comments, headings and empty rows aren't.
pub fn tell_row(reported: &mut String, row: &str) -> Result<bool, AllocError> {
    reported.push_str(row)?;
    let is_played = !row.is_empty() && !row.starts_with("//") && !row.starts_with("==");
    if is_played {
        reported.push_str(" -> ")?;
    }
    Ok(is_played)
}

/// The first word of a row, and what comes after it.
pub fn cut_word(row: &str) -> (&str, &str) {
    row.split_once(' ').unwrap_or((row, ""))
}

/// What comes before the first bar, and what comes after it.
pub fn cut_bar(text: &str) -> (&str, &str) {
    text.split_once(" | ").unwrap_or((text, ""))
}

/// The number in decimal digits, or 0 if it is none.
pub fn number(text: &str) -> usize {
    text.parse::<usize>().unwrap_or(0)
}

/// Puts other bytes at some places, each as `51=a5`.
pub fn put_bytes(bytes: &mut Vec<u8>, changes: &str) {
    for change in changes.split(' ') {
        let (place, byte) = change.split_once('=').unwrap_or(("", ""));
        if let (Ok(place), Ok(byte)) = (place.parse::<usize>(), u8::from_str_radix(byte, 16)) {
            if let Some(old) = bytes.get_mut(place) {
                *old = byte;
            }
        }
    }
}

/// The bytes that pairs of hexadecimal digits stand for. A pair that is none is left out.
pub fn bytes_of(alloc: Global, digits: &str) -> Result<Vec<u8>, AllocError> {
    let mut bytes = Vec::new(alloc);
    for pair in digits.as_bytes().chunks(2) {
        let pair = std::str::from_utf8(pair).unwrap_or("");
        if let Ok(byte) = u8::from_str_radix(pair, 16) {
            bytes.push(byte)?;
        }
    }
    Ok(bytes)
}

/// Fills with random bytes, the same ones each time for a seed.
pub fn fill_at_random(bytes: &mut Vec<u8>, seed: u64) {
    let mut chance = Chance::new(seed);
    for byte in bytes.iter_mut() {
        *byte = (chance.number() >> 56) as u8;
    }
}
