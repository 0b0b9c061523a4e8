//! Reading IPv4 addresses, the numbers between their dots, and prefix lengths.
ghost use Rattle.std.specs.{Prelude.{◌≡◌, ◌+◌, ◌^◌, ◌<◌, ◌==◌, ◌-◌, [], ◌∷◌, length, set, IfSome}, Char.digit_value, List.position};
ghost use Rattle.pf_addr.specs.declared.reading.TheConstants.{NUMBER_DIGITS};
ghost use Rattle.pf_addr.specs.{Grammar.is_other, Collected.parts_kept, Reading.{small_number, part_at, part_fault, v4_at, length_at}};
ghost use Rattle.pf_form.specs.Form.Numbers.{number_of};

use crate::fault::AddrFault;

/// How many digits a part or a prefix length may have, including leading zeros.
pub(crate) const NUMBER_DIGITS: usize = 3;

/// The numbers between the dots of a text.
#[derive(Clone, Copy)]
pub(crate) struct Parts {
    /// The first four, padded with zeros if there are fewer.
    pub(crate) bytes: [u8; 4],
    /// How many there are.
    pub(crate) count: usize,
}

impl Parts {
    // a byte past the first four is only counted
    fn push(&mut self, byte: u8)
        requires { self.old.count < 2 ^ 64 - 1 }
        ensures count { self.new.count ≡ self.old.count + 1 }
        ensures bytes { self.new.bytes ≡ set self.old.bytes self.old.count byte }
    {
        if self.count < 4 {
            self.bytes[self.count] = byte;
        }
        self.count += 1;
    }
}

/// Reads a V4 address of at least `fewest` parts, which begins at byte `at`.
pub(crate) fn read_v4(fewest: usize, at: usize, text: &[u8]) -> Result<u32, AddrFault>
    requires { at + length text.now < 2 ^ 64 - 2 }
    ensures { result ≡ v4_at fewest at text.now }
{
    let parts = read_parts(at, text)?;
    if parts.count < fewest || parts.count > 4 {
        return Err(AddrFault::BadGroups { at });
    }
    Ok(u32::from_be_bytes(parts.bytes))
}

/// Reads the numbers of a text, separated by dots; the empty text has none.
fn read_parts(at: usize, text: &[u8]) -> Result<Parts, AddrFault>
    requires { at + length text.now < 2 ^ 64 - 2 }
    ensures { result ≡ parts_kept at text.now }
{
    let mut parts = Parts {
        bytes: [0; 4],
        count: 0,
    };
    if text.is_empty() {
        return Ok(parts);
    }
    let mut at = at;
    let mut rest = text;
    while let Some(dot) = place_of(b'.', rest) {
        parts.push(read_part(at, &rest[..dot])?);
        at += dot + 1;
        rest = &rest[dot + 1..];
    }
    parts.push(read_part(at, rest)?);
    Ok(parts)
}

/// The first place of this byte.
pub(crate) fn place_of(byte: u8, text: &[u8]) -> Option<usize>
    ensures place { result ≡ position (λ b. b == byte) text.now }
    ensures bound { IfSome result (λ i. i < length text.now) }
{
    text.iter().position(|b| *b == byte)
}

/// The number of one part, which begins at this byte.
#[tactic(auto, unfolding(crate::specs::Reading::part_at))]
fn read_part(at: usize, text: &[u8]) -> Result<u8, AddrFault>
    requires { at + length text.now < 2 ^ 64 }
    ensures { result ≡ part_at at text.now }
{
    match small_number(255, text) {
        Some(byte) => Ok(byte),
        None => Err(part_fault(at, text)),
    }
}

/// What is wrong with a part that isn't a number of one byte.
fn part_fault(at: usize, text: &[u8]) -> AddrFault
    requires { at + length text.now < 2 ^ 64 }
    ensures { result ≡ part_fault at text.now }
{
    match first_other(10, text) {
        Some(i) => AddrFault::BadDigit { at: at + i },
        None if text.is_empty() => AddrFault::BadDigit { at },
        None => AddrFault::TooBig { at },
    }
}

/// The place of the first byte that isn't a digit in the radix.
pub(crate) fn first_other(radix: u16, text: &[u8]) -> Option<usize>
    ensures place { result ≡ position (is_other radix) text.now }
    ensures bound { IfSome result (λ i. i < length text.now) }
{
    text.iter().position(|b| digit_value(*b) >= radix)
}

/// The value of a digit or a letter in either case; 36 for any other byte.
pub(crate) fn digit_value(b: u8) -> u16
    ensures { result ≡ digit_value b }
{
    match b {
        b'0'..=b'9' => u16::from(b - b'0'),
        b'a'..=b'z' => u16::from(b - b'a') + 10,
        b'A'..=b'Z' => u16::from(b - b'A') + 10,
        _ => 36,
    }
}

/// The number, at most `most`, that one to three digits spell.
fn small_number(most: u8, text: &[u8]) -> Option<u8>
    ensures { result ≡ small_number most text.now }
{
    let number = match *text {
        [c] => three_digits(b'0', b'0', c),
        [b, c] => three_digits(b'0', b, c),
        [a, b, c] => three_digits(a, b, c),
        _ => None,
    };
    match number {
        Some(number) if number <= u16::from(most) => Some(number as u8),
        _ => None,
    }
}

/// The number that three digits spell; fewer digits are padded with zeros in front.
fn three_digits(a: u8, b: u8, c: u8) -> Option<u16>
    ensures { result ≡ number_of NUMBER_DIGITS (a ∷ b ∷ c ∷ []) }
{
    if a.is_ascii_digit() && b.is_ascii_digit() && c.is_ascii_digit() {
        Some(u16::from(a - b'0') * 100 + u16::from(b - b'0') * 10 + u16::from(c - b'0'))
    } else {
        None
    }
}

/// The prefix length, at most `most`, after a network's slash; it begins at byte `at`.
pub(crate) fn read_prefix_len(most: u8, at: usize, text: &[u8]) -> Result<u8, AddrFault>
    ensures { result ≡ length_at most at text.now }
{
    small_number(most, text).ok_or(AddrFault::BadLength { at })
}
