//! IPv6 addresses as text: the groups between the colons.
ghost use Rattle.std.specs.Prelude.{◌≡◌, ℕ, ◌+◌, ◌-◌, ◌^◌, ◌<◌, ◌≤◌, ◌==◌, ◌&&◌, List, ◌++◌, length, set, take, slice_index, IfSome};
ghost use Rattle.std.specs.Str.Parse.{AllDigits, digits_value};
ghost use Rattle.pf_addr.specs.{Collected.{groups_of, groups_kept, last_kept}, Grammar.v6_number, Reading.{group_at, has, gap, v6_at}};

use crate::fault::AddrFault;
use crate::reading::{digit_value, first_other, place_of, read_v4};

/// How many digits a group may have, including leading zeros.
pub(crate) const GROUP_DIGITS: usize = 4;
/// How many groups an address has.
pub(crate) const GROUPS: usize = 8;

/// The groups between the colons of a text.
#[derive(Clone, Copy)]
pub(crate) struct Groups {
    /// The first eight, padded with zeros if there are fewer.
    pub(crate) numbers: [u16; 8],
    /// How many there are.
    pub(crate) count: usize,
}

impl Groups {
    // a group past the first eight is only counted
    fn push(&mut self, group: u16)
        requires { self.old.count < 2 ^ 64 - 1 }
        ensures count { self.new.count ≡ self.old.count + 1 }
        ensures numbers { self.new.numbers ≡ set self.old.numbers self.old.count group }
    {
        if self.count < GROUPS {
            self.numbers[self.count] = group;
        }
        self.count += 1;
    }

    /// These groups, then zeros, then those of `back`.
    fn around(self, back: Groups) -> [u16; 8]
        requires { back.count ≤ 8 }
        ensures { result ≡ take (8 - back.count) self.numbers ++ take back.count back.numbers }
    {
        let mut numbers = self.numbers;
        numbers[GROUPS - back.count..].copy_from_slice(&back.numbers[..back.count]);
        numbers
    }
}

/// Reads a V6 address: eight groups, or fewer with one `::`.
pub(crate) fn read_v6(text: &[u8]) -> Result<u128, AddrFault>
    ensures { result ≡ v6_at text.now }
{
    let Some(gap) = place_of_gap(text) else {
        let groups = read_groups(0, text, true)?;
        if groups.count != GROUPS {
            return Err(AddrFault::BadGroups { at: 0 });
        }
        return Ok(number_of(&groups.numbers));
    };
    let front = read_groups(0, &text[..gap], false)?;
    let back = read_groups(gap + 2, &text[gap + 2..], true)?;
    if front.count >= GROUPS || back.count >= GROUPS - front.count {
        return Err(AddrFault::BadGroups { at: 0 });
    }
    Ok(number_of(&front.around(back)))
}

/// Where the text's first `::` is.
fn place_of_gap(text: &[u8]) -> Option<usize>
    ensures place { result ≡ gap text.now }
    ensures bound { IfSome result (λ i. i + 2 ≤ length text.now) }
{
    for i in 0..text.len().saturating_sub(1) {
        if colons_at(text, i) {
            return Some(i);
        }
    }
    None
}

fn colons_at(text: &[u8], i: usize) -> bool
    requires { i + 1 < length text.now }
    ensures { result ≡ ((slice_index text.now i == 58) && (slice_index text.now (i + 1) == 58)) }
{
    text[i] == b':' && text[i + 1] == b':'
}

/// Reads the groups of a text, separated by colons; the empty text has none. If the address ends with this text, the last piece may be a
/// V4 address.
fn read_groups(at: usize, text: &[u8], ends: bool) -> Result<Groups, AddrFault>
    requires { at + length text.now < 2 ^ 64 - 2 }
    ensures { result ≡ groups_kept ends at text.now }
{
    let mut groups = Groups {
        numbers: [0; 8],
        count: 0,
    };
    if text.is_empty() {
        return Ok(groups);
    }
    let mut at = at;
    let mut rest = text;
    while let Some(colon) = place_of(b':', rest) {
        groups.push(read_group(at, &rest[..colon])?);
        at += colon + 1;
        rest = &rest[colon + 1..];
    }
    push_last(groups, ends, at, rest)
}

/// The groups, extended by the last piece, which begins at this byte.
fn push_last(mut groups: Groups, ends: bool, at: usize, text: &[u8]) -> Result<Groups, AddrFault>
    requires count { groups.count < 2 ^ 64 - 2 }
    requires place { at + length text.now < 2 ^ 64 - 2 }
    ensures { (before : List ℕ) → groups ≡ groups_of before → result ≡ last_kept before ends at text.now }
{
    if may_be_v4(ends, text) {
        let number = read_v4(4, at, text)?;
        groups.push((number / 0x1_0000) as u16);
        groups.push((number % 0x1_0000) as u16);
        return Ok(groups);
    }
    groups.push(read_group(at, text)?);
    Ok(groups)
}

fn may_be_v4(ends: bool, text: &[u8]) -> bool
    ensures { result ≡ (ends && has 46 text.now) }
{
    ends && place_of(b'.', text).is_some()
}

/// The number of one group, which begins at this byte.
#[tactic(auto, unfolding(crate::specs::Reading::group_at))]
fn read_group(at: usize, text: &[u8]) -> Result<u16, AddrFault>
    requires { at + length text.now < 2 ^ 64 }
    ensures { result ≡ group_at at text.now }
{
    if let Some(i) = first_other(16, text) {
        return Err(AddrFault::BadDigit { at: at + i });
    }
    if text.is_empty() {
        return Err(AddrFault::BadDigit { at });
    }
    if text.len() > GROUP_DIGITS {
        return Err(AddrFault::TooBig { at });
    }
    Ok(hex_value(text))
}

/// The number that at most four hexadecimal digits spell.
fn hex_value(digits: &[u8]) -> u16
    requires digits { AllDigits 16 digits.now }
    requires few { length digits.now ≤ 4 }
    ensures { result ≡ digits_value 16 digits.now }
{
    let mut value = 0;
    for digit in digits {
        value = value * 16 + digit_value(*digit);
    }
    value
}

/// The number that eight groups spell.
fn number_of(groups: &[u16; 8]) -> u128
    ensures { result ≡ v6_number groups.now }
{
    let mut number = 0;
    for group in groups {
        number = number * 0x1_0000 + u128::from(*group);
    }
    number
}
