//! Rows with an index by a digit of their addresses.
ghost use Rattle.std.specs.Prelude.{◌≡◌, ℕ, ◌/◌, ◌^◌, ◌<◌, ◌≤◌, List, [], true, length, Some, None, IfOk};
ghost use Rattle.std.specs.List.{AllWithin, insert};
ghost use Rattle.pf_trie.specs.Prefixes.{AllSigns, first_of, with_sign};
ghost use Rattle.pf_trie.specs.declared.rows.Row.{Row};
ghost use Rattle.pf_trie.specs.Rows.{IsInOrder, AreRows, AreRowsWith, HasSigns, IsUpTo, IsBetween};
ghost use Rattle.pf_trie.specs.Indexes.{digit_at, AreByDigit, IsUpToDigit, IsIndex, BeginAlike};

use crate::in_order::{lacking, mark, signs_by, up_to, up_to_between, without_sign};
use crate::prefix::{Prefix, apart};
use crate::row_list::RowList;
use crate::signs::Signs;
use std::alloc::{AllocError, Global};
use std::marker::Model;

/// How many bits of an address an index goes by.
const INDEX_BITS: u8 = 5;

/// How many digits they write. Definitions cite it.
pub(crate) const DIGITS: usize = 32;

/// Rows in order, and for each digit of their addresses how many of them come before it, so that a look-up halves few of them. The digit is
/// that before the last `shift` bits, and the rows have the same bits before it. Contracts see the rows.
#[derive(Drop)]
pub struct Indexed {
    shift: u8,
    front: u128,
    before: [u8; DIGITS],
    rows: RowList,
}

impl Model for Indexed {
    ghost use Rattle.std.specs.Prelude.{List, ◌<◌};
    ghost use Rattle.pf_trie.specs.declared.rows.Row.{Row};
    ghost use Rattle.pf_trie.specs.Indexes.{IsIndex, BeginAlike};

    ghost Value = { List Row };

    ghost view = { λ x. x.rows };

    ghost invariant = { λ x. (x.shift < 128) × IsIndex x.shift x.before x.rows × BeginAlike x.shift x.front x.rows };
}

// The digit of an address before its last `shift` bits.
fn digit_of(address: u128, shift: u8) -> usize
    requires { shift < 128 }
    ensures value { result ≡ digit_at shift address }
    ensures within { result < DIGITS }
{
    ((address >> shift) % DIGITS as u128) as usize
}

// A shift at which rows in order differ in the digit and behind it alone, and the bits that they have before it.
fn span_of(rows: &RowList) -> (u8, u128)
    ensures shift { result.0 < 128 }
    ensures alike { BeginAlike result.0 result.1 rows.now }
{
    let count = rows.len();
    if count == 0 {
        return (0, 0);
    }
    let first = rows.at(0).first;
    let last = rows.at(count - 1).first;
    let shift = apart(first, last).saturating_sub(INDEX_BITS);
    (shift, (first >> shift) / DIGITS as u128)
}

// Whether rows in order have these bits before the digit, by the first and the last of them.
fn begin_alike(rows: &RowList, shift: u8, front: u128) -> bool
    requires { shift < 128 }
    ensures { result ≡ true → BeginAlike shift front rows.now }
{
    let count = rows.len();
    if count == 0 {
        return true;
    }
    let first = rows.at(0).first;
    let last = rows.at(count - 1).first;
    (first >> shift) / DIGITS as u128 == front && (last >> shift) / DIGITS as u128 == front
}

// How many rows end, up to a place, with the last one whose digit is lower than this.
fn down_to_digit(rows: &RowList, from: usize, shift: u8, digit: usize) -> usize
    requires shift { shift < 128 }
    requires from { from ≤ length rows.now }
    ensures within { result ≤ from }
    ensures lower { AreByDigit shift rows.now → AllWithin (λ r. digit_at shift r.first < digit) rows.now 0 result }
{
    for above in 0..from {
        let count = from - above;
        if digit_of(rows.at(count - 1).first, shift) < digit {
            return count;
        }
    }
    0
}

// How many rows come before the first whose digit isn't lower than this one, where those up to a place do.
fn up_to_digit(rows: &RowList, from: usize, shift: u8, digit: usize) -> usize
    requires shift { shift < 128 }
    requires from { from ≤ length rows.now }
    requires lower { AreByDigit shift rows.now → AllWithin (λ r. digit_at shift r.first < digit) rows.now 0 from }
    ensures within { result ≤ length rows.now }
    ensures place { AreByDigit shift rows.now → IsUpToDigit shift digit rows.now result }
{
    for place in from..rows.len() {
        if digit_of(rows.at(place).first, shift) >= digit {
            return place;
        }
    }
    rows.len()
}

// The index of rows by a digit. It looks at few rows where they are nearly those of another index.
fn index_of(rows: &RowList, shift: u8, other: [u8; DIGITS]) -> [u8; DIGITS]
    requires { shift < 128 }
    ensures { IsIndex shift result rows.now }
{
    let mut before = [0; DIGITS];
    let mut place = 0;
    for digit in 0..DIGITS {
        let near = usize::from(other[digit]).max(place).min(rows.len());
        let low = down_to_digit(rows, near, shift, digit);
        place = up_to_digit(rows, low, shift, digit);
        before[digit] = place.min(255) as u8;
    }
    before
}

// The index of rows with one more of this digit: one row more comes before each higher digit.
fn with_one_more(mut before: [u8; DIGITS], digit: usize) -> [u8; DIGITS]
    requires { digit < DIGITS }
    ensures { (shift place : ℕ) (rows : List Row) (row : Row) → place ≤ length rows → digit ≡ digit_at shift row.first → IsIndex shift before rows → IsIndex shift result (insert rows place row) }
{
    for higher in digit + 1..DIGITS {
        before[higher] = before[higher].saturating_add(1);
    }
    before
}

// Two places between which the rows up to an address end, by the index of rows that begin as the address does.
fn bounds(rows: &RowList, before: &[u8], shift: u8, address: u128) -> (usize, usize)
    requires shift { shift < 128 }
    requires index { IsIndex shift before.now rows.now }
    requires alike { BeginAlike shift (address / 2 ^ shift / DIGITS) rows.now }
    ensures low { result.0 ≤ length rows.now }
    ensures high { result.1 ≤ length rows.now }
    ensures between { IsInOrder rows.now → IsBetween rows.now address result.0 result.1 }
{
    let digit = digit_of(address, shift);
    let low = usize::from(before[digit]);
    let next = digit + 1;
    if next < DIGITS && before[next] < 255 {
        return (low, usize::from(before[next]));
    }
    (low, rows.len())
}

impl Indexed {
    /// No rows. It takes no memory.
    pub(crate) fn none(alloc: Global) -> Indexed
        ensures { result ≡ [] }
    {
        Indexed::of(RowList::none(alloc))
    }

    /// Rows with their index.
    pub(crate) fn of(rows: RowList) -> Indexed
        ensures { result ≡ rows }
    {
        let (shift, front) = span_of(&rows);
        Indexed {
            shift,
            front,
            before: index_of(&rows, shift, [0; DIGITS]),
            rows,
        }
    }

    // Rows with this index where they begin alike, or else with another.
    fn by(rows: RowList, shift: u8, front: u128, before: [u8; DIGITS]) -> Indexed
        requires shift { shift < 128 }
        requires index { IsIndex shift before rows }
        ensures { result ≡ rows }
    {
        if !begin_alike(&rows, shift, front) {
            return Indexed::of(rows);
        }
        Indexed {
            shift,
            front,
            before,
            rows,
        }
    }

    /// A copy, with room for one row more. `AllocError`: nothing is made.
    pub(crate) fn copied(&self, alloc: Global) -> Result<Indexed, AllocError>
        ensures { IfOk result (λ x. x ≡ self.now) }
    {
        Ok(Indexed {
            shift: self.shift,
            front: self.front,
            before: self.before,
            rows: self.rows.copied(alloc)?,
        })
    }

    // How many rows are at an address or before it.
    fn up_to(&self, address: u128) -> usize
        ensures { IsUpTo self.now address result }
    {
        if (address >> self.shift) / DIGITS as u128 != self.front {
            return up_to(&self.rows, address);
        }
        let (low, high) = bounds(&self.rows, &self.before, self.shift, address);
        up_to_between(&self.rows, address, low, high)
    }

    // With a row at an address. `AllocError`: nothing is left of them.
    fn with_row(self, alloc: Global, address: u128) -> Result<Indexed, AllocError>
        ensures { IfOk result (λ v. (s : AllSigns) (top front : ℕ) → AreRows s top front self → address / 2 ^ top ≡ front → AreRowsWith s top front address v) }
    {
        let place = self.up_to(address);
        let Some(row) = lacking(&self.rows, place, address) else {
            return Ok(self);
        };
        let Indexed {
            shift,
            front,
            before,
            rows,
        } = self;
        let rows = rows.insert(alloc, place, row)?;
        let before = with_one_more(before, digit_of(address, shift));
        Ok(Indexed::by(rows, shift, front, before))
    }

    // A copy with a row at an address. `AllocError`: nothing is made.
    fn copied_with_row(&self, alloc: Global, address: u128) -> Result<Indexed, AllocError>
        ensures { IfOk result (λ v. (s : AllSigns) (top front : ℕ) → AreRows s top front self.now → address / 2 ^ top ≡ front → AreRowsWith s top front address v) }
    {
        let place = self.up_to(address);
        let Some(row) = lacking(&self.rows, place, address) else {
            return self.copied(alloc);
        };
        let rows = self.rows.copied_with(alloc, place, row)?;
        let before = with_one_more(self.before, digit_of(address, self.shift));
        Ok(Indexed::by(rows, self.shift, self.front, before))
    }

    // With a sign at a prefix whose first address has a row. `AllocError`: nothing is left of them.
    fn marked(self, alloc: Global, prefix: Prefix, sign: bool) -> Result<Indexed, AllocError>
        requires { prefix.free < 128 }
        ensures { IfOk result (λ v. (s : AllSigns) (top front : ℕ) → AreRowsWith s top front (first_of prefix) self → prefix.free < top → AreRows (with_sign s prefix (Some sign)) top front v) }
    {
        let count = self.up_to(prefix.first());
        let Indexed {
            shift,
            front,
            before,
            rows,
        } = self;
        Ok(Indexed {
            shift,
            front,
            before,
            rows: mark(alloc, rows, count, prefix, Some(sign))?,
        })
    }

    // With no sign at a prefix. `AllocError`: nothing is left of them.
    fn cleared(self, alloc: Global, prefix: Prefix) -> Result<Indexed, AllocError>
        requires { prefix.free < 128 }
        ensures { IfOk result (λ v. (s : AllSigns) (top front : ℕ) → AreRows s top front self → prefix.free < top → prefix.address / 2 ^ top ≡ front → AreRows (with_sign s prefix None) top front v) }
    {
        let Indexed {
            shift,
            front,
            before,
            rows,
        } = self;
        let rows = without_sign(alloc, rows, prefix)?;
        let before = index_of(&rows, shift, before);
        Ok(Indexed::by(rows, shift, front, before))
    }

    /// The rows with the sign at a prefix replaced, or taken out. `AllocError`: nothing is left of them.
    pub(crate) fn edited(
        self,
        alloc: Global,
        prefix: Prefix,
        sign: Option<bool>,
    ) -> Result<Indexed, AllocError>
        requires { prefix.free < 128 }
        ensures { IfOk result (λ v. (s : AllSigns) (top front : ℕ) → AreRows s top front self → prefix.free < top → prefix.address / 2 ^ top ≡ front → AreRows (with_sign s prefix sign) top front v) }
    {
        match sign {
            Some(sign) => {
                let with_row = self.with_row(alloc, prefix.first())?;
                with_row.marked(alloc, prefix, sign)
            }
            None => self.cleared(alloc, prefix),
        }
    }

    /// A copy with the sign at a prefix replaced, or taken out. `AllocError`: nothing is made.
    pub(crate) fn copied_and_edited(
        &self,
        alloc: Global,
        prefix: Prefix,
        sign: Option<bool>,
    ) -> Result<Indexed, AllocError>
        requires { prefix.free < 128 }
        ensures { IfOk result (λ v. (s : AllSigns) (top front : ℕ) → AreRows s top front self.now → prefix.free < top → prefix.address / 2 ^ top ≡ front → AreRows (with_sign s prefix sign) top front v) }
    {
        match sign {
            Some(sign) => {
                let with_row = self.copied_with_row(alloc, prefix.first())?;
                with_row.marked(alloc, prefix, sign)
            }
            None => {
                let copied = self.copied(alloc)?;
                copied.cleared(alloc, prefix)
            }
        }
    }

    /// The rows.
    pub(crate) fn rows(&self) -> &RowList
        ensures { result.now ≡ self.now }
    {
        &self.rows
    }

    /// The rows, without their index.
    pub(crate) fn into_rows(self) -> RowList
        ensures { result ≡ self }
    {
        let Indexed {
            shift: _,
            front: _,
            before: _,
            rows,
        } = self;
        rows
    }

    /// The signs of an address's prefixes. It takes no memory.
    pub(crate) fn signs(&self, address: u128) -> Signs
        ensures { (s : AllSigns) (top front : ℕ) → AreRows s top front self.now → address / 2 ^ top ≡ front → HasSigns s 0 top address result }
    {
        signs_by(&self.rows, self.up_to(address), address)
    }
}
