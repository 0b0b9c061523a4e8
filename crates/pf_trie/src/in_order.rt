//! Rows in order: which is at an address, and what edits leave.
ghost use Rattle.std.specs.Prelude.{◌≡◌, ℕ, ◌++◌, ◌∷◌, [], ◌-◌, ◌/◌, ◌^◌, ◌<◌, ◌≤◌, ◌==◌, length, filter, map, Some, None, IfOk, IfNone, IfSome};
ghost use Rattle.std.specs.List.{AllWithin, insert};
ghost use Rattle.pf_trie.specs.Prefixes.{AllSigns, first_of, with_sign};
ghost use Rattle.pf_trie.specs.Rows.{HasSigns, IsInOrder, AreOfOneSlot, AreRows, AreRowsWith, IsUpTo, IsBetween, MarksEach, cut_row};
ghost use Rattle.pf_trie.specs.Addresses.{SameAddresses};

use crate::prefix::{Prefix, apart};
use crate::row_list::RowList;
use crate::rows::Row;
use crate::signs::Signs;
use std::alloc::{AllocError, Global};

/// How many rows are at an address or before it, where they end between two places. What is left to look at is halved at each step.
pub(crate) fn up_to_between(rows: &RowList, address: u128, from: usize, to: usize) -> usize
    requires from { from ≤ length rows.now }
    requires to { to ≤ length rows.now }
    ensures within { result ≤ length rows.now }
    ensures place { IsBetween rows.now address from to → IsUpTo rows.now address result }
{
    let mut low = from;
    let mut high = to;
    'halving: while low < high {
        let middle = low + (high - low) / 2;
        if rows.at(middle).first <= address {
            low = middle + 1;
        } else {
            high = middle;
        }
    }
    low
}

/// How many rows are at an address or before it.
pub(crate) fn up_to(rows: &RowList, address: u128) -> usize
    ensures { IsUpTo rows.now address result }
{
    let count = rows.len();
    if count == 0 || rows.at(count - 1).first <= address {
        return count;
    }
    up_to_between(rows, address, 0, count)
}

/// The signs of an address's prefixes, by the last row that isn't past it, of so many rows that aren't. Each prefix that has a sign and contains
/// the address contains the row's address too: it begins at a row, and no row lies between the two.
pub(crate) fn signs_by(rows: &RowList, place: usize, address: u128) -> Signs
    requires { place ≤ length rows.now }
    ensures { (s : AllSigns) (top front : ℕ) → IsUpTo rows.now address place → AreRows s top front rows.now → address / 2 ^ top ≡ front → HasSigns s 0 top address result }
{
    if place == 0 {
        return Signs::none();
    }
    let row = rows.at(place - 1);
    row.signs.from(apart(row.first, address))
}

/// The signs of an address's prefixes. It takes no memory.
pub(crate) fn signs_at(rows: &RowList, address: u128) -> Signs
    ensures { (s : AllSigns) (top front : ℕ) → AreRows s top front rows.now → address / 2 ^ top ≡ front → HasSigns s 0 top address result }
{
    signs_by(rows, up_to(rows, address), address)
}

/// The row that rows lack at an address, of which so many aren't past it: the new row's place is behind these. `None`: they have one there.
pub(crate) fn lacking(rows: &RowList, place: usize, address: u128) -> Option<Row>
    requires { place ≤ length rows.now }
    ensures address { IfSome result (λ row. row.first ≡ address) }
    ensures lacks { IfSome result (λ row. (s : AllSigns) (top front : ℕ) → IsUpTo rows.now address place → AreRows s top front rows.now → address / 2 ^ top ≡ front → AreRowsWith s top front address (insert rows.now place row)) }
    ensures has { IfNone result ((s : AllSigns) (top front : ℕ) → IsUpTo rows.now address place → AreRows s top front rows.now → AreRowsWith s top front address rows.now) }
{
    if place > 0 && rows.at(place - 1).first == address {
        return None;
    }
    Some(Row {
        first: address,
        signs: signs_by(rows, place, address),
    })
}

// The row that rows lack at an address, whose place is behind them. `None`: they have one there, or one past it.
fn lacking_after(rows: &RowList, address: u128) -> Option<Row>
    ensures address { IfSome result (λ row. row.first ≡ address) }
    ensures lacks { IfSome result (λ row. (s : AllSigns) (top front : ℕ) → AreRows s top front rows.now → address / 2 ^ top ≡ front → AreRowsWith s top front address (rows.now ++ row ∷ [])) }
{
    let count = rows.len();
    if count > 0 && rows.at(count - 1).first > address {
        return None;
    }
    lacking(rows, count, address)
}

// Rows with one at this address. `AllocError`: nothing is left of them.
fn with_row(alloc: Global, rows: RowList, address: u128) -> Result<RowList, AllocError>
    ensures { IfOk result (λ v. (s : AllSigns) (top front : ℕ) → AreRows s top front rows → address / 2 ^ top ≡ front → AreRowsWith s top front address v) }
{
    let place = up_to(&rows, address);
    match lacking(&rows, place, address) {
        Some(row) => rows.insert(alloc, place, row),
        None => Ok(rows),
    }
}

/// The rows with a prefix's sign replaced in all that it contains, where so many aren't past its first address. `AllocError`: nothing is
/// left of them.
pub(crate) fn mark(
    alloc: Global,
    mut rows: RowList,
    count: usize,
    prefix: Prefix,
    sign: Option<bool>,
) -> Result<RowList, AllocError>
    requires { prefix.free < 128 }
    ensures marks { IfOk result (λ v. IsUpTo rows (first_of prefix) count → IsInOrder rows → MarksEach prefix sign rows v) }
    ensures addresses { IfOk result (λ v. SameAddresses rows v) }
{
    let last = prefix.last();
    let from = count.saturating_sub(1);
    for place in from..rows.len() {
        let row = rows.at(place);
        if row.first > last {
            return Ok(rows);
        }
        let marked = row.marked(prefix, sign);
        rows = rows.set(alloc, place, marked)?;
    }
    Ok(rows)
}

// The rows without the last one that isn't past an address, if no prefix that has a sign begins there.
fn clear(rows: RowList, address: u128) -> RowList
    ensures { (s : AllSigns) (top front : ℕ) → AreRows s top front rows → AreRows s top front result }
{
    let place = up_to(&rows, address);
    if place > 0 && !rows.at(place - 1).is_start() {
        return rows.remove(place - 1);
    }
    rows
}

/// Rows with a sign at a prefix. Where they come in order, few steps are taken for each. `AllocError`: nothing is left of them.
pub(crate) fn with_sign(
    alloc: Global,
    rows: RowList,
    prefix: Prefix,
    sign: bool,
) -> Result<RowList, AllocError>
    requires { prefix.free < 128 }
    ensures { IfOk result (λ v. (s : AllSigns) (top front : ℕ) → AreRows s top front rows → prefix.free < top → prefix.address / 2 ^ top ≡ front → AreRows (with_sign s prefix (Some sign)) top front v) }
{
    match lacking_after(&rows, prefix.first()) {
        Some(row) => rows.push(alloc, row.marked(prefix, Some(sign))),
        None => with_sign_among(alloc, rows, prefix, sign),
    }
}

// Rows with a sign at a prefix, wherever it belongs. `AllocError`: nothing is left of them.
fn with_sign_among(
    alloc: Global,
    rows: RowList,
    prefix: Prefix,
    sign: bool,
) -> Result<RowList, AllocError>
    requires { prefix.free < 128 }
    ensures { IfOk result (λ v. (s : AllSigns) (top front : ℕ) → AreRows s top front rows → prefix.free < top → prefix.address / 2 ^ top ≡ front → AreRows (with_sign s prefix (Some sign)) top front v) }
{
    let first = prefix.first();
    let rows = with_row(alloc, rows, first)?;
    let count = up_to(&rows, first);
    mark(alloc, rows, count, prefix, Some(sign))
}

/// Rows with no sign at a prefix. `AllocError`: nothing is left of them.
pub(crate) fn without_sign(
    alloc: Global,
    rows: RowList,
    prefix: Prefix,
) -> Result<RowList, AllocError>
    requires { prefix.free < 128 }
    ensures { IfOk result (λ v. (s : AllSigns) (top front : ℕ) → AreRows s top front rows → prefix.free < top → prefix.address / 2 ^ top ≡ front → AreRows (with_sign s prefix None) top front v) }
{
    let first = prefix.first();
    let count = up_to(&rows, first);
    let marked = mark(alloc, rows, count, prefix, None)?;
    Ok(clear(marked, first))
}

/// The first address of rows in order, if all begin with one front before their last `at` bits, and if no prefix that contains all addresses
/// with this front has a sign among them. `None`: they aren't such rows.
pub(crate) fn one_slot_of(rows: &RowList, at: u8) -> Option<u128>
    requires { at < 128 }
    ensures { IfSome result (λ a. AreOfOneSlot at (a / 2 ^ at) rows.now) }
{
    let count = rows.len();
    if count == 0 {
        return None;
    }
    let row = rows.at(0);
    let last = rows.at(count - 1).first;
    if last >> at != row.first >> at || row.signs.from(at).longest().is_some() {
        return None;
    }
    Some(row.first)
}

// How many rows are before an address.
fn before(rows: &RowList, address: u128) -> usize
    ensures within { result ≤ length rows.now }
    ensures before { IsInOrder rows.now → AllWithin (λ r. r.first < address) rows.now 0 result }
    ensures beyond { IsInOrder rows.now → AllWithin (λ r. address ≤ r.first) rows.now result (length rows.now) }
{
    if address == 0 {
        return 0;
    }
    up_to(rows, address - 1)
}

/// Of rows in order those whose addresses begin with `front` before the last `at` bits, with the signs of the prefixes that leave fewer bits
/// free. It looks at few others. `AllocError`: nothing is made.
pub(crate) fn rows_within(
    alloc: Global,
    rows: &RowList,
    at: u8,
    front: u128,
) -> Result<RowList, AllocError>
    requires at { at < 128 }
    requires front { front < 2 ^ (128 - at) }
    ensures { IfOk result (λ v. IsInOrder rows.now → v ≡ map (cut_row at) (filter (λ r. r.first / 2 ^ at == front) rows.now)) }
{
    let mut within = RowList::none(alloc);
    let from = before(rows, front << at);
    for place in from..rows.len() {
        let row = rows.at(place);
        if row.first >> at != front {
            return Ok(within);
        }
        within = within.push(alloc, row.cut(at))?;
    }
    Ok(within)
}
