//! Comparing eight places at a time, by vectors.
ghost use Rattle.std.specs.Prelude.{◌≡◌, ◌+◌, ◌<◌, ℕ};
ghost use Rattle.pf_lanes.specs.{Masks.is_set, Columns.{MaskedReach, PortsReach, masked_holds, port_within}};

use crate::columns::{Masked, PortColumns};
use std::simd::prelude::*;

/// How many rules or networks a block has.
pub const LANES: usize = 8;

/// The mask of a whole block.
pub(crate) const ALL_LANES: u8 = 0xff;

/// Which of the eight words of a column from `at` on equal `word` under their masks.
#[inline(always)]
pub(crate) fn equal_under_masks(word: u32, column: &Masked, at: usize) -> u8
    requires { MaskedReach (at + 8) column.now }
    ensures { (i : ℕ) → i < 8 → is_set result i ≡ masked_holds word column.now (at + i) }
{
    let masks = u32x8::from_slice(&column.masks[at..]);
    let words = u32x8::from_slice(&column.words[at..]);
    (u32x8::splat(word) & masks).simd_eq(words).to_bitmask() as u8
}

/// Which of the eight pairs of bounds from `at` on have the port between them.
#[inline(always)]
pub(crate) fn between_bounds(port: u32, bounds: &PortColumns, at: usize) -> u8
    requires { PortsReach (at + 8) bounds.now }
    ensures { (i : ℕ) → i < 8 → is_set result i ≡ port_within port bounds.now (at + i) }
{
    let port = u32x8::splat(port);
    let lowest = u32x8::from_slice(&bounds.lowest[at..]);
    let highest = u32x8::from_slice(&bounds.highest[at..]);
    (lowest.simd_le(port).to_bitmask() & port.simd_le(highest).to_bitmask()) as u8
}
