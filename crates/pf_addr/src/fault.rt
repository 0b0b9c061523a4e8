//! What is wrong with a text that is not an address or a network.
ghost use Rattle.std.specs.Prelude.{Some};
ghost use Rattle.pf_addr.specs.Faults.{fault_text};

use std::fmt::{self, Display, Formatter, Write};

/// The first fault of a text. `at` is a byte's place in the whole text, counted from 0. The pieces of a V4 address are its parts, those
/// of a V6 address its groups, of which the last may be a V4 address.
///
/// Faults are found in this order: no text; the pieces from left to right (in each piece first a byte that isn't a digit, then its length
/// and value); the number of pieces; the length after a network's slash.
#[derive(Clone, Copy, Debug, PartialEq, Eq)]
pub enum AddrFault {
    /// There is no text, or none before a network's slash. The place is 0.
    Empty { at: usize },
    /// An empty piece, at its start, or a byte that isn't a digit, at that byte.
    BadDigit { at: usize },
    /// A part of more than three digits or above 255, or a group of more than four digits, at its start.
    TooBig { at: usize },
    /// The length isn't one to three digits with a value of at most the family's width. The place is the byte after the slash.
    BadLength { at: usize },
    /// Not four parts (before a network's slash: more than four), not eight groups, or more than seven with `::`. A V4 address at the end
    /// of a V6 address counts as two groups, and has four parts. The place is 0, or the start of that V4 address.
    BadGroups { at: usize },
}

impl Display for AddrFault {
    ghost output = { λ e. Some (fault_text e) };

    fn fmt<W: Write>(&self, f: &mut Formatter<W>) -> Result<(), fmt::Error> {
        match *self {
            AddrFault::Empty { at } => write!(f, "no address at byte {at}"),
            AddrFault::BadDigit { at } => write!(f, "no digit at byte {at}"),
            AddrFault::TooBig { at } => write!(f, "too big a part at byte {at}"),
            AddrFault::BadLength { at } => write!(f, "no prefix length at byte {at}"),
            AddrFault::BadGroups { at } => write!(f, "a wrong number of parts at byte {at}"),
        }
    }
}
