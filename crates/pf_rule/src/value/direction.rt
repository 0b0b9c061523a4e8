//! Directions.

/// Which way a packet goes through an interface.
#[derive(Clone, Copy, Debug, PartialEq, Eq)]
pub enum Direction {
    /// It comes in.
    In,
    /// It goes out.
    Out,
}
