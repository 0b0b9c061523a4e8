//! How much there may be. Definitions cite these constants.

/// How many states there may be.
pub const STATE_LIMIT: usize = 65_536;
