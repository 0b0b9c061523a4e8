//! How much there may be. Definitions cite these constants.

/// How many entries a table may have.
pub const TABLE_LIMIT: usize = 65_536;
