//! How long names, paths and references may be. Definitions cite these constants.

/// How many bytes a path may have.
pub const PATH_LIMIT: usize = 255;

/// How many bytes a path's component may have.
pub const COMPONENT_LIMIT: usize = 63;

/// How many components a path may have.
pub const DEPTH_LIMIT: usize = 16;

/// How many bytes a reference may have, with the `/*` at its end and without quotes.
pub const REFERENCE_LIMIT: usize = 63;

/// How many bytes a table's name may have: those of pf(4)'s `pfrt_name` but for its closing zero.
pub const TABLE_NAME_LIMIT: usize = 31;
