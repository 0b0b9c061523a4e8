//! How much there may be. Definitions cite these constants.

/// How many entries the list of a begin, a commit or a rollback may have.
pub const ENTRY_LIMIT: usize = 64;

/// How many tables may be offered with one ticket.
pub const OFFERED_TABLE_LIMIT: usize = 1024;

/// The greatest count of a ticket.
pub const LAST_COUNT: u64 = 4_294_967_295;
