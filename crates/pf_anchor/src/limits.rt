//! How much there may be. Definitions cite these constants.

/// How many rules a ruleset may have.
pub const RULE_LIMIT: usize = 1024;

/// How many rulesets there may be.
pub const RULESET_LIMIT: usize = 1024;

/// How many tables there may be.
pub const TABLE_COUNT_LIMIT: usize = 1024;
