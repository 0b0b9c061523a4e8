//! Why rules or a table aren't put at a path.
ghost use Rattle.std.specs.Prelude.{◌≡◌};

use std::alloc::AllocError;

/// Why rules or a table aren't put at a path.
#[derive(Clone, Copy, Debug, PartialEq, Eq)]
pub enum ConfigFault {
    /// There would be more than 1,024 rulesets.
    TooManyRulesets,
    /// There would be more than 1,024 tables.
    TooManyTables,
    /// Out of memory.
    Memory,
}

impl From<AllocError> for ConfigFault {
    ghost use Rattle.pf_anchor.specs.declared.fault.ConfigFault.TheVariants.{Memory};

    ghost from_gives = { λ _ e. e ≡ Memory };

    fn from(_e: AllocError) -> ConfigFault {
        ConfigFault::Memory
    }
}
