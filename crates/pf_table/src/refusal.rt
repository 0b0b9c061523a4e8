//! Why a table isn't edited.
ghost use Rattle.std.specs.Prelude.{◌≡◌};
ghost use Rattle.pf_table.specs.declared.refusal.TableRefusal.TheVariants.{Memory};

use std::alloc::AllocError;

/// Why a table isn't edited. After each of these it is as before.
#[derive(Clone, Copy, Debug, PartialEq, Eq)]
pub enum TableRefusal {
    /// The entry at `at`, from 0, is the first whose network came earlier in the list with the other sign.
    Conflict { at: usize },
    /// The table would have more than 65,536 entries.
    TableFull,
    /// Out of memory.
    Memory,
}

impl From<AllocError> for TableRefusal {
    ghost from_gives = { λ _ e. e ≡ Memory };

    fn from(_e: AllocError) -> TableRefusal {
        TableRefusal::Memory
    }
}
