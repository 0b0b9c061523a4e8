//! Why a change isn't made.
ghost use Rattle.std.specs.Prelude.{◌≡◌};
ghost use Rattle.pf_core.specs.declared.durable.refusal.ChangeRefusal.TheVariants.{Memory};
ghost use Rattle.pf_core.specs.Durable.Refusals.{table_refusal_of, states_refusal_of};

use pf_state::StatesRefusal;
use pf_table::TableRefusal;
use std::alloc::AllocError;

/// Why a change isn't made. After each of these all is as before.
#[derive(Clone, Copy, Debug, PartialEq, Eq)]
pub enum ChangeRefusal {
    /// This item of a commit, from 0, is the first that names a ruleset named before it; if none does, the first that names a table twice.
    Twice { at: usize },
    /// This entry of a list, from 0, is the first whose network came before it with the other sign.
    Conflict { at: usize },
    /// A table would have more than 65,536 entries.
    TableFull,
    /// There would be more than 1,024 rulesets.
    TooManyRulesets,
    /// There would be more than 1,024 tables.
    TooManyTables,
    /// There would be more than 65,536 states after one of the steps, even if later ones would leave fewer.
    StatesFull,
    /// A state would be inserted that is due already, or the tick would go back.
    BadTick,
    /// Out of memory.
    Memory,
}

impl From<AllocError> for ChangeRefusal {
    ghost from_gives = { λ _ e. e ≡ Memory };

    fn from(_e: AllocError) -> ChangeRefusal {
        ChangeRefusal::Memory
    }
}

impl From<TableRefusal> for ChangeRefusal {
    ghost from_gives = { λ r e. e ≡ table_refusal_of r };

    fn from(refusal: TableRefusal) -> ChangeRefusal {
        match refusal {
            TableRefusal::Conflict { at } => ChangeRefusal::Conflict { at },
            TableRefusal::TableFull => ChangeRefusal::TableFull,
            TableRefusal::Memory => ChangeRefusal::Memory,
        }
    }
}

impl From<StatesRefusal> for ChangeRefusal {
    ghost from_gives = { λ r e. e ≡ states_refusal_of r };

    fn from(refusal: StatesRefusal) -> ChangeRefusal {
        match refusal {
            StatesRefusal::StatesFull => ChangeRefusal::StatesFull,
            StatesRefusal::Memory => ChangeRefusal::Memory,
        }
    }
}
