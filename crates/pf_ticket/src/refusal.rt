//! Why a step of a transaction is refused.
ghost use Rattle.std.specs.Prelude.{◌≡◌};
ghost use Rattle.pf_ticket.specs.declared.refusal.TicketRefusal.TheVariants.{Memory};
ghost use Rattle.pf_ticket.specs.Replies.{table_refusal_of};

use pf_table::TableRefusal;
use std::alloc::AllocError;

/// Why a step of a transaction is refused. After each of these all is as before.
#[derive(Clone, Copy, Debug, PartialEq, Eq)]
pub enum TicketRefusal {
    /// The list of a begin, a commit or a rollback is empty, or has more than 64 entries.
    BadCount,
    /// This entry of a commit or a rollback, from 0, is the first that names a ruleset named before it.
    Twice { at: usize },
    /// This entry of a table, from 0, is the first whose network came before it with the other sign. If there is none, it is the first of
    /// an extend whose network is offered with the other sign.
    Conflict { at: usize },
    /// This entry of a commit, from 0, is the first whose ticket isn't valid; 0 for an add, a define and an extend.
    Busy { at: usize },
    /// The table of an extend wasn't defined with its ticket.
    Absent,
    /// The inactive ruleset has 1,024 rules already.
    RulesetFull,
    /// A define names more than 65,536 networks, or an extend would leave more in its table.
    TableFull,
    /// A begin would leave more than 1,024 rulesets with a valid ticket.
    TooManyRulesets,
    /// A define would leave more than 1,024 tables offered with its ticket.
    TooManyTables,
    /// A begin needs more counts than are left up to 4,294,967,295, the last of an opening. It gives none of them.
    TicketsExhausted,
    /// Out of memory.
    Memory,
}

impl From<AllocError> for TicketRefusal {
    ghost from_gives = { λ _ e. e ≡ Memory };

    fn from(_e: AllocError) -> TicketRefusal {
        TicketRefusal::Memory
    }
}

impl From<TableRefusal> for TicketRefusal {
    ghost from_gives = { λ r e. e ≡ table_refusal_of r };

    fn from(refusal: TableRefusal) -> TicketRefusal {
        match refusal {
            TableRefusal::Conflict { at } => TicketRefusal::Conflict { at },
            TableRefusal::TableFull => TicketRefusal::TableFull,
            TableRefusal::Memory => TicketRefusal::Memory,
        }
    }
}
