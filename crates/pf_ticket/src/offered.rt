//! What is offered for a ruleset.
ghost use Rattle.std.specs.Prelude.{◌≡◌};
ghost use Rattle.pf_ticket.specs.Tickets.{nothing_for};

use crate::defined::Defined;
use crate::name::RulesetKind;
use pf_anchor::RuleList;
use std::alloc::Global;

/// What is offered for a ruleset with its valid ticket.
#[derive(Drop)]
pub enum Offered {
    /// The rules of a filter ruleset, in order.
    Rules(RuleList),
    /// The tables that were defined for a table ruleset, in the order of their names.
    Tables(Defined),
}

impl Offered {
    // Nothing yet. It takes no memory.
    pub(crate) fn nothing(kind: RulesetKind) -> Offered
        ensures { result ≡ nothing_for kind }
    {
        match kind {
            RulesetKind::Filter => Offered::Rules(RuleList::none()),
            RulesetKind::Table => Offered::Tables(Defined::none()),
        }
    }
}
