//! Rulesets with their tickets.
ghost use Rattle.std.specs.Prelude.{◌≡◌};

use crate::name::RulesetName;
use crate::ticket::Ticket;
use std::marker::Model;

/// A ruleset with a ticket for it, as a commit or a rollback names it.
#[derive(Drop)]
pub struct RulesetTicket {
    /// The ruleset that is switched or dropped.
    pub name: RulesetName,
    /// The ticket that must be its valid one for a commit. If it isn't, a rollback leaves the ruleset alone.
    pub ticket: Ticket,
}

/// Rulesets with their tickets, in the order in which a commit or a rollback names them.
#[derive(Drop)]
pub struct RulesetTickets {
    entries: Vec<RulesetTicket>,
}

impl Model for RulesetTickets {
    ghost use Rattle.std.specs.Prelude.{List};
    ghost use Rattle.pf_ticket.specs.declared.entry.RulesetTicket.{RulesetTicket};

    ghost Value = { List RulesetTicket };

    ghost view = { λ e. e.entries.items };
}

impl RulesetTickets {
    /// The list of these. It takes no memory.
    pub fn new(entries: Vec<RulesetTicket>) -> RulesetTickets
        ensures { result ≡ entries.items }
    {
        RulesetTickets { entries }
    }

    /// The entries in order.
    pub fn as_slice(&self) -> &[RulesetTicket]
        ensures { result.now ≡ self.now }
    {
        self.entries.as_slice()
    }
}
