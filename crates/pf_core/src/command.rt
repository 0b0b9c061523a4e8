//! Commands of clients.
ghost use Rattle.std.specs.Prelude.{◌≡◌};
ghost use Rattle.pf_core.specs.Commands.{may_be_grouped};

use crate::durable::EntryList;
use pf_addr::Addr;
use pf_addr::path::TableName;
use pf_anchor::Path;
use pf_rule::{Packet, Rule};
use pf_state::StateName;
use pf_state::peer::Message;
use pf_ticket::{RulesetNames, RulesetTickets, Ticket};

/// One step of a transaction (pf(4), DIOCXBEGIN, DIOCADDRULE, DIOCRINADEFINE, DIOCXCOMMIT, DIOCXROLLBACK).
#[derive(Drop)]
pub enum Transaction {
    /// Clears the inactive ruleset of each name, and gives a ticket for it.
    Begin(RulesetNames),
    /// Appends a rule to the inactive filter ruleset at a path.
    Add {
        path: Path,
        ticket: Ticket,
        rule: Rule,
    },
    /// Offers entries for one table at a path, in place of those that were offered for it. If there are none, the commit takes the table
    /// out.
    Define {
        path: Path,
        ticket: Ticket,
        name: TableName,
        entries: EntryList,
    },
    /// Offers entries for one table at a path besides those that were offered for it. The table has to be defined with the ticket. An entry
    /// that is offered stays as it is.
    Extend {
        path: Path,
        ticket: Ticket,
        name: TableName,
        entries: EntryList,
    },
    /// Makes the inactive rulesets active, all or none. Of the tables at a path those are replaced that were defined; others stay.
    Commit(RulesetTickets),
    /// Drops the inactive rulesets whose tickets are valid, and leaves the others alone.
    Rollback(RulesetTickets),
}

/// A change of one table, at once and without a ticket (pf(4), DIOCRADDADDRS, DIOCRDELADDRS, DIOCRSETADDRS, DIOCRDELTABLES).
#[derive(Drop)]
pub enum TableEdit {
    /// Adds the entries whose networks aren't there. A table that isn't there is made.
    Add {
        path: Path,
        name: TableName,
        entries: EntryList,
    },
    /// Takes out the entries that are there with the same sign, and with the last one the table. The table has to be there.
    Delete {
        path: Path,
        name: TableName,
        entries: EntryList,
    },
    /// Replaces all entries by these. A table that isn't there is made; without entries it is taken out.
    Set {
        path: Path,
        name: TableName,
        entries: EntryList,
    },
    /// Takes the table out. It has to be there.
    Kill {
        path: Path,
        name: TableName,
    },
}

/// A change of the states, at once and without a ticket.
#[derive(Drop)]
pub enum StateCommand {
    /// Judges a packet. If no state passes it and a rule that keeps state does, a state of its flow is made under this name, with
    /// generation 0, unless the name is taken. It is bound to that rule if it is one of the main ruleset, else to the default rule. It
    /// expires at the tick `until`, which has to be greater than the tick now; never without one.
    Track {
        name: StateName,
        packet: Packet,
        until: Option<u64>,
    },
    /// Acts on the records of a peer's message, in order.
    Peer(Message),
    /// Takes out the state of a name. It has to be there (pfctl(8), `-k`).
    Kill(StateName),
    /// Sets the tick, which doesn't go back, and takes out the states that are due.
    Expire(u64),
}

/// A question about what is kept. It changes nothing.
#[derive(Drop)]
pub enum Question {
    /// Says what happens to a packet.
    Judge(Packet),
    /// Says which entry decides on an address, in the table at exactly this path (pf(4), DIOCRTSTADDRS).
    Test {
        path: Path,
        name: TableName,
        address: Addr,
    },
    /// Shows the active rules at a path.
    ShowRules(Path),
    /// Shows the tables at a path.
    ShowTables(Path),
    /// Shows the states.
    ShowStates,
    /// Says what the checksum of the main rules is.
    Sum,
    /// Exports all states, as messages to a peer.
    Export,
}

/// What is asked of whoever keeps the history of changes (pf_book).
#[derive(Clone, Copy)]
pub enum HistoryCommand {
    /// Says how many changes there are since the opening, how many of them are acknowledged, and how many are shown.
    Log,
    /// Shows all acknowledged changes.
    Publish,
}

/// One command.
#[derive(Drop)]
pub enum Command {
    /// A step of a transaction.
    Transact(Transaction),
    /// A change of one table.
    Edit(TableEdit),
    /// A change of the states.
    States(StateCommand),
    /// A question.
    Ask(Question),
    /// A command for whoever keeps the history.
    History(HistoryCommand),
}

impl Command {
    /// Whether a group may have it: a commit, a change of a table, or a change of the states.
    pub fn may_be_grouped(&self) -> bool
        ensures { result ≡ may_be_grouped self.now }
    {
        match self {
            Command::Transact(transaction) => matches!(transaction, Transaction::Commit(_)),
            Command::Edit(_) | Command::States(_) => true,
            Command::Ask(_) | Command::History(_) => false,
        }
    }
}
