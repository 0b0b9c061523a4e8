//! Replies to commands.
ghost use Rattle.std.specs.Prelude.{◌≡◌};
ghost use Rattle.pf_core.specs.declared.reply.Refusal.TheVariants.{Memory};
ghost use Rattle.pf_core.specs.Refusals.{refusal_of, change_refusal_of};

use crate::durable::{ChangeRefusal, Verdict};
use pf_anchor::{PlacedTable, RuleList, RuleVerdict};
use pf_state::failover::Exported;
use pf_state::peer::PeerFault;
use pf_state::{Counts, State};
use pf_table::Entry;
use pf_ticket::{TicketRange, TicketRefusal};
use std::alloc::AllocError;
use std::marker::Model;

/// Tables with their paths and names. Contracts see the list.
#[derive(Drop)]
pub struct PlacedTables {
    tables: Vec<PlacedTable>,
}

impl Model for PlacedTables {
    ghost use Rattle.std.specs.Prelude.{List};
    ghost use Rattle.pf_anchor.specs.Tables.{PlainPlacedTable};

    ghost Value = { List PlainPlacedTable };

    ghost view = { λ n. n.tables.items };
}

impl PlacedTables {
    /// The list of these. It takes no memory.
    pub fn new(tables: Vec<PlacedTable>) -> PlacedTables
        ensures { result ≡ tables.items }
    {
        PlacedTables { tables }
    }

    /// The tables in order.
    pub fn as_slice(&self) -> &[PlacedTable]
        ensures { result.now ≡ self.now }
    {
        self.tables.as_slice()
    }
}

/// States, in the order of their names. Contracts see the list.
#[derive(Drop)]
pub struct StateList {
    states: Vec<State>,
}

impl Model for StateList {
    ghost use Rattle.std.specs.Prelude.{List};
    ghost use Rattle.pf_state.specs.States.{PlainState};

    ghost Value = { List PlainState };

    ghost view = { λ l. l.states.items };
}

impl StateList {
    /// The list of these. It takes no memory.
    pub fn new(states: Vec<State>) -> StateList
        ensures { result ≡ states.items }
    {
        StateList { states }
    }

    /// The states in order.
    pub fn as_slice(&self) -> &[State]
        ensures { result.now ≡ self.now }
    {
        self.states.as_slice()
    }
}

/// The answer to a command that wants nothing kept.
#[derive(Drop)]
pub enum Answer {
    /// The tickets of a begin.
    Given(TicketRange),
    /// It is done.
    Done,
    /// What happens to a packet.
    Judged(Verdict),
    /// A rule passes a packet and keeps state, but the name for its state is taken.
    Stale(RuleVerdict),
    /// The entry of a table that decides on an address, if one contains it.
    Tested(Option<Entry>),
    /// The rules of a ruleset, in order.
    Rules(RuleList),
    /// The tables at a path, in the order of their names.
    Tables(PlacedTables),
    /// The states, in the order of their names.
    States(StateList),
    /// The checksum of the main rules: MD5, 16 bytes.
    Sum([u8; 16]),
    /// Messages by which a peer learns all states.
    Exported(Exported),
    /// How many changes there are since the opening, how many of them are acknowledged, and how many are shown.
    Logged { len: u64, acked: u64, shown: u64 },
    /// All acknowledged changes are shown, and this is their number.
    Shown(u64),
}

/// What the reply to a kept change says beside its number.
#[derive(Drop)]
pub enum Outcome {
    /// The rulesets of a commit are active, each with what was offered for it, and none of its tickets is valid any more.
    Committed,
    /// How many of the entries handed in are new in the table, how many it had already, and how many it has with the other sign, which
    /// stays.
    Added {
        added: usize,
        same: usize,
        conflict: usize,
    },
    /// How many of the entries handed in were taken out of the table, and how many it didn't have.
    Deleted {
        deleted: usize,
        absent: usize,
    },
    /// The table has the entries handed in and no others.
    Set,
    /// The table, or the state, is gone.
    Killed,
    /// A packet passed by a rule that keeps state, and its state was made.
    Tracked(RuleVerdict),
    /// What became of the records of a peer's message.
    Peered(Counts),
    /// The tick is set, and so many states were due and are gone.
    Expired(usize),
}

/// Why nothing was done. After each of these but `Fault` all is as before: what is kept, the valid tickets, what is offered with them, and
/// the count of the next ticket.
#[derive(Clone, Copy, Debug, PartialEq, Eq)]
pub enum Refusal {
    /// The line is longer than 4,096 bytes, or has a byte that no line may have. No command was read.
    BadLine,
    /// The first word at which the text can't go on, from 0; the number of words if one is missing. No command was read.
    BadWord { at: usize },
    /// The same, for a name past its limit: 15 bytes for an interface, 31 for a table, 63 for a path's component, a label
    /// and a reference, 255 for a path, and 16 components in a path. No command was read.
    NameTooLong { at: usize },
    /// The same, for a word that isn't a protocol. No command was read.
    BadProto { at: usize },
    /// The families of a rule's hosts and its own, or of a packet's addresses, differ. No command was read.
    MixedFamily,
    /// A rule tests a port, and its protocol isn't TCP or UDP. No command was read.
    PortNeedsProto,
    /// The bytes of a peer's message have this fault, or end within a message. No command was read.
    BadPeer(PeerFault),
    /// The bytes of a peer's message are several messages, or none. No command was read.
    PeerCount,
    /// The device that changes are kept on failed in this opening, so nothing more is changed in it. For a command that could change
    /// something this comes before any other refusal.
    Halted,
    /// The list of a begin, a commit or a rollback, or a group of commands, is empty or longer than 64.
    BadCount,
    /// This command of a group, from 0, is the first that isn't of the kinds that a group may have. None of the others is done either.
    NotGrouped { index: usize },
    /// This entry of a commit or a rollback, from 0, is the first that names a ruleset named before it. No other entry is done
    /// either.
    Twice { at: usize },
    /// This entry of a commit, from 0, is the first whose ticket isn't valid; 0 for an add, a define or an extend. The other entries' valid
    /// tickets stay valid.
    Busy { at: usize },
    /// This entry of a list, from 0, is the first whose network came before it with the other sign. If there is none, it is the first of an
    /// extend whose network is offered with the other sign.
    Conflict { at: usize },
    /// Entries are to be deleted from a table that isn't there, or such a table is to be killed, or a state that isn't there; or a table is
    /// to be extended that wasn't defined with the ticket.
    Absent,
    /// The tick would go back, or a packet is to be tracked until a tick that has come.
    BadTick,
    /// The inactive ruleset has 1,024 rules already. Its ticket stays valid.
    RulesetFull,
    /// A commit would leave more than 1,024 rulesets, or a begin more than 1,024 with a valid ticket.
    TooManyRulesets,
    /// A table would have more than 65,536 entries.
    TableFull,
    /// There would be more than 1,024 tables, or more than 1,024 offered with one ticket.
    TooManyTables,
    /// There would be more than 65,536 states: with a state that is to be made, or after one of the records of a peer's message, even if
    /// later records would leave fewer.
    StatesFull,
    /// A begin needs more counts than are left up to 4,294,967,295, the last of an opening. None of them is given.
    TicketsExhausted,
    /// The history has as many changes as it may have, as whoever keeps it says.
    HistoryFull,
    /// The device that changes are kept on has no room for this one, or for all of a group, as whoever keeps them says.
    Full,
    /// The device failed while the change, or a group's changes, were being written. They aren't acknowledged: the next opening may give
    /// them or not, of a group all or none. What is kept, the tickets and what is shown are as before, and until that opening all that may
    /// change something is `Halted`.
    Fault,
    /// Out of memory. The command may be tried again.
    Memory,
}

impl From<AllocError> for Refusal {
    ghost from_gives = { λ _ e. e ≡ Memory };

    fn from(_e: AllocError) -> Refusal {
        Refusal::Memory
    }
}

impl From<TicketRefusal> for Refusal {
    ghost from_gives = { λ r e. e ≡ refusal_of r };

    fn from(refusal: TicketRefusal) -> Refusal {
        match refusal {
            TicketRefusal::BadCount => Refusal::BadCount,
            TicketRefusal::Twice { at } => Refusal::Twice { at },
            TicketRefusal::Busy { at } => Refusal::Busy { at },
            TicketRefusal::Absent => Refusal::Absent,
            TicketRefusal::Conflict { at } => Refusal::Conflict { at },
            TicketRefusal::RulesetFull => Refusal::RulesetFull,
            TicketRefusal::TooManyRulesets => Refusal::TooManyRulesets,
            TicketRefusal::TableFull => Refusal::TableFull,
            TicketRefusal::TooManyTables => Refusal::TooManyTables,
            TicketRefusal::TicketsExhausted => Refusal::TicketsExhausted,
            TicketRefusal::Memory => Refusal::Memory,
        }
    }
}

impl From<ChangeRefusal> for Refusal {
    ghost from_gives = { λ r e. e ≡ change_refusal_of r };

    fn from(refusal: ChangeRefusal) -> Refusal {
        match refusal {
            ChangeRefusal::Twice { at } => Refusal::Twice { at },
            ChangeRefusal::Conflict { at } => Refusal::Conflict { at },
            ChangeRefusal::TableFull => Refusal::TableFull,
            ChangeRefusal::TooManyRulesets => Refusal::TooManyRulesets,
            ChangeRefusal::TooManyTables => Refusal::TooManyTables,
            ChangeRefusal::StatesFull => Refusal::StatesFull,
            ChangeRefusal::BadTick => Refusal::BadTick,
            ChangeRefusal::Memory => Refusal::Memory,
        }
    }
}

/// The reply to one command.
#[derive(Drop)]
pub enum Reply {
    /// The answer, with nothing to be kept.
    Answer(Answer),
    /// A change was kept, with this number since the opening, from 1, and is shown with all before it.
    Applied { seq: u64, outcome: Outcome },
    /// A change was kept, with this number since the opening, from 1, but there was no memory to show it: it is shown with the next change
    /// that is, or by a publish.
    Stored { seq: u64, outcome: Outcome },
    /// Nothing was done, or, after `Fault`, nothing was acknowledged.
    Refused(Refusal),
}
