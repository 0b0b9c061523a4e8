//! Transactions: which tickets are valid, and what is offered with them (pf(4), DIOCXBEGIN to DIOCXROLLBACK).
//!
//! It knows the paths and lists of rules of pf_anchor, and pf_table's tables. It doesn't know which rulesets are active, nor commands and
//! replies: pf_core asks it whether a commit may go on and what is offered, and says which tickets a change voids.
//!
//! A begin gives a ruleset a new ticket and clears what is offered for it; with the valid ticket rules are added, and tables defined and
//! extended; a commit takes out what it names, a rollback what it names with a valid ticket. Read specs/Names.antt and specs/Tickets.antt
//! (the open transactions as a value) first, then specs/Mentions.antt (what each step leaves of them) and specs/Replies.antt (what each
//! step answers, and the order of refusals), then specs/Laws/Tickets.antt: over whole histories, which ticket is valid and what is offered
//! with it.
//!
//! `tickets` has the type `Tickets`, with a method for each step, and uses all other modules. `slots` are the inactive rulesets in the
//! order of their names; it uses `slot`, which is one of them and uses `offered` and `defined` (the tables that are offered). `entry` is a
//! ruleset with a ticket, `refusal` and `limits` say why nothing is done, and all of these may use `name` and `ticket`, which use none.
//!
//! Proved: what each step answers, refuses and leaves (the contracts of `Tickets`); that a ticket is valid exactly from the begin that gave
//! it until the next step that touches its ruleset, that what is offered is what was added, defined and extended with it, that each step
//! leaves other rulesets alone, that no ticket is given twice, and that the limits hold (`laws`).
//! Only tests of other crates show that memory runs out only if a growth was refused.
#![tactic(auto)]

mod defined;
mod entry;
pub mod laws;
mod limits;
mod name;
mod offered;
mod refusal;
mod slot;
mod slots;
mod ticket;
mod tickets;

pub use defined::{Defined, DefinedTable, EachDefined};
pub use entry::{RulesetTicket, RulesetTickets};
pub use limits::{ENTRY_LIMIT, LAST_COUNT, OFFERED_TABLE_LIMIT};
pub use name::{RulesetKind, RulesetName, RulesetNames};
pub use offered::Offered;
pub use refusal::TicketRefusal;
pub use ticket::{Ticket, TicketRange};
pub use tickets::{Tickets, named_twice};
