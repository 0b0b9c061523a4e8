//! Commands and replies: the decisions of the control plane, apart from texts and disks.
//!
//! It knows tickets, rulesets, tables and states by the crates below, and what a peer's message is. It doesn't know how a command is
//! spelled or a reply written (pf_line), nor who keeps the changes and publishes them (pf_book).
//!
//! A `Core` is what is kept, a `Durable`, and the open transactions. `Core::step_ready` answers a command, refuses it, leaves it to whoever
//! keeps the history, or says which `Change` it wants kept. With such a change it gives a `Next`: what the change leaves, with all its
//! memory. `Core::accept` puts a `Next` in place. `Core::step_ready_from` steps a later command of a group, whose changes are kept
//! together. It takes the `Next` of the commands before, and the `Next` that it gives is what all these changes leave.
//!
//! `Core::step` and `Core::step_from` give the same steps without a `Next`. `Core::prepare` makes the `Next` of a change alone, and
//! `Core::prepare_from` that of a later change of a group.
//!
//! Read specs/Durable/Changes.antt first (what is kept, what a change does to it, which change fits), then specs/Commands.antt (the one
//! step that a command is due), then specs/Worlds.antt: lists of calls, of groups of commands, of what workers see, of crashes and
//! openings, and which of these are legal. specs/History.antt is what is kept over all openings of such a world.
//!
//! `durable` is what is kept and its changes. It uses no other module, and knows of tickets only the names of rulesets and the lists of
//! defined tables. `command` and `reply` are values over it; `group` says which commands may be kept together; `step` and `next` are what a
//! command comes to and what its change leaves; `table_edit` and `state_command` are the steps of their commands, and `core_state` uses
//! all; `laws` says what follows. specs/WorldBooks.antt is for the crate above.
//!
//! Proved: each step, refusal and change is the one that the definitions give (the contracts of `Core` and `Durable`). Of every legal
//! world: no limit is passed, nothing is there twice, the tick never goes back, no ticket is given twice or outlives an opening, each
//! opening gives all that was kept before it, and what a worker saw or learnt stays (specs/Laws/Worlds.antt, specs/Laws/Openings.antt).
//! specs/Laws/Commands.antt says what one step does, and specs/Laws/Groups.antt compares a group with its commands one by one. That what
//! runs is such a world is proved in pf_book.
//! Only tests of other crates show that memory runs out only if a growth was refused.
#![tactic(auto)]

mod command;
mod core_state;
pub mod durable;
mod group;
pub mod laws;
mod next;
mod reply;
mod state_command;
mod step;
mod table_edit;

pub use command::{Command, HistoryCommand, Question, StateCommand, TableEdit, Transaction};
pub use core_state::Core;
pub use durable::{Change, ChangeKind, ChangeRefusal, Durable, EntryList, Item, Verdict};
pub use group::{GROUP_LIMIT, check_group};
pub use next::Next;
pub use reply::{Answer, Outcome, PlacedTables, Refusal, Reply, StateList};
pub use step::{ReadyStep, Step};
