//! States: what they are, how steps change them, and how a peer that takes over learns of them.
//!
//! A state lets the packets of one flow pass without a look at the rules (pf.conf(5)). It is named by a number and the host that made it,
//! and bound to one of the main rules or to the default rule. A table holds at most 65,536 of them, no name and no flow twice, and is
//! changed by batches of steps: inserts, deletes and clears; and by ticks, which take out the states whose expiry they have reached. A peer
//! sends its states in messages, whose form is our own, after that of pfsync(4).
//!
//! The crate has four layers, kept apart:
//! - states, their table and steps, in the modules at the root: they know no bytes and nothing of `peer`;
//! - bytes of flows, states and steps, in [`layouts`], by layouts of `pf_form::bytes`: what a store keeps of them;
//! - messages, in [`peer`]: how a stream of bytes is read in whatever pieces it comes, and how messages are written. It knows flows and
//!   their bytes, but no state;
//! - [`failover`], which knows states and messages: the steps that a message asks for, and the messages that give a peer all states.
//!
//! It knows packets and addresses, and of the rules only how many main rules there are and their checksum of 16 bytes: not what they say,
//! no rulesets at paths, no lines and no disk. It doesn't know which tick it is. From pf_map it has the maps that hold states by name, by
//! flow and in the order of their expiries.
//!
//! Proved, in the public contracts and in the laws of [`laws`], [`peer`], [`layouts`] and [`failover::laws`]:
//! - a table does what the definitions say: at most one state has a flow and it is the one found, the last step on a name counts, a batch
//!   is taken whole or refused whole, counts add up, a tick takes out exactly the states that are due, and a state is bound to a main rule
//!   only by the checksum of these rules;
//! - a stream has exactly one reading however it is cut, a fault stays, and a written message is read back;
//! - [`layouts`] reads and writes exactly the forms in `specs/Layouts/`;
//! - an export is read back as its messages, and a peer without states then has these, none with an expiry, and no others.
//!
//! Only tests of other crates show that an out-of-memory error comes only when out of memory.
//!
//! Read first: `specs/Flows.antt`, `States.antt`, `Steps.antt` and `Bindings.antt` for the table, `Dues.antt` for how due states are found,
//! and `Ids.antt` for how a batch finds the states that it clears; `specs/Peer/Records.antt`, `Groups.antt`, `Messages.antt` and
//! `Streams.antt` for a peer's bytes, `specs/Layouts/` for a store's bytes, `specs/Failover/` for how states and messages meet.
#![tactic(auto)]

mod binding;
mod change;
mod clears;
mod counts;
mod dues;
pub mod failover;
mod flow;
mod flow_key;
mod ids;
mod index;
mod keys;
pub mod laws;
pub mod layouts;
mod limits;
pub mod peer;
mod refusal;
mod state;
mod step;
mod table;

pub use binding::{ALL_ONES, bind, exported};
pub use counts::Counts;
pub use flow::Flow;
pub use flow_key::{FlowEnds, FlowKey};
pub use limits::STATE_LIMIT;
pub use peer::{Fed, FeedError, Message, OneFault, PeerFault, PeerReader, write_peer};
pub use refusal::StatesRefusal;
pub use state::{Bound, Held, State, StateName};
pub use step::{Insertion, StateStep, StepList, any_inserts_due};
pub use table::StateTable;
