//! Rules and networks as columns of words, matched eight at a time by vectors, with a plain loop for the rest.
//!
//! `RuleCols` are rules with their words in columns. A packet is prepared once for them (`Probe`). Each block of eight rules then returns
//! a mask: bit i is set if rule i of the block matches (pf.conf(5), PACKET FILTERING), given the tables' answers as masks or the tables
//! to ask. `NetCols` are networks in columns, and `longest` finds a longest one that contains an address.
//!
//! The crate knows only rules, packets and networks: no tables, paths or evaluation. Contracts see the rules and the networks, and not
//! the columns. No kernel allocates.
//!
//! `mask` has bits of masks, `words` the words of packets, rules and networks, and `columns` the types of columns. `lanes` compares eight
//! places of a column at a time, `kernel` eight rules. `plain` tests rules one by one, and `marks` collects what few rules have. `making`
//! makes columns of rules, `rule_cols` and `probe` match by them, `net_cols` has networks. `laws` may use all.
//!
//! Read `specs/Answered.antt` first (a match with given answers), then `specs/Longest.antt`; `specs/Words.antt` says which words a packet
//! and a rule have, and `specs/Columns.antt` how these make columns.
//!
//! Proved: each bit of a mask is the match of its rule ([`Probe::block`], [`Probe::matching`], [`match_one_by_one`]); no rule in the
//! blocks that [`Probe::next_near`] passes over matches; [`longest`] finds a longest network that contains the address, if any. With the
//! tables' own answers, the match is that of `pf_rule` (`answers_handed_in_are_what_tables_say`).
//! Only tests of other crates show that memory runs out only if a growth was refused.
#![tactic(auto)]

mod columns;
mod kernel;
mod lanes;
mod laws;
mod making;
mod marks;
mod mask;
mod net_cols;
mod plain;
mod probe;
mod rule_cols;
mod words;

pub use lanes::LANES;
pub use laws::answers_handed_in_are_what_tables_say;
pub use mask::{first_and_last, is_set};
pub use net_cols::{NetCols, longest};
pub use plain::{eight_of, match_one_by_one};
pub use probe::Probe;
pub use rule_cols::{RuleCols, match_block};
