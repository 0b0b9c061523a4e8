//! Loads of a pf.conf (pfctl(8), -f): what one leaves, what it would change, and what a server has.
//!
//! The modules, each of which uses only those before it: `changes` (what a load would change) and `served` (what a server has). `laws` says
//! what a load leaves, and `files` what a file means. A load itself is [`load`], of pf_commit.
//!
//! The crate knows no socket: lines go to a writer, and replies come from a reader. What a file means is pf_conf's; what a line does is
//! pf_core's.
//!
//! Read `specs/Changes.antt`, `specs/Served.antt` and `specs/Laws.antt`. Proved: that only questions are sent for what a load would change,
//! and for what a server has; the text of what would change. Only tested: what is done with replies.
#![tactic(auto)]

mod changes;
pub mod files;
mod laws;
mod served;

pub use changes::show_changes;
pub use laws::a_load_replaces_what_it_names;
pub use pf_commit::{Begun, Fault, PART, load, ruleset_names};
pub use served::served_conf;
