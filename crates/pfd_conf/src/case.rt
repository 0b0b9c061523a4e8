//! Tests of a firewall: packets, each with the verdict that is wanted; and the rules that match a packet.
//!
//! The modules: `verdict` (whether a packet passes), `wanted` (what is wanted of a verdict, and whether a verdict is that), `case` (what a
//! line of cases means) and `trace` (the rules that match).
//!
//! Nothing here knows a file, or a place where a rule is written. Read `specs/Case/Cases.antt` first, then `specs/Case/Matches.antt`.
//!
//! Proved: a line is read as the grammar of cases says, or refused for the one fault due; a case holds exactly if the verdict is what it
//! wants; the rules that are listed for a packet are those at which its evaluation looks and that match, in that order, or the first of them
//! ([`rules_that_match`]). Only tested: that the last of them that decides is the one by which pf_anchor judges.

mod case;
mod trace;
mod verdict;
mod wanted;

pub use case::{Case, read_case, read_packet};
pub use trace::{MATCH_LIMIT, Matched, Traced, rules_that_match};
pub use verdict::{action_text, passes};
pub use wanted::{Decider, Wanted, read_wanted};
