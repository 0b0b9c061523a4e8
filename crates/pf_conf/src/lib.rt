//! What a pf.conf means (pf.conf(5)): the rules and the tables that it stands for, by the paths of their rulesets, or the one fault with
//! its place.
//!
//! The modules, each of which uses only those before it: `fault` (what a user is told, and where), `tables` (texts of tables' entries),
//! `found` (rulesets, tables and what is still to be loaded), `rulesets` (rules in braces), `filling` (the tables of a file), `telling`
//! (places as a user finds them), `lines` (a file's lines), `resolving` (all files), `shown` (what is printed), `commit` (the lines that a
//! server is sent) and `laws`. Where interfaces are named as hosts, pf_values::interfaces puts their addresses. The lines of a file are
//! read by pf_parse, the lists of a rule are multiplied by pf_lists, and what fills a table comes from pf_sources.
//!
//! The crate opens no file: [`resolve`] answers with the name of one that isn't given, and whoever reads files asks again. It knows no
//! server and no state.
//!
//! Read `specs/Rulesets.antt`, `specs/Filling.antt` and then `specs/Resolving.antt`: what a file means is a total function of the files
//! that are given. Proved: [`resolve`] gives what it says, or the first fault, unless memory runs out; [`write_conf`] prints what
//! `specs/Shown.antt` says, and lines of a commit are what `specs/Commit` says. Laws: what is taken strictly is taken leniently, with the
//! same result (`lenient_takes_what_strict_takes`); rules stand where one begins in a file (`rules_stand_at_their_words`); pf_rule reads
//! each rule that is printed as this rule (`printed_rules_are_read_again`); what a file means is no more than one commit can have
//! (`a_commit_can_have_it`). Only tested: that main's rules, as they are printed, are a file with the same rules (pf_conf_rows).
#![tactic(auto)]

pub mod commit;
mod fault;
mod filling;
mod found;
mod laws;
mod lines;
mod resolving;
mod rulesets;
mod shown;
mod tables;
mod telling;

pub use fault::{Fault, Note, Spot, Unread};
pub use found::{Conf, FilledTable, LINE_LIMIT, RULE_LIMIT, RULESET_LIMIT, Ruleset, TICKET_BYTES};
pub use laws::{
    a_commit_can_have_it, lenient_takes_what_strict_takes, printed_rules_are_read_again,
    rules_stand_at_their_words,
};
pub use pf_parse::{At, Cause, LeftOut, Mistake, Mode, Reason, Remark};
pub use pf_values::interfaces::{Interface, read_interface};
pub use resolving::resolve;
pub use shown::write_conf;
