//! Rulesets and tables at their paths: what is active, and which rule decides on a packet (pf.conf(5), ANCHORS and TABLES).
//!
//! It knows the rules of pf_rule, which it judges by eight at a time in the columns of pf_lanes, the tables of pf_table and the maps of
//! pf_map. It doesn't know who replaces a ruleset or a table and when, and nothing of tickets, commands and states.
//!
//! A `Config` is two maps, of rulesets by their paths and of tables by path and name, in which nothing is empty. A change makes a new
//! `Config`, which shares what it doesn't change. A packet is judged by the main ruleset and, where its anchor rules match, by the rulesets
//! that they lead to. Read specs/Rulesets.antt and specs/Tables.antt (the maps) first, then specs/Evaluation.antt (what an evaluation
//! finds) and specs/Laws/Evaluation.antt, which says it without the recursion.
//!
//! `config` is the type, over what the maps hold: `rulesets`, `tables` and `rule_list`, which don't use it. `judge` is judging, over
//! `config`: by `evaluate`, from ruleset to ruleset as far as `work` allows, and if that doesn't suffice by `in_order`, each ruleset once,
//! with what is `known` of those behind it and what tables have `answered`. These use `evaluated` (what was found so far) and `named_tables`
//! (the table that a rule names).
//! `verdict` is what an evaluation answers, `fault` and `limits` say why something isn't put at a path, and `laws` may use all.
//!
//! Proved: what each change leaves of both maps, how many bytes they take, and that `Config::judge` finds what the evaluation of
//! specs/Evaluation.antt finds (the contracts of `Config`, `RuleList` and the lengths); that evaluation is the one solution of its
//! equation, that the last or the first quick rule decides, what anchor rules lead to, that no anchor rule decides, and which table a
//! rule's name means (`laws`).
//! Where it is known what rules lead to, nothing recurses, which is proved; how much is done before isn't stated, nor how fast it judges.
//! Only tests of other crates show that memory runs out only if a growth was refused.
#![tactic(auto)]

mod answered;
mod config;
mod evaluate;
mod evaluated;
mod fault;
mod in_order;
mod judge;
mod known;
pub mod laws;
mod limits;
mod named_tables;
mod rule_list;
mod rulesets;
mod tables;
mod verdict;
mod work;

pub use config::Config;
pub use fault::ConfigFault;
pub use limits::{RULE_LIMIT, RULESET_LIMIT, TABLE_COUNT_LIMIT};
pub use pf_addr::path::Path;
pub use rule_list::RuleList;
pub use rulesets::{EachRuleset, Placed, ruleset_length};
pub use tables::{EachTable, PlacedTable, named_table_length};
pub use verdict::RuleVerdict;
