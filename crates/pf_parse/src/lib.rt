//! The lines of a pf.conf (pf.conf(5), GRAMMAR): the rules, braces, tables and loads that a file's tokens are, or the one fault with its
//! place.
//!
//! The modules, each of which uses only those before it: `fault` (what is wrong, and what is noted), `tree` (rules as they are written),
//! `parser` (reading tokens), `lists`, `criteria` (what rules test), `options`, `openings`, `anchors` and `statements` (the lines), and
//! `entries` (files of a table's entries).
//!
//! The crate reads tokens without macros and includes, which pf_tokens makes of texts. It knows no rulesets at paths: those are pf_conf's
//! business.
//!
//! Read `specs/States.antt` and `specs/Reading.antt` first, then `specs/Lines.antt` down to `specs/Lists.antt`: a function for each part of
//! the grammar, which takes tokens from the front or stops at a fault. Proved: [`parse`] and [`read_entries`] give what the definitions
//! say, the first fault with its place included, unless memory runs out. Laws: what is taken strictly is taken leniently, with the same
//! result (`lenient_takes_what_strict_takes`); each rule has the place of a word that begins one (`rules_stand_at_their_words`).
#![tactic(auto)]

mod anchors;
mod criteria;
mod entries;
mod fault;
mod laws;
mod lists;
mod openings;
mod options;
mod parser;
mod statements;
mod tree;

pub use entries::read_entries;
pub use fault::{At, Cause, LeftOut, Mistake, Reason, Remark, Stop, refusal};
pub use laws::{lenient_takes_what_strict_takes, rules_stand_at_their_words};
pub use parser::Mode;
pub use statements::{Parsed, parse};
pub use tree::{Braces, Entries, Entry, Load, Product, Table, Tree, Written};
