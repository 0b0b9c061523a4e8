//! Sources of tables (pf.conf(5), TABLES): the entries that the lists and the files of a table's line have, and the table that they fill.
//!
//! The modules, each of which uses only those before it: `tables` (entries as a table has them) and `sources` (lists and files).
//!
//! A table's line and its files are read by pf_parse, and its entries are put in order by pf_table. The crate knows no rulesets.
//!
//! Read `specs/Tables.antt` and then `specs/Sources.antt`. Proved: [`gather`] and [`filled`] give what these say, or the first fault,
//! unless memory runs out.
#![tactic(auto)]

mod sources;
mod tables;

pub use sources::{Gathered, gather};
pub use tables::filled;
