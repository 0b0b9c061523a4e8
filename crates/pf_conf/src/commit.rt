//! What a server is sent of a pf.conf, in one commit (pfctl(8), -f), as texts of lines.
//!
//! The modules: `naming` (the rulesets that a load replaces, and their tickets) and, over it, `lines` (what is sent). Texts of rules and of
//! networks are pf_rule's and pf_addr's. Whoever sends them is above.
//!
//! Read in `specs/Commit` first `Naming`, then `Lines`. Proved: each function gives or writes what its definition says.

mod lines;
mod naming;

pub use lines::{
    PART, begin_text, commit_text, entries_of, load_text, path_text, rollback_text, write_entry,
};
pub use naming::{Begun, ruleset_names, table_paths, ticket_of};
