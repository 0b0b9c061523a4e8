//! The commit of a pf.conf (pfctl(8), -f): what a server is sent, so that all that a file means takes effect at once or nothing does.
//!
//! The modules, each of which uses only those before it: `fault` (why a load stops), `replies` (what is sent and read) and `loading` (a
//! load).
//!
//! The crate knows no socket: lines go to a writer, and replies come from a reader. What a file means is pf_conf's, and so are the lines
//! that are sent of it (pf_conf::commit).
//!
//! Read in pf_conf's `specs/Commit` first `Naming` and `Lines`, then `specs/Loading.antt`. Proved: that a load which went through sent
//! exactly these lines with one ticket for each of its rulesets, and one that stopped a front of them and then of its rollback. Only
//! tested: what is done with replies.
#![tactic(auto)]

mod fault;
mod loading;
mod replies;

pub use fault::Fault;
pub use loading::load;
pub use pf_conf::commit::{
    Begun, PART, entries_of, path_text, ruleset_names, table_paths, write_entry,
};
pub use replies::{first_line, read_reply, send};
