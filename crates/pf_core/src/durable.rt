//! What is kept, and what a change does to it: rulesets, tables and states, apart from tickets, texts and disks.

mod change;
mod durable;
mod entry_list;
pub mod laws;
mod refusal;
mod verdict;

pub use change::{Change, ChangeKind, Item};
pub use durable::Durable;
pub use entry_list::EntryList;
pub use refusal::ChangeRefusal;
pub use verdict::Verdict;
