//! Changes in bytes: what a record's payload means. Start with `specs/Groups.antt`, which has each kind of change by its bytes.
//!
//! - `group`: [`write_group`] and [`read_group`]: what one record keeps; `record_group` and `record_opening`: the record itself.
//! - `as_change`: [`AsChange`]: a change that is handed in as it is, or shared.
//! - `recorded`: [`Recorded`]: a change or an opening as a record has it.
//! - `change`: its bytes.
//! - `items`: what a commit replaces, rules or tables.
//! - `tables`: tables that were defined, and entries.
//! - `facts`: that data determine what is recorded.
//! - `fault`: why a write or a read fails.
//! - `laws`: a payload is that of at most one group, and how many bytes it has.
//!
//! `group` uses `as_change`, `change`, `fault`, `recorded` and `facts`; `change` uses `items`, `recorded`, `tables` and `facts`; `items`
//! uses `tables`; `facts` uses `recorded`.

mod as_change;
mod change;
mod facts;
mod fault;
mod group;
mod items;
mod laws;
mod recorded;
mod tables;

pub use as_change::AsChange;
pub(crate) use facts::rules_are_their_data;
pub use fault::GroupFault;
pub(crate) use fault::unread;
pub(crate) use group::{changes_are_allowed_in, have_form, record_group, record_opening};
pub use group::{read_group, write_group};
pub(crate) use items::{push_rules, read_rules};
pub use laws::payloads_tell_one_group;
pub use recorded::Recorded;
pub(crate) use tables::{push_table, read_table};
