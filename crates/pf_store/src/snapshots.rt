//! All that is kept in bytes: a snapshot. Start with `specs/Durables.antt`, which has an example; its form is `durable_form` of `pf_core`.
//!
//! - `durable`: [`write_durable`] and [`read_durable`].
//! - `rulesets`, `tables`: the two maps, each of them a list in order.
//! - `facts`: that data determine what is kept.
//! - `laws`: bytes are those of at most one thing kept, how many there are, and those of two examples.
//!
//! `durable` uses `rulesets`, `tables` and `facts`. All use module `groups`, for the fault and for how rules and a table stand in bytes.

mod durable;
mod facts;
mod laws;
mod rulesets;
mod tables;

pub(crate) use durable::push_snapshot;
pub use durable::{read_durable, write_durable};
pub use laws::{
    snapshot_is_of_one_durable, snapshot_of_nothing_is_its_epoch, snapshots_are_so_long,
    snapshots_have_these_bytes,
};
