//! A device that holds what is kept: the bank that counts has a snapshot of what was kept when it was begun, and a record for each group
//! since. If a record has no room there, or that bank's version has no form of it, the other bank is begun first.
//!
//! Start with `specs/Stores.antt`: what an image holds. Then read `specs/StoreKept.antt`: what contracts see of a store, and
//! `specs/Openings.antt`: why a device isn't opened. The modules:
//!
//! - `keeping`: [`Store`], which saves changes, and [`Store::open`].
//! - `adding`: adds a record, to the bank that counts or after a switch.
//! - `reopening`: [`Store::open_again`], which needn't read what is kept in memory.
//! - `finding`: [`Store::peek`], what a device holds.
//! - `formatting`: [`format`], which makes a device hold nothing.
//! - `replaying`: what a snapshot and payloads make.
//! - `lengths`: how long a snapshot and a payload would be.
//! - `fault`: why any of them fails.
//! - `laws`: an image holds at most one thing, within all limits, and when it can be opened; that an opening which is refused is an event;
//!   when a group fits, and how much room there is.

mod adding;
mod fault;
mod finding;
mod formatting;
mod keeping;
mod laws;
mod lengths;
mod reopening;
mod replaying;

pub use fault::{OpenFault, SaveFault};
pub use formatting::format;
pub use keeping::Store;
pub use laws::{
    group_fits_where_its_record_does, group_of_changes_leaves_what_they_do, held_state_is_found,
    held_state_is_within_limits, image_holds_one_state, refused_openings_are_events,
    state_with_room_is_refused_by_chance_alone, the_rooms_of_records, what_can_be_wanted_has_bytes,
};
