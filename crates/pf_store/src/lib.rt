//! What is kept, on a device, so that a crash at any moment leaves it whole.
//!
//! The crate sees a device through the trait `pf_disk::Disk` and its two banks through `pf_snap`; what is kept and its changes come from
//! `pf_core`. It knows no commands and no replies. The modules:
//!
//! - `encoding`: what a record's payload means: changes and openings.
//! - `snapshots`: what a snapshot means: all that is kept.
//! - `store`: [`Store`], a device that holds what is kept: a snapshot, and a record for each group since. It uses the other two.
//! - `limits`: how much room a bank keeps.
//!
//! What is proved, for every device that keeps the contract of `Disk`:
//!
//! - A crash during a save leaves what was kept before all of its changes, or after all of them; after `Ok` the latter (`writes` and
//!   `images` of [`Store::save`]). `Full` comes exactly by the formula of `specs/Stores.antt`, `FindsRoom` (`room`).
//! - An opening returns what the device held, in the next epoch, which is on the device by then (`opened` and `images` of [`Store::open`]).
//!   A crash during it leaves an image from before, or what was read, in its epoch or the next (`writes`). All of that holds where a store
//!   that is at work opens its device again, by what is kept in memory ([`Store::open_again`]).
//! - What is written is read back, bytes are those of at most one group or one thing kept, and their number is that of the layout
//!   ([`write_group`], [`read_group`], [`write_durable`], [`read_durable`], the laws of `encoding` and `snapshots`).
//! - An image holds at most one thing, within all limits. One that does, by a generation below 2^63, is never refused as one that holds
//!   nothing. If the epoch isn't the last one and a bank has 56 bytes left after a snapshot of it in the newest version (a save leaves 64),
//!   it fails to open only when out of memory or by a fault of the device (the laws of `store`).
//!
//! Only tests (`pf_store_tests`) show that calls succeed with enough memory, since no contract says when memory runs out, and how many
//! calls of the device a save or an opening really makes: the contracts give upper bounds. That a store keeps the memory of a switch for
//! the next one is neither proved nor tested.
#![tactic(auto)]

pub mod encoding;
mod limits;
pub mod snapshots;
pub mod store;

pub use encoding::{AsChange, GroupFault, Recorded, read_group, write_group};
pub use limits::{AROUND, OPENING_RECORD, ROOM_KEPT, ROOM_TO_OPEN};
pub use pf_snap::FormatFault;
pub use snapshots::{read_durable, write_durable};
pub use store::{OpenFault, SaveFault, Store, format};
