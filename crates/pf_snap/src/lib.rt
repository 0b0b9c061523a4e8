//! Two banks on a device, of which one counts: a snapshot, and the records since. A switch begins the other one with another snapshot.
//!
//! The crate handles only bytes: it doesn't know what a snapshot or a record's payload means. A device of N bytes has two banks of N / 2
//! bytes each:
//!
//! | Place in a bank | Bytes | What |
//! |---|---|---|
//! | 0 | 1 | the gate: A5 is open, any other byte closed |
//! | 1 | 1 | the version |
//! | 2 | 6 | zeros |
//! | 8 | 8 | the generation, big-endian |
//! | 16 | 4 | the snapshot's length, big-endian |
//! | 20 | 4 | zeros |
//! | 24 | its length | the snapshot |
//! | after it | up to the bank's end | records, as in a journal, up to the first closed gate |
//!
//! Of the banks with an open gate the one with the greater generation counts. Start with `specs/Banks.antt`: what an image holds. Then
//! read [`Banks::switch`] and [`Banks::append`] with `specs/Ready.antt`. The modules:
//!
//! - `header`: the header's bytes, and how many bytes a device may have.
//! - `banks`: [`Banks`], a device with the bank that counts: opening it, adding records, switching to the other bank.
//! - `next_bank`: [`NextBank`], which a switch begins, in the memory that it is written from.
//! - `beginning`: begins a bank over whatever was there: closes its gate, writes it, opens its gate.
//! - `formatting`: [`format`], which makes a device hold a bank with a snapshot and no records.
//! - `looking`: [`look`], which reads what a device holds and changes nothing.
//! - `fault`: why any of them fails.
//! - `laws`: what is true of the bytes, whoever writes them.
//!
//! What is proved, for every device that keeps the contract of `pf_disk::Disk`:
//!
//! - A crash during an append or a switch leaves what was held or what is to be held, nothing else; after `Ok` it is the latter
//!   (`writes` and `kept` of [`Banks::append`] and [`Banks::switch`]).
//! - A crash during a format leaves all but the gates as it was, or both gates closed, or the new bank (`writes` of [`format`]).
//! - A look returns what is there, and says `broken` exactly where nothing is held ([`look`], [`Banks::open`]).
//! - An image holds at most one content ([`image_holds_one_content`]), and a look at one fails only when out of memory or by a fault of
//!   the device, for generations below 2^63 ([`content_is_refused_by_chance_alone`]).
//! - The header's bytes ([`header_has_these_bytes`]), and the version in which banks are begun ([`the_newest_version`]).
//!
//! No contract says when memory runs out: that calls succeed with enough memory only tests show (`pf_store_tests`). That
//! [`NextBank::start`] takes at once all the memory that the snapshot and its gate need is neither proved nor tested.
#![tactic(auto)]

mod banks;
mod beginning;
mod fault;
mod formatting;
mod header;
mod laws;
mod looking;
mod next_bank;

pub use banks::Banks;
pub use fault::{FormatFault, LookFault, SwitchFault};
pub use formatting::format;
pub use header::{BANK_HEADER, NEWEST, is_size};
pub use laws::{
    content_is_refused_by_chance_alone, header_has_these_bytes, image_holds_one_content,
    the_newest_version,
};
pub use looking::{Looked, look};
pub use next_bank::NextBank;
