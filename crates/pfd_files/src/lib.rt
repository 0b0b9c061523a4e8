//! What the program does with a disk, and with the file that a disk is in: formats it, opens it, and shows what it holds; and why the
//! program ends with status 1.
//!
//! The crate knows the disks of `pf_disk`, the store of `pf_store`, and how `pf_line` writes a checksum. It knows no session, no Book and
//! none of the program's words. The modules:
//!
//! - `devices`: [`format_on`] and [`show_on`], on any disk.
//! - `files`: [`format_file`], [`open_file`] and [`show_file`], the same on a file.
//! - `fault`: [`Fault`], why the program ends with status 1, in one line each.
//!
//! Read `specs/Showing.antt` first: what is shown of a disk. Proved, by public contracts: each image of a formatted disk holds nothing but
//! the epoch 0, and which faults leave the disk as it was ([`format_on`]); what is written is what the disk holds, or the fault says why
//! not, and the disk is left as it was ([`show_on`]); which sizes are refused, and which faults a file can have ([`format_file`],
//! [`open_file`], [`show_file`]); and which `Fault` each fault of the crates below becomes (`specs/Faults.antt`).
//!
//! Only tested: what a file holds afterwards and that a locked file is refused, which no contract can say (the starts of the program in
//! `pfd_rows`, and `pfd_tests::files`), and the texts of the faults (`pfd_tests::faults`).
#![tactic(auto)]

mod devices;
mod fault;
mod files;

pub use devices::{format_on, show_on};
pub use fault::Fault;
pub use files::{format_file, open_file, show_file};
pub use pf_snap::is_size;
