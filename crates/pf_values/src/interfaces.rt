//! Addresses of interfaces in a pf.conf (pf.conf(5), PARAMETERS, "from"): where a file names an interface as a host, the addresses that a
//! user gave for it.
//!
//! The modules, each of which uses only those before it: `interface` (interfaces as they are given), `mention` (what tokens mention),
//! `hosts` (where hosts stand), `addresses` (tokens with addresses in place of mentions) and `laws`.
//!
//! No machine is asked for its interfaces. An interface that isn't given stays a name, which pf_parse refuses as a host.
//!
//! Read in `specs/Interfaces` first `Interfaces`, then `Mentions`, `Hosts` and `Addresses`. Proved: each function gives what its definition
//! says. Laws: without interfaces the tokens stay as they are (`without_interfaces_nothing_changes`); no word without quotes is added to a
//! file (`words_are_the_files`).

mod addresses;
mod hosts;
mod interface;
mod laws;
mod mention;

pub use addresses::{antispoof_in, with_addresses};
pub use interface::{Interface, OwnAddress, read_interface};
pub use laws::{without_interfaces_nothing_changes, words_are_the_files};
