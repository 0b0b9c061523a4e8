//! Values that stand in a pf.conf (pf.conf(5), PARAMETERS): protocols, ports and addresses, by their texts.
//!
//! Names of protocols and services are built in, so that a file means the same on every machine. Decimal numbers have no zeros in front.
//! A text that is no such value has one mistake.
//!
//! The modules: `numbers` (decimal numbers), and `names`, `protocols`, `ports` and `addresses`, which use it; `interfaces` (a file's tokens
//! with the addresses of interfaces in place of their names).
//!
//! Read `specs/Numbers.antt` first, then `specs/Named.antt`, `specs/Ports.antt` and `specs/Addresses.antt`. Proved: each function gives what
//! its definition says.
#![tactic(auto)]

mod addresses;
pub mod interfaces;
mod names;
mod numbers;
mod ports;
mod protocols;

pub use addresses::net;
pub use numbers::Mistake;
pub use ports::{PortNumbers, port, port_or_range, single_port};
pub use protocols::{protocol_named, protocol_numbered};
