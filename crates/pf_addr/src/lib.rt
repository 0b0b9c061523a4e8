//! Names and paths of rulesets, references to them, IP addresses and networks: as texts and as bytes. Also the loop that writes a text
//! out.
//!
//! The modules at the root: `addr` and `net` (addresses; networks and what they contain), `fault` (what is wrong with a text), `reading`
//! and `ipv6_text` (reading texts, IPv4 and IPv6), `write` (writing them), `net_form` (bytes), `net_key` (networks as keys of
//! maps). `path` has names, paths and references, their bytes and keys. `path` uses no other module; the modules at the root don't use
//! `path`; `laws` may use all.
//!
//! The crate knows no rule, packet, ruleset or command, and not what the maps hold. A path is a name for a ruleset; the only thing known
//! about paths is which of them are within one another. Names and paths are words of grammars and layouts as pf_form has them; addresses
//! and networks are read and written byte by byte. A writer may fail: what it holds then is part of each contract.
//!
//! Read `specs/Address.antt` and `specs/Grammar.antt` first (addresses, networks, their texts), then `specs/FaultCases.antt` (each fault
//! by cases on the text) and `specs/Path/PathGrammar.antt`. Layouts of bytes are in `specs/NetForms.antt` and
//! `specs/Path/PathForms.antt`, the order of keys in `specs/NetOrder.antt` and `specs/Path/FirstBytes.antt`. `specs/Writing.antt` says
//! what a writer holds, `specs/Refusing.antt` how checks follow one another.
//!
//! Proved, by the contracts in `laws` and `path::laws`: a text is read exactly where the grammar spells it (`addrs_are_read_as_spelled`,
//! `nets_are_read_as_spelled`, `path::laws::paths_are_read_as_spelled` and their like); any other is refused for the one fault that it
//! has (`faults_of_addrs_are_reported`, `faults_of_nets_are_reported`, `path::laws::faults_of_names_are_reported`); what is written is read again,
//! and no two values share a text; a network contains exactly the addresses that begin with its bits (`networks_contain_by_bits`); bytes
//! give back what was written (`networks_have_bytes_of_their_own`, `path::laws::names_have_bytes_of_their_own`).
//! Only tests of other crates show that memory runs out only if a growth was refused.
#![tactic(auto)]

mod addr;
mod fault;
mod ipv6_text;
mod laws;
mod net;
mod net_form;
mod net_key;
pub mod path;
mod reading;
mod write;

pub use addr::{Addr, Family, V4_BITS, V6_BITS};
pub use fault::AddrFault;
pub use laws::{
    addrs_are_read_as_spelled, addrs_have_texts_of_their_own, faults_of_addrs_are_reported,
    faults_of_nets_are_reported, net_text_is_one_word, nets_are_read_as_spelled,
    nets_have_texts_of_their_own, networks_contain_by_bits, networks_have_bytes_of_their_own,
    sizes_are_these, written_addr_is_read_again, written_net_is_read_again,
};
pub use net::Net;
pub use net_form::{push_addr, read_addr, read_family};
pub use write::{write_addr, write_more, write_more_net, write_more_number, write_net, write_text};
