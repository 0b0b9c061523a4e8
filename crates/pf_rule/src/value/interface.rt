//! Names of network interfaces.

use pf_addr::path::Name;

/// How many bytes an interface's name may have: those of pf(4)'s `ifname` but for its closing zero.
pub const INTERFACE_LIMIT: usize = 15;

/// The name of a network interface, as `em0`, of at most [`INTERFACE_LIMIT`] bytes.
pub type Interface = Name<INTERFACE_LIMIT>;
