//! What a look-up finds.

/// The sign that decides about an address, and how many of its last bits the prefix with this sign leaves free.
#[derive(Clone, Copy)]
pub struct Found {
    /// How many bits of the address come after the prefix.
    pub free: u8,
    /// The sign.
    pub sign: bool,
}
