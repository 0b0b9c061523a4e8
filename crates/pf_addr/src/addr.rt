//! Addresses.
ghost use Rattle.std.specs.Prelude.{◌≡◌, IfOk, Ok};
ghost use Rattle.pf_addr.specs.{Address.{family_of, width}, Grammar.SpellsAddr, Reading.{addr_at, address_at}};

use crate::fault::AddrFault;
use crate::ipv6_text::read_v6;
use crate::reading::{place_of, read_v4};

/// How many bits an IPv4 address has.
pub const V4_BITS: u8 = 32;
/// How many bits an IPv6 address has.
pub const V6_BITS: u8 = 128;

/// The family of an address or of a network (`inet` and `inet6` in pf.conf(5)).
#[derive(Clone, Copy, Debug, PartialEq, Eq)]
pub enum Family {
    /// IPv4: 32 bits.
    V4,
    /// IPv6: 128 bits.
    V6,
}

impl Family {
    /// How many bits an address of the family has.
    pub fn width(self) -> u8
        ensures { result ≡ width self }
    {
        match self {
            Family::V4 => V4_BITS,
            Family::V6 => V6_BITS,
        }
    }
}

/// An address, as a number whose highest bit is the address's first (host order).
#[derive(Clone, Copy, Debug, PartialEq, Eq)]
pub enum Addr {
    /// An IPv4 address.
    V4(u32),
    /// An IPv6 address.
    V6(u128),
}

impl Addr {
    /// The address's family.
    pub fn family(self) -> Family
        ensures { result ≡ family_of self }
    {
        match self {
            Addr::V4(_) => Family::V4,
            Addr::V6(_) => Family::V6,
        }
    }

    /// Reads an address (RFC 4291 section 2.2 for V6). With a colon it is V6: eight groups of one to four hexadecimal digits in either
    /// case between colons, where `::` may stand once for one or more zero groups, and a V4 address for the last two groups. Otherwise it
    /// is V4: four decimal numbers of one byte between dots, each of one to three digits.
    ///
    /// Returns the first fault in this order: no text ([`AddrFault::Empty`]); the parts or groups from left to right, in each
    /// [`AddrFault::BadDigit`] before [`AddrFault::TooBig`]; how many there are ([`AddrFault::BadGroups`]). If a V4 address ends a V6
    /// address, all its faults come when that piece is reached. Doesn't allocate.
    #[tactic(auto, using(crate::specs::Laws::Reading::addr_if_ok, crate::specs::Laws::Reading::addr_only))]
    pub fn from_ascii(text: &[u8]) -> Result<Addr, AddrFault>
        ensures found { IfOk result (λ a. SpellsAddr text.now a) }
        ensures only { (a : Addr) → SpellsAddr text.now a → result ≡ Ok a }
        ensures exact { result ≡ addr_at text.now }
    {
        read_address(4, text)
    }

    /// The same for a `str`; its faults are those of [`Addr::from_ascii`].
    pub fn parse(text: &str) -> Result<Addr, AddrFault>
        ensures found { IfOk result (λ a. SpellsAddr text.now a) }
        ensures only { (a : Addr) → SpellsAddr text.now a → result ≡ Ok a }
        ensures exact { result ≡ addr_at text.now }
    {
        Addr::from_ascii(text.as_bytes())
    }
}

/// Reads an address: V6 if the text has a colon, otherwise V4 with at least `fewest` parts; missing ones are zero.
#[tactic(auto, unfolding(crate::specs::Reading::address_at))]
pub(crate) fn read_address(fewest: usize, text: &[u8]) -> Result<Addr, AddrFault>
    ensures { result ≡ address_at fewest text.now }
{
    if text.is_empty() {
        return Err(AddrFault::Empty { at: 0 });
    }
    if place_of(b':', text).is_some() {
        Ok(Addr::V6(read_v6(text)?))
    } else {
        Ok(Addr::V4(read_v4(fewest, 0, text)?))
    }
}
