//! Networks.
ghost use Rattle.std.specs.Prelude.{◌≡◌, ℕ, ◌-◌, ◌*◌, ◌/◌, ◌^◌, ◌≤◌, ◌<◌, length, IfOk, Ok};
ghost use Rattle.pf_addr.specs.{Address.{PlainNet, contains, width, family_of, network_from, network_of}, Grammar.SpellsNet};
ghost use Rattle.pf_addr.specs.{Reading.{net_at, cut_at}, Spelling.first_addr};

use crate::addr::{Addr, Family, V4_BITS, V6_BITS, read_address};
use crate::fault::AddrFault;
use crate::reading::{place_of, read_prefix_len};
use std::marker::Model;

/// A network: the addresses of one family that begin with the same bits. The bits past the front are zero.
#[derive(Clone, Copy, Debug, PartialEq, Eq)]
pub struct Net {
    // the widest first, so that no padding is lost between the fields
    number: u128,
    family: Family,
    len: u8,
}

impl Model for Net {
    ghost use Rattle.pf_addr.specs.Address.{PlainNet};

    ghost Value = { PlainNet };

    ghost use Rattle.pf_addr.specs.Nets.{network_in, IsWithin, inside_of, inside_of-network_in};

    ghost view = { network_in };

    ghost invariant = { IsWithin };

    ghost inverse = { inside_of };

    ghost inverse_ok = { inside_of-network_in };
}

impl Net {
    /// The network of the addresses that share the first `len` bits of `addr`. The other bits of `addr` are cleared.
    pub fn new(addr: Addr, len: u8) -> Net
        requires { len ≤ width (family_of addr) }
        ensures { result ≡ network_from addr len }
    {
        match addr {
            Addr::V4(number) => Net {
                family: Family::V4,
                number: u128::from(first_of_v4(number, V4_BITS - len)),
                len,
            },
            Addr::V6(number) => Net {
                family: Family::V6,
                number: first_of(number, V6_BITS - len),
                len,
            },
        }
    }

    /// The network of one address.
    pub fn single(addr: Addr) -> Net
        ensures { result ≡ network_of addr }
    {
        Net::new(addr, addr.family().width())
    }

    /// The network's family.
    pub fn family(self) -> Family
        ensures family { result ≡ self.family }
        // the prefix is no longer than an address of the family, so its bits fit
        ensures within { self.len ≤ width self.family }
        ensures front { self.front < 2 ^ self.len }
    {
        let Net { family, .. } = self;
        family
    }

    /// How many bits the network's addresses share: at most 32 in a V4 network, at most 128 in a V6 network.
    pub fn prefix_len(self) -> u8
        ensures value { result ≡ self.len }
        ensures within { result ≤ width self.family }
    {
        let Net { len, .. } = self;
        len
    }

    /// The network's first address: the shared bits followed by zeros.
    pub fn addr(self) -> Addr
        ensures value { result ≡ first_addr self }
        ensures family { family_of result ≡ self.family }
    {
        match self.family {
            Family::V4 => Addr::V4(self.number as u32),
            Family::V6 => Addr::V6(self.number),
        }
    }

    /// Whether the address is of the network's family and begins with its shared bits.
    #[tactic(auto, unfolding(crate::specs::Address::contains))]
    pub fn contains(self, addr: Addr) -> bool
        ensures { result ≡ contains self addr }
    {
        match (self.family, addr) {
            (Family::V4, Addr::V4(number)) => {
                u128::from(first_of_v4(number, V4_BITS - self.len)) == self.number
            }
            (Family::V6, Addr::V6(number)) => first_of(number, V6_BITS - self.len) == self.number,
            _ => false,
        }
    }

    /// Reads a network in CIDR notation: an address alone, or an address, a slash, and how many bits the network's addresses share.
    /// Before the slash the last parts of a V4 address may be missing; they are zero. Bits that aren't shared are cleared.
    ///
    /// Returns the first fault in this order: [`AddrFault::Empty`] if nothing comes before the slash; those of the address, as
    /// [`Addr::from_ascii`] returns them; [`AddrFault::BadLength`]. Doesn't allocate.
    #[tactic(auto, using(crate::specs::Laws::Reading::net_if_ok, crate::specs::Laws::Reading::net_only))]
    pub fn from_ascii(text: &[u8]) -> Result<Net, AddrFault>
        ensures found { IfOk result (λ n. SpellsNet text.now n) }
        ensures only { (n : PlainNet) → SpellsNet text.now n → result ≡ Ok n }
        ensures exact { result ≡ net_at text.now }
    {
        Net::with_or_without_len(text)
    }

    /// The same for a `str`; its faults are those of [`Net::from_ascii`].
    pub fn parse(text: &str) -> Result<Net, AddrFault>
        ensures found { IfOk result (λ n. SpellsNet text.now n) }
        ensures only { (n : PlainNet) → SpellsNet text.now n → result ≡ Ok n }
        ensures exact { result ≡ net_at text.now }
    {
        Net::from_ascii(text.as_bytes())
    }

    // Separate, so that what is read is proved once for both callers.
    fn with_or_without_len(text: &[u8]) -> Result<Net, AddrFault>
        ensures { result ≡ net_at text.now }
    {
        match place_of(b'/', text) {
            Some(slash) => Net::cut_at(text, slash),
            None => Ok(Net::single(Addr::from_ascii(text)?)),
        }
    }

    // The network of a text whose first slash is at this place.
    fn cut_at(text: &[u8], slash: usize) -> Result<Net, AddrFault>
        requires { slash < length text.now }
        ensures { result ≡ cut_at text.now (Some slash) }
    {
        let addr = read_address(1, &text[..slash])?;
        let most = addr.family().width();
        let len = read_prefix_len(most, slash + 1, &text[slash + 1..])?;
        Ok(Net::new(addr, len))
    }
}

// The number of a V4 address with its `host` lowest bits cleared.
fn first_of_v4(number: u32, host: u8) -> u64
    requires { host ≤ 32 }
    ensures value { result ≡ number / 2 ^ host * 2 ^ host }
    ensures front { result / 2 ^ host ≡ number / 2 ^ host }
{
    // 64 bits, so that a shift by all 32 is allowed
    (u64::from(number) >> host) << host
}

// The same for a number of up to 128 bits.
fn first_of(number: u128, host: u8) -> u128
    requires { host ≤ 128 }
    ensures value { result ≡ number / 2 ^ host * 2 ^ host }
    ensures front { result / 2 ^ host ≡ number / 2 ^ host }
{
    // a shift by all 128 bits isn't allowed
    if host == 128 {
        return 0;
    }
    (number >> host) << host
}
