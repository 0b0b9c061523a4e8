//! Families, addresses and networks in bytes.
ghost use Rattle.std.specs.{Prelude.{◌≡◌, false, true, IfOk, OnOk}, Option.MatchOption};
ghost use Rattle.pf_addr.specs.{Address.{family_of, number_in}, NetForms.{family, family_byte, address_in, first_number, is_network}};
ghost use Rattle.pf_form.specs.Bytes.{Forms.onto, Readers.Reads};

use crate::addr::{Addr, Family};
use crate::net::Net;
use pf_form::bytes::{
    Fault, Rest, Undecoded, expect, push_bytes, push_u32, push_u128, read_u8, read_u32, read_u128,
};
use std::alloc::AllocError;

impl Family {
    /// The number that stands for the family in bytes: 4 or 6.
    pub fn number(self) -> u8
        ensures { result ≡ family_byte self }
    {
        match self {
            Family::V4 => 4,
            Family::V6 => 6,
        }
    }
}

/// Reads a family from one byte, 4 or 6. Fails if no byte is left, and at any other byte.
#[tactic(auto, unfolding(crate::specs::NetForms::family))]
pub fn read_family<'a>(from: &mut Rest<'a>) -> Result<Family, Undecoded>
    ensures { Reads family_byte family result from.old.now from.new.now }
{
    let left = from.len();
    match read_u8(from)? {
        4 => Ok(Family::V4),
        6 => Ok(Family::V6),
        _ => Err(Undecoded::Fault(Fault::Bad(left))),
    }
}

/// Reads an address of this family from 16 bytes, big-endian; an IPv4 address is in the first four, followed by zeros.
///
/// Fails if fewer bytes are left, and at the first byte after an IPv4 address that isn't zero.
pub fn read_addr<'a>(family: Family, from: &mut Rest<'a>) -> Result<Addr, Undecoded>
    ensures read { Reads number_in (address_in (family_byte family)) result from.old.now from.new.now }
    ensures family { IfOk result (λ a. family_of a ≡ family) }
{
    match family {
        Family::V4 => {
            let number = read_u32(from)?;
            expect(from, &[0; 12])?;
            Ok(Addr::V4(number))
        }
        Family::V6 => Ok(Addr::V6(read_u128(from)?)),
    }
}

/// Appends an address to the bytes, as 16 bytes that [`read_addr`] reads. Fails only when out of memory.
pub fn push_addr(out: &mut Vec<u8>, addr: Addr) -> Result<(), AllocError>
    ensures { OnOk result (out.new.items ≡ onto (address_in (family_byte (family_of addr))) (number_in addr) out.old.items) }
{
    match addr {
        Addr::V4(number) => {
            push_u32(out, number)?;
            push_bytes(out, &[0; 12])
        }
        Addr::V6(number) => push_u128(out, number),
    }
}

impl Net {
    /// The network with this first address and this prefix length. `None` if an address of the family has fewer bits, or a bit after the
    /// prefix isn't zero.
    pub fn starting_at(addr: Addr, len: u8) -> Option<Net>
        ensures { MatchOption result (is_network (family_byte (family_of addr)) len (number_in addr) ≡ false)
            (λ n. (is_network (family_byte (family_of addr)) len (number_in addr) ≡ true)
            × (n.family ≡ family_of addr) × (n.len ≡ len) × (first_number n ≡ number_in addr)) }
    {
        if len > addr.family().width() {
            return None;
        }
        let net = Net::new(addr, len);
        if net.addr() != addr {
            return None;
        }
        Some(net)
    }
}
