//! Which packet C's record says.
ghost use Rattle.std.specs.{Prelude.{◌≡◌, ◌==◌, if◌then◌else◌}};
ghost use Rattle.pf_addr.specs.Address.{IsAddr};
ghost use Rattle.pf_rule.specs.declared.value.direction.Direction.TheVariants.{In, Out};
ghost use Rattle.wirdalf_c.specs.Packets.{address_in, has_known_numbers, name_in, packet_in};

use crate::interface::ReadNames;
use crate::record::{FAMILY_V4, FAMILY_V6, PacketRecord, WAY_IN, WAY_OUT};
use pf_addr::Addr;
use pf_rule::{Direction, Packet, PacketParts, Protocol};

/// The packet that a record says, by the names of interfaces that were read before. `None`: it says none.
pub fn packet_in(given: &PacketRecord, names: &mut ReadNames) -> Option<Packet>
    ensures { result ≡ packet_in given.now }
{
    if !has_known_numbers(given) {
        return None;
    }
    let interface = names.read(&given.interface)?;
    Packet::new(PacketParts {
        direction: direction_in(given.way),
        interface,
        protocol: Protocol::new(given.protocol),
        source: address_in(given.family, given.source),
        source_port: given.source_port,
        destination: address_in(given.family, given.destination),
        destination_port: given.destination_port,
    })
}

// Whether the way, the family and the protocol are such.
fn has_known_numbers(given: &PacketRecord) -> bool
    ensures { result ≡ has_known_numbers given.now }
{
    (given.way == WAY_IN || given.way == WAY_OUT)
        && (given.family == FAMILY_V4 || given.family == FAMILY_V6)
        && 0 < given.protocol
}

fn direction_in(way: u8) -> Direction
    ensures { result ≡ if way == WAY_IN then In else Out }
{
    if way == WAY_IN {
        Direction::In
    } else {
        Direction::Out
    }
}

/// The address of a family in these bytes, in network order.
pub fn address_in(family: u8, bytes: [u8; 16]) -> Addr
    ensures address { result ≡ address_in family bytes }
    ensures fits { IsAddr result }
{
    if family == FAMILY_V4 {
        let [a, b, c, d, ..] = bytes;
        Addr::V4(u32::from_be_bytes([a, b, c, d]))
    } else {
        Addr::V6(u128::from_be_bytes(bytes))
    }
}
