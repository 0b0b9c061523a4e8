//! Flows in bytes.
ghost use Rattle.std.specs.Prelude.{◌≡◌, ◌++◌, ◌∷◌, [], ◌==◌, ◌&&◌, ◌||◌, true, replicate, IfOk, OnOk};
ghost use Rattle.pf_addr.specs.Address.{family_of};
ghost use Rattle.pf_form.specs.Bytes.{Forms.{ByteForm, Fits, back, number, onto}, Readers.Reads};
ghost use Rattle.pf_rule.specs.{Bytes.{direction_byte, family_byte}, Value.Values.has_ports};
ghost use Rattle.pf_state.specs.Layouts.Flows.{direction_form, family_form, protocol_form, addr_form, PortsShape, ports_form, plain_addr};
ghost use Rattle.pf_state.specs.Layouts.Flows.{flow_form, plain_flow};

use crate::flow::Flow;
use pf_addr::{Addr, Family};
use pf_form::bytes::{
    Fault, Layout, Rest, Undecoded, expect, push_bytes, push_u128, read_u8, read_u16, read_u32,
    read_u128,
};
use pf_rule::value::{Direction, Protocol};
use std::alloc::{AllocError, Global};

/// The direction byte of a state whose first packet came in.
const IN: u8 = 1;
/// The direction byte of a state whose first packet went out.
const OUT: u8 = 2;
/// The family byte of IPv4.
const FAMILY_4: u8 = 4;
/// The family byte of IPv6.
const FAMILY_6: u8 = 6;

impl Layout for Flow {
    ghost use Rattle.pf_state.specs.Layouts.Flows.{FlowShape, flow_form, plain_flow};

    ghost shape = { FlowShape };

    ghost form = { λ version. flow_form };

    ghost plain = { plain_flow };

    ghost before = { λ a b. true };

    #[tactic(auto, unfolding(crate::specs::Layouts::Flows::flow_form))]
    fn read<'a>(_alloc: Global, _version: u8, from: &mut Rest<'a>) -> Result<Flow, Undecoded> {
        let direction = read_direction(from)?;
        let family = read_family(from)?;
        let protocol = read_protocol(from)?;
        expect(from, &[0])?;
        let source = read_addr(family, from)?;
        let destination = read_addr(family, from)?;
        let (source_port, destination_port) = read_ports(protocol, from)?;
        let flow = Flow::new(
            direction,
            protocol,
            source,
            source_port,
            destination,
            destination_port,
        )
        .unwrap();
        Ok(flow)
    }

    fn write(&self, _version: u8, out: &mut Vec<u8>) -> Result<(), AllocError> {
        push_flow(out, self)
    }
}

/// Appends a flow to the bytes; each fits its form. Fails only when out of memory.
#[tactic(auto, using(crate::specs::Laws::Layouts::flow_fits), unfolding(crate::specs::Layouts::Flows::flow_form, crate::specs::Layouts::Flows::direction_form, crate::specs::Layouts::Flows::family_form, crate::specs::Layouts::Flows::protocol_form, crate::specs::Layouts::Flows::ports_form))]
pub(crate) fn push_flow(out: &mut Vec<u8>, flow: &Flow) -> Result<(), AllocError>
    ensures written { OnOk result (out.new.items ≡ onto flow_form (plain_flow flow.now) out.old.items) }
    ensures fits { Fits flow_form (plain_flow flow.now) }
{
    push_front(
        out,
        direction_byte(flow.direction()),
        family_byte(flow.source()),
        flow.protocol().number(),
    )?;
    push_addr(out, flow.source())?;
    push_addr(out, flow.destination())?;
    push_ports(out, flow.source_port(), flow.destination_port())
}

// Appends what comes before the addresses. Parts are appended in few pieces, since a snapshot has tens of thousands of flows.
#[tactic(auto, using(crate::proofs::Pieced::four_pushed))]
fn push_front(out: &mut Vec<u8>, direction: u8, family: u8, protocol: u8) -> Result<(), AllocError>
    ensures { OnOk result (out.new.items
        ≡ onto (number 1) protocol (onto (number 1) family (onto (number 1) direction out.old.items)) ++ 0 ∷ []) }
{
    push_bytes(out, &[direction, family, protocol, 0])
}

#[tactic(auto, unfolding(pf_form::specs::Bytes::BasicForms::number_bytes), using(crate::proofs::Pieced::two_pushed))]
fn push_ports(out: &mut Vec<u8>, source: u16, destination: u16) -> Result<(), AllocError>
    ensures { OnOk result (out.new.items ≡ onto (number 2) destination (onto (number 2) source out.old.items)) }
{
    let s = source.to_be_bytes();
    let d = destination.to_be_bytes();
    push_bytes(out, &[s[0], s[1], d[0], d[1]])
}

#[tactic(auto, unfolding(crate::specs::Layouts::Flows::direction_form))]
fn read_direction<'a>(from: &mut Rest<'a>) -> Result<Direction, Undecoded>
    ensures { Reads direction_byte direction_form result from.old.now from.new.now }
{
    let left = from.len();
    match read_u8(from)? {
        IN => Ok(Direction::In),
        OUT => Ok(Direction::Out),
        _ => Err(Undecoded::Fault(Fault::Bad(left))),
    }
}

#[tactic(auto, unfolding(crate::specs::Layouts::Flows::family_form))]
fn read_family<'a>(from: &mut Rest<'a>) -> Result<Family, Undecoded>
    ensures { Reads family_byte family_form result from.old.now from.new.now }
{
    let left = from.len();
    match read_u8(from)? {
        FAMILY_4 => Ok(Family::V4),
        FAMILY_6 => Ok(Family::V6),
        _ => Err(Undecoded::Fault(Fault::Bad(left))),
    }
}

#[tactic(auto, unfolding(crate::specs::Layouts::Flows::protocol_form))]
fn read_protocol<'a>(from: &mut Rest<'a>) -> Result<Protocol, Undecoded>
    ensures { Reads (λ p. p) protocol_form result from.old.now from.new.now }
{
    let left = from.len();
    let number = read_u8(from)?;
    if number == 0 {
        return Err(Undecoded::Fault(Fault::Bad(left)));
    }
    Ok(Protocol::new(number))
}

// An address of this family.
fn read_addr<'a>(family: Family, from: &mut Rest<'a>) -> Result<Addr, Undecoded>
    ensures read { Reads plain_addr (addr_form (family_byte family)) result from.old.now from.new.now }
    ensures family { IfOk result (λ a. family_of a ≡ family) }
{
    match family {
        Family::V4 => {
            let number = read_u32(from)?;
            expect(from, &[0; 12])?;
            Ok(Addr::V4(number))
        }
        Family::V6 => Ok(Addr::V6(read_u128(from)?)),
    }
}

// The ports of a flow of this protocol, of the source and of the destination.
#[tactic(auto, unfolding(crate::specs::Layouts::Flows::ports_form))]
fn read_ports<'a>(protocol: Protocol, from: &mut Rest<'a>) -> Result<(u16, u16), Undecoded>
    ensures read { Reads {a = PortsShape} (λ p. (p.0, p.1)) (ports_form protocol) result from.old.now from.new.now }
    ensures allowed { IfOk result (λ p. (has_ports protocol || ((p.0 == 0) && (p.1 == 0))) ≡ true) }
{
    let left = from.len();
    let source = read_u16(from)?;
    let destination = read_u16(from)?;
    let has_none = source == 0 && destination == 0;
    if !(protocol.has_ports() || has_none) {
        return Err(Undecoded::Fault(Fault::Bad(left)));
    }
    Ok((source, destination))
}

pub(crate) fn direction_byte(direction: Direction) -> u8
    ensures { result ≡ direction_byte direction }
{
    match direction {
        Direction::In => IN,
        Direction::Out => OUT,
    }
}

fn family_byte(addr: Addr) -> u8
    ensures { result ≡ family_byte (family_of addr) }
{
    match addr {
        Addr::V4(_) => FAMILY_4,
        Addr::V6(_) => FAMILY_6,
    }
}

fn push_addr(out: &mut Vec<u8>, addr: Addr) -> Result<(), AllocError>
    ensures { OnOk result (out.new.items ≡ onto (addr_form (family_byte (family_of addr))) (plain_addr addr) out.old.items) }
{
    match addr {
        Addr::V4(number) => push_v4(out, number),
        Addr::V6(number) => push_u128(out, number),
    }
}

#[tactic(auto, unfolding(pf_form::specs::Bytes::BasicForms::number_bytes), using(crate::proofs::Pieced::two_pushed))]
fn push_v4(out: &mut Vec<u8>, address: u32) -> Result<(), AllocError>
    ensures { OnOk result (out.new.items ≡ onto (back (number 4) (replicate 12 0)) address out.old.items) }
{
    let a = address.to_be_bytes();
    push_bytes(
        out,
        &[a[0], a[1], a[2], a[3], 0, 0, 0, 0, 0, 0, 0, 0, 0, 0, 0, 0],
    )
}
