//! The keys by which flows are looked up.
ghost use Rattle.std.specs.Prelude.{◌≡◌, ◌<◌, ◌^◌};
ghost use Rattle.pf_state.specs.FlowKeys.{stirred, with_addr, mixed, family_rank, number_of, addr_order, ends_order, key_order};

use pf_addr::Addr;
use pf_rule::value::Protocol;
use std::cmp::Ordering;
use std::marker::Model;

/// The protocol and the ends of a flow, as the packets of one direction have them.
#[derive(Clone, Copy)]
pub struct FlowEnds {
    // the widest first, so that a table of states takes less room
    /// The address that the packets come from.
    pub source: Addr,
    /// The address that they go to.
    pub destination: Addr,
    /// The port that they come from.
    pub source_port: u16,
    /// The port that they go to.
    pub destination_port: u16,
    /// Their protocol.
    pub protocol: Protocol,
}

/// The ends of a flow as incoming packets have them, with a number mixed from them. Contracts see the ends.
#[derive(Clone, Copy)]
pub struct FlowKey {
    ends: FlowEnds,
    mix: u64,
}

impl Model for FlowKey {
    ghost use Rattle.std.specs.Prelude.{◌≡◌};
    ghost use Rattle.pf_state.specs.declared.flow_key.FlowEnds.{FlowEnds};
    ghost use Rattle.pf_state.specs.FlowKeys.{mixed};
    ghost use Rattle.std.proofs.Common.{sym};

    ghost Value = { FlowEnds };

    ghost view = { λ k. k.ends };

    ghost invariant = { λ k. k.mix ≡ mixed k.ends };

    ghost inverse = { λ e. record { ends = e; mix = mixed e } };

    ghost inverse_ok = { λ k is. λ i. record { ends = k.ends; mix = sym is i } };
}

// A number, with one more part mixed in.
fn stir(state: u64, part: u64) -> u64
    ensures { result ≡ stirred state part }
{
    let product = (state ^ part).wrapping_mul(11_400_714_819_323_198_485);
    product ^ (product >> 32)
}

fn stir_addr(state: u64, addr: Addr) -> u64
    ensures { result ≡ with_addr state addr }
{
    match addr {
        Addr::V4(number) => stir(state, u64::from(number)),
        Addr::V6(number) => {
            let high = (number / 18_446_744_073_709_551_616) as u64;
            let low = (number % 18_446_744_073_709_551_616) as u64;
            stir(stir(state, high), low)
        }
    }
}

fn mixed(ends: &FlowEnds) -> u64
    ensures { result ≡ mixed ends.now }
{
    let ends = *ends;
    let ports = u64::from(ends.source_port) * 65_536 + u64::from(ends.destination_port);
    let few = ports * 256 + u64::from(ends.protocol.number());
    stir_addr(stir_addr(stir(0, few), ends.source), ends.destination)
}

fn family_rank(addr: Addr) -> u8
    ensures { result ≡ family_rank addr }
{
    match addr {
        Addr::V4(_) => 0,
        Addr::V6(_) => 1,
    }
}

fn number_of(addr: Addr) -> u128
    ensures { result ≡ number_of addr }
{
    match addr {
        Addr::V4(number) => u128::from(number),
        Addr::V6(number) => number,
    }
}

fn addr_order(one: Addr, other: Addr) -> Ordering
    ensures { result ≡ addr_order one other }
{
    family_rank(one)
        .cmp(&family_rank(other))
        .then(number_of(one).cmp(&number_of(other)))
}

fn ends_order(one: &FlowEnds, other: &FlowEnds) -> Ordering
    ensures { result ≡ ends_order one.now other.now }
{
    let addresses = addr_order(one.source, other.source).then(addr_order(
        one.destination,
        other.destination,
    ));
    let ports = one.source_port.cmp(&other.source_port).then(
        one.destination_port
            .cmp(&other.destination_port)
            .then(addresses),
    );
    one.protocol
        .number()
        .cmp(&other.protocol.number())
        .then(ports)
}

impl FlowKey {
    /// The key of a flow whose incoming packets have these ends.
    pub(crate) fn new(ends: FlowEnds) -> FlowKey
        ensures { result ≡ ends }
    {
        FlowKey {
            mix: mixed(&ends),
            ends,
        }
    }

    /// The ends.
    pub fn ends(&self) -> FlowEnds
        ensures { result ≡ self.now }
    {
        self.ends
    }

    /// By the mixed number, then by the fields.
    pub fn order(&self, other: &FlowKey) -> Ordering
        ensures { result ≡ key_order self.now other.now }
    {
        self.mix
            .cmp(&other.mix)
            .then(ends_order(&self.ends, &other.ends))
    }

    /// The mixed number.
    pub fn mix(&self) -> u64
        ensures { result ≡ mixed self.now }
    {
        self.mix
    }
}
