//! Flows.
ghost use Rattle.std.specs.Prelude.{◌≡◌, ◌<◌, ◌^◌, ◌==◌, ◌&&◌, cond, Some, None};
ghost use Rattle.pf_state.specs.{FlowKeys.{flow_between, ends_of, inward, key_of}, Flows.{PlainFlow, IsFlow, flow_of, is_flow, same_flow}};

use crate::flow_key::{FlowEnds, FlowKey};
use pf_addr::Addr;
use pf_rule::Packet;
use pf_rule::value::{Direction, Protocol};
use std::marker::Model;

/// A flow: what its packets have in common, as the first of them has it (pf.conf(5)). Its addresses are of one family, and its ports are 0
/// unless it is TCP or UDP. That the interface is no part of it is our own choice. Contracts see it as these fields (`PlainFlow`).
#[derive(Clone, Copy)]
pub struct Flow {
    // the ends as incoming packets have them, so that the flow's key is at hand
    key: FlowKey,
    /// Which way the first packet goes through the interface.
    direction: Direction,
}

impl Model for Flow {
    ghost use Rattle.pf_state.specs.Flows.{PlainFlow, IsFlow};

    ghost Value = { PlainFlow };

    ghost use Rattle.pf_state.specs.FlowKeys.{flow_by, key_back, key_of};

    ghost view = { λ f. flow_by f.direction f.key };

    ghost invariant = { λ f. IsFlow (flow_by f.direction f.key) };

    ghost inverse = { λ f. record { key = key_of f; direction = f.direction } };

    ghost inverse_ok = { λ f _. λ i. record { key = key_back f.direction f.key i; direction = f.direction } };
}

// Turns the ends of a flow of this direction into those that incoming packets have, and back.
fn inward(direction: Direction, ends: FlowEnds) -> FlowEnds
    ensures { result ≡ inward direction ends }
{
    match direction {
        Direction::In => ends,
        Direction::Out => FlowEnds {
            source: ends.destination,
            destination: ends.source,
            source_port: ends.destination_port,
            destination_port: ends.source_port,
            protocol: ends.protocol,
        },
    }
}

impl Flow {
    /// The flow of a packet in this direction, between these ends. `None`: the addresses differ in family, or a port isn't 0 though the
    /// protocol has no ports.
    pub fn new(
        direction: Direction,
        protocol: Protocol,
        source: Addr,
        source_port: u16,
        destination: Addr,
        destination_port: u16,
    ) -> Option<Flow>
        ensures { let flow : PlainFlow = record {
          direction = direction;
          protocol = protocol;
          source = source;
          source_port = source_port;
          destination = destination;
          destination_port = destination_port;
        } in
            result ≡ cond (is_flow flow) (Some flow) None }
    {
        let has_no_ports = source_port == 0 && destination_port == 0;
        if source.family() != destination.family() || !(protocol.has_ports() || has_no_ports) {
            return None;
        }
        let ends = FlowEnds {
            source,
            destination,
            source_port,
            destination_port,
            protocol,
        };
        Some(Flow::between(direction, ends))
    }

    /// The flow of a packet.
    pub fn of(packet: &Packet) -> Flow
        ensures { result ≡ flow_of packet.now }
    {
        let ends = FlowEnds {
            source: packet.source(),
            destination: packet.destination(),
            source_port: packet.source_port(),
            destination_port: packet.destination_port(),
            protocol: packet.protocol(),
        };
        Flow::between(packet.direction(), ends)
    }

    // The flow in this direction between these ends.
    fn between(direction: Direction, ends: FlowEnds) -> Flow
        requires { IsFlow (flow_between direction ends) }
        ensures { result ≡ flow_between direction ends }
    {
        Flow {
            key: FlowKey::new(inward(direction, ends)),
            direction,
        }
    }

    // Its ends.
    fn ends(&self) -> FlowEnds
        ensures { result ≡ ends_of self.now }
    {
        inward(self.direction, self.key.ends())
    }

    /// The key to look it up by: both directions of it have the same, and no other flow has it.
    pub fn key(&self) -> &FlowKey
        ensures { result.now ≡ key_of self.now }
    {
        &self.key
    }

    /// Whether both are one flow: they are equal, or one is the other turned.
    #[tactic(auto, using(crate::proofs::FlowKeys::same_flow_is))]
    pub fn same(&self, other: &Flow) -> bool
        ensures { result ≡ same_flow self.now other.now }
    {
        self.key.order(&other.key).is_eq()
    }

    /// Which way the flow's first packet goes through the interface.
    pub fn direction(&self) -> Direction
        ensures direction { result ≡ self.now.direction }
        // what each flow keeps
        ensures kept { IsFlow self.now }
    {
        self.direction
    }

    /// The flow's protocol.
    pub fn protocol(&self) -> Protocol
        ensures { result ≡ self.now.protocol }
    {
        self.ends().protocol
    }

    /// The address that the first packet comes from.
    pub fn source(&self) -> Addr
        ensures { result ≡ self.now.source }
    {
        self.ends().source
    }

    /// The port that the first packet comes from; 0 where the protocol has no ports.
    pub fn source_port(&self) -> u16
        ensures { result ≡ self.now.source_port }
    {
        self.ends().source_port
    }

    /// The address that the first packet goes to.
    pub fn destination(&self) -> Addr
        ensures { result ≡ self.now.destination }
    {
        self.ends().destination
    }

    /// The port that the first packet goes to; 0 where the protocol has no ports.
    pub fn destination_port(&self) -> u16
        ensures { result ≡ self.now.destination_port }
    {
        self.ends().destination_port
    }
}
