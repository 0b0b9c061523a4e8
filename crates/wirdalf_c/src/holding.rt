//! What a configuration holds.
ghost use Rattle.std.specs.Prelude.{◌≡◌};
ghost use Rattle.wirdalf_c.specs.Packets.{packet_in};

use crate::interface::ReadNames;
use crate::packet::packet_in;
use crate::record::PacketRecord;
use pf_core::Durable;
use pf_rule::Packet;
use std::marker::Model;

/// What is kept, and beside it the names of interfaces that were read. Contracts see what is kept.
#[derive(Drop)]
pub struct Holding {
    durable: Durable,
    names: ReadNames,
}

impl Model for Holding {
    ghost use Rattle.pf_core.specs.Durable.Changes.{PlainDurable};

    ghost Value = { PlainDurable };

    ghost view = { λ h. h.durable };
}

impl Holding {
    /// What is kept, before a packet was read.
    pub fn of(durable: Durable) -> Holding
        ensures { result ≡ durable }
    {
        Holding {
            durable,
            names: ReadNames::none(),
        }
    }

    /// What is kept.
    pub fn durable(&self) -> &Durable
        ensures { result.now ≡ self.now }
    {
        &self.durable
    }

    /// The packet that a record says. `None`: it says none.
    pub fn packet_in(&mut self, given: &PacketRecord) -> Option<Packet>
        ensures packet { result ≡ packet_in given.now }
        ensures same { self.new ≡ self.old }
    {
        packet_in(given, &mut self.names)
    }
}
