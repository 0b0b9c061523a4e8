//! Packets.
ghost use Rattle.std.specs.Prelude.{◌≡◌, Some, None, if◌then◌else◌};
ghost use Rattle.pf_form.specs.{Form.Readers.Moves, Form.Words.{words_of, texts}};
ghost use Rattle.pf_rule.specs.{PacketGrammar.{packet, way}, Refusals.{IsAnswer, reading}, Packets.{PlainPacket, IsPacket, is_packet}};

use crate::fault::{Mistake, TextFault, tell};
use crate::value::{
    Direction, Interface, Protocol, address_word, interface_word, port_word, protocol_word,
};
use pf_addr::Addr;
use pf_form::form::{WordFault, Words, expect, takes, words};
use std::alloc::Global;
use std::marker::Model;

/// What the filter sees of a packet, which is what rules test (pf.conf(5), PACKET FILTERING). Contracts see a [`Packet`] as these fields
/// (`PlainPacket`), each as they see its type. That a packet is a value and carries no flags is this project's own.
#[derive(Clone, Copy)]
pub struct PacketParts {
    /// Which way it goes through the interface.
    pub direction: Direction,
    /// The interface that it goes through, by its name of 1 to 15 bytes.
    pub interface: Interface,
    /// Its protocol, as a number from 1 to 255.
    pub protocol: Protocol,
    /// The address that it comes from.
    pub source: Addr,
    /// The port that it comes from, 0 to 65535; 0 if the protocol has no ports.
    pub source_port: u16,
    /// The address that it goes to, of the source's family.
    pub destination: Addr,
    /// The port that it goes to, as `source_port`.
    pub destination_port: u16,
}

/// A packet. Its addresses are of one family, and its ports are 0 unless it is TCP or UDP.
#[derive(Clone, Copy)]
pub struct Packet(PacketParts);

impl Model for Packet {
    ghost use Rattle.pf_rule.specs.Packets.{PlainPacket, IsPacket};

    ghost Value = { PlainPacket };

    ghost view = { λ p. p.0 };

    ghost invariant = { λ p. IsPacket p.0 };

    ghost inverse = { λ p. record { 0 = p } };
}

impl Packet {
    /// The packet of these parts.
    ///
    /// `None`: the addresses are of different families, or there is a port that isn't 0 and the protocol has none.
    pub fn new(parts: PacketParts) -> Option<Packet>
        ensures { result ≡ if is_packet parts then Some parts else None }
    {
        let has_ports = parts.protocol.has_ports();
        let are_ports_fit = has_ports || (parts.source_port == 0 && parts.destination_port == 0);
        if parts.source.family() == parts.destination.family() && are_ports_fit {
            Some(Packet(parts))
        } else {
            None
        }
    }

    /// Reads a packet from the front of the remaining words. Doesn't allocate.
    ///
    /// A refusal is at the first word at which no packet's text can continue. Its kind is the one that [`Packet::parse`] names, and it
    /// says how many words were left, including the one at fault. Which words remain after a refusal is unspecified. The only mistake is
    /// that the addresses are of different families.
    #[tactic(auto, unfolding(crate::specs::PacketGrammar::packet))]
    pub fn read<'a>(words: &mut Words<'a>) -> Result<Result<Packet, Mistake>, WordFault>
        ensures { Moves packet result words.old.now words.new.now }
    {
        let direction = read_way(words)?;
        let interface = interface_word(words)?;
        let protocol = protocol_word(words)?;
        let ports = protocol.has_ports();
        let source = address_word(words)?;
        let source_port = port_word(ports, words)?;
        let destination = address_word(words)?;
        let destination_port = port_word(ports, words)?;
        if source.family() != destination.family() {
            return Ok(Err(Mistake::MixedFamily));
        }
        Ok(Ok(Packet(PacketParts {
            direction,
            interface,
            protocol,
            source,
            source_port,
            destination,
            destination_port,
        })))
    }

    /// Reads a packet from its text: words separated by blanks.
    ///
    /// `at` is the number of the first word at which no packet's text can continue, from 0, or the number of words if one is missing.
    /// [`TextFault::NameTooLong`] is for an interface of more than 15 bytes, [`TextFault::BadProto`] for a word that must be a protocol,
    /// [`TextFault::BadWord`] for any other. [`TextFault::MixedFamily`] is found after the last word. [`TextFault::Memory`] means that
    /// there was no memory for the list of words.
    #[tactic(auto, using(crate::proofs::TextAnswers::is_answer_packet))]
    pub fn parse(alloc: Global, text: &str) -> Result<Packet, TextFault>
        ensures { IsAnswer PlainPacket packet (words_of text.now) result }
    {
        let words = words(alloc, text.as_bytes())?;
        Packet::read_all(&words)
    }

    #[tactic(auto, unfolding(crate::specs::Refusals::reading))]
    fn read_all<'a>(words: Words<'a>) -> Result<Packet, TextFault>
        ensures { result ≡ reading packet (texts words.now) }
    {
        let mut rest = words;
        let read = Packet::read(&mut rest);
        tell(read, rest, words.len())
    }

    /// Which way the packet goes through its interface.
    pub fn direction(&self) -> Direction
        ensures direction { result ≡ self.now.direction }
        // what every packet maintains
        ensures kept { IsPacket self.now }
    {
        self.0.direction
    }

    /// The interface that the packet goes through.
    pub fn interface(&self) -> &Interface
        ensures { result.now ≡ self.now.interface }
    {
        &self.0.interface
    }

    /// The packet's protocol.
    pub fn protocol(&self) -> Protocol
        ensures { result ≡ self.now.protocol }
    {
        self.0.protocol
    }

    /// The address that the packet comes from.
    pub fn source(&self) -> Addr
        ensures { result ≡ self.now.source }
    {
        self.0.source
    }

    /// The port that the packet comes from; 0 where the protocol has no ports.
    pub fn source_port(&self) -> u16
        ensures { result ≡ self.now.source_port }
    {
        self.0.source_port
    }

    /// The address that the packet goes to.
    pub fn destination(&self) -> Addr
        ensures { result ≡ self.now.destination }
    {
        self.0.destination
    }

    /// The port that the packet goes to; 0 where the protocol has no ports.
    pub fn destination_port(&self) -> u16
        ensures { result ≡ self.now.destination_port }
    {
        self.0.destination_port
    }
}

/// The direction, which every packet has.
#[tactic(auto, unfolding(crate::specs::PacketGrammar::way))]
fn read_way<'a>(words: &mut Words<'a>) -> Result<Direction, WordFault>
    ensures { Moves way result words.old.now words.new.now }
{
    if takes(words, b"in") {
        return Ok(Direction::In);
    }
    expect(words, b"out")?;
    Ok(Direction::Out)
}
