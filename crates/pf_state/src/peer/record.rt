//! Records: what a group of one action has, and how each kind is read and written.
ghost use Rattle.std.specs.Prelude.{◌≡◌, ◌++◌, length, Option, List, ℕ, OnOk};
ghost use Rattle.pf_state.specs.Peer.Records.{IsInsert, inserted_flow, Says};

use crate::flow::Flow;
use crate::peer::fields::{MESSAGE_VERSION, u32_at, u64_at};
use pf_addr::Addr;
use pf_form::bytes::{Layout, Undecoded, decode, push_u32, push_u64};
use pf_rule::value::{Direction, Protocol};
use std::alloc::{AllocError, Global};
use std::marker::Model;

/// How many bytes a record has, whatever its action.
pub const RECORD_LENGTH: usize = 64;

/// What an insert says of a state. Contracts see an [`Insert`] as these fields.
#[derive(Clone, Copy)]
pub struct InsertFields {
    /// The state's number, which its creator chose: any.
    pub id: u64,
    /// The number of the host that made it: any.
    pub creator: u32,
    /// Which version of this state is the later one: the greater generation.
    pub generation: u32,
    /// Which way its first packet went.
    pub direction: Direction,
    /// Its protocol, as the number, 1 to 255.
    pub protocol: Protocol,
    /// The address that its first packet came from.
    pub source: Addr,
    /// The address that its first packet went to, of the source's family.
    pub destination: Addr,
    /// The port that its first packet came from, 0 to 65535; 0 where the protocol has no ports.
    pub source_port: u16,
    /// The port that its first packet went to, with the limits of `source_port`.
    pub destination_port: u16,
    /// The number of the rule that made it, from 0 in its ruleset; all ones (4,294,967,295) for none.
    pub rule: u32,
    /// The number of the anchor that the rule is in; all ones for none, for a rule of the main ruleset.
    pub anchor: u32,
}

/// An insert of a state. Its addresses are of one family, and its ports are 0 unless its protocol has ports.
#[derive(Clone, Copy)]
pub struct Insert(InsertFields);

impl Model for Insert {
    ghost use Rattle.pf_state.specs.Peer.Records.{PlainInsert, IsInsert};

    ghost Value = { PlainInsert };

    ghost view = { λ i. i.0 };

    ghost invariant = { λ i. IsInsert i.0 };

    ghost inverse = { λ i. record { 0 = i } };
}

impl Insert {
    /// The insert with these fields. The caller ensures that the addresses are of one family, and the ports 0 unless the protocol is TCP or
    /// UDP.
    pub fn new(fields: InsertFields) -> Insert
        requires { IsInsert fields }
        ensures { result ≡ fields }
    {
        Insert(fields)
    }

    /// Its fields.
    pub fn fields(&self) -> &InsertFields
        ensures value { result.now ≡ self.now }
        // what each insert keeps
        ensures kept { IsInsert self.now }
    {
        &self.0
    }

    /// The flow of its state.
    pub fn flow(&self) -> Flow
        ensures { result ≡ inserted_flow self.now }
    {
        let fields = self.fields();
        Flow::new(
            fields.direction,
            fields.protocol,
            fields.source,
            fields.source_port,
            fields.destination,
            fields.destination_port,
        )
        .unwrap()
    }
}

/// The removal of one state, whatever its generation. Only the record's bytes of these fields are looked at; the others are written as 0.
#[derive(Clone, Copy)]
pub struct Delete {
    /// The state's number, which its creator chose.
    pub id: u64,
    /// The number of the host that made it.
    pub creator: u32,
}

/// The removal of all states of one host. Only the record's bytes of this field are looked at; the others are written as 0.
#[derive(Clone, Copy)]
pub struct Clear {
    /// The number of the host.
    pub creator: u32,
}

/// A kind of record, of [`RECORD_LENGTH`] bytes.
pub trait PeerRecord: Drop + Sized {
    /// What the bytes of a record mean, if anything.
    ghost reading: { List ℕ → Option Self };

    /// The bytes that it is written as.
    ghost writing: { Self → List ℕ };

    /// The invariant of each.
    ghost keeps: { Self → Type 0 };

    /// Reads the record from the bytes. Fails if a field has an invalid value, or when out of memory.
    fn from_row(alloc: Global, row: &[u8]) -> Result<Self, Undecoded>
        requires { length row.now ≡ RECORD_LENGTH }
        ensures { Says result (reading row.now) };

    /// Appends the record to these bytes. When out of memory, how much of it was appended is unspecified.
    fn push(&self, out: &mut Vec<u8>) -> Result<(), AllocError>
        ensures written { OnOk result (out.new.items ≡ out.old.items ++ writing self.now) }
        ensures kept { OnOk result (keeps self.now) };
}

impl PeerRecord for Insert {
    ghost use Rattle.pf_state.specs.Peer.Records.{IsInsert, insert_of, insert_bytes};

    ghost reading = { insert_of };

    ghost writing = { insert_bytes };

    ghost keeps = { IsInsert };

    #[tactic(auto, unfolding(crate::specs::Peer::Records::insert_of))]
    fn from_row(alloc: Global, row: &[u8]) -> Result<Insert, Undecoded> {
        decode::<Insert>(alloc, MESSAGE_VERSION, row)
    }

    #[tactic(auto, using(crate::proofs::Inserts::insert_fits))]
    fn push(&self, out: &mut Vec<u8>) -> Result<(), AllocError> {
        // the insert's invariant lets it be written
        let _fields = self.fields();
        self.write(MESSAGE_VERSION, out)?;
        Ok(())
    }
}

impl PeerRecord for Delete {
    ghost use Rattle.pf_state.specs.Peer.Records.{delete_of, delete_bytes};
    ghost use Rattle.pf_state.specs.Peer.Written.{IsDelete};

    ghost reading = { delete_of };

    ghost writing = { delete_bytes };

    ghost keeps = { IsDelete };

    fn from_row(_alloc: Global, row: &[u8]) -> Result<Delete, Undecoded> {
        Ok(Delete {
            id: u64_at(0, row),
            creator: u32_at(8, row),
        })
    }

    #[tactic(auto, unfolding(pf_form::specs::Bytes::BasicForms::number_bytes))]
    fn push(&self, out: &mut Vec<u8>) -> Result<(), AllocError> {
        push_u64(out, self.id)?;
        push_u32(out, self.creator)?;
        out.extend_from_slice(&[0; 52])
    }
}

impl PeerRecord for Clear {
    ghost use Rattle.pf_state.specs.Peer.Records.{clear_of, clear_bytes};
    ghost use Rattle.pf_state.specs.Peer.Written.{IsClear};

    ghost reading = { clear_of };

    ghost writing = { clear_bytes };

    ghost keeps = { IsClear };

    fn from_row(_alloc: Global, row: &[u8]) -> Result<Clear, Undecoded> {
        Ok(Clear {
            creator: u32_at(8, row),
        })
    }

    #[tactic(auto, unfolding(pf_form::specs::Bytes::BasicForms::number_bytes))]
    fn push(&self, out: &mut Vec<u8>) -> Result<(), AllocError> {
        out.extend_from_slice(&[0; 8])?;
        push_u32(out, self.creator)?;
        out.extend_from_slice(&[0; 52])
    }
}
