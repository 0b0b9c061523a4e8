//! Messages that give a peer the states here.
ghost use Rattle.std.specs.{Prelude.{◌≡◌, ◌≤◌, [], length, map, take, drop, IfOk, OnOk}, List.concat};
ghost use Rattle.pf_state.specs.{Peer.Messages.IsMessage, Peer.Streams.{Reads, Unfinished}, Peer.Written.message_bytes};
ghost use Rattle.pf_state.specs.Failover.Outgoing.{exported_insert, exported_message, exported_messages};

use crate::peer::{Group, Insert, InsertFields, Message, Records, write_peer};
use crate::{ALL_ONES, Held, State, StateName, StateTable, exported};
use pf_map::Each;
use std::alloc::{AllocError, Global};
use std::marker::Model;

/// How many states a message of an export has; the last one has what is left. Definitions cite this constant.
pub const EXPORT_RECORDS: usize = 31;

/// Messages in bytes, in their order. Contracts see the list of the bytes of each.
#[derive(Drop)]
pub struct Exported {
    messages: Vec<Vec<u8>>,
}

impl Model for Exported {
    ghost use Rattle.std.specs.Prelude.{ℕ, List, map};

    ghost Value = { List (List ℕ) };

    ghost view = { λ e. map (λ m. m.items) e.messages.items };
}

impl Exported {
    /// The bytes of each message, in order.
    pub fn messages(&self) -> &[Vec<u8>]
        ensures { map (λ m. m.items) result.now ≡ self.now }
    {
        &self.messages
    }

    /// How many messages there are.
    pub fn len(&self) -> usize
        ensures { result ≡ length self.now }
    {
        self.messages.len()
    }
}

/// The messages, in bytes, that give a peer all states, in the table's order. Each has the checksum of the main rules here, which is
/// `current`, 16 bytes, and one group of [`EXPORT_RECORDS`] inserts, the last message one of what is left; without states there is no
/// message. An insert has the number of its state's main rule if the state was bound by these very rules, else all ones; its anchor is all
/// ones. One after the other they are read as these messages, and nothing is left. `AllocError`: nothing is made.
pub fn export(
    alloc: Global,
    states: &StateTable,
    current: &[u8; 16],
) -> Result<Exported, AllocError>
    ensures reported { IfOk result (λ e. e ≡ map message_bytes (exported_messages current.now states.now)) }
    ensures read { IfOk result (λ e. Reads (concat e) (exported_messages current.now states.now) (Unfinished [])) }
{
    let mut messages = Vec::new(alloc);
    let mut rest = states.states();
    for message in 0..states.len().div_ceil(EXPORT_RECORDS) {
        let part = next_part(alloc, &mut rest)?;
        messages.push(written(alloc, &part, current)?)?;
    }
    Ok(Exported { messages })
}

// The states of the next message, shared, taken from those that are left.
fn next_part(alloc: Global, rest: &mut Each<'_, StateName, Held>) -> Result<Vec<State>, AllocError>
    ensures part { IfOk result (λ v. v.items ≡ take EXPORT_RECORDS rest.old) }
    ensures left { OnOk result (rest.new ≡ drop EXPORT_RECORDS rest.old) }
{
    let mut part = Vec::with_capacity(alloc, EXPORT_RECORDS)?;
    for reported in 0..EXPORT_RECORDS {
        match rest.next() {
            Some(state) => part.push(state.shared()?)?,
            None => return Ok(part),
        }
    }
    Ok(part)
}

// The message with these states, in bytes.
fn written(alloc: Global, states: &[State], current: &[u8; 16]) -> Result<Vec<u8>, AllocError>
    requires { length states.now ≤ EXPORT_RECORDS }
    ensures written { IfOk result (λ bytes. bytes.items ≡ message_bytes (exported_message current.now states.now)) }
    ensures read { IfOk result (λ bytes. IsMessage bytes.items (exported_message current.now states.now)) }
{
    let mut groups = Vec::new(alloc);
    groups.push(Group::Inserts(inserts_of(alloc, states, current)?))?;
    let message = Message {
        checksum: *current,
        groups: Records::new(groups),
    };
    write_peer(alloc, &message)
}

// The inserts of these states.
fn inserts_of(
    alloc: Global,
    states: &[State],
    current: &[u8; 16],
) -> Result<Records<Insert>, AllocError>
    ensures { IfOk result (λ r. r ≡ map (exported_insert current.now) states.now) }
{
    let mut inserts = Vec::with_capacity(alloc, states.len())?;
    for state in states {
        inserts.push(exported_insert(state, current))?;
    }
    Ok(Records::new(inserts))
}

// The insert of a state.
fn exported_insert(state: &State, current: &[u8; 16]) -> Insert
    ensures { result ≡ exported_insert current.now state.now }
{
    insert_of(*state.key(), *state.value(), current)
}

fn insert_of(name: StateName, held: Held, current: &[u8; 16]) -> Insert
    ensures { result ≡ exported_insert current.now (name, held) }
{
    let flow = held.flow;
    Insert::new(InsertFields {
        id: name.id,
        creator: name.creator,
        generation: held.generation,
        direction: flow.direction(),
        protocol: flow.protocol(),
        source: flow.source(),
        destination: flow.destination(),
        source_port: flow.source_port(),
        destination_port: flow.destination_port(),
        rule: exported(&held.bound, current),
        anchor: ALL_ONES,
    })
}
