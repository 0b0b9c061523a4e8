//! States in bytes, as a store has them.
ghost use Rattle.std.specs.Prelude.{◌≡◌, ◌++◌, ◌∷◌, [], true, replicate, OnOk};
ghost use Rattle.pf_form.specs.{Bytes.Forms.{ByteForm, Fits, back, front, pair, times, onto}, Bytes.Readers.Reads};
ghost use Rattle.pf_state.specs.Layouts.Flows.{flow_form, plain_flow};
ghost use Rattle.pf_state.specs.Layouts.States.{name_form, plain_name, bound_form, plain_bound, has_expiry, expiry_form, held_form};
ghost use Rattle.pf_state.specs.Layouts.States.{plain_held, state_form, plain_state, allows};

use crate::flow::Flow;
use crate::layouts::flow::{direction_byte, push_flow};
use crate::state::{Bound, Held, State, StateName};
use pf_addr::Addr;
use pf_form::bytes::{
    Layout, Ordered, Rest, Undecoded, expect, push_bytes, push_u32, push_u64, read_array, read_u32,
    read_u64, takes,
};
use std::alloc::{AllocError, Global};

/// How many bytes a stored state takes.
pub(crate) const STATE_BYTES: usize = 96;

/// The first version whose states have expiries. Definitions cite it.
pub const EXPIRY_FROM: u8 = 3;

/// A state as a row of a store.
#[derive(Drop)]
pub struct StoredState {
    /// The state.
    pub state: State,
}

impl Layout for StoredState {
    ghost use Rattle.pf_state.specs.Layouts.States.{StateShape, state_form, plain_state, state_before};

    ghost shape = { StateShape };

    ghost form = { state_form };

    ghost plain = { λ row. plain_state row.state };

    ghost before = { state_before };

    fn read<'a>(alloc: Global, version: u8, from: &mut Rest<'a>) -> Result<StoredState, Undecoded> {
        let state = read_state(alloc, version, from)?;
        Ok(StoredState { state })
    }

    #[tactic(auto, using(crate::proofs::Expiries::state_is_allowed))]
    fn write(&self, version: u8, out: &mut Vec<u8>) -> Result<(), AllocError> {
        push_state(out, version, &self.state)
    }
}

impl Ordered for StoredState {
    fn comes_before(&self, other: &StoredState) -> bool {
        self.state.key().order(other.state.key()).is_lt()
    }
}

/// Reads the name at the front of the bytes: an id in eight bytes and a creator in four. Fails if fewer are left.
#[tactic(auto, unfolding(crate::specs::Layouts::States::name_form))]
pub fn read_name<'a>(from: &mut Rest<'a>) -> Result<StateName, Undecoded>
    ensures { Reads plain_name name_form result from.old.now from.new.now }
{
    let id = read_u64(from)?;
    let creator = read_u32(from)?;
    Ok(StateName { id, creator })
}

/// Appends a name to the bytes. Fails only when out of memory.
#[tactic(auto, unfolding(crate::specs::Layouts::States::name_form))]
pub fn push_name(out: &mut Vec<u8>, name: StateName) -> Result<(), AllocError>
    ensures written { OnOk result (out.new.items ≡ onto name_form (plain_name name) out.old.items) }
    ensures fits { Fits name_form (plain_name name) }
{
    push_u64(out, name.id)?;
    push_u32(out, name.creator)
}

/// Reads the state at the front of the bytes, which are of this version.
///
/// Fails with the first fault of its form there, or when out of memory. How many bytes are left then is unspecified.
#[tactic(auto, unfolding(crate::specs::Layouts::States::state_form))]
pub fn read_state<'a>(alloc: Global, version: u8, from: &mut Rest<'a>) -> Result<State, Undecoded>
    ensures { Reads plain_state (state_form version) result from.old.now from.new.now }
{
    let name = read_name(from)?;
    let held = read_held(alloc, version, from)?;
    Ok(State::new(alloc, name, held)?)
}

/// Appends a state to the bytes, in the form of this version. The version has to allow the state: one without expiries allows only an
/// expiry of 0. Fails only when out of memory, and then what was appended is unspecified.
#[tactic(auto, using(crate::proofs::Expiries::state_written, crate::proofs::Expiries::state_fits))]
pub fn push_state(out: &mut Vec<u8>, version: u8, state: &State) -> Result<(), AllocError>
    requires { allows version state.now ≡ true }
    ensures written { OnOk result (out.new.items ≡ onto (state_form version) (plain_state state.now) out.old.items) }
    ensures fits { OnOk result (Fits (state_form version) (plain_state state.now)) }
{
    let held = state.value();
    push_named_flow(out, *state.key(), held.generation, &held.flow)?;
    push_rest(out, &held.bound, held.expiry)
}

#[tactic(auto, unfolding(crate::specs::Layouts::States::held_form))]
fn read_held<'a>(alloc: Global, version: u8, from: &mut Rest<'a>) -> Result<Held, Undecoded>
    ensures { Reads plain_held (held_form version) result from.old.now from.new.now }
{
    let generation = read_u32(from)?;
    let flow = Flow::read(alloc, version, from)?;
    expect(from, &[255; 8])?;
    let bound = read_bound(from)?;
    let expiry = read_expiry(version, from)?;
    Ok(Held {
        expiry,
        flow,
        bound,
        generation,
    })
}

// An expiry; zeros for none in a version without expiries.
#[tactic(auto, unfolding(crate::specs::Layouts::States::expiry_form))]
fn read_expiry<'a>(version: u8, from: &mut Rest<'a>) -> Result<u64, Undecoded>
    ensures { Reads (λ n. n) (expiry_form (has_expiry version)) result from.old.now from.new.now }
{
    if version < EXPIRY_FROM {
        expect(from, &[0; 8])?;
        return Ok(0);
    }
    read_u64(from)
}

#[tactic(auto, unfolding(crate::specs::Layouts::States::bound_form))]
fn read_bound<'a>(from: &mut Rest<'a>) -> Result<Bound, Undecoded>
    ensures { Reads plain_bound bound_form result from.old.now from.new.now }
{
    if takes(from, 0)? {
        expect(from, &[0; 23])?;
        return Ok(Bound::Default);
    }
    expect(from, &[1, 0, 0, 0])?;
    let number = read_u32(from)?;
    let sum = read_array(from)?;
    Ok(Bound::Rule { number, sum })
}

// Appends what comes before a state's binding: its name, its generation and its flow. For IPv4 all at once, since a snapshot has tens of
// thousands of states.
#[tactic(auto, using(crate::specs::Laws::Layouts::flow_fits), unfolding(crate::specs::Layouts::States::name_form, crate::specs::Layouts::Flows::flow_form, crate::specs::Layouts::Flows::direction_form, crate::specs::Layouts::Flows::family_form, crate::specs::Layouts::Flows::protocol_form, crate::specs::Layouts::Flows::ports_form))]
fn push_named_flow(
    out: &mut Vec<u8>,
    name: StateName,
    generation: u32,
    flow: &Flow,
) -> Result<(), AllocError>
    ensures written { OnOk result (out.new.items
        ≡ onto flow_form (plain_flow flow.now) (onto (ByteForm.number 4) generation (onto name_form (plain_name name) out.old.items))) }
    ensures name { Fits name_form (plain_name name) }
    ensures flow { OnOk result (Fits flow_form (plain_flow flow.now)) }
{
    match (flow.source(), flow.destination()) {
        (Addr::V4(source), Addr::V4(destination)) => push_named_v4(
            out,
            name,
            generation,
            direction_byte(flow.direction()),
            flow.protocol().number(),
            (source, flow.source_port()),
            (destination, flow.destination_port()),
        ),
        _ => {
            push_name(out, name)?;
            push_u32(out, generation)?;
            push_flow(out, flow)
        }
    }
}

// The same for IPv4: with this byte for the direction, from an address and a port to another.
fn push_named_v4(
    out: &mut Vec<u8>,
    name: StateName,
    generation: u32,
    direction: u8,
    protocol: u8,
    source: (u32, u16),
    destination: (u32, u16),
) -> Result<(), AllocError>
    ensures { OnOk result (out.new.items ≡ onto (ByteForm.number 2) destination.1 (onto (ByteForm.number 2) source.1
        (onto (back (ByteForm.number 4) (replicate 12 0)) destination.0 (onto (back (ByteForm.number 4) (replicate 12 0)) source.0
        (onto (ByteForm.number 1) protocol (onto (ByteForm.number 1) 4 (onto (ByteForm.number 1) direction
        (onto (ByteForm.number 4) generation (onto name_form (plain_name name) out.old.items)))) ++ 0 ∷ []))))) }
{
    let i = name.id.to_be_bytes();
    let c = name.creator.to_be_bytes();
    let g = generation.to_be_bytes();
    let s = source.0.to_be_bytes();
    let d = destination.0.to_be_bytes();
    let p = source.1.to_be_bytes();
    let q = destination.1.to_be_bytes();
    push_bytes(
        out,
        &[
            i[0], i[1], i[2], i[3], i[4], i[5], i[6], i[7], c[0], c[1], c[2], c[3], g[0], g[1],
            g[2], g[3], direction, 4, protocol, 0, s[0], s[1], s[2], s[3], 0, 0, 0, 0, 0, 0, 0, 0,
            0, 0, 0, 0, d[0], d[1], d[2], d[3], 0, 0, 0, 0, 0, 0, 0, 0, 0, 0, 0, 0, p[0], p[1],
            q[0], q[1],
        ],
    )
}

// Appends what comes after the flow: ones, the binding, and the expiry; in few pieces, since a snapshot has tens of thousands of states.
#[tactic(auto, unfolding(crate::specs::Layouts::States::bound_form))]
fn push_rest(out: &mut Vec<u8>, bound: &Bound, expiry: u64) -> Result<(), AllocError>
    ensures written { OnOk result
        (out.new.items ≡ onto (front (replicate 8 255) (pair bound_form (ByteForm.number 8))) (plain_bound bound.now, expiry) out.old.items) }
    ensures fits { OnOk result (Fits bound_form (plain_bound bound.now)) }
{
    match bound {
        Bound::Default => push_default(out, expiry),
        Bound::Rule { number, sum } => {
            push_rule(out, *number)?;
            push_sum(out, sum)?;
            push_u64(out, expiry)
        }
    }
}

#[tactic(auto, unfolding(pf_form::specs::Bytes::BasicForms::number_bytes), using(crate::proofs::Pieced::four_pieces))]
fn push_default(out: &mut Vec<u8>, expiry: u64) -> Result<(), AllocError>
    ensures { OnOk result
        (out.new.items ≡ onto (ByteForm.number 8) expiry (((out.old.items ++ replicate 8 255) ++ 0 ∷ []) ++ replicate 23 0)) }
{
    let e = expiry.to_be_bytes();
    push_bytes(
        out,
        &[
            255, 255, 255, 255, 255, 255, 255, 255, 0, 0, 0, 0, 0, 0, 0, 0, 0, 0, 0, 0, 0, 0, 0, 0,
            0, 0, 0, 0, 0, 0, 0, 0, e[0], e[1], e[2], e[3], e[4], e[5], e[6], e[7],
        ],
    )
}

#[tactic(auto, unfolding(pf_form::specs::Bytes::BasicForms::number_bytes), using(crate::proofs::Pieced::three_pushed))]
fn push_rule(out: &mut Vec<u8>, number: u32) -> Result<(), AllocError>
    ensures { OnOk result
        (out.new.items ≡ onto (ByteForm.number 4) number ((out.old.items ++ replicate 8 255) ++ 1 ∷ 0 ∷ 0 ∷ 0 ∷ [])) }
{
    let n = number.to_be_bytes();
    push_bytes(
        out,
        &[
            255, 255, 255, 255, 255, 255, 255, 255, 1, 0, 0, 0, n[0], n[1], n[2], n[3],
        ],
    )
}

fn push_sum(out: &mut Vec<u8>, sum: &[u8; 16]) -> Result<(), AllocError>
    ensures written { OnOk result (out.new.items ≡ onto (times 16 (ByteForm.number 1)) sum.now out.old.items) }
    ensures fits { Fits (times 16 (ByteForm.number 1)) sum.now }
{
    push_bytes(out, sum)
}
