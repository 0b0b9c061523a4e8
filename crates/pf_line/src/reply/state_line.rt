//! Texts of states, of checksums, and of messages for a peer.
ghost use Rattle.std.specs.Prelude.{◌≡◌, ◌∷◌, ◌++◌, [], codes, decimal, map};
ghost use Rattle.hex.specs.Hex.{encode_lower};
ghost use Rattle.pf_addr.specs.Spelling.{addr_text};
ghost use Rattle.pf_rule.specs.Value.Tests.{protocol_word};
ghost use Rattle.pf_line.specs.{Reply.TextLines.{newlines, GoesOn, WroteLines}, Reply.StateTexts.{name_text, way_text, end_text, flow_text, bound_text, expiry_text, state_line, state_lines, message_line, message_lines, counts_text, fault_text}};

use crate::reply::entry::write_network;
use crate::reply::part::{end_line, write_number, write_numbered, write_part};
use pf_addr::{Addr, Net};
use pf_rule::value::{Direction, Protocol, write_more_protocol};
use pf_state::peer::PeerFault;
use pf_state::{Bound, Counts, Flow, State, StateName};
use std::io::{self, Write};

/// Writes a line for each state.
pub(crate) fn write_states<W: Write>(out: &mut W, states: &[State]) -> io::Result<()>
    ensures { WroteLines result (W.contents out.old) (W.contents out.new) (state_lines states.now) }
{
    let mut so_far = Ok(());
    for state in states {
        so_far = write_state(out, so_far, state);
        so_far = end_line(out, so_far);
    }
    so_far
}

/// Writes a line for each message.
pub(crate) fn write_messages<W: Write>(out: &mut W, messages: &[Vec<u8>]) -> io::Result<()>
    ensures { WroteLines result (W.contents out.old) (W.contents out.new) (message_lines (map (λ m. m.items) messages.now)) }
{
    let mut so_far = Ok(());
    for message in messages {
        so_far = write_message(out, so_far, message);
        so_far = end_line(out, so_far);
    }
    so_far
}

// Each of these writes a part of one line after what was written so far.

#[tactic(auto, using(crate::proofs::Writers::goes_on))]
fn write_message<W: Write>(out: &mut W, so_far: io::Result<()>, message: &[u8]) -> io::Result<()>
    ensures { GoesOn so_far (W.contents out.old) result (W.contents out.new) (message_line message.now) }
{
    let so_far = write_part(out, so_far, b"peer ");
    write_hex(out, so_far, message)
}

#[tactic(auto, using(crate::proofs::Writers::goes_on))]
fn write_state<W: Write>(out: &mut W, so_far: io::Result<()>, state: &State) -> io::Result<()>
    ensures { GoesOn so_far (W.contents out.old) result (W.contents out.new) (state_line state.now) }
{
    let held = state.value();
    let so_far = write_name(out, so_far, *state.key());
    let so_far = write_numbered(out, so_far, b" ", held.generation as u64);
    let so_far = write_flow(out, so_far, &held.flow);
    let so_far = write_bound(out, so_far, &held.bound);
    write_expiry(out, so_far, held.expiry)
}

// Writes when a state expires, if it does.
fn write_expiry<W: Write>(out: &mut W, so_far: io::Result<()>, expiry: u64) -> io::Result<()>
    ensures { GoesOn so_far (W.contents out.old) result (W.contents out.new) (expiry_text expiry) }
{
    if expiry == 0 {
        return write_part(out, so_far, b"");
    }
    write_numbered(out, so_far, b" until ", expiry)
}

/// Writes a state's number and its creator.
#[tactic(auto, using(crate::proofs::Writers::goes_on))]
pub(crate) fn write_name<W: Write>(
    out: &mut W,
    so_far: io::Result<()>,
    name: StateName,
) -> io::Result<()>
    ensures { GoesOn so_far (W.contents out.old) result (W.contents out.new) (name_text name) }
{
    let so_far = write_number(out, so_far, name.id);
    write_numbered(out, so_far, b" ", name.creator as u64)
}

#[tactic(auto, using(crate::proofs::Writers::goes_on))]
fn write_flow<W: Write>(out: &mut W, so_far: io::Result<()>, flow: &Flow) -> io::Result<()>
    ensures { GoesOn so_far (W.contents out.old) result (W.contents out.new) (flow_text flow.now) }
{
    let so_far = write_part(out, so_far, way(flow.direction()));
    let so_far = write_protocol(out, so_far, flow.protocol());
    let so_far = write_end(out, so_far, flow.source(), flow.source_port());
    write_end(out, so_far, flow.destination(), flow.destination_port())
}

fn way(direction: Direction) -> &'static [u8]
    ensures text { result.now ≡ way_text direction }
    ensures one_line { newlines result.now ≡ 0 }
{
    match direction {
        Direction::In => b" in ",
        Direction::Out => b" out ",
    }
}

/// Writes a protocol.
#[tactic(auto, using(crate::proofs::Newlines::word_plain))]
fn write_protocol<W: Write>(
    out: &mut W,
    so_far: io::Result<()>,
    protocol: Protocol,
) -> io::Result<()>
    ensures { GoesOn so_far (W.contents out.old) result (W.contents out.new) (protocol_word protocol) }
{
    write_more_protocol(out, so_far, protocol)
}

#[tactic(auto, using(crate::proofs::Writers::goes_on))]
fn write_end<W: Write>(
    out: &mut W,
    so_far: io::Result<()>,
    address: Addr,
    port: u16,
) -> io::Result<()>
    ensures { GoesOn so_far (W.contents out.old) result (W.contents out.new) (end_text address port) }
{
    let so_far = write_part(out, so_far, b" ");
    let so_far = write_address(out, so_far, address);
    write_numbered(out, so_far, b" ", port as u64)
}

/// Writes an address.
fn write_address<W: Write>(out: &mut W, so_far: io::Result<()>, address: Addr) -> io::Result<()>
    ensures { GoesOn so_far (W.contents out.old) result (W.contents out.new) (addr_text address) }
{
    // an address is written as the network that has no other address
    write_network(out, so_far, Net::single(address))
}

#[tactic(auto, using(crate::proofs::Writers::goes_on))]
fn write_bound<W: Write>(out: &mut W, so_far: io::Result<()>, bound: &Bound) -> io::Result<()>
    ensures { GoesOn so_far (W.contents out.old) result (W.contents out.new) (bound_text bound.now) }
{
    match bound {
        Bound::Rule { number, sum } => write_rule_bound(out, so_far, *number, sum),
        Bound::Default => write_part(out, so_far, b" default"),
    }
}

#[tactic(auto, using(crate::proofs::Writers::goes_on))]
fn write_rule_bound<W: Write>(
    out: &mut W,
    so_far: io::Result<()>,
    number: u32,
    sum: &[u8],
) -> io::Result<()>
    ensures { GoesOn so_far (W.contents out.old) result (W.contents out.new)
        (codes " rule " ++ decimal number ++ 32 ∷ encode_lower sum.now) }
{
    let so_far = write_numbered(out, so_far, b" rule ", number as u64);
    let so_far = write_part(out, so_far, b" ");
    write_hex(out, so_far, sum)
}

/// Writes bytes in hexadecimal, two lower-case digits for each.
#[tactic(auto, using(crate::proofs::Writers::still), unfolding(hex::specs::Hex::encode_with))]
pub(crate) fn write_hex<W: Write>(
    out: &mut W,
    begun: io::Result<()>,
    bytes: &[u8],
) -> io::Result<()>
    ensures { GoesOn begun (W.contents out.old) result (W.contents out.new) (encode_lower bytes.now) }
{
    let mut so_far = begun;
    for byte in bytes {
        so_far = write_byte(out, so_far, *byte);
    }
    so_far
}

fn write_byte<W: Write>(out: &mut W, so_far: io::Result<()>, byte: u8) -> io::Result<()>
    ensures { GoesOn so_far (W.contents out.old) result (W.contents out.new) (encode_lower (byte ∷ [])) }
{
    let mut digits = [0; 2];
    // a byte always fits two digits
    let _ = hex::encode_to_slice([byte], &mut digits);
    write_part(out, so_far, &digits)
}

/// Writes what became of a message's records.
#[tactic(auto, using(crate::proofs::Writers::goes_on))]
pub(crate) fn write_counts<W: Write>(
    out: &mut W,
    so_far: io::Result<()>,
    counts: &Counts,
) -> io::Result<()>
    ensures { GoesOn so_far (W.contents out.old) result (W.contents out.new) (counts_text counts.now) }
{
    let so_far = write_numbered(out, so_far, b" new ", counts.inserted);
    let so_far = write_numbered(out, so_far, b" replaced ", counts.replaced);
    let so_far = write_numbered(out, so_far, b" stale ", counts.stale);
    let so_far = write_numbered(out, so_far, b" clash ", counts.clash);
    write_numbered(out, so_far, b" deleted ", counts.deleted)
}

/// The text of a message's fault.
pub(crate) fn fault_text(fault: PeerFault) -> &'static [u8]
    ensures text { result.now ≡ fault_text fault }
    ensures one_line { newlines result.now ≡ 0 }
{
    match fault {
        PeerFault::BadVersion => b"err peer version",
        PeerFault::BadLength => b"err peer length",
        PeerFault::BadAction => b"err peer action",
        PeerFault::BadRecord => b"err peer record",
        PeerFault::Ended => b"err peer ended",
    }
}
