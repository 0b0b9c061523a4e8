//! Reading the messages of a stream so far.
ghost use Rattle.std.specs.Prelude.{◌≡◌, IfOk};
ghost use Rattle.pf_state.specs.{Peer.Outcomes.ending, Peer.Streams.{Reads, IsFront}};

use crate::peer::fault::PeerFault;
use crate::peer::fields::{MESSAGE_HEADER, MESSAGE_VERSION};
use crate::peer::message::Message;
use crate::peer::whole::message_of;
use std::alloc::{AllocError, Global};

/// What is at the start of a message.
#[derive(Clone, Copy)]
pub(crate) enum MessageStart {
    /// Less than a message, without a fault so far.
    Partial,
    /// The header of a message of this many bytes, all of which are there.
    Whole(usize),
    /// A header that is invalid.
    Bad(PeerFault),
}

/// What has been read of a stream.
#[derive(Drop)]
pub(crate) struct Read<'a> {
    /// Its messages, in order.
    pub messages: Vec<Message>,
    /// The fault after them, if any.
    pub fault: Option<PeerFault>,
    /// The bytes after them, if there is no fault.
    pub rest: &'a [u8],
}

impl<'a> Read<'a> {
    fn new(messages: Vec<Message>, fault: Option<PeerFault>, rest: &'a [u8]) -> Read<'a>
        ensures messages { result.messages ≡ messages }
        ensures fault { result.fault ≡ fault }
        ensures rest { result.rest.now ≡ rest.now }
    {
        Read {
            messages,
            fault,
            rest,
        }
    }
}

/// Reads the messages that these bytes begin with.
pub(crate) fn read_stream(alloc: Global, bytes: &[u8]) -> Result<Read<'_>, AllocError>
    ensures { IfOk result (λ r. Reads bytes.now r.messages.items (ending r.fault r.rest.now)) }
{
    let mut messages = Vec::new(alloc);
    let mut rest = bytes;
    loop {
        let size = match front_of(rest) {
            MessageStart::Whole(size) => size,
            MessageStart::Partial => return Ok(Read::new(messages, None, rest)),
            MessageStart::Bad(fault) => return Ok(Read::new(messages, Some(fault), rest)),
        };
        let (front, following) = rest.split_at(size);
        match message_of(alloc, front)? {
            Ok(message) => messages.push(message)?,
            Err(fault) => return Ok(Read::new(messages, Some(fault), rest)),
        }
        rest = following;
    }
}

// What is at the front.
#[tactic(auto, unfolding(pf_rule::specs::Bytes::number_at))]
fn front_of(bytes: &[u8]) -> MessageStart
    ensures { IsFront bytes.now result }
{
    if bytes.is_empty() {
        return MessageStart::Partial;
    }
    if bytes[0] != MESSAGE_VERSION || (bytes.len() > 1 && bytes[1] != 0) {
        return MessageStart::Bad(PeerFault::BadVersion);
    }
    if bytes.len() < 4 {
        return MessageStart::Partial;
    }
    let size = bytes[2] as usize * 256 + bytes[3] as usize;
    if size < MESSAGE_HEADER {
        return MessageStart::Bad(PeerFault::BadLength);
    }
    if bytes.len() < size {
        return MessageStart::Partial;
    }
    MessageStart::Whole(size)
}
