//! Reading bytes that have to be one message, as a line of commands has it.
ghost use Rattle.std.specs.Prelude.{IfOk};
ghost use Rattle.pf_state.specs.Peer.One.{IsOne};

use crate::peer::fault::{OneFault, PeerFault};
use crate::peer::message::Message;
use crate::peer::stream::read_stream;
use std::alloc::{AllocError, Global};

/// The one whole message in these bytes, or why they aren't one. They are read as a stream that ends where they do: a fault anywhere in
/// them comes first, after however many messages, then [`PeerFault::Ended`] for a message that isn't whole, and last [`OneFault::Count`]
/// for several messages, or for none if there are no bytes. The only outer error is out of memory.
pub fn read_one(alloc: Global, bytes: &[u8]) -> Result<Result<Message, OneFault>, AllocError>
    ensures { IfOk result (IsOne bytes.now) }
{
    let read = read_stream(alloc, bytes)?;
    if let Some(fault) = read.fault {
        return Ok(Err(OneFault::Fault(fault)));
    }
    if !read.rest.is_empty() {
        return Ok(Err(OneFault::Fault(PeerFault::Ended)));
    }
    let mut messages = read.messages;
    if messages.len() > 1 {
        return Ok(Err(OneFault::Count));
    }
    Ok(messages.pop().ok_or(OneFault::Count))
}
