//! A reader of a peer's stream, which comes in pieces.
ghost use Rattle.std.specs.Prelude.{◌≡◌, IfOk, IfErr, OnErr, [], Err, Some, None};
ghost use Rattle.pf_state.specs.Peer.Outcomes.{TakenAs, finished, kept_at_end};
ghost use Rattle.pf_state.specs.declared.peer.fault.FeedError.TheVariants.{Failed};

use crate::peer::fault::{FeedError, PeerFault};
use crate::peer::message::Message;
use crate::peer::stream::read_stream;
use std::alloc::Global;
use std::marker::Model;

/// What a piece of a stream has brought.
#[derive(Drop)]
pub struct Fed {
    /// The messages that this piece completes, in order.
    pub messages: Vec<Message>,
    /// The fault after them, if any. Only `finish` returns [`PeerFault::Ended`].
    pub fault: Option<PeerFault>,
}

/// A reader of a peer's stream. It keeps the bytes of the message that isn't whole yet, or that there was a fault. Contracts see these
/// bytes, or `None` from a fault on.
#[derive(Drop)]
pub struct PeerReader {
    rest: Vec<u8>,
    has_failed: bool,
}

impl Model for PeerReader {
    ghost use Rattle.std.specs.Prelude.{ℕ, List, Option, Some, None, if◌then◌else◌};

    ghost Value = { Option (List ℕ) };

    ghost view = { λ r. if r.has_failed then None else Some r.rest.items };
}

impl PeerReader {
    /// A reader of a stream of which nothing has come. It takes no memory.
    pub fn new(alloc: Global) -> PeerReader
        ensures { result ≡ Some [] }
    {
        PeerReader {
            rest: Vec::new(alloc),
            has_failed: false,
        }
    }

    /// Takes the next piece of the stream, and returns the messages that it completes and the fault after them, if any. It makes no
    /// difference where the pieces were cut. A fault in a message's header comes with the byte that shows it, one in its groups with the
    /// message's last byte, wherever in it the fault is.
    ///
    /// After a fault the answer is [`FeedError::Failed`] from the next call on. [`FeedError::Memory`] leaves the reader as it was.
    pub fn feed(&mut self, alloc: Global, piece: &[u8]) -> Result<Fed, FeedError>
        ensures read { IfOk result (λ fed. TakenAs self.old piece.now self.new fed.messages.items fed.fault) }
        ensures failed { self.old ≡ None → result ≡ Err Failed }
        ensures refused { IfErr result (λ e. e ≡ Failed → self.old ≡ None) }
        ensures left { OnErr result (self.new ≡ self.old) }
    {
        if self.has_failed {
            return Err(FeedError::Failed);
        }
        let mut bytes = Vec::from_slice(alloc, &self.rest)?;
        bytes.extend_from_slice(piece)?;
        let read = read_stream(alloc, &bytes)?;
        let rest = Vec::from_slice(alloc, read.rest)?;
        self.rest = rest;
        self.has_failed = read.fault.is_some();
        Ok(Fed {
            messages: read.messages,
            fault: read.fault,
        })
    }

    /// What the end of the stream shows: [`PeerFault::Ended`] within a message, and no fault between messages. `Ended` is a fault like the
    /// others: from the next call on `feed` and `finish` return [`FeedError::Failed`]. Without a fault the reader is as before. It takes no
    /// memory.
    pub fn finish(&mut self) -> Result<Option<PeerFault>, FeedError>
        ensures answer { result ≡ finished self.old }
        ensures left { self.new ≡ kept_at_end self.old }
    {
        if self.has_failed {
            return Err(FeedError::Failed);
        }
        if self.rest.is_empty() {
            return Ok(None);
        }
        self.has_failed = true;
        Ok(Some(PeerFault::Ended))
    }
}
