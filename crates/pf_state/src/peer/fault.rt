//! Why a stream can't be read further.
ghost use Rattle.std.specs.Prelude.{◌≡◌};
ghost use Rattle.pf_state.specs.declared.peer.fault.FeedError.TheVariants as feeding;
ghost use Rattle.pf_state.specs.declared.peer.fault.ReadError.TheVariants as reading;

use std::alloc::{AllocError, AllocFailed};

/// What is wrong with a peer's stream. Which fault it is, and with which byte it comes, depends only on the bytes so far.
#[derive(Clone, Copy, Debug, PartialEq, Eq)]
pub enum PeerFault {
    /// A message's first byte isn't its version, or its second isn't 0. It comes with that byte.
    BadVersion,
    /// A message's length is below that of its header, which shows with its fourth byte; or its groups don't end where it does: fewer bytes
    /// are left than a group's header has, or a group's records go past the end. That shows with its last byte, as all faults of groups do.
    BadLength,
    /// A group's action is unknown, or the byte after it isn't 0. It is checked before the group's length.
    BadAction,
    /// A record of an insert has an invalid field: a direction, a family, a protocol of 0, a byte other than 0 after these or after an IPv4
    /// address, a port though the protocol has none. Records of deletes and clears never have it.
    BadRecord,
    /// The stream ended within a message. Only its end shows this.
    Ended,
}

/// Why bytes aren't one whole message.
#[derive(Clone, Copy, Debug, PartialEq, Eq)]
pub enum OneFault {
    /// Read as a stream that ends where they do, they have this fault.
    Fault(PeerFault),
    /// They are several messages, or none.
    Count,
}

/// Why a piece wasn't taken, or the end not looked at.
#[derive(Clone, Copy, Debug, PartialEq, Eq)]
pub enum FeedError {
    /// Out of memory; the reader is as before.
    Memory,
    /// The stream had a fault before. The reader stays as it is, and returns this from now on.
    Failed,
}

impl From<AllocError> for FeedError {
    ghost from_gives = { λ _ e. e ≡ feeding.Memory };

    fn from(_: AllocError) -> Self {
        FeedError::Memory
    }
}

impl<T: Drop> From<AllocFailed<T>> for FeedError {
    ghost from_gives = { λ _ e. e ≡ feeding.Memory };

    fn from(_: AllocFailed<T>) -> Self {
        FeedError::Memory
    }
}

/// Why a whole message wasn't read.
#[derive(Clone, Copy, Debug, PartialEq, Eq)]
pub(crate) enum ReadError {
    /// Out of memory.
    Memory,
    /// It has this fault.
    Fault(PeerFault),
}

impl From<AllocError> for ReadError {
    ghost from_gives = { λ _ e. e ≡ reading.Memory };

    fn from(_: AllocError) -> Self {
        ReadError::Memory
    }
}

impl<T: Drop> From<AllocFailed<T>> for ReadError {
    ghost from_gives = { λ _ e. e ≡ reading.Memory };

    fn from(_: AllocFailed<T>) -> Self {
        ReadError::Memory
    }
}
