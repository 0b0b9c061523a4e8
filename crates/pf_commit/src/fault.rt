//! Why a load stops.
ghost use Rattle.std.specs.Prelude.{◌≡◌};
ghost use Rattle.pf_commit.specs.declared.fault.Fault.TheVariants.{Memory};

use pf_tokens::{Bytes, Items};
use std::alloc::{AllocError, AllocFailed, Global};
use thiserror::Error;

/// Why a load stops. The text of each is what a user is told.
#[derive(Debug, Drop, Error)]
pub enum Fault {
    /// The server refused this line with this reply.
    #[error("{line} -> {reply}")]
    Refused { line: Bytes, reply: Bytes },
    /// An anchor rule leads to all rulesets within this path, and the server, an older one, doesn't show their names.
    #[error("anchor \"{0}/*\": the server doesn't show the names of rulesets")]
    Wild(Bytes),
    /// The server ended before it had answered, or what it sent is no reply.
    #[error("pfd: output")]
    Ended,
    /// What is to be told can't be written.
    #[error("pfd: output")]
    Output,
    /// Out of memory.
    #[error("pfd: memory")]
    Memory,
}

impl Fault {
    /// The fault of a line, without its newline, that got this reply; or `Fault::Memory`.
    pub fn refused(alloc: Global, line: &[u8], reply: &[u8]) -> Fault {
        match (Items::copied(alloc, line), Items::copied(alloc, reply)) {
            (Ok(line), Ok(reply)) => Fault::Refused { line, reply },
            _ => Fault::Memory,
        }
    }

    /// Whether somebody else began on the same ruleset, or committed it, meanwhile.
    pub(crate) fn is_busy(&self) -> bool {
        match self {
            Fault::Refused { reply, .. } => reply.as_slice().starts_with(b"busy "),
            _ => false,
        }
    }
}

impl From<AllocError> for Fault {
    ghost from_gives = { λ _ fault. fault ≡ Memory };

    fn from(_e: AllocError) -> Fault {
        Fault::Memory
    }
}

impl<T: Drop> From<AllocFailed<T>> for Fault {
    ghost from_gives = { λ _ fault. fault ≡ Memory };

    fn from(_e: AllocFailed<T>) -> Fault {
        Fault::Memory
    }
}
