//! Why there is no answer.
ghost use Rattle.std.specs.Prelude.{◌≡◌, IfOk};
ghost use Rattle.pfd_conf.specs.declared.fault.Fault.TheVariants.{Anchor, Interface, Unwritten, Memory};

use pf_tokens::{Bytes, Items};
use std::alloc::{AllocError, AllocFailed, Global};
use std::fmt::{self, Debug, Formatter, Write};
use thiserror::Error;

/// What is wrong with a case or a packet. The text of each is what a user is told.
#[derive(Drop, Error)]
pub enum CaseMistake {
    #[error("'{0}' can't stand here")]
    Misplaced(Bytes),
    #[error("the line ends too early")]
    LineEnds,
    #[error("'{0}' is too long")]
    Long(Bytes),
    #[error("'{0}' is no protocol")]
    Protocol(Bytes),
    #[error("the addresses are of different families")]
    Families,
}

/// Its text, which tells one from the others.
impl Debug for CaseMistake {
    fn fmt<W: Write>(&self, f: &mut Formatter<W>) -> fmt::Result {
        write!(f, "{self}")
    }
}

/// Why there is no answer. The text of each is what a user is told.
#[derive(Drop, Error)]
pub enum Fault {
    /// What is wrong with a pf.conf, or with a file that it names.
    #[error("{0}")]
    Conf(pf_conf::Fault),
    /// This file is named, and wasn't read.
    #[error("{0}:1:1: the file {0} can't be read")]
    Unread(Bytes),
    /// A file of cases is too long.
    #[error("{0}:1:1: a file of cases has 67,108,864 bytes at most")]
    LongCases(Bytes),
    /// A line of this file of cases is none.
    #[error("{file}:{line}:1: {mistake}")]
    Case {
        file: Bytes,
        /// From 1.
        line: usize,
        mistake: CaseMistake,
    },
    /// What is to be explained is no packet.
    #[error("packet:1:1: {0}")]
    Packet(CaseMistake),
    /// What is named as the path of an anchor is none.
    #[error("'{0}' is no anchor's path")]
    Anchor(Bytes),
    /// What is given as an interface with its addresses is none.
    #[error("'{0}' is no interface with its addresses, as em0=192.0.2.1/24,2001:db8::1/64")]
    Interface(Bytes),
    /// This file can't be written.
    #[error("the file {0} can't be written")]
    Unwritten(Bytes),
    /// A write or a flush of the output failed.
    #[error("pfd: output")]
    Output,
    /// Out of memory.
    #[error("pfd: memory")]
    Memory,
}

/// Its text.
impl Debug for Fault {
    fn fmt<W: Write>(&self, f: &mut Formatter<W>) -> fmt::Result {
        write!(f, "{self}")
    }
}

impl Fault {
    /// The fault of a text that is no anchor's path.
    pub fn anchor(alloc: Global, text: &str) -> Result<Fault, AllocError>
        ensures { IfOk result (λ fault. fault ≡ Anchor text.now) }
    {
        Ok(Fault::Anchor(Items::copied(alloc, text.as_bytes())?))
    }

    /// The fault of a text that gives no interface.
    pub fn interface(alloc: Global, text: &str) -> Result<Fault, AllocError>
        ensures { IfOk result (λ fault. fault ≡ Interface text.now) }
    {
        Ok(Fault::Interface(Items::copied(alloc, text.as_bytes())?))
    }

    /// The fault of a file that can't be written.
    pub fn unwritten(alloc: Global, name: &str) -> Result<Fault, AllocError>
        ensures { IfOk result (λ fault. fault ≡ Unwritten name.now) }
    {
        Ok(Fault::Unwritten(Items::copied(alloc, name.as_bytes())?))
    }
}

impl From<AllocError> for Fault {
    ghost from_gives = { λ _ fault. fault ≡ Memory };

    fn from(_e: AllocError) -> Fault {
        Fault::Memory
    }
}

impl<T: Drop> From<AllocFailed<T>> for Fault {
    ghost from_gives = { λ _ fault. fault ≡ Memory };

    fn from(_e: AllocFailed<T>) -> Fault {
        Fault::Memory
    }
}
