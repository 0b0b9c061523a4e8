//! A bank to begin, in the memory that it is written from.
ghost use Rattle.std.specs.Prelude.{◌≡◌, ◌^◌, ◌<◌, ◌++◌, [], ◌∷◌, length, IfOk, OnOk};
ghost use Rattle.pf_snap.specs.Banks.{front, bank_after_gate};

use crate::header::{BANK_HEADER, header_bytes};
use pf_journal::CLOSED_GATE;
use std::alloc::{AllocError, Global};

/// A bank to begin: the bytes that are written after its gate, made before the device is called. It can be started again in the same
/// memory.
#[derive(Drop)]
pub struct NextBank {
    /// The rest of its header, its snapshot, and a closed gate.
    pub after_gate: Vec<u8>,
    /// Its snapshot's length in bytes.
    pub length: usize,
}

impl NextBank {
    /// An empty one, which has no memory yet.
    pub fn new(alloc: Global) -> NextBank {
        NextBank {
            after_gate: Vec::new(alloc),
            length: 0,
        }
    }

    /// The bank of this snapshot. `AllocError`: out of memory.
    pub fn of(
        alloc: Global,
        version: u8,
        generation: u64,
        snapshot: &[u8],
    ) -> Result<NextBank, AllocError>
        requires { length snapshot.now < 2 ^ 32 }
        ensures after_gate { IfOk result (λ next. next.after_gate.items ≡ bank_after_gate version generation snapshot.now) }
        ensures long { IfOk result (λ next. next.length ≡ length snapshot.now) }
    {
        let mut next = NextBank::new(alloc);
        next.start(version, generation, snapshot.len())?;
        next.after_gate.extend_from_slice(snapshot)?;
        next.close()?;
        Ok(next)
    }

    /// Starts a bank with a snapshot of `length` bytes, and takes all the memory that it still needs. The caller then appends the snapshot
    /// to `after_gate`, and [`NextBank::close`] the gate. `AllocError`: it has to be started again; the contents of `after_gate` are unspecified.
    pub fn start(&mut self, version: u8, generation: u64, length: usize) -> Result<(), AllocError>
        requires { length < 2 ^ 32 }
        ensures front { OnOk result (self.new.after_gate.items ≡ front version generation length) }
        ensures long { OnOk result (self.new.length ≡ length) }
    {
        let header = header_bytes(version, generation, length as u32);
        self.after_gate.clear();
        // (the header without its open gate, the snapshot, and one byte for the closed gate)
        self.after_gate
            .reserve(length.saturating_add(header.len()))?;
        self.after_gate.extend_from_slice(&header[1..])?;
        self.length = length;
        Ok(())
    }

    /// Appends a closed gate. `AllocError`: it has to be started again; the contents of `after_gate` are unspecified.
    pub fn close(&mut self) -> Result<(), AllocError>
        ensures closed { OnOk result (self.new.after_gate.items ≡ self.old.after_gate.items ++ CLOSED_GATE ∷ []) }
        ensures same_length { self.new.length ≡ self.old.length }
    {
        match self.after_gate.push(CLOSED_GATE) {
            Ok(()) => Ok(()),
            Err(_) => Err(AllocError),
        }
    }
}
