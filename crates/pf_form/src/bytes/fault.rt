//! Why bytes could not be read.
ghost use Rattle.std.specs.Prelude.{◌≡◌};
ghost use Rattle.pf_form.specs.declared.bytes.fault.Undecoded.TheVariants.{Memory};

use std::alloc::{AllocError, AllocFailed};

/// What is wrong with bytes. They have one fault at most.
#[derive(Clone, Copy, Debug, PartialEq, Eq)]
pub enum Fault {
    /// There are too few: nothing in them is wrong, and no value ends within them.
    Short,
    /// Something isn't allowed at its place. So many bytes are left from it on: from a part that lacks its property, from the first
    /// byte that differs from a constant, or from the first one after a value.
    Bad(usize),
}

/// Why bytes could not be read: they have a fault, or there was no memory for the value.
#[derive(Clone, Copy, Debug, PartialEq, Eq)]
pub enum Undecoded {
    /// Out of memory; nothing is said of the bytes.
    Memory,
    /// The bytes have this fault.
    Fault(Fault),
}

impl From<AllocError> for Undecoded {
    ghost from_gives = { λ _ e. e ≡ Memory };

    fn from(_e: AllocError) -> Undecoded {
        Undecoded::Memory
    }
}

impl<T: Drop> From<AllocFailed<T>> for Undecoded {
    ghost from_gives = { λ _ e. e ≡ Memory };

    fn from(_e: AllocFailed<T>) -> Undecoded {
        Undecoded::Memory
    }
}
