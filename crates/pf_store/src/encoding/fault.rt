//! Why something wasn't written as bytes, or read from them.
ghost use Rattle.std.specs.Prelude.{◌≡◌, true, false};
ghost use Rattle.pf_store.specs.declared.encoding.fault.GroupFault.TheVariants.{Memory, NoForm};
ghost use Rattle.pf_form.specs.declared.bytes.fault.Undecoded.TheVariants as undecoded;

use pf_form::bytes::Undecoded;
use std::alloc::{AllocError, AllocFailed};

/// Why a group or a snapshot wasn't written or read.
#[derive(Clone, Copy, Debug)]
pub enum GroupFault {
    /// Out of memory.
    Memory,
    /// It has no bytes, or the bytes are no group's or no snapshot's.
    NoForm,
}

impl From<AllocError> for GroupFault {
    ghost from_gives = { λ _ e. e ≡ Memory };

    fn from(_: AllocError) -> Self {
        GroupFault::Memory
    }
}

impl<T: Drop> From<AllocFailed<T>> for GroupFault {
    ghost from_gives = { λ _ e. e ≡ Memory };

    fn from(_: AllocFailed<T>) -> Self {
        GroupFault::Memory
    }
}

/// Why bytes weren't read, by why they weren't decoded and whether they begin as they have to: if they don't, that is why, however little
/// memory there is.
pub(crate) fn unread(fault: Undecoded, begins: bool) -> GroupFault
    ensures memory { result ≡ Memory → (fault ≡ undecoded.Memory) × (begins ≡ true) }
    ensures no_form { result ≡ NoForm → fault ≡ undecoded.Memory → begins ≡ false }
{
    match fault {
        Undecoded::Memory => {
            if begins {
                GroupFault::Memory
            } else {
                GroupFault::NoForm
            }
        }
        Undecoded::Fault(_) => GroupFault::NoForm,
    }
}
