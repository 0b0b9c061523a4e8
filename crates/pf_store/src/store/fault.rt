//! Why a store isn't opened, a change isn't saved, or a record isn't added.
ghost use Rattle.std.specs.Prelude.{◌≡◌};
ghost use Rattle.pf_store.specs.declared.store.fault.OpenFault.TheVariants as opening;
ghost use Rattle.pf_store.specs.declared.store.fault.AddFault.TheVariants as adding;
ghost use Rattle.pf_store.specs.StoreFaults.{switched_to, unadded, unlooked};

use pf_disk::DiskFault;
use pf_snap::{LookFault, SwitchFault};
use std::alloc::AllocError;

/// Why a change wasn't saved.
#[derive(Clone, Copy, Debug, PartialEq, Eq)]
pub enum SaveFault {
    /// Out of memory, though there is room for the change. All is as before, and the device wasn't called.
    Memory,
    /// There is no room for the change. All is as before, and the device wasn't called.
    Full,
    /// A call of the device failed. An image may hold what was kept before the change or after it, and the store is halted.
    Fault,
    /// An earlier save met a fault. All is as before, and the device wasn't called.
    Halted,
}

/// Why a device wasn't opened, or no history was begun over one that was. If a store's error isn't `Fault`, the device reads as before,
/// and nothing was written.
#[derive(Clone, Copy, Debug, PartialEq, Eq)]
pub enum OpenFault {
    /// The device has an odd number of bytes, or fewer than 256 or more than 2^30. No call was made.
    BadSize,
    /// Both banks' gates are closed.
    NoBank,
    /// What begins at this place of the device isn't what a store leaves there: the header of the bank that counts, or both banks' (0),
    /// its snapshot, or the first record that is none, has no room, or doesn't follow what is kept before it; the place is then that of its
    /// gate.
    Corrupt { at: usize },
    /// Out of memory.
    Memory,
    /// A call of the device failed. An image may hold what was read, with the next epoch.
    Fault,
    /// The epoch is the last one: none follows.
    EpochsExhausted,
    /// The record of an opening has no room, nor would it in the other bank after a snapshot of what is held.
    Full,
    /// There is no place for a reader of what is published, or none at the front of the history. A store never returns it: it is for
    /// whoever shows what a store keeps.
    Places,
}

impl From<AllocError> for OpenFault {
    ghost from_gives = { λ _ e. e ≡ opening.Memory };

    fn from(_: AllocError) -> Self {
        OpenFault::Memory
    }
}

impl From<LookFault> for OpenFault {
    ghost from_gives = { λ fault e. e ≡ unlooked fault };

    fn from(fault: LookFault) -> Self {
        match fault {
            LookFault::BadSize => OpenFault::BadSize,
            LookFault::NoBank => OpenFault::NoBank,
            LookFault::Corrupt { at } => OpenFault::Corrupt { at },
            LookFault::Memory => OpenFault::Memory,
            LookFault::Fault => OpenFault::Fault,
        }
    }
}

/// Why a record wasn't added.
#[derive(Clone, Copy, Debug)]
pub(crate) enum AddFault {
    /// Out of memory. All is as before, and the device wasn't called.
    Memory,
    /// There is no room for it, here or after a snapshot. All is as before, and the device wasn't called.
    Full,
    /// A call of the device failed.
    Fault,
}

impl From<AddFault> for OpenFault {
    ghost from_gives = { λ fault e. e ≡ unadded fault };

    fn from(fault: AddFault) -> Self {
        match fault {
            AddFault::Memory => OpenFault::Memory,
            AddFault::Full => OpenFault::Full,
            AddFault::Fault => OpenFault::Fault,
        }
    }
}

impl From<DiskFault> for AddFault {
    ghost from_gives = { λ _ e. e ≡ adding.Fault };

    fn from(_: DiskFault) -> Self {
        AddFault::Fault
    }
}

impl From<SwitchFault> for AddFault {
    ghost from_gives = { λ fault e. e ≡ switched_to fault };

    fn from(fault: SwitchFault) -> Self {
        match fault {
            SwitchFault::Memory => AddFault::Memory,
            SwitchFault::Fault => AddFault::Fault,
        }
    }
}
