//! Reads what the bytes of a disk hold.
ghost use Rattle.std.specs.Prelude.{◌≡◌, IfOk, IfErr};
ghost use Rattle.pf_store.specs.Stores.{Holds};
ghost use Rattle.pf_core.specs.Laws.Durable.{IsWithin};
ghost use Rattle.wirdalf_c.specs.Images.{IsUnread, unread};

use crate::fault::ReadFault;
use pf_core::Durable;
use pf_disk::{Disk, MemDisk};
use pf_store::{OpenFault, Store};
use std::alloc::{AllocError, Global};

/// What these bytes hold: those of a file that `pfd` formatted or serves, all of them. They may be any bytes.
pub fn read_image(alloc: Global, bytes: &[u8]) -> Result<Durable, ReadFault>
    ensures held { IfOk result (λ d. Holds bytes.now d) }
    ensures within { IfOk result (λ d. IsWithin d) }
    ensures refused { IfErr result (λ e. IsUnread e bytes.now) }
{
    let Ok(mut disk) = disk_of(alloc, bytes) else {
        return Err(ReadFault::Memory);
    };
    match Store::peek(alloc, &mut disk) {
        Ok(durable) => Ok(durable),
        Err(fault) => Err(as_read_fault(fault)),
    }
}

// A disk in memory with a copy of these bytes.
fn disk_of(alloc: Global, bytes: &[u8]) -> Result<MemDisk, AllocError>
    ensures seen { IfOk result (λ disk. ⟦<MemDisk as Disk>⟧.seen disk ≡ bytes.now) }
    ensures faults { IfOk result (λ disk. ⟦<MemDisk as Disk>⟧.fault_count disk ≡ 0) }
{
    MemDisk::of(alloc, bytes.to_vec(alloc)?)
}

// A call of a disk in memory fails only if there is no memory to note it. An opening's own faults don't come here.
fn as_read_fault(fault: OpenFault) -> ReadFault
    ensures { result ≡ unread fault }
{
    match fault {
        OpenFault::BadSize => ReadFault::BadSize,
        OpenFault::NoBank => ReadFault::NoBank,
        OpenFault::Corrupt { at } => ReadFault::Corrupt { at },
        _ => ReadFault::Memory,
    }
}
