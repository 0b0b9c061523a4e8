//! Disks that hold nothing, opened.
ghost use Rattle.std.specs.Prelude.{◌≡◌, ◌<◌, ◌^◌, length, IfErr, IfOk};
ghost use Rattle.pf_core.specs.{Durable.Changes.kept_nothing, Worlds.raised};
ghost use Rattle.pf_store.specs.Banks.{IsSize, bank_size};
ghost use Rattle.pfd.specs.Program.{Hinders};

use pf_book::{MemDisk, Opening};
use pf_disk::Disk;
use pf_store::format;
use pfd_files::{Fault, is_size};
use std::alloc::Global;

/// Makes a disk hold nothing, whatever it held, and opens it. `Err` says what prevented that, and the disk is dropped.
pub fn open_fresh<D: Disk + Drop>(alloc: Global, mut disk: D) -> Result<Opening<D>, Fault>
    requires few { D.fault_count disk < 2 ^ 63 }
    ensures size { IfOk result (λ _. IsSize (length (D.seen disk))) }
    ensures given { IfOk result (λ o. o.given ≡ raised (kept_nothing 0)) }
    ensures half { IfOk result (λ o. o.size ≡ bank_size (length (D.seen disk))) }
    ensures hindered { IfErr result (λ fault. Hinders (length (D.seen disk)) fault) }
{
    if !is_size(disk.size()) {
        return Err(Fault::BadSize);
    }
    format(alloc, &mut disk)?;
    match Opening::open(alloc, disk) {
        Ok(opening) => Ok(opening),
        Err((fault, _disk)) => Err(Fault::from(fault)),
    }
}

/// A fresh disk in memory of so many bytes, opened.
pub(crate) fn open_memory(alloc: Global, size: usize) -> Result<Opening<MemDisk>, Fault>
    ensures size { IfOk result (λ _. IsSize size) }
    ensures given { IfOk result (λ o. o.given ≡ raised (kept_nothing 0)) }
    ensures half { IfOk result (λ o. o.size ≡ bank_size size) }
    ensures hindered { IfErr result (λ fault. Hinders size fault) }
{
    if !is_size(size) {
        return Err(Fault::BadSize);
    }
    let Ok(bytes) = Vec::from_elem(alloc, 0, size) else {
        return Err(Fault::Memory);
    };
    let Ok(disk) = MemDisk::of(alloc, bytes) else {
        return Err(Fault::Memory);
    };
    open_fresh(alloc, disk)
}
