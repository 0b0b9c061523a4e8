//! Making a device hold nothing.
ghost use Rattle.std.specs.Prelude.{◌≡◌, ◌↔◌, ◌^◌, ◌<◌, ◌≢◌, false, ℕ, List, length, replicate, slice_index, OnOk, OnErr, IsErrOf};
ghost use Rattle.pf_disk.specs.{Disk.{IsImage, IsSynced}, Runs.MayWrite, declared.image.TheConstants.OPEN_GATE};
ghost use Rattle.pf_snap.specs.{Banks.{IsSize, bank_size, IsOfFormat}, Faults.is_format_fault, declared.header.TheConstants.NEWEST};
ghost use Rattle.pf_core.specs.Durable.Changes.{kept_nothing};
ghost use Rattle.pf_store.specs.{declared.limits.TheConstants.EMPTY_LENGTH, Openings.{generation_of, version_of, LeavesRoom}, Stores.Holds};

use crate::limits::EMPTY_LENGTH;
use pf_disk::Disk;
use pf_snap::FormatFault;
use std::alloc::Global;

/// A snapshot of nothing in the epoch 0.
const EMPTY_SNAPSHOT: [u8; EMPTY_LENGTH] = [0; EMPTY_LENGTH];

/// Makes a device hold nothing but the epoch 0, whatever it held, in at most seven moments of the device. `Err`: the device is as before,
/// or a call of it failed.
pub fn format<D: Disk>(alloc: Global, disk: &mut D) -> Result<(), FormatFault>
    requires few { D.fault_count disk.old < 2 ^ 63 }
    ensures holds { OnOk result ((c : List ℕ) → IsImage (D.seen disk.new) (D.unsynced disk.new) c → Holds c (kept_nothing 0)) }

    // By the first generation, in the newest version.
    ensures first { OnOk result ((c : List ℕ) → IsImage (D.seen disk.new) (D.unsynced disk.new) c
        → (held : Holds c (kept_nothing 0)) → (generation_of c (kept_nothing 0) held ≡ 1) × (version_of c (kept_nothing 0) held ≡ NEWEST)) }

    // What each image holds leaves room for an opening.
    ensures roomy { OnOk result ((c : List ℕ) → IsImage (D.seen disk.new) (D.unsynced disk.new) c → LeavesRoom c) }

    ensures other { OnOk result ((c : List ℕ) → IsImage (D.seen disk.new) (D.unsynced disk.new) c
        → slice_index c (bank_size (length (D.seen disk.old))) ≢ OPEN_GATE) }
    ensures synced { OnOk result (IsSynced (D.unsynced disk.new)) }

    // At each moment an image is as before except for the banks' gates, or both are closed, or it holds a bank of nothing.
    ensures writes { MayWrite D.Disk disk.old disk.new 7 (is_format_fault result)
        (IsOfFormat (D.seen disk.old) (D.unsynced disk.old) (replicate EMPTY_LENGTH 0)) }

    ensures bad_size { IsErrOf result FormatFault.BadSize ↔ ¬ IsSize (length (D.seen disk.old)) }
    ensures refused { OnErr result (is_format_fault result ≡ false → disk.new ≡ disk.old) }
{
    pf_snap::format(alloc, disk, &EMPTY_SNAPSHOT)
}
