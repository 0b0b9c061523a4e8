// A write and the sync after it, as one step: what the layers above are made of.
ghost use Rattle.std.specs.Prelude.{◌≡◌, ◌+◌, ◌^◌, ◌<◌, ◌≤◌, length, is_err, OnOk};
ghost use Rattle.pf_disk.specs.{Disk.{IsImage, IsSynced, is_within, overwritten}, Runs.MayWrite};

use crate::{Disk, DiskFault};

/// Writes these bytes from place `at` on and syncs, on a device with nothing unsynced, in two moments at most. At each of them
/// an image is as the read before, but for the range. After an `Err` the range may read as any bytes, and may be unsynced.
pub fn write_synced<D: Disk>(disk: &mut D, at: usize, bytes: &[u8]) -> Result<(), DiskFault>
    requires within { at + length bytes.now ≤ length (D.seen disk.old) }
    requires synced { IsSynced (D.unsynced disk.old) }
    requires few { D.fault_count disk.old < 2 ^ 63 }
    ensures written { OnOk result (D.seen disk.new ≡ overwritten (D.seen disk.old) at bytes.now) }
    ensures synced { OnOk result (IsSynced (D.unsynced disk.new)) }
    ensures writes { MayWrite D.Disk disk.old disk.new 2 (is_err result) (IsImage (D.seen disk.old) (is_within at (length bytes.now))) }
{
    disk.write_at(at, bytes)?;
    disk.sync()
}
