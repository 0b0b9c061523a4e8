// The device as its users see it.
ghost use Rattle.std.specs.Prelude.{◌≡◌, ◌⊎◌, ◌+◌, ◌^◌, ◌<◌, ◌≤◌, ℕ, Bool, List, length, take, drop, OnOk, OnErr};
ghost use Rattle.pf_disk.specs.Disk.{IsImage, IsSynced, AreIn, is_within, with_range, overwritten, Elapses, CountsFault};

/// A call of the device failed.
#[derive(Clone, Copy, Debug)]
pub struct DiskFault;

/// A device of fixed size. A place is a byte's number from the device's start, from 0.
///
/// A crash leaves an image: as many bytes as the device has. At an unsynced place the image may have any byte, and at each other place it
/// has the byte that a read gives. From the start of a write on its range may be unsynced. After a sync that succeeds no place is.
///
/// A call takes one moment at most, so a bound on the moments of a function over every device bounds the calls that succeed on a
/// device where each of these is one moment, as it is on `MemDisk`.
///
/// A call fails exactly where it raises the count of faults by one. A caller keeps ranges within the device and stops at 2^63
/// faults.
pub trait Disk {
    /// The bytes that a read gives.
    ghost seen: { Self → List ℕ };

    /// The places where a crash may leave any bytes.
    ghost unsynced: { Self → ℕ → Bool };

    /// The moment, as a number that doesn't fall and that a call raises by one at most.
    ghost moment: { Self → ℕ };

    /// What a crash at some moment from that one on might have left, during a call or between two.
    ghost left_since: { Self → ℕ → List ℕ → Type 0 };

    /// How many calls have failed.
    ghost fault_count: { Self → ℕ };

    /// The device's bytes.
    fn size(&self) -> usize
        ensures { result ≡ length (seen self.now) };

    /// How many calls have failed so far.
    fn faults(&self) -> u64
        ensures { result ≡ fault_count self.now };

    /// Reads as many bytes as the buffer has, from place `at` on. After an `Err` the buffer holds anything.
    fn read_at(&mut self, at: usize, buf: &mut [u8]) -> Result<(), DiskFault>
        requires within { at + length buf.old ≤ length (seen self.old) }
        requires few { fault_count self.old < 2 ^ 63 }
        ensures read { OnOk result (buf.new ≡ take (length buf.old) (drop at (seen self.old))) }
        ensures seen { seen self.new ≡ seen self.old }
        ensures unsynced { AreIn (unsynced self.new) (unsynced self.old) }
        ensures still { AreIn (unsynced self.old) (unsynced self.new) }
        ensures time { Elapses (moment self.old) (moment self.new) (left_since self.old) (left_since self.new)
            (seen self.new) (unsynced self.new) }
        ensures faults { CountsFault result (fault_count self.old) (fault_count self.new) };

    /// Writes these bytes from place `at` on. After an `Err` a read gives what it gave, or the range is unsynced and a read of it
    /// may give any bytes.
    fn write_at(&mut self, at: usize, bytes: &[u8]) -> Result<(), DiskFault>
        requires within { at + length bytes.now ≤ length (seen self.old) }
        requires few { fault_count self.old < 2 ^ 63 }
        ensures written { OnOk result (seen self.new ≡ overwritten (seen self.old) at bytes.now) }
        ensures elsewhere { IsImage (seen self.old) (is_within at (length bytes.now)) (seen self.new) }
        ensures unsynced { AreIn (unsynced self.new) (with_range at (length bytes.now) (unsynced self.old)) }
        ensures still { AreIn (unsynced self.old) (unsynced self.new) }
        ensures marked { OnOk result (AreIn (is_within at (length bytes.now)) (unsynced self.new)) }
        ensures failed { OnErr result ((seen self.new ≡ seen self.old) ⊎ AreIn (is_within at (length bytes.now)) (unsynced self.new)) }
        ensures time { Elapses (moment self.old) (moment self.new) (left_since self.old) (left_since self.new)
            (seen self.new) (unsynced self.new) }
        ensures faults { CountsFault result (fault_count self.old) (fault_count self.new) };

    /// Brings all that was written to where a crash keeps it. After an `Err` what was unsynced still is.
    fn sync(&mut self) -> Result<(), DiskFault>
        requires few { fault_count self.old < 2 ^ 63 }
        ensures synced { OnOk result (IsSynced (unsynced self.new)) }
        ensures seen { seen self.new ≡ seen self.old }
        ensures unsynced { AreIn (unsynced self.new) (unsynced self.old) }
        ensures still { OnErr result (AreIn (unsynced self.old) (unsynced self.new)) }
        ensures time { Elapses (moment self.old) (moment self.new) (left_since self.old) (left_since self.new)
            (seen self.new) (unsynced self.new) }
        ensures faults { CountsFault result (fault_count self.old) (fault_count self.new) };

    /// This moment is one of those since an earlier one.
    ghost counts_now: { (disk : Self) (t : ℕ) (c : List ℕ) → t ≤ moment disk
        → IsImage (seen disk) (unsynced disk) c → left_since disk t c };

    /// Since this moment there is no other.
    ghost only_now: { (disk : Self) (c : List ℕ) → left_since disk (moment disk) c → IsImage (seen disk) (unsynced disk) c };
}
