// A device over a file.
ghost use Rattle.std.specs.Prelude.{◌≡◌, ◌+◌, ◌^◌, ◌<◌, ◌≤◌, ◌++◌, [], ◌∷◌, true, false, ℕ, length, replicate, IfOk, OnOk, OnErr, take};
ghost use Rattle.std.specs.Prelude.{drop};
ghost use Rattle.pf_disk.specs.Calls.{at_rest, after, all_fit, LeftSince};
ghost use Rattle.pf_disk.specs.Disk.{IsImage, IsSynced, AreIn, is_within, with_range, overwritten, Elapses, CountsFault};
ghost use Rattle.pf_disk.specs.Past.{now_counts, now_only};
ghost use Rattle.pf_disk.specs.declared.file.FileFault.TheVariants.{Memory};

use crate::call::overwrite;
use crate::history::History;
use crate::{Disk, DiskFault};
use std::alloc::{AllocError, Global};
use std::fs::File;
use std::os::unix::fs::FileExt;

/// Why a file isn't taken as a device. Nothing was written to it.
#[derive(Clone, Copy, Debug)]
pub enum FileFault {
    /// The file doesn't have the length that it must have.
    WrongLength,
    /// Its length or its bytes couldn't be read, or they couldn't be synced.
    Fault,
    /// Out of memory for its bytes.
    Memory,
}

impl From<AllocError> for FileFault {
    ghost from_gives = { λ _ e. e ≡ Memory };

    fn from(_: AllocError) -> Self {
        FileFault::Memory
    }
}

/// A device over a file of fixed length, by positioned reads and writes; a sync reaches the file's own device.
///
/// The bytes that a read has to give are kept in memory too, and a read that finds others in the file is a fault. No clause
/// can say what a file holds: that its bytes after a crash are as a `Disk` says is a premise, and no promise.
///
/// After a failed write the file may hold any bytes in that range, and after a failed sync the system may have dropped what was to
/// be written, so that the next sync succeeds without it. Then the device is broken: each later call is a fault, and the file isn't touched
/// any more. Only a new device over the file, which reads it again, goes on.
#[derive(Drop)]
pub struct FileDisk {
    file: File,
    size: usize,
    bytes: Vec<u8>,
    fault_count: u64,
    // A write or a sync failed.
    is_broken: bool,
    history: History,
    ghost seen_is: { (after (at_rest (replicate size 0)) history.events).seen ≡ bytes.items },
    ghost size_is: { length bytes.items ≡ size },
    ghost calls_fit: { all_fit size history.events ≡ true },
}

impl FileDisk {
    /// The file as a device. It is read, and synced as by [`Disk::sync`], so that nothing of it is unsynced. It has to be open
    /// for reading and writing, and to have `size` bytes; nobody else writes it. After an `Err` the file is closed.
    pub fn of(alloc: Global, file: File, size: usize) -> Result<FileDisk, FileFault>
        ensures size { IfOk result (λ disk. length (⟦<FileDisk as Disk>⟧.seen disk) ≡ size) }
        ensures synced { IfOk result (λ disk. IsSynced (⟦<FileDisk as Disk>⟧.unsynced disk)) }
        ensures faults { IfOk result (λ disk. ⟦<FileDisk as Disk>⟧.fault_count disk ≡ 0) }
    {
        let Ok(metadata) = file.metadata() else {
            return Err(FileFault::Fault);
        };
        if metadata.len() != size as u64 {
            return Err(FileFault::WrongLength);
        }
        let mut bytes = vec![in alloc; 0u8; size]?;
        if file.read_exact_at(bytes.as_mut_slice(), 0).is_err() {
            return Err(FileFault::Fault);
        }
        let history = found(&bytes);
        let mut disk = FileDisk {
            file,
            size,
            bytes,
            fault_count: 0,
            is_broken: false,
            history,
        };
        if disk.sync().is_err() {
            return Err(FileFault::Fault);
        }
        Ok(disk)
    }
}

// The history of a file that was found with these bytes: as if they had been written, and not yet synced.
fn found(bytes: &[u8]) -> History
    ensures seen { (after (at_rest (replicate (length bytes.now) 0)) result.events).seen ≡ bytes.now }
    ensures fit { all_fit (length bytes.now) result.events ≡ true }
{
    let mut history = History::new();
    history.note(&[0], bytes);
    history
}

impl Disk for FileDisk {
    ghost use Rattle.pf_disk.specs.File.{seen_of, unsynced_of, events_of};

    ghost seen = { λ f. f.bytes.items };

    ghost unsynced = { λ f. (after (at_rest (replicate f.size 0)) f.history.events).unsynced };

    ghost moment = { λ f. length f.history.events };

    ghost left_since = { λ f t c. LeftSince (replicate f.size 0) f.history.events t c };

    ghost fault_count = { λ f. f.fault_count };

    ghost counts_now = { λ f t c le image. now_counts (replicate f.size 0) f.bytes.items f.history.events t c f.seen_is le image };

    ghost only_now = { λ f c left. now_only (replicate f.size 0) f.bytes.items f.history.events c f.seen_is left };

    fn size(&self) -> usize {
        self.size
    }

    fn faults(&self) -> u64 {
        self.fault_count
    }

    fn read_at(&mut self, at: usize, buf: &mut [u8]) -> Result<(), DiskFault>
        requires within { at + length buf.old ≤ length (seen_of self.old) }
        requires few { self.old.fault_count < 2 ^ 63 }
        ensures refused { OnOk result (self.old.is_broken ≡ false) }
        ensures broken { self.new.is_broken ≡ self.old.is_broken }
        ensures read { OnOk result (buf.new ≡ take (length buf.old) (drop at (seen_of self.old))) }
        ensures seen { seen_of self.new ≡ seen_of self.old }
        ensures unsynced { AreIn (unsynced_of self.new) (unsynced_of self.old) }
        ensures still { AreIn (unsynced_of self.old) (unsynced_of self.new) }
        ensures time { Elapses (length (events_of self.old)) (length (events_of self.new))
            (LeftSince (replicate self.old.size 0) (events_of self.old)) (LeftSince (replicate self.new.size 0) (events_of self.new))
            (seen_of self.new) (unsynced_of self.new) }
        ensures faults { CountsFault result self.old.fault_count self.new.fault_count }
    {
        let expected = &self.bytes[at..at + buf.len()];
        let found = !self.is_broken && self.file.read_exact_at(buf, at as u64).is_ok();
        if !found || *buf != *expected {
            self.fault_count += 1;
            return Err(DiskFault);
        }
        Ok(())
    }

    fn write_at(&mut self, at: usize, bytes: &[u8]) -> Result<(), DiskFault>
        requires within { at + length bytes.now ≤ length (seen_of self.old) }
        requires few { self.old.fault_count < 2 ^ 63 }
        ensures refused { OnOk result (self.old.is_broken ≡ false) }
        ensures broken { OnErr result (self.new.is_broken ≡ true) }
        ensures whole { OnOk result (self.new.is_broken ≡ false) }
        ensures written { OnOk result (seen_of self.new ≡ overwritten (seen_of self.old) at bytes.now) }
        ensures unwritten { OnErr result (seen_of self.new ≡ seen_of self.old) }
        ensures elsewhere { IsImage (seen_of self.old) (is_within at (length bytes.now)) (seen_of self.new) }
        ensures unsynced { AreIn (unsynced_of self.new) (with_range at (length bytes.now) (unsynced_of self.old)) }
        ensures still { AreIn (unsynced_of self.old) (unsynced_of self.new) }
        ensures marked { AreIn (is_within at (length bytes.now)) (unsynced_of self.new) }
        ensures time { Elapses (length (events_of self.old)) (length (events_of self.new))
            (LeftSince (replicate self.old.size 0) (events_of self.old)) (LeftSince (replicate self.new.size 0) (events_of self.new))
            (seen_of self.new) (unsynced_of self.new) }
        ensures faults { CountsFault result self.old.fault_count self.new.fault_count }
    {
        if self.is_broken || self.file.write_all_at(bytes, at as u64).is_err() {
            // Some of it may have been written: the range is unsynced, and what a read would find there isn't known.
            self.history.note(&[at], &self.bytes[at..at + bytes.len()]);
            self.is_broken = true;
            self.fault_count += 1;
            return Err(DiskFault);
        }
        self.history.note(&[at], bytes);
        overwrite(&mut self.bytes, at, bytes);
        Ok(())
    }

    fn sync(&mut self) -> Result<(), DiskFault>
        requires few { self.old.fault_count < 2 ^ 63 }
        ensures refused { OnOk result (self.old.is_broken ≡ false) }
        ensures broken { OnErr result (self.new.is_broken ≡ true) }
        ensures whole { OnOk result (self.new.is_broken ≡ false) }
        ensures synced { OnOk result (IsSynced (unsynced_of self.new)) }
        ensures seen { seen_of self.new ≡ seen_of self.old }
        ensures unsynced { AreIn (unsynced_of self.new) (unsynced_of self.old) }
        ensures still { OnErr result (AreIn (unsynced_of self.old) (unsynced_of self.new)) }
        ensures time { Elapses (length (events_of self.old)) (length (events_of self.new))
            (LeftSince (replicate self.old.size 0) (events_of self.old)) (LeftSince (replicate self.new.size 0) (events_of self.new))
            (seen_of self.new) (unsynced_of self.new) }
        ensures faults { CountsFault result self.old.fault_count self.new.fault_count }
    {
        if self.is_broken || self.file.sync_data().is_err() {
            self.is_broken = true;
            self.fault_count += 1;
            return Err(DiskFault);
        }
        self.history.note(&[], &[]);
        Ok(())
    }
}
