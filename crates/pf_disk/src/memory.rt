// A device in memory, which keeps its calls.
ghost use Rattle.std.specs.Prelude.{◌≡◌, ◌+◌, ◌^◌, ◌<◌, ◌≤◌, ◌++◌, [], ◌∷◌, true, ℕ, length, map, take, drop, IfOk, OnOk, OnErr, Ok};
ghost use Rattle.pf_disk.specs.{Calls.{at_rest, after, all_fit, LeftSince, reading, writing, syncing}, Kept.event_of};
ghost use Rattle.pf_disk.specs.Disk.{CountsFault, IsImage, IsSynced, AreIn, Elapses, is_within, with_range, overwritten};
ghost use Rattle.pf_disk.specs.Past.{now_counts, now_only};

use crate::call::{Call, overwrite};
use crate::image::{Fill, Replay, filled, replayed};
use crate::{Disk, DiskFault};
use std::alloc::{AllocError, Global};

/// A device in memory, which keeps all its calls, so that a crash during any of them can be looked at. They are numbered
/// from 1. A call that can't be kept for lack of memory is a fault, changes nothing else and has no number.
#[derive(Drop)]
pub struct MemDisk {
    alloc: Global,
    first: Vec<u8>,
    calls: Vec<Call>,
    bytes: Vec<u8>,
    fault_count: u64,
    ghost seen_is: { (after (at_rest first.items) (map event_of calls.items)).seen ≡ bytes.items },
    ghost size_is: { length bytes.items ≡ length first.items },
    ghost calls_fit: { all_fit (length first.items) (map event_of calls.items) ≡ true },
}

impl MemDisk {
    ghost use Rattle.pf_disk.specs.Memory.{first_of, events_of};
    ghost use Rattle.pf_disk.specs.Calls.{counting, state_at, IsImageAt};
    ghost use Rattle.pf_disk.specs.Filled.{FillsAll, IsFilled, GivesItsBytes, Shows};

    /// A device with these bytes, all of them synced, before its first call. `Err`: out of memory.
    pub fn of(alloc: Global, bytes: Vec<u8>) -> Result<Self, AllocError>
        ensures first { IfOk result (λ disk. first_of disk ≡ bytes.items) }
        ensures calls { IfOk result (λ disk. events_of disk ≡ []) }
        ensures seen { IfOk result (λ disk. ⟦<MemDisk as Disk>⟧.seen disk ≡ bytes.items) }
        ensures synced { IfOk result (λ disk. IsSynced (⟦<MemDisk as Disk>⟧.unsynced disk)) }
        ensures faults { IfOk result (λ disk. ⟦<MemDisk as Disk>⟧.fault_count disk ≡ 0) }
    {
        Ok(MemDisk {
            alloc,
            first: bytes.to_vec(alloc)?,
            calls: Vec::new(alloc),
            bytes,
            fault_count: 0,
        })
    }

    /// What a crash during call number `moment` leaves, the unsynced places filled: before the first call for 0, after the
    /// last for a greater number. A fill by bytes has one for each place. `Err`: out of memory.
    pub fn image(&self, alloc: Global, moment: u64, fill: Fill) -> Result<Vec<u8>, AllocError>
        requires { FillsAll fill (length (⟦<MemDisk as Disk>⟧.seen self.now)) }
        ensures filled { IfOk result (λ image. IsFilled fill.entry (state_at (first_of self.now) (events_of self.now) moment) image.items) }
        ensures image { IfOk result (λ image. IsImageAt (first_of self.now) (events_of self.now) moment image.items) }
        ensures each_image { IfOk result (λ image. GivesItsBytes fill.entry
            (IsImageAt (first_of self.now) (events_of self.now) moment) image.items) }
        ensures left { IfOk result (λ image. (t : ℕ) → t < moment → ⟦<MemDisk as Disk>⟧.left_since self.now t image.items) }
    {
        let replay = self.replay(alloc, moment)?;
        let image = filled(alloc, &replay, fill)?;
        Ok(image)
    }

    // The state during call number `moment`.
    fn replay(&self, alloc: Global, moment: u64) -> Result<Replay, AllocError>
        ensures shows { IfOk result (λ replay. Shows replay (state_at (first_of self.now) (events_of self.now) moment)) }
        ensures size { IfOk result (λ replay. length replay.seen.items ≡ length self.now.bytes.items) }
    {
        let count = self.counting(moment);
        let replay = replayed(alloc, &self.first, &self.calls[..count])?;
        Ok(replay)
    }

    // How many calls count during call number `moment`: a sync counts at its end.
    fn counting(&self, moment: u64) -> usize
        ensures within { result ≤ length self.now.calls.items }
        ensures is { take result (events_of self.now) ≡ take (counting (events_of self.now) moment) (events_of self.now) }
    {
        if moment == 0 {
            return 0;
        }
        if moment > self.calls.len() as u64 {
            return self.calls.len();
        }
        let before = (moment - 1) as usize;
        match self.calls[before] {
            Call::Sync => before,
            _ => before + 1,
        }
    }

    /// The number of calls so far.
    pub fn calls(&self) -> u64
        ensures { result ≡ length (events_of self.now) }
    {
        self.calls.len() as u64
    }
}

// Keeps a call, or counts a fault.
fn keep(calls: &mut Vec<Call>, fault_count: &mut u64, call: Call) -> Result<(), DiskFault>
    requires { fault_count.old < 2 ^ 63 }
    ensures kept { OnOk result (map event_of calls.new.items ≡ map event_of calls.old.items ++ event_of call ∷ []) }
    ensures same { OnErr result (map event_of calls.new.items ≡ map event_of calls.old.items) }
    ensures faults { CountsFault result fault_count.old fault_count.new }
{
    if calls.push(call).is_err() {
        *fault_count += 1;
        return Err(DiskFault);
    }
    Ok(())
}

fn write_call(alloc: Global, at: usize, bytes: &[u8]) -> Result<Call, AllocError>
    ensures { IfOk result (λ call. event_of call ≡ writing at bytes.now) }
{
    Ok(Call::Write {
        at,
        bytes: bytes.to_vec(alloc)?,
    })
}

impl Disk for MemDisk {
    ghost use Rattle.pf_disk.specs.Memory.{first_of, events_of, seen_of, unsynced_of};

    ghost seen = { λ m. m.bytes.items };

    ghost unsynced = { λ m. (after (at_rest m.first.items) (map event_of m.calls.items)).unsynced };

    ghost moment = { λ m. length (map event_of m.calls.items) };

    ghost left_since = { λ m t c. LeftSince m.first.items (map event_of m.calls.items) t c };

    ghost fault_count = { λ m. m.fault_count };

    ghost counts_now = { λ m t c le image. now_counts m.first.items m.bytes.items (map event_of m.calls.items) t c m.seen_is le image };

    ghost only_now = { λ m c left. now_only m.first.items m.bytes.items (map event_of m.calls.items) c m.seen_is left };

    fn size(&self) -> usize {
        self.bytes.len()
    }

    fn faults(&self) -> u64 {
        self.fault_count
    }

    fn read_at(&mut self, at: usize, buf: &mut [u8]) -> Result<(), DiskFault>
        requires within { at + length buf.old ≤ length (seen_of self.old) }
        requires few { self.old.fault_count < 2 ^ 63 }
        ensures first { first_of self.new ≡ first_of self.old }
        ensures kept { OnOk result (events_of self.new ≡ events_of self.old ++ reading ∷ []) }
        ensures not_kept { OnErr result (events_of self.new ≡ events_of self.old) }
        ensures untouched { OnErr result (buf.new ≡ buf.old) }
        ensures read { OnOk result (buf.new ≡ take (length buf.old) (drop at (seen_of self.old))) }
        ensures seen { seen_of self.new ≡ seen_of self.old }
        ensures unsynced { AreIn (unsynced_of self.new) (unsynced_of self.old) }
        ensures still { AreIn (unsynced_of self.old) (unsynced_of self.new) }
        ensures time { Elapses (length (events_of self.old)) (length (events_of self.new))
            (LeftSince (first_of self.old) (events_of self.old)) (LeftSince (first_of self.new) (events_of self.new))
            (seen_of self.new) (unsynced_of self.new) }
        ensures faults { CountsFault result self.old.fault_count self.new.fault_count }
    {
        match keep(&mut self.calls, &mut self.fault_count, Call::Read) {
            Err(fault) => Err(fault),
            Ok(()) => {
                buf.copy_from_slice(&self.bytes[at..at + buf.len()]);
                Ok(())
            }
        }
    }

    fn write_at(&mut self, at: usize, bytes: &[u8]) -> Result<(), DiskFault>
        requires within { at + length bytes.now ≤ length (seen_of self.old) }
        requires few { self.old.fault_count < 2 ^ 63 }
        ensures first { first_of self.new ≡ first_of self.old }
        ensures kept { OnOk result (events_of self.new ≡ events_of self.old ++ writing at bytes.now ∷ []) }
        ensures not_kept { OnErr result (events_of self.new ≡ events_of self.old) }
        ensures written { OnOk result (seen_of self.new ≡ overwritten (seen_of self.old) at bytes.now) }
        ensures elsewhere { IsImage (seen_of self.old) (is_within at (length bytes.now)) (seen_of self.new) }
        ensures unsynced { AreIn (unsynced_of self.new) (with_range at (length bytes.now) (unsynced_of self.old)) }
        ensures still { AreIn (unsynced_of self.old) (unsynced_of self.new) }
        ensures marked { OnOk result (AreIn (is_within at (length bytes.now)) (unsynced_of self.new)) }
        ensures unwritten { OnErr result (seen_of self.new ≡ seen_of self.old) }
        ensures time { Elapses (length (events_of self.old)) (length (events_of self.new))
            (LeftSince (first_of self.old) (events_of self.old)) (LeftSince (first_of self.new) (events_of self.new))
            (seen_of self.new) (unsynced_of self.new) }
        ensures faults { CountsFault result self.old.fault_count self.new.fault_count }
    {
        let Ok(call) = write_call(self.alloc, at, bytes) else {
            self.fault_count += 1;
            return Err(DiskFault);
        };
        match keep(&mut self.calls, &mut self.fault_count, call) {
            Err(fault) => Err(fault),
            Ok(()) => {
                overwrite(&mut self.bytes, at, bytes);
                Ok(())
            }
        }
    }

    fn sync(&mut self) -> Result<(), DiskFault>
        requires few { self.old.fault_count < 2 ^ 63 }
        ensures first { first_of self.new ≡ first_of self.old }
        ensures kept { OnOk result (events_of self.new ≡ events_of self.old ++ syncing ∷ []) }
        ensures not_kept { OnErr result (events_of self.new ≡ events_of self.old) }
        ensures synced { OnOk result (IsSynced (unsynced_of self.new)) }
        ensures seen { seen_of self.new ≡ seen_of self.old }
        ensures unsynced { AreIn (unsynced_of self.new) (unsynced_of self.old) }
        ensures still { OnErr result (AreIn (unsynced_of self.old) (unsynced_of self.new)) }
        ensures time { Elapses (length (events_of self.old)) (length (events_of self.new))
            (LeftSince (first_of self.old) (events_of self.old)) (LeftSince (first_of self.new) (events_of self.new))
            (seen_of self.new) (unsynced_of self.new) }
        ensures faults { CountsFault result self.old.fault_count self.new.fault_count }
    {
        match keep(&mut self.calls, &mut self.fault_count, Call::Sync) {
            Err(fault) => Err(fault),
            Ok(()) => Ok(()),
        }
    }
}
