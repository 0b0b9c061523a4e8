// Images of a crash, from the calls that were kept.
ghost use Rattle.std.specs.Prelude.{◌≡◌, ◌+◌, ◌-◌, ◌^◌, ◌<◌, ◌≤◌, ◌||◌, Bool, true, false, List, ℕ, length, map, IfOk, OnOk, if◌then◌else◌};
ghost use Rattle.std.specs.Prelude.{slice_index, slice_index_or};
ghost use Rattle.pf_disk.specs.{Disk.{overwritten, is_within}, Calls.{State, at_rest, after_event, after, fits_in, all_fit}, Kept.event_of};
ghost use Rattle.pf_disk.specs.Filled.{fill_byte, FillsAll, IsFilled, Shows};

use crate::call::{Call, overwrite};
use std::alloc::{AllocError, Global};

/// The byte that opens a gate of the layers above. No other byte does.
pub const OPEN_GATE: u8 = 0xA5;

/// What a crash leaves at the unsynced places.
#[derive(Clone, Copy)]
pub enum Fill<'a> {
    /// The bytes of the last sync.
    Old,
    /// The bytes that a read gives.
    New,
    /// 00.
    Zeros,
    /// The byte of an open gate.
    Open,
    /// The bytes that a read gives, with all bits inverted.
    Inverted,
    /// These bytes, one for each place of the device.
    Bytes(&'a [u8]),
}

// A device's state after some of its calls.
#[derive(Drop)]
pub(crate) struct Replay {
    seen: Vec<u8>,
    kept: Vec<u8>,
    unsynced: Vec<bool>,
}

impl Replay {
    fn new(alloc: Global, bytes: &[u8]) -> Result<Replay, AllocError>
        ensures { IfOk result (λ replay. Shows replay (at_rest bytes.now)) }
    {
        Ok(Replay {
            seen: bytes.to_vec(alloc)?,
            kept: bytes.to_vec(alloc)?,
            unsynced: vec![in alloc; false; bytes.len()]?,
        })
    }

    fn apply(&mut self, call: &Call)
        requires { (s : State) × Shows self.old s × (fits_in (length s.seen) (event_of call.now) ≡ true) }
        ensures { (s : State) → Shows self.old s → fits_in (length s.seen) (event_of call.now) ≡ true
            → Shows self.new (after_event s (event_of call.now)) }
    {
        match call {
            Call::Read => {}
            Call::Write { at, bytes } => {
                overwrite(&mut self.seen, *at, bytes);
                mark(&mut self.unsynced, *at, bytes.len());
            }
            Call::Sync => {
                self.kept.copy_from_slice(&self.seen);
                self.unsynced.fill(false);
            }
        }
    }
}

fn mark(marks: &mut Vec<bool>, at: usize, n: usize)
    requires { at + n ≤ length marks.old.items }
    ensures len { length marks.new.items ≡ length marks.old.items }
    ensures each { (i : ℕ) → i < length marks.old.items
        → slice_index_or marks.new.items i false ≡ (slice_index_or marks.old.items i false || is_within at n i) }
{
    for i in at..at + n {
        marks[i] = true;
    }
}

// The state after these calls.
pub(crate) fn replayed(alloc: Global, first: &[u8], calls: &[Call]) -> Result<Replay, AllocError>
    requires { all_fit (length first.now) (map event_of calls.now) ≡ true }
    ensures { IfOk result (λ replay. Shows replay (after (at_rest first.now) (map event_of calls.now))) }
{
    let mut replay = Replay::new(alloc, first)?;
    for call in calls {
        replay.apply(call);
    }
    Ok(replay)
}

fn byte_of(fill: Fill, at: usize, kept: u8, seen: u8) -> u8
    requires { (size : ℕ) × (at < size) × FillsAll fill size }
    ensures { result ≡ fill_byte fill.entry at kept seen }
{
    match fill {
        Fill::Old => kept,
        Fill::New => seen,
        Fill::Zeros => 0,
        Fill::Open => OPEN_GATE,
        Fill::Inverted => 255 - seen,
        Fill::Bytes(bytes) => bytes[at],
    }
}

// The image with its unsynced places filled.
pub(crate) fn filled(alloc: Global, replay: &Replay, fill: Fill) -> Result<Vec<u8>, AllocError>
    requires fills { FillsAll fill (length replay.now.seen.items) }
    requires shows { (s : State) × Shows replay.now s }
    ensures { IfOk result (λ image. (s : State) → Shows replay.now s → IsFilled fill.entry s image.items) }
{
    let mut image = Vec::new(alloc);
    for i in 0..replay.seen.len() {
        let seen = replay.seen[i];
        if replay.unsynced[i] {
            image.push(byte_of(fill, i, replay.kept[i], seen))?;
        } else {
            image.push(seen)?;
        }
    }
    Ok(image)
}
