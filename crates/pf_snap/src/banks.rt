//! Opening a device, adding records to the bank that counts, and switching to the other one.
ghost use Rattle.std.specs.Prelude.{◌≡◌, ◌↔◌, ◌+◌, ◌^◌, ◌<◌, ◌≤◌, ◌++◌, [], ◌∷◌, true, false, List, ℕ, length, is_err, IfOk, IfErr, OnOk, OnErr, IsErrOf};
ghost use Rattle.std.specs.Prelude.{MatchResult, if◌then◌else◌};
ghost use Rattle.pf_disk.specs.{Disk.IsSynced, Runs.{MayWrite, WritesNothing}};
ghost use Rattle.pf_journal.specs.{Faults.is_append_fault, Journal.IsOf, Records.counted, declared.journal.TheConstants.CLOSED_GATE};
ghost use Rattle.pf_snap.specs.Banks.{bank_size, bank_after_gate, Content, with_payload, switched, Holds};
ghost use Rattle.pf_snap.specs.{Ready.{IsReady, IsNext, IsOfAppend, IsOfSwitch, IsSameBank, IsTurned, Keeps}, Looked.{IsFound, content_of}};
ghost use Rattle.pf_snap.specs.Faults.{IsRefused, is_fault, is_switch_fault};
ghost use Rattle.pf_snap.specs.declared.fault.LookFault.TheVariants as looking;

use crate::beginning::begin_bank;
use crate::fault::{LookFault, SwitchFault};
use crate::header::{BANK_HEADER, NEWEST, is_size};
use crate::looking::{Looked, look_synced};
use crate::next_bank::NextBank;
use pf_disk::{Disk, DiskFault};
use pf_journal::{AppendFault, Journal, Record};
use std::alloc::{AllocError, Global};

/// A device with two banks, of which one counts. Places are bytes from the device's start.
#[derive(Drop)]
pub struct Banks<D: Disk> {
    /// The device, and the counting bank's records.
    pub journal: Journal<D>,
    /// The first place of the bank that counts.
    pub at: usize,
    /// The first place of the other bank.
    pub other: usize,
    /// Whether the other bank's gate is open.
    pub other_is_open: bool,
    /// The version of the counting bank's form: 1 to 3.
    pub version: u8,
    /// The counting bank's generation: below 2^63 when it was opened, and raised by one with each switch.
    pub generation: u64,
}

impl<D: Disk> Banks<D> {
    /// Syncs a device, whatever a crash or a fault left on it, and looks at what it holds, in at most five of its moments. If what is
    /// found isn't broken, the banks are ready; otherwise they only serve to give the device back. `Err` gives it back too, with the
    /// cause.
    pub fn open(alloc: Global, disk: D) -> Result<(Banks<D>, Looked), (LookFault, D)>
        requires few { D.fault_count disk < 2 ^ 63 }
        ensures found { IfOk result (λ r. IsFound (D.seen disk) r.1) }
        ensures keeps { IfOk result (λ r. r.1.broken ≡ false → Keeps D.seen r.0 (content_of r.1)) }
        ensures ready { IfOk result (λ r. r.1.broken ≡ false → IsReady D.seen D.unsynced r.0) }
        ensures broken { IfOk result (λ r. r.1.broken ≡ true → (content : Content) → ¬ Holds (D.seen disk) content) }
        ensures refused { IfErr result (λ e. IsRefused e.0 (D.seen disk)) }
        ensures unchanged_at_bad_size { IfErr result (λ e. e.0 ≡ looking.BadSize → e.1 ≡ disk) }

        // It reads as before, and each image at each moment is one from before.
        ensures unwritten { IfOk result (λ r. WritesNothing D.Disk disk r.0.journal.disk 5 false) }
        ensures unwritten_err { IfErr result (λ e. WritesNothing D.Disk disk e.1 5 (is_fault e.0)) }
    {
        if !is_size(disk.size()) {
            return Err((LookFault::BadSize, disk));
        }
        let mut disk = disk;
        match look_synced(alloc, &mut disk) {
            Ok(looked) => Ok((Banks::found_on(disk, &looked), looked)),
            Err(fault) => Err((fault, disk)),
        }
    }

    /// Makes the bank that a switch to this snapshot begins, with all the memory that it needs. `AllocError`: out of memory.
    pub fn make_next(&self, alloc: Global, snapshot: &[u8]) -> Result<NextBank, AllocError>
        requires fits { BANK_HEADER + length snapshot.now + 1 < 2 ^ 32 }
        requires early { self.now.generation + 1 < 2 ^ 64 }
        ensures { IfOk result (λ next. IsNext self.now.generation next snapshot.now) }
    {
        NextBank::of(alloc, NEWEST, self.generation + 1, snapshot)
    }

    /// Begins the other bank with a snapshot and no records, in the newest version and with the next generation, so that it counts. It
    /// takes at most six moments of the device, and four if the other bank's gate is closed. It reads nothing and takes no memory.
    ///
    /// The snapshot has to fit: the bank has a byte left after it. The banks have to be ready, so nothing is unsynced; `Ok` leaves them
    /// ready. After an `Err` they have to be opened again.
    pub fn begin(&mut self, next: &NextBank) -> Result<(), DiskFault>
        requires ready { IsReady D.seen D.unsynced self.old }
        requires long { length next.now.after_gate.items ≡ BANK_HEADER + next.now.length }
        requires fits { BANK_HEADER + next.now.length + 1 ≤ bank_size (length (D.seen self.old.journal.disk)) }
        requires early { self.old.generation + 1 < 2 ^ 64 }
        requires few { D.fault_count self.old.journal.disk < 2 ^ 63 }

        // At each moment of the call an image differs from the read before only in the other bank, and holds what it held, or the new
        // snapshot and no payload; so does the read after it.
        ensures writes { MayWrite D.Disk self.old.journal.disk self.new.journal.disk (if self.old.other_is_open then 6 else 4) (is_err result)
            (IsOfSwitch D.seen self.old next.now.after_gate.items) }

        // After `Ok` the read holds the snapshot, and so does each image, as nothing is unsynced.
        ensures kept { OnOk result ((content : Content) (snapshot : List ℕ) → Keeps D.seen self.old content
            → IsNext self.old.generation next.now snapshot → Keeps D.seen self.new (switched content NEWEST snapshot)) }
        ensures ready { OnOk result (IsReady D.seen D.unsynced self.new) }
        ensures turned { OnOk result (IsTurned D.seen self.old self.new next.now.length) }
        ensures same_generation { OnErr result (self.new.generation ≡ self.old.generation) }
    {
        begin_bank(
            &mut self.journal.disk,
            self.other,
            self.other_is_open,
            &next.after_gate,
        )?;
        let size = self.journal.end - self.at;
        let other = self.at;
        self.at = self.other;
        self.other = other;
        self.other_is_open = true;
        self.version = NEWEST;
        self.generation += 1;
        self.journal.start = self.at + BANK_HEADER + next.length;
        self.journal.gate = self.journal.start;
        self.journal.end = self.at + size;
        Ok(())
    }

    /// Prepares a bank with this snapshot and begins it. After `Memory` all is as before; after a `Fault` the banks must be opened again.
    pub fn switch(&mut self, alloc: Global, snapshot: &[u8]) -> Result<(), SwitchFault>
        requires ready { IsReady D.seen D.unsynced self.old }
        requires fits { BANK_HEADER + length snapshot.now + 1 ≤ bank_size (length (D.seen self.old.journal.disk)) }
        requires early { self.old.generation + 1 < 2 ^ 64 }
        requires few { D.fault_count self.old.journal.disk < 2 ^ 63 }

        // At each moment of the call an image differs from the read before only in the other bank, and holds what it held, or this snapshot
        // and no payload; so does the read after it.
        ensures writes { MayWrite D.Disk self.old.journal.disk self.new.journal.disk (if self.old.other_is_open then 6 else 4)
            (is_switch_fault result) (IsOfSwitch D.seen self.old (bank_after_gate NEWEST (self.old.generation + 1) snapshot.now)) }

        // After `Ok` the read holds the snapshot, and so does each image, as nothing is unsynced.
        ensures kept { OnOk result ((content : Content) → Keeps D.seen self.old content
            → Keeps D.seen self.new (switched content NEWEST snapshot.now)) }
        ensures ready { OnOk result (IsReady D.seen D.unsynced self.new) }
        ensures turned { OnOk result (IsTurned D.seen self.old self.new (length snapshot.now)) }
        ensures same_generation { OnErr result (self.new.generation ≡ self.old.generation) }
        ensures refused { OnErr result (is_switch_fault result ≡ false → self.new ≡ self.old) }
    {
        let next = self.make_next(alloc, snapshot)?;
        match self.begin(&next) {
            Ok(()) => Ok(()),
            Err(_) => Err(SwitchFault::Fault),
        }
    }

    /// Adds a record, in at most four moments of the device, as `Journal::append` does: the header, the snapshot and the other bank stay
    /// as they are.
    ///
    /// The banks have to be ready; `Ok`, `NoRoom` and `Memory` leave them ready. After a `Fault` they have to be opened again.
    pub fn append(&mut self, alloc: Global, payload: &[u8]) -> Result<(), AppendFault>
        requires ready { IsReady D.seen D.unsynced self.old }
        requires few { D.fault_count self.old.journal.disk < 2 ^ 63 }

        // At each moment of the call an image differs from the read before only from the gate to the next one, and holds what it held, or
        // that with this payload; so does the read after it.
        ensures writes { MayWrite D.Disk self.old.journal.disk self.new.journal.disk 4 (is_append_fault result)
            (IsOfAppend D.seen self.old (counted payload.now ++ CLOSED_GATE ∷ [])) }

        // After `Ok` the read has the payload, and so has each image, as nothing is unsynced.
        ensures kept { OnOk result ((content : Content) → Keeps D.seen self.old content
            → Keeps D.seen self.new (with_payload content payload.now)) }
        ensures ready { OnOk result (IsReady D.seen D.unsynced self.new) }

        ensures same_bank { IsSameBank self.old self.new }
        ensures gate { MatchResult result (λ _. self.new.journal.gate ≡ self.old.journal.gate + 5 + length payload.now)
            (λ _. self.new.journal.gate ≡ self.old.journal.gate) }
        ensures no_room { IsErrOf result AppendFault.NoRoom ↔ (self.old.journal.end < self.old.journal.gate + 6 + length payload.now) }
        ensures refused { OnErr result (is_append_fault result ≡ false → self.new ≡ self.old) }
    {
        self.journal.append(alloc, payload)
    }

    /// Adds a record that is already in memory, in at most four moments of the device, as `Journal::append_record` does: the header, the
    /// snapshot and the other bank stay as they are.
    ///
    /// The record and the closed gate after it have to fit. The banks have to be ready; `Ok` leaves them ready. After an `Err` they have
    /// to be opened again.
    pub fn append_record(&mut self, next: &Record) -> Result<(), DiskFault>
        requires ready { IsReady D.seen D.unsynced self.old }
        requires room { self.old.journal.gate + 1 + length next.now.after_gate.items ≤ self.old.journal.end }
        requires some { 0 < length next.now.after_gate.items }
        requires few { D.fault_count self.old.journal.disk < 2 ^ 63 }

        // At each moment of the call an image differs from the read before only from the gate to the next one, and holds what it held, or
        // that with the record's payload; so does the read after it.
        ensures writes { MayWrite D.Disk self.old.journal.disk self.new.journal.disk 4 (is_err result)
            (IsOfAppend D.seen self.old next.now.after_gate.items) }

        // After `Ok` the read has the payload, and so has each image, as nothing is unsynced.
        ensures kept { OnOk result ((content : Content) (payload : List ℕ) → Keeps D.seen self.old content → IsOf payload next.now
            → Keeps D.seen self.new (with_payload content payload)) }
        ensures ready { OnOk result (IsReady D.seen D.unsynced self.new) }

        ensures same_bank { IsSameBank self.old self.new }
        ensures gate { MatchResult result (λ _. self.new.journal.gate ≡ self.old.journal.gate + length next.now.after_gate.items)
            (λ _. self.new.journal.gate ≡ self.old.journal.gate) }
    {
        self.journal.append_record(next)
    }

    // The banks that a look found on this device. They are usable only if it holds something.
    fn found_on(disk: D, looked: &Looked) -> Banks<D>
        requires found { IsFound (D.seen disk) looked.now }
        ensures keeps { looked.now.broken ≡ false → Keeps D.seen result (content_of looked.now) }
        ensures ready { IsSynced (D.unsynced disk) → looked.now.broken ≡ false → IsReady D.seen D.unsynced result }
        ensures disk { result.journal.disk ≡ disk }
    {
        let size = disk.size() / 2;
        let journal = Journal {
            disk,
            start: looked.start,
            gate: looked.gate,
            end: looked.at + size,
        };
        Banks {
            journal,
            at: looked.at,
            other: looked.other,
            other_is_open: looked.other_is_open,
            version: looked.version,
            generation: looked.generation,
        }
    }

    /// How many bytes the counting bank has from the closed gate on. A record needs six plus its payload's, its next gate included.
    pub fn room(&self) -> usize
        requires { self.now.journal.gate ≤ self.now.journal.end }
        ensures { self.now.journal.gate + result ≡ self.now.journal.end }
    {
        self.journal.end - self.journal.gate
    }

    /// The size of each bank, in bytes.
    pub fn size(&self) -> usize
        requires { self.now.at ≤ self.now.journal.end }
        ensures { self.now.at + result ≡ self.now.journal.end }
    {
        self.journal.end - self.at
    }

    /// The version of the bank that counts.
    pub fn version(&self) -> u8
        ensures { result ≡ self.now.version }
    {
        self.version
    }

    /// Gives the device back, as it is.
    pub fn into_disk(self) -> D
        ensures { result ≡ self.journal.disk }
    {
        let Banks {
            journal,
            at: _,
            other: _,
            other_is_open: _,
            version: _,
            generation: _,
        } = self;
        let Journal {
            disk,
            start: _,
            gate: _,
            end: _,
        } = journal;
        disk
    }
}
