//! Adding a record, to the bank that counts or after a switch to the other one.
ghost use Rattle.std.specs.Prelude.{◌≡◌, ◌↔◌, ◌+◌, ◌^◌, ◌<◌, ◌≤◌, true, false, List, ℕ, length, OnOk, OnErr, IsErrOf, if◌then◌else◌};
ghost use Rattle.pf_disk.specs.Runs.{MayWrite};
ghost use Rattle.pf_journal.specs.Journal.{IsOf};
ghost use Rattle.pf_snap.specs.{Banks.bank_size, Faults.is_switch_fault, Ready.{IsReady, IsTurned}};
ghost use Rattle.pf_store.specs.declared.encoding.recorded.Recorded.{Recorded};
ghost use Rattle.pf_store.specs.{Durables.durable_has_form, Groups.IsRecordOf, Lengths.snapshot_length, Snapshots.IsBankOf, StoreFaults.is_add_fault, StoreKept.HaveKept, Openings.{HoldsAdded, HoldsBy}, Stores.{FollowInTurn, left_by_all, Holds}};
ghost use Rattle.pf_snap.specs.declared.header.TheConstants.{NEWEST};

use crate::snapshots::push_snapshot;
use crate::store::fault::AddFault;
use crate::store::lengths::snapshot_leaves_room;
use pf_core::Durable;
use pf_disk::Disk;
use pf_journal::Record;
use pf_snap::{BANK_HEADER, Banks, NEWEST, NextBank, SwitchFault};
use std::alloc::AllocError;

/// Adds this record, of a group that follows what is kept, in at most ten moments of the device. `here` says whether it is added to the
/// bank that counts, which then has room for it; otherwise the other one is begun first, with a snapshot of what is kept, in the memory of
/// `next`. All memory is taken before the first call of the device.
///
/// The record is in the version of the bank that it is added to: the newest one, if that is the other bank.
///
/// The banks have to be ready and hold what is kept. `Full`: the record isn't for the bank that counts, and has no room after such a
/// snapshot.
pub(crate) fn add_to<D: Disk>(
    banks: &mut Banks<D>,
    next: &mut NextBank,
    durable: &Durable,
    added: &Record,
    here: bool,
) -> Result<(), AddFault>
    requires ready { IsReady D.seen D.unsynced banks.old }
    requires kept { HaveKept D.seen banks.old durable.now }
    requires early { banks.old.generation + 1 < 2 ^ 64 }
    requires few { D.fault_count banks.old.journal.disk < 2 ^ 63 }
    requires made { (payload : List ℕ) × IsOf payload added.now }
    requires room { here ≡ true → banks.old.journal.gate + (length added.now.after_gate.items + 1) ≤ banks.old.journal.end }

    // At each moment an image holds what was kept, or what the record's group leaves of it, by the next generation at the latest.
    ensures writes { MayWrite D.Disk banks.old.journal.disk banks.new.journal.disk 10 (is_add_fault result)
        (HoldsBy (D.seen banks.old.journal.disk) (banks.old.generation + 1)
        (HoldsAdded (λ xs. IsRecordOf (if here then banks.old.version else NEWEST) xs added.now) durable.now)) }

    ensures kept { OnOk result ((xs : List Recorded) → IsRecordOf (if here then banks.old.version else NEWEST) xs added.now → FollowInTurn durable.now xs
        → HaveKept D.seen banks.new (left_by_all durable.now xs)) }
    ensures ready { OnOk result (IsReady D.seen D.unsynced banks.new) }
    ensures full { IsErrOf result AddFault.Full ↔ ((here ≡ false)
        × (bank_size (length (D.seen banks.old.journal.disk)) < BANK_HEADER + snapshot_length durable.now + (length added.now.after_gate.items + 1))) }
    ensures refused { OnErr result (is_add_fault result ≡ false → banks.new ≡ banks.old) }
    ensures generation { banks.new.generation ≤ banks.old.generation + 1 }
    ensures generation_stays { banks.old.generation ≤ banks.new.generation }
    ensures here { OnOk result (here ≡ true → (banks.new.generation ≡ banks.old.generation) × (banks.new.version ≡ banks.old.version)) }
    ensures there { OnOk result (here ≡ false → (banks.new.generation ≡ banks.old.generation + 1) × (banks.new.version ≡ NEWEST)) }
{
    // its gate, and what comes after it
    let needed = 1 + added.after_gate.len();
    if !here && !snapshot_leaves_room(durable, banks.size(), needed) {
        return Err(AddFault::Full);
    }
    if here {
        banks.append_record(added)?;
        return Ok(());
    }
    switch(banks, next, durable)?;
    banks.append_record(added)?;
    Ok(())
}

/// As [`add_to`], for a record that is the same in the version of the bank that counts and in the newest one: it is added to that bank if it
/// has room there.
pub(crate) fn add<D: Disk>(
    banks: &mut Banks<D>,
    next: &mut NextBank,
    durable: &Durable,
    added: &Record,
) -> Result<(), AddFault>
    requires ready { IsReady D.seen D.unsynced banks.old }
    requires kept { HaveKept D.seen banks.old durable.now }
    requires early { banks.old.generation + 1 < 2 ^ 64 }
    requires few { D.fault_count banks.old.journal.disk < 2 ^ 63 }
    requires made { (payload : List ℕ) × IsOf payload added.now }
    ensures writes { MayWrite D.Disk banks.old.journal.disk banks.new.journal.disk 10 (is_add_fault result)
        (HoldsBy (D.seen banks.old.journal.disk) (banks.old.generation + 1)
        (HoldsAdded (λ xs. (version : ℕ) → IsRecordOf version xs added.now) durable.now)) }
    ensures kept { OnOk result ((xs : List Recorded) → ((version : ℕ) → IsRecordOf version xs added.now) → FollowInTurn durable.now xs
        → HaveKept D.seen banks.new (left_by_all durable.now xs)) }
    ensures ready { OnOk result (IsReady D.seen D.unsynced banks.new) }
    ensures full { IsErrOf result AddFault.Full ↔ ((banks.old.journal.end < banks.old.journal.gate + (length added.now.after_gate.items + 1))
        × (bank_size (length (D.seen banks.old.journal.disk)) < BANK_HEADER + snapshot_length durable.now + (length added.now.after_gate.items + 1))) }
    ensures refused { OnErr result (is_add_fault result ≡ false → banks.new ≡ banks.old) }
    ensures generation { banks.new.generation ≤ banks.old.generation + 1 }
    ensures generation_stays { banks.old.generation ≤ banks.new.generation }
    ensures here { OnOk result (banks.old.journal.gate + (length added.now.after_gate.items + 1) ≤ banks.old.journal.end
        → (banks.new.generation ≡ banks.old.generation) × (banks.new.version ≡ banks.old.version)) }
    ensures there { OnOk result (banks.old.journal.end < banks.old.journal.gate + (length added.now.after_gate.items + 1)
        → (banks.new.generation ≡ banks.old.generation + 1) × (banks.new.version ≡ NEWEST)) }
{
    // its gate, and what comes after it
    let needed = 1 + added.after_gate.len();
    let here = needed <= banks.room();
    add_to(banks, next, durable, added, here)
}

// Begins the other bank with a snapshot of what is kept.
fn switch<D: Disk>(
    banks: &mut Banks<D>,
    next: &mut NextBank,
    durable: &Durable,
) -> Result<(), SwitchFault>
    requires ready { IsReady D.seen D.unsynced banks.old }
    requires kept { HaveKept D.seen banks.old durable.now }
    requires fits { BANK_HEADER + snapshot_length durable.now + 1 ≤ bank_size (length (D.seen banks.old.journal.disk)) }
    requires early { banks.old.generation + 1 < 2 ^ 64 }
    requires few { D.fault_count banks.old.journal.disk < 2 ^ 63 }
    ensures writes { MayWrite D.Disk banks.old.journal.disk banks.new.journal.disk 6 (is_switch_fault result)
        (HoldsBy (D.seen banks.old.journal.disk) (banks.old.generation + 1) (λ image. Holds image durable.now)) }
    ensures kept { OnOk result (HaveKept D.seen banks.new durable.now) }
    ensures ready { OnOk result (IsReady D.seen D.unsynced banks.new) }
    ensures turned { OnOk result (IsTurned D.seen banks.old banks.new (snapshot_length durable.now)) }
    ensures same_generation { OnErr result (banks.new.generation ≡ banks.old.generation) }
    ensures refused { OnErr result (is_switch_fault result ≡ false → banks.new ≡ banks.old) }
{
    fill_next(next, banks.generation, durable)?;
    banks.begin(next)?;
    Ok(())
}

// Makes the bank that follows one of this generation, with a snapshot of what is kept.
fn fill_next(next: &mut NextBank, generation: u64, durable: &Durable) -> Result<(), AllocError>
    requires formed { durable_has_form durable.now ≡ true }
    requires fits { BANK_HEADER + snapshot_length durable.now + 1 < 2 ^ 32 }
    requires early { generation + 1 < 2 ^ 64 }
    ensures made { OnOk result (IsBankOf generation next.new durable.now) }
    ensures long { OnOk result (next.new.length ≡ snapshot_length durable.now) }
    ensures all { OnOk result (length next.new.after_gate.items ≡ BANK_HEADER + snapshot_length durable.now) }
{
    let length = durable.byte_length() as usize;
    next.start(NEWEST, generation + 1, length)?;
    push_snapshot(&mut next.after_gate, NEWEST, durable)?;
    next.close()
}
