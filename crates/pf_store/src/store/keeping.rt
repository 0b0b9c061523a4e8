//! A store over a device: opening it, and saving changes.
ghost use Rattle.std.specs.List.{list_all};
ghost use Rattle.std.specs.Prelude.{◌≡◌, ◌⊎◌, ◌↔◌, ◌+◌, ◌^◌, ◌<◌, ◌≤◌, true, false, ℕ, List, [], ◌∷◌, length, map, IfOk, IfErr, IsTrue, OnOk, OnErr, IsErrOf, Ok, if◌then◌else◌};
ghost use Rattle.pf_disk.specs.{Disk.{EachMoment, IsImage}, Runs.MayWrite};
ghost use Rattle.pf_snap.specs.{Banks.bank_size, Ready.IsReady};
ghost use Rattle.pf_core.specs.{Durable.Changes.PlainDurable, Laws.Durable.IsWithin, Worlds.{last_epoch, raised}};
ghost use Rattle.pf_store.specs.declared.store.fault.SaveFault.TheVariants as saving;
ghost use Rattle.pf_store.specs.declared.store.fault.OpenFault.TheVariants as opening;
ghost use Rattle.pf_snap.specs.declared.header.TheConstants.{NEWEST};
ghost use Rattle.pf_store.specs.declared.limits.TheConstants.{AROUND, OPENING_RECORD};
ghost use Rattle.pf_store.specs.declared.encoding.recorded.Recorded.TheVariants as recorded;
ghost use Rattle.pf_store.specs.{Groups.{allows_group, can_be_wanted, is_group, made_all, IsRecordOf}, Lengths.payload_length, Stores.{FollowInTurn, left_by_all, Holds, HoldsEither, FindsRoom, HasRoom}, StoreKept.{Stands, HaveKept, device_of}, StoreFaults.{is_save_fault, TellsRoom, is_fault, is_opening_fault}, Openings.{HasRoomHere, HoldsBy, IsUnopened, IsFull, IsOfOpening, IsOfSave, IsNoLaterThan, generation_of, version_of}};

use crate::encoding::{AsChange, record_group, record_opening};
use crate::store::adding::{add, add_to};
use crate::store::fault::{AddFault, OpenFault, SaveFault};
use crate::store::lengths::{find_room, goes_here};
use crate::store::replaying::replay;
use pf_core::Durable;
use pf_disk::Disk;
use pf_journal::Record;
use pf_snap::{Banks, NEWEST, NextBank};
use std::alloc::Global;
use std::marker::Model;

/// A device that holds what is kept. The store owns it, and `into_disk` gives it back. Contracts see a store as a `PlainStore`.
#[derive(Drop)]
pub struct Store<D: Disk> {
    pub(crate) banks: Banks<D>,
    // where a switch makes the next bank; its memory is kept, since fresh pages for a snapshot cost as much as half of its bytes
    pub(crate) next: NextBank,
    // whether a call of the device failed in a save
    pub(crate) halted: bool,
}

impl<D: Disk> Model for Store<D> {
    ghost use Rattle.std.specs.Prelude.{◌≡◌, false};
    ghost use Rattle.pf_store.specs.StoreKept.{PlainStore, store_with, IsStore};

    ghost Value = { PlainStore D };

    ghost view = { λ s. store_with D.seen s.banks s.halted };

    ghost invariant = { λ s. s.halted ≡ false → IsStore D.seen D.unsynced D.fault_count s.banks };
}

impl<D: Disk> Store<D> {
    /// Whether changes that leave `after` find room as one group. They don't if the store is halted. It takes no memory.
    ///
    /// For 1 to 64 changes that commands can want the answer is exactly whether the payload of their record has room.
    pub fn has_room<C: AsChange>(&self, before: &Durable, changes: &[C], after: &Durable) -> bool
        ensures found { IsTrue result ↔ ((self.now.halted ≡ false)
            × FindsRoom self.now.size before.now after.now (map C.as_plain changes.now)) }
        ensures exact { is_group changes.now ≡ true → list_all can_be_wanted (map C.as_plain changes.now) ≡ true
            → IsTrue result ↔ ((self.now.halted ≡ false)
            × HasRoom self.now.size before.now after.now (payload_length (made_all (map C.as_plain changes.now)))) }
    {
        !self.halted && find_room(before, changes, after, self.banks.size())
    }

    /// Saves 1 to 64 changes in one record, in at most ten moments of the device. After `Ok` a crash keeps them all; before that it keeps
    /// all of them or none.
    ///
    /// Unless it is halted, the store has to stand for `before`; each change has to fit what those before it leave, and `after` has to be
    /// what all of them leave. If their record has no room in the bank that counts, or its version doesn't allow them, the other one
    /// is begun first, in the newest version, with a snapshot of `before`. `Full` comes exactly if they have no bytes as one group, if a
    /// bank has no room for their record after a snapshot of `before`, or if a bank has fewer than 64 bytes left after a snapshot of
    /// `after`, in the lengths of the newest version. So `Memory` comes only if they find room.
    pub fn save<C: AsChange>(
        &mut self,
        alloc: Global,
        before: &Durable,
        changes: &[C],
        after: &Durable,
    ) -> Result<(), SaveFault>
        requires stands { self.old.halted ≡ false → Stands D.seen D.unsynced self.old before.now }
        requires fit { FollowInTurn before.now (made_all (map C.as_plain changes.now)) }
        requires leads { after.now ≡ left_by_all before.now (made_all (map C.as_plain changes.now)) }
        requires early { self.old.halted ≡ false → self.old.generation + 1 < 2 ^ 64 }

        // Unless the store is halted, at each moment an image holds what was kept before all of them or what is kept after all of them, by a
        // generation no later than the next one. If what the device held left room for an opening, so does what each image holds.
        ensures writes { MayWrite D.Disk self.old.disk self.new.disk 10 (is_save_fault result) (λ image. self.old.halted ≡ false
            → IsOfSave (D.seen self.old.disk) (self.old.generation + 1) before.now after.now image) }

        // After `Ok` each image holds what is kept after them, and the store stands for it.
        ensures images { OnOk result ((c : List ℕ) → IsImage (D.seen self.new.disk) (D.unsynced self.new.disk) c → Holds c after.now) }
        ensures stands { OnOk result (Stands D.seen D.unsynced self.new after.now) }
        ensures goes_on { OnOk result (self.new.halted ≡ false) }

        // After a fault each later save is halted.
        ensures halted { IsErrOf result saving.Halted ↔ (self.old.halted ≡ true) }
        ensures halts { IsErrOf result saving.Fault → self.new.halted ≡ true }

        ensures room { TellsRoom result (FindsRoom self.old.size before.now after.now (map C.as_plain changes.now)) }
        ensures unchanged { OnErr result ((IsErrOf result saving.Fault → ⊥) → self.new ≡ self.old) }
        ensures generation { self.new.generation ≤ self.old.generation + 1 }
        ensures generation_stays { self.old.generation ≤ self.new.generation }

        // It switches exactly if the version of the bank that counts doesn't allow them, or their record has no room there.
        ensures here { OnOk result (allows_group self.old.version (made_all (map C.as_plain changes.now)) ≡ true
            → payload_length (made_all (map C.as_plain changes.now)) + AROUND ≤ self.old.room
            → (self.new.generation ≡ self.old.generation) × (self.new.version ≡ self.old.version)) }
        ensures there { OnOk result ((allows_group self.old.version (made_all (map C.as_plain changes.now)) ≡ false)
            ⊎ (self.old.room < payload_length (made_all (map C.as_plain changes.now)) + AROUND)
            → (self.new.generation ≡ self.old.generation + 1) × (self.new.version ≡ NEWEST)) }

        ensures size { self.new.size ≡ self.old.size }
    {
        if self.halted {
            return Err(SaveFault::Halted);
        }
        if !self.has_room(before, changes, after) {
            return Err(SaveFault::Full);
        }
        let here = goes_here(changes, self.banks.version, self.banks.room());
        let version = version_for(here, self.banks.version);
        let record = match record_group(alloc, version, changes) {
            Ok(record) => record,
            Err(_) => return Err(SaveFault::Memory),
        };
        match add_to(&mut self.banks, &mut self.next, before, &record, here) {
            Ok(()) => Ok(()),
            Err(AddFault::Memory) => Err(SaveFault::Memory),
            Err(AddFault::Full) => Err(SaveFault::Full),
            Err(AddFault::Fault) => {
                self.halted = true;
                Err(SaveFault::Fault)
            }
        }
    }

    /// Opens a device, whatever a crash or a fault left on it, in at most fifteen moments of the device. What was read gets the next epoch,
    /// which is on the device before this returns: by one more record, after a switch to the other bank if it has no room. `Err` gives the
    /// device back.
    pub fn open(alloc: Global, disk: D) -> Result<(Durable, Store<D>), (OpenFault, D)>
        requires few { D.fault_count disk < 2 ^ 63 }

        // What the device held, with the next epoch: the store stands for it, and each image holds it.
        ensures opened { IfOk result (λ r. (d : PlainDurable) × (held : Holds (D.seen disk) d) × (r.0 ≡ raised d) × (d.epoch < last_epoch)
            × (r.1.generation ≤ generation_of (D.seen disk) d held + 1) × (generation_of (D.seen disk) d held < 2 ^ 63)) }
        ensures stands { IfOk result (λ r. Stands D.seen D.unsynced r.1 r.0) }
        ensures images { IfOk result (λ r. (c : List ℕ) → IsImage (D.seen r.1.disk) (D.unsynced r.1.disk) c → Holds c r.0) }
        ensures fresh { IfOk result (λ r. r.1.halted ≡ false) }

        // It switches to the other bank, and so to the newest version, exactly if its record has no room after the others.
        ensures here { IfOk result (λ r. (d : PlainDurable) (held : Holds (D.seen disk) d) → HasRoomHere (D.seen disk) d held
            → (r.1.generation ≡ generation_of (D.seen disk) d held) × (r.1.version ≡ version_of (D.seen disk) d held)) }
        ensures there { IfOk result (λ r. (d : PlainDurable) (held : Holds (D.seen disk) d) → ¬ HasRoomHere (D.seen disk) d held
            → (r.1.generation ≡ generation_of (D.seen disk) d held + 1) × (r.1.version ≡ NEWEST)) }

        // The generation is the one that was found, which is below 2^63, or the next one.
        ensures early { IfOk result (λ r. r.1.generation ≤ 2 ^ 63) }
        ensures generations { IfOk result (λ r. (c : List ℕ) → IsImage (D.seen r.1.disk) (D.unsynced r.1.disk) c
            → IsNoLaterThan r.1.generation c) }

        ensures within { IfOk result (λ r. IsWithin r.0) }
        ensures room { IfOk result (λ r. (d : PlainDurable) → ¬ IsFull (D.seen disk) d) }

        // At each moment an image is one from the start, or holds what was read, its epoch perhaps one greater: by the generation that was
        // found or the next one, and with room for another opening if there was room.
        ensures writes { MayWrite D.Disk disk (device_of result) 15 (is_opening_fault result) (IsOfOpening (D.seen disk) (D.unsynced disk)) }

        ensures refused { IfErr result (λ e. IsUnopened e.0 (D.seen disk)) }
        ensures untouched { IfErr result (λ e. is_fault e.0 ≡ false → (D.seen e.1 ≡ D.seen disk)
            × EachMoment D.moment D.left_since disk e.1 (IsImage (D.seen disk) (D.unsynced disk))) }
        ensures unchanged_at_bad_size { IfErr result (λ e. e.0 ≡ opening.BadSize → e.1 ≡ disk) }
        ensures size { IfOk result (λ r. r.1.size ≡ bank_size (length (D.seen disk))) }
    {
        match Banks::open(alloc, disk) {
            Ok((banks, looked)) => match replay(alloc, &looked) {
                Ok(durable) => raise_on(alloc, banks, NextBank::new(alloc), &durable),
                Err(fault) => Err((fault, banks.into_disk())),
            },
            Err((fault, disk)) => Err((fault.into(), disk)),
        }
    }

    /// The device.
    pub fn disk(&self) -> &D
        ensures { result.now ≡ self.now.disk }
    {
        &self.banks.journal.disk
    }

    /// Gives the device back, as it is.
    pub fn into_disk(self) -> D
        ensures { result ≡ self.disk }
    {
        let Store {
            banks,
            next: _,
            halted: _,
        } = self;
        banks.into_disk()
    }
}

/// Gives what the banks hold the next epoch, by one more record. A switch makes the next bank in the memory of `next`. `Err` gives the device
/// back.
pub(crate) fn raise_on<D: Disk>(
    alloc: Global,
    banks: Banks<D>,
    next: NextBank,
    durable: &Durable,
) -> Result<(Durable, Store<D>), (OpenFault, D)>
    requires ready { IsReady D.seen D.unsynced banks }
    requires kept { HaveKept D.seen banks durable.now }
    requires early { banks.generation < 2 ^ 63 }
    requires few { D.fault_count banks.journal.disk < 2 ^ 63 }
    ensures raised { IfOk result (λ r. (r.0 ≡ raised durable.now) × (durable.now.epoch < last_epoch)) }
    ensures room { IfOk result (λ r. (d : PlainDurable) → ¬ IsFull (D.seen banks.journal.disk) d) }
    ensures stands { IfOk result (λ r. Stands D.seen D.unsynced r.1 r.0) }
    ensures fresh { IfOk result (λ r. r.1.halted ≡ false) }
    ensures generation { IfOk result (λ r. r.1.generation ≤ banks.generation + 1) }
    ensures here { IfOk result (λ r. (d : PlainDurable) (held : Holds (D.seen banks.journal.disk) d)
        → HasRoomHere (D.seen banks.journal.disk) d held → (r.1.generation ≡ generation_of (D.seen banks.journal.disk) d held)
        × (r.1.version ≡ version_of (D.seen banks.journal.disk) d held)) }
    ensures there { IfOk result (λ r. (d : PlainDurable) (held : Holds (D.seen banks.journal.disk) d)
        → ¬ HasRoomHere (D.seen banks.journal.disk) d held → (r.1.generation ≡ generation_of (D.seen banks.journal.disk) d held + 1)
        × (r.1.version ≡ NEWEST)) }
    ensures generations { IfOk result (λ r. (c : List ℕ) → IsImage (D.seen r.1.disk) (D.unsynced r.1.disk) c
        → IsNoLaterThan r.1.generation c) }
    ensures writes { MayWrite D.Disk banks.journal.disk (device_of result) 10 (is_opening_fault result)
        (HoldsBy (D.seen banks.journal.disk) (banks.generation + 1) (HoldsEither durable.now (raised durable.now))) }
    ensures refused { IfErr result (λ e. IsUnopened e.0 (D.seen banks.journal.disk)) }
    ensures untouched { IfErr result (λ e. is_fault e.0 ≡ false → e.1 ≡ banks.journal.disk) }
    ensures not_size { IfErr result (λ e. e.0 ≡ opening.BadSize → ⊥) }
    ensures size { IfOk result (λ r. r.1.size ≡ bank_size (length (D.seen banks.journal.disk))) }
{
    let (raised, record) = match raise(alloc, durable) {
        Ok(raised) => raised,
        Err(fault) => return Err((fault, banks.into_disk())),
    };
    let mut banks = banks;
    let mut next = next;
    match add(&mut banks, &mut next, durable, &record) {
        Ok(()) => Ok((
            raised,
            Store {
                banks,
                next,
                halted: false,
            },
        )),
        Err(fault) => Err((fault.into(), banks.into_disk())),
    }
}

// The version that a record is written in: that of the bank that counts if it is added there, else the newest, in which the other is begun.
fn version_for(here: bool, own: u8) -> u8
    ensures { result ≡ if here then own else NEWEST }
{
    if here { own } else { NEWEST }
}

// What is kept in the next epoch, and the record of that opening.
fn raise(alloc: Global, durable: &Durable) -> Result<(Durable, Record), OpenFault>
    ensures raised { IfOk result (λ r. r.0 ≡ raised durable.now) }
    ensures made { IfOk result (λ r. (version : ℕ) → IsRecordOf version (recorded.Opens (durable.now.epoch + 1) ∷ []) r.1) }
    ensures long { IfOk result (λ r. length r.1.after_gate.items + 1 ≡ OPENING_RECORD) }
    ensures next { IfOk result (λ r. durable.now.epoch < last_epoch) }
    ensures refused { IfErr result (λ e. ((e ≡ opening.Memory) × (durable.now.epoch < last_epoch))
        ⊎ ((e ≡ opening.EpochsExhausted) × (durable.now.epoch ≡ last_epoch))) }
{
    let Some(epoch) = durable.epoch().checked_add(1) else {
        return Err(OpenFault::EpochsExhausted);
    };
    let raised = durable.in_epoch(epoch)?;
    let record = record_opening(alloc, epoch)?;
    Ok((raised, record))
}
