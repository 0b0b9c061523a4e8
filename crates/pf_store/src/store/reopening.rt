//! Opening the device of a store again, by what is kept in memory.
ghost use Rattle.std.specs.Prelude.{◌≡◌, ◌↔◌, ◌+◌, ◌^◌, ◌<◌, ◌≤◌, false, ℕ, List, length, IsTrue, IfOk, IfErr};
ghost use Rattle.pf_disk.specs.{Disk.{EachMoment, IsImage}, Runs.MayWrite};
ghost use Rattle.pf_snap.specs.Banks.{bank_size};
ghost use Rattle.pf_snap.specs.declared.header.TheConstants.{NEWEST};
ghost use Rattle.pf_core.specs.{Durable.Changes.PlainDurable, Laws.Durable.IsWithin, Worlds.{last_epoch, raised}};
ghost use Rattle.pf_store.specs.declared.store.fault.OpenFault.TheVariants as opening;
ghost use Rattle.pf_store.specs.{Stores.Holds, StoreKept.{Stands, device_of}, StoreFaults.{is_fault, is_opening_fault}, Openings.{HasRoomHere, IsUnopened, IsFull, IsOfOpening, IsNoLaterThan, generation_of, version_of}};

use crate::store::fault::OpenFault;
use crate::store::keeping::{Store, raise_on};
use pf_core::Durable;
use pf_disk::Disk;
use std::alloc::Global;

// No device is opened by this generation or a later one.
const GENERATION_LIMIT: u64 = 1 << 63;

impl<D: Disk> Store<D> {
    /// Opens the store's device again: all that [`Store::open`] says of a device holds of it, also why it isn't opened.
    ///
    /// Unless it is halted, the store has to stand for `durable`. Then that is what gets the next epoch: nothing is read back, and it takes
    /// at most ten moments of the device. What the device of a halted store holds is read back, and so is it at the generation 2^63, by
    /// which no device is opened.
    pub fn open_again(
        self,
        alloc: Global,
        durable: &Durable,
    ) -> Result<(Durable, Store<D>), (OpenFault, D)>
        requires stands { self.halted ≡ false → Stands D.seen D.unsynced self durable.now }
        requires few { D.fault_count self.disk < 2 ^ 63 }

        // What the device held, with the next epoch: the new store stands for it, and each image holds it.
        ensures opened { IfOk result (λ r. (d : PlainDurable) × (held : Holds (D.seen self.disk) d) × (r.0 ≡ raised d) × (d.epoch < last_epoch)
            × (r.1.generation ≤ generation_of (D.seen self.disk) d held + 1) × (generation_of (D.seen self.disk) d held < 2 ^ 63)) }
        ensures stands { IfOk result (λ r. Stands D.seen D.unsynced r.1 r.0) }
        ensures images { IfOk result (λ r. (c : List ℕ) → IsImage (D.seen r.1.disk) (D.unsynced r.1.disk) c → Holds c r.0) }
        ensures fresh { IfOk result (λ r. r.1.halted ≡ false) }

        // It switches to the other bank, and so to the newest version, exactly if its record has no room after the others.
        ensures here { IfOk result (λ r. (d : PlainDurable) (held : Holds (D.seen self.disk) d) → HasRoomHere (D.seen self.disk) d held
            → (r.1.generation ≡ generation_of (D.seen self.disk) d held) × (r.1.version ≡ version_of (D.seen self.disk) d held)) }
        ensures there { IfOk result (λ r. (d : PlainDurable) (held : Holds (D.seen self.disk) d) → ¬ HasRoomHere (D.seen self.disk) d held
            → (r.1.generation ≡ generation_of (D.seen self.disk) d held + 1) × (r.1.version ≡ NEWEST)) }

        // The generation is the one that the device had, which is below 2^63, or the next one.
        ensures early { IfOk result (λ r. r.1.generation ≤ 2 ^ 63) }
        ensures generations { IfOk result (λ r. (c : List ℕ) → IsImage (D.seen r.1.disk) (D.unsynced r.1.disk) c
            → IsNoLaterThan r.1.generation c) }

        ensures within { IfOk result (λ r. IsWithin r.0) }
        ensures room { IfOk result (λ r. (d : PlainDurable) → ¬ IsFull (D.seen self.disk) d) }

        // At each moment an image is one from the start, or holds what the device held, its epoch perhaps one greater: by the generation
        // from before or the next one, and with room for another opening if there was room.
        ensures writes { MayWrite D.Disk self.disk (device_of result) 15 (is_opening_fault result)
            (IsOfOpening (D.seen self.disk) (D.unsynced self.disk)) }

        ensures refused { IfErr result (λ e. IsUnopened e.0 (D.seen self.disk)) }
        ensures untouched { IfErr result (λ e. is_fault e.0 ≡ false → (D.seen e.1 ≡ D.seen self.disk)
            × EachMoment D.moment D.left_since self.disk e.1 (IsImage (D.seen self.disk) (D.unsynced self.disk))) }
        ensures unchanged_at_bad_size { IfErr result (λ e. e.0 ≡ opening.BadSize → e.1 ≡ self.disk) }
        ensures size { IfOk result (λ r. r.1.size ≡ bank_size (length (D.seen self.disk))) }

        // As many moments as a save takes, if nothing has to be read back.
        ensures brief { self.halted ≡ false → self.generation < 2 ^ 63 → D.moment (device_of result) ≤ D.moment self.disk + 10 }
    {
        if !self.can_be_raised() {
            return Store::open(alloc, self.into_disk());
        }
        let Store {
            banks,
            next,
            halted: _,
        } = self;
        raise_on(alloc, banks, next, durable)
    }

    // Whether what the store stands for can get the next epoch without a look at the device.
    fn can_be_raised(&self) -> bool
        ensures { IsTrue result ↔ ((self.now.halted ≡ false) × (self.now.generation < 2 ^ 63)) }
    {
        !self.halted && self.banks.generation < GENERATION_LIMIT
    }
}
