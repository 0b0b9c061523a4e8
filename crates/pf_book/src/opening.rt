//! A device that was opened.
ghost use Rattle.std.specs.Prelude.{◌≡◌, ◌+◌, ◌^◌, ◌<◌, ◌≤◌, [], false, ℕ, List, length, IfOk, IfErr};
ghost use Rattle.std.specs.Arc.{arc_value};
ghost use Rattle.pf_disk.specs.{Disk.{EachMoment, IsImage}, Runs.MayWrite};
ghost use Rattle.pf_core.specs.{Durable.Changes.PlainDurable, Laws.Durable.IsWithin, Worlds.{last_epoch, raised}};
ghost use Rattle.pf_store.specs.declared.store.fault.OpenFault.TheVariants.{BadSize, Memory, Places};
ghost use Rattle.pf_view.specs.Past.Pasts.{all_acked};
ghost use Rattle.pf_store.specs.{Banks.bank_size, Stores.{Holds}, StoreKept.Stands, StoreFaults.{is_fault, is_opening_fault}, Openings.{IsFull, IsNoLaterThan, IsOfOpening, IsUnopened, generation_of}};
ghost use Rattle.pf_book.specs.Books.{device_of};

use pf_core::Durable;
use pf_disk::Disk;
use pf_store::{OpenFault, Store};
use pf_view::past::{Front, Naming, NewHistory, Tip};
use std::alloc::Global;
use std::marker::Model;
use std::sync::Arc;

/// A device that was opened, with what it held, in the next epoch, and a new history. A `Book` is made of it; until then it takes no
/// change. Contracts see it as a `PlainOpening`.
#[derive(Drop)]
pub struct Opening<D: Disk> {
    pub(crate) durable: Arc<Durable>,
    pub(crate) store: Store<D>,
    pub(crate) history: NewHistory,
}

impl<D: Disk> Model for Opening<D> {
    ghost use Rattle.std.specs.Arc.{arc_value};
    ghost use Rattle.pf_book.specs.Books.{PlainOpening, opening_of, IsOpened};

    ghost Value = { PlainOpening D };

    ghost view = { λ o. opening_of o.store (arc_value o.durable) o.history };

    ghost invariant = { λ o. IsOpened D.seen D.unsynced o.store (arc_value o.durable) };
}

impl<D: Disk> Opening<D> {
    /// Opens a device, whatever a crash or a fault made of it, in at most fifteen moments of the device. What was read gets the next epoch,
    /// which is on the device before this returns, so that no ticket of an earlier opening is ever valid again.
    ///
    /// `Err` hands the device back with the cause, as [`OpenFault`] lists them. The device reads as before, and each image is one from
    /// before, except after `Fault` and `Memory`: then an image may hold what was read with the next epoch.
    pub fn open(alloc: Global, disk: D) -> Result<Opening<D>, (OpenFault, D)>
        requires few { D.fault_count disk < 2 ^ 63 }

        // What the device held, in the next epoch. Each image holds that then.
        ensures opened { IfOk result (λ o. (d : PlainDurable) × Holds (D.seen disk) d × (o.given ≡ raised d) × (d.epoch < last_epoch)) }
        ensures images { IfOk result (λ o. (c : List ℕ) → IsImage (D.seen o.disk) (D.unsynced o.disk) c → Holds c o.given) }
        ensures within { IfOk result (λ o. IsWithin o.given) }

        // Its generation is the one that was found, which is below 2^63, or the next one.
        ensures generation { IfOk result (λ o. (d : PlainDurable) × (held : Holds (D.seen disk) d)
            × (o.generation ≤ generation_of (D.seen disk) d held + 1) × (generation_of (D.seen disk) d held < 2 ^ 63)) }
        ensures generations { IfOk result (λ o. (c : List ℕ) → IsImage (D.seen o.disk) (D.unsynced o.disk) c → IsNoLaterThan o.generation c) }

        ensures size { IfOk result (λ o. o.size ≡ bank_size (length (D.seen o.disk))) }
        ensures room { IfOk result (λ o. (d : PlainDurable) → ¬ IsFull (D.seen disk) d) }

        // At each moment an image is one from the start, or holds what was read, its epoch perhaps one greater: with the generation that
        // was found or the next one, and with room for another opening if there was room.
        ensures writes { MayWrite D.Disk disk (device_of result) 15 (is_opening_fault result) (IsOfOpening (D.seen disk) (D.unsynced disk)) }

        ensures refused { IfErr result (λ e. IsUnopened e.0 (D.seen disk)) }
        ensures untouched { IfErr result (λ e. is_fault e.0 ≡ false → (e.0 ≡ Memory → ⊥) → (D.seen e.1 ≡ D.seen disk)
            × EachMoment D.moment D.left_since disk e.1 (IsImage (D.seen disk) (D.unsynced disk))) }
        ensures unchanged_at_bad_size { IfErr result (λ e. e.0 ≡ BadSize → e.1 ≡ disk) }
    {
        let (durable, store) = Store::open(alloc, disk)?;
        match Arc::new(alloc, durable) {
            Ok(durable) => Ok(Opening {
                durable,
                store,
                history: NewHistory::open(),
            }),
            Err(_) => Err((OpenFault::Memory, store.into_disk())),
        }
    }

    /// Opens the device of a store again: all that [`Opening::open`] says of a device holds of it, also why it isn't opened. Unless the store
    /// is halted, it has to stand for `kept`, and then nothing is read back.
    pub(crate) fn open_again(
        alloc: Global,
        before: Store<D>,
        kept: &Durable,
    ) -> Result<Opening<D>, (OpenFault, D)>
        requires stands { before.halted ≡ false → Stands D.seen D.unsynced before kept.now }
        requires few { D.fault_count before.disk < 2 ^ 63 }
        ensures opened { IfOk result (λ o. (d : PlainDurable) × Holds (D.seen before.disk) d × (o.given ≡ raised d) × (d.epoch < last_epoch)) }
        ensures images { IfOk result (λ o. (c : List ℕ) → IsImage (D.seen o.disk) (D.unsynced o.disk) c → Holds c o.given) }
        ensures within { IfOk result (λ o. IsWithin o.given) }
        ensures generation { IfOk result (λ o. (d : PlainDurable) × (held : Holds (D.seen before.disk) d)
            × (o.generation ≤ generation_of (D.seen before.disk) d held + 1) × (generation_of (D.seen before.disk) d held < 2 ^ 63)) }
        ensures generations { IfOk result (λ o. (c : List ℕ) → IsImage (D.seen o.disk) (D.unsynced o.disk) c → IsNoLaterThan o.generation c) }
        ensures size { IfOk result (λ o. o.size ≡ bank_size (length (D.seen o.disk))) }
        ensures room { IfOk result (λ o. (d : PlainDurable) → ¬ IsFull (D.seen before.disk) d) }
        ensures writes { MayWrite D.Disk before.disk (device_of result) 15 (is_opening_fault result)
            (IsOfOpening (D.seen before.disk) (D.unsynced before.disk)) }
        ensures refused { IfErr result (λ e. IsUnopened e.0 (D.seen before.disk)) }
        ensures untouched { IfErr result (λ e. is_fault e.0 ≡ false → (e.0 ≡ Memory → ⊥) → (D.seen e.1 ≡ D.seen before.disk)
            × EachMoment D.moment D.left_since before.disk e.1 (IsImage (D.seen before.disk) (D.unsynced before.disk))) }
        ensures unchanged_at_bad_size { IfErr result (λ e. e.0 ≡ BadSize → e.1 ≡ before.disk) }
    {
        let (durable, store) = before.open_again(alloc, kept)?;
        match Arc::new(alloc, durable) {
            Ok(durable) => Ok(Opening {
                durable,
                store,
                history: NewHistory::open(),
            }),
            Err(_) => Err((OpenFault::Memory, store.into_disk())),
        }
    }

    /// The opening under its name. A Book over a publisher is made of it, and before that the publisher. `Err` hands the device back, with
    /// `Places`: nobody may add to the history, which no run is known to meet.
    pub fn named<J: Naming>(self) -> Result<NamedOpening<D, J>, (OpenFault, D)>
        requires base { self.given ≡ J.base }
        requires history { self.history ≡ J.history }
        ensures same { IfOk result (λ o. o ≡ self) }
        ensures device_err { IfErr result (λ e. e.1 ≡ self.disk) }
        ensures refused { IfErr result (λ e. e.0 ≡ Places) }
    {
        let Opening {
            durable,
            store,
            history,
        } = self;
        let Some(tip) = history.named::<J>() else {
            return Err((OpenFault::Places, store.into_disk()));
        };
        let start = tip.front();
        Ok(NamedOpening {
            durable,
            store,
            tip,
            start,
        })
    }

    /// What the device holds.
    pub fn durable(&self) -> &Durable
        ensures { result.now ≡ self.now.given }
    {
        &self.durable
    }

    /// Gives the device back as it is.
    pub fn into_disk(self) -> D
        ensures { result ≡ self.disk }
    {
        let Opening {
            durable: _,
            store,
            history: _,
        } = self;
        store.into_disk()
    }
}

/// An opening under its name `J`, whose history has no change yet. Contracts see it as a `PlainOpening`.
#[derive(Drop)]
pub struct NamedOpening<D: Disk, J: Naming> {
    pub(crate) durable: Arc<Durable>,
    pub(crate) store: Store<D>,
    pub(crate) tip: Tip<J>,
    pub(crate) start: Front<J>,
}

impl<D: Disk, J: Naming> Model for NamedOpening<D, J> {
    ghost use Rattle.std.specs.Arc.{arc_value};
    ghost use Rattle.pf_book.specs.Books.{PlainOpening, opening_of, IsBegun};

    ghost Value = { PlainOpening D };

    ghost view = { λ o. opening_of o.store (arc_value o.durable) J.history };

    ghost invariant = { λ o. IsBegun D.seen D.unsynced J.base o.store (arc_value o.durable) o.tip o.start };
}

impl<D: Disk, J: Naming> NamedOpening<D, J> {
    /// What the device holds, shared: the base of what is published.
    pub fn base(&self) -> &Arc<Durable>
        ensures given { arc_value result.now ≡ self.now.given }
        ensures named { arc_value result.now ≡ J.base }
    {
        &self.durable
    }

    /// The start of its history.
    pub fn start(&self) -> &Front<J>
        ensures { result.now ≡ all_acked [] }
    {
        &self.start
    }

    /// Gives the device back as it is.
    pub fn into_disk(self) -> D
        ensures { result ≡ self.disk }
    {
        let NamedOpening {
            durable: _,
            store,
            tip: _,
            start: _,
        } = self;
        store.into_disk()
    }
}
