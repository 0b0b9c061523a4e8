//! A Book that gave its device away, or whose device is opened again.
ghost use Rattle.std.specs.Prelude.{◌≡◌, ◌+◌, ◌^◌, ◌<◌, ◌≤◌, false, ℕ, List, length, IfOk, IfErr};
ghost use Rattle.std.specs.Arc.{arc_value};
ghost use mathlib.Core.List.{IsPrefix};
ghost use Rattle.pf_disk.specs.{Disk.{EachMoment, IsImage}, Runs.MayWrite};
ghost use Rattle.pf_core.specs.{Durable.Changes.PlainDurable, Laws.Durable.IsWithin, Worlds.{flat, last_epoch, raised}};
ghost use Rattle.pf_store.specs.declared.store.fault.OpenFault.TheVariants.{BadSize, Memory};
ghost use Rattle.pf_store.specs.{Banks.bank_size, Stores.Holds, StoreKept.Stands, StoreFaults.{is_fault, is_opening_fault}, Openings.{IsFull, IsNoLaterThan, IsOfOpening, IsUnopened, generation_of}};
ghost use Rattle.pf_book.specs.Books.{device_of};

use crate::book::Book;
use crate::chapter::Chapter;
use crate::opening::Opening;
use pf_core::Durable;
use pf_disk::Disk;
use pf_store::{OpenFault, Store};
use pf_view::past::{Front, Tip};
use pf_view::{Publisher, Seer};
use std::alloc::Global;
use std::marker::Model;
use std::sync::Arc;

/// What is left of a Book that gave its device away: its seers go on judging by the copies to which it published, until this is dropped.
/// Contracts see the changes that were acknowledged.
#[derive(Drop)]
pub struct Closed<J: Chapter, S: Publisher<J> + Drop> {
    // kept for the seers alone
    shower: S,
    tip: Tip<J>,
}

impl<J: Chapter, S: Publisher<J> + Drop> Model for Closed<J, S> {
    ghost use Rattle.std.specs.Prelude.{List, take};
    ghost use Rattle.pf_core.specs.Durable.Changes.{PlainChange};

    ghost Value = { List PlainChange };

    ghost view = { λ c. take c.tip.acked c.tip.front };
}

impl<D: Disk + Drop, J: Chapter, S: Publisher<J> + Drop> Book<D, J, S> {
    /// Gives the device away as it is. What is left lets seers judge as before.
    pub fn close(self) -> (D, Closed<J, S>)
        ensures device { result.0 ≡ self.disk }
        ensures acked { result.1 ≡ flat self.acked }
    {
        let (store, _kept, closed) = self.take_apart();
        (store.into_disk(), closed)
    }

    /// Opens the device again: all that [`Opening::open`] says of a device holds of it, also why it isn't opened. Unless the device failed
    /// in this opening, what the Book keeps gets the next epoch, and nothing is read back. What is left lets seers judge as before.
    pub fn open_again(self, alloc: Global) -> (Result<Opening<D>, (OpenFault, D)>, Closed<J, S>)
        requires few { D.fault_count self.disk < 2 ^ 63 }
        ensures acked { result.1 ≡ flat self.acked }
        ensures opened { IfOk result.0 (λ o. (d : PlainDurable) × Holds (D.seen self.disk) d × (o.given ≡ raised d) × (d.epoch < last_epoch)) }
        ensures images { IfOk result.0 (λ o. (c : List ℕ) → IsImage (D.seen o.disk) (D.unsynced o.disk) c → Holds c o.given) }
        ensures within { IfOk result.0 (λ o. IsWithin o.given) }
        ensures generation { IfOk result.0 (λ o. (d : PlainDurable) × (held : Holds (D.seen self.disk) d)
            × (o.generation ≤ generation_of (D.seen self.disk) d held + 1) × (generation_of (D.seen self.disk) d held < 2 ^ 63)) }
        ensures generations { IfOk result.0 (λ o. (c : List ℕ) → IsImage (D.seen o.disk) (D.unsynced o.disk) c → IsNoLaterThan o.generation c) }
        ensures size { IfOk result.0 (λ o. o.size ≡ bank_size (length (D.seen o.disk))) }
        ensures room { IfOk result.0 (λ o. (d : PlainDurable) → ¬ IsFull (D.seen self.disk) d) }
        ensures writes { MayWrite D.Disk self.disk (device_of result.0) 15 (is_opening_fault result.0)
            (IsOfOpening (D.seen self.disk) (D.unsynced self.disk)) }
        ensures refused { IfErr result.0 (λ e. IsUnopened e.0 (D.seen self.disk)) }
        ensures untouched { IfErr result.0 (λ e. is_fault e.0 ≡ false → (e.0 ≡ Memory → ⊥) → (D.seen e.1 ≡ D.seen self.disk)
            × EachMoment D.moment D.left_since self.disk e.1 (IsImage (D.seen self.disk) (D.unsynced self.disk))) }
        ensures unchanged_at_bad_size { IfErr result.0 (λ e. e.0 ≡ BadSize → e.1 ≡ self.disk) }
    {
        let (store, kept, closed) = self.take_apart();
        (Opening::open_again(alloc, store, &kept), closed)
    }

    // The store; what the Book keeps, for which it stands unless it is halted; and what lets seers judge as before.
    fn take_apart(self) -> (Store<D>, Arc<Durable>, Closed<J, S>)
        ensures device { result.0.disk ≡ self.disk }
        ensures stands { result.0.halted ≡ false → Stands D.seen D.unsynced result.0 (arc_value result.1) }
        ensures acked { result.2 ≡ flat self.acked }
    {
        let Book {
            alloc: _,
            store,
            core: _,
            durable,
            log: _,
            sizes: _,
            acked: _,
            offered: _,
            limit: _,
            shower,
            tip,
            front: _,
        } = self;
        (store, durable, Closed { shower, tip })
    }
}

impl<J: Chapter, S: Publisher<J> + Drop> Closed<J, S> {
    /// The acknowledged changes begin with all that a seer of this opening saw and with all that it learnt. This holds for each seer at any
    /// time, also once it judged since the device was given away: the types say so, and nothing is compared.
    pub fn covers(&mut self, seer: &Seer<J>)
        ensures seen { IsPrefix seer.now.seen self.old }
        ensures learnt { IsPrefix seer.now.learnt self.old }
        ensures same { self.new ≡ self.old }
    {
        self.contains(&seer.seen());
        self.contains(&seer.learnt());
    }

    // The acknowledged changes begin with each front whose changes were all acknowledged.
    fn contains(&mut self, front: &Front<J>)
        requires { front.now.acked ≡ length front.now.front }
        ensures begins { IsPrefix front.now.front self.old }
        ensures same { self.new ≡ self.old }
    {
        self.tip.contains(front);
    }
}
