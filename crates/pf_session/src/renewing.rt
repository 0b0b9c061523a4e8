//! One opening after the other.
ghost use Rattle.std.specs.Prelude.{◌≡◌, ◌++◌, ◌∷◌, [], ℕ, All, List, IfOk};
ghost use mathlib.Core.List.{IsPrefix};
ghost use Rattle.pf_core.specs.{Durable.Changes.{PlainChange, PlainDurable}, WorldBooks.{IsAt, IsFolded, StandsFor, WorldBook}, Worlds.{Event, Setting, begun, crashed, idle, opened}};
ghost use Rattle.pf_book.specs.Books.{world_book};
ghost use Rattle.pf_session.specs.Renewing.{KnowsWithin, RenewsBook};

use pf_book::book::{Book, Closed};
use pf_book::{Chapter, Disk, OpenFault, Opening, Publisher, Seer};
use std::alloc::Global;

// An opening takes a device of fewer faults.
const MOST_FAULTS: u64 = 1 << 63;

/// Opens the device of a Book again, whose sessions have ended or paused.
///
/// What it gives is what the Book kept, in the next epoch, so that no ticket of the Book is valid any more: all that was acknowledged, and
/// after a fault of the device perhaps the group in which that came. These seers of the Book's copies saw and learnt no more than that, so
/// the seers of the next Book judge by no less than they did. Of each world that the Book stood for, the next Book stands for that with a
/// crash between two calls and an opening at its end.
///
/// `Err` hands the device back with the cause, as [`Opening::open`] does; a device with 2^63 faults is `Fault`.
pub fn renew<D: Disk + Drop, J: Chapter, S: Publisher<J> + Drop>(
    alloc: Global,
    mut book: Book<D, J, S>,
    seers: &[Seer<J>],
) -> Result<Opening<D>, (OpenFault, D)>
    ensures renews { IfOk result (λ o. (front : List PlainChange) × RenewsBook (world_book book) front o.given × All (KnowsWithin front) seers.now) }
    ensures worlds { IfOk result (λ o. (first : PlainDurable) (world : List Event) (setting : Setting) (next : WorldBook)
        → StandsFor first (world_book book) world → IsAt (begun setting o.given) next → IsFolded next
        → (n : ℕ) × StandsFor first next ((world ++ crashed idle n ∷ []) ++ opened setting ∷ [])) }
{
    for seer in seers {
        book.covers(seer);
    }
    book.between_calls();
    if MOST_FAULTS <= book.disk().faults() {
        return Err((OpenFault::Fault, book.into_disk()));
    }
    Opening::open(alloc, book.into_disk())
}

/// Opens the device of a Book again, as [`renew`] does, with its errors, while the Book's seers go on judging: they do until the second value
/// is dropped. What is opened has all that was acknowledged in the Book. Unless the device failed in it, nothing is read back.
pub fn reopen<D: Disk + Drop, J: Chapter, S: Publisher<J> + Drop>(
    alloc: Global,
    book: Book<D, J, S>,
) -> (Result<Opening<D>, (OpenFault, D)>, Closed<J, S>)
    ensures renews { IfOk result.0 (λ o. (front : List PlainChange) × RenewsBook (world_book book) front o.given × IsPrefix result.1 front) }
    ensures worlds { IfOk result.0 (λ o. (first : PlainDurable) (world : List Event) (setting : Setting) (next : WorldBook)
        → StandsFor first (world_book book) world → IsAt (begun setting o.given) next → IsFolded next
        → (n : ℕ) × StandsFor first next ((world ++ crashed idle n ∷ []) ++ opened setting ∷ [])) }
{
    book.between_calls();
    if MOST_FAULTS <= book.disk().faults() {
        let (disk, closed) = book.close();
        return (Err((OpenFault::Fault, disk)), closed);
    }
    book.open_again(alloc)
}

/// Whatever these seers of a closed Book saw and learnt by now was acknowledged in it, however long they judged: what [`reopen`] gave has all
/// of it, so the seers of the next Book judge by no less than they did.
pub fn cover_all<J: Chapter, S: Publisher<J> + Drop>(closed: &mut Closed<J, S>, seers: &[Seer<J>])
    ensures knows { (front : List PlainChange) → IsPrefix closed.old front → All (KnowsWithin front) seers.now }
    ensures same { closed.new ≡ closed.old }
{
    for seer in seers {
        closed.covers(seer);
    }
}
