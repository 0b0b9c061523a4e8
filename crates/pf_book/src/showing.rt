//! What is shown of a history.
ghost use Rattle.std.specs.Prelude.{◌≡◌, ◌≤◌, length, map, take, IfOk, MatchBool};
ghost use Rattle.std.specs.Arc.{arc_value};
ghost use Rattle.pf_core.specs.Durable.Changes.{after};
ghost use Rattle.pf_view.specs.Past.Pasts.{all_acked, front_of};

use pf_core::{Change, Durable};
use pf_view::Publisher;
use pf_view::past::{Front, Naming, Tip};
use std::alloc::{AllocError, Global};
use std::sync::Arc;

/// The same changes, shared. `AllocError`: one of them can't have another owner, or out of memory.
pub(crate) fn shared(alloc: Global, changes: &[Arc<Change>]) -> Result<Vec<Arc<Change>>, AllocError>
    ensures { IfOk result (λ v. map arc_value v.items ≡ map arc_value changes.now) }
{
    let mut all = Vec::with_capacity(alloc, changes.len())?;
    for change in changes {
        all.push(Arc::try_clone(change)?)?;
    }
    Ok(all)
}

/// Offers the changes that were acknowledged and not offered yet, with what all acknowledged changes leave and the front that they are.
/// Returns whether all that was acknowledged is offered now: it isn't when out of memory.
pub(crate) fn offer_rest<J: Naming, S: Publisher<J>>(
    shower: &mut S,
    alloc: Global,
    log: &[Arc<Change>],
    offered: usize,
    acked: usize,
    durable: &Arc<Durable>,
    front: &Front<J>,
) -> bool
    requires within { (offered ≤ acked) × (acked ≤ length log.now) }
    requires offered { (S.plain shower.old).offered ≡ take offered (map arc_value log.now) }
    requires chain { arc_value durable.now ≡ after J.base (take acked (map arc_value log.now)) }
    requires front { front.now ≡ all_acked (take acked (map arc_value log.now)) }
    ensures offered { MatchBool result ((S.plain shower.new).offered ≡ take acked (map arc_value log.now)) ((S.plain shower.new).offered ≡ (S.plain shower.old).offered) }
    ensures shown { (S.plain shower.new).shown ≡ (S.plain shower.old).shown }
{
    if offered == acked {
        return true;
    }
    let Ok(changes) = shared(alloc, &log[offered..acked]) else {
        return false;
    };
    let Ok(durable) = Arc::try_clone(durable) else {
        return false;
    };
    match shower.offer(changes, durable, front) {
        Ok(()) => true,
        Err(_) => false,
    }
}

/// Shows all that was offered, and notes it in the history. Returns false when out of memory: then what is shown stays as it is.
pub(crate) fn show_offered<J: Naming, S: Publisher<J>>(shower: &mut S, tip: &mut Tip<J>) -> bool
    requires within { length (S.plain shower.old).shown ≤ length (S.plain shower.old).offered }
    requires noted { tip.old.shown ≡ length (S.plain shower.old).shown }
    ensures shown { MatchBool result ((S.plain shower.new).shown ≡ (S.plain shower.old).offered) ((S.plain shower.new).shown ≡ (S.plain shower.old).shown) }
    ensures offered { (S.plain shower.new).offered ≡ (S.plain shower.old).offered }
    ensures noted { tip.new.shown ≡ length (S.plain shower.new).shown }
    ensures front { front_of tip.new ≡ front_of tip.old }
{
    let before = shower.len();
    match shower.show() {
        Ok(()) => {
            tip.show(shower.len() - before);
            true
        }
        Err(_) => false,
    }
}
