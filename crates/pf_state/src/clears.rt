//! Several clears in one batch.
ghost use Rattle.std.specs.{Prelude.{◌≡◌, T, IfOk}, FinMap.is_sorted};
ghost use Rattle.pf_state.specs.{Ids.{HasAll, ListsAll}, States.name_order, Steps.without_creator};

use crate::ids::Ids;
use crate::index::States;
use crate::state::StateName;
use crate::step::StateStep;
use std::alloc::{AllocError, Global};

// Of each creator that one of these steps clears, none of its ids.
fn creators_cleared(alloc: Global, steps: &[StateStep]) -> Result<Ids, AllocError> {
    let mut ids = Ids::none(alloc);
    for step in steps {
        if let StateStep::Clear { creator } = step {
            ids.add_creator(alloc, *creator)?;
        }
    }
    Ok(ids)
}

/// The ids of the states of each creator that these steps clear, found by one look at all states. Steps that clear once at most need none:
/// that one clear looks at all states itself. `AllocError`: nothing is made.
#[tactic(auto, using(crate::proofs::Listed::lists_none, crate::proofs::Listed::listing_begun))]
pub(crate) fn ids_to_clear(
    alloc: Global,
    states: &States,
    steps: &[StateStep],
) -> Result<Ids, AllocError>
    ensures { IfOk result (λ i. ListsAll states.now i) }
{
    let clears = steps
        .iter()
        .filter(|step| matches!(step, StateStep::Clear { .. }))
        .count();
    if clears < 2 {
        return Ok(Ids::none(alloc));
    }
    let mut ids = creators_cleared(alloc, steps)?;
    for state in states.entries() {
        ids.add(state.key())?;
    }
    Ok(ids)
}

/// The states of all other creators, where these are the ids of all of this one's states, and maybe more. It costs what is taken out, and
/// not what there is. `AllocError`: these states are dropped; other owners keep theirs.
#[tactic(auto, using(crate::proofs::Listed::taking_begun))]
pub(crate) fn clear_listed(
    alloc: Global,
    states: States,
    creator: u32,
    ids: &[u64],
) -> Result<States, AllocError>
    requires sorted { T (is_sorted name_order states) }
    requires all { HasAll states creator ids.now }
    ensures { IfOk result (λ s. s ≡ without_creator states creator) }
{
    let mut left = states;
    for id in ids {
        left = left.without(alloc, &StateName { id: *id, creator })?;
    }
    Ok(left)
}
