//! Changes of states.
ghost use Rattle.std.specs.{Prelude.{◌≡◌, ◌-◌, ◌≤◌, length, nat_le, true, false, T, IfOk}, FinMap.is_sorted, Option.option_map_or};
ghost use Rattle.pf_state.specs.Ids.{ListsAll};
ghost use Rattle.pf_state.specs.States.{NamesFlows, are_whole, held_at, name_order};
ghost use Rattle.pf_state.specs.Steps.{insertion, stepped, counted, only_deleted, without_creator, without_due, is_over};
ghost use Rattle.pf_state.specs.declared.step.StateStep.TheVariants as step_kind;

use crate::clears::clear_listed;
use crate::counts::Counts;
use crate::ids::Ids;
use crate::index::States;
use crate::limits::STATE_LIMIT;
use crate::state::{Held, State, StateName, sum_is_whole};
use crate::step::{Insertion, StateStep};
use std::alloc::{AllocError, Global};

/// What is held under a name.
pub(crate) fn held_at(states: &States, name: StateName) -> Option<Held>
    ensures { result ≡ held_at name states.now }
{
    match states.get(&name) {
        Some(state) => Some(*state.value()),
        None => None,
    }
}

// Whether what is held under the state's name has a generation that isn't less.
fn is_stale(known: Option<Held>, new: &State) -> bool
    ensures { result ≡ option_map_or (λ held. nat_le new.now.1.generation held.generation) known false }
{
    match known {
        Some(held) => new.value().generation <= held.generation,
        None => false,
    }
}

// What becomes of a state that is inserted.
#[tactic(auto, using(crate::proofs::Indexed::clash_is))]
fn judge(states: &States, new: &State) -> Insertion
    requires { NamesFlows states.now }
    ensures { result ≡ insertion states.now new.now }
{
    let known = held_at(states, *new.key());
    if is_stale(known, new) {
        Insertion::Stale
    } else if states.is_clash(new) {
        Insertion::Clash
    } else if known.is_some() {
        Insertion::Replaced
    } else {
        Insertion::New
    }
}

// The states with one inserted, unless it is stale or clashes, and what becomes of it.
#[tactic(auto, using(crate::proofs::Whole::whole_with), unfolding(crate::specs::Steps::stepped))]
fn insert(alloc: Global, states: States, new: &State) -> Result<(States, Insertion), AllocError>
    requires names { NamesFlows states }
    requires whole { are_whole states ≡ true }
    ensures judged { IfOk result (λ r. r.1 ≡ insertion states new.now) }
    ensures after { IfOk result (λ r. r.0 ≡ stepped states (step_kind.Insert new.now)) }
    ensures whole { IfOk result (λ r. are_whole r.0 ≡ true) }
{
    sum_is_whole(new);
    let judged = judge(&states, new);
    let left = match judged {
        Insertion::Stale | Insertion::Clash => states,
        Insertion::Replaced | Insertion::New => states.with(alloc, new)?,
    };
    Ok((left, judged))
}

/// The states of all other creators. `AllocError`: these states are dropped; other owners keep theirs.
pub(crate) fn clear(alloc: Global, states: States, creator: u32) -> Result<States, AllocError>
    requires { T (is_sorted name_order states) }
    ensures { IfOk result (λ s. s ≡ without_creator states creator) }
{
    let all = states.shared()?;
    let mut left = states;
    for state in all.entries() {
        if state.key().creator == creator {
            left = left.without(alloc, state.key())?;
        }
    }
    Ok(left)
}

// The same, by the ids of the creator's states where these are listed.
#[tactic(auto, using(crate::proofs::Listed::lists_cleared))]
fn clear_by(
    alloc: Global,
    states: States,
    ids: &mut Ids,
    creator: u32,
) -> Result<States, AllocError>
    requires sorted { T (is_sorted name_order states) }
    requires lists { ListsAll states ids.old }
    ensures left { IfOk result (λ s. s ≡ without_creator states creator) }
    ensures lists { ListsAll (without_creator states creator) ids.new }
{
    match ids.take(alloc, creator) {
        Some(listed) => clear_listed(alloc, states, creator, &listed),
        None => clear(alloc, states, creator),
    }
}

/// The states that stand at a tick. It costs what is taken out, and not what there is. `AllocError`: these states are dropped; other owners
/// keep theirs.
#[tactic(auto, using(crate::proofs::Ticks::standing_begun, crate::proofs::Ticks::standing_on, crate::proofs::Ticks::standing_all, crate::proofs::Ticks::one_less))]
pub(crate) fn standing(alloc: Global, states: States, tick: u64) -> Result<States, AllocError>
    requires { T (is_sorted name_order states) }
    ensures { IfOk result (λ s. s ≡ without_due states tick) }
{
    let mut left = states;
    while let Some(name) = left.first_due(tick) {
        left = left.without(alloc, &name)?;
    }
    Ok(left)
}

/// Whether there are more states than the limit.
pub(crate) fn is_over(states: &States) -> bool
    ensures { result ≡ is_over states.now }
{
    states.len() > STATE_LIMIT
}

// What is left of this many states, and how many were taken out.
fn taken_out(before: usize, left: States) -> (States, Counts)
    requires { length left ≤ before }
    ensures left { result.0 ≡ left }
    ensures counted { result.1 ≡ only_deleted (before - length left) }
{
    let deleted = (before - left.len()) as u64;
    (left, Counts::of_deletion(deleted))
}

/// The states after one step, and what became of it. `ids` has under each creator that is one of its own the ids of all its states, before
/// and after. `AllocError`: these states are dropped; other owners keep theirs.
#[tactic(auto, using(crate::proofs::Counting::shrinks, crate::proofs::Whole::whole_without, crate::proofs::Whole::whole_cleared, crate::proofs::Listed::lists_deleted), unfolding(crate::specs::Steps::stepped, crate::specs::Steps::counted))]
pub(crate) fn act(
    alloc: Global,
    states: States,
    ids: &mut Ids,
    step: &StateStep,
) -> Result<(States, Counts), AllocError>
    requires names { NamesFlows states }
    requires whole { are_whole states ≡ true }
    requires lists { ListsAll states ids.old }
    ensures counted { IfOk result (λ r. r.1 ≡ counted states step.now) }
    ensures after { IfOk result (λ r. r.0 ≡ stepped states step.now) }
    ensures whole { IfOk result (λ r. are_whole r.0 ≡ true) }
    ensures lists { IfOk result (λ r. ListsAll r.0 ids.new) }
{
    let before = states.len();
    match step {
        StateStep::Insert(new) => {
            ids.add(new.key())?;
            let (left, judged) = insert(alloc, states, new)?;
            Ok((left, Counts::of_insertion(judged)))
        }
        StateStep::Delete(name) => Ok(taken_out(before, states.without(alloc, name)?)),
        StateStep::Clear { creator } => {
            Ok(taken_out(before, clear_by(alloc, states, ids, *creator)?))
        }
    }
}
