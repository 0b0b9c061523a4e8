//! The index of states: by their names, by their flows and in the order of their expiries.
ghost use Rattle.std.specs.{Prelude.{◌≡◌, T, [], length, false, true, Some, IfOk, MatchOption}, FinMap.is_sorted, Option.option_map};
ghost use Rattle.pf_map.specs.{Indexes.{of_flow, is_clash, IsIndexOf}, Maps.{with_value, without, entry_at}};
ghost use Rattle.pf_state.specs.{Dues.{AreDues, IsDueAt, without_place}, FlowKeys.{key_of, key_order}};
ghost use Rattle.pf_state.specs.States.{name_order, all_stand, none_expires};

use crate::dues::{Dues, with_place, without_place};
use crate::flow_key::FlowKey;
use crate::state::{Held, State, StateName};
use pf_map::{Each, Index};
use std::alloc::{AllocError, Global};
use std::marker::Model;

/// States by name and by flow, and in the order of their expiries those that have one. Contracts see the list of them in the order of
/// their names.
pub(crate) struct States {
    index: Index<StateName, FlowKey, Held>,
    dues: Dues,
}

impl Drop for States {
    fn drop(self) {
        let States { index: _, dues: _ } = self;
    }
}

impl Model for States {
    ghost use Rattle.std.specs.Prelude.{List};
    ghost use Rattle.pf_state.specs.{Dues.AreDues, States.PlainState};

    ghost Value = { List PlainState };

    ghost view = { λ s. s.index };

    ghost invariant = { λ s. AreDues s.index s.dues };
}

// Those of these states that have an expiry, in its order. `AllocError`: nothing is made.
#[tactic(auto, using(crate::proofs::ByExpiry::no_dues, crate::proofs::ByExpiry::dues_next))]
fn dues_of(alloc: Global, states: &[State]) -> Result<Dues, AllocError>
    requires { T (is_sorted name_order states.now) }
    ensures { IfOk result (λ d. AreDues states.now d) }
{
    let mut dues = Dues::empty();
    for state in states {
        dues = with_place(alloc, dues, state)?;
    }
    Ok(dues)
}

// The order of expiries without the state of a name, if there is one and it has an expiry. Where no state has one, none is looked up.
// `AllocError`: nothing is left of it; what shares its pages stays.
#[tactic(auto, using(crate::proofs::ByExpiry::nothing_placed))]
fn without_old(
    alloc: Global,
    dues: Dues,
    index: &Index<StateName, FlowKey, Held>,
    name: &StateName,
) -> Result<Dues, AllocError>
    ensures { IfOk result (λ d. d ≡ without_place dues (entry_at name_order name.now index.now)) }
{
    if dues.len() == 0 {
        return Ok(dues);
    }
    without_place(alloc, dues, index.get(name))
}

impl States {
    /// No states. It takes no memory.
    #[tactic(auto, using(crate::proofs::ByExpiry::no_dues))]
    pub(crate) fn empty() -> States
        ensures { result ≡ [] }
    {
        States {
            index: Index::empty(),
            dues: Dues::empty(),
        }
    }

    /// The index of these states, which stand in the order of their names, no name twice; None where two of them have one flow.
    /// `AllocError`: nothing is made.
    pub(crate) fn of(alloc: Global, states: &[State]) -> Result<Option<States>, AllocError>
        requires { T (is_sorted name_order states.now) }
        ensures { IfOk result (λ i. IsIndexOf key_order (λ held. key_of held.flow) states.now i) }
    {
        match Index::of(alloc, states)? {
            Some(index) => Ok(Some(States {
                index,
                dues: dues_of(alloc, states)?,
            })),
            None => Ok(None),
        }
    }

    /// How many states there are.
    pub(crate) fn len(&self) -> usize
        ensures { result ≡ length self.now }
    {
        self.index.len()
    }

    /// The state of a name, if there is one.
    pub(crate) fn get(&self, name: &StateName) -> Option<&State>
        ensures { option_map (λ e. e.now) result ≡ entry_at name_order name.now self.now }
    {
        self.index.get(name)
    }

    /// The state of a flow, if there is one.
    pub(crate) fn of_flow(&self, flow: &FlowKey) -> Option<&State>
        ensures { option_map (λ e. e.now) result ≡ of_flow key_order (λ held. key_of held.flow) flow.now self.now }
    {
        self.index.of_flow(flow)
    }

    /// Whether a state of another name has the flow of this one.
    pub(crate) fn is_clash(&self, new: &State) -> bool
        ensures { result ≡ is_clash name_order key_order (λ held. key_of held.flow) self.now new.now }
    {
        self.index.is_clash(new)
    }

    /// The name of the state that expires first, if it is due at a tick. It takes no memory.
    #[tactic(auto, using(crate::proofs::ByExpiry::none_due, crate::proofs::ByExpiry::first_is_due))]
    pub(crate) fn first_due(&self, tick: u64) -> Option<StateName>
        requires { T (is_sorted name_order self.now) }
        ensures { MatchOption result (all_stand tick self.now ≡ true) (λ n. IsDueAt tick n self.now) }
    {
        let first = self.dues.first()?;
        if tick < first.expiry {
            return None;
        }
        Some(first.name)
    }

    /// Whether no state has an expiry. It takes no memory.
    pub(crate) fn none_expires(&self) -> bool
        requires { T (is_sorted name_order self.now) }
        ensures { result ≡ none_expires self.now }
    {
        self.dues.len() == 0
    }

    /// The same index, with one owner more. No page is copied. `AllocError`: nothing is made.
    pub(crate) fn shared(&self) -> Result<States, AllocError>
        ensures { IfOk result (λ i. i ≡ self.now) }
    {
        Ok(States {
            index: self.index.shared()?,
            dues: self.dues.shared()?,
        })
    }

    /// The index with a state, in the place of the one of its name if there is one; its flow is that of no other state (`is_clash`).
    /// Pages on the way to it that others hold are copied, and all else is shared. `AllocError`: nothing is left of this index; what
    /// shares its pages stays.
    #[tactic(auto, using(crate::proofs::ByExpiry::dues_with))]
    pub(crate) fn with(self, alloc: Global, new: &State) -> Result<States, AllocError>
        requires { is_clash name_order key_order (λ held. key_of held.flow) self new.now ≡ false }
        ensures { IfOk result (λ i. i ≡ with_value name_order self new.now.0 (Some new.now.1)) }
    {
        let States { index, dues } = self;
        let kept = without_old(alloc, dues, &index, new.key())?;
        let dues = with_place(alloc, kept, new)?;
        let index = index.with(alloc, new)?;
        Ok(States { index, dues })
    }

    /// The index with no state of a name. Pages on the way to it that others hold are copied, and all else is shared. `AllocError`:
    /// nothing is left of this index; what shares its pages stays.
    #[tactic(auto, using(crate::proofs::ByExpiry::dues_without))]
    pub(crate) fn without(self, alloc: Global, name: &StateName) -> Result<States, AllocError>
        ensures { IfOk result (λ i. i ≡ without name_order self name.now) }
    {
        let States { index, dues } = self;
        let dues = without_old(alloc, dues, &index, name)?;
        let index = index.without(alloc, name)?;
        Ok(States { index, dues })
    }

    /// The states, in the order of their names. It takes no memory.
    pub(crate) fn entries(&self) -> Each<'_, StateName, Held>
        ensures { result ≡ self.now }
    {
        self.index.entries()
    }
}
