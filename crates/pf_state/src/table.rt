//! The table of states.
ghost use Rattle.std.specs.Prelude.{◌≡◌, ◌≤◌, ◌+◌, [], cond, is_ok, is_some, length, IfOk, IfSome, Contains, Some, None, true, false};
ghost use Rattle.std.specs.Option.{option_map};
ghost use Rattle.pf_state.specs.{declared.limits.TheConstants.STATE_LIMIT, Flows.flow_of};
ghost use Rattle.pf_state.specs.States.{PlainState, IsStates, are_whole, held_at, state_of, all_stand, none_expires};
ghost use Rattle.pf_state.specs.Steps.{Refuses, passes_limit, after, counts, without_state, without_creator, creator_count, without_due};
ghost use Rattle.pf_state.specs.Steps.{due_count};

use crate::change::{act, clear, held_at, is_over, standing};
use crate::clears::ids_to_clear;
use crate::counts::Counts;
use crate::flow::Flow;
use crate::index::States;
use crate::refusal::StatesRefusal;
use crate::state::{Held, State, StateName};
use crate::step::StateStep;
use pf_map::Each;
use pf_rule::Packet;
use std::alloc::{AllocError, Global};
use std::marker::Model;

/// At most 65,536 states, no name and no flow twice. Contracts see the list of them in the order of their names.
///
/// A changed table shares with the old one all states that stay, and nearly all of the index. The table knows of expiries, and not which
/// tick it is.
pub struct StateTable {
    index: States,
}

impl Drop for StateTable {
    fn drop(self) {
        let StateTable { index: _ } = self;
    }
}

impl Model for StateTable {
    ghost use Rattle.std.specs.Prelude.{◌≡◌, true, List};
    ghost use Rattle.pf_state.specs.States.{PlainState, IsStates, are_whole};

    ghost Value = { List PlainState };

    ghost view = { λ t. t.index };

    ghost invariant = { λ t. IsStates t.index × (are_whole t.index ≡ true) };
}

impl StateTable {
    /// No states. It takes no memory.
    pub fn empty() -> StateTable
        ensures { result ≡ [] }
    {
        StateTable {
            index: States::empty(),
        }
    }

    /// The table of these states, which are valid for a table.
    pub(crate) fn of(states: States) -> StateTable
        requires table { IsStates states }
        requires whole { are_whole states ≡ true }
        ensures { result ≡ states }
    {
        StateTable { index: states }
    }

    /// The same table with one more owner: no state and no page is copied. `AllocError`: nothing is made.
    pub fn shared(&self) -> Result<StateTable, AllocError>
        ensures { IfOk result (λ t. t ≡ self.now) }
    {
        Ok(StateTable {
            index: self.index.shared()?,
        })
    }

    /// How many states there are.
    pub fn len(&self) -> usize
        ensures { result ≡ length self.now }
    {
        self.index.len()
    }

    /// What each table keeps: no more states than the limit, and only whole checksums in their bindings.
    pub(crate) fn sums_are_whole(&self)
        ensures few { length self.now ≤ STATE_LIMIT }
        ensures whole { are_whole self.now ≡ true }
    {
        // the type's invariant says it of the index
        let _index = &self.index;
    }

    /// The states, in the order of their names. It takes no memory.
    pub fn states(&self) -> Each<'_, StateName, Held>
        ensures value { result ≡ self.now }
        // what each table keeps
        ensures table { IsStates self.now }
    {
        self.index.entries()
    }

    /// The states as a list, in the order of their names, each shared. `AllocError`: nothing is made.
    pub fn listed(&self, alloc: Global) -> Result<Vec<State>, AllocError>
        ensures { IfOk result (λ v. v.items ≡ self.now) }
    {
        let mut listed = Vec::with_capacity(alloc, self.index.len())?;
        for state in self.index.entries() {
            listed.push(state.shared()?)?;
        }
        Ok(listed)
    }

    /// The state of a packet's flow; there is at most one. It takes no memory.
    #[tactic(auto, using(crate::proofs::Indexed::of_flow_is))]
    pub fn find(&self, packet: &Packet) -> Option<&State>
        ensures { option_map (λ s. s.now) result ≡ state_of (flow_of packet.now) self.now }
    {
        let flow = Flow::of(packet);
        self.index.of_flow(flow.key())
    }

    /// Whether no state is due at a tick. It looks at one state at most, and takes no memory.
    #[tactic(auto, using(crate::proofs::Ticks::none_stand))]
    pub fn all_stand(&self, tick: u64) -> bool
        ensures { result ≡ all_stand tick self.now }
    {
        self.index.first_due(tick).is_none()
    }

    /// Whether no state has an expiry. It looks at none of them, and takes no memory.
    pub fn none_expires(&self) -> bool
        ensures { result ≡ none_expires self.now }
    {
        self.index.none_expires()
    }

    /// What is held under a name, if it is known. It takes no memory.
    pub fn held_at(&self, name: StateName) -> Option<Held>
        ensures { result ≡ held_at name self.now }
    {
        held_at(&self.index, name)
    }

    /// The table after these steps in turn, and what became of them. This table stays as it is.
    ///
    /// [`StatesRefusal::StatesFull`] is exactly for steps one of which would leave more than 65,536 states, even if later ones leave fewer;
    /// [`StatesRefusal::Memory`] may come before. After a refusal nothing is made.
    pub fn after_batch(
        &self,
        alloc: Global,
        steps: &[StateStep],
    ) -> Result<(StateTable, Counts), StatesRefusal>
        ensures refused { Refuses result (passes_limit self.now steps.now) }
        ensures counts { IfOk result (λ r. r.1 ≡ counts self.now steps.now) }
        ensures after { IfOk result (λ r. r.0 ≡ after self.now steps.now) }
    {
        let mut states = self.index.shared()?;
        let mut ids = ids_to_clear(alloc, &states, steps)?;
        let mut counts = Counts::NONE;
        for step in steps {
            let (left, counted) = act(alloc, states, &mut ids, step)?;
            states = left;
            counts = counts.and(counted);
            if is_over(&states) {
                return Err(StatesRefusal::StatesFull);
            }
        }
        Ok((StateTable { index: states }, counts))
    }

    /// Takes these steps in turn, and counts what became of them. It is refused as `after_batch` is, and then the table is as before.
    pub fn apply_batch(
        &mut self,
        alloc: Global,
        steps: &[StateStep],
    ) -> Result<Counts, StatesRefusal>
        ensures refused { Refuses result (passes_limit self.old steps.now) }
        ensures counts { IfOk result (λ c. c ≡ counts self.old steps.now) }
        ensures after { self.new ≡ cond (is_ok result) (after self.old steps.now) self.old }
    {
        let (table, counts) = self.after_batch(alloc, steps)?;
        *self = table;
        Ok(counts)
    }

    /// Takes out the state of a name, whatever its generation. Returns whether there was one. `AllocError`: the table is as before.
    #[tactic(auto, using(crate::proofs::Counting::found_by_length))]
    pub fn remove(&mut self, alloc: Global, name: StateName) -> Result<bool, AllocError>
        ensures found { IfOk result (λ found. found ≡ is_some (held_at name self.old)) }
        ensures after { self.new ≡ cond (is_ok result) (without_state self.old name) self.old }
    {
        let before = self.index.len();
        let left = self.index.shared()?.without(alloc, &name)?;
        let found = left.len() < before;
        *self = StateTable { index: left };
        Ok(found)
    }

    /// Takes out all states of one creator. Returns how many there were. `AllocError`: the table is as before.
    #[tactic(auto, using(crate::proofs::Counting::shrinks_clear))]
    pub fn clear_creator(&mut self, alloc: Global, creator: u32) -> Result<usize, AllocError>
        ensures count { IfOk result (λ count. count ≡ creator_count self.old creator) }
        ensures after { self.new ≡ cond (is_ok result) (without_creator self.old creator) self.old }
    {
        let before = self.index.len();
        let left = clear(alloc, self.index.shared()?, creator)?;
        let count = before - left.len();
        *self = StateTable { index: left };
        Ok(count)
    }

    /// Takes out the states that are due at a tick: those that have an expiry, and one that isn't greater. Returns how many there were. It
    /// costs what is taken out, and not what there is. `AllocError`: the table is as before.
    #[tactic(auto, using(crate::proofs::Ticks::due_shrinks))]
    pub fn expire(&mut self, alloc: Global, tick: u64) -> Result<usize, AllocError>
        ensures count { IfOk result (λ count. count ≡ due_count self.old tick) }
        ensures after { self.new ≡ cond (is_ok result) (without_due self.old tick) self.old }
    {
        let before = self.index.len();
        let left = standing(alloc, self.index.shared()?, tick)?;
        let count = before - left.len();
        *self = StateTable { index: left };
        Ok(count)
    }
}
