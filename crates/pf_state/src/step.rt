//! Steps that change states.
ghost use Rattle.std.specs.Prelude.{◌≡◌};
ghost use Rattle.pf_state.specs.Steps.{inserts_due, any_inserts_due};

use crate::state::{State, StateName};
use std::marker::Model;

/// What a record of a peer, or judging a packet, does to the states.
#[derive(Drop)]
pub enum StateStep {
    /// Makes this state, or replaces the one of its name.
    Insert(State),
    /// Takes out the state of this name, whatever its generation.
    Delete(StateName),
    /// Takes out all of one creator's states.
    Clear { creator: u32 },
}

/// What becomes of a state that is inserted.
#[derive(Clone, Copy, Debug, PartialEq, Eq)]
pub enum Insertion {
    /// Its name is known, and its generation isn't greater than the one there. Nothing changes.
    Stale,
    /// Another state has its flow. Nothing changes.
    Clash,
    /// It replaces the state of its name.
    Replaced,
    /// It is a new state.
    New,
}

/// Steps, which act in their order. Contracts see the list of them.
#[derive(Drop)]
pub struct StepList {
    steps: Vec<StateStep>,
}

impl Model for StepList {
    ghost use Rattle.std.specs.Prelude.{List};
    ghost use Rattle.pf_state.specs.declared.step.StateStep.{StateStep};

    ghost Value = { List StateStep };

    ghost view = { λ l. l.steps.items };
}

impl StepList {
    /// The list of these steps. It takes no memory.
    pub fn new(steps: Vec<StateStep>) -> StepList
        ensures { result ≡ steps.items }
    {
        StepList { steps }
    }

    /// The steps, in order.
    pub fn as_slice(&self) -> &[StateStep]
        ensures { result.now ≡ self.now }
    {
        &self.steps
    }
}

impl StateStep {
    // Whether it inserts a state that is due at a tick, even if it would be stale or clash.
    fn inserts_due(&self, tick: u64) -> bool
        ensures { result ≡ inserts_due tick self.now }
    {
        match self {
            StateStep::Insert(state) => !state.value().stands(tick),
            StateStep::Delete(_) | StateStep::Clear { .. } => false,
        }
    }
}

/// Whether one of these steps inserts a state that is due at a tick, even if it would be stale or clash. It takes no memory.
pub fn any_inserts_due(steps: &[StateStep], tick: u64) -> bool
    ensures { result ≡ any_inserts_due tick steps.now }
{
    steps.iter().any(|step| step.inserts_due(tick))
}
