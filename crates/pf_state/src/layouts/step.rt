//! Steps in bytes, as a store has them.
ghost use Rattle.std.specs.Prelude.{◌≡◌, ◌++◌, ℕ, true, OnOk};
ghost use Rattle.pf_form.specs.{Bytes.Forms.{ByteForm, Fits, onto, length_of}, Bytes.Readers.Reads};
ghost use Rattle.pf_state.specs.Layouts.Steps.{step_form, plain_step, allows_step};

use crate::layouts::state::{
    EXPIRY_FROM, STATE_BYTES, push_name, push_state, read_name, read_state,
};
use crate::state::sum_is_whole;
use crate::step::StateStep;
use pf_form::bytes::{
    Layout, Rest, Undecoded, expect, push_bytes, push_key, push_u32, read_u32, takes,
};
use std::alloc::{AllocError, Global};

const INSERT_STEP: u8 = 1;

const DELETE_STEP: u8 = 2;

const CLEAR_STEP: u8 = 3;

impl Layout for StateStep {
    ghost use Rattle.std.specs.Prelude.{true};
    ghost use Rattle.pf_state.specs.Layouts.Steps.{StepShape, step_form, plain_step};

    ghost shape = { StepShape };

    ghost form = { step_form };

    ghost plain = { plain_step };

    ghost before = { λ a b. true };

    #[tactic(auto, unfolding(crate::specs::Layouts::Steps::step_form))]
    fn read<'a>(alloc: Global, version: u8, from: &mut Rest<'a>) -> Result<StateStep, Undecoded> {
        if takes(from, INSERT_STEP)? {
            let state = read_state(alloc, version, from)?;
            return Ok(StateStep::Insert(state));
        }
        if takes(from, DELETE_STEP)? {
            let name = read_name(from)?;
            return Ok(StateStep::Delete(name));
        }
        expect(from, &[CLEAR_STEP])?;
        let creator = read_u32(from)?;
        Ok(StateStep::Clear { creator })
    }

    #[tactic(auto, using(crate::proofs::Expiries::step_is_allowed))]
    fn write(&self, version: u8, out: &mut Vec<u8>) -> Result<(), AllocError> {
        push_step(out, version, self)
    }
}

/// Appends a step to the bytes, as this version has it, which has to allow it; it fits its form. Fails only when out of memory, and then
/// what was appended is unspecified.
#[tactic(auto, unfolding(crate::specs::Layouts::Steps::step_form))]
pub fn push_step(out: &mut Vec<u8>, version: u8, step: &StateStep) -> Result<(), AllocError>
    requires { allows_step version step.now ≡ true }
    ensures written { OnOk result (out.new.items ≡ onto (step_form version) (plain_step step.now) out.old.items) }
    ensures fits { OnOk result (Fits (step_form version) (plain_step step.now)) }
{
    match step {
        StateStep::Insert(state) => {
            push_key(out, INSERT_STEP)?;
            push_state(out, version, state)
        }
        StateStep::Delete(name) => {
            push_key(out, DELETE_STEP)?;
            push_name(out, *name)
        }
        StateStep::Clear { creator } => {
            push_bytes(out, &[CLEAR_STEP])?;
            push_u32(out, *creator)
        }
    }
}

/// How many bytes a stored step takes, in each version. It looks at no state.
#[tactic(auto, using(crate::proofs::Widths::state_long), unfolding(crate::specs::Layouts::Steps::step_form, crate::specs::Layouts::States::name_form))]
pub fn step_length(step: &StateStep) -> usize
    ensures { (version : ℕ) → result ≡ length_of (step_form version) (plain_step step.now) }
{
    match step {
        StateStep::Insert(state) => {
            sum_is_whole(state);
            1 + STATE_BYTES
        }
        StateStep::Delete(_) => 13,
        StateStep::Clear { .. } => 5,
    }
}

impl StateStep {
    /// Whether a version allows the step: one before [`EXPIRY_FROM`] allows no insert of a state with an expiry.
    pub fn is_allowed_in(&self, version: u8) -> bool
        ensures { result ≡ allows_step version self.now }
    {
        match self {
            StateStep::Insert(state) => version >= EXPIRY_FROM || state.value().expiry == 0,
            StateStep::Delete(_) | StateStep::Clear { .. } => true,
        }
    }
}
