//! Laws of the layouts. Each function does nothing; its contract is the law.
ghost use Rattle.std.specs.Prelude.{◌≡◌, ◌+◌, ◌*◌, ℕ, true, List, length};
ghost use Rattle.pf_form.specs.Bytes.Forms.{length_of};
ghost use Rattle.pf_state.specs.declared.step.StateStep.{StateStep};
ghost use Rattle.pf_state.specs.{Flows.PlainFlow, States.{PlainState, is_whole, are_whole}};
ghost use Rattle.pf_state.specs.Layouts.Flows.{plain_flow, flow_in};
ghost use Rattle.pf_state.specs.Layouts.States.{state_form, plain_state, state_in, states_form, plain_states};
ghost use Rattle.pf_state.specs.Layouts.Steps.{plain_step, step_in};

/// Plain data determine a flow, a state or a step: no two have the same.
#[tactic(auto, using(crate::proofs::LayoutsBack::flow_back, crate::proofs::LayoutsBack::state_back, crate::proofs::LayoutsBack::step_back))]
pub fn layouts_tell_states_and_steps()
    ensures flow { (f : PlainFlow) → flow_in (plain_flow f) ≡ f }
    ensures state { (s : PlainState) → state_in (plain_state s) ≡ s }
    ensures step { (s : StateStep) → step_in (plain_step s) ≡ s }
{}

/// In each version a state takes 96 bytes, and a list of states four more than all of them.
#[tactic(auto, using(crate::proofs::Widths::state_long, crate::proofs::Widths::states_long))]
pub fn states_take_so_many_bytes()
    ensures state { (version : ℕ) (s : PlainState) → is_whole s.1.bound ≡ true → length_of (state_form version) (plain_state s) ≡ 96 }
    ensures states { (version : ℕ) (es : List PlainState) → are_whole es ≡ true
        → length_of (states_form version) (plain_states es) ≡ 4 + 96 * length es }
{}
