//! Flows, states and steps in bytes, by layouts of `pf_form::bytes`. In the bytes all numbers have their highest byte first.

mod flow;
mod laws;
mod lists;
mod state;
mod step;

pub(crate) use flow::push_flow;
pub use laws::{layouts_tell_states_and_steps, states_take_so_many_bytes};
pub use lists::{
    push_states, push_steps, read_states, read_steps, states_length, steps_are_allowed_in,
};
pub use state::{EXPIRY_FROM, StoredState, push_name, push_state, read_name, read_state};
pub use step::{push_step, step_length};
