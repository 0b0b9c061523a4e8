//! States and steps in bytes, many at a time, after their number in four bytes.
ghost use Rattle.std.specs.Prelude.{◌≡◌, ◌<◌, ◌^◌, ◌++◌, ℕ, true, length, map, IfOk, OnOk};
ghost use Rattle.pf_form.specs.{Bytes.Forms.{ByteForm, Fits, onto, length_of}, Bytes.Readers.Reads};
ghost use Rattle.pf_state.specs.Layouts.{Rows.IsTableOf, States.{states_form, plain_states, all_allowed}};
ghost use Rattle.pf_state.specs.Layouts.Steps.{steps_form, plain_steps, allows_steps};
ghost use Rattle.pf_state.specs.States.{are_whole};

use crate::index::States;
use crate::layouts::state::{EXPIRY_FROM, STATE_BYTES, StoredState, push_state};
use crate::layouts::step::push_step;
use crate::limits::STATE_LIMIT;
use crate::state::{State, sum_is_whole};
use crate::step::{StateStep, StepList};
use crate::table::StateTable;
use pf_form::bytes::{Fault, Rest, Undecoded, are_in_order, push_u32, read_list};
use std::alloc::{AllocError, Global};

/// Appends a table's states to the bytes, as this version has them, which has to allow them, in the order of their names; they fit their
/// form. Fails only when out of memory, and then what was appended is unspecified.
pub fn push_states(out: &mut Vec<u8>, version: u8, table: &StateTable) -> Result<(), AllocError>
    requires { all_allowed version table.now ≡ true }
    ensures written { OnOk result (out.new.items ≡ onto (states_form version) (plain_states table.now) out.old.items) }
    ensures fits { OnOk result (Fits (states_form version) (plain_states table.now)) }
{
    let states = table.states();
    push_u32(out, table.len() as u32)?;
    for state in states {
        push_state(out, version, state)?;
    }
    Ok(())
}

/// Reads the table of states at the front of the bytes, which are of this version.
///
/// Fails with the first fault of its form there, or when out of memory. How many bytes are left then is unspecified. States that make no
/// table, such as two of one flow, are one fault of them all, at their number.
pub fn read_states<'a>(
    alloc: Global,
    version: u8,
    from: &mut Rest<'a>,
) -> Result<StateTable, Undecoded>
    ensures { Reads plain_states (states_form version) result from.old.now from.new.now }
{
    let left = from.len();
    let rows = read_list::<StoredState>(alloc, version, from)?;
    match table_of(alloc, &rows)? {
        Some(table) => Ok(table),
        None => Err(Undecoded::Fault(Fault::Bad(left))),
    }
}

// The table of these states, if they make one.
#[tactic(auto, using(crate::proofs::Rows::rows_sorted, crate::proofs::Rows::no_table, crate::proofs::Rows::are_states, crate::proofs::Rows::is_table))]
fn table_of(alloc: Global, rows: &[StoredState]) -> Result<Option<StateTable>, AllocError>
    ensures { IfOk result (λ t. IsTableOf rows.now t) }
{
    if rows.len() > STATE_LIMIT || !are_in_order(rows) {
        return Ok(None);
    }
    let states = states_of(alloc, rows)?;
    match States::of(alloc, &states)? {
        Some(states) => Ok(Some(StateTable::of(states))),
        None => Ok(None),
    }
}

// Their states, each with one more owner.
#[tactic(auto, using(crate::proofs::Whole::whole_pushed))]
fn states_of(alloc: Global, rows: &[StoredState]) -> Result<Vec<State>, AllocError>
    ensures value { IfOk result (λ v. v.items ≡ map (λ row. row.state) rows.now) }
    ensures whole { IfOk result (λ v. are_whole v.items ≡ true) }
{
    let mut states = Vec::with_capacity(alloc, rows.len())?;
    for row in rows {
        sum_is_whole(&row.state);
        states.push(row.state.shared()?)?;
    }
    Ok(states)
}

/// Reads the steps at the front of the bytes, which are of this version.
///
/// Fails with the first fault of their form there, or when out of memory. How many bytes are left then is unspecified.
pub fn read_steps<'a>(
    alloc: Global,
    version: u8,
    from: &mut Rest<'a>,
) -> Result<StepList, Undecoded>
    ensures { Reads plain_steps (steps_form version) result from.old.now from.new.now }
{
    let steps = read_list::<StateStep>(alloc, version, from)?;
    Ok(StepList::new(steps))
}

/// Appends steps, at most 4,294,967,295 of them, to the bytes, as this version has them, which has to allow them; they fit their form. Fails
/// only when out of memory, and then what was appended is unspecified.
pub fn push_steps(out: &mut Vec<u8>, version: u8, steps: &StepList) -> Result<(), AllocError>
    requires few { length steps.now < 2 ^ 32 }
    requires allowed { allows_steps version steps.now ≡ true }
    ensures written { OnOk result (out.new.items ≡ onto (steps_form version) (plain_steps steps.now) out.old.items) }
    ensures fits { OnOk result (Fits (steps_form version) (plain_steps steps.now)) }
{
    let steps = steps.as_slice();
    push_u32(out, steps.len() as u32)?;
    for step in steps {
        push_step(out, version, step)?;
    }
    Ok(())
}

/// Whether a version allows all of these steps. It takes no memory.
pub fn steps_are_allowed_in(steps: &[StateStep], version: u8) -> bool
    ensures { result ≡ allows_steps version steps.now }
{
    steps.iter().all(|step| step.is_allowed_in(version))
}

/// How many bytes stored states take after their number, in each version. It looks at none of them.
#[tactic(auto, using(crate::proofs::Widths::states_long))]
pub fn states_length(states: &StateTable) -> usize
    ensures { (version : ℕ) → result ≡ length_of (states_form version) (plain_states states.now) }
{
    states.sums_are_whole();
    4 + STATE_BYTES * states.len()
}

impl StateTable {
    /// Whether a version allows all states: one before [`EXPIRY_FROM`] allows none with an expiry. It looks at none of them, and takes no
    /// memory.
    #[tactic(auto, using(crate::proofs::Expiries::all_allowed_is))]
    pub fn is_allowed_in(&self, version: u8) -> bool
        ensures { result ≡ all_allowed version self.now }
    {
        version >= EXPIRY_FROM || self.none_expires()
    }
}
