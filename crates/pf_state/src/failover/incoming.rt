//! What a peer's message means for the states here.
ghost use Rattle.std.specs.Prelude.{◌≡◌, ◌++◌, map, IfOk, OnOk};
ghost use Rattle.pf_state.specs.Failover.Incoming.{inserted_state, insert_step, delete_step, clear_step, group_steps, steps_of};

use crate::peer::{Clear, Delete, Group, Insert, Message};
use crate::{Held, State, StateName, StateStep, StepList, bind};
use std::alloc::{AllocError, Global};

/// The steps that a message asks for: one for each record, in the order of the groups and of the records in each. An insert binds its state
/// to the main rule that it names if the message's checksum, 16 bytes, is that of the main rules here and they have such a rule, else to
/// the default rule, and it never expires. `current` is the checksum of the main rules here, `rule_count` their number. `AllocError`: no
/// list is made.
pub fn steps_of(
    alloc: Global,
    message: &Message,
    current: &[u8; 16],
    rule_count: usize,
) -> Result<StepList, AllocError>
    ensures { IfOk result (λ l. l ≡ steps_of message.now current.now rule_count) }
{
    let mut steps = Vec::new(alloc);
    for group in message.groups.as_slice() {
        push_group(
            alloc,
            &mut steps,
            group,
            &message.checksum,
            current,
            rule_count,
        )?;
    }
    Ok(StepList::new(steps))
}

fn push_group(
    alloc: Global,
    steps: &mut Vec<StateStep>,
    group: &Group,
    sum: &[u8; 16],
    current: &[u8; 16],
    rule_count: usize,
) -> Result<(), AllocError>
    ensures { OnOk result (steps.new.items ≡ steps.old.items ++ group_steps sum.now current.now rule_count group.now) }
{
    match group {
        Group::Inserts(inserts) => {
            push_inserts(alloc, steps, inserts.as_slice(), sum, current, rule_count)
        }
        Group::Deletes(deletes) => push_deletes(steps, deletes.as_slice()),
        Group::Clears(clears) => push_clears(steps, clears.as_slice()),
    }
}

fn push_inserts(
    alloc: Global,
    steps: &mut Vec<StateStep>,
    inserts: &[Insert],
    sum: &[u8; 16],
    current: &[u8; 16],
    rule_count: usize,
) -> Result<(), AllocError>
    ensures { OnOk result (steps.new.items ≡ steps.old.items ++ map (insert_step sum.now current.now rule_count) inserts.now) }
{
    for insert in inserts {
        let state = inserted_state(alloc, insert, sum, current, rule_count)?;
        steps.push(StateStep::Insert(state))?;
    }
    Ok(())
}

fn push_deletes(steps: &mut Vec<StateStep>, deletes: &[Delete]) -> Result<(), AllocError>
    ensures { OnOk result (steps.new.items ≡ steps.old.items ++ map delete_step deletes.now) }
{
    for delete in deletes {
        steps.push(StateStep::Delete(StateName {
            id: delete.id,
            creator: delete.creator,
        }))?;
    }
    Ok(())
}

fn push_clears(steps: &mut Vec<StateStep>, clears: &[Clear]) -> Result<(), AllocError>
    ensures { OnOk result (steps.new.items ≡ steps.old.items ++ map clear_step clears.now) }
{
    for clear in clears {
        steps.push(StateStep::Clear {
            creator: clear.creator,
        })?;
    }
    Ok(())
}

// The state that an insert describes, bound by the rules here. It has no expiry.
fn inserted_state(
    alloc: Global,
    insert: &Insert,
    sum: &[u8; 16],
    current: &[u8; 16],
    rule_count: usize,
) -> Result<State, AllocError>
    ensures { IfOk result (λ s. s ≡ inserted_state sum.now current.now rule_count insert.now) }
{
    let fields = insert.fields();
    let name = StateName {
        id: fields.id,
        creator: fields.creator,
    };
    let held = Held {
        expiry: 0,
        generation: fields.generation,
        flow: insert.flow(),
        bound: bind(sum, fields.rule, fields.anchor, current, rule_count),
    };
    State::new(alloc, name, held)
}
