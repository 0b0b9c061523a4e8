//! What one command comes to.
ghost use Rattle.std.specs.Prelude.{◌≡◌, ◌++◌, IfOk};
ghost use Rattle.pf_core.specs.{Durable.Changes.voided_by, Nexts.next_with};
ghost use Rattle.pf_core.specs.declared.step.ReadyStep.TheVariants as made;

use crate::command::HistoryCommand;
use crate::durable::{Change, Durable};
use crate::next::Next;
use crate::reply::{Answer, Outcome};
use pf_ticket::RulesetName;
use std::alloc::{AllocError, Global};

/// What a command comes to, if it isn't refused.
#[derive(Drop)]
pub enum Step {
    /// It is answered.
    Done(Answer),
    /// It wants this change kept; the reply is then this outcome with the change's number.
    Wants(Change, Outcome),
    /// Whoever keeps the history answers it.
    OfHistory(HistoryCommand),
}

/// What a command comes to, if it isn't refused, as `Step` says it. A change that it wants comes with what the change leaves: that is made
/// to find the outcome, so it isn't made again to be accepted.
#[derive(Drop)]
pub enum ReadyStep {
    /// It is answered.
    Done(Answer),
    /// It wants this change kept, which leaves this; the reply is then this outcome with the change's number.
    Wants(Change, Next, Outcome),
    /// Whoever keeps the history answers it.
    OfHistory(HistoryCommand),
}

// The step that wants a change, which leaves this, after others that void these tickets.
pub(crate) fn wants(
    alloc: Global,
    before: &[RulesetName],
    change: Change,
    left: Durable,
    outcome: Outcome,
) -> Result<ReadyStep, AllocError>
    ensures { IfOk result (λ s. s ≡ made.Wants change (next_with left (before.now ++ voided_by change)) outcome) }
{
    let next = Next::new(alloc, before, &change, left)?;
    Ok(ReadyStep::Wants(change, next, outcome))
}
