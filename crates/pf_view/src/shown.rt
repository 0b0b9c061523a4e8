//! One of the two copies, and what is published.
ghost use Rattle.std.specs.Prelude.{◌≡◌, ◌++◌, MatchResult};
ghost use Rattle.pf_view.specs.Sharing.{changes_of};

use crate::past::Trace;
use left_right::Absorb;
use pf_core::{Change, Durable};
use std::alloc::AllocError;
use std::marker::Model;
use std::sync::Arc;

/// Changes, in order, what is kept after them, and the front of a history with these changes. Contracts see it as a `PlainShown`.
#[derive(Drop)]
pub struct Shown {
    pub changes: Vec<Arc<Change>>,
    pub durable: Arc<Durable>,
    pub front: Trace,
}

impl Model for Shown {
    ghost use Rattle.std.specs.Arc.{arc_value};
    ghost use Rattle.pf_view.specs.{Sharing.changes_of, Copies.{PlainShown, shown_with}};

    ghost Value = { PlainShown };

    ghost view = { λ s. shown_with (changes_of s.changes.items) (arc_value s.durable) s.front };
}

/// Changes to add to those of a copy, what is kept after all, and the front of a history with all of them. Contracts see it as a
/// `PlainShown`, which has its own changes alone.
#[derive(Drop)]
pub struct Operation {
    pub changes: Vec<Arc<Change>>,
    pub after: Arc<Durable>,
    pub front: Trace,
}

impl Model for Operation {
    ghost use Rattle.std.specs.Arc.{arc_value};
    ghost use Rattle.pf_view.specs.{Sharing.changes_of, Copies.{PlainShown, shown_with}};

    ghost Value = { PlainShown };

    ghost view = { λ o. shown_with (changes_of o.changes.items) (arc_value o.after) o.front };
}

impl Absorb<Operation> for Shown {
    ghost use Rattle.pf_view.specs.Copies.{with_operation};

    type State = Shown;

    ghost state = { λ s. s };

    ghost applied = { with_operation };

    fn absorb_first(&mut self, operation: &Operation, _other: &Shown) -> Result<(), AllocError> {
        let after = Arc::try_clone(&operation.after)?;
        push_shared(&mut self.changes, operation.changes.as_slice())?;
        self.durable = after;
        self.front = operation.front.again();
        Ok(())
    }
}

// Appends the changes to a list, shared; on an error the list is as before.
fn push_shared(list: &mut Vec<Arc<Change>>, changes: &[Arc<Change>]) -> Result<(), AllocError>
    ensures { MatchResult result
        (λ _. changes_of list.new.items ≡ changes_of list.old.items ++ changes_of changes.now)
        (λ _. list.new.items ≡ list.old.items) }
{
    list.reserve(changes.len())?;
    let before = list.len();
    for change in changes {
        match Arc::try_clone(change) {
            Ok(change) => list.push_reserved(change),
            Err(error) => {
                list.truncate(before);
                return Err(error);
            }
        }
    }
    Ok(())
}
