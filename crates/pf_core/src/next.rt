//! What a change leaves, made before it is kept.
ghost use Rattle.std.specs.{Prelude.{◌≡◌, ◌++◌, IfOk}, Arc.arc_value};
ghost use Rattle.pf_core.specs.{Durable.Changes.voided_by, Nexts.next_with};

use crate::durable::{Change, Durable};
use pf_ticket::RulesetName;
use std::alloc::{AllocError, Global};
use std::marker::Model;
use std::sync::Arc;

/// What a change leaves, or several of a group in turn, with all its memory allocated. Contracts see it as a `PlainNext`.
#[derive(Drop)]
pub struct Next {
    pub(crate) durable: Arc<Durable>,
    pub(crate) voided: Vec<RulesetName>,
}

impl Model for Next {
    ghost use Rattle.std.specs.Arc.{arc_value};
    ghost use Rattle.pf_core.specs.Nexts.{PlainNext, next_with};

    ghost Value = { PlainNext };

    ghost view = { λ n. next_with (arc_value n.durable) n.voided.items };
}

// The names `before`, then these.
fn concat_names(
    alloc: Global,
    before: &[RulesetName],
    mut names: Vec<RulesetName>,
) -> Result<Vec<RulesetName>, AllocError>
    ensures { IfOk result (λ v. v.items ≡ before.now ++ names.items) }
{
    let mut all = Vec::new(alloc);
    for name in before {
        all.push(name.copied())?;
    }
    all.append(&mut names)?;
    Ok(all)
}

impl Next {
    // That the change leaves this, after others that void these tickets.
    pub(crate) fn new(
        alloc: Global,
        before: &[RulesetName],
        change: &Change,
        left: Durable,
    ) -> Result<Next, AllocError>
        ensures { IfOk result (λ n. n ≡ next_with left (before.now ++ voided_by change.now)) }
    {
        let voided = concat_names(alloc, before, change.voided(alloc)?)?;
        let Ok(durable) = Arc::new(alloc, left) else {
            return Err(AllocError);
        };
        Ok(Next { durable, voided })
    }

    /// What the change leaves. It takes no memory.
    pub fn after(&self) -> &Durable
        ensures { result.now ≡ self.now.durable }
    {
        &self.durable
    }

    /// What the change leaves, shared. `AllocError`: it can't have another owner, and nothing changes.
    pub fn durable(&self) -> Result<Arc<Durable>, AllocError>
        ensures { IfOk result (λ d. arc_value d ≡ self.now.durable) }
    {
        Arc::try_clone(&self.durable)
    }
}
