//! What a save of changes needs in memory, and where the changes go afterwards.
ghost use Rattle.std.specs.Prelude.{◌≡◌, ◌+◌, ◌<◌, ◌≤◌, ◌∷◌, ◌++◌, [], IfOk, List, OnOk, length, map, vec_len, vec_capacity, if◌then◌else◌};
ghost use Rattle.std.specs.Arc.{arc_value};
ghost use Rattle.pf_core.specs.Durable.Changes.{PlainChange};

use crate::showing::shared;
use pf_core::{Change, Durable, Next};
use pf_view::past::{Naming, Tip};
use std::alloc::{AllocError, Global};
use std::slice::from_ref;
use std::sync::Arc;

/// Changes that are kept as one group: one, for which no list is made, or several.
pub(crate) trait ChangeGroup: Drop {
    /// The same changes, each of which can have several owners.
    type Shared: Drop;

    ghost items: { Self → List PlainChange };

    ghost shared_items: { Self.Shared → List PlainChange };

    fn changes(&self) -> &[Change]
        ensures { result.now ≡ items self.now };

    /// `AllocError`: out of memory.
    fn share(self, alloc: Global) -> Result<Self::Shared, AllocError>
        ensures { IfOk result (λ given. shared_items given ≡ items self) };

    fn shared(given: &Self::Shared) -> &[Arc<Change>]
        ensures { map arc_value result.now ≡ shared_items given.now };
}

impl ChangeGroup for Change {
    type Shared = Arc<Change>;

    ghost items = { λ change. change ∷ [] };

    ghost shared_items = { λ given. arc_value given ∷ [] };

    fn changes(&self) -> &[Change] {
        from_ref(self)
    }

    fn share(self, alloc: Global) -> Result<Arc<Change>, AllocError> {
        Ok(Arc::new(alloc, self)?)
    }

    fn shared(given: &Arc<Change>) -> &[Arc<Change>] {
        from_ref(given)
    }
}

impl ChangeGroup for Vec<Change> {
    type Shared = Vec<Arc<Change>>;

    ghost items = { λ changes. changes.items };

    ghost shared_items = { λ given. map arc_value given.items };

    fn changes(&self) -> &[Change] {
        self.as_slice()
    }

    fn share(self, alloc: Global) -> Result<Vec<Arc<Change>>, AllocError> {
        let mut given = Vec::with_capacity(alloc, self.len())?;
        for change in self {
            given.push(Arc::new(alloc, change)?)?;
        }
        Ok(given)
    }

    fn shared(given: &Vec<Arc<Change>>) -> &[Arc<Change>] {
        given.as_slice()
    }
}

/// Changes for the log and for the history, and what all of them leave.
#[derive(Drop)]
pub(crate) struct Copies {
    pub(crate) logged: Vec<Arc<Change>>,
    pub(crate) noted: Vec<Arc<Change>>,
    pub(crate) after: Arc<Durable>,
}

/// Shares changes, which leave `next`, and makes room for them in the log and for their number among the groups' sizes. After `AllocError`
/// the log and the sizes are as before.
pub(crate) fn share_and_reserve(
    alloc: Global,
    log: &mut Vec<Arc<Change>>,
    sizes: &mut Vec<usize>,
    changes: &[Arc<Change>],
    next: &Next,
) -> Result<Copies, AllocError>
    ensures logged { IfOk result (λ c. map arc_value c.logged.items ≡ map arc_value changes.now) }
    ensures noted { IfOk result (λ c. map arc_value c.noted.items ≡ map arc_value changes.now) }
    ensures after { IfOk result (λ c. arc_value c.after ≡ next.now.durable) }
    ensures room { IfOk result (λ c. vec_len log.new + vec_len c.logged ≤ vec_capacity log.new) }
    ensures place { OnOk result (vec_len sizes.new < vec_capacity sizes.new) }
    ensures log { log.new.items ≡ log.old.items }
    ensures sizes { sizes.new.items ≡ sizes.old.items }
{
    let logged = shared(alloc, changes)?;
    let noted = shared(alloc, changes)?;
    let after = next.durable()?;
    log.reserve(logged.len())?;
    sizes.reserve(1)?;
    Ok(Copies {
        logged,
        noted,
        after,
    })
}

/// Appends changes to a log that has room for them.
pub(crate) fn put_all(log: &mut Vec<Arc<Change>>, mut changes: Vec<Arc<Change>>)
    requires room { vec_len log.old + vec_len changes ≤ vec_capacity log.old }
    ensures { log.new.items ≡ log.old.items ++ changes.items }
{
    match log.append(&mut changes) {
        Ok(()) => {}
        Err(_) => unreachable!(),
    }
}

/// Notes changes in the history, as acknowledged or not.
pub(crate) fn note_all<J: Naming>(tip: &mut Tip<J>, changes: Vec<Arc<Change>>, acked: bool)
    ensures front { tip.new.front ≡ tip.old.front ++ map arc_value changes.items }
    ensures acked { tip.new.acked ≡ tip.old.acked + (if acked then length changes.items else 0) }
    ensures shown { tip.new.shown ≡ tip.old.shown }
{
    for change in changes {
        tip.add(change, acked);
    }
}
