//! States in the order of their expiries.
ghost use Rattle.std.specs.{Prelude.{◌≡◌, [], length, Some, IfOk}, Option.option_map};
ghost use Rattle.pf_map.specs.{Maps.{with_value, without}, MapParts.first_of};
ghost use Rattle.pf_state.specs.{Dues.{due_order, due_of, with_place, without_place}, Orders.{due_total, due_alike, dues_rise}};

use crate::state::{State, StateName};
use pf_key::Key;
use pf_map::TreeMap;
use std::alloc::{AllocError, Global};
use std::cmp::Ordering;
use std::marker::Model;

/// When a state expires, and its name.
#[derive(Clone, Copy)]
pub(crate) struct Due {
    /// Its expiry, which isn't 0.
    pub(crate) expiry: u64,
    /// Its name.
    pub(crate) name: StateName,
}

impl Due {
    // Of a state.
    fn of(state: &State) -> Due
        ensures { result ≡ due_of state.now }
    {
        Due {
            expiry: state.value().expiry,
            name: *state.key(),
        }
    }
}

impl Key for Due {
    ghost order = { due_order };

    ghost hint = { λ d. d.expiry };

    fn order(&self, other: &Due) -> Ordering {
        self.expiry
            .cmp(&other.expiry)
            .then(StateName::order(&self.name, &other.name))
    }

    fn same(&self, other: &Due) -> bool {
        Key::order(self, other).is_eq()
    }

    fn hint(&self) -> u64 {
        self.expiry
    }

    ghost total = { due_total };

    ghost alike = { due_alike };

    ghost rises = { dues_rise };
}

/// The states that have an expiry, those that expire first in front. Contracts see it as a `PlainDues`.
///
/// It has no type parameters, so that the proofs of changes say nothing of pages.
pub(crate) struct Dues {
    tree: TreeMap<Due, (), (Due, ())>,
}

impl Drop for Dues {
    fn drop(self) {
        let Dues { tree: _ } = self;
    }
}

impl Model for Dues {
    ghost use Rattle.pf_state.specs.Dues.{PlainDues};

    ghost Value = { PlainDues };

    ghost view = { λ d. d.tree };
}

impl Dues {
    /// None. It takes no memory.
    pub(crate) fn empty() -> Dues
        ensures { result ≡ [] }
    {
        Dues {
            tree: TreeMap::empty(),
        }
    }

    /// How many there are.
    pub(crate) fn len(&self) -> usize
        ensures { result ≡ length self.now }
    {
        self.tree.len()
    }

    /// The one that expires first, if there is one.
    pub(crate) fn first(&self) -> Option<Due>
        ensures { option_map (λ d. (d, tt)) result ≡ first_of self.now }
    {
        Some(self.tree.first()?.0)
    }

    /// The same, with one owner more. `AllocError`: nothing is made.
    pub(crate) fn shared(&self) -> Result<Dues, AllocError>
        ensures { IfOk result (λ d. d ≡ self.now) }
    {
        Ok(Dues {
            tree: self.tree.shared()?,
        })
    }

    // With one more. `AllocError`: nothing is left of these; what shares their pages stays.
    fn with(self, alloc: Global, due: Due) -> Result<Dues, AllocError>
        ensures { IfOk result (λ d. d ≡ with_value due_order self due (Some tt)) }
    {
        let Dues { tree } = self;
        Ok(Dues {
            tree: tree.with(alloc, &(due, ()))?,
        })
    }

    // Without one. `AllocError`: nothing is left of these; what shares their pages stays.
    fn without(self, alloc: Global, due: &Due) -> Result<Dues, AllocError>
        ensures { IfOk result (λ d. d ≡ without due_order self due.now) }
    {
        let Dues { tree } = self;
        Ok(Dues {
            tree: tree.without(alloc, due)?,
        })
    }
}

/// The same with one more state, if it has an expiry. `AllocError`: nothing is left of these; what shares their pages stays.
pub(crate) fn with_place(alloc: Global, dues: Dues, state: &State) -> Result<Dues, AllocError>
    ensures { IfOk result (λ d. d ≡ with_place dues state.now) }
{
    if state.value().expiry == 0 {
        return Ok(dues);
    }
    dues.with(alloc, Due::of(state))
}

/// The same without a state, if there is one and it has an expiry. `AllocError`: nothing is left of these; what shares their pages stays.
pub(crate) fn without_place(
    alloc: Global,
    dues: Dues,
    state: Option<&State>,
) -> Result<Dues, AllocError>
    ensures { IfOk result (λ d. d ≡ without_place dues (option_map (λ s. s.now) state.entry)) }
{
    match state {
        Some(state) if state.value().expiry != 0 => dues.without(alloc, &Due::of(state)),
        _ => Ok(dues),
    }
}
