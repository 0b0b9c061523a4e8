//! The ids of the states of some creators.
ghost use Rattle.std.specs.{Prelude.{◌≡◌, ℕ, None, OnOk}, Option.option_map};
ghost use Rattle.pf_state.specs.Ids.{ids_of, with_name, emptied};

use crate::state::StateName;
use std::alloc::{AllocError, Global};
use std::collections::BTreeMap;
use std::mem;

/// Ids of states, by the creators that made these.
#[derive(Drop)]
pub(crate) struct Ids {
    by_creator: BTreeMap<u32, Vec<u64>>,
}

impl Ids {
    /// Of no creator. It takes no memory.
    pub(crate) fn none(alloc: Global) -> Ids
        ensures { (creator : ℕ) → ids_of result creator ≡ None }
    {
        Ids {
            by_creator: BTreeMap::new(alloc),
        }
    }

    /// Of one creator more, and none of its ids. `AllocError`: these are as before.
    pub(crate) fn add_creator(&mut self, alloc: Global, creator: u32) -> Result<(), AllocError> {
        self.by_creator.insert(creator, Vec::new(alloc))?;
        Ok(())
    }

    /// Lists one state more, if its creator is one of those. `AllocError`: it may be missing.
    pub(crate) fn add(&mut self, name: &StateName) -> Result<(), AllocError>
        ensures { OnOk result ((creator : ℕ) → ids_of self.new creator ≡ with_name self.old name.now creator) }
    {
        if let Some(listed) = self.by_creator.get_mut(&name.creator) {
            listed.push(name.id)?;
        }
        Ok(())
    }

    /// Takes out the ids of a creator, which stays one of those; None if it isn't.
    pub(crate) fn take(&mut self, alloc: Global, creator: u32) -> Option<Vec<u64>>
        ensures value { option_map (λ listed. listed.items) result ≡ ids_of self.old creator }
        ensures after { (other : ℕ) → ids_of self.new other ≡ emptied self.old creator other }
    {
        let listed = self.by_creator.get_mut(&creator)?;
        Some(mem::replace(listed, Vec::new(alloc)))
    }
}
