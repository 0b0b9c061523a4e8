//! A change of what is kept.
ghost use Rattle.std.specs.Prelude.{◌≡◌, map, IfOk};
ghost use Rattle.pf_core.specs.Durable.Changes.{commits, adds, deletes, sets, acts, removes, expires, name_of, voided_by};
ghost use Rattle.pf_core.specs.Durable.ChangeViews.{change_of};

use crate::durable::entry_list::EntryList;
use pf_addr::path::TableName;
use pf_anchor::{Path, Placed};
use pf_state::{StateName, StepList};
use pf_ticket::{Defined, RulesetName};
use std::alloc::{AllocError, Global};
use std::marker::Model;

/// What a commit replaces.
#[derive(Drop)]
pub enum Item {
    /// The rules at a path, replaced by these.
    Rules(Placed),
    /// Of the tables at a path those that were defined, in the order of their names.
    Tables { path: Path, tables: Defined },
}

/// What a change keeps, by its kind.
#[derive(Drop)]
pub enum ChangeKind {
    /// What is replaced, each whole, in the order of the commit's entries.
    Commit(Vec<Item>),
    /// Entries, as handed in, that are added to a table.
    Add {
        path: Path,
        name: TableName,
        entries: EntryList,
    },
    /// Entries, as handed in, that are deleted from a table.
    Delete {
        path: Path,
        name: TableName,
        entries: EntryList,
    },
    /// Entries, as handed in, that replace a table's.
    Set {
        path: Path,
        name: TableName,
        entries: EntryList,
    },
    /// Steps that act on the states, also those that change nothing.
    States(StepList),
    /// The removal of one state.
    Remove(StateName),
    /// A tick, which takes out the states that are due.
    Expire(u64),
}

/// What is to be kept. Contracts see it as a `PlainChange`.
#[derive(Drop)]
pub struct Change {
    pub(crate) kind: ChangeKind,
}

impl Model for Change {
    ghost use Rattle.pf_core.specs.Durable.Changes.{PlainChange};

    ghost Value = { PlainChange };

    ghost use Rattle.pf_core.specs.Durable.ChangeViews.{change_of};

    ghost view = { λ c. change_of c.kind };
}

impl Change {
    /// A commit's change.
    pub fn commit(items: Vec<Item>) -> Change
        ensures { result ≡ commits items.items }
    {
        Change {
            kind: ChangeKind::Commit(items),
        }
    }

    /// Entries that are added to a table.
    pub fn add(path: Path, name: TableName, entries: EntryList) -> Change
        ensures { result ≡ adds path name entries }
    {
        Change {
            kind: ChangeKind::Add {
                path,
                name,
                entries,
            },
        }
    }

    /// Entries that are deleted from a table.
    pub fn delete(path: Path, name: TableName, entries: EntryList) -> Change
        ensures { result ≡ deletes path name entries }
    {
        Change {
            kind: ChangeKind::Delete {
                path,
                name,
                entries,
            },
        }
    }

    /// Entries that replace a table's.
    pub fn set(path: Path, name: TableName, entries: EntryList) -> Change
        ensures { result ≡ sets path name entries }
    {
        Change {
            kind: ChangeKind::Set {
                path,
                name,
                entries,
            },
        }
    }

    /// Steps that act on the states.
    pub fn states(steps: StepList) -> Change
        ensures { result ≡ acts steps }
    {
        Change {
            kind: ChangeKind::States(steps),
        }
    }

    /// The removal of the state of this name.
    pub fn remove(name: StateName) -> Change
        ensures { result ≡ removes name }
    {
        Change {
            kind: ChangeKind::Remove(name),
        }
    }

    /// A tick, which takes out the states that are due. `Durable::apply` refuses it with `BadTick` exactly if it is less than the present
    /// one, so the same once more isn't refused, and with `Memory` when out of memory. It has no other refusal.
    pub fn expire(tick: u64) -> Change
        ensures { result ≡ expires tick }
    {
        Change {
            kind: ChangeKind::Expire(tick),
        }
    }

    /// What it keeps, by its kind.
    pub fn kind(&self) -> &ChangeKind
        ensures { change_of result.now ≡ self.now }
    {
        &self.kind
    }

    /// The rulesets whose tickets the change voids: those that a commit replaces, in order. `AllocError`: nothing is made.
    pub fn voided(&self, alloc: Global) -> Result<Vec<RulesetName>, AllocError>
        ensures { IfOk result (λ v. v.items ≡ voided_by self.now) }
    {
        match &self.kind {
            ChangeKind::Commit(items) => names_of(alloc, items.as_slice()),
            _ => Ok(Vec::new(alloc)),
        }
    }
}

// The ruleset that an item replaces.
fn name_of(item: &Item) -> RulesetName
    ensures { result ≡ name_of item.now }
{
    match item {
        Item::Rules(placed) => RulesetName::filter(placed.key()),
        Item::Tables { path, .. } => RulesetName::table(path),
    }
}

// The rulesets that a commit replaces.
pub(crate) fn names_of(alloc: Global, items: &[Item]) -> Result<Vec<RulesetName>, AllocError>
    ensures { IfOk result (λ v. v.items ≡ map name_of items.now) }
{
    let mut names = Vec::with_capacity(alloc, items.len())?;
    for item in items {
        names.push(name_of(item))?;
    }
    Ok(names)
}
