//! The entries of a table.
ghost use Rattle.std.specs.Prelude.{◌≡◌, [], All, IfOk};
ghost use Rattle.pf_addr.specs.Address.{IsNetwork};
ghost use Rattle.pf_table.specs.{Tables.{AreEntries, IsTable, deciding}, Edits.{added, additions, deleted, deletions}};

use crate::answer::{Addition, Deletion};
use crate::entry::Entry;
use crate::entry_map::EntryMap;
use crate::indexed::Indexed;
use pf_addr::Addr;
use pf_trie::Trie;
use std::alloc::{AllocError, Global};
use std::marker::Model;

/// Entries in the order of their networks, which are found by first bits too. Contracts see the list.
///
/// It has no type parameters, so that the proofs of edits say nothing of tries.
pub(crate) struct TableEntries {
    indexed: Indexed<Trie>,
}

impl Drop for TableEntries {
    fn drop(self) {
        let TableEntries { indexed: _ } = self;
    }
}

impl Model for TableEntries {
    ghost use Rattle.std.specs.Prelude.{List};
    ghost use Rattle.pf_table.specs.Entries.{PlainEntry};

    ghost Value = { List PlainEntry };

    ghost view = { λ e. e.indexed };
}

impl TableEntries {
    /// As [`Indexed::empty`].
    pub(crate) fn empty() -> TableEntries
        ensures { result ≡ [] }
    {
        TableEntries {
            indexed: Indexed::empty(),
        }
    }

    /// As [`Indexed::of`]. `AllocError`: as there.
    pub(crate) fn of(
        alloc: Global,
        map: EntryMap,
        entries: &[Entry],
    ) -> Result<TableEntries, AllocError>
        requires same { map ≡ entries.now }
        requires entries { AreEntries entries.now }
        ensures value { IfOk result (λ e. e ≡ map) }
        ensures networks { IfOk result (λ _. All (λ e. IsNetwork e.0) entries.now) }
    {
        Ok(TableEntries {
            indexed: Indexed::of(alloc, map, entries)?,
        })
    }

    /// The same entries, shared and not copied. `AllocError`: they can't have another owner.
    pub(crate) fn shared(&self) -> Result<TableEntries, AllocError>
        ensures { IfOk result (λ e. e ≡ self.now) }
    {
        Ok(TableEntries {
            indexed: self.indexed.shared()?,
        })
    }

    /// The map of the entries.
    pub(crate) fn map(&self) -> &EntryMap
        ensures { result.now ≡ self.now }
    {
        self.indexed.map()
    }

    /// As [`Indexed::with_added`]. `AllocError`: as there.
    pub(crate) fn with_added(
        &self,
        alloc: Global,
        map: EntryMap,
        list: &[Entry],
        answers: &[Addition],
    ) -> Result<TableEntries, AllocError>
        requires after { map ≡ added self.now list.now }
        requires answers { answers.now ≡ additions self.now list.now }
        ensures { IfOk result (λ e. e ≡ map) }
    {
        Ok(TableEntries {
            indexed: self.indexed.with_added(alloc, map, list, answers)?,
        })
    }

    /// As [`Indexed::without_deleted`]. `AllocError`: as there.
    pub(crate) fn without_deleted(
        &self,
        alloc: Global,
        map: EntryMap,
        list: &[Entry],
        answers: &[Deletion],
    ) -> Result<TableEntries, AllocError>
        requires after { map ≡ deleted self.now list.now }
        requires answers { answers.now ≡ deletions self.now list.now }
        ensures { IfOk result (λ e. e ≡ map) }
    {
        Ok(TableEntries {
            indexed: self.indexed.without_deleted(alloc, map, list, answers)?,
        })
    }

    /// As [`Indexed::decider`].
    pub(crate) fn decider(&self, addr: Addr) -> Option<Entry>
        requires { IsTable self.now }
        ensures { result ≡ deciding self.now addr }
    {
        self.indexed.decider(addr)
    }
}
