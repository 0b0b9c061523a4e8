//! Tables.
ghost use Rattle.std.specs.Prelude.{◌≡◌, ◌==◌, false, [], cond, length, is_ok, Contains, IfOk, IfSome, None};
ghost use Rattle.pf_addr.specs.{Refusing.Refuses, Address.contains};
ghost use Rattle.pf_table.specs.declared.refusal.TableRefusal.TheVariants.{Memory};
ghost use Rattle.pf_table.specs.{Entries.PlainEntry, Tables.{AreEntries, IsTable, Decides, deciding, table_holds}};
ghost use Rattle.pf_table.specs.Edits.{added, additions, deleted, deletions, replaced, conflict_refusal, edit_refusal};

use crate::answer::{Addition, Deletion};
use crate::batch::gather;
use crate::change::{add_all, delete_all};
use crate::columns::{Columns, columns_of_few};
use crate::each::EachEntry;
use crate::entry::Entry;
use crate::entry_map::EntryMap;
use crate::limits::TABLE_LIMIT;
use crate::refusal::TableRefusal;
use crate::table_entries::TableEntries;
use pf_addr::Addr;
use std::alloc::{AllocError, Global};
use std::marker::Model;
use std::sync::Arc;

/// At most 65,536 networks, none of them twice, each plain or negated. Contracts see the list of its entries in order: IPv4 before IPv6,
/// then by the first address, then the shorter prefix before the longer.
pub struct Table {
    entries: TableEntries,
    /// What a table of few entries has until an edit, and all copies share.
    columns: Option<Arc<Columns>>,
}

impl Drop for Table {
    fn drop(self) {
        let Table {
            entries: _,
            columns: _,
        } = self;
    }
}

impl Model for Table {
    ghost use Rattle.std.specs.{Prelude.{◌≡◌, List, IfSome}, Arc.arc_value};
    ghost use Rattle.pf_table.specs.Entries.{PlainEntry};
    ghost use Rattle.pf_table.specs.Tables.{IsTable};

    ghost Value = { List PlainEntry };

    ghost view = { λ t. t.entries };

    ghost invariant = { λ t. IsTable t.entries × IfSome t.columns (λ c. arc_value c ≡ t.entries) };
}

// The entries of a map in a list.
fn listed(alloc: Global, map: &EntryMap) -> Result<Vec<Entry>, AllocError>
    ensures { IfOk result (λ v. v.items ≡ map.now) }
{
    let mut list = Vec::with_capacity(alloc, map.len())?;
    for entry in map.entries() {
        list.push(*entry)?;
    }
    Ok(list)
}

impl Table {
    /// A table without entries. It takes no memory.
    pub fn empty() -> Table
        ensures { result ≡ [] }
    {
        Table {
            entries: TableEntries::empty(),
            columns: None,
        }
    }

    /// The table of these entries, which are in a table's order, no network twice, at most 65,536. `AllocError`: nothing is made.
    pub fn of(alloc: Global, entries: &[Entry]) -> Result<Table, AllocError>
        requires { AreEntries entries.now }
        ensures { IfOk result (λ t. t ≡ entries.now) }
    {
        Table::holding(alloc, EntryMap::of(alloc, entries)?, entries)
    }

    // The table of a map's entries, which this list has too. `AllocError`: nothing is left of the map.
    fn holding(alloc: Global, map: EntryMap, entries: &[Entry]) -> Result<Table, AllocError>
        requires entries { AreEntries entries.now }
        requires same { map ≡ entries.now }
        ensures { IfOk result (λ t. t ≡ entries.now) }
    {
        let columns = columns_of_few(alloc, entries)?;
        Ok(Table {
            entries: TableEntries::of(alloc, map, entries)?,
            columns,
        })
    }

    /// The same entries, shared and not copied. `AllocError`: they can't have another owner.
    pub fn shared(&self) -> Result<Table, AllocError>
        ensures { IfOk result (λ t. t ≡ self.now) }
    {
        let columns = match &self.columns {
            Some(columns) => Some(Arc::try_clone(columns)?),
            None => None,
        };
        Ok(Table {
            entries: self.entries.shared()?,
            columns,
        })
    }

    /// How many entries it has.
    pub fn len(&self) -> usize
        ensures { result ≡ length self.now }
    {
        self.entries.map().len()
    }

    /// Whether it has no entries.
    pub fn is_empty(&self) -> bool
        ensures { result ≡ (length self.now == 0) }
    {
        self.entries.map().len() == 0
    }

    /// The entries in order. It takes no memory.
    pub fn entries(&self) -> EachEntry<'_>
        ensures value { result ≡ self.now }
        // the invariant of tables
        ensures table { IsTable self.now }
    {
        self.entries.map().entries()
    }

    /// The entry that decides about an address: of those that contain it the one with the longest prefix. It takes no memory.
    pub fn lookup(&self, addr: Addr) -> Option<Entry>
        ensures value { result ≡ deciding self.now addr }
        ensures decides { IfSome result (λ e. Decides self.now addr e) }
        ensures none { result ≡ None → (e : PlainEntry) → Contains self.now e → contains e.0 addr ≡ false }
    {
        self.decider(addr)
    }

    // The same, by columns where the table has some. The contract says too that it is one.
    fn decider(&self, addr: Addr) -> Option<Entry>
        ensures value { result ≡ deciding self.now addr }
        ensures table { IsTable self.now }
    {
        match &self.columns {
            Some(columns) => columns.decider(addr),
            None => self.entries.decider(addr),
        }
    }

    /// Whether the table matches an address: an entry decides about it and isn't negated. It takes no memory.
    #[tactic(auto, unfolding(crate::specs::Tables::table_holds))]
    pub fn test(&self, addr: Addr) -> bool
        ensures { result ≡ table_holds self.now addr }
    {
        match self.lookup(addr) {
            Some(entry) => !entry.is_negated(),
            None => false,
        }
    }

    /// Adds entries in turn; a network that is there already stays as it is. Answers what became of each entry, in the order handed in.
    ///
    /// The refusal is the first in this order: [`TableRefusal::Conflict`], [`TableRefusal::TableFull`] by how many entries there would be;
    /// [`TableRefusal::Memory`] may come before any of them. After a refusal the table is as before.
    pub fn add(&mut self, alloc: Global, entries: &[Entry]) -> Result<Vec<Addition>, TableRefusal>
        ensures refused { Refuses Memory result (edit_refusal entries.now (added self.old entries.now)) }
        ensures answers { IfOk result (λ v. v.items ≡ additions self.old entries.now) }
        ensures after { self.new ≡ cond (is_ok result) (added self.old entries.now) self.old }
    {
        let (after, answers) = add_all(alloc, self.entries.map(), entries)?;
        if after.is_more_than(TABLE_LIMIT) {
            return Err(TableRefusal::TableFull);
        }
        *self = Table {
            entries: self.entries.with_added(alloc, after, entries, &answers)?,
            columns: None,
        };
        Ok(answers)
    }

    /// Takes out, in turn, the entries that are there with their sign. Answers what became of each entry, in the order handed in.
    ///
    /// It refuses as [`Table::add`] does, but never with `TableFull`. After a refusal the table is as before.
    pub fn delete(
        &mut self,
        alloc: Global,
        entries: &[Entry],
    ) -> Result<Vec<Deletion>, TableRefusal>
        ensures refused { Refuses Memory result (conflict_refusal entries.now) }
        ensures answers { IfOk result (λ v. v.items ≡ deletions self.old entries.now) }
        ensures after { self.new ≡ cond (is_ok result) (deleted self.old entries.now) self.old }
    {
        gather(alloc, entries)?;
        let (after, answers) = delete_all(alloc, self.entries.map().shared()?, entries)?;
        *self = Table {
            entries: self
                .entries
                .without_deleted(alloc, after, entries, &answers)?,
            columns: None,
        };
        Ok(answers)
    }

    /// Replaces all entries by these. The refusals are those of [`Table::add`]; after one the table is as before.
    pub fn replace(&mut self, alloc: Global, entries: &[Entry]) -> Result<(), TableRefusal>
        ensures refused { Refuses Memory result (edit_refusal entries.now (replaced entries.now)) }
        ensures after { self.new ≡ cond (is_ok result) (replaced entries.now) self.old }
    {
        let named = gather(alloc, entries)?;
        if named.is_more_than(TABLE_LIMIT) {
            return Err(TableRefusal::TableFull);
        }
        let list = listed(alloc, &named)?;
        *self = Table::holding(alloc, named, &list)?;
        Ok(())
    }
}
