//! Tables that are offered.
ghost use Rattle.std.specs.{Prelude.{◌≡◌, T, [], length, nat_lt, List, IfOk, OnOk, OnErr}, FinMap.{find, put, is_sorted}};
ghost use Rattle.std.specs.{Iterator.{item_count, YieldsFirstBy}, Option.option_map};
ghost use Rattle.pf_addr.specs.Path.Names.{name_order};
ghost use Rattle.pf_map.specs.Maps.{entry_at};
ghost use Rattle.pf_table.specs.Entries.{PlainEntry};
ghost use Rattle.pf_ticket.specs.declared.limits.TheConstants.{OFFERED_TABLE_LIMIT};

use crate::limits::OFFERED_TABLE_LIMIT;
use pf_addr::path::TableName;
use pf_map::{Entries, Holder, TreeMap};
use pf_table::Table;
use std::alloc::{AllocError, Global};
use std::marker::Model;

/// A table that was defined. Contracts see the pair of its name's bytes and its entries.
pub struct DefinedTable {
    name: TableName,
    table: Table,
}

impl Drop for DefinedTable {
    fn drop(self) {
        let DefinedTable { name: _, table: _ } = self;
    }
}

impl Model for DefinedTable {
    ghost use Rattle.pf_ticket.specs.NamedTables.{PlainDefinedTable};

    ghost Value = { PlainDefinedTable };

    ghost view = { λ d. (d.name, d.table) };
}

impl DefinedTable {
    /// A table of this name.
    pub fn new(name: TableName, table: Table) -> DefinedTable
        ensures { result ≡ (name, table) }
    {
        DefinedTable { name, table }
    }

    /// Its name.
    pub fn name(&self) -> &TableName
        ensures { result.now ≡ self.now.0 }
    {
        &self.name
    }

    /// Its entries; none if a commit is to take the table out.
    pub fn table(&self) -> &Table
        ensures { result.now ≡ self.now.1 }
    {
        &self.table
    }
}

impl Holder<TableName, Table> for DefinedTable {
    ghost pair = { λ d. d };

    fn share(&self) -> Result<DefinedTable, AllocError> {
        Ok(DefinedTable {
            name: self.name,
            table: self.table.shared()?,
        })
    }

    fn held_key(&self) -> &TableName {
        &self.name
    }
}

/// Defined tables that are left to come, in the order of their names. Contracts see it as the list.
///
/// It has no type parameters, so that a proof that loops over defined tables or drops this says nothing of pages.
pub struct EachDefined<'a> {
    entries: Entries<'a, TableName, Table, DefinedTable>,
}

impl<'a> Drop for EachDefined<'a> {
    fn drop(self) {
        let EachDefined { entries: _ } = self;
    }
}

impl<'a> Model for EachDefined<'a> {
    ghost use Rattle.std.specs.Prelude.{List};
    ghost use Rattle.pf_ticket.specs.NamedTables.{PlainDefinedTable};

    ghost Value = { List PlainDefinedTable };

    ghost view = { λ s. s.entries };
}

impl<'a> Iterator for EachDefined<'a> {
    type Item = &'a DefinedTable;

    ghost next_gives = { YieldsFirstBy (λ d. d.now) (λ s. s) };

    ghost remaining = { item_count (λ s. s) };

    fn next(&mut self) -> Option<&'a DefinedTable> {
        self.entries.next()
    }
}

/// The tables that are offered with a ticket, in the order of their names. Contracts see it as the list.
pub struct Defined {
    tables: TreeMap<TableName, Table, DefinedTable>,
}

impl Drop for Defined {
    fn drop(self) {
        let Defined { tables: _ } = self;
    }
}

impl Model for Defined {
    ghost use Rattle.std.specs.Prelude.{List, T};
    ghost use Rattle.std.specs.FinMap.{is_sorted};
    ghost use Rattle.pf_addr.specs.Path.Names.{name_order};
    ghost use Rattle.pf_ticket.specs.NamedTables.{PlainDefinedTable};

    ghost Value = { List PlainDefinedTable };

    ghost view = { λ d. d.tables };

    ghost invariant = { λ d. T (is_sorted name_order d.tables) };
}

impl Defined {
    // No tables. It takes no memory.
    pub(crate) fn none() -> Defined
        ensures { result ≡ [] }
    {
        Defined {
            tables: TreeMap::empty(),
        }
    }

    /// These tables, in the order of their names, none of them twice. `AllocError`: nothing is made.
    pub fn of(alloc: Global, tables: &[DefinedTable]) -> Result<Defined, AllocError>
        requires { T (is_sorted name_order tables.now) }
        ensures { IfOk result (λ d. d ≡ tables.now) }
    {
        Ok(Defined {
            tables: TreeMap::of(alloc, tables)?,
        })
    }

    /// How many tables there are.
    pub fn len(&self) -> usize
        ensures { result ≡ length self.now }
    {
        self.tables.len()
    }

    /// The tables, in the order of their names, none of them twice. It takes no memory.
    pub fn entries(&self) -> EachDefined<'_>
        ensures value { result ≡ self.now }
        ensures order { T (is_sorted name_order self.now) }
    {
        EachDefined {
            entries: self.tables.entries(),
        }
    }

    // The same tables, shared and not copied.
    pub(crate) fn shared(&self) -> Result<Defined, AllocError>
        ensures { IfOk result (λ d. d ≡ self.now) }
    {
        Ok(Defined {
            tables: self.tables.shared()?,
        })
    }

    // The table of a name, if there is one.
    fn get(&self, name: &TableName) -> Option<&DefinedTable>
        ensures table { option_map (λ e. e.now) result ≡ entry_at name_order name.now self.now }
        // the invariant of defined tables
        ensures order { T (is_sorted name_order self.now) }
    {
        self.tables.get(name)
    }

    // The entries that are offered under a name, if it was defined.
    pub(crate) fn entries_of(&self, name: &TableName) -> Option<&Table>
        ensures { option_map (λ t. t.now) result ≡ find name_order name.now self.now }
    {
        Some(self.get(name)?.table())
    }

    // These with one more, in the place of the one of its name. `AllocError`: nothing is left of them.
    fn with(self, alloc: Global, new: &DefinedTable) -> Result<Defined, AllocError>
        ensures { IfOk result (λ d. d ≡ put name_order new.now.0 new.now.1 self) }
    {
        let Defined { tables } = self;
        Ok(Defined {
            tables: tables.with(alloc, new)?,
        })
    }

    // Whether there would be more tables than allowed, with one of this name.
    pub(crate) fn is_full_for(&self, name: &TableName) -> bool
        ensures { (rows : List PlainEntry) → result ≡ nat_lt OFFERED_TABLE_LIMIT (length (put name_order name.now rows self.now)) }
    {
        let room = match self.get(name) {
            Some(_) => OFFERED_TABLE_LIMIT,
            None => OFFERED_TABLE_LIMIT - 1,
        };
        room < self.len()
    }

    // Sets the table of this name. Out of memory: all is as before.
    pub(crate) fn define(
        &mut self,
        alloc: Global,
        name: &TableName,
        table: Table,
    ) -> Result<(), AllocError>
        ensures ok { OnOk result (self.new ≡ put name_order name.now table self.old) }
        ensures err { OnErr result (self.new ≡ self.old) }
    {
        let defined = DefinedTable { name: *name, table };
        *self = self.shared()?.with(alloc, &defined)?;
        Ok(())
    }
}
