//! Tables and entries.
ghost use Rattle.std.specs.Prelude.{◌≡◌, ◌<◌, ◌^◌, length, IfOk, OnOk};
ghost use Rattle.pf_form.specs.{Bytes.Forms.{counted, onto, Fits}, Bytes.Readers.Reads};
ghost use Rattle.pf_table.specs.EntryForms.{entry};
ghost use Rattle.pf_anchor.specs.Forms.{plain_entries, entries_form, named_form, plain_named};

use pf_addr::path::TableName;
use pf_form::bytes::{
    Fault, Layout, Ordered, Rest, Undecoded, push_fitting, push_list, push_u32, read_list,
    read_ordered_list,
};
use pf_table::{Entry, TABLE_LIMIT, Table};
use pf_ticket::DefinedTable;
use std::alloc::{AllocError, Global};

/// Appends the entries' number in four bytes and the entries, as handed in, to the bytes; they fit. Fails only when out of memory.
pub(crate) fn push_entries(
    out: &mut Vec<u8>,
    version: u8,
    entries: &[Entry],
) -> Result<(), AllocError>
    requires { length entries.now < 2 ^ 32 }
    ensures written { OnOk result (out.new.items ≡ onto (counted 4 entry) (plain_entries entries.now) out.old.items) }
    ensures fits { Fits (counted 4 entry) (plain_entries entries.now) }
{
    push_list(out, version, entries)
}

/// Reads entries after their number in four bytes. Fails with the first fault of their form there, or when out of memory.
pub(crate) fn read_entries<'a>(
    alloc: Global,
    version: u8,
    from: &mut Rest<'a>,
) -> Result<Vec<Entry>, Undecoded>
    ensures { Reads (λ v. plain_entries v.items) (counted 4 entry) result from.old.now from.new.now }
{
    read_list::<Entry>(alloc, version, from)
}

/// A table that was defined, as a commit has it.
#[derive(Drop)]
pub(crate) struct StoredTable {
    pub table: DefinedTable,
}

impl Layout for StoredTable {
    ghost use Rattle.pf_anchor.specs.Forms.{NamedShape, named_form, plain_named};
    ghost use Rattle.pf_store.specs.Groups.{named_before};

    ghost shape = { NamedShape };

    ghost form = { λ version. named_form };

    ghost plain = { λ row. plain_named row.table };

    ghost before = { named_before };

    #[tactic(auto, unfolding(pf_anchor::specs::Forms::named_form))]
    fn read<'a>(alloc: Global, version: u8, from: &mut Rest<'a>) -> Result<StoredTable, Undecoded> {
        let name = TableName::read(alloc, version, from)?;
        let table = read_table(alloc, version, from)?;
        Ok(StoredTable {
            table: DefinedTable::new(name, table),
        })
    }

    fn write(&self, version: u8, out: &mut Vec<u8>) -> Result<(), AllocError> {
        push_named(out, version, &self.table)
    }
}

impl Ordered for StoredTable {
    fn comes_before(&self, other: &StoredTable) -> bool {
        self.table.name().order(other.table.name()).is_lt()
    }
}

/// Reads entries in a table's order, at most as many as a table may have. Fails with the first fault there, or when out of memory.
#[tactic(auto, unfolding(pf_anchor::specs::Forms::entries_form), using(pf_table::proofs::TableRows::in_order_is))]
pub(crate) fn read_table<'a>(
    alloc: Global,
    version: u8,
    from: &mut Rest<'a>,
) -> Result<Table, Undecoded>
    ensures { Reads plain_entries entries_form result from.old.now from.new.now }
{
    let left = from.len();
    let entries = read_ordered_list::<Entry>(alloc, version, from)?;
    if entries.len() > TABLE_LIMIT {
        return Err(Undecoded::Fault(Fault::Bad(left)));
    }
    Ok(Table::of(alloc, &entries)?)
}

/// Appends a table's entries to the bytes, in its order; they fit. Fails only when out of memory.
#[tactic(auto, unfolding(pf_anchor::specs::Forms::entries_form), using(crate::proofs::Pushed::entries_fit))]
pub(crate) fn push_table(out: &mut Vec<u8>, version: u8, table: &Table) -> Result<(), AllocError>
    ensures written { OnOk result (out.new.items ≡ onto entries_form (plain_entries table.now) out.old.items) }
    ensures fits { OnOk result (Fits entries_form (plain_entries table.now)) }
{
    let entries = table.entries();
    push_u32(out, table.len() as u32)?;
    for entry in entries {
        push_fitting(out, version, entry)?;
    }
    Ok(())
}

/// Appends a table's name to the bytes, and its entries in their order; they fit. Fails only when out of memory.
#[tactic(auto, unfolding(pf_anchor::specs::Forms::named_form))]
pub(crate) fn push_named(
    out: &mut Vec<u8>,
    version: u8,
    defined: &DefinedTable,
) -> Result<(), AllocError>
    ensures written { OnOk result (out.new.items ≡ onto named_form (plain_named defined.now) out.old.items) }
    ensures fits { OnOk result (Fits named_form (plain_named defined.now)) }
{
    push_fitting(out, version, defined.name())?;
    push_table(out, version, defined.table())
}
