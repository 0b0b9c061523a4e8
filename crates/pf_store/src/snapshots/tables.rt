//! Tables at their places, in a snapshot.
ghost use Rattle.std.specs.{Prelude.{◌≡◌, ◌≤◌, ◌&&◌, nat_le, true, T, length, map, IfOk, OnOk}, FinMap.is_sorted, List.list_all};
ghost use Rattle.pf_form.specs.{Bytes.Forms.{onto, Fits}, Bytes.Readers.Reads};
ghost use Rattle.pf_anchor.specs.{declared.limits.TheConstants.TABLE_COUNT_LIMIT, Tables.{IsTableMap, table_order}};
ghost use Rattle.pf_anchor.specs.Forms.{has_some, kept_tables_form, placed_form, plain_tabled};

use crate::encoding::{push_table, read_table};
use pf_addr::path::TableName;
use pf_anchor::{Config, Path, PlacedTable, TABLE_COUNT_LIMIT};
use pf_form::bytes::{
    Fault, Layout, Ordered, Rest, Undecoded, push_fitting, push_u32, read_ordered_list,
};
use std::alloc::{AllocError, Global};

// A table with its path and its name, as a snapshot has it.
#[derive(Drop)]
struct StoredPlaced {
    placed: PlacedTable,
}

impl Layout for StoredPlaced {
    ghost use Rattle.pf_anchor.specs.Forms.{PlacedShape, placed_form, placed_before, plain_tabled};

    ghost shape = { PlacedShape };

    ghost form = { λ version. placed_form };

    ghost plain = { λ row. plain_tabled row.placed };

    ghost before = { placed_before };

    #[tactic(auto, unfolding(pf_anchor::specs::Forms::placed_form, pf_anchor::specs::Forms::named_form))]
    fn read<'a>(
        alloc: Global,
        version: u8,
        from: &mut Rest<'a>,
    ) -> Result<StoredPlaced, Undecoded> {
        let path = Path::read(alloc, version, from)?;
        let name = TableName::read(alloc, version, from)?;
        let table = read_table(alloc, version, from)?;
        Ok(StoredPlaced {
            placed: PlacedTable::new(alloc, (path, name), table)?,
        })
    }

    fn write(&self, version: u8, out: &mut Vec<u8>) -> Result<(), AllocError> {
        push_placed(out, version, &self.placed)
    }
}

impl Ordered for StoredPlaced {
    fn comes_before(&self, other: &StoredPlaced) -> bool {
        let (path, name) = self.placed.key();
        let (other_path, other_name) = other.placed.key();
        path.order(other_path).then(name.order(other_name)).is_lt()
    }
}

fn has_entries(row: &StoredPlaced) -> bool
    ensures { result ≡ has_some row.now.placed.1 }
{
    !row.placed.value().is_empty()
}

fn are_filled(rows: &[StoredPlaced]) -> bool
    ensures { result ≡ list_all (λ row. has_some row.placed.1) rows.now }
{
    rows.iter().all(has_entries)
}

// Whether there are no more than allowed, and none of them is empty.
fn are_tables(rows: &[StoredPlaced]) -> bool
    ensures { result ≡ nat_le (length rows.now) TABLE_COUNT_LIMIT && list_all (λ row. has_some row.placed.1) rows.now }
{
    rows.len() <= TABLE_COUNT_LIMIT && are_filled(rows)
}

fn placed_in(alloc: Global, rows: Vec<StoredPlaced>) -> Result<Vec<PlacedTable>, AllocError>
    ensures { IfOk result (λ v. v.items ≡ map (λ row. row.placed) rows.items) }
{
    rows.into_iter().map(|row| row.placed).collect(alloc)
}

/// Reads the tables from the front of the bytes, in the order of their paths, at one path in that of their names. Fails with the first
/// fault of their form there, or when out of memory.
#[tactic(auto, unfolding(pf_anchor::specs::Forms::kept_tables_form), using(crate::proofs::Durables::tables_sorted, crate::proofs::Durables::tables_are, crate::proofs::Durables::tables_filled))]
pub(crate) fn read_tables<'a>(
    alloc: Global,
    version: u8,
    from: &mut Rest<'a>,
) -> Result<Vec<PlacedTable>, Undecoded>
    ensures read { Reads (λ v. map plain_tabled v.items) kept_tables_form result from.old.now from.new.now }
    ensures sorted { IfOk result (λ v. T (is_sorted table_order v.items)) }
    ensures filled { IfOk result (λ v. list_all (λ t. has_some t.1) v.items ≡ true) }
{
    let left = from.len();
    let rows = read_ordered_list::<StoredPlaced>(alloc, version, from)?;
    if !are_tables(&rows) {
        return Err(Undecoded::Fault(Fault::Bad(left)));
    }
    Ok(placed_in(alloc, rows)?)
}

// That the tables are a map: the contract of `table_at` says so. Without tables there is no place to ask for, and none is needed.
fn tables_are_a_map(config: &Config)
    ensures { IsTableMap config.now.tables }
{
    if let Some(first) = config.each_table().next() {
        let (path, name) = first.key();
        let _table = config.table_at(path, name);
    }
}

// Appends a table's path, its name and its entries to the bytes.
#[tactic(auto, unfolding(pf_anchor::specs::Forms::placed_form, pf_anchor::specs::Forms::named_form))]
fn push_placed(out: &mut Vec<u8>, version: u8, placed: &PlacedTable) -> Result<(), AllocError>
    ensures written { OnOk result (out.new.items ≡ onto placed_form (plain_tabled placed.now) out.old.items) }
    ensures fits { OnOk result (Fits placed_form (plain_tabled placed.now)) }
{
    let (path, name) = placed.key();
    push_fitting(out, version, path)?;
    push_fitting(out, version, name)?;
    push_table(out, version, placed.value())
}

/// Appends the tables, at most 1,024, to the bytes, in the order of their paths and names; they fit. Fails only when out of memory.
#[tactic(auto, unfolding(pf_anchor::specs::Forms::kept_tables_form), using(crate::proofs::Durables::tables_fit))]
pub(crate) fn push_tables(out: &mut Vec<u8>, version: u8, config: &Config) -> Result<(), AllocError>
    requires { length config.now.tables ≤ TABLE_COUNT_LIMIT }
    ensures written { OnOk result (out.new.items ≡ onto kept_tables_form (map plain_tabled config.now.tables) out.old.items) }
    ensures fits { OnOk result (Fits kept_tables_form (map plain_tabled config.now.tables)) }
{
    tables_are_a_map(config);
    push_u32(out, config.table_count() as u32)?;
    for placed in config.each_table() {
        push_placed(out, version, placed)?;
    }
    Ok(())
}
