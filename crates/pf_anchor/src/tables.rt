//! The active tables.
ghost use Rattle.std.specs.Prelude.{◌≡◌, length};
ghost use Rattle.pf_form.specs.Bytes.Forms.{length_of};
ghost use Rattle.pf_table.specs.Tables.{IsTable};
ghost use Rattle.pf_anchor.specs.Forms.{named_form, plain_named};

use pf_addr::path::{Path, TableName};
use pf_key::{Key, Sought};
use pf_map::{Each, KeyValue, PagedMap, Weigher};
use pf_table::Table;
use std::cmp::Ordering;

/// A table at its place: its path, its name, and its entries, shared by all its holders. Contracts see it as a `PlainPlacedTable`.
pub type PlacedTable = KeyValue<(Path, TableName), Table>;

// How many bytes an entry takes.
const ENTRY_BYTES: usize = 20;

// How many entries a table has, which its invariant bounds.
fn entry_count(table: &Table) -> usize
    ensures value { result ≡ length table.now }
    ensures table { IsTable table.now }
{
    let _entries = table.entries();
    table.len()
}

/// How many bytes a table takes after its path where it is kept, in each version: a name after its length, and entries after their number.
/// It looks at no entry.
#[tactic(auto, using(crate::proofs::Lengths::named_long))]
pub fn named_table_length(name: &TableName, table: &Table) -> u32
    ensures { result ≡ length_of named_form (plain_named (name.now, table.now)) }
{
    let name = name.as_bytes();
    (5 + name.len() + ENTRY_BYTES * entry_count(table)) as u32
}

/// The weight of a table: the bytes that it takes where it is kept.
pub(crate) struct TableBytes;

impl Weigher<(Path, TableName), Table> for TableBytes {
    ghost use Rattle.pf_anchor.specs.Forms.{tabled_length};

    ghost weight = { tabled_length };

    #[tactic(auto, using(crate::proofs::Lengths::tabled_long, crate::proofs::Lengths::path_short))]
    fn weigh(placed: &PlacedTable) -> u32 {
        let (path, name) = placed.key();
        let path = path.as_bytes();
        let name = name.as_bytes();
        (6 + path.len() + name.len() + ENTRY_BYTES * entry_count(placed.value())) as u32
    }
}

/// The tables that have entries, in the order of their paths, and at one path in that of their names, and how many bytes they take.
/// Contracts see it as the list.
pub(crate) type Tables = PagedMap<(Path, TableName), Table, TableBytes>;

/// An iterator over tables in the order of their paths, and at one path in that of their names. Contracts see those that are still to come.
pub type EachTable<'a> = Each<'a, (Path, TableName), Table>;

/// Where a table is looked for. It borrows the path, which is long to copy.
#[derive(Clone, Copy)]
pub(crate) struct Place<'a> {
    pub path: &'a Path,
    pub name: &'a TableName,
}

impl<'a> Sought<(Path, TableName)> for Place<'a> {
    ghost key = { λ p. (p.path.now, p.name.now) };

    fn order(&self, other: &(Path, TableName)) -> Ordering {
        self.path.order(&other.0).then(self.name.order(&other.1))
    }

    fn same(&self, other: &(Path, TableName)) -> bool {
        self.path.same(&other.0) && self.name.same(&other.1)
    }

    fn hint(&self) -> u64 {
        Key::hint(self.path)
    }
}
