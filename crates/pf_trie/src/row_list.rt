//! Lists of rows.
ghost use Rattle.std.specs.Prelude.{◌≡◌, ◌∷◌, ◌++◌, ◌<◌, ◌≤◌, [], length, set, slice_index_or, IfOk};
ghost use Rattle.std.specs.List.{insert, remove};
ghost use Rattle.pf_trie.specs.declared.rows.Row.{Row};

use crate::narrow::NarrowRow;
use crate::rows::Row;
use std::alloc::{AllocError, Global};
use std::marker::Model;

// With more rows than these a page becomes a fork. A page of narrow ones has more of them in as many bytes: with this limit two levels of
// forks are enough for 65,536 of them.
const NARROW_LIMIT: usize = 384;

const WIDE_LIMIT: usize = 128;

// How many rows more a copy has room for that is made for a new row: others often come soon after it, and then no more memory is taken.
const ROOM: usize = 4;

// Rows, all in fewer bytes or none.
#[derive(Drop)]
enum Kept {
    Narrow(Vec<NarrowRow>),
    Wide(Vec<Row>),
}

/// Rows, in fewer bytes as long as all of them are narrow. Contracts see the list of them.
#[derive(Drop)]
pub struct RowList {
    kept: Kept,
}

impl Model for RowList {
    ghost use Rattle.std.specs.Prelude.{List};
    ghost use Rattle.pf_trie.specs.declared.rows.Row.{Row};

    ghost Value = { List Row };

    ghost use Rattle.pf_trie.specs.KeptRows.{rows_of};

    ghost view = { λ l. rows_of l.kept };
}

// Narrow rows as rows, with room for one more. `AllocError`: nothing is made.
fn widened(alloc: Global, narrow: &[NarrowRow]) -> Result<Vec<Row>, AllocError>
    ensures { IfOk result (λ rows. rows.items ≡ narrow.now) }
{
    let mut rows = Vec::with_capacity(alloc, narrow.len().saturating_add(1))?;
    for row in narrow {
        rows.push(row.row())?;
    }
    Ok(rows)
}

// Items with one more at a place, in a list of their own that has room for others. `AllocError`: nothing is made.
fn with_one_more<T: Copy>(
    alloc: Global,
    items: &[T],
    place: usize,
    item: T,
) -> Result<Vec<T>, AllocError>
    requires { place ≤ length items.now }
    ensures { IfOk result (λ v. v.items ≡ insert items.now place item) }
{
    let (before, beyond) = items.split_at(place);
    let mut more = Vec::with_capacity(alloc, items.len().saturating_add(1 + ROOM))?;
    more.extend_from_slice(before)?;
    more.push(item)?;
    more.extend_from_slice(beyond)?;
    Ok(more)
}

impl RowList {
    /// No rows. It takes no memory.
    pub(crate) fn none(alloc: Global) -> RowList
        ensures { result ≡ [] }
    {
        RowList {
            kept: Kept::Narrow(Vec::new(alloc)),
        }
    }

    /// A copy, with room for one more. `AllocError`: nothing is made.
    pub(crate) fn copied(&self, alloc: Global) -> Result<RowList, AllocError>
        ensures { IfOk result (λ l. l ≡ self.now) }
    {
        match &self.kept {
            Kept::Narrow(rows) => {
                let mut copy = Vec::with_capacity(alloc, rows.len().saturating_add(1))?;
                copy.extend_from_slice(rows)?;
                Ok(RowList {
                    kept: Kept::Narrow(copy),
                })
            }
            Kept::Wide(rows) => {
                let mut copy = Vec::with_capacity(alloc, rows.len().saturating_add(1))?;
                copy.extend_from_slice(rows)?;
                Ok(RowList {
                    kept: Kept::Wide(copy),
                })
            }
        }
    }

    /// A copy with a row put in at a place, and room for others. `AllocError`: nothing is made.
    pub(crate) fn copied_with(
        &self,
        alloc: Global,
        place: usize,
        row: Row,
    ) -> Result<RowList, AllocError>
        requires { place ≤ length self.now }
        ensures { IfOk result (λ l. l ≡ insert self.now place row) }
    {
        match &self.kept {
            Kept::Narrow(rows) => match NarrowRow::of(row) {
                Some(narrow) => Ok(RowList {
                    kept: Kept::Narrow(with_one_more(alloc, rows, place, narrow)?),
                }),
                None => self.copied(alloc)?.insert(alloc, place, row),
            },
            Kept::Wide(rows) => Ok(RowList {
                kept: Kept::Wide(with_one_more(alloc, rows, place, row)?),
            }),
        }
    }

    /// How many there are.
    pub(crate) fn len(&self) -> usize
        ensures { result ≡ length self.now }
    {
        match &self.kept {
            Kept::Narrow(rows) => rows.len(),
            Kept::Wide(rows) => rows.len(),
        }
    }

    /// Whether they are few enough for one page.
    pub(crate) fn fit_page(&self) -> bool {
        match &self.kept {
            Kept::Narrow(rows) => rows.len() <= NARROW_LIMIT,
            Kept::Wide(rows) => rows.len() <= WIDE_LIMIT,
        }
    }

    /// The row at a place.
    pub(crate) fn at(&self, place: usize) -> Row
        requires { place < length self.now }
        ensures { (d : Row) → slice_index_or self.now place d ≡ result }
    {
        match &self.kept {
            Kept::Narrow(rows) => rows[place].row(),
            Kept::Wide(rows) => rows[place],
        }
    }

    // The rows, none of them narrow. `AllocError`: nothing is left of them.
    fn wide(self, alloc: Global) -> Result<Vec<Row>, AllocError>
        ensures { IfOk result (λ rows. rows.items ≡ self) }
    {
        let RowList { kept } = self;
        match kept {
            Kept::Narrow(rows) => widened(alloc, &rows),
            Kept::Wide(rows) => Ok(rows),
        }
    }

    /// With a row put in at a place. `AllocError`: nothing is left of them.
    pub(crate) fn insert(self, alloc: Global, place: usize, row: Row) -> Result<RowList, AllocError>
        requires { place ≤ length self }
        ensures { IfOk result (λ l. l ≡ insert self place row) }
    {
        let RowList { kept } = self;
        match (kept, NarrowRow::of(row)) {
            (Kept::Narrow(mut rows), Some(narrow)) => {
                rows.insert(place, narrow)?;
                Ok(RowList {
                    kept: Kept::Narrow(rows),
                })
            }
            (kept, _) => {
                let mut rows = RowList { kept }.wide(alloc)?;
                rows.insert(place, row)?;
                Ok(RowList {
                    kept: Kept::Wide(rows),
                })
            }
        }
    }

    /// With a row behind the last one. `AllocError`: nothing is left of them.
    pub(crate) fn push(self, alloc: Global, row: Row) -> Result<RowList, AllocError>
        ensures { IfOk result (λ l. l ≡ self ++ row ∷ []) }
    {
        let RowList { kept } = self;
        match (kept, NarrowRow::of(row)) {
            (Kept::Narrow(mut rows), Some(narrow)) => {
                rows.push(narrow)?;
                Ok(RowList {
                    kept: Kept::Narrow(rows),
                })
            }
            (kept, _) => {
                let mut rows = RowList { kept }.wide(alloc)?;
                rows.push(row)?;
                Ok(RowList {
                    kept: Kept::Wide(rows),
                })
            }
        }
    }

    /// With another row at a place. `AllocError`: nothing is left of them.
    pub(crate) fn set(self, alloc: Global, place: usize, row: Row) -> Result<RowList, AllocError>
        requires { place < length self }
        ensures { IfOk result (λ l. l ≡ set self place row) }
    {
        let RowList { kept } = self;
        match (kept, NarrowRow::of(row)) {
            (Kept::Narrow(mut rows), Some(narrow)) => {
                rows[place] = narrow;
                Ok(RowList {
                    kept: Kept::Narrow(rows),
                })
            }
            (kept, _) => {
                let mut rows = RowList { kept }.wide(alloc)?;
                rows[place] = row;
                Ok(RowList {
                    kept: Kept::Wide(rows),
                })
            }
        }
    }

    /// Without the row at a place.
    pub(crate) fn remove(self, place: usize) -> RowList
        requires { place < length self }
        ensures { result ≡ remove self place }
    {
        let RowList { kept } = self;
        match kept {
            Kept::Narrow(mut rows) => {
                rows.remove(place);
                RowList {
                    kept: Kept::Narrow(rows),
                }
            }
            Kept::Wide(mut rows) => {
                rows.remove(place);
                RowList {
                    kept: Kept::Wide(rows),
                }
            }
        }
    }
}
