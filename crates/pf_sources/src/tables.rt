//! Tables that are filled.
ghost use Rattle.std.specs.Prelude.{◌≡◌, map, IfOk};
ghost use Rattle.pf_parse.specs.Stops.{Gives};
ghost use Rattle.pf_sources.specs.Tables.{plain, entry_at, filled};

use pf_parse::{Entry, Mistake, Stop, refusal};
use pf_table::{Entry as TableEntry, Table, TableRefusal};
use pf_tokens::{Items, Place};
use std::alloc::{AllocError, Global};

/// The entries without their places.
#[tactic(auto, using(crate::proofs::Steps::map_item))]
fn plain_entries(alloc: Global, entries: &[Entry]) -> Result<Vec<TableEntry>, AllocError>
    ensures { IfOk result (λ v. v.items ≡ map plain entries.now) }
{
    let mut listed = Vec::new(alloc);
    for entry in entries {
        listed.push(TableEntry::new(entry.net, entry.is_negated))?;
    }
    Ok(listed)
}

/// The table of these entries, whose name stands at this place: an entry is once in it, and has one sign.
///
/// `Stop::Faulty`: the first entry whose network came with the other sign, or more entries than a table may have; `Stop::Memory`: out of
/// memory.
#[tactic(auto, unfolding(crate::specs::Tables::filled))]
pub fn filled(alloc: Global, named: Place, entries: &[Entry]) -> Result<Table, Stop>
    ensures { Gives result (filled named entries.now) }
{
    let listed = plain_entries(alloc, entries)?;
    let mut table = Table::empty();
    match table.replace(alloc, &listed) {
        Ok(()) => Ok(table),
        Err(TableRefusal::Conflict { at }) if at < entries.len() => {
            Err(refusal(entries[at].place, Mistake::OtherSign))
        }
        Err(TableRefusal::Conflict { .. }) => Err(refusal(named, Mistake::OtherSign)),
        Err(TableRefusal::TableFull) => Err(refusal(named, Mistake::ManyEntries)),
        Err(TableRefusal::Memory) => Err(Stop::Memory),
    }
}

/// An entry of a table, as one that stands at this place.
fn entry_at(place: Place, entry: TableEntry) -> Entry
    ensures { result ≡ entry_at place entry }
{
    Entry {
        place,
        net: entry.net(),
        is_negated: entry.is_negated(),
    }
}

/// The entries of a table, as some that stand at this place.
pub(crate) fn entries_at(
    alloc: Global,
    place: Place,
    table: &Table,
) -> Result<Items<Entry>, AllocError>
    ensures { IfOk result (λ es. es ≡ map (entry_at place) table.now) }
{
    let mut entries = Items::new(alloc);
    for entry in table.entries() {
        entries.push(entry_at(place, *entry))?;
    }
    Ok(entries)
}
