//! The networks of few entries in columns.
ghost use Rattle.std.specs.{Prelude.{◌≡◌, T, IfOk, IfSome, map}, Arc.arc_value, FinMap.is_sorted};
ghost use Rattle.pf_addr.specs.NetOrder.{net_order};
ghost use Rattle.pf_table.specs.Tables.{deciding};

use crate::entry::Entry;
use pf_addr::{Addr, Net};
use pf_lanes::{NetCols, longest};
use std::alloc::{AllocError, Global};
use std::marker::Model;
use std::sync::Arc;

// How many entries have columns at most.
const FEW: usize = 64;

/// Entries, and their networks in columns. Contracts see the list of the entries.
#[derive(Drop)]
pub(crate) struct Columns {
    entries: Vec<Entry>,
    nets: NetCols,
}

impl Model for Columns {
    ghost use Rattle.std.specs.Prelude.{◌≡◌, List, map};
    ghost use Rattle.pf_table.specs.Entries.{PlainEntry};

    ghost Value = { List PlainEntry };

    ghost view = { λ c. c.entries.items };

    ghost invariant = { λ c. c.nets ≡ map (λ e. e.0) c.entries.items };
}

// The networks of entries.
fn nets_of(alloc: Global, entries: &[Entry]) -> Result<Vec<Net>, AllocError>
    ensures { IfOk result (λ v. v.items ≡ map (λ e. e.0) entries.now) }
{
    let mut nets = Vec::with_capacity(alloc, entries.len())?;
    for entry in entries {
        nets.push(entry.net())?;
    }
    Ok(nets)
}

impl Columns {
    // The columns of a copy of these entries. `AllocError`: nothing is made.
    fn of(alloc: Global, entries: &[Entry]) -> Result<Columns, AllocError>
        ensures { IfOk result (λ c. c ≡ entries.now) }
    {
        let nets = NetCols::of(alloc, &nets_of(alloc, entries)?)?;
        Ok(Columns {
            entries: Vec::from_slice(alloc, entries)?,
            nets,
        })
    }

    /// The entry that decides about an address: of those that contain it the one with the longest prefix. It takes no memory.
    pub(crate) fn decider(&self, addr: Addr) -> Option<Entry>
        requires { T (is_sorted net_order self.now) }
        ensures { result ≡ deciding self.now addr }
    {
        let place = longest(&self.nets, addr)?;
        Some(self.entries[place])
    }
}

/// The columns of entries, if these are few. `AllocError`: nothing is made.
pub(crate) fn columns_of_few(
    alloc: Global,
    entries: &[Entry],
) -> Result<Option<Arc<Columns>>, AllocError>
    ensures { IfOk result (λ few. IfSome few (λ c. arc_value c ≡ entries.now)) }
{
    if entries.len() > FEW {
        return Ok(None);
    }
    Ok(Some(Arc::new(alloc, Columns::of(alloc, entries)?)?))
}
