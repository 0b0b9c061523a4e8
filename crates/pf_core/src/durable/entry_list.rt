//! Lists of entries, as they are handed in.
ghost use Rattle.std.specs.Prelude.{◌≡◌, IfOk};

use pf_table::Entry;
use std::alloc::{AllocError, Global};
use std::marker::Model;

/// Entries of a table, any number of them, as a command names them: in its order, and with any network as often as it is named. Contracts
/// see the list.
#[derive(Drop)]
pub struct EntryList {
    entries: Vec<Entry>,
}

impl Model for EntryList {
    ghost use Rattle.std.specs.Prelude.{List};
    ghost use Rattle.pf_table.specs.Entries.{PlainEntry};

    ghost Value = { List PlainEntry };

    ghost view = { λ e. e.entries.items };
}

impl EntryList {
    /// The list of these. It takes no memory.
    pub fn new(entries: Vec<Entry>) -> EntryList
        ensures { result ≡ entries.items }
    {
        EntryList { entries }
    }

    /// The entries in order.
    pub fn as_slice(&self) -> &[Entry]
        ensures { result.now ≡ self.now }
    {
        self.entries.as_slice()
    }

    /// The same list. `AllocError`: nothing is made.
    pub fn copied(&self, alloc: Global) -> Result<EntryList, AllocError>
        ensures { IfOk result (λ l. l ≡ self.now) }
    {
        Ok(EntryList::new(Vec::from_slice(alloc, self.entries.as_slice())?))
    }
}
