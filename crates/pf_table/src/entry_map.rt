//! Entries in order.
ghost use Rattle.std.specs.{Prelude.{◌≡◌, T, [], length, nat_lt, Some, None, IfOk}, Option.option_map};
ghost use Rattle.std.specs.FinMap.{find, is_sorted};
ghost use Rattle.pf_addr.specs.NetOrder.{net_order};
ghost use Rattle.pf_map.specs.Maps.{with_value, without, entry_at};

use crate::each::EachEntry;
use crate::entry::Entry;
use pf_addr::Net;
use pf_map::TreeMap;
use std::alloc::{AllocError, Global};
use std::marker::Model;

/// Entries in the order of their networks, each in its page. Contracts see it as the list.
///
/// It has no type parameters, so that the proofs of edits say nothing of pages.
pub(crate) struct EntryMap {
    tree: TreeMap<Net, bool, Entry>,
}

impl Drop for EntryMap {
    fn drop(self) {
        let EntryMap { tree: _ } = self;
    }
}

impl Model for EntryMap {
    ghost use Rattle.std.specs.Prelude.{List};
    ghost use Rattle.pf_table.specs.Entries.{PlainEntry};

    ghost Value = { List PlainEntry };

    ghost view = { λ m. m.tree };
}

impl EntryMap {
    /// As [`TreeMap::empty`].
    pub(crate) fn empty() -> EntryMap
        ensures { result ≡ [] }
    {
        EntryMap {
            tree: TreeMap::empty(),
        }
    }

    /// As [`TreeMap::of`]. `AllocError`: nothing is made.
    pub(crate) fn of(alloc: Global, entries: &[Entry]) -> Result<EntryMap, AllocError>
        requires { T (is_sorted net_order entries.now) }
        ensures { IfOk result (λ m. m ≡ entries.now) }
    {
        Ok(EntryMap {
            tree: TreeMap::of(alloc, entries)?,
        })
    }

    /// How many entries there are.
    pub(crate) fn len(&self) -> usize
        ensures { result ≡ length self.now }
    {
        self.tree.len()
    }

    /// Whether there are more entries than this.
    pub(crate) fn is_more_than(&self, limit: usize) -> bool
        ensures { result ≡ nat_lt limit (length self.now) }
    {
        self.tree.is_more_than(limit)
    }

    /// The entry of a network, if there is one.
    pub(crate) fn get(&self, net: &Net) -> Option<&Entry>
        ensures { option_map (λ e. e.now) result ≡ entry_at net_order net.now self.now }
    {
        self.tree.get(net)
    }

    /// The same entries, shared and not copied. `AllocError`: they can't have another owner.
    pub(crate) fn shared(&self) -> Result<EntryMap, AllocError>
        ensures { IfOk result (λ m. m ≡ self.now) }
    {
        Ok(EntryMap {
            tree: self.tree.shared()?,
        })
    }

    /// As [`TreeMap::with_new`]. `AllocError`: as there.
    pub(crate) fn with_new(self, alloc: Global, new: &Entry) -> Result<EntryMap, AllocError>
        requires { find net_order new.now.0 self ≡ None }
        ensures { IfOk result (λ m. m ≡ with_value net_order self new.now.0 (Some new.now.1)) }
    {
        let EntryMap { tree } = self;
        Ok(EntryMap {
            tree: tree.with_new(alloc, new)?,
        })
    }

    /// As [`TreeMap::without`]. `AllocError`: as there.
    pub(crate) fn without(self, alloc: Global, net: &Net) -> Result<EntryMap, AllocError>
        ensures { IfOk result (λ m. m ≡ without net_order self net.now) }
    {
        let EntryMap { tree } = self;
        Ok(EntryMap {
            tree: tree.without(alloc, net)?,
        })
    }

    /// The entries, in order. It takes no memory.
    pub(crate) fn entries(&self) -> EachEntry<'_>
        ensures { result ≡ self.now }
    {
        EachEntry::of(self.tree.entries())
    }
}
