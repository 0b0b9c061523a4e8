//! Trees of entries under their second keys.
ghost use Rattle.std.specs.{Prelude.{◌≡◌, T, [], map, Some, None, IfOk}, Option.option_map, FinMap.{find, is_sorted}};
ghost use Rattle.pf_map.specs.Maps.{with_value, without, entry_at};

use crate::by_flow::{ByFlow, Flowed};
use crate::entry::KeyValue;
use crate::tree_map::TreeMap;
use pf_key::{Key, Sought};
use std::alloc::{AllocError, Global};
use std::marker::Model;

/// A tree whose entries are those of another one, each under its second key. Contracts see it as the list of these keys, each with its
/// entry.
///
/// As `Pairs`, it is there so that proofs say nothing of pages.
pub(crate) struct Flows<N: Key, F: Key, V: Flowed<F>> {
    tree: TreeMap<F, KeyValue<N, V>, ByFlow<N, F, V>>,
}

impl<N: Key, F: Key, V: Flowed<F>> Drop for Flows<N, F, V> {
    fn drop(self) {
        let Flows { tree: _ } = self;
    }
}

impl<N: Key, F: Key, V: Flowed<F>> Model for Flows<N, F, V> {
    ghost use Rattle.std.specs.Prelude.{List};

    ghost Value = { List (F × (N × V)) };

    ghost view = { λ f. f.tree };
}

impl<N: Key, F: Key, V: Flowed<F>> Flows<N, F, V> {
    /// As [`TreeMap::empty`].
    pub(crate) fn empty() -> Flows<N, F, V>
        ensures { result ≡ [] }
    {
        Flows {
            tree: TreeMap::empty(),
        }
    }

    /// As [`TreeMap::of`]. `AllocError`: nothing is made.
    pub(crate) fn of(
        alloc: Global,
        entries: &[ByFlow<N, F, V>],
    ) -> Result<Flows<N, F, V>, AllocError>
        requires { T (is_sorted F.order (map (λ e. (V.flow e.1, e)) entries.now)) }
        ensures { IfOk result (λ f. f ≡ map (λ e. (V.flow e.1, e)) entries.now) }
    {
        Ok(Flows {
            tree: TreeMap::of(alloc, entries)?,
        })
    }

    /// The entry of a second key, if there is one.
    pub(crate) fn get<Q: Sought<F>>(&self, sought: &Q) -> Option<&KeyValue<N, V>>
        ensures { option_map (λ e. (V.flow e.now.1, e.now)) result ≡ entry_at F.order (Q.key sought.now) self.now }
    {
        match self.tree.get(sought) {
            Some(found) => Some(found.entry()),
            None => None,
        }
    }

    /// The same tree, with one owner more. `AllocError`: nothing is made.
    pub(crate) fn shared(&self) -> Result<Flows<N, F, V>, AllocError>
        ensures { IfOk result (λ f. f ≡ self.now) }
    {
        Ok(Flows {
            tree: self.tree.shared()?,
        })
    }

    /// As [`TreeMap::with_new`]. `AllocError`: as there.
    pub(crate) fn with_new(
        self,
        alloc: Global,
        new: &ByFlow<N, F, V>,
    ) -> Result<Flows<N, F, V>, AllocError>
        requires { find F.order (V.flow new.now.1) self ≡ None }
        ensures { IfOk result (λ f. f ≡ with_value F.order self (V.flow new.now.1) (Some new.now)) }
    {
        let Flows { tree } = self;
        Ok(Flows {
            tree: tree.with_new(alloc, new)?,
        })
    }

    /// As [`TreeMap::without`]. `AllocError`: as there.
    pub(crate) fn without(self, alloc: Global, flow: &F) -> Result<Flows<N, F, V>, AllocError>
        ensures { IfOk result (λ f. f ≡ without F.order self flow.now) }
    {
        let Flows { tree } = self;
        Ok(Flows {
            tree: tree.without(alloc, flow)?,
        })
    }
}
