//! Trees of shared pairs.
ghost use Rattle.std.specs.{Prelude.{◌≡◌, T, [], length, Some, is_some, IfOk, nat_lt}, Option.option_map, FinMap.{find, is_sorted}};
ghost use Rattle.pf_map.specs.Maps.{with_value, without, entry_at};

use crate::each::Each;
use crate::entry::KeyValue;
use crate::tree_map::TreeMap;
use pf_key::{Key, Sought};
use std::alloc::{AllocError, Global};
use std::marker::Model;

/// A tree whose entries are shared pairs, each a key and the value there. Contracts see it as the list.
///
/// A proof that names a `TreeMap` spells out all that holds pages, at each call; here each call's proof is made once.
pub(crate) struct Pairs<K: Key, V: Drop> {
    tree: TreeMap<K, V, KeyValue<K, V>>,
}

impl<K: Key, V: Drop> Drop for Pairs<K, V> {
    fn drop(self) {
        let Pairs { tree: _ } = self;
    }
}

impl<K: Key, V: Drop> Model for Pairs<K, V> {
    ghost use Rattle.std.specs.Prelude.{List};

    ghost Value = { List (K × V) };

    ghost view = { λ p. p.tree };
}

impl<K: Key, V: Drop> Pairs<K, V> {
    /// As [`TreeMap::empty`].
    pub(crate) fn empty() -> Pairs<K, V>
        ensures { result ≡ [] }
    {
        Pairs {
            tree: TreeMap::empty(),
        }
    }

    /// As [`TreeMap::of`]. `AllocError`: nothing is made.
    pub(crate) fn of(alloc: Global, entries: &[KeyValue<K, V>]) -> Result<Pairs<K, V>, AllocError>
        requires { T (is_sorted K.order entries.now) }
        ensures { IfOk result (λ p. p ≡ entries.now) }
    {
        Ok(Pairs {
            tree: TreeMap::of(alloc, entries)?,
        })
    }

    /// How many pairs there are.
    pub(crate) fn len(&self) -> usize
        ensures { result ≡ length self.now }
    {
        self.tree.len()
    }

    /// Whether there are more pairs than this.
    pub(crate) fn is_more_than(&self, limit: usize) -> bool
        ensures { result ≡ nat_lt limit (length self.now) }
    {
        self.tree.is_more_than(limit)
    }

    /// The pair at a key, if there is one.
    pub(crate) fn get<Q: Sought<K>>(&self, sought: &Q) -> Option<&KeyValue<K, V>>
        ensures entry { option_map (λ e. e.now) result ≡ entry_at K.order (Q.key sought.now) self.now }
        // what each tree keeps
        ensures sorted { T (is_sorted K.order self.now) }
    {
        self.tree.get(sought)
    }

    /// The same tree, with one owner more. `AllocError`: nothing is made.
    pub(crate) fn shared(&self) -> Result<Pairs<K, V>, AllocError>
        ensures { IfOk result (λ p. p ≡ self.now) }
    {
        Ok(Pairs {
            tree: self.tree.shared()?,
        })
    }

    /// As [`TreeMap::with`]. `AllocError`: as there.
    pub(crate) fn with(self, alloc: Global, new: &KeyValue<K, V>) -> Result<Pairs<K, V>, AllocError>
        ensures { IfOk result (λ p. p ≡ with_value K.order self new.now.0 (Some new.now.1)) }
    {
        let Pairs { tree } = self;
        Ok(Pairs {
            tree: tree.with(alloc, new)?,
        })
    }

    /// The same, if it is known whether there is a pair at its key: by one look-up less. `AllocError`: as there.
    pub(crate) fn with_known(
        self,
        alloc: Global,
        had: bool,
        new: &KeyValue<K, V>,
    ) -> Result<Pairs<K, V>, AllocError>
        requires { had ≡ is_some (find K.order new.now.0 self) }
        ensures { IfOk result (λ p. p ≡ with_value K.order self new.now.0 (Some new.now.1)) }
    {
        let Pairs { tree } = self;
        Ok(Pairs {
            tree: tree.with_value(alloc, new.key(), had, Some(new))?,
        })
    }

    /// As [`TreeMap::without`]. `AllocError`: as there.
    pub(crate) fn without<Q: Sought<K>>(
        self,
        alloc: Global,
        sought: &Q,
    ) -> Result<Pairs<K, V>, AllocError>
        ensures { IfOk result (λ p. p ≡ without K.order self (Q.key sought.now)) }
    {
        let Pairs { tree } = self;
        Ok(Pairs {
            tree: tree.without(alloc, sought)?,
        })
    }

    /// The pairs, in order. It takes no memory.
    pub(crate) fn entries(&self) -> Each<'_, K, V>
        ensures { result ≡ self.now }
    {
        Each::of(self.tree.entries())
    }
}
