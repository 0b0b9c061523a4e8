//! Parts of maps.
ghost use Rattle.std.specs.{Prelude.{◌≡◌, T, List, [], ◌∷◌, Some, IfOk, IfSome}, FinMap.is_sorted, Option.option_map};
ghost use Rattle.pf_map.specs.{Maps.{with_value, entry_at}, MapParts.{first_of}, Pieces.all_of};

use crate::entry::Holder;
use crate::pieces::Pieces;
use pf_key::{Key, Sought};
use std::alloc::{AllocError, Global};
use std::cmp::Ordering;
use std::marker::{Model, PhantomData};

/// Entries that follow one another, one at least, which a map holds as one of its parts: an entry alone, or a level of parts.
/// The hint that is handed in is that of what is looked for.
pub trait Part<K: Key, V: Drop, E: Holder<K, V>>: Drop {
    /// The entries, in order.
    ghost entries: { Self → List (K × V) };

    /// The part with this entry alone. `AllocError`: nothing is made.
    fn of_entry(alloc: Global, entry: &E) -> Result<Self, AllocError>
        ensures { IfOk result (λ p. entries p ≡ E.pair entry.now ∷ []) };

    /// The same part, with one owner more. `AllocError`: it can't have another.
    fn share(&self) -> Result<Self, AllocError>
        ensures { IfOk result (λ p. entries p ≡ entries self.now) };

    /// Its first entry.
    fn first(&self) -> &E
        ensures { first_of (entries self.now) ≡ Some (E.pair result.now) };

    /// The entry at a key, if there is one.
    fn find<Q: Sought<K>>(&self, hint: u64, sought: &Q) -> Option<&E>
        requires hinted { hint ≡ K.hint (Q.key sought.now) }
        requires sorted { T (is_sorted K.order (entries self.now)) }
        ensures { option_map (λ e. E.pair e.now) result ≡ entry_at K.order (Q.key sought.now) (entries self.now) };

    /// Replaces the entry at a key, or takes it out where there is no new one. What nobody else holds is changed in place, all else
    /// is shared. `AllocError`: it holds some entries, nothing says which.
    fn replace<Q: Sought<K>>(
        &mut self,
        alloc: Global,
        hint: u64,
        sought: &Q,
        new: Option<&E>,
    ) -> Result<Pieces<Self>, AllocError>
        requires hinted { hint ≡ K.hint (Q.key sought.now) }
        requires named { IfSome new (λ e. (E.pair e.now).0 ≡ Q.key sought.now) }
        requires sorted { T (is_sorted K.order (entries self.old)) }
        ensures { IfOk result (λ p. all_of entries (entries self.new) p ≡ with_value K.order (entries self.old) (Q.key sought.now) (option_map (λ e. (E.pair e.now).1) new.entry)) };
}

/// An entry as a part. Contracts see it as its pair.
pub struct Single<K: Key, V: Drop, E: Holder<K, V>> {
    entry: E,
    of: PhantomData<(K, V)>,
}

impl<K: Key, V: Drop, E: Holder<K, V>> Drop for Single<K, V, E> {
    fn drop(self) {
        let Single { entry: _, of: _ } = self;
    }
}

impl<K: Key, V: Drop, E: Holder<K, V>> Model for Single<K, V, E> {
    ghost Value = { K × V };

    ghost view = { λ s. E.pair s.entry };
}

impl<K: Key, V: Drop, E: Holder<K, V>> Single<K, V, E> {
    fn new(entry: E) -> Single<K, V, E>
        ensures { result ≡ E.pair entry }
    {
        Single {
            entry,
            of: PhantomData,
        }
    }

    /// The entry.
    pub fn entry(&self) -> &E
        ensures { E.pair result.now ≡ self.now }
    {
        &self.entry
    }
}

impl<K: Key, V: Drop, E: Holder<K, V>> Part<K, V, E> for Single<K, V, E> {
    ghost entries = { λ s. s ∷ [] };

    fn of_entry(_alloc: Global, entry: &E) -> Result<Single<K, V, E>, AllocError> {
        Ok(Single::new(entry.share()?))
    }

    fn share(&self) -> Result<Single<K, V, E>, AllocError> {
        Ok(Single::new(self.entry.share()?))
    }

    fn first(&self) -> &E {
        &self.entry
    }

    fn find<Q: Sought<K>>(&self, _hint: u64, sought: &Q) -> Option<&E> {
        if sought.same(self.entry.held_key()) {
            Some(&self.entry)
        } else {
            None
        }
    }

    fn replace<Q: Sought<K>>(
        &mut self,
        _alloc: Global,
        _hint: u64,
        sought: &Q,
        new: Option<&E>,
    ) -> Result<Pieces<Single<K, V, E>>, AllocError> {
        match (sought.order(self.entry.held_key()), new) {
            (Ordering::Equal, None) => Ok(Pieces::Gone),
            (Ordering::Equal, Some(new)) => {
                self.entry = new.share()?;
                Ok(Pieces::One)
            }
            (_, None) => Ok(Pieces::One),
            (Ordering::Less, Some(new)) => {
                let old = std::mem::replace(&mut self.entry, new.share()?);
                Ok(Pieces::Two(Single::new(old)))
            }
            (Ordering::Greater, Some(new)) => Ok(Pieces::Two(Single::new(new.share()?))),
        }
    }
}
