//! Parts as a level holds them.
ghost use Rattle.std.specs.{Prelude.{◌≡◌, ◌<◌, T, length, IfOk, IfSome}, FinMap.is_sorted, Option.option_map};
ghost use Rattle.pf_map.specs.{Maps.with_value, MapParts.starts_after, Pieces.all_of};

use crate::entry::Holder;
use crate::part::Part;
use crate::pieces::Pieces;
use pf_key::{Key, Sought};
use std::alloc::{AllocError, Global};
use std::marker::{Model, PhantomData};

/// A part, and beside it the hint of its first key, so that most searches pass it by without following it. Contracts see it as
/// the part's entries.
pub struct Slot<K: Key, V: Drop, E: Holder<K, V>, P: Part<K, V, E>> {
    hint: u64,
    part: P,
    of: PhantomData<(K, V, E)>,
}

impl<K: Key, V: Drop, E: Holder<K, V>, P: Part<K, V, E>> Drop for Slot<K, V, E, P> {
    fn drop(self) {
        let Slot {
            hint: _,
            part: _,
            of: _,
        } = self;
    }
}

impl<K: Key, V: Drop, E: Holder<K, V>, P: Part<K, V, E>> Model for Slot<K, V, E, P> {
    ghost use Rattle.std.specs.Prelude.{◌≡◌, List, Some};
    ghost use Rattle.pf_map.specs.Hints.{first_hint};

    ghost Value = { List (K × V) };

    ghost view = { λ s. P.entries s.part };

    ghost invariant = { λ s. first_hint K.hint (P.entries s.part) ≡ Some s.hint };
}

impl<K: Key, V: Drop, E: Holder<K, V>, P: Part<K, V, E>> Slot<K, V, E, P> {
    /// This part.
    pub(crate) fn new(part: P) -> Slot<K, V, E, P>
        ensures { result ≡ P.entries part }
    {
        let hint = part.first().held_key().hint();
        Slot {
            hint,
            part,
            of: PhantomData,
        }
    }

    /// The part.
    pub fn part(&self) -> &P
        ensures { P.entries result.now ≡ self.now }
    {
        &self.part
    }

    /// As [`Part::replace`]. `AllocError`: as there.
    pub(crate) fn replace<Q: Sought<K>>(
        &mut self,
        alloc: Global,
        hint: u64,
        sought: &Q,
        new: Option<&E>,
    ) -> Result<Pieces<P>, AllocError>
        requires hinted { hint ≡ K.hint (Q.key sought.now) }
        requires named { IfSome new (λ e. (E.pair e.now).0 ≡ Q.key sought.now) }
        requires sorted { T (is_sorted K.order self.old) }
        ensures { IfOk result (λ p. all_of P.entries self.new p ≡ with_value K.order self.old (Q.key sought.now) (option_map (λ e. (E.pair e.now).1) new.entry)) }
    {
        let pieces = self.part.replace(alloc, hint, sought, new);
        // it may have another first entry now, also where memory ran out
        self.hint = self.part.first().held_key().hint();
        pieces
    }

    /// The same, with one owner more. `AllocError`: it can't have another.
    pub(crate) fn shared(&self) -> Result<Slot<K, V, E, P>, AllocError>
        ensures { IfOk result (λ s. s ≡ self.now) }
    {
        Ok(Slot {
            hint: self.hint,
            part: self.part.share()?,
            of: PhantomData,
        })
    }

    /// Whether its entries come behind a key: whether its first one does. The keys are compared only where the hints tie.
    pub(crate) fn starts_after<Q: Sought<K>>(&self, hint: u64, sought: &Q) -> bool
        requires { hint ≡ K.hint (Q.key sought.now) }
        ensures value { result ≡ starts_after K.order (Q.key sought.now) self.now }
        ensures some { 0 < length self.now }
    {
        if hint == self.hint {
            sought.order(self.part.first().held_key()).is_lt()
        } else {
            hint < self.hint
        }
    }
}
