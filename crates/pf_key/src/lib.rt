//! Keys: what maps are ordered by, and what is looked for by them.
//!
//! It stands on nothing of the others, so that names, paths and networks can say how they are keys without the maps (`pf_map`) that they
//! are keys of. Of a key it knows that it stands in a total order, and a number that rises with it; pairs of keys are keys. Read
//! specs/Keys.antt first. Each clause of [`Key`] and [`Sought`] is proved of each type that says how it is a key; nothing here is only tested.
#![tactic(auto)]

ghost use Rattle.std.specs.{Prelude.{◌≡◌, ℕ}, Cmp.{IsTotalOrder, then_total, on_total}, FinMap.IsAntisymmetric, Ordering.eq_by_cmp};
ghost use Rattle.std.specs.declared.cmp.Ordering.{Ordering};
ghost use Rattle.pf_key.specs.Keys.{RisesWith, pairs_rise, pair_order, pairs_alike};

use std::cmp::Ordering;

/// What a map is ordered by.
pub trait Key: Drop {
    /// Which of two comes first: a total order, in which only equal keys tie.
    ghost order: { Self → Self → Ordering };

    /// A number that rises with the keys: it decides between most of them, and a search keeps it at hand.
    ghost hint: { Self → ℕ };

    /// Which of two keys comes first.
    fn order(&self, other: &Self) -> Ordering
        ensures { result ≡ order self.now other.now };

    /// Whether both are one key.
    fn same(&self, other: &Self) -> bool
        ensures { result ≡ eq_by_cmp order self.now other.now };

    /// Its hint.
    fn hint(&self) -> u64
        ensures { result ≡ hint self.now };

    ghost total: { IsTotalOrder order };

    ghost alike: { IsAntisymmetric order };

    ghost rises: { RisesWith order hint };
}

/// What is looked for in a map: it stands for a key, of which it needs no copy.
pub trait Sought<K: Key> {
    /// The key that it stands for.
    ghost key: { Self → K };

    /// Whether it comes before a key.
    fn order(&self, other: &K) -> Ordering
        ensures { result ≡ K.order (key self.now) other.now };

    /// Whether it stands for this key.
    fn same(&self, other: &K) -> bool
        ensures { result ≡ eq_by_cmp K.order (key self.now) other.now };

    /// The hint of the key.
    fn hint(&self) -> u64
        ensures { result ≡ K.hint (key self.now) };
}

impl<K: Key> Sought<K> for K {
    ghost key = { λ k. k };

    fn order(&self, other: &K) -> Ordering {
        Key::order(self, other)
    }

    fn same(&self, other: &K) -> bool {
        Key::same(self, other)
    }

    fn hint(&self) -> u64 {
        Key::hint(self)
    }
}

impl<A: Key, B: Key> Key for (A, B) {
    ghost order = { pair_order A.order B.order };

    ghost hint = { λ p. A.hint p.0 };

    fn order(&self, other: &Self) -> Ordering {
        self.0.order(&other.0).then(self.1.order(&other.1))
    }

    fn same(&self, other: &Self) -> bool {
        self.0.same(&other.0) && self.1.same(&other.1)
    }

    fn hint(&self) -> u64 {
        self.0.hint()
    }

    ghost total = { then_total (on_total (λ t. t.0) A.total) (on_total (λ t. t.1) B.total) };

    ghost alike = { pairs_alike A.alike B.alike };

    ghost rises = { pairs_rise A.order B.order A.hint A.rises };
}
