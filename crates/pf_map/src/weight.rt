//! What the entries of a map weigh.
ghost use Rattle.std.specs.Prelude.{◌≡◌, ℕ};

use crate::entry::{Content, KeyValue};
use pf_key::Key;

/// What each entry of a map weighs, as how many bytes it takes somewhere.
pub trait Weigher<K: Key, V: Content> {
    /// What a key and a value weigh.
    ghost weight: { K × V → ℕ };

    /// What the entry weighs.
    fn weigh(entry: &KeyValue<K, V>) -> u32
        ensures { result ≡ weight entry.now };
}
