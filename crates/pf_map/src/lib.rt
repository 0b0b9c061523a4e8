//! Finite maps in the order of their keys, in trees of pages that are shared; the crates above keep rulesets, tables and states in them.
//!
//! It stands on `pf_key` alone. It knows of a key that it stands in a total order, and not what a map's keys and values mean: a type says
//! in its own crate how it is a key.
//!
//! A map is the list of its entries in the order of their keys, no key twice. Read first specs/Maps.antt, which says what a map holds once
//! a key's value was replaced, and specs/ListMaps.antt, maps of lists in which an empty list has no entry; specs/Indexes.antt is about
//! values with two keys. Callers use [`PagedMap`], [`TreeMap`] and [`Index`]: copies share all pages, and a change makes anew those on the
//! way to what it changes.
//!
//! `entry` is what stands at a key, and `weight` what entries weigh together. A tree consists of parts
//! (`part`), which a `level` holds in slots (`slot`), and a `page` is a part that holds entries; `pieces` is what becomes of a part that
//! was changed, and `raised` makes levels over parts that are there already.
//! `tree_map` is the tree and `entries` goes over it, or `each` where an entry is a key and the value there; `pairs` are trees of such
//! entries, on which `paged_map` and `index` stand, the latter also on `flows`, trees of the same entries under their second keys
//! (`by_flow`). `laws` has what follows from the definitions.
//!
//! Proved, by the public contracts: a look-up finds what the list has, a change leaves the list that the definitions say, and what entries
//! weigh together is kept. No contract says how many pages a change copies. Only tests of other crates show that memory runs out only if a
//! growth was refused.
#![tactic(auto)]

mod by_flow;
mod each;
mod entries;
mod entry;
mod flows;
mod index;
pub mod laws;
mod level;
mod page;
mod paged_map;
mod pairs;
mod part;
mod pieces;
mod raised;
mod slot;
mod tree_map;
mod weight;

pub use by_flow::Flowed;
pub use each::Each;
pub use entries::Entries;
pub use entry::{Content, Holder, KeyValue};
pub use index::Index;
pub use paged_map::PagedMap;
pub use tree_map::TreeMap;
pub use weight::Weigher;
