//! Signs that stand at prefixes of addresses, in tries whose nodes are shared between versions: the sign of the longest prefix that
//! contains an address is found in a few steps, however many prefixes there are and however they lie in one another.
//!
//! It stands on nothing of the others. It knows addresses as numbers of 128 bits, and no families, networks or tables. Read first
//! specs/Prefixes.antt, which says which sign decides about an address and what an edit leaves, then specs/Rows.antt and specs/Forks.antt,
//! what a node keeps; specs/Indexes.antt is about the index of a page. Callers use [`Trie`], by the trait [`PrefixIndex`].
//!
//! A look-up says what it `found` at a `prefix`. `signs` are those of one address's prefixes, and `rows` are addresses with them. A
//! `narrow` row has fewer bytes, and a `row_list` keeps its rows so as long as all of them are, as those of IPv4 are. `in_order` looks for addresses
//! in such lists and edits them, and a list that is `indexed` finds its rows by a digit of their addresses. A `level` is what a `slot` has
//! below it: a `page` of rows, or the slots of a `fork`; a `branch` is a page until its rows are too many, and a fork then. `four` and
//! `sixteen` have so many levels, and `lower` those of the last 64 bits. A whole trie is made of a `draft`. `index` is what a table asks
//! for, `rooted` has it of any level, and `trie` of all of them.
//!
//! Proved, by the public contracts: a look-up finds the longest prefix that has a sign, and an edit replaces one sign and no other. No
//! contract says how many nodes a look-up or an edit visits, or what versions share.
#![tactic(auto)]

mod branch;
mod draft;
mod fork;
mod found;
mod four;
mod in_order;
mod index;
mod indexed;
mod level;
mod lower;
mod narrow;
mod page;
mod prefix;
mod rooted;
mod row_list;
mod rows;
mod signs;
mod sixteen;
mod slot;
mod trie;

pub use draft::Draft;
pub use found::Found;
pub use index::PrefixIndex;
pub use prefix::Prefix;
pub use trie::Trie;
