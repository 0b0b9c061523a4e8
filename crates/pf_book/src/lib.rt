//! One history over a device: what an opening gave, and each change since, saved before it is answered and shown to packet workers.
//!
//! The crate joins `pf_core`, which says the one step that a command may get, `pf_store`, which saves a change, and `pf_view`, which notes
//! it in the history and shows it. It knows no text, no bytes of a change and no rule. The modules:
//!
//! - `opening`: [`Opening`], a device that was opened, and [`NamedOpening`], the same under its name.
//! - `book`: the history of an opening, which answers commands, one by one or in groups, over any [`Publisher`]. [`Book`] is the one over
//!   a [`Shower`].
//! - `showing`, `saving`, `course`: used by `book`: what is shown of a history, the memory that a save needs, and what the commands of a
//!   group come to one after the other.
//! - `chapter`: [`Chapter`], the name of an opening, as a type. [`Numbering`] names the register in which a shared Book's callers are numbered.
//! - `receipt`: [`Receipt`], what a caller gets with a reply.
//! - `status`: [`BookStatus`], what a Book says of itself.
//! - `anchors`: which anchors a Book has below a path.
//! - `worker`: what a worker does with a receipt: [`learn_from`] and [`judge_after`].
//! - `shared`: a Book under a lock, which callers use in turn; commands of several callers that wait are run in one group. [`Shared`] is the
//!   one over a [`Shower`].
//! - `laws`: what follows for receipts, and for openings after crashes.
//!
//! Read `specs/Books.antt` first: what contracts see of a Book; then `specs/Receipts.antt`, `specs/Groups.antt`, `specs/Together.antt`,
//! `specs/Statuses.antt` and `specs/Anchors.antt`.
//! Contracts say what a Book does in the words of `pf_core`'s worlds.
//!
//! Proved, by public contracts: every reply is legal, and the Book stands for the world with the call at its end; at each moment of a call
//! an image of the device holds what some crash within the call leaves ([`Book::run`], [`Book::group`]); each receipt's front begins the
//! later history ([`Shared::run`], [`Shared::run_together`], [`Shared::group`], [`Shared::group_as_alone`], [`Book::confirm`]), and so does
//! what a seer saw and learnt ([`Book::covers`]); after `Applied` a worker that has the receipt judges by that change and all before it
//! ([`judge_after`]); and an opening of any image that a crash leaves goes on with the same world ([`Opening::open`],
//! `laws::crashes_are_opened`). Not proved is that no run meets `OpenFault::Places` or `Gone`. The crate has no tests. Only tests of other
//! crates show that memory runs out only if a growth was refused.
//!
//! What its users need of the devices and of the store is exported again: [`MemDisk`], [`FileDisk`], [`FuseDisk`], [`format`], and
//! [`Store`] for its `peek`.
#![tactic(auto)]

mod anchors;
pub mod book;
mod chapter;
mod course;
pub mod laws;
mod opening;
mod receipt;
mod saving;
pub mod shared;
mod showing;
mod status;
mod worker;

pub use book::Closed;
pub use chapter::Chapter;
pub use opening::{NamedOpening, Opening};
pub use pf_core::Reply;
pub use pf_disk::{Disk, FileDisk, FileFault, FuseDisk, MemDisk};
pub use pf_queue::Numbering;
pub use pf_store::{OpenFault, Store, format};
pub use pf_view::past::{Front, Naming};
pub use pf_view::{Gone, Publisher, Seer, Shower, Token};
pub use receipt::Receipt;
pub use shared::NewCalls;
pub use status::BookStatus;
pub use worker::{judge_after, learn_from};

/// A Book over a [`Shower`], which by its handle `R` waits for workers that are judging.
pub type Book<D, J, R> = book::Book<D, J, Shower<J, R>>;

/// Such a Book under a lock.
pub type Shared<D, J, R> = shared::Shared<D, J, Shower<J, R>>;
