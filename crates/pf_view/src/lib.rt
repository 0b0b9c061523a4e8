//! The history of one opening, and published copies of what is kept: workers judge packets by them, and wait for nobody.
//!
//! The crate knows changes and what is kept after them (`pf_core`), and packets (`pf_rule`). It knows no disk, command, ticket or reply:
//! whoever offers a change has kept it before.
//!
//! There are two copies of what is kept. A [`Shower`] takes changes by [`Publisher::offer`] and shows all of them at once by
//! [`Publisher::show`]; a [`Seer`] judges by the copy that is shown. All of them rely on one rule: the copy that is shown is what the
//! opening gave after the copy's changes, these are a front of the opening's history, each acknowledged, and what a seer saw is a front of
//! them. Read first `specs/Copies.antt`, then `specs/Seers.antt`: what contracts see. The modules, each of which uses none below it:
//!
//! - [`past`]: the history of one opening, and fronts of it.
//! - `shown`: one copy, and what is published.
//! - `law`: the rule.
//! - `token`: what a seer learns outside of the rule.
//! - `seer`: what judges.
//! - `publisher`: [`Publisher`], what is known of whatever publishes.
//! - `shower`: what publishes to the copies.
//! - `opening`: [`views`], which makes a shower and its seers.
//!
//! Proved, in the public contracts: each verdict is by what the opening gave after a front of its history, which begins with all that the
//! seer saw and learnt before ([`Seer::judge`], [`Seer::learn`]); [`Publisher::show`] shows exactly what was offered; and a seer judges by
//! the copies of its shower. That judging takes no lock, no memory and no handle is to be read in its signature. Only a test of
//! `server_tests` shows that a seer gets an answer while its shower is there: contracts allow [`Gone`] and [`ViewFault::Places`] at any
//! time. Neither proved nor tested: that [`Shower::informed_seer`] gives a seer when a place is free.
#![tactic(auto)]

mod law;
mod opening;
pub mod past;
mod publisher;
mod seer;
mod shower;
mod shown;
mod token;

pub use opening::{ViewFault, views};
pub use past::{Front, Naming};
pub use publisher::Publisher;
pub use seer::{Gone, Seer};
pub use shower::Shower;
pub use token::Token;
