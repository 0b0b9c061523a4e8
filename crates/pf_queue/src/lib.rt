//! Calls of many threads on one value, in turn. Those that wait are run together by whoever leads.
//!
//! - `runs`: [`RunsTogether`], what runs jobs, one by one or several together.
//! - `register`: [`Numbering`], the name of a register; [`NewRegister`], one with no job yet. A register numbers the jobs, and exists in
//!   proofs alone.
//! - `place`, `waiting`: where a caller finds its answer, and who waits.
//! - `queue`: [`Queue`], which callers use, for jobs and for turns of their own.
//!
//! Proved, in the public contracts: what a caller is given is an answer to its own job ([`Queue::run`]). No job that waits is lost and none
//! is run twice: the place of its answer can't be let go or copied, so code that did so wouldn't compile. Not proved: that a call returns,
//! who comes next, and that jobs are ever run together.
#![tactic(auto)]

mod place;
mod queue;
mod register;
mod runs;
mod waiting;

pub use queue::{Queue, Turn};
pub use register::{NewRegister, Numbering};
pub use runs::RunsTogether;
