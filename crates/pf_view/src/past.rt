//! The history of one opening: all its changes, each in its place for good, how many of them are shown, and fronts of it.
//!
//! It exists in proofs alone: at run time only a word or two are kept, by which a proof follows it. The crate knows changes (`pf_core`),
//! but no copy, device, command or reply. Read first `specs/Past/Pasts.antt`: what contracts see of a front. The modules, each of which uses
//! none below it:
//!
//! - `naming`: [`Naming`], the name of one opening.
//! - `rule`: who may add to a history, and the steps that do.
//! - `history`: [`NewHistory`], [`Tip`], which alone adds to it, [`Front`], what it was at some moment, [`Showing`], how much of it was shown
//!   then, and [`Trace`], a front whose type has no name.
//!
//! Proved, in the public contracts: a history only grows, at its end and by its tip ([`Tip::add`]); of two fronts of one history the
//! shorter begins the longer ([`Front::begins`]); the tip begins with every front ([`Tip::contains`]), and no fewer changes are shown than
//! were ([`Tip::has_shown`]). Neither proved nor tested: that a new history can always be added to ([`NewHistory::named`] may give none).

mod history;
mod naming;
mod rule;

pub use history::{Front, NewHistory, Showing, Tip, Trace};
pub use naming::Naming;
