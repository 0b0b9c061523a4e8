//! What a server says on standard error of what it did: a line for each change that it acknowledged, for each opening, and for each
//! connection that a fault ended.
//!
//! - `deed`: what a command changes, in short.
//! - `line`: the lines.
//! - `saying`: standard error, on which one thread at a time says a line.
//! - `logged`: a caller of a Book whose replies are noted.
ghost use Rattle.std.specs.Prelude.{ℕ, Option, ⊤};
ghost use Rattle.pf_core.specs.declared.reply.Reply.{Reply};
ghost use Rattle.pfd.specs.declared.log.deed.Deed.{Deed};

pub(crate) mod deed;
mod line;
pub(crate) mod logged;
pub(crate) mod saying;

use crate::log::deed::Deed;
use pf_core::Reply;
use pf_session::EngineFault;

/// What keeps a server's log. None of these calls fails: what can't be said is not said. Whoever calls holds no lock that a session needs.
pub(crate) trait KeepLog {
    /// What a note shows of the log, a session, what it asked, and the reply.
    ghost noted: { Self → ℕ → Option Deed → Reply → Type 0 } = { λ log session deed reply. ⊤ };

    /// The session of this number is about to get this reply to what it asked. What it asked is known if it may have changed something.
    fn note(&self, session: u32, deed: &Option<Deed>, reply: &Reply)
        ensures { noted self.now session deed.now reply.now };

    /// Another opening began, in this epoch: a renewal, or the first one.
    fn note_opening(&self, epoch: u32, is_renewal: bool);

    /// A fault ended the connection of the session of this number.
    fn note_fault(&self, session: u32, fault: EngineFault);
}

/// A log of which nothing is kept.
#[derive(Clone, Copy, Debug)]
pub(crate) struct NoLog;

impl KeepLog for NoLog {
    fn note(&self, _session: u32, _deed: &Option<Deed>, _reply: &Reply) {}

    fn note_opening(&self, _epoch: u32, _is_renewal: bool) {}

    fn note_fault(&self, _session: u32, _fault: EngineFault) {}
}
