//! What a publisher is, whichever it is.
ghost use Rattle.std.specs.{Prelude.{◌≡◌, ◌<◌, ◌++◌, length, vec_len, OnOk, OnErr}, Arc.arc_value};
ghost use Rattle.pf_core.specs.Durable.Changes.{after};
ghost use Rattle.pf_view.specs.Past.Pasts.{all_acked};
ghost use Rattle.pf_view.specs.Sharing.{changes_of};

use crate::past::{Front, Naming};
use crate::token::Token;
use pf_core::{Change, Durable};
use std::alloc::AllocError;
use std::sync::Arc;

/// Takes changes of the history `J`, and shows them all at once. Contracts see what is shown, what is offered, and which copies it
/// publishes to (`PlainShower`).
pub trait Publisher<J: Naming> {
    ghost use Rattle.pf_view.specs.Seers.{PlainShower};

    /// What contracts see of it.
    ghost plain: { Self → PlainShower };

    /// Offers changes, one or more, and what is kept after them, which follow all that was offered before, and the front of the history
    /// with all of them, each acknowledged. No seer sees them yet. `AllocError`: nothing was offered, and the changes may be offered again
    /// with those that follow.
    fn offer(
        &mut self,
        changes: Vec<Arc<Change>>,
        durable: Arc<Durable>,
        front: &Front<J>,
    ) -> Result<(), AllocError>
        requires some { 0 < vec_len changes }
        requires chain { arc_value durable ≡ after J.base ((plain self.old).offered ++ changes_of changes.items) }
        requires front { front.now ≡ all_acked ((plain self.old).offered ++ changes_of changes.items) }
        ensures ok { OnOk result ((plain self.new).offered ≡ (plain self.old).offered ++ changes_of changes.items) }
        ensures err { OnErr result ((plain self.new).offered ≡ (plain self.old).offered) }
        ensures shown { (plain self.new).shown ≡ (plain self.old).shown }
        ensures copies { (plain self.new).copies ≡ (plain self.old).copies };

    /// Shows all that was offered, at once. It may wait for seers that still judge by what was shown before. `AllocError`: seers see what
    /// they saw before, and a later call can show what was offered.
    fn show(&mut self) -> Result<(), AllocError>
        ensures ok { OnOk result ((plain self.new).shown ≡ (plain self.old).offered) }
        ensures err { OnErr result ((plain self.new).shown ≡ (plain self.old).shown) }
        ensures offered { (plain self.new).offered ≡ (plain self.old).offered };

    /// What is kept after all changes that are shown.
    fn durable(&self) -> &Durable
        ensures { result.now ≡ after J.base (plain self.now).shown };

    /// How many changes are shown.
    fn len(&self) -> usize
        ensures { result ≡ length (plain self.now).shown };

    /// A token of all that is shown, for seers to learn.
    fn token(&self) -> Token<J>
        ensures { result ≡ (plain self.now).shown };
}
