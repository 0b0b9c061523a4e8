//! The receipt that a caller gets with a reply.
ghost use Rattle.std.specs.Prelude.{◌≡◌, length};
ghost use Rattle.std.specs.{Arc.arc_value, Option.{ForSome, option_copied, option_map}};
ghost use Rattle.pf_book.specs.Receipts.{EndsIn};

use crate::chapter::Chapter;
use pf_core::Change;
use pf_view::Token;
use pf_view::past::{Front, Showing};
use std::marker::Model;
use std::sync::Arc;

/// Stands for the history as it was at a reply, in a group with its changes so far. Each later history of the opening begins with it.
/// Contracts see it as a `PlainReceipt`.
#[derive(Drop)]
pub struct Receipt<J: Chapter> {
    // the history after the call, whose first `seq` changes are the receipt's
    pub(crate) front: Front<J>,
    pub(crate) seq: usize,
    pub(crate) change: Option<Arc<Change>>,
    pub(crate) token: Option<Token<J>>,
    // how much was shown, as the history notes it
    pub(crate) showing: Showing<J>,
    pub(crate) shown: usize,
}

impl<J: Chapter> Model for Receipt<J> {
    ghost use Rattle.std.specs.{Arc.arc_value, Option.option_map, Prelude.{min, take}};
    ghost use Rattle.pf_book.specs.Receipts.{PlainReceipt, IsReceipt};

    ghost Value = { PlainReceipt };

    ghost view = { λ r. record { front = take r.seq r.front.front; acked = min r.seq r.front.acked; shown = r.shown; change = option_map arc_value r.change; token = r.token } };

    ghost invariant = { λ r. IsReceipt r.front r.seq (option_map arc_value r.change) r.showing r.shown };
}

impl<J: Chapter> Receipt<J> {
    /// The number of the reply's change, from 1 on; if the reply has none, how many changes the history had at the reply. Changes that
    /// weren't acknowledged because the device failed count too.
    pub fn seq(&self) -> usize
        ensures seq { result ≡ length self.now.front }
        ensures last { ForSome self.now.change (λ e. EndsIn self.now.front e) }
    {
        self.seq
    }

    /// How many changes were shown at the reply, and in a group at all its replies.
    pub fn shown(&self) -> usize
        ensures { result ≡ self.now.shown }
    {
        self.shown
    }

    /// The change that the call made: there is one exactly after `Applied` and `Stored`.
    pub fn change(&self) -> Option<&Change>
        ensures { option_map (λ change. change.now) result ≡ self.now.change }
    {
        match &self.change {
            Some(change) => Some(&**change),
            None => None,
        }
    }

    /// What a worker may learn, so that it judges by the whole history at the reply at least, whose last change is the reply's. There is
    /// one exactly after `Applied`.
    pub fn token(&self) -> Option<&Token<J>>
        ensures { option_copied result ≡ self.now.token }
    {
        self.token.as_ref()
    }
}
