//! What a shower gives a seer to learn.
ghost use Rattle.std.specs.Prelude.{◌≡◌, ◌≤◌, length};
ghost use mathlib.Core.List.{IsPrefix};
ghost use Rattle.pf_view.specs.Past.Pasts.{all_acked};

use crate::past::{Front, Naming};
use std::marker::Model;

/// A front of the history, each change of it acknowledged: all that was shown when it was made. Contracts see it as its changes.
#[derive(Drop)]
pub struct Token<J: Naming> {
    front: Front<J>,
    count: usize,
}

impl<J: Naming> Model for Token<J> {
    ghost use Rattle.std.specs.Prelude.{◌≡◌, List, length};
    ghost use Rattle.pf_core.specs.Durable.Changes.{PlainChange};
    ghost use Rattle.pf_view.specs.Past.Pasts.{all_acked};

    ghost Value = { List PlainChange };

    ghost view = { λ t. t.front.front };

    ghost invariant = { λ t. (t.count ≡ length t.front.front) × (t.front ≡ all_acked t.front.front) };
}

impl<J: Naming> Token<J> {
    // A token of this front, which has this many changes.
    pub(crate) fn new(front: Front<J>, count: usize) -> Token<J>
        requires count { count ≡ length front.front }
        requires acked { front ≡ all_acked front.front }
        ensures { result ≡ front.front }
    {
        Token { front, count }
    }

    // The same token once more.
    pub(crate) fn again(&self) -> Token<J>
        ensures { result ≡ self.now }
    {
        Token {
            front: self.front.again(),
            count: self.count,
        }
    }

    // The token begins each front that has no fewer changes.
    pub(crate) fn begins(&self, front: &Front<J>)
        requires { length self.now ≤ length front.now.front }
        ensures { IsPrefix self.now front.now.front }
    {
        self.front.begins(front);
    }

    /// How many changes it has.
    pub fn count(&self) -> usize
        ensures { result ≡ length self.now }
    {
        self.count
    }

    /// The token's front.
    pub fn front(&self) -> Front<J>
        ensures { result ≡ all_acked self.now }
    {
        self.front.again()
    }
}
