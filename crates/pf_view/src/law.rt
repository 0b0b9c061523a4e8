//! The rule of the published copies.
use crate::past::Naming;
use crate::shown::Shown;
use crossbeam_utils::rule::{Outcome, Protocol};
use pf_core::Change;
use std::collections::LinkedList;
use std::marker::PhantomData;

/// What a seer or the shower knows: the changes that it saw. It exists in proofs alone: no value of it is ever made.
pub type Sight = LinkedList<Change>;

/// The rule: the copy that is shown is what its changes make of the base, and each view is a front of these.
pub struct Law<J> {
    of: PhantomData<J>,
}

impl<J: Naming> Protocol<Shown, Sight> for Law<J> {
    ghost use Rattle.std.specs.Prelude.{[]};
    ghost use Rattle.pf_view.specs.Copies.{Keeps};

    ghost holds = { Keeps J.base J.history };

    ghost first = { [] };
}

/// What a step says that looks at the copy: the shower publishes, or a seer enters.
pub struct Seeing<J> {
    of: PhantomData<J>,
}

impl<J: Naming> Outcome<Shown, Sight> for Seeing<J> {
    ghost use Rattle.pf_view.specs.Copies.{Sees};

    ghost then = { Sees J.base J.history };
}
