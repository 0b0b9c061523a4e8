//! What an evaluation has found.
ghost use Rattle.std.specs.Prelude.{◌≡◌};
ghost use Rattle.pf_anchor.specs.Evaluation.{and_then, last_of};

use crate::rulesets::Placed;
use pf_rule::Action;
use std::marker::Model;

/// A rule that decides: its ruleset, its number there, and what it does. The path is borrowed, since most matches are replaced by later
/// ones. Contracts see it as a `PlainMatch`.
#[derive(Drop)]
pub(crate) struct Match<'a> {
    /// The rule's ruleset.
    pub placed: &'a Placed,
    /// The rule's place there, from 0 to 1,023.
    pub number: u32,
    /// What happens to the packet.
    pub action: Action,
}

impl<'a> Model for Match<'a> {
    ghost use Rattle.pf_anchor.specs.Matches.{PlainMatch, found};

    ghost Value = { PlainMatch };

    ghost view = { λ m. found m.placed.now.0 m.number m.action };
}

impl<'a> Match<'a> {
    /// The same match.
    pub(crate) fn copied(&self) -> Match<'a>
        ensures { result ≡ self.now }
    {
        Match {
            placed: self.placed,
            number: self.number,
            action: self.action,
        }
    }
}

/// What an evaluation has found: the last match so far, if any; or that it has ended, at a match.
#[derive(Drop)]
pub(crate) enum Evaluated<M> {
    Open(Option<M>),
    Ended(M),
}

impl<M: Drop> Evaluated<M> {
    /// The last match, if any.
    pub(crate) fn last(self) -> Option<M>
        ensures { result ≡ last_of self }
    {
        match self {
            Evaluated::Open(last) => last,
            Evaluated::Ended(found) => Some(found),
        }
    }
}

impl<'a> Evaluated<Match<'a>> {
    /// This one, and another one after it.
    pub(crate) fn and_then(&self, later: &Evaluated<Match<'a>>) -> Evaluated<Match<'a>>
        ensures { result ≡ and_then self.now later.now }
    {
        match (self, later) {
            (Evaluated::Ended(_), _) | (_, Evaluated::Open(None)) => self.copied(),
            (Evaluated::Open(_), _) => later.copied(),
        }
    }

    /// The same, once more.
    pub(crate) fn copied(&self) -> Evaluated<Match<'a>>
        ensures { result ≡ self.now }
    {
        match self {
            Evaluated::Open(None) => Evaluated::Open(None),
            Evaluated::Open(Some(last)) => Evaluated::Open(Some(last.copied())),
            Evaluated::Ended(end) => Evaluated::Ended(end.copied()),
        }
    }
}
