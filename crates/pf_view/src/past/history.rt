//! A history and fronts of it. All of it exists in proofs alone, and takes no memory: at run time only a word or two are kept.
ghost use Rattle.std.specs.Prelude.{◌≡◌, ◌≤◌, length, IfSome};
ghost use Rattle.std.specs.{Arc.arc_value, Option.option_map};
ghost use mathlib.Core.List.{IsPrefix};
ghost use Rattle.pf_view.specs.Past.{Pasts.{front_of, no_changes, with_change, with_shown, Begins, trace_with}, Rules.{past_of, shown_of, with_entry}};

use crate::past::naming::Naming;
use crate::past::rule::{
    Adding, Asked, EntryOffer, Head, NoGain, SeenEntries, Starting, Staying, new_pen,
};
use logbook::{Pen, Seen, Start};
use pf_core::Change;
use std::marker::{Model, PhantomData};
use std::sync::Arc;

/// A new history, which has no change and no name yet. Contracts see which one it is.
#[derive(Drop)]
pub struct NewHistory {
    head: Head,
    seen: SeenEntries,
    // the pen that may add the first change; no run is known to lack it
    pen: Option<Pen>,
}

impl Model for NewHistory {
    ghost use Rattle.std.specs.Prelude.{◌≡◌, IfSome};
    ghost use Rattle.logbook.specs.Pages.{Book};
    ghost use Rattle.pf_view.specs.Past.{Pasts.no_changes, Rules.{tip_of, IsTip}};

    ghost Value = { Book };

    ghost view = { λ h. h.seen.book };

    ghost invariant = { λ h. IfSome h.pen (λ pen. IsTip h.seen.book h.head h.seen.book pen.book pen.nib h.seen.log × (tip_of h.seen.log ≡ no_changes)) };
}

impl NewHistory {
    /// A history that nobody has seen yet.
    pub fn open() -> NewHistory {
        let (mut seen, mut first, _second) = Seen::open(Start::alone(), 0, 0);
        let head = Head::tracked(0, &mut first);
        let pen = new_pen(&head, &seen);
        let mut offer: EntryOffer = seen.plain::<NoGain, Pen, Starting>(&pen);
        let mut none = seen.no_pen();
        let found = head.compare_exchange::<Starting, NoGain>(
            0, 1, &mut seen, &mut offer, &mut none,
        );
        // a new word is 0
        if found != 0 {
            return NewHistory {
                head,
                seen,
                pen: None,
            };
        }
        NewHistory {
            head,
            seen,
            pen: Some(pen),
        }
    }

    /// The history under its name. `None`: nobody may add to it; no run is known to meet this, but no contract rules it out.
    pub fn named<J: Naming>(self) -> Option<Tip<J>>
        requires { self ≡ J.history }
        ensures { IfSome result (λ tip. tip ≡ no_changes) }
    {
        let NewHistory { head, seen, pen } = self;
        let pen = pen?;
        Some(Tip {
            head,
            seen,
            pen,
            of: PhantomData,
        })
    }
}

/// A front of a history, as a type without the history's name. Contracts see which history it is a front of, and the front: its changes,
/// and how many of them were acknowledged (`PlainTrace`).
#[derive(Drop)]
pub struct Trace {
    seen: SeenEntries,
}

impl Model for Trace {
    ghost use Rattle.pf_view.specs.Past.{Pasts.{PlainTrace, trace_with}, Rules.past_of};

    ghost Value = { PlainTrace };

    ghost view = { λ t. trace_with t.seen.book (past_of t.seen.log) };
}

impl Trace {
    /// The same front once more.
    pub fn again(&self) -> Trace
        ensures { result ≡ self.now }
    {
        Trace {
            seen: self.seen.again(),
        }
    }

    /// The front under the name of its history.
    pub fn named<J: Naming>(self) -> Front<J>
        requires { self.book ≡ J.history }
        ensures { result ≡ self.past }
    {
        let Trace { seen } = self;
        Front {
            seen,
            of: PhantomData,
        }
    }
}

/// A front of the history. Contracts see its changes, and how many of them were acknowledged (`PlainFront`).
#[derive(Drop)]
pub struct Front<J: Naming> {
    seen: SeenEntries,
    of: PhantomData<J>,
}

impl<J: Naming> Model for Front<J> {
    ghost use Rattle.std.specs.Prelude.{◌≡◌};
    ghost use Rattle.pf_view.specs.Past.{Pasts.PlainFront, Rules.past_of};

    ghost Value = { PlainFront };

    ghost view = { λ f. past_of f.seen.log };

    ghost invariant = { λ f. f.seen.book ≡ J.history };
}

impl<J: Naming> Front<J> {
    /// The same front once more.
    pub fn again(&self) -> Front<J>
        ensures { result ≡ self.now }
    {
        Front {
            seen: self.seen.again(),
            of: PhantomData,
        }
    }

    /// The same front without the name of its history in its type.
    pub fn trace(&self) -> Trace
        ensures { result ≡ trace_with J.history self.now }
    {
        Trace {
            seen: self.seen.again(),
        }
    }

    /// Of two fronts of one history the one with no more changes begins the other.
    pub fn begins(&self, other: &Front<J>)
        requires { length self.now.front ≤ length other.now.front }
        ensures { IsPrefix self.now.front other.now.front }
    {
        let mut both = self.seen.again();
        both.learn(&other.seen);
    }
}

/// How many changes of the history were shown at some moment. Contracts see the number.
#[derive(Drop)]
pub struct Showing<J: Naming> {
    seen: SeenEntries,
    of: PhantomData<J>,
}

impl<J: Naming> Model for Showing<J> {
    ghost use Rattle.std.specs.Prelude.{◌≡◌, ℕ};
    ghost use Rattle.pf_view.specs.Past.Rules.{shown_of};

    ghost Value = { ℕ };

    ghost view = { λ s. shown_of s.seen.log };

    ghost invariant = { λ s. s.seen.book ≡ J.history };
}

/// The whole history, with the one right to add to it. Contracts see it as a `PlainTip`.
#[derive(Drop)]
pub struct Tip<J: Naming> {
    head: Head,
    seen: SeenEntries,
    pen: Pen,
    of: PhantomData<J>,
}

impl<J: Naming> Model for Tip<J> {
    ghost use Rattle.pf_view.specs.Past.{Pasts.PlainTip, Rules.{tip_of, IsTip}};

    ghost Value = { PlainTip };

    ghost view = { λ t. tip_of t.seen.log };

    ghost invariant = { λ t. IsTip J.history t.head t.seen.book t.pen.book t.pen.nib t.seen.log };
}

impl<J: Naming> Tip<J> {
    /// A front that is the whole history.
    pub fn front(&self) -> Front<J>
        ensures { result ≡ front_of self.now }
    {
        Front {
            seen: self.seen.again(),
            of: PhantomData,
        }
    }

    /// How many changes are shown.
    pub fn showing(&self) -> Showing<J>
        ensures { result ≡ self.now.shown }
    {
        Showing {
            seen: self.seen.again(),
            of: PhantomData,
        }
    }

    /// Adds a change, acknowledged or not.
    pub fn add(&mut self, change: Arc<Change>, acked: bool)
        ensures { self.new ≡ with_change self.old (arc_value change) acked }
    {
        self.note(Some(change), acked, 0);
    }

    /// Notes that so many changes more are shown.
    pub fn show(&mut self, more: usize)
        ensures { self.new ≡ with_shown self.old more }
    {
        self.note(None, false, more);
    }

    // Adds an entry.
    fn note(&mut self, change: Option<Arc<Change>>, acked: bool, shown: usize)
        ensures { self.new ≡ with_entry self.old (option_map arc_value change) acked shown }
    {
        let asked = Asked {
            change,
            acked,
            shown,
            pen: new_pen(&self.head, &self.seen),
        };
        let mut offer: EntryOffer = self.seen.plain::<NoGain, Asked, Adding>(&asked);
        self.head
            .compare_exchange::<Adding, NoGain>(0, 0, &mut self.seen, &mut offer, &mut self.pen);
        let Asked {
            change: _change,
            acked: _,
            shown: _,
            pen,
        } = asked;
        self.pen = pen;
    }

    /// The tip begins with each front of this history.
    pub fn contains(&mut self, front: &Front<J>)
        ensures begins { Begins front.now (front_of self.old) }
        ensures same { self.new ≡ self.old }
    {
        self.look(&front.seen);
    }

    /// No fewer changes are shown than at any moment before.
    pub fn has_shown(&mut self, showing: &Showing<J>)
        ensures risen { showing.now ≤ self.old.shown }
        ensures same { self.new ≡ self.old }
    {
        self.look(&showing.seen);
    }

    // The tip begins with all that was seen of its history, and no fewer changes are shown.
    fn look(&mut self, other: &SeenEntries)
        requires { other.now.book ≡ J.history }
        ensures begins { Begins (past_of other.now.log) (front_of self.old) }
        ensures risen { shown_of other.now.log ≤ self.old.shown }
        ensures same { self.new ≡ self.old }
    {
        let mut both = self.seen.again();
        both.learn(other);
        let mut offer: EntryOffer = both.plain::<NoGain, (), Staying>(&());
        self.head
            .compare_exchange::<Staying, NoGain>(0, 0, &mut both, &mut offer, &mut self.pen);
    }
}
