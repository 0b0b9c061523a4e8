//! The rule of a history: who may add to it, and the steps that do. All of it exists in proofs alone, and takes no memory.
ghost use Rattle.std.specs.Prelude.{◌≡◌};
ghost use Rattle.logbook.specs.Pages.{may_write};
ghost use Rattle.pf_view.specs.Past.Rules.{head_of};

use logbook::{Gain, Offer, Pen, Plain, Play, Rule, Seen, Word};
use pf_core::Change;
use std::sync::Arc;

/// A change, if it notes one, and whether that was acknowledged; how many changes more are shown; and the key of the pen that may add the
/// next entry. No value of it is ever made.
pub struct HistoryEntry {
    pub change: Option<Change>,
    pub acked: bool,
    pub shown: u64,
    pub next: u64,
}

/// The rule: whoever has the pen that the last entry names has seen all entries, and alone may add one.
pub struct OnePen;

impl Rule<HistoryEntry, u64> for OnePen {
    ghost use Rattle.std.specs.Prelude.{[]};
    ghost use base.Fml.{ftrue};
    ghost use Rattle.pf_view.specs.Past.Rules.{IsKept};

    ghost holds = { λ cells log. IsKept cells log };

    ghost first = { [] };

    ghost hinted = { λ n log. Unit {0} };

    ghost shows = { λ log. [] };

    ghost keeps = { λ names log. ftrue };

    ghost moves = { λ ask before after answer. Unit {0} };
}

/// A step that trades nothing in.
pub struct NoGain;

impl Gain<HistoryEntry, u64> for NoGain {
    ghost use base.Fml.{ftrue};

    ghost after = { λ names about answer. ftrue };
}

pub(crate) type Head = Word<HistoryEntry, u64, OnePen>;

pub(crate) type SeenEntries = Seen<HistoryEntry, u64, OnePen>;

pub(crate) type EntryOffer = Offer<HistoryEntry, u64, OnePen, NoGain>;

// An entry to add, and the pen that may add the next one.
pub(crate) struct Asked {
    pub(crate) change: Option<Arc<Change>>,
    pub(crate) acked: bool,
    pub(crate) shown: usize,
    pub(crate) pen: Pen,
}

/// A new pen is made.
pub struct Coming;

impl Play<HistoryEntry, u64> for Coming {
    ghost use Rattle.pf_view.specs.Past.Rules.{Comes};

    ghost then = { Comes };
}

impl Plain<(), HistoryEntry, u64> for Coming {
    ghost use Rattle.std.specs.Prelude.{None, false};

    ghost ask = { λ a. record { change = None; acked = false; shown = 0; next = 0 } };

    ghost state = { λ a. None };
}

/// The first entry is put, which notes nothing.
pub struct Starting;

impl Play<HistoryEntry, u64> for Starting {
    ghost use Rattle.pf_view.specs.Past.Rules.{Starts};

    ghost then = { Starts };
}

impl Plain<Pen, HistoryEntry, u64> for Starting {
    ghost use Rattle.std.specs.Prelude.{None, false};

    ghost ask = { λ p. record { change = None; acked = false; shown = 0; next = p.nib.key } };

    ghost state = { λ p. None };
}

/// An entry is added.
pub struct Adding;

impl Play<HistoryEntry, u64> for Adding {
    ghost use Rattle.pf_view.specs.Past.Rules.{Adds};

    ghost then = { Adds };
}

impl Plain<Asked, HistoryEntry, u64> for Adding {
    ghost use Rattle.std.specs.Prelude.{None};
    ghost use Rattle.std.specs.{Arc.arc_value, Option.option_map};

    ghost ask = { λ a. record { change = option_map arc_value a.change; acked = a.acked; shown = a.shown; next = a.pen.nib.key } };

    ghost state = { λ a. None };
}

/// Whoever has the pen checks whether anyone saw more.
pub struct Staying;

impl Play<HistoryEntry, u64> for Staying {
    ghost use Rattle.pf_view.specs.Past.Rules.{Stays};

    ghost then = { Stays };
}

impl Plain<(), HistoryEntry, u64> for Staying {
    ghost use Rattle.std.specs.Prelude.{None, false};

    ghost ask = { λ a. record { change = None; acked = false; shown = 0; next = 0 } };

    ghost state = { λ a. None };
}

/// A pen for a later entry.
pub(crate) fn new_pen(head: &Head, seen: &SeenEntries) -> Pen
    requires { head.now ≡ head_of seen.now.book }
    ensures { (result.book ≡ seen.now.book) × (result.nib.right ≡ may_write) }
{
    let mut seen = seen.again();
    let mut offer: EntryOffer = seen.plain::<NoGain, (), Coming>(&());
    let mut pen = seen.no_pen();
    head.compare_exchange::<Coming, NoGain>(0, 0, &mut seen, &mut offer, &mut pen);
    drop(Head::tracked(0, &mut pen));
    pen
}
