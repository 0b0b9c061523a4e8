//! What became of steps.
ghost use Rattle.std.specs.Prelude.{◌≡◌, ◌<◌};
ghost use Rattle.pf_state.specs.Steps.{no_counts, one_insertion, only_deleted, both, IsCounted};

use crate::step::Insertion;

/// What became of the steps of a batch: how many inserts were judged how, and how many states were taken out.
#[derive(Clone, Copy, Debug, PartialEq, Eq)]
pub struct Counts {
    /// Inserts that made a new state.
    pub inserted: u64,
    /// Inserts that took the place of a state.
    pub replaced: u64,
    /// Inserts that were stale.
    pub stale: u64,
    /// Inserts whose flow was another state's.
    pub clash: u64,
    /// States taken out by deletes and clears.
    pub deleted: u64,
}

impl Counts {
    /// Of no steps.
    pub(crate) const NONE: Counts = Counts {
        inserted: 0,
        replaced: 0,
        stale: 0,
        clash: 0,
        deleted: 0,
    };

    /// Of one insert.
    pub(crate) fn of_insertion(insertion: Insertion) -> Counts
        ensures { result ≡ one_insertion insertion }
    {
        match insertion {
            Insertion::Stale => Counts {
                stale: 1,
                ..Counts::NONE
            },
            Insertion::Clash => Counts {
                clash: 1,
                ..Counts::NONE
            },
            Insertion::Replaced => Counts {
                replaced: 1,
                ..Counts::NONE
            },
            Insertion::New => Counts {
                inserted: 1,
                ..Counts::NONE
            },
        }
    }

    /// Of a step that took out this many states.
    pub(crate) fn of_deletion(deleted: u64) -> Counts
        ensures { result ≡ only_deleted deleted }
    {
        Counts {
            deleted,
            ..Counts::NONE
        }
    }

    /// Of some steps and those after them.
    pub(crate) fn and(self, more: Counts) -> Counts
        requires { IsCounted (both self more) }
        ensures { result ≡ both self more }
    {
        Counts {
            inserted: self.inserted + more.inserted,
            replaced: self.replaced + more.replaced,
            stale: self.stale + more.stale,
            clash: self.clash + more.clash,
            deleted: self.deleted + more.deleted,
        }
    }
}
