//! Who waits.
ghost use Rattle.std.specs.Prelude.{◌≡◌, ◌≤◌, ◌++◌, ◌∷◌, [], Some, IfOk, IfErr, map, vec_len, vec_capacity};
ghost use Rattle.pf_queue.specs.Numbers.{IsNumbered, noted_at};

use crate::place::{Place, Slot};
use crate::register::{Number, Numbering, Register};
use crate::runs::RunsTogether;
use std::alloc::{AllocError, Global};
use std::collections::VecDeque;
use std::marker::Model;

/// How many jobs are run together at most.
pub(crate) const MOST: usize = 64;

// No run hands in so many jobs.
const LAST: u64 = 1 << 61;

/// A job that waits, and the place of its answer.
pub(crate) struct Waiting<K: Numbering, B: RunsTogether> {
    pub(crate) job: B::Job,
    pub(crate) place: Place<K, B>,
}

impl<K: Numbering, B: RunsTogether> Model for Waiting<K, B> {
    ghost use Rattle.pf_queue.specs.Numbers.{PlainWaiting, IsNumbered};

    ghost Value = { PlainWaiting B.Job B.Entry };

    ghost view = { λ w. record { job = w.job; number = w.place.number.number; log = w.place.number.log } };

    ghost invariant = { λ w. IsNumbered w.place.number.log w.place.number.number (B.entry w.job) };
}

/// A caller that waits for its turn: its number, and how many jobs were handed in before it.
#[derive(Clone, Copy, Debug, PartialEq, Eq, Drop)]
pub(crate) struct Comer {
    number: u64,
    jobs_before: u64,
}

/// The jobs and the callers that wait, in the order in which they came.
pub(crate) struct Line<K: Numbering, B: RunsTogether> {
    pub(crate) jobs: VecDeque<Waiting<K, B>>,
    turns: VecDeque<Comer>,
    // how many jobs were ever handed in, how many of them were moved out, and how many turns there were
    next_job: u64,
    moved_out: u64,
    next_turn: u64,
    // whether somebody has the value or is about to
    pub(crate) busy: bool,
    // how many jobs were run together last
    pub(crate) last: usize,
}

impl<K: Numbering, B: RunsTogether> Line<K, B> {
    pub(crate) fn new(alloc: Global) -> Line<K, B> {
        Line {
            jobs: VecDeque::new(alloc),
            turns: VecDeque::new(alloc),
            next_job: 0,
            moved_out: 0,
            next_turn: 0,
            busy: false,
            last: 0,
        }
    }

    /// Whether nobody waits, and nobody has the value.
    pub(crate) fn is_idle(&self) -> bool {
        !self.busy && self.jobs.is_empty() && self.turns.is_empty()
    }

    /// Puts a job at the end, and gives its number. `Err` hands it back, and nothing has changed that callers see.
    pub(crate) fn hand_in(
        &mut self,
        register: &Register<K, B>,
        job: B::Job,
        slot: Slot<K, B>,
    ) -> Result<Number<K, B>, B::Job>
        ensures numbered { IfOk result (λ n. IsNumbered n.log n.number (B.entry job)) }
        ensures waits { IfOk result (λ n. map (λ w. w.job) self.new.jobs.items ≡ map (λ w. w.job) self.old.jobs.items ++ job ∷ []) }
        ensures back { IfErr result (λ left. left ≡ job) }
        ensures same { IfErr result (λ left. self.new.jobs.items ≡ self.old.jobs.items) }
    {
        let next = self.next_job;
        if next >= LAST || self.jobs.reserve(1).is_err() {
            return Err(job);
        }
        let Some(number) = register.add(next, &job) else {
            return Err(job);
        };
        self.next_job = next + 1;
        let place = Place::new(number.again(), slot);
        self.jobs.push_back_reserved(Waiting { job, place });
        Ok(number)
    }

    /// Puts a caller at the end that waits for its turn.
    pub(crate) fn take_turn(&mut self) -> Result<Comer, AllocError>
        ensures { self.new.jobs.items ≡ self.old.jobs.items }
    {
        self.turns.reserve(1)?;
        let turn = Comer {
            number: self.next_turn,
            jobs_before: self.next_job,
        };
        self.next_turn = self.next_turn.wrapping_add(1);
        self.turns.push_back_reserved(turn);
        Ok(turn)
    }

    /// How many jobs wait before the first caller that waits for its turn.
    pub(crate) fn ready(&self) -> usize {
        match self.turns.front() {
            Some(turn) => {
                let ahead = turn.jobs_before.saturating_sub(self.moved_out);
                usize::try_from(ahead)
                    .unwrap_or(usize::MAX)
                    .min(self.jobs.len())
            }
            None => self.jobs.len(),
        }
    }

    /// Whether fewer jobs wait than were run together last, and more may come before the first turn: those who were answered may soon be
    /// back.
    pub(crate) fn is_thin(&self) -> bool {
        self.turns.is_empty() && self.jobs.len() < self.last
    }

    /// Begins a turn, if nobody has the value and it is the first to come.
    pub(crate) fn begin(&mut self, comer: Comer) -> bool
        ensures { self.new.jobs.items ≡ self.old.jobs.items }
    {
        if self.busy || self.ready() > 0 || self.turns.front() != Some(&comer) {
            return false;
        }
        let _ = self.turns.pop_front();
        self.busy = true;
        true
    }

    /// Begins to lead, if nobody has the value and jobs are the first to come.
    pub(crate) fn begin_to_lead(&mut self) -> bool
        ensures { self.new.jobs.items ≡ self.old.jobs.items }
    {
        if self.busy || self.ready() == 0 {
            return false;
        }
        self.busy = true;
        true
    }

    /// Moves the first job out.
    pub(crate) fn move_one_out(&mut self) -> Option<Waiting<K, B>> {
        let first = self.jobs.pop_front()?;
        self.moved_out = self.moved_out.wrapping_add(1);
        Some(first)
    }

    /// Moves the first jobs out that are before any turn, 64 at most, with their places.
    pub(crate) fn move_out(&mut self, jobs: &mut Vec<B::Job>, places: &mut Vec<Place<K, B>>)
        requires empty { (jobs.old.items ≡ []) × (places.old.items ≡ []) }
        requires room { (MOST ≤ vec_capacity jobs.old) × (MOST ≤ vec_capacity places.old) }
        ensures few { vec_len jobs.new ≤ MOST }
        ensures numbered { map (λ p. noted_at p.number.log p.number.number) places.new.items ≡ map (λ j. Some (B.entry j)) jobs.new.items }
        ensures all { map (λ w. w.job) self.old.jobs.items ≡ jobs.new.items ++ map (λ w. w.job) self.new.jobs.items }
    {
        let count = self.ready().min(MOST);
        for _i in 0..count {
            let Some(waiting) = self.jobs.pop_front() else {
                return;
            };
            let Waiting { job, place } = waiting;
            jobs.push_reserved(job);
            places.push_reserved(place);
            self.moved_out = self.moved_out.wrapping_add(1);
        }
    }
}

impl<K: Numbering, B: RunsTogether> Drop for Line<K, B> {
    // nobody asks any more
    fn drop(self) {
        let Self {
            mut jobs,
            turns: _,
            next_job: _,
            moved_out: _,
            next_turn: _,
            busy: _,
            last: _,
        } = self;
        while let Some(waiting) = jobs.pop_front() {
            let Waiting { job: _, place } = waiting;
            place.give_up();
        }
        jobs.destroy_empty();
    }
}
