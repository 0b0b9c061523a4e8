//! Many threads hand in jobs, and whoever leads runs all that wait.
ghost use Rattle.std.specs.Prelude.{◌≡◌, ◌≤◌, [], IfOk, IfSome, Some, map, vec_capacity, vec_len};
ghost use Rattle.pf_queue.specs.{Answering.AreAnswers, Numbers.{IsNumbered, noted_at}};

use crate::place::{Place, Slot};
use crate::register::{NewRegister, Number, Numbering, Register};
use crate::runs::RunsTogether;
use crate::waiting::{Line, MOST, Waiting};
use std::alloc::{AllocError, Global};
use std::sync::{Condvar, Mutex, MutexGuard, Wait};
use std::thread::yield_now;

// How often a leader lets other threads run, while fewer jobs wait than were run together last.
const PATIENCE: u32 = 200;

// Puts each answer into its place.
fn put_all<K: Numbering, B: RunsTogether, W: Wait>(
    rt: &W,
    places: Vec<Place<K, B>>,
    answers: Vec<B::Answer>,
)
    requires each { vec_len places ≡ vec_len answers }
    requires answered { AreAnswers B.Answers (λ p. noted_at p.number.log p.number.number) places.items answers.items }
{
    let mut places = places.into_iter();
    let mut answers = answers.into_iter();
    while let Some(place) = places.next() {
        match answers.next() {
            Some(answer) => place.put(rt, answer),
            None => unreachable!(),
        }
    }
    places.destroy_empty();
}

// Runs a job that waited, and answers it.
fn run_waiting<K: Numbering, B: RunsTogether, W: Wait>(
    rt: &W,
    value: &mut B,
    waiting: Waiting<K, B>,
) {
    let Waiting { job, place } = waiting;
    let answer = value.run_one(job);
    place.put(rt, answer);
}

// Runs jobs one by one, and puts each answer into its place.
fn run_each<K: Numbering, B: RunsTogether, W: Wait>(
    rt: &W,
    value: &mut B,
    jobs: Vec<B::Job>,
    places: Vec<Place<K, B>>,
)
    requires { map (λ p. noted_at p.number.log p.number.number) places.items ≡ map (λ j. Some (B.entry j)) jobs.items }
{
    let mut places = places.into_iter();
    let mut jobs = jobs.into_iter();
    while let Some(place) = places.next() {
        match jobs.next() {
            Some(job) => {
                let answer = value.run_one(job);
                place.put(rt, answer);
            }
            None => unreachable!(),
        }
    }
    places.destroy_empty();
}

// Runs jobs together, and puts each answer into its place.
fn run_all<K: Numbering, B: RunsTogether, W: Wait>(
    rt: &W,
    value: &mut B,
    jobs: Vec<B::Job>,
    places: Vec<Place<K, B>>,
)
    requires few { vec_len jobs ≤ MOST }
    requires numbered { map (λ p. noted_at p.number.log p.number.number) places.items ≡ map (λ j. Some (B.entry j)) jobs.items }
{
    // one alone is run as if nobody else were there
    if jobs.len() < 2 {
        return run_each(rt, value, jobs, places);
    }
    match value.run_all(jobs) {
        Ok(answers) => put_all(rt, places, answers),
        Err(jobs) => run_each(rt, value, jobs, places),
    }
}

// Room for as many jobs as are run together.
fn room<K: Numbering, B: RunsTogether>(
    alloc: Global,
) -> Result<(Vec<B::Job>, Vec<Place<K, B>>), AllocError>
    ensures empty { IfOk result (λ r. (r.0.items ≡ []) × (r.1.items ≡ [])) }
    ensures room { IfOk result (λ r. (MOST ≤ vec_capacity r.0) × (MOST ≤ vec_capacity r.1)) }
{
    let jobs = Vec::with_capacity(alloc, MOST)?;
    let places = Vec::with_capacity(alloc, MOST)?;
    Ok((jobs, places))
}

/// A turn of a caller's own. It has no drop: whoever has it ends it.
pub struct Turn {
    // whether others wait for its end
    waited: bool,
}

/// A value that many threads call, one after the other, in the order in which they came. A caller's job waits until its caller or another
/// leads: who leads takes all the jobs that came before the next caller who wants a turn for itself, 64 at most, and runs them together.
///
/// Locks are taken in this order: the value, the line, a slot. The line is never held while a job is run.
pub struct Queue<K: Numbering, B: RunsTogether> {
    alloc: Global,
    register: Register<K, B>,
    line: Mutex<Line<K, B>>,
    // told when somebody has ended
    moved: Condvar,
    value: Mutex<B>,
}

impl<K: Numbering, B: RunsTogether> Queue<K, B> {
    /// Shares a value, with a new register, which `K` names. It takes no memory.
    pub fn new(alloc: Global, register: NewRegister<B::Entry>, value: B) -> Queue<K, B>
        requires { register ≡ K.register }
    {
        Queue {
            alloc,
            register: Register::of(register),
            line: Mutex::new(Line::new(alloc)),
            moved: Condvar::new(),
            value: Mutex::new(value),
        }
    }

    /// Runs a job, alone or with those of other callers, and returns its answer. If there is no memory for it to wait, it is run alone.
    pub fn run<W: Wait>(&self, rt: &W, job: B::Job) -> B::Answer
        ensures { B.Answers (B.entry job) result }
    {
        if self.begin_alone(rt) {
            let answer = self.value.lock(rt).run_one(job);
            self.let_others(rt);
            return answer;
        }
        let Ok((mine, theirs)) = Slot::pair(self.alloc) else {
            return self.run_in_turn(rt, job);
        };
        let handed = self.line.lock(rt).hand_in(&self.register, job, theirs);
        match handed {
            Ok(number) => self.wait(rt, &number, &mine),
            Err(job) => self.run_in_turn(rt, job),
        }
    }

    // Runs a job by itself, when its turn comes.
    fn run_in_turn<W: Wait>(&self, rt: &W, job: B::Job) -> B::Answer
        ensures { B.Answers (B.entry job) result }
    {
        let turn = self.come(rt);
        let answer = self.value.lock(rt).run_one(job);
        self.end(rt, turn);
        answer
    }

    // Begins at once, if nobody waits and jobs weren't run together last: then those who were answered may soon be back.
    fn begin_alone<W: Wait>(&self, rt: &W) -> bool {
        let mut line = self.line.lock(rt);
        if !line.is_idle() || line.last > 1 {
            return false;
        }
        line.busy = true;
        true
    }

    /// Waits until a turn of the caller's own comes. If there is no memory for it to wait, it comes next.
    pub fn come<W: Wait>(&self, rt: &W) -> Turn {
        let mut line = self.line.lock(rt);
        if line.is_idle() {
            line.busy = true;
            return Turn { waited: true };
        }
        let Ok(comer) = line.take_turn() else {
            return Turn { waited: false };
        };
        for _ in rt.forever() {
            if line.begin(comer) {
                return Turn { waited: true };
            }
            line = self.moved.wait(rt, line);
        }
        unreachable!()
    }

    /// The value, for a caller whose turn it is.
    pub fn value<W: Wait>(&self, rt: &W) -> MutexGuard<'_, B> {
        self.value.lock(rt)
    }

    /// Ends a turn.
    pub fn end<W: Wait>(&self, rt: &W, turn: Turn) {
        let Turn { waited } = turn;
        if waited {
            self.let_others(rt);
        }
    }

    // Nobody has the value any more.
    fn let_others<W: Wait>(&self, rt: &W) {
        self.line.lock(rt).busy = false;
        self.moved.notify_all();
    }

    // Waits for the answer to a job that was handed in, and leads where nobody does.
    fn wait<W: Wait>(&self, rt: &W, number: &Number<K, B>, mine: &Slot<K, B>) -> B::Answer
        ensures { (entry : B.Entry) → IsNumbered number.now.log number.now.number entry → B.Answers entry result }
    {
        for _ in rt.forever() {
            if let Some(answer) = self.look(rt, number, mine) {
                return answer;
            }
            self.lead(rt);
        }
        unreachable!()
    }

    // Waits until the answer is there; or, with `None`, until nobody leads: then the caller does.
    fn look<W: Wait>(&self, rt: &W, number: &Number<K, B>, mine: &Slot<K, B>) -> Option<B::Answer>
        ensures { IfSome result (λ a. (entry : B.Entry) → IsNumbered number.now.log number.now.number entry → B.Answers entry a) }
    {
        let mut line = self.line.lock(rt);
        for _ in rt.forever() {
            if let Some(answer) = mine.take(rt, number) {
                return Some(answer);
            }
            if line.begin_to_lead() {
                return None;
            }
            line = self.moved.wait(rt, line);
        }
        unreachable!()
    }

    // Runs the jobs that wait.
    fn lead<W: Wait>(&self, rt: &W) {
        self.hold(rt);
        self.run_ready(rt);
        self.let_others(rt);
    }

    // Lets others hand in their jobs first, for a short while at most.
    fn hold<W: Wait>(&self, rt: &W) {
        for _ in 0..PATIENCE {
            if !self.line.lock(rt).is_thin() {
                return;
            }
            yield_now();
        }
    }

    fn run_ready<W: Wait>(&self, rt: &W) {
        let mut value = self.value.lock(rt);
        match room(self.alloc) {
            Ok((mut jobs, mut places)) => {
                self.line.lock(rt).move_out(&mut jobs, &mut places);
                self.line.lock(rt).last = jobs.len();
                run_all(rt, &mut *value, jobs, places);
            }
            Err(AllocError) => {
                let first = self.line.lock(rt).move_one_out();
                if let Some(waiting) = first {
                    run_waiting(rt, &mut *value, waiting);
                }
            }
        }
    }

    /// The value, once all callers have ended.
    pub fn into_inner(self) -> B {
        let Queue {
            alloc: _,
            register: _,
            line: _,
            moved: _,
            value,
        } = self;
        value.into_inner()
    }
}

impl<K: Numbering, B: RunsTogether + Drop> Drop for Queue<K, B> {
    fn drop(self) {
        let Self {
            alloc: _,
            register: _,
            line: _,
            moved: _,
            value: _,
        } = self;
    }
}
