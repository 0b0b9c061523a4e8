//! What one thread leaves for another to say.
ghost use Rattle.std.specs.Prelude.{◌≡◌, ◌∷◌, ◌++◌, []};
ghost use Rattle.circular_buffer.specs.Buffer.{keep_last};

use circular_buffer::HeapCircularBuffer;
use std::alloc::{AllocError, Global};
use std::sync::{Condvar, Mutex, Wait};

// So many numbers wait to be said at most: more than there are hundredths beyond seven eighths.
const MOST_WAITING: usize = 16;

// What was left and isn't said yet, and whether no more will be.
#[derive(Drop)]
struct Left {
    waiting: HeapCircularBuffer<u64>,
    has_ended: bool,
}

impl Left {
    // Leaves a number behind those that wait. If as many wait as may, the first of them is never said.
    fn add(&mut self, hundredths: u64)
        ensures { self.new.waiting.items ≡ keep_last self.old.waiting.capacity (self.old.waiting.items ++ hundredths ∷ []) }
    {
        self.waiting.push_back(hundredths);
    }
}

/// What says how full a disk is.
pub(crate) trait SayFullness {
    /// Says that so many hundredths of it are used. What can't be said is not said.
    fn say_fullness(&self, hundredths: u64);
}

/// How full a disk is, as one thread finds it and another says it. Whoever leaves a number waits for no writer. Numbers are said in the
/// order in which they were left; of more than sixteen that wait the last sixteen are.
#[derive(Drop)]
pub(crate) struct Notice {
    left: Mutex<Left>,
    changed: Condvar,
}

impl Notice {
    /// A notice of nothing. What it needs of memory is taken here.
    pub(crate) fn new(alloc: Global) -> Result<Notice, AllocError> {
        let waiting = HeapCircularBuffer::with_capacity(alloc, MOST_WAITING)?;
        Ok(Notice {
            left: Mutex::new(Left {
                waiting,
                has_ended: false,
            }),
            changed: Condvar::new(),
        })
    }

    /// Leaves a number to be said.
    pub(crate) fn leave<R: Wait>(&self, rt: &R, hundredths: u64) {
        self.left.lock(rt).add(hundredths);
        self.changed.notify_one();
    }

    /// Says that nothing more will be left.
    pub(crate) fn end<R: Wait>(&self, rt: &R) {
        self.left.lock(rt).has_ended = true;
        self.changed.notify_one();
    }

    // Waits for a number. `None`: none will come.
    fn next<R: Wait>(&self, rt: &R) -> Option<u64> {
        let mut left = self.left.lock(rt);
        for _ in rt.forever() {
            if let Some(hundredths) = left.waiting.pop_front() {
                return Some(hundredths);
            }
            if left.has_ended {
                return None;
            }
            left = self.changed.wait(rt, left);
        }
        unreachable!()
    }

    /// Says each number that is left, until none will be.
    pub(crate) fn say_all<R: Wait, S: SayFullness>(&self, rt: &R, teller: &S) {
        for _ in rt.forever() {
            let Some(hundredths) = self.next(rt) else {
                return;
            };
            teller.say_fullness(hundredths);
        }
    }
}
