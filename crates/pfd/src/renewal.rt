//! When a server's Book is renewed.
ghost use Rattle.std.specs.Prelude.{◌≡◌};

use pf_session::Pause;
use pfd_words::Limits;
use std::sync::atomic::{AtomicBool, AtomicU32, Ordering};

/// Whether the opening at work is to be renewed: whoever keeps changes counts them, and whoever serves asks. It outlives openings.
#[derive(Drop)]
pub(crate) struct Renewal {
    limits: Option<Limits>,
    is_due: AtomicBool,
}

impl Renewal {
    /// A renewal once an opening has come to one of these limits; without limits there is never one.
    pub(crate) fn new(limits: Option<Limits>) -> Renewal
        ensures { result.limits ≡ limits }
    {
        Renewal {
            limits,
            is_due: AtomicBool::new(false),
        }
    }

    /// Another opening begins.
    pub(crate) fn begin(&self) {
        self.is_due.store(false, Ordering::SeqCst);
    }

    /// Takes note that the opening has so many changes, of so many bytes in all.
    pub(crate) fn note(&self, changes: u64, bytes: u64) {
        if let Some(limits) = &self.limits {
            if limits.changes <= changes || limits.bytes <= bytes {
                self.is_due.store(true, Ordering::SeqCst);
            }
        }
    }
}

impl Pause for Renewal {
    fn is_due(&self) -> bool {
        self.is_due.load(Ordering::SeqCst)
    }
}

/// How many workers may call the Book of the opening at work. Whoever pauses judges on alone until there are none.
#[derive(Drop)]
pub(crate) struct Callers {
    count: AtomicU32,
}

impl Callers {
    /// None yet.
    pub(crate) fn new() -> Callers {
        Callers {
            count: AtomicU32::new(0),
        }
    }

    /// Another one.
    pub(crate) fn come(&self) {
        self.count.fetch_add(1, Ordering::SeqCst);
    }

    /// One of them calls it no more.
    pub(crate) fn leave(&self) {
        self.count.fetch_sub(1, Ordering::SeqCst);
    }
}

// It is due once there are none.
impl Pause for Callers {
    fn is_due(&self) -> bool {
        self.count.load(Ordering::SeqCst) == 0
    }
}

/// Whether a disk was opened again. Whoever judges by the copies of before does so until then.
#[derive(Drop)]
pub(crate) struct Reopening {
    is_over: AtomicBool,
}

impl Reopening {
    /// It wasn't yet.
    pub(crate) fn new() -> Reopening {
        Reopening {
            is_over: AtomicBool::new(false),
        }
    }

    /// It was, or can't be.
    pub(crate) fn end(&self) {
        self.is_over.store(true, Ordering::SeqCst);
    }
}

impl Pause for Reopening {
    fn is_due(&self) -> bool {
        self.is_over.load(Ordering::SeqCst)
    }
}
