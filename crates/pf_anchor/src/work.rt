//! How much a packet's evaluation may do before each ruleset is evaluated once instead.
use crate::config::Config;
use std::cell::Cell;

// How many rules a packet may look at in any configuration. Few packets need more, so that only these pay for counting all rules.
const AT_FIRST: usize = 1024;

// How many rules a packet may look at in this way at most. Where there are more in all, evaluating each ruleset once takes longer than this by far.
const AT_MOST: usize = 65_536;

// How many times tables may be asked. An answer may take as long as some hundred rules, and the rules of a few rulesets can ask some ten
// thousand times; few packets ask more than some ten times.
const ANSWERS: usize = 512;

/// How many rules a packet may still look at by going from ruleset to ruleset: first 1,024, and then once as many as there are in all, up to
/// 65,536; and how many times their rules may still ask tables. It decides nothing of what an evaluation gives.
#[derive(Drop)]
pub(crate) struct Work {
    left: Cell<usize>,
    counts_all: Cell<bool>,
    answers_left: Cell<usize>,
}

impl Work {
    /// What each packet may do.
    pub(crate) fn allowed() -> Work {
        Work {
            left: Cell::new(AT_FIRST),
            counts_all: Cell::new(false),
            answers_left: Cell::new(ANSWERS),
        }
    }

    /// Nothing.
    pub(crate) fn none() -> Work {
        Work {
            left: Cell::new(0),
            counts_all: Cell::new(true),
            answers_left: Cell::new(0),
        }
    }

    /// Takes so many from what is left. If there are fewer, it is false.
    #[inline(always)]
    pub(crate) fn takes(&self, config: &Config, rules: usize) -> bool {
        if self.left.get() < rules {
            self.count_all(config);
        }
        match self.left.get().checked_sub(rules) {
            Some(left) => {
                self.left.set(left);
                true
            }
            None => false,
        }
    }

    /// Counts that a table is asked.
    pub(crate) fn asks(&self) {
        let left = self.answers_left.get();
        self.answers_left.set(left.saturating_sub(1));
    }

    /// Whether tables were asked as often as they may be.
    #[inline(always)]
    pub(crate) fn has_asked_all(&self) -> bool {
        self.answers_left.get() == 0
    }

    // Once, as many more as all rulesets have rules, and one for each of them, up to a limit.
    #[cold]
    #[inline(never)]
    fn count_all(&self, config: &Config) {
        if self.counts_all.get() {
            return;
        }
        self.counts_all.set(true);
        let mut left = self.left.get();
        for placed in config.each_ruleset() {
            let rules = placed.value().as_slice().len();
            left = left.saturating_add(rules).saturating_add(1);
        }
        self.left.set(left.min(AT_MOST));
    }
}
