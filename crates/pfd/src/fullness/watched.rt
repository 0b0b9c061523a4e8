//! What shows changes, leaves a notice of how full the disk gets, and says when a renewal is due.
use crate::fullness::gauge::Gauge;
use crate::fullness::notice::Notice;
use crate::renewal::Renewal;
use pf_anchor::ruleset_length;
use pf_book::{Front, Naming, Publisher, Shower, Token};
use pf_core::{Change, ChangeKind, Durable, Item};
use std::alloc::AllocError;
use std::sync::{Arc, Mutex, Wait};

// How many bytes an entry takes where it is kept, and a step of the states at most.
const ENTRY_LEN: u64 = 20;

const STEP_LEN: u64 = 96;

/// A shower that takes note of what is kept with each change that it is offered, leaves a notice if it is to be said how full the disk is,
/// and counts the changes of the opening, which may have a renewal come due. That costs a change some sums, and it waits for no writer.
#[derive(Drop)]
pub(crate) struct Watched<'a, J: Naming, R: Wait + Copy + Drop> {
    pub(crate) rt: R,
    pub(crate) shower: Shower<J, R>,
    // only here, and where no Book is
    pub(crate) gauge: &'a Mutex<Gauge>,
    pub(crate) notice: &'a Notice,
    pub(crate) renewal: &'a Renewal,
    // how many changes the opening has, and how many bytes they have
    pub(crate) age: Age,
}

/// How many changes were offered, and how many bytes they have.
#[derive(Clone, Copy, Debug)]
pub(crate) struct Age {
    pub(crate) changes: u64,
    pub(crate) bytes: u64,
}

impl Age {
    /// No change.
    pub(crate) const NONE: Age = Age {
        changes: 0,
        bytes: 0,
    };

    // The age with further changes.
    fn with(self, changes: &[Arc<Change>]) -> Age {
        Age {
            changes: self.changes.saturating_add(changes.len() as u64),
            bytes: self.bytes.saturating_add(bytes_of(changes)),
        }
    }
}

// How many bytes these changes take where they are kept, but for what surrounds them.
fn bytes_of(changes: &[Arc<Change>]) -> u64 {
    let mut bytes: u64 = 0;
    for change in changes {
        bytes = bytes.saturating_add(bytes_in(change));
    }
    bytes
}

fn bytes_in(change: &Change) -> u64 {
    match change.kind() {
        ChangeKind::Commit(items) => bytes_of_items(items),
        ChangeKind::Add { entries, .. }
        | ChangeKind::Delete { entries, .. }
        | ChangeKind::Set { entries, .. } => of_each(entries.as_slice().len(), ENTRY_LEN),
        ChangeKind::States(steps) => of_each(steps.as_slice().len(), STEP_LEN),
        ChangeKind::Remove(_) | ChangeKind::Expire(_) => 0,
    }
}

fn bytes_of_items(items: &[Item]) -> u64 {
    let mut bytes: u64 = 0;
    for item in items {
        let more = match item {
            Item::Rules(placed) => u64::from(ruleset_length(placed)),
            Item::Tables { tables, .. } => of_each(tables.len(), ENTRY_LEN),
        };
        bytes = bytes.saturating_add(more);
    }
    bytes
}

fn of_each(count: usize, length: u64) -> u64 {
    (count as u64).saturating_mul(length)
}

impl<J: Naming, R: Wait + Copy + Drop> Publisher<J> for Watched<'_, J, R> {
    ghost plain = { λ w. w.shower };

    fn offer(
        &mut self,
        changes: Vec<Arc<Change>>,
        durable: Arc<Durable>,
        front: &Front<J>,
    ) -> Result<(), AllocError> {
        if let Some(hundredths) = self.gauge.lock(&self.rt).note(&durable) {
            self.notice.leave(&self.rt, hundredths);
        }
        let age = self.age.with(&changes);
        self.renewal.note(age.changes, age.bytes);
        match self.shower.offer(changes, durable, front) {
            Ok(()) => {
                self.age = age;
                Ok(())
            }
            // they are offered again, with those that follow
            Err(error) => Err(error),
        }
    }

    fn show(&mut self) -> Result<(), AllocError> {
        self.shower.show()
    }

    fn durable(&self) -> &Durable {
        self.shower.durable()
    }

    fn len(&self) -> usize {
        self.shower.len()
    }

    fn token(&self) -> Token<J> {
        self.shower.token()
    }
}
