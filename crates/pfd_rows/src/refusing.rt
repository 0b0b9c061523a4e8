//! What shows the changes of a Book, and is refused memory at some of its calls, as a shower is that is out of memory.
use pf_book::{Front, Naming, Publisher, Shower, Token};
use pf_core::{Change, Durable};
use std::alloc::AllocError;
use std::sync::{Arc, Wait};

/// Which calls of a kind are refused: so many go through at first, and so many after them are refused. All later ones go through.
#[derive(Clone, Copy)]
pub(crate) struct Refusals {
    passed: u32,
    refused: u32,
}

impl Refusals {
    /// The refusals that the limits of a row have under a word, or none.
    pub(crate) fn of(limits: &str, word: &str) -> Refusals {
        let (_, rest) = limits.split_once(word).unwrap_or((limits, ""));
        let (numbers, _) = rest.split_once(',').unwrap_or((rest, ""));
        let mut numbers = numbers.split(' ');
        Refusals {
            passed: number(numbers.nth(1)),
            refused: number(numbers.next()),
        }
    }

    // Whether the next call is refused.
    fn refuse_next(&mut self) -> bool {
        if self.passed > 0 {
            self.passed -= 1;
            return false;
        }
        let refuses = self.refused > 0;
        self.refused = self.refused.saturating_sub(1);
        refuses
    }
}

// The number in decimal digits, or 0 if there is none.
fn number(text: Option<&str>) -> u32 {
    text.unwrap_or("").parse::<u32>().unwrap_or(0)
}

/// A shower, some of whose calls are refused before they reach it.
#[derive(Drop)]
pub(crate) struct Refusing<J: Naming, R: Wait + Drop> {
    pub(crate) shower: Shower<J, R>,
    pub(crate) offers: Refusals,
    pub(crate) shows: Refusals,
}

impl<J: Naming, R: Wait + Drop> Publisher<J> for Refusing<J, R> {
    ghost plain = { λ s. s.shower };

    fn offer(
        &mut self,
        changes: Vec<Arc<Change>>,
        durable: Arc<Durable>,
        front: &Front<J>,
    ) -> Result<(), AllocError> {
        if self.offers.refuse_next() {
            return Err(AllocError);
        }
        self.shower.offer(changes, durable, front)
    }

    fn show(&mut self) -> Result<(), AllocError> {
        if self.shows.refuse_next() {
            return Err(AllocError);
        }
        self.shower.show()
    }

    fn durable(&self) -> &Durable {
        self.shower.durable()
    }

    fn len(&self) -> usize {
        self.shower.len()
    }

    fn token(&self) -> Token<J> {
        self.shower.token()
    }
}
