//! Where a caller finds its answer.
ghost use Rattle.std.specs.Prelude.{◌≡◌, IfSome, Some};
ghost use Rattle.pf_queue.specs.Numbers.{IsNumbered};

use crate::register::{Number, Numbering};
use crate::runs::RunsTogether;
use std::alloc::{AllocError, Global};
use std::marker::Model;
use std::sync::{Arc, Mutex, Wait};

/// An answer, with the number of its job.
pub(crate) struct Ready<K: Numbering, B: RunsTogether> {
    number: Number<K, B>,
    answer: B::Answer,
}

impl<K: Numbering, B: RunsTogether> Model for Ready<K, B> {
    ghost use Rattle.pf_queue.specs.Numbers.{IsNumbered, PlainReady};

    ghost Value = { PlainReady B.Entry B.Answer };

    ghost view = { λ r. record { number = r.number.number; log = r.number.log; answer = r.answer } };

    ghost invariant = { λ r. (entry : B.Entry) × IsNumbered r.number.log r.number.number entry × B.Answers entry r.answer };
}

impl<K: Numbering, B: RunsTogether> Drop for Ready<K, B> {
    fn drop(self) {
        let Self {
            number: _,
            answer: _,
        } = self;
    }
}

impl<K: Numbering, B: RunsTogether> Ready<K, B> {
    // The answer, if it has this number. It has: nothing else is put into the number's slot.
    fn answer_to(self, number: &Number<K, B>) -> Option<B::Answer>
        ensures { IfSome result (λ a. (entry : B.Entry) → IsNumbered number.now.log number.now.number entry → B.Answers entry a) }
    {
        let Self {
            number: other,
            answer,
        } = self;
        if other.number() != number.number() {
            return None;
        }
        other.agrees(number);
        Some(answer)
    }
}

/// A slot that two share: who asks, and who answers.
pub(crate) struct Slot<K: Numbering, B: RunsTogether> {
    cell: Arc<Mutex<Option<Ready<K, B>>>>,
}

impl<K: Numbering, B: RunsTogether> Drop for Slot<K, B> {
    fn drop(self) {
        let Self { cell: _ } = self;
    }
}

impl<K: Numbering, B: RunsTogether> Slot<K, B> {
    /// An empty slot, twice.
    pub(crate) fn pair(alloc: Global) -> Result<(Slot<K, B>, Slot<K, B>), AllocError> {
        let Ok(cell) = Arc::new(alloc, Mutex::new(None)) else {
            return Err(AllocError);
        };
        let again = Arc::try_clone(&cell)?;
        Ok((Slot { cell }, Slot { cell: again }))
    }

    /// Takes the answer to the job of this number, if it is there.
    pub(crate) fn take<W: Wait>(&self, rt: &W, number: &Number<K, B>) -> Option<B::Answer>
        ensures { IfSome result (λ a. (entry : B.Entry) → IsNumbered number.now.log number.now.number entry → B.Answers entry a) }
    {
        let ready = self.cell.lock(rt).take()?;
        ready.answer_to(number)
    }
}

/// Where the answer to a job goes. It has no drop: whoever has it answers, or says that nobody asks any more.
pub(crate) struct Place<K: Numbering, B: RunsTogether> {
    number: Number<K, B>,
    slot: Slot<K, B>,
}

impl<K: Numbering, B: RunsTogether> Place<K, B> {
    pub(crate) fn new(number: Number<K, B>, slot: Slot<K, B>) -> Place<K, B>
        ensures { result.number ≡ number }
    {
        Place { number, slot }
    }

    /// Puts the answer into the slot.
    pub(crate) fn put<W: Wait>(self, rt: &W, answer: B::Answer)
        requires { (entry : B.Entry) × IsNumbered self.number.log self.number.number entry × B.Answers entry answer }
    {
        let Place { number, slot } = self;
        *slot.cell.lock(rt) = Some(Ready { number, answer });
    }

    /// Nobody asks any more.
    pub(crate) fn give_up(self) {
        let Place { number: _, slot: _ } = self;
    }
}
