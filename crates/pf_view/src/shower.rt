//! What publishes to the copies.
ghost use Rattle.std.specs.Prelude.{◌≡◌, [], drop, IfSome, OnOk, OnErr};
ghost use Rattle.pf_view.specs.{Copies.{offered_version, IsChain}, Seers.{IsNewShower, JudgesBy}};

use crate::law::{Law, Seeing, Sight};
use crate::past::{Front, Naming};
use crate::publisher::Publisher;
use crate::seer::Seer;
use crate::shown::{Operation, Shown};
use crate::token::Token;
use core::mem::replace_with;
use left_right::writer::Writer;
use pf_core::{Change, Durable};
use std::alloc::AllocError;
use std::marker::Model;
use std::sync::{Arc, Wait};

pub(crate) type CopyWriter<J> = Writer<Shown, Operation, Sight, Law<J>>;

/// Shows changes to all seers at once. Contracts see what is shown, what is offered, and which copies it publishes to (`PlainShower`).
///
/// It keeps a handle on the runtime, since its [`Publisher::show`] and its drop wait for the seers that are judging. After its drop they
/// return `Gone`.
pub struct Shower<J: Naming, R: Wait + Drop> {
    writer: CopyWriter<J>,
    rt: R,
}

impl<J: Naming, R: Wait + Drop> Drop for Shower<J, R> {
    fn drop(self) {
        let Self { writer, rt } = self;
        drop(writer.take(&rt));
    }
}

impl<J: Naming, R: Wait + Drop> Model for Shower<J, R> {
    ghost use Rattle.std.specs.Prelude.{drop};
    ghost use Rattle.pf_view.specs.{Seers.PlainShower, Copies.{shower_with, IsShower}};

    ghost Value = { PlainShower };

    ghost view = { λ s. shower_with s.writer.desk.shown.value (drop s.writer.behind s.writer.log.items) s.writer.desk.place.table_id };

    ghost invariant = { λ s.
        IsShower J.base J.history s.writer.desk.shown.value (drop s.writer.behind s.writer.log.items) };
}

impl<J: Naming, R: Wait + Drop> Shower<J, R> {
    // A shower over a new writer, at which nothing is offered.
    pub(crate) fn new(writer: CopyWriter<J>, rt: R) -> Shower<J, R>
        requires base { IsChain J.base J.history writer.desk.shown.value }
        requires nothing_shown { writer.desk.shown.value.changes ≡ [] }
        requires nothing_pending { drop writer.behind writer.log.items ≡ [] }
        ensures new { IsNewShower result }
        ensures copies { result.copies ≡ writer.desk.place.table_id }
    {
        Shower { writer, rt }
    }

    /// One more seer of the copies that this shower publishes to. It begins with all the changes that are shown, and each of its verdicts
    /// is by these or more. `None`: all places are in use. There are as many places as [`views`](crate::views) made seers. A dropped seer
    /// frees its place.
    pub fn informed_seer(&self) -> Option<Seer<J>>
        ensures seen { IfSome result (λ s. s.seen ≡ self.now.shown) }
        ensures learnt { IfSome result (λ s. s.learnt ≡ self.now.shown) }
        ensures copies { IfSome result (JudgesBy self.now.copies) }
    {
        let reader = self.writer.factory().reader().ok()?;
        Some(Seer::informed(reader, self.token()))
    }
}

impl<J: Naming, R: Wait + Drop> Publisher<J> for Shower<J, R> {
    ghost plain = { λ s. s };

    fn offer(
        &mut self,
        changes: Vec<Arc<Change>>,
        durable: Arc<Durable>,
        front: &Front<J>,
    ) -> Result<(), AllocError> {
        let operation = Operation {
            changes,
            after: durable,
            front: front.trace(),
        };
        match self.writer.append(operation) {
            Ok(()) => Ok(()),
            Err(_) => Err(AllocError),
        }
    }

    // It waits for each seer that still judges by the copy that isn't shown.
    fn show(&mut self) -> Result<(), AllocError> {
        replace_with(&mut self.writer, &self.rt, |writer, rt| {
            publish::<J, R>(writer, rt)
        })
    }

    fn durable(&self) -> &Durable {
        &self.writer.published().durable
    }

    fn len(&self) -> usize {
        self.writer.published().changes.len()
    }

    fn token(&self) -> Token<J> {
        let shown = self.writer.published();
        Token::new(shown.front.again().named::<J>(), shown.changes.len())
    }
}

// Shows what is pending.
fn publish<J: Naming, R: Wait>(
    writer: CopyWriter<J>,
    rt: &R,
) -> (CopyWriter<J>, Result<(), AllocError>)
    requires { IsChain J.base J.history (offered_version writer.desk.shown.value (drop writer.behind writer.log.items)) }
    ensures shown { OnOk result.1
        (result.0.desk.shown.value ≡ offered_version writer.desk.shown.value (drop writer.behind writer.log.items)) }
    ensures nothing_pending { OnOk result.1 (drop result.0.behind result.0.log.items ≡ []) }
    ensures err { OnErr result.1 ((result.0.desk.shown.value ≡ writer.desk.shown.value)
        × (drop result.0.behind result.0.log.items ≡ drop writer.behind writer.log.items)) }
{
    writer.publish_as::<Seeing<J>, R>(rt)
}
