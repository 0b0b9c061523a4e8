//! A shower and its seers.
ghost use Rattle.std.specs.{Prelude.{◌≡◌, ◌<◌, ◌≤◌, [], drop, vec_len, All, IfOk}, Arc.arc_value};
ghost use Rattle.pf_view.specs.declared.opening.ViewFault.TheVariants.{Memory};
ghost use Rattle.pf_view.specs.Past.Pasts.{all_acked, trace_with};
ghost use Rattle.pf_view.specs.{Copies.{IsChain, shown_with}, Seers.{IsNewSeer, IsNewShower, JudgesBy}};

use crate::law::{Law, Sight};
use crate::past::{Front, Naming};
use crate::seer::{CopyReader, Seer};
use crate::shower::{CopyWriter, Shower};
use crate::shown::Shown;
use crate::token::Token;
use left_right::reader::Factory;
use left_right::writer::Writer;
use pf_core::Durable;
use std::alloc::{AllocError, Global};
use std::sync::{Arc, Wait};

/// Why there are no copies. Nothing is left of them.
#[derive(Clone, Copy, Debug, PartialEq, Eq)]
pub enum ViewFault {
    /// Out of memory.
    Memory,
    /// A seer got no place among the readers of the copies, though not out of memory. Each seer has a place made for it, so no run is known
    /// to meet this, but no contract rules it out.
    Places,
}

impl From<AllocError> for ViewFault {
    ghost from_gives = { λ _ e. e ≡ Memory };

    fn from(_e: AllocError) -> ViewFault {
        ViewFault::Memory
    }
}

/// Makes the copies of what an opening gave, without changes, whose front is the start of the history: their shower, and this many seers of
/// them, 1 to 64. The shower keeps the handle. On an `Err` nothing is left.
pub fn views<J: Naming, R: Wait + Drop>(
    rt: R,
    alloc: Global,
    base: &Arc<Durable>,
    start: &Front<J>,
    seers: usize,
) -> Result<(Shower<J, R>, Vec<Seer<J>>), ViewFault>
    requires base { arc_value base.now ≡ J.base }
    requires start { start.now ≡ all_acked [] }
    requires seers { (0 < seers) × (seers ≤ 64) }
    ensures shower { IfOk result (λ r. IsNewShower r.0) }
    ensures seers { IfOk result (λ r. vec_len r.1 ≡ seers) }
    ensures new { IfOk result (λ r. All IsNewSeer r.1.items) }
    ensures copies { IfOk result (λ r. All (JudgesBy r.0.copies) r.1.items) }
{
    let writer: CopyWriter<J> = two_copies(alloc, base, start, seers)?;
    match new_seers(alloc, writer.factory(), start, seers) {
        Ok(all) => Ok((Shower::new(writer, rt), all)),
        Err(fault) => {
            drop(writer.take(&rt));
            Err(fault)
        }
    }
}

// Two copies without changes, and places for this many seers.
fn two_copies<J: Naming>(
    alloc: Global,
    base: &Arc<Durable>,
    start: &Front<J>,
    seers: usize,
) -> Result<CopyWriter<J>, ViewFault>
    requires base { arc_value base.now ≡ J.base }
    requires start { start.now ≡ all_acked [] }
    requires seers { (0 < seers) × (seers ≤ 64) }
    ensures base { IfOk result (λ w. IsChain J.base J.history w.desk.shown.value) }
    ensures nothing_shown { IfOk result (λ w. w.desk.shown.value.changes ≡ []) }
    ensures nothing_pending { IfOk result (λ w. drop w.behind w.log.items ≡ []) }
    ensures copies { IfOk result (λ w. w.desk.place.table_id ≡ (arc_value w.desk.from.board).shared.table_id) }
{
    let first = copy_of(alloc, base, start)?;
    let second = copy_of(alloc, base, start)?;
    Ok(Writer::new(alloc, first, second, seers)?)
}

// A copy without changes.
fn copy_of<J: Naming>(
    alloc: Global,
    base: &Arc<Durable>,
    start: &Front<J>,
) -> Result<Shown, AllocError>
    ensures { IfOk result (λ s. s ≡ shown_with [] (arc_value base.now) (trace_with J.history start.now)) }
{
    let durable = Arc::try_clone(base)?;
    Ok(Shown {
        changes: Vec::new(alloc),
        durable,
        front: start.trace(),
    })
}

// This many seers that saw nothing.
fn new_seers<J: Naming>(
    alloc: Global,
    factory: &Factory<Shown, Sight, Law<J>>,
    start: &Front<J>,
    seers: usize,
) -> Result<Vec<Seer<J>>, ViewFault>
    requires start { start.now ≡ all_acked [] }
    ensures count { IfOk result (λ v. vec_len v ≡ seers) }
    ensures new { IfOk result (λ v. All IsNewSeer v.items) }
    ensures copies { IfOk result (λ v. All (JudgesBy (arc_value factory.now.board).shared.table_id) v.items) }
{
    let mut all = Vec::with_capacity(alloc, seers)?;
    for _ in 0..seers {
        // making a reader takes no memory
        let Ok(reader) = factory.reader() else {
            return Err(ViewFault::Places);
        };
        all.push_reserved(new_seer(reader, start));
    }
    Ok(all)
}

// A seer that saw nothing and learnt nothing.
fn new_seer<J: Naming>(reader: CopyReader<J>, start: &Front<J>) -> Seer<J>
    requires start { start.now ≡ all_acked [] }
    ensures new { IsNewSeer result }
    ensures copies { JudgesBy reader.place.table_id result }
{
    Seer::informed(reader, Token::new(start.again(), 0))
}
