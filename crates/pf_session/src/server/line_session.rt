//! A session of lines, without what belongs to an opening.
ghost use Rattle.std.specs.Prelude.{◌≡◌, IfOk};
ghost use Rattle.pf_session.specs.LineEngine.Intakes.{nothing_read};

use crate::line_engine::Intake;
use std::alloc::{AllocError, Global};

/// A session of lines, without what belongs to an opening: its number, how many lines it had, and what it has read and not answered. So it
/// goes from one opening to the next, and needs no memory there.
#[derive(Drop)]
pub struct LineSession {
    pub(super) number: u32,
    pub(super) line: u32,
    pub(super) intake: Intake,
}

impl LineSession {
    /// The session of this number, which had no line yet. `AllocError`: out of memory for what it reads.
    pub fn new(alloc: Global, number: u32) -> Result<LineSession, AllocError>
        ensures { IfOk result (λ s. (s.number ≡ number) × (s.line ≡ 0) × (s.intake ≡ nothing_read)) }
    {
        Ok(LineSession {
            number,
            line: 0,
            intake: Intake::new(alloc)?,
        })
    }
}
