//! What a session has read and not answered.
ghost use Rattle.std.specs.Prelude.{◌≡◌, ◌≤◌, ◌<◌, ◌++◌, ℕ, List, [], length, take, IfOk, OnErr, MatchBool, MatchResult, Option};
ghost use Rattle.std.specs.Io.KnownBytes.{Consumes, IsAtEnd, Keeps};
ghost use Rattle.pf_session.specs.{LineEngine.Chains.Chain, LineEngine.Intakes.{AnsweredSoFar, HasBegun, nothing_read}, LineEngine.Pieces.Failed};

mod some;

use crate::line_engine::answer_line::{AnswerLine, LOOKED_AT};
use crate::line_engine::left_off::Pause;
use crate::line_engine::pieces::{Reached, answer_piece};
use std::alloc::{AllocError, Global};
use std::io::{self, Read, Write};
use std::marker::Model;

// How many bytes one read gives at most: 65,536 with what is looked at of a line.
const PIECE_LEN: usize = 61_439;

/// What a session has read and not answered, and the room for it: what is looked at of a line that has begun, and behind that what was read
/// and not looked at yet. So it goes on after a pause without any memory. Contracts see it as a `PlainIntake`.
#[derive(Drop)]
pub struct Intake {
    // the first `kept` bytes are kept of a line that has begun
    line: Vec<u8>,
    kept: usize,
    // what one read gave, from `from` to `to` not looked at yet
    piece: Vec<u8>,
    from: usize,
    to: usize,
}

impl Model for Intake {
    ghost use Rattle.std.specs.Prelude.{◌≡◌, ◌≤◌, take, slice_range, vec_len};
    ghost use Rattle.pf_session.specs.{LineEngine.Lines.IsLine, LineEngine.Intakes.PlainIntake};

    ghost Value = { PlainIntake };

    ghost view = { λ i. record { kept = take i.kept i.line.items; ahead = slice_range i.piece.items i.from i.to } };

    ghost invariant = { λ i. (vec_len i.line ≡ 4097) × (i.kept ≤ 4097) × (vec_len i.piece ≡ 61439) × (i.from ≤ i.to) × (i.to ≤ 61439) × IsLine (take i.kept i.line.items) };
}

impl Intake {
    /// Room for a session that has read nothing yet. `AllocError`: out of memory.
    pub fn new(alloc: Global) -> Result<Intake, AllocError>
        ensures { IfOk result (λ intake. intake ≡ nothing_read) }
    {
        let line = Vec::from_elem(alloc, 0, LOOKED_AT)?;
        let piece = Vec::from_elem(alloc, 0, PIECE_LEN)?;
        Ok(Intake {
            line,
            kept: 0,
            piece,
            from: 0,
            to: 0,
        })
    }

    /// What is kept of a line that has begun.
    pub(crate) fn kept(&self) -> &[u8]
        ensures kept { result.now ≡ self.now.kept }
        ensures line { HasBegun self.now self.now.kept }
    {
        &self.line[..self.kept]
    }

    /// Reads once, where all that was read was looked at, and returns how many bytes came: none at the reader's end. After an `Err` nothing
    /// more was read.
    pub(crate) fn read<R: Read>(&mut self, reader: &mut R) -> io::Result<usize>
        requires { self.old.ahead ≡ [] }
        ensures read { IfOk result (λ n. (length self.new.ahead ≡ n) × Consumes (R.remaining reader.old) (R.remaining reader.new) self.new.ahead) }
        ensures end { IfOk result (λ n. n ≡ 0 → IsAtEnd (R.remaining reader.new)) }
        ensures failed { OnErr result ((self.new.ahead ≡ []) × Keeps (R.remaining reader.old) (R.remaining reader.new)) }
        ensures kept { self.new.kept ≡ self.old.kept }
    {
        self.from = 0;
        self.to = 0;
        let n = reader.read(self.piece.as_mut_slice())?;
        self.to = n;
        Ok(n)
    }

    /// Answers the lines that end in what was read and not looked at; if a pause is due no line more. Returns whether it paused, and so may
    /// have left some. `Err`: a write failed.
    pub(crate) fn answer<A: AnswerLine, W: Write, P: Pause>(
        &mut self,
        alloc: Global,
        writer: &mut W,
        answerer: &mut A,
        pause: &P,
    ) -> io::Result<bool>
        ensures paused { IfOk result (λ paused. MatchBool paused (P.may_pause pause.now) (self.new.ahead ≡ [])) }
        ensures answered { (input : List ℕ) (start : A) (held : Option (List ℕ)) →
            AnsweredSoFar (Chain A.Takes) input self.old start answerer.old held (W.contents writer.old) →
            MatchResult result
            (λ paused. AnsweredSoFar (Chain A.Takes) input self.new start answerer.new held (W.contents writer.new))
            (λ e. Failed (Chain A.Takes) input start answerer.new held (W.contents writer.new)) }
    {
        let answered = answer_piece(
            alloc,
            &self.piece[self.from..self.to],
            self.line.as_mut_slice(),
            self.kept,
            writer,
            answerer,
            pause,
        );
        match answered {
            Ok(Reached { kept, used }) => {
                self.kept = kept;
                self.from += used;
                Ok(self.from < self.to)
            }
            Err(error) => {
                self.kept = 0;
                Err(error)
            }
        }
    }
}
