//! An input that comes in pieces, cut into lines, and each line answered.
ghost use Rattle.std.specs.Prelude.{◌≡◌, ℕ, ◌≤◌, ◌<◌, ◌++◌, List, length, take, Option, IfOk, MatchResult};
ghost use Rattle.pf_session.specs.{LineEngine.Chains.Chain, LineEngine.Lines.{last_line, seen}, LineEngine.Sessions.Answered, LineEngine.Pieces.{Answers, SessionSoFar, Failed}};

use crate::line_engine::answer_line::{AnswerLine, LOOKED_AT};
use crate::line_engine::left_off::Pause;
use std::alloc::Global;
use std::io::{self, Write};

/// How far a piece was taken: how many bytes are kept of a line that began in it or before it, and how many bytes of it were looked at.
#[derive(Clone, Copy, Debug)]
pub(crate) struct Reached {
    pub(crate) kept: usize,
    pub(crate) used: usize,
}

/// Answers each line that ends in this piece of the input; none waits behind it. The first `kept` bytes of `line` are what is kept of a
/// line that began before the piece, as far as it is looked at. Behind a line at which a pause is due nothing is looked at. `Err`: a write
/// failed.
pub(crate) fn answer_piece<A: AnswerLine, W: Write, P: Pause>(
    alloc: Global,
    piece: &[u8],
    line: &mut [u8],
    kept: usize,
    writer: &mut W,
    answerer: &mut A,
    pause: &P,
) -> io::Result<Reached>
    requires room { LOOKED_AT ≤ length line.old }
    requires few { kept ≤ LOOKED_AT }
    ensures few { IfOk result (λ at. at.kept ≤ LOOKED_AT) }
    ensures within { IfOk result (λ at. at.used ≤ length piece.now) }
    ensures paused { IfOk result (λ at. at.used < length piece.now → P.may_pause pause.now) }
    ensures session { (input : List ℕ) (start : A) (held : Option (List ℕ)) →
        SessionSoFar (Chain A.Takes) input (take kept line.old) start answerer.old held (W.contents writer.old) →
        MatchResult result
        (λ at. SessionSoFar (Chain A.Takes) (input ++ take at.used piece.now) (take at.kept line.new) start answerer.new held (W.contents writer.new))
        (λ e. Failed (Chain A.Takes) (input ++ piece.now) start answerer.new held (W.contents writer.new)) }
{
    let mut len = kept;
    let mut used = 0;
    let mut waiting = A::none_waiting(alloc);
    for byte in piece {
        used += 1;
        if *byte == b'\n' {
            answerer.take_line(alloc, &mut waiting, &line[..len], writer)?;
            len = 0;
            if pause.is_due() {
                answerer.answer_waiting(alloc, &mut waiting, writer)?;
                return Ok(Reached { kept: 0, used });
            }
        } else if len < LOOKED_AT {
            line[len] = *byte;
            len += 1;
        }
    }
    answerer.answer_waiting(alloc, &mut waiting, writer)?;
    Ok(Reached { kept: len, used })
}

/// The end of the input: what comes after the last newline is answered as a last line, unless it is empty, and all is flushed. `Err`: a
/// write or the flush failed.
pub fn answer_rest<A: AnswerLine, W: Write>(
    alloc: Global,
    rest: &[u8],
    writer: &mut W,
    answerer: &mut A,
) -> io::Result<()>
    ensures { (lines : List (List ℕ)) (line : List ℕ) (start : A) (held : Option (List ℕ)) →
        rest.now ≡ seen line → Answered (Chain A.Takes) lines start answerer.old held (W.contents writer.old) →
        Answers (Chain A.Takes) result (lines ++ last_line line) start answerer.new held (W.contents writer.new) }
{
    if !rest.is_empty() {
        answerer.answer_line(alloc, rest, writer)?;
    }
    writer.flush()
}
