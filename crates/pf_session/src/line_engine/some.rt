//! Pieces of which some lines are answered, up to the first of another kind.
ghost use Rattle.std.specs.Prelude.{◌≡◌, ℕ, ◌≤◌, ◌++◌, List, length, take, IfOk, MatchResult, Option};
ghost use Rattle.pf_session.specs.{LineEngine.Chains.Chain, LineEngine.Lines.seen, LineEngine.Pieces.{Failed, MayAnswer, SessionSoFar}};

use crate::line_engine::answer_line::LOOKED_AT;
use crate::line_engine::left_off::Pause;
use crate::line_engine::pieces::Reached;
use std::io::{self, Write};

/// What answers lines of some kinds, one after the other, and none of the others.
pub trait AnswerSome {
    /// `Takes line old new text`: this line, without its newline, took the old state to the new one, and this text was
    /// its reply.
    ghost Takes: { List ℕ → Self → Self → List ℕ → Type 0 };

    /// Answers one line, given without its newline, and at most its first 4,097 bytes, if it is of those kinds: writes its reply to the
    /// writer. Returns whether it did; if not, nothing was done. `Err`: a write failed; some front of the reply is out.
    fn answer_some<W: Write>(&mut self, line: &[u8], writer: &mut W) -> io::Result<bool>
        ensures { MayAnswer Takes result line.now self.old self.new (W.contents writer.old) (W.contents writer.new) };

    // What isn't looked at of a line makes no difference.
    ghost takes_seen: { (old new : Self) (line text : List ℕ) → Takes (seen line) old new text → Takes line old new text };
}

/// Answers lines that end in this piece of the input, up to the first one that isn't answered, as it is of another kind or a pause is due.
/// Of that line all is kept, as far as it is looked at, and its newline is the first byte that isn't looked at. Else it is as in
/// `answer_piece`.
pub(crate) fn answer_some_in<A: AnswerSome, W: Write, P: Pause>(
    piece: &[u8],
    line: &mut [u8],
    kept: usize,
    writer: &mut W,
    answerer: &mut A,
    pause: &P,
) -> io::Result<Reached>
    requires room { LOOKED_AT ≤ length line.old }
    requires few { kept ≤ LOOKED_AT }
    ensures few { IfOk result (λ at. at.kept ≤ LOOKED_AT) }
    ensures within { IfOk result (λ at. at.used ≤ length piece.now) }
    ensures session { (input : List ℕ) (start : A) (held : Option (List ℕ)) →
        SessionSoFar (Chain A.Takes) input (take kept line.old) start answerer.old held (W.contents writer.old) →
        MatchResult result
        (λ at. SessionSoFar (Chain A.Takes) (input ++ take at.used piece.now) (take at.kept line.new) start answerer.new held (W.contents writer.new))
        (λ e. Failed (Chain A.Takes) (input ++ piece.now) start answerer.new held (W.contents writer.new)) }
{
    let mut len = kept;
    let mut used = 0;
    for byte in piece {
        if *byte == b'\n' {
            if pause.is_due() {
                return Ok(Reached { kept: len, used });
            }
            if !answerer.answer_some(&line[..len], writer)? {
                return Ok(Reached { kept: len, used });
            }
            len = 0;
        } else if len < LOOKED_AT {
            line[len] = *byte;
            len += 1;
        }
        used += 1;
    }
    Ok(Reached { kept: len, used })
}
