//! What answers lines.
ghost use Rattle.std.specs.Prelude.{◌≡◌, List, [], ◌∷◌, ◌++◌, ℕ};
ghost use Rattle.pf_addr.specs.Writing.{Writes};
ghost use Rattle.pf_session.specs.{LineEngine.Chains.Chain, LineEngine.Lines.seen, LineEngine.Pieces.{Answers, TakesSome}};

use std::alloc::Global;
use std::io::{self, Write};

/// How many bytes of a line are looked at.
pub const LOOKED_AT: usize = 4_097;

/// What answers lines, one after the other.
pub trait AnswerLine {
    /// What keeps lines that wait for their replies.
    type Waiting: Drop;

    /// `Waits lines waiting`: these lines wait, in this order.
    ghost Waits: { List (List ℕ) → Self.Waiting → Type 0 };

    /// `Takes line old new text`: this line, without its newline, took the old state to the new one, and this text was
    /// its reply.
    ghost Takes: { List ℕ → Self → Self → List ℕ → Type 0 };

    /// Answers one line, given without its newline, and at most its first 4,097 bytes: writes its reply, if it has one,
    /// to the writer. `Err`: a write failed; some front of the reply is out.
    fn answer_line<W: Write>(
        &mut self,
        alloc: Global,
        line: &[u8],
        writer: &mut W,
    ) -> io::Result<()>
        ensures { (text : List ℕ) × Takes line.now self.old self.new text ×
            Writes result (W.contents writer.old) (W.contents writer.new) text };

    /// No line waits. It takes no memory.
    fn none_waiting(alloc: Global) -> Self::Waiting
        ensures { Waits [] result };

    /// Takes a line behind those that wait, given as to `answer_line`. Some of them all may be answered, from the front on; the others wait.
    /// `Err`: a write failed; every reply was written but the last, and some front of that is out.
    fn take_line<W: Write>(
        &mut self,
        alloc: Global,
        waiting: &mut Self::Waiting,
        line: &[u8],
        writer: &mut W,
    ) -> io::Result<()>
        ensures { (lines : List (List ℕ)) (whole : List ℕ) → Waits lines waiting.old → line.now ≡ seen whole →
            TakesSome (Chain Takes) Waits result (lines ++ whole ∷ []) self.old self.new waiting.new (W.contents writer.old) (W.contents writer.new) };

    /// Answers the lines that wait. `Err` is as in `take_line`.
    fn answer_waiting<W: Write>(
        &mut self,
        alloc: Global,
        waiting: &mut Self::Waiting,
        writer: &mut W,
    ) -> io::Result<()>
        ensures reported { (lines : List (List ℕ)) → Waits lines waiting.old →
            Answers (Chain Takes) result lines self.old self.new (W.contents writer.old) (W.contents writer.new) }
        ensures none { Waits [] waiting.new };

    // What isn't looked at of a line makes no difference.
    ghost takes_seen: { (old new : Self) (line text : List ℕ) → Takes (seen line) old new text → Takes line old new text };
}
