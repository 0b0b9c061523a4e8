//! A session: lines from a reader, replies to a writer.
ghost use Rattle.std.specs.{Io.KnownBytes.IsAtEnd, Prelude.{◌≡◌, ◌++◌, ℕ, IfOk, List, [], Ok, Err, MatchResult, Option}};
ghost use Rattle.pf_session.specs.declared.line_engine.left_off.LeftOff.TheVariants.{Ended, Paused};
ghost use Rattle.pf_session.specs.{LineEngine.Chains.Chain, LineEngine.Intakes.{AnsweredSoFar, HasBegun, IsCaughtUp, IsPart, LeavesOff}, LineEngine.Sessions.IsSession};

mod some;

use crate::line_engine::answer_line::AnswerLine;
use crate::line_engine::fault::EngineFault;
use crate::line_engine::intake::Intake;
use crate::line_engine::left_off::{LeftOff, NoPause, Pause};
use crate::line_engine::pieces::answer_rest;
pub use some::go_on_some;
use std::alloc::Global;
use std::io::{ErrorKind, Read, Write};

// More reads than are ever made.
const MOST_READS: u64 = 1 << 62;

// Answers what was read, as far as no pause is due, and has all replies written. Returns whether it pauses. `Err`: a write or the flush
// failed.
fn catch_up<A: AnswerLine, W: Write, P: Pause>(
    alloc: Global,
    intake: &mut Intake,
    writer: &mut W,
    answerer: &mut A,
    pause: &P,
) -> Result<bool, EngineFault>
    ensures paused { IsCaughtUp (P.may_pause pause.now) result intake.new }
    ensures answered { (input : List ℕ) (start : A) (held unread : Option (List ℕ)) →
        AnsweredSoFar (Chain A.Takes) input intake.old start answerer.old held (W.contents writer.old) →
        MatchResult result
        (λ paused. AnsweredSoFar (Chain A.Takes) input intake.new start answerer.new held (W.contents writer.new))
        (λ fault. LeavesOff (Chain A.Takes) (Err fault) input intake.new unread start answerer.new held (W.contents writer.new)) }
{
    match intake.answer(alloc, writer, answerer, pause) {
        Ok(paused) => match writer.flush() {
            Ok(()) => Ok(paused || pause.is_due()),
            Err(_) => Err(EngineFault::Write),
        },
        Err(_) => Err(EngineFault::Write),
    }
}

// Answers what is kept as the last line, where no more comes.
fn end_lines<A: AnswerLine, W: Write>(
    alloc: Global,
    intake: &Intake,
    writer: &mut W,
    answerer: &mut A,
) -> Result<LeftOff, EngineFault>
    requires { intake.now.ahead ≡ [] }
    ensures ended { IfOk result (λ left. left ≡ Ended) }
    ensures leaves { (input : List ℕ) (start : A) (held unread : Option (List ℕ)) → IsAtEnd unread →
        AnsweredSoFar (Chain A.Takes) input intake.now start answerer.old held (W.contents writer.old) →
        LeavesOff (Chain A.Takes) result input intake.now unread start answerer.new held (W.contents writer.new) }
{
    match answer_rest(alloc, intake.kept(), writer, answerer) {
        Ok(()) => Ok(LeftOff::Ended),
        Err(_) => Err(EngineFault::Write),
    }
}

/// Has the lines of a reader answered, one after the other, from where the session is, until it pauses or the reader is at its end.
///
/// A line ends at a newline (10), and the last one also at the input's end. The writer is flushed before each read, before a pause and at
/// the end. A read that was interrupted is made again, if no pause is due by then; there are fewer than 2^62 reads. It takes no memory of
/// its own.
///
/// `Paused`: a pause was due behind a line, before a read or behind one that was interrupted. All lines before are answered, and the intake
/// has what was read and not answered. The session may go on with this intake.
///
/// `Err(Read)`: a read failed, or there were too many; the whole lines before are answered. `Err(Write)`: a write or a flush failed; some
/// front of the last reply may be out.
pub fn go_on<A: AnswerLine, R: Read, W: Write, P: Pause>(
    alloc: Global,
    intake: &mut Intake,
    reader: &mut R,
    writer: &mut W,
    answerer: &mut A,
    pause: &P,
) -> Result<LeftOff, EngineFault>
    ensures begun { HasBegun intake.old intake.old.kept }
    ensures paused { result ≡ Ok Paused → P.may_pause pause.now }
    ensures part { (begun : List ℕ) → HasBegun intake.old begun →
        IsPart (Chain A.Takes) result (begun ++ intake.old.ahead) intake.new (R.remaining reader.old) (R.remaining reader.new)
        answerer.old answerer.new (W.contents writer.old) (W.contents writer.new) }
{
    // it is of a line, as its type says
    let _ = intake.kept();
    for _ in 1..MOST_READS {
        if catch_up(alloc, intake, writer, answerer, pause)? {
            return Ok(LeftOff::Paused);
        }
        match intake.read(reader) {
            Ok(n) => {
                if n == 0 {
                    return end_lines(alloc, intake, writer, answerer);
                }
            }
            Err(error) => {
                if error.kind() != ErrorKind::Interrupted {
                    return Err(EngineFault::Read);
                }
            }
        }
    }
    if catch_up(alloc, intake, writer, answerer, pause)? {
        return Ok(LeftOff::Paused);
    }
    Err(EngineFault::Read)
}

/// Has the lines of a reader answered, one after the other, until the reader is at its end, as [`go_on`] does without a pause.
///
/// The room for what it reads is allocated before anything is read. Its faults are those of `go_on`, and `Err(Memory)`: there was no memory
/// for that room, and nothing was read, answered or written.
pub fn answer_reader<A: AnswerLine, R: Read, W: Write>(
    alloc: Global,
    reader: &mut R,
    writer: &mut W,
    answerer: &mut A,
) -> Result<(), EngineFault>
    ensures { IsSession (Chain A.Takes) result (R.remaining reader.old) (R.remaining reader.new)
        answerer.old answerer.new (W.contents writer.old) (W.contents writer.new) }
{
    let Ok(mut intake) = Intake::new(alloc) else {
        return Err(EngineFault::Memory);
    };
    match go_on(alloc, &mut intake, reader, writer, answerer, &NoPause) {
        Ok(LeftOff::Ended) => Ok(()),
        Ok(LeftOff::Paused) => unreachable!(),
        Err(fault) => Err(fault),
    }
}
