//! A session of which some lines are answered, and which stops before any other.
ghost use Rattle.std.specs.Prelude.{◌≡◌, ◌++◌, List, [], ℕ, IfOk, Err, MatchBool, MatchResult, Option, ⊤};
ghost use Rattle.pf_session.specs.declared.line_engine.left_off.LeftOff.TheVariants.{Paused};
ghost use Rattle.pf_session.specs.{LineEngine.Chains.Chain, LineEngine.Intakes.{AnsweredSoFar, HasBegun, IsPart, LeavesOff}};

use crate::line_engine::engine::MOST_READS;
use crate::line_engine::fault::EngineFault;
use crate::line_engine::intake::Intake;
use crate::line_engine::left_off::{LeftOff, Pause};
use crate::line_engine::some::AnswerSome;
use std::io::{ErrorKind, Read, Write};

// Answers what was read, up to the first line that isn't answered, and has all replies written. Returns whether it stops there. `Err`: a
// write or the flush failed.
fn catch_up_some<A: AnswerSome, W: Write, P: Pause>(
    intake: &mut Intake,
    writer: &mut W,
    answerer: &mut A,
    pause: &P,
) -> Result<bool, EngineFault>
    ensures caught_up { IfOk result (λ stops. MatchBool stops ⊤ (intake.new.ahead ≡ [])) }
    ensures answered { (input : List ℕ) (start : A) (held unread : Option (List ℕ)) →
        AnsweredSoFar (Chain A.Takes) input intake.old start answerer.old held (W.contents writer.old) →
        MatchResult result
        (λ stops. AnsweredSoFar (Chain A.Takes) input intake.new start answerer.new held (W.contents writer.new))
        (λ fault. LeavesOff (Chain A.Takes) (Err fault) input intake.new unread start answerer.new held (W.contents writer.new)) }
{
    match intake.answer_some(writer, answerer, pause) {
        Ok(stops) => match writer.flush() {
            Ok(()) => Ok(stops || pause.is_due()),
            Err(_) => Err(EngineFault::Write),
        },
        Err(_) => Err(EngineFault::Write),
    }
}

/// Has the lines of a reader answered that are of some kinds, one after the other, from where the session is, until a line of another kind
/// comes, a pause is due or the reader is at its end. It takes no memory.
///
/// `Paused`: the lines before are answered, and the intake has what was read and not answered, a line of another kind whole. The session may
/// go on with this intake: its reader's end comes again.
///
/// Faults are those of [`go_on`]. After 2^62 reads it pauses.
pub fn go_on_some<A: AnswerSome, R: Read, W: Write, P: Pause>(
    intake: &mut Intake,
    reader: &mut R,
    writer: &mut W,
    answerer: &mut A,
    pause: &P,
) -> Result<LeftOff, EngineFault>
    ensures begun { HasBegun intake.old intake.old.kept }
    ensures paused { IfOk result (λ left. left ≡ Paused) }
    ensures part { (begun : List ℕ) → HasBegun intake.old begun →
        IsPart (Chain A.Takes) result (begun ++ intake.old.ahead) intake.new (R.remaining reader.old) (R.remaining reader.new)
        answerer.old answerer.new (W.contents writer.old) (W.contents writer.new) }
{
    // it is of a line, as its type says
    let _ = intake.kept();
    for _ in 0..MOST_READS {
        if catch_up_some(intake, writer, answerer, pause)? {
            return Ok(LeftOff::Paused);
        }
        match intake.read(reader) {
            Ok(n) => {
                if n == 0 {
                    return Ok(LeftOff::Paused);
                }
            }
            Err(error) => {
                if error.kind() != ErrorKind::Interrupted {
                    return Err(EngineFault::Read);
                }
            }
        }
    }
    Ok(LeftOff::Paused)
}
