//! A session of whose lines those are answered that ask what happens to a packet, and no others: it has a seer, and no Book. So judging goes
//! on while one opening ends and the next one begins.
ghost use Rattle.std.specs.Prelude.{◌≡◌, ◌++◌, ℕ, List, IfOk, IfSome, Option};
ghost use Rattle.pf_addr.specs.Writing.{Writes};
ghost use Rattle.pf_book.specs.Receipts.{PlainReceipt};
ghost use Rattle.pf_session.specs.declared.line_engine.left_off.LeftOff.TheVariants.{Paused};
ghost use Rattle.pf_session.specs.{LineEngine.Intakes.{HasBegun, IsPart}, Server.{Askings.AsksLines, Judgings.{AsksToJudge, IsSameJudging, JudgesInSession, seat}, Parts.{IsAskingPart, IsSharedPart}, Sittings.{HasJudged, TakesLines, next_line}}, Laws.Judging.judges-seen};

use crate::line_engine::{self, AnswerSome, EngineFault, Intake, LeftOff, Pause};
use crate::server::denial::is_denied;
use crate::server::gate::Gate;
use crate::server::line_session::LineSession;
use crate::server::session::write_verdict;
use pf_book::{Chapter, Seer};
use pf_line::{may_judge, parse_judge};
use pf_rule::Packet;
use std::io::{self, Read, Write};

/// A session that judges: what it works with, and how many lines it had.
#[derive(Drop)]
pub(crate) struct Judging<'a, J: Chapter, G: Gate> {
    seer: &'a mut Seer<J>,
    gate: &'a G,
    number: u32,
    line: u32,
}

// The packet that a line asks to judge, if it does.
fn packet_of(line: &[u8]) -> Option<Packet>
    ensures { IfSome result (λ packet. AsksToJudge line.now packet) }
{
    if !may_judge(line) {
        return None;
    }
    if is_denied(line) {
        return None;
    }
    let Some(said) = parse_judge(line) else {
        return None;
    };
    match said {
        Ok(packet) => Some(packet),
        Err(_) => None,
    }
}

impl<'a, J: Chapter, G: Gate> Judging<'a, J, G> {
    // Judges the packet of the next line, behind the gate.
    fn judge<O: Write>(&mut self, packet: &Packet, writer: &mut O) -> io::Result<()>
        ensures same { IsSameJudging self.old self.new }
        ensures gate { G.passed self.old.gate.now self.old.number (next_line self.old.line) }
        ensures next { self.new.line ≡ next_line self.old.line }
        ensures judged { (text : List ℕ) × HasJudged J.base packet.now self.old.seer.now self.new.seer.now text ×
            Writes result (O.contents writer.old) (O.contents writer.new) text }
    {
        self.line = self.line.saturating_add(1);
        self.gate.pass(self.number, self.line);
        write_verdict(self.seer, packet, writer)
    }
}

impl<'a, J: Chapter, G: Gate> AnswerSome for Judging<'a, J, G> {
    ghost Takes = { JudgesInSession G.passed J.base };

    fn answer_some<O: Write>(&mut self, line: &[u8], writer: &mut O) -> io::Result<bool> {
        let Some(packet) = packet_of(line) else {
            return Ok(false);
        };
        match self.judge(&packet, writer) {
            Ok(()) => Ok(true),
            Err(error) => Err(error),
        }
    }

    ghost takes_seen = { judges-seen G.passed J.base };
}

// Serves such a session from where it is.
fn judge_part<J: Chapter, G: Gate, P: Pause, R: Read, O: Write>(
    intake: &mut Intake,
    reader: &mut R,
    writer: &mut O,
    judging: &mut Judging<'_, J, G>,
    pause: &P,
) -> Result<LeftOff, EngineFault>
    ensures same { IsSameJudging judging.old judging.new }
    ensures paused { IfOk result (λ left. left ≡ Paused) }
    ensures part { (last : Option PlainReceipt) (begun : List ℕ) → HasBegun intake.old begun →
        IsPart (TakesLines (G.passed judging.old.gate.now judging.old.number) J.base J.setting) result (begun ++ intake.old.ahead) intake.new
        (R.remaining reader.old) (R.remaining reader.new) (seat last judging.old) (seat last judging.new)
        (O.contents writer.old) (O.contents writer.new) }
    ensures asking_part { (last : Option PlainReceipt) (begun : List ℕ) → HasBegun intake.old begun →
        IsPart (AsksLines (G.passed judging.old.gate.now judging.old.number) J.base J.setting) result (begun ++ intake.old.ahead) intake.new
        (R.remaining reader.old) (R.remaining reader.new) (seat last judging.old) (seat last judging.new)
        (O.contents writer.old) (O.contents writer.new) }
{
    line_engine::go_on_some(intake, reader, writer, judging, pause)
}

/// Answers the lines of a reader that ask what happens to a packet, by the session's seer alone, from where the session is: until a line of
/// another kind comes, a pause is due or the reader is at its end. It has no handle to wait by and no Book to ask, takes no memory, and
/// waits for the reader, the writer and the gate.
///
/// `Paused`: all lines before are answered, and all replies are with the writer, which was flushed; the session has what was read and not
/// answered, a line of another kind whole. Whether the session may only ask or not, this is a part of it in the opening `J`, which goes on
/// behind its part with the Book, as [`sessions_go_on`](crate::laws::sessions_go_on) says; the receipt of its last call stays.
///
/// Faults are those of [`go_on`](crate::go_on).
pub fn go_on_judging<J: Chapter, G: Gate, P: Pause, R: Read, O: Write>(
    session: &mut LineSession,
    reader: &mut R,
    writer: &mut O,
    seer: &mut Seer<J>,
    gate: &G,
    pause: &P,
) -> Result<LeftOff, EngineFault>
    ensures number { session.new.number ≡ session.old.number }
    ensures paused { IfOk result (λ left. left ≡ Paused) }
    ensures part { (last : Option PlainReceipt) (begun : List ℕ) → HasBegun session.old.intake begun →
        IsSharedPart (G.passed gate.now session.old.number) J.base J.setting result (begun ++ session.old.intake.ahead) session.new.intake
        (R.remaining reader.old) (R.remaining reader.new) session.old.line session.new.line last last seer.old seer.new
        (O.contents writer.old) (O.contents writer.new) }
    ensures asking_part { (last : Option PlainReceipt) (begun : List ℕ) → HasBegun session.old.intake begun →
        IsAskingPart (G.passed gate.now session.old.number) J.base J.setting result (begun ++ session.old.intake.ahead) session.new.intake
        (R.remaining reader.old) (R.remaining reader.new) session.old.line session.new.line last last seer.old seer.new
        (O.contents writer.old) (O.contents writer.new) }
{
    let mut judging = Judging {
        seer,
        gate,
        number: session.number,
        line: session.line,
    };
    let left = judge_part(&mut session.intake, reader, writer, &mut judging, pause);
    session.line = judging.line;
    left
}
