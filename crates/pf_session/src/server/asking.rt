//! A session that may ask and change nothing, over a Book that others use too. It has a seer, and no way to call the Book but to ask.
ghost use Rattle.std.specs.Prelude.{◌≡◌, ◌++◌, ℕ, List, [], Ok, Option, None};
ghost use Rattle.pf_addr.specs.Writing.{Writes};
ghost use Rattle.pf_line.specs.Reply.Replies.{reply_text};
ghost use Rattle.pf_book.specs.Receipts.{PlainReceipt};
ghost use Rattle.pf_session.specs.declared.line_engine.left_off.LeftOff.TheVariants.{Paused};
ghost use Rattle.pf_session.specs.{LineEngine.{Intakes.{HasBegun, IsPart}, Sessions.IsSession}, Server.Parts.IsAskingPart, Server.{Askings.{Asks, AsksBy, AsksLines, IsAskingSession, IsInquired}, AskingRuns.{AsksInSession, IsSameAsker, TakesInAsking, place}, Inquiries.is_inquiry, Sittings.IsJudged}, Laws.Asking.asks-seen};

use crate::line_engine::{self, AnswerLine, EngineFault, Intake, LeftOff, Pause};
use crate::server::caller::{AskBook, Caller};
use crate::server::denial::{deny, is_denied};
use crate::server::gate::Gate;
use crate::server::inquiry::Inquiry;
use crate::server::line_session::LineSession;
use crate::server::session::{packet_in, write_verdict};
use crate::telling::{RunCommands, answer, show, tell, tell_anchors};
use pf_addr::path::Path;
use pf_book::shared::Shared;
use pf_book::{Chapter, Disk, Numbering, Publisher, Receipt, Seer};
use pf_core::{Command, Reply};
use pf_rule::Packet;
use std::alloc::Global;
use std::io::{self, Read, Write};
use std::sync::Wait;

/// A session that asks: what it works with, how many lines it had, and the receipt of its last call.
#[derive(Drop)]
pub(crate) struct Asker<'a, A: AskBook<J>, J: Chapter, G: Gate> {
    book: &'a A,
    seer: &'a mut Seer<J>,
    gate: &'a G,
    number: u32,
    line: u32,
    // behind a reference, so that it owns no memory
    last: &'a mut Option<Receipt<J>>,
}

impl<'a, A: AskBook<J>, J: Chapter, G: Gate> Asker<'a, A, J, G> {
    // Asks the Book, and keeps the receipt of its reply.
    fn inquire(&mut self, inquiry: Inquiry) -> Reply
        ensures same { IsSameAsker self.old self.new }
        ensures asked { IsInquired J.base J.setting inquiry.command (place self.old) (place self.new) (reply_text result) }
    {
        let (reply, receipt) = self.book.ask(inquiry, self.last.as_ref());
        *self.last = Some(receipt);
        reply
    }

    // Asks the Book, and writes the reply.
    fn inquire_and_tell<O: Write>(&mut self, inquiry: Inquiry, writer: &mut O) -> io::Result<()>
        ensures same { IsSameAsker self.old self.new }
        ensures asked { (text : List ℕ) × IsInquired J.base J.setting inquiry.command (place self.old) (place self.new) text ×
            Writes result (O.contents writer.old) (O.contents writer.new) text }
    {
        let reply = self.inquire(inquiry);
        tell(writer, reply)
    }

    // Judges a packet by the session's own seer, without the Book.
    fn judge<O: Write>(&mut self, packet: &Packet, writer: &mut O) -> io::Result<()>
        ensures same { IsSameAsker self.old self.new }
        ensures judged { (text : List ℕ) × IsJudged J.base packet.now (place self.old) (place self.new) text ×
            Writes result (O.contents writer.old) (O.contents writer.new) text }
    {
        write_verdict(self.seer, packet, writer)
    }

    // Asks the Book what asks, and denies any other command. A packet isn't judged by it.
    fn ask_or_deny<O: Write>(&mut self, command: Command, writer: &mut O) -> io::Result<()>
        ensures same { IsSameAsker self.old self.new }
        ensures asks { (text : List ℕ) × AsksBy None (is_inquiry command) J.base J.setting command (place self.old) (place self.new) text ×
            Writes result (O.contents writer.old) (O.contents writer.new) text }
    {
        match Inquiry::of(command) {
            Some(inquiry) => self.inquire_and_tell(inquiry, writer),
            None => deny(writer),
        }
    }

    // Answers a command that asks, and denies any other.
    fn hear<O: Write>(&mut self, command: Command, writer: &mut O) -> io::Result<()>
        ensures same { IsSameAsker self.old self.new }
        ensures asks { (text : List ℕ) × Asks J.base J.setting command (place self.old) (place self.new) text ×
            Writes result (O.contents writer.old) (O.contents writer.new) text }
    {
        if let Some(packet) = packet_in(&command) {
            return self.judge(packet, writer);
        }
        self.ask_or_deny(command, writer)
    }
}

impl<'a, A: AskBook<J>, J: Chapter, G: Gate> RunCommands for Asker<'a, A, J, G> {
    ghost Runs = { AsksInSession J.base J.setting };

    fn run_command<O: Write>(&mut self, command: Command, writer: &mut O) -> io::Result<()> {
        self.hear(command, writer)
    }

    fn judge_packet<O: Write>(&mut self, packet: &Packet, writer: &mut O) -> io::Result<()> {
        self.judge(packet, writer)
    }

    fn show_status<O: Write>(&mut self, writer: &mut O) -> io::Result<()> {
        let status = self.book.status(self.last.as_ref());
        show(writer, status, self.gate.sessions())
    }

    fn show_anchors<O: Write>(&mut self, path: &Path, writer: &mut O) -> io::Result<()> {
        let listed = self.book.anchors_below(path, self.last.as_ref());
        tell_anchors(writer, listed)
    }
}

// Each line is answered as it comes: questions are kept together with nothing.
impl<'a, A: AskBook<J>, J: Chapter, G: Gate> AnswerLine for Asker<'a, A, J, G> {
    type Waiting = ();

    ghost Waits = { λ lines waiting. lines ≡ [] };

    ghost Takes = { TakesInAsking G.passed J.base J.setting };

    fn answer_line<O: Write>(
        &mut self,
        alloc: Global,
        line: &[u8],
        writer: &mut O,
    ) -> io::Result<()> {
        self.line = self.line.saturating_add(1);
        self.gate.pass(self.number, self.line);
        if is_denied(line) {
            return deny(writer);
        }
        answer(alloc, line, writer, self)
    }

    fn none_waiting(_alloc: Global) {}

    fn take_line<O: Write>(
        &mut self,
        alloc: Global,
        _waiting: &mut (),
        line: &[u8],
        writer: &mut O,
    ) -> io::Result<()> {
        self.answer_line(alloc, line, writer)
    }

    fn answer_waiting<O: Write>(
        &mut self,
        _alloc: Global,
        _waiting: &mut (),
        _writer: &mut O,
    ) -> io::Result<()> {
        Ok(())
    }

    ghost takes_seen = { asks-seen G.passed J.base J.setting };
}

// Serves such a session until the reader is at its end.
fn run_asker<A: AskBook<J>, J: Chapter, G: Gate, R: Read, O: Write>(
    alloc: Global,
    reader: &mut R,
    writer: &mut O,
    asker: &mut Asker<'_, A, J, G>,
) -> Result<(), EngineFault>
    ensures same { IsSameAsker asker.old asker.new }
    ensures session { IsSession (AsksLines (G.passed asker.old.gate.now asker.old.number) J.base J.setting) result
        (R.remaining reader.old) (R.remaining reader.new) (place asker.old) (place asker.new) (O.contents writer.old) (O.contents writer.new) }
{
    line_engine::answer_reader(alloc, reader, writer, asker)
}

/// Answers the lines of a reader that may ask and change nothing, as [`serve`](crate::serve) does, with its faults.
///
/// A line whose first word isn't `judge`, `test`, `show`, `sum`, `log` or `export` is answered `err denied`, before anything else is said
/// of it, unless it is silent. The session's seer answers a `judge`; every other line that asks goes through `Shared::run` by itself, with
/// the receipt of the session's last call. Whatever the lines are, the opening is after each call of the session what it was before it:
/// its changes, what is shown, and the tickets.
pub fn answer_asking<
    W: Wait,
    D: Disk + Drop,
    J: Chapter + Numbering,
    S: Publisher<J> + Drop,
    G: Gate,
    R: Read,
    O: Write,
>(
    rt: &W,
    alloc: Global,
    reader: &mut R,
    writer: &mut O,
    shared: &Shared<D, J, S>,
    seer: &mut Seer<J>,
    gate: &G,
    session: u32,
) -> Result<(), EngineFault>
    ensures { (last : Option PlainReceipt) × IsAskingSession (G.passed gate.now session) J.base J.setting result (R.remaining reader.old) (R.remaining reader.new)
        None last seer.old seer.new (O.contents writer.old) (O.contents writer.new) }
{
    let mut last = None;
    let book = Caller::new(rt, shared);
    ask_by(alloc, reader, writer, &book, seer, gate, session, &mut last)
}

// The same, by whatever is asked.
fn ask_by<A: AskBook<J>, J: Chapter, G: Gate, R: Read, O: Write>(
    alloc: Global,
    reader: &mut R,
    writer: &mut O,
    book: &A,
    seer: &mut Seer<J>,
    gate: &G,
    number: u32,
    last: &mut Option<Receipt<J>>,
) -> Result<(), EngineFault>
    ensures { IsAskingSession (G.passed gate.now number) J.base J.setting result (R.remaining reader.old) (R.remaining reader.new)
        last.old last.new seer.old seer.new (O.contents writer.old) (O.contents writer.new) }
{
    let mut asker = Asker {
        book,
        seer,
        gate,
        number,
        line: 0,
        last,
    };
    run_asker(alloc, reader, writer, &mut asker)
}

// Serves such a session from where it is, until it pauses or the reader is at its end.
fn run_asking_part<A: AskBook<J>, J: Chapter, G: Gate, P: Pause, R: Read, O: Write>(
    alloc: Global,
    intake: &mut Intake,
    reader: &mut R,
    writer: &mut O,
    asker: &mut Asker<'_, A, J, G>,
    pause: &P,
) -> Result<LeftOff, EngineFault>
    ensures same { IsSameAsker asker.old asker.new }
    ensures paused { result ≡ Ok Paused → P.may_pause pause.now }
    ensures part { (begun : List ℕ) → HasBegun intake.old begun →
        IsPart (AsksLines (G.passed asker.old.gate.now asker.old.number) J.base J.setting) result (begun ++ intake.old.ahead) intake.new
        (R.remaining reader.old) (R.remaining reader.new) (place asker.old) (place asker.new)
        (O.contents writer.old) (O.contents writer.new) }
{
    line_engine::go_on(alloc, intake, reader, writer, asker, pause)
}

/// Answers the lines of a reader that may ask and change nothing, as [`answer_asking`] does, in one opening of several: from where the
/// session is, until it pauses or the reader is at its end, as [`go_on`](crate::go_on) does, with its faults.
pub fn go_on_asking<
    W: Wait,
    D: Disk + Drop,
    J: Chapter + Numbering,
    S: Publisher<J> + Drop,
    G: Gate,
    P: Pause,
    R: Read,
    O: Write,
>(
    rt: &W,
    alloc: Global,
    session: &mut LineSession,
    reader: &mut R,
    writer: &mut O,
    shared: &Shared<D, J, S>,
    seer: &mut Seer<J>,
    gate: &G,
    pause: &P,
) -> Result<LeftOff, EngineFault>
    ensures number { session.new.number ≡ session.old.number }
    ensures paused { result ≡ Ok Paused → P.may_pause pause.now }
    ensures part { (last : Option PlainReceipt) × ((begun : List ℕ) → HasBegun session.old.intake begun →
        IsAskingPart (G.passed gate.now session.old.number) J.base J.setting result (begun ++ session.old.intake.ahead) session.new.intake
        (R.remaining reader.old) (R.remaining reader.new) session.old.line session.new.line None last seer.old seer.new
        (O.contents writer.old) (O.contents writer.new)) }
{
    let mut last = None;
    let book = Caller::new(rt, shared);
    go_on_asking_by(
        alloc, session, reader, writer, &book, seer, gate, pause, &mut last,
    )
}

/// As [`go_on_asking`], with its faults, but by whatever is asked, and with receipts as in [`go_on_by`](crate::go_on_by).
pub fn go_on_asking_by<A: AskBook<J>, J: Chapter, G: Gate, P: Pause, R: Read, O: Write>(
    alloc: Global,
    session: &mut LineSession,
    reader: &mut R,
    writer: &mut O,
    book: &A,
    seer: &mut Seer<J>,
    gate: &G,
    pause: &P,
    last: &mut Option<Receipt<J>>,
) -> Result<LeftOff, EngineFault>
    ensures number { session.new.number ≡ session.old.number }
    ensures paused { result ≡ Ok Paused → P.may_pause pause.now }
    ensures part { (begun : List ℕ) → HasBegun session.old.intake begun →
        IsAskingPart (G.passed gate.now session.old.number) J.base J.setting result (begun ++ session.old.intake.ahead) session.new.intake
        (R.remaining reader.old) (R.remaining reader.new) session.old.line session.new.line last.old last.new seer.old seer.new
        (O.contents writer.old) (O.contents writer.new) }
{
    let mut asker = Asker {
        book,
        seer,
        gate,
        number: session.number,
        line: session.line,
        last,
    };
    let left = run_asking_part(
        alloc,
        &mut session.intake,
        reader,
        writer,
        &mut asker,
        pause,
    );
    session.line = asker.line;
    left
}
