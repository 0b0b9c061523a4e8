//! A session over a Book that others use too.
ghost use Rattle.std.specs.Prelude.{◌≡◌, ◌++◌, ℕ, List, MatchResult, Ok, Option, Some, None, option_map};
ghost use Rattle.pf_addr.specs.Writing.{Writes};
ghost use Rattle.pf_line.specs.{declared.request.Request.TheVariants.Run, Reply.Replies.reply_text};
ghost use Rattle.pf_book.specs.Receipts.{PlainReceipt};
ghost use Rattle.pf_session.specs.declared.line_engine.left_off.LeftOff.TheVariants.{Paused};
ghost use Rattle.pf_session.specs.{LineEngine.{Intakes.{HasBegun, IsPart}, Sessions.IsSession}, Server.{Parts.IsSharedPart, Sittings.{HasJudged, IsJudged, IsCommandRun, IsSharedSession, Keeps, Runs, TakesLines, packet_in}, SessionRuns.{AreMeant, IsSame, RunsInSession, TakesInSession, sitting}}, Laws.Server.attends-seen};

use crate::line_engine::{self, AnswerLine, EngineFault, Intake, LeftOff, Pause};
use crate::server::caller::{CallBook, Caller};
use crate::server::gate::Gate;
use crate::server::line_session::LineSession;
use crate::telling::{RunCommands, answer, show, tell, tell_anchors};
use pf_addr::path::Path;
use pf_addr::write_text;
use pf_book::shared::Shared;
use pf_book::{Chapter, Disk, Gone, Numbering, Publisher, Receipt, Seer, learn_from};
use pf_core::{Command, Question, Refusal, Reply};
use pf_line::{Request, may_judge, parse_line, write_judged};
use pf_rule::Packet;
use std::alloc::Global;
use std::io::{self, Read, Write};
use std::mem;
use std::sync::Wait;

/// A session: what it works with, how many lines it had, and the receipt of its last call.
#[derive(Drop)]
pub(crate) struct Session<'a, C: CallBook<J>, J: Chapter, G: Gate> {
    pub(super) book: &'a C,
    pub(super) seer: &'a mut Seer<J>,
    pub(super) gate: &'a G,
    pub(super) number: u32,
    pub(super) line: u32,
    // behind a reference, so that a session owns no memory
    pub(super) last: &'a mut Option<Receipt<J>>,
}

/// The packet that a command asks to judge, if it does.
pub(super) fn packet_in(command: &Command) -> Option<&Packet>
    ensures { option_map (λ packet. packet.now) result ≡ packet_in command.now }
{
    match command {
        Command::Ask(Question::Judge(packet)) => Some(packet),
        _ => None,
    }
}

// The command that was read of a line, if a group may have it, else what was read.
fn command_of(
    said: Result<Option<Request>, Refusal>,
) -> Result<Command, Result<Option<Request>, Refusal>>
    ensures { MatchResult result (λ c. (said ≡ Ok (Some (Run c))) × (packet_in c ≡ None)) (λ other. other ≡ said) }
{
    match said {
        Ok(Some(Request::Run(command))) => {
            if command.may_be_grouped() {
                Ok(command)
            } else {
                Err(Ok(Some(Request::Run(command))))
            }
        }
        other => Err(other),
    }
}

/// Writes what happens to a packet, or that no copy could say. It has no handle to wait by and no Book to ask: judging waits for the
/// writer alone.
pub(super) fn write_verdict<J: Chapter, O: Write>(
    seer: &mut Seer<J>,
    packet: &Packet,
    writer: &mut O,
) -> io::Result<()>
    ensures { (text : List ℕ) × HasJudged J.base packet.now seer.old seer.new text ×
        Writes result (O.contents writer.old) (O.contents writer.new) text }
{
    match seer.judge(packet) {
        Ok(verdict) => write_judged(writer, &verdict),
        Err(Gone) => write_text(writer, b"err gone\n"),
    }
}

impl<'a, C: CallBook<J>, J: Chapter, G: Gate> Session<'a, C, J, G> {
    // Keeps the receipt of a reply.
    pub(super) fn keep(&mut self, receipt: Receipt<J>)
        ensures same { IsSame self.old self.new }
        ensures kept { Keeps receipt (sitting self.old) (sitting self.new) }
    {
        learn_from(self.seer, &receipt);
        *self.last = Some(receipt);
    }

    // Runs a command by the Book.
    fn run(&mut self, command: Command) -> Reply
        ensures same { IsSame self.old self.new }
        ensures run { IsCommandRun J.base J.setting command (sitting self.old) (sitting self.new) (reply_text result) }
    {
        let (reply, receipt) = self.book.call(command, self.last.as_ref());
        self.keep(receipt);
        reply
    }

    // Judges a packet by the session's own seer, without the Book.
    fn judge<O: Write>(&mut self, packet: &Packet, writer: &mut O) -> io::Result<()>
        ensures same { IsSame self.old self.new }
        ensures judged { (text : List ℕ) × IsJudged J.base packet.now (sitting self.old) (sitting self.new) text ×
            Writes result (O.contents writer.old) (O.contents writer.new) text }
    {
        write_verdict(self.seer, packet, writer)
    }

    // Answers a command.
    fn obey<O: Write>(&mut self, command: Command, writer: &mut O) -> io::Result<()>
        ensures same { IsSame self.old self.new }
        ensures runs { (text : List ℕ) × Runs J.base J.setting command (sitting self.old) (sitting self.new) text ×
            Writes result (O.contents writer.old) (O.contents writer.new) text }
    {
        if let Some(packet) = packet_in(&command) {
            return self.judge(packet, writer);
        }
        self.run_and_tell(command, writer)
    }

    // Runs a command by the Book, and writes the reply.
    fn run_and_tell<O: Write>(&mut self, command: Command, writer: &mut O) -> io::Result<()>
        ensures same { IsSame self.old self.new }
        ensures run { (text : List ℕ) × IsCommandRun J.base J.setting command (sitting self.old) (sitting self.new) text ×
            Writes result (O.contents writer.old) (O.contents writer.new) text }
    {
        let reply = self.run(command);
        tell(writer, reply)
    }
}

impl<'a, C: CallBook<J>, J: Chapter, G: Gate> RunCommands for Session<'a, C, J, G> {
    ghost Runs = { RunsInSession J.base J.setting };

    fn run_command<O: Write>(&mut self, command: Command, writer: &mut O) -> io::Result<()> {
        self.obey(command, writer)
    }

    fn judge_packet<O: Write>(&mut self, packet: &Packet, writer: &mut O) -> io::Result<()> {
        self.judge(packet, writer)
    }

    fn show_status<O: Write>(&mut self, writer: &mut O) -> io::Result<()> {
        let status = self.book.status(self.last.as_ref());
        show(writer, status, self.gate.sessions())
    }

    fn show_anchors<O: Write>(&mut self, path: &Path, writer: &mut O) -> io::Result<()> {
        let listed = self.book.anchors_below(path, self.last.as_ref());
        tell_anchors(writer, listed)
    }
}

impl<'a, C: CallBook<J>, J: Chapter, G: Gate> AnswerLine for Session<'a, C, J, G> {
    type Waiting = Vec<Command>;

    ghost Waits = { λ lines commands. AreMeant lines commands.items };

    ghost Takes = { TakesInSession G.passed J.base J.setting };

    fn answer_line<O: Write>(
        &mut self,
        alloc: Global,
        line: &[u8],
        writer: &mut O,
    ) -> io::Result<()> {
        self.line = self.line.saturating_add(1);
        self.gate.pass(self.number, self.line);
        answer(alloc, line, writer, self)
    }

    fn none_waiting(alloc: Global) -> Vec<Command> {
        Vec::new(alloc)
    }

    fn take_line<O: Write>(
        &mut self,
        alloc: Global,
        waiting: &mut Vec<Command>,
        line: &[u8],
        writer: &mut O,
    ) -> io::Result<()> {
        if may_judge(line) {
            self.answer_waiting(alloc, waiting, writer)?;
            return self.answer_line(alloc, line, writer);
        }
        match command_of(parse_line(alloc, line)) {
            Ok(command) => self.let_wait(alloc, command, waiting, writer),
            Err(said) => self.answer_after(alloc, said, waiting, writer),
        }
    }

    fn answer_waiting<O: Write>(
        &mut self,
        alloc: Global,
        waiting: &mut Vec<Command>,
        writer: &mut O,
    ) -> io::Result<()> {
        let commands = mem::replace(waiting, Vec::new(alloc));
        self.run_waiting(commands, writer)
    }

    ghost takes_seen = { attends-seen G.passed J.base J.setting };
}

// Serves a session until the reader is at its end.
fn run_session<C: CallBook<J>, J: Chapter, G: Gate, R: Read, O: Write>(
    alloc: Global,
    reader: &mut R,
    writer: &mut O,
    session: &mut Session<'_, C, J, G>,
) -> Result<(), EngineFault>
    ensures same { IsSame session.old session.new }
    ensures session { IsSession (TakesLines (G.passed session.old.gate.now session.old.number) J.base J.setting) result
        (R.remaining reader.old) (R.remaining reader.new) (sitting session.old) (sitting session.new)
        (O.contents writer.old) (O.contents writer.new) }
{
    line_engine::answer_reader(alloc, reader, writer, session)
}

/// Answers the lines of a reader, as `serve_alone` does, by a Book that other sessions use too, until the reader is at its end.
///
/// Before each line's reply it passes the gate, with the numbers of the session and of the line. The session's seer answers a `judge`,
/// without a lock; where no published copy could judge, the reply is `err gone`. Every other command goes through `Shared::run` with the
/// receipt of the session's last call, so that it is answered by no less than that was. Before the reply to a change that is applied is
/// written, the seer learns it, with all before it.
///
/// Consecutive lines that one read completed go through `Shared::group_as_alone` instead, up to 64 of them at once, if a group may have
/// their commands. If the group is refused whole, or one finds no room by itself, they go through `Shared::run` one by one. But if the
/// device failed in it each of them is told so, as the changes may be kept all the same; such a reply has no receipt.
///
/// It waits for the reader, the writer, the gate and the Book's lock, and holds that lock only within `Shared::run` and
/// `Shared::group_as_alone`. Faults are those of [`serve_alone`](crate::serve_alone); what was learnt stays learnt. At `Err(Write)` the
/// lines behind the last one that was answered may have been run, if they went in a group with it.
pub fn serve<
    W: Wait,
    D: Disk + Drop,
    J: Chapter + Numbering,
    S: Publisher<J> + Drop,
    G: Gate,
    R: Read,
    O: Write,
>(
    rt: &W,
    alloc: Global,
    reader: &mut R,
    writer: &mut O,
    shared: &Shared<D, J, S>,
    seer: &mut Seer<J>,
    gate: &G,
    session: u32,
) -> Result<(), EngineFault>
    ensures { (last : Option PlainReceipt) × IsSharedSession (G.passed gate.now session) J.base J.setting result (R.remaining reader.old) (R.remaining reader.new)
        None last seer.old seer.new (O.contents writer.old) (O.contents writer.new) }
{
    let mut last = None;
    continue_session(
        rt, alloc, reader, writer, shared, seer, gate, session, &mut last,
    )
}

/// As [`serve`], with its faults, but the session's first call hands in the receipt that the caller has, if it has one. Afterwards the
/// caller has the receipt of the session's last call, or its own if there was no call.
///
/// The front of the receipt that the caller then has begins with what each reply was answered by, as
/// [`the_last_receipt_has_all`](crate::laws::the_last_receipt_has_all) says. So does the history of the Book that confirms it.
pub fn continue_session<
    W: Wait,
    D: Disk + Drop,
    J: Chapter + Numbering,
    S: Publisher<J> + Drop,
    G: Gate,
    R: Read,
    O: Write,
>(
    rt: &W,
    alloc: Global,
    reader: &mut R,
    writer: &mut O,
    shared: &Shared<D, J, S>,
    seer: &mut Seer<J>,
    gate: &G,
    session: u32,
    last: &mut Option<Receipt<J>>,
) -> Result<(), EngineFault>
    ensures { IsSharedSession (G.passed gate.now session) J.base J.setting result (R.remaining reader.old) (R.remaining reader.new)
        last.old last.new seer.old seer.new (O.contents writer.old) (O.contents writer.new) }
{
    let book = Caller::new(rt, shared);
    answer_session(alloc, reader, writer, &book, seer, gate, session, last)
}

// The same, by whatever is called.
fn answer_session<C: CallBook<J>, J: Chapter, G: Gate, R: Read, O: Write>(
    alloc: Global,
    reader: &mut R,
    writer: &mut O,
    book: &C,
    seer: &mut Seer<J>,
    gate: &G,
    number: u32,
    last: &mut Option<Receipt<J>>,
) -> Result<(), EngineFault>
    ensures { IsSharedSession (G.passed gate.now number) J.base J.setting result (R.remaining reader.old) (R.remaining reader.new)
        last.old last.new seer.old seer.new (O.contents writer.old) (O.contents writer.new) }
{
    let mut session = Session {
        book,
        seer,
        gate,
        number,
        line: 0,
        last,
    };
    run_session(alloc, reader, writer, &mut session)
}

// Serves a session from where it is, until it pauses or the reader is at its end.
fn run_part<C: CallBook<J>, J: Chapter, G: Gate, P: Pause, R: Read, O: Write>(
    alloc: Global,
    intake: &mut Intake,
    reader: &mut R,
    writer: &mut O,
    session: &mut Session<'_, C, J, G>,
    pause: &P,
) -> Result<LeftOff, EngineFault>
    ensures same { IsSame session.old session.new }
    ensures paused { result ≡ Ok Paused → P.may_pause pause.now }
    ensures part { (begun : List ℕ) → HasBegun intake.old begun →
        IsPart (TakesLines (G.passed session.old.gate.now session.old.number) J.base J.setting) result (begun ++ intake.old.ahead) intake.new
        (R.remaining reader.old) (R.remaining reader.new) (sitting session.old) (sitting session.new)
        (O.contents writer.old) (O.contents writer.new) }
{
    line_engine::go_on(alloc, intake, reader, writer, session, pause)
}

/// Answers the lines of a reader, as [`serve`] does, in one opening of several: from where the session is, until it pauses or the reader is
/// at its end. Its first call hands in no receipt, as receipts are of one opening.
///
/// `Paused`: a pause was due behind a line, before a read or behind one that was interrupted. All lines before are answered, and all replies
/// are with the writer, which was flushed; the session has what was read and not answered. It may go on in another opening:
/// [`sessions_go_on`](crate::laws::sessions_go_on) says what its replies are then.
///
/// Faults are those of [`serve`], but for `Memory`, since the session has the room for what it reads.
pub fn go_on<
    W: Wait,
    D: Disk + Drop,
    J: Chapter + Numbering,
    S: Publisher<J> + Drop,
    G: Gate,
    P: Pause,
    R: Read,
    O: Write,
>(
    rt: &W,
    alloc: Global,
    session: &mut LineSession,
    reader: &mut R,
    writer: &mut O,
    shared: &Shared<D, J, S>,
    seer: &mut Seer<J>,
    gate: &G,
    pause: &P,
) -> Result<LeftOff, EngineFault>
    ensures number { session.new.number ≡ session.old.number }
    ensures paused { result ≡ Ok Paused → P.may_pause pause.now }
    ensures part { (last : Option PlainReceipt) × ((begun : List ℕ) → HasBegun session.old.intake begun →
        IsSharedPart (G.passed gate.now session.old.number) J.base J.setting result (begun ++ session.old.intake.ahead) session.new.intake
        (R.remaining reader.old) (R.remaining reader.new) session.old.line session.new.line None last seer.old seer.new
        (O.contents writer.old) (O.contents writer.new)) }
{
    let mut last = None;
    let book = Caller::new(rt, shared);
    go_on_by(
        alloc, session, reader, writer, &book, seer, gate, pause, &mut last,
    )
}

/// As [`go_on`], with its faults, but by whatever is called, and the first call hands in the receipt that the caller has, if it has one.
/// Afterwards the caller has the receipt of the session's last call in this opening, or its own if there was no call.
pub fn go_on_by<C: CallBook<J>, J: Chapter, G: Gate, P: Pause, R: Read, O: Write>(
    alloc: Global,
    session: &mut LineSession,
    reader: &mut R,
    writer: &mut O,
    book: &C,
    seer: &mut Seer<J>,
    gate: &G,
    pause: &P,
    last: &mut Option<Receipt<J>>,
) -> Result<LeftOff, EngineFault>
    ensures number { session.new.number ≡ session.old.number }
    ensures paused { result ≡ Ok Paused → P.may_pause pause.now }
    ensures part { (begun : List ℕ) → HasBegun session.old.intake begun →
        IsSharedPart (G.passed gate.now session.old.number) J.base J.setting result (begun ++ session.old.intake.ahead) session.new.intake
        (R.remaining reader.old) (R.remaining reader.new) session.old.line session.new.line last.old last.new seer.old seer.new
        (O.contents writer.old) (O.contents writer.new) }
{
    let mut here = Session {
        book,
        seer,
        gate,
        number: session.number,
        line: session.line,
        last,
    };
    let left = run_part(alloc, &mut session.intake, reader, writer, &mut here, pause);
    session.line = here.line;
    left
}
