//! The reply to a line, whoever does what it asks.
ghost use Rattle.std.specs.Prelude.{◌≡◌, ℕ, List, IfErr};
ghost use Rattle.pf_addr.specs.Writing.{Writes};
ghost use Rattle.pf_core.specs.declared.{command.Command.Command, command.Command.TheVariants.Ask, command.Question.TheVariants.Judge, reply.Reply.TheVariants.Refused};
ghost use Rattle.pf_line.specs.declared.{request.Request.Request, request.Request.TheVariants.{Run, ShowStatus, ShowAnchors}};
ghost use Rattle.pf_line.specs.{Lines.{Parses, Refused as IsRefusal, line_at}, Reply.Replies.reply_text};
ghost use Rattle.pf_book.specs.Anchors.{listed_in};
ghost use Rattle.pf_session.specs.{Anchors.{listed_text}, Statuses.{shown_text, with_sessions}, Telling.IsReplyTo};

use pf_addr::path::Path;
use pf_book::BookStatus;
use pf_core::{Command, Refusal, Reply};
use pf_line::{
    Request, Status, may_judge, parse_judge, parse_line, write_anchors, write_reply, write_status,
};
use pf_rule::Packet;
use std::alloc::{AllocError, Global};
use std::io::{self, Write};

/// What does requests, one after the other, and writes the reply to each. In its functions `Err` says that a write failed; some front of
/// the reply is out.
pub(crate) trait RunCommands {
    /// `Runs request old new text`: this request took the old state to the new one, and this text is its reply.
    ghost Runs: { Request → Self → Self → List ℕ → Type 0 };

    /// Runs a command.
    fn run_command<W: Write>(&mut self, command: Command, writer: &mut W) -> io::Result<()>
        ensures { (text : List ℕ) × Runs (Run command) self.old self.new text ×
            Writes result (W.contents writer.old) (W.contents writer.new) text };

    /// Runs the command that asks what happens to this packet; no command and no reply is made for it.
    fn judge_packet<W: Write>(&mut self, packet: &Packet, writer: &mut W) -> io::Result<()>
        ensures { (text : List ℕ) × Runs (Run (Ask (Judge packet.now))) self.old self.new text ×
            Writes result (W.contents writer.old) (W.contents writer.new) text };

    /// Shows the status.
    fn show_status<W: Write>(&mut self, writer: &mut W) -> io::Result<()>
        ensures { (text : List ℕ) × Runs ShowStatus self.old self.new text ×
            Writes result (W.contents writer.old) (W.contents writer.new) text };

    /// Shows the anchors directly below a path.
    fn show_anchors<W: Write>(&mut self, path: &Path, writer: &mut W) -> io::Result<()>
        ensures { (text : List ℕ) × Runs (ShowAnchors path.now) self.old self.new text ×
            Writes result (W.contents writer.old) (W.contents writer.new) text };
}

/// Does what a line asks, if it asks something, and writes the reply.
pub(crate) fn answer<A: RunCommands, W: Write>(
    alloc: Global,
    line: &[u8],
    writer: &mut W,
    runner: &mut A,
) -> io::Result<()>
    ensures { (text : List ℕ) × IsReplyTo A.Runs line.now runner.old runner.new text ×
        Writes result (W.contents writer.old) (W.contents writer.new) text }
{
    if may_judge(line) {
        answer_judge(alloc, line, writer, runner)
    } else {
        answer_any(alloc, line, writer, runner)
    }
}

// The same, for a line that may be a judge, which takes no memory.
fn answer_judge<A: RunCommands, W: Write>(
    alloc: Global,
    line: &[u8],
    writer: &mut W,
    runner: &mut A,
) -> io::Result<()>
    ensures { (text : List ℕ) × IsReplyTo A.Runs line.now runner.old runner.new text ×
        Writes result (W.contents writer.old) (W.contents writer.new) text }
{
    match parse_judge(line) {
        Some(Ok(packet)) => runner.judge_packet(&packet, writer),
        Some(Err(refusal)) => refuse(writer, refusal),
        None => answer_any(alloc, line, writer, runner),
    }
}

// The same, for any line.
fn answer_any<A: RunCommands, W: Write>(
    alloc: Global,
    line: &[u8],
    writer: &mut W,
    runner: &mut A,
) -> io::Result<()>
    ensures { (text : List ℕ) × IsReplyTo A.Runs line.now runner.old runner.new text ×
        Writes result (W.contents writer.old) (W.contents writer.new) text }
{
    answer_said(parse_line(alloc, line), writer, runner)
}

/// The same, by what was read of a line.
pub(crate) fn answer_said<A: RunCommands, W: Write>(
    said: Result<Option<Request>, Refusal>,
    writer: &mut W,
    runner: &mut A,
) -> io::Result<()>
    ensures { (line : List ℕ) → Parses said (line_at line) → IfErr said (IsRefusal line) →
        (text : List ℕ) × IsReplyTo A.Runs line runner.old runner.new text × Writes result (W.contents writer.old) (W.contents writer.new) text }
{
    match said {
        Ok(None) => Ok(()),
        Ok(Some(request)) => do_request(request, writer, runner),
        Err(refusal) => refuse(writer, refusal),
    }
}

// Does this, and writes the reply.
fn do_request<A: RunCommands, W: Write>(
    request: Request,
    writer: &mut W,
    runner: &mut A,
) -> io::Result<()>
    ensures { (text : List ℕ) × A.Runs request runner.old runner.new text × Writes result (W.contents writer.old) (W.contents writer.new) text }
{
    match request {
        Request::Run(command) => runner.run_command(command, writer),
        Request::ShowStatus => runner.show_status(writer),
        Request::ShowAnchors(path) => runner.show_anchors(&path, writer),
    }
}

/// Writes a reply, and drops it. Kept apart, as a function's proof pays for the size of a reply wherever it goes.
pub(crate) fn tell<W: Write>(writer: &mut W, reply: Reply) -> io::Result<()>
    ensures { Writes result (W.contents writer.old) (W.contents writer.new) (reply_text reply) }
{
    write_reply(writer, &reply)
}

/// Writes the reply of a refusal. Kept apart for the same reason.
pub(crate) fn refuse<W: Write>(writer: &mut W, refusal: Refusal) -> io::Result<()>
    ensures { Writes result (W.contents writer.old) (W.contents writer.new) (reply_text (Refused refusal)) }
{
    write_reply(writer, &Reply::Refused(refusal))
}

/// Writes the status of a Book, beside how many sessions are open.
pub(crate) fn show<W: Write>(writer: &mut W, book: BookStatus, sessions: u32) -> io::Result<()>
    ensures { Writes result (W.contents writer.old) (W.contents writer.new) (shown_text book sessions) }
{
    write_status(writer, &with_sessions(book, sessions))
}

/// Writes the anchors that a Book listed, or that there was no memory for that.
pub(crate) fn tell_anchors<W: Write>(
    writer: &mut W,
    listed: Result<Vec<Path>, AllocError>,
) -> io::Result<()>
    ensures { Writes result (W.contents writer.old) (W.contents writer.new) (listed_text (listed_in listed)) }
{
    match listed {
        Ok(paths) => write_anchors(writer, paths.as_slice()),
        Err(AllocError) => refuse(writer, Refusal::Memory),
    }
}

// What is shown of a Book, beside how many sessions are open.
fn with_sessions(book: BookStatus, sessions: u32) -> Status
    ensures { result ≡ with_sessions book sessions }
{
    Status {
        epoch: u64::from(book.epoch),
        changes: book.changes as u64,
        tick: book.tick,
        rulesets: book.rulesets as u64,
        tables: book.tables as u64,
        states: book.states as u64,
        held: book.held,
        size: book.size as u64,
        sessions: u64::from(sessions),
    }
}
