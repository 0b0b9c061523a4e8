//! The lines of a session that wait to be run together.
ghost use Rattle.std.specs.Prelude.{◌≡◌, ℕ, List, [], ◌∷◌, ◌++◌, length, IfErr, Ok, Err, Some, None};
ghost use Rattle.pf_addr.specs.Writing.{Writes};
ghost use Rattle.pf_core.specs.declared.{command.Command.Command, reply.Refusal.TheVariants.Fault};
ghost use Rattle.pf_line.specs.{Lines.{Parses, Refused as IsRefusal, line_at}, Reply.Replies.reply_text};
ghost use Rattle.pf_book.specs.Groups.{IsAnsweredAsAlone, IsGroupAnswered};
ghost use Rattle.pf_session.specs.{LineEngine.{Chains.Chain, Lines.seen, Pieces.{Answers, TakesSome}}, Server.{Sittings.{Keeps, RunsBy, packet_in}, SessionRuns.{AreMeant, HavePassed, IsMeant, IsSame, TakesInSession, sitting}}};

use crate::line_engine::AnswerLine;
use crate::server::caller::CallBook;
use crate::server::gate::Gate;
use crate::server::session::Session;
use crate::telling::{answer_said, refuse, tell};
use pf_book::{Chapter, Receipt};
use pf_core::{Command, GROUP_LIMIT, Refusal, Reply};
use pf_line::Request;
use std::alloc::Global;
use std::io::{self, Write};

impl<'a, C: CallBook<J>, J: Chapter, G: Gate> Session<'a, C, J, G> {
    // Answers what was read of a line, behind the gate.
    fn answer_alone<O: Write>(
        &mut self,
        said: Result<Option<Request>, Refusal>,
        writer: &mut O,
    ) -> io::Result<()>
        ensures { (line : List ℕ) → Parses said (line_at line) → IfErr said (IsRefusal line) →
            (text : List ℕ) × TakesInSession G.passed J.base J.setting line self.old self.new text × Writes result (O.contents writer.old) (O.contents writer.new) text }
    {
        self.line = self.line.saturating_add(1);
        self.gate.pass(self.number, self.line);
        answer_said(said, writer, self)
    }

    /// Answers the lines that wait, and then what was read of a line.
    pub(super) fn answer_after<O: Write>(
        &mut self,
        alloc: Global,
        said: Result<Option<Request>, Refusal>,
        waiting: &mut Vec<Command>,
        writer: &mut O,
    ) -> io::Result<()>
        ensures { (lines : List (List ℕ)) (line whole : List ℕ) → AreMeant lines waiting.old.items → Parses said (line_at line) → IfErr said (IsRefusal line)
            → line ≡ seen whole → TakesSome (Chain (TakesInSession G.passed J.base J.setting)) (λ ls commands. AreMeant ls commands.items) result (lines ++ whole ∷ [])
            self.old self.new waiting.new (O.contents writer.old) (O.contents writer.new) }
    {
        self.answer_waiting(alloc, waiting, writer)?;
        self.answer_alone(said, writer)
    }

    /// Lets the command of a line wait. If as many wait as a group may have, they are answered first.
    pub(super) fn let_wait<O: Write>(
        &mut self,
        alloc: Global,
        command: Command,
        waiting: &mut Vec<Command>,
        writer: &mut O,
    ) -> io::Result<()>
        ensures { (lines : List (List ℕ)) (line whole : List ℕ) → AreMeant lines waiting.old.items → IsMeant line command → line ≡ seen whole
            → TakesSome (Chain (TakesInSession G.passed J.base J.setting)) (λ ls commands. AreMeant ls commands.items) result (lines ++ whole ∷ [])
            self.old self.new waiting.new (O.contents writer.old) (O.contents writer.new) }
    {
        if waiting.len() < GROUP_LIMIT {
            return self.hold(alloc, command, waiting, writer);
        }
        self.answer_waiting(alloc, waiting, writer)?;
        self.hold(alloc, command, waiting, writer)
    }

    // The same, however many wait. If there is no memory for one more, they are answered, and then this one.
    fn hold<O: Write>(
        &mut self,
        alloc: Global,
        command: Command,
        waiting: &mut Vec<Command>,
        writer: &mut O,
    ) -> io::Result<()>
        ensures { (lines : List (List ℕ)) (line whole : List ℕ) → AreMeant lines waiting.old.items → IsMeant line command → line ≡ seen whole
            → TakesSome (Chain (TakesInSession G.passed J.base J.setting)) (λ ls commands. AreMeant ls commands.items) result (lines ++ whole ∷ [])
            self.old self.new waiting.new (O.contents writer.old) (O.contents writer.new) }
    {
        match waiting.push(command) {
            Ok(()) => Ok(()),
            Err(failed) => {
                let request = Request::Run(failed.value);
                self.answer_after(alloc, Ok(Some(request)), waiting, writer)
            },
        }
    }

    // Passes the gate for as many lines, the next ones.
    fn pass_each(&self, commands: &[Command])
        ensures { HavePassed (G.passed self.now.gate.now self.now.number) self.now.line (length commands.now) }
    {
        let mut line = self.line;
        for _ in commands {
            line = line.saturating_add(1);
            self.gate.pass(self.number, line);
        }
    }

    /// Runs the commands of lines, and writes the reply to each.
    pub(super) fn run_waiting<O: Write>(
        &mut self,
        commands: Vec<Command>,
        writer: &mut O,
    ) -> io::Result<()>
        ensures { (lines : List (List ℕ)) → AreMeant lines commands.items → Answers (Chain (TakesInSession G.passed J.base J.setting)) result lines
            self.old self.new (O.contents writer.old) (O.contents writer.new) }
    {
        let asked = commands.as_slice();
        self.pass_each(asked);
        if asked.len() < 2 {
            return self.run_each(commands, writer);
        }
        match self.book.call_as_alone(asked, self.last.as_ref()) {
            Some(Ok(answers)) => self.tell_each(answers, writer),
            Some(Err(Refusal::Fault)) => self.tell_fault(asked, writer),
            Some(Err(_)) | None => self.run_each(commands, writer),
        }
    }

    // Runs a command by the Book, alone or with those of other callers, and writes the reply. If the device failed in their group the
    // session keeps its receipt.
    fn run_together<O: Write>(&mut self, command: Command, writer: &mut O) -> io::Result<()>
        ensures same { IsSame self.old self.new }
        ensures run { (text : List ℕ) × RunsBy None J.base J.setting command (sitting self.old) (sitting self.new) text ×
            Writes result (O.contents writer.old) (O.contents writer.new) text }
    {
        match self.book.call_together(command, self.last) {
            Some(answer) => self.tell_one(answer, writer),
            None => refuse(writer, Refusal::Fault),
        }
    }

    // Runs commands one after the other, and writes the reply to each.
    fn run_each<O: Write>(&mut self, commands: Vec<Command>, writer: &mut O) -> io::Result<()>
        requires { HavePassed (G.passed self.old.gate.now self.old.number) self.old.line (length commands.items) }
        ensures { (lines : List (List ℕ)) → AreMeant lines commands.items → Answers (Chain (TakesInSession G.passed J.base J.setting)) result lines
            self.old self.new (O.contents writer.old) (O.contents writer.new) }
    {
        for command in commands {
            self.line = self.line.saturating_add(1);
            self.run_together(command, writer)?;
        }
        Ok(())
    }

    // Keeps the receipts of a group's answers, and writes the replies.
    fn tell_each<O: Write>(
        &mut self,
        answers: Vec<(Reply, Receipt<J>)>,
        writer: &mut O,
    ) -> io::Result<()>
        ensures { (lines : List (List ℕ)) (commands : List Command) → AreMeant lines commands
            → HavePassed (G.passed self.old.gate.now self.old.number) self.old.line (length commands)
            → IsAnsweredAsAlone J.base J.setting commands (Ok answers.items) self.old.last.now
            → Answers (Chain (TakesInSession G.passed J.base J.setting)) result lines self.old self.new (O.contents writer.old) (O.contents writer.new) }
    {
        for answer in answers {
            self.line = self.line.saturating_add(1);
            self.tell_one(answer, writer)?;
        }
        Ok(())
    }

    // Keeps the receipt of an answer, and writes the reply.
    fn tell_one<O: Write>(&mut self, answer: (Reply, Receipt<J>), writer: &mut O) -> io::Result<()>
        ensures same { IsSame self.old self.new }
        ensures kept { Keeps answer.1 (sitting self.old) (sitting self.new) }
        ensures written { Writes result (O.contents writer.old) (O.contents writer.new) (reply_text answer.0) }
    {
        let (reply, receipt) = answer;
        self.keep(receipt);
        tell(writer, reply)
    }

    // Writes that the device failed, once for each command of a group.
    fn tell_fault<O: Write>(&mut self, commands: &[Command], writer: &mut O) -> io::Result<()>
        ensures { (lines : List (List ℕ)) → AreMeant lines commands.now
            → HavePassed (G.passed self.old.gate.now self.old.number) self.old.line (length commands.now)
            → IsGroupAnswered J.base J.setting commands.now (Err Fault) self.old.last.now
            → Answers (Chain (TakesInSession G.passed J.base J.setting)) result lines self.old self.new (O.contents writer.old) (O.contents writer.new) }
    {
        for _ in commands {
            self.line = self.line.saturating_add(1);
            refuse(writer, Refusal::Fault)?;
        }
        Ok(())
    }
}
