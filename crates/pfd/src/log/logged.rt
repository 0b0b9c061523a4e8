//! A caller of a Book whose replies are noted.
ghost use Rattle.std.specs.{Option.option_copied, Prelude.{◌≡◌, IfSome, MatchOption, None, Ok, Err}};
ghost use Rattle.pf_book.specs.{Anchors.{SaysAnchors, listed_in}, Groups.{IsAnsweredAsAlone, IsGroupAnswered, result_list}, Receipts.IsAnswered, Statuses.SaysStatus, Together.IsAnsweredTogether};

use crate::log::KeepLog;
use crate::log::deed::deed_in;
use pf_addr::path::Path;
use pf_book::{BookStatus, Chapter, Receipt};
use pf_core::{Command, Refusal, Reply};
use pf_session::{AskBook, CallBook, Inquiry};
use std::alloc::AllocError;

/// What a session calls, of which each reply is noted before the session has it, and outside the Book's lock.
#[derive(Drop)]
pub(crate) struct Logged<'a, C, L: KeepLog> {
    book: &'a C,
    log: &'a L,
    session: u32,
}

impl<'a, C, L: KeepLog> Logged<'a, C, L> {
    /// What the session of this number calls.
    pub(crate) fn new(book: &'a C, log: &'a L, session: u32) -> Logged<'a, C, L> {
        Logged { book, log, session }
    }

    // Notes the replies to commands, one after the other.
    fn note_each<J: Chapter>(&self, commands: &[Command], answers: &[(Reply, Receipt<J>)]) {
        for (command, answer) in commands.iter().zip(answers) {
            self.log.note(self.session, &deed_in(command), &answer.0);
        }
    }
}

impl<C: CallBook<J>, J: Chapter, L: KeepLog> CallBook<J> for Logged<'_, C, L> {
    fn call(&self, command: Command, last: Option<&Receipt<J>>) -> (Reply, Receipt<J>) {
        let deed = deed_in(&command);
        let (reply, receipt) = self.book.call(command, last);
        self.log.note(self.session, &deed, &reply);
        (reply, receipt)
    }

    fn call_together(
        &self,
        command: Command,
        last: &mut Option<Receipt<J>>,
    ) -> Option<(Reply, Receipt<J>)> {
        let deed = deed_in(&command);
        let answer = self.book.call_together(command, last);
        if let Some((reply, _)) = &answer {
            self.log.note(self.session, &deed, reply);
        }
        answer
    }

    fn call_group(
        &self,
        commands: &[Command],
        last: Option<&Receipt<J>>,
    ) -> Result<Vec<(Reply, Receipt<J>)>, Refusal> {
        let answered = self.book.call_group(commands, last);
        if let Ok(answers) = &answered {
            self.note_each(commands, answers);
        }
        answered
    }

    fn call_as_alone(
        &self,
        commands: &[Command],
        last: Option<&Receipt<J>>,
    ) -> Option<Result<Vec<(Reply, Receipt<J>)>, Refusal>> {
        let answered = self.book.call_as_alone(commands, last);
        if let Some(Ok(answers)) = &answered {
            self.note_each(commands, answers);
        }
        answered
    }

    fn status(&self, last: Option<&Receipt<J>>) -> BookStatus {
        self.book.status(last)
    }

    fn anchors_below(
        &self,
        path: &Path,
        last: Option<&Receipt<J>>,
    ) -> Result<Vec<Path>, AllocError> {
        self.book.anchors_below(path, last)
    }
}

// A question acknowledges nothing.
impl<C: AskBook<J>, J: Chapter, L: KeepLog> AskBook<J> for Logged<'_, C, L> {
    fn ask(&self, inquiry: Inquiry, last: Option<&Receipt<J>>) -> (Reply, Receipt<J>) {
        self.book.ask(inquiry, last)
    }

    fn status(&self, last: Option<&Receipt<J>>) -> BookStatus {
        self.book.status(last)
    }

    fn anchors_below(
        &self,
        path: &Path,
        last: Option<&Receipt<J>>,
    ) -> Result<Vec<Path>, AllocError> {
        self.book.anchors_below(path, last)
    }
}
