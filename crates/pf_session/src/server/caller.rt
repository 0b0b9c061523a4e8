//! What sessions and streams call: a Book that others use too.
ghost use Rattle.std.specs.{Option.option_copied, Prelude.{◌≡◌, IfSome, MatchOption, None, Ok, Err}};
ghost use Rattle.pf_book.specs.{Anchors.{SaysAnchors, listed_in}, Groups.{IsAnsweredAsAlone, IsGroupAnswered, result_list}, Receipts.IsAnswered, Statuses.SaysStatus, Together.IsAnsweredTogether};

use crate::server::inquiry::Inquiry;
use pf_addr::path::Path;
use pf_book::shared::Shared;
use pf_book::{BookStatus, Chapter, Disk, Numbering, Publisher, Receipt};
use pf_core::{Command, Refusal, Reply};
use std::alloc::AllocError;
use std::sync::Wait;

/// What runs the commands of a session and the messages of a peer, with receipts of the opening `J`. Whoever is generic in it needn't name
/// a device, nor what waits.
pub trait CallBook<J: Chapter> {
    /// Runs a command, as [`Shared::run`] does.
    fn call(&self, command: Command, last: Option<&Receipt<J>>) -> (Reply, Receipt<J>)
        ensures { IsAnswered J.base J.setting command result.0 result.1 (option_copied last.entry) };

    /// Runs a command, alone or in one group with those of other callers, as [`Shared::run_together`] does. The receipt that is handed in is
    /// taken out. `None`: the device failed in a group, and the receipt is back.
    fn call_together(
        &self,
        command: Command,
        last: &mut Option<Receipt<J>>,
    ) -> Option<(Reply, Receipt<J>)>
        ensures { MatchOption result (IsAnsweredTogether J.base J.setting (record { command = command; last = last.old }) (Err last.new))
            (λ a. (last.new ≡ None) × IsAnsweredTogether J.base J.setting (record { command = command; last = last.old }) (Ok a)) };

    /// Runs commands as a group, as [`Shared::group`] does.
    fn call_group(
        &self,
        commands: &[Command],
        last: Option<&Receipt<J>>,
    ) -> Result<Vec<(Reply, Receipt<J>)>, Refusal>
        ensures { IsGroupAnswered J.base J.setting commands.now (result_list result) (option_copied last.entry) };

    /// Runs commands as a group if each of them gets the reply that it would get alone, as [`Shared::group_as_alone`] does. `None`: nothing
    /// was done.
    fn call_as_alone(
        &self,
        commands: &[Command],
        last: Option<&Receipt<J>>,
    ) -> Option<Result<Vec<(Reply, Receipt<J>)>, Refusal>>
        ensures { IfSome result (λ r. IsAnsweredAsAlone J.base J.setting commands.now (result_list r) (option_copied last.entry)) };

    /// What the Book says of itself, as [`Shared::status`] does.
    fn status(&self, last: Option<&Receipt<J>>) -> BookStatus
        ensures { SaysStatus J.base J.setting result (option_copied last.entry) };

    /// The anchors directly below a path, as [`Shared::anchors_below`] gives them.
    fn anchors_below(&self, path: &Path, last: Option<&Receipt<J>>) -> Result<Vec<Path>, AllocError>
        ensures { SaysAnchors J.base J.setting path.now (listed_in result) (option_copied last.entry) };
}

/// What answers the questions of a session that may change nothing, with receipts of the opening `J`. It can do nothing else.
pub trait AskBook<J: Chapter> {
    /// Asks this, as [`Shared::run`] does.
    fn ask(&self, inquiry: Inquiry, last: Option<&Receipt<J>>) -> (Reply, Receipt<J>)
        ensures { IsAnswered J.base J.setting inquiry.command result.0 result.1 (option_copied last.entry) };

    /// What the Book says of itself, as [`Shared::status`] does.
    fn status(&self, last: Option<&Receipt<J>>) -> BookStatus
        ensures { SaysStatus J.base J.setting result (option_copied last.entry) };

    /// The anchors directly below a path, as [`Shared::anchors_below`] gives them.
    fn anchors_below(&self, path: &Path, last: Option<&Receipt<J>>) -> Result<Vec<Path>, AllocError>
        ensures { SaysAnchors J.base J.setting path.now (listed_in result) (option_copied last.entry) };
}

/// A caller of a Book under a lock, which waits for it by a handle.
#[derive(Drop)]
pub struct Caller<'a, W: Wait, D: Disk + Drop, J: Chapter + Numbering, S: Publisher<J> + Drop> {
    rt: &'a W,
    shared: &'a Shared<D, J, S>,
}

impl<'a, W: Wait, D: Disk + Drop, J: Chapter + Numbering, S: Publisher<J> + Drop> Caller<
    'a,
    W,
    D,
    J,
    S,
> {
    /// One that calls this Book.
    pub fn new(rt: &'a W, shared: &'a Shared<D, J, S>) -> Caller<'a, W, D, J, S> {
        Caller { rt, shared }
    }
}

impl<'a, W: Wait, D: Disk + Drop, J: Chapter + Numbering, S: Publisher<J> + Drop> CallBook<J>
    for Caller<'a, W, D, J, S> {
    fn call(&self, command: Command, last: Option<&Receipt<J>>) -> (Reply, Receipt<J>) {
        self.shared.run(self.rt, command, last)
    }

    fn call_together(
        &self,
        command: Command,
        last: &mut Option<Receipt<J>>,
    ) -> Option<(Reply, Receipt<J>)> {
        match self.shared.run_together(self.rt, command, last.take()) {
            Ok(answer) => Some(answer),
            Err(back) => {
                *last = back;
                None
            }
        }
    }

    fn call_group(
        &self,
        commands: &[Command],
        last: Option<&Receipt<J>>,
    ) -> Result<Vec<(Reply, Receipt<J>)>, Refusal> {
        self.shared.group(self.rt, commands, last)
    }

    fn call_as_alone(
        &self,
        commands: &[Command],
        last: Option<&Receipt<J>>,
    ) -> Option<Result<Vec<(Reply, Receipt<J>)>, Refusal>> {
        self.shared.group_as_alone(self.rt, commands, last)
    }

    fn status(&self, last: Option<&Receipt<J>>) -> BookStatus {
        self.shared.status(self.rt, last)
    }

    fn anchors_below(
        &self,
        path: &Path,
        last: Option<&Receipt<J>>,
    ) -> Result<Vec<Path>, AllocError> {
        self.shared.anchors_below(self.rt, path, last)
    }
}

impl<'a, W: Wait, D: Disk + Drop, J: Chapter + Numbering, S: Publisher<J> + Drop> AskBook<J>
    for Caller<'a, W, D, J, S> {
    fn ask(&self, inquiry: Inquiry, last: Option<&Receipt<J>>) -> (Reply, Receipt<J>) {
        self.shared.run(self.rt, inquiry.into_command(), last)
    }

    fn status(&self, last: Option<&Receipt<J>>) -> BookStatus {
        self.shared.status(self.rt, last)
    }

    fn anchors_below(
        &self,
        path: &Path,
        last: Option<&Receipt<J>>,
    ) -> Result<Vec<Path>, AllocError> {
        self.shared.anchors_below(self.rt, path, last)
    }
}
