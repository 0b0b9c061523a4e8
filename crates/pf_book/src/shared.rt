//! A Book that threads share.
ghost use Rattle.std.specs.{Option.option_copied, Prelude.{◌≡◌, ℕ, IfSome, List, None, Option}};
ghost use Rattle.pf_disk.specs.Disk.{IsImage};
ghost use Rattle.pf_core.specs.{WorldBooks.IsAt, Worlds.{CurrentOpening, idle}};
ghost use Rattle.pf_book.specs.{Anchors.{SaysAnchors, listed_in}, Books.{HoldsLeft, IsOpenable, world_book}, Groups.{IsAnsweredAsAlone, IsGroupAnswered, IsGroupAsAlone, IsGroupOf, result_list}, Receipts.{IsCall, IsReached, IsAnswered, TakesUp, PlainReceipt}, Statuses.SaysStatus, Together.IsAnsweredTogether};

mod together;

use crate::book::Book;
use crate::chapter::Chapter;
use crate::receipt::Receipt;
use crate::status::BookStatus;
use pf_anchor::Path;
use pf_core::{Command, Refusal, Reply};
use pf_disk::Disk;
use pf_queue::{Numbering, Queue};
use pf_view::Publisher;
use std::alloc::AllocError;
use std::marker::Model;
use std::sync::Wait;
use together::Asked;
pub use together::{AskedEntry, NewCalls};

// What is under the lock: a Book that stands for some world of this opening.
#[derive(Drop)]
struct Locked<D: Disk + Drop, J: Chapter, S: Publisher<J> + Drop> {
    book: Book<D, J, S>,
}

impl<D: Disk + Drop, J: Chapter, S: Publisher<J> + Drop> Model for Locked<D, J, S> {
    ghost use Rattle.pf_book.specs.{Books.{PlainBook, world_book}, Receipts.IsReached};

    ghost Value = { PlainBook D };

    ghost view = { λ d. d.book };

    ghost invariant = { λ d. IsReached J.base J.setting (world_book d.book) };
}

impl<D: Disk + Drop, J: Chapter, S: Publisher<J> + Drop> Locked<D, J, S> {
    // One call. At each moment of it an image of the device holds what some crash within it leaves of the opening.
    fn run(&mut self, command: &Command, last: Option<&Receipt<J>>) -> (Reply, Receipt<J>)
        ensures answered { IsAnswered J.base J.setting command.now result.0 result.1 (option_copied last.entry) }
        ensures call { IsCall D.Disk self.old self.new command.now result.0 result.1.change }
    {
        let answer = self.book.answer(command, last);
        self.book.between_calls();
        answer
    }

    // One group.
    fn group(
        &mut self,
        commands: &[Command],
        last: Option<&Receipt<J>>,
    ) -> Result<Vec<(Reply, Receipt<J>)>, Refusal>
        ensures answered { IsGroupAnswered J.base J.setting commands.now (result_list result) (option_copied last.entry) }
        ensures group { IsGroupOf D.Disk self.old self.new commands.now (result_list result) }
    {
        let answers = self.book.answer_all(commands, last);
        self.book.between_calls();
        answers
    }

    // One group, perhaps of several callers, each of which may have handed in a receipt, if each command gets the reply that it would get
    // by itself after those before it. `None`: nothing was done.
    fn group_as_alone(
        &mut self,
        commands: &[Command],
    ) -> Option<Result<Vec<(Reply, Receipt<J>)>, Refusal>>
        ensures answered { IfSome result (λ r. (last : Option PlainReceipt) → TakesUp last (world_book self.old)
            → IsAnsweredAsAlone J.base J.setting commands.now (result_list r) last) }
        ensures group { IfSome result (λ r. IsGroupAsAlone D.Disk self.old self.new commands.now (result_list r)) }
        ensures none { (result ≡ None) → self.new ≡ self.old }
    {
        let Some(answers) = self.book.answer_as_alone(commands) else {
            return None;
        };
        self.book.between_calls();
        Some(answers)
    }

    // The same for one caller.
    fn group_as_alone_after(
        &mut self,
        commands: &[Command],
        last: Option<&Receipt<J>>,
    ) -> Option<Result<Vec<(Reply, Receipt<J>)>, Refusal>>
        ensures { IfSome result (λ r. IsAnsweredAsAlone J.base J.setting commands.now (result_list r) (option_copied last.entry)) }
    {
        self.book.look_at(last);
        self.group_as_alone(commands)
    }

    // What the Book says of itself.
    fn status(&mut self, last: Option<&Receipt<J>>) -> BookStatus
        ensures says { SaysStatus J.base J.setting result (option_copied last.entry) }
        ensures same { self.new ≡ self.old }
    {
        self.book.look_at(last);
        self.book.status()
    }

    // Which anchors the Book has below a path.
    fn anchors_below(
        &mut self,
        path: &Path,
        last: Option<&Receipt<J>>,
    ) -> Result<Vec<Path>, AllocError>
        ensures says { SaysAnchors J.base J.setting path.now (listed_in result) (option_copied last.entry) }
        ensures same { self.new ≡ self.old }
    {
        self.book.look_at(last);
        self.book.anchors_below(path)
    }
}

/// A Book under a lock, which any thread may call, and what publishes its changes. Callers take turns, in the order in which they came. The
/// crate's [`Shared`](crate::Shared) is one over a [`Shower`](pf_view::Shower).
#[derive(Drop)]
pub struct Shared<D: Disk + Drop, J: Chapter + Numbering, S: Publisher<J> + Drop> {
    queue: Queue<J, Locked<D, J, S>>,
}

impl<D: Disk + Drop, J: Chapter + Numbering, S: Publisher<J> + Drop> Shared<D, J, S> {
    /// Shares a Book that stands for some world of its opening, as a new one does, with the register in which its callers' commands are
    /// numbered. It takes no memory.
    pub fn new(book: Book<D, J, S>, calls: NewCalls) -> Shared<D, J, S>
        requires reached { IsReached J.base J.setting (world_book book) }
        requires name { calls ≡ J.register }
    {
        let alloc = book.alloc();
        Shared {
            queue: Queue::new(alloc, calls, Locked { book }),
        }
    }

    /// One call, as `Book::run` answers it, with a receipt. It waits for its turn, and then for workers that are judging.
    ///
    /// The reply is legal in a world of this opening whose last event is this call. The receipt's front is the history after it, and begins
    /// with the front of a receipt that is handed in; that receipt's change, if it has one, is acknowledged there, and no fewer changes are
    /// shown. Each reply has a receipt, `Memory` too: what a receipt needs was made before the device was written, or takes no memory.
    pub fn run<W: Wait>(
        &self,
        rt: &W,
        command: Command,
        last: Option<&Receipt<J>>,
    ) -> (Reply, Receipt<J>)
        ensures { IsAnswered J.base J.setting command result.0 result.1 (option_copied last.entry) }
    {
        let turn = self.queue.come(rt);
        let answer = self.queue.value(rt).run(&command, last);
        self.queue.end(rt, turn);
        answer
    }

    /// One call, as [`run`](Self::run) makes it, which may be run in one group with those of other callers that wait. So while one caller is
    /// under the lock, the device is written once for the changes of all who came meanwhile. A command that no group may have is run by
    /// itself, and so is any if there is no memory for it to wait.
    ///
    /// If it was run in a group, the receipt is as [`group`](Self::group) says, and the history before the group begins with the front of
    /// the receipt that is handed in. If such a group is refused whole, each of its commands is run by itself, but after `Refusal::Fault`:
    /// then the changes of the group stand in the history, not acknowledged, and this is `Err`, with the receipt that was handed in.
    pub fn run_together<W: Wait>(
        &self,
        rt: &W,
        command: Command,
        last: Option<Receipt<J>>,
    ) -> Result<(Reply, Receipt<J>), Option<Receipt<J>>>
        ensures { IsAnsweredTogether J.base J.setting (record { command = command; last = last }) result }
    {
        if command.may_be_grouped() {
            return self.queue.run(rt, Asked { command, last });
        }
        Ok(self.run(rt, command, last.as_ref()))
    }

    /// A group of commands, as `Book::group` runs it, with a receipt for each reply. It waits for its turn, and then for workers that are
    /// judging.
    ///
    /// The replies are legal in a world of this opening whose last event is this group. Each receipt's front is the history with the
    /// changes of the group's commands so far; its change is the one that its command wanted, if it was kept; and after `Applied` its token
    /// is of the whole history after the group. The history before the group begins with the front of a receipt that is handed in, and that
    /// receipt's change, if it has one, is acknowledged there; no fewer changes are shown. `Err` refuses the whole group, as `Book::group`
    /// says, and is legal in such a world too. The room for the answers is made before the device is written.
    pub fn group<W: Wait>(
        &self,
        rt: &W,
        commands: &[Command],
        last: Option<&Receipt<J>>,
    ) -> Result<Vec<(Reply, Receipt<J>)>, Refusal>
        ensures { IsGroupAnswered J.base J.setting commands.now (result_list result) (option_copied last.entry) }
    {
        let turn = self.queue.come(rt);
        let answers = self.queue.value(rt).group(commands, last);
        self.queue.end(rt, turn);
        answers
    }

    /// A group of commands, as [`group`](Self::group) runs it, if each of them gets the reply that it would get by itself after those before
    /// it. `None`: a change finds no room by itself where they would all find it together. Then nothing was done, and the commands are to be
    /// run one by one.
    pub fn group_as_alone<W: Wait>(
        &self,
        rt: &W,
        commands: &[Command],
        last: Option<&Receipt<J>>,
    ) -> Option<Result<Vec<(Reply, Receipt<J>)>, Refusal>>
        ensures { IfSome result (λ r. IsAnsweredAsAlone J.base J.setting commands.now (result_list r) (option_copied last.entry)) }
    {
        let turn = self.queue.come(rt);
        let answers = self.queue.value(rt).group_as_alone_after(commands, last);
        self.queue.end(rt, turn);
        answers
    }

    /// What the Book says of itself, as [`Book::status`](crate::book::Book::status). It waits for its turn, and calls nothing of the device.
    ///
    /// The Book stands for some world of this opening, and its history begins with the front of a receipt that is handed in; that receipt's
    /// change, if it has one, is acknowledged there.
    pub fn status<W: Wait>(&self, rt: &W, last: Option<&Receipt<J>>) -> BookStatus
        ensures { SaysStatus J.base J.setting result (option_copied last.entry) }
    {
        let turn = self.queue.come(rt);
        let status = self.queue.value(rt).status(last);
        self.queue.end(rt, turn);
        status
    }

    /// The anchors directly below a path, as [`Book::anchors_below`](crate::book::Book::anchors_below). It waits for its turn, and calls
    /// nothing of the device. `AllocError`: nothing is made.
    ///
    /// The Book stands for some world of this opening, and its history begins with the front of a receipt that is handed in; that receipt's
    /// change, if it has one, is acknowledged there.
    pub fn anchors_below<W: Wait>(
        &self,
        rt: &W,
        path: &Path,
        last: Option<&Receipt<J>>,
    ) -> Result<Vec<Path>, AllocError>
        ensures { SaysAnchors J.base J.setting path.now (listed_in result) (option_copied last.entry) }
    {
        let turn = self.queue.come(rt);
        let listed = self.queue.value(rt).anchors_below(path, last);
        self.queue.end(rt, turn);
        listed
    }

    /// The Book, once all callers have ended. It confirms each receipt of this opening. As after each call of `Book::run`, each image of
    /// its device holds what a crash leaves of the opening. That image has the next generation at most, and room for another opening if
    /// what the last one gave leaves it.
    pub fn close(self) -> Book<D, J, S>
        ensures reached { IsReached J.base J.setting (world_book result) }
        ensures images { (h : CurrentOpening) → IsAt h (world_book result) → (c : List ℕ)
            → IsImage (D.seen result.disk) (D.unsynced result.disk) c → HoldsLeft h idle c }
        ensures openable { IsOpenable D.seen D.unsynced result }
    {
        let Shared { queue } = self;
        let Locked { book } = queue.into_inner();
        book.between_calls();
        book
    }
}
