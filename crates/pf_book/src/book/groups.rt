//! Groups of commands, whose changes are kept together.
ghost use Rattle.std.specs.{Arc.arc_value, Prelude.{◌≡◌, ◌↔◌, ◌++◌, ◌∷◌, [], ℕ, List, Err, IfOk, IfErr, IsTrue, length, map, take, nat_lt, fold}};
ghost use Rattle.pf_disk.specs.Disk.{IsImage};
ghost use Rattle.pf_core.specs.Refusing.{and_then, unless};
ghost use Rattle.pf_core.specs.declared.reply.Refusal.TheVariants as refusals;
ghost use Rattle.pf_core.specs.{Calls.replies_in, Commands.group_words, Durable.Changes.{PlainDurable, after}, WorldBooks.{IsAt, StandsFor}, Worlds.{CurrentOpening, idle, grouping, upshot, Event, called_group, changes_due, is_halted, flat, LegalReplies, shown_by}};
ghost use Rattle.pf_book.specs.{Courses.{FindRoomEach, IsPlanned}, Groups.IsGroupCall};
ghost use Rattle.pf_book.specs.Books.{world_book, HoldsLeft, listed, replied, AreNumbered, IsLeft, KeepsOpening, StaysUnlessAnyKept, UsesDevice, is_fault_result};

use crate::book::Book;
use crate::chapter::Chapter;
use crate::course::{Course, all_stored, course_of};
use pf_core::{Change, Command, Refusal, Reply, check_group};
use pf_disk::Disk;
use pf_view::Publisher;
use std::sync::Arc;

// The replies without the changes.
fn alone(answer: Result<(Vec<Reply>, Vec<Arc<Change>>), Refusal>) -> Result<Vec<Reply>, Refusal>
    ensures { listed result ≡ replied answer }
{
    match answer {
        Ok((replies, _)) => Ok(replies),
        Err(refusal) => Err(refusal),
    }
}

impl<D: Disk + Drop, J: Chapter, S: Publisher<J> + Drop> Book<D, J, S> {
    // Whether a group may begin: none is pending, and the number and the kinds of its commands are allowed.
    fn check_all(&self, commands: &[Command]) -> Result<(), Refusal>
        ensures { result ≡ and_then (unless (is_halted self.now.pending) refusals.Halted) (group_words commands.now) }
    {
        if self.acked < self.log.len() {
            return Err(Refusal::Halted);
        }
        check_group(commands)
    }

    // What a group of commands comes to, before anything is kept; or its refusal.
    pub(super) fn plan(&mut self, commands: &[Command]) -> Result<Course, Refusal>
        ensures planned { IfOk result (λ c. IsPlanned (world_book self.old) commands.now c.replies.items c.changes.items c.next) }
        ensures each { IfOk result (λ c. IsTrue c.each_has_room ↔ FindRoomEach self.old.size self.old.whole.durable c.changes.items) }
        ensures refused { IfErr result (λ e. IsGroupCall D.Disk self.old self.new commands.now (Err e)) }
        ensures same { self.new ≡ self.old }
    {
        self.check_all(commands)?;
        let course = course_of(
            self.alloc,
            &self.store,
            &mut self.core,
            self.acked,
            commands,
        )?;
        Ok(course)
    }

    // Keeps the changes that a group comes to, if there are any, and shows them. Returns them too, if they were kept. Its commands are only
    // spoken of.
    pub(super) fn finish(
        &mut self,
        commands: &[Command],
        course: Course,
    ) -> Result<(Vec<Reply>, Vec<Arc<Change>>), Refusal>
        requires { IsPlanned (world_book self.old) commands.now course.replies.items course.changes.items course.next }
        ensures call { IsGroupCall D.Disk self.old self.new commands.now (replied result) }
        ensures given { IfOk result (λ r. (h : CurrentOpening) → IsAt h (world_book self.old) → map arc_value r.1.items ≡ changes_due h [] commands.now) }
    {
        let alloc = self.alloc;
        let Course {
            mut replies,
            changes,
            next,
            each_has_room: _,
        } = course;
        let Some(next) = next else {
            return Ok((replies, Vec::new(alloc)));
        };
        match self.make(changes, next) {
            Ok((given, shown)) => {
                if shown {
                    Ok((replies, given))
                } else {
                    all_stored(&mut replies);
                    Ok((replies, given))
                }
            }
            Err(refusal) => Err(refusal),
        }
    }

    // A group of commands, whatever came before it in the opening. Returns its changes too, if they were kept.
    fn call_all(&mut self, commands: &[Command]) -> Result<(Vec<Reply>, Vec<Arc<Change>>), Refusal>
        ensures { IsGroupCall D.Disk self.old self.new commands.now (replied result) }
    {
        match self.plan(commands) {
            Ok(course) => self.finish(commands, course),
            Err(refusal) => Err(refusal),
        }
    }

    /// Several commands, whose changes are kept in one record: 1 to 64 commits, edits of tables and commands on states. Each is answered as
    /// if those before it had been called by themselves, and the numbers of their changes go up one by one. A crash keeps all the changes
    /// or none of them.
    ///
    /// `Ok`: a reply to each command, which may be its refusal by the core; the changes are on the device. They are shown with all before
    /// them, and then answered `Applied`; or each of them is `Stored`, when out of memory for that. If no command wants a change the device
    /// isn't written.
    ///
    /// `Err` refuses all of them, for the first of these that holds: `Halted`, if the device failed in an earlier call; `BadCount`, of no
    /// commands or more than 64; `NotGrouped`, with the place of the first command of another kind; `HistoryFull`, if the history would
    /// have more changes than it may have; `Full`, exactly if a bank has no room for the record of all of them after a snapshot of what was
    /// kept before, or fewer than 64 bytes left after a snapshot of what is kept then; `Fault`, if a call of the device failed. `Memory`
    /// may come instead of any reply but the first three; but once all changes are made the two limits are tested before any more memory is
    /// taken. All memory but that for showing is taken before the device is written. After every `Err` but `Fault` all is as before, and no
    /// call of the device was made. After `Fault` the changes are in the history, not acknowledged, and all else is as before; each later
    /// command that may change something is `Halted`.
    pub fn group(&mut self, commands: &[Command]) -> Result<Vec<Reply>, Refusal>
        // The replies, or the refusal, are legal in each world that the Book stood for; it now stands for that with this group at its end.
        ensures worlds { (first : PlainDurable) (world : List Event) → StandsFor first (world_book self.old) world →
            StandsFor first (world_book self.new) (world ++ called_group commands.now (listed result)
            (upshot self.new.shown (nat_lt (D.fault_count self.old.disk) (D.fault_count self.new.disk))) ∷ []) }
        ensures legal { (h : CurrentOpening) → IsAt h (world_book self.old)
            → LegalReplies h commands.now (listed result) (nat_lt (D.fault_count self.old.disk) (D.fault_count self.new.disk)) }

        // At each moment of the call, ten at most, an image holds what some crash within it leaves of the opening, with what a later opening
        // needs; and after it what a crash then leaves.
        ensures device { UsesDevice D.Disk (is_fault_result (listed result)) self.old self.new
            (IsLeft (world_book self.old) (grouping commands.now)) }
        ensures images { (h : CurrentOpening) → IsAt h (world_book self.new) → (c : List ℕ)
            → IsImage (D.seen self.new.disk) (D.unsynced self.new.disk) c → HoldsLeft h idle c }

        // What is kept is the fold of all that was acknowledged, and what is shown is the fold of as many changes as are shown.
        ensures fold { self.new.whole.durable ≡ after self.new.base (flat self.new.acked) }
        ensures published { self.new.published ≡ after self.new.base (take self.new.shown (flat self.new.acked)) }
        ensures shown { self.new.shown ≡ fold (λ n r. shown_by r n) self.old.shown (replies_in (listed result)) }
        ensures numbered { IfOk (listed result) (λ replies. AreNumbered replies (length (flat self.old.acked)) (length (flat self.new.acked))) }
        ensures stays { StaysUnlessAnyKept (listed result) self.old self.new }
        ensures opening { KeepsOpening self.old self.new }
    {
        let result = alone(self.call_all(commands));
        // reading a field makes the Book's invariant known here
        let _ = &self.core;
        result
    }
}
