//! What the commands of a group come to, one after the other, before anything is kept.
ghost use Rattle.std.specs.{Prelude.{◌≡◌, ◌≢◌, ◌<◌, ◌^◌, ◌↔◌, ◌&&◌, IfOk, IsTrue, OnOk, Ok, Err, true, false, length, map}, List.AllByRecursion};
ghost use Rattle.pf_ticket.specs.{Laws.Tickets.IsWithin as AreTicketsWithin, Mentions.{after as moved_by, switches}};
ghost use Rattle.pf_core.specs.declared.reply.Refusal.TheVariants as refusals;
ghost use Rattle.pf_core.specs.declared.{command.HistoryCommand.HistoryCommand, step.Step.TheVariants.OfHistory};
ghost use Rattle.pf_core.specs.{Commands.{may_be_grouped, step_by}, Cores.{plain, IsMadeFrom}, Worlds.as_stored};
ghost use Rattle.pf_book.specs.Courses.{FindRoomEach, HasTaken, IsCourseOf, StepFindsRoom, found_by};

use pf_core::{Change, Command, Core, Next, ReadyStep, Refusal, Reply};
use pf_disk::Disk;
use pf_store::Store;
use std::alloc::{AllocError, Global};
use std::mem;
use std::slice::from_ref;

/// The replies to a group's commands so far, the changes that these want, and what all of them leave, if there are any. Whether each of the
/// changes finds room on the device by itself, after those before it.
#[derive(Drop)]
pub(crate) struct Course {
    pub(crate) replies: Vec<Reply>,
    pub(crate) changes: Vec<Change>,
    pub(crate) next: Option<Next>,
    pub(crate) each_has_room: bool,
}

impl Course {
    // The step of the next command, after the changes so far.
    fn step(&self, core: &mut Core, command: &Command) -> Result<ReadyStep, Refusal>
        requires may { may_be_grouped command.now ≡ true }
        ensures reply { (plain result ≢ Err refusals.Memory) → plain result ≡ step_by
            (moved_by core.old.tickets (switches (found_by core.old.durable self.now.next).voided))
            (found_by core.old.durable self.now.next).durable command.now }
        ensures made { IsMadeFrom (found_by core.old.durable self.now.next) result }
        ensures same { core.new ≡ core.old }
    {
        match &self.next {
            Some(next) => core.step_ready_from(next, command),
            None => core.step_ready(command),
        }
    }

    // Whether the change that the next command wants, if it wants one, finds room by itself after the changes so far.
    fn finds_room<D: Disk>(
        &self,
        store: &Store<D>,
        core: &Core,
        step: &Result<ReadyStep, Refusal>,
    ) -> bool
        requires { store.now.halted ≡ false }
        ensures { IsTrue result ↔ StepFindsRoom store.now.size (found_by core.now.durable self.now.next).durable step.now }
    {
        match step {
            Ok(ReadyStep::Wants(change, next, _)) => {
                let before = match &self.next {
                    Some(next) => next.after(),
                    None => core.durable(),
                };
                store.has_room(before, from_ref(change), next.after())
            }
            Ok(ReadyStep::Done(_)) | Ok(ReadyStep::OfHistory(_)) | Err(_) => true,
        }
    }

    // Adds the step of the next command, whose change finds room by itself or not. `acked` changes were acknowledged before the group.
    fn take(
        &mut self,
        acked: usize,
        step: Result<ReadyStep, Refusal>,
        has_room: bool,
    ) -> Result<(), AllocError>
        requires few { (acked < 2 ^ 62) × (length self.old.changes.items < 2 ^ 62) }
        requires own { (x : HistoryCommand) → plain step ≢ Ok (OfHistory x) }
        ensures taken { OnOk result (HasTaken acked step self.old.replies.items self.new.replies.items self.old.changes.items self.new.changes.items
            self.old.next self.new.next) }
        ensures room { self.new.each_has_room ≡ (self.old.each_has_room && has_room) }
    {
        self.each_has_room = self.each_has_room && has_room;
        match step {
            Ok(ReadyStep::Done(answer)) => self.replies.push(Reply::Answer(answer))?,
            Ok(ReadyStep::Wants(change, next, outcome)) => {
                self.changes.push(change)?;
                self.next = Some(next);
                let seq = (acked + self.changes.len()) as u64;
                self.replies.push(Reply::Applied { seq, outcome })?;
            }
            Ok(ReadyStep::OfHistory(_)) => unreachable!(),
            Err(Refusal::Memory) => return Err(AllocError),
            Err(refusal) => self.replies.push(Reply::Refused(refusal))?,
        }
        Ok(())
    }
}

/// What the commands of a group come to, after `acked` changes that were acknowledged, where the store isn't halted. `AllocError`: out of
/// memory, and nothing changes.
pub(crate) fn course_of<D: Disk>(
    alloc: Global,
    store: &Store<D>,
    core: &mut Core,
    acked: usize,
    commands: &[Command],
) -> Result<Course, AllocError>
    requires going { store.now.halted ≡ false }
    requires may { AllByRecursion (λ c. may_be_grouped c ≡ true) commands.now }
    requires few { (acked < 2 ^ 62) × (length commands.now < 2 ^ 62) }
    requires tickets { AreTicketsWithin core.old.tickets }
    ensures course { IfOk result (λ r. IsCourseOf core.old acked commands.now r.replies.items r.changes.items r.next) }
    ensures each { IfOk result (λ r. IsTrue r.each_has_room ↔ FindRoomEach store.now.size core.old.durable r.changes.items) }
    ensures same { core.new ≡ core.old }
{
    let mut course = Course {
        replies: Vec::with_capacity(alloc, commands.len())?,
        changes: Vec::new(alloc),
        next: None,
        each_has_room: true,
    };
    for command in commands {
        let step = course.step(core, command);
        let has_room = course.finds_room(store, core, &step);
        course.take(acked, step, has_room)?;
    }
    Ok(course)
}

// The reply to a change that is kept but not shown.
fn stored(reply: Reply) -> Reply
    ensures { result ≡ as_stored reply }
{
    match reply {
        Reply::Applied { seq, outcome } => Reply::Stored { seq, outcome },
        reply => reply,
    }
}

/// Makes the replies say of all changes that they are kept but not shown. It takes no memory.
pub(crate) fn all_stored(replies: &mut [Reply])
    ensures { replies.new ≡ map as_stored replies.old }
{
    for reply in replies.iter_mut() {
        let reported = mem::replace(reply, Reply::Refused(Refusal::Memory));
        *reply = stored(reported);
    }
}
