//! Commands of several callers, run in one group.
ghost use Rattle.std.specs.Prelude.{◌≡◌, ◌≤◌, ℕ, [], All, Ok, Err, Option, Some, None, IfOk, IfErr, length, map, slice_get, vec_len, vec_capacity};
ghost use Rattle.pf_book.specs.{Books.world_book, Receipts.TakesUp, Together.{IsAnsweredTogether, PlainAsked, PlainGiven}};

use crate::chapter::Chapter;
use crate::receipt::Receipt;
use crate::shared::Locked;
use pf_core::{Command, Refusal, Reply};
use pf_disk::Disk;
use pf_queue::{NewRegister, RunsTogether};
use pf_view::Publisher;
use std::alloc::{AllocError, Global};
use std::marker::Model;

/// A command that waits, and the receipt that its caller hands in, if it has one.
#[derive(Drop)]
pub(super) struct Asked<J: Chapter> {
    pub(super) command: Command,
    pub(super) last: Option<Receipt<J>>,
}

impl<J: Chapter> Model for Asked<J> {
    ghost use Rattle.pf_book.specs.Together.{PlainAsked};

    ghost Value = { PlainAsked };

    ghost view = { λ a. record { command = a.command; last = a.last } };
}

/// What the register notes of such a command, whichever opening its receipt is of. No value of it is ever made.
pub struct AskedEntry {
    command: Command,
}

impl Model for AskedEntry {
    ghost use Rattle.std.specs.Prelude.{None};
    ghost use Rattle.pf_book.specs.Together.{PlainAsked};

    ghost Value = { PlainAsked };

    ghost view = { λ a. record { command = a.command; last = None } };
}

/// A register in which the commands of a Book's callers are numbered, with no command yet. It exists in proofs alone, and takes no memory.
pub type NewCalls = NewRegister<AskedEntry>;

/// What a caller is given: the reply with its receipt; or if the device failed in a group the receipt that was handed in.
type Given<J> = Result<(Reply, Receipt<J>), Option<Receipt<J>>>;

// The room that a group of several callers needs, all of it made before any command is run.
struct Room<J: Chapter> {
    commands: Vec<Command>,
    lasts: Vec<Option<Receipt<J>>>,
    reported: Vec<Given<J>>,
    back: Vec<Asked<J>>,
}

impl<J: Chapter> Room<J> {
    fn of(alloc: Global, count: usize) -> Result<Room<J>, AllocError>
        ensures commands { IfOk result (λ r. (r.commands.items ≡ []) × (count ≤ vec_capacity r.commands)) }
        ensures lasts { IfOk result (λ r. (r.lasts.items ≡ []) × (count ≤ vec_capacity r.lasts)) }
        ensures reported { IfOk result (λ r. (r.reported.items ≡ []) × (count ≤ vec_capacity r.reported)) }
        ensures back { IfOk result (λ r. (r.back.items ≡ []) × (count ≤ vec_capacity r.back)) }
    {
        let commands = Vec::with_capacity(alloc, count)?;
        let lasts = Vec::with_capacity(alloc, count)?;
        let reported = Vec::with_capacity(alloc, count)?;
        let back = Vec::with_capacity(alloc, count)?;
        Ok(Room {
            commands,
            lasts,
            reported,
            back,
        })
    }
}

// Parts what is asked into commands and receipts.
fn part<J: Chapter>(
    asked: Vec<Asked<J>>,
    commands: &mut Vec<Command>,
    lasts: &mut Vec<Option<Receipt<J>>>,
)
    requires empty { (commands.old.items ≡ []) × (lasts.old.items ≡ []) }
    requires room { (vec_len asked ≤ vec_capacity commands.old) × (vec_len asked ≤ vec_capacity lasts.old) }
    ensures commands { commands.new.items ≡ map (λ a. a.command) asked.items }
    ensures lasts { lasts.new.items ≡ map (λ a. a.last) asked.items }
{
    for one in asked {
        let Asked { command, last } = one;
        commands.push_reserved(command);
        lasts.push_reserved(last);
    }
}

// The reverse.
fn rejoin<J: Chapter>(
    commands: Vec<Command>,
    lasts: Vec<Option<Receipt<J>>>,
    asked: &mut Vec<Asked<J>>,
)
    requires empty { asked.old.items ≡ [] }
    requires room { vec_len commands ≤ vec_capacity asked.old }
    requires same { length commands.items ≡ length lasts.items }
    ensures commands { map (λ a. a.command) asked.new.items ≡ commands.items }
    ensures lasts { map (λ a. a.last) asked.new.items ≡ lasts.items }
{
    let mut lasts = lasts.into_iter();
    for command in commands {
        match lasts.next() {
            Some(last) => asked.push_reserved(Asked { command, last }),
            None => unreachable!(),
        }
    }
}

// Each is told its answer.
fn tell_answers<J: Chapter>(answers: Vec<(Reply, Receipt<J>)>, reported: &mut Vec<Given<J>>)
    requires empty { reported.old.items ≡ [] }
    requires room { vec_len answers ≤ vec_capacity reported.old }
    ensures { reported.new.items ≡ map Ok answers.items }
{
    for answer in answers {
        reported.push_reserved(Ok(answer));
    }
}

// Each has its receipt back.
fn give_back<J: Chapter>(lasts: Vec<Option<Receipt<J>>>, reported: &mut Vec<Given<J>>)
    requires empty { reported.old.items ≡ [] }
    requires room { vec_len lasts ≤ vec_capacity reported.old }
    ensures { reported.new.items ≡ map Err lasts.items }
{
    for last in lasts {
        reported.push_reserved(Err(last));
    }
}

impl<D: Disk + Drop, J: Chapter, S: Publisher<J> + Drop> Locked<D, J, S> {
    // What the receipts that were handed in say of the history.
    fn look_at_each(&mut self, lasts: &[Option<Receipt<J>>])
        ensures same { self.new ≡ self.old }
        ensures each { All (λ l. TakesUp l (world_book self.old)) lasts.now }
    {
        self.book.look_at_each(lasts);
    }
}

impl<D: Disk + Drop, J: Chapter, S: Publisher<J> + Drop> RunsTogether for Locked<D, J, S> {
    type Job = Asked<J>;

    type Entry = AskedEntry;

    type Answer = Given<J>;

    ghost use Rattle.pf_book.specs.Together.{IsAnsweredTogether};

    ghost entry = { λ asked. asked };

    ghost Answers = { λ asked reported. IsAnsweredTogether J.base J.setting asked reported };

    fn run_one(&mut self, asked: Asked<J>) -> Given<J> {
        let Asked { command, last } = asked;
        Ok(self.run(&command, last.as_ref()))
    }

    // A group that is refused whole, or in which a change finds no room by itself, is handed back, so that each command gets what it gets
    // alone. After a fault of the device none is tried alone: its changes may survive.
    fn run_all(&mut self, asked: Vec<Asked<J>>) -> Result<Vec<Given<J>>, Vec<Asked<J>>>
        requires some { 2 ≤ vec_len asked }
        requires few { vec_len asked ≤ 64 }
        ensures each { IfOk result (λ answers. length answers.items ≡ length asked.items) }
        ensures answered { IfOk result (λ answers. (i : ℕ) (j : PlainAsked) (a : PlainGiven) → slice_get asked.items i ≡ Some j → slice_get answers.items i ≡ Some a → IsAnsweredTogether J.base J.setting j a) }
        ensures back { IfErr result (λ left. left.items ≡ asked.items) }
    {
        let Ok(room) = Room::of(self.book.alloc(), asked.len()) else {
            return Err(asked);
        };
        let Room {
            mut commands,
            mut lasts,
            mut reported,
            mut back,
        } = room;
        part(asked, &mut commands, &mut lasts);
        self.look_at_each(&lasts);
        match self.group_as_alone(&commands) {
            Some(Ok(answers)) => {
                tell_answers(answers, &mut reported);
                Ok(reported)
            }
            Some(Err(Refusal::Fault)) => {
                give_back(lasts, &mut reported);
                Ok(reported)
            }
            Some(Err(_)) | None => {
                rejoin(commands, lasts, &mut back);
                Err(back)
            }
        }
    }
}
