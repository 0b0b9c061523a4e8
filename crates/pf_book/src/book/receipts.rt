//! Replies with their receipts, and what a Book says of receipts.
ghost use Rattle.std.specs.Prelude.{All, ◌≡◌, ◌<◌, ◌≤◌, ◌↔◌, ◌^◌, [], length, map, take, drop, vec_capacity, IfSome, IsTrue, None};
ghost use Rattle.std.specs.{Arc.arc_value, List.AllByRecursion, Option.{ForSome, option_copied, option_map}, Vec.Iter.into_iter_items};
ghost use mathlib.Core.List.{IsPrefix};
ghost use Rattle.pf_core.specs.Worlds.{flat};
ghost use Rattle.pf_book.specs.{Courses.IsPlanned, Groups.{result_list, IsGroupAsAlone, IsGroupOf}, Pairs.{count_after, is_kept, given_to, kept_count, given_after, paired}, Books.{world_book, log_in}, Receipts.{token_of, receipt_of, Confirms, EndsIn, IsCall, TakesUp, ShownFits}};

use crate::book::Book;
use crate::chapter::Chapter;
use crate::course::Course;
use crate::receipt::Receipt;
use pf_core::{Change, Command, Refusal, Reply};
use pf_disk::Disk;
use pf_view::past::Front;
use pf_view::{Publisher, Seer, Token};
use std::sync::Arc;
use std::vec::IntoIter;

// A token of what is shown, after `Applied` alone.
fn token_after<J: Chapter, S: Publisher<J>>(reply: &Reply, shower: &S) -> Option<Token<J>>
    ensures { result ≡ token_of reply.now (S.plain shower.now).shown }
{
    match reply {
        Reply::Applied { .. } => Some(shower.token()),
        Reply::Answer(_) | Reply::Stored { .. } | Reply::Refused(_) => None,
    }
}

// Whether the reply says that a change was kept.
fn is_kept(reply: &Reply) -> bool
    ensures { result ≡ is_kept reply.now }
{
    match reply {
        Reply::Applied { .. } | Reply::Stored { .. } => true,
        Reply::Answer(_) | Reply::Refused(_) => false,
    }
}

// How many changes the history has after a reply, if it had `before` of them before it.
fn count_after(reply: &Reply, before: usize) -> usize
    requires { before < 2 ^ 63 }
    ensures { result ≡ count_after reply.now before }
{
    if is_kept(reply) { before + 1 } else { before }
}

// The next of the changes that are given to replies in turn, if this reply kept one.
fn give(reply: &Reply, given: &mut IntoIter<Arc<Change>>) -> Option<Arc<Change>>
    ensures given { option_map arc_value result ≡ given_to reply.now (map arc_value (into_iter_items given.old)) }
    ensures left { map arc_value (into_iter_items given.new) ≡ given_after reply.now (map arc_value (into_iter_items given.old)) }
{
    if is_kept(reply) { given.next() } else { None }
}

impl<D: Disk + Drop, J: Chapter, S: Publisher<J> + Drop> Book<D, J, S> {
    /// One call, with a receipt whose front is the whole history. The caller may hand in an earlier receipt.
    pub(crate) fn answer(
        &mut self,
        command: &Command,
        last: Option<&Receipt<J>>,
    ) -> (Reply, Receipt<J>)
        ensures call { IsCall D.Disk self.old self.new command.now result.0 result.1.change }
        ensures receipt { result.1 ≡ receipt_of (world_book self.new) (length (log_in (world_book self.new))) result.1.change result.0 }
        ensures last { TakesUp (option_copied last.entry) (world_book self.old) }
    {
        self.look_at(last);
        let (reply, change) = self.call(command);
        let receipt = self.receipt(self.log_len(), &reply, change);
        (reply, receipt)
    }

    /// A group of commands, with a receipt for each reply. The caller may hand in an earlier receipt.
    pub(crate) fn answer_all(
        &mut self,
        commands: &[Command],
        last: Option<&Receipt<J>>,
    ) -> Result<Vec<(Reply, Receipt<J>)>, Refusal>
        ensures group { IsGroupOf D.Disk self.old self.new commands.now (result_list result) }
        ensures last { TakesUp (option_copied last.entry) (world_book self.old) }
    {
        self.look_at(last);
        match self.plan(commands) {
            Ok(course) => self.answer_course(commands, course),
            Err(refusal) => Err(refusal),
        }
    }

    /// The same, with no receipt handed in, if each command gets the reply that it would get by itself after those before it. `None`: a
    /// change finds no room by itself, and nothing was done.
    pub(crate) fn answer_as_alone(
        &mut self,
        commands: &[Command],
    ) -> Option<Result<Vec<(Reply, Receipt<J>)>, Refusal>>
        ensures group { IfSome result (λ r. IsGroupAsAlone D.Disk self.old self.new commands.now (result_list r)) }
        ensures none { (result ≡ None) → self.new ≡ self.old }
    {
        match self.plan(commands) {
            Ok(course) => {
                if course.each_has_room {
                    Some(self.answer_course(commands, course))
                } else {
                    None
                }
            }
            Err(refusal) => Some(Err(refusal)),
        }
    }

    // The replies to a group with their receipts, by what it comes to. The room for the answers is made before any change is kept.
    fn answer_course(
        &mut self,
        commands: &[Command],
        course: Course,
    ) -> Result<Vec<(Reply, Receipt<J>)>, Refusal>
        requires { IsPlanned (world_book self.old) commands.now course.replies.items course.changes.items course.next }
        ensures { IsGroupOf D.Disk self.old self.new commands.now (result_list result) }
    {
        let answers = Vec::with_capacity(self.alloc, commands.len())?;
        let before = self.log.len();
        match self.finish(commands, course) {
            Ok((replies, given)) => Ok(self.pair(before, replies, given, answers)),
            Err(refusal) => Err(refusal),
        }
    }

    /// What the receipt that was handed in, if any, says of the history.
    pub(crate) fn look_at(&mut self, last: Option<&Receipt<J>>)
        ensures same { self.new ≡ self.old }
        ensures last { TakesUp (option_copied last.entry) (world_book self.old) }
    {
        if let Some(last) = last {
            self.begins_with(last);
        }
    }

    /// The same of several receipts.
    pub(crate) fn look_at_each(&mut self, lasts: &[Option<Receipt<J>>])
        ensures same { self.new ≡ self.old }
        ensures each { All (λ l. TakesUp l (world_book self.old)) lasts.now }
    {
        for last in lasts {
            self.look_at(last.as_ref());
        }
    }

    // The history begins with the receipt's front. What was acknowledged at its reply still is, and so is its change. No fewer changes are
    // shown.
    fn begins_with(&mut self, receipt: &Receipt<J>)
        ensures same { self.new ≡ self.old }
        ensures begins { IsPrefix receipt.now.front (log_in (world_book self.old)) }
        ensures acked { receipt.now.acked ≤ length (flat self.old.acked) }
        ensures change { ForSome receipt.now.change (λ e. length receipt.now.front ≤ length (flat self.old.acked)) }
        ensures shown { receipt.now.shown ≤ self.old.shown }
    {
        self.tip.contains(&receipt.front);
        self.tip.has_shown(&receipt.showing);
        // reading a field makes the receipt's invariant known here
        let _ = receipt.seq;
    }

    // The receipt of a reply that was just given, after which the history has `seq` changes, with the change that was kept with it.
    fn receipt(&self, seq: usize, reply: &Reply, change: Option<Arc<Change>>) -> Receipt<J>
        requires within { seq ≤ length (log_in (world_book self.now)) }
        requires last { ForSome (option_map arc_value change) (λ e. EndsIn (take seq (log_in (world_book self.now))) e
            × (seq ≤ length (flat self.now.acked))) }
        requires shown { ShownFits reply.now self.now.shown (length (log_in (world_book self.now))) }
        ensures { result ≡ receipt_of (world_book self.now) seq (option_map arc_value change) reply.now }
    {
        Receipt {
            front: self.tip.front(),
            seq,
            change,
            token: token_after(reply, &self.shower),
            showing: self.tip.showing(),
            shown: self.shower.len(),
        }
    }

    // The replies to a group that was just answered, with their receipts. `before` changes came before the group, `given` are its own.
    fn pair(
        &self,
        before: usize,
        replies: Vec<Reply>,
        given: Vec<Arc<Change>>,
        mut answers: Vec<(Reply, Receipt<J>)>,
    ) -> Vec<(Reply, Receipt<J>)>
        requires calm { self.now.pending ≡ [] }
        requires empty { answers.items ≡ [] }
        requires room { length replies.items ≤ vec_capacity answers }
        requires given { drop before (log_in (world_book self.now)) ≡ map arc_value given.items }
        requires within { before ≤ length (log_in (world_book self.now)) }
        requires kept { kept_count replies.items ≡ length (map arc_value given.items) }
        requires shown { AllByRecursion (λ r. ShownFits r self.now.shown (length (log_in (world_book self.now)))) replies.items }
        ensures { result.items ≡ paired self.now.shown (log_in (world_book self.now)) before replies.items (map arc_value given.items) }
    {
        // reading a field makes the Book's invariant known here
        let _ = &self.core;
        let mut given = given.into_iter();
        let mut seq = before;
        for reply in replies {
            let change = give(&reply, &mut given);
            seq = count_after(&reply, seq);
            let receipt = self.receipt(seq, &reply, change);
            answers.push_reserved((reply, receipt));
        }
        answers
    }

    /// Whether the history has at least as many changes as the receipt's number says, and under this number the receipt's change, if it has
    /// one. It is true for each receipt of this opening, while the Book is under its lock and afterwards. Only the number is compared: the
    /// types say already that the history begins with what a receipt saw, and that no fewer changes are shown. It never runs out of memory.
    pub fn confirm(&mut self, receipt: &Receipt<J>) -> bool
        ensures exact { IsTrue result ↔ Confirms (log_in (world_book self.old)) receipt.now }
        ensures yes { IsTrue result }
        ensures begins { IsPrefix receipt.now.front (log_in (world_book self.old)) }
        ensures shown { receipt.now.shown ≤ self.old.shown }
        ensures same { self.new ≡ self.old }
    {
        self.begins_with(receipt);
        receipt.seq <= self.log.len()
    }

    /// The history begins with all that a seer of this opening saw and with all that it learnt, and all of this is acknowledged. This holds
    /// for each seer at any time, while the Book is under its lock and afterwards: the types say so, and nothing is compared.
    pub fn covers(&mut self, seer: &Seer<J>)
        ensures seen { IsPrefix seer.now.seen (log_in (world_book self.old)) }
        ensures learnt { IsPrefix seer.now.learnt (log_in (world_book self.old)) }
        ensures seen_acked { length seer.now.seen ≤ length (flat self.old.acked) }
        ensures learnt_acked { length seer.now.learnt ≤ length (flat self.old.acked) }
        ensures same { self.new ≡ self.old }
    {
        self.contains(&seer.seen());
        self.contains(&seer.learnt());
    }

    // The history begins with each of its fronts, and has at least as many acknowledged changes.
    fn contains(&mut self, front: &Front<J>)
        ensures begins { IsPrefix front.now.front (log_in (world_book self.old)) }
        ensures acked { front.now.acked ≤ length (flat self.old.acked) }
        ensures same { self.new ≡ self.old }
    {
        self.tip.contains(front);
    }
}
