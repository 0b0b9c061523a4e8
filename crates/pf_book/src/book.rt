//! One history over a device. Groups of commands are in `groups`, replies with receipts in `receipts`, what is left of a closed one in
//! `closed`.
ghost use Rattle.std.specs.Prelude.{◌≡◌, ℕ, ◌+◌, ◌<◌, ◌≤◌, [], ◌∷◌, ◌++◌, List, All, Ok, true, false, IfOk, IfErr, IfSome, OnOk, OnErr, IsErrOf, MatchBool, MatchResult, length, map, take, slice_get, nat_lt, not, if◌then◌else◌};
ghost use Rattle.std.specs.{Arc.arc_value, List.list_all, Option.option_map};
ghost use Rattle.pf_disk.specs.Disk.{IsImage};
ghost use Rattle.pf_core.specs.declared.reply.Refusal.TheVariants as refusals;
ghost use Rattle.pf_core.specs.{Calls.call, Commands.may_change, Durable.Changes.{PlainDurable, applied, after, fits, verdict}, WorldBooks.{IsAt, IsFolded, StandsFor, Leads}, Cores.left_by, Worlds.{CurrentOpening, idle, calling, begun, upshot, Event, called, opened, is_fault, flat, raised, last_epoch, down, state_after, IsWorld, LegalReply, shown_by}};
ghost use Rattle.pf_store.specs.declared.store.fault.OpenFault.TheVariants as open_fault;
ghost use Rattle.pf_store.specs.{Groups.{can_be_wanted, is_group, made_all}, Stores.{FindsRoom, FollowInTurn, HoldsEither}};
ghost use Rattle.pf_view.specs.Seers.{IsNewSeer, IsNewShower, JudgesBy};
ghost use Rattle.pf_book.specs.{Courses.{AreReady, KeepsTogether}, Receipts.{IsCall, IsReached}};
ghost use Rattle.pf_book.specs.Books.{world_book, HoldsLeft, BookHasRoom, HasNoRoom, left_together, IsMore, IsUnkept, IsUnshown, AnswersHistory, Stays, IsLeft, IsOpenable, KeepsOpening, StaysUnlessKept, UsesDevice, shows_all, change_in, log_in, is_fault_reply, is_fault_result, IsNumbered, IsJudged, IsNamed, setting_of, shown_with, judging};

mod closed;
mod groups;
mod receipts;

use crate::chapter::Chapter;
use crate::opening::{NamedOpening, Opening};
use crate::saving::{ChangeGroup, Copies, note_all, put_all, share_and_reserve};
use crate::showing::{offer_rest, show_offered};
pub use closed::Closed;
use pf_core::{
    Answer, Change, Command, Core, Durable, HistoryCommand, Next, ReadyStep, Refusal, Reply,
    Verdict,
};
use pf_disk::Disk;
use pf_rule::Packet;
use pf_store::{OpenFault, SaveFault, Store};
use pf_view::past::{Front, Tip};
use pf_view::{Publisher, Seer, Shower, ViewFault, views};
use std::alloc::{AllocError, Global};
use std::marker::Model;
use std::sync::{Arc, Wait};

/// What an opening gave, and each change since: saved on the device before it is answered, and shown to the packet workers by the
/// publisher `S`. The crate's [`Book`](crate::Book) is one over a [`Shower`]. Contracts see it as a `PlainBook`.
#[derive(Drop)]
pub struct Book<D: Disk + Drop, J: Chapter, S: Publisher<J> + Drop> {
    alloc: Global,
    store: Store<D>,
    core: Core,
    // what the core keeps, shared
    durable: Arc<Durable>,
    log: Vec<Arc<Change>>,
    // how many changes each acknowledged group has
    sizes: Vec<usize>,
    acked: usize,
    offered: usize,
    limit: usize,
    shower: S,
    tip: Tip<J>,
    // the acknowledged part of the history
    front: Front<J>,
}

impl<D: Disk + Drop, J: Chapter, S: Publisher<J> + Drop> Model for Book<D, J, S> {
    ghost use Rattle.std.specs.Prelude.{map};
    ghost use Rattle.std.specs.Arc.{arc_value};
    ghost use Rattle.pf_book.specs.Books.{PlainBook, parts_of, book_of, IsBook};

    ghost Value = { PlainBook D };

    ghost view = { λ b. book_of (parts_of b.store J.base b.core (arc_value b.durable) (map arc_value b.log.items) b.sizes.items b.acked b.offered b.limit
        (S.plain b.shower) b.tip b.front) };

    ghost invariant = { λ b. IsBook D.seen D.unsynced (parts_of b.store J.base b.core (arc_value b.durable) (map arc_value b.log.items) b.sizes.items b.acked
        b.offered b.limit (S.plain b.shower) b.tip b.front) };
}

// Why no history begins: out of memory, or no place for what it would show.
fn unshown(fault: ViewFault) -> OpenFault
    ensures { IsUnshown result }
{
    match fault {
        ViewFault::Memory => OpenFault::Memory,
        ViewFault::Places => OpenFault::Places,
    }
}

// Whether the command may change something: if so it is refused once the device has failed.
fn may_change(command: &Command) -> bool
    ensures { result ≡ may_change command.now }
{
    match command {
        Command::Transact(_) | Command::Edit(_) | Command::States(_) => true,
        Command::Ask(_) | Command::History(_) => false,
    }
}

impl<D: Disk + Drop, J: Chapter, R: Wait + Drop> Book<D, J, Shower<J, R>> {
    /// Begins the history of an opening, with no change yet and `history_limit` at most, and makes `seers` seers, one for each worker, which
    /// judge by the copies to which the Book publishes. `J` names the opening.
    ///
    /// `Err` hands the device back, which holds what the opening gave. The fault is `Memory`, when out of memory, or `Places`, when a
    /// worker or the history was given no place, which no run is known to meet.
    pub fn of(
        rt: R,
        alloc: Global,
        opening: Opening<D>,
        history_limit: usize,
        seers: usize,
    ) -> Result<(Book<D, J, Shower<J, R>>, Vec<Seer<J>>), (OpenFault, D)>
        requires name { IsNamed J.base J.history J.setting opening history_limit }
        requires low { 1 ≤ history_limit }
        requires high { history_limit ≤ 1_048_576 }
        requires seers { (0 < seers) × (seers ≤ 64) }
        ensures at { IfOk result (λ r. IsAt (begun (setting_of opening history_limit) opening.given) (world_book r.0)) }
        ensures device { IfOk result (λ r. r.0.disk ≡ opening.disk) }
        ensures size { IfOk result (λ r. r.0.size ≡ opening.size) }
        ensures generation { IfOk result (λ r. r.0.generation ≡ opening.generation) }
        ensures device_err { IfErr result (λ e. e.1 ≡ opening.disk) }
        ensures refused { IfErr result (λ e. IsUnshown e.0) }
        ensures seers { IfOk result (λ r. (length r.1.items ≡ seers) × All IsNewSeer r.1.items) }
        ensures copies { IfOk result (λ r. All (JudgesBy r.0.copies) r.1.items) }

        // If the device held what some world leaves, but for the epoch, the Book stands for that world with an opening at its end.
        ensures worlds { IfOk result (λ r. (first d : PlainDurable) (world : List Event) → IsWorld first world → state_after (down first) world ≡ down d
            → d.epoch < last_epoch → opening.given ≡ raised d
            → StandsFor first (world_book r.0) (world ++ opened (setting_of opening history_limit) ∷ [])) }
        ensures reached { IfOk result (λ r. IsReached J.base J.setting (world_book r.0)) }
        ensures folded { IfOk result (λ r. IsFolded (world_book r.0)) }
    {
        let named = opening.named::<J>()?;
        match views::<J, R>(rt, alloc, named.base(), named.start(), seers) {
            Ok((shower, all)) => {
                let book = Book::over(alloc, named, history_limit, shower)?;
                Ok((book, all))
            }
            Err(fault) => Err((unshown(fault), named.into_disk())),
        }
    }
}

impl<D: Disk + Drop, J: Chapter, S: Publisher<J> + Drop> Book<D, J, S> {
    /// Begins the history of an opening, with no change yet and `history_limit` at most, over a new publisher of this history, and
    /// publishes to its copies.
    ///
    /// `Err` hands the device back, which holds what the opening gave. The fault is `Memory`.
    pub fn over(
        alloc: Global,
        opening: NamedOpening<D, J>,
        history_limit: usize,
        shower: S,
    ) -> Result<Book<D, J, S>, (OpenFault, D)>
        requires name { IsNamed J.base J.history J.setting opening history_limit }
        requires low { 1 ≤ history_limit }
        requires high { history_limit ≤ 1_048_576 }
        requires new { IsNewShower (S.plain shower) }
        ensures at { IfOk result (λ b. IsAt (begun (setting_of opening history_limit) opening.given) (world_book b)) }
        ensures device { IfOk result (λ b. b.disk ≡ opening.disk) }
        ensures size { IfOk result (λ b. b.size ≡ opening.size) }
        ensures generation { IfOk result (λ b. b.generation ≡ opening.generation) }
        ensures copies { IfOk result (λ b. b.copies ≡ (S.plain shower).copies) }
        ensures device_err { IfErr result (λ e. e.1 ≡ opening.disk) }
        ensures refused { IfErr result (λ e. e.0 ≡ open_fault.Memory) }

        // If the device held what some world leaves, but for the epoch, the Book stands for that world with an opening at its end.
        ensures worlds { IfOk result (λ b. (first d : PlainDurable) (world : List Event) → IsWorld first world → state_after (down first) world ≡ down d
            → d.epoch < last_epoch → opening.given ≡ raised d
            → StandsFor first (world_book b) (world ++ opened (setting_of opening history_limit) ∷ [])) }
        ensures reached { IfOk result (λ b. IsReached J.base J.setting (world_book b)) }
        ensures folded { IfOk result (λ b. IsFolded (world_book b)) }
    {
        let NamedOpening {
            durable,
            store,
            tip,
            start,
        } = opening;
        let Ok(shared) = Arc::try_clone(&durable) else {
            return Err((OpenFault::Memory, store.into_disk()));
        };
        Ok(Book {
            alloc,
            store,
            core: Core::new(alloc, shared),
            durable,
            log: Vec::new(alloc),
            sizes: Vec::new(alloc),
            acked: 0,
            offered: 0,
            limit: history_limit,
            shower,
            tip,
            front: start,
        })
    }

    // Whether the history and the device have room for changes as one group, which leaves `next`. It makes no call of the device.
    fn refuse_if_full(&self, changes: &[Change], next: &Next) -> Result<(), Refusal>
        requires left { next.now.durable ≡ after self.now.whole.durable changes.now }
        requires group { is_group changes.now ≡ true }
        requires wanted { list_all can_be_wanted changes.now ≡ true }
        requires free { self.now.pending ≡ [] }
        ensures ok { OnOk result (BookHasRoom (world_book self.now) changes.now) }
        ensures found { OnOk result (FindsRoom self.now.size self.now.whole.durable next.now.durable changes.now) }
        ensures err { IfErr result (λ e. HasNoRoom e (world_book self.now) changes.now) }
        ensures device { UsesDevice D.Disk false self.now self.now
            (HoldsEither self.now.whole.durable (after self.now.whole.durable changes.now)) }
    {
        if self.log.len() + changes.len() > self.limit {
            return Err(Refusal::HistoryFull);
        }
        if !self
            .store
            .has_room(self.core.durable(), changes, next.after())
        {
            return Err(Refusal::Full);
        }
        Ok(())
    }

    // Saves changes as one group, for which the history and the device have room, and notes them in the history.
    fn save(&mut self, changes: &[Arc<Change>], next: Next) -> Result<(), Refusal>
        requires made { next ≡ left_together self.old.whole.durable (map arc_value changes.now) }
        requires fit { FollowInTurn self.old.whole.durable (made_all (map arc_value changes.now)) }
        requires room { BookHasRoom (world_book self.old) (map arc_value changes.now) }
        requires found { FindsRoom self.old.size self.old.whole.durable next.durable (map arc_value changes.now) }
        requires free { self.old.pending ≡ [] }
        ensures ok { OnOk result (IsMore (world_book self.old) (world_book self.new) (map arc_value changes.now)) }
        ensures err { IfErr result (λ e. IsUnkept e (world_book self.old) (world_book self.new) (map arc_value changes.now)) }
        ensures device { UsesDevice D.Disk (is_fault_result result) self.old self.new
            (HoldsEither self.old.whole.durable (after self.old.whole.durable (map arc_value changes.now))) }
        ensures still { IfErr result (λ e. is_fault e ≡ false → self.new.disk ≡ self.old.disk) }
    {
        let Copies {
            logged,
            noted,
            after,
        } = share_and_reserve(self.alloc, &mut self.log, &mut self.sizes, changes, &next)?;
        match self
            .store
            .save(self.alloc, self.core.durable(), changes, &after)
        {
            Ok(()) => {
                put_all(&mut self.log, logged);
                self.sizes.push_reserved(changes.len());
                note_all(&mut self.tip, noted, true);
                self.front = self.tip.front();
                self.acked += changes.len();
                self.core.accept(next);
                self.durable = after;
                Ok(())
            }
            Err(SaveFault::Memory) => Err(Refusal::Memory),
            Err(SaveFault::Full) => unreachable!(),
            Err(SaveFault::Fault) => {
                put_all(&mut self.log, logged);
                note_all(&mut self.tip, noted, false);
                Err(Refusal::Fault)
            }
            Err(SaveFault::Halted) => Err(Refusal::Halted),
        }
    }

    // Shows all that was acknowledged. Returns false when out of memory: then what is shown stays as it is.
    fn show_all(&mut self) -> bool
        ensures device { self.new.disk ≡ self.old.disk }
        ensures size { self.new.size ≡ self.old.size }
        ensures generation { self.new.generation ≡ self.old.generation }
        ensures shown { MatchBool result ((world_book self.new) ≡ shows_all (world_book self.old)) ((world_book self.new) ≡ (world_book self.old)) }
    {
        if !offer_rest(
            &mut self.shower,
            self.alloc,
            self.log.as_slice(),
            self.offered,
            self.acked,
            &self.durable,
            &self.front,
        ) {
            return false;
        }
        self.offered = self.acked;
        show_offered(&mut self.shower, &mut self.tip)
    }

    // Keeps changes that the core wants as one group, which leaves `next`, and shows them. Returns them for receipts, and whether they are
    // shown.
    fn make<C: ChangeGroup>(&mut self, changes: C, next: Next) -> Result<(C::Shared, bool), Refusal>
        requires { AreReady (world_book self.old) (C.items changes) next }
        ensures kept { KeepsTogether D.Disk self.old self.new (C.items changes) (shown_with result) }
        ensures given { IfOk result (λ r. C.shared_items r.0 ≡ C.items changes) }
    {
        self.refuse_if_full(changes.changes(), &next)?;
        let given = changes.share(self.alloc)?;
        self.save(C::shared(&given), next)?;
        let shown = self.show_all();
        Ok((given, shown))
    }

    // Answers what is asked of the history itself.
    fn answer_history(&mut self, command: HistoryCommand) -> Reply
        ensures device { self.new.disk ≡ self.old.disk }
        ensures size { self.new.size ≡ self.old.size }
        ensures generation { self.new.generation ≡ self.old.generation }
        ensures reported { AnswersHistory command result (world_book self.old) (world_book self.new) }
    {
        let acked = self.acked as u64;
        match command {
            HistoryCommand::Log => Reply::Answer(Answer::Logged {
                len: self.log.len() as u64,
                acked,
                shown: self.shower.len() as u64,
            }),
            HistoryCommand::Publish => {
                if self.show_all() {
                    Reply::Answer(Answer::Shown(acked))
                } else {
                    Reply::Refused(Refusal::Memory)
                }
            }
        }
    }

    // One call, whatever came before it in the opening. Returns the change that it made, if it was kept. What a command wants is made as a
    // group of it alone.
    fn call(&mut self, command: &Command) -> (Reply, Option<Arc<Change>>)
        ensures { IsCall D.Disk self.old self.new command.now result.0 (option_map arc_value result.1) }
    {
        if self.acked < self.log.len() && may_change(command) {
            return (Reply::Refused(Refusal::Halted), None);
        }
        let seq = (self.acked + 1) as u64;
        match self.core.step_ready(command) {
            Ok(ReadyStep::Done(answer)) => (Reply::Answer(answer), None),
            Ok(ReadyStep::Wants(change, next, outcome)) => match self.make(change, next) {
                Ok((given, shown)) => {
                    if shown {
                        (Reply::Applied { seq, outcome }, Some(given))
                    } else {
                        (Reply::Stored { seq, outcome }, Some(given))
                    }
                }
                Err(refusal) => (Reply::Refused(refusal), None),
            },
            Ok(ReadyStep::OfHistory(command)) => (self.answer_history(command), None),
            Err(refusal) => (Reply::Refused(refusal), None),
        }
    }

    /// One call. A change is saved before it is answered, and its number, from 1 on, is how many changes the history then has.
    ///
    /// `Applied`: the change is on the device, and shown with all before it. `Stored`: it is on the device but not shown yet, for want of
    /// memory. The refusals, in this order: `Halted`, if the device failed in an earlier call and the command may change something; the
    /// core's own; `HistoryFull`, if the history has as many changes as it may have; `Full`, exactly if a bank has no room for the change's
    /// record after a snapshot of what was kept before, or fewer than 64 bytes left after a snapshot of what is kept then; `Fault`, if a
    /// call of the device failed.
    ///
    /// `Memory` may come in place of any other reply. It never answers a judge, a test, a sum, a rollback, a `log`, a kill of what isn't
    /// there, a tick that would go back, or a `track` that is answered without a change or whose tick has come. Once the core has made what
    /// a change leaves, the two limits are tested before any more memory is taken. All memory but that for showing is taken before the
    /// device is written.
    ///
    /// An answer makes no call of the device. After every refusal but `Fault` all is as before. After `Fault` the change is in the history,
    /// not acknowledged, all else is as before, and each later command that may change something is `Halted`.
    pub fn run(&mut self, command: Command) -> Reply
        // The reply is legal in each world that the Book stood for, and the Book now stands for that world with this call at its end.
        ensures worlds { (first : PlainDurable) (world : List Event) → StandsFor first (world_book self.old) world →
            StandsFor first (world_book self.new) (world ++ called (call command result)
            (upshot self.new.shown (nat_lt (D.fault_count self.old.disk) (D.fault_count self.new.disk))) ∷ []) }
        ensures legal { (h : CurrentOpening) → IsAt h (world_book self.old)
            → LegalReply h command result (nat_lt (D.fault_count self.old.disk) (D.fault_count self.new.disk)) }

        // At each moment of the call, ten at most, an image holds what some crash within it leaves of the opening, with what a later opening
        // needs; and after it what a crash then leaves.
        ensures device { UsesDevice D.Disk (is_fault_reply result) self.old self.new (IsLeft (world_book self.old) (calling command)) }
        ensures images { (h : CurrentOpening) → IsAt h (world_book self.new) → (c : List ℕ)
            → IsImage (D.seen self.new.disk) (D.unsynced self.new.disk) c → HoldsLeft h idle c }

        // What is kept is the fold of all that was acknowledged, and what is shown is the fold of as many changes as are shown.
        ensures fold { self.new.whole.durable ≡ after self.new.base (flat self.new.acked) }
        ensures published { self.new.published ≡ after self.new.base (take self.new.shown (flat self.new.acked)) }
        ensures shown { self.new.shown ≡ shown_by result self.old.shown }
        ensures numbered { IsNumbered result (world_book self.new) }
        ensures judged { IsJudged self.old.whole.durable command result }
        ensures stays { StaysUnlessKept result self.old self.new }
        ensures opening { KeepsOpening self.old self.new }
    {
        let (reply, _) = self.call(&command);
        // reading a field makes the Book's invariant known here
        let _ = &self.core;
        reply
    }

    /// Between two calls each image of the device holds what a crash then leaves of the opening: with the next generation at most, and with
    /// room for another opening if what the last one gave leaves it. What is kept is the fold of all that was acknowledged. This holds of
    /// each Book at any time, and nothing is looked at.
    pub fn between_calls(&self)
        ensures images { (h : CurrentOpening) → IsAt h (world_book self.now) → (c : List ℕ)
            → IsImage (D.seen self.now.disk) (D.unsynced self.now.disk) c → HoldsLeft h idle c }
        ensures openable { IsOpenable D.seen D.unsynced self.now }
        ensures folded { IsFolded (world_book self.now) }
    {
        // reading a field makes the Book's invariant known here
        let _ = &self.core;
    }

    /// What happens to a packet, by what is kept: what `run` answers to a judge of it. The Book stands for the world with that call at its
    /// end. No command and no reply are made for it, since these take long to move. It changes nothing, and never runs out of memory.
    pub fn judge(&self, packet: &Packet) -> Verdict
        ensures worlds { (first : PlainDurable) (world : List Event) → StandsFor first (world_book self.now) world →
            StandsFor first (world_book self.now) (world ++ called (judging packet.now result) (upshot self.now.shown false) ∷ []) }
        ensures verdict { result ≡ verdict self.now.whole.durable packet.now }
    {
        self.core.durable().verdict(packet)
    }

    /// How many changes the history has.
    pub fn log_len(&self) -> usize
        ensures { result ≡ length (log_in (world_book self.now)) }
    {
        self.log.len()
    }

    /// The change with this number, from 1 on, or none if the history has fewer changes.
    pub fn change_at(&self, number: usize) -> Option<&Change>
        ensures { option_map (λ change. change.now) result ≡ change_in (log_in (world_book self.now)) number }
    {
        if number == 0 {
            return None;
        }
        match self.log.get(number - 1) {
            Some(change) => Some(&**change),
            None => None,
        }
    }

    /// Where its memory comes from.
    pub(crate) fn alloc(&self) -> Global {
        self.alloc
    }

    /// How many of the changes were acknowledged: all, or all but those of one call.
    pub fn acked(&self) -> usize
        ensures { result ≡ length (flat self.now.acked) }
    {
        self.acked
    }

    /// How many of the changes are shown to packet workers.
    pub fn shown(&self) -> usize
        ensures { result ≡ self.now.shown }
    {
        self.shower.len()
    }

    /// What is kept: what the opening gave, with all that was acknowledged since.
    pub fn durable(&self) -> &Durable
        ensures { result.now ≡ self.now.whole.durable }
    {
        self.core.durable()
    }

    /// The device.
    pub fn disk(&self) -> &D
        ensures { result.now ≡ self.now.disk }
    {
        self.store.disk()
    }

    /// Gives the device back as it is. Workers see nothing any more.
    pub fn into_disk(self) -> D
        ensures { result ≡ self.disk }
    {
        let Book {
            alloc: _,
            store,
            core: _,
            durable: _,
            log: _,
            sizes: _,
            acked: _,
            offered: _,
            limit: _,
            shower: _,
            tip: _,
            front: _,
        } = self;
        store.into_disk()
    }
}
