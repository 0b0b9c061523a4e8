//! Steps of commands.
ghost use Rattle.std.specs.{Prelude.{◌≡◌, List, IfOk, OnErr, true}, Arc.arc_value};
ghost use Rattle.pf_rule.specs.Packets.{PlainPacket};
ghost use Rattle.pf_ticket.specs.declared.entry.RulesetTicket.{RulesetTicket};
ghost use Rattle.pf_ticket.specs.{Mentions.{after, switches}, Tickets.{fresh, content}};
ghost use Rattle.pf_core.specs.declared.{command.Command.Command, command.Question.Question, command.Transaction.Transaction};
ghost use Rattle.pf_core.specs.declared.reply.Answer.TheVariants as answer;
ghost use Rattle.pf_core.specs.Commands.{item_of, items, commit_step, rollback_step, transact_step, answer_of, step_by};
ghost use Rattle.pf_core.specs.Commands.{transacts_in_memory, asks_for_memory, takes_memory, may_be_grouped};
ghost use Rattle.pf_core.specs.{Durable.Changes.verdict, Nexts.next_with, Refusals.OrMemory};
ghost use Rattle.pf_core.specs.Cores.{core_with, prepared, prepared_from, answered, stepped, plain, IsMade, IsMadeFrom};

use crate::command::{Command, Question, Transaction};
use crate::durable::{Change, Durable, Item};
use crate::next::Next;
use crate::reply::{Answer, Outcome, PlacedTables, Refusal, StateList};
use crate::state_command::change_states;
use crate::step::{ReadyStep, Step, wants};
use crate::table_edit::edit;
use pf_anchor::{Path, Placed};
use pf_state::failover::export;
use pf_ticket::{Offered, RulesetName, RulesetTicket, Tickets};
use std::alloc::{AllocError, Global};
use std::marker::Model;
use std::sync::Arc;

/// What is kept, and the open transactions. Contracts see it as a `PlainCore`.
#[derive(Drop)]
pub struct Core {
    alloc: Global,
    durable: Arc<Durable>,
    tickets: Tickets,
}

impl Model for Core {
    ghost use Rattle.std.specs.Arc.{arc_value};
    ghost use Rattle.pf_core.specs.Cores.{PlainCore, core_with};

    ghost Value = { PlainCore };

    ghost view = { λ c. core_with (arc_value c.durable) c.tickets };
}

// What replaces a ruleset: what is offered for it. No rule and no table is copied.
fn item_of(alloc: Global, name: &RulesetName, offered: Offered) -> Result<Item, AllocError>
    ensures { IfOk result (λ i. i ≡ item_of name.now offered) }
{
    let path = name.path.copied();
    match offered {
        Offered::Rules(rules) => Ok(Item::Rules(Placed::new(alloc, path, rules)?)),
        Offered::Tables(tables) => Ok(Item::Tables { path, tables }),
    }
}

// What a commit of these entries replaces, after changes that void these tickets.
fn take_items(
    alloc: Global,
    tickets: &Tickets,
    before: &[RulesetName],
    entries: &[RulesetTicket],
) -> Result<Vec<Item>, AllocError>
    ensures { IfOk result (λ v. v.items ≡ items (content (after tickets.now (switches before.now))) entries.now) }
{
    let mut taken = Vec::with_capacity(alloc, entries.len())?;
    for entry in entries {
        let offered = tickets.contents_after(before, &entry.name)?;
        taken.push(item_of(alloc, &entry.name, offered)?)?;
    }
    Ok(taken)
}

// The step of a commit, after changes that void these tickets.
fn commit(
    alloc: Global,
    durable: &Durable,
    tickets: &Tickets,
    before: &[RulesetName],
    entries: &[RulesetTicket],
) -> Result<ReadyStep, Refusal>
    ensures reply { OrMemory true (plain result) (commit_step (after tickets.now (switches before.now)) durable.now entries.now) }
    ensures made { IsMadeFrom (next_with durable.now before.now) result }
{
    tickets.check_all_after(before, entries)?;
    let items = take_items(alloc, tickets, before, entries)?;
    // the tickets' check has found that no name comes twice
    durable.check_limits(alloc, items.as_slice())?;
    let left = durable.committed(alloc, items.as_slice())?;
    let change = Change::commit(items);
    Ok(wants(alloc, before, change, left, Outcome::Committed)?)
}

// The step of a commit in a group, after changes that void these tickets.
fn commit_of(
    alloc: Global,
    durable: &Durable,
    tickets: &Tickets,
    before: &[RulesetName],
    transaction: &Transaction,
) -> Result<ReadyStep, Refusal>
    requires { may_be_grouped (Command.Transact transaction.now) ≡ true }
    ensures reply { OrMemory (transacts_in_memory transaction.now) (plain result)
        (transact_step (after tickets.now (switches before.now)) durable.now transaction.now) }
    ensures made { IsMadeFrom (next_with durable.now before.now) result }
{
    match transaction {
        Transaction::Commit(entries) => {
            commit(alloc, durable, tickets, before, entries.as_slice())
        }
        _ => unreachable!(),
    }
}

// A step of a transaction. If it wants a change, or is refused, the tickets are as before.
fn transact(
    alloc: Global,
    durable: &Durable,
    tickets: &mut Tickets,
    transaction: &Transaction,
) -> Result<ReadyStep, Refusal>
    ensures reply { OrMemory (transacts_in_memory transaction.now) (plain result) (transact_step tickets.old durable.now transaction.now) }
    ensures made { IsMade durable.now result }
    ensures tickets { tickets.new ≡ answered tickets.old (Command.Transact transaction.now) (plain result) }
    ensures rolled_back { (entries : List RulesetTicket) → transaction.now ≡ Transaction.Rollback entries → plain result ≡ rollback_step entries }
{
    match transaction {
        Transaction::Begin(names) => {
            let given = tickets.begin(names.as_slice())?;
            Ok(ReadyStep::Done(Answer::Given(given)))
        }
        Transaction::Add { path, ticket, rule } => {
            tickets.add_rule(path, *ticket, *rule)?;
            Ok(ReadyStep::Done(Answer::Done))
        }
        Transaction::Define {
            path,
            ticket,
            name,
            entries,
        } => {
            tickets.define_table(path, *ticket, name, entries.as_slice())?;
            Ok(ReadyStep::Done(Answer::Done))
        }
        Transaction::Extend {
            path,
            ticket,
            name,
            entries,
        } => {
            tickets.extend_table(path, *ticket, name, entries.as_slice())?;
            Ok(ReadyStep::Done(Answer::Done))
        }
        Transaction::Commit(entries) => commit(alloc, durable, tickets, &[], entries.as_slice()),
        Transaction::Rollback(entries) => {
            tickets.rollback(entries.as_slice())?;
            Ok(ReadyStep::Done(Answer::Done))
        }
    }
}

// The rules at a path, shared.
fn shown_rules(durable: &Durable, path: &Path) -> Result<Answer, AllocError>
    ensures { IfOk result (λ a. a ≡ answer_of durable.now (Question.ShowRules path.now)) }
{
    Ok(Answer::Rules(durable.config().rules_at(path)?))
}

// The tables at a path, shared.
fn shown_tables(alloc: Global, durable: &Durable, path: &Path) -> Result<Answer, AllocError>
    ensures { IfOk result (λ a. a ≡ answer_of durable.now (Question.ShowTables path.now)) }
{
    let tables = durable.config().tables_at(alloc, path)?;
    Ok(Answer::Tables(PlacedTables::new(tables)))
}

// The states, shared.
fn shown_states(alloc: Global, durable: &Durable) -> Result<Answer, AllocError>
    ensures { IfOk result (λ a. a ≡ answer_of durable.now Question.ShowStates) }
{
    let states = durable.states().listed(alloc)?;
    Ok(Answer::States(StateList::new(states)))
}

// The states as messages to a peer.
fn exported(alloc: Global, durable: &Durable) -> Result<Answer, AllocError>
    ensures { IfOk result (λ a. a ≡ answer_of durable.now Question.Export) }
{
    Ok(Answer::Exported(export(alloc, durable.states(), &durable.sum())?))
}

// The answer to a question. A judge, a test and a sum take no memory.
fn answer(alloc: Global, durable: &Durable, question: &Question) -> Result<Answer, AllocError>
    ensures value { IfOk result (λ a. a ≡ answer_of durable.now question.now) }
    ensures memory { OnErr result (asks_for_memory question.now ≡ true) }
    ensures judged { (packet : PlainPacket) → question.now ≡ Question.Judge packet →
        result ≡ Ok (answer.Judged (verdict durable.now packet)) }
{
    match question {
        Question::Judge(packet) => Ok(Answer::Judged(durable.verdict(packet))),
        Question::Test {
            path,
            name,
            address,
        } => Ok(Answer::Tested(durable.lookup(path, name, *address))),
        Question::ShowRules(path) => shown_rules(durable, path),
        Question::ShowTables(path) => shown_tables(alloc, durable, path),
        Question::ShowStates => shown_states(alloc, durable),
        Question::Sum => Ok(Answer::Sum(durable.sum())),
        Question::Export => exported(alloc, durable),
    }
}

// The step without what its change leaves.
fn alone(step: Result<ReadyStep, Refusal>) -> Result<Step, Refusal>
    ensures { result ≡ plain step }
{
    match step {
        Ok(ReadyStep::Done(answer)) => Ok(Step::Done(answer)),
        Ok(ReadyStep::Wants(change, _, outcome)) => Ok(Step::Wants(change, outcome)),
        Ok(ReadyStep::OfHistory(command)) => Ok(Step::OfHistory(command)),
        Err(refusal) => Err(refusal),
    }
}

impl Core {
    /// The core of what is kept, with no ticket given. It takes no memory.
    pub fn new(alloc: Global, durable: Arc<Durable>) -> Core
        ensures { result ≡ core_with (arc_value durable) (fresh (arc_value durable).epoch) }
    {
        let tickets = Tickets::new(alloc, durable.epoch());
        Core {
            alloc,
            durable,
            tickets,
        }
    }

    /// What is kept.
    pub fn durable(&self) -> &Durable
        ensures { result.now ≡ self.now.durable }
    {
        &self.durable
    }

    /// The step of one command. If it wants a change, is left to whoever keeps the history, or is refused, the core is as before. A judge,
    /// a test, a sum and a rollback take no memory, and neither does a `track` that is answered without a change or whose tick has come, a
    /// kill of what isn't there or a tick that would go back.
    ///
    /// The refusal is the first of these that holds. A begin: `BadCount`, `TooManyRulesets`, `TicketsExhausted`. An add of a rule: `Busy`,
    /// `RulesetFull`. A define: `Conflict`, `Busy`, `TableFull`, `TooManyTables`. An extend: `Conflict` among its entries, `Busy`,
    /// `Absent`, `Conflict` with what is offered, `TableFull`. A commit: `BadCount`, `Twice`, `Busy`, `TooManyRulesets`, `TooManyTables`. A
    /// rollback: `BadCount`, `Twice`. Entries that are added to a table or replace its own: `Conflict`, `TableFull`, `TooManyTables`.
    /// Entries that are deleted: `Conflict`, `Absent`. A table or a state that is killed: `Absent`. A tick: `BadTick`. A packet that is
    /// tracked: `BadTick`, and if a state is to be made of it `StatesFull`. A peer's message: `StatesFull`. A question, or what the history
    /// is asked: none. Out of memory, `Memory` may come before any of them.
    ///
    /// The core knows neither the history's limit nor its device nor what is shown. Whoever keeps the history answers `HistoryFull`, `Full`
    /// or `Fault` to a change that is wanted and isn't accepted, `Stored` to one that is accepted and can't be shown, and after a `Fault`
    /// `Halted`, without asking the core.
    pub fn step(&mut self, command: &Command) -> Result<Step, Refusal>
        ensures reply { OrMemory (takes_memory self.old.durable command.now) result
            (step_by self.old.tickets self.old.durable command.now) }
        ensures left { self.new ≡ stepped self.old command.now result }
        ensures judged { (packet : PlainPacket) → command.now ≡ Command.Ask (Question.Judge packet) →
            result ≡ Ok (Step.Done (answer.Judged (verdict self.old.durable packet))) }
        ensures rolled_back { (entries : List RulesetTicket) → command.now ≡ Command.Transact (Transaction.Rollback entries) →
            result ≡ rollback_step entries }
    {
        alone(self.step_ready(command))
    }

    /// The step of one command, as `step` gives it. With a change that it wants comes what the change leaves, as `prepare` would make it of
    /// the core as it is. If the step wants a change, is left to whoever keeps the history, or is refused, the core is as before.
    ///
    /// The refusal is the first of these that holds. A begin: `BadCount`, `TooManyRulesets`, `TicketsExhausted`. An add of a rule: `Busy`,
    /// `RulesetFull`. A define: `Conflict`, `Busy`, `TableFull`, `TooManyTables`. An extend: `Conflict` among its entries, `Busy`,
    /// `Absent`, `Conflict` with what is offered, `TableFull`. A commit: `BadCount`, `Twice`, `Busy`, `TooManyRulesets`, `TooManyTables`. A
    /// rollback: `BadCount`, `Twice`. Entries that are added to a table or replace its own: `Conflict`, `TableFull`, `TooManyTables`.
    /// Entries that are deleted: `Conflict`, `Absent`. A table or a state that is killed: `Absent`. A tick: `BadTick`. A packet that is
    /// tracked: `BadTick`, and if a state is to be made of it `StatesFull`. A peer's message: `StatesFull`. A question, or what the history
    /// is asked: none. Out of memory, also for what the change leaves, `Memory` may come before any of them.
    pub fn step_ready(&mut self, command: &Command) -> Result<ReadyStep, Refusal>
        ensures reply { OrMemory (takes_memory self.old.durable command.now) (plain result)
            (step_by self.old.tickets self.old.durable command.now) }
        ensures made { IsMade self.old.durable result }
        ensures left { self.new ≡ stepped self.old command.now (plain result) }
        ensures judged { (packet : PlainPacket) → command.now ≡ Command.Ask (Question.Judge packet) →
            plain result ≡ Ok (Step.Done (answer.Judged (verdict self.old.durable packet))) }
        ensures rolled_back { (entries : List RulesetTicket) → command.now ≡ Command.Transact (Transaction.Rollback entries) →
            plain result ≡ rollback_step entries }
    {
        let durable: &Durable = &self.durable;
        match command {
            Command::Transact(transaction) => {
                transact(self.alloc, durable, &mut self.tickets, transaction)
            }
            Command::Edit(table_edit) => edit(self.alloc, durable, &[], table_edit),
            Command::States(command) => change_states(self.alloc, durable, &[], command),
            Command::Ask(question) => Ok(ReadyStep::Done(answer(self.alloc, durable, question)?)),
            Command::History(command) => Ok(ReadyStep::OfHistory(*command)),
        }
    }

    /// Makes what a change leaves. The core stays as it is.
    ///
    /// The refusal is the first of these that holds: `Twice` for a commit that names a ruleset or a table twice; `Conflict` for a list that
    /// names a network with both signs; `BadTick` for a step that inserts a state that is due, and for a tick below the present one;
    /// `TableFull`; `TooManyRulesets`, `TooManyTables`; `StatesFull`. A change that a step of this core wants is refused for none of these.
    /// Out of memory, `Memory` may come before any of them.
    pub fn prepare(&self, change: &Change) -> Result<Next, Refusal>
        ensures { OrMemory true result (prepared self.now.durable change.now) }
    {
        let applied = self.durable().apply(self.alloc, change)?;
        Ok(Next::new(self.alloc, &[], change, applied)?)
    }

    /// The step of a later command of a group, as `step` would give it after what the earlier ones left was accepted. The core stays as it
    /// is, and has to be the one that `before` was prepared of. The command has to be one that a group may have: a commit, an edit of a
    /// table, or a command of states.
    ///
    /// The refusal is the first of these that holds. A commit: `BadCount`, `Twice`, `Busy`, `TooManyRulesets`, `TooManyTables`. Entries
    /// that are added to a table or replace its own: `Conflict`, `TableFull`, `TooManyTables`. Entries that are deleted: `Conflict`,
    /// `Absent`. A table or a state that is killed: `Absent`. A tick: `BadTick`. A packet that is tracked: `BadTick`, and if a state is to
    /// be made of it `StatesFull`. A peer's message: `StatesFull`. Out of memory, `Memory` may come before any of them.
    pub fn step_from(&self, before: &Next, later: &Command) -> Result<Step, Refusal>
        requires { may_be_grouped later.now ≡ true }
        ensures { OrMemory (takes_memory before.now.durable later.now) result
            (step_by (after self.now.tickets (switches before.now.voided)) before.now.durable later.now) }
    {
        alone(self.step_ready_from(before, later))
    }

    /// The step of a later command of a group, as `step_from` gives it. With a change that it wants comes what this change and the earlier
    /// ones leave, as `prepare_from` would make it. The core stays as it is, and has to be the one that `before` was prepared of. The
    /// command has to be one that a group may have: a commit, an edit of a table, or a command of states.
    ///
    /// The refusal is the first of these that holds. A commit: `BadCount`, `Twice`, `Busy`, `TooManyRulesets`, `TooManyTables`. Entries
    /// that are added to a table or replace its own: `Conflict`, `TableFull`, `TooManyTables`. Entries that are deleted: `Conflict`,
    /// `Absent`. A table or a state that is killed: `Absent`. A tick: `BadTick`. A packet that is tracked: `BadTick`, and if a state is to
    /// be made of it `StatesFull`. A peer's message: `StatesFull`. Out of memory, also for what the change leaves, `Memory` may come before
    /// any of them.
    pub fn step_ready_from(&self, before: &Next, later: &Command) -> Result<ReadyStep, Refusal>
        requires { may_be_grouped later.now ≡ true }
        ensures reply { OrMemory (takes_memory before.now.durable later.now) (plain result)
            (step_by (after self.now.tickets (switches before.now.voided)) before.now.durable later.now) }
        ensures made { IsMadeFrom before.now result }
    {
        let durable: &Durable = &before.durable;
        let voided = before.voided.as_slice();
        match later {
            Command::Transact(transaction) => {
                commit_of(self.alloc, durable, &self.tickets, voided, transaction)
            }
            Command::Edit(table_edit) => edit(self.alloc, durable, voided, table_edit),
            Command::States(command) => change_states(self.alloc, durable, voided, command),
            _ => unreachable!(),
        }
    }

    /// Makes what a change leaves after the earlier ones of a group: to accept it is to accept them all. The core stays as it is. The
    /// refusals are those of `prepare`, of what the earlier ones left.
    pub fn prepare_from(&self, before: &Next, change: &Change) -> Result<Next, Refusal>
        ensures { OrMemory true result (prepared_from before.now change.now) }
    {
        let applied = before.durable.apply(self.alloc, change)?;
        Ok(Next::new(self.alloc, before.voided.as_slice(), change, applied)?)
    }

    /// Puts in place what was prepared of this core as it is. It takes no memory.
    pub fn accept(&mut self, next: Next)
        ensures { self.new ≡ core_with next.durable (after self.old.tickets (switches next.voided)) }
    {
        let Next { durable, voided } = next;
        self.durable = durable;
        self.tickets.take_all(voided.as_slice());
    }
}
