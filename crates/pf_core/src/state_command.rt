//! Changes of states: which change each one wants, and its outcome.
ghost use Rattle.std.specs.Prelude.{◌≡◌, ◌∷◌, [], ◌||◌, length, not, true, IfOk};
ghost use Rattle.pf_anchor.specs.Rulesets.{rules_at};
ghost use Rattle.pf_state.specs.declared.step.StateStep.TheVariants as step_kind;
ghost use Rattle.pf_core.specs.Durable.Changes.{verdict};
ghost use Rattle.pf_core.specs.Commands.{bound_here, makes_state, make_step, judge_step, track_step, expiry_of, is_past, steps_here};
ghost use Rattle.pf_core.specs.Commands.{states_step, is_done, changes_states_in_memory};
ghost use Rattle.pf_core.specs.{Nexts.next_with, Refusals.OrMemory, Cores.{plain, IsMadeFrom}};

use crate::command::StateCommand;
use crate::durable::{Change, Durable, Verdict};
use crate::reply::{Answer, Outcome, Refusal};
use crate::step::{ReadyStep, wants};
use pf_anchor::{Path, RuleVerdict};
use pf_rule::{Action, Packet};
use pf_state::failover::steps_of;
use pf_state::peer::Message;
use pf_state::{Bound, Flow, Held, State, StateName, StateStep, StepList};
use pf_ticket::RulesetName;
use std::alloc::{AllocError, Global};

// The rule that a state is bound to if the rule of this path and number makes it.
fn bound_here(durable: &Durable, path: &Path, number: u32) -> Bound
    ensures { result ≡ bound_here durable.now path.now number }
{
    if path.as_bytes().is_empty() {
        Bound::Rule {
            number,
            sum: durable.sum(),
        }
    } else {
        Bound::Default
    }
}

// The rule that the new state is bound to if the rules say this of its packet; `None` if no state is made.
fn makes_state(durable: &Durable, by: &RuleVerdict) -> Option<Bound>
    ensures { result ≡ makes_state durable.now by.now }
{
    match by {
        RuleVerdict::Rule {
            path,
            number,
            action: Action::Pass { keeps_state: true },
        } => Some(bound_here(durable, path, *number)),
        _ => None,
    }
}

// The steps that insert a state.
fn insert(alloc: Global, name: StateName, held: Held) -> Result<StepList, AllocError>
    ensures { IfOk result (λ l. l ≡ step_kind.Insert (name, held) ∷ []) }
{
    let mut steps = Vec::new(alloc);
    steps.push(StateStep::Insert(State::new(alloc, name, held)?))?;
    Ok(StepList::new(steps))
}

// Makes a state, unless its name is taken.
fn make(
    alloc: Global,
    durable: &Durable,
    before: &[RulesetName],
    by: RuleVerdict,
    name: StateName,
    held: Held,
) -> Result<ReadyStep, Refusal>
    ensures reply { let due = make_step durable.now by (name, held) in OrMemory (not (is_done due)) (plain result) due }
    ensures made { IsMadeFrom (next_with durable.now before.now) result }
{
    if durable.states().held_at(name).is_some() {
        return Ok(ReadyStep::Done(Answer::Stale(by)));
    }
    let steps = insert(alloc, name, held)?;
    let (states, _) = durable.with_stepped(alloc, steps.as_slice())?;
    let left = durable.with_states(alloc, states)?;
    let change = Change::states(steps);
    Ok(wants(alloc, before, change, left, Outcome::Tracked(by))?)
}

// Judges a packet, and makes its state, with this expiry, if a rule says so.
fn judge(
    alloc: Global,
    durable: &Durable,
    before: &[RulesetName],
    name: StateName,
    packet: &Packet,
    expiry: u64,
) -> Result<ReadyStep, Refusal>
    ensures reply { let due = judge_step durable.now name packet.now expiry (verdict durable.now packet.now) in OrMemory (not (is_done due)) (plain result) due }
    ensures made { IsMadeFrom (next_with durable.now before.now) result }
{
    let by = match durable.verdict(packet) {
        Verdict::Rules(by) => by,
        state => return Ok(ReadyStep::Done(Answer::Judged(state))),
    };
    let Some(bound) = makes_state(durable, &by) else {
        return Ok(ReadyStep::Done(Answer::Judged(Verdict::Rules(by))));
    };
    let held = Held {
        expiry,
        generation: 0,
        flow: Flow::of(packet),
        bound,
    };
    make(alloc, durable, before, by, name, held)
}

// Whether the tick until which a packet is to be tracked has come.
fn is_past(durable: &Durable, until: Option<u64>) -> bool
    ensures { result ≡ is_past durable.now until }
{
    match until {
        Some(expiry) => expiry <= durable.tick(),
        None => false,
    }
}

// Tracks a packet until a tick, or for ever.
fn track(
    alloc: Global,
    durable: &Durable,
    before: &[RulesetName],
    name: StateName,
    packet: &Packet,
    until: Option<u64>,
) -> Result<ReadyStep, Refusal>
    ensures reply { let due = track_step durable.now name packet.now until in
        OrMemory (not (is_past durable.now until || is_done due)) (plain result) due }
    ensures made { IsMadeFrom (next_with durable.now before.now) result }
{
    if is_past(durable, until) {
        return Err(Refusal::BadTick);
    }
    judge(alloc, durable, before, name, packet, until.unwrap_or(0))
}

// What a peer's message does to the states here.
fn steps_here(alloc: Global, durable: &Durable, message: &Message) -> Result<StepList, AllocError>
    ensures { IfOk result (λ l. l ≡ steps_here durable.now message.now) }
{
    let main_rules = durable.config().rules_at(&Path::main())?;
    steps_of(alloc, message, &durable.sum(), main_rules.as_slice().len())
}

// The step of a peer's message.
fn follow(
    alloc: Global,
    durable: &Durable,
    before: &[RulesetName],
    message: &Message,
) -> Result<ReadyStep, Refusal>
    ensures reply { OrMemory true (plain result) (states_step durable.now (StateCommand.Peer message.now)) }
    ensures made { IsMadeFrom (next_with durable.now before.now) result }
{
    let steps = steps_here(alloc, durable, message)?;
    let (states, counts) = durable.with_stepped(alloc, steps.as_slice())?;
    let left = durable.with_states(alloc, states)?;
    let change = Change::states(steps);
    Ok(wants(alloc, before, change, left, Outcome::Peered(counts))?)
}

// The step that takes a state out.
fn kill(
    alloc: Global,
    durable: &Durable,
    before: &[RulesetName],
    name: StateName,
) -> Result<ReadyStep, Refusal>
    ensures reply { let killed = StateCommand.Kill name in
        OrMemory (changes_states_in_memory durable.now killed) (plain result) (states_step durable.now killed) }
    ensures made { IsMadeFrom (next_with durable.now before.now) result }
{
    if durable.states().held_at(name).is_none() {
        return Err(Refusal::Absent);
    }
    let states = durable.without_state(alloc, name)?;
    let left = durable.with_states(alloc, states)?;
    let change = Change::remove(name);
    Ok(wants(alloc, before, change, left, Outcome::Killed)?)
}

// The step of a tick.
fn expire(
    alloc: Global,
    durable: &Durable,
    before: &[RulesetName],
    tick: u64,
) -> Result<ReadyStep, Refusal>
    ensures reply { let expired = StateCommand.Expire tick in
        OrMemory (changes_states_in_memory durable.now expired) (plain result) (states_step durable.now expired) }
    ensures made { IsMadeFrom (next_with durable.now before.now) result }
{
    let (left, expired) = durable.at_tick(alloc, tick)?;
    let change = Change::expire(tick);
    Ok(wants(alloc, before, change, left, Outcome::Expired(expired))?)
}

// The step of a change of states, after changes that void these tickets.
pub(crate) fn change_states(
    alloc: Global,
    durable: &Durable,
    before: &[RulesetName],
    command: &StateCommand,
) -> Result<ReadyStep, Refusal>
    ensures reply { OrMemory (changes_states_in_memory durable.now command.now) (plain result) (states_step durable.now command.now) }
    ensures made { IsMadeFrom (next_with durable.now before.now) result }
{
    match command {
        StateCommand::Track {
            name,
            packet,
            until,
        } => track(alloc, durable, before, *name, packet, *until),
        StateCommand::Peer(message) => follow(alloc, durable, before, message),
        StateCommand::Kill(name) => kill(alloc, durable, before, *name),
        StateCommand::Expire(tick) => expire(alloc, durable, before, *tick),
    }
}
