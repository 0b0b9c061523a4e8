//! Public calls that no line comes to, each once and with enough memory; and that values cross threads.
use crate::tally::Tally;
use pf_addr::path::TableName;
use pf_addr::{Addr, Net};
use pf_anchor::{Config, Path, RuleList};
use pf_core::{Change, Command, Durable, Reply};
use pf_rule::{Packet, Rule};
use pf_state::{Bound, Counts, Flow, Held, State, StateName, StateStep, StateTable};
use pf_table::{Entry, Table};
use pf_ticket::{RulesetName, RulesetTicket, Ticket, TicketRange, TicketRefusal, Tickets};
use std::alloc::Global;
use std::io::{self, ErrorKind};

// What a call gives that doesn't fail.
fn given<T: Drop, E: Drop>(outcome: Result<T, E>) -> io::Result<T> {
    match outcome {
        Ok(value) => Ok(value),
        Err(_) => Err(io::Error::from(ErrorKind::InvalidData)),
    }
}

fn packet_of(alloc: Global, text: &str) -> io::Result<Packet> {
    given(Packet::parse(alloc, text))
}

fn rule_of(alloc: Global, text: &str) -> io::Result<Rule> {
    given(Rule::parse(alloc, text))
}

fn path_of(text: &[u8]) -> io::Result<Path> {
    given(Path::from_ascii(text))
}

// Texts that are read and written by themselves, not as part of a line.
fn read_and_write(alloc: Global, tally: &mut Tally) -> io::Result<()> {
    let packet = packet_of(alloc, "in em0 tcp 10.0.0.1 1234 10.0.0.2 80")?;
    tally.hold("a packet is read", packet.destination_port() == 80)?;
    let mut out = Vec::new(alloc);
    rule_of(alloc, "block drop in")?.write(&mut out)?;
    tally.hold(
        "a rule is written",
        out.as_slice() == b"block in all".as_slice(),
    )?;
    Ok(())
}

fn one_rule(alloc: Global) -> io::Result<RuleList> {
    let mut rules = RuleList::none();
    rules.add(alloc, rule_of(alloc, "pass all")?)?;
    Ok(rules)
}

fn one_entry(alloc: Global) -> io::Result<Table> {
    let entry = Entry::new(given(Net::parse("10.0.0.0/8"))?, false);
    let mut table = Table::empty();
    given(table.replace(alloc, &[entry]))?;
    Ok(table)
}

// A config with rules at `a/b/c` alone, and with the table `web` at `a/b`.
fn nested(alloc: Global) -> io::Result<Config> {
    let rules = one_rule(alloc)?;
    let table = one_entry(alloc)?;
    let ruled = given(Config::empty().with_ruleset(alloc, &path_of(b"a/b/c")?, &rules))?;
    let name = given(TableName::from_ascii(b"web"))?;
    given(ruled.with_table(alloc, &path_of(b"a/b")?, &name, &table))
}

// A child has one component more than its parent.
fn has_child(alloc: Global, config: &Config) -> io::Result<bool> {
    let children = config.children(alloc, &path_of(b"a/b")?)?;
    match children.as_slice() {
        [child] => Ok(child.as_bytes() == b"a/b/c".as_slice()),
        _ => Ok(false),
    }
}

fn has_no_child(alloc: Global, config: &Config, path: &[u8]) -> io::Result<bool> {
    Ok(config.children(alloc, &path_of(path)?)?.is_empty())
}

fn has_address(config: &Config) -> io::Result<bool> {
    let name = given(TableName::from_ascii(b"web"))?;
    match config.table_at(&path_of(b"a/b")?, &name) {
        Some(table) => Ok(table.test(Addr::V4(0x0a01_0203))),
        None => Ok(false),
    }
}

// Rules and tables are put at their paths.
fn put_at_paths(alloc: Global, tally: &mut Tally) -> io::Result<()> {
    let config = nested(alloc)?;
    tally.hold("a path has its child", has_child(alloc, &config)?)?;
    tally.hold("a path above has none", has_no_child(alloc, &config, b"a")?)?;
    tally.hold(
        "a path below has none",
        has_no_child(alloc, &config, b"a/b/c")?,
    )?;
    tally.hold("a table has its address", has_address(&config)?)?;
    Ok(())
}

// An insert of a state for this packet.
fn insert(alloc: Global, id: u64, packet: &str) -> io::Result<StateStep> {
    let packet = packet_of(alloc, packet)?;
    let held = Held {
        expiry: 0,
        generation: 0,
        flow: Flow::of(&packet),
        bound: Bound::Default,
    };
    let name = StateName { id, creator: 2 };
    Ok(StateStep::Insert(State::new(alloc, name, held)?))
}

// What inserts of two states of one flow come to.
fn insert_two(alloc: Global, states: &mut StateTable) -> io::Result<Counts> {
    let first = insert(alloc, 1, "in em0 tcp 10.0.0.1 1234 10.0.0.2 80")?;
    let answer = insert(alloc, 3, "out em0 tcp 10.0.0.2 80 10.0.0.1 1234")?;
    given(states.apply_batch(alloc, &[first, answer]))
}

// States change in place.
fn change_states(alloc: Global, tally: &mut Tally) -> io::Result<()> {
    let mut states = StateTable::empty();
    let counts = insert_two(alloc, &mut states)?;
    let is_one = (counts.inserted, counts.clash) == (1, 1);
    tally.hold("of two states of one flow one is inserted", is_one)?;
    let cleared = states.clear_creator(alloc, 2)? == 1;
    tally.hold("a creator's states are cleared", cleared)?;
    tally.hold("no state is left", states.states().next().is_none())?;
    Ok(())
}

/// The last ticket of opening 1.
const LAST: Ticket = Ticket {
    epoch: 1,
    count: u32::MAX,
};

// Whether all tickets are given: none is given for these names.
fn is_exhausted(tickets: &mut Tickets, names: &[RulesetName]) -> bool {
    tickets.begin(names) == Err(TicketRefusal::TicketsExhausted)
}

// Whether the last ticket is given for these names.
fn gives_last(tickets: &mut Tickets, names: &[RulesetName]) -> bool {
    let last = TicketRange {
        first: LAST,
        number: 1,
    };
    tickets.begin(names) == Ok(last)
}

// Whether the last ticket is main's.
fn has_last(tickets: &Tickets) -> bool {
    let entry = RulesetTicket {
        name: RulesetName::filter(&Path::main()),
        ticket: LAST,
    };
    tickets.check_all([entry].as_slice()) == Ok(())
}

// The last ticket is given once.
fn give_last(alloc: Global, tally: &mut Tally) -> io::Result<()> {
    let main = RulesetName::filter(&Path::main());
    let names = [main, RulesetName::filter(&path_of(b"web")?)];
    let two = names.as_slice();
    let mut tickets = Tickets::starting(alloc, LAST.epoch, LAST.count);
    // Asked for two tickets, it doesn't even give the one that is left.
    tally.hold("two aren't given", is_exhausted(&mut tickets, two))?;
    tally.hold("the last is given", gives_last(&mut tickets, &two[..1]))?;
    // No other is left, and this one stays valid.
    tally.hold("it is given once", is_exhausted(&mut tickets, &two[1..]))?;
    tally.hold("it stays valid", has_last(&tickets))?;
    Ok(())
}

fn crosses_threads<T: Send + Sync>() {}

// Values cross threads, or this isn't taken.
fn cross_threads() {
    crosses_threads::<Change>();
    crosses_threads::<Durable>();
    crosses_threads::<Command>();
    crosses_threads::<Reply>();
}

/// Makes each of the calls.
pub(crate) fn call_each(alloc: Global) -> io::Result<Tally> {
    let mut tally = Tally::none(alloc);
    read_and_write(alloc, &mut tally)?;
    put_at_paths(alloc, &mut tally)?;
    change_states(alloc, &mut tally)?;
    give_last(alloc, &mut tally)?;
    cross_threads();
    Ok(tally)
}
