//! Commands on tables that no line can carry: lists without entries, and lists longer than a line.
use crate::tally::Tally;
use pf_addr::path::TableName;
use pf_addr::{Addr, Net};
use pf_anchor::Path;
use pf_core::{
    Command, Core, Durable, EntryList, ReadyStep, Refusal, Reply, TableEdit, Transaction,
};
use pf_line::write_reply;
use pf_table::{Entry, TABLE_LIMIT};
use pf_ticket::{RulesetName, RulesetNames, RulesetTicket, RulesetTickets, Ticket};
use std::alloc::{AllocError, Global};
use std::io::{self, ErrorKind};
use std::sync::Arc;

/// What is done with some entries, on the main ruleset's table `banned`.
#[derive(Clone, Copy)]
enum Deed {
    /// Gives the first ticket, under which they can be offered.
    Begin,
    Define,
    Extend,
    Commit,
    Set,
    Add,
    Delete,
}

/// Each deed in turn, with how many addresses, from the first on, each as a network of its own; and its reply.
const ROWS: &[(Deed, usize, &str)] = &[
    // Nothing is added to a table that isn't there, and it still isn't there afterwards.
    (Deed::Add, 0, "applied 1 added 0 same 0 conflict 0\n"),
    (Deed::Delete, 0, "err absent\n"),
    (Deed::Set, 1, "applied 2\n"),
    (Deed::Add, 0, "applied 3 added 0 same 0 conflict 0\n"),
    (Deed::Delete, 0, "applied 4 deleted 0 absent 0\n"),
    (Deed::Set, TABLE_LIMIT + 1, "err table\n"),
    (Deed::Set, TABLE_LIMIT, "applied 5\n"),
    (Deed::Add, TABLE_LIMIT + 1, "err table\n"),
    (
        Deed::Add,
        TABLE_LIMIT,
        "applied 6 added 0 same 65536 conflict 0\n",
    ),
    (Deed::Set, 1, "applied 7\n"),
    (Deed::Begin, 0, "ok 1.1\n"),
    (Deed::Extend, 1, "err absent\n"),
    (Deed::Define, TABLE_LIMIT + 1, "err table\n"),
    (Deed::Define, TABLE_LIMIT, "ok\n"),
    (Deed::Define, 1, "ok\n"),
    (Deed::Extend, 0, "ok\n"),
    (Deed::Extend, TABLE_LIMIT + 1, "err table\n"),
    (Deed::Extend, TABLE_LIMIT, "ok\n"),
    (Deed::Extend, TABLE_LIMIT + 1, "err table\n"),
    (Deed::Commit, 0, "applied 8\n"),
    (
        Deed::Add,
        TABLE_LIMIT,
        "applied 9 added 0 same 65536 conflict 0\n",
    ),
];

fn networks(alloc: Global, count: usize) -> Result<EntryList, AllocError> {
    let mut entries = Vec::with_capacity(alloc, count)?;
    for number in (0..u32::MAX).take(count) {
        entries.push(Entry::new(Net::new(Addr::V4(number), 32), false))?;
    }
    Ok(EntryList::new(entries))
}

/// The tables of the main ruleset.
fn main_tables(alloc: Global) -> Result<RulesetNames, AllocError> {
    let mut names = Vec::new(alloc);
    names.push(RulesetName::table(&Path::main()))?;
    Ok(RulesetNames::new(names))
}

/// The first ticket, as one for these tables.
fn first_ticket(alloc: Global) -> Result<RulesetTickets, AllocError> {
    let mut tickets = Vec::new(alloc);
    tickets.push(RulesetTicket {
        name: RulesetName::table(&Path::main()),
        ticket: Ticket { epoch: 1, count: 1 },
    })?;
    Ok(RulesetTickets::new(tickets))
}

fn command(
    deed: Deed,
    name: TableName,
    entries: EntryList,
    tables: RulesetNames,
    tickets: RulesetTickets,
) -> Command {
    let path = Path::main();
    let ticket = Ticket { epoch: 1, count: 1 };
    match deed {
        Deed::Begin => Command::Transact(Transaction::Begin(tables)),
        Deed::Define => Command::Transact(Transaction::Define {
            path,
            ticket,
            name,
            entries,
        }),
        Deed::Extend => Command::Transact(Transaction::Extend {
            path,
            ticket,
            name,
            entries,
        }),
        Deed::Commit => Command::Transact(Transaction::Commit(tickets)),
        Deed::Set => Command::Edit(TableEdit::Set {
            path,
            name,
            entries,
        }),
        Deed::Add => Command::Edit(TableEdit::Add {
            path,
            name,
            entries,
        }),
        Deed::Delete => Command::Edit(TableEdit::Delete {
            path,
            name,
            entries,
        }),
    }
}

/// The command of a row.
fn command_of(alloc: Global, deed: Deed, count: usize) -> io::Result<Command> {
    let Ok(name) = TableName::from_ascii(b"banned") else {
        return Err(io::Error::from(ErrorKind::InvalidData));
    };
    let entries = networks(alloc, count)?;
    let tables = main_tables(alloc)?;
    let tickets = first_ticket(alloc)?;
    Ok(command(deed, name, entries, tables, tickets))
}

/// The reply to a command. A change that it wants is kept, and is the one after so many others.
fn answer(core: &mut Core, command: &Command, changes: &mut u64) -> Reply {
    match core.step_ready(command) {
        Ok(ReadyStep::Done(answer)) => Reply::Answer(answer),
        Ok(ReadyStep::Wants(_change, next, outcome)) => {
            core.accept(next);
            *changes = changes.saturating_add(1);
            Reply::Applied {
                seq: *changes,
                outcome,
            }
        }
        // no row has a command of the history
        Ok(ReadyStep::OfHistory(_)) => Reply::Refused(Refusal::Halted),
        Err(refusal) => Reply::Refused(refusal),
    }
}

// The bytes of a reply.
fn text_of(alloc: Global, reply: &Reply) -> io::Result<Vec<u8>> {
    let mut text = Vec::new(alloc);
    write_reply(&mut text, reply)?;
    Ok(text)
}

// What is told to a row's command.
fn client_reply(
    alloc: Global,
    core: &mut Core,
    deed: Deed,
    count: usize,
    changes: &mut u64,
) -> io::Result<Vec<u8>> {
    let command = command_of(alloc, deed, count)?;
    text_of(alloc, &answer(core, &command, changes))
}

// What runs commands, with nothing kept.
fn fresh(alloc: Global) -> Result<Core, AllocError> {
    let durable = Arc::new(alloc, Durable::empty(alloc, 1)?)?;
    Ok(Core::new(alloc, durable))
}

/// Runs all rows in turn.
pub(crate) fn run_each(alloc: Global) -> io::Result<Tally> {
    let mut tally = Tally::none(alloc);
    let mut core = fresh(alloc)?;
    let mut changes = 0;
    for (deed, count, wanted) in ROWS {
        let reported = client_reply(alloc, &mut core, *deed, *count, &mut changes)?;
        tally.hold(wanted.trim_end(), reported.as_slice() == wanted.as_bytes())?;
    }
    Ok(tally)
}
