//! What a command may change, in short.
ghost use Rattle.std.specs.Prelude.{◌≡◌, min, ◌==◌, if◌then◌else◌};
ghost use Rattle.std.specs.List.{sum_by};
ghost use Rattle.pf_addr.specs.{Path.Paths.path_text, Writing.Continues};
ghost use Rattle.pf_state.specs.Laws.Failover.{record_count};
ghost use Rattle.pfd.specs.Log.{commit_of, count_text, deed_in, deed_of_edit, deed_of_states, deed_text, edit_text, kind_text, named_text, others_text, table_text, ticket_text};

use pf_addr::path::TableName;
use pf_addr::{write_more, write_more_number};
use pf_anchor::Path;
use pf_core::{Command, StateCommand, TableEdit, Transaction};
use pf_state::StateName;
use pf_state::peer::{Group, Message};
use pf_ticket::{RulesetKind, RulesetName, RulesetTicket, RulesetTickets, Ticket};
use std::io::{self, Write};

/// What a command may change, in short. It owns no memory.
#[derive(Drop)]
pub(crate) enum Deed {
    /// A commit of this ruleset, and of so many others behind it.
    Commit {
        name: RulesetName,
        ticket: Ticket,
        others: usize,
    },
    /// So many entries for a table.
    Add {
        path: Path,
        name: TableName,
        entries: usize,
    },
    /// So many entries out of a table.
    Delete {
        path: Path,
        name: TableName,
        entries: usize,
    },
    /// So many entries in place of a table's.
    Set {
        path: Path,
        name: TableName,
        entries: usize,
    },
    /// The end of a table.
    KillTable {
        path: Path,
        name: TableName,
    },
    /// A packet, for which a state of this name may be made.
    Track(StateName),
    /// So many records of a peer.
    Peer(usize),
    /// The end of a state.
    KillState(StateName),
    /// A tick.
    Expire(u64),
}

/// What a command may change. `None`: nothing that is kept.
pub(crate) fn deed_in(command: &Command) -> Option<Deed>
    ensures { result ≡ deed_in command.now }
{
    match command {
        Command::Transact(Transaction::Commit(entries)) => commit_of(entries),
        Command::Edit(edit) => Some(deed_of_edit(edit)),
        Command::States(states) => Some(deed_of_states(states)),
        Command::Transact(_) | Command::Ask(_) | Command::History(_) => None,
    }
}

fn commit_of(entries: &RulesetTickets) -> Option<Deed>
    ensures { result ≡ commit_of entries.now }
{
    match entries.as_slice() {
        [] => None,
        [first, others @ ..] => Some(Deed::Commit {
            name: first.name.copied(),
            ticket: first.ticket,
            others: others.len(),
        }),
    }
}

fn deed_of_edit(edit: &TableEdit) -> Deed
    ensures { result ≡ deed_of_edit edit.now }
{
    match edit {
        TableEdit::Add {
            path,
            name,
            entries,
        } => Deed::Add {
            path: path.copied(),
            name: *name,
            entries: entries.as_slice().len(),
        },
        TableEdit::Delete {
            path,
            name,
            entries,
        } => Deed::Delete {
            path: path.copied(),
            name: *name,
            entries: entries.as_slice().len(),
        },
        TableEdit::Set {
            path,
            name,
            entries,
        } => Deed::Set {
            path: path.copied(),
            name: *name,
            entries: entries.as_slice().len(),
        },
        TableEdit::Kill { path, name } => Deed::KillTable {
            path: path.copied(),
            name: *name,
        },
    }
}

fn deed_of_states(states: &StateCommand) -> Deed
    ensures { result ≡ deed_of_states states.now }
{
    match states {
        StateCommand::Track { name, .. } => Deed::Track(*name),
        StateCommand::Peer(message) => Deed::Peer(records_in(message)),
        StateCommand::Kill(name) => Deed::KillState(*name),
        StateCommand::Expire(tick) => Deed::Expire(*tick),
    }
}

// How many records a message has. It has fewer than 65,536 where bytes were read.
#[tactic(auto, using(std::proofs::lemmas::List::Sums::sum_by_more))]
fn records_in(message: &Message) -> usize
    ensures { result ≡ min (sum_by record_count message.now.groups) 18446744073709551615 }
{
    let groups = message.groups.as_slice();
    let mut records: usize = 0;
    for group in groups {
        records = records.saturating_add(records_of(group));
    }
    records
}

fn records_of(group: &Group) -> usize
    ensures { result ≡ record_count group.now }
{
    match group {
        Group::Inserts(records) => records.as_slice().len(),
        Group::Deletes(records) => records.as_slice().len(),
        Group::Clears(records) => records.as_slice().len(),
    }
}

// Several texts in a row. Each call takes the result of those before it, so that only the last result needs checking.

/// Writes what a command may change, as a line names it, without what may be long.
pub(crate) fn write_deed<W: Write>(
    out: &mut W,
    so_far: io::Result<()>,
    deed: &Deed,
) -> io::Result<()>
    ensures { Continues so_far (W.contents out.old) result (W.contents out.new) (deed_text deed.now) }
{
    match deed {
        Deed::Commit {
            name,
            ticket,
            others,
        } => write_commit(out, so_far, name, *ticket, *others),
        Deed::Add {
            path,
            name,
            entries,
        } => write_edit(out, so_far, b"tadd ", path, name, *entries),
        Deed::Delete {
            path,
            name,
            entries,
        } => write_edit(out, so_far, b"tdel ", path, name, *entries),
        Deed::Set {
            path,
            name,
            entries,
        } => write_edit(out, so_far, b"tset ", path, name, *entries),
        Deed::KillTable { path, name } => write_table(out, so_far, b"tkill ", path, name),
        Deed::Track(name) => write_named(out, so_far, b"track ", *name),
        Deed::Peer(records) => {
            let so_far = write_more(out, so_far, b"peer ");
            write_count(out, so_far, *records, b" record", b" records")
        }
        Deed::KillState(name) => write_named(out, so_far, b"kill ", *name),
        Deed::Expire(tick) => {
            let so_far = write_more(out, so_far, b"expire ");
            write_more_number(out, so_far, *tick)
        }
    }
}

fn write_commit<W: Write>(
    out: &mut W,
    so_far: io::Result<()>,
    name: &RulesetName,
    ticket: Ticket,
    others: usize,
) -> io::Result<()>
    ensures { Continues so_far (W.contents out.old) result (W.contents out.new) (deed_text (Deed.Commit name.now ticket others)) }
{
    let so_far = write_more(out, so_far, kind_text(name.kind));
    let so_far = write_more(out, so_far, path_text(&name.path));
    let so_far = write_ticket(out, so_far, ticket);
    write_others(out, so_far, others)
}

fn kind_text(kind: RulesetKind) -> &'static [u8]
    ensures { result.now ≡ kind_text kind }
{
    match kind {
        RulesetKind::Filter => b"commit filter ",
        RulesetKind::Table => b"commit table ",
    }
}

// A path as lines have it: `-` is main's.
fn path_text(path: &Path) -> &[u8]
    ensures { result.now ≡ path_text path.now }
{
    let text = path.as_bytes();
    if text.is_empty() { b"-" } else { text }
}

fn write_ticket<W: Write>(out: &mut W, so_far: io::Result<()>, ticket: Ticket) -> io::Result<()>
    ensures { Continues so_far (W.contents out.old) result (W.contents out.new) (ticket_text ticket) }
{
    let so_far = write_more(out, so_far, b" ");
    let so_far = write_more_number(out, so_far, u64::from(ticket.epoch));
    let so_far = write_more(out, so_far, b".");
    write_more_number(out, so_far, u64::from(ticket.count))
}

fn write_others<W: Write>(out: &mut W, so_far: io::Result<()>, others: usize) -> io::Result<()>
    ensures { Continues so_far (W.contents out.old) result (W.contents out.new) (others_text others) }
{
    if others == 0 {
        return write_more(out, so_far, b"");
    }
    let so_far = write_more(out, so_far, b" and ");
    write_count(out, so_far, others, b" other", b" others")
}

fn write_edit<W: Write>(
    out: &mut W,
    so_far: io::Result<()>,
    word: &[u8],
    path: &Path,
    name: &TableName,
    entries: usize,
) -> io::Result<()>
    ensures { Continues so_far (W.contents out.old) result (W.contents out.new) (edit_text word.now path.now name.now entries) }
{
    let so_far = write_table(out, so_far, word, path, name);
    let so_far = write_more(out, so_far, b" ");
    write_count(out, so_far, entries, b" entry", b" entries")
}

fn write_table<W: Write>(
    out: &mut W,
    so_far: io::Result<()>,
    word: &[u8],
    path: &Path,
    name: &TableName,
) -> io::Result<()>
    ensures { Continues so_far (W.contents out.old) result (W.contents out.new) (table_text word.now path.now name.now) }
{
    let so_far = write_more(out, so_far, word);
    let so_far = write_more(out, so_far, path_text(path));
    let so_far = write_more(out, so_far, b" ");
    write_more(out, so_far, name.as_bytes())
}

// A number of things, by what one of them is called, or several are.
fn write_count<W: Write>(
    out: &mut W,
    so_far: io::Result<()>,
    number: usize,
    one: &[u8],
    several: &[u8],
) -> io::Result<()>
    ensures { Continues so_far (W.contents out.old) result (W.contents out.new) (count_text number one.now several.now) }
{
    let so_far = write_more_number(out, so_far, number as u64);
    write_more(out, so_far, if number == 1 { one } else { several })
}

// The name of a state.
fn write_named<W: Write>(
    out: &mut W,
    so_far: io::Result<()>,
    word: &[u8],
    name: StateName,
) -> io::Result<()>
    ensures { Continues so_far (W.contents out.old) result (W.contents out.new) (named_text word.now name) }
{
    let so_far = write_more(out, so_far, word);
    let so_far = write_more_number(out, so_far, name.id);
    let so_far = write_more(out, so_far, b" ");
    write_more_number(out, so_far, u64::from(name.creator))
}
