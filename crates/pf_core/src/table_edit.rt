//! Edits of tables: which change each one wants, and its outcome.
ghost use Rattle.std.specs.Prelude.{◌≡◌, length, filter, true};
ghost use Rattle.pf_core.specs.{Commands.{same_addition, added_of, same_deletion, deleted_of, edit_step, edits_in_memory}, Nexts.next_with};
ghost use Rattle.pf_core.specs.{Refusals.OrMemory, Cores.{plain, IsMadeFrom}};

use crate::command::TableEdit;
use crate::durable::{Change, Durable, EntryList};
use crate::reply::{Outcome, Refusal};
use crate::step::{ReadyStep, wants};
use pf_addr::path::TableName;
use pf_anchor::Path;
use pf_table::{Addition, Deletion};
use pf_ticket::RulesetName;
use std::alloc::Global;

// How many entries had this answer.
fn count_additions(answers: &[Addition], wanted: Addition) -> usize
    ensures { result ≡ length (filter (same_addition wanted) answers.now) }
{
    answers.iter().filter(|answer| wanted == **answer).count()
}

// How many entries had this answer.
fn count_deletions(answers: &[Deletion], wanted: Deletion) -> usize
    ensures { result ≡ length (filter (same_deletion wanted) answers.now) }
{
    answers.iter().filter(|answer| wanted == **answer).count()
}

fn added_of(answers: &[Addition]) -> Outcome
    ensures { result ≡ added_of answers.now }
{
    Outcome::Added {
        added: count_additions(answers, Addition::Added),
        same: count_additions(answers, Addition::Same),
        conflict: count_additions(answers, Addition::Conflict),
    }
}

fn deleted_of(answers: &[Deletion]) -> Outcome
    ensures { result ≡ deleted_of answers.now }
{
    Outcome::Deleted {
        deleted: count_deletions(answers, Deletion::Deleted),
        absent: count_deletions(answers, Deletion::Absent),
    }
}

// The step of an edit that adds entries to a table.
fn add(
    alloc: Global,
    durable: &Durable,
    before: &[RulesetName],
    path: &Path,
    name: TableName,
    entries: &EntryList,
) -> Result<ReadyStep, Refusal>
    ensures reply { OrMemory true (plain result) (edit_step durable.now (TableEdit.Add path.now name entries.now)) }
    ensures made { IsMadeFrom (next_with durable.now before.now) result }
{
    let (table, additions) = durable.with_added(alloc, path, &name, entries.as_slice())?;
    let left = durable.with_table(alloc, path, &name, table)?;
    let change = Change::add(path.copied(), name, entries.copied(alloc)?);
    Ok(wants(alloc, before, change, left, added_of(additions.as_slice()))?)
}

// The step of an edit that deletes entries from a table.
fn delete(
    alloc: Global,
    durable: &Durable,
    before: &[RulesetName],
    path: &Path,
    name: TableName,
    entries: &EntryList,
) -> Result<ReadyStep, Refusal>
    ensures reply { OrMemory true (plain result) (edit_step durable.now (TableEdit.Delete path.now name entries.now)) }
    ensures made { IsMadeFrom (next_with durable.now before.now) result }
{
    let (table, deletions) = durable.with_deleted(alloc, path, &name, entries.as_slice())?;
    if !durable.has_table(path, &name) {
        return Err(Refusal::Absent);
    }
    let left = durable.with_table(alloc, path, &name, table)?;
    let change = Change::delete(path.copied(), name, entries.copied(alloc)?);
    let outcome = deleted_of(deletions.as_slice());
    Ok(wants(alloc, before, change, left, outcome)?)
}

// The step of an edit that puts entries in place of a table's own.
fn set(
    alloc: Global,
    durable: &Durable,
    before: &[RulesetName],
    path: &Path,
    name: TableName,
    entries: &EntryList,
) -> Result<ReadyStep, Refusal>
    ensures reply { OrMemory true (plain result) (edit_step durable.now (TableEdit.Set path.now name entries.now)) }
    ensures made { IsMadeFrom (next_with durable.now before.now) result }
{
    let table = durable.with_set(alloc, path, &name, entries.as_slice())?;
    let left = durable.with_table(alloc, path, &name, table)?;
    let change = Change::set(path.copied(), name, entries.copied(alloc)?);
    Ok(wants(alloc, before, change, left, Outcome::Set)?)
}

// The step of an edit that takes a table out.
fn kill(
    alloc: Global,
    durable: &Durable,
    before: &[RulesetName],
    path: &Path,
    name: TableName,
) -> Result<ReadyStep, Refusal>
    ensures reply { let killed = TableEdit.Kill path.now name in
        OrMemory (edits_in_memory durable.now killed) (plain result) (edit_step durable.now killed) }
    ensures made { IsMadeFrom (next_with durable.now before.now) result }
{
    if !durable.has_table(path, &name) {
        return Err(Refusal::Absent);
    }
    let left = durable.without_table(alloc, path, &name)?;
    let change = Change::set(path.copied(), name, EntryList::new(Vec::new(alloc)));
    Ok(wants(alloc, before, change, left, Outcome::Killed)?)
}

// The step of an edit of a table, after changes that void these tickets.
pub(crate) fn edit(
    alloc: Global,
    durable: &Durable,
    before: &[RulesetName],
    edit: &TableEdit,
) -> Result<ReadyStep, Refusal>
    ensures reply { OrMemory (edits_in_memory durable.now edit.now) (plain result) (edit_step durable.now edit.now) }
    ensures made { IsMadeFrom (next_with durable.now before.now) result }
{
    match edit {
        TableEdit::Add {
            path,
            name,
            entries,
        } => add(alloc, durable, before, path, *name, entries),
        TableEdit::Delete {
            path,
            name,
            entries,
        } => delete(alloc, durable, before, path, *name, entries),
        TableEdit::Set {
            path,
            name,
            entries,
        } => set(alloc, durable, before, path, *name, entries),
        TableEdit::Kill { path, name } => kill(alloc, durable, before, path, *name),
    }
}
