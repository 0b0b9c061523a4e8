//! One change or opening in bytes.
ghost use Rattle.std.specs.Prelude.{◌≡◌, ◌∷◌, ◌<◌, ◌^◌, true, length, OnOk};
ghost use Rattle.pf_form.specs.Bytes.{BasicForms.seen_as, Forms.{counted, number, onto, reads, Fits}, Readers.{Gives, Reads}};
ghost use Rattle.pf_anchor.specs.Forms.{plain_entries};
ghost use Rattle.pf_core.specs.Durable.Changes.{expires};
ghost use Rattle.pf_state.specs.Layouts.{States.{has_expiry, name_form}, Steps.step_form};
ghost use Rattle.pf_store.specs.Groups.{EditShape, edit_form, expire_form, items_form, change_form, plain_record, has_form, allows_record};
ghost use Rattle.pf_store.specs.Groups.{as_commit, as_add, as_delete, as_set, as_steps, as_removal, as_opening, as_tick};

use crate::encoding::facts::record_is_its_data;
use crate::encoding::items::{have_form, items_are_allowed_in, push_items, read_items};
use crate::encoding::recorded::Recorded;
use crate::encoding::tables::{push_entries, read_entries};
use pf_addr::path::{Path, TableName};
use pf_core::{Change, ChangeKind, EntryList};
use pf_form::bytes::{
    Fault, Layout, Rest, Undecoded, push_fitting, push_key, push_u32, push_u64, read_u32, read_u64,
};
use pf_state::layouts::{
    EXPIRY_FROM, push_name, push_steps, read_name, read_steps, steps_are_allowed_in,
};
use pf_table::Entry;
use std::alloc::{AllocError, Global};

// How many values a count of four bytes has.
const COUNTS: usize = 1 << 32;

const COMMIT: u8 = 1;

const ADD: u8 = 2;

const DELETE: u8 = 3;

const SET: u8 = 4;

const STATES: u8 = 5;

const REMOVE: u8 = 6;

/// The byte of an opening's kind.
pub(crate) const OPEN: u8 = 7;

const EXPIRE: u8 = 8;

impl Layout for Recorded {
    ghost use Rattle.std.specs.Prelude.{true};
    ghost use Rattle.pf_store.specs.Groups.{ChangeShape, change_form, plain_record};

    ghost shape = { ChangeShape };

    ghost form = { change_form };

    ghost plain = { plain_record };

    ghost before = { λ a b. true };

    fn read<'a>(alloc: Global, version: u8, from: &mut Rest<'a>) -> Result<Recorded, Undecoded> {
        read_record(alloc, version, from)
    }

    #[tactic(auto, using(crate::proofs::RecordedForms::formed, crate::proofs::Allowing::allowed))]
    fn write(&self, version: u8, out: &mut Vec<u8>) -> Result<(), AllocError> {
        record_is_its_data(self);
        push_record(out, version, self)
    }
}

// A table's path and name, and entries as handed in.
#[derive(Drop)]
struct StoredEdit {
    path: Path,
    name: TableName,
    entries: EntryList,
}

#[tactic(auto, unfolding(crate::specs::Groups::edit_form))]
fn read_edit<'a>(alloc: Global, version: u8, from: &mut Rest<'a>) -> Result<StoredEdit, Undecoded>
    ensures { Reads {a = EditShape} (λ e. (e.path, (e.name, plain_entries e.entries))) edit_form result from.old.now from.new.now }
{
    let path = Path::read(alloc, version, from)?;
    let name = TableName::read(alloc, version, from)?;
    let entries = read_entries(alloc, version, from)?;
    Ok(StoredEdit {
        path,
        name,
        entries: EntryList::new(entries),
    })
}

#[tactic(auto, unfolding(crate::specs::Groups::edit_form))]
fn push_edit(
    out: &mut Vec<u8>,
    version: u8,
    path: &Path,
    name: &TableName,
    entries: &[Entry],
) -> Result<(), AllocError>
    requires { length entries.now < 2 ^ 32 }
    ensures written { OnOk result
        (out.new.items ≡ onto {a = EditShape} edit_form (path.now, (name.now, plain_entries entries.now)) out.old.items) }
    ensures fits { OnOk result (Fits {a = EditShape} edit_form (path.now, (name.now, plain_entries entries.now))) }
{
    push_fitting(out, version, path)?;
    push_fitting(out, version, name)?;
    push_entries(out, version, entries)
}

// Reads what is recorded from the front of the bytes.
fn read_record<'a>(alloc: Global, version: u8, from: &mut Rest<'a>) -> Result<Recorded, Undecoded>
    ensures { Reads plain_record (change_form version) result from.old.now from.new.now }
{
    match *from {
        [] => Err(Undecoded::Fault(Fault::Short)),
        [kind, rest @ ..] => {
            *from = rest;
            read_after_kind(alloc, version, *kind, from)
        }
    }
}

// Reads what is recorded behind the byte of its kind.
fn read_after_kind<'a>(
    alloc: Global,
    version: u8,
    kind: u8,
    from: &mut Rest<'a>,
) -> Result<Recorded, Undecoded>
    ensures { Gives plain_record result from.new.now (reads (change_form version) (kind ∷ from.old.now)) }
{
    if kind == COMMIT {
        return read_commit(alloc, version, from);
    }
    if kind == ADD {
        return read_add(alloc, version, from);
    }
    if kind == DELETE {
        return read_delete(alloc, version, from);
    }
    if kind == SET {
        return read_set(alloc, version, from);
    }
    if kind == STATES {
        return read_state_steps(alloc, version, from);
    }
    if kind == REMOVE {
        return read_removal(from);
    }
    if kind == OPEN {
        return read_opening(from);
    }
    if kind == EXPIRE {
        return read_expire(version, from);
    }
    Err(Undecoded::Fault(Fault::Bad(from.len() + 1)))
}

// A commit, behind its kind.
fn read_commit<'a>(alloc: Global, version: u8, from: &mut Rest<'a>) -> Result<Recorded, Undecoded>
    ensures { Gives plain_record result from.new.now (seen_as as_commit (reads (items_form version)) from.old.now) }
{
    let items = read_items(alloc, version, from)?;
    Ok(Recorded::Made(Change::commit(items)))
}

// Entries that are added to a table, behind their kind.
fn read_add<'a>(alloc: Global, version: u8, from: &mut Rest<'a>) -> Result<Recorded, Undecoded>
    ensures { Gives plain_record result from.new.now (seen_as as_add (reads edit_form) from.old.now) }
{
    let edit = read_edit(alloc, version, from)?;
    Ok(Recorded::Made(Change::add(edit.path, edit.name, edit.entries)))
}

// Entries that are deleted from a table, behind their kind.
fn read_delete<'a>(alloc: Global, version: u8, from: &mut Rest<'a>) -> Result<Recorded, Undecoded>
    ensures { Gives plain_record result from.new.now (seen_as as_delete (reads edit_form) from.old.now) }
{
    let edit = read_edit(alloc, version, from)?;
    Ok(Recorded::Made(Change::delete(edit.path, edit.name, edit.entries)))
}

// Entries that replace a table's, behind their kind.
fn read_set<'a>(alloc: Global, version: u8, from: &mut Rest<'a>) -> Result<Recorded, Undecoded>
    ensures { Gives plain_record result from.new.now (seen_as as_set (reads edit_form) from.old.now) }
{
    let edit = read_edit(alloc, version, from)?;
    Ok(Recorded::Made(Change::set(edit.path, edit.name, edit.entries)))
}

// Steps that act on the states, behind their kind.
fn read_state_steps<'a>(
    alloc: Global,
    version: u8,
    from: &mut Rest<'a>,
) -> Result<Recorded, Undecoded>
    ensures { Gives plain_record result from.new.now (seen_as as_steps (reads (counted 4 (step_form version))) from.old.now) }
{
    let steps = read_steps(alloc, version, from)?;
    Ok(Recorded::Made(Change::states(steps)))
}

// The removal of a state, behind its kind.
fn read_removal<'a>(from: &mut Rest<'a>) -> Result<Recorded, Undecoded>
    ensures { Gives plain_record result from.new.now (seen_as as_removal (reads name_form) from.old.now) }
{
    let name = read_name(from)?;
    Ok(Recorded::Made(Change::remove(name)))
}

// An opening, behind its kind.
fn read_opening<'a>(from: &mut Rest<'a>) -> Result<Recorded, Undecoded>
    ensures { Gives plain_record result from.new.now (seen_as as_opening (reads (number 4)) from.old.now) }
{
    let epoch = read_u32(from)?;
    Ok(Recorded::Opens(epoch))
}

// A tick, behind its kind; none in a version without expiries.
#[tactic(auto, unfolding(crate::specs::Groups::expire_form))]
fn read_expire<'a>(version: u8, from: &mut Rest<'a>) -> Result<Recorded, Undecoded>
    ensures { Gives plain_record result from.new.now (seen_as as_tick (reads (expire_form (has_expiry version))) (8 ∷ from.old.now)) }
{
    if version < EXPIRY_FROM {
        return Err(Undecoded::Fault(Fault::Bad(from.len() + 1)));
    }
    let tick = read_u64(from)?;
    Ok(Recorded::Made(Change::expire(tick)))
}

/// Appends what is recorded to the bytes, as a version has it; it fits. Fails only when out of memory.
#[tactic(auto, unfolding(crate::specs::Groups::change_form))]
pub(crate) fn push_record(
    out: &mut Vec<u8>,
    version: u8,
    recorded: &Recorded,
) -> Result<(), AllocError>
    requires formed { has_form recorded.now ≡ true }
    requires allowed { allows_record version recorded.now ≡ true }
    ensures written { OnOk result (out.new.items ≡ onto (change_form version) (plain_record recorded.now) out.old.items) }
    ensures fits { OnOk result (Fits (change_form version) (plain_record recorded.now)) }
{
    match recorded {
        Recorded::Made(change) => push_change(out, version, change),
        Recorded::Opens(epoch) => {
            push_key(out, OPEN)?;
            push_u32(out, *epoch)
        }
    }
}

/// Appends a change to the bytes, as a version has it; it fits. Fails only when out of memory.
#[tactic(auto, unfolding(crate::specs::Groups::change_form))]
pub(crate) fn push_change(out: &mut Vec<u8>, version: u8, change: &Change) -> Result<(), AllocError>
    requires formed { has_form (Recorded.Made change.now) ≡ true }
    requires allowed { allows_record version (Recorded.Made change.now) ≡ true }
    ensures written { OnOk result (out.new.items ≡ onto (change_form version) (plain_record (Recorded.Made change.now)) out.old.items) }
    ensures fits { OnOk result (Fits (change_form version) (plain_record (Recorded.Made change.now))) }
{
    match change.kind() {
        ChangeKind::Commit(items) => {
            push_key(out, COMMIT)?;
            push_items(out, version, items.as_slice())
        }
        ChangeKind::Add {
            path,
            name,
            entries,
        } => {
            push_key(out, ADD)?;
            push_edit(out, version, path, name, entries.as_slice())
        }
        ChangeKind::Delete {
            path,
            name,
            entries,
        } => {
            push_key(out, DELETE)?;
            push_edit(out, version, path, name, entries.as_slice())
        }
        ChangeKind::Set {
            path,
            name,
            entries,
        } => {
            push_key(out, SET)?;
            push_edit(out, version, path, name, entries.as_slice())
        }
        ChangeKind::States(steps) => {
            push_key(out, STATES)?;
            push_steps(out, version, steps)
        }
        ChangeKind::Remove(name) => {
            push_key(out, REMOVE)?;
            push_name(out, *name)
        }
        ChangeKind::Expire(tick) => push_expire(out, version, *tick),
    }
}

// Appends a tick behind its kind, in a version with expiries.
#[tactic(auto, using(crate::proofs::RecordedForms::tick_fits, crate::proofs::RecordedForms::tick_written))]
fn push_expire(out: &mut Vec<u8>, version: u8, tick: u64) -> Result<(), AllocError>
    requires { has_expiry version ≡ true }
    ensures written { OnOk result (out.new.items ≡ onto (change_form version) (plain_record (Recorded.Made (expires tick))) out.old.items) }
    ensures fits { OnOk result (Fits (change_form version) (plain_record (Recorded.Made (expires tick)))) }
{
    push_key(out, EXPIRE)?;
    push_u64(out, tick)
}

/// Whether it has bytes.
pub(crate) fn has_change_form(change: &Change) -> bool
    ensures { result ≡ has_form (Recorded.Made change.now) }
{
    match change.kind() {
        ChangeKind::Commit(items) => have_form(items.as_slice()),
        ChangeKind::Add { entries, .. }
        | ChangeKind::Delete { entries, .. }
        | ChangeKind::Set { entries, .. } => entries.as_slice().len() < COUNTS,
        ChangeKind::States(steps) => steps.as_slice().len() < COUNTS,
        ChangeKind::Remove(_) | ChangeKind::Expire(_) => true,
    }
}

/// Whether a version allows its rules and states, or the tick that it is. It looks at no rule.
pub(crate) fn is_allowed_in(change: &Change, version: u8) -> bool
    ensures { result ≡ allows_record version (Recorded.Made change.now) }
{
    match change.kind() {
        ChangeKind::Commit(items) => items_are_allowed_in(items.as_slice(), version),
        ChangeKind::Add { .. }
        | ChangeKind::Delete { .. }
        | ChangeKind::Set { .. }
        | ChangeKind::Remove(_) => true,
        ChangeKind::States(steps) => steps_are_allowed_in(steps.as_slice(), version),
        ChangeKind::Expire(_) => version >= EXPIRY_FROM,
    }
}
