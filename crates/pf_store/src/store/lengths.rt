//! How many bytes a snapshot of what is kept would have, and a group's payload. It looks at items and steps, at no rule or entry, of a
//! state at most at its expiry, and takes no memory. Each `room_left_after_` function takes the bytes of something off a room: `None` if there are too few.
ghost use Rattle.std.specs.Prelude.{◌≡◌, true, ◌↔◌, ◌+◌, ◌<◌, ◌≤◌, map, IsTrue, MatchOption};
ghost use Rattle.pf_store.specs.declared.encoding.recorded.Recorded.TheVariants as recorded;
ghost use Rattle.pf_store.specs.{Groups.{allows_group, made_all}, Lengths.{named_length, item_length, edit_length, step_length, total, snapshot_length, recorded_length, payload_length}, Stores.{FindsRoom}};

use crate::encoding::{AsChange, changes_are_allowed_in, have_form};
use crate::limits::{AROUND, ROOM_TO_OPEN};
use pf_addr::path::{Path, TableName};
use pf_anchor::{named_table_length, ruleset_length};
use pf_core::{Change, ChangeKind, Durable, Item};
use pf_snap::BANK_HEADER;
use pf_state::StateStep;
use pf_state::layouts::step_length;
use pf_table::Entry;
use pf_ticket::{Defined, DefinedTable};

/// Whether changes that leave `after` find room in banks of `size` bytes.
pub(crate) fn find_room<C: AsChange>(
    before: &Durable,
    changes: &[C],
    after: &Durable,
    size: usize,
) -> bool
    ensures { IsTrue result ↔ FindsRoom size before.now after.now (map C.as_plain changes.now) }
{
    have_form(changes)
        && snapshot_leaves_room(after, size, ROOM_TO_OPEN)
        && match room_left_after_snapshot(before, size) {
            Some(room) => match room_left_after_group(changes, room) {
                Some(left) => AROUND <= left,
                None => false,
            },
            None => false,
        }
}

/// Whether a record of these changes can be added to a bank of this version that has so many bytes left: the version allows them, and there
/// is room.
pub(crate) fn goes_here<C: AsChange>(changes: &[C], version: u8, room: usize) -> bool
    ensures { IsTrue result ↔ ((allows_group version (made_all (map C.as_plain changes.now)) ≡ true)
        × (payload_length (made_all (map C.as_plain changes.now)) + AROUND ≤ room)) }
{
    changes_are_allowed_in(changes, version)
        && match room_left_after_group(changes, room) {
            Some(left) => AROUND <= left,
            None => false,
        }
}

// The bytes that a group's payload leaves of `room`.
fn room_left_after_group<C: AsChange>(changes: &[C], room: usize) -> Option<usize>
    ensures { MatchOption result (room < payload_length (made_all (map C.as_plain changes.now)))
        (λ left. room ≡ payload_length (made_all (map C.as_plain changes.now)) + left) }
{
    room_left_after_changes(changes, room.checked_sub(1)?)
}

fn room_left_after_changes<C: AsChange>(changes: &[C], room: usize) -> Option<usize>
    ensures { MatchOption result (room < total recorded_length (made_all (map C.as_plain changes.now)))
        (λ left. room ≡ total recorded_length (made_all (map C.as_plain changes.now)) + left) }
{
    let mut left = room;
    for change in changes {
        left = room_left_after_change(change.as_change(), left)?;
    }
    Some(left)
}

/// Whether a bank of `size` bytes has room for `more` bytes after a snapshot of what is kept.
pub(crate) fn snapshot_leaves_room(durable: &Durable, size: usize, more: usize) -> bool
    ensures { IsTrue result ↔ (BANK_HEADER + snapshot_length durable.now + more ≤ size) }
{
    match room_left_after_snapshot(durable, size) {
        Some(room) => more <= room,
        None => false,
    }
}

// The bytes that a bank of `size` bytes has left after the snapshot.
fn room_left_after_snapshot(durable: &Durable, size: usize) -> Option<usize>
    ensures { MatchOption result (size < BANK_HEADER + snapshot_length durable.now)
        (λ room. size ≡ BANK_HEADER + snapshot_length durable.now + room) }
{
    let taken = BANK_HEADER as u128 + durable.byte_length();
    let room = (size as u128).checked_sub(taken)?;
    Some(room as usize)
}

// The bytes that a change, as a record has it, leaves of `room`.
#[tactic(auto, using(crate::proofs::Sized::items_long, crate::proofs::Sized::steps_long), unfolding(crate::specs::Groups::change_form, crate::specs::Groups::expire_form, pf_state::specs::Layouts::States::name_form))]
fn room_left_after_change(change: &Change, room: usize) -> Option<usize>
    ensures { MatchOption result (room < recorded_length (recorded.Made change.now))
        (λ left. room ≡ recorded_length (recorded.Made change.now) + left) }
{
    let room = room.checked_sub(1)?;
    match change.kind() {
        ChangeKind::Commit(items) => room_left_after_items(items.as_slice(), room.checked_sub(1)?),
        ChangeKind::Add {
            path,
            name,
            entries,
        }
        | ChangeKind::Delete {
            path,
            name,
            entries,
        }
        | ChangeKind::Set {
            path,
            name,
            entries,
        } => room_left_after_edit(path, name, entries.as_slice(), room),
        ChangeKind::States(steps) => room_left_after_steps(steps.as_slice(), room.checked_sub(4)?),
        ChangeKind::Remove(_) => room.checked_sub(12),
        ChangeKind::Expire(_) => room.checked_sub(8),
    }
}

fn room_left_after_items(items: &[Item], room: usize) -> Option<usize>
    ensures { MatchOption result (room < total item_length items.now) (λ left. room ≡ total item_length items.now + left) }
{
    let mut left = room;
    for item in items {
        left = room_left_after_item(item, left)?;
    }
    Some(left)
}

#[tactic(auto, using(crate::proofs::Sized::tables_long), unfolding(crate::specs::Groups::item_form))]
fn room_left_after_item(item: &Item, room: usize) -> Option<usize>
    ensures { MatchOption result (room < item_length item.now) (λ left. room ≡ item_length item.now + left) }
{
    let room = room.checked_sub(1)?;
    match item {
        Item::Rules(placed) => room.checked_sub(ruleset_length(placed) as usize),
        Item::Tables { path, tables } => {
            let room = room.checked_sub(5)?;
            room_left_after_named(tables, room.checked_sub(path.as_bytes().len())?)
        }
    }
}

fn room_left_after_named(tables: &Defined, room: usize) -> Option<usize>
    ensures { MatchOption result (room < total named_length tables.now) (λ left. room ≡ total named_length tables.now + left) }
{
    let mut left = room;
    for table in tables.entries() {
        left = left.checked_sub(named_table_length(table.name(), table.table()) as usize)?;
    }
    Some(left)
}

// What a path, a table's name, the entries' number and the entries leave.
#[tactic(auto, using(crate::proofs::Sized::edit_long))]
fn room_left_after_edit(
    path: &Path,
    name: &TableName,
    entries: &[Entry],
    room: usize,
) -> Option<usize>
    ensures { MatchOption result (room < edit_length path.now name.now entries.now)
        (λ left. room ≡ edit_length path.now name.now entries.now + left) }
{
    let room = room.checked_sub(6)?;
    let room = room.checked_sub(path.as_bytes().len())?;
    let room = room.checked_sub(name.as_bytes().len())?;
    room.checked_sub(entries.len().saturating_mul(20))
}

fn room_left_after_steps(steps: &[StateStep], room: usize) -> Option<usize>
    ensures { MatchOption result (room < total step_length steps.now) (λ left. room ≡ total step_length steps.now + left) }
{
    let mut left = room;
    for step in steps {
        left = left.checked_sub(step_length(step))?;
    }
    Some(left)
}
