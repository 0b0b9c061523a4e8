//! What edits change, entry by entry, and what they answer.
ghost use Rattle.std.specs.Prelude.{◌≡◌, All, IfOk};
ghost use Rattle.pf_addr.specs.{Address.IsNetwork, Refusing.Refuses};
ghost use Rattle.pf_table.specs.declared.refusal.TableRefusal.TheVariants.{Memory};
ghost use Rattle.pf_table.specs.Tables.{sign_of};
ghost use Rattle.pf_table.specs.Edits.{with_entry, added, addition, additions, is_sign, without_entry, deleted, deletion, deletions};
ghost use Rattle.pf_table.specs.Edits.{conflict_refusal};
ghost use Rattle.pf_table.specs.Noted.{first_sign, noted_with};

use crate::answer::{Addition, Deletion};
use crate::entry::Entry;
use crate::entry_map::EntryMap;
use crate::refusal::TableRefusal;
use pf_addr::Net;
use std::alloc::{AllocError, Global};

/// The sign of a network in a map of entries.
pub(crate) fn sign_of(entries: &EntryMap, net: Net) -> Option<bool>
    ensures { result ≡ sign_of net entries.now }
{
    Some(entries.get(&net)?.is_negated())
}

/// Whether the network is there with this sign.
pub(crate) fn is_sign(sign: bool, there: Option<bool>) -> bool
    ensures { result ≡ is_sign sign there }
{
    there.is_some_and(|there| sign == there)
}

/// The entries with one more, if its network isn't there; else they stay as they are, and no page is allocated.
pub(crate) fn with_entry(
    alloc: Global,
    entries: EntryMap,
    there: Option<bool>,
    entry: &Entry,
) -> Result<EntryMap, AllocError>
    requires { there ≡ sign_of entry.now.0 entries }
    ensures value { IfOk result (λ m. m ≡ with_entry entries entry.now) }
    ensures network { IsNetwork entry.now.0 }
{
    // its contract says that the network is one
    let _net = entry.net();
    if there.is_some() {
        return Ok(entries);
    }
    entries.with_new(alloc, entry)
}

// The entries without one of them, if it is there with its sign; else they stay as they are, and no page is allocated.
fn without_entry(
    alloc: Global,
    entries: EntryMap,
    there: Option<bool>,
    entry: &Entry,
) -> Result<EntryMap, AllocError>
    requires { there ≡ sign_of entry.now.0 entries }
    ensures { IfOk result (λ m. m ≡ without_entry entries entry.now) }
{
    if !is_sign(entry.is_negated(), there) {
        return Ok(entries);
    }
    entries.without(alloc, &entry.net())
}

// The answer for an entry that is added, by the sign that its network has so far.
fn addition(there: Option<bool>, sign: bool) -> Addition
    ensures { result ≡ addition there sign }
{
    match there {
        None => Addition::Added,
        Some(_) if is_sign(sign, there) => Addition::Same,
        Some(_) => Addition::Conflict,
    }
}

// The sign with which a list first named a network, by the sign that the network has so far: that one, if the table doesn't have the
// network, else the one that was noted.
fn first_sign(table: &EntryMap, noted: &EntryMap, there: Option<bool>, net: Net) -> Option<bool>
    ensures { result ≡ first_sign (sign_of net table.now) (sign_of net noted.now) there }
{
    match there {
        Some(_) if sign_of(table, net).is_some() => sign_of(noted, net),
        _ => there,
    }
}

// What is noted while a list is added to a table: the sign with which each network of the table is first named.
fn noted_with(
    alloc: Global,
    noted: EntryMap,
    there: Option<bool>,
    first: Option<bool>,
    entry: &Entry,
) -> Result<EntryMap, AllocError>
    ensures { IfOk result (λ m. m ≡ noted_with noted there first entry.now) }
{
    if there.is_none() || first.is_some() {
        return Ok(noted);
    }
    let named = sign_of(&noted, entry.net());
    with_entry(alloc, noted, named, entry)
}

/// The entries of a table after a list of them was added in turn, and the answer for each. Refuses with `Conflict` or `Memory`.
///
/// A network that is neither in the table nor earlier in the list takes one search, so that a long list costs little more than its changes.
pub(crate) fn add_all(
    alloc: Global,
    table: &EntryMap,
    list: &[Entry],
) -> Result<(EntryMap, Vec<Addition>), TableRefusal>
    ensures refused { Refuses Memory result (conflict_refusal list.now) }
    ensures after { IfOk result (λ r. r.0 ≡ added table.now list.now) }
    ensures answers { IfOk result (λ r. r.1.items ≡ additions table.now list.now) }
    ensures networks { IfOk result (λ _. All (λ x. IsNetwork x.0) list.now) }
{
    let mut after = table.shared()?;
    let mut noted = EntryMap::empty();
    let mut answers = Vec::with_capacity(alloc, list.len())?;
    for (at, entry) in list.iter().enumerate() {
        let there = sign_of(&after, entry.net());
        let first = first_sign(table, &noted, there, entry.net());
        if is_sign(!entry.is_negated(), first) {
            return Err(TableRefusal::Conflict { at });
        }
        noted = noted_with(alloc, noted, there, first, entry)?;
        answers.reserve(1)?;
        answers.push_reserved(addition(there, entry.is_negated()));
        after = with_entry(alloc, after, there, entry)?;
    }
    Ok((after, answers))
}

// The answer for an entry that is deleted, by whether it is there with its sign.
fn deletion(is_there: bool) -> Deletion
    ensures { result ≡ deletion is_there }
{
    if is_there {
        Deletion::Deleted
    } else {
        Deletion::Absent
    }
}

/// The entries after a list of them was deleted in turn, and the answer for each.
pub(crate) fn delete_all(
    alloc: Global,
    entries: EntryMap,
    list: &[Entry],
) -> Result<(EntryMap, Vec<Deletion>), AllocError>
    ensures after { IfOk result (λ r. r.0 ≡ deleted entries list.now) }
    ensures answers { IfOk result (λ r. r.1.items ≡ deletions entries list.now) }
{
    let mut after = entries;
    let mut answers = Vec::with_capacity(alloc, list.len())?;
    for entry in list {
        let there = sign_of(&after, entry.net());
        answers.push(deletion(is_sign(entry.is_negated(), there)))?;
        after = without_entry(alloc, after, there, entry)?;
    }
    Ok((after, answers))
}
