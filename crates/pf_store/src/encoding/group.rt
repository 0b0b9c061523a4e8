//! Groups: what one record keeps.
ghost use Rattle.std.specs.{Prelude.{◌≡◌, ◌+◌, ◌^◌, ◌<◌, ◌≤◌, ◌&&◌, ◌++◌, [], ◌∷◌, true, false, length, map, List, ℕ, IfOk, IfErr, OnOk}, List.list_all};
ghost use Rattle.pf_form.specs.{Bytes.Forms.{counted, onto, Fits}, Bytes.Readers.Reads};
ghost use Rattle.pf_store.specs.declared.limits.TheConstants.{AROUND, OPENING_RECORD};
ghost use Rattle.pf_store.specs.{Groups.{change_form, group_form, have_form, have_form_in, has_form, allows_record, allows_group, is_group, begins_group, made_all, plain_record, record_in, IsRecorded, IsRecordOf}, Lengths.payload_length};

use crate::encoding::as_change::AsChange;
use crate::encoding::change::{OPEN, has_change_form, is_allowed_in, push_change, push_record};
use crate::encoding::facts::{change_is_its_data, record_is_its_data};
use crate::encoding::fault::{GroupFault, unread};
use crate::encoding::recorded::Recorded;
use pf_core::GROUP_LIMIT;
use pf_form::bytes::{
    Fault, Layout, Rest, Undecoded, decode, push_bytes, push_u8, push_u32, read_times, read_u8,
};
use pf_journal::Record;
use std::alloc::{AllocError, Global};

// A group, as a record has it.
#[derive(Drop)]
struct StoredGroup {
    records: Vec<Recorded>,
}

impl Layout for StoredGroup {
    ghost use Rattle.std.specs.Prelude.{map, true};
    ghost use Rattle.pf_form.specs.Bytes.Forms.{list};
    ghost use Rattle.pf_store.specs.Groups.{ChangeShape, group_form, plain_record};

    ghost shape = { list ChangeShape };

    ghost form = { group_form };

    ghost plain = { λ group. map plain_record group.records.items };

    ghost before = { λ a b. true };

    #[tactic(auto, unfolding(crate::specs::Groups::group_form), using(crate::proofs::Taken::group_read, crate::proofs::Taken::group_refused))]
    fn read<'a>(alloc: Global, version: u8, from: &mut Rest<'a>) -> Result<StoredGroup, Undecoded> {
        let left = from.len();
        let records = read_records(alloc, version, from)?;
        if !is_group(records.as_slice()) {
            return Err(Undecoded::Fault(Fault::Bad(left)));
        }
        Ok(StoredGroup { records })
    }

    #[tactic(auto, using(crate::proofs::RecordedForms::group_formed, crate::proofs::Allowing::group_allowed))]
    fn write(&self, version: u8, out: &mut Vec<u8>) -> Result<(), AllocError> {
        records_are_their_data(self.records.as_slice());
        push_records(out, version, self.records.as_slice())
    }
}

// Reads changes and openings after their number in one byte.
fn read_records<'a>(
    alloc: Global,
    version: u8,
    from: &mut Rest<'a>,
) -> Result<Vec<Recorded>, Undecoded>
    ensures { Reads (λ v. map plain_record v.items) (counted 1 (change_form version)) result from.old.now from.new.now }
{
    let count = read_u8(from)?;
    read_times::<Recorded>(alloc, version, count as usize, from)
}

// Whether there are as many as one record keeps, 1 to 64.
fn is_group<T>(records: &[T]) -> bool
    ensures { result ≡ is_group records.now }
{
    !records.is_empty() && records.len() <= GROUP_LIMIT
}

fn records_are_their_data(records: &[Recorded])
    ensures { map record_in (map plain_record records.now) ≡ records.now }
{
    for recorded in records {
        record_is_its_data(recorded);
    }
}

#[tactic(auto, unfolding(crate::specs::Groups::group_form))]
fn push_records(out: &mut Vec<u8>, version: u8, records: &[Recorded]) -> Result<(), AllocError>
    requires formed { have_form records.now ≡ true }
    requires allowed { allows_group version records.now ≡ true }
    ensures { OnOk result (out.new.items ≡ onto (group_form version) (map plain_record records.now) out.old.items) }
{
    push_u8(out, records.len() as u8)?;
    for recorded in records {
        push_record(out, version, recorded)?;
    }
    Ok(())
}

fn changes_are_their_data<C: AsChange>(changes: &[C])
    ensures { map record_in (map plain_record (made_all (map C.as_plain changes.now))) ≡ made_all (map C.as_plain changes.now) }
{
    for change in changes {
        change_is_its_data(change.as_change());
    }
}

#[tactic(auto, unfolding(crate::specs::Groups::group_form))]
fn push_changes<C: AsChange>(
    out: &mut Vec<u8>,
    version: u8,
    changes: &[C],
) -> Result<(), AllocError>
    requires many { is_group changes.now ≡ true }
    requires formed { list_all (λ c. has_form (Recorded.Made (C.as_plain c))) changes.now ≡ true }
    requires allowed { list_all (λ c. allows_record version (Recorded.Made (C.as_plain c))) changes.now ≡ true }
    ensures written { OnOk result
        (out.new.items ≡ onto (group_form version) (map (λ c. plain_record (Recorded.Made (C.as_plain c))) changes.now) out.old.items) }
    ensures fits { OnOk result (Fits (group_form version) (map (λ c. plain_record (Recorded.Made (C.as_plain c))) changes.now)) }
{
    push_u8(out, changes.len() as u8)?;
    for change in changes {
        push_change(out, version, change.as_change())?;
    }
    Ok(())
}

/// Whether a group of these has bytes: there are 1 to 64, and each has some.
pub(crate) fn have_form<C: AsChange>(changes: &[C]) -> bool
    ensures { result ≡ have_form (made_all (map C.as_plain changes.now)) }
{
    is_group(changes) && all_have_form(changes)
}

fn all_have_form<C: AsChange>(changes: &[C]) -> bool
    ensures { result ≡ list_all (λ c. has_form (Recorded.Made (C.as_plain c))) changes.now }
{
    changes.iter().all(has_bytes)
}

fn has_bytes<C: AsChange>(change: &C) -> bool
    ensures { result ≡ has_form (Recorded.Made (C.as_plain change.now)) }
{
    has_change_form(change.as_change())
}

/// Whether a version allows each of these changes. It looks at no rule.
pub(crate) fn changes_are_allowed_in<C: AsChange>(changes: &[C], version: u8) -> bool
    ensures { result ≡ allows_group version (made_all (map C.as_plain changes.now)) }
{
    all_are_allowed_in(changes, version)
}

fn all_are_allowed_in<C: AsChange>(changes: &[C], version: u8) -> bool
    ensures { result ≡ list_all (λ c. allows_record version (Recorded.Made (C.as_plain c))) changes.now }
{
    changes
        .iter()
        .all(|change| change_is_allowed_in(change, version))
}

fn change_is_allowed_in<C: AsChange>(change: &C, version: u8) -> bool
    ensures { result ≡ allows_record version (Recorded.Made (C.as_plain change.now)) }
{
    is_allowed_in(change.as_change(), version)
}

/// The bytes, at least 2, of a group of changes in a version.
///
/// `NoForm`: it has none. There are no changes or more than 64, or one of them has no bytes, such as a commit of nothing, of more than 64
/// rulesets or of more tables at a path than a ticket takes; or the version doesn't allow one: a rule with a label in one before labels, a
/// tick or an expiry in one before expiries. `Memory`: it has some, but memory ran out.
pub fn write_group<C: AsChange>(
    alloc: Global,
    version: u8,
    changes: &[C],
) -> Result<Vec<u8>, GroupFault>
    ensures written { IfOk result (λ v. IsRecorded version (made_all (map C.as_plain changes.now)) v.items) }
    ensures length { IfOk result (λ v. length v.items ≡ payload_length (made_all (map C.as_plain changes.now))) }
    ensures formed { OnOk result (have_form_in version (made_all (map C.as_plain changes.now)) ≡ true) }
    ensures formless { IfErr result (λ e. e ≡ GroupFault.NoForm → have_form_in version (made_all (map C.as_plain changes.now)) ≡ false) }
    ensures memory { IfErr result (λ e. e ≡ GroupFault.Memory → have_form_in version (made_all (map C.as_plain changes.now)) ≡ true) }
{
    if !have_form(changes) || !changes_are_allowed_in(changes, version) {
        return Err(GroupFault::NoForm);
    }
    let mut out = Vec::new(alloc);
    push_group(&mut out, version, changes)?;
    Ok(out)
}

// Appends the bytes of a group of changes to others.
fn push_group<C: AsChange>(out: &mut Vec<u8>, version: u8, changes: &[C]) -> Result<(), AllocError>
    requires formed { have_form (made_all (map C.as_plain changes.now)) ≡ true }
    requires allowed { allows_group version (made_all (map C.as_plain changes.now)) ≡ true }
    ensures { OnOk result ((payload : List ℕ) × (out.new.items ≡ out.old.items ++ payload)
        × IsRecorded version (made_all (map C.as_plain changes.now)) payload) }
{
    changes_are_their_data(changes);
    push_changes(out, version, changes)
}

/// The record of a group of changes in a version; they have bytes, fewer than 2^32. `AllocError`: out of memory.
pub(crate) fn record_group<C: AsChange>(
    alloc: Global,
    version: u8,
    changes: &[C],
) -> Result<Record, AllocError>
    requires formed { have_form (made_all (map C.as_plain changes.now)) ≡ true }
    requires allowed { allows_group version (made_all (map C.as_plain changes.now)) ≡ true }
    requires short { payload_length (made_all (map C.as_plain changes.now)) < 2 ^ 32 }
    ensures made { IfOk result (λ made. IsRecordOf version (made_all (map C.as_plain changes.now)) made) }
    ensures long { IfOk result (λ made. length made.after_gate.items + 1 ≡ payload_length (made_all (map C.as_plain changes.now)) + AROUND) }
{
    let mut record = Record::begin(alloc)?;
    push_group(&mut record.after_gate, version, changes)?;
    record.close()?;
    Ok(record)
}

/// The record of an opening with this epoch, a group of its own, which is the same in each version. `AllocError`: out of memory.
pub(crate) fn record_opening(alloc: Global, epoch: u32) -> Result<Record, AllocError>
    ensures made { IfOk result (λ made. (version : ℕ) → IsRecordOf version (Recorded.Opens epoch ∷ []) made) }
    ensures long { IfOk result (λ made. length made.after_gate.items + 1 ≡ OPENING_RECORD) }
{
    let mut record = Record::begin(alloc)?;
    push_bytes(&mut record.after_gate, &[1, OPEN])?;
    push_u32(&mut record.after_gate, epoch)?;
    record.close()?;
    Ok(record)
}

// Whether the first of them is the number of a group, 1 to 64.
fn begins_group(bytes: &[u8]) -> bool
    ensures { result ≡ begins_group bytes.now }
{
    match bytes.first() {
        Some(count) => *count >= 1 && *count as usize <= GROUP_LIMIT,
        None => false,
    }
}

/// What these bytes record in a version: 1 to 64 changes and openings. `NoForm`: they are no group's, for instance since another number
/// comes first. `Memory`: such a number comes first, but memory ran out.
#[tactic(auto, using(crate::proofs::RecordedForms::spelled))]
pub fn read_group(alloc: Global, version: u8, bytes: &[u8]) -> Result<Vec<Recorded>, GroupFault>
    ensures found { IfOk result (λ v. IsRecorded version v.items bytes.now) }
    ensures none { IfErr result (λ e. e ≡ GroupFault.NoForm → (rs : List Recorded) → ¬ IsRecorded version rs bytes.now) }
    ensures memory { IfErr result (λ e. e ≡ GroupFault.Memory → begins_group bytes.now ≡ true) }
{
    match decode::<StoredGroup>(alloc, version, bytes) {
        Ok(group) => {
            records_are_their_data(group.records.as_slice());
            Ok(group.records)
        }
        Err(fault) => Err(unread(fault, begins_group(bytes))),
    }
}
