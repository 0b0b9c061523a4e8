//! What a bank's snapshot and payloads make.
ghost use Rattle.std.specs.Prelude.{◌≡◌, ◌↔◌, ◌+◌, ◌^◌, ◌<◌, true, false, ℕ, List, length, IfOk, IfErr};
ghost use Rattle.pf_journal.specs.Records.{records, contents};
ghost use Rattle.pf_snap.specs.{Banks.records_start, Looked.content_of};
ghost use Rattle.pf_core.specs.Durable.Changes.{PlainDurable};
ghost use Rattle.pf_core.specs.declared.durable.refusal.ChangeRefusal.TheVariants as refusing;
ghost use Rattle.pf_store.specs.declared.encoding.fault.GroupFault.TheVariants as group;
ghost use Rattle.pf_store.specs.declared.encoding.recorded.Recorded.{Recorded};
ghost use Rattle.pf_store.specs.{Durables.IsDurable, Groups.IsRecorded, Stores.{FollowInTurn, Follows, left_by, left_by_all, Leads, Makes}, StoreFaults.BreaksOff, Openings.{BreaksInSnapshot, StopsAt, MakesNone}};

use crate::encoding::{GroupFault, Recorded, read_group};
use crate::snapshots::read_durable;
use crate::store::fault::OpenFault;
use pf_core::{ChangeRefusal, Durable};
use pf_snap::{BANK_HEADER, Looked};
use std::alloc::Global;

/// Bytes before a record's payload: its gate and the length.
const RECORD_FRONT: usize = 5;

/// What the snapshot and the payloads that a look found make. `Err`: they make nothing that can be kept, or out of memory.
pub(crate) fn replay(alloc: Global, looked: &Looked) -> Result<Durable, OpenFault>
    requires start { looked.now.start ≡ records_start looked.now.at looked.now.snapshot.items }
    requires gate { looked.now.gate ≡ looked.now.start + length (records (contents looked.now.payloads.items)) }
    ensures whole { IfOk result (λ d. looked.now.broken ≡ false) }
    ensures made { IfOk result (λ d. Makes (content_of looked.now) d) }
    ensures refused { IfErr result (λ e. BreaksOff e (MakesNone (looked.now.broken ≡ true) looked.now.at (content_of looked.now))) }
{
    let (start, gate) = (looked.start, looked.gate);
    match first_kept(alloc, looked.version, looked.at, &looked.snapshot) {
        Ok(first) => replay_from(alloc, first, looked, start, gate),
        Err(fault) => Err(fault),
    }
}

// The same, given what the snapshot is of, and the places of the first record's gate and of the one after the records.
fn replay_from(
    alloc: Global,
    first: Durable,
    looked: &Looked,
    start: usize,
    gate: usize,
) -> Result<Durable, OpenFault>
    requires kept { IsDurable looked.now.version first looked.now.snapshot.items }
    requires start { start ≡ records_start looked.now.at looked.now.snapshot.items }
    requires gate { gate ≡ start + length (records (contents looked.now.payloads.items)) }
    ensures whole { IfOk result (λ d. looked.now.broken ≡ false) }
    ensures made { IfOk result (λ d. Makes (content_of looked.now) d) }
    ensures refused { IfErr result (λ e. BreaksOff e (MakesNone (looked.now.broken ≡ true) looked.now.at (content_of looked.now))) }
{
    match follow_all(alloc, looked.version, first, start, &looked.payloads) {
        Ok(durable) => {
            if looked.broken {
                return Err(OpenFault::Corrupt { at: gate });
            }
            Ok(durable)
        }
        Err(fault) => Err(fault),
    }
}

// What the snapshot of the bank at place `bank`, of this version, is of.
fn first_kept(
    alloc: Global,
    version: u8,
    bank: usize,
    snapshot: &[u8],
) -> Result<Durable, OpenFault>
    requires { bank + BANK_HEADER < 2 ^ 64 }
    ensures kept { IfOk result (λ d. IsDurable version d snapshot.now) }
    ensures refused { IfErr result (λ e. BreaksOff e (BreaksInSnapshot version bank snapshot.now)) }
{
    match read_durable(alloc, version, snapshot) {
        Ok(durable) => Ok(durable),
        Err(GroupFault::Memory) => Err(OpenFault::Memory),
        Err(GroupFault::NoForm) => Err(OpenFault::Corrupt {
            at: bank + BANK_HEADER,
        }),
    }
}

// What is kept after the groups of all payloads, in this version. The first record's gate is at `start`.
fn follow_all(
    alloc: Global,
    version: u8,
    first: Durable,
    start: usize,
    payloads: &[Vec<u8>],
) -> Result<Durable, OpenFault>
    requires small { start + length (records (contents payloads.now)) < 2 ^ 64 }
    ensures led { IfOk result (λ d. Leads version first (contents payloads.now) d) }
    ensures refused { IfErr result (λ e. BreaksOff e (StopsAt version first start (contents payloads.now))) }
{
    let mut durable = first;
    let mut gate = start;
    for payload in payloads {
        durable = match follow(alloc, version, durable, payload) {
            Ok(after) => after,
            Err(GroupFault::Memory) => return Err(OpenFault::Memory),
            Err(GroupFault::NoForm) => return Err(OpenFault::Corrupt { at: gate }),
        };
        gate += RECORD_FRONT + payload.len();
    }
    Ok(durable)
}

// What is kept after the group that has this payload, in this version. `NoForm`: no group that has it follows what is kept.
fn follow(
    alloc: Global,
    version: u8,
    durable: Durable,
    payload: &[u8],
) -> Result<Durable, GroupFault>
    ensures followed { IfOk result (λ d. (xs : List Recorded) × IsRecorded version xs payload.now × FollowInTurn durable xs
        × (d ≡ left_by_all durable xs)) }
    ensures none { IfErr result (λ e. e ≡ group.NoForm → (xs : List Recorded) → IsRecorded version xs payload.now
        → ¬ FollowInTurn durable xs) }
{
    match read_group(alloc, version, payload) {
        Ok(records) => left_by_all(alloc, durable, records.as_slice()),
        Err(GroupFault::Memory) => Err(GroupFault::Memory),
        Err(GroupFault::NoForm) => Err(GroupFault::NoForm),
    }
}

// What is kept after all of these. `NoForm`: one of them doesn't follow.
fn left_by_all(alloc: Global, durable: Durable, records: &[Recorded]) -> Result<Durable, GroupFault>
    ensures left { IfOk result (λ d. FollowInTurn durable records.now × (d ≡ left_by_all durable records.now)) }
    ensures none { IfErr result (λ e. e ≡ group.NoForm → ¬ FollowInTurn durable records.now) }
{
    let mut left = durable;
    for next in records {
        left = match left_by(alloc, &left, next) {
            Ok(after) => after,
            Err(fault) => return Err(fault),
        };
    }
    Ok(left)
}

// What is kept after this one. `NoForm`: it doesn't follow.
fn left_by(alloc: Global, durable: &Durable, next: &Recorded) -> Result<Durable, GroupFault>
    ensures left { IfOk result (λ d. Follows durable.now next.now × (d ≡ left_by durable.now next.now)) }
    ensures none { IfErr result (λ e. e ≡ group.NoForm → ¬ Follows durable.now next.now) }
{
    match next {
        Recorded::Made(change) => match durable.apply(alloc, change) {
            Ok(after) => Ok(after),
            Err(refusal) => Err(unfit(refusal)),
        },
        Recorded::Opens(epoch) => {
            if u64::from(*epoch) != u64::from(durable.epoch()) + 1 {
                return Err(GroupFault::NoForm);
            }
            match durable.in_epoch(*epoch) {
                Ok(after) => Ok(after),
                Err(_) => Err(GroupFault::Memory),
            }
        }
    }
}

// `Memory` is the only refusal that isn't due to the change.
fn unfit(refusal: ChangeRefusal) -> GroupFault
    ensures memory { (result ≡ group.Memory) ↔ (refusal ≡ refusing.Memory) }
    ensures other { result ≡ group.NoForm → refusal ≡ refusing.Memory → ⊥ }
{
    match refusal {
        ChangeRefusal::Memory => GroupFault::Memory,
        ChangeRefusal::Twice { .. } => GroupFault::NoForm,
        ChangeRefusal::Conflict { .. } => GroupFault::NoForm,
        ChangeRefusal::TableFull => GroupFault::NoForm,
        ChangeRefusal::TooManyRulesets => GroupFault::NoForm,
        ChangeRefusal::TooManyTables => GroupFault::NoForm,
        ChangeRefusal::StatesFull => GroupFault::NoForm,
        ChangeRefusal::BadTick => GroupFault::NoForm,
    }
}
