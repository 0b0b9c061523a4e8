//! Reading a whole message: its groups and their records.
ghost use Rattle.std.specs.Prelude.{◌≡◌, ◌*◌, ◌<◌, ◌≤◌, length, List, IfOk, IfErr};
ghost use Rattle.pf_state.specs.Peer.Groups.{records_of, group_at, content, AreGroups, BreakAfterGroups, is_action};
ghost use Rattle.pf_state.specs.{Peer.Messages.{IsWhole, IsJudged}, Peer.Outcomes.{Gives, IfFault}};
ghost use Rattle.pf_state.specs.declared.peer.message.Group.{Group};

use crate::peer::fault::{PeerFault, ReadError};
use crate::peer::fields::{MESSAGE_HEADER, u16_at};
use crate::peer::message::{CLEAR, DELETE, Group, INSERT, Message, Records};
use crate::peer::record::{PeerRecord, RECORD_LENGTH};
use pf_form::bytes::Undecoded;
use std::alloc::{AllocError, Global};

/// How many bytes the header of a group has.
pub(crate) const GROUP_HEADER: usize = 4;

/// The message in these bytes, whose header was already checked, or the fault of the first group that is invalid.
pub(crate) fn message_of(
    alloc: Global,
    bytes: &[u8],
) -> Result<Result<Message, PeerFault>, AllocError>
    requires { IsWhole bytes.now }
    ensures { IfOk result (IsJudged bytes.now) }
{
    let mut checksum = [0; 16];
    checksum.copy_from_slice(&bytes[4..MESSAGE_HEADER]);
    match groups_of(alloc, &bytes[MESSAGE_HEADER..]) {
        Ok(groups) => Ok(Ok(Message { checksum, groups })),
        Err(ReadError::Memory) => Err(AllocError),
        Err(ReadError::Fault(fault)) => Ok(Err(fault)),
    }
}

// The groups in these bytes.
fn groups_of(alloc: Global, bytes: &[u8]) -> Result<Records<Group>, ReadError>
    ensures found { IfOk result (λ gs. AreGroups bytes.now gs) }
    ensures fault { IfErr result (λ e. IfFault e (λ f. (before : List Group) × BreakAfterGroups before bytes.now f)) }
{
    let mut groups = Vec::new(alloc);
    let mut rest = bytes;
    while !rest.is_empty() {
        let (group, following) = group_of(alloc, rest)?;
        groups.push(group)?;
        rest = following;
    }
    Ok(Records::new(groups))
}

// The group at the front, and the bytes after it.
#[tactic(auto, unfolding(crate::specs::Peer::Groups::group_at))]
fn group_of(alloc: Global, bytes: &[u8]) -> Result<(Group, &[u8]), ReadError>
    ensures given { Gives (λ x. (x.0, x.1.now)) result (group_at bytes.now) }
    ensures shorter { IfOk result (λ x. length x.1.now < length bytes.now) }
{
    if bytes.len() < GROUP_HEADER {
        return Err(ReadError::Fault(PeerFault::BadLength));
    }
    let action = bytes[0];
    if !(is_action(action) && bytes[1] == 0) {
        return Err(ReadError::Fault(PeerFault::BadAction));
    }
    let count = u16_at(2, bytes) as usize;
    let following = &bytes[GROUP_HEADER..];
    if following.len() < RECORD_LENGTH * count {
        return Err(ReadError::Fault(PeerFault::BadLength));
    }
    let group = content_of(alloc, action, count, following)?;
    Ok((group, &following[RECORD_LENGTH * count..]))
}

fn is_action(action: u8) -> bool
    ensures { result ≡ is_action action }
{
    action == INSERT || action == DELETE || action == CLEAR
}

// The content of this many records of an action.
#[tactic(auto, unfolding(crate::specs::Peer::Groups::content))]
fn content_of(alloc: Global, action: u8, count: usize, bytes: &[u8]) -> Result<Group, ReadError>
    requires { RECORD_LENGTH * count ≤ length bytes.now }
    ensures { Gives (λ g. g) result (content action count bytes.now) }
{
    if action == INSERT {
        return Ok(Group::Inserts(records_of(alloc, count, bytes)?));
    }
    if action == DELETE {
        return Ok(Group::Deletes(records_of(alloc, count, bytes)?));
    }
    Ok(Group::Clears(records_of(alloc, count, bytes)?))
}

// This many records from the front.
fn records_of<T: PeerRecord>(
    alloc: Global,
    count: usize,
    bytes: &[u8],
) -> Result<Records<T>, ReadError>
    requires { RECORD_LENGTH * count ≤ length bytes.now }
    ensures { Gives (λ r. r) result (records_of T.reading count bytes.now) }
{
    let mut records = Vec::new(alloc);
    let mut rest = bytes;
    for _ in 0..count {
        let (record, following) = rest.split_at(RECORD_LENGTH);
        match T::from_row(alloc, record) {
            Ok(read) => records.push(read)?,
            Err(Undecoded::Memory) => return Err(ReadError::Memory),
            Err(Undecoded::Fault(_)) => return Err(ReadError::Fault(PeerFault::BadRecord)),
        }
        rest = following;
    }
    Ok(Records::new(records))
}
