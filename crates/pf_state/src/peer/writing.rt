//! Writing messages.
ghost use Rattle.std.specs.Prelude.{◌≡◌, ◌++◌, ◌<◌, ◌≤◌, ◌∷◌, [], length, IfOk, OnOk, List};
ghost use Rattle.byteorder.specs.Endian.{big_bytes};
ghost use Rattle.pf_state.specs.Peer.Messages.{IsMessage};
ghost use Rattle.pf_state.specs.Peer.Written.{message_bytes, message_length, groups_bytes, group_bytes, group_with, Each, IsGroup};

use crate::peer::fields::{MESSAGE_HEADER, MESSAGE_VERSION};
use crate::peer::message::{CLEAR, DELETE, Group, INSERT, MESSAGE_LIMIT, Message};
use crate::peer::record::PeerRecord;
use byteorder::{BigEndian, ByteOrder};
use std::alloc::{AllocError, Global};

/// The bytes of a message, which are read back as that message. The caller ensures that the whole fits in
/// [`MESSAGE_LIMIT`](crate::peer::MESSAGE_LIMIT) bytes: its header, 4 bytes for each group and [`RECORD_LENGTH`](crate::peer::RECORD_LENGTH) for each
/// record. The only error is out of memory.
pub fn write_peer(alloc: Global, message: &Message) -> Result<Vec<u8>, AllocError>
    requires { message_length message.now ≤ MESSAGE_LIMIT }
    ensures written { IfOk result (λ bytes. bytes.items ≡ message_bytes message.now) }
    ensures read { IfOk result (λ bytes. IsMessage bytes.items message.now) }
{
    let mut groups = Vec::new(alloc);
    push_groups(&mut groups, message.groups.as_slice())?;
    let mut out = Vec::new(alloc);
    out.extend_from_slice(&[MESSAGE_VERSION, 0])?;
    push_u16(&mut out, (MESSAGE_HEADER + groups.len()) as u16)?;
    out.extend_from_slice(&message.checksum)?;
    out.extend_from_slice(&groups)?;
    Ok(out)
}

fn push_groups(out: &mut Vec<u8>, groups: &[Group]) -> Result<(), AllocError>
    requires { length (groups_bytes groups.now) < 65536 }
    ensures written { OnOk result (out.new.items ≡ out.old.items ++ groups_bytes groups.now) }
    ensures kept { OnOk result (Each IsGroup groups.now) }
{
    for group in groups {
        push_group(out, group)?;
    }
    Ok(())
}

fn push_group(out: &mut Vec<u8>, group: &Group) -> Result<(), AllocError>
    requires { length (group_bytes group.now) < 65536 }
    ensures written { OnOk result (out.new.items ≡ out.old.items ++ group_bytes group.now) }
    ensures kept { OnOk result (IsGroup group.now) }
{
    match group {
        Group::Inserts(inserts) => push_records(out, INSERT, inserts.as_slice()),
        Group::Deletes(deletes) => push_records(out, DELETE, deletes.as_slice()),
        Group::Clears(clears) => push_records(out, CLEAR, clears.as_slice()),
    }
}

fn push_records<T: PeerRecord>(
    out: &mut Vec<u8>,
    action: u8,
    records: &[T],
) -> Result<(), AllocError>
    requires { length records.now < 65536 }
    ensures written { OnOk result (out.new.items ≡ out.old.items ++ group_with action T.writing records.now) }
    ensures kept { OnOk result (Each T.keeps records.now) }
{
    out.extend_from_slice(&[action, 0])?;
    push_u16(out, records.len() as u16)?;
    for record in records {
        record.push(out)?;
    }
    Ok(())
}

fn push_u16(out: &mut Vec<u8>, number: u16) -> Result<(), AllocError>
    ensures { OnOk result (out.new.items ≡ out.old.items ++ big_bytes 2 number) }
{
    let mut bytes = [0; 2];
    BigEndian::write_u16(&mut bytes, number);
    out.extend_from_slice(&bytes)
}
