//! Messages by which a peer that takes over sends its states: their form in bytes, how a stream of them is read in whatever pieces it
//! comes, and how they are written.
//!
//! A message has a header of [`MESSAGE_HEADER`] bytes: the version, a zero byte, the length of the whole message in two bytes, and the
//! checksum of the rules that its states were made by. Groups follow, each an action, a zero byte and a count in two bytes, and that many
//! records of [`RECORD_LENGTH`] bytes; `specs/Peer/Records.antt` has the layout of an insert. In the bytes all numbers have their highest byte
//! first; in the types here they are plain numbers. The form is our own, after that of pfsync(4)'s states. Nothing in a message is
//! authenticated.

mod fault;
mod fields;
mod insert;
mod laws;
mod message;
mod one;
mod reader;
mod record;
mod stream;
mod whole;
mod writing;

pub use fault::{FeedError, OneFault, PeerFault};
pub use fields::MESSAGE_HEADER;
pub use laws::{
    fault_stays_the_same, insert_has_its_form, numbers_of_messages_are_these,
    one_message_has_one_answer, one_message_has_these_bytes, pieces_make_one_stream,
    stream_has_a_reading, stream_has_one_reading, written_message_is_read,
};
pub use message::{Group, MESSAGE_LIMIT, Message, Records};
pub use one::read_one;
pub use reader::{Fed, PeerReader};
pub use record::{Clear, Delete, Insert, InsertFields, RECORD_LENGTH};
pub use writing::write_peer;
