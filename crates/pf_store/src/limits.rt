//! How much room a bank keeps. Specs use these constants.

/// Bytes of a snapshot of nothing.
pub const EMPTY_LENGTH: usize = 24;

/// Bytes of a record besides its payload: its gate, the payload's length in four bytes, and the gate after it.
pub const AROUND: usize = 6;

/// Bytes of an opening's payload.
pub const OPENING_PAYLOAD: usize = 6;

/// Bytes of an opening's record, with the gate after it.
pub const OPENING_RECORD: usize = OPENING_PAYLOAD + AROUND;

/// Bytes that a bank has left after a snapshot of what is kept, as room for openings' records.
pub const ROOM_TO_OPEN: usize = 64;

/// Bytes that a bank has left after a snapshot of what is kept in the newest version, if a save in any version left [`ROOM_TO_OPEN`]. They
/// are eight fewer than these, since a snapshot in a version without expiries is eight bytes shorter than one in the newest.
pub const ROOM_KEPT: usize = ROOM_TO_OPEN - 8;
