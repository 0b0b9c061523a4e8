//! The first byte of each message, how long its header is, and numbers in its bytes.
ghost use Rattle.std.specs.Prelude.{◌≡◌, ◌+◌, ◌≤◌, length};
ghost use Rattle.pf_rule.specs.Bytes.{number_at};

use byteorder::{BigEndian, ByteOrder};

/// The first byte of each message.
pub(crate) const MESSAGE_VERSION: u8 = 5;
/// How many bytes the header of a message has.
pub const MESSAGE_HEADER: usize = 20;

/// The number in two bytes at a place.
#[tactic(auto, unfolding(pf_rule::specs::Bytes::number_at))]
pub(crate) fn u16_at(place: usize, bytes: &[u8]) -> u16
    requires { place + 2 ≤ length bytes.now }
    ensures { result ≡ number_at place 2 bytes.now }
{
    BigEndian::read_u16(&bytes[place..])
}

/// The number in four bytes at a place.
#[tactic(auto, unfolding(pf_rule::specs::Bytes::number_at))]
pub(crate) fn u32_at(place: usize, bytes: &[u8]) -> u32
    requires { place + 4 ≤ length bytes.now }
    ensures { result ≡ number_at place 4 bytes.now }
{
    BigEndian::read_u32(&bytes[place..])
}

/// The number in eight bytes at a place.
#[tactic(auto, unfolding(pf_rule::specs::Bytes::number_at))]
pub(crate) fn u64_at(place: usize, bytes: &[u8]) -> u64
    requires { place + 8 ≤ length bytes.now }
    ensures { result ≡ number_at place 8 bytes.now }
{
    BigEndian::read_u64(&bytes[place..])
}
