//! The names of interfaces, which packets come with.
ghost use Rattle.std.specs.{Prelude.{◌≡◌, ◌==◌, ◌<◌, true, take, drop, Some, IfSome}, List.position, Result.result_ok, Int.{from_le_bytes, w64}};
ghost use Rattle.pf_rule.specs.Value.Values.{interface_of};
ghost use Rattle.wirdalf_c.specs.Packets.{name_in};

use pf_rule::Interface;
use std::array;

// A name as C gave it, and as it was read.
#[derive(Drop)]
struct ReadName {
    given: [u8; 16],
    interface: Interface,
    ghost is_read: { result_ok (interface_of (name_in given)) ≡ Some interface },
}

impl ReadName {
    // The name that stands in each place at first.
    fn first() -> ReadName {
        ReadName {
            given: *b"lo0\0\0\0\0\0\0\0\0\0\0\0\0\0",
            interface: Interface::from_ascii(b"lo0").unwrap(),
        }
    }

    // The interface of a name up to its first zero, which then stands here. `None`: it is no name, and the one before stands.
    fn read(&mut self, given: &[u8; 16]) -> Option<Interface>
        ensures { result ≡ result_ok (interface_of (name_in given.now)) }
    {
        if !is_same(given, &self.given) {
            let Ok(interface) = Interface::from_ascii(name_in(given)) else {
                return None;
            };
            *self = ReadName {
                given: *given,
                interface,
            };
        }
        Some(self.interface)
    }
}

// More than most machines have interfaces, so that few names take each other's place.
const PLACES: usize = 64;

/// Names that were read, each in a place that its bytes name. There are few interfaces and many packets, and to find a name takes a tenth of
/// the instructions that it takes to read one.
#[derive(Drop)]
pub struct ReadNames {
    places: [ReadName; PLACES],
}

impl ReadNames {
    /// None that C has given.
    pub fn none() -> ReadNames {
        ReadNames {
            places: array::from_fn(|_| ReadName::first()),
        }
    }

    /// The interface of a name up to its first zero. `None`: it is no name.
    pub fn read(&mut self, given: &[u8; 16]) -> Option<Interface>
        ensures { result ≡ result_ok (interface_of (name_in given.now)) }
    {
        self.places[place_of(given)].read(given)
    }
}

// The place of a name. The highest bits of a product come of all bits that are multiplied, so names that differ in one byte are mostly apart.
fn place_of(name: &[u8; 16]) -> usize
    ensures { result < PLACES }
{
    let (first, last) = halves(name);
    let mixed = (first ^ last).wrapping_mul(0x9E37_79B9_7F4A_7C15);
    (mixed >> 58) as usize % PLACES
}

// The first eight bytes and the last, as numbers: so two names are compared in two steps.
fn halves(name: &[u8; 16]) -> (u64, u64)
    ensures first { result.0 ≡ from_le_bytes w64 (take 8 name.now) }
    ensures last { result.1 ≡ from_le_bytes w64 (drop 8 name.now) }
{
    let [a, b, c, d, e, f, g, h, i, j, k, l, m, n, o, p] = *name;
    let first = u64::from_le_bytes([a, b, c, d, e, f, g, h]);
    (first, u64::from_le_bytes([i, j, k, l, m, n, o, p]))
}

fn is_same(one: &[u8; 16], other: &[u8; 16]) -> bool
    ensures { result ≡ true → one.now ≡ other.now }
{
    let (first, last) = halves(one);
    let (other_first, other_last) = halves(other);
    if first != other_first || last != other_last {
        return false;
    }
    true
}

fn first_zero(bytes: &[u8; 16]) -> Option<usize>
    ensures place { result ≡ position (λ b. b == 0) bytes.now }
    ensures within { IfSome result (λ i. i < 16) }
{
    bytes.iter().position(|b| *b == 0)
}

// The name up to the first zero.
fn name_in(bytes: &[u8; 16]) -> &[u8]
    ensures { result.now ≡ name_in bytes.now }
{
    match first_zero(bytes) {
        Some(end) => &bytes[..end],
        None => bytes,
    }
}
