//! The structs that C gives and gets.

/// The version: 10,000 times the major number, 100 times the minor one and the third.
pub const VERSION: u32 = 100;

/// `way` of a packet that comes in.
pub const WAY_IN: u8 = 1;
/// `way` of a packet that goes out.
pub const WAY_OUT: u8 = 2;
/// `family` of a packet with IPv4 addresses.
pub const FAMILY_V4: u8 = 4;
/// `family` of a packet with IPv6 addresses.
pub const FAMILY_V6: u8 = 6;

/// A packet, as C gives it: `struct wirdalf_packet`.
#[repr(C)]
#[derive(Clone, Copy)]
pub struct PacketRecord {
    /// [`WAY_IN`] or [`WAY_OUT`].
    pub way: u8,
    /// [`FAMILY_V4`] or [`FAMILY_V6`], of both addresses.
    pub family: u8,
    /// The protocol's number, 1 to 255.
    pub protocol: u8,
    /// Where it comes from, in host order; 0 unless the protocol is TCP or UDP.
    pub source_port: u16,
    /// Where it goes to, as `source_port`.
    pub destination_port: u16,
    /// Where it comes from, in network order: 16 bytes for IPv6, the first four of them for IPv4.
    pub source: [u8; 16],
    /// Where it goes to, as `source`.
    pub destination: [u8; 16],
    /// The interface's name: 1 to 15 bytes, and a zero.
    pub interface: [u8; 16],
}

/// `by` where the record says no packet: it is blocked, and nothing was judged.
pub const BY_NOTHING: u8 = 0;
/// `by` where a state passes the packet.
pub const BY_STATE: u8 = 1;
/// `by` where a rule decides.
pub const BY_RULE: u8 = 2;
/// `by` where no rule matches, and so the packet passes.
pub const BY_DEFAULT: u8 = 3;
/// `action` where the packet is blocked.
pub const BLOCK: u8 = 0;
/// `action` where the packet passes.
pub const PASS: u8 = 1;

/// What happens to a packet, as C gets it: `struct wirdalf_verdict`. A field that isn't said of a kind of verdict is 0.
#[repr(C)]
#[derive(Clone, Copy)]
pub struct VerdictRecord {
    /// The number of the state that passes it.
    pub state_id: u64,
    /// The host that made that state.
    pub state_creator: u32,
    /// The number of the rule in its ruleset, from 0.
    pub rule: u32,
    /// What decides: [`BY_NOTHING`], [`BY_STATE`], [`BY_RULE`] or [`BY_DEFAULT`].
    pub by: u8,
    /// [`PASS`] or [`BLOCK`].
    pub action: u8,
    /// 1 where a rule passes it and keeps state.
    pub keeps_state: u8,
    /// How many bytes the path of the rule's ruleset has: 0 for the main ruleset.
    pub path_length: u8,
    /// The path, and a zero after it.
    pub path: [u8; 256],
}

/// How much is held, as C gets it: `struct wirdalf_counts`.
#[repr(C)]
#[derive(Clone, Copy)]
pub struct CountsRecord {
    /// The tick.
    pub tick: u64,
    /// How many rulesets there are.
    pub rulesets: u64,
    /// How many tables there are.
    pub tables: u64,
    /// How many states there are.
    pub states: u64,
    /// The epoch of the opening.
    pub epoch: u32,
}

/// How many bytes of a reply find room.
pub const REPLY_LIMIT: usize = 63;

/// The line that isn't done, as C gets it: `struct wirdalf_fault`.
#[repr(C)]
#[derive(Clone, Copy)]
pub struct FaultRecord {
    /// Its number, from 1.
    pub line: u64,
    /// How many bytes the reply has; 0 where `pfd` doesn't refuse the line.
    pub reply_length: u8,
    /// What `pfd` replies to it, and a zero after it.
    pub reply: [u8; 64],
}
