//! A packet to be matched by rules in columns.
ghost use Rattle.std.specs.Prelude.{◌≡◌, ◌<◌, ◌≤◌, ℕ, false};
ghost use Rattle.pf_rule.specs.Host.Hosts.{TableTest};
ghost use Rattle.pf_lanes.specs.{Masks.is_set, Answered.{block_bit, block_match}, Columns.AreColumns, Probes.asked};

use crate::columns::Columns;
use crate::kernel::{PacketWords, heads_and_hosts, may_match, ports};
use crate::lanes::{ALL_LANES, LANES};
use crate::plain::{asked_in, matching_in};
use crate::words::{address_words, is_v6, packet_head};
use pf_rule::{Packet, Rule, TableAnswers};
use std::marker::Model;

/// A packet to be matched by rules in columns, eight at a time. The words that the kernels compare are made once, with the number of the
/// packet's interface. Contracts see the rules and the packet.
#[derive(Drop)]
pub struct Probe<'a> {
    rules: &'a [Rule],
    columns: &'a Columns,
    packet: &'a Packet,
    words: PacketWords,
}

impl<'a> Model for Probe<'a> {
    ghost use Rattle.pf_lanes.specs.Probes.{PlainProbe};

    ghost Value = { PlainProbe };

    ghost use Rattle.pf_lanes.specs.KeptProbes.{asking, IsProbe};

    ghost view = { asking };

    ghost invariant = { IsProbe };
}

impl<'a> Probe<'a> {
    /// Prepares a packet for these rules and their columns.
    pub(crate) fn new(rules: &'a [Rule], columns: &'a Columns, packet: &'a Packet) -> Probe<'a>
        requires { AreColumns rules.now columns.now }
        ensures { result ≡ asked rules.now packet.now }
    {
        let words = PacketWords {
            head: packet_head(columns.interfaces.as_slice(), packet),
            is_v6: is_v6(packet.source()),
            source: address_words(packet.source()),
            destination: address_words(packet.destination()),
            source_port: u32::from(packet.source_port()),
            destination_port: u32::from(packet.destination_port()),
        };
        // `direction` promises what every packet maintains
        let _direction = packet.direction();
        Probe {
            rules,
            columns,
            packet,
            words,
        }
    }

    /// Which rules of a block match: bit i is set if rule `8 * block + i` exists and matches. Bit i of `sources` or `destinations` is the
    /// answer of the table that is that rule's source or destination, before `!` inverts it; for other hosts it is ignored. Doesn't
    /// allocate.
    pub fn block(&self, block: usize, sources: u8, destinations: u8) -> u8
        ensures { (i : ℕ) → i < 8 → is_set result i ≡ block_bit self.now.rules self.now.packet block sources destinations i }
    {
        let columns = self.columns;
        if block >= columns.marks.len() {
            return matching_in(self.rules, self.packet, block, sources, destinations);
        }
        let at = LANES * block;
        let marks = columns.marks[block];
        let hosts = heads_and_hosts(columns, &self.words, at, &marks, sources, destinations);
        if hosts == 0 {
            return 0;
        }
        hosts & ports(columns, &self.words, at, &marks)
    }

    /// The first block from `from` on in which a rule may match, or that has no columns: no rule in the blocks passed over matches,
    /// whatever tables say. Doesn't allocate.
    pub fn next_near(&self, from: usize) -> usize
        ensures later { from ≤ result }
        ensures none { (says : TableTest) (block i : ℕ) → from ≤ block → block < result → i < 8 →
            block_match says self.now.rules self.now.packet block i ≡ false }
    {
        let columns = self.columns;
        let end = columns.marks.len();
        for block in from..end {
            let mark = columns.marks[block];
            if may_match(columns, &self.words, LANES * block, mark.special) {
                return block;
            }
        }
        from.max(end)
    }

    /// Which rules of a block match by what tables say: bit i is set if rule `8 * block + i` exists and matches. A table is asked only if
    /// all other tests of a rule hold, and a block without tables costs nothing for them. Doesn't allocate, unless the tables do.
    pub fn matching<T: TableAnswers>(&self, tables: &T, block: usize) -> u8
        ensures { (i : ℕ) → i < 8 → is_set result i ≡ block_match (T.says tables.now) self.now.rules self.now.packet block i }
    {
        let columns = self.columns;
        if block >= columns.marks.len() {
            return asked_in(self.rules, tables, self.packet, block, ALL_LANES);
        }
        let marks = columns.marks[block];
        // as if every host that is a table held
        let near = self.block(
            block,
            marks.sources.inverted ^ ALL_LANES,
            marks.destinations.inverted ^ ALL_LANES,
        );
        let open = near & (marks.sources.tabled | marks.destinations.tabled);
        if open == 0 {
            return near;
        }
        near ^ open | asked_in(self.rules, tables, self.packet, block, open)
    }
}
