// Numbers that look random, and what came of them.

use std::alloc::{AllocError, Global};
use std::collections::BTreeMap;

/// Where a checksum begins, and by what it is multiplied at each byte.
const CHECKSUM: u64 = 0xcbf2_9ce4_8422_2325;

const FACTOR: u64 = 0x0100_0000_01b3;

/// Numbers that look random, the same ones each time for a seed.
#[derive(Drop)]
pub struct Chance {
    last: u64,
}

impl Chance {
    pub fn new(seed: u64) -> Chance {
        Chance { last: seed }
    }

    /// The next number.
    pub fn number(&mut self) -> u64 {
        self.last = self
            .last
            .wrapping_mul(6_364_136_223_846_793_005)
            .wrapping_add(1_442_695_040_888_963_407);
        self.last
    }

    /// The next number as one below `bound`, or 0 if none is.
    pub fn below(&mut self, bound: usize) -> usize {
        let number = (self.number() >> 33) as usize;
        number.checked_rem(bound).unwrap_or(0)
    }

    /// Another byte: the one above it or below it, one of some that mean something, or any.
    pub fn byte(&mut self, old: u8, some: &[u8]) -> u8 {
        match self.below(4) {
            0 => old.wrapping_add(1),
            1 => old.wrapping_sub(1),
            2 => some.get(self.below(some.len())).copied().unwrap_or(old),
            _ => (self.number() >> 56) as u8,
        }
    }
}

/// How often each kind of outcome came, and a checksum of all outcomes in their order.
#[derive(Drop)]
pub struct Tally {
    counts: BTreeMap<String, u64>,
    checksum: u64,
}

impl Tally {
    pub fn new(alloc: Global) -> Tally {
        Tally {
            counts: BTreeMap::new(alloc),
            checksum: CHECKSUM,
        }
    }

    /// Counts an outcome of a kind.
    pub fn count(&mut self, kind: String, outcome: &str) -> Result<(), AllocError> {
        let count = self.counts.entry(kind)?.or_insert(0);
        *count = count.saturating_add(1);
        for byte in outcome.as_bytes() {
            self.add(*byte);
        }
        self.add(b'\n');
        Ok(())
    }

    fn add(&mut self, byte: u8) {
        self.checksum = (self.checksum ^ u64::from(byte)).wrapping_mul(FACTOR);
    }

    /// Writes each kind and how often it came, in the order of their texts, and the checksum.
    pub fn tell(&self, reported: &mut String) -> Result<(), AllocError> {
        for (kind, count) in self.counts.iter() {
            write!(reported, "\n  {kind}: {count}")?;
        }
        write!(reported, "\n  checksum {:016x}", self.checksum)
    }
}
