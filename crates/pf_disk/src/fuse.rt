// A device that fails the calls that it is set to fail.
ghost use Rattle.std.specs.Prelude.{◌≡◌, ◌⊎◌, ◌+◌, ◌-◌, ◌^◌, ◌<◌, ◌≤◌, true, false, List, ℕ, length, take, drop, IfOk, IfSome, OnOk, OnErr};
ghost use Rattle.std.specs.Prelude.{MatchResult};
ghost use Rattle.pf_disk.specs.Disk.{IsImage, IsSynced, AreIn, is_within, with_range, overwritten, Elapses, CountsFault};
ghost use Rattle.pf_disk.specs.Burning.{blows, burnt, counted, passed_on, tears};

use crate::{Disk, DiskFault, Fill, OPEN_GATE};
use std::alloc::{AllocError, Global};

// Which calls fail: none, all after so many that pass, the one after so many that pass, or that one, which tears a write.
#[derive(Drop)]
enum Fuse {
    Whole,
    After(u64),
    Once(u64),
    Torn(u64),
}

// What a torn write leaves in its range, and where the memory for it comes from.
#[derive(Drop)]
struct Tear {
    alloc: Global,
    fill: Fill<'static>,
}

/// Passes calls on to another device, and fails where its fuse says. A call that it fails isn't passed on and changes nothing
/// but the count of faults, except for a write that it tears.
#[derive(Drop)]
pub struct FuseDisk<D: Disk> {
    inner: D,
    fuse: Fuse,
    tear: Option<Tear>,
    refused: u64,
    passed: u64,
    ghost few: { D.fault_count inner + refused ≤ 2 ^ 63 },
}

impl<D: Disk> FuseDisk<D> {
    ghost use Rattle.pf_disk.specs.declared.fuse.Fuse.TheVariants.{After, Once, Torn, Whole};
    ghost use Rattle.pf_disk.specs.Fuse.{inner_of, fuse_of, passed_of, refused_of};

    /// Passes `k` calls on, and then fails all.
    pub fn after(disk: D, k: u64) -> FuseDisk<D>
        requires { D.fault_count disk ≤ 2 ^ 63 }
        ensures inner { inner_of result ≡ disk }
        ensures fuse { fuse_of result ≡ After k }
        ensures none_refused { refused_of result ≡ 0 }
    {
        FuseDisk {
            inner: disk,
            fuse: Fuse::After(k),
            tear: None,
            refused: 0,
            passed: 0,
        }
    }

    /// Fails call number `k + 1` alone.
    pub fn once(disk: D, k: u64) -> FuseDisk<D>
        requires { D.fault_count disk ≤ 2 ^ 63 }
        ensures inner { inner_of result ≡ disk }
        ensures fuse { fuse_of result ≡ Once k }
        ensures none_refused { refused_of result ≡ 0 }
    {
        FuseDisk {
            inner: disk,
            fuse: Fuse::Once(k),
            tear: None,
            refused: 0,
            passed: 0,
        }
    }

    /// Fails call number `k + 1` alone. If that call is a write it is torn: it fails, and its range then holds what the fill says.
    ///
    /// - `Old`: what was there.
    /// - `New`: the bytes that were to be written.
    /// - `Inverted`: these with all bits inverted.
    /// - `Zeros`: bytes 00.
    /// - `Open`: bytes [`OPEN_GATE`].
    /// - `Bytes`: of these bytes, one for each place of the device, those at the range's places. If there are too few of them, what was
    /// there.
    ///
    /// If memory for the fill runs out, what was there stays. If the device fails at the torn write, the range is as the device leaves it.
    pub fn torn(alloc: Global, disk: D, k: u64, fill: Fill<'static>) -> FuseDisk<D>
        requires { D.fault_count disk ≤ 2 ^ 63 }
        ensures inner { inner_of result ≡ disk }
        ensures fuse { fuse_of result ≡ Torn k }
        ensures none_refused { refused_of result ≡ 0 }
    {
        FuseDisk {
            inner: disk,
            fuse: Fuse::Torn(k),
            tear: Some(Tear { alloc, fill }),
            refused: 0,
            passed: 0,
        }
    }

    /// How many calls were passed on so far, at most 2^64 - 1. A torn write isn't one of them.
    pub fn passed(&self) -> u64
        ensures { result ≡ passed_of self.now }
    {
        self.passed
    }

    // A write that fails, and leaves its range as the fill says. The device's own fault is counted by the device.
    fn tear(&mut self, at: usize, bytes: &[u8]) -> Result<(), DiskFault>
        requires within { at + length bytes.now ≤ length (D.seen self.old.inner) }
        requires few { D.fault_count self.old.inner + self.old.refused < 2 ^ 63 }
        ensures fuse { self.new.fuse ≡ Whole }
        ensures passed { self.new.passed ≡ self.old.passed }
        ensures fails { OnOk result ⊥ }
        ensures elsewhere { IsImage (D.seen self.old.inner) (is_within at (length bytes.now)) (D.seen self.new.inner) }
        ensures unsynced { AreIn (D.unsynced self.new.inner) (with_range at (length bytes.now) (D.unsynced self.old.inner)) }
        ensures still { AreIn (D.unsynced self.old.inner) (D.unsynced self.new.inner) }
        ensures failed { (D.seen self.new.inner ≡ D.seen self.old.inner)
            ⊎ AreIn (is_within at (length bytes.now)) (D.unsynced self.new.inner) }
        ensures time { Elapses (D.moment self.old.inner) (D.moment self.new.inner) (D.left_since self.old.inner)
            (D.left_since self.new.inner) (D.seen self.new.inner) (D.unsynced self.new.inner) }
        ensures faults { D.fault_count self.new.inner + self.new.refused ≡ D.fault_count self.old.inner + self.old.refused + 1 }
    {
        self.fuse = Fuse::Whole;
        let torn = match &self.tear {
            Some(tear) => torn_bytes(tear, at, bytes),
            None => Ok(None),
        };
        if let Ok(Some(torn)) = torn {
            self.inner.write_at(at, &torn)?;
        }
        self.refused += 1;
        Err(DiskFault)
    }

    /// The device as it stands.
    pub fn into_inner(self) -> D
        ensures { result ≡ inner_of self }
    {
        let FuseDisk {
            inner,
            fuse: _,
            tear: _,
            refused: _,
            passed: _,
        } = self;
        inner
    }
}

// One call: it passes, or it is refused, and either is counted.
fn burn(fuse: &mut Fuse, refused: &mut u64, passed: &mut u64) -> Result<(), DiskFault>
    requires { refused.old < 2 ^ 63 }
    ensures fuse { fuse.new ≡ burnt fuse.old }
    ensures refuses { MatchResult result (λ _. blows fuse.old ≡ false) (λ _. blows fuse.old ≡ true) }
    ensures refused { refused.new ≡ counted fuse.old refused.old }
    ensures passed { passed.new ≡ passed_on fuse.old passed.old }
{
    let (next, passes) = match *fuse {
        Fuse::Whole => (Fuse::Whole, true),
        Fuse::After(0) => (Fuse::After(0), false),
        Fuse::After(calls) => (Fuse::After(calls - 1), true),
        Fuse::Once(0) | Fuse::Torn(0) => (Fuse::Whole, false),
        Fuse::Once(calls) => (Fuse::Once(calls - 1), true),
        Fuse::Torn(calls) => (Fuse::Torn(calls - 1), true),
    };
    *fuse = next;
    if passes {
        *passed = passed.saturating_add(1);
        return Ok(());
    }
    *refused += 1;
    Err(DiskFault)
}

// The bytes of a fill, as many as were to be written from place `at` on. `None`: what was there stays.
fn torn_bytes(tear: &Tear, at: usize, bytes: &[u8]) -> Result<Option<Vec<u8>>, AllocError>
    ensures { IfOk result (λ torn. IfSome torn (λ torn. length torn.items ≡ length bytes.now)) }
{
    let alloc = tear.alloc;
    let torn = match tear.fill {
        Fill::Old => return Ok(None),
        Fill::New => bytes.to_vec(alloc)?,
        Fill::Zeros => vec![in alloc; 0u8; bytes.len()]?,
        Fill::Open => vec![in alloc; OPEN_GATE; bytes.len()]?,
        Fill::Inverted => inverted(alloc, bytes)?,
        Fill::Bytes(all) => {
            let there = all.get(at..).and_then(|there| there.get(..bytes.len()));
            match there {
                Some(there) => there.to_vec(alloc)?,
                None => return Ok(None),
            }
        }
    };
    Ok(Some(torn))
}

fn inverted(alloc: Global, bytes: &[u8]) -> Result<Vec<u8>, AllocError>
    ensures { IfOk result (λ torn. length torn.items ≡ length bytes.now) }
{
    let mut torn = bytes.to_vec(alloc)?;
    for byte in &mut torn {
        *byte = !*byte;
    }
    Ok(torn)
}

impl<D: Disk> Disk for FuseDisk<D> {
    ghost seen = { λ f. D.seen f.inner };

    ghost unsynced = { λ f. D.unsynced f.inner };

    ghost moment = { λ f. D.moment f.inner };

    ghost left_since = { λ f. D.left_since f.inner };

    ghost fault_count = { λ f. D.fault_count f.inner + f.refused };

    ghost counts_now = { λ f. D.counts_now f.inner };

    ghost only_now = { λ f. D.only_now f.inner };

    fn size(&self) -> usize {
        self.inner.size()
    }

    fn faults(&self) -> u64 {
        self.inner.faults() + self.refused
    }

    fn read_at(&mut self, at: usize, buf: &mut [u8]) -> Result<(), DiskFault>
        requires within { at + length buf.old ≤ length (D.seen self.old.inner) }
        requires few { D.fault_count self.old.inner + self.old.refused < 2 ^ 63 }
        ensures fuse { self.new.fuse ≡ burnt self.old.fuse }
        ensures passed { self.new.passed ≡ passed_on self.old.fuse self.old.passed }
        ensures refused { self.new.refused ≡ counted self.old.fuse self.old.refused }
        ensures not_passed_on { blows self.old.fuse ≡ true → self.new.inner ≡ self.old.inner }
        ensures refuses { OnOk result (blows self.old.fuse ≡ false) }
        ensures untouched { blows self.old.fuse ≡ true → buf.new ≡ buf.old }
        ensures read { OnOk result (buf.new ≡ take (length buf.old) (drop at (D.seen self.old.inner))) }
        ensures seen { D.seen self.new.inner ≡ D.seen self.old.inner }
        ensures unsynced { AreIn (D.unsynced self.new.inner) (D.unsynced self.old.inner) }
        ensures still { AreIn (D.unsynced self.old.inner) (D.unsynced self.new.inner) }
        ensures time { Elapses (D.moment self.old.inner) (D.moment self.new.inner) (D.left_since self.old.inner)
            (D.left_since self.new.inner) (D.seen self.new.inner) (D.unsynced self.new.inner) }
        ensures faults { CountsFault result (D.fault_count self.old.inner + self.old.refused)
            (D.fault_count self.new.inner + self.new.refused) }
    {
        burn(&mut self.fuse, &mut self.refused, &mut self.passed)?;
        self.inner.read_at(at, buf)
    }

    fn write_at(&mut self, at: usize, bytes: &[u8]) -> Result<(), DiskFault>
        requires within { at + length bytes.now ≤ length (D.seen self.old.inner) }
        requires few { D.fault_count self.old.inner + self.old.refused < 2 ^ 63 }
        ensures fuse { self.new.fuse ≡ burnt self.old.fuse }
        ensures passed { self.new.passed ≡ passed_on self.old.fuse self.old.passed }
        ensures refused { tears self.old.fuse ≡ false → self.new.refused ≡ counted self.old.fuse self.old.refused }
        ensures not_passed_on { blows self.old.fuse ≡ true → tears self.old.fuse ≡ false → self.new.inner ≡ self.old.inner }
        ensures refuses { OnOk result (blows self.old.fuse ≡ false) }
        ensures written { OnOk result (D.seen self.new.inner ≡ overwritten (D.seen self.old.inner) at bytes.now) }
        ensures elsewhere { IsImage (D.seen self.old.inner) (is_within at (length bytes.now)) (D.seen self.new.inner) }
        ensures unsynced { AreIn (D.unsynced self.new.inner) (with_range at (length bytes.now) (D.unsynced self.old.inner)) }
        ensures still { AreIn (D.unsynced self.old.inner) (D.unsynced self.new.inner) }
        ensures marked { OnOk result (AreIn (is_within at (length bytes.now)) (D.unsynced self.new.inner)) }
        ensures failed { OnErr result ((D.seen self.new.inner ≡ D.seen self.old.inner)
            ⊎ AreIn (is_within at (length bytes.now)) (D.unsynced self.new.inner)) }
        ensures time { Elapses (D.moment self.old.inner) (D.moment self.new.inner) (D.left_since self.old.inner)
            (D.left_since self.new.inner) (D.seen self.new.inner) (D.unsynced self.new.inner) }
        ensures faults { CountsFault result (D.fault_count self.old.inner + self.old.refused)
            (D.fault_count self.new.inner + self.new.refused) }
    {
        if let Fuse::Torn(0) = self.fuse {
            return self.tear(at, bytes);
        }
        burn(&mut self.fuse, &mut self.refused, &mut self.passed)?;
        self.inner.write_at(at, bytes)
    }

    fn sync(&mut self) -> Result<(), DiskFault>
        requires few { D.fault_count self.old.inner + self.old.refused < 2 ^ 63 }
        ensures fuse { self.new.fuse ≡ burnt self.old.fuse }
        ensures passed { self.new.passed ≡ passed_on self.old.fuse self.old.passed }
        ensures refused { self.new.refused ≡ counted self.old.fuse self.old.refused }
        ensures not_passed_on { blows self.old.fuse ≡ true → self.new.inner ≡ self.old.inner }
        ensures refuses { OnOk result (blows self.old.fuse ≡ false) }
        ensures synced { OnOk result (IsSynced (D.unsynced self.new.inner)) }
        ensures seen { D.seen self.new.inner ≡ D.seen self.old.inner }
        ensures unsynced { AreIn (D.unsynced self.new.inner) (D.unsynced self.old.inner) }
        ensures still { OnErr result (AreIn (D.unsynced self.old.inner) (D.unsynced self.new.inner)) }
        ensures time { Elapses (D.moment self.old.inner) (D.moment self.new.inner) (D.left_since self.old.inner)
            (D.left_since self.new.inner) (D.seen self.new.inner) (D.unsynced self.new.inner) }
        ensures faults { CountsFault result (D.fault_count self.old.inner + self.old.refused)
            (D.fault_count self.new.inner + self.new.refused) }
    {
        burn(&mut self.fuse, &mut self.refused, &mut self.passed)?;
        self.inner.sync()
    }
}
