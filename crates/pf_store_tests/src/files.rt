// Devices over files, beside one in memory. The files are in the directory where the program runs.
ghost use Rattle.std.specs.Prelude.{◌≡◌, length, IfOk};

use crate::chance::Chance;
use pf_disk::{Disk, FileDisk, Fill, MemDisk};
use pf_journal::ReadFault;
use std::alloc::Global;
use std::fs::{self, File, OpenOptions};
use std::os::unix::fs::FileExt;

/// The bytes of each file that is written, all of them the digit 0.
const SIZE: usize = 4096;

/// The files that are images of disks, made by programs that knew no second bank, or no later version than their name says.
const IMAGE_NAMES: &[&str] = &[
    "one-bank-formatted",
    "one-bank-opened",
    "one-bank-one-table",
    "one-bank-without-room",
    "one-bank-rules",
    "one-bank-rules-twice",
    "one-bank-states",
    "one-bank-tables",
    "one-bank-all",
    "one-bank-removed",
    "version-1-formatted",
    "version-1-opened",
    "version-1-one-table",
    "version-1-switched",
    "version-1-rules",
    "version-1-rules-in-a-snapshot",
    "version-1-states",
    "version-1-tables",
    "version-1-all",
    "version-1-full",
    "version-2-formatted",
    "version-2-opened",
    "version-2-one-table",
    "version-2-switched",
    "version-2-rules",
    "version-2-rules-in-a-snapshot",
    "version-2-states",
    "version-2-tables",
    "version-2-all",
    "version-2-group",
    "version-2-over-version-1",
    "version-2-killed",
    "version-2-full",
];

/// A file's bytes, and its name.
#[derive(Drop)]
pub struct Image {
    pub name: String,
    pub bytes: Vec<u8>,
}

/// The images of older versions that lie among the files.
pub fn older_images(rt: &HostRuntime) -> Result<Vec<Image>, ReadFault> {
    let mut images = Vec::new(rt.alloc());
    for name in IMAGE_NAMES {
        images.push(read_image(rt, name)?)?;
    }
    Ok(images)
}

fn read_image(rt: &HostRuntime, name: &str) -> Result<Image, ReadFault> {
    let name = String::from_str(rt.alloc(), name)?;
    match fs::read(rt, name.as_str()) {
        Ok(bytes) => Ok(Image { name, bytes }),
        Err(_) => Err(ReadFault::Fault),
    }
}

pub fn play(rt: &HostRuntime, reported: &mut String) -> Result<(), ReadFault> {
    tell_script(rt, reported)?;
    for size in [0, SIZE - 1, SIZE + 1] {
        tell_taken(rt, reported, "script", size)?;
    }
    // Its length is 0, and 0 bytes are read from it, but no system syncs it: so taking a file as a device syncs it, as later syncs do.
    tell_taken(rt, reported, "/dev/null", 0)?;
    tell_other_bytes(rt, reported)?;
    tell_read_only(rt, reported)
}

fn open(rt: &HostRuntime, name: &str) -> Result<File, ReadFault> {
    match OpenOptions::new().read(true).write(true).open(rt, name) {
        Ok(file) => Ok(file),
        Err(_) => Err(ReadFault::Fault),
    }
}

fn device(alloc: Global, file: File) -> Result<FileDisk, ReadFault>
    ensures size { IfOk result (λ disk. length (⟦<FileDisk as Disk>⟧.seen disk) ≡ SIZE) }
    ensures faults { IfOk result (λ disk. ⟦<FileDisk as Disk>⟧.fault_count disk ≡ 0) }
{
    match FileDisk::of(alloc, file, SIZE) {
        Ok(disk) => Ok(disk),
        Err(_) => Err(ReadFault::Fault),
    }
}

/// Makes a thousand reads, writes and syncs, the same ones each time: returns all that the reads gave.
fn played<D: Disk>(alloc: Global, disk: &mut D) -> Result<Vec<u8>, ReadFault> {
    let mut chance = Chance::new(0x2545_F491_4F6C_DD1D);
    let mut given = Vec::new(alloc);
    for _ in 0..1000u32 {
        play_call(disk, chance.number(), &mut given)?;
    }
    Ok(given)
}

/// Makes the call that this number stands for. What a read gives is appended.
fn play_call<D: Disk>(disk: &mut D, random: u64, given: &mut Vec<u8>) -> Result<(), ReadFault> {
    if disk.size() != SIZE || disk.faults() != 0 {
        return Err(ReadFault::Fault);
    }
    let place = (random >> 33) as usize % (SIZE - 64);
    let len = (random >> 24) as usize % 65;
    let mut buffer = [(random >> 56) as u8; 64];
    match random >> 62 {
        0 => disk.sync()?,
        1 => {
            disk.read_at(place, &mut buffer[..len])?;
            given.extend_from_slice(&buffer[..len])?;
        }
        _ => disk.write_at(place, &buffer[..len])?,
    }
    Ok(())
}

/// The same script on a file and in memory.
fn tell_script(rt: &HostRuntime, reported: &mut String) -> Result<(), ReadFault> {
    let alloc = rt.alloc();
    let mut memory = MemDisk::of(alloc, vec![in alloc; b'0'; SIZE]?)?;
    let mut file = device(alloc, open(rt, "script")?)?;
    let given = played(alloc, &mut memory)?;
    let same = played(alloc, &mut file)? == given;
    let mut bytes = vec![in alloc; 0u8; SIZE]?;
    let read = open(rt, "script")?
        .read_exact_at(bytes.as_mut_slice(), 0)
        .is_ok();
    let left = memory.image(alloc, 1000, Fill::New)? == bytes;
    let calls = memory.calls();
    let len = given.len();
    write!(
        reported,
        "{calls} calls gave {len} bytes, on a file the same: {same}, and left it the same: {}\n",
        read && left
    )?;
    Ok(())
}

/// What a file is taken as if it should have `size` bytes.
fn tell_taken(
    rt: &HostRuntime,
    reported: &mut String,
    name: &str,
    size: usize,
) -> Result<(), ReadFault> {
    match FileDisk::of(rt.alloc(), open(rt, name)?, size) {
        Ok(_) => write!(reported, "{name} is a device of {size} bytes\n")?,
        Err(fault) => write!(reported, "{name} is none of {size} bytes: {fault:?}\n")?,
    }
    Ok(())
}

/// A read fails after another program wrote other bytes than were written here.
fn tell_other_bytes(rt: &HostRuntime, reported: &mut String) -> Result<(), ReadFault> {
    let mut disk = device(rt.alloc(), open(rt, "other")?)?;
    let mut buffer = [0u8; 8];
    let before = disk.read_at(8, &mut buffer);
    let other = open(rt, "other")?.write_all_at(b"1", 12).is_ok();
    let after = disk.read_at(8, &mut buffer);
    write!(
        reported,
        "a read: {before:?}, once another writes ({other}): {after:?}\n"
    )?;
    Ok(())
}

/// A file that is open for reading only takes no write, and nothing more after that.
fn tell_read_only(rt: &HostRuntime, reported: &mut String) -> Result<(), ReadFault> {
    let Ok(file) = File::open(rt, "other") else {
        return Err(ReadFault::Fault);
    };
    let mut disk = device(rt.alloc(), file)?;
    let mut buffer = [0u8; 8];
    let before = disk.read_at(8, &mut buffer);
    let answer = disk.write_at(8, b"2");
    let after = disk.read_at(8, &mut buffer);
    let synced = disk.sync();
    let faults = disk.faults();
    write!(
        reported,
        "a read: {before:?}, a write: {answer:?}, then a read: {after:?}, a sync: {synced:?}, {faults} faults\n"
    )?;
    Ok(())
}
