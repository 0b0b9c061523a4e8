//! Disks in files. What a file holds no contract can say, so that is only tested.
ghost use Rattle.std.specs.Prelude.{◌≡◌, ◌⊎◌, Err, Ok, IfErr, IfOk, IsErrOf};
ghost use Rattle.pf_store.specs.Banks.{IsSize};
ghost use Rattle.pfd_files.specs.Showing.{IsOfFile, ShownOfFile};

use crate::devices::{format_on, show_on};
use crate::fault::Fault;
use pf_disk::{Disk, FileDisk};
use pf_snap::is_size;
use std::alloc::Global;
use std::fs::{File, Files, OpenOptions, TryLockError};
use std::io::Write;

/// Makes the file `size` bytes long, whether it was there or not, and a disk that holds nothing.
///
/// The faults come in this order. `Input`: the file can't be opened or made, or is locked, whatever the size is. `BadSize`: no disk has
/// `size` bytes; a file that was there is as it was, and one that wasn't is there now, empty. `Input`: the file can't be brought to its
/// length. Then the faults of [`FileDisk::of`] and [`format_on`]: the file has its new length, and may hold what it held.
pub fn format_file<S: Files<File = File>>(
    alloc: Global,
    files: &S,
    path: &str,
    size: usize,
) -> Result<(), Fault>
    ensures bad_size { IsErrOf result Fault.BadSize → ¬ IsSize size }
    ensures refused { ¬ IsSize size → (result ≡ Err Fault.Input) ⊎ (result ≡ Err Fault.BadSize) }
{
    let file = of_size(open_to_write(files, path, true), size)?;
    if file.set_len(size as u64).is_err() {
        return Err(Fault::Input);
    }
    let mut disk = FileDisk::of(alloc, file, size)?;
    format_on(alloc, &mut disk)
}

/// Opens the disk in a file, which is locked until the disk is dropped. The file must have `size` bytes, if a size is given.
///
/// `Input`: it can't be opened, or another program has locked it. `BadSize`: no disk has as many bytes as the file has, or they aren't
/// `size`. Then come the faults of [`FileDisk::of`]. The file is closed after a fault, and nothing was written to it.
pub fn open_file<S: Files<File = File>>(
    alloc: Global,
    files: &S,
    path: &str,
    size: Option<usize>,
) -> Result<FileDisk, Fault>
    ensures faults { IfOk result (λ disk. ⟦<FileDisk as Disk>⟧.fault_count disk ≡ 0) }
    ensures cause { IfErr result IsOfFile }
{
    let file = open_to_write(files, path, false)?;
    let found = length_of(&file)?;
    if !is_size(found) || size.unwrap_or(found) != found {
        return Err(Fault::BadSize);
    }
    let disk = FileDisk::of(alloc, file, found)?;
    Ok(disk)
}

/// Writes what the disk in a file holds, as [`show_on`] does, and with its faults. The file is opened for reading only; `Input`: it can't
/// be.
pub fn show_file<S: Files<File = File>, W: Write>(
    alloc: Global,
    files: &S,
    path: &str,
    writer: &mut W,
) -> Result<(), Fault>
    ensures { ShownOfFile ⟦<FileDisk as Disk>⟧.seen result (W.contents writer.old) (W.contents writer.new) }
{
    let Ok(file) = File::open(files, path) else {
        return Err(Fault::Input);
    };
    let size = length_of(&file)?;
    if !is_size(size) {
        return Err(Fault::BadSize);
    }
    let mut disk = FileDisk::of(alloc, file, size)?;
    show_on(alloc, &mut disk, writer)
}

// Opens a file, made if it is missing and may be made, and locks it until it is closed. A file that another has locked isn't opened.
fn open_to_write<S: Files<File = File>>(
    files: &S,
    path: &str,
    may_make: bool,
) -> Result<File, Fault>
    ensures { IfErr result (λ fault. fault ≡ Fault.Input) }
{
    let opened = OpenOptions::new()
        .read(true)
        .write(true)
        .create(may_make)
        .open(files, path);
    let Ok(file) = opened else {
        return Err(Fault::Input);
    };
    match file.try_lock() {
        Err(TryLockError::WouldBlock) => Err(Fault::Input),
        // where files can't be locked it goes on without a lock
        _ => Ok(file),
    }
}

// The opened file, if a disk may have `size` bytes. A fault of the opening comes before a bad size.
fn of_size(opened: Result<File, Fault>, size: usize) -> Result<File, Fault>
    ensures unopened { IfErr opened (λ fault. result ≡ Err fault) }
    ensures given { IsSize size → result ≡ opened }
    ensures refused { ¬ IsSize size → IfOk opened (λ _. result ≡ Err Fault.BadSize) }
{
    let file = opened?;
    if is_size(size) {
        Ok(file)
    } else {
        Err(Fault::BadSize)
    }
}

// How many bytes a file has.
fn length_of(file: &File) -> Result<usize, Fault>
    ensures { IfErr result (λ fault. fault ≡ Fault.Input) }
{
    match file.metadata() {
        // a directory can be opened but not read
        Ok(metadata) if !metadata.is_dir() => Ok(metadata.len() as usize),
        _ => Err(Fault::Input),
    }
}
