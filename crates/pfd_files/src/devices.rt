//! What the program does with a disk, whatever kind of disk it is.
ghost use Rattle.std.specs.Prelude.{◌≡◌, ◌<◌, ◌^◌, ◌↔◌, ◌+◌, if◌then◌else◌, false, ℕ, List, length, IfErr, IfOk, IsErrOf, OnErr, OnOk};
ghost use Rattle.pf_addr.specs.Writing.{Continues, Writes};
ghost use Rattle.pf_disk.specs.Disk.{IsImage};
ghost use Rattle.pf_core.specs.Durable.Changes.{kept_nothing};
ghost use Rattle.pf_store.specs.{Banks.IsSize, Stores.Holds};
ghost use Rattle.pfd_files.specs.Showing.{IsShown, is_device_fault, number_line, shown_text, sum_line};

use crate::fault::Fault;
use pf_addr::{write_more, write_more_number};
use pf_core::{Answer, Durable, Reply};
use pf_disk::Disk;
use pf_line::write_reply;
use pf_store::{Store, format};
use std::alloc::Global;
use std::io::{self, Write};

/// Makes a disk hold nothing but the epoch 0, whatever it held. `BadSize` and `Memory`: the disk is as before. `Device`: a call of it
/// failed, and it may hold what it held, or nothing but the epoch 0, or have no bank.
pub fn format_on<D: Disk>(alloc: Global, disk: &mut D) -> Result<(), Fault>
    requires few { D.fault_count disk.old < 2 ^ 63 }
    ensures holds { OnOk result ((c : List ℕ) → IsImage (D.seen disk.new) (D.unsynced disk.new) c → Holds c (kept_nothing 0)) }
    ensures bad_size { IsErrOf result Fault.BadSize ↔ ¬ IsSize (length (D.seen disk.old)) }
    ensures refused { OnErr result (is_device_fault result ≡ false → disk.new ≡ disk.old) }
    ensures same_size { length (D.seen disk.new) ≡ length (D.seen disk.old) }
    ensures faults { D.fault_count disk.new ≡ D.fault_count disk.old + (if is_device_fault result then 1 else 0) }
{
    format(alloc, disk)?;
    Ok(())
}

/// Writes what a disk holds, as it reads, in six lines: `epoch E`, `sum S` in 32 hexadecimal digits, `rulesets N`, `tables N`, `states N`,
/// `tick N`. The disk is neither written nor synced.
///
/// `Output`: a write or a flush failed, after some front of the text was written. Each other fault says why what the disk holds can't be
/// shown, and nothing is written.
pub fn show_on<D: Disk, W: Write>(alloc: Global, disk: &mut D, writer: &mut W) -> Result<(), Fault>
    requires few { D.fault_count disk.old < 2 ^ 63 }
    ensures shown { IsShown result (D.seen disk.old) (W.contents writer.old) (W.contents writer.new) }
    ensures seen { D.seen disk.new ≡ D.seen disk.old }
    ensures faults { D.fault_count disk.new ≡ D.fault_count disk.old + (if is_device_fault result then 1 else 0) }
{
    let durable = Store::peek(alloc, disk)?;
    match write_shown(writer, &durable) {
        Ok(()) => Ok(()),
        Err(_) => Err(Fault::Output),
    }
}

fn write_shown<W: Write>(out: &mut W, durable: &Durable) -> io::Result<()>
    ensures { Writes result (W.contents out.old) (W.contents out.new) (shown_text durable.now) }
{
    let rulesets = durable.config().ruleset_count();
    let tables = durable.config().table_count();
    let so_far = write_number(out, Ok(()), b"epoch ", durable.epoch() as u64);
    let so_far = write_sum(out, so_far, durable.sum());
    let so_far = write_number(out, so_far, b"rulesets ", rulesets as u64);
    let so_far = write_number(out, so_far, b"tables ", tables as u64);
    let so_far = write_number(out, so_far, b"states ", durable.states().len() as u64);
    match write_number(out, so_far, b"tick ", durable.tick()) {
        Ok(()) => out.flush(),
        Err(error) => Err(error),
    }
}

// Each of these writes a line after what was written so far, unless that failed already.

fn write_number<W: Write>(
    out: &mut W,
    so_far: io::Result<()>,
    word: &[u8],
    number: u64,
) -> io::Result<()>
    ensures { Continues so_far (W.contents out.old) result (W.contents out.new) (number_line word.now number) }
{
    let so_far = write_more(out, so_far, word);
    let so_far = write_more_number(out, so_far, number);
    write_more(out, so_far, b"\n")
}

// Writes the checksum as the line `sum` is answered.
fn write_sum<W: Write>(out: &mut W, so_far: io::Result<()>, sum: [u8; 16]) -> io::Result<()>
    ensures { Continues so_far (W.contents out.old) result (W.contents out.new) (sum_line sum) }
{
    let begun = write_more(out, so_far, b"sum ");
    match begun {
        Ok(()) => write_reply(out, &Reply::Answer(Answer::Sum(sum))),
        Err(error) => Err(error),
    }
}
