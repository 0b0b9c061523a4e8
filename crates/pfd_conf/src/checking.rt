//! What a file means, as it is printed.
ghost use Rattle.std.specs.{Prelude.{◌≡◌, Ok, IfOk, IfErr}, Fn.FnReturnsAt};
ghost use Rattle.pf_addr.specs.Writing.{Writes};
ghost use Rattle.pf_conf.specs.Resolving.{resolved};
ghost use Rattle.pfd_conf.specs.Taking.{AreRead, Refuses, RefusesOrStops, IsChecked};
ghost use Rattle.pf_conf.specs.Shown.{shown};

use crate::fault::Fault;
use crate::taking::{Taken, take};
use pf_addr::path::Path;
use pf_conf::{Conf, Interface, Mode, Note, write_conf};
use pf_tokens::Contents;
use std::alloc::{AllocError, Global};
use std::io::{self, Write};

/// Writes each note on a line of its own.
fn write_notes<E: Write>(faults: &mut E, notes: &[Note]) -> io::Result<()> {
    for note in notes {
        writeln!(faults, "{note}")?;
    }
    faults.flush()
}

/// What a file means, as [`take`] says. What is noted of it is written once it is taken. `Fault::Output`: that couldn't be written.
pub fn take_noting<F: Fn(&[u8]) -> Result<Contents, AllocError>, E: Write>(
    alloc: Global,
    read: &F,
    interfaces: &[Interface],
    mode: Mode,
    base: &Path,
    name: &str,
    faults: &mut E,
) -> Result<Taken, Fault>
    requires { F.IsAlwaysCallable read.now }
    ensures taken { IfOk result (λ t. resolved t.files interfaces.now mode base.now name.now ≡ Ok t.conf) }
    ensures read { IfOk result (λ t. AreRead (FnReturnsAt F.Fn read.now) t.files) }
    ensures refused { IfErr result (RefusesOrStops (FnReturnsAt F.Fn read.now) interfaces.now mode base.now name.now) }
{
    let taken = take(alloc, read, interfaces, mode, base, name.as_bytes())?;
    match write_notes(faults, taken.conf.notes.as_slice()) {
        Ok(()) => Ok(taken),
        Err(_) => Err(Fault::Output),
    }
}

fn print<W: Write>(out: &mut W, conf: &Conf) -> io::Result<()>
    ensures { Writes result (W.contents out.old) (W.contents out.new) (shown conf.now) }
{
    write_conf(out, conf)?;
    out.flush()
}

/// Writes what a file means that is read for the rulesets from this path on: its rules, and the tables that it fills. Notes go to `faults`.
///
/// The faults are those of [`take`], after which nothing is written. `Fault::Output`: a write or a flush failed.
pub fn check<F: Fn(&[u8]) -> Result<Contents, AllocError>, W: Write, E: Write>(
    alloc: Global,
    read: &F,
    interfaces: &[Interface],
    mode: Mode,
    base: &Path,
    name: &str,
    out: &mut W,
    faults: &mut E,
) -> Result<(), Fault>
    requires { F.IsAlwaysCallable read.now }
    ensures { IsChecked (FnReturnsAt F.Fn read.now) interfaces.now mode base.now name.now result (W.contents out.old) (W.contents out.new) }
{
    let taken = take_noting(alloc, read, interfaces, mode, base, name, faults)?;
    match print(out, &taken.conf) {
        Ok(()) => Ok(()),
        Err(_) => Err(Fault::Output),
    }
}
