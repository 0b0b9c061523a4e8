//! A pf.conf with all files that it names.
ghost use Rattle.std.specs.Prelude.{◌≡◌, [], map, Ok, IfOk, IfErr, OnOk};
ghost use Rattle.std.specs.Fn.{FnReturnsAt};
ghost use Rattle.pf_values.specs.Interfaces.Interfaces.{interface_of};
ghost use Rattle.pf_conf.specs.Resolving.{resolved};
ghost use Rattle.pfd_conf.specs.Taking.{AreRead, IsRefused, Refuses, with_given, interfaces_given, AreGiven, GoesOn};

use crate::fault::Fault;
use pf_addr::path::Path;
use pf_conf::{Conf, Interface, Mode, Unread, read_interface, resolve};
use pf_tokens::{Bytes, Contents, File, Files, Items, READING_LIMIT};
use std::alloc::{AllocError, Global};

/// What a file means, and the files that were read for it, its own among them.
#[derive(Drop)]
pub struct Taken {
    pub files: Files,
    pub conf: Conf,
}

impl Taken {
    /// What a server has: its rules stand in no file.
    pub fn of_server(alloc: Global, conf: Conf) -> Taken
        ensures files { result.files ≡ [] }
        ensures conf { result.conf ≡ conf }
    {
        Taken {
            files: Items::new(alloc),
            conf,
        }
    }
}

/// Appends the interface that a text gives. `Fault::Interface`: it gives none.
fn push_given(alloc: Global, text: &str, interfaces: &mut Items<Interface>) -> Result<(), Fault>
    ensures { GoesOn result interfaces.new (with_given interfaces.old text.now (interface_of text.now)) }
{
    match read_interface(alloc, text.as_bytes())? {
        Some(interface) => Ok(interfaces.push(interface)?),
        None => Err(Fault::interface(alloc, text)?),
    }
}

/// The interfaces that these texts give, each as `em0=192.0.2.1/24,2001:db8::1/64`.
///
/// `Fault::Interface`: the first text that gives none; `Fault::Memory`: out of memory.
#[tactic(auto, using(crate::proofs::Given::given_end))]
pub fn given_interfaces(alloc: Global, texts: &[&str]) -> Result<Items<Interface>, Fault>
    ensures { AreGiven (interfaces_given [] (map (λ t. t.now) texts.now)) result }
{
    let mut interfaces = Items::new(alloc);
    for text in texts {
        push_given(alloc, text, &mut interfaces)?;
    }
    Ok(interfaces)
}

/// Reads a file, and adds it to those that are given.
fn add_read<F: Fn(&[u8]) -> Result<Contents, AllocError>>(
    read: &F,
    files: &mut Files,
    name: Bytes,
) -> Result<(), AllocError>
    requires { F.IsAlwaysCallable read.now }
    ensures { OnOk result (AreRead (FnReturnsAt F.Fn read.now) files.old → AreRead (FnReturnsAt F.Fn read.now) files.new) }
{
    let contents = read(name.as_slice())?;
    files.push(File { name, contents })
}

/// What a file means with the files that were read, or why it isn't taken.
fn taken_or_refused(files: Files, known: Result<Conf, Unread>) -> Result<Taken, Fault>
    ensures taken { IfOk result (λ t. (known ≡ Ok t.conf) × (t.files ≡ files)) }
    ensures refused { IfErr result (IsRefused known) }
{
    match known {
        Ok(conf) => Ok(Taken { files, conf }),
        Err(Unread::Faulty(fault)) => Err(Fault::Conf(fault)),
        Err(Unread::Needs(name)) => Err(Fault::Unread(name)),
        Err(Unread::Memory) => Err(Fault::Memory),
    }
}

/// What a file means that is read for the rulesets from this path on. Each file that it needs is read once, by its name; `read` says what
/// it has.
///
/// `Fault::Conf`: the first fault, with its place; `Fault::Memory`: out of memory, also if `read` ran out of it. `Fault::Unread`: a file is
/// named that wasn't read, which doesn't happen, since no more files are named than may be read.
pub fn take<F: Fn(&[u8]) -> Result<Contents, AllocError>>(
    alloc: Global,
    read: &F,
    interfaces: &[Interface],
    mode: Mode,
    base: &Path,
    name: &[u8],
) -> Result<Taken, Fault>
    requires { F.IsAlwaysCallable read.now }
    ensures taken { IfOk result (λ t. resolved t.files interfaces.now mode base.now name.now ≡ Ok t.conf) }
    ensures read { IfOk result (λ t. AreRead (FnReturnsAt F.Fn read.now) t.files) }
    ensures refused { IfErr result (Refuses (FnReturnsAt F.Fn read.now) interfaces.now mode base.now name.now) }
{
    let mut files = Items::new(alloc);
    'readings: for _ in 0..READING_LIMIT {
        match resolve(alloc, &files, interfaces, mode, base, name) {
            Err(Unread::Needs(name)) => add_read(read, &mut files, name)?,
            known => return taken_or_refused(files, known),
        }
    }
    let known = resolve(alloc, &files, interfaces, mode, base, name);
    taken_or_refused(files, known)
}
