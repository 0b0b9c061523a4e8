//! Loads of a pf.conf into a server. No clause can say what a socket gives and takes, so here it is only tested; pf_load says what is sent.

use crate::program::conf::{mode_of, report_conf_fault};
use crate::stream::Stream;
use pf_addr::path::Path;
use pf_conf::Conf;
use pf_load::{Fault as LoadFault, load, show_changes};
use pfd_conf::{Fault as ConfFault, Taken, given_interfaces, read_conf, take_noting};
use pfd_files::Fault;
use pfd_words::LoadTask;
use std::alloc::Global;
use std::fs::{File, Files};
use std::io::{self, BufRead, BufReader, Write};
use std::net::{Net, TcpListener, TcpStream};

/// Loads a pf.conf into a server, or shows what that would change.
///
/// `Fault::Reported`: what is wrong with the file, or the line that the server refuses, was written to the faults. `Fault::Input`: nobody answers
/// at the address. `Fault::Output`: the server ended before it had answered, or the output can't be written.
pub(crate) fn load_file<
    N: Net<Listener = TcpListener, Stream = TcpStream>,
    S: Files<File = File>,
    W: Write,
    F: Write,
>(
    net: &N,
    alloc: Global,
    files: &S,
    task: &LoadTask<'_>,
    writer: &mut W,
    faults: &mut F,
) -> Result<(), Fault> {
    let taken = match taken(alloc, files, task, faults) {
        Ok(taken) => taken,
        Err(fault) => return Err(report_conf_fault(fault, faults)),
    };
    let Ok(stream) = Stream::connect(net, task.to) else {
        return Err(Fault::Input);
    };
    let Ok(mut replies) = BufReader::new(alloc, &stream) else {
        return Err(Fault::Memory);
    };
    let mut server = &stream;
    match loaded(alloc, &mut server, &mut replies, task, &taken.conf, writer) {
        Ok(()) => Ok(()),
        Err(fault) => Err(report_load_fault(fault, faults)),
    }
}

// What the file means, read for the rulesets from the path on that is typed so. What is noted of it goes to the faults.
fn taken<S: Files<File = File>, F: Write>(
    alloc: Global,
    files: &S,
    task: &LoadTask<'_>,
    faults: &mut F,
) -> Result<Taken, ConfFault> {
    let anchor = task.anchor.unwrap_or("-");
    let Ok(base) = Path::from_ascii(anchor.as_bytes()) else {
        return Err(ConfFault::anchor(alloc, anchor)?);
    };
    let interfaces = given_interfaces(alloc, &task.interfaces)?;
    let read = |name: &[u8]| read_conf(alloc, files, name);
    take_noting(
        alloc,
        &read,
        interfaces.as_slice(),
        mode_of(task.is_lenient),
        &base,
        task.path,
        faults,
    )
}

// Loads it, and writes the server's reply; or writes what would change.
fn loaded<B: BufRead, V: Write, W: Write>(
    alloc: Global,
    server: &mut V,
    replies: &mut B,
    task: &LoadTask<'_>,
    conf: &Conf,
    writer: &mut W,
) -> Result<(), LoadFault> {
    if task.is_dry {
        return show_changes(alloc, server, replies, conf, writer);
    }
    let reply = load(alloc, server, replies, conf, task.retries)?;
    match write_reply(writer, &reply) {
        Ok(()) => Ok(()),
        Err(_) => Err(LoadFault::Output),
    }
}

fn write_reply<W: Write>(writer: &mut W, reply: &[u8]) -> io::Result<()> {
    writer.write_all(reply)?;
    writer.write_all(b"\n")?;
    writer.flush()
}

/// What the program says of a load that stopped, or of what a server has.
pub(crate) fn report_load_fault<F: Write>(fault: LoadFault, faults: &mut F) -> Fault {
    match fault {
        LoadFault::Memory => Fault::Memory,
        LoadFault::Ended => Fault::Output,
        LoadFault::Output => Fault::Output,
        refused => {
            let _ = writeln!(faults, "{refused}");
            Fault::Reported
        }
    }
}
