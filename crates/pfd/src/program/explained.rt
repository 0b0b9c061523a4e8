//! Why a packet has its verdict at a server. No clause can say what a socket gives and takes, so here it is only tested; pf_load says what
//! is asked, and pfd_conf what is told of that.

use crate::program::conf::report_conf_fault;
use crate::program::load::report_load_fault;
use crate::stream::Stream;
use pf_conf::Conf;
use pf_load::served_conf;
use pfd_conf::{Fault as ConfFault, Firewall, Taken};
use pfd_files::Fault;
use pfd_words::ServerTask;
use std::alloc::Global;
use std::io::{BufReader, Write};
use std::net::{Net, TcpListener, TcpStream};

/// Tells which rules of a server match a packet, and the verdict on it.
///
/// `Fault::Reported`: why there is no answer was written to the faults. `Fault::Input`: nobody answers at the address. `Fault::Output`: the
/// server ended before it had answered, or the output can't be written.
pub(crate) fn explain_served<
    N: Net<Listener = TcpListener, Stream = TcpStream>,
    W: Write,
    F: Write,
>(
    net: &N,
    alloc: Global,
    task: &ServerTask<'_>,
    writer: &mut W,
    faults: &mut F,
) -> Result<(), Fault> {
    let Ok(stream) = Stream::connect(net, task.from) else {
        return Err(Fault::Input);
    };
    let Ok(mut replies) = BufReader::new(alloc, &stream) else {
        return Err(Fault::Memory);
    };
    let mut server = &stream;
    let conf = match served_conf(alloc, &mut server, &mut replies) {
        Ok(conf) => conf,
        Err(fault) => return Err(report_load_fault(fault, faults)),
    };
    match explain(alloc, conf, task, writer) {
        Ok(()) => Ok(()),
        Err(fault) => Err(report_conf_fault(fault, faults)),
    }
}

// Tells it by what the server has.
fn explain<W: Write>(
    alloc: Global,
    conf: Conf,
    task: &ServerTask<'_>,
    writer: &mut W,
) -> Result<(), ConfFault> {
    let firewall = Firewall::of(alloc, Taken::of_server(alloc, conf))?;
    firewall.explain(alloc, writer, &task.packet)
}
