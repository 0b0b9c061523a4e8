//! Clients of a server, over real connections.

use crate::spelling::{line_bytes, reply_bytes};
use crate::starting::{end_of, started};
use crate::streams::Watch;
use crate::table::Table;
use crate::tally::{Case, Outcome, Tally};
use std::alloc::{AllocError, Global};
use std::io::{self, ErrorKind, Read, Write};
use std::net::{Net, Shutdown, TcpListener, TcpStream};
use std::sync::Wait;
use std::thread;
use std::thread::Threads;
use std::time::Duration;

/// How many seconds a client waits for what it is to be told.
const MOST_SECONDS: u64 = 20;

// The server's address of this number.
fn address_of(alloc: Global, server: &Watch, number: usize) -> Result<String, AllocError> {
    format!(in alloc; "127.0.0.1:{}", server.port(number))
}

// A connection to the server's address of this number.
fn connected<N: Net<Listener = TcpListener, Stream = TcpStream>>(
    net: &N,
    alloc: Global,
    server: &Watch,
    number: usize,
) -> io::Result<TcpStream> {
    let address = address_of(alloc, server, number)?;
    let stream = TcpStream::connect(net, address.as_str())?;
    stream.set_read_timeout(Some(Duration::from_secs(MOST_SECONDS)))?;
    Ok(stream)
}

// Sends bytes, and reads as many as are wanted.
fn next_reply(
    alloc: Global,
    stream: &mut TcpStream,
    bytes: &[u8],
    wanted: usize,
) -> io::Result<Vec<u8>> {
    stream.write_all(bytes)?;
    let mut reported = vec![in alloc; 0u8; wanted]?;
    stream.read_exact(reported.as_mut_slice())?;
    Ok(reported)
}

// Sends bytes and then no more, and reads all until the end.
fn last_reply(alloc: Global, stream: &mut TcpStream, bytes: &[u8]) -> io::Result<Vec<u8>> {
    stream.write_all(bytes)?;
    stream.shutdown(Shutdown::Write)?;
    let mut reported = Vec::new(alloc);
    stream.read_to_end(&mut reported)?;
    Ok(reported)
}

// What a client is told: one of a number goes on behind its last row, `-` sends no more, and `!` closes.
fn client_reply<N: Net<Listener = TcpListener, Stream = TcpStream>>(
    net: &N,
    alloc: Global,
    server: &Watch,
    clients: &mut Vec<TcpStream>,
    case: &Case,
) -> io::Result<Vec<u8>> {
    let line = case.line.as_str();
    let (client, sent) = line.split_once(' ').unwrap_or((line, ""));
    let (client, address) = client.split_once('@').unwrap_or((client, "1"));
    let sent = line_bytes(alloc, sent)?;
    let wanted = reply_bytes(alloc, case.end.as_str())?.len();
    let number = client.parse::<usize>().unwrap_or(0);
    if number == 0 || number > clients.len() {
        let address = address.parse::<usize>().unwrap_or(0);
        clients.push(connected(net, alloc, server, address)?)?;
    }
    let place = number
        .checked_sub(1)
        .unwrap_or(clients.len().saturating_sub(1));
    let reported = match clients.get_mut(place) {
        Some(stream) if client == "-" => last_reply(alloc, stream, &sent)?,
        Some(stream) => next_reply(alloc, stream, &sent, wanted)?,
        None => return Err(io::Error::from(ErrorKind::NotFound)),
    };
    if number == 0 {
        clients.pop();
    }
    Ok(reported)
}

// What comes of a row: a start of a client, or what a client of this program's own sends.
fn asked<N: Wait + Threads + Net<Listener = TcpListener, Stream = TcpStream> + Sync>(
    machine: &N,
    rt: &HostRuntime,
    server: &Watch,
    clients: &mut Vec<TcpStream>,
    case: &Case,
) -> io::Result<Outcome> {
    let alloc = rt.alloc();
    if case.line.starts_with("pfd ") {
        let address = address_of(alloc, server, 1)?;
        let line = case.line.replace(alloc, "@", address.as_str())?;
        return Ok(started(machine, rt, line.as_str(), &Watch::new(false))?);
    }
    let reported = client_reply(machine, alloc, server, clients, case)?;
    match String::from_utf8(reported) {
        Ok(end) => Ok(Outcome {
            end,
            written: Vec::new(alloc),
        }),
        Err(_) => Err(io::Error::from(ErrorKind::InvalidData)),
    }
}

// Plays all rows of a table, as soon as its server listens.
fn ask_all<N: Wait + Threads + Net<Listener = TcpListener, Stream = TcpStream> + Sync>(
    machine: &N,
    rt: &HostRuntime,
    table: &Table,
    server: &Watch,
) -> io::Result<Tally> {
    let alloc = rt.alloc();
    let mut clients = Vec::new(alloc);
    let mut tally = Tally::none(alloc);
    for case in &table.cases(alloc)? {
        let outcome = asked(machine, rt, server, &mut clients, case)?;
        tally.note(alloc, case, &outcome)?;
    }
    Ok(tally)
}

/// Starts the server of a table, and plays all rows beside it. The last thing that is noted is how the server ended, which isn't a row.
pub(crate) fn play_beside_server<
    N: Wait + Threads + Net<Listener = TcpListener, Stream = TcpStream> + Sync,
>(machine: &N, rt: &HostRuntime, table: &Table) -> io::Result<Tally> {
    let alloc = rt.alloc();
    let watch = &Watch::new(true);
    let (served, tally) = thread::join(
        machine,
        || started(machine, rt, table.server, watch),
        || ask_all(machine, rt, table, watch),
    );
    let (served, mut tally) = (served?, tally?);
    let wanted = end_of(alloc, 0, reply_bytes(alloc, table.says)?.as_slice())?;
    if served.end != wanted {
        write!(tally.differing, "  {} -> {:?}\n", table.server, served.end)?;
    }
    Ok(tally)
}
