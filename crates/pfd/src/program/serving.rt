//! The program's server. No clause can say what it listens on and serves, so this is only tested.
ghost use Rattle.std.specs.Prelude.{◌≡◌, ◌+◌, IfOk, OnOk, flat_map, length, string_bytes, vec_len};
ghost use Rattle.pf_addr.specs.Writing.{Writes};
ghost use Rattle.pf_book.specs.{Books.{IsNamed, world_book}, Receipts.IsReached};
ghost use Rattle.pfd_words.specs.Words.{CanServe};
ghost use Rattle.pfd.specs.Program.{IsListening, address_count, listening_text};

use crate::admitting::Admits;
use crate::door::{Doors, Listener};
use crate::fullness::gauge::{Gauge, tell_fullness};
use crate::fullness::notice::{Notice, SayFullness};
use crate::fullness::watched::{Age, Watched};
use crate::listener::{Reception, judge_until, run_workers};
use crate::log::KeepLog;
use crate::log::saying::Log;
use crate::program::ended::session_end;
use crate::renewal::{Renewal, Reopening};
use crate::socket_file::{SocketFile, listen_at};
use crate::stream::is_path;
use pf_addr::write_more;
use pf_book::book::Book;
use pf_book::shared::Shared;
use pf_book::{Chapter, Disk, NewCalls, Numbering, Opening, Publisher, Seer};
use pf_session::{EngineFault, cover_all, reopen};
use pf_view::{ViewFault, views};
use pfd_files::{Fault, open_file};
use pfd_words::Service;
use std::alloc::{AllocError, Global};
use std::fs::{File, Files};
use std::io::{self, Write};
use std::marker::Brand;
use std::net::{Net, TcpListener, TcpStream};
use std::sync::{Mutex, Wait};
use std::thread;
use std::thread::Threads;

// A Book that is watched for how full its disk gets.
type WatchedBook<'a, D, J, N> = Book<D, J, Watched<'a, J, &'a N>>;

// What goes from one opening to the next.
#[derive(Drop)]
struct House {
    reception: Reception,
    renewal: Renewal,
    gauge: Mutex<Gauge>,
    notice: Notice,
}

impl House {
    // With the gauge of the disk.
    fn new(alloc: Global, service: &Service<'_>, gauge: Gauge) -> Result<House, AllocError> {
        Ok(House {
            reception: Reception::new(alloc, service.sessions, service.workers)?,
            renewal: Renewal::new(service.renewal),
            gauge: Mutex::new(gauge),
            notice: Notice::new(alloc)?,
        })
    }
}

/// Serves connections over the disk that lies on a file. Faults are found in this order: of the file, of the disk, of the address, of the
/// writer, and at last one of the listener, or of an opening that renews the history. How full the disk is goes to `faults`, from a thread of
/// its own once clients are served, and so does the log, if one is kept, from whoever serves.
pub(crate) fn run_server<
    N: Wait + Threads + Net<Listener = TcpListener, Stream = TcpStream> + Sync,
    S: Files<File = File>,
    W: Write,
    F: Write + Send,
>(
    machine: &N,
    alloc: Global,
    files: &S,
    service: &Service<'_>,
    writer: &mut W,
    faults: &mut F,
) -> Result<(), Fault>
    requires { CanServe service.now }
    ensures { IsListening service.now result (W.contents writer.old) (W.contents writer.new) }
{
    let disk = open_file(alloc, files, service.path, Some(service.size))?;
    match Opening::open(alloc, disk) {
        Ok(opening) => run_house(machine, alloc, files, opening, service, writer, faults),
        Err((fault, _disk)) => Err(Fault::from(fault)),
    }
}

// The same over what was opened first.
fn run_house<
    D: Disk + Drop + Send,
    N: Wait + Threads + Net<Listener = TcpListener, Stream = TcpStream> + Sync,
    S: Files<File = File>,
    W: Write,
    F: Write + Send,
>(
    machine: &N,
    alloc: Global,
    files: &S,
    opening: Opening<D>,
    service: &Service<'_>,
    writer: &mut W,
    faults: &mut F,
) -> Result<(), Fault>
    requires { CanServe service.now }
    ensures { IsListening service.now result (W.contents writer.old) (W.contents writer.new) }
{
    let mut gauge = Gauge::new(service.size as u64 / 2);
    tell_fullness(&mut gauge, opening.durable(), faults);
    let Ok(house) = House::new(alloc, service, gauge) else {
        return Err(Fault::Memory);
    };
    let Ok(log) = Log::new(machine, alloc, faults, service.is_logged) else {
        return Err(Fault::Memory);
    };
    let listening = open_doors(machine, alloc, files, service, writer)?;
    let served = run_and_say(
        machine,
        alloc,
        opening,
        service,
        &listening.doors,
        &house,
        &log,
    );
    remove_sockets(files, &listening.sockets);
    served
}

// Serves connections, while a thread of its own says how full the disk gets: no change and no renewal waits for what reads that. Where no such
// thread can be made, it is said at the end.
fn run_and_say<D: Disk + Drop + Send, N: Wait + Threads + Sync, L: KeepLog + SayFullness + Sync>(
    machine: &N,
    alloc: Global,
    opening: Opening<D>,
    service: &Service<'_>,
    doors: &Doors,
    house: &House,
    log: &L,
) -> Result<(), Fault>
    requires { CanServe service.now }
{
    let (_, served) = thread::join(
        machine,
        || house.notice.say_all(machine, log),
        ||
            requires { CanServe service.now }
        {
            let served = run_openings(machine, alloc, opening, service, doors, house, log);
            house.notice.end(machine);
            served
        },
    );
    served
}

// Serves in one opening after the other.
fn run_openings<D: Disk + Drop + Send, N: Wait + Threads + Sync, L: KeepLog + Sync>(
    machine: &N,
    alloc: Global,
    first: Opening<D>,
    service: &Service<'_>,
    doors: &Doors,
    house: &House,
    log: &L,
) -> Result<(), Fault>
    requires { CanServe service.now }
{
    let mut opening = first;
    let mut is_renewal = false;
    for _ in machine.forever() {
        log.note_opening(opening.durable().epoch(), is_renewal);
        is_renewal = true;
        let calls = NewCalls::open();
        let next = run_opening::<Brand, _, _, _>(
            machine, alloc, opening, calls, service, doors, house, log,
        )?;
        match next {
            Some(next) => opening = next,
            None => return Ok(()),
        }
    }
    unreachable!()
}

// Serves in one opening, until its history is to be renewed, and opens the disk again; or until no more is to be served: then there is no
// further opening.
fn run_opening<
    J: Chapter + Numbering + Send + Sync,
    D: Disk + Drop + Send,
    N: Wait + Threads + Sync,
    L: KeepLog + Sync,
>(
    machine: &N,
    alloc: Global,
    opening: Opening<D>,
    calls: NewCalls,
    service: &Service<'_>,
    doors: &Doors,
    house: &House,
    log: &L,
) -> Result<Option<Opening<D>>, Fault>
    requires service { CanServe service.now }
    requires name { IsNamed J.base J.history J.setting opening service.now.history }
    requires calls { calls ≡ J.register }
{
    house.renewal.begin();
    let (book, seers) = watch::<J, _, _>(machine, alloc, opening, service, house)?;
    let shared = Shared::new(book, calls);
    let served = run_workers(
        machine,
        alloc,
        doors,
        &house.reception,
        &shared,
        seers,
        &house.reception,
        &house.renewal,
        log,
    );
    go_further(machine, alloc, doors, shared, served, &house.reception, log)
}

// The next opening, if a connection paused or may come.
fn go_further<
    J: Chapter + Numbering + Send + Sync,
    D: Disk + Drop,
    S: Publisher<J> + Drop,
    M: Wait + Threads + Sync,
    L: KeepLog + Sync,
>(
    rt: &M,
    alloc: Global,
    doors: &Doors,
    shared: Shared<D, J, S>,
    served: Result<Vec<Seer<J>>, EngineFault>,
    reception: &Reception,
    log: &L,
) -> Result<Option<Opening<D>>, Fault> {
    let seers = match served {
        Ok(seers) => seers,
        Err(fault) => {
            session_end(Err(fault))?;
            return Ok(None);
        }
    };
    if reception.goes_on(rt) {
        let opening = open_again(rt, alloc, doors, shared.close(), seers, reception, log)?;
        return Ok(Some(opening));
    }
    if reception.has_failed(rt) {
        return Err(Fault::Input);
    }
    Ok(None)
}

// Opens the disk of a Book again, while the connections that paused judge on by its copies.
fn open_again<
    J: Chapter + Send + Sync,
    D: Disk + Drop,
    S: Publisher<J> + Drop,
    M: Wait + Threads + Sync,
    L: KeepLog + Sync,
>(
    rt: &M,
    alloc: Global,
    doors: &Doors,
    book: Book<D, J, S>,
    seers: Vec<Seer<J>>,
    reception: &Reception,
    log: &L,
) -> Result<Opening<D>, Fault> {
    let reopening = Reopening::new();
    let (seers, (opened, mut closed)) = thread::join(
        rt,
        || {
            judge_until(
                rt, alloc, doors, reception, seers, reception, &reopening, log,
            )
        },
        || {
            let opened = reopen(alloc, book);
            reopening.end();
            opened
        },
    );
    cover_all(&mut closed, &seers);
    match opened {
        Ok(opening) => Ok(opening),
        Err((fault, _disk)) => Err(Fault::from(fault)),
    }
}

// A Book over what was opened, which leaves a notice of how full its disk gets and has a renewal come due, and its seers.
fn watch<'a, J: Chapter, D: Disk + Drop, N: Wait>(
    machine: &'a N,
    alloc: Global,
    opening: Opening<D>,
    service: &Service<'_>,
    house: &'a House,
) -> Result<(WatchedBook<'a, D, J, N>, Vec<Seer<J>>), Fault>
    requires service { CanServe service.now }
    requires name { IsNamed J.base J.history J.setting opening service.now.history }
    ensures reached { IfOk result (λ made. IsReached J.base J.setting (world_book made.0)) }
{
    let named = match opening.named::<J>() {
        Ok(named) => named,
        Err((fault, _disk)) => return Err(Fault::from(fault)),
    };
    let (shower, seers) = match views::<J, &N>(
        machine,
        alloc,
        named.base(),
        named.start(),
        service.workers,
    ) {
        Ok(made) => made,
        Err(fault) => return Err(unshown(fault)),
    };
    let watched = Watched {
        rt: machine,
        shower,
        gauge: &house.gauge,
        notice: &house.notice,
        renewal: &house.renewal,
        age: Age::NONE,
    };
    match Book::over(alloc, named, service.history, watched) {
        Ok(book) => Ok((book, seers)),
        Err((fault, _disk)) => Err(Fault::from(fault)),
    }
}

// Why there are no copies, as the program says it.
fn unshown(fault: ViewFault) -> Fault {
    match fault {
        ViewFault::Memory => Fault::Memory,
        ViewFault::Places => Fault::Places,
    }
}

// What is listened on: the listeners, what each address is called, and the files of the Unix sockets among them.
#[derive(Drop)]
struct Listening<'a> {
    doors: Doors,
    names: Vec<String>,
    sockets: Vec<SocketFile<'a>>,
}

// Listens on all addresses, and writes which ones it got. If it can't, no file of a socket stays that it made.
fn open_doors<
    'a,
    N: Net<Listener = TcpListener, Stream = TcpStream>,
    S: Files<File = File>,
    W: Write,
>(
    net: &N,
    alloc: Global,
    files: &S,
    service: &Service<'a>,
    writer: &mut W,
) -> Result<Listening<'a>, Fault>
    ensures { IsListening service.now result (W.contents writer.old) (W.contents writer.new) }
{
    let all = listen_to_all(net, alloc, files, service)?;
    match tell_all(writer, all.names.as_slice()) {
        Ok(()) => Ok(all),
        Err(_) => {
            remove_sockets(files, &all.sockets);
            Err(Fault::Output)
        }
    }
}

// Listens on all addresses. Clients can connect then.
fn listen_to_all<'a, N: Net<Listener = TcpListener, Stream = TcpStream>, S: Files<File = File>>(
    net: &N,
    alloc: Global,
    files: &S,
    service: &Service<'a>,
) -> Result<Listening<'a>, Fault>
    ensures { IfOk result (λ all. vec_len all.names ≡ address_count service.now) }
{
    let mut all = Listening {
        doors: Doors::new(
            alloc,
            service.idle,
            service.workers,
            service.renewal.is_some(),
        ),
        names: Vec::new(alloc),
        sockets: Vec::new(alloc),
    };
    match listen_to_kinds(net, alloc, files, service, &mut all) {
        Ok(()) => Ok(all),
        Err(fault) => {
            remove_sockets(files, &all.sockets);
            Err(fault)
        }
    }
}

// Listens on the addresses of each kind.
fn listen_to_kinds<'a, N: Net<Listener = TcpListener, Stream = TcpStream>, S: Files<File = File>>(
    net: &N,
    alloc: Global,
    files: &S,
    service: &Service<'a>,
    all: &mut Listening<'a>,
) -> Result<(), Fault>
    ensures { OnOk result (vec_len all.new.names ≡ vec_len all.old.names + address_count service.now) }
{
    let admits = if service.peers.is_empty() {
        Admits::Both
    } else {
        Admits::Sessions
    };
    listen_to_each(
        net,
        alloc,
        files,
        &service.addresses,
        admits,
        service.mode,
        all,
    )?;
    listen_to_each(
        net,
        alloc,
        files,
        &service.askers,
        Admits::Questions,
        service.ask_mode,
        all,
    )?;
    listen_to_each(
        net,
        alloc,
        files,
        &service.peers,
        Admits::Peers,
        service.peers_mode,
        all,
    )
}

// Listens on these addresses, whose connections may be this. The files of sockets among them get this mode.
fn listen_to_each<'a, N: Net<Listener = TcpListener, Stream = TcpStream>, S: Files<File = File>>(
    net: &N,
    alloc: Global,
    files: &S,
    addresses: &[&'a str],
    admits: Admits,
    mode: u32,
    all: &mut Listening<'a>,
) -> Result<(), Fault>
    ensures { OnOk result (vec_len all.new.names ≡ vec_len all.old.names + length addresses.now) }
{
    for address in addresses {
        let address = *address;
        let (listener, name) = if is_path(address) {
            listen_unix(net, alloc, files, address, mode, &mut all.sockets)?
        } else {
            listen_tcp(net, alloc, address)?
        };
        if all.names.push(name).is_err() {
            return Err(Fault::Memory);
        }
        all.doors.open(listener, admits)?;
    }
    Ok(())
}

// Listens on a Unix socket at a path, whose file is noted: the listener, and the path.
fn listen_unix<'a, N: Net<Listener = TcpListener, Stream = TcpStream>, S: Files<File = File>>(
    net: &N,
    alloc: Global,
    files: &S,
    path: &'a str,
    mode: u32,
    sockets: &mut Vec<SocketFile<'a>>,
) -> Result<(Listener, String), Fault> {
    let Ok(name) = String::from_str(alloc, path) else {
        return Err(Fault::Memory);
    };
    let Ok((listener, file)) = listen_at(net, files, path, mode) else {
        return Err(Fault::Input);
    };
    match sockets.push(file) {
        Ok(()) => Ok((Listener::Unix(listener), name)),
        Err(failed) => {
            failed.value.remove(files);
            Err(Fault::Memory)
        }
    }
}

// Listens on an address: the listener, and what its address is called.
fn listen_tcp<N: Net<Listener = TcpListener, Stream = TcpStream>>(
    net: &N,
    alloc: Global,
    address: &str,
) -> Result<(Listener, String), Fault> {
    let Ok(listener) = TcpListener::bind(net, address) else {
        return Err(Fault::Input);
    };
    let Ok(bound) = listener.local_addr() else {
        return Err(Fault::Input);
    };
    match format!(in alloc; "{bound}") {
        Ok(name) => Ok((Listener::Tcp(listener), name)),
        Err(_) => Err(Fault::Memory),
    }
}

// Removes the files of the server's sockets.
fn remove_sockets<S: Files<File = File>>(files: &S, sockets: &[SocketFile<'_>]) {
    for socket in sockets {
        socket.remove(files);
    }
}

// Writes the addresses that are listened on, a line for each.
fn tell_all<W: Write>(writer: &mut W, names: &[String]) -> io::Result<()>
    ensures { Writes result (W.contents writer.old) (W.contents writer.new) (flat_map (λ name. listening_text (string_bytes name)) names.now) }
{
    for name in names {
        tell(writer, name.as_bytes())?;
    }
    Ok(())
}

fn tell<W: Write>(writer: &mut W, bound: &[u8]) -> io::Result<()>
    ensures { Writes result (W.contents writer.old) (W.contents writer.new) (listening_text bound.now) }
{
    let so_far = write_more(writer, Ok(()), b"listening ");
    let so_far = write_more(writer, so_far, bound);
    match write_more(writer, so_far, b"\n") {
        Ok(()) => writer.flush(),
        Err(error) => Err(error),
    }
}
