//! The program: what its words ask, and the status with which it ends.
//!
//! - `fresh`: disks that hold nothing, opened.
//! - `serving`: a server over the disk on a file.
//! - `ended`: what the program says of a session.
//! - `conf`: what is asked of a pf.conf.
//! - `load`: loads of one into a server.
//! - `explained`: what is asked of a server's rules.
ghost use Rattle.std.specs.{Prelude.{◌≡◌, ◌≢◌, ◌≤◌, ◌<◌, ◌^◌, ◌⊎◌, IfErr, IfOk, Result, map, string_bytes}, Io.KnownBytes.Keeps, IoError.error_kind};
ghost use Rattle.clap.specs.Words.{kind_of, subcommand_of};
ghost use Rattle.pfd_files.specs.declared.fault.Fault.{Fault};
ghost use Rattle.pfd_words.specs.declared.words.Task.{Task};
ghost use Rattle.pf_book.specs.Books.{IsNamed};
ghost use Rattle.pfd_words.specs.Words.{IsPlainRun, HasHistory, IsAsked, IsHistory, program_words};
ghost use Rattle.pfd.specs.Program.{IsDone, IsDeviceRun, IsMemoryRun, IsProgramRun, ServesFrom, status_of, status_without_words};

mod conf;
mod ended;
mod explained;
mod fresh;
mod load;
mod serving;
mod streams;

use crate::client::connect;
use crate::fullness::gauge::{Gauge, tell_fullness};
use crate::program::conf::answer;
use crate::program::ended::session_end;
use crate::program::explained::explain_served;
use crate::program::fresh::open_memory;
use crate::program::load::load_file;
use crate::program::serving::run_server;
use crate::program::streams::hold_streams;
use clap::Error;
use clap::error::ErrorKind;
pub use fresh::open_fresh;
use pf_book::{Book, Chapter, MemDisk, Opening};
use pf_disk::{Disk, FileDisk};
use pf_session::serve_alone;
use pfd_files::{Fault, format_file, open_file, show_file};
use pfd_words::{Task, read_words};
pub use pfd_words::{HISTORY_LIMIT, MEMORY_SIZE, MOST_HISTORY, MOST_WORKERS, WORKERS};
use std::alloc::Global;
use std::env;
use std::fs::{File, Files};
use std::io::{self, BufWriter, Read, Write};
use std::marker::Brand;
use std::net::{Net, TcpListener, TcpStream};
use std::sync::Wait;
use std::thread::Threads;

// A session over what was opened, by a Book whose history may have so many changes.
fn run_alone<J: Chapter, D: Disk + Drop, H: Wait + Drop, R: Read, W: Write>(
    waits: H,
    alloc: Global,
    opening: Opening<D>,
    history: usize,
    reader: &mut R,
    writer: &mut W,
) -> Result<(), Fault>
    requires name { IsNamed J.base J.history J.setting opening history }
    requires history { IsHistory history }
    ensures { ServesFrom D.fault_count opening history result (R.remaining reader.old) (R.remaining reader.new)
        (W.contents writer.old) (W.contents writer.new) }
{
    match Book::<D, J, H>::of(waits, alloc, opening, history, 1) {
        Ok((mut book, _seers)) => session_end(serve_alone(alloc, reader, writer, &mut book)),
        Err((fault, _disk)) => Err(Fault::from(fault)),
    }
}

// A session over a fresh disk in memory of so many bytes.
fn run<H: Wait + Drop, R: Read, W: Write>(
    waits: H,
    alloc: Global,
    size: usize,
    history: usize,
    reader: &mut R,
    writer: &mut W,
) -> Result<(), Fault>
    requires { IsHistory history }
    ensures { IsMemoryRun ⟦<MemDisk as Disk>⟧.fault_count size history result (R.remaining reader.old) (R.remaining reader.new)
        (W.contents writer.old) (W.contents writer.new) }
{
    let opening = open_memory(alloc, size)?;
    run_alone::<Brand, _, _, _, _>(waits, alloc, opening, history, reader, writer)
}

// A session over a disk that exists, whatever it holds. If it is nearly full, the faults are told first.
fn run_on<D: Disk + Drop, H: Wait + Drop, R: Read, W: Write, F: Write>(
    waits: H,
    alloc: Global,
    disk: D,
    history: usize,
    reader: &mut R,
    writer: &mut W,
    faults: &mut F,
) -> Result<(), Fault>
    requires few { D.fault_count disk < 2 ^ 63 }
    requires history { IsHistory history }
    ensures { IsDeviceRun D.seen D.fault_count disk history result (R.remaining reader.old) (R.remaining reader.new)
        (W.contents writer.old) (W.contents writer.new) }
{
    let mut gauge = Gauge::new(disk.size() as u64 / 2);
    match Opening::open(alloc, disk) {
        Ok(opening) => {
            tell_fullness(&mut gauge, opening.durable(), faults);
            run_alone::<Brand, _, _, _, _>(waits, alloc, opening, history, reader, writer)
        }
        Err((fault, _disk)) => Err(Fault::from(fault)),
    }
}

// Does what the words ask. No clause can say what a file holds, so of what is done with one only this much is known.
fn perform<
    N: Wait + Threads + Net<Listener = TcpListener, Stream = TcpStream> + Sync,
    S: Files<File = File>,
    R: Read,
    W: Write + Send,
    F: Write + Send,
>(
    machine: &N,
    alloc: Global,
    files: &S,
    task: Task<'_>,
    reader: &mut R,
    writer: &mut W,
    faults: &mut F,
) -> Result<(), Fault>
    requires { HasHistory task }
    ensures { IsDone ⟦<MemDisk as Disk>⟧.fault_count ⟦<FileDisk as Disk>⟧.seen ⟦<FileDisk as Disk>⟧.fault_count task.entry result
        (R.remaining reader.old) (R.remaining reader.new) (W.contents writer.old) (W.contents writer.new) }
{
    match task {
        Task::Run { size, history } => run(machine, alloc, size, history, reader, writer),
        Task::RunOn {
            path,
            size,
            history,
        } => {
            let disk = open_file(alloc, files, path, size)?;
            run_on(machine, alloc, disk, history, reader, writer, faults)
        }
        Task::Format { path, size } => format_file(alloc, files, path, size),
        Task::Show { path } => show_file(alloc, files, path, writer),
        Task::Serve(service) => run_server(machine, alloc, files, &service, writer, faults),
        Task::Connect { address } => session_end(connect(machine, alloc, address, reader, writer)),
        Task::Conf(task) => answer(alloc, files, &task, writer, faults),
        Task::Explain(task) => explain_served(machine, alloc, &task, writer, faults),
        Task::Load(task) => load_file(machine, alloc, files, &task, writer, faults),
        Task::Status { address } => ask_status(machine, alloc, address, writer),
    }
}

// Asks the server at the address for its status, and writes what it answers.
fn ask_status<N: Net<Listener = TcpListener, Stream = TcpStream> + Threads, W: Write + Send>(
    net: &N,
    alloc: Global,
    address: &str,
    writer: &mut W,
) -> Result<(), Fault> {
    let mut line: &[u8] = b"show status\n";
    session_end(connect(net, alloc, address, &mut line, writer))
}

// Says in one line what failed, unless that was told. Where it can't be written there is nowhere else to say it.
fn fail<F: Write>(fault: Fault, faults: &mut F) -> u8
    ensures { result ≡ 1 }
{
    if fault != Fault::Reported {
        let _ = writeln!(faults, "pfd: {fault}");
    }
    let _ = faults.flush();
    1
}

// The status of what was done; its fault, if it has one, is said.
fn end_with<F: Write>(done: Result<(), Fault>, faults: &mut F) -> u8
    ensures { result ≡ status_of done }
{
    match done {
        Ok(()) => 0,
        Err(fault) => fail(fault, faults),
    }
}

fn print<W: Write>(error: &Error, writer: &mut W) -> io::Result<()> {
    write!(writer, "{error}")?;
    writer.flush()
}

// Writes help, or the version.
fn write_help<W: Write>(error: &Error, writer: &mut W) -> Result<(), Fault> {
    match print(error, writer) {
        Ok(()) => Ok(()),
        Err(_) => Err(Fault::Output),
    }
}

// Help and the version are written, with status 0, or 1 where that fails; what is wrong with refused words goes to the faults.
fn explain<W: Write, F: Write>(error: &Error, writer: &mut W, faults: &mut F) -> u8
    ensures status { result ≤ 2 }
    ensures shown { (kind_of error.now ≡ ErrorKind.DisplayHelp) ⊎ (kind_of error.now ≡ ErrorKind.DisplayVersion) → result ≤ 1 }
    ensures reported { (kind_of error.now ≢ ErrorKind.OutOfMemory) → (kind_of error.now ≢ ErrorKind.DisplayHelp)
        → (kind_of error.now ≢ ErrorKind.DisplayVersion) → result ≡ 2 }
    ensures memory { kind_of error.now ≡ ErrorKind.OutOfMemory →
        (result ≡ 1) × Keeps (W.contents writer.old) (W.contents writer.new) }
    ensures refused { result ≡ 2 → Keeps (W.contents writer.old) (W.contents writer.new) }
{
    if error.kind() == ErrorKind::OutOfMemory {
        return fail(Fault::Memory, faults);
    }
    if error.use_stderr() {
        let _ = print(error, faults);
        return 2;
    }
    end_with(write_help(error, writer), faults)
}

/// The program, with its words as `env::args` gives them, the program's own name first, and the files that it opens. By the machine's
/// handle it waits, starts threads and opens sockets.
///
/// `pfd run [--size N] [--history N]` answers the reader's lines to the writer, from a fresh Book over a fresh disk in memory. `--history`
/// is how many changes the Book's history may have: 65,536 if the words don't say. `--size` is how many bytes the disk has: 1,048,576 if
/// they don't. `pfd run --disk FILE` opens the disk on the file instead. The file's length has to be the size, if one is said.
///
/// `pfd format --disk FILE --size N` makes the file so many bytes long, and a disk that holds nothing. `pfd show --disk FILE` writes what
/// the disk on the file holds, and leaves the file as it is.
///
/// `pfd serve --listen ADDR --disk FILE --size N [--workers N] [--history N] [--sessions N] [--renew N] [--renew-bytes N] [--idle SECONDS]
/// [--mode MODE] [--ask ADDR] [--ask-mode MODE] [--peers ADDR] [--peers-mode MODE] [--log]` opens the disk on the file, whose length has to
/// be the size, listens on the addresses, of which each word may say several, and writes `listening ADDR` for each, with the address that
/// it got, once clients can connect. An address with a slash is the path of a Unix socket, whose file gets the mode of its kind of address,
/// 0600 if the words don't say; the file of a socket at which nobody answers is replaced, and any other that is there is a fault. At the
/// end the files that it made are removed. It serves so many connections at once, 4 if the words don't say, each as in `serve_listener`,
/// and ends once so many have ended, or never. Sessions at the addresses of `--ask` may ask and change nothing; those of `--peers` take
/// peers' streams alone, and if there are any, no other address takes one. Without `--history` it renews its history after so many changes,
/// 65,536 if the words don't say, or so many bytes of them, 268,435,456 if they don't: it opens its disk again, and goes on with each
/// connection where it was. A connection on which nothing came for so many seconds is closed behind its last reply, and so is one that took
/// nothing of its replies for so long; with 0, or without the word, none is. With `--log` the faults get a line for each change, before its
/// reply, for each opening, and for each connection that a fault ended.
/// `pfd connect ADDR` sends what the reader gives to such a server, and writes what it answers.
///
/// `pfd check FILE [--lenient] [--anchor PATH]` writes what the pf.conf in the file means: the rules of each ruleset and the tables that are
/// filled. `pfd test FILE CASES .. [--lenient] [--tap] [--junit FILE]` judges the packets of the cases in these files by it, and writes each
/// that has another verdict than is wanted. `pfd cover FILE CASES .. [--lenient]` writes the rules that decide no case, `pfd explain FILE
/// PACKET [--lenient]` those that match the packet. What is wrong with a file, and what is noted of it, goes to the faults. The status is 1
/// also if a case has another verdict, or a rule decides none.
///
/// `pfd load FILE [--to ADDR] [--anchor PATH] [--lenient] [--dry-run] [--retry N]` loads such a file into a server: all that it means in one
/// commit, or nothing of it, and writes the server's reply, or with `--dry-run` what would change. A line that the server refuses goes to the
/// faults with the reply, and the status is then 1. If somebody else began on one of its rulesets meanwhile it begins anew, N times at most.
///
/// `pfd status [ADDR]` asks a server for its status, and writes its reply.
///
/// A session on a file and a server say on the faults how full the disk is, in a line, once more than seven eighths of its half are used:
/// as they begin, and a server again as that rises. They say it once for each hundredth, until no more than three quarters were used.
///
/// Status 0: the input ended, the disk was made or shown, or help or the version was asked for, whose text goes to the writer. Status 1:
/// one line on the faults says what failed, as in [`Fault`]; what is wrong with the file is found before what is wrong with the disk.
/// Status 2: the words were refused, as when there are none; the faults have clap's text, and nothing was read or written. If the faults
/// can't be written, only the status says it. Words that aren't text go to `without_words` instead.
///
/// Whatever the words are, it is what they ask, or nothing is read. What the texts are, what becomes of files, and which other words are
/// help or the version and which are refused, is only tested.
pub fn start<
    N: Wait + Threads + Net<Listener = TcpListener, Stream = TcpStream> + Sync,
    S: Files<File = File>,
    R: Read,
    W: Write + Send,
    F: Write + Send,
>(
    machine: &N,
    alloc: Global,
    files: &S,
    words: &[String],
    reader: &mut R,
    writer: &mut W,
    faults: &mut F,
) -> u8
    ensures status { result ≤ 2 }
    ensures run { IsPlainRun (map string_bytes words.now) →
        IsProgramRun ⟦<MemDisk as Disk>⟧.fault_count HISTORY_LIMIT result (R.remaining reader.old) (R.remaining reader.new)
        (W.contents writer.old) (W.contents writer.new) }
    ensures others { ((task : Task) × (end : Result (Unit {0}) Fault) × IsAsked (subcommand_of program_words (map string_bytes words.now)) task
        × HasHistory task × (result ≡ status_of end)
        × IsDone ⟦<MemDisk as Disk>⟧.fault_count ⟦<FileDisk as Disk>⟧.seen ⟦<FileDisk as Disk>⟧.fault_count task end
        (R.remaining reader.old) (R.remaining reader.new) (W.contents writer.old) (W.contents writer.new)) ⊎
        Keeps (R.remaining reader.old) (R.remaining reader.new) }
    ensures refused { result ≡ 2 → Keeps (R.remaining reader.old) (R.remaining reader.new) ×
        Keeps (W.contents writer.old) (W.contents writer.new) }
{
    match read_words(alloc, words) {
        Ok(task) => {
            let done = perform(machine, alloc, files, task, reader, writer, faults);
            end_with(done, faults)
        }
        Err(error) => explain(&error, writer, faults),
    }
}

/// What the program does if its words couldn't be had: status 1 and `pfd: memory` on the faults when out of memory, else status 2 and
/// `pfd: a word isn't text`.
pub fn without_words<F: Write>(error: &io::Error, faults: &mut F) -> u8
    ensures { result ≡ status_without_words (error_kind error.now) }
{
    match error.kind() {
        io::ErrorKind::OutOfMemory => fail(Fault::Memory, faults),
        _ => {
            let _ = faults.write_all(b"pfd: a word isn't text\n");
            2
        }
    }
}

// The same with the process's files and streams, and these words. Standard input is read unbuffered: the engine's own buffer takes all
// that is there in one read.
fn start_with<
    N: Wait + Threads + Net<Listener = TcpListener, Stream = TcpStream> + Sync,
    F: Write + Send,
>(machine: &N, rt: &HostRuntime, words: &[String], faults: &mut F) -> io::Result<u8>
    ensures { IfOk result (λ status. status ≤ 2) }
{
    let alloc = rt.alloc();
    let mut reader = rt.stdin();
    let mut writer = BufWriter::new(alloc, rt.stdout())?;
    Ok(start(machine, alloc, rt, words, &mut reader, &mut writer, faults))
}

// The same with the process's words; an error if they can't be had.
fn start_on<
    N: Wait + Threads + Net<Listener = TcpListener, Stream = TcpStream> + Sync,
    F: Write + Send,
>(machine: &N, rt: &HostRuntime, faults: &mut F) -> io::Result<u8>
    ensures { IfOk result (λ status. status ≤ 2) }
{
    let words: Vec<String> = env::args(rt)?.collect(rt.alloc())?;
    start_with(machine, rt, words.as_slice(), faults)
}

/// The program over this process: its words, files, standard input, output and error. It returns the status to end with, as `start` and
/// `without_words` say. It waits by a handle of its own, which is the process's too. A standard stream that is closed stays one that can't
/// be read or written, whatever is opened meanwhile.
pub fn run_process<N: Wait + Threads + Net<Listener = TcpListener, Stream = TcpStream> + Sync>(
    machine: &N,
    rt: &HostRuntime,
) -> u8
    ensures { result ≤ 2 }
{
    let _held = hold_streams(rt);
    let mut faults = rt.stderr();
    match start_on(machine, rt, &mut faults) {
        Ok(status) => status,
        Err(error) => without_words(&error, &mut faults),
    }
}
