//! A program of tests: it plays tables of rows, each of which says what has to come of it. For each table it writes how many rows it has,
//! and then each row that came to something else. The head of its input, `stdin`, says how rows are written; `stdout` is what it has to
//! write. Behind the tables it looks at facts that no row can say, and writes how many of them there are, and each that doesn't hold.
//!
//! It uses `pfd` as any other program would, and knows how rows are spelled. It doesn't know what a right reply is: that is in the rows,
//! which were worked out by hand. The modules:
//!
//! - `playing`: lines and their replies, over Books.
//! - `starting`: starts of the program, by its words.
//! - `serving`: clients of a server, over real connections.
//! - `sharing`: sessions and peers' streams over a Book that callers may share.
//! - `refusing`: what shows the changes of such a Book, and may be refused memory.
//! - `table` and `spelling`: how tables and rows are read.
//! - `tally`: what a table came to.
//! - `streams`: readers and writers that follow a script, faults included.
//! - `server_tests`: callers that share a Book, each in a thread of its own, seers that judge beside it, and a listener whose accept fails.
//! - `pfd_tests`: calls that no line comes to, lists longer than a line, the texts of faults, a file that isn't formatted.
//!
//! One thing is proved: if a row of lines differs in nothing, a session over the Book came to its end and wrote just the wanted bytes for
//! the row's input (`written_instead` in `playing`). All else that the rows show is tested. That threads really do what the contracts take
//! them to do is only tested too.
#![tactic(auto)]

mod pfd_tests;
mod playing;
mod refusing;
mod server_tests;
mod serving;
mod sharing;
mod spelling;
mod starting;
mod streams;
mod table;
mod tally;

use crate::playing::play_lines;
use crate::serving::play_beside_server;
use crate::sharing::share_each;
use crate::starting::start_each;
use crate::table::{Kind, Table};
use crate::tally::Tally;
use std::io::{self, BufWriter, Write};
use std::net::{Net, TcpListener, TcpStream};
use std::sync::Wait;
use std::thread::Threads;

fn main(rt: HostRuntime) -> io::Result<()> {
    let text = io::read_to_string(rt.alloc(), rt.stdin())?;
    let mut out = BufWriter::new(rt.alloc(), rt.stdout())?;
    play_all(&rt, &rt, &mut out, text.as_str())?;
    server_tests::tell_all(&rt, rt.alloc(), &mut out)?;
    pfd_tests::tell_each(&rt, &mut out)?;
    out.flush()
}

// Plays the tables of a text, and writes what each came to. What stands before the first one says how rows are written.
fn play_all<N: Wait + Threads + Net<Listener = TcpListener, Stream = TcpStream> + Sync, W: Write>(
    machine: &N,
    rt: &HostRuntime,
    out: &mut W,
    text: &str,
) -> io::Result<()> {
    for text in text.split("\n== ").skip(1) {
        let table = Table::read(rt.alloc(), text)?;
        play(machine, rt, &table)?.tell(out, table.name)?;
    }
    Ok(())
}

// Plays all rows of a table.
fn play<N: Wait + Threads + Net<Listener = TcpListener, Stream = TcpStream> + Sync>(
    machine: &N,
    rt: &HostRuntime,
    table: &Table,
) -> io::Result<Tally> {
    match table.kind {
        Kind::Lines => Ok(play_lines(machine, rt.alloc(), table)?),
        Kind::Words => start_each(machine, rt, table),
        Kind::Clients => play_beside_server(machine, rt, table),
        Kind::Sessions | Kind::Askers | Kind::Peers => Ok(share_each(machine, rt.alloc(), table)?),
    }
}
