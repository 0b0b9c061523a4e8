//! A control plane for rulesets of pf: commands come as lines, and each gets a reply. The program is a `main` over this.
//!
//! - `program`: does what the program's words ask, which `pfd_words` reads, and ends with a status.
//! - `accepting`: which connections are served, and under which numbers, by what accepting them gives.
//! - `admitting`: what a connection may be, by the address that it came to, and what it is.
//! - `patience`: how long a connection may be silent.
//! - `renewal`: when a server's Book is renewed.
//! - `stream`: a connection, by TCP or by a Unix socket, and what it was given and didn't take.
//! - `connection`: a connection that is served, whatever opening it is in.
//! - `socket_file`: the file of a Unix socket.
//! - `door`: where connections come from, and for how long one may be silent.
//! - `listener`: connections, each served by a worker as a session or a peer's stream, over one Book that all share, and those that go from
//!   one opening to the next.
//! - `client`: the other end of a connection. Only these last six know sockets.
//! - `fullness`: how full the disk on a file is, and when that is said on standard error.
//! - `log`: what a server says on standard error of what it did, a line for each change.
//! - `laws`: the limits of the program, and the laws of sessions.
//!
//! `pf_session` answers lines and peers' streams, by a `Book` of `pf_book`, one history over a device; disks on files are `pfd_files`'.
//! What callers need of these crates is re-exported.
//!
//! The crate knows no text of a command or a reply, but what a log says of a change, and doesn't judge, compare, change or keep rules,
//! tables and states itself. Its own are what the program does with its words, and the statuses that it ends with.
//!
//! Proved: what `start` does with its words, and its status; which connections a listener serves; when it is to be said how full a disk
//! is, and that line; which line a log has of a reply. Only tested: that they are said, what listeners and clients do with sockets, what
//! becomes of files, the texts of help and of faults, and which words are refused.
//!
//! Read `specs/Program.antt` after `pf_session`'s definitions of a session, `specs/Fullness.antt` and `specs/Log.antt`.
#![tactic(auto)]

mod accepting;
mod admitting;
mod client;
mod connection;
mod door;
mod fullness;
pub mod laws;
mod listener;
mod log;
mod patience;
mod program;
mod renewal;
mod socket_file;
mod stream;

pub use accepting::Accept;
pub use admitting::Admits;
pub use listener::serve_listener;
pub use pf_book::{
    Book, Chapter, Disk, FuseDisk, MemDisk, NewCalls, Numbering, Opening, Receipt, Seer, Shared,
    format,
};
pub use pf_session::{
    EngineFault, Gate, OpenGate, answer_asking, continue_peer, continue_session, line_engine,
    serve, serve_alone, serve_peer,
};
pub use pfd_files::{Fault, format_on, show_on};
pub use program::{
    HISTORY_LIMIT, MEMORY_SIZE, MOST_HISTORY, MOST_WORKERS, WORKERS, open_fresh, run_process,
    start, without_words,
};
pub use stream::{Arrival, Stream};
