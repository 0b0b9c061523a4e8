//! Where a server's connections come from. No clause can say what a socket gives and takes, so this is only tested.
ghost use Rattle.std.specs.Prelude.{◌<◌, length, IfSome};

use crate::accepting::Accept;
use crate::admitting::Admits;
use crate::patience::Patience;
use crate::stream::{Arrival, Stream};
use libc::net::{POLLIN, poll};
use libc::types::pollfd;
use pfd_files::Fault;
use std::alloc::Global;
use std::io::{self, ErrorKind};
use std::net::TcpListener;
use std::os::fd::AsRawFd;
use std::os::unix::net::UnixListener;
use std::sync::atomic::{AtomicUsize, Ordering};
use std::time::Duration;

// An accept that may be interrupted waits for so many milliseconds.
const LOOK: i32 = 50;

/// The most addresses that a server listens on.
pub(crate) const MOST_DOORS: usize = 64;

// For so many milliseconds no guest is waited for, before it is seen whether one has left.
const MOMENT: i32 = 100;

/// A listener.
#[derive(Drop)]
pub(crate) enum Listener {
    Tcp(TcpListener),
    Unix(UnixListener),
}

impl Listener {
    fn descriptor(&self) -> i32 {
        match self {
            Listener::Tcp(listener) => listener.as_raw_fd(),
            Listener::Unix(listener) => listener.as_raw_fd(),
        }
    }

    // Has an accept fail if no connection is there.
    fn never_wait(&self) -> io::Result<()> {
        match self {
            Listener::Tcp(listener) => listener.set_nonblocking(true),
            Listener::Unix(listener) => listener.set_nonblocking(true),
        }
    }

    fn accept(&self) -> io::Result<Stream> {
        match self {
            Listener::Tcp(listener) => {
                let (stream, _) = listener.accept()?;
                Ok(Stream::Tcp(stream))
            }
            Listener::Unix(listener) => {
                let (stream, _) = listener.accept()?;
                Ok(Stream::Unix(stream))
            }
        }
    }
}

// A listener, and what its connections may be.
#[derive(Drop)]
struct Door {
    listener: Listener,
    admits: Admits,
}

/// All listeners of a server. Its connections may be silent for so long, and those that are guests leave one worker to the others.
#[derive(Drop)]
pub(crate) struct Doors {
    all: Vec<Door>,
    patience: Patience,
    // how many milliseconds an accept waits; without end, if it is negative
    wait: i32,
    workers: usize,
    // how many guests are served
    guests: AtomicUsize,
    // which door is looked at first
    turn: AtomicUsize,
}

impl Doors {
    /// No listener yet, for so many workers. `idle` is in seconds; 0 is without end. `looks`: an accept is `Interrupted`, and reads and
    /// writes of connections look up, after a twentieth of a second.
    pub(crate) fn new(alloc: Global, idle: u32, workers: usize, looks: bool) -> Doors {
        Doors {
            all: Vec::new(alloc),
            patience: Patience::new(idle, looks),
            wait: if looks { LOOK } else { -1 },
            workers,
            guests: AtomicUsize::new(0),
            turn: AtomicUsize::new(0),
        }
    }

    /// Listens at one more address. `Input`: there are 64 already, or the system refuses it.
    pub(crate) fn open(&mut self, listener: Listener, admits: Admits) -> Result<(), Fault> {
        if MOST_DOORS <= self.all.len() || listener.never_wait().is_err() {
            return Err(Fault::Input);
        }
        match self.all.push(Door { listener, admits }) {
            Ok(()) => Ok(()),
            Err(_) => Err(Fault::Memory),
        }
    }

    // Waits until a listener has a connection that is let in: what the system says of each. Where guests aren't let in, it waits for a
    // moment at most, since one that is served may leave.
    fn wait(&self) -> io::Result<[pollfd; MOST_DOORS]> {
        let guests = self.guests.load(Ordering::SeqCst);
        let mut polled = [pollfd {
            fd: -1,
            events: POLLIN,
            revents: 0,
        }; MOST_DOORS];
        let mut most = self.wait;
        for (place, door) in polled.iter_mut().zip(&self.all) {
            if door.admits.lets_in(guests, self.workers) {
                place.fd = door.listener.descriptor();
            } else {
                most = MOMENT;
            }
        }
        poll_through(&mut polled, most)?;
        Ok(polled)
    }

    // A connection of the listener at this index, with its limits.
    fn take(&self, index: usize) -> io::Result<Arrival> {
        let Some(door) = self.all.get(index) else {
            return Err(io::Error::from(ErrorKind::WouldBlock));
        };
        let stream = door.listener.accept()?;
        match limit(&stream, self.patience.span()) {
            Ok(()) => Ok(self.let_in(stream, door.admits)),
            // it isn't served without its limits
            Err(_) => Err(io::Error::from(ErrorKind::ConnectionAborted)),
        }
    }

    // A connection that will be served.
    fn let_in(&self, stream: Stream, admits: Admits) -> Arrival {
        if admits.is_guest() {
            self.guests.fetch_add(1, Ordering::SeqCst);
        }
        Arrival {
            stream,
            admits,
            patience: self.patience,
        }
    }
}

// Waits for so many milliseconds at most, or at -1 without end, whatever signals come meanwhile.
fn poll_through(polled: &mut [pollfd], most: i32) -> io::Result<()> {
    for _ in 0..u64::MAX {
        if 0 <= poll(polled, most) {
            return Ok(());
        }
        if os::errno() != libc::EINTR {
            break;
        }
    }
    Err(io::Error::from(ErrorKind::Other))
}

// The index of the first listener from this one on that has a connection.
fn ready_from(polled: &[pollfd], start: usize) -> Option<usize>
    ensures { IfSome result (λ index. index < length polled.now) }
{
    for index in start..polled.len() {
        if polled[index].revents != 0 {
            return Some(index);
        }
    }
    None
}

// The index of a listener that has a connection: the first from `turn` on, or the first of all.
fn first_ready(polled: &[pollfd], turn: usize) -> Option<usize>
    ensures { IfSome result (λ index. index < length polled.now) }
{
    match ready_from(polled, turn) {
        Some(index) => Some(index),
        None => ready_from(polled, 0),
    }
}

// Has a read fail if nothing comes for so long, and a write if nothing is taken.
fn limit(stream: &Stream, span: Option<Duration>) -> io::Result<()> {
    stream.limit_reads(span)?;
    stream.limit_writes(span)
}

impl Accept for Doors {
    type Connection = Arrival;

    fn accept(&self) -> io::Result<Arrival> {
        for _ in 0..u64::MAX {
            let polled = self.wait()?;
            let Some(index) = first_ready(&polled, self.turn.load(Ordering::SeqCst)) else {
                if self.wait < 0 {
                    continue;
                }
                return Err(io::Error::from(ErrorKind::Interrupted));
            };
            self.turn.store(index + 1, Ordering::SeqCst);
            match self.take(index) {
                // its client gave it up meanwhile
                Err(error) if error.kind() == ErrorKind::WouldBlock => {}
                accepted => return accepted,
            }
        }
        Err(io::Error::from(ErrorKind::Other))
    }

    fn release(&self, arrival: &Arrival) {
        if arrival.admits.is_guest() {
            self.guests.fetch_sub(1, Ordering::SeqCst);
        }
    }
}
