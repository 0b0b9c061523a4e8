//! A connection, by TCP or by a Unix socket. No clause can say what a socket gives and takes, so this is only tested.
ghost use Rattle.std.specs.{Prelude.{◌≡◌, ◌+◌, ◌≤◌, length, vec_len, IfOk}, Counts.IsPrefixLen};

use crate::admitting::Admits;
use crate::patience::Patience;
use pf_session::Pause;
use std::alloc::{AllocError, Global};
use std::io::{self, ErrorKind, Read, Write};
use std::net::{Net, Shutdown, TcpListener, TcpStream};
use std::os::unix::net::UnixStream;
use std::time::Duration;

/// A connection.
#[derive(Drop)]
pub enum Stream {
    /// By TCP.
    Tcp(TcpStream),
    /// By a Unix socket.
    Unix(UnixStream),
}

/// A connection, what it may be, and how long it may be silent.
#[derive(Drop)]
pub struct Arrival {
    pub(crate) stream: Stream,
    pub(crate) admits: Admits,
    pub(crate) patience: Patience,
}

impl From<TcpStream> for Arrival {
    fn from(stream: TcpStream) -> Arrival {
        Arrival {
            stream: Stream::Tcp(stream),
            admits: Admits::Both,
            patience: Patience::new(0, false),
        }
    }
}

// Reads by whatever reads.
fn read_by<R: Read + Copy>(mut reader: R, buf: &mut [u8]) -> io::Result<usize>
    ensures { IfOk result (λ n. IsPrefixLen n buf.new) }
{
    reader.read(buf)
}

// Writes by whatever writes.
fn write_by<W: Write + Copy>(mut writer: W, buf: &[u8]) -> io::Result<usize>
    ensures { IfOk result (λ n. n ≤ length buf.now) }
{
    writer.write(buf)
}

/// Whether an address is the path of a Unix socket, as each with a slash is.
pub(crate) fn is_path(address: &str) -> bool {
    address.contains('/')
}

impl Stream {
    /// A connection to an address, or to the Unix socket at a path.
    pub(crate) fn connect<N: Net<Listener = TcpListener, Stream = TcpStream>>(
        net: &N,
        address: &str,
    ) -> io::Result<Stream> {
        if is_path(address) {
            Ok(Stream::Unix(UnixStream::connect(net, address)?))
        } else {
            Ok(Stream::Tcp(TcpStream::connect(net, address)?))
        }
    }

    /// Says that no more will be read, or written.
    pub(crate) fn shutdown(&self, how: Shutdown) -> io::Result<()> {
        match self {
            Stream::Tcp(stream) => stream.shutdown(how),
            Stream::Unix(stream) => stream.shutdown(how),
        }
    }

    /// Has what is written go out at once: it doesn't wait for more.
    pub(crate) fn hasten(&self) {
        if let Stream::Tcp(stream) = self {
            // a system that can't do so sends it later
            let _ = stream.set_nodelay(true);
        }
    }

    /// Has a read fail if nothing comes for so long.
    pub(crate) fn limit_reads(&self, idle: Option<Duration>) -> io::Result<()> {
        match self {
            Stream::Tcp(stream) => stream.set_read_timeout(idle),
            Stream::Unix(stream) => stream.set_read_timeout(idle),
        }
    }

    /// Has a write fail if nothing of it is taken for so long.
    pub(crate) fn limit_writes(&self, idle: Option<Duration>) -> io::Result<()> {
        match self {
            Stream::Tcp(stream) => stream.set_write_timeout(idle),
            Stream::Unix(stream) => stream.set_write_timeout(idle),
        }
    }

    fn receive(&self, buf: &mut [u8]) -> io::Result<usize>
        ensures { IfOk result (λ n. IsPrefixLen n buf.new) }
    {
        match self {
            Stream::Tcp(stream) => read_by(stream, buf),
            Stream::Unix(stream) => read_by(stream, buf),
        }
    }

    fn send(&self, buf: &[u8]) -> io::Result<usize>
        ensures { IfOk result (λ n. n ≤ length buf.now) }
    {
        match self {
            Stream::Tcp(stream) => write_by(stream, buf),
            Stream::Unix(stream) => write_by(stream, buf),
        }
    }
}

impl Read for &Stream {
    fn read(&mut self, buf: &mut [u8]) -> io::Result<usize> {
        self.receive(buf)
    }
}

impl Write for &Stream {
    fn write(&mut self, buf: &[u8]) -> io::Result<usize> {
        self.send(buf)
    }

    fn flush(&mut self) -> io::Result<()> {
        Ok(())
    }
}

/// What is known of what a connection gives, whoever reads it next.
#[derive(Clone, Copy, Debug)]
pub(crate) struct Received {
    // a byte that was looked at and not read
    first: Option<u8>,
    // for so many spans nothing came
    silent: u64,
}

/// What a connection is given and didn't take yet.
#[derive(Drop)]
pub(crate) struct Unsent {
    bytes: Vec<u8>,
    // so many of them it took
    taken: usize,
    // for so many spans it took nothing
    silent: u64,
    ghost within: { taken ≤ vec_len bytes },
}

/// What a connection gives. A read that waits is `Interrupted` when a pause is due, and fails once the connection was silent for too long.
#[derive(Drop)]
pub(crate) struct Incoming<'a, P: Pause> {
    pub(crate) stream: &'a Stream,
    pub(crate) received: Received,
    pub(crate) patience: Patience,
    pub(crate) pause: &'a P,
}

/// What a connection is given. Where a pause is due, what is written is kept, and a flush waits once.
#[derive(Drop)]
pub(crate) struct Outgoing<'a, P: Pause> {
    pub(crate) stream: &'a Stream,
    pub(crate) unsent: Unsent,
    pub(crate) patience: Patience,
    pub(crate) pause: &'a P,
}

// So many bytes are kept before they are sent.
const KEPT: usize = 8_192;

// Whether a read or a write waited as long as it may.
fn has_waited(error: &io::Error) -> bool {
    error.kind() == ErrorKind::WouldBlock || error.kind() == ErrorKind::TimedOut
}

impl Received {
    /// Nothing yet.
    pub(crate) fn new() -> Received {
        Received {
            first: None,
            silent: 0,
        }
    }
}

impl Unsent {
    /// Nothing yet. `AllocError`: out of memory.
    pub(crate) fn new(alloc: Global) -> Result<Unsent, AllocError> {
        Ok(Unsent {
            bytes: Vec::with_capacity(alloc, KEPT)?,
            taken: 0,
            silent: 0,
        })
    }

    /// Nothing, and no memory for more.
    pub(crate) fn without_room(alloc: Global) -> Unsent {
        Unsent {
            bytes: Vec::new(alloc),
            taken: 0,
            silent: 0,
        }
    }

    /// Whether there is nothing.
    pub(crate) fn is_empty(&self) -> bool {
        self.bytes.is_empty()
    }

    // How many bytes there are, with those that it took.
    fn len(&self) -> usize {
        self.bytes.len()
    }

    // What it didn't take yet.
    fn rest(&self) -> &[u8]
        ensures { length result.now + self.now.taken ≡ vec_len self.now.bytes }
    {
        &self.bytes[self.taken..]
    }

    // It took so many more.
    fn took(&mut self, count: usize)
        requires { self.old.taken + count ≤ vec_len self.old.bytes }
    {
        self.taken += count;
        self.silent = 0;
    }

    // It was given more. `OutOfMemory`: it wasn't.
    fn add(&mut self, more: &[u8]) -> io::Result<()> {
        match self.bytes.extend_from_slice(more) {
            Ok(()) => Ok(()),
            Err(_) => Err(io::Error::from(ErrorKind::OutOfMemory)),
        }
    }

    // Forgets what it took, once that is all.
    fn clear_taken(&mut self) {
        self.taken = 0;
        self.bytes.clear();
    }

    // Sends some, if the connection takes it.
    fn send_some(&mut self, stream: &Stream, patience: Patience) -> io::Result<()> {
        match stream.send(self.rest()) {
            Ok(0) => Err(io::Error::from(ErrorKind::WriteZero)),
            Ok(n) => {
                self.took(n);
                Ok(())
            }
            Err(error) => {
                if error.kind() == ErrorKind::Interrupted {
                    return Ok(());
                }
                if !has_waited(&error) {
                    return Err(error);
                }
                self.silent = self.silent.saturating_add(1);
                if patience.is_over(self.silent) {
                    return Err(error);
                }
                Ok(())
            }
        }
    }

    /// Sends it. Where a pause is due it tries once: a connection that takes little at a time doesn't hold a pause up. `Err`: the connection
    /// failed, or took nothing for too long.
    pub(crate) fn send<P: Pause>(
        &mut self,
        stream: &Stream,
        patience: Patience,
        pause: &P,
    ) -> io::Result<()> {
        let mut has_tried = false;
        for _ in 0..u64::MAX {
            if self.rest().is_empty() {
                self.clear_taken();
                return Ok(());
            }
            if has_tried && pause.is_due() {
                return Ok(());
            }
            self.send_some(stream, patience)?;
            has_tried = true;
        }
        Err(io::Error::from(ErrorKind::Other))
    }
}

impl<P: Pause> Incoming<'_, P> {
    /// The first byte, which the next read gives again. `None`: there is none, as the connection ended. `Err` is as for a read.
    pub(crate) fn look(&mut self) -> io::Result<Option<u8>> {
        let mut first = [0u8; 1];
        match self.read(&mut first)? {
            0 => Ok(None),
            _ => {
                self.received.first = Some(first[0]);
                Ok(Some(first[0]))
            }
        }
    }

    // Reads what comes.
    fn wait(&mut self, buf: &mut [u8]) -> io::Result<usize>
        ensures { IfOk result (λ n. IsPrefixLen n buf.new) }
    {
        for _ in 0..u64::MAX {
            match self.stream.receive(buf) {
                Ok(n) => {
                    self.received.silent = 0;
                    return Ok(n);
                }
                Err(error) => {
                    if !has_waited(&error) {
                        return Err(error);
                    }
                    self.received.silent = self.patience.count(self.received.silent);
                    if self.patience.is_over(self.received.silent) {
                        return Err(error);
                    }
                    if self.pause.is_due() {
                        return Err(io::Error::from(ErrorKind::Interrupted));
                    }
                }
            }
        }
        Err(io::Error::from(ErrorKind::Other))
    }
}

impl<P: Pause> Read for Incoming<'_, P> {
    fn read(&mut self, buf: &mut [u8]) -> io::Result<usize> {
        if !buf.is_empty() {
            if let Some(first) = self.received.first.take() {
                buf[0] = first;
                return Ok(1);
            }
        }
        self.wait(buf)
    }
}

impl<P: Pause> Outgoing<'_, P> {
    /// What the connection didn't take.
    pub(crate) fn into_unsent(self) -> Unsent {
        let Outgoing {
            stream: _,
            unsent,
            patience: _,
            pause: _,
        } = self;
        unsent
    }
}

impl<P: Pause> Write for Outgoing<'_, P> {
    fn write(&mut self, buf: &[u8]) -> io::Result<usize> {
        if KEPT < self.unsent.len().saturating_add(buf.len()) && !self.pause.is_due() {
            self.unsent.send(self.stream, self.patience, self.pause)?;
        }
        self.unsent.add(buf)?;
        Ok(buf.len())
    }

    fn flush(&mut self) -> io::Result<()> {
        self.unsent.send(self.stream, self.patience, self.pause)
    }
}
