//! A client: sends what it reads to a server, and writes what that answers.
ghost use Rattle.std.specs.Prelude.{◌<◌, length};
ghost use Rattle.pf_addr.specs.Writing.{Writes};
ghost use Rattle.pfd.specs.Client.{Carries};

use crate::stream::Stream;
use pf_addr::write_text;
use pf_session::EngineFault;
use std::alloc::Global;
use std::io::{self, ErrorKind, Read, Write};
use std::net::{Net, Shutdown, TcpListener, TcpStream};
use std::sync::atomic::{AtomicBool, Ordering};
use std::thread;
use std::thread::Threads;

// How many bytes are carried at once.
const PIECE_LEN: usize = 65_536;

// More reads than are ever made.
const MOST_READS: u64 = 1 << 62;

// Writes these bytes, and flushes.
fn pass_on<W: Write>(writer: &mut W, bytes: &[u8]) -> io::Result<()>
    ensures { Writes result (W.contents writer.old) (W.contents writer.new) bytes.now }
{
    match write_text(writer, bytes) {
        Ok(()) => writer.flush(),
        Err(error) => Err(error),
    }
}

// Writes what a reader gives. `piece` holds what a read gave.
fn carry_pieces<R: Read, W: Write>(
    reader: &mut R,
    writer: &mut W,
    piece: &mut [u8],
) -> Result<(), EngineFault>
    requires piece { 0 < length piece.old }
    ensures { Carries result (R.remaining reader.old) (R.remaining reader.new) (W.contents writer.old) (W.contents writer.new) }
{
    for _ in 1..MOST_READS {
        match reader.read(piece) {
            Ok(n) => {
                if n == 0 {
                    return Ok(());
                }
                match pass_on(writer, &piece[..n]) {
                    Ok(()) => {}
                    Err(_) => return Err(EngineFault::Write),
                }
            }
            Err(error) => {
                if error.kind() != ErrorKind::Interrupted {
                    return Err(EngineFault::Read);
                }
            }
        }
    }
    Err(EngineFault::Read)
}

/// Writes what a reader gives, as it comes, until the reader is at its end, and flushes the writer after each piece. A read that was
/// interrupted is made again; there are fewer than 2^62 reads.
///
/// `Err(Read)`: a read failed, or there were too many; all that was read is written. `Err(Write)`: a write or a flush failed, and some
/// front of what was read is written. `Err(Memory)`: no memory for the buffer, and nothing was read.
pub(crate) fn carry<R: Read, W: Write>(
    alloc: Global,
    reader: &mut R,
    writer: &mut W,
) -> Result<(), EngineFault>
    ensures { Carries result (R.remaining reader.old) (R.remaining reader.new) (W.contents writer.old) (W.contents writer.new) }
{
    let Ok(mut piece) = Vec::from_elem(alloc, 0, PIECE_LEN) else {
        return Err(EngineFault::Memory);
    };
    carry_pieces(reader, writer, piece.as_mut_slice())
}

// Sends what the reader gives, and then that no more comes.
fn send<R: Read>(
    alloc: Global,
    stream: &Stream,
    reader: &mut R,
    has_ended: &AtomicBool,
) -> Result<(), EngineFault> {
    let mut requests = stream;
    let carried = carry(alloc, reader, &mut requests);
    has_ended.store(true, Ordering::SeqCst);
    let _ = stream.shutdown(Shutdown::Write);
    carried
}

// Writes what the server answers, which ends once the server knows that no more comes.
fn receive<W: Write>(
    alloc: Global,
    stream: &Stream,
    writer: &mut W,
    has_ended: &AtomicBool,
) -> Result<(), EngineFault> {
    let mut replies = stream;
    let carried = carry(alloc, &mut replies, writer);
    if carried.is_ok() && has_ended.load(Ordering::SeqCst) {
        return Ok(());
    }
    // what is still sent fails
    let _ = stream.shutdown(Shutdown::Both);
    match carried {
        Err(EngineFault::Memory) => Err(EngineFault::Memory),
        _ => Err(EngineFault::Write),
    }
}

/// Sends what the reader gives to the server at the address, or at the Unix socket whose path it is, and writes what it answers, until the
/// reader is at its end and the server has closed. Both go on at once, so that a reply is written before more is read.
///
/// `Err(Read)`: nobody answers at the address, or a read of the reader failed. `Err(Write)`: the server closed before the reader's end,
/// or a write failed; if the reader waits then, this returns with what it gives next. `Err(Memory)`: out of memory.
pub(crate) fn connect<
    N: Net<Listener = TcpListener, Stream = TcpStream> + Threads,
    R: Read,
    W: Write + Send,
>(
    net: &N,
    alloc: Global,
    address: &str,
    reader: &mut R,
    writer: &mut W,
) -> Result<(), EngineFault> {
    let Ok(stream) = Stream::connect(net, address) else {
        return Err(EngineFault::Read);
    };
    let has_ended = AtomicBool::new(false);
    let (stream, has_ended) = (&stream, &has_ended);
    let (received, sent) = thread::join(
        net,
        || receive(alloc, stream, writer, has_ended),
        || send(alloc, stream, reader, has_ended),
    );
    received?;
    sent
}
