//! A peer's stream of messages over a Book that others use too.
ghost use Rattle.std.specs.Prelude.{◌≡◌, ◌<◌, ◌≤◌, ℕ, List, [], Option, None, Some, IfOk, Ok, flat_map, length};
ghost use Rattle.pf_addr.specs.Writing.{Writes};
ghost use Rattle.pf_state.specs.declared.peer.message.Message.{Message};
ghost use Rattle.pf_state.specs.Peer.Outcomes.{finished};
ghost use Rattle.pf_core.specs.declared.{reply.Refusal.TheVariants.BadPeer, reply.Reply.TheVariants.Refused};
ghost use Rattle.pf_line.specs.Reply.Replies.{reply_text};
ghost use Rattle.pf_book.specs.Receipts.{PlainReceipt};
ghost use Rattle.pf_session.specs.declared.line_engine.left_off.LeftOff.TheVariants.{Paused};
ghost use Rattle.pf_session.specs.Server.{Parts.IsStreamPart, Streams.{GoesOn, IsStream, RunsAll, RunsFed, RunsGroup, Takes, TakesPiece, TellsEnd, TellsFault, asked, last_receipt}};

use crate::line_engine::{EngineFault, LeftOff, NoPause, Pause};
use crate::server::caller::{CallBook, Caller};
use crate::telling::refuse;
use pf_book::shared::Shared;
use pf_book::{Chapter, Disk, Numbering, Publisher, Receipt};
use pf_core::{Command, GROUP_LIMIT, Refusal, Reply, StateCommand};
use pf_line::write_reply;
use pf_state::peer::{Fed, Message, PeerFault, PeerReader};
use std::alloc::{AllocError, Global};
use std::io::{self, ErrorKind, Read, Write};
use std::marker::Model;
use std::sync::Wait;

// How many bytes are read at once: a group of messages, each of as many states as an export writes in one.
const PIECE_LEN: usize = 131_072;

// More reads than are ever made.
const MOST_READS: u64 = 1 << 62;

/// Runs a peer's messages, and keeps the receipt of its last call.
#[derive(Drop)]
pub(crate) struct Follower<'a, C: CallBook<J>, J: Chapter> {
    book: &'a C,
    last: Option<Receipt<J>>,
}

/// How a stream goes on after a piece.
#[derive(Clone, Copy, Debug, PartialEq, Eq)]
pub(crate) enum Progress {
    /// More may come.
    On,
    /// The stream had a fault.
    Over,
}

impl<'a, C: CallBook<J>, J: Chapter> Follower<'a, C, J> {
    // Takes the next piece of the stream, and writes all that is due to it. All the memory for it is allocated before the first of its
    // messages is run.
    fn take<O: Write>(
        &mut self,
        alloc: Global,
        piece: &[u8],
        peer: &mut PeerReader,
        writer: &mut O,
    ) -> Result<Progress, EngineFault>
        requires { length piece.now ≤ PIECE_LEN }
        ensures { TakesPiece (Takes J.base J.setting) result piece.now peer.old peer.new self.old.last self.new.last
            (O.contents writer.old) (O.contents writer.new) }
    {
        let Ok(Fed { messages, fault }) = peer.feed(alloc, piece) else {
            return Err(EngineFault::Memory);
        };
        let Ok(commands) = commands_of(alloc, messages) else {
            return Err(EngineFault::Memory);
        };
        self.run_fed(&commands, fault, writer)
    }

    // Runs the messages that a piece brought, and writes its fault.
    fn run_fed<O: Write>(
        &mut self,
        commands: &[Command],
        fault: Option<PeerFault>,
        writer: &mut O,
    ) -> Result<Progress, EngineFault>
        ensures { (messages : List Message) → commands.now ≡ asked messages
            → RunsFed (Takes J.base J.setting) result messages fault self.old.last self.new.last (O.contents writer.old) (O.contents writer.new) }
    {
        match self.run_all(commands, writer) {
            Ok(()) => tell_fault(fault, writer),
            Err(_) => Err(EngineFault::Write),
        }
    }

    // Runs messages in groups, one after the other.
    fn run_all<O: Write>(&mut self, commands: &[Command], writer: &mut O) -> io::Result<()>
        ensures { (messages : List Message) → commands.now ≡ asked messages
            → RunsAll (Takes J.base J.setting) result messages self.old.last self.new.last (O.contents writer.old) (O.contents writer.new) }
    {
        for group in commands.chunks(GROUP_LIMIT) {
            self.run_group(group, writer)?;
        }
        Ok(())
    }

    // Runs messages as one group, and writes the reply to each.
    fn run_group<O: Write>(&mut self, commands: &[Command], writer: &mut O) -> io::Result<()>
        requires some { 0 < length commands.now }
        requires few { length commands.now ≤ GROUP_LIMIT }
        ensures { (messages : List Message) → commands.now ≡ asked messages
            → (text : List ℕ) × RunsGroup J.base J.setting messages self.old.last self.new.last text
            × Writes result (O.contents writer.old) (O.contents writer.new) text }
    {
        match self.book.call_group(commands, self.last.as_ref()) {
            Ok(answers) => {
                let written = write_replies(&answers, writer);
                keep_last(answers, &mut self.last);
                written
            }
            Err(refusal) => refuse_each(commands, refusal, writer),
        }
    }
}

// Keeps the receipt of the last of these answers.
fn keep_last<J: Chapter>(mut answers: Vec<(Reply, Receipt<J>)>, last: &mut Option<Receipt<J>>)
    ensures { last.new ≡ last_receipt last.old (Ok answers.items) }
{
    if let Some(answer) = answers.pop() {
        keep(answer, last);
    }
}

// Keeps the receipt of an answer.
fn keep<J: Chapter>(answer: (Reply, Receipt<J>), last: &mut Option<Receipt<J>>)
    ensures { last.new ≡ Some answer.1 }
{
    let (_, receipt) = answer;
    *last = Some(receipt);
}

// The commands of messages, allocated at once.
fn commands_of(alloc: Global, messages: Vec<Message>) -> Result<Vec<Command>, AllocError>
    ensures { IfOk result (λ commands. commands.items ≡ asked messages.items) }
{
    let mut commands = Vec::with_capacity(alloc, messages.len())?;
    for message in messages {
        commands.push(Command::States(StateCommand::Peer(message)))?;
    }
    Ok(commands)
}

fn write_replies<J: Chapter, O: Write>(
    answers: &[(Reply, Receipt<J>)],
    writer: &mut O,
) -> io::Result<()>
    ensures { Writes result (O.contents writer.old) (O.contents writer.new) (flat_map (λ a. reply_text a.0) answers.now) }
{
    for answer in answers {
        write_reply(writer, &answer.0)?;
    }
    Ok(())
}

// Writes the refusal of a group, once for each of its commands.
fn refuse_each<O: Write>(commands: &[Command], refusal: Refusal, writer: &mut O) -> io::Result<()>
    ensures { Writes result (O.contents writer.old) (O.contents writer.new) (flat_map (λ c. reply_text (Refused refusal)) commands.now) }
{
    for _ in commands {
        refuse(writer, refusal)?;
    }
    Ok(())
}

// Writes what is wrong with the stream, if anything is; nothing more is written after it.
fn tell_fault<O: Write>(fault: Option<PeerFault>, writer: &mut O) -> Result<Progress, EngineFault>
    ensures { TellsFault result fault (O.contents writer.old) (O.contents writer.new) }
{
    let Some(fault) = fault else {
        return Ok(Progress::On);
    };
    match tell(fault, writer) {
        Ok(()) => Ok(Progress::Over),
        Err(_) => Err(EngineFault::Write),
    }
}

fn tell<O: Write>(fault: PeerFault, writer: &mut O) -> io::Result<()>
    ensures { Writes result (O.contents writer.old) (O.contents writer.new) (reply_text (Refused (BadPeer fault))) }
{
    match refuse(writer, Refusal::BadPeer(fault)) {
        Ok(()) => writer.flush(),
        Err(error) => Err(error),
    }
}

// Writes what is wrong at the end of the stream, if anything is.
fn tell_end<O: Write>(peer: &mut PeerReader, writer: &mut O) -> Result<(), EngineFault>
    ensures { TellsEnd result (finished peer.old) (O.contents writer.old) (O.contents writer.new) }
{
    match peer.finish() {
        Ok(fault) => match tell_fault(fault, writer) {
            Ok(_) => Ok(()),
            Err(fault) => Err(fault),
        },
        Err(_) => Ok(()),
    }
}

/// Runs the messages of a peer's stream by a Book that sessions use too, and writes a reply line for each, until the reader is at its
/// end. The messages that one read completes go to `Shared::group` in groups of 64 and a last one of what is left, each with the receipt
/// of the last message before it that has one. If a group is refused whole, that refusal is the reply to each of its messages, and the
/// messages after it are still run. All replies to what one read gave are written before the next read.
///
/// A fault of the stream, or its end within a message, gets a line, as a `peer` line with such bytes does, and nothing is written after
/// it. The writer is flushed before each read and at the end. A read that was interrupted is made again; there are fewer than 2^62 reads.
///
/// `Err(Read)`: a read failed, or there were too many; the whole messages before are answered. `Err(Write)`: a write or a flush failed;
/// some front of the replies to the last group may be out, and no later message was run. `Err(Memory)`: out of memory, either for the
/// buffer, and nothing was read, or for a piece of the stream, of 131,072 bytes at most; the messages that were whole before the piece
/// are answered, and those that it completed weren't run.
pub fn serve_peer<
    W: Wait,
    D: Disk + Drop,
    J: Chapter + Numbering,
    S: Publisher<J> + Drop,
    R: Read,
    O: Write,
>(
    rt: &W,
    alloc: Global,
    reader: &mut R,
    writer: &mut O,
    shared: &Shared<D, J, S>,
) -> Result<(), EngineFault>
    ensures { (last : Option PlainReceipt) × IsStream (Takes J.base J.setting) result (R.remaining reader.old) (R.remaining reader.new)
        None last (O.contents writer.old) (O.contents writer.new) }
{
    let mut last = None;
    continue_peer(rt, alloc, reader, writer, shared, &mut last)
}

/// As [`serve_peer`], with its faults, but the first call hands in the receipt that the caller has, if it has one. Afterwards the caller
/// has the receipt of the last message whose group wasn't refused whole, or its own if there was none.
///
/// The front of the receipt that the caller then has begins with what each reply that has a receipt was answered by, as
/// [`the_last_receipt_has_all`](crate::laws::the_last_receipt_has_all) says. So does the history of the Book that confirms it.
pub fn continue_peer<
    W: Wait,
    D: Disk + Drop,
    J: Chapter + Numbering,
    S: Publisher<J> + Drop,
    R: Read,
    O: Write,
>(
    rt: &W,
    alloc: Global,
    reader: &mut R,
    writer: &mut O,
    shared: &Shared<D, J, S>,
    last: &mut Option<Receipt<J>>,
) -> Result<(), EngineFault>
    ensures { IsStream (Takes J.base J.setting) result (R.remaining reader.old) (R.remaining reader.new)
        last.old last.new (O.contents writer.old) (O.contents writer.new) }
{
    let book = Caller::new(rt, shared);
    follow_by(alloc, reader, writer, &book, last)
}

// The same, by whatever is called.
fn follow_by<C: CallBook<J>, J: Chapter, R: Read, O: Write>(
    alloc: Global,
    reader: &mut R,
    writer: &mut O,
    book: &C,
    last: &mut Option<Receipt<J>>,
) -> Result<(), EngineFault>
    ensures { IsStream (Takes J.base J.setting) result (R.remaining reader.old) (R.remaining reader.new)
        last.old last.new (O.contents writer.old) (O.contents writer.new) }
{
    let Ok(mut stream) = PeerStream::new(alloc) else {
        return Err(EngineFault::Memory);
    };
    match go_on_peer_by(alloc, &mut stream, reader, writer, book, &NoPause, last) {
        Ok(LeftOff::Ended) => Ok(()),
        Ok(LeftOff::Paused) => unreachable!(),
        Err(fault) => Err(fault),
    }
}

/// A peer's stream, without what belongs to an opening: what came of a message. So it goes from one opening to the next, and needs no memory
/// there for what a read gives. Contracts see it as its `PeerReader`.
#[derive(Drop)]
pub struct PeerStream {
    // room for what a read gives
    piece: Vec<u8>,
    peer: PeerReader,
}

impl Model for PeerStream {
    ghost use Rattle.std.specs.Prelude.{◌≡◌, ℕ, List, Option, vec_len};

    ghost Value = { Option (List ℕ) };

    ghost view = { λ s. s.peer };

    ghost invariant = { λ s. vec_len s.piece ≡ 131072 };
}

impl PeerStream {
    /// A stream of which nothing has come. `AllocError`: out of memory for what it reads.
    pub fn new(alloc: Global) -> Result<PeerStream, AllocError>
        ensures { IfOk result (λ s. s ≡ Some []) }
    {
        Ok(PeerStream {
            piece: Vec::from_elem(alloc, 0, PIECE_LEN)?,
            peer: PeerReader::new(alloc),
        })
    }
}

/// Runs the messages of a peer's stream, as [`serve_peer`] does, in one opening of several: from where the stream is, until it pauses, is at
/// its end or has a fault. Its first call hands in no receipt, as receipts are of one opening.
///
/// `Paused`: a pause was due before a read. All that came is answered but the bytes of a message that isn't whole, which the stream has; the
/// writer was flushed. It may go on in another opening: [`streams_go_on`](crate::laws::streams_go_on) says what it has written then.
///
/// Faults are those of [`serve_peer`], where `Memory` is that of a piece.
pub fn go_on_peer<
    W: Wait,
    D: Disk + Drop,
    J: Chapter + Numbering,
    S: Publisher<J> + Drop,
    P: Pause,
    R: Read,
    O: Write,
>(
    rt: &W,
    alloc: Global,
    stream: &mut PeerStream,
    reader: &mut R,
    writer: &mut O,
    shared: &Shared<D, J, S>,
    pause: &P,
) -> Result<LeftOff, EngineFault>
    ensures paused { result ≡ Ok Paused → P.may_pause pause.now }
    ensures part { GoesOn stream.old → (last : Option PlainReceipt) × IsStreamPart (Takes J.base J.setting) stream.old result stream.new
        (R.remaining reader.old) (R.remaining reader.new) None last (O.contents writer.old) (O.contents writer.new) }
{
    let mut last = None;
    let book = Caller::new(rt, shared);
    go_on_peer_by(alloc, stream, reader, writer, &book, pause, &mut last)
}

/// As [`go_on_peer`], with its faults, but by whatever is called, and with receipts as in [`go_on_by`](crate::go_on_by).
pub fn go_on_peer_by<C: CallBook<J>, J: Chapter, P: Pause, R: Read, O: Write>(
    alloc: Global,
    stream: &mut PeerStream,
    reader: &mut R,
    writer: &mut O,
    book: &C,
    pause: &P,
    last: &mut Option<Receipt<J>>,
) -> Result<LeftOff, EngineFault>
    ensures paused { result ≡ Ok Paused → P.may_pause pause.now }
    ensures part { GoesOn stream.old → IsStreamPart (Takes J.base J.setting) stream.old result stream.new
        (R.remaining reader.old) (R.remaining reader.new) last.old last.new (O.contents writer.old) (O.contents writer.new) }
{
    let mut follower = Follower {
        book,
        last: last.take(),
    };
    let left = follow(
        alloc,
        stream.piece.as_mut_slice(),
        &mut stream.peer,
        reader,
        writer,
        &mut follower,
        pause,
    );
    *last = follower.last;
    left
}

// Reads to a pause, the end or a fault. `piece` holds what a read gave.
fn follow<C: CallBook<J>, J: Chapter, P: Pause, R: Read, O: Write>(
    alloc: Global,
    piece: &mut [u8],
    peer: &mut PeerReader,
    reader: &mut R,
    writer: &mut O,
    follower: &mut Follower<'_, C, J>,
    pause: &P,
) -> Result<LeftOff, EngineFault>
    requires piece { 0 < length piece.old }
    requires room { length piece.old ≤ PIECE_LEN }
    ensures paused { result ≡ Ok Paused → P.may_pause pause.now }
    ensures part { GoesOn peer.old → IsStreamPart (Takes J.base J.setting) peer.old result peer.new
        (R.remaining reader.old) (R.remaining reader.new) follower.old.last follower.new.last (O.contents writer.old) (O.contents writer.new) }
{
    for _ in 1..MOST_READS {
        if writer.flush().is_err() {
            return Err(EngineFault::Write);
        }
        if pause.is_due() {
            return Ok(LeftOff::Paused);
        }
        match reader.read(piece) {
            Ok(n) => {
                if n == 0 {
                    return match tell_end(peer, writer) {
                        Ok(()) => Ok(LeftOff::Ended),
                        Err(fault) => Err(fault),
                    };
                }
                match follower.take(alloc, &piece[..n], peer, writer) {
                    Ok(Progress::On) => {}
                    Ok(Progress::Over) => return Ok(LeftOff::Ended),
                    Err(fault) => return Err(fault),
                }
            }
            Err(error) => {
                if error.kind() != ErrorKind::Interrupted {
                    return Err(EngineFault::Read);
                }
            }
        }
    }
    Err(EngineFault::Read)
}
