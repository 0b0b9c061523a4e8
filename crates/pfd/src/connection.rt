//! A connection that is served, whatever opening it is in. No clause can say what a socket gives and takes, so this is only tested.
ghost use Rattle.std.specs.Prelude.{◌≡◌, IfOk};
ghost use Rattle.pf_addr.specs.Writing.{Writes};
ghost use Rattle.pf_session.specs.Server.Askings.{denied_text};
ghost use Rattle.pfd.specs.Connections.{BeginsAs, IsJudgedFrom, IsServedFrom};

use crate::admitting::{Way, way_of};
use crate::patience::Patience;
use crate::stream::{Arrival, Incoming, Outgoing, Received, Unsent};
use pf_book::{Chapter, Seer};
use pf_session::{
    AskBook, CallBook, EngineFault, Gate, LeftOff, LineSession, Pause, PeerStream, deny,
    go_on_asking_by, go_on_by, go_on_judging, go_on_peer_by,
};
use std::alloc::{AllocError, Global};
use std::io::{self, ErrorKind, Read, Write};
use std::marker::Model;
use std::mem;
use std::net::Shutdown;

// At most so many reads are made of what a peer sends after a fault.
const MOST_DROPPED: usize = 64;

/// How far a connection has come.
#[derive(Drop)]
pub(crate) enum Stage {
    /// Nothing came yet.
    Silent,
    /// It is a session.
    Session(LineSession),
    /// It is a session that may only ask.
    Asking(LineSession),
    /// It is a peer's stream.
    Peer(PeerStream),
    /// What comes is dropped, in at most so many reads more: the system resets a connection that is closed with unread bytes, and the peer
    /// might not read of its fault.
    Leaving(usize),
    /// Nothing more is read; what it was given may not all be taken yet.
    Over,
}

/// A connection that is served, without what belongs to an opening: it goes from one opening to the next as it is. Contracts see it as its
/// number.
#[derive(Drop)]
pub(crate) struct Connection {
    arrival: Arrival,
    number: u32,
    stage: Stage,
    received: Received,
    unsent: Unsent,
}

impl Model for Connection {
    ghost use Rattle.std.specs.Prelude.{ℕ};

    ghost Value = { ℕ };

    ghost view = { λ c. c.number };
}

impl Connection {
    /// The connection of the session with this number, of which nothing came. `Err` gives it back: out of memory.
    pub(crate) fn new(alloc: Global, arrival: Arrival, number: u32) -> Result<Connection, Arrival> {
        let Ok(unsent) = Unsent::new(alloc) else {
            return Err(arrival);
        };
        Ok(Connection {
            arrival,
            number,
            stage: Stage::Silent,
            received: Received::new(),
            unsent,
        })
    }

    /// The number of its session.
    pub(crate) fn number(&self) -> u32
        ensures { result ≡ self.now }
    {
        self.number
    }

    /// The connection as it arrived.
    pub(crate) fn arrival(&self) -> &Arrival {
        &self.arrival
    }

    /// Serves it from where it is, by what calls a Book, until a pause or its end. A connection that paused goes on in the next opening.
    pub(crate) fn carry_on<C: CallBook<J> + AskBook<J>, J: Chapter, G: Gate, P: Pause>(
        &mut self,
        alloc: Global,
        book: &C,
        seer: &mut Seer<J>,
        gate: &G,
        pause: &P,
    ) -> Result<LeftOff, EngineFault> {
        // what it was given before comes first: one that doesn't read has no more done
        if self.send_rest(pause)? == LeftOff::Paused {
            return Ok(LeftOff::Paused);
        }
        if let Stage::Silent = self.stage {
            if self.begin(alloc, pause)? == LeftOff::Paused {
                return Ok(LeftOff::Paused);
            }
        }
        if self.go_on(alloc, book, seer, gate, pause)? == LeftOff::Paused {
            return Ok(LeftOff::Paused);
        }
        self.end(pause)
    }

    /// Answers what it asks of packets, by the seer alone, if it is a session: from where it is, until a pause, a line of another kind or
    /// its end. Whatever else it sends stays. Reads look up more often meanwhile.
    pub(crate) fn judge<J: Chapter, G: Gate, P: Pause>(
        &mut self,
        alloc: Global,
        seer: &mut Seer<J>,
        gate: &G,
        pause: &P,
    ) -> Result<LeftOff, EngineFault> {
        if self.send_rest(pause)? == LeftOff::Paused {
            return Ok(LeftOff::Paused);
        }
        let brief = Patience::brief();
        if self.arrival.stream.limit_reads(brief.span()).is_err() {
            return Ok(LeftOff::Paused);
        }
        let left = self.judge_on(alloc, brief, seer, gate, pause);
        match self
            .arrival
            .stream
            .limit_reads(self.arrival.patience.span())
        {
            Ok(()) => left,
            Err(_) => Err(EngineFault::Read),
        }
    }

    // The same, where reads look up so often.
    fn judge_on<J: Chapter, G: Gate, P: Pause>(
        &mut self,
        alloc: Global,
        brief: Patience,
        seer: &mut Seer<J>,
        gate: &G,
        pause: &P,
    ) -> Result<LeftOff, EngineFault> {
        let mut reader = Incoming {
            stream: &self.arrival.stream,
            received: self.received,
            patience: brief,
            pause,
        };
        let mut writer = Outgoing {
            stream: &self.arrival.stream,
            unsent: mem::replace(&mut self.unsent, Unsent::without_room(alloc)),
            patience: self.arrival.patience,
            pause,
        };
        let left = judge_stage(&mut self.stage, &mut reader, &mut writer, seer, gate, pause);
        self.received = reader.received;
        self.unsent = writer.into_unsent();
        left
    }

    // Waits for its first byte, which says what it is.
    fn begin<P: Pause>(&mut self, alloc: Global, pause: &P) -> Result<LeftOff, EngineFault> {
        for _ in 0..u64::MAX {
            if pause.is_due() {
                return Ok(LeftOff::Paused);
            }
            match self.look(pause) {
                Ok(Some(first)) => {
                    // a reply goes out at once, and doesn't wait for the next
                    self.arrival.stream.hasten();
                    self.settle(alloc, first, pause)?;
                    return Ok(LeftOff::Ended);
                }
                Ok(None) => {
                    self.stage = Stage::Over;
                    return Ok(LeftOff::Ended);
                }
                Err(error) => {
                    if error.kind() != ErrorKind::Interrupted {
                        return Err(EngineFault::Read);
                    }
                }
            }
        }
        Err(EngineFault::Read)
    }

    // The first byte that comes, which is read again.
    fn look<P: Pause>(&mut self, pause: &P) -> io::Result<Option<u8>> {
        let mut reader = Incoming {
            stream: &self.arrival.stream,
            received: self.received,
            patience: self.arrival.patience,
            pause,
        };
        let looked = reader.look();
        self.received = reader.received;
        looked
    }

    // Settles what it is, by its first byte. One that isn't admitted is told so.
    fn settle<P: Pause>(&mut self, alloc: Global, first: u8, pause: &P) -> Result<(), EngineFault> {
        let way = way_of(self.arrival.admits, first);
        if way == Way::Denied {
            let mut writer = Outgoing {
                stream: &self.arrival.stream,
                unsent: mem::replace(&mut self.unsent, Unsent::without_room(alloc)),
                patience: self.arrival.patience,
                pause,
            };
            let reported = turn_away(&mut writer);
            self.unsent = writer.into_unsent();
            reported?;
        }
        match stage_of(alloc, way, self.number) {
            Ok(stage) => {
                self.stage = stage;
                Ok(())
            }
            Err(AllocError) => Err(EngineFault::Memory),
        }
    }

    // Serves what it is, until a pause or its reader's end.
    fn go_on<C: CallBook<J> + AskBook<J>, J: Chapter, G: Gate, P: Pause>(
        &mut self,
        alloc: Global,
        book: &C,
        seer: &mut Seer<J>,
        gate: &G,
        pause: &P,
    ) -> Result<LeftOff, EngineFault> {
        let mut reader = Incoming {
            stream: &self.arrival.stream,
            received: self.received,
            patience: self.arrival.patience,
            pause,
        };
        let mut writer = Outgoing {
            stream: &self.arrival.stream,
            unsent: mem::replace(&mut self.unsent, Unsent::without_room(alloc)),
            patience: self.arrival.patience,
            pause,
        };
        let left = carry_on_stage(
            alloc,
            &mut self.stage,
            &mut reader,
            &mut writer,
            book,
            seer,
            gate,
            pause,
        );
        self.received = reader.received;
        self.unsent = writer.into_unsent();
        left
    }

    // Ends it: what it was given is sent, and of a peer's stream, or of what was denied, what still comes is dropped.
    fn end<P: Pause>(&mut self, pause: &P) -> Result<LeftOff, EngineFault> {
        self.stage = match &self.stage {
            Stage::Peer(_) => Stage::Leaving(MOST_DROPPED),
            Stage::Leaving(reads) => Stage::Leaving(*reads),
            Stage::Silent | Stage::Session(_) | Stage::Asking(_) | Stage::Over => Stage::Over,
        };
        if self.send_rest(pause)? == LeftOff::Paused {
            return Ok(LeftOff::Paused);
        }
        self.drop_rest(pause)
    }

    // Sends what it was given and didn't take yet.
    fn send_rest<P: Pause>(&mut self, pause: &P) -> Result<LeftOff, EngineFault> {
        let sent = self
            .unsent
            .send(&self.arrival.stream, self.arrival.patience, pause);
        if sent.is_err() {
            return Err(EngineFault::Write);
        }
        if self.unsent.is_empty() {
            Ok(LeftOff::Ended)
        } else {
            Ok(LeftOff::Paused)
        }
    }

    // Drops what comes of one that leaves, for some reads, until nothing comes for a second or the connection is closed.
    fn drop_rest<P: Pause>(&mut self, pause: &P) -> Result<LeftOff, EngineFault> {
        let Stage::Leaving(reads) = self.stage else {
            return Ok(LeftOff::Ended);
        };
        let patience = Patience::new(1, true);
        let _ = self.arrival.stream.shutdown(Shutdown::Write);
        if self.arrival.stream.limit_reads(patience.span()).is_err() {
            return Ok(LeftOff::Ended);
        }
        let mut reader = Incoming {
            stream: &self.arrival.stream,
            received: self.received,
            patience,
            pause,
        };
        let mut piece = [0u8; 16_384];
        for done in 0..reads {
            match reader.read(&mut piece) {
                Ok(0) => return Ok(LeftOff::Ended),
                Ok(_) => {}
                Err(error) => {
                    if error.kind() != ErrorKind::Interrupted {
                        return Ok(LeftOff::Ended);
                    }
                    if pause.is_due() {
                        self.received = reader.received;
                        self.stage = Stage::Leaving(reads - done);
                        return Ok(LeftOff::Paused);
                    }
                }
            }
        }
        Ok(LeftOff::Ended)
    }
}

// How a connection begins that is served so, with the number of its session.
fn stage_of(alloc: Global, way: Way, number: u32) -> Result<Stage, AllocError>
    ensures { IfOk result (λ stage. BeginsAs way number stage) }
{
    match way {
        Way::Session => Ok(Stage::Session(LineSession::new(alloc, number)?)),
        Way::Asking => Ok(Stage::Asking(LineSession::new(alloc, number)?)),
        Way::Stream => Ok(Stage::Peer(PeerStream::new(alloc)?)),
        Way::Denied => Ok(Stage::Leaving(MOST_DROPPED)),
    }
}

// Serves what a connection sends, from where it is until a pause or its reader's end.
fn carry_on_stage<C: CallBook<J> + AskBook<J>, J: Chapter, G: Gate, P: Pause, R: Read, O: Write>(
    alloc: Global,
    stage: &mut Stage,
    reader: &mut R,
    writer: &mut O,
    book: &C,
    seer: &mut Seer<J>,
    gate: &G,
    pause: &P,
) -> Result<LeftOff, EngineFault>
    ensures { IsServedFrom stage.old stage.new (G.passed gate.now) J.base J.setting result (R.remaining reader.old) (R.remaining reader.new)
        seer.old seer.new (O.contents writer.old) (O.contents writer.new) }
{
    // receipts are of one opening
    let mut last = None;
    match stage {
        Stage::Session(session) => go_on_by(
            alloc, session, reader, writer, book, seer, gate, pause, &mut last,
        ),
        Stage::Asking(session) => go_on_asking_by(
            alloc, session, reader, writer, book, seer, gate, pause, &mut last,
        ),
        Stage::Peer(stream) => go_on_peer_by(alloc, stream, reader, writer, book, pause, &mut last),
        Stage::Silent | Stage::Leaving(_) | Stage::Over => Ok(LeftOff::Ended),
    }
}

// Answers what a session asks of packets, by the seer alone, from where it is.
fn judge_stage<J: Chapter, G: Gate, P: Pause, R: Read, O: Write>(
    stage: &mut Stage,
    reader: &mut R,
    writer: &mut O,
    seer: &mut Seer<J>,
    gate: &G,
    pause: &P,
) -> Result<LeftOff, EngineFault>
    ensures { IsJudgedFrom stage.old stage.new (G.passed gate.now) J.base J.setting result (R.remaining reader.old) (R.remaining reader.new)
        seer.old seer.new (O.contents writer.old) (O.contents writer.new) }
{
    match stage {
        Stage::Session(session) => go_on_judging(session, reader, writer, seer, gate, pause),
        Stage::Asking(session) => go_on_judging(session, reader, writer, seer, gate, pause),
        Stage::Silent | Stage::Peer(_) | Stage::Leaving(_) | Stage::Over => Ok(LeftOff::Paused),
    }
}

// Says that what came isn't let in.
fn say_denied<O: Write>(writer: &mut O) -> io::Result<()>
    ensures { Writes result (O.contents writer.old) (O.contents writer.new) denied_text }
{
    match deny(writer) {
        Ok(()) => writer.flush(),
        Err(error) => Err(error),
    }
}

// The same, as a connection's end.
fn turn_away<O: Write>(writer: &mut O) -> Result<(), EngineFault>
    ensures { Writes result (O.contents writer.old) (O.contents writer.new) denied_text }
{
    match say_denied(writer) {
        Ok(()) => Ok(()),
        Err(_) => Err(EngineFault::Write),
    }
}
