//! Connections, and the workers that serve them. No clause can say what a socket gives and takes, so of a connection only its way is proved.
ghost use Rattle.std.specs.Prelude.{◌≡◌, ◌⊎◌, IfErr};

use crate::accepting::{Accept, Acceptor};
use crate::connection::Connection;
use crate::log::logged::Logged;
use crate::log::{KeepLog, NoLog};
use crate::renewal::Callers;
use crate::stream::Arrival;
use pf_book::shared::Shared;
use pf_book::{Chapter, Disk, Numbering, Publisher, Seer};
use pf_session::{Caller, EngineFault, Gate, LeftOff, NoPause, Pause};
use std::alloc::{AllocError, Global};
use std::collections::VecDeque;
use std::net::TcpListener;
use std::sync::atomic::{AtomicU32, Ordering};
use std::sync::{Mutex, Wait};
use std::thread::Threads;
use std::{io, thread};

impl Accept for TcpListener {
    type Connection = Arrival;

    fn accept(&self) -> io::Result<Arrival> {
        match TcpListener::accept(self) {
            Ok((stream, _)) => Ok(Arrival::from(stream)),
            Err(error) => Err(error),
        }
    }
}

/// What goes from one opening to the next: how many connections were accepted, how many of them are open, those that paused, and how many
/// workers may call the Book.
#[derive(Drop)]
pub(crate) struct Reception {
    acceptor: Mutex<Acceptor>,
    open: AtomicU32,
    // with room for one of each worker
    paused: Mutex<VecDeque<Connection>>,
    callers: Callers,
}

impl Reception {
    /// Nothing was accepted yet, of so many connections, or without end if it is 0. `AllocError`: out of memory for what pauses.
    pub(crate) fn new(
        alloc: Global,
        sessions: u32,
        workers: usize,
    ) -> Result<Reception, AllocError> {
        Ok(Reception {
            acceptor: Mutex::new(Acceptor::new(sessions)),
            open: AtomicU32::new(0),
            paused: Mutex::new(VecDeque::with_capacity(alloc, workers)?),
            callers: Callers::new(),
        })
    }

    /// Whether an accept failed.
    pub(crate) fn has_failed<W: Wait>(&self, rt: &W) -> bool {
        self.acceptor.lock(rt).has_failed()
    }

    /// Whether a connection paused, or another one is accepted.
    pub(crate) fn goes_on<W: Wait>(&self, rt: &W) -> bool {
        !self.paused.lock(rt).is_empty() || self.acceptor.lock(rt).accepts_more()
    }

    // The next connection for a worker that is free, if there is one: those that paused come first.
    fn next<W: Wait, A: Accept<Connection = Arrival>, P: Pause>(
        &self,
        rt: &W,
        alloc: Global,
        listener: &A,
        pause: &P,
    ) -> Option<Connection> {
        if let Some(connection) = self.next_paused(rt) {
            return Some(connection);
        }
        for _ in rt.forever() {
            let (accepted, session) = self.acceptor.lock(rt).next(listener, pause)?;
            match Connection::new(alloc, accepted, session) {
                Ok(connection) => {
                    self.open.fetch_add(1, Ordering::SeqCst);
                    return Some(connection);
                }
                // it is closed
                Err(arrival) => listener.release(&arrival),
            }
        }
        unreachable!()
    }

    // The next connection that paused, if there is one.
    fn next_paused<W: Wait>(&self, rt: &W) -> Option<Connection> {
        self.paused.lock(rt).pop_front()
    }

    // Keeps a connection that paused.
    fn keep<W: Wait>(&self, rt: &W, connection: Connection) {
        // there is room for it
        let _ = self.paused.lock(rt).push_back(connection);
    }

    // Takes note that a connection has ended.
    fn leave(&self) {
        self.open.fetch_sub(1, Ordering::SeqCst);
    }
}

// Sessions pass it as an open gate, and learn how many connections workers serve.
impl Gate for Reception {
    fn pass(&self, _session: u32, _line: u32) {}

    fn sessions(&self) -> u32 {
        self.open.load(Ordering::SeqCst)
    }
}

/// What serves connections in the opening `J`.
trait ServeConnection<J: Chapter> {
    /// Serves a connection from where it is, until a pause or its end.
    fn serve_connection(
        &self,
        alloc: Global,
        connection: &mut Connection,
        seer: &mut Seer<J>,
    ) -> Result<LeftOff, EngineFault>;
}

/// What answers what connections ask of packets, where no Book is, in the opening `J`.
trait JudgeConnection<J: Chapter> {
    /// Answers what a connection asks of packets, from where it is, until a pause, a line of another kind or its end.
    fn judge_connection<P: Pause>(
        &self,
        alloc: Global,
        connection: &mut Connection,
        seer: &mut Seer<J>,
        pause: &P,
    ) -> Result<LeftOff, EngineFault>;
}

/// What judges behind a gate, and notes faults.
#[derive(Drop)]
struct Judge<'a, G: Gate, L: KeepLog> {
    gate: &'a G,
    log: &'a L,
}

impl<J: Chapter, G: Gate, L: KeepLog> JudgeConnection<J> for Judge<'_, G, L> {
    fn judge_connection<P: Pause>(
        &self,
        alloc: Global,
        connection: &mut Connection,
        seer: &mut Seer<J>,
        pause: &P,
    ) -> Result<LeftOff, EngineFault> {
        let judged = connection.judge(alloc, seer, self.gate, pause);
        if let Err(fault) = &judged {
            self.log.note_fault(connection.number(), *fault);
        }
        judged
    }
}

/// What serves connections by one Book. Workers needn't name a device, nor what waits.
#[derive(Drop)]
struct Server<
    'a,
    W: Wait,
    D: Disk + Drop,
    J: Chapter + Numbering,
    S: Publisher<J> + Drop,
    G: Gate,
    P: Pause,
    L: KeepLog,
> {
    rt: &'a W,
    shared: &'a Shared<D, J, S>,
    gate: &'a G,
    pause: &'a P,
    log: &'a L,
}

impl<
    'a,
    W: Wait,
    D: Disk + Drop,
    J: Chapter + Numbering,
    S: Publisher<J> + Drop,
    G: Gate,
    P: Pause,
    L: KeepLog,
> ServeConnection<J> for Server<'a, W, D, J, S, G, P, L> {
    fn serve_connection(
        &self,
        alloc: Global,
        connection: &mut Connection,
        seer: &mut Seer<J>,
    ) -> Result<LeftOff, EngineFault> {
        let caller = Caller::new(self.rt, self.shared);
        let book = Logged::new(&caller, self.log, connection.number());
        let served = connection.carry_on(alloc, &book, seer, self.gate, self.pause);
        if let Err(fault) = &served {
            self.log.note_fault(connection.number(), *fault);
        }
        served
    }
}

// Serves one connection after the other, with one seer, until a pause or until there are no more. One that paused is returned.
fn serve_in_turn<
    W: Wait,
    A: Accept<Connection = Arrival>,
    J: Chapter,
    S: ServeConnection<J>,
    P: Pause,
>(
    rt: &W,
    alloc: Global,
    listener: &A,
    reception: &Reception,
    server: &S,
    pause: &P,
    seer: &mut Seer<J>,
) -> Option<Connection> {
    for _ in rt.forever() {
        if pause.is_due() {
            return None;
        }
        let mut connection = reception.next(rt, alloc, listener, pause)?;
        // a fault of a connection ends it alone
        match server.serve_connection(alloc, &mut connection, seer) {
            Ok(LeftOff::Paused) => return Some(connection),
            _ => end_connection(listener, reception, &connection),
        }
    }
    unreachable!()
}

// Takes note that a connection has ended.
fn end_connection<A: Accept<Connection = Arrival>>(
    listener: &A,
    reception: &Reception,
    connection: &Connection,
) {
    listener.release(connection.arrival());
    reception.leave();
}

// Has a connection that paused judge on, with one seer, until a pause. It is kept then.
fn judge_on<W: Wait, A: Accept<Connection = Arrival>, J: Chapter, S: JudgeConnection<J>, P: Pause>(
    rt: &W,
    alloc: Global,
    listener: &A,
    reception: &Reception,
    judge: &S,
    pause: &P,
    mut connection: Connection,
    seer: &mut Seer<J>,
) {
    match judge.judge_connection(alloc, &mut connection, seer, pause) {
        Ok(_) => reception.keep(rt, connection),
        // a fault of a connection ends it alone
        Err(_) => end_connection(listener, reception, &connection),
    }
}

// Serves one connection after the other, with one seer, until a pause or until there are no more. One that paused judges on until no worker
// calls the Book any more. It gives the seer back.
fn work<
    W: Wait,
    A: Accept<Connection = Arrival>,
    J: Chapter,
    S: ServeConnection<J>,
    T: JudgeConnection<J>,
    P: Pause,
>(
    rt: &W,
    alloc: Global,
    listener: &A,
    reception: &Reception,
    server: &S,
    judge: &T,
    pause: &P,
    mut seer: Seer<J>,
) -> Seer<J> {
    let callers = &reception.callers;
    callers.come();
    let paused = serve_in_turn(rt, alloc, listener, reception, server, pause, &mut seer);
    callers.leave();
    if let Some(connection) = paused {
        judge_on(
            rt, alloc, listener, reception, judge, callers, connection, &mut seer,
        );
    }
    seer
}

/// Serves the connections of a listener by one worker for each seer, until a pause is due, or until no more connections are accepted and
/// those that were have ended. It gives the seers back. Connections that paused before go on first, and those that pause then judge on until
/// no worker calls the Book any more, and are kept in the reception.
///
/// Each worker has a thread, if the system gives it one; workers without one begin when others have ended. `Err(Memory)`: out of memory for
/// the threads.
pub(crate) fn run_workers<
    M: Wait + Threads + Sync,
    A: Accept<Connection = Arrival> + Sync,
    D: Disk + Drop + Send,
    J: Chapter + Numbering + Send + Sync,
    S: Publisher<J> + Drop + Send,
    G: Gate + Sync,
    P: Pause + Sync,
    L: KeepLog + Sync,
>(
    rt: &M,
    alloc: Global,
    listener: &A,
    reception: &Reception,
    shared: &Shared<D, J, S>,
    seers: Vec<Seer<J>>,
    gate: &G,
    pause: &P,
    log: &L,
) -> Result<Vec<Seer<J>>, EngineFault>
    ensures { IfErr result (λ fault. fault ≡ EngineFault.Memory) }
{
    let server = Server {
        rt,
        shared,
        gate,
        pause,
        log,
    };
    let judge = Judge { gate, log };
    work_all(
        rt, alloc, listener, reception, &server, &judge, pause, seers,
    )
}

// Has each of these seers work in a thread.
fn work_all<
    M: Wait + Threads + Sync,
    A: Accept<Connection = Arrival> + Sync,
    J: Chapter + Send + Sync,
    S: ServeConnection<J> + Sync,
    T: JudgeConnection<J> + Sync,
    P: Pause + Sync,
>(
    rt: &M,
    alloc: Global,
    listener: &A,
    reception: &Reception,
    server: &S,
    judge: &T,
    pause: &P,
    seers: Vec<Seer<J>>,
) -> Result<Vec<Seer<J>>, EngineFault>
    ensures { IfErr result (λ fault. fault ≡ EngineFault.Memory) }
{
    let served = thread::map_vec(
        rt,
        seers,
        &|seer| { work(rt, alloc, listener, reception, server, judge, pause, seer) },
    );
    match served {
        Ok(seers) => Ok(seers),
        Err(_) => Err(EngineFault::Memory),
    }
}

/// Has each connection that paused judge on by one of these seers, in a thread of its own, until a pause is due. They are kept in the
/// reception again. It gives the seers back, or none if out of memory for the threads.
pub(crate) fn judge_until<
    M: Wait + Threads + Sync,
    A: Accept<Connection = Arrival> + Sync,
    J: Chapter + Send + Sync,
    G: Gate + Sync,
    P: Pause + Sync,
    L: KeepLog + Sync,
>(
    rt: &M,
    alloc: Global,
    listener: &A,
    reception: &Reception,
    seers: Vec<Seer<J>>,
    gate: &G,
    pause: &P,
    log: &L,
) -> Vec<Seer<J>> {
    let judge = Judge { gate, log };
    judge_all(rt, alloc, listener, reception, &judge, pause, seers)
}

// The same, by whatever judges. There are no more connections than seers, and the first come first, so each judges.
fn judge_all<
    M: Wait + Threads + Sync,
    A: Accept<Connection = Arrival> + Sync,
    J: Chapter + Send + Sync,
    S: JudgeConnection<J> + Sync,
    P: Pause + Sync,
>(
    rt: &M,
    alloc: Global,
    listener: &A,
    reception: &Reception,
    judge: &S,
    pause: &P,
    seers: Vec<Seer<J>>,
) -> Vec<Seer<J>> {
    let judged = thread::map_vec(
        rt,
        seers,
        &|seer| { judge_next(rt, alloc, listener, reception, judge, pause, seer) },
    );
    match judged {
        Ok(seers) => seers,
        Err(_) => Vec::new(alloc),
    }
}

// Has the next connection that paused judge on, with one seer, until a pause. It gives the seer back.
fn judge_next<
    W: Wait,
    A: Accept<Connection = Arrival>,
    J: Chapter,
    S: JudgeConnection<J>,
    P: Pause,
>(
    rt: &W,
    alloc: Global,
    listener: &A,
    reception: &Reception,
    judge: &S,
    pause: &P,
    mut seer: Seer<J>,
) -> Seer<J> {
    if let Some(connection) = reception.next_paused(rt) {
        judge_on(
            rt, alloc, listener, reception, judge, pause, connection, &mut seer,
        );
    }
    seer
}

/// Serves the connections of a listener by one worker for each seer, and returns once `sessions` connections were accepted and have
/// ended; with 0 it never does.
///
/// A worker serves one connection at a time; further ones wait until a worker is free. Sessions are numbered from 1 in the order in which
/// their connections were accepted, and the number stays at 4,294,967,295 once it has come so far. A connection whose first byte is 5 is a
/// peer's stream, as in [`go_on_peer`](pf_session::go_on_peer), any other a session, as in [`go_on`](pf_session::go_on) or, where it may
/// only ask, in [`go_on_asking`](pf_session::go_on_asking). One that isn't admitted where it came is told `err denied`, and closed. What
/// ends one before its client does, as a reset or a lack of memory, ends it alone. What a peer sends after a fault of its stream, or one
/// that was denied, is dropped before its connection is closed, in at most 64 reads of 16,384 bytes, and until nothing comes for a second,
/// so that it can read of its fault.
///
/// Each worker has a thread, if the system gives it one; workers without one begin when others have ended.
///
/// `Err(Read)`: an accept failed; no more connections are accepted, and those that were have ended. `Err(Memory)`: out of memory for the
/// threads.
pub fn serve_listener<
    M: Wait + Threads + Sync,
    A: Accept<Connection = Arrival> + Sync,
    D: Disk + Drop + Send,
    J: Chapter + Numbering + Send + Sync,
    S: Publisher<J> + Drop + Send,
    G: Gate + Sync,
>(
    rt: &M,
    alloc: Global,
    listener: &A,
    shared: &Shared<D, J, S>,
    seers: Vec<Seer<J>>,
    gate: &G,
    sessions: u32,
) -> Result<(), EngineFault>
    ensures { IfErr result (λ fault. (fault ≡ EngineFault.Read) ⊎ (fault ≡ EngineFault.Memory)) }
{
    // nothing pauses
    let Ok(reception) = Reception::new(alloc, sessions, 0) else {
        return Err(EngineFault::Memory);
    };
    let _ = run_workers(
        rt, alloc, listener, &reception, shared, seers, gate, &NoPause, &NoLog,
    )?;
    if reception.has_failed(rt) {
        return Err(EngineFault::Read);
    }
    Ok(())
}
