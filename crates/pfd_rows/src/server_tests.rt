//! Callers that share a Book, each in a thread of its own, seers that judge beside it, and a listener whose accept fails.
ghost use Rattle.std.specs.Prelude.{◌≡◌};
ghost use Rattle.pfd_words.specs.declared.words.TheConstants.{HISTORY_LIMIT};
ghost use Rattle.pf_book.specs.Books.{IsNamed};

use crate::tally::Tally;
use pf_core::{Command, Reply};
use pf_line::{Request, parse_line, write_judged};
use pf_rule::Packet;
use pfd::{
    Accept, Arrival, Book, Chapter, EngineFault, HISTORY_LIMIT, MEMORY_SIZE, MemDisk, NewCalls,
    Numbering, OpenGate, Opening, Receipt, Seer, Shared, open_fresh, serve_listener,
};
use std::alloc::Global;
use std::io::{self, ErrorKind, Write};
use std::marker::Brand;
use std::sync::Wait;
use std::sync::atomic::{AtomicU32, Ordering};
use std::thread;
use std::thread::Threads;

/// How many changes each of two callers makes.
const CHANGES: usize = 50;

/// How many changes there are with the commit behind these.
const ALL: usize = 2 * CHANGES + 1;

/// The command that a line spells.
fn command(alloc: Global, line: &str) -> io::Result<Command> {
    match parse_line(alloc, line.as_bytes()) {
        Ok(Some(Request::Run(command))) => Ok(command),
        _ => Err(io::Error::from(ErrorKind::InvalidInput)),
    }
}

/// The receipt of an answer. The reply goes no further, as a function's proof pays for the size of a reply wherever it goes.
fn receipt_of<J: Chapter>(answer: (Reply, Receipt<J>)) -> Receipt<J> {
    let (_reply, receipt) = answer;
    receipt
}

/// One call, with the receipt of one before it: its receipt.
fn run<J: Chapter + Numbering, R: Wait>(
    rt: &R,
    alloc: Global,
    shared: &Shared<MemDisk, J, &R>,
    line: &str,
    last: Option<&Receipt<J>>,
) -> io::Result<Receipt<J>> {
    let command = command(alloc, line)?;
    Ok(receipt_of(shared.run(rt, command, last)))
}

/// One call, alone or in one group with those of another caller, with the receipt of the one before it: its receipt.
fn run_together<J: Chapter + Numbering, R: Wait>(
    rt: &R,
    alloc: Global,
    shared: &Shared<MemDisk, J, &R>,
    line: &str,
    last: Option<Receipt<J>>,
) -> io::Result<Receipt<J>> {
    let command = command(alloc, line)?;
    match shared.run_together(rt, command, last) {
        Ok(answer) => Ok(receipt_of(answer)),
        Err(_) => Err(io::Error::from(ErrorKind::Other)),
    }
}

/// Makes changes, each with the receipt of the one before it: their numbers.
fn change_often<J: Chapter + Numbering, R: Wait>(
    rt: &R,
    alloc: Global,
    shared: &Shared<MemDisk, J, &R>,
    line: &str,
) -> io::Result<Vec<usize>> {
    let mut numbers = Vec::new(alloc);
    let mut last = None;
    for _ in 0..CHANGES {
        let receipt = run_together(rt, alloc, shared, line, last)?;
        numbers.push(receipt.seq())?;
        last = Some(receipt);
    }
    Ok(numbers)
}

/// A packet that a seer judges.
fn packet(alloc: Global) -> io::Result<Packet> {
    match Packet::parse(alloc, "in em0 tcp 10.0.0.1 1234 10.0.0.2 80") {
        Ok(packet) => Ok(packet),
        Err(_) => Err(io::Error::from(ErrorKind::InvalidData)),
    }
}

/// A seer's verdict on a packet, as the reply to a line that asks for it; `gone` if it sees nothing any more.
fn judged<J: Chapter>(alloc: Global, seer: &mut Seer<J>) -> io::Result<Vec<u8>> {
    let packet = packet(alloc)?;
    let mut text = Vec::new(alloc);
    match seer.judge(&packet) {
        Ok(verdict) => write_judged(&mut text, &verdict)?,
        Err(_) => text.extend_from_slice(b"gone\n")?,
    }
    Ok(text)
}

/// Two callers change tables, each in a thread of its own: the numbers of all changes.
fn change_at_once<J: Chapter + Numbering + Send + Sync, R: Wait + Threads + Sync>(
    rt: &R,
    alloc: Global,
    shared: &Shared<MemDisk, J, &R>,
) -> io::Result<Vec<usize>> {
    let (first, second) = thread::join(
        rt,
        || change_often(rt, alloc, shared, "tset - a 10/8"),
        || change_often(rt, alloc, shared, "tset - b 10/8"),
    );
    let mut numbers = first?;
    numbers.extend_from_slice(&second?)?;
    Ok(numbers)
}

/// One call, with the receipt of the one before it: its receipt becomes the last one.
fn call_next<J: Chapter + Numbering, R: Wait>(
    rt: &R,
    alloc: Global,
    shared: &Shared<MemDisk, J, &R>,
    line: &str,
    receipts: &mut Vec<Receipt<J>>,
) -> io::Result<()> {
    let receipt = run(rt, alloc, shared, line, receipts.last())?;
    receipts.push(receipt)?;
    Ok(())
}

/// Commits a rule that blocks: the receipt.
fn commit_block<J: Chapter + Numbering, R: Wait>(
    rt: &R,
    alloc: Global,
    shared: &Shared<MemDisk, J, &R>,
) -> io::Result<Receipt<J>> {
    let mut receipts = Vec::new(alloc);
    call_next(rt, alloc, shared, "begin filter -", &mut receipts)?;
    call_next(rt, alloc, shared, "add - 1.1 block in all", &mut receipts)?;
    call_next(rt, alloc, shared, "commit filter - 1.1", &mut receipts)?;
    match receipts.pop() {
        Some(commit) => Ok(commit),
        None => Err(io::Error::from(ErrorKind::Other)),
    }
}

/// Each change of two callers has its own number. Behind them a rule that blocks is committed: the receipt of that.
fn change<J: Chapter + Numbering + Send + Sync, R: Wait + Threads + Sync>(
    rt: &R,
    alloc: Global,
    shared: &Shared<MemDisk, J, &R>,
    tally: &mut Tally,
) -> io::Result<Receipt<J>> {
    let mut numbers = change_at_once(rt, alloc, shared)?;
    numbers.sort()?;
    let is_each = numbers.iter().copied().eq(1..ALL);
    tally.hold("each change has a number of its own", is_each)?;
    let commit = commit_block(rt, alloc, shared)?;
    let is_last = commit.seq() == ALL && commit.change().is_some();
    tally.hold("the commit is the last change", is_last)?;
    Ok(commit)
}

/// A seer that learns of a commit and one that doesn't both judge by it, each in a thread of its own.
fn judge<J: Chapter + Send + Sync, R: Threads + Sync>(
    rt: &R,
    alloc: Global,
    commit: &Receipt<J>,
    informed: &mut Seer<J>,
    uninformed: &mut Seer<J>,
    tally: &mut Tally,
) -> io::Result<()> {
    let Some(token) = commit.token() else {
        return Err(io::Error::from(ErrorKind::NotFound));
    };
    informed.learn(token);
    let (one, other) = thread::join(rt, || judged(alloc, informed), || judged(alloc, uninformed));
    let (one, other) = (is_blocked(one)?, is_blocked(other)?);
    tally.hold("a seer that is told judges by the commit", one)?;
    tally.hold("a seer that isn't told judges by it too", other)?;
    Ok(())
}

/// Whether a verdict is that of the rule that was committed.
fn is_blocked(verdict: io::Result<Vec<u8>>) -> io::Result<bool> {
    Ok(verdict?.as_slice() == b"block rule 0\n".as_slice())
}

/// Whether a call changed nothing behind a commit.
fn changed_nothing<J: Chapter>(receipt: &Receipt<J>, commit: &Receipt<J>) -> bool {
    receipt.seq() == commit.seq() && receipt.change().is_none() && receipt.token().is_none()
}

/// An answer and a refusal change nothing, and their receipts say so.
fn ask<J: Chapter + Numbering, R: Wait>(
    rt: &R,
    alloc: Global,
    shared: &Shared<MemDisk, J, &R>,
    commit: &Receipt<J>,
    tally: &mut Tally,
) -> io::Result<()> {
    for line in ["test - a 10.0.0.1", "tkill - none"] {
        let receipt = run(rt, alloc, shared, line, Some(commit))?;
        tally.hold(line, changed_nothing(&receipt, commit))?;
    }
    Ok(())
}

/// A listener whose accepts say twice that a client gave up, and then fail.
#[derive(Drop)]
struct Unsteady {
    calls: AtomicU32,
}

impl Accept for Unsteady {
    type Connection = Arrival;

    fn accept(&self) -> io::Result<Arrival> {
        match self.calls.fetch_add(1, Ordering::SeqCst) {
            0 | 1 => Err(io::Error::from(ErrorKind::ConnectionAborted)),
            _ => Err(io::Error::from(ErrorKind::Other)),
        }
    }
}

/// A listener that fails ends the server, though it may have any number of sessions.
fn fail_to_listen<J: Chapter + Numbering + Send + Sync, R: Wait + Threads + Sync>(
    rt: &R,
    alloc: Global,
    shared: &Shared<MemDisk, J, &R>,
    seers: Vec<Seer<J>>,
    tally: &mut Tally,
) -> io::Result<()> {
    let listener = Unsteady {
        calls: AtomicU32::new(0),
    };
    let served = serve_listener(rt, alloc, &listener, shared, seers, &OpenGate, 0);
    let has_failed = served == Err(EngineFault::Read);
    tally.hold("a listener that fails ends the server", has_failed)?;
    let calls = listener.calls.load(Ordering::SeqCst);
    tally.hold("a client that gives up doesn't", calls == 3)?;
    Ok(())
}

/// Callers and seers beside a Book that is shared: the receipt of a commit, which both seers then judge by.
fn call<J: Chapter + Numbering + Send + Sync, R: Wait + Threads + Sync>(
    rt: &R,
    alloc: Global,
    shared: &Shared<MemDisk, J, &R>,
    informed: &mut Seer<J>,
    uninformed: &mut Seer<J>,
    tally: &mut Tally,
) -> io::Result<Receipt<J>> {
    let before = judged(alloc, uninformed)?;
    let passes = before.as_slice() == b"pass default\n".as_slice();
    tally.hold("before the commit all passes", passes)?;
    let commit = change(rt, alloc, shared, tally)?;
    judge(rt, alloc, &commit, informed, uninformed, tally)?;
    ask(rt, alloc, shared, &commit, tally)?;
    Ok(commit)
}

/// What a Book says of a commit that was the last call.
#[derive(Clone, Copy)]
struct Confirmed {
    is_known: bool,
    is_last: bool,
    ends: bool,
}

impl Confirmed {
    /// It is asked for by the commit's receipt.
    fn by<J: Chapter, R: Wait>(book: &mut Book<MemDisk, J, &R>, commit: &Receipt<J>) -> Confirmed {
        Confirmed {
            is_known: book.confirm(commit),
            is_last: book.log_len() == commit.seq() && book.acked() == commit.seq(),
            ends: book.change_at(1).is_some() && book.change_at(ALL + 1).is_none(),
        }
    }

    /// Each of it holds.
    fn hold(self, tally: &mut Tally) -> io::Result<()> {
        tally.hold("the Book knows the commit", self.is_known)?;
        tally.hold("the commit is the last of its history", self.is_last)?;
        tally.hold("no change stands behind it", self.ends)?;
        Ok(())
    }
}

/// A seer of a Book that is gone judges no more.
fn judge_no_more<J: Chapter>(
    alloc: Global,
    seer: &mut Seer<J>,
    tally: &mut Tally,
) -> io::Result<()> {
    let gone = judged(alloc, seer)?;
    let is_gone = gone.as_slice() == b"gone\n".as_slice();
    tally.hold("a seer of a Book that is gone judges no more", is_gone)?;
    Ok(())
}

/// Two seers of a Book.
fn two_of<J: Chapter>(seers: &mut Vec<Seer<J>>) -> io::Result<(Seer<J>, Seer<J>)> {
    match (seers.pop(), seers.pop()) {
        (Some(one), Some(other)) => Ok((one, other)),
        _ => Err(io::Error::from(ErrorKind::NotFound)),
    }
}

/// Callers, seers and a listener beside a Book: the receipt of the last commit, and a seer that wasn't told of it.
fn call_and_listen<J: Chapter + Numbering + Send + Sync, R: Wait + Threads + Sync>(
    rt: &R,
    alloc: Global,
    shared: &Shared<MemDisk, J, &R>,
    mut seers: Vec<Seer<J>>,
    tally: &mut Tally,
) -> io::Result<(Receipt<J>, Seer<J>)> {
    let (mut informed, mut uninformed) = two_of(&mut seers)?;
    let commit = call(rt, alloc, shared, &mut informed, &mut uninformed, tally)?;
    fail_to_listen(rt, alloc, shared, seers, tally)?;
    Ok((commit, uninformed))
}

/// What a Book says of the last commit once its callers have ended.
fn close<J: Chapter + Numbering, R: Wait>(
    shared: Shared<MemDisk, J, &R>,
    commit: &Receipt<J>,
) -> Confirmed {
    let mut book = shared.close();
    Confirmed::by(&mut book, commit)
}

/// Shares a Book with callers, seers and a listener, and takes it back from them.
fn share<J: Chapter + Numbering + Send + Sync, R: Wait + Threads + Sync>(
    rt: &R,
    alloc: Global,
    shared: Shared<MemDisk, J, &R>,
    seers: Vec<Seer<J>>,
    tally: &mut Tally,
) -> io::Result<()> {
    let (commit, mut uninformed) = call_and_listen(rt, alloc, &shared, seers, tally)?;
    close(shared, &commit).hold(tally)?;
    judge_no_more(alloc, &mut uninformed, tally)
}

/// Callers and seers beside a Book, and what the Book says once they have ended.
fn play<J: Chapter + Numbering + Send + Sync, R: Wait + Threads + Sync>(
    rt: &R,
    alloc: Global,
    opening: Opening<MemDisk>,
    calls: NewCalls,
    tally: &mut Tally,
) -> io::Result<()>
    requires name { IsNamed J.base J.history J.setting opening HISTORY_LIMIT }
    requires calls { calls ≡ J.register }
{
    match Book::<MemDisk, J, &R>::of(rt, alloc, opening, HISTORY_LIMIT, 3) {
        Ok((book, seers)) => share(rt, alloc, Shared::new(book, calls), seers, tally),
        Err(_) => Err(io::Error::from(ErrorKind::Other)),
    }
}

/// The same over a new disk in memory.
fn play_beside<R: Wait + Threads + Sync>(
    rt: &R,
    alloc: Global,
    tally: &mut Tally,
) -> io::Result<()> {
    let disk = MemDisk::of(alloc, vec![in alloc; 0u8; MEMORY_SIZE]?)?;
    match open_fresh(alloc, disk) {
        Ok(opening) => play::<Brand, _>(rt, alloc, opening, NewCalls::open(), tally),
        Err(_) => Err(io::Error::from(ErrorKind::Other)),
    }
}

/// Plays it, and writes what it came to.
pub(crate) fn tell_all<R: Wait + Threads + Sync, W: Write>(
    rt: &R,
    alloc: Global,
    out: &mut W,
) -> io::Result<()> {
    let mut tally = Tally::none(alloc);
    play_beside(rt, alloc, &mut tally)?;
    tally.tell(out, "Callers and seers beside one Book")
}
