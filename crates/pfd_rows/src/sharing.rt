//! Sessions and peers' streams over a Book that callers may share, each with a Book of its own.
ghost use Rattle.std.specs.Prelude.{◌≡◌, ◌≤◌, IfOk};
ghost use Rattle.pf_book.specs.{Books.{IsNamed, world_book}, Receipts.IsReached};

use crate::playing::{Device, history_of, opening_of};
use crate::refusing::{Refusals, Refusing};
use crate::spelling::line_bytes;
use crate::streams::{Script, Tight, Watch};
use crate::table::{Kind, Table};
use crate::tally::{Outcome, Tally};
use pf_book::book::Book;
use pf_book::shared::Shared;
use pf_view::views;
use pfd::{
    Chapter, EngineFault, Gate, NewCalls, Numbering, Opening, Seer, answer_asking, serve,
    serve_peer,
};
use std::alloc::{AllocError, Global};
use std::marker::Brand;
use std::sync::Wait;
use std::sync::atomic::{AtomicBool, AtomicU32, Ordering};

// A Book that callers may share, whose changes may be refused memory when they are to be shown.
type SharedBook<J, R> = Shared<Device, J, Refusing<J, R>>;

/// The number of each session.
const SESSION: u32 = 7;

/// How many sessions are open, as a status says it.
const OPEN: u32 = 3;

/// A gate that notes whether the lines of one session came to it in order.
#[derive(Drop)]
struct Counting {
    last: AtomicU32,
    is_wrong: AtomicBool,
}

impl Counting {
    fn new() -> Counting {
        Counting {
            last: AtomicU32::new(0),
            is_wrong: AtomicBool::new(false),
        }
    }

    // How a session ended whose lines came to this gate, and how many they were.
    fn end_of(&self, alloc: Global, ended: Result<(), EngineFault>) -> Result<String, AllocError> {
        let lines = self.last.load(Ordering::SeqCst) as usize;
        end_of(alloc, ended, lines, self.is_wrong.load(Ordering::SeqCst))
    }
}

impl Gate for Counting {
    fn pass(&self, session: u32, line: u32) {
        let last = self.last.swap(line, Ordering::SeqCst);
        if session != SESSION || last.checked_add(1) != Some(line) {
            self.is_wrong.store(true, Ordering::SeqCst);
        }
    }

    fn sessions(&self) -> u32 {
        OPEN
    }
}

// How a stream ended, in a word; a number; and whether the lines were out of order.
fn end_of(
    alloc: Global,
    ended: Result<(), EngineFault>,
    number: usize,
    is_wrong: bool,
) -> Result<String, AllocError> {
    let word = match ended {
        Ok(()) => "ok",
        Err(EngineFault::Read) => "input",
        Err(EngineFault::Write) => "output",
        Err(EngineFault::Memory) => "memory",
    };
    let order = if is_wrong { " out of order" } else { "" };
    format!(in alloc; "{word} {number}{order}\n")
}

// What a row gives a session or a peer: its input, and the limits of the writer.
#[derive(Drop)]
struct Given<'a> {
    input: Vec<u8>,
    limits: &'a str,
}

impl<'a> Given<'a> {
    fn read(alloc: Global, line: &'a str) -> Result<Given<'a>, AllocError> {
        let (input, limits) = line.split_once(" > ").unwrap_or((line, ""));
        let input = line_bytes(alloc, input)?;
        Ok(Given { input, limits })
    }
}

// Serves a session, and appends what it is told.
fn run_given<J: Chapter + Numbering, R: Wait>(
    rt: &R,
    alloc: Global,
    kind: Kind,
    shared: &SharedBook<J, &R>,
    seer: &mut Seer<J>,
    gate: &Counting,
    given: &Given,
    written: &mut Vec<u8>,
) -> Result<(), EngineFault> {
    let watch = &Watch::new(true);
    let reader = &mut Script::new(given.input.as_slice(), watch);
    let writer = &mut Tight::new(written, given.limits, watch);
    match kind {
        Kind::Askers => answer_asking(rt, alloc, reader, writer, shared, seer, gate, SESSION),
        _ => serve(rt, alloc, reader, writer, shared, seer, gate, SESSION),
    }
}

// Plays what a session says before that of a row. What it is told is in no row.
fn begin_with<J: Chapter + Numbering, R: Wait>(
    rt: &R,
    alloc: Global,
    shared: &SharedBook<J, &R>,
    seer: &mut Seer<J>,
    before: &[&str],
) -> Result<(), AllocError> {
    for text in before {
        let input = line_bytes(alloc, text)?;
        let given = &Given { input, limits: "" };
        let gate = &Counting::new();
        let reported = &mut Vec::new(alloc);
        let _ = run_given(
            rt,
            alloc,
            Kind::Sessions,
            shared,
            seer,
            gate,
            given,
            reported,
        );
    }
    Ok(())
}

// Plays one session. Its end says how many lines passed its gate.
fn run_session<J: Chapter + Numbering, R: Wait>(
    rt: &R,
    alloc: Global,
    kind: Kind,
    shared: &SharedBook<J, &R>,
    seer: &mut Seer<J>,
    given: &Given,
) -> Result<Outcome, AllocError> {
    let gate = Counting::new();
    let mut written = Vec::new(alloc);
    let ended = run_given(rt, alloc, kind, shared, seer, &gate, given, &mut written);
    let end = gate.end_of(alloc, ended)?;
    Ok(Outcome { end, written })
}

// Serves a peer's stream, and appends what it is told.
fn follow_given<J: Chapter + Numbering, R: Wait>(
    rt: &R,
    alloc: Global,
    shared: &SharedBook<J, &R>,
    given: &Given,
    written: &mut Vec<u8>,
) -> Result<(), EngineFault> {
    let watch = &Watch::new(true);
    let reader = &mut Script::new(given.input.as_slice(), watch);
    let writer = &mut Tight::new(written, given.limits, watch);
    serve_peer(rt, alloc, reader, writer, shared)
}

// How many changes a Book has whose callers have ended.
fn changes_of<J: Chapter + Numbering, R: Wait>(shared: SharedBook<J, &R>) -> usize {
    shared.close().log_len()
}

// Plays a peer's stream. Its end says how many changes the Book then has.
fn follow<J: Chapter + Numbering, R: Wait>(
    rt: &R,
    alloc: Global,
    shared: SharedBook<J, &R>,
    given: &Given,
) -> Result<Outcome, AllocError> {
    let mut written = Vec::new(alloc);
    let ended = follow_given(rt, alloc, &shared, given, &mut written);
    let end = end_of(alloc, ended, changes_of(shared), false)?;
    Ok(Outcome { end, written })
}

// A Book of an opening, and a seer of it. What shows its changes is refused memory as the limits of a row say.
fn book_of<'a, J: Chapter, R: Wait>(
    rt: &'a R,
    alloc: Global,
    opening: Opening<Device>,
    history: usize,
    limits: &str,
) -> Result<(Book<Device, J, Refusing<J, &'a R>>, Vec<Seer<J>>), AllocError>
    requires name { IsNamed J.base J.history J.setting opening history }
    requires history { (1 ≤ history) × (history ≤ 1_048_576) }
    ensures { IfOk result (λ made. IsReached J.base J.setting (world_book made.0)) }
{
    let Ok(named) = opening.named::<J>() else {
        return Err(AllocError);
    };
    let Ok((shower, seers)) = views::<J, &R>(rt, alloc, named.base(), named.start(), 1) else {
        return Err(AllocError);
    };
    let publisher = Refusing {
        shower,
        offers: Refusals::of(limits, "offers"),
        shows: Refusals::of(limits, "shows"),
    };
    match Book::over(alloc, named, history, publisher) {
        Ok(book) => Ok((book, seers)),
        Err(_) => Err(AllocError),
    }
}

// Plays a case over a Book that is shared, and a seer of it.
fn share_over<J: Chapter + Numbering, R: Wait>(
    rt: &R,
    alloc: Global,
    table: &Table,
    shared: SharedBook<J, &R>,
    seer: &mut Seer<J>,
    given: &Given,
) -> Result<Outcome, AllocError> {
    begin_with(rt, alloc, &shared, seer, table.before.as_slice())?;
    match table.kind {
        Kind::Peers => follow(rt, alloc, shared, given),
        kind => run_session(rt, alloc, kind, &shared, seer, given),
    }
}

// Plays a case over an opening.
fn share<J: Chapter + Numbering, R: Wait>(
    rt: &R,
    alloc: Global,
    table: &Table,
    opening: Opening<Device>,
    calls: NewCalls,
    history: usize,
    given: &Given,
) -> Result<Outcome, AllocError>
    requires name { IsNamed J.base J.history J.setting opening history }
    requires calls { calls ≡ J.register }
    requires history { (1 ≤ history) × (history ≤ 1_048_576) }
{
    let (book, mut seers) = book_of::<J, R>(rt, alloc, opening, history, given.limits)?;
    let shared = Shared::new(book, calls);
    match seers.pop() {
        Some(mut seer) => share_over(rt, alloc, table, shared, &mut seer, given),
        None => Err(AllocError),
    }
}

/// Plays all rows of a table of sessions or of peers' streams.
pub(crate) fn share_each<R: Wait>(
    rt: &R,
    alloc: Global,
    table: &Table,
) -> Result<Tally, AllocError> {
    let history = history_of(table);
    let mut tally = Tally::none(alloc);
    for case in &table.cases(alloc)? {
        let given = Given::read(alloc, case.line.as_str())?;
        let opening = opening_of(alloc, table)?;
        let calls = NewCalls::open();
        let outcome = share::<Brand, _>(rt, alloc, table, opening, calls, history, &given)?;
        tally.note(alloc, case, &outcome)?;
    }
    Ok(tally)
}
