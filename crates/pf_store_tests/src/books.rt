// What is asked of Books, what they reply, and what is read of their devices.
ghost use Rattle.std.specs.Prelude.{◌<◌, ◌^◌};
ghost use Rattle.pf_book.specs.Books.{IsNamed};
ghost use Rattle.pf_store_tests.specs.declared.books.TheConstants.{HISTORY_LIMIT};

use crate::rows::GROUPED;
use pf_book::{Book, Chapter, Disk, MemDisk, OpenFault, Opening, Publisher, Reply, book};
use pf_core::{Command, Durable, Refusal};
use pf_line::{Request, parse_line, write_reply};
use pf_snap::look;
use std::alloc::{AllocError, Global};
use std::marker::Brand;
use std::sync::Wait;

/// The most changes that a history may have. No rows have so many.
pub const HISTORY_LIMIT: usize = 1000;

/// A Book, whatever its device, the name of its opening and what it publishes to.
pub trait Answer {
    /// One call.
    fn answer(&mut self, command: Command) -> Reply;

    /// A group of commands, or why all of them are refused.
    fn answer_all(&mut self, commands: &[Command]) -> Result<Vec<Reply>, Refusal>;

    /// What is kept.
    fn kept(&self) -> &Durable;
}

impl<D: Disk + Drop, J: Chapter, S: Publisher<J> + Drop> Answer for book::Book<D, J, S> {
    fn answer(&mut self, command: Command) -> Reply {
        self.run(command)
    }

    fn answer_all(&mut self, commands: &[Command]) -> Result<Vec<Reply>, Refusal> {
        self.group(commands)
    }

    fn kept(&self) -> &Durable {
        self.durable()
    }
}

/// Such a Book over a device in memory.
pub trait Hold: Answer {
    /// The device.
    fn device(&self) -> &MemDisk;
}

impl<J: Chapter, S: Publisher<J> + Drop> Hold for book::Book<MemDisk, J, S> {
    fn device(&self) -> &MemDisk {
        self.disk()
    }
}

/// What is asked of a Book.
#[derive(Drop)]
pub enum Asked {
    /// One command.
    One(Command),
    /// A group of commands.
    Group(Vec<Command>),
    /// Nothing, as the line that says so is told this.
    Nothing(String),
}

/// What a line of any bytes asks.
pub fn asked_by(alloc: Global, line: &[u8]) -> Result<Asked, AllocError> {
    match parse_line(alloc, line) {
        Ok(Some(Request::Run(command))) => Ok(Asked::One(command)),
        Ok(Some(Request::ShowStatus | Request::ShowAnchors(_))) | Ok(None) => {
            Ok(Asked::Nothing(String::new(alloc)))
        }
        Err(refusal) => Ok(Asked::Nothing(text_of_refusal(alloc, refusal)?)),
    }
}

/// What a row asks. One that begins with `group` asks all lines in it; a line that isn't a command is left out there.
pub fn asked_by_row(alloc: Global, row: &str) -> Result<Asked, AllocError> {
    let Some(lines) = row.strip_prefix("group") else {
        return asked_by(alloc, row.as_bytes());
    };
    let mut commands = Vec::new(alloc);
    for line in lines.trim_start().split(GROUPED) {
        add_command(alloc, &mut commands, line)?;
    }
    Ok(Asked::Group(commands))
}

// Appends the command that a line is, if it is one.
fn add_command(alloc: Global, commands: &mut Vec<Command>, line: &str) -> Result<(), AllocError> {
    if let Ok(Some(Request::Run(command))) = parse_line(alloc, line.as_bytes()) {
        return add(commands, command);
    }
    Ok(())
}

// Appends a value, which is dropped if there is no memory for it.
fn add<T: Drop>(values: &mut Vec<T>, value: T) -> Result<(), AllocError> {
    Ok(values.push(value)?)
}

/// What rows with bars between them ask.
pub fn asked_in_turn(alloc: Global, rows: &str) -> Result<Vec<Asked>, AllocError> {
    let mut asked = Vec::new(alloc);
    for row in rows.split(" | ") {
        add(&mut asked, asked_by_row(alloc, row)?)?;
    }
    Ok(asked)
}

/// What is told to what is asked, with bars between lines.
pub fn answered_text<B: Answer>(
    alloc: Global,
    book: &mut B,
    asked: Asked,
) -> Result<String, AllocError> {
    match asked {
        Asked::One(command) => text_of(alloc, &book.answer(command)),
        Asked::Group(commands) => answer_to_group(alloc, book, &commands),
        Asked::Nothing(reported) => Ok(reported),
    }
}

fn answer_to_group<B: Answer>(
    alloc: Global,
    book: &mut B,
    commands: &[Command],
) -> Result<String, AllocError> {
    match book.answer_all(commands) {
        Ok(replies) => texts_of(alloc, &replies),
        Err(refusal) => text_of_refusal(alloc, refusal),
    }
}

/// What is told to all that is asked in turn, with commas between.
pub fn answers_in_turn<B: Answer>(
    alloc: Global,
    book: &mut B,
    all: Vec<Asked>,
) -> Result<String, AllocError> {
    let mut texts = Vec::new(alloc);
    for asked in all {
        texts.push(answered_text(alloc, book, asked)?)?;
    }
    joined(alloc, &texts, ", ")
}

/// The epoch and the tick of what an opening gave.
#[derive(Clone, Copy)]
pub struct Moment {
    pub epoch: u32,
    pub tick: u64,
}

/// What a device was opened as, or why it wasn't opened; what was told over it, which is nothing if it wasn't; and the device then.
#[derive(Drop)]
pub struct Played<D: Disk + Drop> {
    pub opened: Result<Moment, OpenFault>,
    pub text: String,
    pub disk: D,
}

impl<D: Disk + Drop> Played<D> {
    /// A device that wasn't opened.
    pub fn nothing(alloc: Global, fault: OpenFault, disk: D) -> Played<D> {
        Played {
            opened: Err(fault),
            text: String::new(alloc),
            disk,
        }
    }
}

/// Opens a device, and asks all this of a Book of the opening.
pub fn ask<D: Disk + Drop, H: Wait + Drop>(
    waits: H,
    alloc: Global,
    disk: D,
    asked: Vec<Asked>,
) -> Result<Played<D>, AllocError>
    requires { D.fault_count disk < 2 ^ 63 }
{
    match Opening::open(alloc, disk) {
        Ok(opening) => ask_opened::<_, Brand, _>(waits, alloc, opening, asked),
        Err((fault, disk)) => Ok(Played::nothing(alloc, fault, disk)),
    }
}

/// The same of an opening.
pub fn ask_opened<D: Disk + Drop, J: Chapter, H: Wait + Drop>(
    waits: H,
    alloc: Global,
    opening: Opening<D>,
    asked: Vec<Asked>,
) -> Result<Played<D>, AllocError>
    requires { IsNamed J.base J.history J.setting opening HISTORY_LIMIT }
{
    match Book::<D, J, H>::of(waits, alloc, opening, HISTORY_LIMIT, 1) {
        Ok((book, _seers)) => play_new_book(alloc, book, asked),
        Err(_) => Err(AllocError),
    }
}

// The same of a new Book. It is gone before any of what comes of it is looked at: a Book that lives over few steps is proved quickly.
fn play_new_book<D: Disk + Drop, J: Chapter, S: Publisher<J> + Drop>(
    alloc: Global,
    book: book::Book<D, J, S>,
    asked: Vec<Asked>,
) -> Result<Played<D>, AllocError> {
    let mut book = book;
    let opened = Ok(moment_of(&book));
    let text = answers_in_turn(alloc, &mut book, asked);
    let disk = book.into_disk();
    Ok(Played {
        opened,
        text: text?,
        disk,
    })
}

// The epoch and the tick of what a Book keeps.
fn moment_of<B: Answer>(book: &B) -> Moment {
    let kept = book.kept();
    Moment {
        epoch: kept.epoch(),
        tick: kept.tick(),
    }
}

// The texts of the replies to a group.
fn texts_of(alloc: Global, replies: &[Reply]) -> Result<String, AllocError> {
    let mut texts = Vec::new(alloc);
    for reply in replies {
        texts.push(text_of(alloc, reply)?)?;
    }
    joined(alloc, &texts, GROUPED)
}

// Texts with this between them.
fn joined(alloc: Global, texts: &[String], between: &str) -> Result<String, AllocError> {
    let mut all = String::new(alloc);
    for (place, text) in texts.iter().enumerate() {
        if place > 0 {
            all.push_str(between)?;
        }
        all.push_str(text)?;
    }
    Ok(all)
}

fn text_of_refusal(alloc: Global, refusal: Refusal) -> Result<String, AllocError> {
    text_of(alloc, &Reply::Refused(refusal))
}

// A reply's text, with bars between its lines.
fn text_of(alloc: Global, reply: &Reply) -> Result<String, AllocError> {
    let mut bytes = Vec::new(alloc);
    if write_reply(&mut bytes, reply).is_err() {
        return Err(AllocError);
    }
    let text = std::str::from_utf8(&bytes).unwrap_or("");
    text.trim_end().replace(alloc, "\n", " | ")
}

/// Where the next record goes on a device of these bytes, or 0 if they hold nothing.
pub fn closed_gate(alloc: Global, bytes: &[u8]) -> Result<usize, AllocError> {
    let mut disk = MemDisk::of(alloc, Vec::from_slice(alloc, bytes)?)?;
    match look(alloc, &mut disk) {
        Ok(looked) => Ok(looked.gate),
        Err(_) => Ok(0),
    }
}
