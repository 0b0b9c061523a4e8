//! Tables of rows with their settings.

use crate::spelling::{choose, fill};
use crate::tally::Case;
use pfd::HISTORY_LIMIT;
use std::alloc::{AllocError, Global};

/// How many bytes the disk of a Book has by default.
const DISK_SIZE: usize = 8_192;

/// The most ways in which a row is read.
const MOST_WAYS: usize = 100_000;

/// What the rows of a table are.
#[derive(Clone, Copy)]
pub(crate) enum Kind {
    /// Lines of a session that has a Book alone.
    Lines,
    /// Words that the program is started with.
    Words,
    /// Sessions over a Book that callers may share.
    Sessions,
    /// Sessions over such a Book that may ask and change nothing.
    Askers,
    /// Peers' streams over such a Book.
    Peers,
    /// Clients of a server.
    Clients,
}

impl Kind {
    /// How a row of this kind is played by default.
    fn shape(self) -> &'static str {
        match self {
            Kind::Lines => "$1 -> $2",
            _ => "$1 -> $2 -> $3",
        }
    }
}

/// A table, and how its rows are played. The head of `stdin` says what its settings mean.
#[derive(Drop)]
pub(crate) struct Table<'a> {
    /// What the table shows.
    pub(crate) name: &'a str,
    pub(crate) kind: Kind,
    /// How many changes the history of a Book may have; by default the limit of a session.
    pub(crate) history: usize,
    /// How many bytes the disk of a Book has.
    pub(crate) size: usize,
    /// After how many calls more than the opening's every call of the disk fails; none if no call fails.
    pub(crate) fails: Option<u64>,
    /// All rows are played in turn on one Book, and not each on its own.
    pub(crate) in_turn: bool,
    /// A row's line is a whole input: no newline is appended to it.
    pub(crate) as_input: bool,
    /// The file that is made first, if there is one: its name, its length, and the bytes with which it begins.
    pub(crate) file: Option<&'a str>,
    /// The file is locked while the rows are played.
    pub(crate) is_locked: bool,
    /// The words that the server is started with, whose clients the rows are.
    pub(crate) server: &'a str,
    /// The lines that the server says on standard error.
    pub(crate) says: &'a str,
    /// The rows that are played first on a Book.
    pub(crate) before: Vec<&'a str>,
    /// The rows that are played for each row, with its fields in their places.
    pub(crate) shapes: Vec<&'a str>,
    /// The fields of each row, once for each way that it is read.
    pub(crate) rows: Vec<Vec<String>>,
}

impl<'a> Table<'a> {
    fn named(alloc: Global, name: &'a str) -> Table<'a> {
        Table {
            name,
            kind: Kind::Lines,
            history: HISTORY_LIMIT,
            size: DISK_SIZE,
            fails: None,
            in_turn: false,
            as_input: false,
            file: None,
            is_locked: false,
            server: "",
            says: "",
            before: Vec::new(alloc),
            shapes: Vec::new(alloc),
            rows: Vec::new(alloc),
        }
    }

    // Takes one line of the heading, of one word or more.
    fn set(&mut self, setting: &'a str) -> Result<(), AllocError> {
        let (word, rest) = setting.split_once(' ').unwrap_or((setting, ""));
        match word {
            "words" => self.kind = Kind::Words,
            "session" => self.kind = Kind::Sessions,
            "asking" => self.kind = Kind::Askers,
            "peer" => self.kind = Kind::Peers,
            "server" => {
                self.kind = Kind::Clients;
                self.server = rest;
            }
            "says" => self.says = rest,
            "in" => self.in_turn = true,
            "input" => self.as_input = true,
            "history" => self.history = rest.parse::<usize>().unwrap_or(HISTORY_LIMIT),
            "size" => self.size = rest.parse::<usize>().unwrap_or(DISK_SIZE),
            "fails" => self.fails = rest.parse::<u64>().ok(),
            "file" => self.file = Some(rest),
            "locked" => self.is_locked = true,
            "before" => self.before.push(rest)?,
            "as" => self.shapes.push(rest)?,
            _ => {}
        }
        Ok(())
    }

    /// Reads a table from a text whose first line is its name.
    pub(crate) fn read(alloc: Global, text: &'a str) -> Result<Table<'a>, AllocError> {
        let (name, lines) = text.split_once('\n').unwrap_or((text, ""));
        let mut table = Table::named(alloc, name);
        for line in lines.lines() {
            if let Some(setting) = line.strip_prefix(": ") {
                table.set(setting)?;
            } else if !line.is_empty() && !line.starts_with("//") {
                push_ways(alloc, &mut table.rows, line)?;
            }
        }
        if table.shapes.is_empty() {
            let shape = table.kind.shape();
            table.shapes.push(shape)?;
        }
        Ok(table)
    }

    /// The cases of a table whose rows aren't lines.
    pub(crate) fn cases(&self, alloc: Global) -> Result<Vec<Case>, AllocError> {
        let mut cases = Vec::new(alloc);
        for fields in &self.rows {
            push_cases(alloc, &mut cases, self.shapes.as_slice(), fields.as_slice())?;
        }
        Ok(cases)
    }
}

// The fields of a row, read in the way with this number, or none if there are fewer ways.
fn fields_of(alloc: Global, row: &str, way: usize) -> Result<Option<Vec<String>>, AllocError> {
    let mut fields = Vec::new(alloc);
    for field in row.split(" -> ") {
        let (chosen, left) = choose(alloc, field, way)?;
        if left > 0 && fields.is_empty() {
            return Ok(None);
        }
        fields.push(chosen)?;
    }
    Ok(Some(fields))
}

// Appends the fields of a row, once for each way that it is read.
fn push_ways(alloc: Global, rows: &mut Vec<Vec<String>>, row: &str) -> Result<(), AllocError> {
    for way in 0..MOST_WAYS {
        match fields_of(alloc, row, way)? {
            Some(fields) => rows.push(fields)?,
            None => break,
        }
    }
    Ok(())
}

// Appends a case for each shape, with the fields in their places.
fn push_cases(
    alloc: Global,
    cases: &mut Vec<Case>,
    shapes: &[&str],
    fields: &[String],
) -> Result<(), AllocError> {
    for shape in shapes {
        let (line, rest) = shape.split_once(" -> ").unwrap_or((shape, ""));
        let (end, written) = rest.split_once(" -> ").unwrap_or((rest, ""));
        cases.push(Case {
            line: fill(alloc, line, fields)?,
            end: fill(alloc, end, fields)?,
            written: fill(alloc, written, fields)?,
        })?;
    }
    Ok(())
}
