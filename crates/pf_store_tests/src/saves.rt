// Openings and saves over devices in memory, as the rows of `stdin` say.
ghost use Rattle.std.specs.Prelude.{◌≡◌, IfOk, length};
ghost use Rattle.pf_disk.specs.Filled.{FillsAll};
ghost use Rattle.pf_book.specs.Books.{IsNamed};
ghost use Rattle.pf_store_tests.specs.declared.books.TheConstants.{HISTORY_LIMIT};

mod chances;
mod renewals;
mod stops;

use crate::books::{
    HISTORY_LIMIT, Hold, Moment, Played, answered_text, answers_in_turn, ask, asked_by_row,
    asked_in_turn, closed_gate,
};
use crate::files::Image;
use crate::rows::{
    GROUPED, Segment, cut_bar, cut_word, fill_at_random, number, put_bytes, segments, tell_row,
};
use crate::words::Words;
use pf_book::{Book, Chapter, Disk, FuseDisk, MemDisk, OpenFault, Opening, format};
use pf_core::Durable;
use pf_disk::Fill;
use pf_snap::NEWEST;
use pf_store::{read_durable, write_durable};
use std::alloc::{AllocError, Global};
use std::marker::Brand;
use std::sync::Wait;

/// The replies to these lines say all that the rows keep, but for the epoch and the tick, which no line asks for.
const QUESTIONS: &str =
    "show rules - | show rules web | show tables - | show tables web | show states | sum";

/// The rows that may come anywhere, and need nothing that is open.
const OF_DEVICES: &[&str] = &[
    "bytes", "with", "openings", "faults", "failing", "again", "twice", "pairs", "torn", "streams",
    "cuts", "images",
];

/// The calls of an opening and of two saves, or of one save that begins the other bank, and one more.
const CALLS: u64 = 18;

/// How many fills each crash is tried with.
const FILLS: u32 = 7;

/// A device between two rows, and what is known of the last opening of it.
#[derive(Drop)]
struct Bench<H: Wait + Drop + Copy> {
    waits: H,
    alloc: Global,
    images: Vec<Image>,
    bytes: Vec<u8>,
    /// What was kept in that opening: at its start, and after each save.
    kept: Vec<String>,
    words: Words,
}

/// What a device is opened as, and the device after that.
#[derive(Drop)]
struct Opened {
    epoch: u32,
    gate: usize,
    kept: String,
    disk: MemDisk,
}

/// Plays the rows of a text, and writes each with what it comes to. They may begin with these images.
pub fn play<H: Wait + Drop + Copy>(
    waits: H,
    alloc: Global,
    images: Vec<Image>,
    reported: &mut String,
    text: &str,
) -> Result<(), AllocError> {
    let mut bench = Bench {
        waits,
        alloc,
        images,
        bytes: Vec::new(alloc),
        kept: Vec::new(alloc),
        words: Words::new(alloc),
    };
    for segment in &segments(alloc, text)? {
        bench.play_segment(reported, segment)?;
    }
    Ok(())
}

/// The replies to the questions, and the tick after them.
fn with_tick(alloc: Global, reported: &str, tick: u64) -> Result<String, AllocError> {
    format!(in alloc; "{reported}, tick {tick}")
}

/// Writes how many bytes a snapshot of what is kept has, and whether it reads back the same.
fn tell_snapshot(alloc: Global, reported: &mut String, kept: &Durable) -> Result<(), AllocError> {
    let bytes = snapshot_of(alloc, kept)?;
    let again = snapshot_again(alloc, &bytes)?;
    let is_same = bytes.as_slice() == again.as_slice();
    write!(reported, "{} bytes, read back: {is_same}", bytes.len())
}

/// The bytes of a snapshot of what is kept.
fn snapshot_of(alloc: Global, kept: &Durable) -> Result<Vec<u8>, AllocError> {
    match write_durable(alloc, NEWEST, kept) {
        Ok(bytes) => Ok(bytes),
        Err(_) => Err(AllocError),
    }
}

/// The bytes of a snapshot of what these bytes are read back as.
fn snapshot_again(alloc: Global, bytes: &[u8]) -> Result<Vec<u8>, AllocError> {
    match read_durable(alloc, NEWEST, bytes) {
        Ok(read) => snapshot_of(alloc, &read),
        Err(_) => Err(AllocError),
    }
}

/// One of six fills, of which the last has these bytes.
fn fill(number: u32, bytes: &[u8]) -> Fill<'_>
    ensures { FillsAll result (length bytes.now) }
{
    match number {
        0 => Fill::Old,
        1 => Fill::New,
        2 => Fill::Zeros,
        3 => Fill::Open,
        4 => Fill::Inverted,
        _ => Fill::Bytes(bytes),
    }
}

/// What was opened, and what was told to the questions then.
fn opened_as(
    alloc: Global,
    moment: Moment,
    text: &str,
    disk: MemDisk,
) -> Result<Opened, AllocError> {
    let kept = with_tick(alloc, text, moment.tick)?;
    let gate = closed_gate(alloc, &disk.image(alloc, u64::MAX, Fill::New)?)?;
    Ok(Opened {
        epoch: moment.epoch,
        gate,
        kept,
        disk,
    })
}

/// What was told to the questions over a device, if it was opened.
fn opened_of(
    alloc: Global,
    reported: Played<MemDisk>,
) -> Result<Result<Opened, OpenFault>, AllocError> {
    let Played { opened, text, disk } = reported;
    match opened {
        Ok(moment) => match opened_as(alloc, moment, text.as_str(), disk) {
            Ok(opened) => Ok(Ok(opened)),
            Err(fault) => Err(fault),
        },
        Err(fault) => Ok(Err(fault)),
    }
}

/// What was told over an opening, or why there was none.
fn opening_text(
    alloc: Global,
    opened: &Result<Moment, OpenFault>,
    text: String,
) -> Result<String, AllocError> {
    match opened {
        Ok(_) => Ok(text),
        Err(fault) => format!(in alloc; "{fault:?}"),
    }
}

/// Makes a Book of an opening, and plays rows over it.
fn play_over<J: Chapter, H: Wait + Drop + Copy>(
    bench: &mut Bench<H>,
    opening: Opening<MemDisk>,
    reported: &mut String,
    rows: &[&str],
) -> Result<(), AllocError>
    requires { IsNamed J.base J.history J.setting opening HISTORY_LIMIT }
{
    match Book::<MemDisk, J, H>::of(bench.waits, bench.alloc, opening, HISTORY_LIMIT, 1) {
        Ok((book, _seers)) => bench.play_opened(reported, book, rows),
        Err(_) => Err(AllocError),
    }
}

/// The epoch of an opening of a device, and the device then; or why it isn't opened.
fn epoch_of(alloc: Global, device: MemDisk) -> Result<(u32, MemDisk), OpenFault>
    requires { ⟦<MemDisk as Disk>⟧.fault_count device ≡ 0 }
{
    match Opening::open(alloc, device) {
        Ok(opening) => Ok((opening.durable().epoch(), opening.into_disk())),
        Err((fault, _disk)) => Err(fault),
    }
}

impl<H: Wait + Drop + Copy> Bench<H> {
    fn play_segment(&mut self, reported: &mut String, segment: &Segment) -> Result<(), AllocError> {
        if !segment.opens {
            return self.play_unopened(reported, &segment.rows);
        }
        reported.push_str("open -> ")?;
        let device = self.device()?;
        match self.play_opening(reported, device, &segment.rows) {
            Ok(played) => played,
            Err(fault) => {
                write!(reported, "{fault:?}\n")?;
                self.play_unopened(reported, &segment.rows)
            }
        }
    }

    /// Plays rows over an opening of a device, or says why it isn't opened.
    fn play_opening(
        &mut self,
        reported: &mut String,
        device: MemDisk,
        rows: &[&str],
    ) -> Result<Result<(), AllocError>, OpenFault>
        requires { ⟦<MemDisk as Disk>⟧.fault_count device ≡ 0 }
    {
        match Opening::open(self.alloc, device) {
            Ok(opening) => Ok(play_over::<Brand, _>(self, opening, reported, rows)),
            Err((fault, _disk)) => Err(fault),
        }
    }

    fn play_unopened(&mut self, reported: &mut String, rows: &[&str]) -> Result<(), AllocError> {
        for row in rows {
            if tell_row(reported, row)? {
                self.play_device(reported, row)?;
            }
            reported.push('\n')?;
        }
        Ok(())
    }

    fn play_opened<B: Hold + Drop>(
        &mut self,
        reported: &mut String,
        book: B,
        rows: &[&str],
    ) -> Result<(), AllocError> {
        let mut book = book;
        self.begin(reported, &mut book)?;
        for row in rows {
            if tell_row(reported, row)? {
                self.play_row(reported, &mut book, row)?;
            }
            reported.push('\n')?;
        }
        Ok(())
    }

    /// Plays a row for which nothing has to be open.
    fn play_device(&mut self, reported: &mut String, row: &str) -> Result<(), AllocError> {
        let (word, rest) = cut_word(row);
        match word {
            "zeros" => self.make(reported, number(rest)),
            "file" => self.load(reported, rest),
            "format" => self.format(reported),
            "put" => self.put(reported, rest),
            "bytes" => self.tell_bytes(reported, rest),
            "with" => self.tell_changed(reported, rest),
            "openings" => self.open_often(reported, number(rest)),
            "faults" => self.tell_faults(reported, rest),
            "failing" => self.tell_failing(reported, rest),
            "again" => self.tell_again(reported, rest),
            "twice" => self.tell_again_twice(reported, rest),
            "pairs" => self.tell_pairs(reported, rest),
            "torn" => self.tell_torn(reported, rest),
            "word" => self.add_word(reported, rest),
            "streams" => self.tell_streams(reported, rest),
            "cuts" => self.tell_cuts(reported, rest),
            "images" => self.tell_images(reported, rest),
            _ => Ok(()),
        }
    }

    fn play_row<B: Hold>(
        &mut self,
        reported: &mut String,
        book: &mut B,
        row: &str,
    ) -> Result<(), AllocError> {
        let (word, rest) = cut_word(row);
        match word {
            "times" => self.call_often(reported, book, rest),
            "snapshot" => tell_snapshot(self.alloc, reported, book.kept()),
            "crash" => self.tell_crash(reported, book.device(), rest),
            "crashes" => self.tell_crashes(reported, book.device()),
            "stopped" => self.tell_stopped(reported, book.device()),
            "lines" => self.tell_lines(reported, book, rest),
            "each" => self.tell_each_byte(reported, book.device(), number(rest)),
            _ if OF_DEVICES.contains(&word) => self.play_device(reported, row),
            _ => self.call(reported, book, row),
        }
    }

    fn make(&mut self, reported: &mut String, size: usize) -> Result<(), AllocError> {
        self.bytes = vec![in self.alloc; 0u8; size]?;
        reported.push_str("closed")?;
        Ok(())
    }

    /// Makes a device with the bytes of an image.
    fn load(&mut self, reported: &mut String, name: &str) -> Result<(), AllocError> {
        match self.images.iter().find(|it| it.name.as_str() == name) {
            Some(image) => {
                self.bytes = image.bytes.to_vec(self.alloc)?;
                reported.push_str("closed")
            }
            None => reported.push_str("no such file"),
        }
    }

    fn format(&mut self, reported: &mut String) -> Result<(), AllocError> {
        let mut disk = self.device()?;
        let answer = format(self.alloc, &mut disk);
        self.bytes = disk.image(self.alloc, u64::MAX, Fill::Old)?;
        write!(reported, "{answer:?}, {} calls", disk.calls())?;
        Ok(())
    }

    /// Opens the device `times` times in turn, or until an opening is refused.
    fn open_often(&mut self, reported: &mut String, times: usize) -> Result<(), AllocError> {
        let mut epoch = 0;
        for number in 0..times {
            match epoch_of(self.alloc, self.device()?) {
                Ok((opened, disk)) => {
                    epoch = opened;
                    self.bytes = disk.image(self.alloc, u64::MAX, Fill::New)?;
                }
                Err(fault) => return write!(reported, "{number} times, then {fault:?}"),
            }
        }
        write!(reported, "epoch {epoch}")
    }

    /// The device with its bytes, before its first call.
    fn device(&self) -> Result<MemDisk, AllocError>
        ensures { IfOk result (λ disk. ⟦<MemDisk as Disk>⟧.fault_count disk ≡ 0) }
    {
        MemDisk::of(self.alloc, self.bytes.to_vec(self.alloc)?)
    }

    /// Writes what was opened. What is kept then is what was kept after no save.
    fn begin<B: Hold>(&mut self, reported: &mut String, book: &mut B) -> Result<(), AllocError> {
        self.kept = Vec::new(self.alloc);
        self.keep(book)?;
        let gate = closed_gate(self.alloc, &self.bytes)?;
        let (epoch, calls) = (book.kept().epoch(), book.device().calls());
        write!(reported, "epoch {epoch}, gate {gate}, {calls} calls\n")
    }

    /// Takes over what the Book's device holds now.
    fn keep<B: Hold>(&mut self, book: &mut B) -> Result<(), AllocError> {
        let kept = self.kept_by(book)?;
        self.kept.push(kept)?;
        self.bytes = book.device().image(self.alloc, u64::MAX, Fill::Old)?;
        Ok(())
    }

    /// All that the Book keeps, but for the epoch.
    fn kept_by<B: Hold>(&self, book: &mut B) -> Result<String, AllocError> {
        let reported = answers_in_turn(self.alloc, book, asked_in_turn(self.alloc, QUESTIONS)?)?;
        with_tick(self.alloc, reported.as_str(), book.kept().tick())
    }

    /// Plays one line of a client, or one group.
    fn call<B: Hold>(
        &mut self,
        reported: &mut String,
        book: &mut B,
        row: &str,
    ) -> Result<(), AllocError> {
        let text = answered_text(self.alloc, book, asked_by_row(self.alloc, row)?)?;
        reported.push_str(&text)?;
        if !text.contains("applied") {
            return Ok(());
        }
        self.keep(book)?;
        let gate = closed_gate(self.alloc, &self.bytes)?;
        write!(reported, ", gate {gate}")
    }

    /// Plays one line of a client several times, and writes the reply to the last.
    fn call_often<B: Hold>(
        &mut self,
        reported: &mut String,
        book: &mut B,
        how: &str,
    ) -> Result<(), AllocError> {
        let (times, line) = cut_word(how);
        for _ in 1..number(times) {
            answered_text(self.alloc, book, asked_by_row(self.alloc, line)?)?;
        }
        self.call(reported, book, line)
    }

    /// Puts other bytes at some places, until the device is opened.
    fn put(&mut self, reported: &mut String, changes: &str) -> Result<(), AllocError> {
        put_bytes(&mut self.bytes, changes);
        reported.push_str("put")
    }

    /// Writes the bytes between two places.
    fn tell_bytes(&self, reported: &mut String, places: &str) -> Result<(), AllocError> {
        let (start, end) = cut_word(places);
        for byte in self.bytes.get(number(start)..number(end)).unwrap_or(&[]) {
            write!(reported, "{byte:02x}")?;
        }
        Ok(())
    }

    /// Writes what the device is opened as with some bytes changed.
    fn tell_changed(&self, reported: &mut String, changes: &str) -> Result<(), AllocError> {
        let mut bytes = self.bytes.to_vec(self.alloc)?;
        put_bytes(&mut bytes, changes);
        self.tell_opened(reported, bytes)
    }

    /// Writes what the device is opened as after a crash in a call, with these bytes where it may leave any, and the replies to lines then.
    fn tell_crash(
        &self,
        reported: &mut String,
        disk: &MemDisk,
        how: &str,
    ) -> Result<(), AllocError> {
        let (crash, lines) = cut_bar(how);
        let (call, changes) = cut_word(crash);
        let moment = number(call) as u64;
        let mut bytes = disk.image(self.alloc, moment, Fill::New)?;
        put_bytes(&mut bytes, changes);
        if bytes.len() != disk.size() {
            return Ok(());
        }
        let image = disk.image(self.alloc, moment, Fill::Bytes(&bytes))?;
        self.tell_opened(reported, image.to_vec(self.alloc)?)?;
        if lines.is_empty() {
            return Ok(());
        }
        reported.push_str(": ")?;
        self.tell_replies(reported, image, lines)
    }

    /// Writes what the device is opened as after a crash in each call, with each byte in turn at a place where the crash may leave any. It
    /// comes after the first of the bytes that lead to it.
    fn tell_each_byte(
        &self,
        reported: &mut String,
        disk: &MemDisk,
        place: usize,
    ) -> Result<(), AllocError> {
        for moment in 1..disk.calls().saturating_add(2) {
            write!(reported, "\n  in call {moment}:")?;
            self.tell_bytes_in_turn(reported, disk, moment, place)?;
        }
        Ok(())
    }

    fn tell_bytes_in_turn(
        &self,
        reported: &mut String,
        disk: &MemDisk,
        moment: u64,
        place: usize,
    ) -> Result<(), AllocError> {
        let mut last = String::new(self.alloc);
        for byte in 0..256u32 {
            let how = format!(in self.alloc; "{moment} {place}={byte:02x}")?;
            let mut text = String::new(self.alloc);
            self.tell_crash(&mut text, disk, &how)?;
            if text != last {
                write!(reported, " {byte:02x} {text};")?;
                last = text;
            }
        }
        Ok(())
    }

    /// Writes by call and by fill after how many saves what a crash leaves was kept.
    fn tell_crashes(&self, reported: &mut String, disk: &MemDisk) -> Result<(), AllocError> {
        for moment in 1..disk.calls().saturating_add(2) {
            write!(reported, "\n  in call {moment}:")?;
            for number in 0..FILLS {
                let image = self.left(disk, moment, number)?;
                reported.push(' ')?;
                self.tell_place(reported, image)?;
            }
        }
        Ok(())
    }

    /// What a crash in this call leaves under one of the fills: the six of the journal's crashes, and bytes at random.
    fn left(&self, disk: &MemDisk, moment: u64, number: u32) -> Result<Vec<u8>, AllocError> {
        let mut bytes = vec![in self.alloc; 0x3Cu8; disk.size()]?;
        if number == FILLS - 1 {
            fill_at_random(&mut bytes, moment);
        }
        if bytes.len() != disk.size() {
            return Ok(bytes);
        }
        disk.image(self.alloc, moment, fill(number, &bytes))
    }

    /// Plays an opening and the same line twice, on devices whose calls fail.
    fn tell_faults(&self, reported: &mut String, line: &str) -> Result<(), AllocError> {
        let lines = format!(in self.alloc; "{line} | {line}")?;
        for calls in 0..CALLS {
            write!(reported, "\n  one behind {calls} calls fails: ")?;
            self.tell_fault(reported, FuseDisk::once(self.device()?, calls), &lines)?;
            write!(reported, "\n  all behind {calls} calls fail: ")?;
            self.tell_fault(reported, FuseDisk::after(self.device()?, calls), &lines)?;
        }
        Ok(())
    }

    /// Plays an opening and some lines, on a device whose calls all fail after the first few.
    fn tell_failing(&self, reported: &mut String, how: &str) -> Result<(), AllocError> {
        let (calls, lines) = cut_bar(how);
        let disk = FuseDisk::after(self.device()?, number(calls) as u64);
        self.tell_fault(reported, disk, lines)
    }

    /// Writes what the lines come to, and what the device below is opened as then: with the bytes of its last sync, and with all written
    /// bytes.
    fn tell_fault(
        &self,
        reported: &mut String,
        disk: FuseDisk<MemDisk>,
        lines: &str,
    ) -> Result<(), AllocError>
        requires { ⟦<FuseDisk<MemDisk> as Disk>⟧.fault_count disk ≡ 0 }
    {
        let (text, disk) = self.played(disk, lines)?;
        reported.push_str(&text)?;
        let below = disk.into_inner();
        reported.push_str("; then ")?;
        self.tell_opened(reported, below.image(self.alloc, u64::MAX, Fill::Old)?)?;
        reported.push_str("; or ")?;
        self.tell_opened(reported, below.image(self.alloc, u64::MAX, Fill::New)?)
    }

    /// Plays an opening and some lines: what the lines come to, or why it isn't opened, and the device.
    fn played(
        &self,
        disk: FuseDisk<MemDisk>,
        lines: &str,
    ) -> Result<(String, FuseDisk<MemDisk>), AllocError>
        requires { ⟦<FuseDisk<MemDisk> as Disk>⟧.fault_count disk ≡ 0 }
    {
        let asked = asked_in_turn(self.alloc, lines)?;
        let Played { opened, text, disk } = ask(self.waits, self.alloc, disk, asked)?;
        Ok((opening_text(self.alloc, &opened, text)?, disk))
    }

    /// Plays each of some lines with each of them after it, in one group and after other lines: writes the replies to the two, and whether
    /// they come to the same one by one.
    fn tell_pairs(&self, reported: &mut String, how: &str) -> Result<(), AllocError> {
        let (before, lines) = how.rsplit_once(" | ").unwrap_or(("", how));
        for first in lines.split(GROUPED) {
            self.tell_pairs_of(reported, before, first, lines)?;
        }
        Ok(())
    }

    fn tell_pairs_of(
        &self,
        reported: &mut String,
        before: &str,
        first: &str,
        lines: &str,
    ) -> Result<(), AllocError> {
        let places = before.split(" | ").count();
        for second in lines.split(GROUPED) {
            let one_by_one = self.replies_after(
                before,
                &format!(in self.alloc; "{first} | {second}")?,
            )?;
            let pair = format!(in self.alloc; "{first}{GROUPED}{second}")?;
            let grouped = self.replies_after(before, &format!(in self.alloc; "group {pair}")?)?;
            let replies = grouped.split(", ").nth(places).unwrap_or("");
            let is_same = grouped.replace(self.alloc, GROUPED, ", ")? == one_by_one;
            write!(
                reported,
                "\n  {pair}: {replies}; one by one the same: {is_same}"
            )?;
        }
        Ok(())
    }

    /// The replies to lines and to some after them over the device with its bytes, and to the questions for all that is kept then.
    fn replies_after(&self, before: &str, lines: &str) -> Result<String, AllocError> {
        let mut reported = String::new(self.alloc);
        let all = format!(in self.alloc; "{before} | {lines} | {QUESTIONS}")?;
        self.tell_replies(&mut reported, self.bytes.to_vec(self.alloc)?, &all)?;
        Ok(reported)
    }

    /// Writes the replies to lines over a device with these bytes.
    fn tell_replies(
        &self,
        reported: &mut String,
        bytes: Vec<u8>,
        lines: &str,
    ) -> Result<(), AllocError> {
        let (disk, asked) = (
            MemDisk::of(self.alloc, bytes)?,
            asked_in_turn(self.alloc, lines)?,
        );
        let over = ask(self.waits, self.alloc, disk, asked)?;
        reported.push_str(&over.text)
    }

    /// Opens a device with these bytes.
    fn opened(&self, bytes: Vec<u8>) -> Result<Result<Opened, OpenFault>, AllocError> {
        let (disk, asked) = (
            MemDisk::of(self.alloc, bytes)?,
            asked_in_turn(self.alloc, QUESTIONS)?,
        );
        match ask(self.waits, self.alloc, disk, asked) {
            Ok(reported) => opened_of(self.alloc, reported),
            Err(fault) => Err(fault),
        }
    }

    /// Writes what a device with these bytes is opened as.
    fn tell_opened(&self, reported: &mut String, bytes: Vec<u8>) -> Result<(), AllocError> {
        match self.opened(bytes)? {
            Ok(opened) => {
                let Opened { epoch, gate, .. } = &opened;
                write!(reported, "epoch {epoch}, gate {gate}, saves ")?;
                self.tell_saves(reported, &opened.kept)
            }
            Err(fault) => write!(reported, "{fault:?}"),
        }
    }

    /// Writes after how many saves what a device with these bytes holds was kept; and, if its opening switches to the other bank, how many
    /// of the crashes in the calls of that opening leave the same.
    fn tell_place(&self, reported: &mut String, bytes: Vec<u8>) -> Result<(), AllocError> {
        let (gate, half) = (closed_gate(self.alloc, &bytes)?, bytes.len() / 2);
        match self.opened(bytes)? {
            Ok(opened) => {
                self.tell_saves(reported, &opened.kept)?;
                if (gate < half) != (opened.gate < half) {
                    self.tell_stops(reported, &opened)?;
                }
                Ok(())
            }
            Err(fault) => write!(reported, "{fault:?}"),
        }
    }

    /// Writes how many of the crashes in the calls of an opening leave what it gave, in its epoch or the next.
    fn tell_stops(&self, reported: &mut String, opened: &Opened) -> Result<(), AllocError> {
        let (mut same, mut all) = (0u64, 0u64);
        for moment in 1..opened.disk.calls().saturating_add(2) {
            for number in 0..FILLS {
                let image = self.left(&opened.disk, moment, number)?;
                all = all.saturating_add(1);
                if self.opens_as(image, opened)? {
                    same = same.saturating_add(1);
                }
            }
        }
        write!(reported, "({same} of {all})")
    }

    /// Whether a device with these bytes is opened as what an earlier opening gave, in that epoch or the next.
    fn opens_as(&self, bytes: Vec<u8>, before: &Opened) -> Result<bool, AllocError> {
        match self.opened(bytes)? {
            Ok(opened) => {
                let later = opened.epoch.checked_sub(before.epoch);
                Ok(opened.kept == before.kept && matches!(later, Some(0 | 1)))
            }
            Err(_) => Ok(false),
        }
    }

    /// Writes after how many saves this was kept.
    fn tell_saves(&self, reported: &mut String, text: &String) -> Result<(), AllocError> {
        match self.kept.iter().position(|kept| kept == text) {
            Some(saves) => write!(reported, "{saves}"),
            None => write!(reported, "?"),
        }
    }
}
