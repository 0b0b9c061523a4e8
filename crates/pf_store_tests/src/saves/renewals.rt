// Books whose devices are opened again, also behind a call that failed.
ghost use Rattle.std.specs.Prelude.{◌≡◌, ◌<◌, ◌^◌, IfOk};
ghost use Rattle.pf_book.specs.Books.{IsNamed};
ghost use Rattle.pf_store_tests.specs.declared.books.TheConstants.{HISTORY_LIMIT};

use super::{Bench, fill};
use crate::books::{
    Asked, HISTORY_LIMIT, Moment, Played, answers_in_turn, ask, ask_opened, asked_in_turn,
};
use crate::rows::{cut_word, number};
use pf_book::book::Book;
use pf_book::{Chapter, Disk, FuseDisk, MemDisk, OpenFault, Opening, Publisher, Shower};
use pf_disk::Fill;
use std::alloc::{AllocError, Global};
use std::marker::Brand;
use std::sync::Wait;

/// What is written between the lines and the questions behind the opening that follows them.
const AGAIN: &str = " = ";

/// No row makes so many calls of a device.
const MOST_CALLS: u64 = 64;

/// How many fills are known without any bytes.
const PLAIN_FILLS: u32 = 5;

/// An opening takes a device of fewer faults.
const MOST_FAULTS: u64 = 1 << 63;

/// What came of a Book whose device was opened again.
#[derive(Drop)]
struct Renewal<D: Disk + Drop> {
    /// What was told to the lines.
    replies: String,
    /// What came of the second opening, and what was told to the questions then.
    again: Played<D>,
}

/// Opens a device, asks these lines of a Book of the opening, opens its device again, and asks these questions. `None` if it isn't opened
/// at first.
fn renew<D: Disk + Drop, H: Wait + Drop + Copy>(
    waits: H,
    alloc: Global,
    disk: D,
    lines: Vec<Asked>,
    questions: Vec<Asked>,
) -> Result<Option<Renewal<D>>, AllocError>
    requires { D.fault_count disk < 2 ^ 63 }
{
    match Opening::open(alloc, disk) {
        Ok(opening) => renew_opened::<_, Brand, _>(waits, alloc, opening, lines, questions),
        Err(_) => Ok(None),
    }
}

// The same of an opening.
fn renew_opened<D: Disk + Drop, J: Chapter, H: Wait + Drop + Copy>(
    waits: H,
    alloc: Global,
    opening: Opening<D>,
    lines: Vec<Asked>,
    questions: Vec<Asked>,
) -> Result<Option<Renewal<D>>, AllocError>
    requires { IsNamed J.base J.history J.setting opening HISTORY_LIMIT }
{
    match Book::<D, J, Shower<J, H>>::of(waits, alloc, opening, HISTORY_LIMIT, 1) {
        Ok((book, _seers)) => renew_over(waits, alloc, book, lines, questions),
        Err(_) => Err(AllocError),
    }
}

// The same of a new Book.
fn renew_over<D: Disk + Drop, J: Chapter, S: Publisher<J> + Drop, H: Wait + Drop + Copy>(
    waits: H,
    alloc: Global,
    book: Book<D, J, S>,
    lines: Vec<Asked>,
    questions: Vec<Asked>,
) -> Result<Option<Renewal<D>>, AllocError> {
    let mut book = book;
    let replies = answers_in_turn(alloc, &mut book, lines);
    let again = open_again(waits, alloc, book, questions);
    Ok(Some(Renewal {
        replies: replies?,
        again: again?,
    }))
}

// Opens a Book's device again, and asks these questions.
fn open_again<D: Disk + Drop, J: Chapter, S: Publisher<J> + Drop, H: Wait + Drop + Copy>(
    waits: H,
    alloc: Global,
    book: Book<D, J, S>,
    questions: Vec<Asked>,
) -> Result<Played<D>, AllocError> {
    match opened_again(alloc, book) {
        Ok(opening) => ask_opened::<_, Brand, _>(waits, alloc, opening, questions),
        Err((fault, disk)) => Ok(Played::nothing(alloc, fault, disk)),
    }
}

// Opens a Book's device again.
fn opened_again<D: Disk + Drop, J: Chapter, S: Publisher<J> + Drop>(
    alloc: Global,
    book: Book<D, J, S>,
) -> Result<Opening<D>, (OpenFault, D)> {
    if MOST_FAULTS <= book.disk().faults() {
        return Err((OpenFault::Fault, book.into_disk()));
    }
    let (opened, _closed) = book.open_again(alloc);
    opened
}

// The same with the device within.
fn within<D: Disk + Drop>(renewal: Renewal<FuseDisk<D>>) -> Renewal<D> {
    let Renewal { replies, again } = renewal;
    let Played { opened, text, disk } = again;
    let again = Played {
        opened,
        text,
        disk: disk.into_inner(),
    };
    Renewal { replies, again }
}

// Writes an opening's epoch and what was told over it, or why it isn't opened.
fn tell_over(
    reported: &mut String,
    opened: &Result<Moment, OpenFault>,
    text: &str,
) -> Result<(), AllocError> {
    match opened {
        Ok(moment) => write!(reported, "epoch {}: {text}", moment.epoch),
        Err(fault) => write!(reported, "{fault:?}"),
    }
}

impl<H: Wait + Drop + Copy> Bench<H> {
    /// Plays an opening, some lines, and another opening by the Book, on devices that fail each call behind the first opening in turn.
    pub(super) fn tell_again(&self, reported: &mut String, how: &str) -> Result<(), AllocError> {
        for calls in 0..MOST_CALLS {
            let disk = FuseDisk::after(self.device()?, calls);
            if let Some(renewal) = self.renewed(disk, how)? {
                if self.tell_calls(reported, calls, renewal, how)? {
                    return Ok(());
                }
            }
        }
        Ok(())
    }

    // What comes of it where all calls behind so many fail, and where one does. Returns whether no call was left to fail.
    fn tell_calls(
        &self,
        reported: &mut String,
        calls: u64,
        renewal: Renewal<FuseDisk<MemDisk>>,
        how: &str,
    ) -> Result<bool, AllocError> {
        let is_whole = renewal.again.opened.is_ok() && renewal.again.disk.faults() == 0;
        let text = self.text_of(renewal, how)?;
        if is_whole {
            write!(reported, "\n  no call fails: {text}")?;
            return Ok(true);
        }
        write!(reported, "\n  all behind {calls} calls fail: {text}")?;
        self.tell_torn_again(reported, calls, how)?;
        Ok(false)
    }

    // A torn call stands for several fills: what each of them comes to is told once.
    fn tell_torn_again(
        &self,
        reported: &mut String,
        calls: u64,
        how: &str,
    ) -> Result<(), AllocError> {
        let mut texts = Vec::new(self.alloc);
        for number in 0..PLAIN_FILLS {
            let disk = FuseDisk::torn(self.alloc, self.device()?, calls, fill(number, &[]));
            let text = match self.renewed(disk, how)? {
                Some(renewal) => self.text_of(renewal, how)?,
                None => String::new(self.alloc),
            };
            if !texts.iter().any(|other| *other == text) {
                write!(reported, "\n  one behind {calls} calls fails: {text}")?;
                texts.push(text)?;
            }
        }
        Ok(())
    }

    /// Plays the same on devices that fail a call behind so many, and then another one, each in turn.
    pub(super) fn tell_again_twice(
        &self,
        reported: &mut String,
        how: &str,
    ) -> Result<(), AllocError> {
        let (first, how) = cut_word(how);
        let first = number(first) as u64;
        for calls in first.saturating_add(1)..MOST_CALLS {
            let disk = FuseDisk::once(FuseDisk::once(self.device()?, first), calls);
            if let Some(renewal) = self.renewed(disk, how)? {
                if renewal.again.opened.is_ok() {
                    return Ok(());
                }
                let text = self.text_of(within(renewal), how)?;
                write!(reported, "\n  and one behind {calls}: {text}")?;
            }
        }
        Ok(())
    }

    fn renewed<D: Disk + Drop>(&self, disk: D, how: &str) -> Result<Option<Renewal<D>>, AllocError>
        requires { D.fault_count disk < 2 ^ 63 }
    {
        let (lines, questions) = how.split_once(AGAIN).unwrap_or((how, ""));
        let (lines, questions) = (
            asked_in_turn(self.alloc, lines)?,
            asked_in_turn(self.alloc, questions)?,
        );
        renew(self.waits, self.alloc, disk, lines, questions)
    }

    // What came of it. If the device wasn't opened again, also what is opened of the bytes of its last sync, and of all written bytes.
    fn text_of(
        &self,
        renewal: Renewal<FuseDisk<MemDisk>>,
        how: &str,
    ) -> Result<String, AllocError> {
        let Renewal { replies, again } = renewal;
        let Played { opened, text, disk } = again;
        let mut reported = replies;
        reported.push_str("; again ")?;
        tell_over(&mut reported, &opened, text.as_str())?;
        if opened.is_err() {
            self.tell_left(&mut reported, disk, how)?;
        }
        Ok(reported)
    }

    // Writes what is opened of the bytes of a device's last sync, and of all written bytes.
    fn tell_left(
        &self,
        reported: &mut String,
        disk: FuseDisk<MemDisk>,
        how: &str,
    ) -> Result<(), AllocError> {
        let below = disk.into_inner();
        reported.push_str("; then ")?;
        self.tell_answers(reported, below.image(self.alloc, u64::MAX, Fill::Old)?, how)?;
        reported.push_str("; or ")?;
        self.tell_answers(reported, below.image(self.alloc, u64::MAX, Fill::New)?, how)
    }

    // Writes what a device with these bytes is opened as, and what is told to the questions then.
    fn tell_answers(
        &self,
        reported: &mut String,
        bytes: Vec<u8>,
        how: &str,
    ) -> Result<(), AllocError> {
        let (_lines, questions) = how.split_once(AGAIN).unwrap_or((how, ""));
        let (disk, asked) = (
            MemDisk::of(self.alloc, bytes)?,
            asked_in_turn(self.alloc, questions)?,
        );
        let over = ask(self.waits, self.alloc, disk, asked)?;
        tell_over(reported, &over.opened, over.text.as_str())
    }
}
