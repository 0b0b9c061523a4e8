//! Standard error, while connections are served. No clause can say what is done under a lock, so what is said of a reply is proved, and not
//! that it is said.
ghost use Rattle.std.specs.Prelude.{ℕ, List, [], Some};
ghost use Rattle.pf_addr.specs.Writing.{Writes, WritesFront};
ghost use Rattle.pfd.specs.Log.{fault_line, opening_line, reply_line};
ghost use Rattle.pfd.specs.Fullness.{fullness_text};

use crate::fullness::gauge::write_fullness;
use crate::fullness::notice::SayFullness;
use crate::log::KeepLog;
use crate::log::deed::Deed;
use crate::log::line::{acknowledges, write_fault, write_opening, write_reply_line};
use pf_addr::write_text;
use pf_core::Reply;
use pf_session::EngineFault;
use std::alloc::{AllocError, Global};
use std::io::{self, Write};
use std::sync::{Mutex, Wait};

// No line is as long.
const LINE_ROOM: usize = 512;

// Says a line that was made, in one write. One that can't be written can't be said anywhere else.
fn say_line<F: Write>(faults: &mut F, made: io::Result<()>, line: &[u8])
    ensures { (text : List ℕ) → Writes made (Some []) (Some line.now) text → WritesFront (F.contents faults.old) (F.contents faults.new) text }
{
    match made {
        Ok(()) => {
            let _ = write_text(faults, line);
        }
        Err(_) => {}
    }
}

// Each of these makes a line in the room, and says it.

fn say_reply<F: Write>(
    faults: &mut F,
    room: &mut Vec<u8>,
    session: u32,
    deed: &Option<Deed>,
    reply: &Reply,
)
    ensures { WritesFront (F.contents faults.old) (F.contents faults.new) (reply_line session deed.now reply.now) }
{
    room.clear();
    let made = write_reply_line(room, Ok(()), session, deed, reply);
    say_line(faults, made, room.as_slice());
}

fn say_opening<F: Write>(faults: &mut F, room: &mut Vec<u8>, epoch: u32, is_renewal: bool)
    ensures { WritesFront (F.contents faults.old) (F.contents faults.new) (opening_line epoch is_renewal) }
{
    room.clear();
    let made = write_opening(room, Ok(()), epoch, is_renewal);
    say_line(faults, made, room.as_slice());
}

fn say_fault<F: Write>(faults: &mut F, room: &mut Vec<u8>, session: u32, fault: EngineFault)
    ensures { WritesFront (F.contents faults.old) (F.contents faults.new) (fault_line session fault) }
{
    room.clear();
    let made = write_fault(room, Ok(()), session, fault);
    say_line(faults, made, room.as_slice());
}

fn say_fullness<F: Write>(faults: &mut F, room: &mut Vec<u8>, hundredths: u64)
    ensures { WritesFront (F.contents faults.old) (F.contents faults.new) (fullness_text hundredths) }
{
    room.clear();
    let made = write_fullness(room, hundredths);
    say_line(faults, made, room.as_slice());
}

// What lines are said on, and room for one.
#[derive(Drop)]
struct Voice<'a, F: Write> {
    faults: &'a mut F,
    room: Vec<u8>,
}

impl<F: Write> Voice<'_, F> {
    fn say_reply(&mut self, session: u32, deed: &Option<Deed>, reply: &Reply) {
        say_reply(self.faults, &mut self.room, session, deed, reply);
    }

    fn say_opening(&mut self, epoch: u32, is_renewal: bool) {
        say_opening(self.faults, &mut self.room, epoch, is_renewal);
    }

    fn say_fault(&mut self, session: u32, fault: EngineFault) {
        say_fault(self.faults, &mut self.room, session, fault);
    }

    fn say_fullness(&mut self, hundredths: u64) {
        say_fullness(self.faults, &mut self.room, hundredths);
    }
}

/// A server's log on standard error. Whoever says a line waits for those who say one just then, and for its own write.
#[derive(Drop)]
pub(crate) struct Log<'a, R: Wait, F: Write> {
    rt: &'a R,
    is_kept: bool,
    voice: Mutex<Voice<'a, F>>,
}

impl<'a, R: Wait, F: Write> Log<'a, R, F> {
    /// A log on these faults. If none is to be kept, only how full the disk is is said. `AllocError`: out of memory for a line.
    pub(crate) fn new(
        rt: &'a R,
        alloc: Global,
        faults: &'a mut F,
        is_kept: bool,
    ) -> Result<Log<'a, R, F>, AllocError> {
        let room = Vec::with_capacity(alloc, LINE_ROOM)?;
        Ok(Log {
            rt,
            is_kept,
            voice: Mutex::new(Voice { faults, room }),
        })
    }
}

impl<R: Wait, F: Write> KeepLog for Log<'_, R, F> {
    fn note(&self, session: u32, deed: &Option<Deed>, reply: &Reply) {
        if self.is_kept && acknowledges(reply) {
            self.voice.lock(self.rt).say_reply(session, deed, reply);
        }
    }

    fn note_opening(&self, epoch: u32, is_renewal: bool) {
        if self.is_kept {
            self.voice.lock(self.rt).say_opening(epoch, is_renewal);
        }
    }

    fn note_fault(&self, session: u32, fault: EngineFault) {
        if self.is_kept {
            self.voice.lock(self.rt).say_fault(session, fault);
        }
    }
}

impl<R: Wait, F: Write> SayFullness for Log<'_, R, F> {
    fn say_fullness(&self, hundredths: u64) {
        self.voice.lock(self.rt).say_fullness(hundredths);
    }
}
