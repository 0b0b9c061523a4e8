//! The text of a status.
ghost use Rattle.std.specs.{Prelude.{◌≢◌, ◌++◌, IfErr}, IoError.error_kind};
ghost use Rattle.pf_addr.specs.Writing.{Writes};
ghost use Rattle.pf_line.specs.{Reply.TextLines.{HasLines, GoesOn}, Reply.StatusTexts.{age_text, kept_text, room_text, status_line, status_text}};

use crate::reply::part::{end_line, write_numbered};
use std::io::{self, ErrorKind, Write};

/// What `show status` shows.
#[derive(Clone, Copy)]
pub struct Status {
    /// The epoch of the opening.
    pub epoch: u64,
    /// How many changes there are since the opening, acknowledged or not.
    pub changes: u64,
    /// The tick.
    pub tick: u64,
    /// How many rulesets of rules are kept.
    pub rulesets: u64,
    /// How many tables are kept.
    pub tables: u64,
    /// How many states are kept.
    pub states: u64,
    /// How many bytes of a bank what is kept takes.
    pub held: u64,
    /// How many bytes a bank has.
    pub size: u64,
    /// How many sessions are open.
    pub sessions: u64,
}

/// Writes a status, in one line with its newline, like [`write_reply`](crate::write_reply).
pub fn write_status<W: Write>(out: &mut W, status: &Status) -> io::Result<()>
    ensures text { Writes result (W.contents out.old) (W.contents out.new) (status_text status.now) }
    ensures retried { IfErr result (λ e. error_kind e ≢ ErrorKind.Interrupted) }
    ensures lines { HasLines 1 (status_text status.now) }
{
    let so_far = write_numbers(out, Ok(()), status);
    end_line(out, so_far)
}

#[tactic(auto, using(crate::proofs::Writers::goes_on))]
fn write_numbers<W: Write>(out: &mut W, so_far: io::Result<()>, status: &Status) -> io::Result<()>
    ensures { GoesOn so_far (W.contents out.old) result (W.contents out.new) (status_line status.now) }
{
    let so_far = write_age(out, so_far, status);
    let so_far = write_kept(out, so_far, status);
    write_room(out, so_far, status)
}

/// Writes how old the opening is.
#[tactic(auto, using(crate::proofs::Writers::goes_on))]
fn write_age<W: Write>(out: &mut W, so_far: io::Result<()>, status: &Status) -> io::Result<()>
    ensures { GoesOn so_far (W.contents out.old) result (W.contents out.new) (age_text status.now) }
{
    let so_far = write_numbered(out, so_far, b"epoch ", status.epoch);
    let so_far = write_numbered(out, so_far, b" changes ", status.changes);
    write_numbered(out, so_far, b" tick ", status.tick)
}

/// Writes how much is kept.
#[tactic(auto, using(crate::proofs::Writers::goes_on))]
fn write_kept<W: Write>(out: &mut W, so_far: io::Result<()>, status: &Status) -> io::Result<()>
    ensures { GoesOn so_far (W.contents out.old) result (W.contents out.new) (kept_text status.now) }
{
    let so_far = write_numbered(out, so_far, b" rulesets ", status.rulesets);
    let so_far = write_numbered(out, so_far, b" tables ", status.tables);
    write_numbered(out, so_far, b" states ", status.states)
}

/// Writes how much room that takes, and for whom.
#[tactic(auto, using(crate::proofs::Writers::goes_on))]
fn write_room<W: Write>(out: &mut W, so_far: io::Result<()>, status: &Status) -> io::Result<()>
    ensures { GoesOn so_far (W.contents out.old) result (W.contents out.new) (room_text status.now) }
{
    let so_far = write_numbered(out, so_far, b" held ", status.held);
    let so_far = write_numbered(out, so_far, b" of ", status.size);
    write_numbered(out, so_far, b" sessions ", status.sessions)
}
