//! The line that isn't done, as C gets it.
ghost use Rattle.std.specs.Prelude.{◌≡◌, ◌⊎◌, take, length, min, slice_get, Some, IfOk};
ghost use Rattle.wirdalf_c.specs.declared.lines.LineRefusal.TheVariants.{Memory};
ghost use Rattle.wirdalf_c.specs.declared.lines.LineFault.{LineFault};
ghost use Rattle.wirdalf_c.specs.{Answers.SaysFault, Codes.line_code, Lines.reply_of};
ghost use Rattle.pf_line.specs.Reply.Replies.{refusal_text};

use crate::fault::{MEMORY, REFUSED, UNFIT};
use crate::lines::{LineFault, LineRefusal};
use crate::record::{FaultRecord, REPLY_LIMIT};
use pf_core::{Refusal, Reply};
use pf_line::write_reply;
use std::alloc::{AllocError, Global};

impl LineRefusal {
    /// What C gets for it.
    pub fn code(self) -> u32
        ensures { result ≡ line_code self }
    {
        match self {
            LineRefusal::Refused(_) => REFUSED,
            LineRefusal::Unfit => UNFIT,
            LineRefusal::Memory => MEMORY,
        }
    }
}

/// Tells of a line that isn't done, or, out of memory for what `pfd` replies to it, that memory ran out. Returns what C gets.
pub fn tell_fault(alloc: Global, fault: LineFault, to: &mut FaultRecord) -> u32
    ensures { (reported : LineFault) × ((reported ≡ fault) ⊎ (reported.why ≡ Memory)) × SaysFault reported result to.new }
{
    match reply_of(alloc, fault.why) {
        Ok(text) => tell(fault, &text, to),
        Err(AllocError) => {
            let fault = LineFault {
                line: fault.line,
                why: LineRefusal::Memory,
            };
            tell(fault, b"", to)
        }
    }
}

// Tells of a line to which `pfd` replies this.
fn tell(fault: LineFault, text: &[u8], to: &mut FaultRecord) -> u32
    requires { text.now ≡ reply_of fault.why }
    ensures { SaysFault fault result to.new }
{
    to.line = fault.line;
    to.reply_length = tell_text(text, &mut to.reply);
    fault.why.code()
}

// Writes what finds room of a text with a zero after it, and returns how many bytes it has.
#[tactic(auto, using(crate::proofs::Many::get_set_same))]
fn tell_text(text: &[u8], to: &mut [u8; 64]) -> u8
    ensures room { take result to.new ≡ take REPLY_LIMIT text.now }
    ensures count { result ≡ min REPLY_LIMIT (length text.now) }
    ensures zero { slice_get to.new result ≡ Some 0 }
{
    let count = REPLY_LIMIT.min(text.len());
    to[..count].copy_from_slice(&text[..count]);
    to[count] = 0;
    count as u8
}

// What `pfd` replies to a line that isn't done.
fn reply_of(alloc: Global, why: LineRefusal) -> Result<Vec<u8>, AllocError>
    ensures { IfOk result (λ text. text.items ≡ reply_of why) }
{
    match why {
        LineRefusal::Refused(refusal) => refusal_text(alloc, refusal),
        LineRefusal::Unfit | LineRefusal::Memory => Ok(Vec::new(alloc)),
    }
}

// The text of a refusal, without the newline.
fn refusal_text(alloc: Global, refusal: Refusal) -> Result<Vec<u8>, AllocError>
    ensures { IfOk result (λ text. text.items ≡ refusal_text refusal) }
{
    let mut text = Vec::new(alloc);
    if write_reply(&mut text, &Reply::Refused(refusal)).is_err() {
        return Err(AllocError);
    }
    let _newline = text.pop();
    Ok(text)
}
