//! Texts of refusals.
ghost use Rattle.std.specs.Prelude.{◌≡◌};
ghost use Rattle.pf_line.specs.{Reply.TextLines.GoesOn, Reply.Replies.refusal_text};

use crate::reply::part::{write_numbered, write_part};
use crate::reply::state_line::fault_text;
use pf_core::Refusal;
use std::io::{self, Write};

pub(crate) fn write_refusal<W: Write>(
    out: &mut W,
    so_far: io::Result<()>,
    refusal: Refusal,
) -> io::Result<()>
    ensures { GoesOn so_far (W.contents out.old) result (W.contents out.new) (refusal_text refusal) }
{
    match refusal {
        Refusal::BadLine => write_part(out, so_far, b"err line"),
        Refusal::MixedFamily => write_part(out, so_far, b"err family"),
        Refusal::PortNeedsProto => write_part(out, so_far, b"err portproto"),
        Refusal::Halted => write_part(out, so_far, b"err halted"),
        Refusal::BadCount => write_part(out, so_far, b"err count"),
        Refusal::Absent => write_part(out, so_far, b"err absent"),
        Refusal::BadTick => write_part(out, so_far, b"err tick"),
        Refusal::RulesetFull => write_part(out, so_far, b"err ruleset"),
        Refusal::TableFull => write_part(out, so_far, b"err table"),
        Refusal::TooManyRulesets => write_part(out, so_far, b"err rulesets"),
        Refusal::TooManyTables => write_part(out, so_far, b"err tables"),
        Refusal::TicketsExhausted => write_part(out, so_far, b"err tickets"),
        Refusal::StatesFull => write_part(out, so_far, b"err states"),
        Refusal::BadPeer(fault) => write_part(out, so_far, fault_text(fault)),
        Refusal::PeerCount => write_part(out, so_far, b"err peer count"),
        Refusal::HistoryFull => write_part(out, so_far, b"err history"),
        Refusal::Full => write_part(out, so_far, b"err full"),
        Refusal::Fault => write_part(out, so_far, b"err fault"),
        Refusal::Memory => write_part(out, so_far, b"err memory"),
        Refusal::BadWord { at } => write_numbered(out, so_far, b"err word ", at as u64),
        Refusal::NameTooLong { at } => write_numbered(out, so_far, b"err name ", at as u64),
        Refusal::BadProto { at } => write_numbered(out, so_far, b"err proto ", at as u64),
        Refusal::Twice { at } => write_numbered(out, so_far, b"err twice ", at as u64),
        Refusal::Conflict { at } => write_numbered(out, so_far, b"err conflict ", at as u64),
        Refusal::NotGrouped { index } => {
            write_numbered(out, so_far, b"err grouped ", index as u64)
        }
        Refusal::Busy { at } => write_numbered(out, so_far, b"busy ", at as u64),
    }
}
