//! Lines that ask what happens to a packet.
ghost use Rattle.std.specs.Prelude.{◌≡◌, false, IfErr, IfSome};
ghost use Rattle.pf_form.specs.{Form.Forms.{making, read_all}, Form.Readers.ReadsWhole, Form.Words.texts};
ghost use Rattle.pf_line.specs.{Grammar.{Says, asking, judged, line as the_grammar}, Lines.{may_judge, no_command, line_at, asked, said, Parses, Answers, Refused}};

use crate::cut::{CutFault, cut};
use crate::line::{LINE_LIMIT, refusal, refusal_for};
use pf_core::Refusal;
use pf_form::form::{Unread, WordFault, Words, end, takes};
use pf_rule::{Mistake, Packet};

const KEY: &[u8] = b"judge";

/// How many words are looked at: the eight of such a line, and some more.
const PLACES: usize = 12;

/// Whether a line begins with a `j`, as lines for [`parse_judge`] do. Others are read faster without it.
pub fn may_judge(line: &[u8]) -> bool
    ensures { result ≡ may_judge line.now }
{
    match line {
        [first, ..] => *first == b'j',
        [] => false,
    }
}

/// Reads a line whose first word is `judge`, as [`parse_line`](crate::parse_line) does: the packet that is asked about, or why the line is
/// refused. It takes no memory, and the most frequent question makes and moves no command. `None`: any other line, or one of too many
/// words.
pub fn parse_judge(line: &[u8]) -> Option<Result<Packet, Refusal>>
    ensures exact { IfSome result (λ r. Parses (asked r) (line_at line.now)) }
    ensures refused { IfSome result (λ r. IfErr r (λ e. Refused line.now e)) }
{
    parse_judge_checked(line)
}

// Kept apart, so that the answer is proved once for each way out.
fn parse_judge_checked(line: &[u8]) -> Option<Result<Packet, Refusal>>
    ensures { IfSome result (λ r. Answers line.now (asked r)) }
{
    if LINE_LIMIT < line.len() {
        return None;
    }
    let mut places = [KEY; PLACES];
    match cut(line, &mut places) {
        Ok(count) => parse_judge_words(&places[..count], count),
        Err(CutFault::BadByte) => Some(Err(Refusal::BadLine)),
        Err(CutFault::NoPlace) => None,
    }
}

/// What this many words say, if the first is `judge`.
fn parse_judge_words<'a>(words: Words<'a>, count: usize) -> Option<Result<Packet, Refusal>>
    ensures loud { IfSome result (λ r. no_command (texts words.now) ≡ false) }
    ensures said { IfSome result (λ r. Parses (asked r) (said count (read_all the_grammar (texts words.now)))) }
{
    let mut rest = words;
    if takes(&mut rest, KEY) {
        Some(parse_packet_words(rest, count))
    } else {
        None
    }
}

/// What the words after the first one say of a packet; `count` is the number of all words.
#[tactic(auto, using(crate::proofs::Lines::made_ok, crate::proofs::Lines::made_stopped))]
fn parse_packet_words<'a>(words: Words<'a>, count: usize) -> Result<Packet, Refusal>
    ensures { Parses (asked result) (said count (read_all (making Says judged) (texts words.now))) }
{
    match read_packet(words) {
        Ok(Ok(packet)) => Ok(packet),
        Ok(Err(mistake)) => Err(refusal_for(mistake)),
        Err(stop) => Err(refusal(Unread::Stopped(stop), count)),
    }
}

#[tactic(auto, unfolding(crate::specs::Grammar::judged))]
fn read_packet<'a>(words: Words<'a>) -> Result<Result<Packet, Mistake>, WordFault>
    ensures { ReadsWhole asking judged result words.now }
{
    let mut rest = words;
    let read = Packet::read(&mut rest)?;
    end(rest)?;
    Ok(read)
}
