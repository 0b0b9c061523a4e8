//! Texts of answers, and of what became of a change.
ghost use Rattle.std.specs.Prelude.{◌≡◌, ◌∷◌, ◌++◌, codes, decimal};
ghost use Rattle.pf_core.specs.declared.{reply.Answer.TheVariants.Logged, reply.Outcome.TheVariants.{Added, Deleted}, reply.Reply.TheVariants.{Applied, Stored}};
ghost use Rattle.pf_line.specs.{Reply.TextLines.GoesOn, Reply.Replies.{rule_verdict_text, answer_text, outcome_text, last_line}};

use crate::reply::part::{write_numbered, write_part};
use crate::reply::state_line::{write_counts, write_hex};
use crate::reply::ticket::write_given;
use crate::reply::verdict::{write_rule_verdict, write_tested, write_verdict};
use pf_anchor::RuleVerdict;
use pf_core::{Answer, Outcome};
use std::io::{self, Write};

pub(crate) fn write_answer<W: Write>(
    out: &mut W,
    so_far: io::Result<()>,
    answer: &Answer,
) -> io::Result<()>
    ensures { GoesOn so_far (W.contents out.old) result (W.contents out.new) (answer_text answer.now) }
{
    match answer {
        Answer::Given(given) => write_given(out, so_far, *given),
        Answer::Done => write_part(out, so_far, b"ok"),
        Answer::Judged(verdict) => write_verdict(out, so_far, verdict),
        Answer::Stale(verdict) => write_stale(out, so_far, verdict),
        Answer::Tested(deciding) => write_tested(out, so_far, *deciding),
        Answer::Rules(rules) => write_end(out, so_far, rules.as_slice().len()),
        Answer::Tables(tables) => write_end(out, so_far, tables.as_slice().len()),
        Answer::States(states) => write_end(out, so_far, states.as_slice().len()),
        Answer::Sum(sum) => write_hex(out, so_far, sum),
        Answer::Exported(exported) => write_end(out, so_far, exported.len()),
        Answer::Logged { len, acked, shown } => write_logged(out, so_far, *len, *acked, *shown),
        Answer::Shown(changes) => write_numbered(out, so_far, b"shown ", *changes),
    }
}

/// Writes how many changes there are, how many are acknowledged, and how many are shown.
#[tactic(auto, using(crate::proofs::Writers::goes_on))]
fn write_logged<W: Write>(
    out: &mut W,
    so_far: io::Result<()>,
    len: u64,
    acked: u64,
    shown: u64,
) -> io::Result<()>
    ensures { GoesOn so_far (W.contents out.old) result (W.contents out.new) (answer_text (Logged len acked shown)) }
{
    let so_far = write_numbered(out, so_far, b"log ", len);
    let so_far = write_numbered(out, so_far, b" acked ", acked);
    write_numbered(out, so_far, b" shown ", shown)
}

/// Writes the rules' verdict on a packet whose state's name is taken.
#[tactic(auto, using(crate::proofs::Writers::goes_on))]
fn write_stale<W: Write>(
    out: &mut W,
    so_far: io::Result<()>,
    verdict: &RuleVerdict,
) -> io::Result<()>
    ensures { GoesOn so_far (W.contents out.old) result (W.contents out.new) (rule_verdict_text verdict.now ++ codes " stale") }
{
    let so_far = write_rule_verdict(out, so_far, verdict);
    write_part(out, so_far, b" stale")
}

/// Writes how many lines come before this one.
fn write_end<W: Write>(out: &mut W, so_far: io::Result<()>, lines: usize) -> io::Result<()>
    ensures { GoesOn so_far (W.contents out.old) result (W.contents out.new) (codes "end " ++ decimal lines) }
{
    write_numbered(out, so_far, b"end ", lines as u64)
}

/// Writes a change's number and what became of it.
#[tactic(auto, using(crate::proofs::Writers::goes_on))]
pub(crate) fn write_applied<W: Write>(
    out: &mut W,
    so_far: io::Result<()>,
    seq: u64,
    outcome: &Outcome,
) -> io::Result<()>
    ensures { GoesOn so_far (W.contents out.old) result (W.contents out.new) (last_line (Applied seq outcome.now)) }
{
    let so_far = write_numbered(out, so_far, b"applied ", seq);
    write_outcome(out, so_far, outcome)
}

/// Writes the same for a change that isn't shown yet.
#[tactic(auto, using(crate::proofs::Writers::goes_on))]
pub(crate) fn write_stored<W: Write>(
    out: &mut W,
    so_far: io::Result<()>,
    seq: u64,
    outcome: &Outcome,
) -> io::Result<()>
    ensures { GoesOn so_far (W.contents out.old) result (W.contents out.new) (last_line (Stored seq outcome.now)) }
{
    let so_far = write_numbered(out, so_far, b"stored ", seq);
    write_outcome(out, so_far, outcome)
}

fn write_outcome<W: Write>(out: &mut W, so_far: io::Result<()>, outcome: &Outcome) -> io::Result<()>
    ensures { GoesOn so_far (W.contents out.old) result (W.contents out.new) (outcome_text outcome.now) }
{
    match outcome {
        Outcome::Added {
            added,
            same,
            conflict,
        } => write_added(out, so_far, *added, *same, *conflict),
        Outcome::Deleted { deleted, absent } => write_deleted(out, so_far, *deleted, *absent),
        Outcome::Tracked(verdict) => write_tracked(out, so_far, verdict),
        Outcome::Peered(counts) => write_counts(out, so_far, counts),
        Outcome::Expired(expired) => write_numbered(out, so_far, b" expired ", *expired as u64),
        Outcome::Committed | Outcome::Set | Outcome::Killed => write_part(out, so_far, b""),
    }
}

/// Writes the rules' verdict on a packet, after a space.
#[tactic(auto, using(crate::proofs::Writers::goes_on))]
fn write_tracked<W: Write>(
    out: &mut W,
    so_far: io::Result<()>,
    verdict: &RuleVerdict,
) -> io::Result<()>
    ensures { GoesOn so_far (W.contents out.old) result (W.contents out.new) (32 ∷ rule_verdict_text verdict.now) }
{
    let so_far = write_part(out, so_far, b" ");
    write_rule_verdict(out, so_far, verdict)
}

#[tactic(auto, using(crate::proofs::Writers::goes_on))]
fn write_added<W: Write>(
    out: &mut W,
    so_far: io::Result<()>,
    added: usize,
    same: usize,
    conflict: usize,
) -> io::Result<()>
    ensures { GoesOn so_far (W.contents out.old) result (W.contents out.new) (outcome_text (Added added same conflict)) }
{
    let so_far = write_numbered(out, so_far, b" added ", added as u64);
    let so_far = write_numbered(out, so_far, b" same ", same as u64);
    write_numbered(out, so_far, b" conflict ", conflict as u64)
}

#[tactic(auto, using(crate::proofs::Writers::goes_on))]
fn write_deleted<W: Write>(
    out: &mut W,
    so_far: io::Result<()>,
    deleted: usize,
    absent: usize,
) -> io::Result<()>
    ensures { GoesOn so_far (W.contents out.old) result (W.contents out.new) (outcome_text (Deleted deleted absent)) }
{
    let so_far = write_numbered(out, so_far, b" deleted ", deleted as u64);
    write_numbered(out, so_far, b" absent ", absent as u64)
}
