//! Replies.
//!
//! A call that fails has written some front of its text, and no more. None of these calls has an allocator.
ghost use Rattle.std.specs.{Prelude.{◌≡◌, ◌≢◌, IfErr}, IoError.error_kind};
ghost use Rattle.pf_addr.specs.Writing.{Writes};
ghost use Rattle.pf_core.specs.declared.reply.Answer.TheVariants as answers;
ghost use Rattle.pf_core.specs.declared.reply.Reply.TheVariants as replies;
ghost use Rattle.pf_line.specs.{Reply.TextLines.{HasLines, GoesOn, WroteLines}, Reply.Replies.{last_line, shown_lines, reply_text, line_count}};

use crate::reply::answer::{write_answer, write_applied, write_stored};
use crate::reply::part::end_line;
use crate::reply::refusal::write_refusal;
use crate::reply::shown::{write_rules, write_tables};
use crate::reply::state_line::{write_messages, write_states};
use crate::reply::verdict::write_verdict;
use pf_core::{Answer, Reply, Verdict};
use std::io::{self, ErrorKind, Write};

/// Writes the reply's text: for a shown ruleset a line for each rule, for shown tables, states and messages a line for each, and for every
/// reply one line after them. There is no other newline in it.
///
/// The error is the writer's first, except that a write interrupted by a signal is tried again; some front of the text is then written.
pub fn write_reply<W: Write>(out: &mut W, reply: &Reply) -> io::Result<()>
    ensures text { Writes result (W.contents out.old) (W.contents out.new) (reply_text reply.now) }
    ensures retried { IfErr result (λ e. error_kind e ≢ ErrorKind.Interrupted) }
    ensures lines { HasLines (line_count reply.now) (reply_text reply.now) }
{
    let so_far = write_shown(out, reply);
    let so_far = write_words(out, so_far, reply);
    end_line(out, so_far)
}

/// Writes the reply to a judge, like [`write_reply`].
pub fn write_judged<W: Write>(out: &mut W, verdict: &Verdict) -> io::Result<()>
    ensures text { Writes result (W.contents out.old) (W.contents out.new) (reply_text (replies.Answer (answers.Judged verdict.now))) }
    ensures retried { IfErr result (λ e. error_kind e ≢ ErrorKind.Interrupted) }
{
    let so_far = write_verdict(out, Ok(()), verdict);
    end_line(out, so_far)
}

/// Writes the lines before the last.
fn write_shown<W: Write>(out: &mut W, reply: &Reply) -> io::Result<()>
    ensures { WroteLines result (W.contents out.old) (W.contents out.new) (shown_lines reply.now) }
{
    match reply {
        Reply::Answer(Answer::Rules(rules)) => write_rules(out, rules.as_slice()),
        Reply::Answer(Answer::Tables(tables)) => write_tables(out, tables.as_slice()),
        Reply::Answer(Answer::States(states)) => write_states(out, states.as_slice()),
        Reply::Answer(Answer::Exported(exported)) => write_messages(out, exported.messages()),
        _ => Ok(()),
    }
}

/// Writes the last line after what was written so far, without its newline.
fn write_words<W: Write>(out: &mut W, so_far: io::Result<()>, reply: &Reply) -> io::Result<()>
    ensures { GoesOn so_far (W.contents out.old) result (W.contents out.new) (last_line reply.now) }
{
    match reply {
        Reply::Answer(answer) => write_answer(out, so_far, answer),
        Reply::Applied { seq, outcome } => write_applied(out, so_far, *seq, outcome),
        Reply::Stored { seq, outcome } => write_stored(out, so_far, *seq, outcome),
        Reply::Refused(refusal) => write_refusal(out, so_far, *refusal),
    }
}
