//! Texts of verdicts.
ghost use Rattle.std.specs.Prelude.{◌≡◌, ◌++◌, codes, decimal};
ghost use Rattle.pf_line.specs.{Reply.TextLines.{newlines, GoesOn}, Reply.Replies.{place_text, action_text, rule_verdict_text, verdict_text, sign_word, tested_text}, Reply.StateTexts.name_text};

use crate::reply::entry::write_entry;
use crate::reply::part::{write_numbered, write_part};
use crate::reply::state_line::write_name;
use pf_addr::path::laws::{paths_are_read_again, paths_are_read_as_spelled};
use pf_anchor::{Path, RuleVerdict};
use pf_core::durable::Verdict;
use pf_rule::Action;
use pf_state::StateName;
use pf_table::Entry;
use std::io::{self, Write};

pub(crate) fn write_verdict<W: Write>(
    out: &mut W,
    so_far: io::Result<()>,
    verdict: &Verdict,
) -> io::Result<()>
    ensures { GoesOn so_far (W.contents out.old) result (W.contents out.new) (verdict_text verdict.now) }
{
    match verdict {
        Verdict::State(name) => write_state_verdict(out, so_far, *name),
        Verdict::Rules(verdict) => write_rule_verdict(out, so_far, verdict),
    }
}

#[tactic(auto, using(crate::proofs::Writers::goes_on))]
fn write_state_verdict<W: Write>(
    out: &mut W,
    so_far: io::Result<()>,
    name: StateName,
) -> io::Result<()>
    ensures { GoesOn so_far (W.contents out.old) result (W.contents out.new) (codes "pass state " ++ name_text name) }
{
    let so_far = write_part(out, so_far, b"pass state ");
    write_name(out, so_far, name)
}

pub(crate) fn write_rule_verdict<W: Write>(
    out: &mut W,
    so_far: io::Result<()>,
    verdict: &RuleVerdict,
) -> io::Result<()>
    ensures { GoesOn so_far (W.contents out.old) result (W.contents out.new) (rule_verdict_text verdict.now) }
{
    match verdict {
        RuleVerdict::Rule {
            path,
            number,
            action,
        } => write_deciding(out, so_far, path, *number, *action),
        RuleVerdict::Default => write_part(out, so_far, b"pass default"),
    }
}

/// Writes what the rule of this number decides, and where the rule is.
fn write_deciding<W: Write>(
    out: &mut W,
    so_far: io::Result<()>,
    path: &Path,
    number: u32,
    action: Action,
) -> io::Result<()>
    ensures { GoesOn so_far (W.contents out.old) result (W.contents out.new)
        (action_text action ++ (codes " rule " ++ decimal number ++ place_text path.now)) }
{
    let so_far = write_part(out, so_far, action_word(action));
    let so_far = write_numbered(out, so_far, b" rule ", number as u64);
    write_place(out, so_far, path)
}

fn action_word(action: Action) -> &'static [u8]
    ensures text { result.now ≡ action_text action }
    ensures one_line { newlines result.now ≡ 0 }
{
    match action {
        Action::Pass { keeps_state: _ } => b"pass",
        Action::Block => b"block",
    }
}

/// Writes where a rule is, unless it is in the main ruleset.
fn write_place<W: Write>(out: &mut W, so_far: io::Result<()>, path: &Path) -> io::Result<()>
    ensures { GoesOn so_far (W.contents out.old) result (W.contents out.new) (place_text path.now) }
{
    if path.as_bytes().is_empty() {
        return write_part(out, so_far, b"");
    }
    write_at(out, so_far, path)
}

fn write_at<W: Write>(out: &mut W, so_far: io::Result<()>, path: &Path) -> io::Result<()>
    ensures { GoesOn so_far (W.contents out.old) result (W.contents out.new) (codes " at " ++ path.now) }
{
    let so_far = write_part(out, so_far, b" at ");
    // The laws say which bytes each path has, and so that its text has no newline.
    paths_are_read_as_spelled();
    paths_are_read_again();
    write_part(out, so_far, path.as_bytes())
}

/// Writes whether a table matches an address, and the deciding entry, if there is one.
pub(crate) fn write_tested<W: Write>(
    out: &mut W,
    so_far: io::Result<()>,
    deciding: Option<Entry>,
) -> io::Result<()>
    ensures { GoesOn so_far (W.contents out.old) result (W.contents out.new) (tested_text deciding) }
{
    match deciding {
        Some(entry) => write_matched(out, so_far, entry),
        None => write_part(out, so_far, b"nomatch"),
    }
}

fn write_matched<W: Write>(out: &mut W, so_far: io::Result<()>, entry: Entry) -> io::Result<()>
    ensures { GoesOn so_far (W.contents out.old) result (W.contents out.new) (tested_text (Some entry)) }
{
    let so_far = write_part(out, so_far, sign_word(entry.is_negated()));
    write_entry(out, so_far, entry)
}

fn sign_word(is_negated: bool) -> &'static [u8]
    ensures text { result.now ≡ sign_word is_negated }
    ensures one_line { newlines result.now ≡ 0 }
{
    if is_negated { b"nomatch " } else { b"match " }
}
