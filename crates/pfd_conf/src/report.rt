//! How a user is told of cases.
ghost use Rattle.std.specs.Prelude.{◌≡◌, ◌≤◌, ◌-◌, ◌^◌, Ok, IfErr, OnOk, count_by};
ghost use Rattle.pf_addr.specs.Writing.{Continues, Writes};
ghost use Rattle.pf_form.specs.Form.Words.{texts};
ghost use Rattle.pfd_conf.specs.Case.Cases.{at_text};
ghost use Rattle.pfd_conf.specs.declared.fault.Fault.TheVariants.{Output};
ghost use Rattle.pfd_conf.specs.Firewalls.{origins_of};
ghost use Rattle.pfd_conf.specs.Reports.{spaced, packet_of, wanted_of, path_of, rule_text_of, got_text, difference_text, failure_text, failure_line, failures_text, all_failures, has, counted, tally, tally_text, report_text};

use crate::case::action_text;
use crate::fault::Fault;
use crate::firewall::{Decided, Firewall, Origins};
use crate::outcomes::{Outcome, Tried};
use pf_addr::{write_more, write_more_number};
use pf_form::form::{Words, words};
use std::alloc::Global;
use std::io::{self, Write};

/// How many words a packet has.
const PACKET_WORDS: usize = 7;

/// How many cases hold, and how many don't.
#[derive(Clone, Copy, Debug, PartialEq, Eq)]
pub struct Tally {
    pub passed: usize,
    pub failed: usize,
}

// Several texts in a row. Each call takes the result of those before it, so that only the last result needs checking.

/// Writes each word behind a space.
pub(crate) fn write_spaced<W: Write>(
    out: &mut W,
    begun: io::Result<()>,
    words: Words<'_>,
) -> io::Result<()>
    ensures { Continues begun (W.contents out.old) result (W.contents out.new) (spaced (texts words.now)) }
{
    let mut so_far = begun;
    for word in words {
        so_far = write_more(out, so_far, b" ");
        so_far = write_more(out, so_far, word);
    }
    so_far
}

/// Writes the path of a rule's ruleset, unless it is main's.
fn write_path<W: Write>(out: &mut W, so_far: io::Result<()>, path: &[u8]) -> io::Result<()>
    ensures { Continues so_far (W.contents out.old) result (W.contents out.new) (at_text path.now) }
{
    if path.is_empty() {
        return write_more(out, so_far, b"");
    }
    let so_far = write_more(out, so_far, b" at ");
    write_more(out, so_far, path)
}

/// The words of a case's packet.
fn packet_of<'a>(words: Words<'a>) -> Words<'a>
    ensures { texts result.now ≡ packet_of (texts words.now) }
{
    &words[..words.len().min(PACKET_WORDS)]
}

/// The words of what a case wants, behind its arrow.
fn wanted_of<'a>(words: Words<'a>) -> Words<'a>
    ensures { texts result.now ≡ wanted_of (texts words.now) }
{
    &words[words.len().min(PACKET_WORDS + 1)..]
}

impl Origins<'_> {
    /// The path of the ruleset of the rule that decides.
    fn path_of(&self, decided: Decided) -> &[u8]
        ensures { result.now ≡ path_of self.now.rulesets decided }
    {
        match self.rulesets().get(decided.within) {
            Some(ruleset) => ruleset.path.as_bytes(),
            None => b"",
        }
    }

    /// Writes which rule decides, behind what becomes of the packet.
    fn write_decided<W: Write>(
        &self,
        out: &mut W,
        so_far: io::Result<()>,
        decided: Decided,
    ) -> io::Result<()>
        ensures { Continues so_far (W.contents out.old) result (W.contents out.new) (rule_text_of self.now.rulesets decided) }
    {
        let so_far = write_more(out, so_far, b" rule ");
        let so_far = write_more_number(out, so_far, decided.number as u64);
        write_path(out, so_far, self.path_of(decided))
    }

    /// Writes a verdict as `judge` is answered, and behind it where the rule is written.
    pub(crate) fn write_got<W: Write>(
        &self,
        out: &mut W,
        so_far: io::Result<()>,
        passes: bool,
        decided: Option<Decided>,
    ) -> io::Result<()>
        ensures { Continues so_far (W.contents out.old) result (W.contents out.new) (got_text self.now passes decided) }
    {
        let so_far = write_more(out, so_far, action_text(passes));
        let so_far = match decided {
            Some(decided) => self.write_decided(out, so_far, decided),
            None => write_more(out, so_far, b" default"),
        };
        self.write_origin(out, so_far, decided)
    }

    /// Writes what a case with these words came to, behind its packet, and what was wanted.
    pub(crate) fn write_difference<W: Write>(
        &self,
        out: &mut W,
        so_far: io::Result<()>,
        words: Words<'_>,
        outcome: &Outcome,
    ) -> io::Result<()>
        ensures { Continues so_far (W.contents out.old) result (W.contents out.new)
            (difference_text self.now (texts words.now) outcome.now) }
    {
        let so_far = self.write_got(out, so_far, outcome.passes, outcome.decided);
        let so_far = write_more(out, so_far, b", not");
        write_spaced(out, so_far, wanted_of(words))
    }

    /// Writes the line for a case of this file that doesn't hold, given its words.
    fn write_failure<W: Write>(
        &self,
        out: &mut W,
        so_far: io::Result<()>,
        file: &[u8],
        words: Words<'_>,
        outcome: &Outcome,
    ) -> io::Result<()>
        ensures { Continues so_far (W.contents out.old) result (W.contents out.new)
            (failure_text self.now file.now (texts words.now) outcome.now) }
    {
        let so_far = write_more(out, so_far, file);
        let so_far = write_more(out, so_far, b":");
        let so_far = write_more_number(out, so_far, outcome.line as u64);
        let so_far = write_more(out, so_far, b":");
        let so_far = write_spaced(out, so_far, packet_of(words));
        let so_far = write_more(out, so_far, b" -> ");
        let so_far = self.write_difference(out, so_far, words, outcome);
        write_more(out, so_far, b"\n")
    }

    /// Writes the line for a case of a file, if it doesn't hold.
    fn write_if_failed<W: Write>(
        &self,
        alloc: Global,
        out: &mut W,
        tried: &Tried<'_>,
        outcome: &Outcome,
    ) -> Result<(), Fault>
        ensures { Writes result (W.contents out.old) (W.contents out.new) (failure_line self.now tried.now outcome.now) }
    {
        if outcome.holds {
            return Ok(());
        }
        let words = words(alloc, tried.line(outcome))?;
        written(self.write_failure(out, Ok(()), tried.name, &words, outcome))
    }

    /// Writes a line for each case of a file that doesn't hold.
    fn write_failures<W: Write>(
        &self,
        alloc: Global,
        out: &mut W,
        tried: &Tried<'_>,
    ) -> Result<(), Fault>
        ensures { Writes result (W.contents out.old) (W.contents out.new) (failures_text self.now tried.now) }
    {
        for outcome in tried.outcomes.as_slice() {
            self.write_if_failed(alloc, out, tried, outcome)?;
        }
        Ok(())
    }

    /// The same for all files.
    fn write_all_failures<W: Write>(
        &self,
        alloc: Global,
        out: &mut W,
        tried: &[Tried<'_>],
    ) -> Result<(), Fault>
        ensures { Writes result (W.contents out.old) (W.contents out.new) (all_failures self.now tried.now) }
    {
        for file in tried {
            self.write_failures(alloc, out, file)?;
        }
        Ok(())
    }

    /// Writes a line for each case that doesn't hold, and how many hold and don't.
    fn report<W: Write>(&self, alloc: Global, out: &mut W, tried: &[Tried<'_>]) -> Result<(), Fault>
        ensures { Writes result (W.contents out.old) (W.contents out.new) (report_text self.now tried.now) }
    {
        self.write_all_failures(alloc, out, tried)?;
        written(write_tally(out, Ok(()), Tally::of(tried)))?;
        written(out.flush())
    }
}

impl Firewall {
    /// Writes a line for each case that doesn't hold, and how many hold and don't. `Fault::Output`, `Fault::Memory`: a front of that was
    /// written.
    pub fn report<W: Write>(
        &self,
        alloc: Global,
        out: &mut W,
        tried: &[Tried<'_>],
    ) -> Result<(), Fault>
        ensures { Writes result (W.contents out.old) (W.contents out.new) (report_text (origins_of self.now) tried.now) }
    {
        self.origins().report(alloc, out, tried)
    }
}

/// The fault of a text that couldn't be written.
pub(crate) fn written(outcome: io::Result<()>) -> Result<(), Fault>
    ensures ok { OnOk result (outcome ≡ Ok tt) }
    ensures err { IfErr result (λ fault. fault ≡ Output) }
{
    match outcome {
        Ok(()) => Ok(()),
        Err(_) => Err(Fault::Output),
    }
}

/// Writes how many cases hold, and how many don't.
pub(crate) fn write_tally<W: Write>(
    out: &mut W,
    so_far: io::Result<()>,
    tally: Tally,
) -> io::Result<()>
    ensures { Continues so_far (W.contents out.old) result (W.contents out.new) (tally_text tally) }
{
    let so_far = write_more_number(out, so_far, tally.passed as u64);
    let so_far = write_more(out, so_far, b" passed, ");
    let so_far = write_more_number(out, so_far, tally.failed as u64);
    write_more(out, so_far, b" failed\n")
}

impl Tally {
    /// How many of these hold, and how many don't.
    pub fn of(tried: &[Tried<'_>]) -> Tally
        ensures { result ≡ tally tried.now }
    {
        Tally {
            passed: counted(tried, true),
            failed: counted(tried, false),
        }
    }
}

/// How many cases hold, or don't.
fn counted(tried: &[Tried<'_>], holds: bool) -> usize
    ensures { result ≡ counted holds tried.now }
{
    let mut count: usize = 0;
    for file in tried {
        count = count.saturating_add(count_in(file.outcomes.as_slice(), holds));
    }
    count
}

/// How many of a file's cases hold, or don't.
pub(crate) fn count_in(outcomes: &[Outcome], holds: bool) -> usize
    ensures { result ≡ count_by (has holds) outcomes.now }
{
    outcomes
        .iter()
        .filter(|outcome| outcome.holds == holds)
        .count()
}
