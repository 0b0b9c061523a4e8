//! The outcomes of cases in TAP, the Test Anything Protocol (version 13).
ghost use Rattle.std.specs.Prelude.{◌≡◌, ◌+◌, IfOk};
ghost use Rattle.pf_addr.specs.Writing.{Continues, Writes};
ghost use Rattle.pf_form.specs.Form.Words.{texts};
ghost use Rattle.pfd_conf.specs.Firewalls.{origins_of};
ghost use Rattle.pfd_conf.specs.Reports.{result_word, reason_text, point_text, sayable, words_at, file_points, files_points, case_count, plan_text, tap_text};

use crate::fault::Fault;
use crate::firewall::{Firewall, Origins};
use crate::outcomes::{Outcome, Tried};
use crate::report::{Tally, write_spaced, write_tally, written};
use pf_addr::{write_more, write_more_number};
use pf_form::form::{Words, words};
use std::alloc::Global;
use std::io::{self, Write};

/// What a line begins with that tells of a case.
fn result_word(holds: bool) -> &'static [u8]
    ensures { result.now ≡ result_word holds }
{
    if holds { b"ok " } else { b"not ok " }
}

/// Writes how many cases there are, and how many hold and don't.
fn write_plan<W: Write>(
    out: &mut W,
    so_far: io::Result<()>,
    count: usize,
    tally: Tally,
) -> io::Result<()>
    ensures { Continues so_far (W.contents out.old) result (W.contents out.new) (plan_text count tally) }
{
    let so_far = write_more(out, so_far, b"1..");
    let so_far = write_more_number(out, so_far, count as u64);
    let so_far = write_more(out, so_far, b"\n# ");
    write_tally(out, so_far, tally)
}

/// The number of a case, behind so many in the files before its own, and so many in it.
fn number_of(before: usize, index: usize) -> usize
    ensures { result ≡ sayable (before + index + 1) }
{
    before.saturating_add(index).saturating_add(1)
}

impl Origins<'_> {
    /// Writes why a case with these words doesn't hold; nothing if it does.
    fn write_reason<W: Write>(
        &self,
        out: &mut W,
        so_far: io::Result<()>,
        words: Words<'_>,
        outcome: &Outcome,
    ) -> io::Result<()>
        ensures { Continues so_far (W.contents out.old) result (W.contents out.new) (reason_text self.now (texts words.now) outcome.now) }
    {
        if outcome.holds {
            return write_more(out, so_far, b"");
        }
        let so_far = write_more(out, so_far, b"# ");
        let so_far = self.write_difference(out, so_far, words, outcome);
        write_more(out, so_far, b"\n")
    }

    /// Writes the line of a case, which has this number and these words, and if it doesn't hold why.
    fn write_point<W: Write>(
        &self,
        out: &mut W,
        so_far: io::Result<()>,
        number: usize,
        words: Words<'_>,
        outcome: &Outcome,
    ) -> io::Result<()>
        ensures { Continues so_far (W.contents out.old) result (W.contents out.new)
            (point_text self.now number (texts words.now) outcome.now) }
    {
        let so_far = write_more(out, so_far, result_word(outcome.holds));
        let so_far = write_more_number(out, so_far, number as u64);
        let so_far = write_more(out, so_far, b" - line ");
        let so_far = write_more_number(out, so_far, outcome.line as u64);
        let so_far = write_more(out, so_far, b":");
        let so_far = write_spaced(out, so_far, words);
        let so_far = write_more(out, so_far, b"\n");
        self.write_reason(out, so_far, words, outcome)
    }

    /// The same for a case of a file.
    fn write_numbered<W: Write>(
        &self,
        alloc: Global,
        out: &mut W,
        number: usize,
        tried: &Tried<'_>,
        outcome: &Outcome,
    ) -> Result<(), Fault>
        ensures { Writes result (W.contents out.old) (W.contents out.new)
            (point_text self.now number (words_at tried.now outcome.now) outcome.now) }
    {
        let words = words(alloc, tried.line(outcome))?;
        written(self.write_point(out, Ok(()), number, &words, outcome))
    }

    /// Writes the lines of a file's cases, before which so many came.
    fn write_points<W: Write>(
        &self,
        alloc: Global,
        out: &mut W,
        before: usize,
        tried: &Tried<'_>,
    ) -> Result<(), Fault>
        ensures { Writes result (W.contents out.old) (W.contents out.new) (file_points self.now before tried.now) }
    {
        let so_far = write_more(out, Ok(()), b"# ");
        let so_far = write_more(out, so_far, tried.name);
        written(write_more(out, so_far, b"\n"))?;
        for (index, outcome) in tried.outcomes.as_slice().iter().enumerate() {
            self.write_numbered(alloc, out, number_of(before, index), tried, outcome)?;
        }
        Ok(())
    }

    /// Writes the lines of the cases of all files, and returns how many there are; or the greatest number if there are more.
    fn write_all_points<W: Write>(
        &self,
        alloc: Global,
        out: &mut W,
        tried: &[Tried<'_>],
    ) -> Result<usize, Fault>
        ensures text { Writes result (W.contents out.old) (W.contents out.new) (files_points self.now 0 tried.now) }
        ensures count { IfOk result (λ count. count ≡ sayable (case_count tried.now)) }
    {
        let mut count: usize = 0;
        for file in tried {
            self.write_points(alloc, out, count, file)?;
            count = count.saturating_add(file.outcomes.len());
        }
        Ok(count)
    }

    /// Writes a line for each case, in TAP, and how many there are.
    fn report_tap<W: Write>(
        &self,
        alloc: Global,
        out: &mut W,
        tried: &[Tried<'_>],
    ) -> Result<(), Fault>
        ensures { Writes result (W.contents out.old) (W.contents out.new) (tap_text self.now tried.now) }
    {
        written(write_more(out, Ok(()), b"TAP version 13\n"))?;
        let count = self.write_all_points(alloc, out, tried)?;
        written(write_plan(out, Ok(()), count, Tally::of(tried)))?;
        written(out.flush())
    }
}

impl Firewall {
    /// Writes a line for each case, in TAP, and how many there are. `Fault::Output`, `Fault::Memory`: a front of that was written.
    pub fn report_tap<W: Write>(
        &self,
        alloc: Global,
        out: &mut W,
        tried: &[Tried<'_>],
    ) -> Result<(), Fault>
        ensures { Writes result (W.contents out.old) (W.contents out.new) (tap_text (origins_of self.now) tried.now) }
    {
        self.origins().report_tap(alloc, out, tried)
    }
}
