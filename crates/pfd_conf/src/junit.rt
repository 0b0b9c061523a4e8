//! The outcomes of cases in JUnit's XML, as systems of continuous integration read it.
ghost use Rattle.std.specs.Prelude.{◌≡◌, IfOk};
ghost use Rattle.pf_addr.specs.Writing.{Continues, Writes};
ghost use Rattle.pf_form.specs.Form.Words.{texts};
ghost use Rattle.pfd_conf.specs.Firewalls.{origins_of};
ghost use Rattle.pfd_conf.specs.Junit.{escaped, escaped_text, counts_text, name_text, message_text, end_text, element_text, testcase_text, testcases_text, tally_in, suite_head, suite_text, suites_text, head_text, junit_text};

use crate::fault::Fault;
use crate::firewall::{Firewall, Origins};
use crate::outcomes::{Outcome, Tried};
use crate::report::{Tally, count_in, write_spaced, written};
use pf_addr::{write_more, write_more_number};
use pf_form::form::{Words, words};
use std::alloc::Global;
use std::io::{self, Write};

/// A byte of a text as an attribute of XML has it. A byte that XML can't have is a question mark.
fn escaped(byte: &u8) -> &[u8]
    ensures { result.now ≡ escaped byte.now }
{
    match byte {
        b'&' => b"&amp;",
        b'<' => b"&lt;",
        b'>' => b"&gt;",
        b'"' => b"&quot;",
        b'\t' => b"&#9;",
        b'\n' => b"&#10;",
        b'\r' => b"&#13;",
        0..=31 => b"?",
        _ => std::slice::from_ref(byte),
    }
}

/// Writes a text as an attribute's value has it.
fn write_escaped<W: Write>(out: &mut W, begun: io::Result<()>, text: &[u8]) -> io::Result<()>
    ensures { Continues begun (W.contents out.old) result (W.contents out.new) (escaped_text text.now) }
{
    let mut so_far = begun;
    for byte in text {
        so_far = write_more(out, so_far, escaped(byte));
    }
    so_far
}

/// Writes how many cases there are, and how many don't hold, as attributes.
fn write_counts<W: Write>(out: &mut W, so_far: io::Result<()>, tally: Tally) -> io::Result<()>
    ensures { Continues so_far (W.contents out.old) result (W.contents out.new) (counts_text tally) }
{
    let tests = tally.passed.saturating_add(tally.failed);
    let so_far = write_more(out, so_far, b" tests=\"");
    let so_far = write_more_number(out, so_far, tests as u64);
    let so_far = write_more(out, so_far, b"\" failures=\"");
    let so_far = write_more_number(out, so_far, tally.failed as u64);
    write_more(out, so_far, b"\"")
}

/// The name of a case with these words.
fn name_of(alloc: Global, line: usize, words: Words<'_>) -> Result<Vec<u8>, Fault>
    ensures { IfOk result (λ name. name.items ≡ name_text line (texts words.now)) }
{
    let mut name = Vec::new(alloc);
    let so_far = write_more(&mut name, Ok(()), b"line ");
    let so_far = write_more_number(&mut name, so_far, line as u64);
    let so_far = write_more(&mut name, so_far, b":");
    written(write_spaced(&mut name, so_far, words))?;
    Ok(name)
}

/// How many of a file's cases hold, and how many don't.
fn tally_in(tried: &Tried<'_>) -> Tally
    ensures { result ≡ tally_in tried.now }
{
    let outcomes = tried.outcomes.as_slice();
    Tally {
        passed: count_in(outcomes, true),
        failed: count_in(outcomes, false),
    }
}

/// Writes the head of the document.
fn write_head<W: Write>(out: &mut W, so_far: io::Result<()>, tally: Tally) -> io::Result<()>
    ensures { Continues so_far (W.contents out.old) result (W.contents out.new) (head_text tally) }
{
    let head = b"<?xml version=\"1.0\" encoding=\"UTF-8\"?>\n<testsuites";
    let so_far = write_more(out, so_far, head);
    let so_far = write_counts(out, so_far, tally);
    write_more(out, so_far, b">\n")
}

/// Writes the head of the element of a file of cases.
fn write_suite_head<W: Write>(
    out: &mut W,
    so_far: io::Result<()>,
    file: &[u8],
    tally: Tally,
) -> io::Result<()>
    ensures { Continues so_far (W.contents out.old) result (W.contents out.new) (suite_head file.now tally) }
{
    let so_far = write_more(out, so_far, b"  <testsuite name=\"");
    let so_far = write_escaped(out, so_far, file);
    let so_far = write_more(out, so_far, b"\"");
    let so_far = write_counts(out, so_far, tally);
    write_more(out, so_far, b">\n")
}

/// Writes the element of a case of this name: with this message if it doesn't hold.
fn write_element<W: Write>(
    out: &mut W,
    so_far: io::Result<()>,
    file: &[u8],
    name: &[u8],
    holds: bool,
    message: &[u8],
) -> io::Result<()>
    ensures { Continues so_far (W.contents out.old) result (W.contents out.new) (element_text file.now name.now holds message.now) }
{
    let so_far = write_more(out, so_far, b"    <testcase classname=\"");
    let so_far = write_escaped(out, so_far, file);
    let so_far = write_more(out, so_far, b"\" name=\"");
    let so_far = write_escaped(out, so_far, name);
    write_end(out, so_far, holds, message)
}

impl Origins<'_> {
    /// What a case with these words came to, and what was wanted.
    fn message_of(
        &self,
        alloc: Global,
        words: Words<'_>,
        outcome: &Outcome,
    ) -> Result<Vec<u8>, Fault>
        ensures { IfOk result (λ message. message.items ≡ message_text self.now (texts words.now) outcome.now) }
    {
        let mut message = Vec::new(alloc);
        if outcome.holds {
            return Ok(message);
        }
        written(self.write_difference(&mut message, Ok(()), words, outcome))?;
        Ok(message)
    }

    /// Writes the element of a case of a file.
    fn write_testcase<W: Write>(
        &self,
        alloc: Global,
        out: &mut W,
        tried: &Tried<'_>,
        outcome: &Outcome,
    ) -> Result<(), Fault>
        ensures { Writes result (W.contents out.old) (W.contents out.new) (testcase_text self.now tried.now outcome.now) }
    {
        let words = words(alloc, tried.line(outcome))?;
        let name = name_of(alloc, outcome.line, &words)?;
        let message = self.message_of(alloc, &words, outcome)?;
        let holds = outcome.holds;
        written(write_element(out, Ok(()), tried.name, &name, holds, &message))
    }

    /// Writes the elements of a file's cases.
    fn write_testcases<W: Write>(
        &self,
        alloc: Global,
        out: &mut W,
        tried: &Tried<'_>,
    ) -> Result<(), Fault>
        ensures { Writes result (W.contents out.old) (W.contents out.new) (testcases_text self.now tried.now) }
    {
        for outcome in tried.outcomes.as_slice() {
            self.write_testcase(alloc, out, tried, outcome)?;
        }
        Ok(())
    }

    /// Writes the element of a file of cases.
    fn write_suite<W: Write>(
        &self,
        alloc: Global,
        out: &mut W,
        tried: &Tried<'_>,
    ) -> Result<(), Fault>
        ensures { Writes result (W.contents out.old) (W.contents out.new) (suite_text self.now tried.now) }
    {
        written(write_suite_head(out, Ok(()), tried.name, tally_in(tried)))?;
        self.write_testcases(alloc, out, tried)?;
        written(write_more(out, Ok(()), b"  </testsuite>\n"))
    }

    /// Writes the elements of files of cases.
    fn write_suites<W: Write>(
        &self,
        alloc: Global,
        out: &mut W,
        tried: &[Tried<'_>],
    ) -> Result<(), Fault>
        ensures { Writes result (W.contents out.old) (W.contents out.new) (suites_text self.now tried.now) }
    {
        for file in tried {
            self.write_suite(alloc, out, file)?;
        }
        Ok(())
    }

    /// Writes an element for each case, in JUnit's XML.
    fn report_junit<W: Write>(
        &self,
        alloc: Global,
        out: &mut W,
        tried: &[Tried<'_>],
    ) -> Result<(), Fault>
        ensures { Writes result (W.contents out.old) (W.contents out.new) (junit_text self.now tried.now) }
    {
        written(write_head(out, Ok(()), Tally::of(tried)))?;
        self.write_suites(alloc, out, tried)?;
        written(write_more(out, Ok(()), b"</testsuites>\n"))?;
        written(out.flush())
    }
}

impl Firewall {
    /// Writes an element for each case, in JUnit's XML. `Fault::Output`, `Fault::Memory`: a front of that was written.
    pub fn report_junit<W: Write>(
        &self,
        alloc: Global,
        out: &mut W,
        tried: &[Tried<'_>],
    ) -> Result<(), Fault>
        ensures { Writes result (W.contents out.old) (W.contents out.new) (junit_text (origins_of self.now) tried.now) }
    {
        self.origins().report_junit(alloc, out, tried)
    }
}

/// Writes the end of a case's element: with this message if it doesn't hold.
fn write_end<W: Write>(
    out: &mut W,
    so_far: io::Result<()>,
    holds: bool,
    message: &[u8],
) -> io::Result<()>
    ensures { Continues so_far (W.contents out.old) result (W.contents out.new) (end_text holds message.now) }
{
    if holds {
        return write_more(out, so_far, b"\"/>\n");
    }
    let so_far = write_more(out, so_far, b"\"><failure message=\"");
    let so_far = write_escaped(out, so_far, message);
    write_more(out, so_far, b"\"/></testcase>\n")
}
