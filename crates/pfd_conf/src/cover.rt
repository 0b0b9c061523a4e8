//! Rules that decide no case.
ghost use Rattle.std.specs.Prelude.{◌≡◌, ◌++◌, ◌==◌, ◌||◌, ℕ, Bool, length, IfOk, OnOk, IfErr};
ghost use Rattle.pf_addr.specs.Writing.{Continues, Writes};
ghost use Rattle.pf_rule.specs.RuleText.{rule_text};
ghost use Rattle.pfd_conf.specs.Firewalls.{origins_of};
ghost use Rattle.pfd_conf.specs.Covering.{is_deciding, is_of, decides_any, decides_some, AreMarks, unmarked_from, uncovered_of, deciding_count, count_text, sign_text, place_front, rule_line, line_of_rule, lines_of_rules, cover_text};

use crate::fault::Fault;
use crate::firewall::{Decided, Firewall, Origins, is_in, write_place};
use crate::outcomes::{Outcome, Tried};
use crate::report::written;
use pf_addr::{write_more, write_more_number};
use pf_conf::{At, Ruleset};
use pf_rule::{Effect, Rule};
use pf_tokens::{Files, Items, Place};
use std::alloc::{AllocError, Global};
use std::io::{self, Write};

/// Whether a rule decides if it matches; an anchor rule doesn't.
fn is_deciding(rule: &Rule) -> bool
    ensures { result ≡ is_deciding rule.now }
{
    matches!(rule.effect(), Effect::Decide(_))
}

/// Marks the rule of the ruleset with this number that decides, if one of its does.
fn mark(marks: &mut Vec<bool>, within: usize, decided: Option<Decided>)
    ensures { (P : ℕ → Bool) (count : ℕ) → AreMarks P count marks.old.items
        → AreMarks (λ k. P k || is_of within k decided) count marks.new.items }
{
    if let Some(decided) = decided {
        if decided.within == within && decided.number < marks.len() {
            marks[decided.number] = true;
        }
    }
}

/// The same for each outcome.
fn mark_all(marks: &mut Vec<bool>, within: usize, outcomes: &[Outcome])
    ensures { (P : ℕ → Bool) (count : ℕ) → AreMarks P count marks.old.items
        → AreMarks (λ k. P k || decides_any within k outcomes.now) count marks.new.items }
{
    for outcome in outcomes {
        mark(marks, within, outcome.decided);
    }
}

/// Which rules of the ruleset with this number, which has so many, decide a case.
fn marks(
    alloc: Global,
    tried: &[Tried<'_>],
    within: usize,
    count: usize,
) -> Result<Vec<bool>, AllocError>
    ensures { IfOk result (λ marks. AreMarks (λ k. decides_some within k tried.now) count marks.items) }
{
    let mut marks = vec![in alloc; false; count]?;
    for file in tried {
        mark_all(&mut marks, within, file.outcomes.as_slice());
    }
    Ok(marks)
}

/// Appends those rules of the ruleset with this number that could decide, and whose marks aren't set.
fn add_unmarked(
    unmarked: &mut Items<Decided>,
    within: usize,
    rules: &[At<Rule>],
    marks: &[bool],
) -> Result<(), AllocError>
    ensures { OnOk result (unmarked.new ≡ unmarked.old ++ unmarked_from within 0 marks.now rules.now) }
{
    for (number, rule) in rules.iter().enumerate() {
        let is_marked = marks.get(number).copied().unwrap_or(false);
        if is_deciding(&rule.is) && !is_marked {
            unmarked.push(Decided { within, number })?;
        }
    }
    Ok(())
}

/// How many rules could decide; or the greatest number if there are more.
fn deciding_count(rulesets: &[Ruleset]) -> usize
    ensures { result ≡ deciding_count rulesets.now }
{
    let mut count: usize = 0;
    for ruleset in rulesets {
        let rules = ruleset.rules.as_slice().iter();
        count = count.saturating_add(rules.filter(|rule| is_deciding(&rule.is)).count());
    }
    count
}

/// Writes a rule.
fn write_rule_text<W: Write>(out: &mut W, so_far: io::Result<()>, rule: &Rule) -> io::Result<()>
    ensures { Continues so_far (W.contents out.old) result (W.contents out.new) (rule_text rule.now) }
{
    match so_far {
        Ok(()) => rule.write(out),
        Err(error) => Err(error),
    }
}

/// Writes how many rules decide a case, of how many that could.
fn write_count<W: Write>(
    out: &mut W,
    so_far: io::Result<()>,
    uncovered: usize,
    deciding: usize,
) -> io::Result<()>
    ensures { Continues so_far (W.contents out.old) result (W.contents out.new) (count_text uncovered deciding) }
{
    let covered = deciding.saturating_sub(uncovered);
    let so_far = write_more_number(out, so_far, covered as u64);
    let so_far = write_more(out, so_far, b" of ");
    let so_far = write_more_number(out, so_far, deciding as u64);
    write_more(out, so_far, b" rules decide a case\n")
}

/// What comes before a rule's number, behind its path if it has one.
fn sign(path: &[u8]) -> &'static [u8]
    ensures { result.now ≡ sign_text path.now }
{
    if path.is_empty() { b"@" } else { b" @" }
}

/// Writes a place with a colon and a space behind it, if it is in one of these files.
fn write_front<W: Write>(
    out: &mut W,
    so_far: io::Result<()>,
    files: &Files,
    place: Place,
) -> io::Result<()>
    ensures { Continues so_far (W.contents out.old) result (W.contents out.new) (place_front files.now place) }
{
    if !is_in(files, place) {
        return write_more(out, so_far, b"");
    }
    let so_far = write_place(out, so_far, files, place);
    let so_far = write_more(out, so_far, b":");
    let so_far = write_more_number(out, so_far, u64::from(place.column));
    write_more(out, so_far, b": ")
}

impl Origins<'_> {
    /// Writes the line of a rule: its place, its ruleset's path unless that is main's, its number and its text.
    fn write_rule<W: Write>(
        &self,
        out: &mut W,
        so_far: io::Result<()>,
        path: &[u8],
        number: usize,
        rule: &At<Rule>,
    ) -> io::Result<()>
        ensures { Continues so_far (W.contents out.old) result (W.contents out.new)
            (rule_line self.now.files path.now number rule.now) }
    {
        let so_far = write_front(out, so_far, self.files(), rule.place);
        let so_far = write_more(out, so_far, path);
        let so_far = write_more(out, so_far, sign(path));
        let so_far = write_more_number(out, so_far, number as u64);
        let so_far = write_more(out, so_far, b" ");
        let so_far = write_rule_text(out, so_far, &rule.is);
        write_more(out, so_far, b"\n")
    }

    /// Writes the line of a rule of the file, if it has this one.
    pub(crate) fn write_line<W: Write>(
        &self,
        out: &mut W,
        so_far: io::Result<()>,
        decided: Decided,
    ) -> io::Result<()>
        ensures { Continues so_far (W.contents out.old) result (W.contents out.new)
            (line_of_rule self.now.files self.now.rulesets decided) }
    {
        let ruleset = self.rulesets().get(decided.within);
        match (ruleset, self.rule_at(decided)) {
            (Some(ruleset), Some(rule)) => {
                let path = ruleset.path.as_bytes();
                self.write_rule(out, so_far, path, decided.number, rule)
            }
            _ => write_more(out, so_far, b""),
        }
    }

    /// Writes the lines of rules.
    fn write_lines<W: Write>(
        &self,
        out: &mut W,
        begun: io::Result<()>,
        rules: &[Decided],
    ) -> io::Result<()>
        ensures { Continues begun (W.contents out.old) result (W.contents out.new)
            (lines_of_rules self.now.files self.now.rulesets rules.now) }
    {
        let mut so_far = begun;
        for rule in rules {
            so_far = self.write_line(out, so_far, *rule);
        }
        so_far
    }

    /// The rules that could decide, and decide none of these cases, in order.
    fn uncovered(&self, alloc: Global, tried: &[Tried<'_>]) -> Result<Items<Decided>, AllocError>
        ensures { IfOk result (λ rules. rules ≡ uncovered_of tried.now self.now.rulesets) }
    {
        let mut uncovered = Items::new(alloc);
        for (within, ruleset) in self.rulesets().iter().enumerate() {
            let rules = ruleset.rules.as_slice();
            let marks = marks(alloc, tried, within, rules.len())?;
            add_unmarked(&mut uncovered, within, rules, &marks)?;
        }
        Ok(uncovered)
    }

    /// Writes the line of each rule that decides none of these cases, and how many rules decide one. Returns whether all do that could.
    fn cover<W: Write>(
        &self,
        alloc: Global,
        out: &mut W,
        tried: &[Tried<'_>],
    ) -> Result<bool, Fault>
        ensures text { Writes result (W.contents out.old) (W.contents out.new) (cover_text self.now tried.now) }
        ensures all { IfOk result (λ all. all ≡ (length (uncovered_of tried.now self.now.rulesets) == 0)) }
    {
        let uncovered = self.uncovered(alloc, tried)?;
        let deciding = deciding_count(self.rulesets());
        let so_far = self.write_lines(out, Ok(()), uncovered.as_slice());
        written(write_count(out, so_far, uncovered.len(), deciding))?;
        written(out.flush())?;
        Ok(uncovered.len() == 0)
    }
}

impl Firewall {
    /// The rules that could decide, and decide none of these cases, in order.
    pub fn uncovered(
        &self,
        alloc: Global,
        tried: &[Tried<'_>],
    ) -> Result<Items<Decided>, AllocError>
        ensures { IfOk result (λ rules. rules ≡ uncovered_of tried.now self.now.taken.conf.rulesets) }
    {
        self.origins().uncovered(alloc, tried)
    }

    /// Writes the line of each rule that decides none of these cases, and how many rules decide one. Returns whether all do that could.
    /// `Fault::Output`: a front of that was written; `Fault::Memory`: nothing was.
    pub fn cover<W: Write>(
        &self,
        alloc: Global,
        out: &mut W,
        tried: &[Tried<'_>],
    ) -> Result<bool, Fault>
        ensures text { Writes result (W.contents out.old) (W.contents out.new) (cover_text (origins_of self.now) tried.now) }
        ensures all { IfOk result (λ all. all ≡ (length (uncovered_of tried.now self.now.taken.conf.rulesets) == 0)) }
    {
        self.origins().cover(alloc, out, tried)
    }
}
