//! What cases come to.
ghost use Rattle.std.specs.{Prelude.{◌≡◌, ◌++◌, [], Ok, IfOk, IfErr, OnOk}, List.slice_get, Option.option_to_list};
ghost use Rattle.pf_form.specs.Form.Words.{texts, words_of};
ghost use Rattle.pf_rule.specs.Refusals.{reading};
ghost use Rattle.pfd_conf.specs.Case.Cases.{case};
ghost use Rattle.pfd_conf.specs.Outcomes.{Gives, lines_of, line_of, if_some, is_left_out, word_mistake, mistake_at, mistake_of, outcome_of, outcome_or, outcome_at, outcomes_from, outcomes_of, RefusesCases, AreTried};

use crate::case::{Case, passes, read_case};
use crate::fault::{CaseMistake, Fault};
use crate::firewall::{Decided, Firewall};
use pf_form::form::{Kind, Words, is_blank};
use pf_rule::TextFault;
use pf_tokens::{Bytes, Items};
use std::alloc::{AllocError, Global};

/// The most bytes of a file of cases.
pub const CASES_LIMIT: usize = 67_108_864;

/// A file of cases.
#[derive(Drop)]
pub struct Cases {
    pub name: Bytes,
    pub text: Bytes,
}

/// What a case came to.
#[derive(Clone, Copy, Debug, PartialEq, Eq)]
pub struct Outcome {
    /// The line of the case in its file, from 1.
    pub line: usize,
    /// Whether the packet passes.
    pub passes: bool,
    /// The rule that decides; none if the packet passes by default.
    pub decided: Option<Decided>,
    /// Whether that is what is wanted.
    pub holds: bool,
}

/// What the cases of a file came to.
#[derive(Drop)]
pub struct Tried<'a> {
    /// The file's name.
    pub name: &'a [u8],
    /// Its lines, without their newlines.
    pub lines: Items<&'a [u8]>,
    /// What each case came to, in order.
    pub outcomes: Items<Outcome>,
}

impl<'a> Tried<'a> {
    /// The line of an outcome.
    pub(crate) fn line(&self, outcome: &Outcome) -> &'a [u8]
        ensures { result.now ≡ line_of (texts self.now.lines) outcome.now }
    {
        match self.lines.as_slice().get(outcome.line.saturating_sub(1)) {
            Some(line) => line,
            None => b"",
        }
    }
}

/// The lines of a text, without their newlines.
fn lines_of<'a>(alloc: Global, text: &'a [u8]) -> Result<Vec<&'a [u8]>, AllocError>
    ensures { IfOk result (λ v. texts v.items ≡ lines_of text.now) }
{
    text.split(|byte| *byte == b'\n').collect(alloc)
}

/// Appends a word to others, unless it is empty.
fn push_word<'a>(words: &mut Vec<&'a [u8]>, word: &'a [u8]) -> Result<(), AllocError>
    ensures { OnOk result (texts words.new.items ≡ texts words.old.items ++ if_some word.now) }
{
    if !word.is_empty() {
        words.push(word)?;
    }
    Ok(())
}

/// Puts the words of a line in the place of others, which saves an allocation for each line.
fn put_words<'a>(words: &mut Vec<&'a [u8]>, line: &'a [u8]) -> Result<(), AllocError>
    ensures { OnOk result (texts words.new.items ≡ words_of line.now) }
{
    words.clear();
    let mut start = 0;
    for at in 0..line.len() {
        if is_blank(line[at]) {
            push_word(words, &line[start..at])?;
            start = at + 1;
        }
    }
    push_word(words, &line[start..])
}

/// Whether a line with these words has no case: it is blank, or a comment.
fn is_left_out(words: Words<'_>) -> bool
    ensures { result ≡ is_left_out (texts words.now) }
{
    match words {
        [first, ..] => matches!(first, [b'#', ..]),
        [] => true,
    }
}

/// What is wrong with a word at which no text can continue.
fn word_mistake(kind: Kind, word: Bytes) -> CaseMistake
    ensures { result ≡ word_mistake kind word }
{
    match kind {
        Kind::BadWord => CaseMistake::Misplaced(word),
        Kind::NameTooLong => CaseMistake::Long(word),
        Kind::BadProto => CaseMistake::Protocol(word),
    }
}

/// What is wrong at the word of this number: the word itself is, or it is missing.
fn mistake_at(
    alloc: Global,
    words: Words<'_>,
    kind: Kind,
    number: usize,
) -> Result<CaseMistake, AllocError>
    ensures { IfOk result (λ m. m ≡ mistake_at kind (slice_get (texts words.now) number)) }
{
    match words.get(number) {
        Some(word) => Ok(word_mistake(kind, Items::copied(alloc, word)?)),
        None => Ok(CaseMistake::LineEnds),
    }
}

/// What a user is told of words that are no case, or no packet. `AllocError`: out of memory, also when they were read.
pub(crate) fn mistake_of(
    alloc: Global,
    words: Words<'_>,
    fault: TextFault,
) -> Result<CaseMistake, AllocError>
    ensures { IfOk result (λ m. m ≡ mistake_of (texts words.now) fault) }
{
    match fault {
        TextFault::BadWord { at } => mistake_at(alloc, words, Kind::BadWord, at),
        TextFault::NameTooLong { at } => mistake_at(alloc, words, Kind::NameTooLong, at),
        TextFault::BadProto { at } => mistake_at(alloc, words, Kind::BadProto, at),
        TextFault::MixedFamily | TextFault::PortNeedsProto => Ok(CaseMistake::Families),
        TextFault::Memory => Err(AllocError),
    }
}

impl Firewall {
    /// What a case came to that is written on this line.
    fn outcome_of(&self, line: usize, case: &Case) -> Outcome
        ensures { result ≡ outcome_of self.now line case.now }
    {
        let verdict = self.config.judge(&case.packet);
        Outcome {
            line,
            passes: passes(&verdict),
            decided: self.origins().decided(&verdict),
            holds: case.wanted.holds(&verdict),
        }
    }

    /// What the words of a line come to, which are a case.
    fn outcome_or(
        &self,
        alloc: Global,
        file: &[u8],
        line: usize,
        words: Words<'_>,
    ) -> Result<Option<Outcome>, Fault>
        ensures { Gives result (outcome_or self.now file.now line (texts words.now) (reading case (texts words.now))) }
    {
        match read_case(words) {
            Ok(case) => Ok(Some(self.outcome_of(line, &case))),
            Err(fault) => Err(Fault::Case {
                file: Items::copied(alloc, file)?,
                line,
                mistake: mistake_of(alloc, words, fault)?,
            }),
        }
    }

    /// What the case on a line comes to, if it has one; `Fault::Case` if it is neither a case nor left out.
    /// Its words take the place of those of the line before.
    #[tactic(auto, unfolding(crate::specs::Outcomes::outcome_at))]
    fn outcome_at<'a>(
        &self,
        alloc: Global,
        file: &[u8],
        line: usize,
        text: &'a [u8],
        words: &mut Vec<&'a [u8]>,
    ) -> Result<Option<Outcome>, Fault>
        ensures { Gives result (outcome_at self.now file.now line text.now) }
    {
        put_words(words, text)?;
        let words = words.as_slice();
        if is_left_out(words) {
            return Ok(None);
        }
        self.outcome_or(alloc, file, line, words)
    }

    /// What the cases on the lines of a file come to, in order.
    fn outcomes_of(
        &self,
        alloc: Global,
        file: &[u8],
        lines: &[&[u8]],
    ) -> Result<Items<Outcome>, Fault>
        ensures { Gives result (outcomes_from self.now file.now [] 1 (texts lines.now)) }
    {
        let mut outcomes = Items::new(alloc);
        let mut words = Vec::new(alloc);
        for (index, text) in lines.iter().enumerate() {
            let outcome = self.outcome_at(alloc, file, index + 1, text, &mut words)?;
            push_some(&mut outcomes, outcome)?;
        }
        Ok(outcomes)
    }

    /// Judges the cases of a file by the rules and tables of the firewall.
    ///
    /// `Fault::Case`: the first line that is neither a case nor blank nor a comment; `Fault::Memory`: out of memory.
    pub fn tried<'a>(&self, alloc: Global, cases: &'a Cases) -> Result<Tried<'a>, Fault>
        ensures lines { IfOk result (λ t. texts t.lines ≡ lines_of cases.now.text) }
        ensures name { IfOk result (λ t. t.name.now ≡ cases.now.name) }
        ensures outcomes { IfOk result (λ t. outcomes_of self.now cases.now.name cases.now.text ≡ Ok t.outcomes) }
        ensures refused { IfErr result (RefusesCases (outcomes_of self.now cases.now.name cases.now.text)) }
    {
        let name = cases.name.as_slice();
        let lines = lines_of(alloc, cases.text.as_slice())?;
        let outcomes = self.outcomes_of(alloc, name, &lines)?;
        Ok(Tried {
            name,
            lines: Items::of(lines),
            outcomes,
        })
    }

    /// The same for several files, up to the first fault.
    pub fn judged<'a>(&self, alloc: Global, files: &'a [Cases]) -> Result<Vec<Tried<'a>>, Fault>
        ensures { IfOk result (λ v. AreTried self.now files.now v.items) }
    {
        let mut tried = Vec::new(alloc);
        for cases in files {
            tried.push(self.tried(alloc, cases)?)?;
        }
        Ok(tried)
    }
}

/// Appends an outcome, if there is one.
fn push_some(outcomes: &mut Items<Outcome>, outcome: Option<Outcome>) -> Result<(), AllocError>
    ensures { OnOk result (outcomes.new ≡ outcomes.old ++ option_to_list outcome) }
{
    match outcome {
        Some(outcome) => outcomes.push(outcome),
        None => Ok(()),
    }
}
