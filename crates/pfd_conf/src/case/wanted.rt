//! What is wanted of a verdict.
ghost use Rattle.std.specs.Prelude.{◌≡◌};
ghost use Rattle.pf_form.specs.Form.Readers.{Moves};
ghost use Rattle.pfd_conf.specs.Case.Cases.{a_number, number_of_rule, a_path, place, by_rule, by_any, wanted, wants, decides};

use crate::case::verdict::passes;
use pf_addr::path::Path;
use pf_anchor::RuleVerdict;
use pf_form::form::{Kind, WordFault, Words, expect, read_number, takes};
use pf_rule::take_word;

/// Which rule is wanted to decide.
#[derive(Drop)]
pub enum Decider {
    /// Any rule, or none.
    Any,
    /// No rule: the packet passes by default.
    Default,
    /// This one: its number from 0, and its ruleset's path.
    Rule { number: u32, path: Path },
}

/// What is wanted of a verdict.
#[derive(Drop)]
pub struct Wanted {
    /// Whether the packet is to pass.
    pub passes: bool,
    pub decider: Decider,
}

// The most digits of a rule's number.
const NUMBER_DIGITS: usize = 10;

fn number_of(word: &[u8]) -> Result<u32, Kind>
    ensures { result ≡ number_of_rule word.now }
{
    match read_number(word, NUMBER_DIGITS) {
        Some(number) if number <= 4_294_967_295 => Ok(number as u32),
        _ => Err(Kind::BadWord),
    }
}

fn number_word<'a>(words: &mut Words<'a>) -> Result<u32, WordFault>
    ensures { Moves a_number result words.old.now words.new.now }
{
    take_word!(words, word => number_of(word))
}

fn path_word<'a>(words: &mut Words<'a>) -> Result<Path, WordFault>
    ensures { Moves a_path result words.old.now words.new.now }
{
    take_word!(words, word => Path::from_ascii(word))
}

/// Where a rule is: in the main ruleset unless a path is named.
fn read_place<'a>(words: &mut Words<'a>) -> Result<Path, WordFault>
    ensures { Moves place result words.old.now words.new.now }
{
    if takes(words, b"at") {
        return path_word(words);
    }
    Ok(Path::main())
}

#[tactic(auto, unfolding(crate::specs::Case::Cases::by_rule))]
fn read_rule<'a>(words: &mut Words<'a>) -> Result<Decider, WordFault>
    ensures { Moves by_rule result words.old.now words.new.now }
{
    if !takes(words, b"rule") {
        return Ok(Decider::Any);
    }
    let number = number_word(words)?;
    let path = read_place(words)?;
    Ok(Decider::Rule { number, path })
}

#[tactic(auto, unfolding(crate::specs::Case::Cases::by_any))]
fn read_passing<'a>(words: &mut Words<'a>) -> Result<Decider, WordFault>
    ensures { Moves by_any result words.old.now words.new.now }
{
    if takes(words, b"default") {
        return Ok(Decider::Default);
    }
    read_rule(words)
}

/// Reads what is wanted from the front of the remaining words: `pass` or `block`, which may be followed by `rule N` or `rule N at PATH`;
/// or `pass default`. A refusal is at the first word at which no such text can continue.
#[tactic(auto, unfolding(crate::specs::Case::Cases::wanted))]
pub fn read_wanted<'a>(words: &mut Words<'a>) -> Result<Wanted, WordFault>
    ensures { Moves wanted result words.old.now words.new.now }
{
    if takes(words, b"pass") {
        let decider = read_passing(words)?;
        return Ok(Wanted {
            passes: true,
            decider,
        });
    }
    expect(words, b"block")?;
    let decider = read_rule(words)?;
    Ok(Wanted {
        passes: false,
        decider,
    })
}

impl Decider {
    /// Whether it decided this verdict.
    fn decides(&self, verdict: &RuleVerdict) -> bool
        ensures { result ≡ decides self.now verdict.now }
    {
        match (self, verdict) {
            (Decider::Any, _) | (Decider::Default, RuleVerdict::Default) => true,
            (
                Decider::Rule { number, path },
                RuleVerdict::Rule {
                    path: found,
                    number: found_number,
                    ..
                },
            ) => *number == *found_number && path.same(found),
            _ => false,
        }
    }
}

impl Wanted {
    /// Whether this verdict is what is wanted.
    pub fn holds(&self, verdict: &RuleVerdict) -> bool
        ensures { result ≡ wants self.now verdict.now }
    {
        self.passes == passes(verdict) && self.decider.decides(verdict)
    }
}
