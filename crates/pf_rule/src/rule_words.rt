//! How a rule's text begins, and reading the parts of a rule, each from the front of the remaining words.
ghost use Rattle.pf_form.specs.Form.Readers.{Moves};
ghost use Rattle.pf_rule.specs.RuleGrammar.{a_reference, label, opening, state};

use crate::take_word;
use crate::value::{Label, label_word};
use pf_addr::path::Reference;
use pf_form::form::{WordFault, Words, expect, takes};

/// How a rule's text begins.
#[derive(Clone, Copy)]
pub(crate) enum RuleStart {
    /// `pass`.
    Pass,
    /// `block`.
    Block,
    /// `anchor` and what it names.
    Anchor(Reference),
}

fn reference_word<'a>(words: &mut Words<'a>) -> Result<Reference, WordFault>
    ensures { Moves a_reference result words.old.now words.new.now }
{
    take_word!(words, word => Reference::from_ascii(word))
}

/// How a rule begins.
#[tactic(auto, unfolding(crate::specs::RuleGrammar::opening))]
pub(crate) fn read_opening<'a>(words: &mut Words<'a>) -> Result<RuleStart, WordFault>
    ensures { Moves opening result words.old.now words.new.now }
{
    if takes(words, b"pass") {
        return Ok(RuleStart::Pass);
    }
    if takes(words, b"block") {
        let _drops = takes(words, b"drop");
        return Ok(RuleStart::Block);
    }
    expect(words, b"anchor")?;
    Ok(RuleStart::Anchor(reference_word(words)?))
}

/// Whether a rule keeps state. Only a pass rule has the option, and it keeps state if nothing is said.
#[tactic(auto, unfolding(crate::specs::RuleGrammar::state))]
pub(crate) fn read_state<'a>(passes: bool, words: &mut Words<'a>) -> Result<bool, WordFault>
    ensures { Moves (state passes) result words.old.now words.new.now }
{
    if !passes {
        return Ok(false);
    }
    if takes(words, b"keep") {
        expect(words, b"state")?;
        return Ok(true);
    }
    if takes(words, b"no") {
        expect(words, b"state")?;
        return Ok(false);
    }
    Ok(true)
}

/// The label of a rule, if there is one. Only a rule that decides has the option.
#[tactic(auto, unfolding(crate::specs::RuleGrammar::label))]
pub(crate) fn read_label<'a>(
    decides: bool,
    words: &mut Words<'a>,
) -> Result<Option<Label>, WordFault>
    ensures { Moves (label decides) result words.old.now words.new.now }
{
    if !decides || !takes(words, b"label") {
        return Ok(None);
    }
    Ok(Some(label_word(words)?))
}
