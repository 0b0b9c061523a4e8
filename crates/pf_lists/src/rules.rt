//! The rules that lists stand for.
ghost use Rattle.std.specs.{Prelude.{◌≡◌, ◌<◌, ◌++◌, OnOk}, Option.option_to_list};
ghost use Rattle.pf_form.specs.Form.Words.{texts};
ghost use Rattle.pf_lists.specs.declared.rules.ListStop.TheVariants.{Faulty, Memory};
ghost use Rattle.pf_lists.specs.{Product.{count, spelled, numbered}, Multiplied.{Gives, icmp_fault, rule_of, rules_of, multiplied}};

use crate::product::{Lists, Words, count_of, words_of};
use pf_addr::Family;
use pf_form::form::Words as RuleWords;
use pf_rule::{Mistake as RuleMistake, Protocol, Rule};
use pf_tokens::Items;
use std::alloc::{AllocError, AllocFailed, Global};
use thiserror::Error;

/// The most ways of taking one item of each list.
pub const COMBINATION_LIMIT: usize = 65_536;

/// What is wrong with a rule that has lists. The text of each is what a user is told.
#[derive(Clone, Copy, Debug, PartialEq, Eq, Error)]
pub enum Mistake {
    #[error("a rule has 65,536 combinations at most")]
    ManyCombinations,
    #[error("the words are no rule")]
    NoRule,
    #[error("ports are tested with tcp and udp alone")]
    PortsWithoutProtocol,
    #[error("proto icmp doesn't match inet6")]
    IcmpOfV6,
    #[error("proto icmp6 doesn't match inet")]
    Icmp6OfV4,
    #[error("the rule expands to no valid combination")]
    NoCombination,
}

/// Why lists stand for no rules.
#[derive(Clone, Copy, Debug, PartialEq, Eq)]
pub enum ListStop {
    Faulty(Mistake),
    /// Out of memory.
    Memory,
}

impl From<Mistake> for ListStop {
    ghost from_gives = { λ mistake stop. stop ≡ Faulty mistake };

    fn from(mistake: Mistake) -> ListStop {
        ListStop::Faulty(mistake)
    }
}

impl From<AllocError> for ListStop {
    ghost from_gives = { λ _ stop. stop ≡ Memory };

    fn from(_e: AllocError) -> ListStop {
        ListStop::Memory
    }
}

impl<T: Drop> From<AllocFailed<T>> for ListStop {
    ghost from_gives = { λ _ stop. stop ≡ Memory };

    fn from(_e: AllocFailed<T>) -> ListStop {
        ListStop::Memory
    }
}

/// What is wrong with a rule's protocol and its family, if anything.
fn icmp_mistake(protocol: Option<Protocol>, family: Option<Family>) -> Option<Mistake>
    ensures { result ≡ icmp_fault protocol family }
{
    let number = protocol?.number();
    match family? {
        Family::V6 if number == Protocol::ICMP => Some(Mistake::IcmpOfV6),
        Family::V4 if number == Protocol::ICMP6 => Some(Mistake::Icmp6OfV4),
        _ => None,
    }
}

/// The rule that these words are; none if its families differ.
#[tactic(auto, unfolding(crate::specs::Multiplied::rule_of))]
fn rule_of<'a>(words: RuleWords<'a>) -> Result<Option<Rule>, Mistake>
    ensures { result ≡ rule_of (texts words.now) }
{
    let mut rest = words;
    match Rule::read(&mut rest) {
        Ok(Ok(rule)) if rest.is_empty() => {
            match icmp_mistake(rule.protocol(), rule.family()) {
                Some(mistake) => Err(mistake),
                None => Ok(Some(rule)),
            }
        }
        Ok(Err(RuleMistake::MixedFamily)) => Ok(None),
        Ok(Err(RuleMistake::PortNeedsProto)) => Err(Mistake::PortsWithoutProtocol),
        _ => Err(Mistake::NoRule),
    }
}

/// The rule of the way with this number, of so many; none if its families differ.
fn rule_numbered(
    alloc: Global,
    lists: &[Items<Words>],
    number: usize,
    ways: usize,
) -> Result<Option<Rule>, ListStop>
    requires all { ways ≡ count lists.now }
    requires one { number < ways }
    ensures { Gives result (rule_of (numbered lists.now number)) }
{
    let words = words_of(alloc, lists, number, ways)?;
    Ok(rule_of(&words)?)
}

/// Appends a rule, if there is one.
fn push_some(rules: &mut Items<Rule>, rule: Option<Rule>) -> Result<(), AllocError>
    ensures { OnOk result (rules.new ≡ rules.old ++ option_to_list rule) }
{
    match rule {
        Some(rule) => rules.push(rule),
        None => Ok(()),
    }
}

/// The rules of all ways, of which there are so many, in order.
fn rules_of(alloc: Global, lists: &[Items<Words>], ways: usize) -> Result<Items<Rule>, ListStop>
    requires { ways ≡ count lists.now }
    ensures { Gives result (rules_of (spelled lists.now)) }
{
    let mut rules = Items::new(alloc);
    for number in 0..ways {
        let rule = rule_numbered(alloc, lists, number, ways)?;
        push_some(&mut rules, rule)?;
    }
    Ok(rules)
}

/// The rules that lists stand for, in order: those of their product, but for ways whose families differ. `ListStop::Faulty`: what is wrong
/// with the first way that is no rule, or with the lists as a whole; `ListStop::Memory`: out of memory.
pub fn multiply(alloc: Global, lists: &Lists) -> Result<Items<Rule>, ListStop>
    ensures { Gives result (multiplied lists.now) }
{
    let lists = lists.as_slice();
    let ways = count_of(lists);
    if ways > COMBINATION_LIMIT {
        return Err(ListStop::Faulty(Mistake::ManyCombinations));
    }
    let rules = rules_of(alloc, lists, ways)?;
    if rules.len() == 0 {
        return Err(ListStop::Faulty(Mistake::NoCombination));
    }
    Ok(rules)
}
