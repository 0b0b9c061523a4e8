//! The active rulesets.
ghost use Rattle.std.specs.Prelude.{◌≡◌, ℕ, true, IfOk};
ghost use Rattle.pf_rule.specs.Sum.Layouts.{has_labels};
ghost use Rattle.pf_anchor.specs.Forms.{ruled_length};

use crate::rule_list::RuleList;
use pf_addr::path::Path;
use pf_map::{Each, KeyValue, PagedMap, Weigher};
use pf_rule::sum::RULE_FORM;
use std::alloc::{AllocError, Global};

/// A ruleset at its path, shared by all its holders: path and rules are stored once. Contracts see it as a `PlainPlaced`.
pub type Placed = KeyValue<Path, RuleList>;

/// How many bytes a ruleset takes where it is kept, in each version that has labels: a path after its length, and rules after their
/// number. It looks at no rule.
#[tactic(auto, using(crate::proofs::Lengths::ruled_long, crate::proofs::Lengths::path_short, crate::proofs::Labels::all_allowed))]
pub fn ruleset_length(placed: &Placed) -> u32
    ensures { (version : ℕ) → has_labels version ≡ true → result ≡ ruled_length version placed.now }
{
    let path = placed.key().as_bytes();
    let rules = placed.value();
    (5 + path.len() + RULE_FORM * rules.as_slice().len() + rules.labels_length()) as u32
}

/// The weight of a ruleset: the bytes that it takes where it is kept, in the first version that has labels and so in each that does.
pub(crate) struct RulesetBytes;

impl Weigher<Path, RuleList> for RulesetBytes {
    ghost use Rattle.pf_rule.specs.declared.sum.layout.TheConstants.{LABELS_FROM};
    ghost use Rattle.pf_anchor.specs.Forms.{ruled_length};

    ghost weight = { ruled_length LABELS_FROM };

    fn weigh(placed: &Placed) -> u32 {
        ruleset_length(placed)
    }
}

/// The rulesets that have rules, in the order of their paths, and how many bytes they take. Contracts see it as the list.
pub(crate) type Rulesets = PagedMap<Path, RuleList, RulesetBytes>;

/// An iterator over rulesets in the order of their paths. Contracts see those that are still to come.
pub type EachRuleset<'a> = Each<'a, Path, RuleList>;

// The same ruleset, with its rules in columns.
fn columned(alloc: Global, placed: &Placed) -> Result<Placed, AllocError>
    ensures { IfOk result (λ p. p ≡ placed.now) }
{
    let rules = placed.value();
    if rules.has_columns() {
        return placed.shared();
    }
    Placed::new(alloc, placed.key().copied(), rules.with_columns(alloc)?)
}

/// The same rulesets, each with its rules in columns, as active ones are. `AllocError`: nothing is made.
pub(crate) fn in_columns(alloc: Global, items: &[Placed]) -> Result<Vec<Placed>, AllocError>
    ensures { IfOk result (λ v. v.items ≡ items.now) }
{
    let mut made = Vec::with_capacity(alloc, items.len())?;
    for placed in items {
        made.push(columned(alloc, placed)?)?;
    }
    Ok(made)
}
