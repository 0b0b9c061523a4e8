//! The rulesets of a file.
ghost use Rattle.std.specs.Prelude.{◌≡◌, ◌++◌, ◌∷◌, [], map, OnOk};
ghost use Rattle.pf_lists.specs.Multiplied.{multiplied};
ghost use Rattle.pf_parse.specs.Stops.{Gives};
ghost use Rattle.pf_sources.specs.Steps.{each, Leaves};
ghost use Rattle.pf_conf.specs.Rulesets.{rule_at, rules_at, with_product, written_in, skips_in, rules_in, with_rules, free_path, path_of_braces, with_braces, with_rulesets};

use crate::found::{Found, RULE_LIMIT, Ruleset, path_text};
use pf_addr::path::Path;
use pf_lists::{ListStop, multiply};
use pf_parse::{At, Braces, Mistake, Product, Stop, Tree, Written, refusal};
use pf_rule::Rule;
use pf_tokens::{Items, Place};
use std::alloc::{AllocError, Global};

/// The rules that a written one stands for.
fn rules_of(alloc: Global, product: &Product) -> Result<Items<Rule>, Stop>
    ensures { Gives result (rules_at product.now.place (multiplied product.now.lists)) }
{
    match multiply(alloc, &product.lists) {
        Ok(rules) => Ok(rules),
        Err(ListStop::Faulty(mistake)) => Err(refusal(product.place, Mistake::Lists(mistake))),
        Err(ListStop::Memory) => Err(Stop::Memory),
    }
}

/// Appends rules that were written at this place.
fn push_rules(
    rules: &mut Items<At<Rule>>,
    place: Place,
    more: Items<Rule>,
) -> Result<(), AllocError>
    ensures { OnOk result (rules.new ≡ rules.old ++ map (rule_at place) more) }
{
    for rule in more.into_items() {
        rules.push(At { place, is: rule })?;
    }
    Ok(())
}

/// Appends the rules that a written one stands for.
#[tactic(auto, unfolding(crate::specs::Rulesets::with_product))]
fn add_product(alloc: Global, product: &Product, rules: &mut Items<At<Rule>>) -> Result<(), Stop>
    ensures { Leaves result rules.new (with_product product.now rules.old) }
{
    let more = rules_of(alloc, product)?;
    if rules.len().saturating_add(more.len()) > RULE_LIMIT {
        return Err(refusal(product.place, Mistake::ManyRules));
    }
    push_rules(rules, product.place, more)?;
    Ok(())
}

/// Appends the rules that these stand for.
fn add_products(
    alloc: Global,
    products: &[Product],
    rules: &mut Items<At<Rule>>,
) -> Result<(), Stop>
    ensures { Leaves result rules.new (each with_product products.now rules.old) }
{
    for product in products {
        add_product(alloc, product, rules)?;
    }
    Ok(())
}

/// Appends the rules of a written one, if it stands in the braces of this number.
fn add_written(
    alloc: Global,
    written: &Written,
    number: usize,
    rules: &mut Items<At<Rule>>,
) -> Result<(), Stop>
    ensures { Leaves result rules.new (each with_product (written_in number (written.now ∷ [])) rules.old) }
{
    if written.within != number {
        return Ok(());
    }
    add_product(alloc, &written.product, rules)
}

/// Appends the rules that are written in the braces of this number.
fn add_all_written(
    alloc: Global,
    all: &[Written],
    number: usize,
    rules: &mut Items<At<Rule>>,
) -> Result<(), Stop>
    ensures { Leaves result rules.new (each with_product (written_in number all.now) rules.old) }
{
    for written in all {
        add_written(alloc, written, number, rules)?;
    }
    Ok(())
}

/// Appends the rules of skipped interfaces, if this is the number of a file's own rules.
fn add_skips(
    alloc: Global,
    tree: &Tree,
    number: usize,
    rules: &mut Items<At<Rule>>,
) -> Result<(), Stop>
    ensures { Leaves result rules.new (each with_product (skips_in number tree.now) rules.old) }
{
    if number != 0 {
        return Ok(());
    }
    add_products(alloc, tree.skips.as_slice(), rules)
}

/// The rules of the braces of this number.
#[tactic(auto, unfolding(crate::specs::Rulesets::rules_in))]
fn rules_in(alloc: Global, number: usize, tree: &Tree) -> Result<Items<At<Rule>>, Stop>
    ensures { Gives result (rules_in number tree.now) }
{
    let mut rules = Items::new(alloc);
    add_skips(alloc, tree, number, &mut rules)?;
    add_all_written(alloc, tree.rules.as_slice(), number, &mut rules)?;
    Ok(rules)
}

/// The path of braces, given those of the braces that opened before them, if it isn't too long.
fn path_of_braces(paths: &[Path], braces: &Braces) -> Option<Path>
    ensures { result ≡ path_of_braces paths.now braces.now }
{
    let outer = match paths.get(braces.within) {
        Some(outer) => outer.copied(),
        None => Path::main(),
    };
    outer.joined(braces.name.as_slice())
}

impl Found {
    /// The path, if it can have rules. A fault is at this place.
    fn free_path(&self, alloc: Global, place: Place, path: Option<Path>) -> Result<Path, Stop>
        ensures { Gives result (free_path place path self.now) }
    {
        let Some(path) = path else {
            return Err(refusal(place, Mistake::LongPath));
        };
        if self.has_rules(&path) {
            let path = Items::copied(alloc, path_text(&path))?;
            return Err(refusal(place, Mistake::RulesTwice(path)));
        }
        if self.is_full() {
            return Err(refusal(place, Mistake::ManyRulesets));
        }
        Ok(path)
    }

    /// Adds the rules of the braces of this number as those of a path.
    #[tactic(auto, unfolding(crate::specs::Rulesets::with_rules))]
    fn add_ruleset(
        &mut self,
        alloc: Global,
        path: Path,
        number: usize,
        tree: &Tree,
    ) -> Result<(), Stop>
        ensures { Leaves result self.new (with_rules path number tree.now self.old) }
    {
        let rules = rules_in(alloc, number, tree)?;
        self.rulesets.push(Ruleset { path, rules })?;
        Ok(())
    }

    /// Adds the rules in these braces, given the paths of the braces that opened before them, and appends their path.
    #[tactic(auto, unfolding(crate::specs::Rulesets::with_braces))]
    fn add_braces(
        &mut self,
        alloc: Global,
        tree: &Tree,
        braces: &Braces,
        paths: &mut Items<Path>,
    ) -> Result<(), Stop>
        ensures { Leaves result (paths.new, self.new) (with_braces tree.now braces.now (paths.old, self.old)) }
    {
        let path = path_of_braces(paths.as_slice(), braces);
        let path = self.free_path(alloc, braces.place, path)?;
        let number = paths.len();
        paths.push(path.copied())?;
        self.add_ruleset(alloc, path, number, tree)
    }

    /// Adds the rules in all of these braces, given the paths of those that opened before them.
    fn add_all_braces(
        &mut self,
        alloc: Global,
        tree: &Tree,
        all: &[Braces],
        paths: &mut Items<Path>,
    ) -> Result<(), Stop>
        ensures { Leaves result (paths.new, self.new) (each (with_braces tree.now) all.now (paths.old, self.old)) }
    {
        for braces in all {
            self.add_braces(alloc, tree, braces, paths)?;
        }
        Ok(())
    }

    /// Adds the rules of a file, and those in its braces below its path.
    #[tactic(auto, unfolding(crate::specs::Rulesets::with_rulesets))]
    pub(crate) fn add_rulesets(
        &mut self,
        alloc: Global,
        path: &Path,
        tree: &Tree,
    ) -> Result<(), Stop>
        ensures { Leaves result self.new (with_rulesets path.now tree.now self.old) }
    {
        let mut paths = Items::new(alloc);
        paths.push(path.copied())?;
        self.add_ruleset(alloc, path.copied(), 0, tree)?;
        self.add_all_braces(alloc, tree, tree.braces.as_slice(), &mut paths)
    }
}
