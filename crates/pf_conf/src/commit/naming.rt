//! The rulesets that a load replaces, and their tickets.
ghost use Rattle.std.specs.Prelude.{◌≡◌, ◌++◌, IfOk, OnOk, map};
ghost use Rattle.pf_ticket.specs.Names.{table_ruleset_at};
ghost use Rattle.pf_conf.specs.Commit.Naming.{is_among, table_paths, filter_of, ruleset_names, ticket_of};

use crate::found::{Conf, FilledTable, Ruleset};
use pf_addr::path::Path;
use pf_ticket::RulesetName;
use pf_tokens::Bytes;
use std::alloc::{AllocError, Global};

/// A ruleset that was begun, and its ticket as it was given.
#[derive(Drop)]
pub struct Begun {
    pub name: RulesetName,
    pub ticket: Bytes,
}

fn is_among(paths: &[Path], path: &Path) -> bool
    ensures { result ≡ is_among path.now paths.now }
{
    paths.iter().any(|known| known.same(path))
}

/// The paths at which tables are filled, each once. `AllocError`: out of memory.
#[tactic(auto, using(crate::proofs::CommitSteps::one_more_path))]
pub fn table_paths(alloc: Global, tables: &[FilledTable]) -> Result<Vec<Path>, AllocError>
    ensures { IfOk result (λ v. v.items ≡ table_paths tables.now) }
{
    let mut paths = Vec::new(alloc);
    for table in tables {
        if !is_among(&paths, &table.path) {
            paths.push(table.path.copied())?;
        }
    }
    Ok(paths)
}

#[tactic(auto, using(crate::proofs::CommitSteps::map_item))]
fn filters(alloc: Global, rulesets: &[Ruleset]) -> Result<Vec<RulesetName>, AllocError>
    ensures { IfOk result (λ v. v.items ≡ map filter_of rulesets.now) }
{
    let mut names = Vec::new(alloc);
    for ruleset in rulesets {
        names.push(RulesetName::filter(&ruleset.path))?;
    }
    Ok(names)
}

/// Appends the tables at each of these paths.
fn add_tables(names: &mut Vec<RulesetName>, paths: &[Path]) -> Result<(), AllocError>
    ensures { OnOk result (names.new.items ≡ names.old.items ++ map table_ruleset_at paths.now) }
{
    for path in paths {
        names.push(RulesetName::table(path))?;
    }
    Ok(())
}

/// The rulesets that a load of this file replaces: the rules of each of its paths, then the tables at each path at which it fills some.
pub fn ruleset_names(alloc: Global, conf: &Conf) -> Result<Vec<RulesetName>, AllocError>
    ensures { IfOk result (λ v. v.items ≡ ruleset_names conf.now) }
{
    let paths = table_paths(alloc, conf.tables.as_slice())?;
    let mut names = filters(alloc, conf.rulesets.as_slice())?;
    add_tables(&mut names, &paths)?;
    Ok(names)
}

/// The ticket of a ruleset; an empty text if it wasn't begun.
#[tactic(auto, using(crate::proofs::CommitSteps::drop_item, std::proofs::lemmas::List::drop_all))]
pub fn ticket_of<'a>(begun: &'a [Begun], name: &RulesetName) -> &'a [u8]
    ensures { result.now ≡ ticket_of begun.now name.now }
{
    for one in begun {
        if one.name.same(name) {
            return one.ticket.as_slice();
        }
    }
    b""
}
