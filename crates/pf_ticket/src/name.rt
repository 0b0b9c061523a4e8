//! Names of rulesets.
ghost use Rattle.std.specs.Prelude.{◌≡◌};
ghost use Rattle.pf_ticket.specs.Names.{filter_at, table_ruleset_at, same_name, ruleset_order};

use pf_anchor::Path;
use std::cmp::Ordering;
use std::marker::Model;

/// The kinds of ruleset that have tickets.
#[derive(Clone, Copy, Debug, PartialEq, Eq)]
pub enum RulesetKind {
    /// Filter rules.
    Filter,
    /// Tables.
    Table,
}

/// A ruleset, as a transaction names it (pf(4), DIOCXBEGIN).
#[derive(Drop)]
pub struct RulesetName {
    /// Whether it has rules or tables.
    pub kind: RulesetKind,
    /// Where it is; the main ruleset's path is empty.
    pub path: Path,
}

impl RulesetName {
    /// The filter ruleset at a path. It takes no memory.
    pub fn filter(path: &Path) -> RulesetName
        ensures { result ≡ filter_at path.now }
    {
        RulesetName {
            kind: RulesetKind::Filter,
            path: path.copied(),
        }
    }

    /// The tables at a path. It takes no memory.
    pub fn table(path: &Path) -> RulesetName
        ensures { result ≡ table_ruleset_at path.now }
    {
        RulesetName {
            kind: RulesetKind::Table,
            path: path.copied(),
        }
    }

    /// The same name. It takes no memory.
    pub fn copied(&self) -> RulesetName
        ensures { result ≡ self.now }
    {
        RulesetName {
            kind: self.kind,
            path: self.path.copied(),
        }
    }

    /// Whether both name the same ruleset.
    pub fn same(&self, other: &RulesetName) -> bool
        ensures { result ≡ same_name self.now other.now }
    {
        self.kind == other.kind && self.path.same(&other.path)
    }

    // The order of names: filter rulesets before table rulesets, and those of one kind by their paths.
    pub(crate) fn order(&self, other: &RulesetName) -> Ordering
        ensures { result ≡ ruleset_order self.now other.now }
    {
        match (self.kind, other.kind) {
            (RulesetKind::Filter, RulesetKind::Table) => Ordering::Less,
            (RulesetKind::Table, RulesetKind::Filter) => Ordering::Greater,
            _ => self.path.order(&other.path),
        }
    }
}

/// Rulesets in the order in which a begin names them.
#[derive(Drop)]
pub struct RulesetNames {
    names: Vec<RulesetName>,
}

impl Model for RulesetNames {
    ghost use Rattle.std.specs.Prelude.{List};
    ghost use Rattle.pf_ticket.specs.declared.name.RulesetName.{RulesetName};

    ghost Value = { List RulesetName };

    ghost view = { λ n. n.names.items };
}

impl RulesetNames {
    /// The list of these. It takes no memory.
    pub fn new(names: Vec<RulesetName>) -> RulesetNames
        ensures { result ≡ names.items }
    {
        RulesetNames { names }
    }

    /// The names in order.
    pub fn as_slice(&self) -> &[RulesetName]
        ensures { result.now ≡ self.now }
    {
        self.names.as_slice()
    }
}
