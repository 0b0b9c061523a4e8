//! What is active: rulesets and tables.
ghost use Rattle.std.specs.{Prelude.{◌≡◌, ◌<◌, ◌^◌, ℕ, true, [], ◌∷◌, length, IfOk, nat_lt}, Option.{MatchOption, option_map}};
ghost use Rattle.pf_rule.specs.Sum.Layouts.{has_labels};
ghost use Rattle.pf_anchor.specs.{Forms.{allows_config, config_length, configured}, Tables.{placed_table, table_found, tables_at, named_table, IsTableMap}, Rulesets.{ruled, rules_at, children, IsMap}, Configurations.{nothing, with_rulesets, with_tables}, Limits.{ruleset_refusal, table_refusal}};
ghost use Rattle.pf_addr.specs.{Refusing.{Refuses}, Path.Paths.{main}};
ghost use Rattle.pf_anchor.specs.declared.fault.ConfigFault.TheVariants.{Memory};

use crate::fault::ConfigFault;
use crate::limits::{RULESET_LIMIT, TABLE_COUNT_LIMIT};
use crate::rule_list::RuleList;
use crate::rulesets::{EachRuleset, Placed, Rulesets, in_columns};
use crate::tables::{EachTable, Place, PlacedTable, Tables};
use pf_addr::path::{Path, PathBytes, TableName};
use pf_key::Sought;
use pf_map::PagedMap;
use pf_table::Table;
use std::alloc::{AllocError, Global};
use std::marker::Model;

/// What is active: the rulesets and the tables, each at its path. Contracts see it as a `PlainConfig`.
pub struct Config {
    rulesets: Rulesets,
    tables: Tables,
}

impl Drop for Config {
    fn drop(self) {
        let Config {
            rulesets: _,
            tables: _,
        } = self;
    }
}

impl Model for Config {
    ghost use Rattle.pf_anchor.specs.Configurations.{PlainConfig};

    ghost Value = { PlainConfig };

    ghost view = { λ c. record { rulesets = c.rulesets; tables = c.tables } };
}

impl Config {
    /// No rulesets and no tables. It takes no memory.
    pub fn empty() -> Config
        ensures { result ≡ nothing }
    {
        Config {
            rulesets: PagedMap::empty(),
            tables: PagedMap::empty(),
        }
    }

    /// These rulesets and tables, each list in order, no place twice, and none of them empty. The rules are put in columns, by which
    /// packets are judged. No rule and no entry is copied. `AllocError`: nothing is made.
    pub fn of(
        alloc: Global,
        rulesets: &[Placed],
        tables: &[PlacedTable],
    ) -> Result<Config, AllocError>
        requires rulesets { IsMap rulesets.now }
        requires tables { IsTableMap tables.now }
        ensures { IfOk result (λ c. c ≡ configured rulesets.now tables.now) }
    {
        let rulesets = in_columns(alloc, rulesets)?;
        Ok(Config {
            rulesets: PagedMap::of(alloc, rulesets.as_slice())?,
            tables: PagedMap::of(alloc, tables)?,
        })
    }

    /// The configuration after a commit of these rulesets, in order. Their rules are put in columns, by which packets are judged. All else
    /// is shared, and no rule is copied. `AllocError`: nothing is made.
    pub fn with_rulesets(&self, alloc: Global, items: &[Placed]) -> Result<Config, AllocError>
        ensures { IfOk result (λ c. c ≡ with_rulesets self.now items.now) }
    {
        let items = in_columns(alloc, items)?;
        Ok(Config {
            rulesets: self.rulesets.with(alloc, items.as_slice())?,
            tables: self.tables.shared()?,
        })
    }

    /// Whether a commit of these would leave more rulesets than there may be. Only near the limit is the result made, to be counted; else
    /// it takes no memory. `AllocError`: nothing is made.
    pub fn would_be_too_many(&self, alloc: Global, items: &[Placed]) -> Result<bool, AllocError>
        ensures { IfOk result (λ b. b ≡ nat_lt RULESET_LIMIT (length (with_rulesets self.now items.now).rulesets)) }
    {
        self.rulesets
            .would_be_more_than(alloc, items, RULESET_LIMIT)
    }

    /// The configuration with the rules at one path replaced, or taken out if the new list is empty. All else is shared. `TooManyRulesets`:
    /// there would be more than 1,024 after it, the old rules not counted. On an error nothing is made.
    pub fn with_ruleset(
        &self,
        alloc: Global,
        path: &Path,
        rules: &RuleList,
    ) -> Result<Config, ConfigFault>
        ensures whole { IfOk result (λ c. c ≡ with_rulesets self.now (ruled path.now rules.now ∷ [])) }
        ensures refused { Refuses Memory result (ruleset_refusal (with_rulesets self.now (ruled path.now rules.now ∷ []))) }
    {
        let items = [Placed::new(alloc, path.copied(), rules.shared()?)?];
        let after = self.with_rulesets(alloc, &items)?;
        if after.rulesets.is_more_than(RULESET_LIMIT) {
            return Err(ConfigFault::TooManyRulesets);
        }
        Ok(after)
    }

    /// The configuration after a commit of these tables, in order: one without entries is taken out. All else is shared, and no entry is
    /// copied. `AllocError`: nothing is made.
    pub fn with_tables(&self, alloc: Global, items: &[PlacedTable]) -> Result<Config, AllocError>
        ensures { IfOk result (λ c. c ≡ with_tables self.now items.now) }
    {
        Ok(Config {
            rulesets: self.rulesets.shared()?,
            tables: self.tables.with(alloc, items)?,
        })
    }

    /// Whether a commit of these would leave more tables than there may be. Only near the limit is the result made, to be counted; else it
    /// takes no memory. `AllocError`: nothing is made.
    pub fn would_be_too_many_tables(
        &self,
        alloc: Global,
        items: &[PlacedTable],
    ) -> Result<bool, AllocError>
        ensures { IfOk result (λ b. b ≡ nat_lt TABLE_COUNT_LIMIT (length (with_tables self.now items.now).tables)) }
    {
        self.tables
            .would_be_more_than(alloc, items, TABLE_COUNT_LIMIT)
    }

    /// The configuration with the table at one path and name replaced, or taken out if the new one has no entries. All else is shared.
    /// `TooManyTables`: there would be more than 1,024 after it, the old one not counted. On an error nothing is made.
    pub fn with_table(
        &self,
        alloc: Global,
        path: &Path,
        name: &TableName,
        table: &Table,
    ) -> Result<Config, ConfigFault>
        ensures whole { IfOk result (λ c. c ≡ with_tables self.now (placed_table path.now name.now table.now ∷ [])) }
        ensures refused { Refuses Memory result (table_refusal (with_tables self.now (placed_table path.now name.now table.now ∷ []))) }
    {
        let items = [PlacedTable::new(alloc, (path.copied(), *name), table.shared()?)?];
        let after = self.with_tables(alloc, &items)?;
        if after.tables.is_more_than(TABLE_COUNT_LIMIT) {
            return Err(ConfigFault::TooManyTables);
        }
        Ok(after)
    }

    /// The table at this path and name, if there is one. It takes no memory.
    pub fn table_at(&self, path: &Path, name: &TableName) -> Option<&Table>
        ensures found { option_map (λ t. t.now) result ≡ table_found path.now name.now self.now.tables }
        // the invariant of maps
        ensures map { IsTableMap self.now.tables }
    {
        match self.tables.get(&Place { path, name }) {
            Some(placed) => Some(placed.value()),
            None => None,
        }
    }

    /// The tables at a path, in the order of their names. No entry is copied. `AllocError`: nothing is made.
    pub fn tables_at(&self, alloc: Global, path: &Path) -> Result<Vec<PlacedTable>, AllocError>
        ensures { IfOk result (λ v. v.items ≡ tables_at path.now self.now.tables) }
    {
        let mut found = Vec::new(alloc);
        for placed in self.each_table() {
            if path.same(&placed.key().0) {
                found.push(placed.shared()?)?;
            }
        }
        Ok(found)
    }

    /// The table that the rules of the ruleset at a path mean by this name: the one at this path, else the main ruleset's (pf.conf(5),
    /// ANCHORS). It takes no memory.
    pub(crate) fn named_table(&self, path: &Path, name: &TableName) -> Option<&Table>
        ensures { option_map (λ t. t.now) result ≡ named_table self.now.tables path.now name.now }
    {
        match self.table_at(path, name) {
            Some(own) => Some(own),
            None => self.table_at(&Path::main(), name),
        }
    }

    /// The children of a path: the paths of one component more that have rules, in the order of their bytes (pf.conf(5), ANCHORS).
    /// `AllocError`: nothing is made.
    pub fn children(&self, alloc: Global, path: &Path) -> Result<Vec<Path>, AllocError>
        ensures { IfOk result (λ v. v.items ≡ children self.now.rulesets path.now) }
    {
        let mut found = Vec::new(alloc);
        for placed in self.each_ruleset() {
            if placed.key().is_child_of(path) {
                found.push(placed.key().copied())?;
            }
        }
        Ok(found)
    }

    /// The rules at a path, none if it has no ruleset. No rule is copied. `AllocError`: they can't have another owner.
    pub fn rules_at(&self, path: &Path) -> Result<RuleList, AllocError>
        ensures value { IfOk result (λ l. l ≡ rules_at path.now self.now.rulesets) }
        // the invariant of maps
        ensures map { IsMap self.now.rulesets }
    {
        match self.placed_at(path) {
            Some(placed) => placed.value().shared(),
            None => Ok(RuleList::none()),
        }
    }

    /// The ruleset at a path, if it has rules.
    pub(crate) fn placed_at<Q: Sought<Path>>(&self, path: &Q) -> Option<&Placed>
        ensures rules { MatchOption result (rules_at (Q.key path.now) self.now.rulesets ≡ []) (λ p. p.now
            ≡ ruled (Q.key path.now) (rules_at (Q.key path.now) self.now.rulesets)) }
        ensures map { IsMap self.now.rulesets }
    {
        self.rulesets.get(path)
    }

    /// The main ruleset, if it has rules. It comes before all others, so it isn't searched for.
    pub(crate) fn main_ruleset(&self) -> Option<&Placed>
        ensures { MatchOption result (rules_at main self.now.rulesets ≡ []) (λ p. p.now ≡ ruled main (rules_at main self.now.rulesets)) }
    {
        if let Some(first) = self.each_ruleset().next() {
            if first.key().as_bytes().is_empty() {
                return Some(first);
            }
        }
        self.placed_at(&PathBytes { bytes: &[] })
    }

    /// How many bytes the rulesets and the tables take where they are kept, with the numbers before them, in each version that has labels.
    /// It looks at none of them.
    #[tactic(auto, using(crate::proofs::Lengths::rulesets_long, crate::proofs::Lengths::tables_long))]
    pub fn byte_length(&self) -> u128
        ensures exact { (version : ℕ) → has_labels version ≡ true → result ≡ config_length version self.now }
        ensures light { result < 2 ^ 98 }
    {
        8 + self.rulesets.weight() + self.tables.weight()
    }

    /// Whether a version allows the rules of each ruleset. It looks at no rule.
    pub fn is_allowed_in(&self, version: u8) -> bool
        ensures { result ≡ allows_config version self.now }
    {
        for placed in self.each_ruleset() {
            if !placed.value().is_allowed_in(version) {
                return false;
            }
        }
        true
    }

    /// How many rulesets there are. It looks at none of them.
    pub fn ruleset_count(&self) -> usize
        ensures { result ≡ length self.now.rulesets }
    {
        self.rulesets.len()
    }

    /// How many tables there are. It looks at none of them.
    pub fn table_count(&self) -> usize
        ensures { result ≡ length self.now.tables }
    {
        self.tables.len()
    }

    /// The rulesets, in the order of their paths. It takes no memory.
    pub fn each_ruleset(&self) -> EachRuleset<'_>
        ensures { result ≡ self.now.rulesets }
    {
        self.rulesets.entries()
    }

    /// The tables, in the order of their paths, and at one path in that of their names. It takes no memory.
    pub fn each_table(&self) -> EachTable<'_>
        ensures { result ≡ self.now.tables }
    {
        self.tables.entries()
    }
}
