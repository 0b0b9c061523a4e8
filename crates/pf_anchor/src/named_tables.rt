//! Tables as rules name them.
ghost use Rattle.pf_anchor.specs.Tables.{tables_say};

use crate::config::Config;
use crate::work::Work;
use pf_addr::Addr;
use pf_addr::path::{Path, TableName};
use pf_rule::TableAnswers;

/// Tables of which it may be counted how often they are asked.
pub(crate) trait AskedTables: TableAnswers {
    /// Whether they were asked as often as they may be.
    fn has_asked_all(&self) -> bool;
}

/// The tables as the rules of the ruleset at a path name them.
#[derive(Clone, Copy)]
pub(crate) struct NamedTables<'a> {
    pub config: &'a Config,
    pub path: &'a Path,
}

impl<'a> TableAnswers for NamedTables<'a> {
    ghost says = { λ t. tables_say t.config.now.tables t.path.now };

    fn holds(&self, name: &TableName, address: Addr) -> bool {
        match self.config.named_table(self.path, name) {
            Some(table) => table.test(address),
            None => false,
        }
    }
}

/// The same, where it is counted how often they are asked.
#[derive(Clone, Copy)]
pub(crate) struct CountedTables<'a> {
    pub tables: NamedTables<'a>,
    pub work: &'a Work,
}

impl<'a> TableAnswers for CountedTables<'a> {
    ghost says = { λ t. tables_say t.tables.config.now.tables t.tables.path.now };

    fn holds(&self, name: &TableName, address: Addr) -> bool {
        self.work.asks();
        self.tables.holds(name, address)
    }
}

impl<'a> AskedTables for CountedTables<'a> {
    #[inline(always)]
    fn has_asked_all(&self) -> bool {
        self.work.has_asked_all()
    }
}
