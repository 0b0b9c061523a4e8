//! What is found of a file and of all that it loads.
ghost use Rattle.std.specs.{Prelude.{◌≡◌, IfOk}, List.slice_get};
ghost use Rattle.pf_addr.specs.Path.Paths.{path_text};
ghost use Rattle.pf_conf.specs.Found.{nothing_found, is_full, has_rules, has_tables};

use crate::fault::{Note, Spot};
use pf_addr::path::Path;
use pf_parse::At;
use pf_rule::Rule;
use pf_table::Table;
use pf_tokens::{Bytes, Items};
use std::alloc::{AllocError, Global};

/// The most rules of a ruleset.
pub const RULE_LIMIT: usize = 1_024;
/// The most rulesets of a commit: rules at a path, and tables at a path.
pub const RULESET_LIMIT: usize = 64;
/// The most bytes of a line.
pub const LINE_LIMIT: usize = 4_096;
/// How many bytes the longest ticket has.
pub const TICKET_BYTES: usize = 21;

/// The rules of one path.
#[derive(Drop)]
pub struct Ruleset {
    pub path: Path,
    /// The rules in order, each where the first word stands of the rule that was written.
    pub rules: Items<At<Rule>>,
}

/// A table that is filled.
#[derive(Drop)]
pub struct FilledTable {
    pub path: Path,
    pub name: Bytes,
    pub table: Table,
}

/// What a file means, with what it includes and loads.
#[derive(Drop)]
pub struct Conf {
    /// The rulesets, each path once: main's first, then those in braces as they open, at last those of loaded files.
    pub rulesets: Items<Ruleset>,
    /// The tables that are filled, those of each file in order.
    pub tables: Items<FilledTable>,
    /// What is noted, in the order of the text.
    pub notes: Items<Note>,
}

/// A file that is named.
#[derive(Drop)]
pub(crate) struct Mention {
    /// Where what it is named for stands: `load`, or the beginning of the main file.
    pub(crate) at: Spot,
    /// Where its name stands.
    pub(crate) named: Spot,
    pub(crate) name: Bytes,
}

impl Mention {
    /// A copy.
    fn copied(&self, alloc: Global) -> Result<Mention, AllocError>
        ensures { IfOk result (λ m. m ≡ self.now) }
    {
        Ok(Mention {
            at: self.at.copied(alloc)?,
            named: self.named.copied(alloc)?,
            name: Items::copied(alloc, self.name.as_slice())?,
        })
    }
}

/// A load that is still to be read.
#[derive(Drop)]
pub(crate) struct Waiting {
    /// The path of its rulesets; none if it is too long.
    pub(crate) path: Option<Path>,
    pub(crate) mention: Mention,
}

/// A copy of a path, if there is one.
fn path_copied(path: &Option<Path>) -> Option<Path>
    ensures { result ≡ path.now }
{
    match path {
        Some(path) => Some(path.copied()),
        None => None,
    }
}

impl Waiting {
    /// A copy.
    fn copied(&self, alloc: Global) -> Result<Waiting, AllocError>
        ensures { IfOk result (λ w. w ≡ self.now) }
    {
        let path = path_copied(&self.path);
        let mention = self.mention.copied(alloc)?;
        Ok(Waiting { path, mention })
    }
}

/// What was found so far.
#[derive(Drop)]
pub(crate) struct Found {
    /// How many files were read.
    pub(crate) files_read: usize,
    pub(crate) rulesets: Items<Ruleset>,
    pub(crate) tables: Items<FilledTable>,
    pub(crate) notes: Items<Note>,
    /// The paths of the commit's tables, each once.
    pub(crate) table_paths: Items<Path>,
    /// All loads that were mentioned, those that were read too.
    pub(crate) waiting: Items<Waiting>,
}

/// A path as it is written: `-` is main's.
pub(crate) fn path_text(path: &Path) -> &[u8]
    ensures { result.now ≡ path_text path.now }
{
    let text = path.as_bytes();
    if text.is_empty() { b"-" } else { text }
}

impl Found {
    /// Nothing.
    pub(crate) fn new(alloc: Global) -> Found
        ensures { result ≡ nothing_found }
    {
        Found {
            files_read: 0,
            rulesets: Items::new(alloc),
            tables: Items::new(alloc),
            notes: Items::new(alloc),
            table_paths: Items::new(alloc),
            waiting: Items::new(alloc),
        }
    }

    /// Whether the commit has no room for another ruleset.
    pub(crate) fn is_full(&self) -> bool
        ensures { result ≡ is_full self.now }
    {
        self.rulesets.len().saturating_add(self.table_paths.len()) >= RULESET_LIMIT
    }

    /// Whether a path has rules already.
    pub(crate) fn has_rules(&self, path: &Path) -> bool
        ensures { result ≡ has_rules path.now self.now }
    {
        let rulesets = self.rulesets.as_slice();
        rulesets.iter().any(|known| known.path.same(path))
    }

    /// The load of this number, if there are so many.
    pub(crate) fn load_numbered(
        &self,
        alloc: Global,
        number: usize,
    ) -> Result<Option<Waiting>, AllocError>
        ensures { IfOk result (λ w. w ≡ slice_get self.now.waiting number) }
    {
        match self.waiting.as_slice().get(number) {
            Some(waiting) => Ok(Some(waiting.copied(alloc)?)),
            None => Ok(None),
        }
    }

    /// Whether a path has tables already.
    pub(crate) fn has_tables(&self, path: &Path) -> bool
        ensures { result ≡ has_tables path.now self.now }
    {
        let paths = self.table_paths.as_slice();
        paths.iter().any(|known| known.same(path))
    }
}
