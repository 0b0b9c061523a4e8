//! A file's rules and tables, as packets are judged by them, and where each rule is written.
ghost use Rattle.std.specs.Prelude.{◌≡◌, ◌≤◌, length, map, take, IfOk};
ghost use Rattle.std.specs.Option.{option_map, option_and_then};
ghost use Rattle.std.specs.List.{filter_map, slice_get};
ghost use Rattle.pf_addr.specs.Writing.{Continues};
ghost use Rattle.pf_conf.specs.Telling.{name_of_file};
ghost use Rattle.pfd_conf.specs.Firewalls.{origins_of, plain_rules, placed_of, table_of, config_of, ruleset_at, decided_in, rule_at, is_in, place_text, parenthesized, origin_text};

use crate::taking::Taken;
use pf_addr::path::{Path, TableName};
use pf_addr::{write_more, write_more_number};
use pf_anchor::{Config, Placed, PlacedTable, RULE_LIMIT, RuleList, RuleVerdict};
use pf_conf::{At, Conf, FilledTable, Ruleset};
use pf_rule::Rule;
use pf_tokens::{Files, Place};
use std::alloc::{AllocError, Global};
use std::io::{self, Write};
use std::marker::Model;

/// A file's rules and tables, as packets are judged by them, and where each rule is written.
#[derive(Drop)]
pub struct Firewall {
    pub taken: Taken,
    pub config: Config,
}

/// The files and the rulesets of a firewall, by which a user is told where a rule is written. What tells needn't know what packets are
/// judged by, which keeps its proof short. Contracts see the lists.
#[derive(Drop)]
pub(crate) struct Origins<'a> {
    files: &'a Files,
    rulesets: &'a [Ruleset],
}

impl<'a> Model for Origins<'a> {
    ghost use Rattle.pfd_conf.specs.Firewalls.{Origins};

    ghost Value = { Origins };

    ghost view = { λ o. record { files = o.files.now; rulesets = o.rulesets.now } };
}

/// The rule that decides.
#[derive(Clone, Copy, Debug, PartialEq, Eq)]
pub struct Decided {
    /// The number of its ruleset among the file's, from 0.
    pub within: usize,
    /// Its own number there, from 0.
    pub number: usize,
}

/// The rules without their places; no ruleset has more than 1,024.
fn rules_of(alloc: Global, rules: &[At<Rule>]) -> Result<Vec<Rule>, AllocError>
    ensures rules { IfOk result (λ v. v.items ≡ plain_rules rules.now) }
    ensures few { IfOk result (λ v. length v.items ≤ RULE_LIMIT) }
{
    let mut plain = Vec::new(alloc);
    for rule in rules {
        if plain.len() == RULE_LIMIT {
            return Ok(plain);
        }
        plain.push(rule.is)?;
    }
    Ok(plain)
}

fn placed_of(alloc: Global, listed: &Ruleset) -> Result<Placed, AllocError>
    ensures { IfOk result (λ p. p ≡ placed_of listed.now) }
{
    let rules = rules_of(alloc, listed.rules.as_slice())?;
    Placed::new(alloc, listed.path.copied(), RuleList::of(alloc, rules)?)
}

fn rulesets_of(alloc: Global, rulesets: &[Ruleset]) -> Result<Vec<Placed>, AllocError>
    ensures { IfOk result (λ v. v.items ≡ map placed_of rulesets.now) }
{
    let mut placed = Vec::new(alloc);
    for ruleset in rulesets {
        placed.push(placed_of(alloc, ruleset)?)?;
    }
    Ok(placed)
}

/// The table at its place, if its name is one.
fn table_of(alloc: Global, table: &FilledTable) -> Result<Option<PlacedTable>, AllocError>
    ensures { IfOk result (λ t. t ≡ table_of table.now) }
{
    match TableName::from_ascii(table.name.as_slice()) {
        Ok(name) => {
            let place = (table.path.copied(), name);
            Ok(Some(PlacedTable::new(alloc, place, table.table.shared()?)?))
        }
        Err(_) => Ok(None),
    }
}

fn tables_of(alloc: Global, tables: &[FilledTable]) -> Result<Vec<PlacedTable>, AllocError>
    ensures { IfOk result (λ v. v.items ≡ filter_map table_of tables.now) }
{
    let mut placed = Vec::new(alloc);
    for table in tables {
        if let Some(table) = table_of(alloc, table)? {
            placed.push(table)?;
        }
    }
    Ok(placed)
}

/// The configuration with a file's rulesets and tables, and nothing else.
fn config_of(alloc: Global, conf: &Conf) -> Result<Config, AllocError>
    ensures { IfOk result (λ c. c ≡ config_of conf.now) }
{
    let rulesets = rulesets_of(alloc, conf.rulesets.as_slice())?;
    let tables = tables_of(alloc, conf.tables.as_slice())?;
    let ruled = Config::empty().with_rulesets(alloc, &rulesets)?;
    ruled.with_tables(alloc, &tables)
}

impl Firewall {
    /// The rules and tables of a file that is taken.
    pub fn of(alloc: Global, taken: Taken) -> Result<Firewall, AllocError>
        ensures taken { IfOk result (λ f. f.taken ≡ taken) }
        ensures config { IfOk result (λ f. f.config ≡ config_of taken.conf) }
    {
        let config = config_of(alloc, &taken.conf)?;
        Ok(Firewall { taken, config })
    }

    /// Where its rules are written.
    pub(crate) fn origins(&self) -> Origins<'_>
        ensures { result ≡ origins_of self.now }
    {
        Origins {
            files: &self.taken.files,
            rulesets: self.taken.conf.rulesets.as_slice(),
        }
    }
}

impl Origins<'_> {
    pub(crate) fn files(&self) -> &Files
        ensures { result.now ≡ self.now.files }
    {
        self.files
    }

    pub(crate) fn rulesets(&self) -> &[Ruleset]
        ensures { result.now ≡ self.now.rulesets }
    {
        self.rulesets
    }

    /// Which rule of the file decides by this verdict, if one does.
    pub(crate) fn decided(&self, verdict: &RuleVerdict) -> Option<Decided>
        ensures { result ≡ decided_in self.now.rulesets verdict.now }
    {
        match verdict {
            RuleVerdict::Rule { path, number, .. } => {
                let within = ruleset_at(self.rulesets, path)?;
                let number = *number as usize;
                Some(Decided { within, number })
            }
            RuleVerdict::Default => None,
        }
    }

    /// The rule that decides, with its place.
    pub(crate) fn rule_at(&self, decided: Decided) -> Option<&At<Rule>>
        ensures { option_map (λ r. r.now) result ≡ rule_at self.now.rulesets decided }
    {
        let ruleset = self.rulesets.get(decided.within)?;
        ruleset.rules.as_slice().get(decided.number)
    }

    /// The rule that decides, with its place, if one does.
    fn rule_of(&self, decided: Option<Decided>) -> Option<&At<Rule>>
        ensures { option_map (λ r. r.now) result ≡ option_and_then (rule_at self.now.rulesets) decided }
    {
        self.rule_at(decided?)
    }

    /// Writes the file and the line of the rule that decides, in parentheses behind a space; nothing if none does.
    pub(crate) fn write_origin<W: Write>(
        &self,
        out: &mut W,
        so_far: io::Result<()>,
        decided: Option<Decided>,
    ) -> io::Result<()>
        ensures { Continues so_far (W.contents out.old) result (W.contents out.new)
            (origin_text self.now.files self.now.rulesets decided) }
    {
        match self.rule_of(decided) {
            Some(rule) => write_in_parentheses(out, so_far, self.files, rule.place),
            None => write_more(out, so_far, b""),
        }
    }
}

/// The number of the ruleset with this path.
pub(crate) fn ruleset_at(rulesets: &[Ruleset], path: &Path) -> Option<usize>
    ensures { result ≡ ruleset_at rulesets.now path.now }
{
    rulesets.iter().position(|ruleset| ruleset.path.same(path))
}

/// The name of the file of a place.
fn name_of_file(files: &Files, place: Place) -> &[u8]
    ensures { result.now ≡ name_of_file (slice_get files.now place.file) }
{
    match files.as_slice().get(place.file) {
        Some(file) => file.name.as_slice(),
        None => b"",
    }
}

/// Writes the file and the line of a place.
pub(crate) fn write_place<W: Write>(
    out: &mut W,
    so_far: io::Result<()>,
    files: &Files,
    place: Place,
) -> io::Result<()>
    ensures { Continues so_far (W.contents out.old) result (W.contents out.new) (place_text files.now place) }
{
    let so_far = write_more(out, so_far, name_of_file(files, place));
    let so_far = write_more(out, so_far, b":");
    write_more_number(out, so_far, u64::from(place.line))
}

/// Whether a place is in one of these files. The rules of a server are in none.
pub(crate) fn is_in(files: &Files, place: Place) -> bool
    ensures { result ≡ is_in files.now place }
{
    place.file < files.len()
}

fn write_in_parentheses<W: Write>(
    out: &mut W,
    so_far: io::Result<()>,
    files: &Files,
    place: Place,
) -> io::Result<()>
    ensures { Continues so_far (W.contents out.old) result (W.contents out.new) (parenthesized files.now place) }
{
    if !is_in(files, place) {
        return write_more(out, so_far, b"");
    }
    let so_far = write_more(out, so_far, b" (");
    let so_far = write_place(out, so_far, files, place);
    write_more(out, so_far, b")")
}
