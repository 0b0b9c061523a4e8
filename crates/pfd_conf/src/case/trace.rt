//! The rules that match a packet, in the order in which they are looked at.
ghost use Rattle.std.specs.Prelude.{◌≡◌, ◌+◌, ◌++◌, ◌∷◌, [], IfOk, OnErr, if◌then◌else◌};
ghost use Rattle.pf_anchor.specs.{Rulesets.{IsMap, children, targets}, Evaluation.matching, Laws.Evaluation.rulesets_at};
ghost use Rattle.pfd_conf.specs.Case.Matches.{came_then, came_settled, part_of_rulesets, part_of_effect, part_of_rule, part_of_ruleset, Lists, IsTrace};

use pf_addr::Addr;
use pf_addr::path::{DEPTH_LIMIT, Path, TableName};
use pf_anchor::Config;
use pf_rule::{Effect, Packet, Reference, Rule, TableAnswers};
use std::alloc::{AllocError, AllocFailed, Global};

/// The most rules that are listed.
pub const MATCH_LIMIT: usize = 4_096;

/// A rule that matches: its ruleset's path, and its number there from 0.
#[derive(Drop)]
pub struct Matched {
    pub path: Path,
    pub number: usize,
}

/// The rules that match a packet.
#[derive(Drop)]
pub struct Traced {
    /// In the order in which they are looked at: a rule as often as it is.
    pub matched: Vec<Matched>,
    /// Whether these are all; else they are the first ones.
    pub is_whole: bool,
}

/// How an evaluation goes on behind some rules.
#[derive(Clone, Copy, PartialEq, Eq)]
enum Came {
    /// No rule decided.
    Nothing,
    /// A rule decided, and a later one may.
    Decided,
    /// A rule decided, and ends it.
    Ended,
}

impl Came {
    /// Behind this one comes another.
    fn then(self, later: Came) -> Came
        ensures { result ≡ came_then self later }
    {
        match (self, later) {
            (Came::Ended, _) => Came::Ended,
            (Came::Decided, Came::Nothing) => Came::Decided,
            _ => later,
        }
    }

    /// What comes of a rule within which this came: if it is quick, a match ends the evaluation.
    fn settled(self, quick: bool) -> Came
        ensures { result ≡ came_settled quick self }
    {
        if quick && self == Came::Decided {
            Came::Ended
        } else {
            self
        }
    }
}

/// Why a list of rules is cut off.
#[derive(Drop)]
enum Cut {
    Many,
    Memory,
}

impl From<AllocError> for Cut {
    fn from(_e: AllocError) -> Cut {
        Cut::Memory
    }
}

impl<T: Drop> From<AllocFailed<T>> for Cut {
    fn from(_e: AllocFailed<T>) -> Cut {
        Cut::Memory
    }
}

/// The tables as the rules of the ruleset at a path name them (pf.conf(5), ANCHORS): its own, else main's.
#[derive(Clone, Copy)]
struct NamedTables<'a> {
    config: &'a Config,
    path: &'a Path,
}

impl<'a> TableAnswers for NamedTables<'a> {
    ghost use Rattle.pf_anchor.specs.Tables.{tables_say};

    ghost says = { λ t. tables_say t.config.now.tables t.path.now };

    fn holds(&self, name: &TableName, address: Addr) -> bool {
        if let Some(table) = self.config.table_at(self.path, name) {
            return table.test(address);
        }
        match self.config.table_at(&Path::main(), name) {
            Some(table) => table.test(address),
            None => false,
        }
    }
}

/// An evaluation that lists what matches.
#[derive(Clone, Copy)]
struct Trace<'a> {
    alloc: Global,
    config: &'a Config,
    packet: &'a Packet,
}

impl Trace<'_> {
    /// Appends the rules that match of the ruleset at a path, and of so many levels below it.
    #[cycle(trace)]
    fn ruleset(&self, matched: &mut Vec<Matched>, path: &Path, levels: usize) -> Result<Came, Cut>
        ensures { Lists result matched.old.items matched.new.items
            (part_of_ruleset levels self.now.config.now self.now.packet.now path.now) }
    {
        let rules = self.config.rules_at(path)?;
        let mut came = Came::Nothing;
        for (number, rule) in rules.as_slice().iter().enumerate() {
            came = came.then(self.rule(matched, path, number, rule, levels)?);
            if came == Came::Ended {
                return Ok(came);
            }
        }
        Ok(came)
    }

    /// Appends a rule of the ruleset at a path if it matches, and returns whether it does. `Cut`: nothing is appended.
    fn add(
        &self,
        matched: &mut Vec<Matched>,
        path: &Path,
        number: usize,
        rule: &Rule,
    ) -> Result<bool, Cut>
        ensures ok { IfOk result (λ is_match. (is_match ≡ matching self.now.config.now.tables self.now.packet.now path.now rule.now)
            × (matched.new.items ≡ matched.old.items ++ (if is_match then record { path = path.now; number = number } ∷ [] else []))) }
        ensures cut { OnErr result (matched.new.items ≡ matched.old.items) }
    {
        let config = self.config;
        if !rule.matches(&NamedTables { config, path }, self.packet) {
            return Ok(false);
        }
        if matched.len() >= MATCH_LIMIT {
            return Err(Cut::Many);
        }
        let path = path.copied();
        matched.push(Matched { path, number })?;
        Ok(true)
    }

    /// The same as `ruleset` for a rule of that ruleset.
    #[cycle(trace)]
    fn rule(
        &self,
        matched: &mut Vec<Matched>,
        path: &Path,
        number: usize,
        rule: &Rule,
        levels: usize,
    ) -> Result<Came, Cut>
        requires { IsMap self.now.config.now.rulesets }
        ensures { Lists result matched.old.items matched.new.items
            (part_of_rule levels self.now.config.now self.now.packet.now path.now number rule.now) }
    {
        if !self.add(matched, path, number, rule)? {
            return Ok(Came::Nothing);
        }
        let came = self.within(matched, path, rule, levels)?;
        Ok(came.settled(rule.is_quick()))
    }

    /// The same for what a rule that matches leads to.
    #[cycle(trace)]
    fn within(
        &self,
        matched: &mut Vec<Matched>,
        path: &Path,
        rule: &Rule,
        levels: usize,
    ) -> Result<Came, Cut>
        requires { IsMap self.now.config.now.rulesets }
        ensures { Lists result matched.old.items matched.new.items
            (part_of_effect levels self.now.config.now self.now.packet.now path.now rule.now.effect) }
    {
        match rule.effect() {
            Effect::Decide(_) => Ok(Came::Decided),
            Effect::Evaluate(reference) => self.targets(matched, path, &reference, levels),
        }
    }

    /// The same for the rulesets that a reference leads to from there.
    #[cycle(trace)]
    fn targets(
        &self,
        matched: &mut Vec<Matched>,
        path: &Path,
        reference: &Reference,
        levels: usize,
    ) -> Result<Came, Cut>
        requires { IsMap self.now.config.now.rulesets }
        ensures { Lists result matched.old.items matched.new.items
            (part_of_rulesets levels self.now.config.now self.now.packet.now (targets self.now.config.now.rulesets path.now reference.now)) }
    {
        let Some(target) = path.joined(reference.names()) else {
            return Ok(Came::Nothing);
        };
        if levels == 0 {
            return Ok(Came::Nothing);
        }
        if reference.is_wildcard() {
            return self.each_child(matched, &target, levels - 1);
        }
        self.ruleset(matched, &target, levels - 1)
    }

    /// The same for the children of a path, and for so many levels below them.
    #[cycle(trace)]
    fn each_child(
        &self,
        matched: &mut Vec<Matched>,
        path: &Path,
        levels: usize,
    ) -> Result<Came, Cut>
        ensures { Lists result matched.old.items matched.new.items
            (part_of_rulesets (levels + 1) self.now.config.now self.now.packet.now
            (rulesets_at self.now.config.now.rulesets (children self.now.config.now.rulesets path.now))) }
    {
        let mut came = Came::Nothing;
        let children = self.config.children(self.alloc, path)?;
        for child in &children {
            came = came.then(self.ruleset(matched, child, levels)?);
            if came == Came::Ended {
                return Ok(came);
            }
        }
        Ok(came)
    }
}

/// The rules that match a packet, in the order in which the evaluation of the main ruleset looks at them (pf.conf(5), PACKET FILTERING and
/// ANCHORS): the first 4,096 if there are more.
pub fn rules_that_match(
    alloc: Global,
    config: &Config,
    packet: &Packet,
) -> Result<Traced, AllocError>
    ensures { IfOk result (IsTrace config.now packet.now) }
{
    let trace = Trace {
        alloc,
        config,
        packet,
    };
    let mut matched = Vec::new(alloc);
    match trace.ruleset(&mut matched, &Path::main(), DEPTH_LIMIT) {
        Ok(_) => Ok(Traced {
            matched,
            is_whole: true,
        }),
        Err(Cut::Many) => Ok(Traced {
            matched,
            is_whole: false,
        }),
        Err(Cut::Memory) => Err(AllocError),
    }
}
