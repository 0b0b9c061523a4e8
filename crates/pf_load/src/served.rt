//! What a server has.
ghost use Rattle.pf_load.specs.Served.{AsksOnly};

use crate::changes::{after_number, ask_list, entry_in, table_with};
use pf_addr::path::Path;
use pf_commit::Fault;
use pf_conf::{At, Conf, FilledTable, Ruleset};
use pf_rule::{Effect, Reference, Rule, TextFault};
use pf_tokens::{Bytes, Items, Place};
use std::alloc::{AllocError, Global};
use std::io::{BufRead, Write};

/// The fault of a reference to all rulesets within this path.
fn wild(alloc: Global, path: &[u8]) -> Fault {
    match Items::copied(alloc, path) {
        Ok(path) => Fault::Wild(path),
        Err(_) => Fault::Memory,
    }
}

/// Whether the server has no line that begins with the first word alone.
fn is_of_unknown_line(fault: &Fault) -> bool {
    match fault {
        Fault::Refused { reply, .. } => reply.as_slice() == b"err word 1".as_slice(),
        _ => false,
    }
}

/// The rule of a line that shows one. It stands in no file.
fn rule_in(alloc: Global, line: &[u8]) -> Result<At<Rule>, Fault> {
    let Ok(text) = str::from_utf8(after_number(line)) else {
        return Err(Fault::Ended);
    };
    match Rule::parse(alloc, text) {
        Ok(is) => Ok(At {
            place: Place::start(0),
            is,
        }),
        Err(TextFault::Memory) => Err(Fault::Memory),
        Err(_) => Err(Fault::Ended),
    }
}

/// The rules of a list that is shown.
fn rules_in(alloc: Global, list: &[Bytes]) -> Result<Items<At<Rule>>, Fault> {
    let mut rules = Items::new(alloc);
    for line in list {
        rules.push(rule_in(alloc, line.as_slice())?)?;
    }
    Ok(rules)
}

/// The table at a path of a line that shows one.
fn table_in(alloc: Global, path: &Path, line: &[u8]) -> Result<FilledTable, Fault> {
    let mut words = line.split(|byte| *byte == b' ');
    let Some(name) = words.next() else {
        return Err(Fault::Ended);
    };
    let mut entries = Vec::new(alloc);
    for word in words {
        entries.push(entry_in(alloc, word)?)?;
    }
    Ok(FilledTable {
        path: path.copied(),
        name: Items::copied(alloc, name)?,
        table: table_with(alloc, &entries)?,
    })
}

/// The path of a line that shows an anchor below this path.
fn anchor_in(path: &Path, line: &[u8]) -> Result<Path, Fault> {
    match Path::from_ascii(line) {
        Ok(anchor) if anchor.is_child_of(path) => Ok(anchor),
        _ => Err(Fault::Ended),
    }
}

/// What is asked of a server.
#[derive(Drop)]
enum Sought {
    /// The rules and tables at this path.
    At(Path),
    /// The anchors directly below this path.
    Below(Path),
}

impl Sought {
    fn is_same(&self, other: &Sought) -> bool {
        match (self, other) {
            (Sought::At(one), Sought::At(another)) => one.same(another),
            (Sought::Below(one), Sought::Below(another)) => one.same(another),
            _ => false,
        }
    }

    fn copied(&self) -> Sought {
        match self {
            Sought::At(path) => Sought::At(path.copied()),
            Sought::Below(path) => Sought::Below(path.copied()),
        }
    }
}

/// What an anchor rule at this path leads to, if it leads to a path.
fn target_of(path: &Path, reference: &Reference) -> Option<Sought> {
    let target = path.joined(reference.names())?;
    if reference.is_wildcard() {
        Some(Sought::Below(target))
    } else {
        Some(Sought::At(target))
    }
}

/// What is known of a server.
#[derive(Drop)]
struct Known {
    /// What is asked for, each once.
    sought: Vec<Sought>,
    rulesets: Items<Ruleset>,
    tables: Items<FilledTable>,
}

impl Known {
    /// Nothing, but that main's rules and tables are asked for.
    fn begun(alloc: Global) -> Result<Known, AllocError> {
        let mut sought = Vec::new(alloc);
        sought.push(Sought::At(Path::main()))?;
        Ok(Known {
            sought,
            rulesets: Items::new(alloc),
            tables: Items::new(alloc),
        })
    }

    /// What is asked for with this number, if there is so much.
    fn sought_at(&self, number: usize) -> Option<Sought> {
        let sought = self.sought.get(number)?;
        Some(sought.copied())
    }

    /// Adds what is to be asked for, if it isn't there.
    fn seek(&mut self, target: Sought) -> Result<(), AllocError> {
        if !self.sought.iter().any(|known| known.is_same(&target)) {
            self.sought.push(target)?;
        }
        Ok(())
    }

    /// Adds the rules at a path, and what they lead to.
    fn add_rules(&mut self, alloc: Global, path: &Path, list: &[Bytes]) -> Result<(), Fault> {
        let rules = rules_in(alloc, list)?;
        for rule in rules.as_slice() {
            if let Effect::Evaluate(reference) = rule.is.effect() {
                if let Some(target) = target_of(path, &reference) {
                    self.seek(target)?;
                }
            }
        }
        let path = path.copied();
        self.rulesets.push(Ruleset { path, rules })?;
        Ok(())
    }

    /// Adds the tables at a path.
    fn add_tables(&mut self, alloc: Global, path: &Path, list: &[Bytes]) -> Result<(), Fault> {
        for line in list {
            self.tables.push(table_in(alloc, path, line.as_slice())?)?;
        }
        Ok(())
    }

    /// Adds the anchors below a path.
    fn add_anchors(&mut self, path: &Path, list: &[Bytes]) -> Result<(), Fault> {
        for line in list {
            self.seek(Sought::At(anchor_in(path, line.as_slice())?))?;
        }
        Ok(())
    }

    /// Asks for the rules and then for the tables at a path, and adds them.
    fn ask_at<B: BufRead, W: Write>(
        &mut self,
        alloc: Global,
        server: &mut W,
        replies: &mut B,
        path: &Path,
    ) -> Result<(), Fault>
        ensures { AsksOnly result (W.contents server.old) (W.contents server.new) }
    {
        let rules = ask_list(alloc, server, replies, b"show rules ", path)?;
        self.add_rules(alloc, path, &rules)?;
        let tables = ask_list(alloc, server, replies, b"show tables ", path)?;
        self.add_tables(alloc, path, &tables)
    }

    /// Asks for the anchors below a path, and adds them.
    fn ask_below<B: BufRead, W: Write>(
        &mut self,
        alloc: Global,
        server: &mut W,
        replies: &mut B,
        path: &Path,
    ) -> Result<(), Fault>
        ensures { AsksOnly result (W.contents server.old) (W.contents server.new) }
    {
        match ask_list(alloc, server, replies, b"show anchors ", path) {
            Ok(anchors) => self.add_anchors(path, &anchors),
            Err(fault) if is_of_unknown_line(&fault) => Err(wild(alloc, path.as_bytes())),
            Err(fault) => Err(fault),
        }
    }

    /// Asks for what is sought, and adds it.
    fn ask<B: BufRead, W: Write>(
        &mut self,
        alloc: Global,
        server: &mut W,
        replies: &mut B,
        sought: &Sought,
    ) -> Result<(), Fault>
        ensures { AsksOnly result (W.contents server.old) (W.contents server.new) }
    {
        match sought {
            Sought::At(path) => self.ask_at(alloc, server, replies, path),
            Sought::Below(path) => self.ask_below(alloc, server, replies, path),
        }
    }
}

/// What a server has: the rules and tables of main, and of each path that anchor rules lead to from there. Rules stand in no file.
///
/// The server isn't asked to change anything: nothing is sent but `show rules PATH`, `show tables PATH` and `show anchors PATH`. What is
/// changed there meanwhile may be seen in part.
///
/// The faults are those of [`load`](crate::load). `Fault::Wild`: an anchor rule leads to all rulesets within a path, and the server knows no
/// line that shows their names.
pub fn served_conf<B: BufRead, W: Write>(
    alloc: Global,
    server: &mut W,
    replies: &mut B,
) -> Result<Conf, Fault>
    ensures { AsksOnly result (W.contents server.old) (W.contents server.new) }
{
    let mut known = Known::begun(alloc)?;
    for number in 0..usize::MAX {
        let Some(sought) = known.sought_at(number) else {
            break;
        };
        known.ask(alloc, server, replies, &sought)?;
    }
    let Known {
        rulesets,
        tables,
        ..
    } = known;
    Ok(Conf {
        rulesets,
        tables,
        notes: Items::new(alloc),
    })
}
