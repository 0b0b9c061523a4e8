//! What is sent.
ghost use Rattle.std.specs.Prelude.{◌≡◌, ◌++◌, IfOk, OnOk, codes, if◌then◌else◌, [], take, drop};
ghost use Rattle.pf_addr.specs.Writing.{Continues};
ghost use Rattle.pf_addr.specs.Path.Paths.{path_text};
ghost use Rattle.pf_rule.specs.RuleText.{rule_text};
ghost use Rattle.pf_conf.specs.Tables.{entry_text, entries_text};
ghost use Rattle.pf_conf.specs.Commit.Lines.{kind_text, name_text, names_text, begun_text, all_begun_text, begin_line, commit_line, rollback_line, place_text, add_line, added_lines, add_lines, rules_lines, table_text, line_of_table, define_line, extend_line, extend_lines, lines_of_table, table_lines, tables_lines, load_lines};

use crate::commit::naming::{Begun, ticket_of};
use crate::found::{Conf, FilledTable, Ruleset};
use pf_addr::path::Path;
use pf_addr::{write_more, write_more_net};
use pf_parse::At;
use pf_rule::Rule;
use pf_table::{Entry, Table};
use pf_ticket::{RulesetKind, RulesetName};
use std::alloc::{AllocError, Global};
use std::io::{self, Write};

/// How many entries of a table are in a line. So many fit it, whatever they are, beside the longest path, ticket and name.
pub const PART: usize = 64;

// Several texts in a row. Each call takes the result of those before it, so that only the last result needs checking.

// ---- rulesets

fn kind_text(kind: RulesetKind) -> &'static [u8]
    ensures { result.now ≡ kind_text kind }
{
    match kind {
        RulesetKind::Filter => b" filter ",
        RulesetKind::Table => b" table ",
    }
}

/// A path as it is written: `-` is main's.
pub fn path_text(path: &Path) -> &[u8]
    ensures { result.now ≡ path_text path.now }
{
    let text = path.as_bytes();
    if text.is_empty() { b"-" } else { text }
}

fn write_name<W: Write>(out: &mut W, so_far: io::Result<()>, name: &RulesetName) -> io::Result<()>
    ensures { Continues so_far (W.contents out.old) result (W.contents out.new) (name_text name.now) }
{
    let so_far = write_more(out, so_far, kind_text(name.kind));
    write_more(out, so_far, path_text(&name.path))
}

fn write_names<W: Write>(
    out: &mut W,
    begun: io::Result<()>,
    names: &[RulesetName],
) -> io::Result<()>
    ensures { Continues begun (W.contents out.old) result (W.contents out.new) (names_text names.now) }
{
    let mut so_far = begun;
    for name in names {
        so_far = write_name(out, so_far, name);
    }
    so_far
}

fn write_one<W: Write>(out: &mut W, so_far: io::Result<()>, one: &Begun) -> io::Result<()>
    ensures { Continues so_far (W.contents out.old) result (W.contents out.new) (begun_text one.now) }
{
    let so_far = write_name(out, so_far, &one.name);
    let so_far = write_more(out, so_far, b" ");
    write_more(out, so_far, one.ticket.as_slice())
}

fn write_all<W: Write>(out: &mut W, written: io::Result<()>, begun: &[Begun]) -> io::Result<()>
    ensures { Continues written (W.contents out.old) result (W.contents out.new) (all_begun_text begun.now) }
{
    let mut so_far = written;
    for one in begun {
        so_far = write_one(out, so_far, one);
    }
    so_far
}

/// Writes the line that begins these rulesets. Errors, here and below, as in [`pf_addr::write_text`].
fn write_begin<W: Write>(
    out: &mut W,
    so_far: io::Result<()>,
    names: &[RulesetName],
) -> io::Result<()>
    ensures { Continues so_far (W.contents out.old) result (W.contents out.new) (begin_line names.now) }
{
    let so_far = write_more(out, so_far, b"begin");
    let so_far = write_names(out, so_far, names);
    write_more(out, so_far, b"\n")
}

/// Writes the line that commits all that was begun.
fn write_commit<W: Write>(out: &mut W, so_far: io::Result<()>, begun: &[Begun]) -> io::Result<()>
    ensures { Continues so_far (W.contents out.old) result (W.contents out.new) (commit_line begun.now) }
{
    let so_far = write_more(out, so_far, b"commit");
    let so_far = write_all(out, so_far, begun);
    write_more(out, so_far, b"\n")
}

/// Writes the line that drops all that was begun.
fn write_rollback<W: Write>(out: &mut W, so_far: io::Result<()>, begun: &[Begun]) -> io::Result<()>
    ensures { Continues so_far (W.contents out.old) result (W.contents out.new) (rollback_line begun.now) }
{
    let so_far = write_more(out, so_far, b"rollback");
    let so_far = write_all(out, so_far, begun);
    write_more(out, so_far, b"\n")
}

// ---- rules

fn write_place<W: Write>(
    out: &mut W,
    so_far: io::Result<()>,
    path: &Path,
    ticket: &[u8],
) -> io::Result<()>
    ensures { Continues so_far (W.contents out.old) result (W.contents out.new) (place_text path.now ticket.now) }
{
    let so_far = write_more(out, so_far, path_text(path));
    let so_far = write_more(out, so_far, b" ");
    let so_far = write_more(out, so_far, ticket);
    write_more(out, so_far, b" ")
}

fn write_rule<W: Write>(out: &mut W, so_far: io::Result<()>, rule: &Rule) -> io::Result<()>
    ensures { Continues so_far (W.contents out.old) result (W.contents out.new) (rule_text rule.now) }
{
    match so_far {
        Ok(()) => rule.write(out),
        Err(e) => Err(e),
    }
}

fn write_add<W: Write>(
    out: &mut W,
    so_far: io::Result<()>,
    path: &Path,
    ticket: &[u8],
    rule: &Rule,
) -> io::Result<()>
    ensures { Continues so_far (W.contents out.old) result (W.contents out.new) (add_line (place_text path.now ticket.now) rule.now) }
{
    let so_far = write_more(out, so_far, b"add ");
    let so_far = write_place(out, so_far, path, ticket);
    let so_far = write_rule(out, so_far, rule);
    write_more(out, so_far, b"\n")
}

fn write_adds<W: Write>(
    out: &mut W,
    written: io::Result<()>,
    path: &Path,
    ticket: &[u8],
    rules: &[At<Rule>],
) -> io::Result<()>
    ensures { Continues written (W.contents out.old) result (W.contents out.new) (added_lines (place_text path.now ticket.now) rules.now) }
{
    let mut so_far = written;
    for rule in rules {
        so_far = write_add(out, so_far, path, ticket, &rule.is);
    }
    so_far
}

fn write_ruleset<W: Write>(
    out: &mut W,
    so_far: io::Result<()>,
    begun: &[Begun],
    listed: &Ruleset,
) -> io::Result<()>
    ensures { Continues so_far (W.contents out.old) result (W.contents out.new) (add_lines begun.now listed.now) }
{
    let ticket = ticket_of(begun, &RulesetName::filter(&listed.path));
    let (path, rules) = (&listed.path, listed.rules.as_slice());
    write_adds(out, so_far, path, ticket, rules)
}

fn write_rulesets<W: Write>(
    out: &mut W,
    written: io::Result<()>,
    begun: &[Begun],
    rulesets: &[Ruleset],
) -> io::Result<()>
    ensures { Continues written (W.contents out.old) result (W.contents out.new) (rules_lines begun.now rulesets.now) }
{
    let mut so_far = written;
    for ruleset in rulesets {
        so_far = write_ruleset(out, so_far, begun, ruleset);
    }
    so_far
}

// ---- tables

fn sign(is_negated: bool) -> &'static [u8]
    ensures { result.now ≡ (if is_negated then codes "!" else []) }
{
    if is_negated { b"!" } else { b"" }
}

/// Writes an entry as it is shown. Errors as in [`pf_addr::write_text`].
pub fn write_entry<W: Write>(out: &mut W, so_far: io::Result<()>, entry: Entry) -> io::Result<()>
    ensures { Continues so_far (W.contents out.old) result (W.contents out.new) (entry_text entry) }
{
    let so_far = write_more(out, so_far, sign(entry.is_negated()));
    write_more_net(out, so_far, entry.net())
}

fn write_spaced<W: Write>(out: &mut W, so_far: io::Result<()>, entry: Entry) -> io::Result<()>
    ensures { Continues so_far (W.contents out.old) result (W.contents out.new) (codes " " ++ entry_text entry) }
{
    let so_far = write_more(out, so_far, b" ");
    write_entry(out, so_far, entry)
}

fn write_entries<W: Write>(
    out: &mut W,
    written: io::Result<()>,
    entries: &[Entry],
) -> io::Result<()>
    ensures { Continues written (W.contents out.old) result (W.contents out.new) (entries_text entries.now) }
{
    let mut so_far = written;
    for entry in entries {
        so_far = write_spaced(out, so_far, *entry);
    }
    so_far
}

/// A table at its path, with the ticket of the tables there.
#[derive(Drop)]
struct OfferedTable<'a> {
    path: &'a Path,
    ticket: &'a [u8],
    name: &'a [u8],
}

fn write_table_name<W: Write>(
    out: &mut W,
    so_far: io::Result<()>,
    table: &OfferedTable<'_>,
) -> io::Result<()>
    ensures { Continues so_far (W.contents out.old) result (W.contents out.new) (table_text table.now) }
{
    let so_far = write_place(out, so_far, table.path, table.ticket);
    write_more(out, so_far, table.name)
}

/// Writes a line that begins with this command.
fn write_line_of_table<W: Write>(
    out: &mut W,
    so_far: io::Result<()>,
    command: &[u8],
    table: &OfferedTable<'_>,
    entries: &[Entry],
) -> io::Result<()>
    ensures { Continues so_far (W.contents out.old) result (W.contents out.new) (line_of_table command.now (table_text table.now) entries.now) }
{
    let so_far = write_more(out, so_far, command);
    let so_far = write_table_name(out, so_far, table);
    let so_far = write_entries(out, so_far, entries);
    write_more(out, so_far, b"\n")
}

fn write_define<W: Write>(
    out: &mut W,
    so_far: io::Result<()>,
    table: &OfferedTable<'_>,
    entries: &[Entry],
) -> io::Result<()>
    ensures { Continues so_far (W.contents out.old) result (W.contents out.new) (define_line (table_text table.now) entries.now) }
{
    write_line_of_table(out, so_far, b"define ", table, entries)
}

fn write_extend<W: Write>(
    out: &mut W,
    so_far: io::Result<()>,
    table: &OfferedTable<'_>,
    entries: &[Entry],
) -> io::Result<()>
    ensures { Continues so_far (W.contents out.old) result (W.contents out.new) (extend_line (table_text table.now) entries.now) }
{
    write_line_of_table(out, so_far, b"extend ", table, entries)
}

/// The first entries, as many as a line takes, and the others.
fn cut(entries: &[Entry]) -> (&[Entry], &[Entry])
    ensures part { result.0.now ≡ take PART entries.now }
    ensures rest { result.1.now ≡ drop PART entries.now }
{
    if entries.len() < PART {
        return (entries, &[]);
    }
    entries.split_at(PART)
}

fn write_extends<W: Write>(
    out: &mut W,
    written: io::Result<()>,
    table: &OfferedTable<'_>,
    entries: &[Entry],
) -> io::Result<()>
    ensures { Continues written (W.contents out.old) result (W.contents out.new) (extend_lines (table_text table.now) entries.now) }
{
    let mut so_far = written;
    let mut left = entries;
    while !left.is_empty() {
        let (part, rest) = cut(left);
        so_far = write_extend(out, so_far, table, part);
        left = rest;
    }
    so_far
}

fn write_parts<W: Write>(
    out: &mut W,
    so_far: io::Result<()>,
    table: &OfferedTable<'_>,
    entries: &[Entry],
) -> io::Result<()>
    ensures { Continues so_far (W.contents out.old) result (W.contents out.new) (lines_of_table (table_text table.now) entries.now) }
{
    let (first, others) = cut(entries);
    let so_far = write_define(out, so_far, table, first);
    write_extends(out, so_far, table, others)
}

/// Writes the lines of a table, whose entries these are.
fn write_table<W: Write>(
    out: &mut W,
    so_far: io::Result<()>,
    begun: &[Begun],
    table: &FilledTable,
    entries: &[Entry],
) -> io::Result<()>
    requires { entries.now ≡ table.now.table }
    ensures { Continues so_far (W.contents out.old) result (W.contents out.new) (table_lines begun.now table.now) }
{
    let offered = OfferedTable {
        path: &table.path,
        ticket: ticket_of(begun, &RulesetName::table(&table.path)),
        name: table.name.as_slice(),
    };
    write_parts(out, so_far, &offered, entries)
}

// ---- a file

/// The entries of a table, in order. `AllocError`: out of memory.
pub fn entries_of(alloc: Global, table: &Table) -> Result<Vec<Entry>, AllocError>
    ensures { IfOk result (λ v. v.items ≡ table.now) }
{
    let mut entries = Vec::new(alloc);
    for entry in table.entries() {
        entries.push(*entry)?;
    }
    Ok(entries)
}

fn add_rulesets(text: &mut Vec<u8>, begun: &[Begun], rulesets: &[Ruleset]) -> Result<(), AllocError>
    ensures { OnOk result (text.new.items ≡ text.old.items ++ rules_lines begun.now rulesets.now) }
{
    match write_rulesets(text, Ok(()), begun, rulesets) {
        Ok(()) => Ok(()),
        Err(_) => Err(AllocError),
    }
}

fn add_table(
    alloc: Global,
    text: &mut Vec<u8>,
    begun: &[Begun],
    table: &FilledTable,
) -> Result<(), AllocError>
    ensures { OnOk result (text.new.items ≡ text.old.items ++ table_lines begun.now table.now) }
{
    let entries = entries_of(alloc, &table.table)?;
    match write_table(text, Ok(()), begun, table, &entries) {
        Ok(()) => Ok(()),
        Err(_) => Err(AllocError),
    }
}

fn add_tables(
    alloc: Global,
    text: &mut Vec<u8>,
    begun: &[Begun],
    tables: &[FilledTable],
) -> Result<(), AllocError>
    ensures { OnOk result (text.new.items ≡ text.old.items ++ tables_lines begun.now tables.now) }
{
    for table in tables {
        add_table(alloc, text, begun, table)?;
    }
    Ok(())
}

/// The lines that offer all that a file means, with the tickets of what was begun for it.
pub fn load_text(alloc: Global, begun: &[Begun], conf: &Conf) -> Result<Vec<u8>, AllocError>
    ensures { IfOk result (λ text. text.items ≡ load_lines begun.now conf.now) }
{
    let mut text = Vec::new(alloc);
    add_rulesets(&mut text, begun, conf.rulesets.as_slice())?;
    add_tables(alloc, &mut text, begun, conf.tables.as_slice())?;
    Ok(text)
}

/// The line that begins these rulesets.
pub fn begin_text(alloc: Global, names: &[RulesetName]) -> Result<Vec<u8>, AllocError>
    ensures { IfOk result (λ text. text.items ≡ begin_line names.now) }
{
    let mut text = Vec::new(alloc);
    match write_begin(&mut text, Ok(()), names) {
        Ok(()) => Ok(text),
        Err(_) => Err(AllocError),
    }
}

/// The line that commits all that was begun.
pub fn commit_text(alloc: Global, begun: &[Begun]) -> Result<Vec<u8>, AllocError>
    ensures { IfOk result (λ text. text.items ≡ commit_line begun.now) }
{
    let mut text = Vec::new(alloc);
    match write_commit(&mut text, Ok(()), begun) {
        Ok(()) => Ok(text),
        Err(_) => Err(AllocError),
    }
}

/// The line that drops all that was begun.
pub fn rollback_text(alloc: Global, begun: &[Begun]) -> Result<Vec<u8>, AllocError>
    ensures { IfOk result (λ text. text.items ≡ rollback_line begun.now) }
{
    let mut text = Vec::new(alloc);
    match write_rollback(&mut text, Ok(()), begun) {
        Ok(()) => Ok(text),
        Err(_) => Err(AllocError),
    }
}
