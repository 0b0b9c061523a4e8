//! What a load would change.
ghost use Rattle.std.specs.{Prelude.{◌≡◌, ◌≤◌, ◌-◌, ◌++◌, length, map, take, drop, IfOk, OnOk}, Bool.Decides, List.flat_map};
ghost use Rattle.pf_addr.specs.Writing.{Continues, Writes};
ghost use Rattle.pf_rule.specs.RuleText.{rule_text};
ghost use Rattle.pf_table.specs.Edits.{deletions};
ghost use Rattle.pf_conf.specs.Tables.{entry_text};
ghost use Rattle.pf_conf.specs.Commit.Lines.{newline};
ghost use Rattle.pf_load.specs.Changes.{rules_heading, table_heading, marked, changes_text, WritesDifference, absent_in, if_absent, question, rules_question, tables_question, questions};
ghost use Rattle.pf_conf.specs.Commit.Naming.{table_paths};

use pf_addr::path::Path;
use pf_addr::{write_more, write_more_number};
use pf_commit::{
    Fault, entries_of, first_line, path_text, read_reply, send, table_paths, write_entry,
};
use pf_conf::{At, Conf, FilledTable, Ruleset};
use pf_parse::{Stop, read_entries};
use pf_rule::Rule;
use pf_table::{Deletion, Entry, Table, TableRefusal};
use pf_tokens::{Bytes, FILE_LIMIT, Items};
use std::alloc::{AllocError, Global};
use std::io::{self, BufRead, Write};

// ---- what a server is asked

/// Whether a line is the last one of a list with so many.
fn is_end(alloc: Global, line: &[u8], count: usize) -> Result<bool, AllocError> {
    let mut end = Vec::new(alloc);
    let so_far = write_more(&mut end, Ok(()), b"end ");
    match write_more_number(&mut end, so_far, count as u64) {
        Ok(()) => Ok(line == end.as_slice()),
        Err(_) => Err(AllocError),
    }
}

/// Whether a line refuses to show a list. A table may be called `err` too; then it has entries, and these have a dot or a colon.
fn is_refusal(line: &[u8]) -> bool {
    line.starts_with(b"err ") && !line.iter().any(|byte| *byte == b'.' || *byte == b':')
}

/// Reads the lines of a list but the last, which answer this question.
fn read_list<B: BufRead>(
    alloc: Global,
    replies: &mut B,
    question: &[u8],
) -> Result<Vec<Bytes>, Fault> {
    let mut list = Vec::new(alloc);
    for _ in 0..u64::MAX {
        let line = read_reply(alloc, replies)?;
        if is_end(alloc, &line, list.len())? {
            return Ok(list);
        }
        if is_refusal(&line) {
            return Err(Fault::refused(alloc, first_line(question).0, &line));
        }
        list.push(Items::of(line))?;
    }
    Err(Fault::Ended)
}

/// Asks for the list of what is at a path, and reads its lines but the last.
pub(crate) fn ask_list<B: BufRead, W: Write>(
    alloc: Global,
    server: &mut W,
    replies: &mut B,
    what: &[u8],
    path: &Path,
) -> Result<Vec<Bytes>, Fault>
    ensures { Writes result (W.contents server.old) (W.contents server.new) (question what.now path.now) }
{
    let line = question(alloc, what, path)?;
    send(server, &line)?;
    read_list(alloc, replies, &line)
}

/// The line that asks what is at a path.
fn question(alloc: Global, what: &[u8], path: &Path) -> Result<Vec<u8>, AllocError>
    ensures { IfOk result (λ line. line.items ≡ question what.now path.now) }
{
    let mut line = Vec::from_slice(alloc, what)?;
    line.extend_from_slice(path_text(path))?;
    line.push(b'\n')?;
    Ok(line)
}

// ---- rules

/// What stands behind the number of a rule that is shown.
pub(crate) fn after_number(line: &[u8]) -> &[u8] {
    match line.iter().position(|byte| *byte == b' ') {
        Some(space) => &line[space + 1..],
        None => line,
    }
}

/// The rules of a list that is shown.
fn shown_rules(alloc: Global, list: &[Bytes]) -> Result<Vec<Bytes>, AllocError> {
    let mut rules = Vec::new(alloc);
    for line in list {
        rules.push(Items::copied(alloc, after_number(line.as_slice()))?)?;
    }
    Ok(rules)
}

fn rule_text(alloc: Global, rule: &Rule) -> Result<Bytes, AllocError>
    ensures { IfOk result (λ text. text ≡ rule_text rule.now) }
{
    let mut text = Vec::new(alloc);
    match rule.write(&mut text) {
        Ok(()) => Ok(Items::of(text)),
        Err(_) => Err(AllocError),
    }
}

/// The rules of a file, as they are shown.
#[tactic(auto, using(pf_conf::proofs::CommitSteps::map_item))]
fn rule_texts(alloc: Global, rules: &[At<Rule>]) -> Result<Vec<Bytes>, AllocError>
    ensures { IfOk result (λ v. v.items ≡ map (λ r. rule_text r.is) rules.now) }
{
    let mut texts = Vec::new(alloc);
    for rule in rules {
        texts.push(rule_text(alloc, &rule.is)?)?;
    }
    Ok(texts)
}

fn is_same(one: &Bytes, other: &Bytes) -> bool
    ensures { Decides result (one.now ≡ other.now) }
{
    one.as_slice() == other.as_slice()
}

/// How many come first that both lists have.
fn common_front(old: &[Bytes], new: &[Bytes]) -> usize
    ensures same { take result old.now ≡ take result new.now }
    ensures of_old { result ≤ length old.now }
    ensures of_new { result ≤ length new.now }
{
    for at in 0..old.len().min(new.len()) {
        let (one, other) = (&old[at], &new[at]);
        if !is_same(one, other) {
            return at;
        }
    }
    old.len().min(new.len())
}

/// How many come last that both lists have.
fn common_back(old: &[Bytes], new: &[Bytes]) -> usize
    ensures same { drop (length old.now - result) old.now ≡ drop (length new.now - result) new.now }
    ensures of_old { result ≤ length old.now }
    ensures of_new { result ≤ length new.now }
{
    for count in 0..old.len().min(new.len()) {
        let (one, other) = (&old[old.len() - 1 - count], &new[new.len() - 1 - count]);
        if !is_same(one, other) {
            return count;
        }
    }
    old.len().min(new.len())
}

fn write_marked_one<W: Write>(
    out: &mut W,
    so_far: io::Result<()>,
    mark: &[u8],
    text: &[u8],
) -> io::Result<()>
    ensures { Continues so_far (W.contents out.old) result (W.contents out.new) (mark.now ++ text.now ++ newline) }
{
    let so_far = write_more(out, so_far, mark);
    let so_far = write_more(out, so_far, text);
    write_more(out, so_far, b"\n")
}

fn write_marked<W: Write>(
    out: &mut W,
    written: io::Result<()>,
    mark: &[u8],
    texts: &[Bytes],
) -> io::Result<()>
    ensures { Continues written (W.contents out.old) result (W.contents out.new) (marked mark.now texts.now) }
{
    let mut so_far = written;
    for text in texts {
        so_far = write_marked_one(out, so_far, mark, text.as_slice());
    }
    so_far
}

/// Writes what is gone and what comes, behind a heading if there is either.
fn write_changes<W: Write>(
    out: &mut W,
    so_far: io::Result<()>,
    heading: &[u8],
    gone: &[Bytes],
    come: &[Bytes],
) -> io::Result<()>
    ensures { Continues so_far (W.contents out.old) result (W.contents out.new) (changes_text heading.now gone.now come.now) }
{
    if gone.is_empty() && come.is_empty() {
        return write_more(out, so_far, b"");
    }
    let so_far = write_more(out, so_far, heading);
    let so_far = write_marked(out, so_far, b"- ", gone);
    write_marked(out, so_far, b"+ ", come)
}

/// Writes by which texts in the middle two lists differ: those of the old one are gone, and those of the new one come.
fn write_difference<W: Write>(
    out: &mut W,
    so_far: io::Result<()>,
    heading: &[u8],
    old: &[Bytes],
    new: &[Bytes],
) -> io::Result<()>
    ensures { WritesDifference heading.now old.now new.now so_far (W.contents out.old) result (W.contents out.new) }
{
    let front = common_front(old, new);
    let (old, new) = (&old[front..], &new[front..]);
    let back = common_back(old, new);
    let (gone, come) = (&old[..old.len() - back], &new[..new.len() - back]);
    write_changes(out, so_far, heading, gone, come)
}

/// What stands before the changes of the rules at a path: nothing if it is main's.
fn rules_heading(alloc: Global, path: &Path) -> Result<Vec<u8>, AllocError>
    ensures { IfOk result (λ text. text.items ≡ rules_heading path.now) }
{
    let path = path.as_bytes();
    let mut text = Vec::new(alloc);
    if path.is_empty() {
        return Ok(text);
    }
    text.extend_from_slice(b"anchor ")?;
    text.extend_from_slice(path)?;
    text.push(b'\n')?;
    Ok(text)
}

// ---- tables

/// The fault of a shown table that isn't read. The call of `drop` keeps the stop's parts out of this proof.
fn fault_of(stop: Stop) -> Fault {
    let fault = match &stop {
        Stop::Memory => Fault::Memory,
        Stop::Faulty(_) | Stop::Needs(_) => Fault::Ended,
    };
    drop(stop);
    fault
}

/// The entry that a word of a shown table is.
pub(crate) fn entry_in(alloc: Global, word: &[u8]) -> Result<Entry, Fault> {
    if word.len() > FILE_LIMIT {
        return Err(Fault::Ended);
    }
    let mut entries = Items::new(alloc);
    if let Err(stop) = read_entries(alloc, 0, word, &mut entries) {
        return Err(fault_of(stop));
    }
    match entries.as_slice() {
        [entry] => Ok(Entry::new(entry.net, entry.is_negated)),
        _ => Err(Fault::Ended),
    }
}

/// The table of these entries.
pub(crate) fn table_with(alloc: Global, entries: &[Entry]) -> Result<Table, Fault> {
    let mut table = Table::empty();
    match table.replace(alloc, entries) {
        Ok(()) => Ok(table),
        Err(TableRefusal::Memory) => Err(Fault::Memory),
        Err(_) => Err(Fault::Ended),
    }
}

/// The table of this name in a list that is shown; one without entries if it isn't there.
fn shown_table(alloc: Global, list: &[Bytes], name: &[u8]) -> Result<Table, Fault> {
    let mut entries = Vec::new(alloc);
    for line in list {
        let mut words = line.as_slice().split(|byte| *byte == b' ');
        if words.next() == Some(name) {
            for word in words {
                entries.push(entry_in(alloc, word)?)?;
            }
        }
    }
    table_with(alloc, &entries)
}

/// The texts of those entries of a table that another one hasn't.
fn absent_in(alloc: Global, other: &Table, entries: &[Entry]) -> Result<Vec<Bytes>, Fault>
    ensures { IfOk result (λ v. v.items ≡ map entry_text (absent_in other.now entries.now)) }
{
    let answers = answers_of(alloc, other, entries)?;
    let mut absent = Vec::new(alloc);
    for (at, entry) in entries.iter().enumerate() {
        add_absent(alloc, &mut absent, answers[at], *entry)?;
    }
    Ok(absent)
}

/// Appends the text of an entry, if a delete answers that it isn't there.
fn add_absent(
    alloc: Global,
    absent: &mut Vec<Bytes>,
    answer: Deletion,
    entry: Entry,
) -> Result<(), AllocError>
    ensures { OnOk result (absent.new.items ≡ absent.old.items ++ map entry_text (if_absent answer entry)) }
{
    match answer {
        Deletion::Deleted => Ok(()),
        Deletion::Absent => {
            absent.push(entry_text(alloc, entry)?)?;
            Ok(())
        }
    }
}

/// What a table would answer if these entries were deleted from it.
fn answers_of(alloc: Global, table: &Table, entries: &[Entry]) -> Result<Vec<Deletion>, Fault>
    ensures { IfOk result (λ v. v.items ≡ deletions table.now entries.now) }
{
    let mut table = table.shared()?;
    match table.delete(alloc, entries) {
        Ok(answers) => Ok(answers),
        Err(TableRefusal::Memory) => Err(Fault::Memory),
        Err(_) => Err(Fault::Ended),
    }
}

fn entry_text(alloc: Global, entry: Entry) -> Result<Bytes, AllocError>
    ensures { IfOk result (λ text. text ≡ entry_text entry) }
{
    let mut text = Vec::new(alloc);
    match write_entry(&mut text, Ok(()), entry) {
        Ok(()) => Ok(Items::of(text)),
        Err(_) => Err(AllocError),
    }
}

/// What stands before the changes of a table.
fn table_heading(alloc: Global, table: &FilledTable) -> Result<Vec<u8>, AllocError>
    ensures { IfOk result (λ text. text.items ≡ table_heading table.now) }
{
    let mut text = Vec::new(alloc);
    text.extend_from_slice(b"table ")?;
    text.extend_from_slice(path_text(&table.path))?;
    text.push(b' ')?;
    text.extend_from_slice(table.name.as_slice())?;
    text.push(b'\n')?;
    Ok(text)
}

// ---- a file

fn output_checked(written: io::Result<()>) -> Result<(), Fault> {
    match written {
        Ok(()) => Ok(()),
        Err(_) => Err(Fault::Output),
    }
}

/// Writes what a load would change of a ruleset, given the list of the server's rules at its path.
fn show_ruleset<O: Write>(
    alloc: Global,
    list: &[Bytes],
    ruleset: &Ruleset,
    out: &mut O,
) -> Result<(), Fault> {
    let old = shown_rules(alloc, list)?;
    let new = rule_texts(alloc, ruleset.rules.as_slice())?;
    let heading = rules_heading(alloc, &ruleset.path)?;
    output_checked(write_difference(out, Ok(()), &heading, &old, &new))
}

/// Writes what a load would change of the rules at a path.
fn show_rules<B: BufRead, W: Write, O: Write>(
    alloc: Global,
    server: &mut W,
    replies: &mut B,
    ruleset: &Ruleset,
    out: &mut O,
) -> Result<(), Fault>
    ensures { Writes result (W.contents server.old) (W.contents server.new) (rules_question «ruleset».now) }
{
    let list = ask_list(alloc, server, replies, b"show rules ", &ruleset.path)?;
    show_ruleset(alloc, &list, ruleset, out)
}

/// The same of the rules at each path.
fn show_rulesets<B: BufRead, W: Write, O: Write>(
    alloc: Global,
    server: &mut W,
    replies: &mut B,
    rulesets: &[Ruleset],
    out: &mut O,
) -> Result<(), Fault>
    ensures { Writes result (W.contents server.old) (W.contents server.new) (flat_map rules_question rulesets.now) }
{
    for ruleset in rulesets {
        show_rules(alloc, server, replies, ruleset, out)?;
    }
    Ok(())
}

/// Writes what a load would change of a table, given the list of the tables at its path.
fn show_table<O: Write>(
    alloc: Global,
    list: &[Bytes],
    table: &FilledTable,
    out: &mut O,
) -> Result<(), Fault> {
    let old = shown_table(alloc, list, table.name.as_slice())?;
    let gone = absent_in(alloc, &table.table, &entries_of(alloc, &old)?)?;
    let come = absent_in(alloc, &old, &entries_of(alloc, &table.table)?)?;
    let heading = table_heading(alloc, table)?;
    output_checked(write_changes(out, Ok(()), &heading, &gone, &come))
}

/// The same of those tables that are at this path, given the list of the server's.
fn show_listed<O: Write>(
    alloc: Global,
    list: &[Bytes],
    path: &Path,
    tables: &[FilledTable],
    out: &mut O,
) -> Result<(), Fault> {
    for table in tables {
        if table.path.same(path) {
            show_table(alloc, list, table, out)?;
        }
    }
    Ok(())
}

/// Writes what a load would change of those tables that are at this path.
fn show_tables<B: BufRead, W: Write, O: Write>(
    alloc: Global,
    server: &mut W,
    replies: &mut B,
    path: &Path,
    tables: &[FilledTable],
    out: &mut O,
) -> Result<(), Fault>
    ensures { Writes result (W.contents server.old) (W.contents server.new) (tables_question path.now) }
{
    let list = ask_list(alloc, server, replies, b"show tables ", path)?;
    show_listed(alloc, &list, path, tables, out)
}

/// The same of the tables at each of these paths.
fn show_paths<B: BufRead, W: Write, O: Write>(
    alloc: Global,
    server: &mut W,
    replies: &mut B,
    paths: &[Path],
    tables: &[FilledTable],
    out: &mut O,
) -> Result<(), Fault>
    ensures { Writes result (W.contents server.old) (W.contents server.new) (flat_map tables_question paths.now) }
{
    for path in paths {
        show_tables(alloc, server, replies, path, tables, out)?;
    }
    Ok(())
}

/// Asks a server for the rules and tables that a load of this file would replace, and writes what it would change: for each path whose rules
/// would differ `anchor PATH`, unless it is main's, and below it `- RULE` for each rule that would be gone and `+ RULE` for each that would
/// come; for each table `table PATH NAME`, and so its entries.
///
/// The server isn't asked to change anything: it is sent `show rules PATH` for each path of the file, and then `show tables PATH` for each
/// path at which it fills some; after a fault a front of these lines.
///
/// The faults are those of [`load`](crate::load); `Fault::Output`: the changes can't be written.
pub fn show_changes<B: BufRead, W: Write, O: Write>(
    alloc: Global,
    server: &mut W,
    replies: &mut B,
    conf: &Conf,
    out: &mut O,
) -> Result<(), Fault>
    ensures { Writes result (W.contents server.old) (W.contents server.new) (questions conf.now) }
{
    let tables = conf.tables.as_slice();
    show_rulesets(alloc, server, replies, conf.rulesets.as_slice(), out)?;
    let paths = table_paths(alloc, tables)?;
    show_paths(alloc, server, replies, &paths, tables, out)?;
    output_checked(out.flush())
}
