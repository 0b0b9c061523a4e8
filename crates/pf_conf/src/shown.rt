//! What is printed of a file's rulesets and tables.
ghost use Rattle.std.specs.Prelude.{◌≡◌, decimal, ◌++◌, codes};
ghost use Rattle.pf_addr.specs.Writing.{Wrote, Continues};
ghost use Rattle.pf_rule.specs.RuleText.{rule_text};
ghost use Rattle.pf_conf.specs.Shown.{rule_line, rule_lines, path_line, ruleset_lines, rulesets_lines, table_line, tables_lines, shown};

use crate::found::{Conf, FilledTable, Ruleset, path_text};
use crate::tables::write_entries;
use pf_addr::path::Path;
use pf_addr::{write_more, write_more_number};
use pf_parse::At;
use pf_rule::Rule;
use std::io::{self, Write};

/// Writes the rules of each path, numbered from 0, behind its path if it isn't main's; then each table that is filled. Returns the writer's
/// first error, except that a write that a signal interrupts is tried again; then a front of the text has been written.
pub fn write_conf<W: Write>(out: &mut W, conf: &Conf) -> io::Result<()>
    ensures { Wrote result (W.contents out.old) (W.contents out.new) (shown conf.now) }
{
    let so_far = write_rulesets(out, Ok(()), conf.rulesets.as_slice());
    write_tables(out, so_far, conf.tables.as_slice())
}

// Several texts in a row. Each call takes the result of those before it, so that only the last result needs checking.

fn write_rulesets<W: Write>(
    out: &mut W,
    begun: io::Result<()>,
    rulesets: &[Ruleset],
) -> io::Result<()>
    ensures { Continues begun (W.contents out.old) result (W.contents out.new) (rulesets_lines rulesets.now) }
{
    let mut so_far = begun;
    for ruleset in rulesets {
        so_far = write_path(out, so_far, &ruleset.path);
        so_far = write_rules(out, so_far, ruleset.rules.as_slice());
    }
    so_far
}

fn write_path<W: Write>(out: &mut W, so_far: io::Result<()>, path: &Path) -> io::Result<()>
    ensures { Continues so_far (W.contents out.old) result (W.contents out.new) (path_line path.now) }
{
    let path = path.as_bytes();
    if path.is_empty() {
        return write_more(out, so_far, b"");
    }
    let so_far = write_more(out, so_far, b"anchor ");
    let so_far = write_more(out, so_far, path);
    write_more(out, so_far, b"\n")
}

fn write_rules<W: Write>(out: &mut W, begun: io::Result<()>, rules: &[At<Rule>]) -> io::Result<()>
    ensures { Continues begun (W.contents out.old) result (W.contents out.new) (rule_lines 0 rules.now) }
{
    let mut so_far = begun;
    for (number, rule) in rules.iter().enumerate() {
        so_far = write_rule_line(out, so_far, number as u64, &rule.is);
    }
    so_far
}

fn write_rule_line<W: Write>(
    out: &mut W,
    so_far: io::Result<()>,
    number: u64,
    rule: &Rule,
) -> io::Result<()>
    ensures { Continues so_far (W.contents out.old) result (W.contents out.new) (rule_line number rule.now) }
{
    let so_far = write_more(out, so_far, b"@");
    let so_far = write_more_number(out, so_far, number);
    let so_far = write_more(out, so_far, b" ");
    let so_far = write_rule(out, so_far, rule);
    write_more(out, so_far, b"\n")
}

fn write_rule<W: Write>(out: &mut W, so_far: io::Result<()>, rule: &Rule) -> io::Result<()>
    ensures { Continues so_far (W.contents out.old) result (W.contents out.new) (rule_text rule.now) }
{
    match so_far {
        Ok(()) => rule.write(out),
        Err(e) => Err(e),
    }
}

fn write_tables<W: Write>(
    out: &mut W,
    begun: io::Result<()>,
    tables: &[FilledTable],
) -> io::Result<()>
    ensures { Continues begun (W.contents out.old) result (W.contents out.new) (tables_lines tables.now) }
{
    let mut so_far = begun;
    for table in tables {
        so_far = write_table(out, so_far, table);
    }
    so_far
}

fn write_table<W: Write>(out: &mut W, so_far: io::Result<()>, table: &FilledTable) -> io::Result<()>
    ensures { Continues so_far (W.contents out.old) result (W.contents out.new) (table_line table.now) }
{
    let so_far = write_more(out, so_far, b"table ");
    let so_far = write_more(out, so_far, path_text(&table.path));
    let so_far = write_more(out, so_far, b" ");
    let so_far = write_more(out, so_far, table.name.as_slice());
    let so_far = write_entries(out, so_far, &table.table);
    write_more(out, so_far, b"\n")
}
