//! The lines of what is shown.
ghost use Rattle.std.specs.Prelude.{◌≡◌, []};
ghost use Rattle.pf_rule.specs.RuleText.{rule_text};
ghost use Rattle.pf_line.specs.{Reply.TextLines.{GoesOn, WroteLines}, Reply.Replies.{rule_line, rule_lines, table_line, table_lines}};

use crate::reply::entry::write_entries;
use crate::reply::part::{end_line, write_numbered, write_part};
use pf_addr::path::TableName;
use pf_anchor::PlacedTable;
use pf_rule::Rule;
use std::io::{self, Write};

/// Writes a line for each rule, with its number from 0.
pub(crate) fn write_rules<W: Write>(out: &mut W, rules: &[Rule]) -> io::Result<()>
    ensures { WroteLines result (W.contents out.old) (W.contents out.new) (rule_lines 0 rules.now) }
{
    let mut so_far = Ok(());
    for (number, rule) in rules.iter().enumerate() {
        so_far = write_rule(out, so_far, number as u64, rule);
        so_far = end_line(out, so_far);
    }
    so_far
}

/// Writes a line for each table.
pub(crate) fn write_tables<W: Write>(out: &mut W, tables: &[PlacedTable]) -> io::Result<()>
    ensures { WroteLines result (W.contents out.old) (W.contents out.new) (table_lines tables.now) }
{
    let mut so_far = Ok(());
    for table in tables {
        so_far = write_table(out, so_far, table);
        so_far = end_line(out, so_far);
    }
    so_far
}

// Each of these writes a part of one line after what was written so far.

fn write_rule<W: Write>(
    out: &mut W,
    so_far: io::Result<()>,
    number: u64,
    rule: &Rule,
) -> io::Result<()>
    ensures { GoesOn so_far (W.contents out.old) result (W.contents out.new) (rule_line number rule.now) }
{
    let so_far = write_numbered(out, so_far, b"@", number);
    let so_far = write_part(out, so_far, b" ");
    write_rule_text(out, so_far, rule)
}

fn write_rule_text<W: Write>(out: &mut W, so_far: io::Result<()>, rule: &Rule) -> io::Result<()>
    ensures { GoesOn so_far (W.contents out.old) result (W.contents out.new) (rule_text rule.now) }
{
    // The call gives the invariant of each rule (`kept`), and so that the rule's text has no newline.
    let _kept = rule.effect();
    match so_far {
        Ok(()) => rule.write(out),
        Err(e) => Err(e),
    }
}

#[tactic(auto, using(crate::proofs::Writers::goes_on))]
fn write_table<W: Write>(out: &mut W, so_far: io::Result<()>, table: &PlacedTable) -> io::Result<()>
    ensures { GoesOn so_far (W.contents out.old) result (W.contents out.new) (table_line table.now) }
{
    let so_far = write_name(out, so_far, &table.key().1);
    write_entries(out, so_far, table.value())
}

fn write_name<W: Write>(out: &mut W, so_far: io::Result<()>, name: &TableName) -> io::Result<()>
    ensures { GoesOn so_far (W.contents out.old) result (W.contents out.new) name.now }
{
    write_part(out, so_far, name.as_bytes())
}
