//! Texts of tables' entries.
ghost use Rattle.std.specs.Prelude.{◌≡◌, codes, if◌then◌else◌, []};
ghost use Rattle.pf_addr.specs.Writing.{Continues};
ghost use Rattle.pf_conf.specs.Tables.{entry_text, entries_text};

use pf_addr::{write_more, write_more_net};
use pf_table::{Entry, Table};
use std::io::{self, Write};

fn sign(is_negated: bool) -> &'static [u8]
    ensures { result.now ≡ (if is_negated then codes "!" else []) }
{
    if is_negated { b"!" } else { b"" }
}

/// Writes an entry as it is shown.
fn write_entry<W: Write>(out: &mut W, so_far: io::Result<()>, entry: Entry) -> io::Result<()>
    ensures { Continues so_far (W.contents out.old) result (W.contents out.new) (entry_text entry) }
{
    let so_far = write_more(out, so_far, sign(entry.is_negated()));
    write_more_net(out, so_far, entry.net())
}

/// Writes each entry of a table, each behind a space.
pub(crate) fn write_entries<W: Write>(
    out: &mut W,
    begun: io::Result<()>,
    table: &Table,
) -> io::Result<()>
    ensures { Continues begun (W.contents out.old) result (W.contents out.new) (entries_text table.now) }
{
    let mut so_far = begun;
    for entry in table.entries() {
        so_far = write_more(out, so_far, b" ");
        so_far = write_entry(out, so_far, *entry);
    }
    so_far
}
