//! Texts of a table's entries.
ghost use Rattle.std.specs.Prelude.{◌≡◌, ◌∷◌};
ghost use Rattle.pf_addr.specs.Spelling.{net_text};
ghost use Rattle.pf_line.specs.{Reply.TextLines.{newlines, GoesOn}, Reply.Texts.{sign_text, entry_text, entries_text}};

use crate::reply::part::write_part;
use pf_addr::{Net, net_text_is_one_word, write_more_net};
use pf_table::{Entry, Table};
use std::io::{self, Write};

/// Writes each entry of a table, each after a space.
pub(crate) fn write_entries<W: Write>(
    out: &mut W,
    begun: io::Result<()>,
    table: &Table,
) -> io::Result<()>
    ensures { GoesOn begun (W.contents out.old) result (W.contents out.new) (entries_text table.now) }
{
    let mut so_far = begun;
    for entry in table.entries() {
        so_far = write_part(out, so_far, b" ");
        so_far = write_entry(out, so_far, *entry);
    }
    so_far
}

/// Writes an entry: its network, with an exclamation mark before it if it is negated.
pub(crate) fn write_entry<W: Write>(
    out: &mut W,
    so_far: io::Result<()>,
    entry: Entry,
) -> io::Result<()>
    ensures { GoesOn so_far (W.contents out.old) result (W.contents out.new) (entry_text entry) }
{
    let so_far = write_part(out, so_far, sign(entry.is_negated()));
    write_network(out, so_far, entry.net())
}

fn sign(is_negated: bool) -> &'static [u8]
    ensures text { result.now ≡ sign_text is_negated }
    ensures one_line { newlines result.now ≡ 0 }
{
    if is_negated { b"!" } else { b"" }
}

pub(crate) fn write_network<W: Write>(
    out: &mut W,
    so_far: io::Result<()>,
    net: Net,
) -> io::Result<()>
    ensures { GoesOn so_far (W.contents out.old) result (W.contents out.new) (net_text net) }
{
    // The law says which bytes a network's text has, and its family gives the invariant of each network.
    net_text_is_one_word();
    let _kept = net.family();
    write_more_net(out, so_far, net)
}
