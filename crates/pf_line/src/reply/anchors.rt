//! The text of anchors.
ghost use Rattle.std.specs.{Prelude.{◌≡◌, ◌≢◌, ◌+◌, length, IfErr}, IoError.error_kind};
ghost use Rattle.pf_addr.specs.Writing.{Writes};
ghost use Rattle.pf_line.specs.{Reply.TextLines.{HasLines, GoesOn, WroteLines}, Reply.AnchorTexts.{anchors_text}};

use crate::reply::part::{end_line, write_numbered, write_part};
use pf_addr::path::laws::{paths_are_read_again, paths_are_read_as_spelled};
use pf_anchor::Path;
use std::io::{self, ErrorKind, Write};

/// Writes a line for each of these anchors, none of which is main's, and behind them how many there are, like
/// [`write_reply`](crate::write_reply).
pub fn write_anchors<W: Write>(out: &mut W, paths: &[Path]) -> io::Result<()>
    ensures text { Writes result (W.contents out.old) (W.contents out.new) (anchors_text paths.now) }
    ensures retried { IfErr result (λ e. error_kind e ≢ ErrorKind.Interrupted) }
    ensures lines { HasLines (length paths.now + 1) (anchors_text paths.now) }
{
    let so_far = write_paths(out, paths);
    let so_far = write_numbered(out, so_far, b"end ", paths.len() as u64);
    end_line(out, so_far)
}

// Writes a line for each path.
fn write_paths<W: Write>(out: &mut W, paths: &[Path]) -> io::Result<()>
    ensures { WroteLines result (W.contents out.old) (W.contents out.new) paths.now }
{
    let mut so_far = Ok(());
    for path in paths {
        so_far = write_path(out, so_far, path);
        so_far = end_line(out, so_far);
    }
    so_far
}

fn write_path<W: Write>(out: &mut W, so_far: io::Result<()>, path: &Path) -> io::Result<()>
    ensures { GoesOn so_far (W.contents out.old) result (W.contents out.new) path.now }
{
    // The laws say which bytes each path has, and so that its text has no newline.
    paths_are_read_as_spelled();
    paths_are_read_again();
    write_part(out, so_far, path.as_bytes())
}
