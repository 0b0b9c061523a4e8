//! The lines of a server's log. Each begins as all that the program says on standard error, and has no time, which a supervisor adds.
//!
//! Each call takes the result of those before it, and writes after them.
ghost use Rattle.std.specs.Prelude.{◌≡◌, ◌∷◌, ◌++◌, [], codes, decimal};
ghost use Rattle.pf_addr.specs.Writing.{Continues};
ghost use Rattle.pfd.specs.Log.{acknowledges, deed_part, fault_line, fault_word, numbered_line, opening_line, opening_word, reply_line, session_text};

use crate::log::deed::{Deed, write_deed};
use pf_addr::{write_more, write_more_number};
use pf_core::Reply;
use pf_session::EngineFault;
use std::io::{self, Write};

/// Whether a reply acknowledges a change.
pub(crate) fn acknowledges(reply: &Reply) -> bool
    ensures { result ≡ acknowledges reply.now }
{
    matches!(reply, Reply::Applied { .. } | Reply::Stored { .. })
}

/// Writes the line of a reply to what a session asked. A reply that acknowledges no change has none.
pub(crate) fn write_reply_line<W: Write>(
    out: &mut W,
    so_far: io::Result<()>,
    session: u32,
    deed: &Option<Deed>,
    reply: &Reply,
) -> io::Result<()>
    ensures { Continues so_far (W.contents out.old) result (W.contents out.new) (reply_line session deed.now reply.now) }
{
    match reply {
        Reply::Applied { seq, .. } => {
            write_numbered(out, so_far, session, b" applied ", *seq, deed)
        }
        Reply::Stored { seq, .. } => write_numbered(out, so_far, session, b" stored ", *seq, deed),
        Reply::Answer(_) | Reply::Refused(_) => write_more(out, so_far, b""),
    }
}

fn write_numbered<W: Write>(
    out: &mut W,
    so_far: io::Result<()>,
    session: u32,
    word: &[u8],
    seq: u64,
    deed: &Option<Deed>,
) -> io::Result<()>
    ensures { Continues so_far (W.contents out.old) result (W.contents out.new) (numbered_line session word.now seq deed.now) }
{
    let so_far = write_session(out, so_far, session);
    let so_far = write_more(out, so_far, word);
    let so_far = write_more_number(out, so_far, seq);
    let so_far = write_deed_part(out, so_far, deed);
    write_more(out, so_far, b"\n")
}

fn write_session<W: Write>(out: &mut W, so_far: io::Result<()>, session: u32) -> io::Result<()>
    ensures { Continues so_far (W.contents out.old) result (W.contents out.new) (session_text session) }
{
    let so_far = write_more(out, so_far, b"pfd: session ");
    write_more_number(out, so_far, u64::from(session))
}

fn write_deed_part<W: Write>(
    out: &mut W,
    so_far: io::Result<()>,
    deed: &Option<Deed>,
) -> io::Result<()>
    ensures { Continues so_far (W.contents out.old) result (W.contents out.new) (deed_part deed.now) }
{
    match deed {
        Some(deed) => {
            let so_far = write_more(out, so_far, b": ");
            write_deed(out, so_far, deed)
        }
        None => write_more(out, so_far, b""),
    }
}

/// Writes the line of an opening in this epoch.
pub(crate) fn write_opening<W: Write>(
    out: &mut W,
    so_far: io::Result<()>,
    epoch: u32,
    is_renewal: bool,
) -> io::Result<()>
    ensures { Continues so_far (W.contents out.old) result (W.contents out.new) (opening_line epoch is_renewal) }
{
    let so_far = write_more(out, so_far, opening_word(is_renewal));
    let so_far = write_more_number(out, so_far, u64::from(epoch));
    write_more(out, so_far, b"\n")
}

fn opening_word(is_renewal: bool) -> &'static [u8]
    ensures { result.now ≡ opening_word is_renewal }
{
    if is_renewal {
        b"pfd: renewed, epoch "
    } else {
        b"pfd: opened, epoch "
    }
}

/// Writes the line of a connection that a fault ended.
pub(crate) fn write_fault<W: Write>(
    out: &mut W,
    so_far: io::Result<()>,
    session: u32,
    fault: EngineFault,
) -> io::Result<()>
    ensures { Continues so_far (W.contents out.old) result (W.contents out.new) (fault_line session fault) }
{
    let so_far = write_session(out, so_far, session);
    write_more(out, so_far, fault_word(fault))
}

fn fault_word(fault: EngineFault) -> &'static [u8]
    ensures { result.now ≡ fault_word fault }
{
    match fault {
        EngineFault::Read => b" ended: input\n",
        EngineFault::Write => b" ended: output\n",
        EngineFault::Memory => b" ended: memory\n",
    }
}
