//! Texts of tickets.
ghost use Rattle.std.specs.Prelude.{◌≡◌, ◌+◌, ◌∷◌, ◌++◌, codes};
ghost use Rattle.pf_ticket.specs.Names.{ticket as the_ticket, tickets_from, tickets_of};
ghost use Rattle.pf_line.specs.{Reply.TextLines.GoesOn, Reply.Texts.{ticket_text, tickets_text}};

use crate::reply::part::{write_numbered, write_part};
use pf_ticket::TicketRange;
use std::io::{self, Write};

#[tactic(auto, using(crate::proofs::Writers::goes_on))]
pub(crate) fn write_given<W: Write>(
    out: &mut W,
    so_far: io::Result<()>,
    given: TicketRange,
) -> io::Result<()>
    ensures { GoesOn so_far (W.contents out.old) result (W.contents out.new) (codes "ok" ++ tickets_text (tickets_of given)) }
{
    let so_far = write_part(out, so_far, b"ok");
    write_tickets(out, so_far, given)
}

/// Writes each ticket, each after a space.
fn write_tickets<W: Write>(out: &mut W, begun: io::Result<()>, given: TicketRange) -> io::Result<()>
    ensures { GoesOn begun (W.contents out.old) result (W.contents out.new) (tickets_text (tickets_of given)) }
{
    let mut so_far = begun;
    for i in 0..given.number {
        so_far = write_next(
            out,
            so_far,
            given.first.epoch,
            given.first.count as u64 + i as u64,
        );
    }
    so_far
}

/// Writes the ticket of this epoch and count after a space.
fn write_next<W: Write>(
    out: &mut W,
    so_far: io::Result<()>,
    epoch: u32,
    count: u64,
) -> io::Result<()>
    ensures { GoesOn so_far (W.contents out.old) result (W.contents out.new) (32 ∷ ticket_text (the_ticket epoch count)) }
{
    let so_far = write_numbered(out, so_far, b" ", epoch as u64);
    write_numbered(out, so_far, b".", count)
}
