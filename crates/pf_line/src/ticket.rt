//! Texts of tickets.
ghost use Rattle.std.specs.{Prelude.{◌≡◌, ◌<◌, length, IfSome}, List.position};
ghost use Rattle.pf_line.specs.{Grammar.ticket_word, Tickets.{is_dot, part_of, ticket_of}};

use pf_form::form::{Kind, read_number};
use pf_ticket::Ticket;

/// How many digits an epoch or a count may have, leading zeros among them.
pub(crate) const DIGIT_LIMIT: usize = 10;

/// The ticket that a word spells: two numbers of 1 to 10 decimal digits, each below 2^32, with a dot between them.
pub(crate) fn read_ticket(word: &[u8]) -> Result<Ticket, Kind>
    ensures { result ≡ ticket_word word.now }
{
    ticket(word).ok_or(Kind::BadWord)
}

#[tactic(auto, unfolding(crate::specs::Tickets::ticket_of))]
fn ticket(word: &[u8]) -> Option<Ticket>
    ensures { result ≡ ticket_of word.now }
{
    let dot = first_dot(word)?;
    let epoch = part(&word[..dot])?;
    let count = part(&word[dot + 1..])?;
    Some(Ticket { epoch, count })
}

fn first_dot(word: &[u8]) -> Option<usize>
    ensures place { result ≡ position is_dot word.now }
    ensures within { IfSome result (λ i. i < length word.now) }
{
    word.iter().position(|b| *b == b'.')
}

/// An epoch or a count, or the creator of a state.
pub(crate) fn part(text: &[u8]) -> Option<u32>
    ensures { result ≡ part_of text.now }
{
    match read_number(text, DIGIT_LIMIT) {
        Some(number) if number < 0x1_0000_0000 => Some(number as u32),
        _ => None,
    }
}
