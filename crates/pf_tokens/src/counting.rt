//! How many words are read.
ghost use Rattle.std.specs.Prelude.{◌≡◌};
ghost use Rattle.pf_tokens.specs.{Stops.Leaves, Counting.{weight, counted, counted_at}};

use crate::fault::{Mistake, TokenStop, refusal};
use crate::place::Place;
use crate::token::Token;

/// The most words that are read, of files and of what macros stand for. A token whose text has eight bytes or more counts as several.
pub const TOKEN_LIMIT: usize = 262_144;

/// As how many words a token counts: one, and one more for every eight bytes of its text.
fn weight(token: &Token) -> usize
    ensures { result ≡ weight token.now }
{
    1 + token.text.len() / 8
}

/// Counts a token. `Faulty`, at this place: it is past the limit.
#[tactic(auto, unfolding(crate::specs::Counting::counted))]
pub(crate) fn count(place: Place, words_read: &mut usize, token: &Token) -> Result<(), TokenStop>
    ensures { Leaves result words_read.new (counted place words_read.old token.now) }
{
    let weight = weight(token);
    if weight > TOKEN_LIMIT.saturating_sub(*words_read) {
        return Err(refusal(place, Mistake::ManyWords));
    }
    *words_read += weight;
    Ok(())
}

/// Counts the tokens that a macro stands for, whose use is at this place.
#[tactic(auto, using(crate::proofs::Steps::drop_item, std::proofs::lemmas::List::drop_all), unfolding(crate::specs::Counting::counted_at))]
pub(crate) fn count_at(
    place: Place,
    words_read: &mut usize,
    tokens: &[Token],
) -> Result<(), TokenStop>
    ensures { Leaves result words_read.new (counted_at place words_read.old tokens.now) }
{
    for token in tokens {
        count(place, words_read, token)?;
    }
    Ok(())
}
