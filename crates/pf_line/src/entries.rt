//! Words of a table's entries.
ghost use Rattle.std.specs.Prelude.{◌≡◌};
ghost use Rattle.pf_addr.specs.Reading.{net_at};
ghost use Rattle.pf_line.specs.Entries.{entry_of, signed};

use pf_addr::Net;
use pf_form::form::Kind;
use pf_table::Entry;

/// The entry that a word spells: a network, with a `!` joined to it if it is negated. A lone `!`, or a second one, is a bad word.
#[tactic(auto, unfolding(crate::specs::Entries::entry_of))]
pub(crate) fn entry_of(word: &[u8]) -> Result<Entry, Kind>
    ensures { result ≡ entry_of word.now }
{
    match word {
        [b'!', network @ ..] => signed(true, network),
        [_, ..] => signed(false, word),
        [] => Err(Kind::BadWord),
    }
}

fn signed(is_negated: bool, network: &[u8]) -> Result<Entry, Kind>
    ensures { result ≡ signed is_negated (net_at network.now) }
{
    match Net::from_ascii(network) {
        Ok(net) => Ok(Entry::new(net, is_negated)),
        Err(_) => Err(Kind::BadWord),
    }
}
