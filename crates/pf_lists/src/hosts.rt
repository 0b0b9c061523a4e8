//! Hosts of a list.
ghost use Rattle.std.specs.Prelude.{◌≡◌, map, IfOk};
ghost use Rattle.pf_lists.specs.Hosts.{signed, host_words};

use crate::product::Words;
use pf_addr::Net;
use pf_tokens::{Bytes, Items, Place};
use std::alloc::{AllocError, Global};

/// A host of a list.
#[derive(Drop)]
pub struct Host {
    /// Where its network or the name of its table stands.
    pub place: Place,
    /// Its network as it is written, or its table's name in angles.
    pub word: Bytes,
    /// Its network, if it isn't a table.
    pub net: Option<Net>,
    /// Whether a `!` stands before it.
    pub is_negated: bool,
}

/// This word, behind a `!` if it is negated.
fn signed(alloc: Global, is_negated: bool, word: &[u8]) -> Result<Words, AllocError>
    ensures { IfOk result (λ ws. ws ≡ signed is_negated word.now) }
{
    let mut words = Items::new(alloc);
    if is_negated {
        words.push(Items::copied(alloc, b"!")?)?;
    }
    words.push(Items::copied(alloc, word)?)?;
    Ok(words)
}

/// The words that each of these hosts adds to a rule, in order. A `!` belongs to its host alone. `AllocError`: out of memory.
#[tactic(auto, using(crate::proofs::Turns::host_turn))]
pub fn words_of_hosts(alloc: Global, hosts: &[Host]) -> Result<Items<Words>, AllocError>
    ensures { IfOk result (λ words. words ≡ map host_words hosts.now) }
{
    let mut words = Items::new(alloc);
    for host in hosts {
        words.push(signed(alloc, host.is_negated, host.word.as_slice())?)?;
    }
    Ok(words)
}
