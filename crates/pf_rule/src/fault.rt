//! Why a text could not be read.
ghost use Rattle.std.specs.Prelude.{◌≡◌, ◌-◌, List, Result};
ghost use denote.Ref.{Bor};
ghost use Rattle.pf_form.specs.{Form.Forms.Reader, Form.Readers.MovesBy, Form.Words.{Word, texts}};
ghost use Rattle.pf_rule.specs.Refusals.{fault_at, fault_for, text_result_by};
ghost use Rattle.pf_rule.specs.declared.{fault.Mistake.Mistake, fault.TextFault.TheVariants.Memory};

use pf_form::form::{Kind, WordFault, Words, end};
use std::alloc::AllocError;
use thiserror::Error;

/// What is wrong with a text whose words are each good.
#[derive(Clone, Copy)]
pub enum Mistake {
    /// The text's addresses, networks and family word aren't all of one family.
    MixedFamily,
    /// A port is tested, but the protocol isn't TCP or UDP.
    PortNeedsProto,
}

/// Why a text isn't a rule or a packet. `at` is a word's number, from 0, or the number of words if one is missing.
#[derive(Clone, Copy, Debug, PartialEq, Eq, Error)]
pub enum TextFault {
    /// The first word that can't be where it is.
    #[error("a word that can't stand there, or is missing, at word {at}")]
    BadWord { at: usize },
    /// A name or a reference past its limit of bytes or of components.
    #[error("a name past its limit at word {at}")]
    NameTooLong { at: usize },
    /// A word that isn't a protocol where one must be.
    #[error("no protocol at word {at}")]
    BadProto { at: usize },
    /// All words are good, but their addresses, networks and family aren't all of one family.
    #[error("addresses, networks or a family that differ in family")]
    MixedFamily,
    /// All words are good, but a port is tested and the protocol isn't TCP or UDP. Only for a rule's text.
    #[error("ports are tested, and the protocol has none")]
    PortNeedsProto,
    /// Out of memory.
    #[error("no memory")]
    Memory,
}

/// The fault for a text of `count` words whose reading stopped there.
fn fault_of(stop: WordFault, count: usize) -> TextFault
    ensures { result ≡ fault_at stop.kind (count - stop.left) }
{
    let at = count.saturating_sub(stop.left);
    match stop.kind {
        Kind::BadWord => TextFault::BadWord { at },
        Kind::NameTooLong => TextFault::NameTooLong { at },
        Kind::BadProto => TextFault::BadProto { at },
    }
}

fn fault_for(mistake: Mistake) -> TextFault
    ensures { result ≡ fault_for mistake }
{
    match mistake {
        Mistake::MixedFamily => TextFault::MixedFamily,
        Mistake::PortNeedsProto => TextFault::PortNeedsProto,
    }
}

/// The result for a text of `count` words, from what was read of it and the words that are left.
pub(crate) fn tell<T: Copy>(
    read: Result<Result<T, Mistake>, WordFault>,
    rest: Words<'_>,
    count: usize,
) -> Result<T, TextFault>
    ensures { (at : Reader (Result T Mistake)) (ws : List (Bor Word)) → MovesBy at read ws rest.now → result ≡ text_result_by count at (texts ws) }
{
    match (read, end(rest)) {
        (Err(stop), _) | (Ok(_), Err(stop)) => Err(fault_of(stop, count)),
        (Ok(Err(mistake)), Ok(())) => Err(fault_for(mistake)),
        (Ok(Ok(value)), Ok(())) => Ok(value),
    }
}

impl From<AllocError> for TextFault {
    ghost from_gives = { λ _ e. e ≡ Memory };

    fn from(_e: AllocError) -> TextFault {
        TextFault::Memory
    }
}
