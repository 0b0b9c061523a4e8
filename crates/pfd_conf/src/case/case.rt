//! Lines of cases.
ghost use Rattle.std.specs.Prelude.{◌≡◌, ◌-◌, List, Result};
ghost use Rattle.pf_form.specs.{Form.Forms.Reader, Form.Readers.{Moves, MovesBy}, Form.Words.{Word, texts}};
ghost use denote.Ref.{Bor};
ghost use Rattle.pf_rule.specs.{PacketGrammar.packet, Refusals.{reading, fault_at, fault_for, text_result_by}};
ghost use Rattle.pfd_conf.specs.Case.Cases.{case, cased};

use crate::case::wanted::{Wanted, read_wanted};
use pf_form::form::{Kind, WordFault, Words, end, expect};
use pf_rule::{Mistake, Packet, TextFault};

/// A packet, and what is wanted of its verdict.
#[derive(Drop)]
pub struct Case {
    pub packet: Packet,
    pub wanted: Wanted,
}

/// Reads a packet from its words: direction, interface, protocol, source, its port, destination, its port. A refusal says at which word,
/// from 0, no packet's text can continue, or that the addresses are of different families.
pub fn read_packet<'a>(words: Words<'a>) -> Result<Packet, TextFault>
    ensures { result ≡ reading packet (texts words.now) }
{
    let mut rest = words;
    let read = Packet::read(&mut rest);
    text_result(read, rest, words.len())
}

/// Reads a case from its words: a packet's ([`read_packet`]), `->`, and what is wanted ([`read_wanted`]). A refusal says at which word, from
/// 0, no case's text can continue, or that the packet's addresses are of different families.
pub fn read_case<'a>(words: Words<'a>) -> Result<Case, TextFault>
    ensures { result ≡ reading case (texts words.now) }
{
    let mut rest = words;
    let read = case_words(&mut rest);
    text_result(read, rest, words.len())
}

#[tactic(auto, unfolding(crate::specs::Case::Cases::case))]
fn case_words<'a>(words: &mut Words<'a>) -> Result<Result<Case, Mistake>, WordFault>
    ensures { Moves case result words.old.now words.new.now }
{
    let packet = Packet::read(words)?;
    expect(words, b"->")?;
    let wanted = read_wanted(words)?;
    Ok(cased(packet, wanted))
}

fn cased(packet: Result<Packet, Mistake>, wanted: Wanted) -> Result<Case, Mistake>
    ensures { result ≡ cased (packet, wanted) }
{
    match packet {
        Ok(packet) => Ok(Case { packet, wanted }),
        Err(mistake) => Err(mistake),
    }
}

// The fault of a text of so many words whose reading stopped there.
fn fault_of(stop: WordFault, count: usize) -> TextFault
    ensures { result ≡ fault_at stop.kind (count - stop.left) }
{
    let at = count.saturating_sub(stop.left);
    match stop.kind {
        Kind::BadWord => TextFault::BadWord { at },
        Kind::NameTooLong => TextFault::NameTooLong { at },
        Kind::BadProto => TextFault::BadProto { at },
    }
}

fn fault_for(mistake: Mistake) -> TextFault
    ensures { result ≡ fault_for mistake }
{
    match mistake {
        Mistake::MixedFamily => TextFault::MixedFamily,
        Mistake::PortNeedsProto => TextFault::PortNeedsProto,
    }
}

// What a text of so many words gives, from what was read of it and the words that are left.
fn text_result<T: Drop>(
    read: Result<Result<T, Mistake>, WordFault>,
    rest: Words<'_>,
    count: usize,
) -> Result<T, TextFault>
    ensures { (at : Reader (Result T Mistake)) (ws : List (Bor Word)) → MovesBy at read ws rest.now → result ≡ text_result_by count at (texts ws) }
{
    match (read, end(rest)) {
        (Err(stop), _) | (Ok(_), Err(stop)) => Err(fault_of(stop, count)),
        (Ok(Err(mistake)), Ok(())) => Err(fault_for(mistake)),
        (Ok(Ok(value)), Ok(())) => Ok(value),
    }
}
