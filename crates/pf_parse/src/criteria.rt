//! What a rule tests.
ghost use Rattle.std.specs.Prelude.{◌≡◌, ◌∷◌, [], IfOk};
ghost use Rattle.pf_form.specs.Form.Words.{texts};
ghost use Rattle.pf_parse.specs.Reading.{Takes};
ghost use Rattle.pf_parse.specs.Lists.{all_tested};
ghost use Rattle.pf_parse.specs.Criteria.{nothing, if_word, any_side, no_tests, interface_word, interface_words, tested_interfaces, family, protocols, side_hosts, side, sides, tests};

use crate::fault::Stop;
use crate::lists::Tested;
use crate::parser::{Parser, words_of};
use crate::tree::{Side, Tests};
use pf_lists::{Words, words_of_hosts};
use pf_tokens::{Items, Token};
use std::alloc::{AllocError, Global};

/// A list of one item, with these words.
fn only(alloc: Global, words: &[&[u8]]) -> Result<Items<Words>, AllocError>
    ensures { IfOk result (λ list. list ≡ texts words.now ∷ []) }
{
    let mut list = Items::new(alloc);
    list.push(words_of(alloc, words)?)?;
    Ok(list)
}

/// The words that an interface adds to a rule.
pub(crate) fn interface_word(alloc: Global, interface: &Token) -> Result<Words, AllocError>
    ensures { IfOk result (λ words. words ≡ interface_word interface.now) }
{
    let name = interface.bytes(alloc)?;
    words_of(alloc, &[b"on", name.as_slice()])
}

/// The words that each of these interfaces adds to a rule.
#[tactic(auto, using(crate::proofs::Steps::interface_item))]
fn interface_words(alloc: Global, interfaces: &[Token]) -> Result<Items<Words>, AllocError>
    ensures { IfOk result (λ words. words ≡ interface_words interfaces.now) }
{
    let mut list = Items::new(alloc);
    for interface in interfaces {
        list.push(interface_word(alloc, interface)?)?;
    }
    Ok(list)
}

/// The tests of a rule that tests nothing.
pub(crate) fn no_tests(alloc: Global) -> Result<Tests, AllocError>
    ensures { IfOk result (λ t. t ≡ no_tests) }
{
    Ok(Tests {
        interfaces: only(alloc, &[])?,
        family: Items::new(alloc),
        protocols: only(alloc, &[])?,
        source: any_side(alloc)?,
        destination: any_side(alloc)?,
    })
}

fn any_side(alloc: Global) -> Result<Side, AllocError>
    ensures { IfOk result (λ side. side ≡ any_side) }
{
    Ok(Side {
        hosts: only(alloc, &[b"any"])?,
        ports: only(alloc, &[])?,
    })
}

impl Parser<'_> {
    /// What a rule tests.
    #[tactic(auto, unfolding(crate::specs::Criteria::tests))]
    pub(crate) fn tests(&mut self) -> Result<Tests, Stop>
        ensures { Takes result self.new (tests self.old) }
    {
        let interfaces = self.tested_interfaces()?;
        let family = self.family()?;
        let protocols = self.protocols()?;
        let (source, destination) = self.sides()?;
        Ok(Tests {
            interfaces,
            family,
            protocols,
            source,
            destination,
        })
    }

    #[tactic(auto, unfolding(crate::specs::Criteria::tested_interfaces))]
    fn tested_interfaces(&mut self) -> Result<Items<Words>, Stop>
        ensures { Takes result self.new (tested_interfaces self.old) }
    {
        if !self.takes_word(b"on") {
            return Ok(only(self.alloc(), &[])?);
        }
        let interfaces = self.interfaces()?;
        Ok(interface_words(self.alloc(), interfaces.as_slice())?)
    }

    #[tactic(auto, unfolding(crate::specs::Criteria::family))]
    fn family(&mut self) -> Result<Words, Stop>
        ensures { Takes result self.new (family self.old) }
    {
        if self.takes_word(b"inet") {
            return Ok(words_of(self.alloc(), &[b"inet"])?);
        }
        if self.takes_word(b"inet6") {
            return Ok(words_of(self.alloc(), &[b"inet6"])?);
        }
        Ok(Items::new(self.alloc()))
    }

    /// What is tested behind this word. Nothing is, if the word doesn't come next.
    fn tested_after(&mut self, word: &[u8], what: Tested) -> Result<Items<Words>, Stop>
        ensures { Takes result self.new (if_word word.now (all_tested what) nothing self.old) }
    {
        if self.takes_word(word) {
            return self.tested(what);
        }
        Ok(only(self.alloc(), &[])?)
    }

    #[tactic(auto, unfolding(crate::specs::Criteria::protocols))]
    fn protocols(&mut self) -> Result<Items<Words>, Stop>
        ensures { Takes result self.new (protocols self.old) }
    {
        self.tested_after(b"proto", Tested::Protocol)
    }

    /// The source and the destination.
    #[tactic(auto, unfolding(crate::specs::Criteria::sides))]
    fn sides(&mut self) -> Result<(Side, Side), Stop>
        ensures { Takes result self.new (sides self.old) }
    {
        if self.takes_word(b"all") {
            return Ok((any_side(self.alloc())?, any_side(self.alloc())?));
        }
        let source = self.side_after(b"from")?;
        let destination = self.side_after(b"to")?;
        Ok((source, destination))
    }

    /// The side behind this word. It is any, if the word doesn't come next.
    fn side_after(&mut self, word: &[u8]) -> Result<Side, Stop>
        ensures { Takes result self.new (if_word word.now side any_side self.old) }
    {
        if self.takes_word(word) {
            return self.side();
        }
        Ok(any_side(self.alloc())?)
    }

    /// The hosts and ports of one side.
    #[tactic(auto, unfolding(crate::specs::Criteria::side))]
    fn side(&mut self) -> Result<Side, Stop>
        ensures { Takes result self.new (side self.old) }
    {
        let hosts = self.side_hosts()?;
        let ports = self.tested_after(b"port", Tested::Port)?;
        Ok(Side { hosts, ports })
    }

    /// The hosts of one side.
    #[tactic(auto, unfolding(crate::specs::Criteria::side_hosts))]
    fn side_hosts(&mut self) -> Result<Items<Words>, Stop>
        ensures { Takes result self.new (side_hosts self.old) }
    {
        if self.next_is_word(b"port") || self.takes_word(b"any") {
            return Ok(only(self.alloc(), &[b"any"])?);
        }
        let hosts = self.hosts()?;
        Ok(words_of_hosts(self.alloc(), hosts.as_slice())?)
    }
}
