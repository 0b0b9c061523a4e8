//! Reading the two ends of a packet's way.
ghost use Rattle.pf_form.specs.Form.Readers.{Moves};
ghost use Rattle.pf_rule.specs.Host.Ends.{end, destination, ends};

use crate::host::host::Host;
use crate::host::host_words::read_host;
use crate::value::{PortTest, read_port};
use pf_form::form::{WordFault, Words, takes};

/// One end of a packet's way: its host, and a test of its port.
pub type End = (Host, Option<PortTest>);

#[tactic(auto, unfolding(crate::specs::Host::Ends::end))]
fn read_end<'a>(words: &mut Words<'a>) -> Result<End, WordFault>
    ensures { Moves end result words.old.now words.new.now }
{
    Ok((read_host(words)?, read_port(words)?))
}

#[tactic(auto, unfolding(crate::specs::Host::Ends::destination))]
fn read_destination<'a>(words: &mut Words<'a>) -> Result<End, WordFault>
    ensures { Moves destination result words.old.now words.new.now }
{
    if takes(words, b"to") {
        read_end(words)
    } else {
        Ok((Host::Any, None))
    }
}

/// Reads a source and a destination. One that isn't named is any host without a port test. The words are then those after it. After an
/// error, which is at the first word that can't be where it is, which words remain is unspecified.
#[tactic(auto, unfolding(crate::specs::Host::Ends::ends))]
pub fn read_ends<'a>(words: &mut Words<'a>) -> Result<(End, End), WordFault>
    ensures { Moves ends result words.old.now words.new.now }
{
    let anywhere = (Host::Any, None);
    if takes(words, b"all") {
        return Ok((anywhere, anywhere));
    }
    if takes(words, b"from") {
        return Ok((read_end(words)?, read_destination(words)?));
    }
    if takes(words, b"to") {
        return Ok((anywhere, read_end(words)?));
    }
    Ok((anywhere, anywhere))
}
