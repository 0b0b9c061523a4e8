//! The lines of a file, where interfaces have addresses.
ghost use Rattle.std.specs.Prelude.{◌≡◌};
ghost use Rattle.pf_values.specs.Interfaces.Addresses.{antispoof_in};
ghost use Rattle.pf_parse.specs.Stops.{Gives};
ghost use Rattle.pf_conf.specs.Lines.{spoof_refused, parsed_with};

use pf_parse::{Mistake, Mode, Parsed, Reason, Stop, parse, refusal};
use pf_tokens::Token;
use pf_values::interfaces::{Interface, antispoof_in, with_addresses};
use std::alloc::Global;

/// Refuses the first `antispoof`, one of whose rules is for all interfaces but one.
fn check_spoof(alloc: Global, tokens: &[Token]) -> Result<(), Stop>
    ensures { Gives result (spoof_refused (antispoof_in tokens.now)) }
{
    let Some(token) = antispoof_in(tokens) else {
        return Ok(());
    };
    let word = token.bytes(alloc)?;
    let mistake = Mistake::Refused(word, Reason::NegatedInterface);
    Err(refusal(token.place, mistake))
}

/// What the tokens of a file have, where each name of these interfaces as a host stands for their addresses.
#[tactic(auto, unfolding(crate::specs::Lines::parsed_with))]
pub(crate) fn parse_with(
    alloc: Global,
    interfaces: &[Interface],
    tokens: &[Token],
    mode: Mode,
    is_main: bool,
) -> Result<Parsed, Stop>
    ensures { Gives result (parsed_with interfaces.now tokens.now mode is_main) }
{
    if interfaces.is_empty() {
        return parse(alloc, tokens, mode, is_main);
    }
    check_spoof(alloc, tokens)?;
    let known = with_addresses(alloc, interfaces, tokens)?;
    parse(alloc, known.as_slice(), mode, is_main)
}
