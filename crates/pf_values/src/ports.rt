//! Ports.
ghost use Rattle.std.specs.{Prelude.{◌≡◌, ◌<◌, ◌==◌, length, IfSome, position}};
ghost use Rattle.pf_values.specs.Ports.{port_of, single_port_of, ports_of};

use crate::names::service_port;
use crate::numbers::{Mistake, is_digits, number_between};

/// A test of ports by their numbers.
#[derive(Clone, Copy, Debug, PartialEq, Eq)]
pub enum PortNumbers {
    One(u16),
    /// Those from this one to that one.
    Range(u16, u16),
}

/// The number of a port, 0 to 65535, or of the service with this name. `Mistake::Zeros`: the number has zeros in front;
/// `Mistake::PortNumber`: no port has it; `Mistake::Port`: the text is no number, and no service that is known here has this name.
#[tactic(auto, unfolding(crate::specs::Ports::port_of))]
pub fn port(text: &[u8]) -> Result<u16, Mistake>
    ensures { result ≡ port_of text.now }
{
    if is_digits(text) {
        return number_between(0, u16::MAX, text, Mistake::PortNumber);
    }
    service_port(text).ok_or(Mistake::Port)
}

/// The place of the first such byte.
fn place_of(byte: u8, text: &[u8]) -> Option<usize>
    ensures place { result ≡ position (λ b. b == byte) text.now }
    ensures bound { IfSome result (λ at. at < length text.now) }
{
    text.iter().position(|b| *b == byte)
}

/// The same where two ports with a colon between them can't stand: `Mistake::Colon`.
pub fn single_port(text: &[u8]) -> Result<u16, Mistake>
    ensures { result ≡ single_port_of text.now }
{
    match place_of(b':', text) {
        Some(_) => Err(Mistake::Colon),
        None => port(text),
    }
}

/// A port, or two with a colon between them, of which the first has the first mistake. Two that are the same are one.
pub fn port_or_range(text: &[u8]) -> Result<PortNumbers, Mistake>
    ensures { result ≡ ports_of text.now }
{
    let Some(colon) = place_of(b':', text) else {
        return Ok(PortNumbers::One(port(text)?));
    };
    let first = port(&text[..colon])?;
    let last = port(&text[colon + 1..])?;
    if first == last {
        return Ok(PortNumbers::One(first));
    }
    Ok(PortNumbers::Range(first, last))
}
