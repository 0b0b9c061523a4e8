//! Protocols.
ghost use Rattle.std.specs.Prelude.{◌≡◌};
ghost use Rattle.pf_values.specs.Named.{protocol_named, protocol_numbered};

use crate::names::protocol_number;
use crate::numbers::{Mistake, number_between};

/// The number of the protocol with this name. `Mistake::Protocol`: none that is known here has it.
pub fn protocol_named(name: &[u8]) -> Result<u16, Mistake>
    ensures { result ≡ protocol_named name.now }
{
    protocol_number(name).ok_or(Mistake::Protocol)
}

/// The number of a protocol, 1 to 255, that digits write. `Mistake::Zeros`: there are zeros in front; `Mistake::ProtocolNumber`: no protocol
/// has the number.
pub fn protocol_numbered(digits: &[u8]) -> Result<u16, Mistake>
    ensures { result ≡ protocol_numbered digits.now }
{
    number_between(1, 255, digits, Mistake::ProtocolNumber)
}
