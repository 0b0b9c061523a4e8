//! Words that stand for values.
ghost use Rattle.std.specs.Prelude.{◌≡◌};
ghost use Rattle.pf_addr.specs.Path.References.{unquoted};
ghost use Rattle.pf_form.specs.Form.Numbers.{number_of};
ghost use Rattle.pf_rule.specs.Value.Values.{protocol_of, label_of, port_of, address_of};

use crate::value::label::Label;
use crate::value::protocol::Protocol;
use pf_addr::Addr;
use pf_addr::path::unquoted;
use pf_form::form::{Kind, read_number};

/// How many digits a protocol's number may have, including leading zeros.
pub(crate) const PROTOCOL_DIGITS: usize = 3;
/// The same for a port.
pub(crate) const PORT_DIGITS: usize = 5;

/// A protocol by its name or its number.
pub(crate) fn protocol_of(word: &[u8]) -> Result<Protocol, Kind>
    ensures { result ≡ protocol_of word.now }
{
    if word == b"tcp".as_slice() {
        Ok(Protocol::new(Protocol::TCP))
    } else if word == b"udp".as_slice() {
        Ok(Protocol::new(Protocol::UDP))
    } else if word == b"icmp".as_slice() {
        Ok(Protocol::new(Protocol::ICMP))
    } else if word == b"icmp6".as_slice() || word == b"ipv6-icmp".as_slice() {
        Ok(Protocol::new(Protocol::ICMP6))
    } else {
        match read_number(word, PROTOCOL_DIGITS) {
            Some(number) if 0 < number && number < 256 => Ok(Protocol::new(number as u8)),
            _ => Err(Kind::BadProto),
        }
    }
}

/// A label, which may be in double quotes. Quotes don't count in its length, and a single one is a wrong byte.
pub(crate) fn label_of(word: &[u8]) -> Result<Label, Kind>
    ensures { result ≡ label_of word.now }
{
    Label::from_ascii(unquoted(word))
}

/// A port, which is 0 if the protocol has no ports.
pub(crate) fn port_of(ports: bool, word: &[u8]) -> Result<u16, Kind>
    ensures { result ≡ port_of ports word.now }
{
    let end = if ports { 65536 } else { 1 };
    match read_number(word, PORT_DIGITS) {
        Some(number) if number < end => Ok(number as u16),
        _ => Err(Kind::BadWord),
    }
}

pub(crate) fn address_of(word: &[u8]) -> Result<Addr, Kind>
    ensures { result ≡ address_of word.now }
{
    Addr::from_ascii(word).map_err(|_| Kind::BadWord)
}
