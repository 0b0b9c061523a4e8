//! The texts of a rule's tests, with a space before each word; and that of a protocol alone, without one.
ghost use Rattle.std.specs.Prelude.{◌≡◌, ◌++◌, true, codes, decimal};
ghost use Rattle.pf_addr.specs.Writing.{Continues};
ghost use Rattle.pf_rule.specs.Value.Spacing.{is_word, spaced};
ghost use Rattle.pf_rule.specs.Value.Tests.{direction_words, interface_words, family_words, protocol_word, protocol_words};
ghost use Rattle.pf_rule.specs.Value.Ports.{operator_word, port_words};

use crate::value::direction::Direction;
use crate::value::interface::Interface;
use crate::value::ports::{Comparison, PortRange, PortTest};
use crate::value::protocol::Protocol;
use pf_addr::{Family, write_more, write_more_number};
use std::io::{self, Write};

/// The text of a test of the direction.
pub fn direction_text(direction: Option<Direction>) -> &'static [u8]
    ensures { result.now ≡ spaced (direction_words direction) }
{
    match direction {
        Some(Direction::In) => b" in",
        Some(Direction::Out) => b" out",
        None => b"",
    }
}

/// The text of a test of the family.
pub fn family_text(family: Option<Family>) -> &'static [u8]
    ensures { result.now ≡ spaced (family_words family) }
{
    match family {
        Some(Family::V4) => b" inet",
        Some(Family::V6) => b" inet6",
        None => b"",
    }
}

/// Writes a test of the interface after what was written so far.
#[tactic(auto, using(crate::specs::Value::Spacing::continuing))]
pub fn write_interface<W: Write>(
    out: &mut W,
    so_far: io::Result<()>,
    interface: Option<Interface>,
) -> io::Result<()>
    ensures { Continues so_far (W.contents out.old) result (W.contents out.new) (spaced (interface_words interface)) }
{
    match interface {
        Some(interface) => {
            let so_far = write_more(out, so_far, b" on ");
            write_more(out, so_far, interface.as_bytes())
        }
        None => write_more(out, so_far, b""),
    }
}

/// Writes a test of the protocol after what was written so far.
#[tactic(auto, using(crate::specs::Value::Spacing::continuing))]
pub fn write_protocol<W: Write>(
    out: &mut W,
    so_far: io::Result<()>,
    protocol: Option<Protocol>,
) -> io::Result<()>
    ensures { Continues so_far (W.contents out.old) result (W.contents out.new) (spaced (protocol_words protocol)) }
{
    let Some(protocol) = protocol else {
        return write_more(out, so_far, b"");
    };
    let so_far = write_more(out, so_far, b" proto ");
    write_more_protocol(out, so_far, protocol)
}

/// Writes a protocol after what was written so far: its name, if it has one, or its number. What it writes is one word of a
/// line. Its errors are those of [`write_more`].
#[tactic(auto, using(crate::specs::Laws::Value::Tests::protocol_is_word))]
pub fn write_more_protocol<W: Write>(
    out: &mut W,
    so_far: io::Result<()>,
    protocol: Protocol,
) -> io::Result<()>
    ensures text { Continues so_far (W.contents out.old) result (W.contents out.new) (protocol_word protocol) }
    ensures word { is_word (protocol_word protocol) ≡ true }
{
    match protocol.number() {
        Protocol::ICMP => write_more(out, so_far, b"icmp"),
        Protocol::TCP => write_more(out, so_far, b"tcp"),
        Protocol::UDP => write_more(out, so_far, b"udp"),
        Protocol::ICMP6 => write_more(out, so_far, b"icmp6"),
        number => write_more_number(out, so_far, u64::from(number)),
    }
}

fn operator_text(operator: Comparison) -> &'static [u8]
    ensures { result.now ≡ operator_word operator }
{
    match operator {
        Comparison::Equal => b"=",
        Comparison::NotEqual => b"!=",
        Comparison::Less => b"<",
        Comparison::AtMost => b"<=",
        Comparison::Greater => b">",
        Comparison::AtLeast => b">=",
    }
}

/// Writes a port test, each word with a space before it.
#[tactic(auto, using(crate::specs::Value::Spacing::continuing))]
pub fn write_port<W: Write>(
    out: &mut W,
    so_far: io::Result<()>,
    test: Option<PortTest>,
) -> io::Result<()>
    ensures { Continues so_far (W.contents out.old) result (W.contents out.new) (spaced (port_words test)) }
{
    match test {
        None => write_more(out, so_far, b""),
        Some(PortTest::Compared { operator, port }) => {
            let so_far = write_more(out, so_far, b" port ");
            let so_far = write_more(out, so_far, operator_text(operator));
            let so_far = write_more(out, so_far, b" ");
            write_more_number(out, so_far, u64::from(port))
        }
        Some(PortTest::Ranged { range, first, last }) => match range {
            PortRange::Including => write_range(out, so_far, first, b":", last),
            PortRange::Excluding => write_range(out, so_far, first, b" >< ", last),
            PortRange::Except => write_range(out, so_far, first, b" <> ", last),
        },
    }
}

#[tactic(auto, using(crate::specs::Value::Spacing::continuing))]
fn write_range<W: Write>(
    out: &mut W,
    so_far: io::Result<()>,
    first: u16,
    between: &[u8],
    last: u16,
) -> io::Result<()>
    ensures { Continues so_far (W.contents out.old) result (W.contents out.new)
        (codes " port " ++ (decimal first ++ (between.now ++ decimal last))) }
{
    let so_far = write_more(out, so_far, b" port ");
    let so_far = write_more_number(out, so_far, u64::from(first));
    let so_far = write_more(out, so_far, between);
    write_more_number(out, so_far, u64::from(last))
}
