//! Tests of ports (pf.conf(5), PARAMETERS).
ghost use Rattle.std.specs.Prelude.{◌≡◌};
ghost use Rattle.pf_rule.specs.{Value.Tests.holds, Value.Ports.{compares, port_holds, ports_fit}};

use crate::value::protocol::Protocol;

/// How a port is compared with one number.
#[derive(Clone, Copy)]
pub enum Comparison {
    /// `=`
    Equal,
    /// `!=`
    NotEqual,
    /// `<`
    Less,
    /// `<=`
    AtMost,
    /// `>`
    Greater,
    /// `>=`
    AtLeast,
}

/// Which ports a range of a first and a last number takes (pf.conf(5), PARAMETERS).
#[derive(Clone, Copy)]
pub enum PortRange {
    /// `:`, the ports from the first number to the last.
    Including,
    /// `><`, the ports above the first number and below the last.
    Excluding,
    /// `<>`, the ports below the first number and those above the last.
    Except,
}

/// A test of a packet's port: by a unary operator with its number, or by a binary one between two numbers.
#[derive(Clone, Copy)]
pub enum PortTest {
    /// By comparison with a number, 0 to 65535.
    Compared {
        operator: Comparison,
        port: u16,
    },
    /// By an operator between two numbers. If the first is greater than the last, `:` and `><` hold for no port, and `<>` for every one.
    Ranged {
        range: PortRange,
        first: u16,
        last: u16,
    },
}

impl PortTest {
    /// Whether the test holds for a port.
    pub fn holds(self, port: u16) -> bool
        ensures { result ≡ port_holds self port }
    {
        match self {
            PortTest::Compared {
                operator,
                port: number,
            } => compares(operator, port, number),
            PortTest::Ranged { range, first, last } => match range {
                PortRange::Including => first <= port && port <= last,
                PortRange::Excluding => first < port && port < last,
                PortRange::Except => port < first || last < port,
            },
        }
    }
}

fn compares(operator: Comparison, port: u16, number: u16) -> bool
    ensures { result ≡ compares operator port number }
{
    match operator {
        Comparison::Equal => port == number,
        Comparison::NotEqual => port != number,
        Comparison::Less => port < number,
        Comparison::AtMost => port <= number,
        Comparison::Greater => number < port,
        Comparison::AtLeast => number <= port,
    }
}

/// Whether a test takes this port. A missing test holds.
pub fn takes_port(test: Option<PortTest>, port: u16) -> bool
    ensures { result ≡ holds test (λ t. port_holds t port) }
{
    match test {
        Some(test) => test.holds(port),
        None => true,
    }
}

/// Whether a rule with this protocol, if any, may test its ports like this.
#[tactic(auto, unfolding(crate::specs::Value::Ports::ports_fit))]
pub fn ports_fit(
    protocol: Option<Protocol>,
    source: Option<PortTest>,
    destination: Option<PortTest>,
) -> bool
    ensures { result ≡ ports_fit protocol source destination }
{
    if source.is_none() && destination.is_none() {
        return true;
    }
    match protocol {
        Some(protocol) => protocol.has_ports(),
        None => false,
    }
}
