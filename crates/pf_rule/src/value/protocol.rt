//! Protocol numbers.
ghost use Rattle.std.specs.Prelude.{◌≡◌, ◌<◌};
ghost use Rattle.pf_rule.specs.Value.Values.{has_ports};

use std::marker::Model;

/// The number of an IP protocol, 1 to 255 (IANA's protocol numbers: 6 is TCP, 17 is UDP).
#[derive(Clone, Copy, Debug, PartialEq, Eq)]
pub struct Protocol(u8);

impl Model for Protocol {
    ghost use Rattle.std.specs.Prelude.{ℕ, ◌<◌};

    ghost Value = { ℕ };

    ghost view = { λ p. p.0 };

    ghost invariant = { λ p. 0 < p.0 };

    ghost inverse = { λ n. record { 0 = n } };
}

impl Protocol {
    /// ICMP.
    pub const ICMP: u8 = 1;
    /// TCP.
    pub const TCP: u8 = 6;
    /// UDP.
    pub const UDP: u8 = 17;
    /// ICMP for IPv6.
    pub const ICMP6: u8 = 58;

    /// The protocol with this number, which isn't 0.
    pub fn new(number: u8) -> Protocol
        requires { 0 < number }
        ensures { result ≡ number }
    {
        Protocol(number)
    }

    /// The protocol's number.
    pub fn number(self) -> u8
        ensures value { result ≡ self }
        ensures above { 0 < result }
        ensures below { result < 256 }
    {
        self.0
    }

    /// Whether packets of the protocol have ports.
    pub fn has_ports(self) -> bool
        ensures { result ≡ has_ports self }
    {
        self.number() == Protocol::TCP || self.number() == Protocol::UDP
    }
}
