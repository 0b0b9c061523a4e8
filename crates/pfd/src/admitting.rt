//! What a connection may be, by the address that it came to, and what it is. It knows no socket.
ghost use Rattle.std.specs.Prelude.{◌≡◌};
ghost use Rattle.pfd.specs.Admitting.{is_guest, lets_in, way_of};

// What a peer's stream begins with, and no line does.
const PEER: u8 = 5;

/// What connections to an address may be.
#[derive(Clone, Copy, Debug, PartialEq, Eq)]
pub enum Admits {
    /// Sessions, and peers' streams.
    Both,
    /// Sessions alone.
    Sessions,
    /// Sessions alone that may ask and change nothing.
    Questions,
    /// Peers' streams alone.
    Peers,
}

impl Admits {
    /// Whether its connections are guests, who may do only some of what a session may.
    pub(crate) fn is_guest(self) -> bool
        ensures { result ≡ is_guest self }
    {
        match self {
            Admits::Both | Admits::Sessions => false,
            Admits::Questions | Admits::Peers => true,
        }
    }

    /// Whether one more connection is let in beside so many guests, by so many workers. Guests leave one worker to all others.
    pub(crate) fn lets_in(self, guests: usize, workers: usize) -> bool
        ensures { result ≡ lets_in self guests workers }
    {
        !self.is_guest() || guests == 0 || guests < workers.saturating_sub(1)
    }
}

/// How a connection is served.
#[derive(Clone, Copy, Debug, PartialEq, Eq)]
pub(crate) enum Way {
    /// As a session of lines.
    Session,
    /// As a session of lines that may ask and change nothing.
    Asking,
    /// As a peer's stream.
    Stream,
    /// Not at all: what came isn't admitted.
    Denied,
}

/// How a connection is served that begins with this byte.
pub(crate) fn way_of(admits: Admits, first: u8) -> Way
    ensures { result ≡ way_of admits first }
{
    if first == PEER {
        match admits {
            Admits::Both | Admits::Peers => Way::Stream,
            Admits::Sessions | Admits::Questions => Way::Denied,
        }
    } else {
        match admits {
            Admits::Both | Admits::Sessions => Way::Session,
            Admits::Questions => Way::Asking,
            Admits::Peers => Way::Denied,
        }
    }
}
