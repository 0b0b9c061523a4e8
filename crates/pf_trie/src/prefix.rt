//! Prefixes of addresses.
ghost use Rattle.std.specs.Prelude.{◌≡◌, ◌+◌, ◌-◌, ◌/◌, ◌^◌, ◌<◌, ◌==◌};
ghost use Rattle.pf_trie.specs.Prefixes.{IsApart, front, first_of};

/// The addresses that begin with the bits of an address before its last ones, which are free.
#[derive(Clone, Copy)]
pub struct Prefix {
    /// An address that begins so.
    pub address: u128,
    /// How many of its last bits are free.
    pub free: u8,
}

impl Prefix {
    /// Whether it contains an address.
    pub(crate) fn contains(self, address: u128) -> bool
        requires { self.free < 128 }
        ensures { result ≡ (address / 2 ^ self.free == front self) }
    {
        address >> self.free == self.address >> self.free
    }

    /// The first address that it contains.
    pub(crate) fn first(self) -> u128
        requires { self.free < 128 }
        ensures { result ≡ first_of self }
    {
        self.address >> self.free << self.free
    }

    /// The last address that it contains.
    pub(crate) fn last(self) -> u128
        requires { self.free < 128 }
        ensures { result ≡ first_of self + (2 ^ self.free - 1) }
    {
        self.first() + ((1 << self.free) - 1)
    }
}

/// How many of the last bits of two addresses have to be free, so that one prefix contains both.
pub(crate) fn apart(one: u128, other: u128) -> u8
    ensures { IsApart one other result }
{
    128 - (one ^ other).leading_zeros() as u8
}
