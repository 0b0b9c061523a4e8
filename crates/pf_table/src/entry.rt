//! Entries of tables.
ghost use Rattle.std.specs.Prelude.{◌≡◌};
ghost use Rattle.pf_addr.specs.Address.{IsNetwork};

use pf_addr::Net;
use pf_map::Holder;
use std::alloc::AllocError;
use std::marker::Model;

/// A network in a table, plain or negated. Contracts see the pair of the network and whether it is negated.
#[derive(Clone, Copy)]
pub struct Entry {
    net: Net,
    is_negated: bool,
}

impl Model for Entry {
    ghost use Rattle.pf_addr.specs.Address.{IsNetwork};
    ghost use Rattle.pf_table.specs.Entries.{PlainEntry};

    ghost Value = { PlainEntry };

    ghost view = { λ e. (e.net, e.is_negated) };

    ghost invariant = { λ e. IsNetwork e.net };

    ghost inverse = { λ row. record { net = row.0; is_negated = row.1 } };

    ghost inverse_ok = { λ e _. λ i. e };
}

impl Entry {
    /// An entry of this network, negated or plain.
    pub fn new(net: Net, is_negated: bool) -> Entry
        ensures { result ≡ (net, is_negated) }
    {
        // the contract of `family` says that the network is one
        let _family = net.family();
        Entry { net, is_negated }
    }

    /// Its network.
    pub fn net(self) -> Net
        ensures value { result ≡ self.0 }
        ensures is { IsNetwork result }
    {
        let Entry { net, .. } = self;
        net
    }

    /// Whether it is negated.
    pub fn is_negated(self) -> bool
        ensures { result ≡ self.1 }
    {
        let Entry { is_negated, .. } = self;
        is_negated
    }
}

impl Holder<Net, bool> for Entry {
    ghost pair = { λ e. e };

    fn share(&self) -> Result<Entry, AllocError> {
        Ok(*self)
    }

    fn held_key(&self) -> &Net {
        &self.net
    }
}
