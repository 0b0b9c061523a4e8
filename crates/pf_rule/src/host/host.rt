//! Hosts, and what tables say of addresses.
ghost use Rattle.std.specs.Prelude.{◌≡◌, ℕ, Bool, List};
ghost use Rattle.pf_addr.specs.declared.addr.Addr.{Addr as PlainAddr};
ghost use Rattle.pf_rule.specs.Host.Hosts.{network_holds, table_holds, host_family};

use pf_addr::path::TableName;
use pf_addr::{Addr, Family, Net};

/// Which addresses a rule's source or destination accepts.
#[derive(Clone, Copy)]
pub enum Host {
    /// Every address.
    Any,
    /// The addresses of a network, or if it is negated (`!`) all others.
    Net { net: Net, is_negated: bool },
    /// The addresses that a table matches, or if it is negated (`!`) all others. It is found by its name when a packet comes.
    Table { name: TableName, is_negated: bool },
}

/// What tables say of addresses.
pub trait TableAnswers {
    /// Whether the table of this name matches the address.
    ghost says: { Self → List ℕ → PlainAddr → Bool };

    /// Whether the table of this name matches the address.
    fn holds(&self, name: &TableName, address: Addr) -> bool
        ensures { result ≡ says self.now name.now address };
}

impl Host {
    /// What the host says without tables; yes if it is a table.
    pub fn network_holds(&self, address: Addr) -> bool
        ensures { result ≡ network_holds self.now address }
    {
        match self {
            Host::Net { net, is_negated } => net.contains(address) != *is_negated,
            Host::Any | Host::Table { .. } => true,
        }
    }

    /// What the host says as a table; yes if it isn't one.
    pub fn table_holds<T: TableAnswers>(&self, tables: &T, address: Addr) -> bool
        ensures { result ≡ table_holds (T.says tables.now) self.now address }
    {
        match self {
            Host::Table { name, is_negated } => tables.holds(name, address) != *is_negated,
            Host::Any | Host::Net { .. } => true,
        }
    }

    /// The family of the host's network, negated or not. A table has none.
    pub fn family(&self) -> Option<Family>
        ensures { result ≡ host_family self.now }
    {
        match self {
            Host::Net { net, .. } => Some(net.family()),
            Host::Any | Host::Table { .. } => None,
        }
    }
}
