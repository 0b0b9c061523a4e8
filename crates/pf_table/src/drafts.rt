//! The signs of networks that tries are to be made of.
ghost use Rattle.std.specs.Prelude.{◌≡◌, List, [], Some, IfOk};
ghost use Rattle.pf_addr.specs.{Address.IsNetwork, NetOrder.net_order};
ghost use Rattle.pf_map.specs.Maps.{with_value};
ghost use Rattle.pf_trie.specs.Tries.{IsDraft};
ghost use Rattle.pf_table.specs.{Entries.PlainEntry, Indexed.AreIn};

use crate::entry::Entry;
use crate::tries::{Tries, prefix_of};
use pf_addr::{Family, Net};
use pf_trie::{Draft, PrefixIndex};
use std::alloc::{AllocError, Global};

/// The signs of networks, each at its prefix, in a draft for each family.
#[derive(Drop)]
pub(crate) struct Drafts {
    v4: Draft,
    v6: Draft,
}

impl Drafts {
    /// No signs. It takes no memory.
    pub(crate) fn none(alloc: Global) -> Drafts
        ensures { AreIn IsDraft [] result.v4 result.v6 }
    {
        Drafts {
            v4: Draft::none(alloc),
            v6: Draft::none(alloc),
        }
    }

    // With a network's sign, in the place of one that it has. `AllocError`: nothing is left of them.
    fn with_sign(self, alloc: Global, net: Net, sign: bool) -> Result<Drafts, AllocError>
        ensures { IfOk result (λ d. (es : List PlainEntry) → AreIn IsDraft es self.v4 self.v6 → AreIn IsDraft (with_value net_order es net (Some sign)) d.v4 d.v6) }
    {
        let Drafts { v4, v6 } = self;
        let prefix = prefix_of(net);
        match net.family() {
            Family::V4 => Ok(Drafts {
                v4: v4.with(alloc, prefix, sign)?,
                v6,
            }),
            Family::V6 => Ok(Drafts {
                v4,
                v6: v6.with(alloc, prefix, sign)?,
            }),
        }
    }

    /// With the sign of an entry. `AllocError`: nothing is left of them.
    pub(crate) fn with(self, alloc: Global, entry: &Entry) -> Result<Drafts, AllocError>
        ensures signs { IfOk result (λ d. (es : List PlainEntry) → AreIn IsDraft es self.v4 self.v6 → AreIn IsDraft (with_value net_order es entry.now.0 (Some entry.now.1)) d.v4 d.v6) }
        ensures network { IsNetwork entry.now.0 }
    {
        self.with_sign(alloc, entry.net(), entry.is_negated())
    }

    /// Tries of the same signs. `AllocError`: nothing is left of them.
    pub(crate) fn tries<T: PrefixIndex>(self, alloc: Global) -> Result<Tries<T>, AllocError>
        ensures { IfOk result (λ t. (es : List PlainEntry) → AreIn IsDraft es self.v4 self.v6 → AreIn T.has es t.v4 t.v6) }
    {
        let Drafts { v4, v6 } = self;
        Ok(Tries {
            v4: T::of(alloc, v4)?,
            v6: T::of(alloc, v6)?,
        })
    }
}
