//! Networks as keys of maps, in their order.
ghost use Rattle.std.specs.Prelude.{◌≡◌};
ghost use Rattle.pf_addr.specs.{NetOrder.{net_order, net_hint}, Laws.NetOrder.{net_total, net_same, net_rises}};

use crate::addr::Addr;
use crate::net::Net;
use pf_key::Key;
use std::cmp::Ordering;

// The hints of V6 networks start here: after those of V4 networks, with room for the first 63 bits of an address.
const V6_HINTS: u64 = 1 << 63;

/// V4 before V6, then by first address, then the shorter prefix before the longer.
#[tactic(auto, unfolding(crate::specs::NetOrder::net_order))]
fn order(one: Net, other: Net) -> Ordering
    ensures { result ≡ net_order one other }
{
    let by_first = match (one.addr(), other.addr()) {
        (Addr::V4(first), Addr::V4(second)) => first.cmp(&second),
        (Addr::V4(_), Addr::V6(_)) => Ordering::Less,
        (Addr::V6(_), Addr::V4(_)) => Ordering::Greater,
        (Addr::V6(first), Addr::V6(second)) => first.cmp(&second),
    };
    by_first.then(one.prefix_len().cmp(&other.prefix_len()))
}

// The family's bit followed by the first 63 bits of the first address, or all of a V4 address.
fn hint(net: Net) -> u64
    ensures { result ≡ net_hint net }
{
    match net.addr() {
        Addr::V4(first) => u64::from(first),
        Addr::V6(first) => V6_HINTS + (first >> 65) as u64,
    }
}

impl Key for Net {
    ghost order = { net_order };

    ghost hint = { net_hint };

    fn order(&self, other: &Net) -> Ordering {
        order(*self, *other)
    }

    fn same(&self, other: &Net) -> bool {
        order(*self, *other).is_eq()
    }

    fn hint(&self) -> u64 {
        hint(*self)
    }

    ghost total = { net_total };

    ghost alike = { net_same };

    ghost rises = { net_rises };
}
