//! How names and flows are the keys of maps.
ghost use Rattle.pf_state.specs.FlowKeys.{key_of, key_order, mixed};
ghost use Rattle.pf_state.specs.{Orders.{name_total, name_alike, names_rise, key_total, key_alike, keys_rise}, States.name_order};

use crate::flow_key::FlowKey;
use crate::state::{Held, StateName};
use pf_key::Key;
use pf_map::Flowed;
use std::cmp::Ordering;

impl Key for StateName {
    ghost order = { name_order };

    ghost hint = { λ n. n.id };

    fn order(&self, other: &StateName) -> Ordering {
        StateName::order(self, other)
    }

    fn same(&self, other: &StateName) -> bool {
        StateName::same(self, other)
    }

    fn hint(&self) -> u64 {
        self.id
    }

    ghost total = { name_total };

    ghost alike = { name_alike };

    ghost rises = { names_rise };
}

impl Key for FlowKey {
    ghost order = { key_order };

    ghost hint = { mixed };

    fn order(&self, other: &FlowKey) -> Ordering {
        FlowKey::order(self, other)
    }

    fn same(&self, other: &FlowKey) -> bool {
        FlowKey::order(self, other).is_eq()
    }

    fn hint(&self) -> u64 {
        self.mix()
    }

    ghost total = { key_total };

    ghost alike = { key_alike };

    ghost rises = { keys_rise };
}

impl Flowed<FlowKey> for Held {
    ghost flow = { λ held. key_of held.flow };

    fn flow(&self) -> &FlowKey {
        self.flow.key()
    }
}
