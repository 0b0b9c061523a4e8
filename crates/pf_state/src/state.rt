//! States.
ghost use Rattle.std.specs.{Prelude.{◌≡◌, ◌==◌, true, length}, Ordering.eq_by_cmp};
ghost use Rattle.pf_state.specs.States.{name_order, is_whole, stands};

use crate::flow::Flow;
use pf_map::KeyValue;
use std::cmp::Ordering;

/// The name of a state.
#[derive(Clone, Copy, Debug, PartialEq, Eq)]
pub struct StateName {
    /// Its number, chosen by its creator.
    pub id: u64,
    /// The host that made it.
    pub creator: u32,
}

/// Which rule a state is bound to.
#[derive(Clone, Copy, Debug, PartialEq, Eq)]
pub enum Bound {
    /// The main rule of this number, from 0, of the rules whose MD5 checksum this is.
    Rule { number: u32, sum: [u8; 16] },
    /// The default rule.
    Default,
}

/// What is held under a state's name.
#[derive(Clone, Copy)]
pub struct Held {
    // whoever finds a state reads its name and this, so it is first; where it lies is the compiler's choice
    /// The tick at which the state goes: it stands as long as the tick is below this. 0 for never.
    pub expiry: u64,
    /// The flow whose packets it lets pass.
    pub flow: Flow,
    /// The rule that it is bound to.
    pub bound: Bound,
    /// Which of two inserts of this state is the later one: the greater generation. 0 for a state that was made here.
    pub generation: u32,
}

impl Held {
    /// Whether it stands at a tick: its expiry is 0, or greater than the tick. Else it is due.
    pub fn stands(&self, tick: u64) -> bool
        ensures { result ≡ stands tick self.now }
    {
        self.expiry == 0 || tick < self.expiry
    }
}

/// A state: its name, and what is held under it. It is shared by all tables and steps that have it. Contracts see the pair.
pub type State = KeyValue<StateName, Held>;

impl StateName {
    /// By the number, then by the creator.
    pub fn order(&self, other: &StateName) -> Ordering
        ensures { result ≡ name_order self.now other.now }
    {
        self.id
            .cmp(&other.id)
            .then(self.creator.cmp(&other.creator))
    }

    /// Whether both are the same name.
    pub fn same(&self, other: &StateName) -> bool
        ensures { result ≡ eq_by_cmp name_order self.now other.now }
    {
        self.order(other).is_eq()
    }
}

// What the type of a checksum says: it has 16 bytes.
fn sum_has_16_bytes(_sum: &[u8; 16])
    ensures { (length _sum.now == 16) ≡ true }
{}

/// What each state keeps: a checksum in its binding is whole.
pub(crate) fn sum_is_whole(state: &State)
    ensures { is_whole state.now.1.bound ≡ true }
{
    if let Bound::Rule { sum, .. } = &state.value().bound {
        sum_has_16_bytes(sum);
    }
}
