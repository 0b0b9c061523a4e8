//! Why states aren't changed.
ghost use Rattle.std.specs.Prelude.{◌≡◌};
ghost use Rattle.pf_state.specs.declared.refusal.StatesRefusal.TheVariants.{Memory};

use std::alloc::AllocError;

/// Why a batch of steps is refused. After each of these the states are as before.
#[derive(Clone, Copy, Debug, PartialEq, Eq)]
pub enum StatesRefusal {
    /// After one of the steps there would be more than 65,536 states.
    StatesFull,
    /// Out of memory.
    Memory,
}

impl From<AllocError> for StatesRefusal {
    ghost from_gives = { λ _ e. e ≡ Memory };

    fn from(_e: AllocError) -> StatesRefusal {
        StatesRefusal::Memory
    }
}
