// A list of calls that clauses alone read.
ghost use Rattle.std.specs.{Prelude.{◌≡◌, List, [], ◌∷◌, ◌++◌}, Borrow.ftrue};
ghost use Rattle.pf_disk.specs.{Calls.{Event, events_code}, Noted.noted};

use std::marker::{Model, PhantomData};

/// The writes and syncs of a file. It takes no memory.
#[derive(Drop)]
pub(crate) struct History {
    marker: PhantomData<u8>,
    pub ghost events: { List Event } by { events_code },
}

impl Model for History {
    ghost also_owns = { λ _. ftrue };
}

impl History {
    pub(crate) fn new() -> History
        ensures { result.events ≡ [] }
    {
        History {
            marker: PhantomData,
        }
    }

    /// Notes a write of these bytes from the place on, or a sync where no place is given.
    pub(crate) fn note(&mut self, _place: &[usize], _bytes: &[u8])
        ensures { self.new.events ≡ self.old.events ++ noted _place.now _bytes.now ∷ [] }
    {}
}
