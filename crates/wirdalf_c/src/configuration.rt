//! What C has of a configuration: a pointer to what is kept, in a box of its own.
ghost use Rattle.std.specs.{Prelude.{◌≡◌, Option, Some, IsSome}, Coded.coded_option};
ghost use Rattle.pf_core.specs.Durable.Changes.{PlainDurable};
ghost use Rattle.wirdalf_c.specs.{Owned.{holds}, contracts.holding.Holding.the_row};

use crate::holding::Holding;
use crate::loose::Loose;
use std::alloc::Global;
use std::marker::Model;

/// A configuration, as C keeps it: `struct wirdalf`. It owns what it holds, so that C gives it to one call at a time and frees it once.
/// `held` is what it holds; one that was never written to holds nothing, and its pointer may be null. It may go to another thread.
///
/// A value that is overwritten or let go isn't freed: whoever has one that holds something frees it first.
#[repr(C)]
#[derive(Drop)]
pub struct Configuration {
    at: *mut (),
    pub ghost held: { Option PlainDurable } by { coded_option the_row.coded },
}

impl Model for Configuration {
    ghost also_owns = { λ c. holds c.at c.held };
}

// C may hand one over to another thread: what it owns may go to any thread, and be freed there.
unsafe impl Send for Configuration {}

impl Configuration {
    ghost use Rattle.std.specs.Borrow.{sem};
    ghost use Rattle.wirdalf_c.specs.Lending.{LendsHeld};

    // These three are all that follow a pointer or make one; they are proved by hand.

    /// The configuration that holds what was in the box.
    pub fn of(held: Loose<Holding, Global>) -> Configuration
        ensures { result.held ≡ Some held.value }
    {
        let Loose { at, alloc: _ } = held;
        Configuration { at: at as *mut () }
    }

    /// The box with what it holds.
    pub fn into_loose(self, alloc: Global) -> Loose<Holding, Global>
        requires { IsSome self.held }
        ensures { self.held ≡ Some result.value }
    {
        let Configuration { at } = self;
        Loose {
            at: at as *mut Holding,
            alloc,
        }
    }

    /// What it holds.
    pub fn lend(&mut self) -> &mut Holding
        requires { IsSome self.old.held }
        ensures* writes_back { sem 𝓛 (LendsHeld self.entry result) }
        ensures value { self.old.held ≡ Some result.now }
    {
        unsafe { &mut *(self.at as *mut Holding) }
    }
}
