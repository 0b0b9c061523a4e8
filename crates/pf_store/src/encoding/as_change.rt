//! Changes as they are handed in: owned or shared.
ghost use Rattle.std.specs.Prelude.{◌≡◌};

use pf_core::Change;
use std::sync::Arc;

/// A change, owned or shared.
pub trait AsChange {
    ghost use Rattle.pf_core.specs.Durable.Changes.{PlainChange};

    ghost as_plain: { Self → PlainChange };

    /// The change.
    fn as_change(&self) -> &Change
        ensures { result.now ≡ as_plain self.now };
}

impl AsChange for Change {
    ghost as_plain = { λ change. change };

    fn as_change(&self) -> &Change {
        self
    }
}

impl AsChange for Arc<Change> {
    ghost use Rattle.std.specs.Arc.{arc_value};

    ghost as_plain = { arc_value };

    fn as_change(&self) -> &Change {
        self
    }
}
