//! The name of an opening, with its limits.
use pf_view::past::Naming;
use std::marker::Brand;

/// Names one opening with its history and its limits, so that a type can say which opening its values belong to. A program picks it once,
/// when it has the opening.
pub trait Chapter: Naming {
    ghost use Rattle.pf_core.specs.Worlds.{Setting};

    /// The limits of the opening: how many changes its history may have, and when its device is full.
    ghost setting: { Setting };
}

impl Chapter for Brand {
    ghost use Rattle.pf_core.specs.Worlds.{in_memory};

    ghost setting = { in_memory 0 };
}
