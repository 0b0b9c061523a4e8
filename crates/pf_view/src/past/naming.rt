//! The name of one opening.
use std::marker::Brand;

/// Names one opening and its history, so that a type can say which one its values belong to. A program picks it once, when it has what the
/// opening gave.
pub trait Naming {
    ghost use Rattle.logbook.specs.Pages.{Book};
    ghost use Rattle.pf_core.specs.Durable.Changes.{PlainDurable};

    /// What the opening gave.
    ghost base: { PlainDurable };

    /// Which history belongs to it.
    ghost history: { Book };
}

impl Naming for Brand {
    ghost use Rattle.pf_core.specs.Durable.Changes.{kept_nothing};

    ghost base = { kept_nothing 0 };

    ghost history = { record { number = 0; log_name = 0; cells_name = 0 } };
}
