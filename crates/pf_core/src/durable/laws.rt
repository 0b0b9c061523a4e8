//! What follows from the definitions that contracts cite: functions that do nothing, whose contracts are the laws.
ghost use Rattle.pf_core.specs.Laws.Durable.{ReplacesExactly, EditsExactly, DeletesNothing, StepsExactly, TickStaysOrRises, KeepsWithin};

/// After a commit's change the epoch stays, each path has the rules and tables that the change gives it, or else its own, and what is empty
/// isn't there. States and the tick stay.
pub fn replaces_exactly()
    ensures { ReplacesExactly }
{}

/// An edit of a table changes exactly the table at its path and name: other names there, other paths, all rulesets, the states, the
/// tick and the epoch stay. Deleting from a table that isn't there doesn't make one.
pub fn edits_change_one_table()
    ensures exactly { EditsExactly }
    ensures nothing { DeletesNothing }
{}

/// A change of states leaves rulesets, tables and the epoch as they are: no peer changes a rule. Only a tick changes the tick.
pub fn changes_of_states_change_states_alone()
    ensures { StepsExactly }
{}

/// Changes of which each fits what those before it leave never set the tick back.
pub fn what_fits_never_sets_the_tick_back()
    ensures { TickStaysOrRises }
{}

/// A change that fits leaves what is kept within all limits, with nothing there twice and no state due.
pub fn what_fits_keeps_the_limits()
    ensures { KeepsWithin }
{}
