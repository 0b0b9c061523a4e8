//! What follows from the definitions that contracts cite: functions that do nothing, whose contracts are the laws.
ghost use Rattle.pf_session.specs.Laws.Lines.{IsAlwaysCut, CutsOneWay};

/// Every text is whole lines, each with its newline, and a rest without one.
pub fn is_always_cut()
    ensures { IsAlwaysCut }
{}

/// There is only one way to cut a text.
pub fn cuts_one_way()
    ensures { CutsOneWay }
{}
