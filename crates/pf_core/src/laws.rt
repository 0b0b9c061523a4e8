//! What follows from the definitions that contracts cite: functions that do nothing, whose contracts are the laws.
ghost use Rattle.std.specs.Prelude.{◌≡◌};
ghost use Rattle.pf_core.specs.declared.group.TheConstants.{GROUP_LIMIT};
ghost use Rattle.pf_core.specs.Worlds.{last_epoch};
ghost use Rattle.pf_core.specs.Laws.Commands.{LeaveTheOtherKind, WantsWhatFits, SwitchesAll, VoidsTheNamed, KeepsNoneValid};
ghost use Rattle.pf_core.specs.Laws.Commands.{LeavesTheOthers, MentionsTheNamed, RefusedMentionNothing, TrackMakesOne};
ghost use Rattle.pf_core.specs.Laws.Groups.{GroupsAreInTurn, RoomyGroupsAreInTurn};
ghost use Rattle.pf_core.specs.Laws.Openings.{VoidsTickets, KeepsWhole, GivesAllThatWasKept, GivesTheFold, KeepsAcknowledged, KeepsSeen};
ghost use Rattle.pf_core.specs.Laws.Openings.{KeepsLearnt, RaisesTheEpoch, CrashesAreEvents};
ghost use Rattle.pf_core.specs.Laws.Worlds.{TicketsAreOfTheCalls, GivesEachOnce, TickNeverGoesBack, KeepsTheLimits, CommitsNameOnce};
ghost use Rattle.pf_core.specs.Laws.Worlds.{ShowsAll, TestsTellTheEntry, JudgesTellTheVerdict};

/// No opening has an epoch past 4,294,967,295.
pub fn the_last_epoch()
    ensures { last_epoch ≡ 4294967295 }
{}

/// A group has at most 64 commands.
pub fn the_limit_of_groups()
    ensures { GROUP_LIMIT ≡ 64 }
{}

/// A commit of filter rulesets alone leaves all tables, and one of table rulesets alone leaves all rulesets.
pub fn commits_leave_the_other_kind()
    ensures { LeaveTheOtherKind }
{}

/// A change that a command wants fits, so it is never refused for a limit when it is prepared.
pub fn wants_what_fits()
    ensures { WantsWhatFits }
{}

/// If no state is due, a packet that is tracked with a change makes one state, which is new: it clashes with none, and replaces none.
#[tactic(auto, using(crate::proofs::Tracking::track_makes_one))]
pub fn track_makes_one_state()
    ensures { TrackMakesOne }
{}

/// A commit that isn't refused switches all rulesets that it names, each to what was offered for it, and no others. Of the tables at a path
/// those that were defined are switched, and the others stay.
pub fn switches_all()
    ensures { SwitchesAll }
{}

/// If a command wants a change, its mentions, once it is applied, void exactly the tickets that the change voids.
#[tactic(auto, using(crate::specs::Laws::Wanted::wants_mentions))]
pub fn voids_the_named()
    ensures { VoidsTheNamed }
{}

/// A refused command mentions no ruleset, and so changes neither the valid tickets nor what is offered.
#[tactic(auto, using(crate::proofs::Switching::refused_mention_nothing))]
pub fn refused_mention_nothing()
    ensures { RefusedMentionNothing }
{}

/// After a commit none of its tickets is valid.
pub fn keeps_none_valid()
    ensures { KeepsNoneValid }
{}

/// A call leaves the valid tickets of the rulesets that it doesn't name, and what is offered with them. Its command mentions exactly the
/// rulesets that it names, in order.
#[tactic(auto, using(crate::proofs::Switching::leaves_the_others, crate::proofs::Switching::mentions_the_named))]
pub fn leaves_the_others()
    ensures others { LeavesTheOthers }
    ensures named { MentionsTheNamed }
{}

/// In the opening that a world ends in, the open transactions are what the mentions of the calls since its start leave.
#[tactic(auto, using(crate::proofs::LongerWorlds::tickets_are_of_the_calls))]
pub fn tickets_are_of_the_calls()
    ensures { TicketsAreOfTheCalls }
{}

/// In the opening that a world ends in, the tickets given are numbered from 1 on, and none is given twice.
pub fn gives_each_ticket_once()
    ensures { GivesEachOnce }
{}

/// In every world, over crashes and openings, the tick never goes back.
pub fn the_tick_never_goes_back()
    ensures { TickNeverGoesBack }
{}

/// In the opening that a world ends in, if it was so of what was held first: what is kept are maps of rulesets and of tables, in which
/// none is empty and no path, no name at a path and no network of a table is there twice, and states, of which no two have the same name or
/// flow, and none is due; and all limits hold, of rules, rulesets, entries, tables, states, tickets and history.
pub fn keeps_the_limits()
    ensures { KeepsTheLimits }
{}

/// In the opening that a world ends in, a commit whose tickets are valid names nothing twice, so it is refused only for limits.
pub fn commits_name_nothing_twice()
    ensures { CommitsNameOnce }
{}

/// In the opening that a world ends in, no change is shown that wasn't acknowledged, and all that were are shown, unless some were stored
/// and not shown since. At most one group isn't acknowledged, and none if the device didn't fail in a call of that opening.
pub fn shows_all()
    ensures { ShowsAll }
{}

/// In the opening that a world ends in, if what was held first keeps the limits (`keeps_the_limits`), a test and a judge are answered by
/// what is kept.
///
/// A test tells the one entry of its table whose network contains the address and is the most specific one, or none if none contains it. A
/// packet is judged by the state of its flow, if there is one: there is one at most, and it isn't due. Without one the rules judge it. If
/// the main ruleset has no anchor rule, that is the first quick rule that matches, or else the last rule that matches. An anchor rule leads
/// to the rulesets that are there, in their order.
pub fn answers_rest_on_what_is_kept()
    ensures tests { TestsTellTheEntry }
    ensures judges { JudgesTellTheVerdict }
{}

/// What holds of every world, over crashes and openings. No ticket that was given before an opening is valid after it: the opening's epoch
/// is above the ticket's. Every group of changes, so every commit, is kept whole or not at all. What an opening gives is, but for its
/// epoch, the fold of all changes that were kept since the first base, in order and each once. Every change that was acknowledged before is
/// one of them. What a worker saw or learnt was acknowledged, and what is kept begins with it.
pub fn worlds()
    ensures void { VoidsTickets }
    ensures whole { KeepsWhole }
    ensures given { GivesAllThatWasKept }
    ensures fold { GivesTheFold }
    ensures acknowledged { KeepsAcknowledged }
    ensures seen { KeepsSeen }
    ensures learnt { KeepsLearnt }
    ensures epochs { RaisesTheEpoch }
{}

/// A group's commands are due the replies that they would be due one by one, if each of these finds room. What they want is then what these
/// calls would keep, and the tickets are those that these calls would leave. The same if each change that the group wants finds room in a
/// group of its own, after those before it.
#[tactic(auto, using(crate::proofs::InTurn::groups_are_in_turn, crate::proofs::InTurn::roomy_groups_are_in_turn))]
pub fn groups_are_in_turn()
    ensures due { GroupsAreInTurn }
    ensures roomy { RoomyGroupsAreInTurn }
{}

/// Whatever a crash may leave of an opening, within a command or between two, is what is held after a world that ends in that crash.
pub fn crashes()
    ensures { CrashesAreEvents }
{}
