//! What follows from the definitions that contracts cite: functions that do nothing, whose contracts are the laws.
ghost use Rattle.std.specs.Prelude.{◌≡◌};
ghost use Rattle.pf_ticket.specs.declared.limits.TheConstants.{ENTRY_LIMIT, OFFERED_TABLE_LIMIT, LAST_COUNT};
ghost use Rattle.pf_ticket.specs.Laws.Tickets.{ValidIsGivenLast, GivenLastIsValid, StartsWithNothing, OffersTheAdded, OffersTheDefined};
ghost use Rattle.pf_ticket.specs.Laws.Tickets.{LeavesTheOthers, CommitTakesOut, RollbackDropsExactly, GoesOnAgreeing, CountsTheOpen};
ghost use Rattle.pf_ticket.specs.Laws.Tickets.{BeginsGive, TellsWhatIsGiven, GivesEachOnce, KeepsTheLimits, AreApart, TwiceIsFirstAgain};
ghost use Rattle.pf_ticket.specs.Laws.Tickets.{OffersEachEntry, OtherwiseOnce};

/// A list has at most 64 entries, at most 1,024 tables are offered with a ticket, and 4,294,967,295 is the last count.
pub fn the_limits_of_transactions()
    ensures entries { ENTRY_LIMIT ≡ 64 }
    ensures tables { OFFERED_TABLE_LIMIT ≡ 1024 }
    ensures count { LAST_COUNT ≡ 4294967295 }
{}

/// A ticket is valid for a ruleset exactly if the latest mention that touched the ruleset is a begin's that gave it this ticket.
#[tactic(auto, using(crate::proofs::Latest::valid_is_given_last))]
pub fn valid_is_given_last()
    ensures found { ValidIsGivenLast }
    ensures only { GivenLastIsValid }
{}

/// With a new ticket nothing is offered yet.
#[tactic(auto, using(crate::proofs::Moves::starts_with_nothing))]
pub fn starts_with_nothing()
    ensures { StartsWithNothing }
{}

/// The rules that were added with the valid ticket since it was given are offered, in order.
pub fn offers_the_added()
    ensures { OffersTheAdded }
{}

/// Under each name the table of the last define with the valid ticket and of the extends since is offered, and no other table is.
pub fn offers_the_defined()
    ensures { OffersTheDefined }
{}

/// After an accepted define exactly its entries are offered for its table; after an accepted extend its entries and those that were
/// offered.
#[tactic(auto, using(crate::proofs::OfferedEntries::offers_each_entry))]
pub fn offers_each_entry()
    ensures { OffersEachEntry }
{}

/// What a step mentions leaves the valid tickets of the rulesets that it doesn't name, and what is offered with them.
#[tactic(auto, using(crate::proofs::Moves::leaves_the_others))]
pub fn leaves_the_others()
    ensures { LeavesTheOthers }
{}

/// A commit takes out what is offered for the rulesets that it names, and nothing else.
#[tactic(auto, using(crate::proofs::Moves::commit_takes_out))]
pub fn a_commit_takes_out_the_named()
    ensures { CommitTakesOut }
{}

/// A rollback drops what is offered for the rulesets that it names with their valid tickets, and nothing else.
#[tactic(auto, using(crate::proofs::Moves::rollback_drops_exactly))]
pub fn a_rollback_drops_exactly()
    ensures { RollbackDropsExactly }
{}

/// An opening's tickets are what its mentions leave: none at first, and then step by step.
#[tactic(auto, using(crate::proofs::Moves::goes_on_agreeing))]
pub fn tickets_agree_with_the_mentions()
    ensures { GoesOnAgreeing }
{}

/// Each ruleset with a valid ticket is counted once among the open ones, and no other is.
#[tactic(auto, using(crate::proofs::Moves::counts_the_open))]
pub fn counts_the_open()
    ensures { CountsTheOpen }
{}

/// For each ruleset that a begin names, its reply gives at that place the ticket that is then valid, unless the ruleset is named again
/// later.
#[tactic(auto, using(crate::proofs::TicketLimits::tells_what_is_given))]
pub fn a_begin_tells_the_valid_tickets()
    ensures { TellsWhatIsGiven }
{}

/// A begin gives the next tickets, and no other step gives one; numbered tickets are given once each.
#[tactic(auto, using(crate::proofs::TicketLimits::begins_give, crate::proofs::Twice::gives_each_once))]
pub fn gives_each_ticket_once()
    ensures begins { BeginsGive }
    ensures once { GivesEachOnce }
{}

/// All limits of tickets hold at first, and after each step that isn't refused.
#[tactic(auto, using(crate::proofs::TicketLimits::keeps_the_limits))]
pub fn keeps_the_limits()
    ensures { KeepsTheLimits }
{}

/// The rules and the tables at one path are two rulesets.
pub fn kinds_are_apart()
    ensures { AreApart }
{}

/// A list of entries is refused for naming a ruleset twice at the first entry whose ruleset was named before it.
#[tactic(auto, using(crate::proofs::Twice::twice_is_first_again, crate::proofs::Twice::otherwise_once))]
pub fn twice_is_the_first_named_again()
    ensures found { TwiceIsFirstAgain }
    ensures otherwise { OtherwiseOnce }
{}
