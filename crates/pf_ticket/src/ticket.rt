//! Tickets.

/// What a begin gives and a commit needs (pf(4), DIOCXBEGIN): an opening, and a count within it.
#[derive(Clone, Copy, Debug, PartialEq, Eq)]
pub struct Ticket {
    /// The number of the opening that gave it.
    pub epoch: u32,
    /// Which ticket of that opening it is, for all rulesets together: from 1 to 4,294,967,295.
    pub count: u32,
}

/// The tickets of one begin, with counts that follow one another.
#[derive(Clone, Copy, Debug, PartialEq, Eq)]
pub struct TicketRange {
    /// The ticket of the ruleset that the begin names first.
    pub first: Ticket,
    /// How many tickets there are, from 1 to 64: one for each entry.
    pub number: u32,
}
