//! The valid tickets, and what is offered with them.
ghost use Rattle.std.specs.{Prelude.{◌≡◌, ◌<◌, ◌≤◌, ◌+◌, ◌||◌, not, [], IfOk, OnOk, OnErr, IfSome, Some, None, Ok, is_some, length, get_or, map}, List.{list_any, position}};
ghost use Rattle.std.specs.{FinMap.find, Option.option_map};
ghost use Rattle.pf_anchor.specs.declared.limits.TheConstants.{RULE_LIMIT};
ghost use Rattle.pf_table.specs.Laws.Tables.{is_deleted};
ghost use Rattle.pf_table.specs.Edits.{conflict_in, replaced, added as entries_added};
ghost use Rattle.pf_addr.specs.{Path.Names.name_order, Refusing.{OrMemory, Meets}};
ghost use Rattle.pf_ticket.specs.declared.limits.TheConstants.{LAST_COUNT};
ghost use Rattle.pf_ticket.specs.declared.refusal.TicketRefusal.TheVariants.{Memory};
ghost use Rattle.pf_ticket.specs.Mentions.{added, defined, extended, load, moved, take_out, after, gives, switches, drops};
ghost use Rattle.pf_ticket.specs.Names.{filter_at, table_ruleset_at, is_named, same_name};
ghost use Rattle.pf_ticket.specs.Replies.{bad_count, twice_after, twice_in, busy_in, list_check, commit_check, begin_reply, add_reply};
ghost use Rattle.pf_ticket.specs.Replies.{table_reply, define_reply, opposite, conflict_with, growth_check, extend_reply};
ghost use Rattle.pf_ticket.specs.Tickets.{PlainInactive, offer_at, loaded, with_rule, with_table, with_entries, given_from, IsPlace, fresh, tickets_with};
ghost use Rattle.pf_ticket.specs.Tickets.{content, is_valid};

use crate::entry::RulesetTicket;
use crate::limits::{ENTRY_LIMIT, LAST_COUNT};
use crate::name::RulesetName;
use crate::offered::Offered;
use crate::refusal::TicketRefusal;
use crate::slot::Slot;
use crate::slots::Slots;
use crate::ticket::{Ticket, TicketRange};
use pf_addr::path::TableName;
use pf_anchor::{Path, RULE_LIMIT, RULESET_LIMIT};
use pf_rule::Rule;
use pf_table::{Deletion, Entry, Table, TableRefusal};
use std::alloc::{AllocError, Global};
use std::marker::Model;

/// The valid tickets of one opening, and the inactive rulesets. Contracts see a `PlainTickets`.
#[derive(Drop)]
pub struct Tickets {
    alloc: Global,
    epoch: u32,
    // The count of the next ticket; once all counts are given, one more than the greatest.
    next: u64,
    slots: Slots,
}

impl Model for Tickets {
    ghost use Rattle.std.specs.Prelude.{◌≤◌, ◌+◌};
    ghost use Rattle.pf_ticket.specs.declared.limits.TheConstants.{LAST_COUNT};
    ghost use Rattle.pf_ticket.specs.Tickets.{PlainTickets, tickets_with};

    ghost Value = { PlainTickets };

    ghost view = { λ t. tickets_with t.epoch t.next t.slots };

    ghost invariant = { λ t. t.next ≤ LAST_COUNT + 1 };
}

fn is_bad_count(number: usize) -> bool
    ensures { result ≡ bad_count number }
{
    number == 0 || number > ENTRY_LIMIT
}

// Whether a list has a name.
fn is_named(names: &[RulesetName], name: &RulesetName) -> bool
    ensures { result ≡ is_named names.now name.now }
{
    names.iter().any(|other| other.same(name))
}

/// The place of the first of these rulesets, from 0, that is named before it. It takes no memory.
pub fn named_twice(names: &[RulesetName]) -> Option<usize>
    ensures { result ≡ twice_after [] names.now }
{
    for (place, name) in names.iter().enumerate() {
        if is_named(&names[..place], name) {
            return Some(place);
        }
    }
    None
}

// Whether one of these entries names the ruleset.
fn names_it(entries: &[RulesetTicket], name: &RulesetName) -> bool
    ensures { result ≡ list_any (λ e. same_name e.name name.now) entries.now }
{
    entries.iter().any(|other| other.name.same(name))
}

// The place of the first entry that names a ruleset named before it.
fn first_twice(entries: &[RulesetTicket]) -> Option<usize>
    ensures { result ≡ twice_in entries.now }
{
    for (place, entry) in entries.iter().enumerate() {
        if names_it(&entries[..place], &entry.name) {
            return Some(place);
        }
    }
    None
}

// Whether the entries of a commit or a rollback are good, whatever their tickets.
fn check_list(entries: &[RulesetTicket]) -> Result<(), TicketRefusal>
    ensures { result ≡ list_check entries.now }
{
    if is_bad_count(entries.len()) {
        return Err(TicketRefusal::BadCount);
    }
    match first_twice(entries) {
        Some(at) => Err(TicketRefusal::Twice { at }),
        None => Ok(()),
    }
}

// Whether a ruleset has no slot, and isn't among those named before it.
fn is_new(slots: &Slots, before: &[RulesetName], name: &RulesetName) -> bool
    ensures { result ≡ not (is_some (offer_at slots.now name.now) || is_named before.now name.now) }
{
    slots.place_of(name).is_err() && !is_named(before, name)
}

// The table that entries make; `None` if it would have too many. `Conflict` is at the first that contradicts an earlier one.
fn table_of(alloc: Global, entries: &[Entry]) -> Result<Option<Table>, TicketRefusal>
    ensures { OrMemory Memory result (table_reply (conflict_in entries.now) (replaced entries.now)) }
{
    let mut table = Table::empty();
    match table.replace(alloc, entries) {
        Ok(()) => Ok(Some(table)),
        Err(TableRefusal::Conflict { at }) => Err(TicketRefusal::Conflict { at }),
        Err(TableRefusal::TableFull) => Ok(None),
        Err(TableRefusal::Memory) => Err(TicketRefusal::Memory),
    }
}

// The entries with their signs exchanged.
fn opposites(alloc: Global, entries: &[Entry]) -> Result<Vec<Entry>, AllocError>
    ensures { IfOk result (λ v. v.items ≡ map opposite entries.now) }
{
    let mut opposites = Vec::with_capacity(alloc, entries.len())?;
    for entry in entries {
        opposites.push(Entry::new(entry.net(), !entry.is_negated()))?;
    }
    Ok(opposites)
}

// The place of the first entry that was deleted.
fn first_deleted(answers: &[Deletion]) -> Option<usize>
    ensures { result ≡ position is_deleted answers.now }
{
    answers
        .iter()
        .position(|answer| *answer == Deletion::Deleted)
}

// The place of the first of these entries whose network a table has with the other sign. What is answered if their opposites are deleted
// from a copy tells which of them it has.
#[tactic(auto, using(crate::proofs::Opposites::as_many_conflicts, crate::proofs::Opposites::first_deleted))]
fn conflict_with(
    alloc: Global,
    table: &Table,
    entries: &[Entry],
) -> Result<Option<usize>, TicketRefusal>
    requires { conflict_in entries.now ≡ None }
    ensures { OrMemory Memory result (Ok (conflict_with table.now entries.now)) }
{
    let opposites = opposites(alloc, entries)?;
    let mut copy = table.shared()?;
    let answers = copy.delete(alloc, opposites.as_slice())?;
    Ok(first_deleted(answers.as_slice()))
}

// A table with more entries, of which none contradicts another. `Conflict` is at the first that contradicts one of the table's.
fn table_with(alloc: Global, table: &Table, entries: &[Entry]) -> Result<Table, TicketRefusal>
    requires { conflict_in entries.now ≡ None }
    ensures refused { Meets Memory result (growth_check (Some table.now) entries.now) }
    ensures table { IfOk result (λ t. t ≡ entries_added table.now entries.now) }
{
    if let Some(at) = conflict_with(alloc, table, entries)? {
        return Err(TicketRefusal::Conflict { at });
    }
    let mut grown = table.shared()?;
    grown.add(alloc, entries)?;
    Ok(grown)
}

impl Tickets {
    /// The tickets of an opening: none yet. It takes no memory.
    pub fn new(alloc: Global, epoch: u32) -> Tickets
        ensures { result ≡ fresh epoch }
    {
        Tickets::starting(alloc, epoch, 1)
    }

    /// The tickets of an opening: none yet. The first that is given has the count `next_count`, from 1 to 4,294,967,295. With 1 it is
    /// `new`; with a greater one the last counts are reached sooner. What is said of the mentions since an opening is said of tickets that
    /// began with 1. It takes no memory.
    pub fn starting(alloc: Global, epoch: u32, next_count: u32) -> Tickets
        requires { 0 < next_count }
        ensures { result ≡ tickets_with epoch next_count [] }
    {
        Tickets {
            alloc,
            epoch,
            next: u64::from(next_count),
            slots: Slots::none(alloc),
        }
    }

    // The place of a ruleset's slot, if this is the ruleset's valid ticket.
    fn valid_place(&self, name: &RulesetName, ticket: Ticket) -> Option<usize>
        ensures within { IfSome result (λ i. i < length self.now.offers) }
        ensures some { IfSome result (IsPlace name.now self.now.offers) }
        ensures ticket { IfSome result (λ i. (e : RulesetName × PlainInactive) → e ≡ get_or self.now.offers i e → e.1.ticket ≡ ticket) }
        ensures valid { is_some result ≡ is_valid self.now name.now ticket }
    {
        let place = self.slots.place_of(name).ok()?;
        if self.slots.at(place).ticket() == ticket {
            Some(place)
        } else {
            None
        }
    }

    // Whether a ticket is the ruleset's valid one.
    fn is_valid(&self, name: &RulesetName, ticket: Ticket) -> bool
        ensures { result ≡ is_valid self.now name.now ticket }
    {
        self.valid_place(name, ticket).is_some()
    }

    // The same, after the tickets of these rulesets were voided.
    #[tactic(auto, using(crate::proofs::Voided::valid_after))]
    fn is_valid_after(&self, voided: &[RulesetName], name: &RulesetName, ticket: Ticket) -> bool
        ensures { result ≡ is_valid (after self.now (switches voided.now)) name.now ticket }
    {
        !is_named(voided, name) && self.is_valid(name, ticket)
    }

    // The first entry whose ticket isn't valid then.
    fn first_busy(&self, voided: &[RulesetName], entries: &[RulesetTicket]) -> Option<usize>
        ensures { result ≡ busy_in (after self.now (switches voided.now)) entries.now }
    {
        entries.iter().position(|entry| !self.is_valid_after(voided, &entry.name, entry.ticket))
    }

    // How many rulesets have a valid ticket after these get one too.
    fn opened_with(&self, names: &[RulesetName]) -> usize
        ensures { result ≡ length (after self.now (gives names.now)).offers }
    {
        let mut count = self.slots.len();
        for (place, name) in names.iter().enumerate() {
            count += usize::from(is_new(&self.slots, &names[..place], name));
        }
        count
    }

    // Voids a ruleset's ticket.
    fn take_out(&mut self, name: &RulesetName)
        ensures { self.new ≡ take_out self.old name.now }
    {
        self.slots.take_out(name);
    }

    // Appends a rule to the ruleset's offer, which is at this place.
    fn grow(&mut self, name: &RulesetName, place: usize, rule: Rule) -> Result<(), AllocError>
        requires within { place < length self.old.offers }
        requires stands { IsPlace name.now self.old.offers place }
        requires room { length (loaded self.old name.now).rules < RULE_LIMIT }
        ensures ok { OnOk result ((e : RulesetName × PlainInactive) → e ≡ get_or self.old.offers place e →
            self.new ≡ load self.old name.now e.1.ticket (with_rule (loaded self.old name.now) rule)) }
        ensures err { OnErr result (self.new ≡ self.old) }
    {
        self.slots.add(self.alloc, name, place, rule)
    }

    // Sets a table of the ruleset's offer, which is at this place.
    fn set_table(
        &mut self,
        name: &RulesetName,
        place: usize,
        table_name: &TableName,
        table: Table,
    ) -> Result<(), AllocError>
        requires within { place < length self.old.offers }
        requires stands { IsPlace name.now self.old.offers place }
        ensures ok { OnOk result ((e : RulesetName × PlainInactive) → e ≡ get_or self.old.offers place e →
            self.new ≡ load self.old name.now e.1.ticket (with_table (loaded self.old name.now) table_name.now table)) }
        ensures err { OnErr result (self.new ≡ self.old) }
    {
        self.slots
            .define(self.alloc, name, place, table_name, table)
    }

    // The entries that are offered for a table of the ruleset whose offer is at this place, if the table was defined.
    fn entries_of(&self, name: &RulesetName, place: usize, table_name: &TableName) -> Option<&Table>
        requires within { place < length self.now.offers }
        requires stands { IsPlace name.now self.now.offers place }
        ensures { option_map (λ t. t.now) result ≡ find name_order table_name.now (loaded self.now name.now).tables }
    {
        self.slots.at(place).entries_of(table_name)
    }

    // The table of a name with more entries, of which none contradicts another, for the ruleset whose offer is at this place.
    fn grown_table(
        &self,
        name: &RulesetName,
        place: usize,
        table_name: &TableName,
        entries: &[Entry],
    ) -> Result<Table, TicketRefusal>
        requires within { place < length self.now.offers }
        requires stands { IsPlace name.now self.now.offers place }
        requires agree { conflict_in entries.now ≡ None }
        ensures refused { Meets Memory result (growth_check (find name_order table_name.now (loaded self.now name.now).tables) entries.now) }
        ensures table { IfOk result (λ rows. with_entries (loaded self.now name.now) table_name.now entries.now
            ≡ with_table (loaded self.now name.now) table_name.now rows) }
    {
        match self.entries_of(name, place, table_name) {
            Some(table) => table_with(self.alloc, table, entries),
            None => Err(TicketRefusal::Absent),
        }
    }

    // The slots of these rulesets in turn, with the next tickets. `AllocError`: nothing is made.
    fn new_slots(&self, names: &[RulesetName]) -> Result<Vec<Slot>, AllocError>
        requires { self.now.next + length names.now ≤ LAST_COUNT + 1 }
        ensures { IfOk result (λ s. s.items ≡ given_from self.now.epoch self.now.next names.now) }
    {
        let mut slots = Vec::with_capacity(self.alloc, names.len())?;
        let mut next = self.next;
        for name in names {
            let ticket = Ticket {
                epoch: self.epoch,
                count: next as u32,
            };
            slots.push(Slot::new(self.alloc, name.copied(), ticket)?)?;
            next += 1;
        }
        Ok(slots)
    }

    // Gives the next tickets to these rulesets in turn, with nothing offered yet. `AllocError`: all is as before.
    fn give(&mut self, names: &[RulesetName]) -> Result<(), AllocError>
        requires { self.old.next + length names.now ≤ LAST_COUNT + 1 }
        ensures ok { OnOk result (self.new ≡ after self.old (gives names.now)) }
        ensures err { OnErr result (self.new ≡ self.old) }
    {
        let new = self.new_slots(names)?;
        self.slots.put_all(new)?;
        self.next += names.len() as u64;
        Ok(())
    }

    /// Gives each ruleset in turn a new ticket, with nothing offered yet.
    ///
    /// The refusal is the first in this order: `BadCount`; `TooManyRulesets`; `TicketsExhausted`. `Memory` may come before any of them.
    /// After a refusal all is as before.
    pub fn begin(&mut self, names: &[RulesetName]) -> Result<TicketRange, TicketRefusal>
        ensures reply { OrMemory Memory result (begin_reply self.old names.now) }
        ensures ok { OnOk result (self.new ≡ after self.old (gives names.now)) }
        ensures err { OnErr result (self.new ≡ self.old) }
    {
        if is_bad_count(names.len()) {
            return Err(TicketRefusal::BadCount);
        }
        if self.opened_with(names) > RULESET_LIMIT {
            return Err(TicketRefusal::TooManyRulesets);
        }
        let number = names.len() as u32;
        if self.next + u64::from(number) - 1 > LAST_COUNT {
            return Err(TicketRefusal::TicketsExhausted);
        }
        let first = Ticket {
            epoch: self.epoch,
            count: self.next as u32,
        };
        self.give(names)?;
        Ok(TicketRange { first, number })
    }

    /// Appends a rule to the filter ruleset that is offered with a valid ticket.
    ///
    /// The refusal is the first in this order: `Busy` at 0; `RulesetFull`. `Memory` may come before any of them. After a refusal all is as
    /// before.
    pub fn add_rule(&mut self, path: &Path, ticket: Ticket, rule: Rule) -> Result<(), TicketRefusal>
        ensures reply { OrMemory Memory result (add_reply self.old (filter_at path.now) ticket) }
        ensures ok { OnOk result (self.new ≡ moved self.old (added (filter_at path.now) ticket rule)) }
        ensures err { OnErr result (self.new ≡ self.old) }
    {
        let name = RulesetName::filter(path);
        let Some(place) = self.valid_place(&name, ticket) else {
            return Err(TicketRefusal::Busy { at: 0 });
        };
        if self.slots.at(place).rule_count() >= RULE_LIMIT {
            return Err(TicketRefusal::RulesetFull);
        }
        self.grow(&name, place, rule)?;
        Ok(())
    }

    /// Sets the entries of one table that is offered with a valid ticket, in place of what was defined under its name before. If there are
    /// none, a commit takes the table out.
    ///
    /// The refusal is the first in this order: `Conflict`; `Busy` at 0; `TableFull`; `TooManyTables`, if the name is new. `Memory` may come
    /// before any of them. After a refusal all is as before.
    pub fn define_table(
        &mut self,
        path: &Path,
        ticket: Ticket,
        name: &TableName,
        entries: &[Entry],
    ) -> Result<(), TicketRefusal>
        ensures reply { OrMemory Memory result (define_reply self.old (table_ruleset_at path.now) ticket name.now entries.now) }
        ensures ok { OnOk result (self.new ≡ moved self.old (defined (table_ruleset_at path.now) ticket name.now entries.now)) }
        ensures err { OnErr result (self.new ≡ self.old) }
    {
        let table = table_of(self.alloc, entries)?;
        let owner = RulesetName::table(path);
        let Some(place) = self.valid_place(&owner, ticket) else {
            return Err(TicketRefusal::Busy { at: 0 });
        };
        let Some(table) = table else {
            return Err(TicketRefusal::TableFull);
        };
        if self.slots.at(place).is_full_for(name) {
            return Err(TicketRefusal::TooManyTables);
        }
        self.set_table(&owner, place, name, table)?;
        Ok(())
    }

    /// Adds entries to those of one table that is offered with a valid ticket. An entry that is offered already stays as it is.
    ///
    /// The refusal is the first in this order: `Conflict`, if entries contradict one another; `Busy` at 0; `Absent`, if the table wasn't
    /// defined with this ticket; `Conflict`, if an entry contradicts one that is offered; `TableFull`. `Memory` may come before any of
    /// them. After a refusal all is as before.
    pub fn extend_table(
        &mut self,
        path: &Path,
        ticket: Ticket,
        name: &TableName,
        entries: &[Entry],
    ) -> Result<(), TicketRefusal>
        ensures reply { OrMemory Memory result (extend_reply self.old (table_ruleset_at path.now) ticket name.now entries.now) }
        ensures ok { OnOk result (self.new ≡ moved self.old (extended (table_ruleset_at path.now) ticket name.now entries.now)) }
        ensures err { OnErr result (self.new ≡ self.old) }
    {
        // for a conflict among them, which comes before the ticket's fault
        table_of(self.alloc, entries)?;
        let ruleset = RulesetName::table(path);
        let Some(place) = self.valid_place(&ruleset, ticket) else {
            return Err(TicketRefusal::Busy { at: 0 });
        };
        let grown = self.grown_table(&ruleset, place, name, entries)?;
        self.set_table(&ruleset, place, name, grown)?;
        Ok(())
    }

    /// Whether a commit of these entries may go on. The refusal is the first in this order: `BadCount`; `Twice`; `Busy`. It takes no
    /// memory.
    pub fn check_all(&self, entries: &[RulesetTicket]) -> Result<(), TicketRefusal>
        ensures { result ≡ commit_check self.now entries.now }
    {
        self.check_all_after(&[], entries)
    }

    /// As [`Tickets::check_all`], after the tickets of these rulesets were voided.
    pub fn check_all_after(
        &self,
        voided: &[RulesetName],
        entries: &[RulesetTicket],
    ) -> Result<(), TicketRefusal>
        ensures { result ≡ commit_check (after self.now (switches voided.now)) entries.now }
    {
        check_list(entries)?;
        match self.first_busy(voided, entries) {
            Some(at) => Err(TicketRefusal::Busy { at }),
            None => Ok(()),
        }
    }

    /// What is offered for a ruleset with its valid ticket, shared; nothing if it has none. `AllocError`: out of memory, or what is offered
    /// can't have another owner.
    pub fn contents(&self, name: &RulesetName) -> Result<Offered, AllocError>
        ensures { IfOk result (λ o. o ≡ content self.now name.now) }
    {
        match self.slots.place_of(name) {
            Ok(place) => self.slots.at(place).offered(),
            Err(_) => Ok(Offered::nothing(name.kind)),
        }
    }

    /// As [`Tickets::contents`], after the tickets of these rulesets were voided.
    #[tactic(auto, using(crate::proofs::Voided::content_after))]
    pub fn contents_after(
        &self,
        voided: &[RulesetName],
        name: &RulesetName,
    ) -> Result<Offered, AllocError>
        ensures { IfOk result (λ o. o ≡ content (after self.now (switches voided.now)) name.now) }
    {
        if is_named(voided, name) {
            return Ok(Offered::nothing(name.kind));
        }
        self.contents(name)
    }

    /// Drops each of these rulesets whose ticket is valid. The refusal is `BadCount`, else `Twice`; after one all is as before. It takes no
    /// memory.
    pub fn rollback(&mut self, entries: &[RulesetTicket]) -> Result<(), TicketRefusal>
        ensures reply { result ≡ list_check entries.now }
        ensures ok { OnOk result (self.new ≡ after self.old (drops entries.now)) }
        ensures err { OnErr result (self.new ≡ self.old) }
    {
        check_list(entries)?;
        for entry in entries {
            if self.is_valid(&entry.name, entry.ticket) {
                self.take_out(&entry.name);
            }
        }
        Ok(())
    }

    /// Voids the tickets of these rulesets, as a commit does. It takes no memory.
    pub fn take_all(&mut self, names: &[RulesetName])
        ensures { self.new ≡ after self.old (switches names.now) }
    {
        for name in names {
            self.take_out(name);
        }
    }
}
