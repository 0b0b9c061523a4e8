//! The slots of all inactive rulesets.
ghost use Rattle.std.specs.Prelude.{◌≡◌, ◌<◌, ◌≤◌, ◌+◌, ◌^◌, T, [], length, get_or, IfOk, IfErr, OnOk, OnErr, Some, None, vec_len};
ghost use Rattle.std.specs.Prelude.{vec_capacity};
ghost use Rattle.std.specs.{FinMap.is_sorted, List.Sorted.IsSearchInRange};
ghost use Rattle.pf_anchor.specs.declared.limits.TheConstants.{RULE_LIMIT};
ghost use Rattle.pf_ticket.specs.Names.{ruleset_order};
ghost use Rattle.pf_ticket.specs.Tickets.{PlainInactive, offer_with, with_rule, with_table, with_offer, with_all, IsPlace, IsGap};

use crate::name::RulesetName;
use crate::slot::Slot;
use pf_addr::path::TableName;
use pf_rule::Rule;
use pf_table::Table;
use std::alloc::{AllocError, Global};
use std::marker::Model;

/// Slots in the order of their rulesets' names. Contracts see it as the list.
#[derive(Drop)]
pub(crate) struct Slots {
    slots: Vec<Slot>,
}

impl Model for Slots {
    ghost use Rattle.std.specs.Prelude.{T};
    ghost use Rattle.std.specs.FinMap.{is_sorted};
    ghost use Rattle.pf_ticket.specs.Names.{ruleset_order};
    ghost use Rattle.pf_ticket.specs.Tickets.{PlainSlots};

    ghost Value = { PlainSlots };

    ghost view = { λ s. s.slots.items };

    ghost invariant = { λ s. T (is_sorted ruleset_order s.slots.items) };
}

// The place of a ruleset's slot; `Err`: it has none, and this is where it would be.
fn place_of(slots: &[Slot], name: &RulesetName) -> Result<usize, usize>
    requires { T (is_sorted ruleset_order slots.now) }
    ensures known { IfOk result (IsPlace name.now slots.now) }
    ensures unknown { IfErr result (IsGap name.now slots.now) }
    ensures bound { IsSearchInRange result (length slots.now) }
{
    slots.binary_search_by(|slot| slot.name().order(name))
}

// Puts a slot in place of the one that its ruleset had, or inserts it in order.
fn put(slots: &mut Vec<Slot>, slot: Slot)
    requires order { T (is_sorted ruleset_order slots.old.items) }
    requires room { vec_len slots.old < vec_capacity slots.old }
    ensures items { slots.new.items ≡ with_offer slots.old.items slot.0 (Some slot.1) }
    ensures len { vec_len slots.new ≤ vec_len slots.old + 1 }
    ensures capacity { vec_capacity slots.old ≤ vec_capacity slots.new }
{
    match place_of(slots, slot.name()) {
        Ok(place) => slots[place] = slot,
        Err(place) => {
            // the capacity suffices
            let _ = slots.insert(place, slot);
        }
    }
}

// Puts slots in turn.

fn put_each(slots: &mut Vec<Slot>, new: Vec<Slot>)
    requires order { T (is_sorted ruleset_order slots.old.items) }
    requires room { vec_len slots.old + vec_len new ≤ vec_capacity slots.old }
    ensures { slots.new.items ≡ with_all slots.old.items new.items }
{
    for slot in new {
        put(slots, slot);
    }
}

impl Slots {
    // No slots. It takes no memory.
    pub(crate) fn none(alloc: Global) -> Slots
        ensures { result ≡ [] }
    {
        Slots {
            slots: Vec::new(alloc),
        }
    }

    // How many there are.
    pub(crate) fn len(&self) -> usize
        ensures value { result ≡ length self.now }
        ensures small { result < 2 ^ 63 }
        ensures order { T (is_sorted ruleset_order self.now) }
    {
        self.slots.len()
    }

    // The place of a ruleset's slot; `Err`: it has none, and this is where it would be.
    pub(crate) fn place_of(&self, name: &RulesetName) -> Result<usize, usize>
        ensures known { IfOk result (IsPlace name.now self.now) }
        ensures unknown { IfErr result (IsGap name.now self.now) }
        ensures bound { IsSearchInRange result (length self.now) }
    {
        place_of(&self.slots, name)
    }

    // The slot at a place.
    pub(crate) fn at(&self, place: usize) -> &Slot
        requires { place < length self.now }
        ensures { result.now ≡ get_or self.now place result.now }
    {
        &self.slots[place]
    }

    // Puts slots in turn, each in place of the one that its ruleset had. `AllocError`: all is as before.
    #[tactic(auto, using(crate::proofs::Offers::stay_sorted))]
    pub(crate) fn put_all(&mut self, new: Vec<Slot>) -> Result<(), AllocError>
        ensures ok { OnOk result (self.new ≡ with_all self.old new.items) }
        ensures err { OnErr result (self.new ≡ self.old) }
    {
        self.slots.reserve(new.len())?;
        put_each(&mut self.slots, new);
        Ok(())
    }

    // Takes out a ruleset's slot, if it has one. It takes no memory.
    #[tactic(auto, using(crate::proofs::Offers::sorted_removed))]
    pub(crate) fn take_out(&mut self, name: &RulesetName)
        ensures { self.new ≡ with_offer self.old name.now None }
    {
        if let Ok(place) = place_of(&self.slots, name) {
            self.slots.remove(place);
        }
    }

    // Appends a rule to the ruleset whose slot is at this place. Out of memory: all is as before.
    #[tactic(auto, using(crate::proofs::Offers::sorted_set))]
    pub(crate) fn add(
        &mut self,
        alloc: Global,
        name: &RulesetName,
        place: usize,
        rule: Rule,
    ) -> Result<(), AllocError>
        requires within { place < length self.old }
        requires stands { IsPlace name.now self.old place }
        requires room { (e : RulesetName × PlainInactive) → e ≡ get_or self.old place e → length e.1.loaded.rules < RULE_LIMIT }
        ensures ok { OnOk result ((e : RulesetName × PlainInactive) → e ≡ get_or self.old place e →
            self.new ≡ with_offer self.old name.now (Some (offer_with e.1.ticket (with_rule e.1.loaded rule)))) }
        ensures err { OnErr result (self.new ≡ self.old) }
    {
        self.slots[place].add(alloc, rule)
    }

    // Sets a table of the ruleset whose slot is at this place. Out of memory: all is as before.
    #[tactic(auto, using(crate::proofs::Offers::sorted_set))]
    pub(crate) fn define(
        &mut self,
        alloc: Global,
        name: &RulesetName,
        place: usize,
        table_name: &TableName,
        table: Table,
    ) -> Result<(), AllocError>
        requires within { place < length self.old }
        requires stands { IsPlace name.now self.old place }
        ensures ok { OnOk result ((e : RulesetName × PlainInactive) → e ≡ get_or self.old place e →
            self.new ≡ with_offer self.old name.now (Some (offer_with e.1.ticket (with_table e.1.loaded table_name.now table)))) }
        ensures err { OnErr result (self.new ≡ self.old) }
    {
        self.slots[place].define(alloc, table_name, table)
    }
}
