//! Slots of inactive rulesets.
ghost use Rattle.std.specs.{Prelude.{◌≡◌, ◌<◌, List, length, nat_lt, IfOk, OnOk, OnErr}, FinMap.find, Option.option_map};
ghost use Rattle.pf_addr.specs.Path.Names.{name_order};
ghost use Rattle.pf_anchor.specs.declared.limits.TheConstants.{RULE_LIMIT};
ghost use Rattle.pf_table.specs.Entries.{PlainEntry};
ghost use Rattle.pf_ticket.specs.declared.limits.TheConstants.{OFFERED_TABLE_LIMIT};
ghost use Rattle.pf_ticket.specs.Tickets.{offer_with, nothing, with_rule, with_table, offered_as};

use crate::defined::Defined;
use crate::name::{RulesetKind, RulesetName};
use crate::offered::Offered;
use crate::ticket::Ticket;
use pf_addr::path::TableName;
use pf_anchor::RuleList;
use pf_rule::Rule;
use pf_table::Table;
use std::alloc::{AllocError, Global};
use std::marker::Model;

// An inactive ruleset with its valid ticket.
#[derive(Drop)]
struct Inactive {
    name: RulesetName,
    ticket: Ticket,
    // Empty but for a filter ruleset.
    rules: RuleList,
    // Empty but for a table ruleset.
    tables: Defined,
}

/// An inactive ruleset with its valid ticket, boxed, so that only pointers are moved when slots make room for another. Contracts see the
/// pair of its name and its offer.
pub(crate) struct Slot {
    inactive: Box<Inactive>,
}

impl Drop for Slot {
    fn drop(self) {
        let Slot { inactive: _ } = self;
    }
}

impl Model for Slot {
    ghost use Rattle.pf_ticket.specs.declared.name.RulesetName.{RulesetName};
    ghost use Rattle.pf_ticket.specs.Tickets.{PlainInactive, offer_with, loaded_with};

    ghost Value = { RulesetName × PlainInactive };

    ghost view = { λ s. (s.inactive.value.name, offer_with s.inactive.value.ticket (loaded_with s.inactive.value.rules s.inactive.value.tables)) };
}

impl Slot {
    // The slot of a new ticket, with nothing loaded yet.
    pub(crate) fn new(alloc: Global, name: RulesetName, ticket: Ticket) -> Result<Slot, AllocError>
        ensures { IfOk result (λ s. s ≡ (name, offer_with ticket nothing)) }
    {
        Ok(Slot {
            inactive: Box::new(
                alloc,
                Inactive {
                    name,
                    ticket,
                    rules: RuleList::none(),
                    tables: Defined::none(),
                },
            )?,
        })
    }

    // The ruleset's name.
    pub(crate) fn name(&self) -> &RulesetName
        ensures { result.now ≡ self.now.0 }
    {
        &self.inactive.name
    }

    // Its valid ticket.
    pub(crate) fn ticket(&self) -> Ticket
        ensures { result ≡ self.now.1.ticket }
    {
        self.inactive.ticket
    }

    // How many rules are loaded.
    pub(crate) fn rule_count(&self) -> usize
        ensures { result ≡ length self.now.1.loaded.rules }
    {
        self.inactive.rules.as_slice().len()
    }

    // The entries that are offered for the table of a name, if it was defined.
    pub(crate) fn entries_of(&self, name: &TableName) -> Option<&Table>
        ensures { option_map (λ t. t.now) result ≡ find name_order name.now self.now.1.loaded.tables }
    {
        self.inactive.tables.entries_of(name)
    }

    // Whether there would be more tables than allowed, with one of this name.
    pub(crate) fn is_full_for(&self, name: &TableName) -> bool
        ensures { (rows : List PlainEntry) → result ≡ nat_lt OFFERED_TABLE_LIMIT (length (with_table self.now.1.loaded name.now rows).tables) }
    {
        self.inactive.tables.is_full_for(name)
    }

    // Appends a rule. Out of memory: all is as before.
    pub(crate) fn add(&mut self, alloc: Global, rule: Rule) -> Result<(), AllocError>
        requires { length self.old.1.loaded.rules < RULE_LIMIT }
        ensures ok { OnOk result (self.new ≡ (self.old.0, offer_with self.old.1.ticket (with_rule self.old.1.loaded rule))) }
        ensures err { OnErr result (self.new ≡ self.old) }
    {
        self.inactive.rules.add(alloc, rule)
    }

    // Sets the table of this name. Out of memory: all is as before.
    pub(crate) fn define(
        &mut self,
        alloc: Global,
        name: &TableName,
        table: Table,
    ) -> Result<(), AllocError>
        ensures ok { OnOk result (self.new ≡ (self.old.0, offer_with self.old.1.ticket (with_table self.old.1.loaded name.now table))) }
        ensures err { OnErr result (self.new ≡ self.old) }
    {
        self.inactive.tables.define(alloc, name, table)
    }

    // What is offered, shared.
    pub(crate) fn offered(&self) -> Result<Offered, AllocError>
        ensures { IfOk result (λ o. o ≡ offered_as self.now.0.kind self.now.1.loaded) }
    {
        match self.inactive.name.kind {
            RulesetKind::Filter => Ok(Offered::Rules(self.inactive.rules.shared()?)),
            RulesetKind::Table => Ok(Offered::Tables(self.inactive.tables.shared()?)),
        }
    }
}
