//! What a commit replaces.
ghost use Rattle.std.specs.{Prelude.{◌≡◌, ◌≤◌, ◌&&◌, true, length, map, IfOk, OnOk}, List.list_all};
ghost use Rattle.pf_form.specs.{Bytes.Forms.{counted, onto, Fits}, Bytes.Readers.Reads};
ghost use Rattle.pf_rule.specs.Sum.Layouts.{plain_rule};
ghost use Rattle.pf_ticket.specs.declared.limits.TheConstants.{OFFERED_TABLE_LIMIT};
ghost use Rattle.pf_anchor.specs.Forms.{RulesShape, rules_form, rule_list_form, plain_named, allows_rules};
ghost use Rattle.pf_store.specs.Groups.{TablesShape, tables_form, defined_form, item_form, items_form, plain_item, is_commit, has_item_form, allows_item};

use crate::encoding::tables::{StoredTable, push_named};
use pf_addr::path::Path;
use pf_anchor::{Placed, RULE_LIMIT, RuleList};
use pf_core::Item;
use pf_form::bytes::{
    Fault, Layout, Rest, Undecoded, expect, push_bytes, push_fitting, push_key, push_u8, push_u32,
    read_list, read_ordered_list, read_times, read_u8, takes, write_list,
};
use pf_rule::Rule;
use pf_rule::sum::rules_fit;
use pf_ticket::{Defined, DefinedTable, ENTRY_LIMIT, OFFERED_TABLE_LIMIT};
use std::alloc::{AllocError, Global};

const RULES: u8 = 1;

const TABLES: u8 = 2;

// An item, as a commit has it.
#[derive(Drop)]
struct StoredItem {
    item: Item,
}

impl Layout for StoredItem {
    ghost use Rattle.std.specs.Prelude.{true};
    ghost use Rattle.pf_store.specs.Groups.{ItemShape, item_form, plain_item};

    ghost shape = { ItemShape };

    ghost form = { item_form };

    ghost plain = { λ row. plain_item row.item };

    ghost before = { λ a b. true };

    #[tactic(auto, unfolding(crate::specs::Groups::item_form))]
    fn read<'a>(alloc: Global, version: u8, from: &mut Rest<'a>) -> Result<StoredItem, Undecoded> {
        if takes(from, RULES)? {
            let (path, rules) = read_rules(alloc, version, from)?;
            let item = Item::Rules(Placed::new(alloc, path, rules)?);
            return Ok(StoredItem { item });
        }
        expect(from, &[TABLES])?;
        let (path, tables) = read_tables(alloc, version, from)?;
        let item = Item::Tables { path, tables };
        Ok(StoredItem { item })
    }

    #[tactic(auto, using(crate::proofs::Pushed::item_formed))]
    fn write(&self, version: u8, out: &mut Vec<u8>) -> Result<(), AllocError> {
        is_allowed(&self.item, version);
        push_item(out, version, &self.item)
    }
}

// Gives contracts the fact that a version that has a form for an item allows it; does nothing.
#[tactic(auto, using(crate::proofs::Allowing::kept_allowed), unfolding(crate::specs::Groups::item_form))]
fn is_allowed(item: &Item, version: u8)
    requires { Fits (item_form version) (plain_item item.now) }
    ensures { allows_item version item.now ≡ true }
{
    match item {
        // `as_slice` promises that these are rules
        Item::Rules(placed) => {
            let _rules = placed.value().as_slice();
        }
        Item::Tables { .. } => {}
    }
}

/// Reads a path and the rules there from the front of the bytes. Fails with the first fault there, or when out of memory.
#[tactic(auto, unfolding(pf_anchor::specs::Forms::rules_form))]
pub(crate) fn read_rules<'a>(
    alloc: Global,
    version: u8,
    from: &mut Rest<'a>,
) -> Result<(Path, RuleList), Undecoded>
    ensures { Reads {a = RulesShape} (λ r. (r.0, map plain_rule r.1)) (rules_form version) result from.old.now from.new.now }
{
    let path = Path::read(alloc, version, from)?;
    let rules = read_rule_list(alloc, version, from)?;
    Ok((path, rules))
}

#[tactic(auto, unfolding(pf_anchor::specs::Forms::rule_list_form))]
fn read_rule_list<'a>(
    alloc: Global,
    version: u8,
    from: &mut Rest<'a>,
) -> Result<RuleList, Undecoded>
    ensures { Reads (λ l. map plain_rule l) (rule_list_form version) result from.old.now from.new.now }
{
    let left = from.len();
    let rules = read_list::<Rule>(alloc, version, from)?;
    if rules.len() > RULE_LIMIT {
        return Err(Undecoded::Fault(Fault::Bad(left)));
    }
    Ok(RuleList::of(alloc, rules)?)
}

// Reads a path and the tables there that were defined.
#[tactic(auto, unfolding(crate::specs::Groups::tables_form))]
fn read_tables<'a>(
    alloc: Global,
    version: u8,
    from: &mut Rest<'a>,
) -> Result<(Path, Defined), Undecoded>
    ensures { Reads {a = TablesShape} (λ r. (r.0, map plain_named r.1)) tables_form result from.old.now from.new.now }
{
    let path = Path::read(alloc, version, from)?;
    let tables = read_defined(alloc, version, from)?;
    Ok((path, tables))
}

#[tactic(auto, unfolding(crate::specs::Groups::defined_form))]
fn read_defined<'a>(alloc: Global, version: u8, from: &mut Rest<'a>) -> Result<Defined, Undecoded>
    ensures { Reads (λ d. map plain_named d) defined_form result from.old.now from.new.now }
{
    let left = from.len();
    let rows = read_ordered_list::<StoredTable>(alloc, version, from)?;
    if rows.len() > OFFERED_TABLE_LIMIT {
        return Err(Undecoded::Fault(Fault::Bad(left)));
    }
    let tables = tables_of(alloc, rows)?;
    Ok(Defined::of(alloc, &tables)?)
}

fn tables_of(alloc: Global, rows: Vec<StoredTable>) -> Result<Vec<DefinedTable>, AllocError>
    ensures { IfOk result (λ v. v.items ≡ map (λ r. r.table) rows.items) }
{
    rows.into_iter().map(|row| row.table).collect(alloc)
}

/// Appends a path and the rules there, which the version allows, to the bytes; they fit. Fails only when out of memory.
#[tactic(auto, unfolding(pf_anchor::specs::Forms::rules_form))]
pub(crate) fn push_rules(out: &mut Vec<u8>, version: u8, placed: &Placed) -> Result<(), AllocError>
    requires { allows_rules version placed.now.1 ≡ true }
    ensures written { OnOk result
        (out.new.items ≡ onto {a = RulesShape} (rules_form version) (placed.now.0, map plain_rule placed.now.1) out.old.items) }
    ensures fits { OnOk result (Fits {a = RulesShape} (rules_form version) (placed.now.0, map plain_rule placed.now.1)) }
{
    push_fitting(out, version, placed.key())?;
    push_rule_list(out, version, placed.value())
}

#[tactic(auto, unfolding(pf_anchor::specs::Forms::rule_list_form), using(crate::proofs::Pushed::rule_list_fits))]
fn push_rule_list(out: &mut Vec<u8>, version: u8, rules: &RuleList) -> Result<(), AllocError>
    requires { allows_rules version rules.now ≡ true }
    ensures written { OnOk result (out.new.items ≡ onto (rule_list_form version) (map plain_rule rules.now) out.old.items) }
    ensures fits { OnOk result (Fits (rule_list_form version) (map plain_rule rules.now)) }
{
    let rules = rules.as_slice();
    rules_fit(rules, version);
    write_list(rules, version, out)
}

// Appends a path and the tables there that were defined to the bytes.
#[tactic(auto, unfolding(crate::specs::Groups::tables_form))]
fn push_tables(
    out: &mut Vec<u8>,
    version: u8,
    path: &Path,
    tables: &Defined,
) -> Result<(), AllocError>
    requires { length tables.now ≤ OFFERED_TABLE_LIMIT }
    ensures written { OnOk result
        (out.new.items ≡ onto {a = TablesShape} tables_form (path.now, map plain_named tables.now) out.old.items) }
    ensures fits { OnOk result (Fits {a = TablesShape} tables_form (path.now, map plain_named tables.now)) }
{
    push_fitting(out, version, path)?;
    push_defined(out, version, tables)
}

#[tactic(auto, unfolding(crate::specs::Groups::defined_form), using(crate::proofs::Pushed::tables_fit))]
fn push_defined(out: &mut Vec<u8>, version: u8, tables: &Defined) -> Result<(), AllocError>
    requires { length tables.now ≤ OFFERED_TABLE_LIMIT }
    ensures written { OnOk result (out.new.items ≡ onto defined_form (map plain_named tables.now) out.old.items) }
    ensures fits { OnOk result (Fits defined_form (map plain_named tables.now)) }
{
    let entries = tables.entries();
    push_u32(out, tables.len() as u32)?;
    for table in entries {
        push_named(out, version, table)?;
    }
    Ok(())
}

#[tactic(auto, unfolding(crate::specs::Groups::item_form))]
fn push_item(out: &mut Vec<u8>, version: u8, item: &Item) -> Result<(), AllocError>
    requires formed { has_item_form item.now ≡ true }
    requires allowed { allows_item version item.now ≡ true }
    ensures written { OnOk result (out.new.items ≡ onto (item_form version) (plain_item item.now) out.old.items) }
    ensures fits { OnOk result (Fits (item_form version) (plain_item item.now)) }
{
    match item {
        Item::Rules(placed) => {
            push_key(out, RULES)?;
            push_rules(out, version, placed)
        }
        Item::Tables { path, tables } => {
            push_bytes(out, &[TABLES])?;
            push_tables(out, version, path, tables)
        }
    }
}

/// Reads what a commit replaces from the front of the bytes. Fails with the first fault there, or when out of memory.
#[tactic(auto, unfolding(crate::specs::Groups::items_form))]
pub(crate) fn read_items<'a>(
    alloc: Global,
    version: u8,
    from: &mut Rest<'a>,
) -> Result<Vec<Item>, Undecoded>
    ensures { Reads (λ v. map plain_item v.items) (items_form version) result from.old.now from.new.now }
{
    let left = from.len();
    let rows = read_rows(alloc, version, from)?;
    let items = items_of(alloc, rows)?;
    if !is_commit(&items) {
        return Err(Undecoded::Fault(Fault::Bad(left)));
    }
    Ok(items)
}

fn items_of(alloc: Global, rows: Vec<StoredItem>) -> Result<Vec<Item>, AllocError>
    ensures { IfOk result (λ v. v.items ≡ map (λ r. r.item) rows.items) }
{
    rows.into_iter().map(|row| row.item).collect(alloc)
}

// Reads items after their number in one byte.
fn read_rows<'a>(
    alloc: Global,
    version: u8,
    from: &mut Rest<'a>,
) -> Result<Vec<StoredItem>, Undecoded>
    ensures { Reads (λ v. map (λ row. plain_item row.item) v.items) (counted 1 (item_form version)) result from.old.now from.new.now }
{
    let count = read_u8(from)?;
    read_times::<StoredItem>(alloc, version, count as usize, from)
}

/// Appends what a commit replaces to the bytes; it fits. Fails only when out of memory.
#[tactic(auto, unfolding(crate::specs::Groups::items_form))]
pub(crate) fn push_items(out: &mut Vec<u8>, version: u8, items: &[Item]) -> Result<(), AllocError>
    requires many { is_commit items.now ≡ true }
    requires formed { list_all has_item_form items.now ≡ true }
    requires allowed { list_all (allows_item version) items.now ≡ true }
    ensures written { OnOk result (out.new.items ≡ onto (items_form version) (map plain_item items.now) out.old.items) }
    ensures fits { OnOk result (Fits (items_form version) (map plain_item items.now)) }
{
    push_u8(out, items.len() as u8)?;
    for item in items {
        push_item(out, version, item)?;
    }
    Ok(())
}

/// Whether a commit of these has bytes.
pub(crate) fn have_form(items: &[Item]) -> bool
    ensures { result ≡ is_commit items.now && list_all has_item_form items.now }
{
    is_commit(items) && all_have_form(items)
}

fn all_have_form(items: &[Item]) -> bool
    ensures { result ≡ list_all has_item_form items.now }
{
    items.iter().all(has_item_form)
}

// Whether there are as many as a commit may name, 1 to 64.
fn is_commit(items: &[Item]) -> bool
    ensures { result ≡ is_commit items.now }
{
    !items.is_empty() && items.len() <= ENTRY_LIMIT
}

fn has_item_form(item: &Item) -> bool
    ensures { result ≡ has_item_form item.now }
{
    match item {
        Item::Rules(_) => true,
        Item::Tables { tables, .. } => tables.len() <= OFFERED_TABLE_LIMIT,
    }
}

/// Whether a version allows each of these. It looks at no rule.
pub(crate) fn items_are_allowed_in(items: &[Item], version: u8) -> bool
    ensures { result ≡ list_all (allows_item version) items.now }
{
    items.iter().all(|item| item_is_allowed_in(item, version))
}

fn item_is_allowed_in(item: &Item, version: u8) -> bool
    ensures { result ≡ allows_item version item.now }
{
    match item {
        Item::Rules(placed) => placed.value().is_allowed_in(version),
        Item::Tables { .. } => true,
    }
}
