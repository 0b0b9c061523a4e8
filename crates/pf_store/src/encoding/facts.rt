//! That data determine what is recorded. Each function does nothing; its clause is what the types guarantee.
ghost use Rattle.std.specs.Prelude.{◌≡◌, map};
ghost use Rattle.pf_rule.specs.Sum.{Layouts.plain_rule, Reading.rule_of};
ghost use Rattle.pf_store.specs.Groups.{plain_item, item_in, plain_record, record_in};

use crate::encoding::recorded::Recorded;
use pf_core::{Change, ChangeKind, Item};
use pf_rule::Rule;

/// Gives contracts the fact that what is recorded is what its data say; it does nothing.
pub(crate) fn record_is_its_data(recorded: &Recorded)
    ensures { record_in (plain_record recorded.now) ≡ recorded.now }
{
    match recorded {
        Recorded::Made(change) => change_is_its_data(change),
        Recorded::Opens(_) => {}
    }
}

#[tactic(auto, using(crate::proofs::RecordedForms::entries_read_back, crate::proofs::RecordedForms::steps_read_back))]
pub(crate) fn change_is_its_data(change: &Change)
    ensures { record_in (plain_record (Recorded.Made change.now)) ≡ Recorded.Made change.now }
{
    match change.kind() {
        ChangeKind::Commit(items) => items_are_their_data(items.as_slice()),
        ChangeKind::Add { .. } => {}
        ChangeKind::Delete { .. } => {}
        ChangeKind::Set { .. } => {}
        ChangeKind::States(_) => {}
        ChangeKind::Remove(_) => {}
        ChangeKind::Expire(_) => {}
    }
}

fn items_are_their_data(items: &[Item])
    ensures { map item_in (map plain_item items.now) ≡ items.now }
{
    for item in items {
        item_is_its_data(item);
    }
}

#[tactic(auto, using(crate::proofs::RecordedForms::tables_read_back))]
fn item_is_its_data(item: &Item)
    ensures { item_in (plain_item item.now) ≡ item.now }
{
    if let Item::Rules(placed) = item {
        rules_are_their_data(placed.value().as_slice());
    }
}

/// Gives contracts the fact that each rule is what its data say; it does nothing.
pub(crate) fn rules_are_their_data(rules: &[Rule])
    ensures { map rule_of (map plain_rule rules.now) ≡ rules.now }
{
    for rule in rules {
        rule_is_its_data(rule);
    }
}

#[tactic(auto, using(pf_rule::proofs::RuleBytes::rule_again))]
fn rule_is_its_data(rule: &Rule)
    ensures { rule_of (plain_rule rule.now) ≡ rule.now }
{
    // the contract of `effect` says what makes the rule a rule
    let _effect = rule.effect();
}
