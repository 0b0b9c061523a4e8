//! Rulesets in a snapshot.
ghost use Rattle.std.specs.{Prelude.{◌≡◌, ◌≤◌, ◌&&◌, nat_le, true, T, length, map, IfOk, OnOk}, FinMap.is_sorted, List.list_all};
ghost use Rattle.pf_addr.specs.Path.Paths.{path_order};
ghost use Rattle.pf_form.specs.Bytes.{Forms.{onto, Fits}, Readers.Reads};
ghost use Rattle.pf_anchor.specs.{declared.limits.TheConstants.RULESET_LIMIT, Rulesets.IsMap};
ghost use Rattle.pf_anchor.specs.Forms.{has_some, rulesets_form, plain_ruled, allows_config};

use crate::encoding::{push_rules, read_rules};
use pf_anchor::{Config, Path, Placed, RULESET_LIMIT};
use pf_form::bytes::{Fault, Layout, Ordered, Rest, Undecoded, push_u32, read_ordered_list};
use std::alloc::{AllocError, Global};

// A ruleset, as a snapshot has it.
#[derive(Drop)]
struct StoredRuleset {
    placed: Placed,
}

impl Layout for StoredRuleset {
    ghost use Rattle.pf_anchor.specs.Forms.{RulesShape, rules_form, plain_ruled, ruleset_before};

    ghost shape = { RulesShape };

    ghost form = { rules_form };

    ghost plain = { λ row. plain_ruled row.placed };

    ghost before = { ruleset_before };

    fn read<'a>(
        alloc: Global,
        version: u8,
        from: &mut Rest<'a>,
    ) -> Result<StoredRuleset, Undecoded> {
        let (path, rules) = read_rules(alloc, version, from)?;
        Ok(StoredRuleset {
            placed: Placed::new(alloc, path, rules)?,
        })
    }

    #[tactic(auto, using(crate::proofs::Allowing::kept_allowed))]
    fn write(&self, version: u8, out: &mut Vec<u8>) -> Result<(), AllocError> {
        // `as_slice` promises that these are rules
        let _rules = self.placed.value().as_slice();
        push_rules(out, version, &self.placed)
    }
}

impl Ordered for StoredRuleset {
    fn comes_before(&self, other: &StoredRuleset) -> bool {
        self.placed.key().order(other.placed.key()).is_lt()
    }
}

fn has_rules(row: &StoredRuleset) -> bool
    ensures { result ≡ has_some row.now.placed.1 }
{
    !row.placed.value().as_slice().is_empty()
}

fn are_filled(rows: &[StoredRuleset]) -> bool
    ensures { result ≡ list_all (λ row. has_some row.placed.1) rows.now }
{
    rows.iter().all(has_rules)
}

// Whether there are no more than allowed, and none of them is empty.
fn are_rulesets(rows: &[StoredRuleset]) -> bool
    ensures { result ≡ nat_le (length rows.now) RULESET_LIMIT && list_all (λ row. has_some row.placed.1) rows.now }
{
    rows.len() <= RULESET_LIMIT && are_filled(rows)
}

fn placed_in(alloc: Global, rows: Vec<StoredRuleset>) -> Result<Vec<Placed>, AllocError>
    ensures { IfOk result (λ v. v.items ≡ map (λ row. row.placed) rows.items) }
{
    rows.into_iter().map(|row| row.placed).collect(alloc)
}

/// Reads the rulesets from the front of the bytes, in the order of their paths. Fails with the first fault of their form there, or when out
/// of memory.
#[tactic(auto, unfolding(pf_anchor::specs::Forms::rulesets_form), using(crate::proofs::Durables::rulesets_sorted, crate::proofs::Durables::rulesets_are, crate::proofs::Durables::rulesets_filled))]
pub(crate) fn read_rulesets<'a>(
    alloc: Global,
    version: u8,
    from: &mut Rest<'a>,
) -> Result<Vec<Placed>, Undecoded>
    ensures read { Reads (λ v. map plain_ruled v.items) (rulesets_form version) result from.old.now from.new.now }
    ensures sorted { IfOk result (λ v. T (is_sorted path_order v.items)) }
    ensures filled { IfOk result (λ v. list_all (λ r. has_some r.1) v.items ≡ true) }
{
    let left = from.len();
    let rows = read_ordered_list::<StoredRuleset>(alloc, version, from)?;
    if !are_rulesets(&rows) {
        return Err(Undecoded::Fault(Fault::Bad(left)));
    }
    Ok(placed_in(alloc, rows)?)
}

// That the rulesets are a map: the contract of `rules_at` says so.
fn rulesets_are_a_map(config: &Config)
    ensures { IsMap config.now.rulesets }
{
    let _rules = config.rules_at(&Path::main());
}

/// Appends the rulesets, at most 1,024, to the bytes, in the order of their paths; they fit. Fails only when out of memory.
#[tactic(auto, unfolding(pf_anchor::specs::Forms::rulesets_form))]
pub(crate) fn push_rulesets(
    out: &mut Vec<u8>,
    version: u8,
    config: &Config,
) -> Result<(), AllocError>
    requires few { length config.now.rulesets ≤ RULESET_LIMIT }
    requires allowed { allows_config version config.now ≡ true }
    ensures written { OnOk result (out.new.items ≡ onto (rulesets_form version) (map plain_ruled config.now.rulesets) out.old.items) }
    ensures fits { OnOk result (Fits (rulesets_form version) (map plain_ruled config.now.rulesets)) }
{
    rulesets_are_a_map(config);
    push_u32(out, config.ruleset_count() as u32)?;
    for placed in config.each_ruleset() {
        push_rules(out, version, placed)?;
    }
    Ok(())
}
