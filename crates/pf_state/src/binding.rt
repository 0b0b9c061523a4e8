//! Which rule a peer's state is bound to, and which rule an export names for it.
ghost use Rattle.std.specs.Prelude.{◌≡◌};
ghost use Rattle.pf_state.specs.Bindings.{bound, exported};

use crate::state::Bound;

/// What stands in place of a rule's or an anchor's number where there is none.
pub const ALL_ONES: u32 = u32::MAX;

/// Which rule a peer's state is bound to. `sum` is the MD5 checksum of the peer's main rules, `rule` the number of the state's rule there,
/// from 0, and `anchor` the number of its anchor. Either number is `ALL_ONES` if there is none. `current` is the checksum of the main rules
/// here, and `rule_count` their number.
///
/// It is the main rule with that number, if the two checksums are the same, a rule is named, no anchor is, and there is such a rule here.
/// Otherwise it is the default rule.
pub fn bind(sum: &[u8; 16], rule: u32, anchor: u32, current: &[u8; 16], rule_count: usize) -> Bound
    ensures { result ≡ bound sum.now rule anchor current.now rule_count }
{
    let is_main_rule = rule != ALL_ONES && anchor == ALL_ONES;
    if *sum == *current && is_main_rule && (rule as usize) < rule_count {
        Bound::Rule {
            number: rule,
            sum: *sum,
        }
    } else {
        Bound::Default
    }
}

/// The number of a state's rule in an export, where `current` is the MD5 checksum of the main rules. If the state was bound by rules with
/// this checksum, it is the number of its rule, from 0. Otherwise it is `ALL_ONES`.
pub fn exported(bound: &Bound, current: &[u8; 16]) -> u32
    ensures { result ≡ exported bound.now current.now }
{
    match bound {
        Bound::Rule { number, sum } if *sum == *current => *number,
        _ => ALL_ONES,
    }
}
