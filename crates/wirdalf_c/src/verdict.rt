//! Verdicts, as C gets them.
ghost use Rattle.std.specs.Prelude.{◌≡◌, take, slice_get, None, Some, length};
ghost use Rattle.pf_core.specs.declared.durable.verdict.Verdict.TheVariants.{State as Stateful, Rules};
ghost use Rattle.pf_anchor.specs.declared.verdict.RuleVerdict.TheVariants as ruled;
ghost use Rattle.wirdalf_c.specs.Verdicts.{HasFields, SaysVerdict, action_code, keeps_code, only};

use crate::record::{BLOCK, BY_DEFAULT, BY_NOTHING, BY_RULE, BY_STATE, PASS, VerdictRecord};
use pf_addr::path::Path;
use pf_anchor::RuleVerdict;
use pf_rule::Action;
use pf_state::StateName;

/// Writes that there is no verdict, since no packet was said.
#[tactic(auto, unfolding(crate::specs::Verdicts::SaysVerdict))]
pub fn tell_nothing(to: &mut VerdictRecord)
    ensures { SaysVerdict to.new None }
{
    tell_short(BY_NOTHING, BLOCK, to);
}

/// Writes what the rules say.
#[tactic(auto, unfolding(crate::specs::Verdicts::SaysVerdict))]
pub fn tell_rules(verdict: RuleVerdict, to: &mut VerdictRecord)
    ensures { SaysVerdict to.new (Some (Rules verdict)) }
{
    // (by reference, so that the path isn't copied)
    match &verdict {
        RuleVerdict::Default => tell_short(BY_DEFAULT, PASS, to),
        RuleVerdict::Rule {
            path,
            number,
            action,
        } => tell_rule(path, *number, *action, to),
    }
}

// Writes what decides and what is done, and nothing else.
#[tactic(auto, using(crate::proofs::Many::get_set_same))]
fn tell_short(by: u8, action: u8, to: &mut VerdictRecord)
    ensures { HasFields to.new (only by action) }
{
    to.state_id = 0;
    to.state_creator = 0;
    to.rule = 0;
    to.by = by;
    to.action = action;
    to.keeps_state = 0;
    to.path_length = 0;
    to.path[0] = 0;
}

/// Writes that a state passes the packet.
#[tactic(auto, unfolding(crate::specs::Verdicts::SaysVerdict))]
pub fn tell_state(name: StateName, to: &mut VerdictRecord)
    ensures { SaysVerdict to.new (Some (Stateful name)) }
{
    tell_short(BY_STATE, PASS, to);
    to.state_id = name.id;
    to.state_creator = name.creator;
}

#[tactic(auto, unfolding(crate::specs::Verdicts::SaysVerdict))]
fn tell_rule(path: &Path, number: u32, action: Action, to: &mut VerdictRecord)
    ensures { SaysVerdict to.new (Some (Rules (ruled.Rule path.now number action))) }
{
    let (does, keeps_state) = codes_of(action);
    tell_short(BY_RULE, does, to);
    to.keeps_state = keeps_state;
    to.rule = number;
    to.path_length = tell_path(path, &mut to.path);
}

// What is done, and whether state is kept.
fn codes_of(action: Action) -> (u8, u8)
    ensures does { result.0 ≡ action_code action }
    ensures keeps { result.1 ≡ keeps_code action }
{
    match action {
        Action::Pass { keeps_state: true } => (PASS, 1),
        Action::Pass { keeps_state: false } => (PASS, 0),
        Action::Block => (BLOCK, 0),
    }
}

// Writes a path with a zero after it, and returns how many bytes it has.
#[tactic(auto, using(crate::proofs::Verdicts::short_path, crate::proofs::Many::get_set_same))]
fn tell_path(path: &Path, to: &mut [u8; 256]) -> u8
    ensures path { take result to.new ≡ path.now }
    ensures whole { result ≡ length path.now }
    ensures zero { slice_get to.new result ≡ Some 0 }
{
    let bytes = path.as_bytes();
    // (most paths are the main ruleset's, and a copy of no bytes is a call too)
    if bytes.is_empty() {
        to[0] = 0;
        return 0;
    }
    to[..bytes.len()].copy_from_slice(bytes);
    to[bytes.len()] = 0;
    bytes.len() as u8
}
