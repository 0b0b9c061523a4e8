//! Verdicts.
ghost use Rattle.std.specs.Prelude.{◌≡◌};
ghost use Rattle.pfd_conf.specs.Case.Cases.{passes, word_of};

use pf_anchor::RuleVerdict;
use pf_rule::Action;

/// Whether a packet with this verdict passes.
pub fn passes(verdict: &RuleVerdict) -> bool
    ensures { result ≡ passes verdict.now }
{
    match verdict {
        RuleVerdict::Rule {
            action: Action::Block,
            ..
        } => false,
        RuleVerdict::Rule { .. } | RuleVerdict::Default => true,
    }
}

/// What is said of a packet that passes, or doesn't.
pub fn action_text(passes: bool) -> &'static [u8]
    ensures { result.now ≡ word_of passes }
{
    if passes { b"pass" } else { b"block" }
}
