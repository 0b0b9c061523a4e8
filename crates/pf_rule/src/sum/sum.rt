//! The checksum of a ruleset.
ghost use Rattle.std.specs.Prelude.{◌≡◌};
ghost use Rattle.pf_rule.specs.Sum.Forms.{ruleset_sum};

use crate::Rule;
use crate::sum::form::rule_bytes;
use md5::{Digest, Md5};

/// How many bytes a ruleset's checksum has: those of an MD5 digest.
pub const RULESET_SUM: usize = 16;

/// The checksum of a ruleset: the MD5 (RFC 1321) of the forms of its rules, one after the other in the rules' order. A rule's form is
/// what [`rule_bytes`] returns, followed by the label. Never runs out of memory. Rulesets with different checksums are different, but it
/// is no protection against someone who looks for two with the same checksum.
#[tactic(auto, unfolding(crate::specs::Sum::Forms::ruleset_sum))]
pub fn ruleset_sum(rules: &[Rule]) -> [u8; RULESET_SUM]
    ensures { result ≡ ruleset_sum rules.now }
{
    let mut hasher = Md5::new();
    for rule in rules {
        hasher.update(&rule_bytes(rule));
        hasher.update(rule.label().as_bytes());
    }
    hasher.finalize()
}
