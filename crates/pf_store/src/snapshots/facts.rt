//! That data determine what is kept. Each function does nothing; its clause is what the types guarantee.
ghost use Rattle.std.specs.Prelude.{◌≡◌, map};
ghost use Rattle.pf_anchor.specs.Forms.{plain_ruled, ruled_in};
ghost use Rattle.pf_core.specs.Durable.Forms.{plain_durable, durable_in};

use crate::encoding::rules_are_their_data;
use pf_anchor::Config;
use pf_core::Durable;

/// Gives contracts the fact that what is kept is what its data say; it does nothing.
#[tactic(auto, using(crate::proofs::Durables::durable_read_back))]
pub(crate) fn durable_is_its_data(durable: &Durable)
    ensures { durable_in (plain_durable durable.now) ≡ durable.now }
{
    rulesets_are_their_data(durable.config());
}

fn rulesets_are_their_data(config: &Config)
    ensures { map ruled_in (map plain_ruled config.now.rulesets) ≡ config.now.rulesets }
{
    for placed in config.each_ruleset() {
        rules_are_their_data(placed.value().as_slice());
    }
}
