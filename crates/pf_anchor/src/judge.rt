//! Judging a packet.
ghost use Rattle.std.specs.{Prelude.{◌≡◌, []}};
ghost use Rattle.pf_anchor.specs.{Rulesets.{ruled, rules_at}, Evaluation.{judged, last_of}, Known.ruleset_gives};

use crate::config::Config;
use crate::evaluate::{Question, evaluate};
use crate::evaluated::{Evaluated, Match};
use crate::in_order::evaluate_in_order;
use crate::rulesets::Placed;
use crate::verdict::RuleVerdict;
use crate::work::Work;
use pf_addr::path::PathBytes;
use pf_rule::Packet;

impl Config {
    /// The verdict of the rules on a packet: the rule that decides by the main ruleset's evaluation (pf.conf(5), PACKET FILTERING and
    /// ANCHORS), with its ruleset's path and its number there, or the default pass. It takes no memory.
    ///
    /// Rulesets are evaluated as rules lead to them, until 1,024 rules and once more as many as there are in all, but no more than 65,536,
    /// were looked at, or tables were asked 512 times. If that doesn't suffice, each table is asked for both addresses once, and then each
    /// ruleset evaluated once, by what is known of those that its rules lead to. So it looks at each rule about twice at most, whatever the
    /// anchors, as long as there are no more than 1,024 rulesets and 1,024 tables.
    #[tactic(auto, using(crate::proofs::Evaluations::default_judged))]
    pub fn judge(&self, packet: &Packet) -> RuleVerdict
        ensures { result ≡ judged self.now packet.now }
    {
        let Some(main) = self.main_ruleset() else {
            return RuleVerdict::Default;
        };
        match deciding(self, main, packet) {
            Some(found) => RuleVerdict::Rule {
                path: found.placed.key().copied(),
                number: found.number,
                action: found.action,
            },
            None => RuleVerdict::Default,
        }
    }
}

// The rule that decides, if one does.
fn deciding<'a>(config: &'a Config, main: &'a Placed, packet: &Packet) -> Option<Match<'a>>
    requires { main.now ≡ ruled [] (rules_at [] config.now.rulesets) }
    ensures { result ≡ last_of (ruleset_gives config.now packet.now main.now) }
{
    let question = Question {
        config,
        packet,
        known: None,
        is_bounded: true,
    };
    match evaluate(&question, main, &Work::allowed()) {
        Some(Evaluated::Open(last)) => last,
        Some(Evaluated::Ended(found)) => Some(found),
        None => evaluate_main_in_order(config, main, packet).last(),
    }
}

// What the main ruleset gives, whatever the anchors; past the limit of rulesets it may take long.
#[cold]
#[inline(never)]
fn evaluate_main_in_order<'a>(
    config: &'a Config,
    main: &'a Placed,
    packet: &Packet,
) -> Evaluated<Match<'a>>
    requires { main.now ≡ ruled [] (rules_at [] config.now.rulesets) }
    ensures { result ≡ ruleset_gives config.now packet.now main.now }
{
    // that they are a map comes with each search
    let _main = config.placed_at(&PathBytes { bytes: &[] });
    if let Some(gives) = evaluate_in_order(config, main, packet) {
        return gives;
    }
    let question = Question {
        config,
        packet,
        known: None,
        is_bounded: false,
    };
    evaluate(&question, main, &Work::none()).unwrap()
}
