//! What happens to a packet.

use pf_anchor::RuleVerdict;
use pf_state::StateName;

/// What happens to a packet (pf.conf(5), PACKET FILTERING).
#[derive(Drop)]
pub enum Verdict {
    /// It passes, since it is of the flow of the state of this name. No rule is evaluated.
    State(StateName),
    /// The rules decide.
    Rules(RuleVerdict),
}
