//! What the rules say of a packet.
use pf_addr::path::Path;
use pf_rule::Action;

/// What the rules say of a packet.
#[derive(Drop)]
pub enum RuleVerdict {
    /// This rule decides: its ruleset's path, its number there from 0, and what it does.
    Rule {
        path: Path,
        number: u32,
        action: Action,
    },
    /// No rule matched: the packet passes.
    Default,
}
