//! Lists of rules that are shared.
ghost use Rattle.std.specs.{Prelude.{◌≡◌, ◌<◌, ◌≤◌, [], ◌∷◌, ◌++◌, ◌*◌, All, length, IfOk, IfSome, OnOk, OnErr}, Arc.arc_value, Option.{option_map, option_map_or}, Vec.vec_items};
ghost use Rattle.pf_map.specs.ListMaps.{unless_empty, kept_again};
ghost use Rattle.pf_rule.specs.Rules.{IsRule};
ghost use Rattle.pf_rule.specs.declared.value.label.TheConstants.{LABEL_LIMIT};
ghost use Rattle.pf_anchor.specs.declared.limits.TheConstants.{RULE_LIMIT};
ghost use Rattle.pf_anchor.specs.Forms.{allows_rules, labels_length};

use crate::limits::RULE_LIMIT;
use pf_lanes::{LANES, RuleCols};
use pf_map::Content;
use pf_rule::Rule;
use pf_rule::sum::LABELS_FROM;
use std::alloc::{AllocError, Global};
use std::marker::Model;
use std::sync::Arc;

/// The rules of a ruleset in order, at most 1,024, shared with all other holders, as are their columns once the rules are active. Contracts
/// see the list.
#[derive(Drop)]
pub struct RuleList {
    // `None` if there are no rules, so that an empty list takes no memory.
    rules: Option<Arc<Vec<Rule>>>,
    // The same rules in columns, once they are active: packets are judged by them. A list that grows has none.
    columns: Option<Arc<RuleCols>>,
    // How many bytes their labels have together, so that nobody has to look at the rules for it.
    label_bytes: usize,
}

impl Model for RuleList {
    ghost use Rattle.std.specs.Prelude.{◌≡◌, List, [], length, ◌≤◌, All, IfSome};
    ghost use Rattle.pf_rule.specs.Rules.{PlainRule, IsRule};
    ghost use Rattle.pf_anchor.specs.declared.limits.TheConstants.{RULE_LIMIT};
    ghost use Rattle.std.specs.Arc.{arc_value};
    ghost use Rattle.std.specs.Option.{option_map, option_map_or};
    ghost use Rattle.std.specs.Vec.{vec_items};
    ghost use Rattle.pf_anchor.specs.Forms.{labels_length};

    ghost Value = { List PlainRule };

    ghost view = { λ l. option_map_or vec_items (option_map arc_value l.rules) [] };

    ghost invariant = { λ l. (length (option_map_or vec_items (option_map arc_value l.rules) []) ≤ RULE_LIMIT)
        × All IsRule (option_map_or vec_items (option_map arc_value l.rules) [])
        × IfSome l.columns (λ c. arc_value c ≡ option_map_or vec_items (option_map arc_value l.rules) [])
        × (l.label_bytes ≡ labels_length (option_map_or vec_items (option_map arc_value l.rules) [])) };
}

// Appends a rule. If others share the rules, they are copied first, so that the others' stay as they are.
fn add_own(rules: &mut Arc<Vec<Rule>>, alloc: Global, rule: Rule) -> Result<(), AllocError>
    ensures ok { OnOk result ((arc_value rules.new).items ≡ (arc_value rules.old).items ++ rule ∷ []) }
    ensures err { OnErr result ((arc_value rules.new).items ≡ (arc_value rules.old).items) }
{
    if let Some(own) = Arc::get_mut(rules) {
        own.push(rule)?;
        return Ok(());
    }
    let mut copy = Vec::from_slice(alloc, rules.as_slice())?;
    copy.push(rule)?;
    *rules = Arc::new(alloc, copy)?;
    Ok(())
}

// How many bytes the labels of rules have together.
fn labels_length(rules: &[Rule]) -> usize
    requires { length rules.now ≤ RULE_LIMIT }
    ensures value { result ≡ labels_length rules.now }
    // the invariant of each rule
    ensures rules { All IsRule rules.now }
{
    let mut total = 0;
    for rule in rules {
        let _effect = rule.effect();
        total += rule.label().len();
    }
    total
}

// Appends a rule to those that are there, if any. On an error they stay as they were.
fn push_rule(
    rules: &mut Option<Arc<Vec<Rule>>>,
    alloc: Global,
    rule: Rule,
) -> Result<(), AllocError>
    ensures ok { OnOk result (option_map_or vec_items (option_map arc_value rules.new) []
        ≡ option_map_or vec_items (option_map arc_value rules.old) [] ++ rule ∷ []) }
    ensures err { OnErr result (option_map_or vec_items (option_map arc_value rules.new) []
        ≡ option_map_or vec_items (option_map arc_value rules.old) []) }
{
    if let Some(rules) = rules {
        return add_own(rules, alloc, rule);
    }
    let mut own = Vec::new(alloc);
    own.push(rule)?;
    *rules = Some(Arc::new(alloc, own)?);
    Ok(())
}

impl RuleList {
    /// No rules. It takes no memory.
    pub fn none() -> RuleList
        ensures { result ≡ [] }
    {
        RuleList {
            rules: None,
            columns: None,
            label_bytes: 0,
        }
    }

    /// These rules, at most 1,024. `AllocError`: no list is made.
    pub fn of(alloc: Global, rules: Vec<Rule>) -> Result<RuleList, AllocError>
        requires { length rules.items ≤ RULE_LIMIT }
        ensures { IfOk result (λ l. l ≡ rules.items) }
    {
        let label_bytes = labels_length(rules.as_slice());
        Ok(RuleList {
            rules: Some(Arc::new(alloc, rules)?),
            columns: None,
            label_bytes,
        })
    }

    /// The same rules, shared and not copied. `AllocError`: they can't have another owner.
    pub fn shared(&self) -> Result<RuleList, AllocError>
        ensures { IfOk result (λ l. l ≡ self.now) }
    {
        Ok(RuleList {
            rules: self.rules.clone()?,
            columns: self.columns.clone()?,
            label_bytes: self.label_bytes,
        })
    }

    /// The same rules with their columns, none of them copied. Columns that are there are shared. Fewer rules than a block has need none.
    /// `AllocError`: nothing is made.
    pub(crate) fn with_columns(&self, alloc: Global) -> Result<RuleList, AllocError>
        ensures { IfOk result (λ l. l ≡ self.now) }
    {
        let list = self.shared()?;
        let (Some(rules), false) = (&self.rules, self.has_columns()) else {
            return Ok(list);
        };
        let columns = RuleCols::sharing(alloc, Arc::try_clone(rules)?)?;
        Ok(RuleList {
            rules: list.rules,
            columns: Some(Arc::new(alloc, columns)?),
            label_bytes: list.label_bytes,
        })
    }

    /// Its rules in columns, if it has them.
    pub(crate) fn columns(&self) -> Option<&RuleCols>
        ensures { IfSome result (λ c. c.now ≡ self.now) }
    {
        match &self.columns {
            Some(columns) => Some(columns),
            None => None,
        }
    }

    /// Whether it has the columns that packets are judged by. Fewer rules than a block has need none, since they cost less one by one.
    pub(crate) fn has_columns(&self) -> bool {
        self.columns.is_some() || self.as_slice().len() < LANES
    }

    /// The rules in order.
    pub fn as_slice(&self) -> &[Rule]
        ensures value { result.now ≡ self.now }
        ensures few { length self.now ≤ RULE_LIMIT }
        // the invariant of each rule
        ensures rules { All IsRule self.now }
    {
        match &self.rules {
            Some(rules) => rules.as_slice(),
            None => &[],
        }
    }

    /// How many bytes the labels of the rules have together. It looks at none of them.
    pub fn labels_length(&self) -> usize
        ensures value { result ≡ labels_length self.now }
        ensures few { result ≤ LABEL_LIMIT * RULE_LIMIT }
    {
        self.label_bytes
    }

    /// Whether a version allows each of the rules. It looks at none of them.
    #[tactic(auto, using(crate::proofs::Labels::allowed_by))]
    pub fn is_allowed_in(&self, version: u8) -> bool
        ensures { result ≡ allows_rules version self.now }
    {
        version >= LABELS_FROM || self.label_bytes == 0
    }

    /// Appends a rule, if there are fewer than 1,024. Rules that others share are copied first. Out of memory: all is as before.
    pub fn add(&mut self, alloc: Global, rule: Rule) -> Result<(), AllocError>
        requires { length self.old < RULE_LIMIT }
        ensures ok { OnOk result (self.new ≡ self.old ++ rule ∷ []) }
        ensures err { OnErr result (self.new ≡ self.old) }
    {
        let _effect = rule.effect();
        let more = rule.label().len();
        push_rule(&mut self.rules, alloc, rule)?;
        self.columns = None;
        self.label_bytes += more;
        Ok(())
    }
}

impl Content for RuleList {
    ghost kept = { unless_empty };

    fn is_none(&self) -> bool {
        self.as_slice().is_empty()
    }

    ghost keeps = { kept_again };
}
