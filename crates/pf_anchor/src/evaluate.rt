//! Evaluation of rulesets that lead to one another, with tables as their rules name them.
ghost use Rattle.std.specs.Prelude.{◌≡◌, ◌<◌, ◌≤◌, ◌*◌, ℕ, true, None, filter, length, IfSome, MatchOption};
ghost use Rattle.pf_addr.specs.Path.Nested.{is_child};
ghost use Rattle.pf_lanes.specs.{Masks.is_set, Answered.{block_match, eight_from}, Probes.{PlainProbe, asked}};
ghost use Rattle.pf_anchor.specs.{Rulesets.targets, Tables.tables_say, declared.evaluated.Evaluated.TheVariants.Open, Blocks.{AreStops, GivesLast, NoneBetween, IsStop, given_from}, Evaluation.{effected, in_turn, matching, rules_at_path}, Answered.AreNamed, Known.{IsKnownFor, ruleset_gives}};

use crate::answered::{AnsweredTables, NamedAnswers};
use crate::config::Config;
use crate::evaluated::{Evaluated, Match};
use crate::known::{Known, given_for};
use crate::named_tables::{AskedTables, CountedTables, NamedTables};
use crate::rulesets::Placed;
use crate::work::Work;
use pf_addr::path::{Path, Reference};
use pf_lanes::{LANES, Probe, eight_of, first_and_last, is_set, match_one_by_one};
use pf_rule::{Effect, Packet, Rule, TableAnswers};

/// What is known before a ruleset is evaluated.
#[derive(Clone, Copy)]
pub(crate) struct Findings<'k, 'a> {
    /// What the rulesets that its rules lead to give.
    pub rulesets: &'k [Known<'a>],
    /// What the tables say of the packet's addresses that its rules may mean.
    pub tables: NamedAnswers<'k, 'a>,
}

/// What is evaluated, and how it is found what anchor rules lead to and what tables say.
#[derive(Clone, Copy)]
pub(crate) struct Question<'k, 'a> {
    /// The rulesets and the tables.
    pub config: &'a Config,
    /// The packet.
    pub packet: &'k Packet,
    /// What is known. If nothing is, the rulesets that rules lead to are evaluated, and the tables that they name are asked.
    pub known: Option<Findings<'k, 'a>>,
    /// Whether it ends without an answer once the work that is allowed is done.
    pub is_bounded: bool,
}

// Which rules of a block match, by what tables say.
#[inline(always)]
fn matching_by<T: TableAnswers>(
    tables: &T,
    placed: &Placed,
    probe: &Option<Probe<'_>>,
    packet: &Packet,
    block: usize,
) -> u8
    requires { IfSome probe.now (λ p. p ≡ asked placed.now.1 packet.now) }
    ensures { (i : ℕ) → i < 8 → is_set result i ≡ block_match (T.says tables.now) placed.now.1 packet.now block i }
{
    match probe {
        Some(probe) => probe.matching(tables, block),
        None => match_one_by_one(placed.value().as_slice(), tables, packet, block),
    }
}

// A packet, prepared for the rules of a ruleset if these have columns.
#[inline(always)]
fn prepared<'a>(placed: &'a Placed, packet: &'a Packet) -> Option<Probe<'a>>
    ensures { IfSome result (λ p. p ≡ asked placed.now.1 packet.now) }
{
    match placed.value().columns() {
        Some(columns) => Some(columns.probe(packet)),
        None => None,
    }
}

// The first block, from this one on, in which a rule may match.
#[inline(always)]
fn next_near(probe: &Option<Probe<'_>>, from: usize) -> usize
    ensures later { from ≤ result }
    ensures none { (a : PlainProbe) → IfSome probe.now (λ p. p ≡ a) → NoneBetween a from result }
{
    match probe {
        Some(probe) => probe.next_near(from),
        None => from,
    }
}

// Which of the rules of a block that match are quick or anchor rules. Without columns it is all that match.
#[inline(always)]
fn stopping(placed: &Placed, block: usize, mask: u8) -> u8
    ensures { AreStops placed.now.1 block mask result }
{
    if mask == 0 {
        return 0;
    }
    match placed.value().columns() {
        Some(columns) => columns.stops(block) & mask,
        None => mask,
    }
}

// The last rule of a block that matches, if it decides.
#[inline(always)]
fn last_match<'a>(placed: &'a Placed, block: usize, mask: u8) -> Option<Match<'a>>
    requires { block ≤ length placed.now.1 }
    ensures { GivesLast placed.now block mask result }
{
    let rules = placed.value().as_slice();
    let (_, lane) = first_and_last(mask)?;
    let number = LANES * block + lane as usize;
    let rule = rules.get(number)?;
    match rule.effect() {
        Effect::Decide(action) => Some(Match {
            placed,
            number: number as u32,
            action,
        }),
        Effect::Evaluate(_) => None,
    }
}

/// The last of the blocks that are passed in which rules match. None of these rules is a quick or an anchor rule.
#[derive(Clone, Copy)]
struct LastBlock {
    block: usize,
    /// Which of its rules match.
    mask: u8,
}

// The last match after blocks that are passed: that of the last block in which rules match, or the one before if there is no such block.
#[inline(always)]
fn last_so_far<'a>(
    placed: &'a Placed,
    last_block: Option<LastBlock>,
    before: Option<Match<'a>>,
) -> Option<Match<'a>>
    requires { IfSome last_block (λ b. b.block ≤ length placed.now.1) }
    ensures { MatchOption last_block (result ≡ before.entry) (λ b. GivesLast placed.now b.block b.mask result) }
{
    match last_block {
        Some(LastBlock { block, mask }) => last_match(placed, block, mask),
        None => before,
    }
}

/// A block in which a quick or an anchor rule may match.
#[derive(Clone, Copy)]
struct StopBlock {
    block: usize,
    /// Which of its rules match.
    mask: u8,
}

/// The blocks before a stop, or all if there is none: the last match so far.
#[derive(Drop)]
struct Passed<'a> {
    last: Option<Match<'a>>,
    stop: Option<StopBlock>,
}

// Passes blocks from one on, up to the next in which a quick or an anchor rule may match. None: it is bounded, and tables were asked as often
// as they may be.
#[tactic(auto, using(crate::proofs::Evaluations::none_and_then))]
fn pass_blocks<'a, T: AskedTables>(
    question: &Question<'_, 'a>,
    tables: &T,
    placed: &'a Placed,
    probe: &Option<Probe<'_>>,
    from: usize,
    before: Option<Match<'a>>,
) -> Option<Passed<'a>>
    requires tables { T.says tables.now ≡ tables_say question.now.config.now.tables placed.now.0 }
    requires probe { IfSome probe.now (λ p. p ≡ asked placed.now.1 question.now.packet.now) }
    ensures { MatchOption result (question.now.is_bounded ≡ true) (λ r. MatchOption r.stop
        (given_from question.now.config.now question.now.packet.now placed.now from before.entry ≡ Open r.last)
        (λ s. IsStop question.now.config.now question.now.packet.now placed.now from before.entry r.last s.block s.mask)) }
{
    let blocks = placed.value().as_slice().len().div_ceil(LANES);
    let mut last_block = None;
    let mut block = next_near(probe, from);
    while block < blocks {
        let mask = matching_by(tables, placed, probe, question.packet, block);
        if tables.has_asked_all() && question.is_bounded {
            return None;
        }
        if stopping(placed, block, mask) != 0 {
            let last = last_so_far(placed, last_block, before);
            let stop = Some(StopBlock { block, mask });
            return Some(Passed { last, stop });
        }
        if mask != 0 {
            // its rule is read only if no later block has a match, since rules lie far from one another in memory
            last_block = Some(LastBlock { block, mask });
        }
        block = next_near(probe, block + 1);
    }
    let last = last_so_far(placed, last_block, before);
    Some(Passed { last, stop: None })
}

// The same, where it is known what tables say.
#[cold]
#[inline(never)]
fn pass_known<'k, 'a>(
    question: &Question<'k, 'a>,
    known: NamedAnswers<'k, 'a>,
    placed: &'a Placed,
    probe: &Option<Probe<'_>>,
    from: usize,
    before: Option<Match<'a>>,
) -> Option<Passed<'a>>
    requires known { AreNamed question.now.packet.now question.now.config.now.tables placed.now.0 known.own.now known.main.now }
    requires probe { IfSome probe.now (λ p. p ≡ asked placed.now.1 question.now.packet.now) }
    ensures { MatchOption result (question.now.is_bounded ≡ true) (λ r. MatchOption r.stop
        (given_from question.now.config.now question.now.packet.now placed.now from before.entry ≡ Open r.last)
        (λ s. IsStop question.now.config.now question.now.packet.now placed.now from before.entry r.last s.block s.mask)) }
{
    let tables = AnsweredTables {
        config: question.config,
        packet: question.packet,
        path: placed.key(),
        known,
    };
    pass_blocks(question, &tables, placed, probe, from, before)
}

// The same, with tables as the ruleset's rules name them.
#[inline(always)]
fn pass<'a>(
    question: &Question<'_, 'a>,
    placed: &'a Placed,
    probe: &Option<Probe<'_>>,
    from: usize,
    before: Option<Match<'a>>,
    work: &Work,
) -> Option<Passed<'a>>
    requires known { IfSome question.now.known (λ k. AreNamed question.now.packet.now question.now.config.now.tables placed.now.0 k.tables.own.now k.tables.main.now) }
    requires probe { IfSome probe.now (λ p. p ≡ asked placed.now.1 question.now.packet.now) }
    ensures { MatchOption result (question.now.is_bounded ≡ true) (λ r. MatchOption r.stop
        (given_from question.now.config.now question.now.packet.now placed.now from before.entry ≡ Open r.last)
        (λ s. IsStop question.now.config.now question.now.packet.now placed.now from before.entry r.last s.block s.mask)) }
{
    if let Some(known) = question.known {
        return pass_known(question, known.tables, placed, probe, from, before);
    }
    let tables = NamedTables {
        config: question.config,
        path: placed.key(),
    };
    let counted = CountedTables { tables, work };
    pass_blocks(question, &counted, placed, probe, from, before)
}

/// What a ruleset gives for a packet: its rules in order, and in place of each anchor rule that matches what it leads to (pf.conf(5),
/// PACKET FILTERING and ANCHORS). It takes no memory, and recurses no deeper than a path has components; if what the rules lead to is
/// known, it doesn't recurse. None: it is bounded, and the work that is allowed doesn't suffice.
///
/// Eight rules are looked at together, and blocks in which none can match are skipped. The last rule that matches stands, and those before
/// it are looked at only if a quick or an anchor rule is among them.
#[cycle(evaluate)]
pub(crate) fn evaluate<'a>(
    question: &Question<'_, 'a>,
    placed: &'a Placed,
    work: &Work,
) -> Option<Evaluated<Match<'a>>>
    requires { IfSome question.now.known (λ k. IsKnownFor question.now.config.now question.now.packet.now placed.now.0 k.rulesets.now k.tables.own.now k.tables.main.now) }
    ensures { MatchOption result (question.now.is_bounded ≡ true)
        (λ r. r ≡ ruleset_gives question.now.config.now question.now.packet.now placed.now) }
{
    let probe = prepared(placed, question.packet);
    let mut last = None;
    let mut block = 0;
    loop {
        let passed = pass(question, placed, &probe, block, last, work)?;
        last = passed.last;
        let Some(stop) = passed.stop else {
            return Some(Evaluated::Open(last));
        };
        match each_match(question, placed, stop.block, stop.mask, work)? {
            Evaluated::Open(latest) => last = latest.or(last),
            Evaluated::Ended(end) => return Some(Evaluated::Ended(end)),
        }
        block = stop.block + 1;
    }
}

// What the matching rules of a block give, in order.
#[cycle(evaluate)]
#[tactic(auto, using(crate::proofs::Evaluations::none_and_then))]
fn each_match<'a>(
    question: &Question<'_, 'a>,
    placed: &'a Placed,
    block: usize,
    mask: u8,
    work: &Work,
) -> Option<Evaluated<Match<'a>>>
    requires enough { IfSome question.now.known (λ k. IsKnownFor question.now.config.now question.now.packet.now placed.now.0 k.rulesets.now k.tables.own.now k.tables.main.now) }
    requires mask { (i : ℕ) → i < 8 → is_set mask i
        ≡ block_match (tables_say question.now.config.now.tables placed.now.0) placed.now.1 question.now.packet.now block i }
    ensures { MatchOption result (question.now.is_bounded ≡ true)
        (λ r. r ≡ rules_at_path (ruleset_gives question.now.config.now question.now.packet.now) question.now.config.now.rulesets
        (matching question.now.config.now.tables question.now.packet.now) placed.now.0 (8 * block) (eight_from (8 * block) placed.now.1)) }
{
    let mut last = None;
    for (lane, rule) in eight_of(placed.value().as_slice(), block)
        .iter()
        .enumerate()
    {
        if is_set(mask, lane) {
            let number = (LANES * block + lane) as u32;
            match effected(question, placed, number, rule, work)? {
                Evaluated::Open(Some(latest)) => {
                    if rule.is_quick() {
                        return Some(Evaluated::Ended(latest));
                    }
                    last = Some(latest);
                }
                Evaluated::Open(None) => {}
                Evaluated::Ended(end) => return Some(Evaluated::Ended(end)),
            }
        }
    }
    Some(Evaluated::Open(last))
}

// What a rule of a ruleset does if it matches.
#[cycle(evaluate)]
fn effected<'a>(
    question: &Question<'_, 'a>,
    placed: &'a Placed,
    number: u32,
    rule: &Rule,
    work: &Work,
) -> Option<Evaluated<Match<'a>>>
    requires { IfSome question.now.known (λ k. IsKnownFor question.now.config.now question.now.packet.now placed.now.0 k.rulesets.now k.tables.own.now k.tables.main.now) }
    ensures { MatchOption result (question.now.is_bounded ≡ true)
        (λ r. r ≡ effected (ruleset_gives question.now.config.now question.now.packet.now) question.now.config.now.rulesets
        placed.now.0 number rule.now.effect) }
{
    match rule.effect() {
        Effect::Decide(action) => Some(Evaluated::Open(Some(Match {
            placed,
            number,
            action,
        }))),
        Effect::Evaluate(reference) => match question.known {
            Some(known) => Some(given_for(known.rulesets, placed.key(), &reference)),
            None => evaluate_targets(question, placed.key(), &reference, work),
        },
    }
}

// Whether the work that is allowed is done once so many rules more are looked at.
#[inline(always)]
fn is_past(question: &Question<'_, '_>, rules: usize, work: &Work) -> bool
    ensures { result ≡ true → question.now.is_bounded ≡ true }
{
    question.is_bounded && !work.takes(question.config, rules)
}

// A ruleset that a rule leads to, as far as the work that is allowed suffices.
#[cycle(evaluate)]
#[inline(always)]
fn evaluate_further<'a>(
    question: &Question<'_, 'a>,
    placed: &'a Placed,
    work: &Work,
) -> Option<Evaluated<Match<'a>>>
    requires { question.now.known ≡ None }
    ensures { MatchOption result (question.now.is_bounded ≡ true)
        (λ r. r ≡ ruleset_gives question.now.config.now question.now.packet.now placed.now) }
{
    let rules = placed.value().as_slice().len();
    if is_past(question, rules.saturating_add(1), work) {
        return None;
    }
    evaluate(question, placed, work)
}

// The rulesets that a rule of the ruleset at a path leads to, in turn.
#[cycle(evaluate)]
fn evaluate_targets<'a>(
    question: &Question<'_, 'a>,
    path: &Path,
    reference: &Reference,
    work: &Work,
) -> Option<Evaluated<Match<'a>>>
    requires { question.now.known ≡ None }
    ensures { MatchOption result (question.now.is_bounded ≡ true)
        (λ r. r ≡ in_turn (ruleset_gives question.now.config.now question.now.packet.now)
        (targets question.now.config.now.rulesets path.now reference.now)) }
{
    if !path.as_bytes().is_empty() || reference.is_wildcard() {
        return evaluate_joined(question, path, reference, work);
    }
    // the names are the path's bytes; no path is made, since one is long to copy
    match question.config.placed_at(&reference.path_from_main()) {
        Some(placed) => evaluate_further(question, placed, work),
        None => Some(Evaluated::Open(None)),
    }
}

// The same, by a path that is made of the ruleset's and the names.
#[cycle(evaluate)]
fn evaluate_joined<'a>(
    question: &Question<'_, 'a>,
    path: &Path,
    reference: &Reference,
    work: &Work,
) -> Option<Evaluated<Match<'a>>>
    requires { question.now.known ≡ None }
    ensures { MatchOption result (question.now.is_bounded ≡ true)
        (λ r. r ≡ in_turn (ruleset_gives question.now.config.now question.now.packet.now)
        (targets question.now.config.now.rulesets path.now reference.now)) }
{
    // borrowed, since a path is long to move
    let reached = path.joined(reference.names());
    let Some(base) = &reached else {
        return Some(Evaluated::Open(None));
    };
    if reference.is_wildcard() {
        return evaluate_children(question, base, work);
    }
    match question.config.placed_at(base) {
        Some(placed) => evaluate_further(question, placed, work),
        None => Some(Evaluated::Open(None)),
    }
}

// The children of a path, in turn. It looks at each ruleset's path.
#[cycle(evaluate)]
#[tactic(auto, using(crate::proofs::Evaluations::none_and_then))]
fn evaluate_children<'a>(
    question: &Question<'_, 'a>,
    path: &Path,
    work: &Work,
) -> Option<Evaluated<Match<'a>>>
    requires { question.now.known ≡ None }
    ensures { MatchOption result (question.now.is_bounded ≡ true)
        (λ r. r ≡ in_turn (ruleset_gives question.now.config.now question.now.packet.now)
        (filter (λ e. is_child path.now e.0) question.now.config.now.rulesets)) }
{
    if is_past(question, question.config.ruleset_count(), work) {
        return None;
    }
    let mut last = None;
    for placed in question.config.each_ruleset() {
        if placed.key().is_child_of(path) {
            match evaluate_further(question, placed, work)? {
                Evaluated::Open(Some(found)) => last = Some(found),
                Evaluated::Open(None) => {}
                Evaluated::Ended(end) => return Some(Evaluated::Ended(end)),
            }
        }
    }
    Some(Evaluated::Open(last))
}

/// What a ruleset gives for a packet where it is known what all gives that its rules lead to. It doesn't recurse, and so takes no work.
pub(crate) fn evaluate_known<'k, 'a>(
    config: &'a Config,
    packet: &'k Packet,
    placed: &'a Placed,
    known: Findings<'k, 'a>,
) -> Evaluated<Match<'a>>
    requires { IsKnownFor config.now packet.now placed.now.0 known.rulesets.now known.tables.own.now known.tables.main.now }
    ensures { result ≡ ruleset_gives config.now packet.now placed.now }
{
    let known = Some(known);
    let question = Question {
        config,
        packet,
        known,
        is_bounded: false,
    };
    evaluate(&question, placed, &Work::none()).unwrap()
}
