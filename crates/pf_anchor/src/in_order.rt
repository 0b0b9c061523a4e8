//! Evaluation of all rulesets, each of them once.
ghost use Rattle.std.specs.{Prelude.{◌≡◌, ◌<◌, ◌≤◌, ◌⊎◌, ◌+◌, ◌++◌, [], length, take, filter, MatchOption}};
ghost use Rattle.pf_addr.specs.Path.Paths.{same_path};
ghost use Rattle.pf_anchor.specs.{Rulesets.IsMap, Evaluation.in_turn, Answered.AreAnswered, Known.{above_depth, at_depth, placed_of, ruleset_gives, AreGiven, IsListing}};

use crate::answered::{Answered, answer_each, named_by, unanswered};
use crate::config::Config;
use crate::evaluate::{Findings, evaluate_known};
use crate::evaluated::{Evaluated, Match};
use crate::known::{Known, given_at};
use crate::limits::{RULESET_LIMIT, TABLE_COUNT_LIMIT};
use crate::rulesets::Placed;
use crate::tables::PlacedTable;
use pf_addr::path::{DEPTH_LIMIT, Path};
use pf_rule::Packet;
use std::array;

// Puts the rulesets of one depth into a table behind those that stand at its front, in the order of their paths: how many there are then.
// None: there are too many.
fn list_at<'a>(
    config: &'a Config,
    depth: usize,
    before: usize,
    table: &mut [Known<'a>],
) -> Option<usize>
    requires { before ≤ length table.old }
    ensures { MatchOption result (length table.old < before + length (at_depth depth config.now.rulesets)) (λ n. (n ≤ length table.new)
        × (placed_of (take n table.new) ≡ placed_of (take before table.old) ++ at_depth depth config.now.rulesets)) }
{
    let mut count = before;
    for placed in config.each_ruleset() {
        let known = Known::unknown(placed);
        if known.depth() == depth {
            if count == table.len() {
                return None;
            }
            table[count] = known;
            count += 1;
        }
    }
    Some(count)
}

// Puts the rulesets at the front of a table, in the order of their depth, and at one depth in that of their paths: how many there are. None:
// there are too many.
fn listed<'a>(config: &'a Config, table: &mut [Known<'a>]) -> Option<usize>
    ensures { MatchOption result (length table.old < length config.now.rulesets) (λ n. (n ≤ length table.new)
        × (placed_of (take n table.new) ≡ above_depth (DEPTH_LIMIT + 2) config.now.rulesets)) }
{
    let mut count = 0;
    for depth in 0..DEPTH_LIMIT + 2 {
        count = list_at(config, depth, count, table)?;
    }
    Some(count)
}

// Finds what each ruleset of a table gives, from the last to the first: what its rules lead to is deeper, and so comes later and is known by
// then. Each ruleset is evaluated once, without recursion.
fn evaluate_each<'a>(
    config: &'a Config,
    packet: &Packet,
    tables: &[Answered<'a>],
    table: &mut [Known<'a>],
)
    requires listed { IsListing config.now.rulesets (placed_of table.old) }
    requires tables { AreAnswered packet.now config.now.tables tables.now }
    ensures same { placed_of table.new ≡ placed_of table.old }
    ensures given { AreGiven (ruleset_gives config.now packet.now) table.new }
{
    let mut left = table.len();
    while left > 0 {
        let number = left - 1;
        let all = &*table;
        let next = &all[number];
        let placed = next.placed();
        let known = Findings {
            rulesets: &all[left..],
            tables: named_by(tables, placed.key()),
        };
        let gives = evaluate_known(config, packet, placed, known);
        let found = next.found(gives, &all[left..]);
        table[number] = found;
        left = number;
    }
}

// A table filled with any ruleset.
fn filled<'a>(any: &'a Placed) -> [Known<'a>; RULESET_LIMIT]
    ensures { length result ≡ RULESET_LIMIT }
{
    array::from_fn(|_| Known::unknown(any))
}

// What the main ruleset gives for a packet, by a table that has room for all rulesets. None: it doesn't.
fn evaluate_in<'a>(
    config: &'a Config,
    packet: &Packet,
    tables: &[Answered<'a>],
    table: &mut [Known<'a>],
) -> Option<Evaluated<Match<'a>>>
    requires map { IsMap config.now.rulesets }
    requires tables { AreAnswered packet.now config.now.tables tables.now }
    ensures { MatchOption result (length table.old < length config.now.rulesets)
        (λ r. r ≡ in_turn (ruleset_gives config.now packet.now) (filter (λ e. same_path [] e.0) config.now.rulesets)) }
{
    let count = listed(config, table)?;
    let rulesets = &mut table[..count];
    evaluate_each(config, packet, tables, rulesets);
    Some(given_at(rulesets, &Path::main()))
}

// The same, where there are tables, of which this is the first: each is asked for each of the packet's addresses once.
fn evaluate_with_tables<'a>(
    config: &'a Config,
    packet: &Packet,
    first: &'a PlacedTable,
    answers: &mut [Answered<'a>],
    table: &mut [Known<'a>],
) -> Option<Evaluated<Match<'a>>>
    requires { IsMap config.now.rulesets }
    ensures { MatchOption result ((length answers.old < length config.now.tables) ⊎ (length table.old < length config.now.rulesets))
        (λ r. r ≡ in_turn (ruleset_gives config.now packet.now) (filter (λ e. same_path [] e.0) config.now.rulesets)) }
{
    // that tables are in order comes with each search
    let (path, name) = first.key();
    let _first = config.table_at(path, name);
    let count = answer_each(config, packet, answers)?;
    let all = &*answers;
    evaluate_in(config, packet, &all[..count], table)
}

/// What the main ruleset gives for a packet, by evaluating each ruleset and asking each table once. It takes no memory, and some 450 kilobytes
/// of the stack. None: there are more rulesets or tables than there may be.
#[cold]
#[inline(never)]
pub(crate) fn evaluate_in_order<'a>(
    config: &'a Config,
    any: &'a Placed,
    packet: &Packet,
) -> Option<Evaluated<Match<'a>>>
    requires { IsMap config.now.rulesets }
    ensures { MatchOption result ((TABLE_COUNT_LIMIT < length config.now.tables) ⊎ (RULESET_LIMIT < length config.now.rulesets))
        (λ r. r ≡ in_turn (ruleset_gives config.now packet.now) (filter (λ e. same_path [] e.0) config.now.rulesets)) }
{
    let mut table = filled(any);
    match config.each_table().next() {
        Some(first) => {
            let mut answers = unanswered(first);
            evaluate_with_tables(config, packet, first, &mut answers, &mut table)
        }
        None => evaluate_in(config, packet, &[], &mut table),
    }
}
