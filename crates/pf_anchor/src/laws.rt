//! What follows from the definitions that contracts cite: functions that do nothing, whose contracts are the laws.
ghost use Rattle.std.specs.Prelude.{◌≡◌, ◌+◌, ◌*◌, ℕ, true, All, length};
ghost use Rattle.pf_rule.specs.Rules.{IsRule};
ghost use Rattle.pf_anchor.specs.declared.limits.TheConstants.{RULE_LIMIT, RULESET_LIMIT, TABLE_COUNT_LIMIT};
ghost use Rattle.pf_anchor.specs.{Forms.{allows_rules, labels_length, ruled_length, tabled_length}, Rulesets.PlainPlaced, Tables.PlainPlacedTable, Laws.Configurations.{ReplacesInTurn, StaysMap, OneMap, ChildrenHaveRules}, Laws.Tables.{ReplacesTables, HasItsEntries, OtherNamesStay, OtherPathsStay, StaysTableMap, EmptyIsAbsent, OneTableMap, LeavesTheOther, TablesAtPath, OwnAnswers, OwnHidesMain, MainAnswersElse, NoneElse, OthersAnswerNothing}, Laws.Evaluation.{TellsWhatDecides, Unrolls, IsTheOnly, DepthIsEnough, OwnMatch, EndsOutside, NothingWithin, MatchWithin, InTurn, LeadsToTheseAlone, QuickEnds, EndsTheVerdict, AnchorsNeverDecide, VerdictRuleDecides, UnreachedIsNothing, InTwoParts, PassedOver}};

/// A ruleset has at most 1,024 rules, and there are at most 1,024 rulesets and 1,024 tables.
pub fn the_limits_of_rulesets()
    ensures rules { RULE_LIMIT ≡ 1024 }
    ensures rulesets { RULESET_LIMIT ≡ 1024 }
    ensures tables { TABLE_COUNT_LIMIT ≡ 1024 }
{}

/// How many bytes a ruleset and a table take where they are kept: a rule 204 and its label, in a version that allows each of the rules, an
/// entry 20, a path and a name one more than their bytes, and a number four.
#[tactic(auto, using(crate::proofs::Lengths::ruled_long, crate::proofs::Lengths::tabled_long))]
pub fn rulesets_and_tables_take_so_many_bytes()
    ensures ruleset { (version : ℕ) (r : PlainPlaced) → All IsRule r.1 → allows_rules version r.1 ≡ true
        → ruled_length version r ≡ 5 + length r.0 + 204 * length r.1 + labels_length r.1 }
    ensures table { (t : PlainPlacedTable) → tabled_length t ≡ 6 + length t.0.0 + length t.0.1 + 20 * length t.1 }
{}

/// After a commit each path has the rules that the commit gives it, or else its own, and a path without rules has no entry.
#[tactic(auto, using(crate::proofs::RulesetMaps::replaced_in_turn))]
pub fn replaces_exactly()
    ensures rules { ReplacesInTurn }
    ensures map { StaysMap }
{}

/// Two maps that have the same rules at each path are equal.
#[tactic(auto, using(crate::proofs::RulesetMaps::one_map))]
pub fn one_map()
    ensures { OneMap }
{}

/// The children of a path are, in the order of their bytes, the paths of one component more that have rules.
pub fn children_are_those_with_rules()
    ensures { ChildrenHaveRules }
{}

/// If the main ruleset has no anchor rule, the verdict is the default where none of its rules matches; else it is a rule that matches, with
/// no quick rule that matches before it, and that is quick or has no later rule that matches.
#[tactic(auto, using(crate::proofs::PlainRules::tells_what_decides))]
pub fn the_last_or_quick_rule_decides()
    ensures { TellsWhatDecides }
{}

/// Evaluation is the one solution of its equation: a ruleset is evaluated as its rules in order, and so is each ruleset that they lead to.
/// More levels than a path may have components change nothing.
pub fn evaluation_is_the_one_solution()
    ensures unrolls { Unrolls }
    ensures only { IsTheOnly }
    ensures depth { DepthIsEnough }
{}

/// A rule that decides ends its ruleset's evaluation if it is quick, at any path, and no rule after it is looked at; else its match stands
/// until a later one. What ends within an anchor rule of the main ruleset is the verdict.
pub fn quick_rules_end_the_evaluation()
    ensures own { OwnMatch }
    ensures ends { QuickEnds }
    ensures verdict { EndsTheVerdict }
{}

/// What ends within an anchor ends outside too. A quick anchor rule ends the evaluation if something within matched; if nothing did, it is
/// as if the rule weren't there.
pub fn anchor_rules_stand_among_rules()
    ensures ends { EndsOutside }
    ensures nothing { NothingWithin }
    ensures some { MatchWithin }
{}

/// An anchor rule leads to the ruleset at its path if there is one, or by a wildcard to those at the path's children, in the order of their
/// bytes; past the limits to none. Of these in turn the first that ends is the end of all, else the latest match stands.
pub fn rules_lead_to_rulesets_in_turn()
    ensures turn { InTurn }
    ensures leads { LeadsToTheseAlone }
{}

/// The rule of a verdict is at the verdict's path and number, matches, and decides; an anchor rule never does. The same holds for what any
/// ruleset's evaluation finds.
pub fn no_anchor_rule_decides()
    ensures reported { VerdictRuleDecides }
    ensures found { AnchorsNeverDecide }
{}

/// A ruleset other than the main one to which no rule leads may be replaced by any other, and no verdict changes.
#[tactic(auto, using(crate::proofs::Unreached::unreached_is_nothing))]
pub fn unreached_rulesets_change_nothing()
    ensures { UnreachedIsNothing }
{}

/// Rules may be evaluated in parts, one after the other, and those that don't match may be left out.
pub fn rules_are_evaluated_in_parts()
    ensures parts { InTwoParts }
    ensures passed { PassedOver }
{}

/// After a change each named table has the entries that it was given, and all others stay, at that path and at others; what has no entries
/// isn't there. Two maps that have the same tables everywhere are equal. Changes of rulesets leave tables alone, and the other way round.
pub fn tables_are_replaced_exactly()
    ensures tables { ReplacesTables }
    ensures its { HasItsEntries }
    ensures names { OtherNamesStay }
    ensures paths { OtherPathsStay }
    ensures map { StaysTableMap }
    ensures empty { EmptyIsAbsent }
    ensures one { OneTableMap }
    ensures other { LeavesTheOther }
{}

/// The tables at a path are those that are found there, in the order of their names.
pub fn tables_at_paths_are_by_name()
    ensures { TablesAtPath }
{}

/// A table's name means the table at the rule's own path, and only if there is none there the main ruleset's. An own table hides main's,
/// also if it has no entry for the address; tables of other names and at other paths, parents and children among them, change nothing. A
/// host that names a table that isn't there matches no address, and its negation every one.
pub fn own_tables_hide_mains()
    ensures own { OwnAnswers }
    ensures hidden { OwnHidesMain }
    ensures main { MainAnswersElse }
    ensures none { NoneElse }
    ensures others { OthersAnswerNothing }
{}
