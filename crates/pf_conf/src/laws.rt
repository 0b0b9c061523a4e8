//! Laws of what a file means. Each function does nothing; its contract is what is proved.
ghost use Rattle.std.specs.{Prelude.{◌≡◌, List, ℕ, Ok}, List.All};
ghost use Rattle.pf_form.specs.{Form.Forms.read_all, Form.Words.words_of};
ghost use Rattle.pf_rule.specs.{RuleGrammar.rule, RuleText.rule_text};
ghost use Rattle.pf_tokens.specs.declared.files.File.{File};
ghost use Rattle.pf_parse.specs.declared.{parser.Mode.Mode, parser.Mode.TheVariants.{Strict, Lenient}};
ghost use Rattle.pf_values.specs.declared.interfaces.interface.Interface.{Interface};
ghost use Rattle.pf_conf.specs.declared.{found.Conf.Conf, found.Ruleset.Ruleset};
ghost use Rattle.pf_conf.specs.{Rulesets.PlacedRule, Resolving.resolved, Laws.{IsRulePlace, FitsCommit}};

use pf_rule::{
    rules_and_packets_are_read_as_spelled, what_is_spelled_is_kept, what_is_written_is_read_again,
};

/// What is taken strictly is taken leniently, with the same result.
pub fn lenient_takes_what_strict_takes()
    ensures { (files : List File) (interfaces : List Interface) (base name : List ℕ) (c : Conf) →
        resolved files interfaces Strict base name ≡ Ok c → resolved files interfaces Lenient base name ≡ Ok c }
{
    pf_parse::lenient_takes_what_strict_takes();
}

/// What is printed of each rule is read by pf_rule as this rule.
pub fn printed_rules_are_read_again()
    ensures { (files : List File) (interfaces : List Interface) (mode : Mode) (base name : List ℕ) (c : Conf) →
        resolved files interfaces mode base name ≡ Ok c →
        All (λ (q : Ruleset). All (λ (r : PlacedRule). read_all rule (words_of (rule_text r.is)) ≡ Ok (Ok r.is)) q.rules) c.rulesets }
{
    rules_and_packets_are_read_as_spelled();
    what_is_spelled_is_kept();
    what_is_written_is_read_again();
}

/// Each rule has the place of a `pass`, `block` or `anchor` of a file that is read, or of an interface that it skips.
pub fn rules_stand_at_their_words()
    ensures { (files : List File) (interfaces : List Interface) (mode : Mode) (base name : List ℕ) (c : Conf) →
        resolved files interfaces mode base name ≡ Ok c →
        All (λ (q : Ruleset). All (λ (r : PlacedRule). IsRulePlace files interfaces r.place) q.rules) c.rulesets }
{
    pf_parse::rules_stand_at_their_words();
}

/// One commit can have what a file means: a path has rules once, and there are no more rulesets, rules and entries than it may have.
pub fn a_commit_can_have_it()
    ensures { (files : List File) (interfaces : List Interface) (mode : Mode) (base name : List ℕ) (c : Conf) →
        resolved files interfaces mode base name ≡ Ok c → FitsCommit c }
{}
