//! Laws of forms. Each function does nothing; its contract is what is proved.
ghost use Rattle.std.specs.Prelude.{◌≡◌, ◌+◌, ℕ, true, [], ◌∷◌, codes, length, map, Ok};
ghost use Rattle.pf_rule.specs.{Rules.{PlainRule, IsRule}, RuleGrammar.rule};
ghost use Rattle.pf_rule.specs.Sum.Forms.{host_form, label_bytes, rule_form, whole_form, ruleset_sum};
ghost use Rattle.pf_rule.specs.{Sum.Layouts.{rule_layout, plain_rule, allows}, Sum.Reading.rule_of};
ghost use Rattle.pf_form.specs.{Bytes.Forms.{Fits, writes, length_of}, Form.Words.words_of, Form.Forms.read_all};
ghost use Rattle.pf_rule.specs.declared.host.host.Host.TheVariants.{Any};
ghost use Rattle.pf_rule.specs.declared.sum.{form.TheConstants.RULE_FORM, layout.TheConstants.LABELS_FROM};
ghost use Rattle.pf_rule.specs.Laws.Sums as example;

/// The form of each rule has [`RULE_FORM`](crate::sum::RULE_FORM) bytes before its label. What its layout writes has these and the
/// label's in every version that allows the rule, as every one from 2 on does.
#[tactic(auto, using(crate::proofs::RuleBytes::form_long, crate::proofs::RuleBytes::layout_long))]
pub fn forms_have_these_lengths()
    ensures form { (r : PlainRule) → IsRule r → length (rule_form r) ≡ RULE_FORM }
    ensures layout { (version : ℕ) (r : PlainRule) → IsRule r → allows version r ≡ true
        → length_of (rule_layout version) (plain_rule r) ≡ RULE_FORM + length (label_bytes r) }
    ensures from { LABELS_FROM ≡ 2 }
{}

/// A form is what the layout of each version that allows the rule writes of the rule's data, and another version has no form for the rule.
/// The data determine the whole rule: it is read back from them.
#[tactic(auto, using(crate::proofs::RuleBytes::rule_fits, crate::proofs::RuleBytes::layout_is, crate::proofs::RuleBytes::rule_again, crate::proofs::RuleBytes::fits_allowed))]
pub fn rule_is_read_from_its_form()
    ensures fits { (version : ℕ) (r : PlainRule) → IsRule r → allows version r ≡ true → Fits (rule_layout version) (plain_rule r) }
    ensures only { (version : ℕ) (r : PlainRule) → IsRule r → Fits (rule_layout version) (plain_rule r) → allows version r ≡ true }
    ensures written { (version : ℕ) (r : PlainRule) → IsRule r → allows version r ≡ true
        → writes (rule_layout version) (plain_rule r) ≡ whole_form r }
    ensures again { (r : PlainRule) → IsRule r → rule_of (plain_rule r) ≡ r }
{}

/// Two different rules have different forms.
pub fn different_rules_have_different_forms()
    ensures { (r s : PlainRule) → IsRule r → IsRule s → whole_form r ≡ whole_form s → r ≡ s }
{}

/// Four rules that are read from these texts.
#[tactic(auto, using(crate::proofs::Computed::texts))]
pub fn four_rules_have_these_texts()
    ensures block { read_all rule (words_of (codes "block in all")) ≡ Ok (Ok example.block) }
    ensures pass { read_all rule (words_of (codes "pass in all")) ≡ Ok (Ok example.pass) }
    ensures anchor { read_all rule (words_of (codes "anchor \"a/*\" all")) ≡ Ok (Ok example.anchor) }
    ensures tested { let text = codes "pass out quick on em0 proto tcp from !10/8 port 1024:2048 to <web> port 80 no state" in
        read_all rule (words_of text) ≡ Ok (Ok example.tested) }
{}

/// The forms of these four rules.
#[tactic(auto, using(crate::proofs::Computed::forms))]
pub fn four_rules_have_these_forms()
    ensures block { rule_form example.block ≡ example.block_form }
    ensures pass { rule_form example.pass ≡ example.pass_form }
    ensures anchor { rule_form example.anchor ≡ example.anchor_form }
    ensures tested { rule_form example.tested ≡ example.tested_form }
{}

/// A rule with a label: two texts that it is read from, its form, and the checksum of it alone.
#[tactic(auto, using(crate::proofs::Computed::labelled_texts, crate::proofs::Computed::labelled_form, crate::proofs::Computed::labelled_sum))]
pub fn labelled_rule_has_this_form_and_sum()
    ensures text { read_all rule (words_of (codes "block in all label \"x\"")) ≡ Ok (Ok example.labelled) }
    ensures bare { read_all rule (words_of (codes "block in label x")) ≡ Ok (Ok example.labelled) }
    ensures form { whole_form example.labelled ≡ example.labelled_form }
    ensures sum { ruleset_sum (example.labelled ∷ []) ≡ example.sum_of_labelled }
{}

/// The form of an IPv6 rule, and that of any host with each port test.
#[tactic(auto, using(crate::proofs::Computed::v6_form, crate::proofs::Computed::ports_form))]
pub fn families_and_port_tests_have_these_forms()
    ensures family { rule_form example.v6 ≡ example.v6_form }
    ensures ports { map (host_form Any) example.port_tests ≡ example.tested_hosts }
{}

/// The checksums of no rules, of the first of the four, and of all four.
#[tactic(auto, using(crate::proofs::Computed::none_sum, crate::proofs::Computed::block_sum, crate::proofs::Computed::four_sum))]
pub fn three_rulesets_have_these_sums()
    ensures none { ruleset_sum [] ≡ example.sum_of_none }
    ensures block { ruleset_sum (example.block ∷ []) ≡ example.sum_of_block }
    ensures four { ruleset_sum example.all_four ≡ example.sum_of_four }
{}
