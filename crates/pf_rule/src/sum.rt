//! Forms of rules in bytes, written and read, and the checksum of a ruleset: MD5 (RFC 1321) of its rules' forms, by which a peer knows
//! whether its rules are the same.

mod end_layout;
mod field;
mod form;
mod host_form;
mod laws;
mod layout;
mod sum;

pub use form::{RULE_FORM, rule_bytes};
pub use laws::{
    different_rules_have_different_forms, families_and_port_tests_have_these_forms,
    forms_have_these_lengths, four_rules_have_these_forms, four_rules_have_these_texts,
    labelled_rule_has_this_form_and_sum, rule_is_read_from_its_form,
    three_rulesets_have_these_sums,
};
pub use layout::{LABELS_FROM, rules_fit};
pub use sum::{RULESET_SUM, ruleset_sum};
