//! Filter rules and packets (pf.conf(5), PACKET FILTERING and PARAMETERS): which rule matches which packet, how both are read from text
//! and written, a rule's form in bytes, and the checksum of a list of rules.
//!
//! A rule is exactly what some text spells; its type guarantees it. So its canonical text is read back as that rule, and so is its form.
//! Whether a table of some name matches an address is asked through `TableAnswers`: a rule knows only names of tables.
//!
//! The crate knows no rulesets at paths, no tables, tickets, states or lines; which ruleset an anchor rule leads to is `pf_anchor`'s
//! business.
//!
//! `value` (protocols, ports, interfaces, directions, labels) uses no other module; `host` (the addresses and tables of a rule's two ends)
//! uses `value`; rules and packets, at the root, use both and know no checksum; `sum` (forms and checksums) uses all three. `fault` says
//! why a text was refused. `laws` may use all.
//!
//! Read `specs/Rules.antt` first (what a rule is, and when it matches), `specs/Packets.antt`, and `specs/RuleGrammar.antt` with
//! `specs/PacketGrammar.antt` (their texts); then `specs/RuleText.antt` (the canonical text), `specs/Refusals.antt` (what reading a text
//! returns), `specs/Sum/Forms.antt` (the table of a form's places, and the checksum) and `specs/Sum/Layouts.antt` (which bytes are a
//! rule's form). `specs/Bytes.antt` has what forms of rules share with a peer's messages.
//!
//! Proved: [`Rule::matches`] returns what the definition of a match says. [`Rule::parse`] and [`Packet::parse`] read a text that the
//! grammar spells, and refuse any other with the one refusal due (`rules_and_packets_are_read_as_spelled`, `a_refusal_is_one`). What is
//! written is read again (`what_is_written_is_read_again`), and different rules have different texts and forms
//! (`different_rules_have_different_texts`, `sum::different_rules_have_different_forms`). A rule is read from its form
//! and its label (`sum::rule_is_read_from_its_form`); example rules have given texts, forms and checksums, to compare with what other
//! programs compute (`sum::four_rules_have_these_forms`, `sum::labelled_rule_has_this_form_and_sum`,
//! `sum::three_rulesets_have_these_sums`).
//! Only tests of other crates show that memory runs out only if a growth was refused.
#![tactic(auto)]

mod fault;
pub mod host;
mod laws;
mod packet;
mod rule;
mod rule_text;
mod rule_words;
pub mod sum;
pub mod value;

pub use fault::{Mistake, TextFault};
pub use host::{Host, TableAnswers};
pub use laws::{
    a_refusal_is_one, different_rules_have_different_texts, hosts_without_tables_ask_none,
    rules_and_packets_are_read_as_spelled, what_is_spelled_is_kept, what_is_written_is_read_again,
};
pub use packet::{Packet, PacketParts};
pub use pf_addr::path::{Reference, TableName};
pub use rule::{Action, Effect, Rule};
pub use sum::{rule_bytes, ruleset_sum};
pub use value::{
    Comparison, Direction, INTERFACE_LIMIT, Interface, LABEL_LIMIT, Label, PortRange, PortTest,
    Protocol,
};
