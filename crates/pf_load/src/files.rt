//! What follows from the definitions of a pf.conf and of its load: functions that do nothing, whose contracts are the laws.
//!
//! What a file means is defined in pf_tokens, pf_lists, pf_parse and pf_conf, whose functions are proved to give it, and what a load sends
//! in pf_conf and pf_commit. The laws here say what a user may count on, whatever a file has: which rules lists stand for, that a table is
//! filled once, that one commit has room for all and replaces exactly that, that each file is read that is loaded, that no reader runs out
//! of turns, that pf_rule takes the words of each rule for a rule's, and that each rule stands at its own word. Of a text no byte is lost.
//!
//! Read `src/files/laws.rt` first, then the definitions in `specs/Files`, those of texts before those of lines and of rulesets: `Pieces`,
//! `Spaces`; `Places`, `Turns`, `Words`; `Lists`, `Rulesets`, `Commits` and `Loads`.

mod laws;

pub use laws::{
    a_file_is_loaded_exactly, a_rule_without_lists_is_one_rule, all_loads_are_read,
    more_turns_change_nothing, no_byte_is_lost, one_commit_has_room,
    rules_are_the_ways_that_are_left, rules_come_in_the_order_of_their_words,
    rulesets_have_the_rules_that_are_written, tables_are_filled_once, words_of_rules_are_rules,
    words_with_spaces_are_these_words,
};
