//! Lists (pf.conf(5), "Lists"): the rules that a rule with lists stands for.
//!
//! A rule is written as lists, each of whose items is the words that it adds to the rule; what isn't a list is one item. It stands for the
//! product of its lists: each way of taking one item of each list, the last list turning fastest. The words of each are read by pf_rule, so
//! that nothing of a rule is defined twice.
//!
//! The modules, each of which uses only those before it: `product` (the ways, by their numbers), `hosts` (the words of hosts), `rules`
//! (what each way's words are read as), and `laws`.
//!
//! Read `specs/Product.antt` first, then `specs/Multiplied.antt`. Proved: [`multiply`] gives what the definition says, and
//! [`words_of_hosts`] each host's words, with its own `!`. Laws: lists of so many items have the product of their numbers of ways, and the
//! digits of a way's number in mixed radix say which items it takes (`ways_have_numbers`); the rules are those of the ways in their order,
//! less those that are left out (`rules_are_counted`).
#![tactic(auto)]

mod hosts;
mod laws;
mod product;
mod rules;

pub use hosts::{Host, words_of_hosts};
pub use laws::{rules_are_counted, ways_have_numbers};
pub use product::{Lists, Words};
pub use rules::{COMBINATION_LIMIT, ListStop, Mistake, multiply};
