//! Grammars of words and layouts of bytes, as data, of which all texts and records here are made; and numbers in digits.
//!
//! A grammar of words is a value (`form`), and one law serves all in which one word of look-ahead decides: what is read is what spells a
//! value, and a text that spells none is refused at one place with one kind. Layouts of bytes are values too (`bytes`), with laws of the
//! same kind: bytes are those of one value, or have one fault at one byte, and what is written of a value is read back as it.
//!
//! The crate uses no other crate of the project, and doesn't know what a grammar or a layout is about: names, addresses and rules are
//! each a form of the crate that has them. Only some kinds of a bad word (`form::Kind`) are named after such things.
//!
//! Read `specs/Form/Forms.antt` first (what a grammar is, what it spells, where a text goes wrong), then `specs/Form/Cuts.antt` (the words
//! of a line), and for layouts of bytes `specs/Bytes/Forms.antt` (what is written, what fits) and `specs/Bytes/Readers.antt` (why bytes are
//! refused). The modules, which don't use each other:
//!
//! - `form`: the words of a line, what readers of words share, faults of words, and numbers in decimal digits.
//! - `bytes`: readers and writers of numbers, constants, lists, flags and padded names; the trait `Layout` of types with a form, and whole
//!   texts of such a type (`decode`).
//!
//! Proved, by the public contracts: readers and writers give what their forms say. Proved as laws: words and numbers are read as they are
//! written (`words_stand_between_blanks`, `numbers_are_read_as_written`), and of every layout `what_is_written_is_read`,
//! `bytes_have_one_value` and `refusals_have_one_reason`. The laws of every form are in `specs/Laws/`.
//!
//! The crate has no tests of its own: the texts and bytes that outside sources give are tested where they are rules, lines and messages.
#![tactic(auto)]

pub mod bytes;
pub mod form;
