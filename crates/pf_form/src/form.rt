//! Grammars as data.
//!
//! A grammar of words is written once, as a value of the type `Form` of `specs/Form/Forms.antt`. Which words spell a value, how
//! words are read, where a text is refused and with which kind, and whether one word of look-ahead decides, are each a
//! function of the form. One law holds for all forms in which one word decides, which a computed test shows. This crate has
//! the forms with their laws, how a line is cut into words, numbers in decimal digits, and what is shared by the functions
//! that read words by a form.

mod fault;
mod laws;
mod number;
mod reading;
mod splitting;

pub use fault::{Kind, Unread, WordFault};
pub use laws::{numbers_are_read_as_written, words_stand_between_blanks};
pub use number::read_number;
pub use reading::{Words, bad_word, each, end, expect, stop, takes};
pub use splitting::{is_blank, words};
