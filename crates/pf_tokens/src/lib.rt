//! The text of a pf.conf as tokens (pf.conf(5), MACROS and GRAMMAR): bytes with their places, without continued lines; words, quoted texts
//! and symbols; and these without macros, definitions of macros and includes.
//!
//! The modules, each of which uses only those before it: `place` (where bytes stand), `items` (lists), `texts`, `fault` (what is wrong, and
//! where), `placing` (continued lines), `reserved` and `token`, `counting` (how many words are read), `lexing`, `files` (those that are
//! given), and `flat`.
//!
//! The crate opens no file: a text that names a file which isn't given is answered by [`TokenStop::Needs`], and whoever reads files asks again.
//! It knows no rule, table or anchor; all that a word may mean is left to the crates above, but for the words that are reserved.
//!
//! Read `specs/Placed.antt` first, then `specs/Lexing.antt` and `specs/Flat.antt`: three total functions over plain lists. `specs/Laws.antt`
//! and `laws` say what holds of them, `specs/Counting.antt` how words are counted.
#![tactic(auto)]

mod counting;
mod fault;
mod files;
mod flat;
mod items;
mod laws;
mod lexing;
mod place;
mod placing;
mod reserved;
mod texts;
mod token;

pub use fault::{Fault, Mistake, TokenStop};
pub use files::{Contents, FILE_LIMIT, File, Files, READING_LIMIT, text_of_file};
pub use flat::{Flat, INCLUDE_LIMIT, Macro, Macros};
pub use items::{Bytes, Items, PlacedText};
pub use laws::{
    continued_lines_vanish, no_macro_is_left, plain_lines_are_left, tokens_stand_in_their_text,
};
pub use lexing::{Source, lex};
pub use place::{Place, Placed};
pub use placing::placed;
pub use token::{Kind, Token};
