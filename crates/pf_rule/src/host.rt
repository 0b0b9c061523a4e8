//! Hosts: which addresses the ends of a packet's way may have, as networks and tables say, and how their words are read and written.

mod ends;
mod ends_text;
mod host;
mod host_words;
mod laws;

pub(crate) use ends::{End, read_ends};
pub(crate) use ends_text::write_ends;
pub use host::{Host, TableAnswers};
pub use laws::host_words_are_read_as_spelled;
