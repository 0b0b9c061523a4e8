//! Layouts of bytes as data.
//!
//! How a record lies in bytes is written once, as a value of the type `Form` of `specs/Bytes/Forms.antt`. What a value is written as, which
//! values can be written, how bytes are read, and at which byte they go wrong, are each a function of the form. The laws hold
//! for every form, so a new record needs a form, a reader and a writer, and no proof. Numbers are big-endian: the
//! highest byte first. A type has a form in each version (`Layout`); this module has what reads and writes its parts.

mod codes;
mod fault;
mod fitting;
mod laws;
mod layout;
mod lists;
mod names;
mod reading;
mod whole;
mod writing;

pub use codes::{read_below, read_flag};
pub use fault::{Fault, Undecoded};
pub use fitting::{Fitting, all_fit, push_fitting, push_list};
pub use laws::{bytes_have_one_value, refusals_have_one_reason, what_is_written_is_read};
pub use layout::{Layout, Ordered};
pub use lists::{are_in_order, read_list, read_ordered_list, read_times, write_each, write_list};
pub use names::{push_padded, read_filled};
pub use reading::{
    Rest, expect, read_array, read_bytes, read_counted_bytes, read_u8, read_u16, read_u32,
    read_u64, read_u128, takes,
};
pub use whole::decode;
pub use writing::{
    push_bytes, push_counted_bytes, push_key, push_u8, push_u16, push_u32, push_u64, push_u128,
};
