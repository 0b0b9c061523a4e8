//! The values that rules and packets are made of: protocols, ports and their tests, interfaces, directions and labels. How their words
//! are read and written, and what a test of one says.

mod direction;
mod interface;
mod label;
mod laws;
mod port_words;
mod ports;
mod protocol;
mod test_text;
mod test_words;
mod value_words;
mod values;
mod wanted;

pub use direction::Direction;
pub use interface::{INTERFACE_LIMIT, Interface};
pub use label::{LABEL_LIMIT, Label};
pub use laws::{
    label_words_are_read_as_spelled, limits_are_these, port_words_are_read_as_spelled,
    protocol_words_are_read_as_spelled,
};
pub(crate) use port_words::read_port;
pub use ports::{Comparison, PortRange, PortTest};
pub(crate) use ports::{ports_fit, takes_port};
pub use protocol::Protocol;
pub use test_text::write_more_protocol;
pub(crate) use test_text::{
    direction_text, family_text, write_interface, write_port, write_protocol,
};
pub(crate) use test_words::{read_direction, read_family, read_interface, read_protocol};
pub use value_words::address_word;
pub(crate) use value_words::{interface_word, label_word, port_word, protocol_word};
pub(crate) use wanted::is_wanted;
