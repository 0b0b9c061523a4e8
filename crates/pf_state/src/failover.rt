//! What the messages of a peer that takes over mean for the states here, and which messages give a peer these states.

mod incoming;
pub mod laws;
mod outgoing;

pub use incoming::steps_of;
pub use outgoing::{EXPORT_RECORDS, Exported, export};
