//! What a record keeps: changes and openings.
use pf_core::Change;

/// A change or an opening, as a record keeps it.
#[derive(Drop)]
pub enum Recorded {
    /// A change of what is kept.
    Made(Change),
    /// An opening of the device, with its epoch.
    Opens(u32),
}
