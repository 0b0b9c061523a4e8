//! How full a disk is, which is said on standard error before a change is refused for want of room.
//!
//! - `gauge`: how much of a bank is used, and when that is said.
//! - `notice`: what one thread leaves for another to say.
//! - `watched`: what shows changes, and leaves a notice of how full the disk gets.

pub(crate) mod gauge;
pub(crate) mod notice;
pub(crate) mod watched;
