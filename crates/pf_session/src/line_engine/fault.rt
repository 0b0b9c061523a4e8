//! Why a session ends before its input does.
use thiserror::Error;

/// Why a session ended before its input did.
#[derive(Clone, Copy, Debug, PartialEq, Eq, Error)]
pub enum EngineFault {
    /// A read failed, or there were 2^62 of them.
    #[error("input")]
    Read,
    /// A write or a flush failed.
    #[error("output")]
    Write,
    /// There was no memory for the line buffer.
    #[error("memory")]
    Memory,
}
