//! Why serving ended early.

use thiserror::Error;

/// Why serving ended before the end of the input, by its word.
#[derive(Clone, Copy, Debug, PartialEq, Eq, Error)]
pub enum ServeFault {
    /// The reader failed.
    #[error("read")]
    Read,
    /// The writer failed, or took no bytes.
    #[error("write")]
    Write,
    /// The responder, or the room for its answers, was out of memory.
    #[error("memory")]
    Memory,
    /// The input went on after `MOST_READS`.
    #[error("turns")]
    Turns,
}
