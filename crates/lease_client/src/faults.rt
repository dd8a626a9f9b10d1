//! Why a client doesn't do what it was told.
use lease_proto::Op;
use thiserror::Error;

/// The incarnation isn't above the client's and each that an accepted `old` named, or it is above
/// `LARGEST`.
#[derive(Clone, Copy, Debug, PartialEq, Eq, Error)]
#[error("not a greater incarnation")]
pub struct NotGreater;

/// No line waits for its reply, or none with the number that was named.
#[derive(Clone, Copy, Debug, PartialEq, Eq, Error)]
#[error("no such line is outstanding")]
pub struct Nothing;

/// Why an operation isn't sent; it is handed back, and the client is as before. The reasons stand
/// in the order in which they are looked for.
#[derive(Clone, Copy, Debug, PartialEq, Eq, Error)]
pub enum SendFault {
    /// No `welcome` has come yet to the client's hello, or an `old` came after it.
    #[error("not open")]
    NotOpen(Op),
    /// The next number is a window or more above the least that waits for its reply.
    #[error("busy")]
    Busy(Op),
    /// A release of what the client doesn't hold.
    #[error("not held")]
    NotHeld(Op),
    /// The number `LARGEST` was sent: the client has to restart.
    #[error("no number is left")]
    Exhausted(Op),
    /// Out of memory: there is no room for a lease, or for the segment that it may be granted.
    #[error("out of memory")]
    NoMemory(Op),
}
