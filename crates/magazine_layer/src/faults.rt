//! Why a depot refuses.
use thiserror::Error;

/// Why a depot gave no full magazine.
#[derive(Clone, Copy, PartialEq, Eq, Debug, Error)]
pub enum FullFault {
    /// The depot's magazines have this size, and the CPU's another.
    #[error("the depot's magazines hold {0} rounds")]
    OldSize(usize),
    /// It has no full magazine of its size.
    #[error("no full magazine")]
    NoneFull,
}

/// Why a depot gave no empty magazine.
#[derive(Clone, Copy, PartialEq, Eq, Debug, Error)]
pub enum EmptyFault {
    /// The depot's magazines have this size, and the CPU's another.
    #[error("the depot's magazines hold {0} rounds")]
    OldSize(usize),
    /// It has no empty magazine of its size.
    #[error("no empty magazine")]
    NoneEmpty,
}

/// Why a depot took no full magazine. The magazine that was to be put comes back as it was.
pub enum PutFullFault<M> {
    /// The depot's magazines have this size, and the CPU's or the new one another.
    OldSize(usize, M),
    /// Out of memory for the depot's lists.
    NoMemory(M),
}

/// The new size of a depot's magazines isn't greater than the old one.
#[derive(Clone, Copy, PartialEq, Eq, Debug, Error)]
#[error("the new size is not greater")]
pub struct NotGreater;
