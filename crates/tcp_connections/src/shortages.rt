//! What a server that connections come to may lack.

/// What there was none of for a connection.
#[derive(Clone, Copy, Debug, PartialEq, Eq)]
pub enum Shortage {
    /// A descriptor.
    Descriptor,
    /// A thread.
    Thread,
}

/// Who is told of what a server lacks, by one thread.
pub trait Overseer {
    /// There was none of this for a connection.
    fn lacks(&self, what: Shortage);
}

/// An overseer that ignores every shortage.
#[derive(Clone, Copy)]
pub struct NoOne;

impl Overseer for NoOne {
    fn lacks(&self, _what: Shortage) {}
}
