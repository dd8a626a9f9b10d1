//! What became of a segment that is to be placed.

/// What a stage of a free ends with.
pub enum Placing<S> {
    /// It is in the CPU's magazines.
    Placed,
    /// It isn't placed, and the next stage is tried.
    Left(S),
    /// A step wasn't done.
    Stopped(S),
}
