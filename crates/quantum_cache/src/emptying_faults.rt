//! Why emptying ends early.

/// Why a drain or a reaping ended early. All else is where it was put by then.
pub enum EmptyingFault<S> {
    /// A part refused this segment.
    Stuck(S),
    /// A step wasn't done; the segment is the one that it would have placed.
    Stopped(Option<S>),
}
