//! Why a call or a list of steps ended without its result. `S` is a segment, which comes back.

use arena_tree::ReturnFault;
use lease_book::{Answer, HelloFault, NotLeased};

/// Why a hello wasn't taken.
pub enum NotGreeted<D> {
    /// The book doesn't take it.
    Late(HelloFault<D>),
    /// Nothing was done.
    Stopped,
}

/// Why no lease ended.
pub enum NotReleased<D> {
    /// The book answers otherwise.
    Answered(Answer<D>),
    /// Nothing was done.
    Stopped,
}

/// Why no lease was made.
pub enum NotSettled<S, D> {
    /// The book answers otherwise, and hands the segment back.
    NotLeased(NotLeased<S, D>),
    /// Nothing was done.
    Stopped(S),
}

/// Why a line came to nothing.
pub enum CallFault<S> {
    /// A part refused this segment.
    Stuck(S),
    /// A step wasn't done; the segment is the one that it would have placed.
    Stopped(Option<S>),
}

impl<S> CallFault<S> {
    ghost use Rattle.std.specs.Prelude.{◌≡◌};
    ghost use Rattle.lease_call.specs.Hands.{left_in_hand};

    /// The segment that it left in the hand.
    pub fn left(self) -> Option<S>
        ensures { result ≡ left_in_hand self }
    {
        match self {
            CallFault::Stuck(segment) => Some(segment),
            CallFault::Stopped(left) => left,
        }
    }
}

impl<S> From<ReturnFault<S>> for CallFault<S> {
    ghost use Rattle.std.specs.Prelude.{◌≡◌};
    ghost use Rattle.lease_call.specs.Hands.{unplaced};

    ghost from_gives = { λ cause fault. fault ≡ unplaced cause };

    fn from(fault: ReturnFault<S>) -> CallFault<S> {
        match fault {
            ReturnFault::Stuck(segment) => CallFault::Stuck(segment),
            ReturnFault::Stopped(segment) => CallFault::Stopped(Some(segment)),
        }
    }
}
