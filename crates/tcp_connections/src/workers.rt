//! What answers the lines of clients.

use lease_proto::{Line, Reply};

/// One worker's side of what serves clients: it answers their lines one at a time, while other
/// workers answer others.
pub trait Worker {
    ghost use Rattle.lease_proto.specs.declared.lines.Line.{Line};
    ghost use Rattle.lease_proto.specs.declared.replies.Reply.{Reply};

    /// What it gives once it has tidied, so that it can't give it otherwise; () where others tidy.
    type Tidied: Drop;

    // From a worker, a line and a reply to it, and the worker after it: what the worker may do.
    // More than one reply may be allowed, since other workers are at work.
    ghost may_reply: { Self → Line → Reply → Self → Type 0 };

    // what a worker may be once it has tidied
    ghost may_tidy: { Self → Self → Type 0 };

    /// Answers a line. Where it is out of memory the reply says so.
    fn reply(&mut self, line: &Line) -> Reply
        ensures { may_reply self.old line.now result self.new };

    /// Gives back what caches hold in excess, by a bounded number of steps. It is called after each
    /// connection.
    fn tidy(&mut self) -> Self::Tidied
        ensures { may_tidy self.old self.new };
}
