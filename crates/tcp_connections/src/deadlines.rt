//! Streams whose reads and writes wait no longer than is set, and times that come.
ghost use Rattle.std.specs.Prelude.{◌<◌, ◌≤◌, IfOk};
ghost use Rattle.std.specs.Duration.{as_nanos};

use std::io;
use std::io::ErrorKind;
use std::net::TcpStream;
use std::time::{Clock, Duration, Instant};

/// A side of a stream.
#[derive(Clone, Copy, Debug, PartialEq, Eq)]
pub enum Side {
    Reads,
    Writes,
}

/// A stream each of whose reads and writes waits no longer than is set.
pub trait Limited {
    /// Sets how long a call of this side may wait.
    fn limit(&self, side: Side, limit: Duration) -> io::Result<()>;
}

impl Limited for &TcpStream {
    fn limit(&self, side: Side, limit: Duration) -> io::Result<()> {
        match side {
            Side::Reads => self.set_read_timeout(Some(limit)),
            Side::Writes => self.set_write_timeout(Some(limit)),
        }
    }
}

/// A time that comes so long after another.
#[derive(Clone, Copy, Debug)]
pub struct Deadline {
    pub since: Instant,
    pub limit: Duration,
}

impl Deadline {
    /// How long it is until then; an error where it has come.
    pub fn left<C: Clock>(&self, clock: &C) -> io::Result<Duration>
        ensures { IfOk result (λ left. (0 < as_nanos left)
            × (as_nanos left ≤ as_nanos self.now.limit)) }
    {
        match self.limit.checked_sub(self.since.elapsed(clock)?) {
            Some(left) if !left.is_zero() => Ok(left),
            _ => Err(io::Error::from(ErrorKind::TimedOut)),
        }
    }
}
