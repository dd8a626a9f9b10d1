//! Streams that are read and written until a time, and then fail. This changes no byte.
ghost use Rattle.std.specs.Prelude.{◌≡◌};

use std::io;
use std::io::{Read, Write};
use std::time::{Clock, Duration};
use tcp_connections::{Deadline, Limited, Side};

/// A time that comes, by a clock.
#[derive(Drop)]
pub struct Until<'a, C: Clock> {
    pub clock: &'a C,
    pub deadline: Deadline,
}

impl<C: Clock> Until<'_, C> {
    /// How long it is until then; an error where it has come.
    fn left(&self) -> io::Result<Duration> {
        self.deadline.left(self.clock)
    }

    /// Whether it has come.
    pub(crate) fn has_come(&self) -> bool {
        self.left().is_err()
    }
}

/// A stream until then.
#[derive(Drop)]
pub struct Timed<'a, S, C: Clock> {
    stream: S,
    until: &'a Until<'a, C>,
}

impl<'a, S, C: Clock> Timed<'a, S, C> {
    /// The stream until then.
    pub fn new(stream: S, until: &'a Until<'a, C>) -> Timed<'a, S, C>
        ensures { result.stream ≡ stream }
    {
        Timed { stream, until }
    }
}

impl<S: Read + Limited, C: Clock> Read for Timed<'_, S, C> {
    ghost remaining = { λ r. S.remaining r.stream };

    fn read(&mut self, buf: &mut [u8]) -> io::Result<usize> {
        let left = self.until.left()?;
        self.stream.limit(Side::Reads, left)?;
        self.stream.read(buf)
    }
}

impl<S: Write + Limited, C: Clock> Write for Timed<'_, S, C> {
    ghost contents = { λ w. S.contents w.stream };

    fn write(&mut self, buf: &[u8]) -> io::Result<usize> {
        let left = self.until.left()?;
        self.stream.limit(Side::Writes, left)?;
        self.stream.write(buf)
    }

    fn flush(&mut self) -> io::Result<()> {
        self.stream.flush()
    }
}
