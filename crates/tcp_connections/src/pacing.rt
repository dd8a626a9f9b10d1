//! A stream whose peer is waited for no longer than it is allowed. Pacing changes no byte: a paced
//! reader has to give what its stream has, and a paced writer wrote what its stream took.
ghost use Rattle.std.specs.Prelude.{◌≡◌};

use crate::deadlines::{Deadline, Limited, Side};
use std::io;
use std::io::{ErrorKind, Read, Write};
use std::marker::Model;
use std::time::{Clock, Duration, Instant};

/// How long a peer is waited for.
#[derive(Clone, Copy, Debug, PartialEq, Eq)]
pub struct Pace {
    /// For its first whole line, for the rest of a line that it began, and for it to take the whole
    /// of an answer.
    pub line: Duration,
    /// For it to begin another line.
    pub idle: Duration,
}

impl Pace {
    /// When the peer of a line or of an answer that was begun then is waited for no more.
    fn until(self, since: Instant) -> Deadline {
        Deadline {
            since,
            limit: self.line,
        }
    }
}

/// What a reader waits for.
#[derive(Clone, Copy)]
enum Awaited {
    /// Another line.
    Line,
    /// The rest of a line, since then.
    Rest(Instant),
    /// Nothing more: it couldn't be told when a line was begun.
    Nothing,
}

/// The reading side. It knows of a line only whether it is whole, and asks the clock and sets the
/// stream's limit just where what it waits for changes. A contract sees the stream.
#[derive(Drop)]
pub struct PacedReader<'a, S, C: Clock> {
    clock: &'a C,
    stream: S,
    pace: Pace,
    awaited: Awaited,
    limit: Option<Duration>,
}

impl<'a, S, C: Clock> Model for PacedReader<'a, S, C> {
    ghost Value = { S };

    ghost view = { λ r. r.stream };
}

impl<'a, S, C: Clock> PacedReader<'a, S, C> {
    /// The first line is waited for from now on.
    pub fn new(clock: &'a C, stream: S, pace: Pace) -> PacedReader<'a, S, C>
        ensures { result ≡ stream }
    {
        PacedReader {
            clock,
            stream,
            pace,
            awaited: rest_from_now(clock),
            limit: None,
        }
    }
}

impl<S: Read + Limited, C: Clock> Read for PacedReader<'_, S, C> {
    ghost remaining = { S.remaining };

    fn read(&mut self, buf: &mut [u8]) -> io::Result<usize> {
        let limit = match self.awaited {
            Awaited::Line => self.pace.idle,
            Awaited::Rest(since) => self.pace.until(since).left(self.clock)?,
            Awaited::Nothing => return Err(io::Error::from(ErrorKind::TimedOut)),
        };
        set_limit(&self.stream, Side::Reads, &mut self.limit, limit)?;
        let count = self.stream.read(buf)?;
        if count > 0 {
            self.awaited = awaited_after(self.clock, self.awaited, &buf[..count]);
        }
        Ok(count)
    }
}

/// What is waited for after these bytes, of which there are some.
fn awaited_after<C: Clock>(clock: &C, before: Awaited, bytes: &[u8]) -> Awaited {
    if bytes.ends_with(b"\n") {
        return Awaited::Line;
    }
    match before {
        Awaited::Rest(since) if !bytes.contains(&b'\n') => Awaited::Rest(since),
        _ => rest_from_now(clock),
    }
}

/// The rest of a line, from now on.
fn rest_from_now<C: Clock>(clock: &C) -> Awaited {
    match Instant::now(clock) {
        Ok(now) => Awaited::Rest(now),
        Err(_) => Awaited::Nothing,
    }
}

/// The writing side. What is written up to a flush is one answer. A contract sees the stream.
#[derive(Drop)]
pub struct PacedWriter<'a, S, C: Clock> {
    clock: &'a C,
    stream: S,
    pace: Pace,
    begun: Option<Instant>,
    limit: Option<Duration>,
}

impl<'a, S, C: Clock> Model for PacedWriter<'a, S, C> {
    ghost Value = { S };

    ghost view = { λ w. w.stream };
}

impl<'a, S, C: Clock> PacedWriter<'a, S, C> {
    /// No answer is begun.
    pub fn new(clock: &'a C, stream: S, pace: Pace) -> PacedWriter<'a, S, C>
        ensures { result ≡ stream }
    {
        PacedWriter {
            clock,
            stream,
            pace,
            begun: None,
            limit: None,
        }
    }
}

impl<S: Write + Limited, C: Clock> Write for PacedWriter<'_, S, C> {
    ghost contents = { S.contents };

    fn write(&mut self, buf: &[u8]) -> io::Result<usize> {
        let limit = match self.begun {
            None => {
                self.begun = Some(Instant::now(self.clock)?);
                self.pace.line
            }
            Some(since) => self.pace.until(since).left(self.clock)?,
        };
        set_limit(&self.stream, Side::Writes, &mut self.limit, limit)?;
        self.stream.write(buf)
    }

    fn flush(&mut self) -> io::Result<()> {
        self.begun = None;
        self.stream.flush()
    }
}

/// Sets a limit of a side of a stream, where another is set.
fn set_limit<S: Limited>(
    stream: &S,
    side: Side,
    is: &mut Option<Duration>,
    limit: Duration,
) -> io::Result<()> {
    if *is != Some(limit) {
        stream.limit(side, limit)?;
        *is = Some(limit);
    }
    Ok(())
}
