//! Slow peers, by a clock of their own: how long a paced reader and a paced writer wait for them.

use lease_server::{ServeFault, Watched, deliver};
use std::cell::Cell;
use std::io;
use std::io::{ErrorKind, Read, Write};
use std::time::{Clock, Duration};
use tcp_connections::{Limited, Pace, PacedReader, PacedWriter, Side};

/// 10 seconds for a line and an answer, 600 between lines.
fn pace() -> Pace {
    Pace {
        line: Duration::from_secs(10),
        idle: Duration::from_secs(600),
    }
}

/// A clock that shows the milliseconds for which was waited. It can't be read from some time on.
#[derive(Drop)]
struct Hands {
    now: Cell<u64>,
    fails_from: u64,
}

impl Hands {
    fn new(fails_from: u64) -> Hands {
        Hands {
            now: Cell::new(0),
            fails_from,
        }
    }

    fn turn(&self, by: u64) {
        self.now.set(self.now.get().saturating_add(by));
    }
}

impl Clock for Hands {
    fn monotonic(&self) -> io::Result<Duration> {
        if self.now.get() >= self.fails_from {
            return Err(io::Error::from(ErrorKind::Other));
        }
        Ok(Duration::from_millis(self.now.get()))
    }

    fn since_1970(&self) -> io::Result<Duration> {
        self.monotonic()
    }
}

/// A stream at which is waited by a clock, and what was seen of it.
#[derive(Drop)]
struct Wire<'a> {
    clock: &'a Hands,
    limit: Cell<u64>,
    /// How often a limit was set.
    sets: Cell<u64>,
    /// How many bytes came through.
    taken: Cell<usize>,
}

impl<'a> Wire<'a> {
    fn new(clock: &'a Hands) -> Wire<'a> {
        Wire {
            clock,
            limit: Cell::new(0),
            sets: Cell::new(0),
            taken: Cell::new(0),
        }
    }

    fn set(&self, limit: Duration) {
        let limit = u64::try_from(limit.as_millis()).unwrap_or(u64::MAX);
        self.limit.set(limit);
        self.sets.set(self.sets.get().saturating_add(1));
    }

    /// Waits for so long, or until the limit.
    fn wait(&self, pause: u64) -> io::Result<()> {
        self.clock.turn(pause.min(self.limit.get()));
        if pause > self.limit.get() {
            return Err(io::Error::from(ErrorKind::WouldBlock));
        }
        Ok(())
    }

    fn count(&self, bytes: usize) {
        self.taken.set(self.taken.get().saturating_add(bytes));
    }
}

/// Takes so many bytes, each time so many milliseconds after the time before; then none.
#[derive(Drop)]
struct Taker<'a> {
    wire: &'a Wire<'a>,
    parts: &'static [(u64, usize)],
}

impl Limited for Taker<'_> {
    fn limit(&self, side: Side, limit: Duration) -> io::Result<()> {
        if side == Side::Writes {
            self.wire.set(limit);
        }
        Ok(())
    }
}

impl Write for Taker<'_> {
    fn write(&mut self, buf: &[u8]) -> io::Result<usize> {
        let Some(((pause, room), rest)) = self.parts.split_first() else {
            return Ok(0);
        };
        self.wire.wait(*pause)?;
        self.parts = rest;
        let count = buf.len().min(*room);
        self.wire.count(count);
        Ok(count)
    }

    fn flush(&mut self) -> io::Result<()> {
        Ok(())
    }
}

/// How a peer takes three answers of ten bytes.
struct Taken {
    shows: &'static str,
    parts: &'static [(u64, usize)],
    fails_from: u64,
    taken: usize,
    ended: u64,
    is_whole: bool,
    sets: u64,
}

const TAKEN: [Taken; 6] = [
    Taken {
        shows: "each at once",
        parts: &[(10_000, 10), (10_000, 10), (1, 10)],
        fails_from: u64::MAX,
        taken: 30,
        ended: 20_001,
        is_whole: true,
        sets: 1,
    },
    Taken {
        shows: "each in parts, and each has its own time",
        parts: &[(5_000, 5), (4_999, 5), (9_999, 1), (1, 10), (1, 10)],
        fails_from: u64::MAX,
        taken: 30,
        ended: 20_000,
        is_whole: true,
        sets: 5,
    },
    Taken {
        shows: "none",
        parts: &[(10_001, 10)],
        fails_from: u64::MAX,
        taken: 0,
        ended: 10_000,
        is_whole: false,
        sets: 1,
    },
    Taken {
        shows: "a part of one, and no more in time",
        parts: &[(6_000, 5), (4_001, 5)],
        fails_from: u64::MAX,
        taken: 5,
        ended: 10_000,
        is_whole: false,
        sets: 2,
    },
    Taken {
        shows: "a byte now and then",
        parts: &[(1, 10), (4_000, 1), (4_000, 1), (4_000, 1)],
        fails_from: u64::MAX,
        taken: 12,
        ended: 10_001,
        is_whole: false,
        sets: 3,
    },
    Taken {
        shows: "no clock after the first",
        parts: &[(3, 10), (1, 10)],
        fails_from: 2,
        taken: 10,
        ended: 3,
        is_whole: false,
        sets: 1,
    },
];

#[test]
fn slow_takers(rt: HostRuntime) {
    for row in &TAKEN {
        let hands = Hands::new(row.fails_from);
        let wire = Wire::new(&hands);
        let parts = row.parts;
        let taker = Taker { wire: &wire, parts };
        let mut writer = Watched::new(PacedWriter::new(&hands, taker, pace()));
        let all = deliver_three(&mut writer);
        assert_eq!(rt; all.is_ok(), row.is_whole, "{}", row.shows);
        assert_eq!(rt; wire.taken.get(), row.taken, "{}", row.shows);
        assert_eq!(rt; hands.now.get(), row.ended, "{}", row.shows);
        assert_eq!(rt; wire.sets.get(), row.sets, "{}", row.shows);
    }
}

/// Writes three answers.
fn deliver_three<W: Write>(writer: &mut Watched<W>) -> Result<(), ServeFault> {
    for _ in 0..3 {
        deliver(writer, b"123456789\n")?;
    }
    Ok(())
}

/// Says these parts, each so many milliseconds after the one before; then its end.
#[derive(Drop)]
struct Speaker<'a> {
    wire: &'a Wire<'a>,
    parts: &'static [(u64, &'static str)],
    said: usize,
}

impl Limited for Speaker<'_> {
    fn limit(&self, side: Side, limit: Duration) -> io::Result<()> {
        if side == Side::Reads {
            self.wire.set(limit);
        }
        Ok(())
    }
}

impl Read for Speaker<'_> {
    fn read(&mut self, buf: &mut [u8]) -> io::Result<usize> {
        let Some((pause, part)) = self.parts.get(self.said) else {
            return Ok(0);
        };
        self.wire.wait(*pause)?;
        self.said = self.said.saturating_add(1);
        let bytes = part.as_bytes();
        let count = bytes.len().min(buf.len());
        buf[..count].copy_from_slice(&bytes[..count]);
        self.wire.count(count);
        Ok(count)
    }
}

/// How a peer says its lines.
struct Spoken {
    shows: &'static str,
    parts: &'static [(u64, &'static str)],
    fails_from: u64,
    taken: usize,
    ended: u64,
    is_whole: bool,
    sets: u64,
}

const SPOKEN: [Spoken; 8] = [
    Spoken {
        shows: "each line at once, and silence between them",
        parts: &[(10_000, "a\n"), (600_000, "b\n")],
        fails_from: u64::MAX,
        taken: 4,
        ended: 610_000,
        is_whole: true,
        sets: 2,
    },
    Spoken {
        shows: "nothing",
        parts: &[(10_001, "a")],
        fails_from: u64::MAX,
        taken: 0,
        ended: 10_000,
        is_whole: false,
        sets: 1,
    },
    Spoken {
        shows: "a byte now and then",
        parts: &[(3_000, "a"), (3_000, "b"), (3_000, "c"), (3_000, "d")],
        fails_from: u64::MAX,
        taken: 3,
        ended: 10_000,
        is_whole: false,
        sets: 4,
    },
    Spoken {
        shows: "a line that begins behind another, and has its own time",
        parts: &[(5_000, "a\nb"), (9_999, "c"), (1, "\n")],
        fails_from: u64::MAX,
        taken: 5,
        ended: 15_000,
        is_whole: true,
        sets: 3,
    },
    Spoken {
        shows: "too long a silence",
        parts: &[(1, "a\n"), (600_001, "b\n")],
        fails_from: u64::MAX,
        taken: 2,
        ended: 600_001,
        is_whole: false,
        sets: 2,
    },
    Spoken {
        shows: "a half line after a silence",
        parts: &[(1, "a\n"), (500_000, "b"), (10_001, "\n")],
        fails_from: u64::MAX,
        taken: 3,
        ended: 510_001,
        is_whole: false,
        sets: 3,
    },
    Spoken {
        shows: "no clock within a line",
        parts: &[(1, "a"), (3, "b"), (1, "\n")],
        fails_from: 2,
        taken: 2,
        ended: 4,
        is_whole: false,
        sets: 2,
    },
    Spoken {
        shows: "no clock where a line begins",
        parts: &[(3, "a\nb"), (1, "\n")],
        fails_from: 2,
        taken: 3,
        ended: 3,
        is_whole: false,
        sets: 1,
    },
];

#[test]
fn slow_speakers(rt: HostRuntime) {
    for row in &SPOKEN {
        let hands = Hands::new(row.fails_from);
        let wire = Wire::new(&hands);
        let parts = row.parts;
        let speaker = Speaker {
            wire: &wire,
            parts,
            said: 0,
        };
        let mut reader = PacedReader::new(&hands, speaker, pace());
        assert_eq!(rt; is_read_whole(&mut reader), row.is_whole, "{}", row.shows);
        assert_eq!(rt; wire.taken.get(), row.taken, "{}", row.shows);
        assert_eq!(rt; hands.now.get(), row.ended, "{}", row.shows);
        assert_eq!(rt; wire.sets.get(), row.sets, "{}", row.shows);
    }
}

/// Whether the end comes within eight reads, and no fault before.
fn is_read_whole<S: Read>(reader: &mut S) -> bool {
    for _ in 0..8 {
        let mut piece = [0u8; 16];
        match reader.read(&mut piece) {
            Ok(0) => return true,
            Ok(_) => {}
            Err(_) => return false,
        }
    }
    false
}
