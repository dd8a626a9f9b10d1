//! Serving from readers and to writers that give and take little, that stop for a moment, and that
//! fail.
ghost use Rattle.std.specs.Prelude.{◌≡◌, ◌∷◌, [], ◌++◌};

use lease_server::{Intake, Responder, ServeFault, Watched, serve};
use std::alloc::{AllocError, Global};
use std::io;
use std::io::{ErrorKind, Read, Write};
use std::process::Abort;
use std::test::Fail;

/// What a call of a reader or a writer does at its turn `at`, counted from 1.
#[derive(Clone, Copy)]
enum Mishap {
    None,
    Fails { at: u64 },
    IsInterrupted { at: u64 },
    FlushFails { at: u64 },
    FlushIsInterrupted { at: u64 },
}

fn happens(mishap: Mishap, turn: u64) -> Option<ErrorKind> {
    match mishap {
        Mishap::Fails { at } if at == turn => Some(ErrorKind::BrokenPipe),
        Mishap::IsInterrupted { at } if at == turn => Some(ErrorKind::Interrupted),
        _ => None,
    }
}

/// Gives its text in pieces of at most `size` bytes.
#[derive(Drop)]
struct Pieces<'a> {
    rest: &'a [u8],
    size: usize,
    mishap: Mishap,
    reads: u64,
}

impl Read for Pieces<'_> {
    fn read(&mut self, buf: &mut [u8]) -> io::Result<usize> {
        self.reads = self.reads.saturating_add(1);
        if let Some(kind) = happens(self.mishap, self.reads) {
            return Err(io::Error::from(kind));
        }
        let n = self.size.min(self.rest.len()).min(buf.len());
        buf[..n].copy_from_slice(&self.rest[..n]);
        self.rest = &self.rest[n..];
        Ok(n)
    }
}

/// Takes at most `size` bytes at a time, and knows how many it had at its last flush.
#[derive(Drop)]
struct Sink {
    held: Vec<u8>,
    size: usize,
    mishap: Mishap,
    writes: u64,
    flushes: u64,
    flushed: usize,
}

impl Sink {
    fn new(alloc: Global, size: usize, mishap: Mishap) -> Sink {
        Sink {
            held: Vec::new(alloc),
            size,
            mishap,
            writes: 0,
            flushes: 0,
            flushed: 0,
        }
    }
}

impl Write for Sink {
    fn write(&mut self, buf: &[u8]) -> io::Result<usize> {
        self.writes = self.writes.saturating_add(1);
        if let Some(kind) = happens(self.mishap, self.writes) {
            return Err(io::Error::from(kind));
        }
        let n = self.size.min(buf.len());
        match self.held.extend_from_slice(&buf[..n]) {
            Ok(()) => Ok(n),
            Err(_) => Err(io::Error::from(ErrorKind::OutOfMemory)),
        }
    }

    fn flush(&mut self) -> io::Result<()> {
        self.flushes = self.flushes.saturating_add(1);
        match self.mishap {
            Mishap::FlushFails { at } if at == self.flushes => {
                Err(io::Error::from(ErrorKind::BrokenPipe))
            }
            Mishap::FlushIsInterrupted { at } if at == self.flushes => {
                Err(io::Error::from(ErrorKind::Interrupted))
            }
            _ => {
                self.flushed = self.held.len();
                Ok(())
            }
        }
    }
}

/// Answers a line with itself, and is out of memory at a line that it is told.
#[derive(Drop)]
struct Echo {
    answered: u64,
    refused_at: u64,
}

impl Responder for Echo {
    ghost may_answer = { λ _ line reply _. reply ≡ line ++ 10 ∷ [] };

    fn answer(&mut self, line: &[u8], out: &mut Vec<u8>) -> Result<(), AllocError> {
        let answered = self.answered.saturating_add(1);
        if answered == self.refused_at {
            return Err(AllocError);
        }
        out.reserve(line.len() + 1)?;
        out.extend_from_slice(line)?;
        out.extend_from_slice(b"\n")?;
        self.answered = answered;
        Ok(())
    }
}

const NEVER: Echo = Echo {
    answered: 0,
    refused_at: 0,
};

/// Lines with their line feeds, none of them refused: so what is written is the input again.
const PLAIN: &[u8] = b"hello 1 1\n\nlease 1 1 1 m 8\nx\n";

/// A stream, how many bytes a read gives and a write takes at most, and what happens to them.
#[derive(Clone, Copy)]
struct Trial<'a> {
    input: &'a [u8],
    size: usize,
    reading: Mishap,
    writing: Mishap,
    taking: usize,
}

fn outcome(alloc: Global, trial: Trial<'_>) -> (Result<(), ServeFault>, Sink) {
    let mut reader = Watched::new(Pieces {
        rest: trial.input,
        size: trial.size,
        mishap: trial.reading,
        reads: 0,
    });
    let mut writer = Watched::new(Sink::new(alloc, trial.taking, trial.writing));
    let mut echo = NEVER;
    let mut lines = Intake::new();
    let result = serve(alloc, &mut lines, &mut reader, &mut writer, &mut echo);
    (result, writer.into_inner())
}

/// The writer after a trial, which ends so and leaves these bytes; `at` is told where it doesn't.
fn tried(
    rt: &impl Abort,
    alloc: Global,
    trial: Trial<'_>,
    wanted: Result<(), ServeFault>,
    held: &[u8],
    at: u64,
) -> Sink {
    let (result, sink) = outcome(alloc, trial);
    assert_eq!(rt; result, wanted, "at {at}");
    assert_eq!(rt; sink.held.as_slice(), held, "at {at}");
    sink
}

/// The first bytes of a text.
fn front<'a>(rt: &impl Abort, text: &'a [u8], len: usize) -> &'a [u8] {
    assert!(rt; len <= text.len());
    &text[..len]
}

/// The bytes of a text after the first.
fn rest<'a>(rt: &impl Abort, text: &'a [u8], len: usize) -> &'a [u8] {
    assert!(rt; len <= text.len());
    &text[len..]
}

/// Nothing happens to the stream; all that is written was flushed.
fn goes_well(
    rt: &impl Abort,
    alloc: Global,
    input: &[u8],
    size: usize,
    taking: usize,
    held: &[u8],
) -> Sink {
    let trial = Trial {
        input,
        size,
        reading: Mishap::None,
        writing: Mishap::None,
        taking,
    };
    let sink = tried(rt, alloc, trial, Ok(()), held, size as u64);
    assert_eq!(rt; sink.flushed, sink.held.len(), "in pieces of {size}");
    sink
}

#[test]
fn each_line_is_answered_however_it_comes_and_goes(rt: HostRuntime) -> Result<(), Fail> {
    let alloc = rt.alloc();
    let mut input = Vec::from_slice(alloc, b"a\n")?;
    input.extend_from_slice(&[b'b'; 300])?;
    input.extend_from_slice(b"\nc\nd")?;
    let expected = b"a\nerror toolong\nc\nerror badline\n";
    for size in 1..=input.len() {
        for taking in 1..=3 {
            let _ = goes_well(&rt, alloc, input.as_slice(), size, taking, expected);
        }
    }
    let sink = goes_well(&rt, alloc, b"", 1, 1, b"");
    assert_eq!(rt; sink.writes, 0);
    Ok(())
}

/// Reads a piece of a text, passes its first line where the piece holds one, and serves the rest. A
/// line is passed where a piece holds its `first` bytes, the line feed among them.
fn serve_on(rt: &impl Abort, alloc: Global, text: &[u8], size: usize, first: usize) {
    let mut reader = Watched::new(Pieces {
        rest: text,
        size,
        mishap: Mishap::None,
        reads: 0,
    });
    let mut lines = Intake::new();
    match lines.read_on(&mut reader) {
        Ok(true) => {}
        Ok(false) => panic!(rt; "the input ended before its first byte"),
        Err(_) => panic!(rt; "a reader that works failed"),
    }
    let mut passed = 0;
    if let Some(line) = lines.first_line() {
        assert_eq!(rt;
            line,
            front(rt, text, first.saturating_sub(1)),
            "in pieces of {size}"
        );
        lines.pass();
        passed = first;
    }
    let mut writer = Watched::new(Sink::new(alloc, 100, Mishap::None));
    let mut echo = NEVER;
    let result = serve(alloc, &mut lines, &mut reader, &mut writer, &mut echo);
    assert_eq!(rt; result, Ok(()), "in pieces of {size}");
    let held = writer.into_inner().held;
    assert_eq!(rt;
        held.as_slice(),
        rest(rt, text, passed),
        "in pieces of {size}"
    );
    assert_eq!(rt; passed == first, size >= first);
}

#[test]
fn what_was_read_and_not_passed_is_served_first(rt: HostRuntime) {
    for size in 1..=29 {
        serve_on(&rt, rt.alloc(), PLAIN, size, 10);
    }
}

#[test]
fn each_answer_is_flushed_before_the_next_read(rt: HostRuntime) {
    let text = b"a\nb\nc\n";
    let sink = goes_well(&rt, rt.alloc(), text, 2, 100, text);
    assert_eq!(rt; sink.flushes, 3);
    let sink = goes_well(&rt, rt.alloc(), text, 6, 100, text);
    assert_eq!(rt; sink.writes, 1);
}

/// The read after the first `read` bytes fails, and finds the first `whole` answered and flushed.
/// Interrupted, it is made again.
fn read_fails(rt: &impl Abort, alloc: Global, text: &[u8], read: usize, whole: usize) {
    let at = (read as u64).saturating_add(1);
    let trial = Trial {
        input: text,
        size: 1,
        reading: Mishap::Fails { at },
        writing: Mishap::None,
        taking: 100,
    };
    let answered = front(rt, text, whole);
    let sink = tried(rt, alloc, trial, Err(ServeFault::Read), answered, at);
    // What was flushed before a read is what was flushed when that read failed.
    assert_eq!(rt; sink.flushed, sink.held.len(), "after {read} bytes");
    let again = Trial {
        reading: Mishap::IsInterrupted { at },
        ..trial
    };
    let _ = tried(rt, alloc, again, Ok(()), text, at);
}

#[test]
fn a_read_that_fails_finds_each_answer_flushed(rt: HostRuntime) {
    // Lines end after these many bytes, and the next one after the second number.
    for (whole, next) in [(0, 10), (10, 11), (11, 27), (27, 29), (29, 30)] {
        for read in whole..next {
            read_fails(&rt, rt.alloc(), PLAIN, read, whole);
        }
    }
}

/// The write after the first bytes fails. Interrupted, it is made again.
fn write_fails(rt: &impl Abort, alloc: Global, text: &[u8], written: usize) {
    let at = (written as u64).saturating_add(1);
    let trial = Trial {
        input: text,
        size: 5,
        reading: Mishap::None,
        writing: Mishap::Fails { at },
        taking: 1,
    };
    let answered = front(rt, text, written);
    let sink = tried(rt, alloc, trial, Err(ServeFault::Write), answered, at);
    assert_eq!(rt; sink.writes, at);
    let again = Trial {
        writing: Mishap::IsInterrupted { at },
        ..trial
    };
    let _ = tried(rt, alloc, again, Ok(()), text, at);
}

#[test]
fn a_write_that_fails_ends_the_writing(rt: HostRuntime) {
    let alloc = rt.alloc();
    for written in 0..29 {
        write_fails(&rt, alloc, PLAIN, written);
    }
    let trial = Trial {
        input: PLAIN,
        size: 5,
        reading: Mishap::None,
        writing: Mishap::None,
        taking: 0,
    };
    let sink = tried(&rt, alloc, trial, Err(ServeFault::Write), b"", 0);
    assert_eq!(rt; sink.writes, 1);
}

/// Three lines, each read by itself, of which flush `at` comes to this.
fn flushes(
    rt: &impl Abort,
    alloc: Global,
    writing: Mishap,
    wanted: Result<(), ServeFault>,
    held: &[u8],
    at: u64,
) -> Sink {
    let trial = Trial {
        input: b"a\nb\nc\n",
        size: 2,
        reading: Mishap::None,
        writing,
        taking: 100,
    };
    tried(rt, alloc, trial, wanted, held, at)
}

#[test]
fn a_flush_that_fails_ends_the_serving(rt: HostRuntime) {
    let written: [(u64, &[u8]); 3] = [(1, b"a\n"), (2, b"a\nb\n"), (3, b"a\nb\nc\n")];
    for (at, held) in written {
        let mishap = Mishap::FlushFails { at };
        let sink = flushes(&rt, rt.alloc(), mishap, Err(ServeFault::Write), held, at);
        assert_eq!(rt; (sink.writes, sink.flushes), (at, at));
    }
}

#[test]
fn an_interrupted_flush_is_tried_again(rt: HostRuntime) {
    for at in 1..=3 {
        let mishap = Mishap::FlushIsInterrupted { at };
        let sink = flushes(&rt, rt.alloc(), mishap, Ok(()), b"a\nb\nc\n", at);
        // Three answers, each flushed before the next read, and one flush more.
        assert_eq!(rt; sink.flushes, 4, "at {at}");
        assert_eq!(rt; sink.flushed, sink.held.len(), "at {at}");
    }
}

#[test]
fn out_of_memory_leaves_the_answers_before_it(rt: HostRuntime) {
    let alloc = rt.alloc();
    let fronts: [&[u8]; 4] = [
        b"",
        b"hello 1 1\n",
        b"hello 1 1\n\n",
        b"hello 1 1\n\nlease 1 1 1 m 8\n",
    ];
    for (i, front) in fronts.iter().enumerate() {
        let mut reader = Watched::new(Pieces {
            rest: PLAIN,
            size: 7,
            mishap: Mishap::None,
            reads: 0,
        });
        let mut writer = Watched::new(Sink::new(alloc, 100, Mishap::None));
        let mut echo = Echo {
            answered: 0,
            refused_at: i as u64 + 1,
        };
        let mut lines = Intake::new();
        let result = serve(alloc, &mut lines, &mut reader, &mut writer, &mut echo);
        assert_eq!(rt; result, Err(ServeFault::Memory), "at line {i}");
        assert_eq!(rt; writer.has_failed(), false);
        assert_eq!(rt; writer.into_inner().held.as_slice(), *front, "at line {i}");
    }
}
