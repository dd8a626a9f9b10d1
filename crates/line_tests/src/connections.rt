//! Connections of a worker that welcomes each hello and releases whatever is asked, one after
//! another: what they leave, that a fault ends one connection alone, and that no peer waits for its
//! end while the worker tidies.
ghost use Rattle.std.specs.Prelude.{◌≡◌, ⊤, true};

use lease_proto::{ErrorWord, Line, Reply, Welcome};
use lease_server::{ServeFault, Watched};
use lease_watch::Word;
use std::alloc::Global;
use std::cell::Cell;
use std::io;
use std::io::{ErrorKind, Read, Write};
use std::process::Abort;
use std::test::Fail;
use tcp_connections::{ClientLines, Counter, Link, Worker, serve_connection, turn_away};

/// Counts what it is asked.
#[derive(Clone, Copy, Debug, PartialEq, Eq)]
struct Counted {
    replies: u64,
    tidies: u64,
}

impl Worker for Counted {
    type Tidied = ();

    ghost may_reply = { λ old _ _ new. new.tidies ≡ old.tidies };

    ghost may_tidy = { λ old new. new.replies ≡ old.replies };

    fn reply(&mut self, line: &Line) -> Reply {
        self.replies = self.replies.saturating_add(1);
        match line {
            Line::Hello(hello) => Reply::Welcome(Welcome {
                client: hello.client,
                incarnation: hello.incarnation,
                protocol: hello.protocol,
            }),
            Line::Request(id, _) => Reply::Released(*id),
        }
    }

    fn tidy(&mut self) {
        self.tidies = self.tidies.saturating_add(1);
    }
}

/// How many error lines were counted, and how many other words.
#[derive(Clone, Copy)]
struct Noted<'a> {
    errors: &'a Cell<u64>,
    others: &'a Cell<u64>,
}

impl Counter for Noted<'_> {
    ghost may_count = { λ _ _ _. ⊤ };

    fn count(&mut self, word: Word) {
        let count = match word {
            Word::Error => self.errors,
            _ => self.others,
        };
        count.set(count.get().saturating_add(1));
    }
}

/// A peer that is gone: nothing can be read of it, or written to it.
#[derive(Drop)]
struct Gone;

impl Read for Gone {
    fn read(&mut self, _buf: &mut [u8]) -> io::Result<usize> {
        Err(io::Error::from(ErrorKind::ConnectionReset))
    }
}

impl Write for Gone {
    fn write(&mut self, _buf: &[u8]) -> io::Result<usize> {
        Err(io::Error::from(ErrorKind::BrokenPipe))
    }

    fn flush(&mut self) -> io::Result<()> {
        Ok(())
    }
}

const LINES: &[u8] =
    b"hello 1 1\nlease 1 1 1 m 8\nrelease 1 1 2 m 0\naudit\nhello 1  1\nhello 1 1 2\n\nhello 2 1";

const ANSWERS: &[u8] = b"welcome 1 1\nreleased 1 1 1\nreleased 1 1 2\nerror word\nerror badline\n\
welcome 1 1 2\nerror badline\nerror badline\n";

/// The end of a connection: whether its peer was told.
#[derive(Drop)]
struct Told {
    is_told: bool,
}

impl Told {
    fn new() -> Told {
        Told { is_told: false }
    }
}

impl Link for Told {
    ghost is_ended = { λ t. t.is_told ≡ true };

    fn end(&mut self) {
        self.is_told = true;
    }
}

/// A connection on which these lines come and all that is written arrives.
fn talks(
    rt: &impl Abort,
    alloc: Global,
    lines: &mut ClientLines<Counted, Noted<'_>>,
    input: &[u8],
) {
    let mut reader = Watched::new(input);
    let mut writer = Watched::new(Vec::new(alloc));
    let mut link = Told::new();
    let served = serve_connection(alloc, &mut reader, &mut writer, &mut link, lines);
    assert_eq!(rt; served, Ok(()));
    assert!(rt; link.is_told);
    assert_eq!(rt; writer.into_inner().as_slice(), ANSWERS);
}

/// A connection whose peer is gone before a line comes.
fn is_silent(rt: &impl Abort, alloc: Global, lines: &mut ClientLines<Counted, Noted<'_>>) {
    let mut reader = Watched::new(Gone);
    let mut writer = Watched::new(Vec::new(alloc));
    let mut link = Told::new();
    let served = serve_connection(alloc, &mut reader, &mut writer, &mut link, lines);
    assert_eq!(rt; served, Err(ServeFault::Read));
    assert!(rt; link.is_told);
    assert!(rt; writer.into_inner().is_empty());
}

/// A connection whose peer is gone before it is answered.
fn is_deaf(
    rt: &impl Abort,
    alloc: Global,
    lines: &mut ClientLines<Counted, Noted<'_>>,
    input: &[u8],
) {
    let mut reader = Watched::new(input);
    let mut writer = Watched::new(Gone);
    let mut link = Told::new();
    let served = serve_connection(alloc, &mut reader, &mut writer, &mut link, lines);
    assert_eq!(rt; served, Err(ServeFault::Write));
    assert!(rt; link.is_told);
}

#[test]
fn a_fault_ends_its_connection_alone(rt: HostRuntime) -> Result<(), Fail> {
    let alloc = rt.alloc();
    let (errors, others) = (Cell::new(0), Cell::new(0));
    let noted = Noted {
        errors: &errors,
        others: &others,
    };
    let worker = Counted {
        replies: 0,
        tidies: 0,
    };
    let mut lines = ClientLines::new(worker, noted);
    talks(&rt, alloc, &mut lines, LINES);
    is_silent(&rt, alloc, &mut lines);
    is_deaf(&rt, alloc, &mut lines, LINES);
    talks(&rt, alloc, &mut lines, LINES);
    let wanted = Counted {
        replies: 12,
        tidies: 4,
    };
    assert_eq!(rt; lines.into_worker(), wanted);
    assert_eq!(rt; errors.get(), 9);
    assert_eq!(rt; others.get(), 24);
    Ok(())
}

/// The end of a connection, which its worker sees too.
#[derive(Drop)]
struct Seen<'a>(&'a Cell<bool>);

impl Link for Seen<'_> {
    ghost is_ended = { λ _. ⊤ };

    fn end(&mut self) {
        self.0.set(true);
    }
}

/// Answers nothing, and notes whether the peer knew of the end when it tidied.
#[derive(Drop)]
struct Late<'a> {
    end: &'a Cell<bool>,
    was_told: bool,
}

impl Worker for Late<'_> {
    type Tidied = ();

    ghost may_reply = { λ _ _ _ _. ⊤ };

    ghost may_tidy = { λ _ _. ⊤ };

    fn reply(&mut self, _line: &Line) -> Reply {
        Reply::Error(ErrorWord::NoArena)
    }

    fn tidy(&mut self) {
        self.was_told = self.end.get();
    }
}

#[test]
fn a_peer_is_told_the_end_before_its_worker_tidies(rt: HostRuntime) {
    let alloc = rt.alloc();
    let end = Cell::new(false);
    let count = Cell::new(0);
    let noted = Noted {
        errors: &count,
        others: &count,
    };
    let worker = Late {
        end: &end,
        was_told: false,
    };
    let mut lines = ClientLines::new(worker, noted);
    let mut reader = Watched::new(&b""[..]);
    let mut writer = Watched::new(Vec::new(alloc));
    let served = serve_connection(alloc, &mut reader, &mut writer, &mut Seen(&end), &mut lines);
    assert_eq!(rt; served, Ok(()));
    assert!(rt; lines.into_worker().was_told);
}

#[test]
fn a_peer_too_many_is_told_so(rt: HostRuntime) {
    let mut writer = Watched::new(Vec::new(rt.alloc()));
    let mut link = Told::new();
    assert_eq!(rt; turn_away(&mut writer, &mut link), Ok(()));
    assert!(rt; link.is_told);
    assert_eq!(rt; writer.into_inner().as_slice(), b"error busy\n".as_slice());
    let mut link = Told::new();
    let told = turn_away(&mut Watched::new(Gone), &mut link);
    assert_eq!(rt; told, Err(ServeFault::Write));
    assert!(rt; link.is_told);
}
