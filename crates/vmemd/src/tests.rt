//! Whole scripts, with what they have to write; scripts that come a byte at a time or are cut
//! short, and streams that fail.

mod operating;
mod serving;
mod tables;
mod telling;

use self::tables::{ASKED, MISTAKEN, REFUSED, ROWS};
use crate::inputs::PatientReader;
use crate::scripts::run_script;
use arena_tree::{LONGEST_CHAIN, MOST_ARENAS, MOST_CACHES, MOST_SPANS};
use lease_book::MOST_LEASES;
use lease_proto::{LAST_CPU, LONGEST_LINE, LineFault};
use lease_server::Watched;
use lease_terms::{LARGEST, LAST_CLIENT, LONGEST_NAME};
use std::alloc::{AllocError, Global};
use std::io;
use std::io::{ErrorKind, Read, Write};
use std::test::Fail;
use vmemd_setup::{
    ConfigFault, GivenWords, IDLE_LIMIT, LINE_LIMIT, MOST_CONNECTIONS, MOST_SECONDS, MOST_WORKERS,
    ScriptFault, WordsFault, read_words,
};

/// What a call of a reader or a writer does at its turn `at`, counted from 1.
#[derive(Clone, Copy)]
enum Mishap {
    None,
    Fails { at: u64 },
    IsInterrupted { at: u64 },
    IsEmpty { at: u64 },
}

fn happens(mishap: Mishap, turn: u64) -> Option<ErrorKind> {
    match mishap {
        Mishap::Fails { at } if at == turn => Some(ErrorKind::BrokenPipe),
        Mishap::IsInterrupted { at } if at == turn => Some(ErrorKind::Interrupted),
        Mishap::IsEmpty { at } if at == turn => Some(ErrorKind::WouldBlock),
        _ => None,
    }
}

/// Gives its text in pieces of at most `size` bytes.
#[derive(Drop)]
struct Pieces<'a> {
    rest: &'a [u8],
    size: usize,
    mishap: Mishap,
    reads: u64,
}

impl Read for Pieces<'_> {
    fn read(&mut self, buf: &mut [u8]) -> io::Result<usize> {
        self.reads = self.reads.saturating_add(1);
        if let Some(kind) = happens(self.mishap, self.reads) {
            return Err(io::Error::from(kind));
        }
        let n = self.size.min(self.rest.len()).min(buf.len());
        buf[..n].copy_from_slice(&self.rest[..n]);
        self.rest = &self.rest[n..];
        Ok(n)
    }
}

/// Takes at most `size` bytes at a time.
#[derive(Drop)]
struct Sink {
    held: Vec<u8>,
    size: usize,
    mishap: Mishap,
    writes: u64,
}

impl Write for Sink {
    fn write(&mut self, buf: &[u8]) -> io::Result<usize> {
        self.writes = self.writes.saturating_add(1);
        if let Some(kind) = happens(self.mishap, self.writes) {
            return Err(io::Error::from(kind));
        }
        let n = self.size.min(buf.len());
        match self.held.extend_from_slice(&buf[..n]) {
            Ok(()) => Ok(n),
            Err(_) => Err(io::Error::from(ErrorKind::OutOfMemory)),
        }
    }

    fn flush(&mut self) -> io::Result<()> {
        Ok(())
    }
}

/// Runs a script that comes in pieces of at most `size` bytes, and gives what it writes.
fn run(
    alloc: Global,
    input: &[u8],
    size: usize,
    reading: Mishap,
    writing: Mishap,
) -> (Result<(), ScriptFault>, Vec<u8>) {
    let mut reader = Watched::new(Pieces {
        rest: input,
        size,
        mishap: reading,
        reads: 0,
    });
    let mut sink = Watched::new(Sink {
        held: Vec::new(alloc),
        size: match writing {
            Mishap::None => usize::MAX,
            _ => 1,
        },
        mishap: writing,
        writes: 0,
    });
    let ran = run_script(alloc, &mut reader, &mut sink);
    (ran, sink.into_inner().held)
}

#[test]
fn rows(rt: HostRuntime) {
    for row in &ROWS {
        for size in [4096, 7] {
            let (ran, output) = run(rt.alloc(), row.input, size, Mishap::None, Mishap::None);
            assert_eq!(rt; ran, Ok(()), "{}", row.shows);
            assert_eq!(rt; output.as_slice(), row.output, "{}", row.shows);
        }
    }
}

#[test]
fn hostile_lines(rt: HostRuntime) -> Result<(), Fail> {
    let alloc = rt.alloc();
    let long = [b'a'; 256];
    let mut input = Vec::from_slice(alloc, b"root m 0 64 1 best 0\n")?;
    input.extend_from_slice(&long)?;
    input.extend_from_slice(b"\n")?;
    input.extend_from_slice(&long[1..])?;
    input.extend_from_slice(
        b"\nhello 0 1\nhello 65537 1\nhello 1 18446744073709551617\n\
          lease 1 1 1 m x align\nhello 1 1\n",
    )?;
    input.extend_from_slice(
        b"lease 1 1 1 m 4 phase 0 align 0\nlease 1 1 1 m 4 align 0 phase 0\nhello 1 1\r\n",
    )?;
    input.extend_from_slice(&long)?;
    let expected = b"error toolong\nerror word\n\
        error number\nerror number\nerror number\nerror badline\n\
        welcome 1 1\nerror badline\ngranted 1 1 1 m 0 4\nerror badline\nerror toolong\n";
    for size in [4096, 1] {
        let (ran, output) = run(alloc, input.as_slice(), size, Mishap::None, Mishap::None);
        assert_eq!(rt; ran, Ok(()));
        assert_eq!(rt; output.as_slice(), expected.as_slice());
    }
    Ok(())
}

#[test]
fn a_client_has_so_many_leases(rt: HostRuntime) -> Result<(), Fail> {
    let alloc = rt.alloc();
    let mut input = Vec::from_slice(alloc, b"root m 0 2048 1 best 0\nhello 1 1\n")?;
    let mut expected = Vec::from_slice(alloc, b"welcome 1 1\n")?;
    for number in 1..=MOST_LEASES as u64 {
        let base = number - 1;
        let line = format!(in alloc; "lease 1 1 {number} m 1\n")?;
        input.extend_from_slice(line.as_bytes())?;
        let reply = format!(in alloc; "granted 1 1 {number} m {base} 1\n")?;
        expected.extend_from_slice(reply.as_bytes())?;
    }
    input.extend_from_slice(b"lease 1 1 1025 m 1\nlease 1 1 1025 m 1\nclients\naudit\n")?;
    expected.extend_from_slice(
        b"refused 1 1 1025 leases\nrefused 1 1 1025 leases\nclient 1 1 1025 1024\n",
    )?;
    expected.extend_from_slice(
        b"arena m free 1024 slab 0 magazine 0 exported 0 leased 1024 hand 0\n",
    )?;
    // (each read fills the intake, but for the last)
    let (ran, output) = run(
        alloc,
        input.as_slice(),
        usize::MAX,
        Mishap::None,
        Mishap::None,
    );
    assert_eq!(rt; ran, Ok(()));
    assert_eq!(rt; output.as_slice(), expected.as_slice());
    Ok(())
}

#[test]
fn refused_setups(rt: HostRuntime) -> Result<(), Fail> {
    let alloc = rt.alloc();
    for (input, line, word) in &REFUSED {
        for size in [4096, 1] {
            let (ran, output) = run(alloc, input, size, Mishap::None, Mishap::None);
            let Err(fault) = ran else {
                return Err(Fail::from("a refused line was taken"));
            };
            let text = format!(in alloc; "{fault}")?;
            let expected = format!(in alloc; "line {line}: {word}")?;
            assert_eq!(rt; text.as_str(), expected.as_str());
            assert_eq!(rt; fault.exit(), 2);
            assert_eq!(rt; output.len(), 0);
        }
    }
    Ok(())
}

#[test]
fn a_setup_line_may_be_so_long(rt: HostRuntime) -> Result<(), Fail> {
    let alloc = rt.alloc();
    let mut input = Vec::from_slice(alloc, b"root ")?;
    input.extend_from_slice(&[b'a'; 250])?;
    let (ran, _output) = run(alloc, input.as_slice(), 9, Mishap::None, Mishap::None);
    let bad = ConfigFault::Line(LineFault::BadLine);
    assert_eq!(rt; ran, Err(ScriptFault::Setup { line: 1, word: bad }));
    input.extend_from_slice(b"a")?;
    let (ran, _output) = run(alloc, input.as_slice(), 9, Mishap::None, Mishap::None);
    let long = ConfigFault::Line(LineFault::TooLong);
    assert_eq!(rt;
        ran,
        Err(ScriptFault::Setup {
            line: 1,
            word: long
        })
    );
    Ok(())
}

/// A setup line of 300 bytes comes in pieces of eight, so that the 32nd read brings its 256th byte.
/// It is refused then, and a read behind that, which would fail, isn't made.
#[test]
fn a_long_setup_line_ends_before_a_later_fault(rt: HostRuntime) {
    let mut input = [b'a'; 300];
    input[..5].copy_from_slice(b"root ");
    let word = ConfigFault::Line(LineFault::TooLong);
    let long = ScriptFault::Setup { line: 1, word };
    for at in 1..=40 {
        let (ran, output) = run(rt.alloc(), &input, 8, Mishap::Fails { at }, Mishap::None);
        let wanted = if at <= 32 { ScriptFault::Read } else { long };
        assert_eq!(rt; ran, Err(wanted), "at {at}");
        assert_eq!(rt; output.len(), 0, "at {at}");
    }
}

/// So many lines that each make an arena.
fn arenas(alloc: Global, count: u64) -> Result<Vec<u8>, AllocError> {
    let mut input = Vec::new(alloc);
    for k in 0..count {
        let line = format!(in alloc; "root a{k} 0 8 1 best 0\n")?;
        input.extend_from_slice(line.as_bytes())?;
    }
    Ok(input)
}

#[test]
fn so_many_arenas(rt: HostRuntime) -> Result<(), Fail> {
    let alloc = rt.alloc();
    let most = arenas(alloc, 32)?;
    let (ran, _output) = run(alloc, most.as_slice(), 4096, Mishap::None, Mishap::None);
    assert_eq!(rt; ran, Ok(()));
    let more = arenas(alloc, 33)?;
    let (ran, _output) = run(alloc, more.as_slice(), 4096, Mishap::None, Mishap::None);
    let word = ConfigFault::TooMany;
    assert_eq!(rt; ran, Err(ScriptFault::Setup { line: 33, word }));
    Ok(())
}

/// A script, with the ends of its lines after the setup and of their answers.
const SCRIPT: &[u8] = b"root m 0 64 1 best 0\nhello 1 1\nlease 1 1 1 m 8\nrelease 1 1 2 m 0\n";

const ANSWERS: &[u8] = b"welcome 1 1\ngranted 1 1 1 m 0 8\nreleased 1 1 2\n";

const SETUP_END: usize = 21;

const ENDS: [(usize, usize); 3] = [(31, 12), (47, 32), (65, 47)];

/// The answers to the whole lines among the first bytes of the script.
fn answers_to(read: usize) -> &'static [u8] {
    let mut end = 0;
    for (line, answer) in ENDS {
        if line <= read {
            end = answer;
        }
    }
    &ANSWERS[..end.min(ANSWERS.len())]
}

#[test]
fn cut_lines(rt: HostRuntime) {
    let (ran, output) = run(rt.alloc(), SCRIPT, 1, Mishap::None, Mishap::None);
    assert_eq!(rt; ran, Ok(()));
    assert_eq!(rt; output.as_slice(), ANSWERS);
}

#[test]
fn cut_at(rt: HostRuntime) -> Result<(), Fail> {
    let alloc = rt.alloc();
    for end in 0..=SCRIPT.len() {
        let (ran, output) = run(alloc, &SCRIPT[..end], 4096, Mishap::None, Mishap::None);
        if 4 <= end && end < SETUP_END {
            let word = ConfigFault::Line(LineFault::BadLine);
            assert_eq!(rt;
                ran,
                Err(ScriptFault::Setup { line: 1, word }),
                "after {end}"
            );
            assert_eq!(rt; output.len(), 0, "after {end}");
            continue;
        }
        let mut expected = Vec::from_slice(alloc, answers_to(end))?;
        let whole = end == 0 || end == SETUP_END || ENDS.iter().any(|e| e.0 == end);
        if !whole {
            expected.extend_from_slice(b"error badline\n")?;
        }
        assert_eq!(rt; ran, Ok(()), "after {end}");
        assert_eq!(rt; output.as_slice(), expected.as_slice(), "after {end}");
    }
    Ok(())
}

#[test]
fn each_read_failing(rt: HostRuntime) {
    let alloc = rt.alloc();
    for read in 0..=SCRIPT.len() {
        let at = read as u64 + 1;
        let (ran, output) = run(alloc, SCRIPT, 1, Mishap::Fails { at }, Mishap::None);
        assert_eq!(rt; ran, Err(ScriptFault::Read), "after {read}");
        assert_eq!(rt; output.as_slice(), answers_to(read), "after {read}");
        let (ran, output) = run(alloc, SCRIPT, 1, Mishap::IsInterrupted { at }, Mishap::None);
        assert_eq!(rt; ran, Ok(()), "after {read}");
        assert_eq!(rt; output.as_slice(), ANSWERS, "after {read}");
    }
}

#[test]
fn an_input_that_is_empty_for_a_while(rt: HostRuntime) -> Result<(), Fail> {
    for (mishap, is_read) in [
        (Mishap::None, true),
        (Mishap::IsEmpty { at: 1 }, true),
        (Mishap::IsEmpty { at: 3 }, true),
        (Mishap::Fails { at: 3 }, false),
    ] {
        let input = Pieces {
            rest: SCRIPT,
            size: 30,
            mishap,
            reads: 0,
        };
        let mut patient = PatientReader::new(&rt, input);
        let mut read = Vec::new(rt.alloc());
        let all = patient.read_to_end(&mut read);
        assert_eq!(rt; all.is_ok(), is_read);
        assert_eq!(rt; read.as_slice() == SCRIPT, is_read);
    }
    Ok(())
}

#[test]
fn each_write_failing(rt: HostRuntime) {
    let alloc = rt.alloc();
    for written in 0..ANSWERS.len() {
        let at = written as u64 + 1;
        let (ran, output) = run(alloc, SCRIPT, 4096, Mishap::None, Mishap::Fails { at });
        assert_eq!(rt; ran, Err(ScriptFault::Write), "after {written}");
        assert_eq!(rt; output.as_slice(), &ANSWERS[..written], "after {written}");
    }
}

#[test]
fn statuses(rt: HostRuntime) -> Result<(), Fail> {
    let alloc = rt.alloc();
    for (fault, text) in [
        (ScriptFault::Read, "read"),
        (ScriptFault::Write, "write"),
        (ScriptFault::Memory, "memory"),
    ] {
        let shown = format!(in alloc; "{fault}")?;
        assert_eq!(rt; shown.as_str(), text);
        assert_eq!(rt; fault.exit(), 1);
    }
    Ok(())
}

#[test]
fn command_line(rt: HostRuntime) -> Result<(), Fail> {
    let alloc = rt.alloc();
    match read_words(alloc, &["vmemd", "script"]) {
        Ok(words) => assert_eq!(rt; words, GivenWords::Script),
        Err(_fault) => return Err(Fail::from("`script` was not taken")),
    }
    for (words, text) in &ASKED {
        match read_words(alloc, words) {
            Err(WordsFault::Asked(shown)) => assert_eq!(rt; shown.as_str(), *text),
            _other => return Err(Fail::from("a text that was asked for was not told")),
        }
    }
    for (words, text) in &MISTAKEN {
        match read_words(alloc, words) {
            Err(WordsFault::Mistaken(shown)) => assert_eq!(rt; shown.as_str(), *text),
            _other => return Err(Fail::from("a mistake was not told")),
        }
    }
    Ok(())
}

/// The text that these words ask for.
fn help_of(alloc: Global, words: &[&str]) -> Result<String, Fail> {
    match read_words(alloc, words) {
        Err(WordsFault::Asked(help)) => Ok(help),
        _other => Err(Fail::from("the help was not told")),
    }
}

#[test]
fn the_help_tells_the_limits(rt: HostRuntime) -> Result<(), Fail> {
    let alloc = rt.alloc();
    assert_eq!(rt; LARGEST, 1 << 62);
    let help = help_of(alloc, &["vmemd", "script", "--help"])?;
    for limit in [
        format!(in alloc; "at most {LONGEST_LINE} bytes")?,
        format!(in alloc; "there are more than {LONGEST_LINE} bytes")?,
        format!(in alloc; "leading zero, from 0 to 2^62.")?,
        format!(in alloc; "at most {LONGEST_NAME} characters")?,
        format!(in alloc; "at most {MOST_CACHES} of it")?,
        format!(in alloc; "Clients C are 1 to {LAST_CLIENT}; I and N are 1 to 2^62:")?,
        format!(in alloc; "the client has {MOST_LEASES} leases")?,
        format!(in alloc; "CPU N, from 0 to {LAST_CPU},")?,
        format!(in alloc;
            "be the {}rd arena, or the {}th span",
            MOST_ARENAS + 1,
            MOST_SPANS + 1
        )?,
        format!(in alloc; "where it would be the {}th\n", MOST_SPANS + 1)?,
        format!(in alloc; "be more than {LONGEST_CHAIN} arenas")?,
    ] {
        assert!(rt; help.contains(limit.as_str()), "{limit}");
    }
    Ok(())
}

#[test]
fn the_help_of_a_server_tells_its_limits(rt: HostRuntime) -> Result<(), Fail> {
    let alloc = rt.alloc();
    let help = help_of(alloc, &["vmemd", "serve", "--help"])?;
    for limit in [
        format!(in alloc; "WORKERS, 1 to {MOST_WORKERS},")?,
        format!(in alloc; "connections are served at a time, 1 to {MOST_WORKERS}\n")?,
        format!(in alloc; "at a time, 1 to {MOST_CONNECTIONS}, each by a\nthread")?,
        format!(in alloc; "SECONDS are 1\nto {MOST_SECONDS}.")?,
        format!(in alloc; "taking an answer may take ({LINE_LIMIT} without it)\n")?,
        format!(in alloc; "silent between lines ({IDLE_LIMIT} without it)\n")?,
    ] {
        assert!(rt; help.contains(limit.as_str()), "{limit}");
    }
    Ok(())
}
