//! What is told on standard error where a server ends or doesn't begin, whole, with the status.

use super::{Mishap, Pieces};
use crate::retrying::{Rest, put_back, tell_stuck};
use crate::signals::Signals;
use crate::stopping::{Stuck, tell_missed};
use lease_server::Watched;
use locked_parts::PartName;
use std::alloc::{AllocGlobal, Global};
use std::cell::{Cell, RefCell};
use std::fmt::Display;
use std::io;
use std::io::ErrorKind;
use std::process::{Abort, ExitCode};
use std::test::Fail;
use vmemd_setup::{
    GivenWords, RunFault, ScriptFault, ServeWords, WordsFault, end_run, end_script, end_words,
    read_config, read_words,
};

/// Keeps what is told on standard error.
struct Told {
    alloc: Global,
    text: RefCell<Vec<u8>>,
}

impl Told {
    fn new(alloc: Global) -> Told {
        Told {
            alloc,
            text: RefCell::new(Vec::new(alloc)),
        }
    }

    fn into_text(self) -> Vec<u8> {
        let Told { alloc: _, text } = self;
        text.into_inner()
    }

    fn keep<D: Display>(&self, value: &D, end: &str) -> io::Result<()> {
        let (Ok(shown), Ok(mut text)) = (
            format!(in self.alloc; "{value}{end}"),
            self.text.try_borrow_mut(),
        ) else {
            return Err(io::Error::from(ErrorKind::OutOfMemory));
        };
        match text.extend_from_slice(shown.as_bytes()) {
            Ok(()) => Ok(()),
            Err(_) => Err(io::Error::from(ErrorKind::OutOfMemory)),
        }
    }
}

impl Eprint for Told {
    fn eprint<D: Display + Drop>(&self, value: D) -> io::Result<()> {
        self.keep(&value, "")
    }

    fn eprintln<D: Display + Drop>(&self, value: D) -> io::Result<()> {
        self.keep(&value, "\n")
    }
}

/// How a server ends, what is told of it then, and the status. `Shut` was told when it was found.
const ENDS: [(Result<(), RunFault>, &str, u8); 6] = [
    (Ok(()), "", 0),
    (Err(RunFault::Read), "vmemd: read\n", 1),
    (Err(RunFault::Write), "vmemd: write\n", 1),
    (Err(RunFault::Listen), "vmemd: listen\n", 1),
    (Err(RunFault::Memory), "vmemd: memory\n", 1),
    (Err(RunFault::Shut), "", 1),
];

#[test]
fn ends_of_servers(rt: HostRuntime) {
    for (ended, text, status) in &ENDS {
        let told = Told::new(rt.alloc());
        let code = end_run(&told, *ended);
        assert_eq!(rt; told.into_text().as_slice(), text.as_bytes());
        assert_eq!(rt; code, ExitCode::from(*status));
    }
}

#[test]
fn stuck_is_told_once(rt: HostRuntime) {
    let told = Told::new(rt.alloc());
    let signals = Signals::new();
    assert!(rt; !signals.is_stuck());
    for _ in 0..3 {
        tell_stuck(&mut Stuck {
            rt: &told,
            signals: &signals,
        });
        assert!(rt; signals.is_stuck());
    }
    assert_eq!(rt; told.into_text().as_slice(), b"vmemd: shut\n".as_slice());
}

/// What is left for so many tries more, and how often it was waited.
struct Left<'a> {
    tries: u32,
    pauses: &'a Cell<u32>,
}

impl Rest for Left<'_> {
    ghost use Rattle.std.specs.Prelude.{⊤};

    type Done = ();

    ghost may_end = { λ _ _. ⊤ };

    fn pause(&self) {
        self.pauses.set(self.pauses.get().saturating_add(1));
    }

    fn again(self) -> Result<(), Self> {
        let Left { tries, pauses } = self;
        match tries.checked_sub(1) {
            Some(tries) => Err(Left { tries, pauses }),
            None => Ok(()),
        }
    }
}

/// A server that is stuck at its end tells it once, and goes on until nothing is left.
#[test]
fn stuck_until_nothing_is_left(rt: HostRuntime) {
    let told = Told::new(rt.alloc());
    let signals = Signals::new();
    let pauses = Cell::new(0);
    let left = Left {
        tries: 2,
        pauses: &pauses,
    };
    let mut stuck = Stuck {
        rt: &told,
        signals: &signals,
    };
    put_back(&rt, Err(left), &mut stuck);
    assert_eq!(rt; pauses.get(), 3);
    assert!(rt; signals.is_stuck());
    assert_eq!(rt; told.into_text().as_slice(), b"vmemd: shut\n".as_slice());
}

/// What is told of the first part that isn't found, and of it alone.
#[test]
fn misplaced_parts(rt: HostRuntime) {
    let told = Told::new(rt.alloc());
    let signals = Signals::new();
    for part in [
        PartName::Slabs(3, 2),
        PartName::Arena(3),
        PartName::Depot(0, 1),
    ] {
        tell_missed(&told, &signals, part);
    }
    let text = b"vmemd: the slabs of cache 2 of arena number 3\n";
    assert_eq!(rt; told.into_text().as_slice(), text.as_slice());
}

/// CONFIGs that are refused, and what is told of them.
const CONFIGS: [(&[u8], &str); 6] = [
    (
        b"root m 0 8 1 best 0\nspan m 4 8\n",
        "vmemd: line 2: range\n",
    ),
    (b"root m 0 8 1 best 0", "vmemd: line 1: badline\n"),
    (b"root m 0 8 1 best 0\n\n", "vmemd: line 2: badline\n"),
    (b"root m 0 8 1 best 0\naudit\n", "vmemd: line 2: word\n"),
    (
        b"root m 0 8 1 best 0\nchild c m 1 best x 0\n",
        "vmemd: line 2: number\n",
    ),
    (
        b"root m 0 8 1 best 0\nchild c m 1 best 0 0\nroot c 0 8 1 best 0\n",
        "vmemd: line 3: name\n",
    ),
];

#[test]
fn refused_configs(rt: HostRuntime) -> Result<(), Fail> {
    for (config, text) in &CONFIGS {
        for size in [4096, 1] {
            let Err(fault) = read(rt.alloc(), config, size, Mishap::None) else {
                return Err(Fail::from("a refused line was taken"));
            };
            let told = Told::new(rt.alloc());
            let code = end_script(&told, Err(fault));
            assert_eq!(rt; told.into_text().as_slice(), text.as_bytes());
            assert_eq!(rt; code, ExitCode::from(2));
        }
    }
    Ok(())
}

#[test]
fn each_read_of_a_config_failing(rt: HostRuntime) {
    let config = b"root m 0 8 1 best 0\n";
    for at in 1..=21 {
        let fails = read(rt.alloc(), config, 1, Mishap::Fails { at });
        assert_eq!(rt; fails, Err(ScriptFault::Read), "at {at}");
        let goes_on = read(rt.alloc(), config, 1, Mishap::IsInterrupted { at });
        assert_eq!(rt; goes_on, Ok(1), "at {at}");
    }
}

/// How many arenas a CONFIG makes that comes in pieces of at most `size` bytes.
fn read(alloc: Global, config: &[u8], size: usize, mishap: Mishap) -> Result<usize, ScriptFault> {
    let mut reader = Watched::new(Pieces {
        rest: config,
        size,
        mishap,
        reads: 0,
    });
    let setup = read_config(alloc, &mut reader)?;
    Ok(setup.tree().len())
}

#[test]
fn words_that_could_not_be_read(rt: HostRuntime) {
    for (fault, text, status) in [
        (WordsFault::NotText, "vmemd: an argument isn't text\n", 2),
        (WordsFault::Memory, "vmemd: memory\n", 1),
    ] {
        let told = Told::new(rt.alloc());
        let code = end_words(&told, &mut Watched::new(Vec::new(rt.alloc())), &fault);
        assert_eq!(rt; told.into_text().as_slice(), text.as_bytes());
        assert_eq!(rt; code, ExitCode::from(status));
    }
}

/// Words after `serve x y 64`, and what they ask for: the limits of a line and of silence, the
/// grace, the connections, and where the server is watched.
const OPTIONS: [(&[&str], u32, u32, Option<u32>, Option<u32>, Option<&str>); 6] = [
    (&[], 10, 600, None, None, None),
    (&["--line-limit", "1"], 1, 600, None, None, None),
    (
        &["--idle-limit=86400", "--grace", "86400"],
        10,
        86_400,
        Some(86_400),
        None,
        None,
    ),
    (
        &["--grace=1", "--idle-limit", "5", "--line-limit", "86400"],
        86_400,
        5,
        Some(1),
        None,
        None,
    ),
    (
        &["--connections", "4096", "--grace=2"],
        10,
        600,
        Some(2),
        Some(4096),
        None,
    ),
    (&["--metrics", "z:1"], 10, 600, None, None, Some("z:1")),
];

#[test]
fn words_of_a_server(rt: HostRuntime) -> Result<(), Fail> {
    let alloc = rt.alloc();
    for (options, line_limit, idle_limit, grace, connections, metrics) in &OPTIONS {
        let mut words = Vec::from_slice(alloc, &["vmemd", "serve", "x", "y", "64"])?;
        words.extend_from_slice(options)?;
        let Ok(words) = read_words(alloc, words.as_slice()) else {
            return Err(Fail::from("`serve` was not taken"));
        };
        let wanted = ServeWords {
            address: "x",
            config: "y",
            workers: 64,
            line_limit: *line_limit,
            idle_limit: *idle_limit,
            grace: *grace,
            connections: *connections,
            metrics: *metrics,
        };
        assert_eq!(rt; words, GivenWords::Serve(wanted));
    }
    for workers in ["0", "65", "-1", "x", ""] {
        let words = ["vmemd", "serve", "x", "y", workers];
        is_mistaken(&rt, &words)?;
    }
    for option in ["--line-limit", "--idle-limit", "--grace"] {
        for seconds in ["0", "86401", "-1", "x", "", "1.5"] {
            let words = ["vmemd", "serve", "x", "y", "1", option, seconds];
            is_mistaken(&rt, &words)?;
        }
    }
    for connections in ["0", "4097", "-1", "x", ""] {
        let words = [
            "vmemd",
            "serve",
            "x",
            "y",
            "1",
            "--connections",
            connections,
        ];
        is_mistaken(&rt, &words)?;
    }
    Ok(())
}

/// These words are refused: something is told, and the status is 2.
fn is_mistaken(rt: &(impl Abort + AllocGlobal), words: &[&str]) -> Result<(), Fail> {
    let Err(fault) = read_words(rt.alloc(), words) else {
        return Err(Fail::from("other words were taken"));
    };
    let told = Told::new(rt.alloc());
    let code = end_words(&told, &mut Watched::new(Vec::new(rt.alloc())), &fault);
    assert!(rt; !told.into_text().is_empty());
    assert_eq!(rt; code, ExitCode::from(2));
    Ok(())
}
