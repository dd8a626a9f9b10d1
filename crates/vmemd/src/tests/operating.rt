//! Lines of an operator, answered by roots that keep what they were asked for.

use super::{Mishap, Pieces, Sink};
use crate::operators::{Grower, answer_operator};
use arena_tree::Tree;
use deed_core::Range;
use lease_proto::ErrorWord;
use lease_server::{Intake, ServeFault, Teller, Watched, tell};
use std::alloc::Global;
use std::process::Abort;
use vmemd_setup::read_config;

/// A root and a child, by which none is to grow.
const CONFIG: &[u8] = b"root m 0 8 1 best 0\nchild c m 1 best 0 0\n";

/// How the roots answer, one after another.
const ANSWERS: [Result<(), ErrorWord>; 6] = [
    Ok(()),
    Err(ErrorWord::Range),
    Err(ErrorWord::Misplaced),
    Err(ErrorWord::Many),
    Err(ErrorWord::Memory),
    Ok(()),
];

/// Lines, the answers to them, and the bases of the ranges that roots are asked for by them.
const LINES: &[u8] = b"grow m 8 1\n\
    grow m 9 2\n\
    grow m 10 3\n\
    grow m 11 4\n\
    grow m 12 4611686018427387892\n\
    grow z 8 8\n\
    grow c 8 8\n\
    grow c 8 0\n\
    grow m 8 0\n\
    grow m 8 4611686018427387897\n\
    grow m 8 4611686018427387905\n\
    grow m x 8\n\
    grow m 8\n\
    grow m 8 8 8\n\
    grow M 8 8\n\
    grow 8 8 8\n\
    grow  m 8 8\n\
    grow m 8 8 \n\
    \n\
    tick\n\
    cpu x\n\
    hello 1 1\n\
    lease 1 1 1 m 8\n\
    span m 8 8\n\
    grow m 13 8\n\
    grow m 14 8";

const TOLD: &[u8] = b"ok\n\
    error range\n\
    error misplaced\n\
    error many\n\
    error memory\n\
    error noarena\n\
    error noarena\n\
    error noarena\n\
    error range\n\
    error range\n\
    error number\n\
    error number\n\
    error badline\n\
    error badline\n\
    error badline\n\
    error badline\n\
    error badline\n\
    error badline\n\
    error badline\n\
    error word\n\
    error word\n\
    error word\n\
    error word\n\
    error word\n\
    ok\n\
    error badline\n";

const ASKED: [u64; 6] = [8, 9, 10, 11, 12, 13];

/// Roots that answer as they are told to, and keep where the ranges begin that they are asked for.
#[derive(Drop)]
struct Roots {
    tree: Tree,
    asked: Vec<u64>,
}

impl Grower for Roots {
    ghost use Rattle.std.specs.Prelude.{⊤};

    type Grown = ();

    type NotGrown = ErrorWord;

    ghost arenas = { λ r. r.tree };

    ghost grows = { λ _ _ _ _ _. ⊤ };

    ghost answers = { λ _ _ _ _. ⊤ };

    ghost told = { λ word. word };

    fn tree(&self) -> &Tree {
        &self.tree
    }

    fn grow(&mut self, arena: u32, range: Range) -> Result<(), ErrorWord> {
        let turn = self.asked.len();
        if arena != 0 || self.asked.push(range.base()).is_err() || turn >= ANSWERS.len() {
            return Err(ErrorWord::NoArena);
        }
        ANSWERS[turn]
    }

    fn word(why: &ErrorWord) -> ErrorWord {
        *why
    }
}

impl Teller for Roots {
    ghost use Rattle.std.specs.Prelude.{⊤};

    ghost may_answer = { λ _ _ _ _. ⊤ };

    fn tell(&mut self, line: &[u8]) -> &'static [u8] {
        answer_operator(line, self)
    }
}

/// What is told of lines that come in pieces of at most `size` bytes, and what roots were asked.
fn told<R: AllocGlobal + Abort>(
    rt: &R,
    lines: &[u8],
    size: usize,
    reading: Mishap,
    writing: Mishap,
) -> (Result<(), ServeFault>, Vec<u8>, Vec<u64>) {
    let mut config = Watched::new(Pieces {
        rest: CONFIG,
        size: 4096,
        mishap: Mishap::None,
        reads: 0,
    });
    let setup = read_config(rt.alloc(), &mut config).expect(rt, "a setup");
    let mut roots = Roots {
        tree: setup.into_tree(),
        asked: Vec::new(rt.alloc()),
    };
    let mut reader = Watched::new(Pieces {
        rest: lines,
        size,
        mishap: reading,
        reads: 0,
    });
    let mut writer = Watched::new(Sink {
        held: Vec::new(rt.alloc()),
        size: usize::MAX,
        mishap: writing,
        writes: 0,
    });
    let ended = tell(&mut Intake::new(), &mut reader, &mut writer, &mut roots);
    (ended, writer.into_inner().held, roots.asked)
}

#[test]
fn lines_of_an_operator(rt: HostRuntime) {
    for size in [4096, 7, 1] {
        let (ended, text, asked) = told(&rt, LINES, size, Mishap::None, Mishap::None);
        assert_eq!(rt; ended, Ok(()));
        assert_eq!(rt; text.as_slice(), TOLD);
        assert_eq!(rt; asked.as_slice(), ASKED.as_slice());
    }
}
