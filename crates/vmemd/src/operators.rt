//! Standard input of a running server: the lines of its operator, which grow its roots.
ghost use Rattle.std.specs.Prelude.{◌≡◌};
ghost use Rattle.lease_call.specs.Growing.{TellsGrowth};
ghost use Rattle.vmemd.specs.Operators.{TellsLine};

use arena_tree::Tree;
use deed_core::Range;
use deed_table::Name;
use lease_call::{grow_word, growth_asked};
use lease_proto::{ErrorWord, GrowLine, outcome_line};
use lease_server::Teller;
use lease_threads::System;
use locked_parts::{Grown, NotGrown};
use std::marker::Model;
use std::sync::Wait;

/// Whose roots can grow while they are used.
pub trait Grower {
    ghost use Rattle.std.specs.Prelude.{◌≡◌, ℕ, List, Result};
    ghost use Rattle.deed_core.specs.Extent.{Extent};
    ghost use Rattle.arena_tree.specs.declared.trees.TreeArena.{TreeArena};
    ghost use Rattle.lease_proto.specs.declared.faults.ErrorWord.{ErrorWord};
    ghost use Rattle.vmemd.specs.Operators.{outcome_of};

    /// That a root grew.
    type Grown: Drop;

    /// Why it didn't.
    type NotGrown: Drop;

    // its arenas
    ghost arenas: { Self → List TreeArena };

    // what may be told of an arena that is to grow by a range, by its number
    ghost grows: { Self → ℕ → Extent → Result (Unit {0}) ErrorWord → Self → Type 0 };

    // it is so of the arena of this number, and of this range
    ghost answers: { Self → ℕ → Extent → Result Self.Grown Self.NotGrown → Type 0 };

    // the word that is told of it
    ghost told: { Self.NotGrown → ErrorWord };

    /// The arenas, as they were set up.
    fn tree(&self) -> &Tree
        ensures { result.now ≡ arenas self.now };

    /// Gives the root of this number a further span of this range.
    fn grow(&mut self, arena: u32, range: Range) -> Result<Self::Grown, Self::NotGrown>
        ensures grows { grows self.old arena range (outcome_of told result) self.new }
        ensures answers { answers self.old arena range result };

    /// The word that is told of it.
    fn word(why: &Self::NotGrown) -> ErrorWord
        ensures { result ≡ told why.now };
}

/// The answer to a line of an operator, given without its line feed. `grow` is the one that is
/// taken: it is done before it is answered.
pub fn answer_operator<G: Grower>(line: &[u8], grower: &mut G) -> &'static [u8]
    ensures { TellsLine G.arenas G.grows grower.old line.now result.now grower.new }
{
    match GrowLine::read(line) {
        Ok(line) => outcome_line(grow(&line, grower)),
        Err(fault) => fault.line(),
    }
}

/// Does what a line asks for, and gives what is told of it.
fn grow<G: Grower>(line: &GrowLine, grower: &mut G) -> Result<(), ErrorWord>
    ensures { TellsGrowth G.grows (G.arenas grower.old) line.now grower.old result grower.new }
{
    let growth = growth_asked(grower.tree(), line)?;
    match grower.grow(growth.arena, growth.range) {
        Ok(_) => Ok(()),
        Err(why) => Err(G::word(&why)),
    }
}

/// The roots of a running system. A contract sees its arenas.
#[derive(Drop)]
pub struct RunningRoots<'a, N: Name, R> {
    rt: &'a R,
    system: &'a System<N>,
}

impl<'a, N: Name, R> Model for RunningRoots<'a, N, R> {
    ghost use Rattle.std.specs.Prelude.{List};
    ghost use Rattle.arena_tree.specs.declared.trees.TreeArena.{TreeArena};

    ghost Value = { List TreeArena };

    ghost view = { λ r. r.system.now.arenas };
}

impl<'a, N: Name, R> RunningRoots<'a, N, R> {
    /// Those of this system.
    pub fn new(rt: &'a R, system: &'a System<N>) -> RunningRoots<'a, N, R>
        ensures { result ≡ system.entry.now.arenas }
    {
        RunningRoots { rt, system }
    }
}

impl<N: Name, R: Wait> Grower for RunningRoots<'_, N, R> {
    ghost use Rattle.locked_parts.specs.GrowAnswers.{AnswersGrow};
    ghost use Rattle.vmemd.specs.Operators.{all_arenas, MayGrow, not_grown_word};

    type Grown = Grown;

    type NotGrown = NotGrown;

    ghost arenas = { all_arenas };

    ghost grows = { MayGrow };

    ghost answers = { AnswersGrow };

    ghost told = { not_grown_word };

    fn tree(&self) -> &Tree {
        self.system.tree()
    }

    fn grow(&mut self, arena: u32, range: Range) -> Result<Grown, NotGrown> {
        self.system.grow(self.rt, arena, range)
    }

    fn word(why: &NotGrown) -> ErrorWord {
        match why.fault() {
            Some(fault) => grow_word(fault),
            None => ErrorWord::Misplaced,
        }
    }
}

impl<N: Name, R: Wait> Teller for RunningRoots<'_, N, R> {
    ghost use Rattle.vmemd.specs.Operators.{may_tell};

    ghost may_answer = { may_tell };

    fn tell(&mut self, line: &[u8]) -> &'static [u8] {
        answer_operator(line, self)
    }
}
