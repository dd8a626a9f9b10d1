//! Walks over the depots of quantum caches, whatever keeps them: each depot once, in order.
ghost use Rattle.std.specs.Prelude.{◌≡◌, ◌<◌, length};
ghost use Rattle.magazine_layer.specs.Magazines.{IsSize};
ghost use Rattle.locked_parts.specs.Kinds.{count_of_caches};
ghost use Rattle.locked_parts.specs.Walks.{IsResizedFor, TicksCaches, TicksArenas, ResizesCaches};

use crate::kinds::cache_count;
use arena_tree::Tree;
use std::marker::Model;

/// The depots of quantum caches, by the numbers of their arenas and their own.
pub(crate) trait Depots {
    ghost use Rattle.std.specs.Prelude.{ℕ, Bool};
    ghost use Rattle.magazine_layer.specs.Magazines.{IsSize};

    // an interval began in the depot of this cache
    ghost ticks: { Self → ℕ → ℕ → Self → Type 0 };

    // that depot was asked to keep magazines of this size, and said whether it had smaller ones
    ghost resizes: { Self → ℕ → ℕ → ℕ → Bool → Self → Type 0 };

    /// Begins an interval.
    fn tick(&mut self, arena: u32, cache: u8)
        ensures { ticks self.old arena cache self.new };

    /// Asks for magazines of this size from here on, and says whether the depot had smaller ones.
    fn resize(&mut self, arena: u32, cache: u8, size: usize) -> bool
        requires { IsSize size }
        ensures { resizes self.old arena cache size result self.new };
}

/// That each depot of so many arenas was asked to begin an interval. Only `tick_each` makes one. A
/// contract sees how many arenas.
#[derive(PartialEq, Eq, Debug, Drop)]
pub struct Interval {
    arenas: usize,
}

impl Model for Interval {
    ghost use Rattle.std.specs.Prelude.{ℕ};

    ghost Value = { ℕ };

    ghost view = { λ i. i.arenas };

    ghost inverse = { λ n. record { arenas = n } };
}

/// That so many depots of an arena were asked to keep magazines of a size from here on, and whether
/// one of them had smaller ones. Only `resize_each` makes one. A contract sees all.
#[derive(PartialEq, Eq, Debug, Drop)]
pub struct Resized {
    arena: u32,
    depots: u8,
    size: usize,
    rose: bool,
}

impl Model for Resized {
    ghost use Rattle.locked_parts.specs.Walks.{ResizedState};

    ghost Value = { ResizedState };

    ghost view = { λ r. record {
      arena = r.arena;
      depots = r.depots;
      size = r.size;
      rose = r.rose;
    } };

    ghost inverse = { λ r. record {
      arena = r.arena;
      depots = r.depots;
      size = r.size;
      rose = r.rose;
    } };
}

impl Resized {
    /// Whether one of them had smaller ones.
    pub fn rose(&self) -> bool
        ensures { result ≡ self.now.rose }
    {
        self.rose
    }
}

/// Begins an interval in each depot of the arenas, one after another.
pub(crate) fn tick_each<D: Depots>(depots: &mut D, tree: &Tree) -> Interval
    ensures each { TicksArenas D.ticks tree.now (length tree.now) depots.old depots.new }
    ensures arenas { result ≡ length tree.now }
{
    for arena in 0..tree.len() as u32 {
        tick_caches(depots, arena, cache_count(tree, arena));
    }
    Interval { arenas: tree.len() }
}

/// Begins an interval in the depots of the arena's first caches, so many.
fn tick_caches<D: Depots>(depots: &mut D, arena: u32, count: u8)
    ensures { TicksCaches D.ticks arena count depots.old depots.new }
{
    for before in 0..count {
        depots.tick(arena, before + 1);
    }
}

/// Asks each depot of the arena for magazines of this size, one after another, and says whether one
/// of them had smaller ones. An arena that isn't there has none.
pub(crate) fn resize_each<D: Depots>(
    depots: &mut D,
    tree: &Tree,
    arena: u32,
    size: usize,
) -> Resized
    requires { IsSize size }
    ensures each { ResizesCaches D.resizes arena size (count_of_caches tree.now arena)
        depots.old result.rose depots.new }
    ensures asked { IsResizedFor tree.now arena size result }
{
    let count = if (arena as usize) < tree.len() {
        cache_count(tree, arena)
    } else {
        0
    };
    let rose = resize_caches(depots, arena, count, size);
    Resized {
        arena,
        depots: count,
        size,
        rose,
    }
}

/// Asks those of the arena's first caches, so many.
fn resize_caches<D: Depots>(depots: &mut D, arena: u32, count: u8, size: usize) -> bool
    requires { IsSize size }
    ensures { ResizesCaches D.resizes arena size count depots.old result depots.new }
{
    let mut rose = false;
    for before in 0..count {
        let one = depots.resize(arena, before + 1, size);
        rose = rose || one;
    }
    rose
}
