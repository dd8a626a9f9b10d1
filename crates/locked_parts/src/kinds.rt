//! Quantum caches by their arena, number and quantum, and how many an arena has.
ghost use Rattle.std.specs.Prelude.{◌≡◌, ◌<◌, ◌↔◌, IsTrue, length};
ghost use Rattle.locked_parts.specs.Kinds.{IsOfKind, count_of_caches};

use arena_tree::{Tree, TreeArena};
use deed_core::{Deed, Route, Segment};

/// A quantum cache: that of `number` quanta of an arena with this quantum, in units.
#[derive(Clone, Copy, PartialEq, Eq, Debug)]
pub struct CacheKind {
    pub arena: u32,
    pub number: u8,
    pub quantum: u64,
}

impl CacheKind {
    /// Whether the segment is a chunk of the cache.
    pub fn takes<D: Deed>(&self, segment: &Segment<D>) -> bool
        requires { 0 < self.now.quantum }
        ensures { IsTrue result ↔ IsOfKind self.now segment.now }
    {
        let Route::Cached(number) = segment.route() else {
            return false;
        };
        if segment.arena() != self.arena || number != self.number {
            return false;
        }
        let range = segment.range();
        u128::from(range.len()) == u128::from(number) * u128::from(self.quantum)
            && range.base() % self.quantum == 0
    }

    /// Whether it is the same.
    pub fn is(&self, other: &CacheKind) -> bool
        ensures { IsTrue result ↔ (self.now ≡ other.now) }
    {
        self.arena == other.arena && self.number == other.number && self.quantum == other.quantum
    }
}

/// How many quantum caches an arena has; they are numbered from 1 on.
pub(crate) fn cache_count(tree: &Tree, arena: u32) -> u8
    requires { arena < length tree.now }
    ensures { result ≡ count_of_caches tree.now arena }
{
    let TreeArena {
        quantum,
        qcache_max,
        ..
    } = *tree.arena(arena);
    arena_tree::cache_count(quantum, qcache_max)
}
