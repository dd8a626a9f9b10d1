//! The sums of an arena's parts, each part as it is under its own lock.
ghost use Rattle.std.specs.Prelude.{◌<◌, length};
ghost use Rattle.locked_parts.specs.Sums.{AddsUp, ArenaTells, SumsOf};

use crate::kinds::cache_count;
use crate::parts::LockedParts;
use crate::slab_parts::slab_units;
use deed_table::Name;
use std::sync::Wait;

/// The units of an arena under its lock, and of its slabs and depots, each under its own. They are
/// of different moments: a segment that moves meanwhile may be told twice or not at all.
#[derive(Clone, Copy, PartialEq, Eq, Debug)]
pub struct PartSums {
    /// Those that a carve may still take.
    pub free: u128,
    /// Those of the segments that are out of the arena, at that moment.
    pub allocated: u128,
    /// In slabs: idle chunks, colour gaps and tails.
    pub slab: u128,
    /// In magazines of depots, or 2^128 - 1 where they are more.
    pub magazine: u128,
}

/// Parts of the quantum caches of one arena, by their numbers.
pub(crate) trait CacheUnits {
    ghost use Rattle.std.specs.Prelude.{ℕ};

    // so many units were told of this cache's part
    ghost tells: { Self → ℕ → ℕ → Type 0 };

    /// The units that lie in it.
    fn units(&self, cache: u8) -> u128
        requires { 0 < cache }
        ensures { tells self.now cache result };
}

/// Adds up what is told of the first caches, so many, one after another; it stays at the greatest
/// number.
pub(crate) fn sum_caches<C: CacheUnits>(caches: &C, count: u8) -> u128
    ensures { AddsUp (C.tells caches.now) count result }
{
    let mut units: u128 = 0;
    for before in 0..count {
        let one = caches.units(before + 1);
        units = units.saturating_add(one);
    }
    units
}

/// The slabs of the arena with this number, each under its lock.
#[derive(Drop)]
struct LockedSlabs<'a, N: Name, R: Wait> {
    parts: &'a LockedParts<N>,
    rt: &'a R,
    arena: u32,
    ghost within: { arena < length parts.now.arenas },
}

impl<N: Name, R: Wait> CacheUnits for LockedSlabs<'_, N, R> {
    ghost use Rattle.locked_parts.specs.Owns.{cache_of};
    ghost use Rattle.locked_parts.specs.Sums.{SlabsTell};

    ghost tells = { λ s cache units. SlabsTell (cache_of s.parts.now.arenas s.arena cache) units };

    #[tactic(auto, using(crate::proofs::Sums::no_slabs))]
    fn units(&self, cache: u8) -> u128 {
        // For its clause, here and below: no quantum is 0.
        let _ = self.parts.tree().quantum(self.arena);
        match self.parts.reach_slabs(self.rt, None, self.arena, cache) {
            Ok((kind, slab)) => slab_units(&slab, &kind),
            Err(_) => 0,
        }
    }
}

/// Its depots, each under its lock.
#[derive(Drop)]
struct LockedRounds<'a, N: Name, R: Wait> {
    parts: &'a LockedParts<N>,
    rt: &'a R,
    arena: u32,
    ghost within: { arena < length parts.now.arenas },
}

impl<N: Name, R: Wait> CacheUnits for LockedRounds<'_, N, R> {
    ghost use Rattle.locked_parts.specs.Owns.{cache_of};
    ghost use Rattle.locked_parts.specs.Sums.{DepotTells};

    ghost tells = { λ s cache units. DepotTells (cache_of s.parts.now.arenas s.arena cache) units };

    #[tactic(auto, using(crate::proofs::Sums::no_rounds))]
    fn units(&self, cache: u8) -> u128 {
        let _ = self.parts.tree().quantum(self.arena);
        match self.parts.reach_depot(self.rt, None, self.arena, cache) {
            Ok(depot) => depot.units(),
            Err(_) => 0,
        }
    }
}

impl<N: Name> LockedParts<N> {
    /// The sums of the arena's parts: its own lock is taken first, then that of the slabs of each
    /// of its caches, one after another, and of each depot. What is told of a part was so at some
    /// moment under its lock, so that these are sums of different moments; nothing stops for it.
    /// Of a part that isn't there nothing is told, as of an empty one. The clause says of each
    /// number that some part of this arena or cache has it: that it is this one, at a moment of the
    /// call, no clause can say of what lies under a lock.
    pub fn sums<R: Wait>(&self, rt: &R, arena: u32) -> PartSums
        requires { arena < length self.now.arenas }
        ensures { SumsOf self.now.arenas arena result }
    {
        let count = cache_count(&self.tree, arena);
        let (free, allocated) = self.arena_units(rt, arena);
        let slabs = LockedSlabs {
            parts: self,
            rt,
            arena,
        };
        let slab = sum_caches(&slabs, count);
        let rounds = LockedRounds {
            parts: self,
            rt,
            arena,
        };
        let magazine = sum_caches(&rounds, count);
        PartSums {
            free,
            allocated,
            slab,
            magazine,
        }
    }

    /// The free and the allocated units of the arena with this number.
    fn arena_units<R: Wait>(&self, rt: &R, arena: u32) -> (u128, u128)
        ensures { ArenaTells arena result.0 result.1 }
    {
        match self.reach_arena(rt, None, arena) {
            Ok(part) => part.units(),
            Err(_) => (0, 0),
        }
    }
}
