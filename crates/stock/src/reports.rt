//! What a stock tells of its parts. The sums of an audit are read off these.
ghost use Rattle.std.specs.Prelude.{◌≡◌, ◌+◌, ◌-◌, ◌^◌, ◌<◌, length, min, slice_get, Some};
ghost use Rattle.deed_core.specs.Covering.{units_held, units_tagged};
ghost use Rattle.tag_arena.specs.ArenaState.{spans_of};
ghost use Rattle.slab_layer.specs.Cache.{deeds_of, idle_deeds, gaps, tails};
ghost use Rattle.magazine_layer.specs.Depots.{depot_rounds};
ghost use Rattle.stock.specs.Spaces.{SpaceState, QuantumCacheState, IsCacheAt, HasCache};

use crate::stocks::Stock;
use deed_core::Deed;
use slab_layer::SlabReport;
use tag_arena::ArenaReport;

impl<D: Deed> Stock<D> {
    /// The quantum of the arena at the index.
    pub fn quantum(&self, arena: usize) -> u64
        requires within { arena < length self.now }
        ensures value { (s : SpaceState) → slice_get self.now arena ≡ Some s
            → result ≡ s.arena.quantum }
    {
        let space = &self.spaces[arena];
        space.arena.quantum()
    }

    /// The arena that it imports from, if there is one.
    pub fn source(&self, arena: usize) -> Option<u32>
        requires within { arena < length self.now }
        ensures value { (s : SpaceState) → slice_get self.now arena ≡ Some s
            → result ≡ s.source }
    {
        let space = &self.spaces[arena];
        space.source
    }

    /// How many quantum caches it has.
    pub fn caches(&self, arena: usize) -> usize
        requires within { arena < length self.now }
        ensures value { (s : SpaceState) → slice_get self.now arena ≡ Some s
            → result ≡ length s.caches }
    {
        let space = &self.spaces[arena];
        space.caches.len()
    }

    /// How many units its spans, free ranges and allocated ranges have.
    pub fn arena_report(&self, arena: usize) -> ArenaReport
        requires within { arena < length self.now }
        ensures span { (s : SpaceState) → slice_get self.now arena ≡ Some s
            → result.span ≡ units_held (spans_of s.arena) }
        ensures free { (s : SpaceState) → slice_get self.now arena ≡ Some s
            → result.free ≡ units_held s.arena.free }
        ensures adds_up { result.span ≡ result.free + result.allocated }
    {
        let space = &self.spaces[arena];
        space.arena.report()
    }

    /// How many units lie in the slabs of one of its caches: idle chunks, colour gaps and tails.
    pub fn slab_report(&self, arena: usize, cache: usize) -> SlabReport
        requires has { HasCache self.now arena cache }
        ensures idle { (c : QuantumCacheState) → IsCacheAt self.now arena cache c
            → result.idle ≡ units_held (idle_deeds c.slab) }
        ensures gap { (c : QuantumCacheState) → IsCacheAt self.now arena cache c
            → result.gap ≡ units_held (gaps c.slab) }
        ensures tail { (c : QuantumCacheState) → IsCacheAt self.now arena cache c
            → result.tail ≡ units_held (tails c.slab) }
        ensures sum { (c : QuantumCacheState) → IsCacheAt self.now arena cache c
            → result.idle + result.gap + result.tail ≡ units_held (deeds_of c.slab) }
    {
        let space = &self.spaces[arena];
        let opened = &space.caches[cache];
        opened.slab.report()
    }

    /// How many units the rounds of its depot have, or 2^128 - 1 where they are more: each is a
    /// chunk of the cache, so that their number tells it in constant time.
    pub fn depot_units(&self, arena: usize, cache: usize) -> u128
        requires has { HasCache self.now arena cache }
        ensures value { (c : QuantumCacheState) → IsCacheAt self.now arena cache c
            → result ≡ min (units_tagged (depot_rounds c.depot)) (2 ^ 128 - 1) }
    {
        let space = &self.spaces[arena];
        let opened = &space.caches[cache];
        let chunk = u128::from(space.arena.quantum()) * (cache as u128 + 1);
        opened.depot.rounds().saturating_mul(chunk)
    }

    /// The same, counted one round after another.
    pub fn depot_units_by_rounds(&self, arena: usize, cache: usize) -> u128
        requires has { HasCache self.now arena cache }
        ensures value { (c : QuantumCacheState) → IsCacheAt self.now arena cache c
            → result ≡ min (units_tagged (depot_rounds c.depot)) (2 ^ 128 - 1) }
    {
        let space = &self.spaces[arena];
        let opened = &space.caches[cache];
        opened.depot.units()
    }

    /// How many rounds the magazines of its depot hold.
    pub fn depot_size(&self, arena: usize, cache: usize) -> usize
        requires has { HasCache self.now arena cache }
        ensures { (c : QuantumCacheState) → IsCacheAt self.now arena cache c
            → result ≡ c.depot.size }
    {
        let space = &self.spaces[arena];
        let opened = &space.caches[cache];
        opened.depot.size()
    }
}
