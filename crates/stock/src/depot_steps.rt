//! The events on the depot of a quantum cache: swap_full, swap_empty (with an empty magazine of the
//! depot's or a fresh one), note (a tick or a resize) and depot_reap.
ghost use Rattle.std.specs.Prelude.{◌≡◌, ◌↔◌, ◌+◌, [], ◌∷◌, IfSome, IsTrue};
ghost use Rattle.std.specs.Option.{option_to_list};
ghost use Rattle.magazine_layer.specs.Magazines.{IsSize, IsShaped, BothEmpty, BothFull};
ghost use Rattle.magazine_layer.specs.Magazines.{cache_rounds};
ghost use Rattle.magazine_layer.specs.Depots.{CanReap, after_tick};
ghost use Rattle.magazine_layer.specs.Calls.{SwapFullOf, SwapEmptyOf, PutFullOf, ResizeOf};
ghost use Rattle.magazine_layer.specs.Calls.{DepotReapOf};
ghost use Rattle.stock.specs.Spaces.{QuantumCacheState, IsCacheAt, HasCache, plans_of};
ghost use Rattle.stock.specs.Accounts.{Frames};
ghost use Rattle.stock.specs.Steps.{OnDepot, IsRoundIn, AreRoundsIn};

use crate::stocks::Stock;
use deed_core::{Deed, Segment};
use magazine_layer::{CpuCache, EmptyFault, FullFault, Magazine, NotGreater, PutFullFault};

impl<D: Deed> Stock<D> {
    /// Gives a CPU whose magazines are both empty a full one of the depot's. It takes no memory.
    pub fn swap_full(
        &mut self,
        arena: usize,
        cache: usize,
        cpu: &mut CpuCache<D>,
    ) -> Result<(), FullFault>
        requires has { HasCache self.old arena cache }
        requires empty { BothEmpty cpu.old }
        ensures swapped { OnDepot arena cache (λ a b. SwapFullOf cpu.old a result cpu.new b)
            self.old self.new }
        ensures rounds { AreRoundsIn self.old arena cache cpu.new }
        ensures shape { IsShaped cpu.new }
        ensures frame { Frames self.old (cache_rounds cpu.old) self.new (cache_rounds cpu.new) }
        ensures fixed { plans_of self.new ≡ plans_of self.old }
    {
        let space = &mut self.spaces[arena];
        let opened = &mut space.caches[cache];
        opened.depot.swap_for_full(cpu)
    }

    /// Gives a CPU whose magazines are both full, with chunks of the cache, an empty one of the
    /// depot's. It takes no memory.
    pub fn swap_empty(
        &mut self,
        arena: usize,
        cache: usize,
        cpu: &mut CpuCache<D>,
    ) -> Result<(), EmptyFault>
        requires has { HasCache self.old arena cache }
        requires full { BothFull cpu.old }
        requires rounds { AreRoundsIn self.old arena cache cpu.old }
        ensures swapped { OnDepot arena cache (λ a b. SwapEmptyOf cpu.old a result cpu.new b)
            self.old self.new }
        ensures rounds { AreRoundsIn self.old arena cache cpu.new }
        ensures shape { IsShaped cpu.new }
        ensures frame { Frames self.old (cache_rounds cpu.old) self.new (cache_rounds cpu.new) }
        ensures fixed { plans_of self.new ≡ plans_of self.old }
    {
        let space = &mut self.spaces[arena];
        let opened = &mut space.caches[cache];
        opened.depot.swap_for_empty(cpu)
    }

    /// The same with a fresh magazine, which is empty, in place of one of the depot's. It is out of
    /// memory for the depot's lists alone.
    pub fn swap_fresh(
        &mut self,
        arena: usize,
        cache: usize,
        cpu: &mut CpuCache<D>,
        magazine: Magazine<D>,
    ) -> Result<(), PutFullFault<Magazine<D>>>
        requires has { HasCache self.old arena cache }
        requires rounds { AreRoundsIn self.old arena cache cpu.old }
        requires magazines { BothFull cpu.old × (magazine.rounds ≡ []) }
        ensures swapped { OnDepot arena cache
            (λ a b. PutFullOf cpu.old a magazine result cpu.new b) self.old self.new }
        ensures rounds { AreRoundsIn self.old arena cache cpu.new }
        ensures shape { IsShaped cpu.new }
        ensures frame { Frames self.old (cache_rounds cpu.old) self.new (cache_rounds cpu.new) }
        ensures fixed { plans_of self.new ≡ plans_of self.old }
    {
        let space = &mut self.spaces[arena];
        let opened = &mut space.caches[cache];
        opened.depot.put_full(cpu, magazine)
    }

    /// Begins an interval in a depot.
    pub fn tick(&mut self, arena: usize, cache: usize)
        requires has { HasCache self.old arena cache }
        ensures ticked { OnDepot arena cache (λ a b. b ≡ after_tick a) self.old self.new }
        ensures frame { Frames self.old [] self.new [] }
        ensures fixed { plans_of self.new ≡ plans_of self.old }
    {
        let space = &mut self.spaces[arena];
        let opened = &mut space.caches[cache];
        opened.depot.tick();
    }

    /// Has a depot keep magazines of a greater size from here on. It takes no memory.
    pub fn resize(&mut self, arena: usize, cache: usize, size: usize) -> Result<(), NotGreater>
        requires has { HasCache self.old arena cache }
        requires size { IsSize size }
        ensures resized { OnDepot arena cache (λ a b. ResizeOf a size result b)
            self.old self.new }
        ensures frame { Frames self.old [] self.new [] }
        ensures fixed { plans_of self.new ≡ plans_of self.old }
    {
        let space = &mut self.spaces[arena];
        let opened = &mut space.caches[cache];
        opened.depot.resize(size)
    }

    /// Whether a round may be reaped out of a depot: `depot_reap` gives one just then.
    pub fn can_reap(&self, arena: usize, cache: usize) -> bool
        requires has { HasCache self.now arena cache }
        ensures { (c : QuantumCacheState) → IsCacheAt self.now arena cache c
            → IsTrue result ↔ CanReap c.depot }
    {
        let space = &self.spaces[arena];
        let opened = &space.caches[cache];
        opened.depot.can_reap()
    }

    /// Takes a round that may be reaped out of a depot. It takes no memory.
    pub fn depot_reap(&mut self, arena: usize, cache: usize) -> Option<Segment<D>>
        requires has { HasCache self.old arena cache }
        ensures reaped { OnDepot arena cache (λ a b. DepotReapOf a result b)
            self.old self.new }
        ensures chunk { IfSome result (IsRoundIn self.old arena cache) }
        ensures frame { Frames self.old [] self.new (option_to_list result) }
        ensures fixed { plans_of self.new ≡ plans_of self.old }
    {
        let space = &mut self.spaces[arena];
        let opened = &mut space.caches[cache];
        opened.depot.reap()
    }
}
