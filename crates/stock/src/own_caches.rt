//! What one CPU keeps of one quantum cache: the events that are private to a CPU (pop, push,
//! change) change no part, only the list of the segments that are out.
ghost use Rattle.std.specs.Prelude.{◌≡◌, ◌+◌, ◌<◌, ◌≤◌, ◌↔◌, [], length};
ghost use Rattle.std.specs.Prelude.{IfSome, IfOk, IfErr, OnOk, IsOk, IsTrue};
ghost use Rattle.magazine_layer.specs.Magazines.{IsSize, IsShaped, BothEmpty, BothFull};
ghost use Rattle.magazine_layer.specs.Magazines.{cache_rounds, after_change};
ghost use Rattle.magazine_layer.specs.Calls.{PopOf, PushOf};
ghost use Rattle.magazine_layer.specs.Calls.{SwapFullOf, SwapEmptyOf, PutFullOf};
ghost use Rattle.stock.specs.Spaces.{HasCache, plans_of};
ghost use Rattle.stock.specs.Accounts.{Frames};
ghost use Rattle.stock.specs.Steps.{OnDepot, HasQuantum};
ghost use Rattle.deed_core.specs.Covering.{units_tagged};
ghost use Rattle.deed_core.specs.Weights.{Gains, Loses, WeighSame};
ghost use Rattle.stock.specs.Stocks.{IsRoundOf};
ghost use Rattle.stock.specs.OwnCaches.{IsAtIndexesOf, IsOwnCache};

use crate::stocks::Stock;
use deed_core::{Deed, Route, Segment};
use magazine_layer::{CpuCache, EmptyFault, FullFault, Magazine, PutFullFault};
use std::alloc::{AllocError, Global};
use std::marker::Model;

/// A CPU's cache of which all rounds are chunks of the quantum cache at this index of this arena,
/// which has this quantum. It is never copied or dropped.
pub struct OwnCache<D: Deed> {
    arena: usize,
    cache: usize,
    quantum: u64,
    pub(crate) cpu: CpuCache<D>,
}

impl<D: Deed> Model for OwnCache<D> {
    ghost use Rattle.stock.specs.OwnCaches.{OwnCacheState, IsOwnCache};

    ghost Value = { OwnCacheState };

    ghost view = { λ o.
        record { arena = o.arena; cache = o.cache; quantum = o.quantum; cpu = o.cpu } };

    ghost invariant = { λ o. IsOwnCache
        (record { arena = o.arena; cache = o.cache; quantum = o.quantum; cpu = o.cpu }) };
}

impl<D: Deed> OwnCache<D> {
    /// Two empty magazines for `size` rounds each. `quantum` counts units.
    pub fn new(
        alloc: Global,
        arena: usize,
        cache: usize,
        quantum: u64,
        size: usize,
    ) -> Result<OwnCache<D>, AllocError>
        requires size { IsSize size }
        requires some { 0 < quantum }
        ensures { IfOk result (λ o. o ≡ record {
          arena = arena;
          cache = cache;
          quantum = quantum;
          cpu = record { size = size; loaded = []; previous = [] };
        }) }
    {
        let cpu = CpuCache::new(alloc, size)?;
        Ok(OwnCache {
            arena,
            cache,
            quantum,
            cpu,
        })
    }

    /// The indexes of the arena and the quantum cache that its rounds are chunks of. It takes
    /// constant time, so its clause `own` is the way to know what is always so of a CPU's cache.
    pub fn indexes(&self) -> (usize, usize)
        ensures value { (result.0 ≡ self.now.arena) × (result.1 ≡ self.now.cache) }
        ensures own { IsOwnCache self.now }
    {
        (self.arena, self.cache)
    }

    /// The units of a quantum of that arena, to compare with the stock's.
    pub fn quantum(&self) -> u64
        ensures { result ≡ self.now.quantum }
    {
        self.quantum
    }

    /// Whether a segment is a chunk of that cache.
    pub fn takes(&self, segment: &Segment<D>) -> bool
        ensures { IsTrue result
            ↔ IsRoundOf self.now.arena (self.now.cache + 1) self.now.quantum segment.now }
    {
        let Route::Cached(k) = segment.route() else {
            return false;
        };
        if segment.arena() as usize != self.arena || k == 0 {
            return false;
        }
        if k as usize - 1 != self.cache {
            return false;
        }
        let range = segment.range();
        u128::from(range.len()) == u128::from(k) * u128::from(self.quantum)
            && range.base() % self.quantum == 0
    }

    /// How many rounds each of its two magazines holds.
    pub fn size(&self) -> usize
        ensures value { result ≡ self.now.cpu.size }
        ensures size { IsSize result }
        ensures shape { IsShaped self.now.cpu }
    {
        self.cpu.size()
    }

    /// The units of its rounds, in constant time.
    pub fn units(&self) -> u128
        ensures { result ≡ units_tagged (cache_rounds self.now.cpu) }
    {
        self.cpu.units_alike()
    }

    /// Takes a round. It takes no memory.
    #[tactic(auto, using(crate::proofs::OwnRounds::popped))]
    pub fn pop(&mut self) -> Option<Segment<D>>
        ensures popped { PopOf self.old.cpu result self.new.cpu }
        ensures weights { IfSome result
            (Loses (cache_rounds self.old.cpu) (cache_rounds self.new.cpu)) }
        ensures index { IsAtIndexesOf self.old self.new }
        ensures chunk { IfSome result
            (IsRoundOf self.old.arena (self.old.cache + 1) self.old.quantum) }
    {
        self.cpu.take()
    }

    /// Keeps a chunk of its quantum cache, if there is room. It takes no memory.
    pub fn push(&mut self, segment: Segment<D>) -> Result<(), Segment<D>>
        requires chunk { IsRoundOf self.old.arena (self.old.cache + 1) self.old.quantum segment }
        ensures pushed { PushOf self.old.cpu segment result self.new.cpu }
        ensures weights { OnOk result
            (Gains (cache_rounds self.old.cpu) (cache_rounds self.new.cpu) segment) }
        ensures index { IsAtIndexesOf self.old self.new }
    {
        self.cpu.give(segment)
    }

    /// Moves all rounds into the first of two empty magazines of another size, and ends its old
    /// ones. It takes no memory.
    pub fn change(&mut self, loaded: Magazine<D>, previous: Magazine<D>)
        requires loaded { loaded.rounds ≡ [] }
        requires previous { previous.rounds ≡ [] }
        requires size { previous.size ≡ loaded.size }
        requires room { length (cache_rounds self.old.cpu) ≤ loaded.size }
        ensures changed { self.new.cpu ≡ after_change loaded.size self.old.cpu }
        ensures weights { WeighSame (cache_rounds self.old.cpu) (cache_rounds self.new.cpu) }
        ensures index { IsAtIndexesOf self.old self.new }
    {
        self.cpu.change(loaded, previous);
    }

    /// Takes a full magazine of its depot for an empty one, where both of its own are empty.
    pub fn swap_full(&mut self, stock: &mut Stock<D>) -> Result<(), FullFault>
        requires has { HasCache stock.old self.old.arena self.old.cache }
        requires quantum { HasQuantum stock.old self.old.arena self.old.quantum }
        requires empty { BothEmpty self.old.cpu }
        ensures swapped { OnDepot self.old.arena self.old.cache
            (λ a b. SwapFullOf self.old.cpu a result self.new.cpu b) stock.old stock.new }
        ensures index { IsAtIndexesOf self.old self.new }
        ensures shape { IsShaped self.new.cpu }
        ensures frame { Frames stock.old (cache_rounds self.old.cpu)
            stock.new (cache_rounds self.new.cpu) }
        ensures fixed { plans_of stock.new ≡ plans_of stock.old }
    {
        stock.swap_full(self.arena, self.cache, &mut self.cpu)
    }

    /// Takes an empty magazine of its depot for a full one, where both of its own are full.
    pub fn swap_empty(&mut self, stock: &mut Stock<D>) -> Result<(), EmptyFault>
        requires has { HasCache stock.old self.old.arena self.old.cache }
        requires quantum { HasQuantum stock.old self.old.arena self.old.quantum }
        requires full { BothFull self.old.cpu }
        ensures swapped { OnDepot self.old.arena self.old.cache
            (λ a b. SwapEmptyOf self.old.cpu a result self.new.cpu b) stock.old stock.new }
        ensures index { IsAtIndexesOf self.old self.new }
        ensures shape { IsShaped self.new.cpu }
        ensures frame { Frames stock.old (cache_rounds self.old.cpu)
            stock.new (cache_rounds self.new.cpu) }
        ensures fixed { plans_of stock.new ≡ plans_of stock.old }
    {
        stock.swap_empty(self.arena, self.cache, &mut self.cpu)
    }

    /// The same with a fresh magazine.
    pub fn swap_fresh(
        &mut self,
        stock: &mut Stock<D>,
        magazine: Magazine<D>,
    ) -> Result<(), PutFullFault<Magazine<D>>>
        requires has { HasCache stock.old self.old.arena self.old.cache }
        requires quantum { HasQuantum stock.old self.old.arena self.old.quantum }
        requires magazines { BothFull self.old.cpu × (magazine.rounds ≡ []) }
        ensures swapped { OnDepot self.old.arena self.old.cache
            (λ a b. PutFullOf self.old.cpu a magazine result self.new.cpu b) stock.old stock.new }
        ensures index { IsAtIndexesOf self.old self.new }
        ensures shape { IsShaped self.new.cpu }
        ensures frame { Frames stock.old (cache_rounds self.old.cpu)
            stock.new (cache_rounds self.new.cpu) }
        ensures fixed { plans_of stock.new ≡ plans_of stock.old }
    {
        stock.swap_fresh(self.arena, self.cache, &mut self.cpu, magazine)
    }

    /// Whether both magazines are empty.
    pub fn is_empty(&self) -> bool
        ensures { IsTrue result ↔ BothEmpty self.now.cpu }
    {
        self.cpu.is_empty()
    }

    /// Whether both magazines are full.
    pub fn is_full(&self) -> bool
        ensures { IsTrue result ↔ BothFull self.now.cpu }
    {
        self.cpu.is_full()
    }

    /// Ends a cache that has no round, and hands back one that has.
    pub fn close(self) -> Result<(), OwnCache<D>>
        ensures empty { IsOk result ↔ BothEmpty self.cpu }
        ensures handed_back { IfErr result (λ same. same ≡ self) }
    {
        let OwnCache {
            arena,
            cache,
            quantum,
            cpu,
        } = self;
        match cpu.close() {
            Ok(()) => Ok(()),
            Err(cpu) => Err(OwnCache {
                arena,
                cache,
                quantum,
                cpu,
            }),
        }
    }
}
