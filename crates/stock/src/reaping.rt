//! All that lies in the caches goes home: rounds into their slabs, whole slabs into their arenas,
//! and imported spans that become whole by that into their sources.
ghost use Rattle.std.specs.Prelude.{◌≡◌, ℕ, ◌<◌, List, [], ◌∷◌, All, length, IsOk, OnOk};
ghost use Rattle.deed_core.specs.Tag.{Tag};
ghost use Rattle.slab_layer.specs.Slab.{IsComplete};
ghost use Rattle.magazine_layer.specs.Depots.{depot_rounds};
ghost use Rattle.stock.specs.Spaces.{QuantumCacheState, IsCacheAt, HasCache, plans_of};
ghost use Rattle.stock.specs.Accounts.{Accounts, Frames};
ghost use Rattle.stock.specs.Steps.{IsRoundIn};
ghost use Rattle.stock.specs.Endings.{IsReaped, IsReapedAt, hand_after_reap};
ghost use Rattle.stock.specs.Endings.{OthersStay, OtherArenasStay, DepotsStay, AllCachesStay};
ghost use Rattle.stock.specs.Endings.{lastings_of};

use crate::stocks::Stock;
use deed_core::{Deed, Route, Segment};
use slab_layer::PutFault;

impl<D: Deed> Stock<D> {
    /// Empties all depots into the slabs, frees each slab that is whole then, and each imported
    /// span that becomes whole by that, up to its root. It takes no memory. A segment that its part
    /// refuses comes out; that is never so where the accounts balance.
    pub fn reap_all(&mut self) -> Result<(), Segment<D>>
        ensures reaped { OnOk result (All IsReaped self.new) }
        ensures frame { Frames self.old [] self.new (hand_after_reap result) }
        ensures fixed { plans_of self.new ≡ plans_of self.old }
        ensures lasts { lastings_of self.new ≡ lastings_of self.old }
        ensures never { (rest : List Tag) → Accounts self.old rest → IsOk result }
    {
        for arena in 0..self.count() {
            self.reap_arena(arena)?;
        }
        Ok(())
    }

    /// The same of one arena's caches.
    fn reap_arena(&mut self, arena: usize) -> Result<(), Segment<D>>
        requires within { arena < length self.old }
        ensures reaped { OnOk result ((j : ℕ) → IsReapedAt self.new arena j) }
        ensures others { OtherArenasStay arena self.old self.new }
        ensures frame { Frames self.old [] self.new (hand_after_reap result) }
        ensures fixed { plans_of self.new ≡ plans_of self.old }
        ensures lasts { lastings_of self.new ≡ lastings_of self.old }
        ensures never { (rest : List Tag) → Accounts self.old rest → IsOk result }
    {
        for cache in 0..self.caches(arena) {
            self.reap_cache(arena, cache)?;
        }
        Ok(())
    }

    /// The same of one cache.
    fn reap_cache(&mut self, arena: usize, cache: usize) -> Result<(), Segment<D>>
        requires has { HasCache self.old arena cache }
        ensures reaped { OnOk result (IsReapedAt self.new arena cache) }
        ensures others { OthersStay arena cache self.old self.new }
        ensures frame { Frames self.old [] self.new (hand_after_reap result) }
        ensures fixed { plans_of self.new ≡ plans_of self.old }
        ensures lasts { lastings_of self.new ≡ lastings_of self.old }
        ensures never { (rest : List Tag) → Accounts self.old rest → IsOk result }
    {
        self.empty_depot(arena, cache)?;
        self.reap_slabs(arena, cache)
    }

    /// Puts all rounds of a depot back into the slabs.
    fn empty_depot(&mut self, arena: usize, cache: usize) -> Result<(), Segment<D>>
        requires has { HasCache self.old arena cache }
        ensures emptied { OnOk result ((c : QuantumCacheState) → IsCacheAt self.new arena cache c
            → depot_rounds c.depot ≡ []) }
        ensures others { OthersStay arena cache self.old self.new }
        ensures frame { Frames self.old [] self.new (hand_after_reap result) }
        ensures fixed { plans_of self.new ≡ plans_of self.old }
        ensures lasts { lastings_of self.new ≡ lastings_of self.old }
        ensures never { (rest : List Tag) → Accounts self.old rest → IsOk result }
    {
        self.tick(arena, cache);
        while let Some(round) = self.depot_reap(arena, cache) {
            self.put_home(arena, cache, round)?;
        }
        Ok(())
    }

    /// Puts a chunk of a cache back into its slabs.
    fn put_home(&mut self, arena: usize, cache: usize, round: Segment<D>) -> Result<(), Segment<D>>
        requires has { HasCache self.old arena cache }
        requires chunk { IsRoundIn self.old arena cache round }
        ensures others { OthersStay arena cache self.old self.new }
        ensures depots { DepotsStay self.old self.new }
        ensures frame { Frames self.old (round ∷ []) self.new (hand_after_reap result) }
        ensures fixed { plans_of self.new ≡ plans_of self.old }
        ensures lasts { lastings_of self.new ≡ lastings_of self.old }
        ensures never { (rest : List Tag) → Accounts self.old (round ∷ rest) → IsOk result }
    {
        match self.slab_put(round) {
            Ok(()) => Ok(()),
            Err(PutFault::NotMine(round)) => Err(round),
            Err(PutFault::AtHome(round)) => Err(round),
        }
    }

    /// Frees each slab of a cache of which no chunk is out.
    fn reap_slabs(&mut self, arena: usize, cache: usize) -> Result<(), Segment<D>>
        requires has { HasCache self.old arena cache }
        ensures reaped { OnOk result ((c : QuantumCacheState) → IsCacheAt self.new arena cache c
            → All (λ s. ¬ IsComplete s) c.slab.slabs) }
        ensures others { OthersStay arena cache self.old self.new }
        ensures depots { DepotsStay self.old self.new }
        ensures frame { Frames self.old [] self.new (hand_after_reap result) }
        ensures fixed { plans_of self.new ≡ plans_of self.old }
        ensures lasts { lastings_of self.new ≡ lastings_of self.old }
        ensures never { (rest : List Tag) → Accounts self.old rest → IsOk result }
    {
        while let Some(span) = self.slab_reap(arena, cache) {
            self.free_up(span)?;
        }
        Ok(())
    }

    /// Frees a segment, and each imported span that becomes whole by that in its source.
    fn free_up(&mut self, segment: Segment<D>) -> Result<(), Segment<D>>
        ensures caches { AllCachesStay self.old self.new }
        ensures frame { Frames self.old (segment ∷ []) self.new (hand_after_reap result) }
        ensures fixed { plans_of self.new ≡ plans_of self.old }
        ensures lasts { lastings_of self.new ≡ lastings_of self.old }
        ensures never { segment.route ≡ Route.Direct → (rest : List Tag)
            → Accounts self.old (segment ∷ rest) → IsOk result }
    {
        // For its clause: what is always so of a stock.
        let _ = self.count();
        let mut left = self.free(segment)?;
        while let Some(span) = left {
            // For its clause, as above.
            let _ = self.count();
            left = self.free(span)?;
        }
        Ok(())
    }

    /// Takes a segment back that is out: a chunk into its slab, another into its arena, and each
    /// imported span that becomes whole by that into its source. It takes no memory. A segment that
    /// its part refuses comes out; that is never so where the accounts balance.
    pub fn put_back(&mut self, segment: Segment<D>) -> Result<(), Segment<D>>
        ensures frame { Frames self.old (segment ∷ []) self.new (hand_after_reap result) }
        ensures fixed { plans_of self.new ≡ plans_of self.old }
        ensures lasts { lastings_of self.new ≡ lastings_of self.old }
        ensures never { (rest : List Tag) → Accounts self.old (segment ∷ rest) → IsOk result }
    {
        match segment.route() {
            Route::Direct => self.free_up(segment),
            Route::Cached(_) => match self.slab_put(segment) {
                Ok(()) => Ok(()),
                Err(PutFault::NotMine(segment)) => Err(segment),
                Err(PutFault::AtHome(segment)) => Err(segment),
            },
        }
    }
}
