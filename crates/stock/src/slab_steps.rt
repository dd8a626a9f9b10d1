//! The events on the slabs of a quantum cache: slab_take, slab_put, slab_add, slab_reap.
ghost use Rattle.std.specs.Prelude.{◌≡◌, ◌↔◌, ℕ, ◌+◌, List, [], ◌∷◌};
ghost use Rattle.std.specs.Prelude.{IfSome, IfNone, IfOk, IsOk, IsTrue};
ghost use Rattle.std.specs.Option.{option_to_list};
ghost use Rattle.deed_core.specs.Tag.{Tag};
ghost use Rattle.slab_layer.specs.Calls.{TakeOf, AddOf, ReapOf};
ghost use Rattle.stock.specs.Spaces.{HasCache, plans_of};
ghost use Rattle.stock.specs.Accounts.{Accounts, Frames};
ghost use Rattle.stock.specs.Steps.{OnSlab, PutIn, NamesNoCache, IsOnGridOf, IsRoundIn};
ghost use Rattle.stock.specs.Answers.{hand_after_put, hand_after_add, NeverOverlaps};

use crate::stocks::Stock;
use deed_core::{Deed, Route, Segment};
use slab_layer::{AddFault, PutFault};

impl<D: Deed> Stock<D> {
    /// Takes the chunk that the cache gives next out of its slabs. It takes no memory.
    pub fn slab_take(&mut self, arena: usize, cache: usize) -> Option<Segment<D>>
        requires has { HasCache self.old arena cache }
        ensures taken { OnSlab arena cache (λ a b. TakeOf a result b) self.old self.new }
        ensures chunk { IfSome result (IsRoundIn self.old arena cache) }
        ensures frame { Frames self.old [] self.new (option_to_list result) }
        ensures fixed { plans_of self.new ≡ plans_of self.old }
    {
        let space = &mut self.spaces[arena];
        let opened = &mut space.caches[cache];
        opened.slab.take()
    }

    /// Takes the lowest slab with all chunks at home out, to be freed in its arena. It takes no
    /// memory.
    pub fn slab_reap(&mut self, arena: usize, cache: usize) -> Option<Segment<D>>
        requires has { HasCache self.old arena cache }
        ensures reaped { OnSlab arena cache (λ a b. ReapOf a result b) self.old self.new }
        ensures frame { Frames self.old [] self.new (option_to_list result) }
        ensures fixed { plans_of self.new ≡ plans_of self.old }
    {
        let space = &mut self.spaces[arena];
        let opened = &mut space.caches[cache];
        opened.slab.reap()
    }

    /// Cuts a span of the arena into a slab of the cache, and gives its first chunk. A span that is
    /// out is never refused as overlapping.
    pub fn slab_add(
        &mut self,
        arena: usize,
        cache: usize,
        span: Segment<D>,
    ) -> Result<Segment<D>, AddFault<Segment<D>>>
        requires has { HasCache self.old arena cache }
        requires span { (span.arena ≡ arena) × (span.route ≡ Route.Direct) }
        requires grid { IsOnGridOf self.old arena span }
        ensures added { OnSlab arena cache (λ a b. AddOf a span result b) self.old self.new }
        ensures chunk { IfOk result (IsRoundIn self.old arena cache) }
        ensures frame { Frames self.old (span ∷ []) self.new (hand_after_add result) }
        ensures fixed { plans_of self.new ≡ plans_of self.old }
        ensures never { (rest : List Tag) → Accounts self.old (span ∷ rest)
            → NeverOverlaps result }
    {
        let space = &mut self.spaces[arena];
        let opened = &mut space.caches[cache];
        opened.slab.add(span)
    }

    /// Takes a chunk back into the slabs that it was cut from. It takes no memory, and refuses no
    /// chunk that is out of all parts.
    pub fn slab_put(&mut self, segment: Segment<D>) -> Result<(), PutFault<Segment<D>>>
        ensures put { PutIn self.old segment result self.new }
        ensures frame { Frames self.old (segment ∷ []) self.new (hand_after_put result) }
        ensures fixed { plans_of self.new ≡ plans_of self.old }
        ensures never { (k : ℕ) → segment.route ≡ Route.Cached k → (rest : List Tag)
            → Accounts self.old (segment ∷ rest) → IsOk result }
    {
        let Some((arena, cache)) = self.cache_of(&segment) else {
            return Err(PutFault::NotMine(segment));
        };
        let space = &mut self.spaces[arena];
        let opened = &mut space.caches[cache];
        opened.slab.put(segment)
    }

    /// Whether the arena and the cache stand at these indexes.
    pub fn has_cache(&self, arena: usize, cache: usize) -> bool
        ensures { IsTrue result ↔ HasCache self.now arena cache }
    {
        if arena >= self.spaces.len() {
            return false;
        }
        let space = &self.spaces[arena];
        cache < space.caches.len()
    }

    /// The index of the arena's cache of chunks of `k` quanta.
    pub fn cache_at(&self, arena: u32, k: u8) -> Option<usize>
        ensures some { IfSome result (λ j. (k ≡ j + 1) × HasCache self.now arena j) }
        ensures none { IfNone result ((j : ℕ) → k ≡ j + 1 → ¬ HasCache self.now arena j) }
    {
        let index = arena as usize;
        if index >= self.spaces.len() {
            return None;
        }
        let space = &self.spaces[index];
        let count = k as usize;
        if count == 0 {
            return None;
        }
        if count > space.caches.len() {
            return None;
        }
        Some(count - 1)
    }

    /// The indexes of the arena and the cache that a chunk names.
    fn cache_of(&self, segment: &Segment<D>) -> Option<(usize, usize)>
        ensures some { IfSome result (λ p. (segment.now.arena ≡ p.0)
            × (segment.now.route ≡ Route.Cached (p.1 + 1)) × HasCache self.now p.0 p.1) }
        ensures none { IfNone result (NamesNoCache self.now segment.now) }
    {
        let Route::Cached(k) = segment.route() else {
            return None;
        };
        let arena = segment.arena();
        let Some(cache) = self.cache_at(arena, k) else {
            return None;
        };
        Some((arena as usize, cache))
    }
}
