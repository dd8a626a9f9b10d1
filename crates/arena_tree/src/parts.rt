//! What one CPU can reach: the parts that all share, and its own magazines.
ghost use Rattle.std.specs.Prelude.{◌≡◌, ℕ, ◌%◌, ◌<◌, ◌≤◌, List, Some, length};
ghost use Rattle.deed_core.specs.Request.{rounding_of};
ghost use Rattle.arena_tree.specs.Chains.{Node, source_of, quantum_in};
ghost use Rattle.arena_tree.specs.Events.{Event, AnswerTo, Carve, Free, AddCarve, SlabTake};
ghost use Rattle.arena_tree.specs.Events.{SlabPut, SlabAdd, SlabReap, SwapFull, SwapEmpty};
ghost use Rattle.arena_tree.specs.Events.{SwapFresh, DepotReap, Pop, Push, Change};
ghost use Rattle.arena_tree.specs.Plans.{Step};
ghost use Rattle.arena_tree.specs.Tags.{tag_ok, tag_all, tag_free, tag_add, tag_put, tag_slab};
ghost use Rattle.arena_tree.specs.Tags.{tag_push};

use crate::part_faults::{ChangeFault, FreshFault, GivenFault, PartFault, Stopped};
use deed_core::{Held, Request, Route};
use magazine_layer::{EmptyFault, FullFault};
use slab_layer::{AddFault, PutFault};
use tag_arena::{ArenaFault, SpanFault};

/// What one CPU can reach, over segments that are known by their tags. Each call is one event;
/// where the CPU is to stop it answers Stopped, and nothing is done. All but the last three happen
/// in one part that is shared, under its lock, if it has one. `pop`, `push` and `change` are the
/// CPU's own. Arenas go by their numbers, and caches by theirs: the cache `k` is for `k` quanta.
pub trait Parts<S: Held> {
    // what is known of an event: the parts before it, the event, its answer, the parts after it
    ghost step: { Self → (e : Event) → AnswerTo e → Self → Type 0 };

    // the arenas by number
    ghost tree: { Self → List Node };

    // how many events of shared parts there were, without those that were stopped
    ghost count: { Self → ℕ };

    // how many rounds the CPU's magazines have
    ghost rounds: { Self → ℕ };

    /// How many events of shared parts there were; those that were stopped don't count. It stays at
    /// the greatest number.
    fn steps(&self) -> u64
        ensures { result ≡ count self.now };

    /// Carves a segment from the arena.
    fn carve(&mut self, arena: u32, request: &Request) -> Result<S, PartFault<ArenaFault>>
        requires { arena < length (tree self.old) }
        ensures { Step step tree count rounds self.old (Carve arena request.now)
            (tag_ok S.tag result) self.new };

    /// Frees a segment in its arena. An imported span that it makes whole comes out, as the segment
    /// of the source that it was. It is refused where the arena hasn't allocated it.
    fn free(&mut self, segment: S) -> Result<Option<S>, GivenFault<S, S>>
        ensures { Step step tree count rounds self.old (Free (S.tag segment))
            (tag_free S.tag result) self.new };

    /// Adds a span that the arena imports, and carves its first units.
    fn add_carve(
        &mut self,
        child: u32,
        segment: S,
        size: u64,
    ) -> Result<S, GivenFault<SpanFault<S>, S>>
        requires child { child < length (tree self.old) }
        requires source { source_of (tree self.old) child ≡ Some (S.tag segment).arena }
        requires some { 0 < size }
        requires room { rounding_of (quantum_in (tree self.old) child) size
            ≤ (S.tag segment).holding.range.len }
        requires direct { (S.tag segment).route ≡ Route.Direct }
        ensures { Step step tree count rounds self.old (AddCarve child (S.tag segment) size)
            (tag_add S.tag result) self.new };

    /// Takes a chunk out of a slab of the cache, if one is idle.
    fn slab_take(&mut self, arena: u32, cache: u8) -> Result<Option<S>, Stopped>
        ensures { Step step tree count rounds self.old (SlabTake arena cache)
            (tag_all S.tag result) self.new };

    /// Puts a chunk back into its slab.
    fn slab_put(&mut self, segment: S) -> Result<(), GivenFault<PutFault<S>, S>>
        ensures { Step step tree count rounds self.old (SlabPut (S.tag segment))
            (tag_put S.tag result) self.new };

    /// Makes a slab of a span, and takes its first chunk.
    fn slab_add(
        &mut self,
        arena: u32,
        cache: u8,
        segment: S,
    ) -> Result<S, GivenFault<AddFault<S>, S>>
        requires within { arena < length (tree self.old) }
        requires arena { (S.tag segment).arena ≡ arena }
        requires direct { (S.tag segment).route ≡ Route.Direct }
        requires grid { (S.tag segment).holding.range.base
            % quantum_in (tree self.old) arena ≡ 0 }
        ensures { Step step tree count rounds self.old (SlabAdd arena cache (S.tag segment))
            (tag_slab S.tag result) self.new };

    /// Takes out the span of a slab of which no chunk is out, if there is one.
    fn slab_reap(&mut self, arena: u32, cache: u8) -> Result<Option<S>, Stopped>
        ensures { Step step tree count rounds self.old (SlabReap arena cache)
            (tag_all S.tag result) self.new };

    /// Exchanges the CPU's previous magazine, which is empty, for a full one of the depot.
    fn swap_full(&mut self, arena: u32, cache: u8) -> Result<(), PartFault<FullFault>>
        ensures { Step step tree count rounds self.old (SwapFull arena cache) result self.new };

    /// Exchanges the CPU's previous magazine, which is full, for an empty one of the depot.
    fn swap_empty(&mut self, arena: u32, cache: u8) -> Result<(), PartFault<EmptyFault>>
        ensures { Step step tree count rounds self.old (SwapEmpty arena cache) result self.new };

    /// Makes a magazine, and puts the CPU's previous one, which is full, into the depot for it.
    fn swap_fresh(&mut self, arena: u32, cache: u8) -> Result<(), PartFault<FreshFault>>
        ensures { Step step tree count rounds self.old (SwapFresh arena cache) result self.new };

    /// Takes a round out of a magazine that may be reaped, if there is one.
    fn depot_reap(&mut self, arena: u32, cache: u8) -> Result<Option<S>, Stopped>
        ensures { Step step tree count rounds self.old (DepotReap arena cache)
            (tag_all S.tag result) self.new };

    /// Takes a round out of the CPU's magazines, if they have one.
    fn pop(&mut self, arena: u32, cache: u8) -> Result<Option<S>, Stopped>
        ensures { Step step tree count rounds self.old (Pop arena cache)
            (tag_all S.tag result) self.new };

    /// Puts a round into the CPU's magazines. It comes back where they have no room, or it is no
    /// chunk of this cache.
    fn push(&mut self, arena: u32, cache: u8, segment: S) -> Result<(), GivenFault<S, S>>
        ensures { Step step tree count rounds self.old (Push arena cache (S.tag segment))
            (tag_push S.tag result) self.new };

    /// Makes two magazines of this size, if it is greater than theirs, and moves all rounds of the
    /// CPU into the first.
    fn change(&mut self, arena: u32, cache: u8, size: usize) -> Result<(), PartFault<ChangeFault>>
        ensures { Step step tree count rounds self.old (Change arena cache size) result self.new };
}
