//! The events of arenas, slabs and depots in a parts. Each takes one lock; which magazines the CPU
//! has plays no part.
ghost use Rattle.std.specs.Prelude.{◌≡◌, ◌<◌, ◌≤◌, ◌%◌, [], length};
ghost use Rattle.deed_core.specs.Request.{rounding_of};
ghost use Rattle.arena_tree.specs.Chains.{quantum_in};
ghost use Rattle.arena_tree.specs.Events.{Carve, Free, AddCarve, SlabTake, SlabPut, SlabAdd};
ghost use Rattle.arena_tree.specs.Events.{SlabReap, DepotReap};
ghost use Rattle.arena_tree.specs.Trees.{nodes_of};
ghost use Rattle.locked_parts.specs.Answers.{AnswersSoundly};
ghost use Rattle.locked_parts.specs.Saying.{CameBy};

use crate::gates::NextStep;
use crate::parts::LockedParts;
use crate::said::Said;
use crate::slab_parts::{add_slab, cache_number, put_chunk, reap_slab, take_chunk};
use arena_tree::{GivenFault, PartFault, Stopped};
use deed_core::{Request, Route, Segment};
use deed_table::{Name, SeatDeed};
use slab_layer::{AddFault, PutFault};
use std::sync::Wait;
use tag_arena::{ArenaFault, SpanFault};

/// Carves a segment from the arena.
#[tactic(auto, using(crate::proofs::Came::carved))]
pub(crate) fn carve_in<N: Name, R: Wait>(
    parts: &LockedParts<N>,
    rt: &R,
    said: &mut Said,
    step: NextStep,
    arena: u32,
    request: &Request,
) -> Result<Segment<SeatDeed<N>>, PartFault<ArenaFault>>
    requires { arena < length parts.now.arenas }
    ensures sound { AnswersSoundly (nodes_of parts.now.arenas) (Carve arena request.now) result }
    ensures said { CameBy parts.now [] step (Carve arena request.now) result said.new }
{
    match parts.reach_arena(rt, Some(step), arena) {
        Ok(mut part) => PartFault::wrap(part.carve(said, step, request)),
        Err(misplaced) => {
            *said = Said::Missing(misplaced);
            if request.is_good(parts.tree().quantum(arena)) {
                return Err(PartFault::Refused(ArenaFault::NoMemory));
            }
            Err(PartFault::Refused(ArenaFault::BadRequest))
        }
    }
}

/// Frees a segment in its arena.
#[tactic(auto, using(crate::proofs::Came::freed))]
pub(crate) fn free_in<N: Name, R: Wait>(
    parts: &LockedParts<N>,
    rt: &R,
    said: &mut Said,
    step: NextStep,
    segment: Segment<SeatDeed<N>>,
) -> Result<Option<Segment<SeatDeed<N>>>, GivenFault<Segment<SeatDeed<N>>, Segment<SeatDeed<N>>>>
    ensures sound { AnswersSoundly (nodes_of parts.now.arenas) (Free segment) result }
    ensures said { CameBy parts.now [] step (Free segment) result said.new }
{
    match parts.reach_arena(rt, Some(step), segment.arena()) {
        Ok(mut part) => GivenFault::wrap(part.free(said, step, segment)),
        Err(misplaced) => {
            *said = Said::Missing(misplaced);
            Err(GivenFault::Refused(segment))
        }
    }
}

/// Adds a span that the arena imports, and carves its first units.
#[tactic(auto, using(crate::proofs::Came::added))]
pub(crate) fn add_carve_in<N: Name, R: Wait>(
    parts: &LockedParts<N>,
    rt: &R,
    said: &mut Said,
    step: NextStep,
    child: u32,
    span: Segment<SeatDeed<N>>,
    size: u64,
) -> Result<Segment<SeatDeed<N>>, GivenFault<SpanFault<Segment<SeatDeed<N>>>, Segment<SeatDeed<N>>>>
    requires child { child < length parts.now.arenas }
    requires some { 0 < size }
    requires room { rounding_of (quantum_in (nodes_of parts.now.arenas) child) size
        ≤ span.holding.range.len }
    requires direct { span.route ≡ Route.Direct }
    ensures sound { AnswersSoundly (nodes_of parts.now.arenas) (AddCarve child span size) result }
    ensures said { CameBy parts.now [] step (AddCarve child span size) result said.new }
{
    match parts.reach_arena(rt, Some(step), child) {
        Ok(mut part) => GivenFault::wrap(part.add_carve(said, step, span, size)),
        Err(misplaced) => {
            *said = Said::Missing(misplaced);
            Err(GivenFault::Refused(SpanFault::Overlaps(span)))
        }
    }
}

/// Takes a chunk out of a slab of the cache.
#[tactic(auto, using(crate::proofs::Came::taken))]
pub(crate) fn slab_take_in<N: Name, R: Wait>(
    parts: &LockedParts<N>,
    rt: &R,
    said: &mut Said,
    step: NextStep,
    arena: u32,
    cache: u8,
) -> Result<Option<Segment<SeatDeed<N>>>, Stopped>
    ensures sound { AnswersSoundly (nodes_of parts.now.arenas) (SlabTake arena cache) result }
    ensures said { CameBy parts.now [] step (SlabTake arena cache) result said.new }
{
    match parts.reach_slabs(rt, Some(step), arena, cache) {
        Ok((kind, mut slab)) => Ok(take_chunk(&mut slab, said, step, &kind)),
        Err(misplaced) => {
            *said = Said::Missing(misplaced);
            Ok(None)
        }
    }
}

/// Puts a chunk back into its slab.
#[tactic(auto, using(crate::proofs::Came::put_back))]
pub(crate) fn slab_put_in<N: Name, R: Wait>(
    parts: &LockedParts<N>,
    rt: &R,
    said: &mut Said,
    step: NextStep,
    segment: Segment<SeatDeed<N>>,
) -> Result<(), GivenFault<PutFault<Segment<SeatDeed<N>>>, Segment<SeatDeed<N>>>>
    ensures sound { AnswersSoundly (nodes_of parts.now.arenas) (SlabPut segment) result }
    ensures said { CameBy parts.now [] step (SlabPut segment) result said.new }
{
    let number = cache_number(segment.route());
    match parts.reach_slabs(rt, Some(step), segment.arena(), number) {
        Ok((kind, mut slab)) => {
            GivenFault::wrap(put_chunk(&mut slab, said, step, &kind, segment))
        }
        Err(misplaced) => {
            *said = Said::Missing(misplaced);
            Err(GivenFault::Refused(PutFault::NotMine(segment)))
        }
    }
}

/// Makes a slab of the span, and takes its first chunk.
#[tactic(auto, using(crate::proofs::Came::slab_made))]
pub(crate) fn slab_add_in<N: Name, R: Wait>(
    parts: &LockedParts<N>,
    rt: &R,
    said: &mut Said,
    step: NextStep,
    arena: u32,
    cache: u8,
    span: Segment<SeatDeed<N>>,
) -> Result<Segment<SeatDeed<N>>, GivenFault<AddFault<Segment<SeatDeed<N>>>, Segment<SeatDeed<N>>>>
    requires of_arena { span.arena ≡ arena }
    requires direct { span.route ≡ Route.Direct }
    requires grid { span.holding.range.base % quantum_in (nodes_of parts.now.arenas) arena ≡ 0 }
    ensures sound { AnswersSoundly (nodes_of parts.now.arenas) (SlabAdd arena cache span) result }
    ensures said { CameBy parts.now [] step (SlabAdd arena cache span) result said.new }
{
    match parts.reach_slabs(rt, Some(step), arena, cache) {
        Ok((kind, mut slab)) => GivenFault::wrap(add_slab(&mut slab, said, step, &kind, span)),
        Err(misplaced) => {
            *said = Said::Missing(misplaced);
            Err(GivenFault::Refused(AddFault::WrongSize(span)))
        }
    }
}

/// Takes a slab out of which no chunk is.
#[tactic(auto, using(crate::proofs::Came::reaped))]
pub(crate) fn slab_reap_in<N: Name, R: Wait>(
    parts: &LockedParts<N>,
    rt: &R,
    said: &mut Said,
    step: NextStep,
    arena: u32,
    cache: u8,
) -> Result<Option<Segment<SeatDeed<N>>>, Stopped>
    ensures sound { AnswersSoundly (nodes_of parts.now.arenas) (SlabReap arena cache) result }
    ensures said { CameBy parts.now [] step (SlabReap arena cache) result said.new }
{
    match parts.reach_slabs(rt, Some(step), arena, cache) {
        Ok((kind, mut slab)) => Ok(reap_slab(&mut slab, said, step, &kind)),
        Err(misplaced) => {
            *said = Said::Missing(misplaced);
            Ok(None)
        }
    }
}

/// Takes a round that the depot may let go.
#[tactic(auto, using(crate::proofs::Came::round_reaped))]
pub(crate) fn depot_reap_in<N: Name, R: Wait>(
    parts: &LockedParts<N>,
    rt: &R,
    said: &mut Said,
    step: NextStep,
    arena: u32,
    cache: u8,
) -> Result<Option<Segment<SeatDeed<N>>>, Stopped>
    ensures sound { AnswersSoundly (nodes_of parts.now.arenas) (DepotReap arena cache) result }
    ensures said { CameBy parts.now [] step (DepotReap arena cache) result said.new }
{
    match parts.reach_depot(rt, Some(step), arena, cache) {
        Ok(mut depot) => Ok(depot.reap_at(said, step)),
        Err(misplaced) => {
            *said = Said::Missing(misplaced);
            Ok(None)
        }
    }
}
