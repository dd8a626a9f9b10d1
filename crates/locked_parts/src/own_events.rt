//! The events of a CPU's own magazines, by themselves and with a depot of the parts.
ghost use Rattle.std.specs.Prelude.{◌≡◌, ◌<◌, IfSome, IfNone, OnErr, length};
ghost use Rattle.arena_tree.specs.Events.{Pop, Push, Change, SwapFull, SwapEmpty, SwapFresh};
ghost use Rattle.arena_tree.specs.Sound.{PopsRound, PushesRound};
ghost use Rattle.arena_tree.specs.Trees.{nodes_of};
ghost use Rattle.locked_parts.specs.Answers.{AnswersSoundly};
ghost use Rattle.locked_parts.specs.Kinds.{OwnCacheState, AreForSame, count_of_rounds};
ghost use Rattle.locked_parts.specs.Owns.{IsOwnAt, HasNoOwn, OwnStep};
ghost use Rattle.locked_parts.specs.Saying.{CameBy};

use crate::gates::NextStep;
use crate::kind_depots::end_empty;
use crate::kinds::CacheKind;
use crate::own_caches::OwnCache;
use crate::parts::LockedParts;
use crate::said::Said;
use arena_tree::{ChangeFault, FreshFault, GivenFault, PartFault, Stopped};
use deed_core::Segment;
use deed_table::{Name, SeatDeed};
use magazine_layer::{EmptyFault, FullFault, Magazine};
use std::sync::Wait;

/// Where the CPU keeps its magazines for the cache.
fn own_at<N: Name>(
    parts: &LockedParts<N>,
    caches: &[OwnCache<SeatDeed<N>>],
    arena: u32,
    cache: u8,
) -> Option<usize>
    ensures within { IfSome result (λ index. index < length caches.now) }
    ensures at { IfSome result (λ index. (o : OwnCacheState)
        × IsOwnAt parts.now.arenas arena cache caches.now index o) }
    ensures none { IfNone result (HasNoOwn parts.now.arenas arena cache caches.now) }
{
    let tree = parts.tree();
    if arena as usize >= tree.len() || cache == 0 {
        return None;
    }
    let index = parts.own_index(arena, cache);
    if index >= caches.len() {
        return None;
    }
    let quantum = tree.quantum(arena);
    let kind = CacheKind {
        arena,
        number: cache,
        quantum,
    };
    let own = &caches[index];
    if !own.kind.is(&kind) {
        return None;
    }
    Some(index)
}

/// Takes a round out of the CPU's magazines for the cache.
pub(crate) fn pop_in<N: Name>(
    parts: &LockedParts<N>,
    caches: &mut Vec<OwnCache<SeatDeed<N>>>,
    arena: u32,
    cache: u8,
) -> Result<Option<Segment<SeatDeed<N>>>, Stopped>
    ensures does { OwnStep parts.now.arenas (Pop arena cache) result
        caches.old.items caches.new.items }
    ensures sound { AnswersSoundly (nodes_of parts.now.arenas) (Pop arena cache) result }
    ensures moved { PopsRound result (count_of_rounds caches.old.items)
        (count_of_rounds caches.new.items) }
    ensures kinds { AreForSame caches.old.items caches.new.items }
{
    let Some(index) = own_at(parts, caches, arena, cache) else {
        return Ok(None);
    };
    let own = &mut caches[index];
    Ok(own.pop())
}

/// Puts a round into the CPU's magazines for the cache.
pub(crate) fn push_in<N: Name>(
    parts: &LockedParts<N>,
    caches: &mut Vec<OwnCache<SeatDeed<N>>>,
    arena: u32,
    cache: u8,
    segment: Segment<SeatDeed<N>>,
) -> Result<(), GivenFault<Segment<SeatDeed<N>>, Segment<SeatDeed<N>>>>
    ensures does { OwnStep parts.now.arenas (Push arena cache segment) result
        caches.old.items caches.new.items }
    ensures sound { AnswersSoundly (nodes_of parts.now.arenas) (Push arena cache segment) result }
    ensures moved { PushesRound result (count_of_rounds caches.old.items)
        (count_of_rounds caches.new.items) }
    ensures kinds { AreForSame caches.old.items caches.new.items }
{
    let Some(index) = own_at(parts, caches, arena, cache) else {
        return Err(GivenFault::Refused(segment));
    };
    let own = &mut caches[index];
    match own.push(segment) {
        Ok(()) => Ok(()),
        Err(segment) => Err(GivenFault::Refused(segment)),
    }
}

/// Changes the CPU over to magazines of this size for the cache.
pub(crate) fn change_in<N: Name>(
    parts: &LockedParts<N>,
    caches: &mut Vec<OwnCache<SeatDeed<N>>>,
    arena: u32,
    cache: u8,
    size: usize,
) -> Result<(), PartFault<ChangeFault>>
    ensures does { OwnStep parts.now.arenas (Change arena cache size) result
        caches.old.items caches.new.items }
    ensures sound { AnswersSoundly (nodes_of parts.now.arenas) (Change arena cache size) result }
    ensures moved { count_of_rounds caches.new.items ≡ count_of_rounds caches.old.items }
    ensures kinds { AreForSame caches.old.items caches.new.items }
{
    let Some(index) = own_at(parts, caches, arena, cache) else {
        return Err(PartFault::Refused(ChangeFault::NotGreater));
    };
    let own = &mut caches[index];
    match own.change(parts.alloc, size) {
        Ok(()) => Ok(()),
        Err(fault) => Err(PartFault::Refused(fault)),
    }
}

/// Exchanges an empty magazine for a full one of the depot.
#[tactic(auto, using(crate::proofs::Came::got_full))]
pub(crate) fn swap_full_in<N: Name, R: Wait>(
    parts: &LockedParts<N>,
    rt: &R,
    said: &mut Said,
    step: NextStep,
    caches: &mut Vec<OwnCache<SeatDeed<N>>>,
    arena: u32,
    cache: u8,
) -> Result<(), PartFault<FullFault>>
    ensures does { OwnStep parts.now.arenas (SwapFull arena cache) result
        caches.old.items caches.new.items }
    ensures unchanged { OnErr result (caches.new.items ≡ caches.old.items) }
    ensures said { CameBy parts.now caches.old.items step (SwapFull arena cache) result said.new }
    ensures sound { AnswersSoundly (nodes_of parts.now.arenas) (SwapFull arena cache) result }
    ensures kinds { AreForSame caches.old.items caches.new.items }
{
    let Some(own) = own_at(parts, caches, arena, cache) else {
        return Err(PartFault::Refused(FullFault::NoneFull));
    };
    match parts.reach_depot(rt, Some(step), arena, cache) {
        Ok(mut depot) => PartFault::wrap(depot.swap_full(said, step, &mut caches[own])),
        Err(misplaced) => {
            *said = Said::Missing(misplaced);
            Err(PartFault::Refused(FullFault::NoneFull))
        }
    }
}

/// Exchanges a full magazine for an empty one of the depot.
#[tactic(auto, using(crate::proofs::Came::got_empty))]
pub(crate) fn swap_empty_in<N: Name, R: Wait>(
    parts: &LockedParts<N>,
    rt: &R,
    said: &mut Said,
    step: NextStep,
    caches: &mut Vec<OwnCache<SeatDeed<N>>>,
    arena: u32,
    cache: u8,
) -> Result<(), PartFault<EmptyFault>>
    ensures does { OwnStep parts.now.arenas (SwapEmpty arena cache) result
        caches.old.items caches.new.items }
    ensures unchanged { OnErr result (caches.new.items ≡ caches.old.items) }
    ensures said { CameBy parts.now caches.old.items step (SwapEmpty arena cache) result said.new }
    ensures sound { AnswersSoundly (nodes_of parts.now.arenas) (SwapEmpty arena cache) result }
    ensures kinds { AreForSame caches.old.items caches.new.items }
{
    let Some(own) = own_at(parts, caches, arena, cache) else {
        return Err(PartFault::Refused(EmptyFault::NoneEmpty));
    };
    match parts.reach_depot(rt, Some(step), arena, cache) {
        Ok(mut depot) => PartFault::wrap(depot.swap_empty(said, step, &mut caches[own])),
        Err(misplaced) => {
            *said = Said::Missing(misplaced);
            Err(PartFault::Refused(EmptyFault::NoneEmpty))
        }
    }
}

/// Exchanges a full magazine for one that is made. No memory is asked for where they aren't full.
#[tactic(auto, using(crate::proofs::Came::got_fresh))]
pub(crate) fn swap_fresh_in<N: Name, R: Wait>(
    parts: &LockedParts<N>,
    rt: &R,
    said: &mut Said,
    step: NextStep,
    caches: &mut Vec<OwnCache<SeatDeed<N>>>,
    arena: u32,
    cache: u8,
) -> Result<(), PartFault<FreshFault>>
    ensures does { OwnStep parts.now.arenas (SwapFresh arena cache) result
        caches.old.items caches.new.items }
    ensures unchanged { OnErr result (caches.new.items ≡ caches.old.items) }
    ensures said { CameBy parts.now caches.old.items step (SwapFresh arena cache) result said.new }
    ensures sound { AnswersSoundly (nodes_of parts.now.arenas) (SwapFresh arena cache) result }
    ensures kinds { AreForSame caches.old.items caches.new.items }
{
    let Some(own) = own_at(parts, caches, arena, cache) else {
        return Err(PartFault::Refused(FreshFault::NotFull));
    };
    if !caches[own].is_full() {
        return Err(PartFault::Refused(FreshFault::NotFull));
    }
    let size = caches[own].size();
    let Ok(magazine) = Magazine::new(parts.alloc, size) else {
        return Err(PartFault::Refused(FreshFault::NoMemory));
    };
    match parts.reach_depot(rt, Some(step), arena, cache) {
        Ok(mut depot) => {
            PartFault::wrap(depot.swap_fresh(said, step, &mut caches[own], magazine))
        }
        Err(misplaced) => {
            end_empty(magazine);
            *said = Said::Missing(misplaced);
            Err(PartFault::Refused(FreshFault::NotFull))
        }
    }
}
