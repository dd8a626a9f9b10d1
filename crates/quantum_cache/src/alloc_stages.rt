//! The stages of an allocation through a cache.
ghost use Rattle.std.specs.Prelude.{◌≡◌, ◌<◌, ◌%◌, length, Some};
ghost use Rattle.arena_tree.specs.Chains.{IsChain, first_id, quantum_in};
ghost use Rattle.arena_tree.specs.Plans.{Ran};
ghost use Rattle.arena_tree.specs.Tags.{tag_climb, tag_climb_fault};
ghost use Rattle.quantum_cache.specs.Allocs.{tag_stage, on_no_slab, take_round, take_from_depot};
ghost use Rattle.quantum_cache.specs.Allocs.{change_over, take_chunk, make_slab, take_from_slab};

use arena_tree::{
    ClimbFault, GivenFault, Level, PartFault, Parts, ReturnFault, climb_alloc, climb_free,
};
use deed_core::{Held, Route};
use magazine_layer::FullFault;
use slab_layer::AddFault;
use tag_arena::ArenaFault;

/// What a stage ends with: None where the next one is tried.
pub(crate) type Stage<S> = Option<Result<S, ClimbFault<S>>>;

/// A round of the CPU's own.
#[tactic(auto, using(crate::proofs::Runs::asks), unfolding(crate::specs::Allocs::take_round))]
pub(crate) fn round<S: Held, P: Parts<S>>(parts: &mut P, arena: u32, cache: u8) -> Stage<S>
    ensures ran { Ran P.step P.tree P.count P.rounds (take_round arena cache)
        parts.old parts.new (tag_stage S.tag result) }
    ensures tree { P.tree parts.new ≡ P.tree parts.old }
{
    match parts.pop(arena, cache) {
        Ok(Some(segment)) => Some(Ok(segment)),
        Ok(None) => None,
        Err(_) => Some(Err(ClimbFault::Stopped(None))),
    }
}

/// The CPU changes over to magazines of this size, and the next stage is tried.
#[tactic(auto, using(crate::proofs::Runs::asks), unfolding(crate::specs::Allocs::change_over))]
fn change_over<S: Held, P: Parts<S>>(parts: &mut P, arena: u32, cache: u8, size: usize) -> Stage<S>
    ensures ran { Ran P.step P.tree P.count P.rounds (change_over arena cache size)
        parts.old parts.new (tag_stage S.tag result) }
    ensures tree { P.tree parts.new ≡ P.tree parts.old }
{
    match parts.change(arena, cache, size) {
        Ok(()) => None,
        Err(PartFault::Refused(_)) => None,
        Err(PartFault::Stopped) => Some(Err(ClimbFault::Stopped(None))),
    }
}

/// An exchange for a full magazine of the depot, then a round.
#[tactic(auto, using(crate::proofs::Runs::asks), unfolding(crate::specs::Allocs::take_from_depot))]
pub(crate) fn depot_round<S: Held, P: Parts<S>>(parts: &mut P, arena: u32, cache: u8) -> Stage<S>
    ensures ran { Ran P.step P.tree P.count P.rounds (take_from_depot arena cache)
        parts.old parts.new (tag_stage S.tag result) }
    ensures tree { P.tree parts.new ≡ P.tree parts.old }
{
    match parts.swap_full(arena, cache) {
        Ok(()) => round(parts, arena, cache),
        Err(PartFault::Refused(FullFault::OldSize(size))) => change_over(parts, arena, cache, size),
        Err(PartFault::Refused(FullFault::NoneFull)) => None,
        Err(PartFault::Stopped) => Some(Err(ClimbFault::Stopped(None))),
    }
}

/// An idle chunk of a slab.
#[tactic(auto, using(crate::proofs::Runs::asks), unfolding(crate::specs::Allocs::take_chunk))]
pub(crate) fn chunk<S: Held, P: Parts<S>>(parts: &mut P, arena: u32, cache: u8) -> Stage<S>
    ensures ran { Ran P.step P.tree P.count P.rounds (take_chunk arena cache)
        parts.old parts.new (tag_stage S.tag result) }
    ensures tree { P.tree parts.new ≡ P.tree parts.old }
{
    match parts.slab_take(arena, cache) {
        Ok(Some(segment)) => Some(Ok(segment)),
        Ok(None) => None,
        Err(_) => Some(Err(ClimbFault::Stopped(None))),
    }
}

/// The span becomes a slab, or goes back where it is out of memory for that.
#[tactic(auto, using(crate::proofs::Runs::goes_on), unfolding(crate::specs::Allocs::make_slab))]
fn make_slab<S: Held, P: Parts<S>>(
    parts: &mut P,
    chain: &[Level],
    arena: u32,
    cache: u8,
    span: S,
) -> Result<S, ClimbFault<S>>
    requires chain { IsChain (P.tree parts.old) chain.now }
    requires first { first_id chain.now ≡ Some arena }
    requires within { arena < length (P.tree parts.old) }
    requires arena { (S.tag span).arena ≡ arena }
    requires direct { (S.tag span).route ≡ Route.Direct }
    requires grid { (S.tag span).holding.range.base % quantum_in (P.tree parts.old) arena ≡ 0 }
    ensures ran { Ran P.step P.tree P.count P.rounds (make_slab chain.now arena cache (S.tag span))
        parts.old parts.new (tag_climb S.tag result) }
    ensures tree { P.tree parts.new ≡ P.tree parts.old }
{
    match parts.slab_add(arena, cache, span) {
        Ok(segment) => Ok(segment),
        Err(GivenFault::Refused(AddFault::WrongSize(same))) => Err(ClimbFault::Stuck(same)),
        Err(GivenFault::Refused(AddFault::Overlaps(same))) => Err(ClimbFault::Stuck(same)),
        Err(GivenFault::Stopped(same)) => Err(ClimbFault::Stopped(Some(same))),
        Err(GivenFault::Refused(AddFault::NoMemory(same))) => match climb_free(parts, chain, same) {
            Ok(()) => Err(ClimbFault::Refused(ArenaFault::NoMemory)),
            Err(ReturnFault::Stuck(same)) => Err(ClimbFault::Stuck(same)),
            Err(ReturnFault::Stopped(same)) => Err(ClimbFault::Stopped(Some(same))),
        },
    }
}

/// After NoFit alone the next stage is tried.
fn unless_no_fit<S: Held>(fault: ClimbFault<S>) -> Stage<S>
    ensures { tag_stage S.tag result ≡ on_no_slab (tag_climb_fault S.tag fault) }
{
    match fault {
        ClimbFault::Refused(ArenaFault::NoFit) => None,
        fault => Some(Err(fault)),
    }
}

/// The first chunk of a new slab.
#[tactic(auto, using(crate::proofs::Runs::ends), unfolding(crate::specs::Allocs::take_from_slab))]
pub(crate) fn slab_chunk<S: Held, P: Parts<S>>(
    parts: &mut P,
    chain: &[Level],
    level: &Level,
    cache: u8,
) -> Stage<S>
    requires chain { IsChain (P.tree parts.old) chain.now }
    requires first { first_id chain.now ≡ Some level.now.id }
    ensures ran { Ran P.step P.tree P.count P.rounds (take_from_slab chain.now level.now cache)
        parts.old parts.new (tag_stage S.tag result) }
    ensures tree { P.tree parts.new ≡ P.tree parts.old }
{
    match climb_alloc(parts, chain, level.slab_size) {
        Ok(span) => Some(make_slab(parts, chain, level.id, cache, span)),
        Err(fault) => unless_no_fit(fault),
    }
}
