//! Free.
ghost use Rattle.std.specs.Prelude.{◌≡◌, ◌+◌, ◌≤◌, Some, length};
ghost use Rattle.arena_tree.specs.Chains.{IsChain, first_id};
ghost use Rattle.arena_tree.specs.Plans.{Ran};
ghost use Rattle.arena_tree.specs.Tags.{tag_return};
ghost use Rattle.quantum_cache.specs.Frees.{tag_placing, push_round, push_changed, push_fresh};
ghost use Rattle.quantum_cache.specs.Frees.{push_exchanged, put_chunk, free_cached, free_plan};
ghost use Rattle.quantum_cache.specs.Laws.{free_most};

use crate::placings::Placing;
use arena_tree::{FreshFault, GivenFault, Level, PartFault, Parts, ReturnFault, climb_free};
use deed_core::{Held, Route};
use magazine_layer::EmptyFault;
use slab_layer::PutFault;

/// Into the CPU's own magazines.
#[tactic(auto, using(crate::proofs::Runs::asks), unfolding(crate::specs::Frees::push_round))]
fn push<S: Held, P: Parts<S>>(parts: &mut P, arena: u32, cache: u8, segment: S) -> Placing<S>
    ensures ran { Ran P.step P.tree P.count P.rounds (push_round arena cache (S.tag segment))
        parts.old parts.new (tag_placing S.tag result) }
    ensures tree { P.tree parts.new ≡ P.tree parts.old }
{
    match parts.push(arena, cache, segment) {
        Ok(()) => Placing::Placed,
        Err(GivenFault::Refused(same)) => Placing::Left(same),
        Err(GivenFault::Stopped(same)) => Placing::Stopped(same),
    }
}

/// After the CPU changed over to magazines of this size.
#[tactic(auto, using(crate::proofs::Runs::asks), unfolding(crate::specs::Frees::push_changed))]
fn change_and_push<S: Held, P: Parts<S>>(
    parts: &mut P,
    arena: u32,
    cache: u8,
    size: usize,
    segment: S,
) -> Placing<S>
    ensures ran { Ran P.step P.tree P.count P.rounds
        (push_changed arena cache size (S.tag segment))
        parts.old parts.new (tag_placing S.tag result) }
    ensures tree { P.tree parts.new ≡ P.tree parts.old }
{
    match parts.change(arena, cache, size) {
        Ok(()) => push(parts, arena, cache, segment),
        Err(PartFault::Refused(_)) => Placing::Left(segment),
        Err(PartFault::Stopped) => Placing::Stopped(segment),
    }
}

/// After a full magazine was exchanged for one that was made.
#[tactic(auto, using(crate::proofs::Runs::asks), unfolding(crate::specs::Frees::push_fresh))]
fn freshen_and_push<S: Held, P: Parts<S>>(
    parts: &mut P,
    arena: u32,
    cache: u8,
    segment: S,
) -> Placing<S>
    ensures ran { Ran P.step P.tree P.count P.rounds (push_fresh arena cache (S.tag segment))
        parts.old parts.new (tag_placing S.tag result) }
    ensures tree { P.tree parts.new ≡ P.tree parts.old }
{
    match parts.swap_fresh(arena, cache) {
        Ok(()) => push(parts, arena, cache, segment),
        Err(PartFault::Refused(FreshFault::OldSize(size))) => {
            change_and_push(parts, arena, cache, size, segment)
        }
        Err(PartFault::Refused(_)) => Placing::Left(segment),
        Err(PartFault::Stopped) => Placing::Stopped(segment),
    }
}

/// After a full magazine was exchanged for an empty one of the depot, or for one that was made.
#[tactic(auto, using(crate::proofs::Runs::asks), unfolding(crate::specs::Frees::push_exchanged))]
fn exchange_and_push<S: Held, P: Parts<S>>(
    parts: &mut P,
    arena: u32,
    cache: u8,
    segment: S,
) -> Placing<S>
    ensures ran { Ran P.step P.tree P.count P.rounds (push_exchanged arena cache (S.tag segment))
        parts.old parts.new (tag_placing S.tag result) }
    ensures tree { P.tree parts.new ≡ P.tree parts.old }
{
    match parts.swap_empty(arena, cache) {
        Ok(()) => push(parts, arena, cache, segment),
        Err(PartFault::Refused(EmptyFault::NoneEmpty)) => {
            freshen_and_push(parts, arena, cache, segment)
        }
        Err(PartFault::Refused(EmptyFault::OldSize(size))) => {
            change_and_push(parts, arena, cache, size, segment)
        }
        Err(PartFault::Stopped) => Placing::Stopped(segment),
    }
}

/// Puts a chunk back into its slab.
#[tactic(auto, using(crate::proofs::Runs::asks), unfolding(crate::specs::Frees::put_chunk))]
pub(crate) fn put_back<S: Held, P: Parts<S>>(
    parts: &mut P,
    segment: S,
) -> Result<(), ReturnFault<S>>
    ensures ran { Ran P.step P.tree P.count P.rounds (put_chunk (S.tag segment))
        parts.old parts.new (tag_return S.tag result) }
    ensures tree { P.tree parts.new ≡ P.tree parts.old }
    ensures rounds { P.rounds parts.new ≡ P.rounds parts.old }
{
    match parts.slab_put(segment) {
        Ok(()) => Ok(()),
        Err(GivenFault::Refused(PutFault::NotMine(same))) => Err(ReturnFault::Stuck(same)),
        Err(GivenFault::Refused(PutFault::AtHome(same))) => Err(ReturnFault::Stuck(same)),
        Err(GivenFault::Stopped(same)) => Err(ReturnFault::Stopped(same)),
    }
}

/// The first stage that takes the round; else its slab.
fn keep<S: Held, P: Parts<S>>(
    parts: &mut P,
    arena: u32,
    cache: u8,
    segment: S,
) -> Result<(), ReturnFault<S>>
    ensures ran { Ran P.step P.tree P.count P.rounds (free_cached arena cache (S.tag segment))
        parts.old parts.new (tag_return S.tag result) }
    ensures tree { P.tree parts.new ≡ P.tree parts.old }
{
    let segment = match push(parts, arena, cache, segment) {
        Placing::Left(same) => same,
        Placing::Placed => return Ok(()),
        Placing::Stopped(same) => return Err(ReturnFault::Stopped(same)),
    };
    let segment = match exchange_and_push(parts, arena, cache, segment) {
        Placing::Left(same) => same,
        Placing::Placed => return Ok(()),
        Placing::Stopped(same) => return Err(ReturnFault::Stopped(same)),
    };
    put_back(parts, segment)
}

/// As `free`, which says what follows.
fn place<S: Held, P: Parts<S>>(
    parts: &mut P,
    chain: &[Level],
    segment: S,
) -> Result<(), ReturnFault<S>>
    requires chain { IsChain (P.tree parts.old) chain.now }
    requires first { first_id chain.now ≡ Some (S.tag segment).arena }
    ensures ran { Ran P.step P.tree P.count P.rounds (free_plan chain.now (S.tag segment))
        parts.old parts.new (tag_return S.tag result) }
    ensures tree { P.tree parts.new ≡ P.tree parts.old }
{
    let arena = segment.arena();
    match segment.route() {
        Route::Direct => climb_free(parts, chain, segment),
        Route::Cached(cache) => keep(parts, arena, cache, segment),
    }
}

/// Takes a segment back, of the chain's first arena: a round goes into the CPU's magazines, by an
/// exchange where they are full, or else into its slab; what was carved is freed. Magazines and
/// Vmem 2001.
pub fn free<S: Held, P: Parts<S>>(
    parts: &mut P,
    chain: &[Level],
    segment: S,
) -> Result<(), ReturnFault<S>>
    requires chain { IsChain (P.tree parts.old) chain.now }
    requires first { first_id chain.now ≡ Some (S.tag segment).arena }
    ensures ran { Ran P.step P.tree P.count P.rounds (free_plan chain.now (S.tag segment))
        parts.old parts.new (tag_return S.tag result) }
    ensures few { P.count parts.new
        ≤ P.count parts.old + free_most (S.tag segment).route (length chain.now) }
    ensures tree { P.tree parts.new ≡ P.tree parts.old }
{
    place(parts, chain, segment)
}
