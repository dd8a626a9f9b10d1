//! Allocation.
ghost use Rattle.std.specs.Prelude.{◌≡◌, ◌+◌, ◌*◌, ◌<◌, ◌≤◌, length, Some, Err, IfOk};
ghost use Rattle.arena_tree.specs.declared.limits.TheConstants.{LONGEST_CHAIN};
ghost use Rattle.arena_tree.specs.Chains.{IsChain, IsGrant, first_id};
ghost use Rattle.arena_tree.specs.Events.{Carve};
ghost use Rattle.arena_tree.specs.Plans.{Ran};
ghost use Rattle.arena_tree.specs.Stops.{Counts, is_stopped};
ghost use Rattle.arena_tree.specs.Tags.{tag_climb, tag_ok};
ghost use Rattle.quantum_cache.specs.Allocs.{alloc_cached, alloc_plan, xalloc_plan};
ghost use Rattle.quantum_cache.specs.Served.{IsServed, AsksForNone};

use crate::alloc_stages::{chunk, depot_round, round, slab_chunk};
use crate::sizes::cache_of;
use arena_tree::{ClimbFault, Level, PartFault, Parts, climb_alloc};
use deed_core::{Held, Request};
use tag_arena::ArenaFault;

/// The first stage that gives a segment; else one that is carved for it.
fn cached<S: Held, P: Parts<S>>(
    parts: &mut P,
    chain: &[Level],
    level: &Level,
    cache: u8,
    size: u64,
) -> Result<S, ClimbFault<S>>
    requires chain { IsChain (P.tree parts.old) chain.now }
    requires first { first_id chain.now ≡ Some level.now.id }
    ensures ran { Ran P.step P.tree P.count P.rounds (alloc_cached chain.now level.now cache size)
        parts.old parts.new (tag_climb S.tag result) }
    ensures tree { P.tree parts.new ≡ P.tree parts.old }
{
    match round(parts, level.id, cache) {
        Some(answer) => return answer,
        None => {}
    }
    match depot_round(parts, level.id, cache) {
        Some(answer) => return answer,
        None => {}
    }
    match chunk(parts, level.id, cache) {
        Some(answer) => return answer,
        None => {}
    }
    match slab_chunk(parts, chain, level, cache) {
        Some(answer) => return answer,
        None => {}
    }
    climb_alloc(parts, chain, size)
}

/// As `alloc`, which says what follows.
fn serve<S: Held, P: Parts<S>>(
    parts: &mut P,
    chain: &[Level],
    size: u64,
) -> Result<S, ClimbFault<S>>
    requires chain { IsChain (P.tree parts.old) chain.now }
    ensures ran { Ran P.step P.tree P.count P.rounds (alloc_plan chain.now size)
        parts.old parts.new (tag_climb S.tag result) }
    ensures tree { P.tree parts.new ≡ P.tree parts.old }
{
    let Some((level, _)) = chain.split_first() else {
        return Err(ClimbFault::Refused(ArenaFault::NoFit));
    };
    match cache_of(level, size) {
        Some(cache) => cached(parts, chain, level, cache, size),
        None => climb_alloc(parts, chain, size),
    }
}

/// Gives `size` units of the chain's first arena, rounded up to its quantum: by its cache for that
/// size, where it has one, or else by a climb. Magazines and Vmem 2001.
pub fn alloc<S: Held, P: Parts<S>>(
    parts: &mut P,
    chain: &[Level],
    size: u64,
) -> Result<S, ClimbFault<S>>
    requires chain { IsChain (P.tree parts.old) chain.now }
    requires short { length chain.now ≤ LONGEST_CHAIN }
    ensures ran { Ran P.step P.tree P.count P.rounds (alloc_plan chain.now size)
        parts.old parts.new (tag_climb S.tag result) }
    ensures granted { IfOk result (λ s. IsServed (P.tree parts.old) chain.now size (S.tag s)) }
    ensures bad { result ≡ Err (ClimbFault.Refused ArenaFault.BadRequest)
        → AsksForNone chain.now size }
    ensures few { P.count parts.new ≤ P.count parts.old + (8 + 2 * length chain.now) }
    ensures tree { P.tree parts.new ≡ P.tree parts.old }
{
    serve(parts, chain, size)
}

/// Gives a segment of the arena that meets the request. It never imports, and goes past the caches.
#[tactic(auto, using(crate::proofs::Runs::asks))]
pub fn xalloc<S: Held, P: Parts<S>>(
    parts: &mut P,
    arena: u32,
    request: &Request,
) -> Result<S, PartFault<ArenaFault>>
    requires arena { arena < length (P.tree parts.old) }
    ensures ran { Ran P.step P.tree P.count P.rounds (xalloc_plan arena request.now)
        parts.old parts.new (tag_ok S.tag result) }
    ensures granted { IfOk result (λ s. IsGrant (P.tree parts.old) arena request.now (S.tag s)) }
    ensures counted { Counts (is_stopped (Carve arena request.now) (tag_ok S.tag result)) 1
        (P.count parts.old) (P.count parts.new) }
    ensures tree { P.tree parts.new ≡ P.tree parts.old }
{
    parts.carve(arena, request)
}
