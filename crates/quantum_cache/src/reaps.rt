//! Reaping: rounds of depots go to their slabs, and complete slabs to their arenas.
ghost use Rattle.std.specs.Prelude.{◌≡◌, ◌+◌, ◌-◌, ◌*◌, ◌^◌, ◌<◌, ◌≤◌, length, Some, IfOk, IfSome};
ghost use Rattle.arena_tree.specs.declared.limits.TheConstants.{LONGEST_CHAIN};
ghost use Rattle.quantum_cache.specs.Laws.{looks_left};
ghost use Rattle.arena_tree.specs.Chains.{IsChain, first_id};
ghost use Rattle.arena_tree.specs.Plans.{Ran};
ghost use Rattle.arena_tree.specs.Trees.{nodes_of};
ghost use Rattle.quantum_cache.specs.Caches.{over_caches, over_arenas, chain_in};
ghost use Rattle.quantum_cache.specs.Reaps.{CanCount, tag_look, tag_reap, reap_round, reap_slab};
ghost use Rattle.quantum_cache.specs.Reaps.{reap_steps, reap_cache, reap_arena_plan, reap_plan};

use crate::emptying_faults::EmptyingFault;
use crate::frees::put_back;
use arena_tree::{Level, Parts, ReturnFault, Tree, cache_count, climb_free};
use deed_core::Held;

/// How far a reaping came.
#[derive(Clone, Copy, PartialEq, Eq, Debug)]
pub struct Reaping {
    /// How many of the looks that it might take it didn't take. Where it ended without a fault, and
    /// some are left, its last look at each depot and each slab cache found nothing.
    pub left: u64,
    /// The units of the slabs that it reaped.
    pub units: u128,
}

/// A reaping that ended early.
pub struct ReapFault<S> {
    pub reaping: Reaping,
    pub cause: EmptyingFault<S>,
}

/// One round of the depot goes to its slab. None where there is none.
#[tactic(auto, using(crate::proofs::Runs::goes_on), unfolding(crate::specs::Reaps::reap_round))]
fn one_round<S: Held, P: Parts<S>>(
    parts: &mut P,
    arena: u32,
    cache: u8,
) -> Result<Option<u64>, EmptyingFault<S>>
    ensures ran { Ran P.step P.tree P.count P.rounds (reap_round arena cache)
        parts.old parts.new (tag_look S.tag result) }
    ensures small { IfOk result (λ o. IfSome o (λ units. units < 2 ^ 64)) }
    ensures tree { P.tree parts.new ≡ P.tree parts.old }
{
    match parts.depot_reap(arena, cache) {
        Ok(None) => Ok(None),
        Ok(Some(segment)) => match put_back(parts, segment) {
            Ok(()) => Ok(Some(0)),
            Err(ReturnFault::Stuck(same)) => Err(EmptyingFault::Stuck(same)),
            Err(ReturnFault::Stopped(same)) => Err(EmptyingFault::Stopped(Some(same))),
        },
        Err(_) => Err(EmptyingFault::Stopped(None)),
    }
}

/// One complete slab goes to its arena: its units. None where there is none.
#[tactic(auto, using(crate::proofs::Runs::goes_on), unfolding(crate::specs::Reaps::reap_slab))]
fn one_slab<S: Held, P: Parts<S>>(
    parts: &mut P,
    chain: &[Level],
    arena: u32,
    cache: u8,
) -> Result<Option<u64>, EmptyingFault<S>>
    requires chain { IsChain (P.tree parts.old) chain.now }
    requires first { first_id chain.now ≡ Some arena }
    ensures ran { Ran P.step P.tree P.count P.rounds (reap_slab chain.now arena cache)
        parts.old parts.new (tag_look S.tag result) }
    ensures small { IfOk result (λ o. IfSome o (λ units. units < 2 ^ 64)) }
    ensures tree { P.tree parts.new ≡ P.tree parts.old }
{
    match parts.slab_reap(arena, cache) {
        Ok(None) => Ok(None),
        Ok(Some(segment)) => {
            let units = segment.range().len();
            match climb_free(parts, chain, segment) {
                Ok(()) => Ok(Some(units)),
                Err(ReturnFault::Stuck(same)) => Err(EmptyingFault::Stuck(same)),
                Err(ReturnFault::Stopped(same)) => Err(EmptyingFault::Stopped(Some(same))),
            }
        }
        Err(_) => Err(EmptyingFault::Stopped(None)),
    }
}

/// Rounds of one depot, until there are none.
fn reap_rounds<S: Held, P: Parts<S>>(
    parts: &mut P,
    arena: u32,
    cache: u8,
    before: Reaping,
) -> Result<Reaping, ReapFault<S>>
    requires count { CanCount before }
    ensures ran { Ran P.step P.tree P.count P.rounds (reap_steps (reap_round arena cache) before)
        parts.old parts.new (tag_reap S.tag result) }
    ensures count { IfOk result CanCount }
    ensures tree { P.tree parts.new ≡ P.tree parts.old }
{
    let mut reaping = before;
    'rounds: while reaping.left > 0 {
        reaping.left -= 1;
        match one_round(parts, arena, cache) {
            Ok(Some(more)) => reaping.units += u128::from(more),
            Ok(None) => return Ok(reaping),
            Err(cause) => return Err(ReapFault { reaping, cause }),
        }
    }
    Ok(reaping)
}

/// Complete slabs of one cache, until there are none.
fn reap_slabs<S: Held, P: Parts<S>>(
    parts: &mut P,
    chain: &[Level],
    arena: u32,
    cache: u8,
    before: Reaping,
) -> Result<Reaping, ReapFault<S>>
    requires chain { IsChain (P.tree parts.old) chain.now }
    requires first { first_id chain.now ≡ Some arena }
    requires count { CanCount before }
    ensures ran { Ran P.step P.tree P.count P.rounds
        (reap_steps (reap_slab chain.now arena cache) before)
        parts.old parts.new (tag_reap S.tag result) }
    ensures count { IfOk result CanCount }
    ensures tree { P.tree parts.new ≡ P.tree parts.old }
{
    let mut reaping = before;
    'slabs: while reaping.left > 0 {
        reaping.left -= 1;
        match one_slab(parts, chain, arena, cache) {
            Ok(Some(more)) => reaping.units += u128::from(more),
            Ok(None) => return Ok(reaping),
            Err(cause) => return Err(ReapFault { reaping, cause }),
        }
    }
    Ok(reaping)
}

/// One cache: the rounds of its depot, and then its slabs.
#[tactic(auto, using(crate::proofs::Runs::ends), unfolding(crate::specs::Reaps::reap_cache))]
fn reap_cache<S: Held, P: Parts<S>>(
    parts: &mut P,
    chain: &[Level],
    arena: u32,
    cache: u8,
    before: Reaping,
) -> Result<Reaping, ReapFault<S>>
    requires chain { IsChain (P.tree parts.old) chain.now }
    requires first { first_id chain.now ≡ Some arena }
    requires count { CanCount before }
    ensures ran { Ran P.step P.tree P.count P.rounds (reap_cache chain.now arena cache before)
        parts.old parts.new (tag_reap S.tag result) }
    ensures count { IfOk result CanCount }
    ensures tree { P.tree parts.new ≡ P.tree parts.old }
{
    match reap_rounds(parts, arena, cache, before) {
        Ok(reaping) => reap_slabs(parts, chain, arena, cache, reaping),
        Err(fault) => Err(fault),
    }
}

/// The last so many of all caches of an arena.
fn reap_caches<S: Held, P: Parts<S>>(
    parts: &mut P,
    chain: &[Level],
    arena: u32,
    all: u8,
    left: u8,
    before: Reaping,
) -> Result<Reaping, ReapFault<S>>
    requires chain { IsChain (P.tree parts.old) chain.now }
    requires first { first_id chain.now ≡ Some arena }
    requires left { left ≤ all }
    requires count { CanCount before }
    ensures ran { Ran P.step P.tree P.count P.rounds
        (over_caches (reap_cache chain.now arena) all left before)
        parts.old parts.new (tag_reap S.tag result) }
    ensures count { IfOk result CanCount }
    ensures tree { P.tree parts.new ≡ P.tree parts.old }
{
    if left == 0 {
        return Ok(before);
    }
    match reap_cache(parts, chain, arena, all - left + 1, before) {
        Ok(reaping) => reap_caches(parts, chain, arena, all, left - 1, reaping),
        Err(fault) => Err(fault),
    }
}

/// All caches of the chain's first arena.
fn reap_chain<S: Held, P: Parts<S>>(
    parts: &mut P,
    chain: &[Level],
    before: Reaping,
) -> Result<Reaping, ReapFault<S>>
    requires chain { IsChain (P.tree parts.old) chain.now }
    requires count { CanCount before }
    ensures ran { Ran P.step P.tree P.count P.rounds (reap_arena_plan chain.now before)
        parts.old parts.new (tag_reap S.tag result) }
    ensures count { IfOk result CanCount }
    ensures tree { P.tree parts.new ≡ P.tree parts.old }
{
    let Some((level, _)) = chain.split_first() else {
        return Ok(before);
    };
    let caches = cache_count(level.quantum, level.qcache_max);
    reap_caches(parts, chain, level.id, caches, caches, before)
}

/// The arenas below this number, the last first.
fn reap_below<S: Held, P: Parts<S>>(
    parts: &mut P,
    tree: &Tree,
    end: u32,
    before: Reaping,
) -> Result<Reaping, ReapFault<S>>
    requires tree { P.tree parts.old ≡ nodes_of tree.now }
    requires within { end ≤ length tree.now }
    requires count { CanCount before }
    ensures ran { Ran P.step P.tree P.count P.rounds
        (over_arenas (λ id. reap_arena_plan (chain_in tree.now id)) end before)
        parts.old parts.new (tag_reap S.tag result) }
    ensures tree { P.tree parts.new ≡ P.tree parts.old }
{
    if end == 0 {
        return Ok(before);
    }
    let id = end - 1;
    match reap_chain(parts, tree.chain(id), before) {
        Ok(reaping) => reap_below(parts, tree, id, reaping),
        Err(fault) => Err(fault),
    }
}

/// Reaps all caches of the chain's first arena, from the least size: rounds that the depot may let
/// go move to their slabs, and then slabs of which no chunk is out to the arena, and spans that
/// they make whole to its source. It looks at most `limit` times. The Slab Allocator 1994;
/// Magazines and Vmem 2001.
pub fn reap_arena<S: Held, P: Parts<S>>(
    parts: &mut P,
    chain: &[Level],
    limit: u64,
) -> Result<Reaping, ReapFault<S>>
    requires chain { IsChain (P.tree parts.old) chain.now }
    ensures ran { Ran P.step P.tree P.count P.rounds
        (reap_arena_plan chain.now (record { left = limit; units = 0 }))
        parts.old parts.new (tag_reap S.tag result) }
    ensures few { length chain.now ≤ LONGEST_CHAIN → P.count parts.new ≤ P.count parts.old
        + (1 + LONGEST_CHAIN) * (limit - looks_left (tag_reap S.tag result)) }
    ensures tree { P.tree parts.new ≡ P.tree parts.old }
{
    let start = Reaping {
        left: limit,
        units: 0,
    };
    reap_chain(parts, chain, start)
}

/// Reaps all arenas of the tree, the last first, each as `reap_arena` does, in at most `limit`
/// looks in all.
pub fn reap<S: Held, P: Parts<S>>(
    parts: &mut P,
    tree: &Tree,
    limit: u64,
) -> Result<Reaping, ReapFault<S>>
    requires tree { P.tree parts.old ≡ nodes_of tree.now }
    ensures ran { Ran P.step P.tree P.count P.rounds (reap_plan tree.now limit)
        parts.old parts.new (tag_reap S.tag result) }
    ensures few { P.count parts.new ≤ P.count parts.old
        + (1 + LONGEST_CHAIN) * (limit - looks_left (tag_reap S.tag result)) }
    ensures tree { P.tree parts.new ≡ P.tree parts.old }
{
    let start = Reaping {
        left: limit,
        units: 0,
    };
    reap_below(parts, tree, tree.len() as u32, start)
}
