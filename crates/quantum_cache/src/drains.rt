//! What empties a CPU's magazines.
ghost use Rattle.std.specs.Prelude.{◌≡◌, ℕ, ◌+◌, ◌<◌, ◌≤◌, All, IfNone, length};
ghost use Rattle.arena_tree.specs.Plans.{Ran};
ghost use Rattle.quantum_cache.specs.Caches.{over_caches, over_arenas, chain_in};
ghost use Rattle.quantum_cache.specs.Drains.{tag_turn, drain_turn, drain_end, tag_emptying};
ghost use Rattle.quantum_cache.specs.Drains.{drain_cache_plan, drain_arena_plan, drain_plan};

use crate::emptying_faults::EmptyingFault;
use crate::frees::put_back;
use arena_tree::{Level, Parts, ReturnFault, Tree, cache_count};
use deed_core::Held;

/// A round goes to its slab. None where there may be more.
#[tactic(auto, using(crate::proofs::Runs::goes_on), unfolding(crate::specs::Drains::drain_turn))]
fn drain_one<S: Held, P: Parts<S>>(
    parts: &mut P,
    arena: u32,
    cache: u8,
) -> Option<Result<(), EmptyingFault<S>>>
    ensures ran { Ran P.step P.tree P.count P.rounds (drain_turn arena cache)
        parts.old parts.new (tag_turn S.tag result) }
    ensures fewer { IfNone result (P.rounds parts.new < P.rounds parts.old) }
    ensures no_more { P.rounds parts.new ≤ P.rounds parts.old }
    ensures few { P.count parts.new + P.rounds parts.new ≤ P.count parts.old + P.rounds parts.old }
    ensures tree { P.tree parts.new ≡ P.tree parts.old }
{
    match parts.pop(arena, cache) {
        Ok(None) => Some(Ok(())),
        Ok(Some(segment)) => match put_back(parts, segment) {
            Ok(()) => None,
            Err(ReturnFault::Stuck(same)) => Some(Err(EmptyingFault::Stuck(same))),
            Err(ReturnFault::Stopped(same)) => Some(Err(EmptyingFault::Stopped(Some(same)))),
        },
        Err(_) => Some(Err(EmptyingFault::Stopped(None))),
    }
}

/// The rounds of one cache.
fn drain_rounds<S: Held, P: Parts<S>>(
    parts: &mut P,
    arena: u32,
    cache: u8,
) -> Result<(), EmptyingFault<S>>
    ensures ran { (turns : ℕ) → P.rounds parts.old < turns
        → Ran P.step P.tree P.count P.rounds (drain_cache_plan turns arena cache)
        parts.old parts.new (drain_end (tag_emptying S.tag result)) }
    ensures no_more { P.rounds parts.new ≤ P.rounds parts.old }
    ensures few { P.count parts.new + P.rounds parts.new ≤ P.count parts.old + P.rounds parts.old }
    ensures tree { P.tree parts.new ≡ P.tree parts.old }
{
    'rounds: loop {
        match drain_one(parts, arena, cache) {
            Some(answer) => return answer,
            None => {}
        }
    }
}

/// The last so many of all caches of an arena.
fn drain_caches<S: Held, P: Parts<S>>(
    parts: &mut P,
    arena: u32,
    all: u8,
    left: u8,
) -> Result<(), EmptyingFault<S>>
    requires { left ≤ all }
    ensures ran { (turns : ℕ) → P.rounds parts.old < turns
        → Ran P.step P.tree P.count P.rounds
        (over_caches (λ cache _. drain_cache_plan turns arena cache) all left tt)
        parts.old parts.new (drain_end (tag_emptying S.tag result)) }
    ensures no_more { P.rounds parts.new ≤ P.rounds parts.old }
    ensures few { P.count parts.new + P.rounds parts.new ≤ P.count parts.old + P.rounds parts.old }
    ensures tree { P.tree parts.new ≡ P.tree parts.old }
{
    if left == 0 {
        return Ok(());
    }
    match drain_rounds(parts, arena, all - left + 1) {
        Ok(()) => drain_caches(parts, arena, all, left - 1),
        Err(fault) => Err(fault),
    }
}

/// The arenas below this number.
fn drain_below<S: Held, P: Parts<S>>(
    parts: &mut P,
    tree: &Tree,
    end: u32,
) -> Result<(), EmptyingFault<S>>
    requires { end ≤ length tree.now }
    ensures ran { (turns : ℕ) → P.rounds parts.old < turns
        → Ran P.step P.tree P.count P.rounds
        (over_arenas (λ id _. drain_arena_plan turns (chain_in tree.now id)) end tt)
        parts.old parts.new (drain_end (tag_emptying S.tag result)) }
    ensures no_more { P.rounds parts.new ≤ P.rounds parts.old }
    ensures few { P.count parts.new + P.rounds parts.new ≤ P.count parts.old + P.rounds parts.old }
    ensures tree { P.tree parts.new ≡ P.tree parts.old }
{
    if end == 0 {
        return Ok(());
    }
    let id = end - 1;
    match drain_chain(parts, tree.chain(id)) {
        Ok(()) => drain_below(parts, tree, id),
        Err(fault) => Err(fault),
    }
}

/// All caches of the chain's first arena.
fn drain_chain<S: Held, P: Parts<S>>(parts: &mut P, chain: &[Level]) -> Result<(), EmptyingFault<S>>
    requires { All (λ l. 0 < l.quantum) chain.now }
    ensures ran { (turns : ℕ) → P.rounds parts.old < turns
        → Ran P.step P.tree P.count P.rounds (drain_arena_plan turns chain.now)
        parts.old parts.new (drain_end (tag_emptying S.tag result)) }
    ensures no_more { P.rounds parts.new ≤ P.rounds parts.old }
    ensures few { P.count parts.new + P.rounds parts.new ≤ P.count parts.old + P.rounds parts.old }
    ensures tree { P.tree parts.new ≡ P.tree parts.old }
{
    let Some((level, _)) = chain.split_first() else {
        return Ok(());
    };
    let caches = cache_count(level.quantum, level.qcache_max);
    drain_caches(parts, level.id, caches, caches)
}

/// Puts all rounds of the CPU's magazines back into their slabs: of each cache of each arena of the
/// tree, until none is left or one is refused. It takes no memory.
pub fn drain<S: Held, P: Parts<S>>(parts: &mut P, tree: &Tree) -> Result<(), EmptyingFault<S>>
    ensures ran { (turns : ℕ) → P.rounds parts.old < turns
        → Ran P.step P.tree P.count P.rounds (drain_plan turns tree.now)
        parts.old parts.new (drain_end (tag_emptying S.tag result)) }
    ensures few { P.count parts.new + P.rounds parts.new ≤ P.count parts.old + P.rounds parts.old }
    ensures tree { P.tree parts.new ≡ P.tree parts.old }
{
    drain_below(parts, tree, tree.len() as u32)
}
