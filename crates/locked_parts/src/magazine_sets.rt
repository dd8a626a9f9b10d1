//! All magazines of one CPU.
ghost use Rattle.std.specs.Prelude.{◌≡◌, ◌<◌, ◌++◌, All, length, map, IfOk, OnOk};
ghost use Rattle.arena_tree.specs.Chains.{quantum_in};
ghost use Rattle.arena_tree.specs.Trees.{nodes_of};
ghost use Rattle.magazine_layer.specs.Magazines.{BothEmpty};
ghost use Rattle.locked_parts.specs.Kinds.{kinds_of, kinds_up_to, count_of_caches, new_own};

use crate::kinds::{CacheKind, cache_count};
use crate::own_caches::OwnCache;
use arena_tree::Tree;
use deed_table::{Name, SeatDeed};
use std::alloc::{AllocError, Global};

/// Two empty magazines of the first size for each quantum cache of each arena, in their order.
pub fn new_rounds<N: Name>(
    alloc: Global,
    tree: &Tree,
) -> Result<Vec<OwnCache<SeatDeed<N>>>, AllocError>
    ensures new { IfOk result (λ caches. caches.items ≡ map new_own (kinds_of tree.now)) }
    ensures empty { IfOk result (λ caches. All (λ r. BothEmpty r.cpu) caches.items) }
{
    let mut caches = Vec::new(alloc);
    match fill(alloc, tree, &mut caches) {
        Ok(()) => Ok(caches),
        Err(refused) => {
            end_rounds(caches);
            Err(refused)
        }
    }
}

/// Adds two magazines for each quantum cache of each arena.
fn fill<N: Name>(
    alloc: Global,
    tree: &Tree,
    caches: &mut Vec<OwnCache<SeatDeed<N>>>,
) -> Result<(), AllocError>
    requires { All (λ r. BothEmpty r.cpu) caches.old.items }
    ensures empty { All (λ r. BothEmpty r.cpu) caches.new.items }
    ensures new { OnOk result (caches.new.items
        ≡ caches.old.items ++ map new_own (kinds_of tree.now)) }
{
    for arena in 0..tree.len() as u32 {
        fill_arena(alloc, tree, arena, caches)?;
    }
    Ok(())
}

/// Adds two for each quantum cache of the arena.
fn fill_arena<N: Name>(
    alloc: Global,
    tree: &Tree,
    arena: u32,
    caches: &mut Vec<OwnCache<SeatDeed<N>>>,
) -> Result<(), AllocError>
    requires within { arena < length tree.now }
    requires empty { All (λ r. BothEmpty r.cpu) caches.old.items }
    ensures empty { All (λ r. BothEmpty r.cpu) caches.new.items }
    ensures new { OnOk result (caches.new.items ≡ caches.old.items ++ map new_own (kinds_up_to
        arena (quantum_in (nodes_of tree.now) arena) (count_of_caches tree.now arena))) }
{
    let quantum = tree.quantum(arena);
    for before in 0..cache_count(tree, arena) {
        caches.reserve(1)?;
        let own = OwnCache::new(
            alloc,
            CacheKind {
                arena,
                number: before + 1,
                quantum,
            },
        )?;
        caches.push_reserved(own);
    }
    Ok(())
}

/// Ends magazines that have no round.
pub fn end_rounds<N: Name>(mut caches: Vec<OwnCache<SeatDeed<N>>>)
    requires { All (λ r. BothEmpty r.cpu) caches.items }
{
    while let Some(own) = caches.pop() {
        own.end();
    }
    caches.destroy_empty();
}
