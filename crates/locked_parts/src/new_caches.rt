//! Quantum caches as they are made, before they are put under their locks.
ghost use Rattle.std.specs.Prelude.{◌≡◌, ◌+◌, ◌<◌, ◌≤◌, ◌++◌, All, length, map};
ghost use Rattle.std.specs.Prelude.{vec_len, vec_capacity};
ghost use Rattle.arena_tree.specs.Chains.{quantum_in};
ghost use Rattle.arena_tree.specs.Trees.{nodes_of};
ghost use Rattle.locked_parts.specs.Kinds.{count_of_caches, kinds_up_to};
ghost use Rattle.locked_parts.specs.News.{BeginsAsSet};

use crate::kind_depots::KindDepot;
use crate::kinds::CacheKind;
use crate::locked_caches::LockedCache;
use crate::not_empty::end_depot;
use crate::own_caches::FIRST_SIZE;
use arena_tree::{Tree, TreeArena};
use deed_table::{Name, SeatDeed};
use slab_layer::SlabCache;
use std::alloc::Global;
use std::marker::Model;

/// A quantum cache with no slab and no magazine.
pub(crate) struct NewCache<N: Name> {
    slab: SlabCache<SeatDeed<N>>,
    depot: KindDepot<SeatDeed<N>>,
}

impl<N: Name> Model for NewCache<N> {
    ghost use Rattle.std.specs.Prelude.{◌≡◌, []};
    ghost use Rattle.slab_layer.specs.Cache.{deeds_of};
    ghost use Rattle.magazine_layer.specs.Depots.{depot_rounds};
    ghost use Rattle.locked_parts.specs.Kinds.{AreSlabsOf};
    ghost use Rattle.locked_parts.specs.News.{NewCacheState};

    ghost Value = { NewCacheState };

    ghost view = { λ c. record {
      kind = c.depot.kind;
      slab_size = c.slab.slab_size;
      depot = c.depot.depot;
    } };

    ghost invariant = { λ c. (deeds_of c.slab ≡ []) × (depot_rounds c.depot.depot ≡ [])
        × AreSlabsOf c.depot.kind c.slab };
}

impl<N: Name> NewCache<N> {
    /// The cache with its slabs and its depot each under a lock.
    fn lock(self) -> LockedCache<N>
        ensures { result ≡ self.kind }
    {
        let NewCache { slab, depot } = self;
        LockedCache::new(slab, depot)
    }

    /// Ends it with nothing in it.
    fn end(self) {
        let NewCache { slab, depot } = self;
        match slab.close() {
            Ok(()) => {}
            Err(_) => unreachable!(),
        }
        match end_depot(depot) {
            Ok(()) => {}
            Err(_) => unreachable!(),
        }
    }
}

/// The new cache for `number` quanta of an arena.
fn new_cache<N: Name>(alloc: Global, tree: &Tree, arena: u32, number: u8) -> NewCache<N>
    requires within { arena < length tree.now }
    requires number { (1 ≤ number) × (number ≤ count_of_caches tree.now arena) }
    ensures kind { result.kind ≡ record {
      arena = arena;
      number = number;
      quantum = quantum_in (nodes_of tree.now) arena;
    } }
    ensures begins { BeginsAsSet tree.now arena result }
{
    let TreeArena {
        quantum,
        slab_size,
        ..
    } = *tree.arena(arena);
    let kind = CacheKind {
        arena,
        number,
        quantum,
    };
    NewCache {
        slab: SlabCache::new(alloc, arena, number, quantum, slab_size),
        depot: KindDepot::new(alloc, kind, FIRST_SIZE),
    }
}

/// Adds the new caches of an arena, for which there is room.
pub(crate) fn add_caches<N: Name>(
    alloc: Global,
    tree: &Tree,
    arena: u32,
    count: u8,
    caches: &mut Vec<NewCache<N>>,
)
    requires within { arena < length tree.now }
    requires count { count ≡ count_of_caches tree.now arena }
    requires room { vec_len caches.old + count ≤ vec_capacity caches.old }
    ensures count { vec_len caches.new ≡ vec_len caches.old + count }
    ensures kinds { map (λ c. c.kind) caches.new.items ≡ map (λ c. c.kind) caches.old.items
        ++ kinds_up_to arena (quantum_in (nodes_of tree.now) arena) count }
    ensures begin { All (BeginsAsSet tree.now arena) caches.old.items
        → All (BeginsAsSet tree.now arena) caches.new.items }
{
    for before in 0..count {
        caches.push_reserved(new_cache(alloc, tree, arena, before + 1));
    }
}

/// Ends them.
pub(crate) fn end_caches<N: Name>(mut caches: Vec<NewCache<N>>) {
    while let Some(cache) = caches.pop() {
        cache.end();
    }
    caches.destroy_empty();
}

/// Puts them under their locks, in their order.
#[tactic(auto, using(crate::proofs::Begins::first_kind))]
pub(crate) fn lock_caches<N: Name>(mut caches: Vec<NewCache<N>>, locked: &mut Vec<LockedCache<N>>)
    requires { vec_len locked.old + vec_len caches ≤ vec_capacity locked.old }
    ensures { locked.new.items ≡ locked.old.items ++ map (λ c. c.kind) caches.items }
{
    while !caches.is_empty() {
        locked.push_reserved(caches.remove(0).lock());
    }
    caches.destroy_empty();
}
