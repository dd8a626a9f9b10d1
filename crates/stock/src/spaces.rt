//! An arena with its quantum caches.
use deed_core::Deed;
use magazine_layer::Depot;
use slab_layer::SlabCache;
use std::marker::Model;
use tag_arena::Arena;

/// A quantum cache: its slabs, and the magazines that no CPU has.
pub struct QuantumCache<D: Deed> {
    pub(crate) slab: SlabCache<D>,
    pub(crate) depot: Depot<D>,
}

impl<D: Deed> Model for QuantumCache<D> {
    ghost use Rattle.stock.specs.Spaces.{QuantumCacheState};

    ghost Value = { QuantumCacheState };

    ghost view = { λ c. record { slab = c.slab; depot = c.depot } };
}

/// An arena, the arena that it imports from, and its quantum caches, by the quanta of a chunk.
pub struct Space<D: Deed> {
    pub(crate) arena: Arena<D>,
    pub(crate) source: Option<u32>,
    pub(crate) caches: Vec<QuantumCache<D>>,
}

impl<D: Deed> Model for Space<D> {
    ghost use Rattle.std.specs.Coded.{codes, coded_ℕ};
    ghost use Rattle.std.specs.Ordering.{nat_cmp};
    ghost use Rattle.std.specs.FinMap as finmap;
    ghost use Rattle.deed_core.specs.Holding.{Holding};
    ghost use Rattle.stock.specs.Spaces.{SpaceState};

    ghost Value = { SpaceState };

    ghost coded = { Prim.hlevel
        (codes, finmap.code {X = Holding} {R = nat_cmp} coded_ℕ (Prim.hlevel codes)) };

    ghost view = { λ s. record { arena = s.arena; source = s.source; caches = s.caches.items } };
}
