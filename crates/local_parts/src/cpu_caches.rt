//! One CPU's caches.
ghost use Rattle.std.specs.Prelude.{◌≡◌, ◌+◌, ◌-◌, ◌^◌, ◌↔◌, List, []};
ghost use Rattle.std.specs.Prelude.{IsTrue};
ghost use Rattle.stock.specs.OwnCaches.{OwnCacheState};
ghost use Rattle.local_parts.specs.Cpus.{IsOwnAt, OnOwn};
ghost use Rattle.local_parts.specs.OwnChanges.{OwnPops, OwnPushes, OwnChanges};
ghost use Rattle.local_parts.specs.OwnChanges.{OwnSwapsFull, OwnSwapsEmpty, OwnSwapsFresh};
ghost use Rattle.local_parts.specs.States.{HasReached};

use crate::own_changes::{change_own, push_own, swap_empty_own, swap_fresh_own, swap_full_own};
use arena_tree::{ChangeFault, FreshFault, PartFault};
use deed_core::{Deed, Segment};
use magazine_layer::{EmptyFault, FullFault};
use std::alloc::Global;
use std::marker::Model;
use stock::{OwnCache, Stock};

/// Those of one arena, by the quanta of a chunk.
pub(crate) struct ArenaCaches<D: Deed> {
    pub(crate) caches: Vec<OwnCache<D>>,
}

impl<D: Deed> Model for ArenaCaches<D> {
    ghost use Rattle.std.specs.Prelude.{List};
    ghost use Rattle.stock.specs.OwnCaches.{OwnCacheState};

    ghost Value = { List OwnCacheState };

    ghost view = { λ r. r.caches.items };
}

/// One CPU's magazines for each quantum cache of each arena of a stock. It is never copied or
/// dropped: `close` ends it where it has no round.
pub struct CpuCaches<D: Deed> {
    pub(crate) rows: Vec<ArenaCaches<D>>,
}

impl<D: Deed> Model for CpuCaches<D> {
    ghost use Rattle.std.specs.Prelude.{List};
    ghost use Rattle.stock.specs.OwnCaches.{OwnCacheState};

    ghost Value = { List (List OwnCacheState) };

    ghost view = { λ c. c.rows.items };
}

impl<D: Deed> CpuCaches<D> {
    /// Takes a round out of the cache at the index.
    pub(crate) fn pop_at(&mut self, arena: usize, cache: usize) -> Option<Segment<D>>
        requires { (o : OwnCacheState) × IsOwnAt self.old arena cache o }
        ensures { OnOwn arena cache (OwnPops result) self.old self.new }
    {
        let row = &mut self.rows[arena];
        let own = &mut row.caches[cache];
        own.pop()
    }

    /// Puts a segment into it, if it is a chunk of that cache and there is room.
    pub(crate) fn push_at(
        &mut self,
        arena: usize,
        cache: usize,
        segment: Segment<D>,
    ) -> Result<(), Segment<D>>
        requires { (o : OwnCacheState) × IsOwnAt self.old arena cache o }
        ensures { OnOwn arena cache (OwnPushes segment result) self.old self.new }
    {
        let row = &mut self.rows[arena];
        let own = &mut row.caches[cache];
        push_own(own, segment)
    }

    /// Changes it over to two magazines of this size.
    pub(crate) fn change_at(
        &mut self,
        alloc: Global,
        arena: usize,
        cache: usize,
        size: usize,
    ) -> Result<(), ChangeFault>
        requires { (o : OwnCacheState) × IsOwnAt self.old arena cache o }
        ensures { OnOwn arena cache (OwnChanges size result) self.old self.new }
    {
        let row = &mut self.rows[arena];
        let own = &mut row.caches[cache];
        change_own(alloc, own, size)
    }

    /// Takes a full magazine of its depot for an empty one.
    pub(crate) fn swap_full_at(
        &mut self,
        stock: &mut Stock<D>,
        arena: usize,
        cache: usize,
    ) -> Result<(), PartFault<FullFault>>
        requires { HasReached (record { spaces = stock.old; cpu = self.old }) arena cache }
        ensures { OnOwn arena cache (OwnSwapsFull result stock.old stock.new)
            self.old self.new }
    {
        let row = &mut self.rows[arena];
        let own = &mut row.caches[cache];
        swap_full_own(stock, own)
    }

    /// Takes an empty magazine of its depot for a full one.
    pub(crate) fn swap_empty_at(
        &mut self,
        stock: &mut Stock<D>,
        arena: usize,
        cache: usize,
    ) -> Result<(), PartFault<EmptyFault>>
        requires { HasReached (record { spaces = stock.old; cpu = self.old }) arena cache }
        ensures { OnOwn arena cache (OwnSwapsEmpty result stock.old stock.new)
            self.old self.new }
    {
        let row = &mut self.rows[arena];
        let own = &mut row.caches[cache];
        swap_empty_own(stock, own)
    }

    /// Takes a new magazine for a full one, which goes to its depot.
    pub(crate) fn swap_fresh_at(
        &mut self,
        alloc: Global,
        stock: &mut Stock<D>,
        arena: usize,
        cache: usize,
    ) -> Result<(), PartFault<FreshFault>>
        requires { HasReached (record { spaces = stock.old; cpu = self.old }) arena cache }
        ensures { OnOwn arena cache (OwnSwapsFresh result stock.old stock.new)
            self.old self.new }
    {
        let row = &mut self.rows[arena];
        let own = &mut row.caches[cache];
        swap_fresh_own(alloc, stock, own)
    }

    /// Whether a cache stands at the index, made for it and this quantum.
    pub(crate) fn is_at(&self, arena: usize, cache: usize, quantum: u64) -> bool
        ensures { IsTrue result ↔ ((o : OwnCacheState)
            × IsOwnAt self.now arena cache o × (o.quantum ≡ quantum)) }
    {
        if arena >= self.rows.len() {
            return false;
        }
        let row = &self.rows[arena];
        if cache >= row.caches.len() {
            return false;
        }
        let own = &row.caches[cache];
        let index = own.indexes();
        index.0 == arena && index.1 == cache && own.quantum() == quantum
    }
}
