//! How one CPU's caches are made, what they hold, and how they end.
ghost use Rattle.std.specs.Prelude.{◌≡◌, ◌-◌, ◌^◌, ◌<◌, ◌↔◌, [], All, length, map, min};
ghost use Rattle.std.specs.Prelude.{slice_get, Some, IfOk, IfErr, OnOk, IsOk, IsTrue};
ghost use Rattle.deed_core.specs.Covering.{units_tagged};
ghost use Rattle.magazine_layer.specs.Magazines.{IsSize};
ghost use Rattle.stock.specs.Spaces.{SpaceState, plans_of};
ghost use Rattle.local_parts.specs.Cpus.{IsCpuOf, new_own, new_cpu, row_indexes};
ghost use Rattle.local_parts.specs.Cpus.{HasNoRounds, arena_rounds};
ghost use Rattle.stock.specs.OwnCaches.{HasNoRound, all_own_rounds};

use crate::cpu_caches::{ArenaCaches, CpuCaches};
use deed_core::Deed;
use std::alloc::{AllocError, Global};
use stock::{OwnCache, Stock};

impl<D: Deed> CpuCaches<D> {
    /// Two empty magazines of `size` rounds for each quantum cache of each arena of the stock.
    /// A new CPU begins with the least size. Out of memory leaves nothing.
    pub fn new(alloc: Global, stock: &Stock<D>, size: usize) -> Result<CpuCaches<D>, AllocError>
        requires { IsSize size }
        ensures made { IfOk result (λ cpu. cpu ≡ new_cpu size (plans_of stock.now)) }
        ensures of { IfOk result (IsCpuOf stock.now) }
        ensures empty { IfOk result (λ cpu. HasNoRounds cpu) }
    {
        let mut cpu = CpuCaches {
            rows: Vec::new(alloc),
        };
        match cpu.fill(alloc, stock, size) {
            Ok(()) => Ok(cpu),
            Err(refused) => {
                let CpuCaches { rows } = cpu;
                end_rows(rows);
                Err(refused)
            }
        }
    }

    /// Adds a row for each arena. Out of memory, the rows added so far are left, all of them empty.
    fn fill(&mut self, alloc: Global, stock: &Stock<D>, size: usize) -> Result<(), AllocError>
        requires none { self.old ≡ [] }
        requires size { IsSize size }
        ensures made { OnOk result (self.new ≡ new_cpu size (plans_of stock.now)) }
        ensures empty { HasNoRounds self.new }
    {
        for arena in 0..stock.count() {
            self.rows.reserve(1)?;
            let row = ArenaCaches::new(alloc, stock, arena, size)?;
            self.rows.push_reserved(row);
        }
        Ok(())
    }

    /// Its caches for those of the arena at the index, by the quanta of a chunk.
    pub fn of_arena(&self, arena: usize) -> &[OwnCache<D>]
        requires { arena < length self.now }
        ensures { slice_get self.now arena ≡ Some result.now }
    {
        let row = &self.rows[arena];
        row.caches.as_slice()
    }

    /// The units of its rounds of the arena with this number, or 2^128 - 1 where they are more; 0
    /// where there is no such arena.
    pub fn units(&self, arena: usize) -> u128
        ensures { result ≡ min (units_tagged (arena_rounds self.now arena)) (2 ^ 128 - 1) }
    {
        if arena >= self.rows.len() {
            return 0;
        }
        let row = &self.rows[arena];
        row.units()
    }

    /// Whether it has no round.
    pub fn is_empty(&self) -> bool
        ensures { IsTrue result ↔ HasNoRounds self.now }
    {
        self.rows.iter().all(|row| row.is_empty())
    }

    /// Ends a CPU's caches that have no round, and hands back those that have one.
    pub fn close(self) -> Result<(), CpuCaches<D>>
        ensures empty { IsOk result ↔ HasNoRounds self }
        ensures handed_back { IfErr result (λ same. same ≡ self) }
    {
        if !self.is_empty() {
            return Err(self);
        }
        let CpuCaches { rows } = self;
        end_rows(rows);
        Ok(())
    }
}

impl<D: Deed> ArenaCaches<D> {
    /// Those of one arena of the stock.
    fn new(
        alloc: Global,
        stock: &Stock<D>,
        arena: usize,
        size: usize,
    ) -> Result<ArenaCaches<D>, AllocError>
        requires within { arena < length stock.now }
        requires size { IsSize size }
        ensures { IfOk result (λ row. (s : SpaceState) → slice_get stock.now arena ≡ Some s
            → row ≡ map (new_own size)
            (row_indexes arena s.arena.quantum 0 (length s.caches))) }
    {
        // For its clause: what is always so of a stock.
        let _ = stock.count();
        let quantum = stock.quantum(arena);
        let count = stock.caches(arena);
        let mut row = ArenaCaches {
            caches: Vec::new(alloc),
        };
        match row.fill(alloc, arena, quantum, count, size) {
            Ok(()) => Ok(row),
            Err(refused) => {
                let ArenaCaches { caches } = row;
                end_caches(caches);
                Err(refused)
            }
        }
    }

    /// Makes the row's caches, of 1 up to `count` quanta, each with two empty magazines of this
    /// size.
    fn fill(
        &mut self,
        alloc: Global,
        arena: usize,
        quantum: u64,
        count: usize,
        size: usize,
    ) -> Result<(), AllocError>
        requires none { self.old ≡ [] }
        requires some { 0 < quantum }
        requires size { IsSize size }
        ensures made { OnOk result
            (self.new ≡ map (new_own size) (row_indexes arena quantum 0 count)) }
        ensures empty { All HasNoRound self.new }
    {
        for cache in 0..count {
            self.caches.reserve(1)?;
            let own = OwnCache::new(alloc, arena, cache, quantum, size)?;
            self.caches.push_reserved(own);
        }
        Ok(())
    }

    /// The units of their rounds, or the greatest number where they are more.
    fn units(&self) -> u128
        ensures { result ≡ min (units_tagged (all_own_rounds self.now)) (2 ^ 128 - 1) }
    {
        let mut total: u128 = 0;
        for own in &self.caches {
            total = total.saturating_add(own.units());
        }
        total
    }

    /// Whether they have no round.
    fn is_empty(&self) -> bool
        ensures { IsTrue result ↔ All HasNoRound self.now }
    {
        self.caches.iter().all(|own| own.is_empty())
    }
}

/// Ends a CPU's caches, which keep nothing.
fn end_rows<D: Deed>(mut rows: Vec<ArenaCaches<D>>)
    requires { HasNoRounds rows.items }
{
    while let Some(row) = rows.pop() {
        let ArenaCaches { caches } = row;
        end_caches(caches);
    }
    rows.destroy_empty();
}

/// Ends the caches of one arena, which keep nothing.
fn end_caches<D: Deed>(mut caches: Vec<OwnCache<D>>)
    requires { All HasNoRound caches.items }
{
    while let Some(own) = caches.pop() {
        end_own(own);
    }
    caches.destroy_empty();
}

/// Ends one cache, which keeps nothing.
fn end_own<D: Deed>(own: OwnCache<D>)
    requires { HasNoRound own }
{
    match own.close() {
        Ok(()) => {}
        Err(_) => unreachable!(),
    }
}
