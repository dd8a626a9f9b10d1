//! What one thread can reach.
ghost use Rattle.std.specs.Prelude.{◌≡◌, ℕ, ◌+◌, IfSome, IfNone, length};
ghost use Rattle.stock.specs.Spaces.{plans_of};
ghost use Rattle.local_parts.specs.Cpus.{cpu_rounds};
ghost use Rattle.stock.specs.OwnCaches.{OwnCacheState};
ghost use Rattle.local_parts.specs.States.{IsReached, HasReached, tree_of};
ghost use Rattle.local_parts.specs.Steps.{LocalStep};

use crate::cpu_caches::CpuCaches;
use arena_tree::{ChangeFault, FreshFault, GivenFault, PartFault, Parts, Stopped, Tree};
use deed_core::{Deed, Request, Segment};
use magazine_layer::{EmptyFault, FullFault};
use slab_layer::{AddFault, PutFault};
use std::alloc::Global;
use stock::Stock;
use tag_arena::{ArenaFault, SpanFault};

/// A stock and one CPU's caches, both lent, as the parts that one thread can reach.
#[derive(Drop)]
pub struct Local<'a, D: Deed> {
    /// Its arenas grow by its own calls. These keep the plans, so the rest stays as it is.
    pub stock: &'a mut Stock<D>,
    pub cpu: &'a mut CpuCaches<D>,
    /// The sizes of the stock's arenas.
    pub tree: &'a Tree,
    /// What new magazines are made with.
    pub alloc: Global,
    /// How many events of shared parts there were.
    pub steps: u64,
}

/// The index of the CPU's cache that serves the arena's cache of chunks of so many quanta.
fn served<D: Deed>(stock: &Stock<D>, cpu: &CpuCaches<D>, arena: u32, cache: u8) -> Option<usize>
    ensures some { IfSome result (λ j. (cache ≡ j + 1)
        × HasReached (record { spaces = stock.now; cpu = cpu.now }) arena j) }
    ensures none { IfNone result ((j : ℕ) (o : OwnCacheState) → cache ≡ j + 1
        → ¬ IsReached (record { spaces = stock.now; cpu = cpu.now }) arena j o) }
{
    let Some(index) = stock.cache_at(arena, cache) else {
        return None;
    };
    let quantum = stock.quantum(arena as usize);
    if !cpu.is_at(arena as usize, index, quantum) {
        return None;
    }
    Some(index)
}

impl<D: Deed> Parts<Segment<D>> for Local<'_, D> {
    ghost step = { λ s e a t.
        LocalStep (record { spaces = s.stock.now; cpu = s.cpu.now }) e a
        (record { spaces = t.stock.now; cpu = t.cpu.now })
        × (t.stock.ghost_name ≡ s.stock.ghost_name) × (t.cpu.ghost_name ≡ s.cpu.ghost_name) };

    ghost tree = { λ s. tree_of (plans_of s.stock.now) s.tree.now };

    ghost count = { λ s. s.steps };

    ghost rounds = { λ s. length (cpu_rounds s.cpu.now) };

    fn steps(&self) -> u64 {
        self.steps
    }

    fn carve(
        &mut self,
        arena: u32,
        request: &Request,
    ) -> Result<Segment<D>, PartFault<ArenaFault>> {
        self.steps = self.steps.saturating_add(1);
        // For its clause, here and below: what is always so of a stock.
        let _ = self.stock.count();
        let carved = self.stock.carve(arena as usize, request);
        let _ = self.stock.count();
        PartFault::wrap(carved)
    }

    fn free(
        &mut self,
        segment: Segment<D>,
    ) -> Result<Option<Segment<D>>, GivenFault<Segment<D>, Segment<D>>> {
        self.steps = self.steps.saturating_add(1);
        let _ = self.stock.count();
        let freed = self.stock.free(segment);
        let _ = self.stock.count();
        GivenFault::wrap(freed)
    }

    fn add_carve(
        &mut self,
        child: u32,
        segment: Segment<D>,
        size: u64,
    ) -> Result<Segment<D>, GivenFault<SpanFault<Segment<D>>, Segment<D>>> {
        self.steps = self.steps.saturating_add(1);
        let _ = self.stock.count();
        // For its clause: what is always so of a range.
        let _ = segment.range();
        let request = Request::plain(size);
        let imported = self.stock.add_carve(child as usize, segment, &request);
        let _ = self.stock.count();
        GivenFault::wrap(imported)
    }

    fn slab_take(&mut self, arena: u32, cache: u8) -> Result<Option<Segment<D>>, Stopped> {
        self.steps = self.steps.saturating_add(1);
        let _ = self.stock.count();
        let Some(index) = self.stock.cache_at(arena, cache) else {
            return Ok(None);
        };
        let taken = self.stock.slab_take(arena as usize, index);
        let _ = self.stock.count();
        Ok(taken)
    }

    fn slab_put(
        &mut self,
        segment: Segment<D>,
    ) -> Result<(), GivenFault<PutFault<Segment<D>>, Segment<D>>> {
        self.steps = self.steps.saturating_add(1);
        let _ = self.stock.count();
        let done = self.stock.slab_put(segment);
        let _ = self.stock.count();
        GivenFault::wrap(done)
    }

    fn slab_add(
        &mut self,
        arena: u32,
        cache: u8,
        segment: Segment<D>,
    ) -> Result<Segment<D>, GivenFault<AddFault<Segment<D>>, Segment<D>>> {
        self.steps = self.steps.saturating_add(1);
        let _ = self.stock.count();
        let Some(index) = self.stock.cache_at(arena, cache) else {
            return Err(GivenFault::Refused(AddFault::WrongSize(segment)));
        };
        let added = self.stock.slab_add(arena as usize, index, segment);
        let _ = self.stock.count();
        GivenFault::wrap(added)
    }

    fn slab_reap(&mut self, arena: u32, cache: u8) -> Result<Option<Segment<D>>, Stopped> {
        self.steps = self.steps.saturating_add(1);
        let _ = self.stock.count();
        let Some(index) = self.stock.cache_at(arena, cache) else {
            return Ok(None);
        };
        let reaped = self.stock.slab_reap(arena as usize, index);
        let _ = self.stock.count();
        Ok(reaped)
    }

    fn swap_full(&mut self, arena: u32, cache: u8) -> Result<(), PartFault<FullFault>> {
        self.steps = self.steps.saturating_add(1);
        let _ = self.stock.count();
        let Some(index) = served(self.stock, self.cpu, arena, cache) else {
            return Err(PartFault::Refused(FullFault::NoneFull));
        };
        self.cpu.swap_full_at(self.stock, arena as usize, index)
    }

    fn swap_empty(&mut self, arena: u32, cache: u8) -> Result<(), PartFault<EmptyFault>> {
        self.steps = self.steps.saturating_add(1);
        let _ = self.stock.count();
        let Some(index) = served(self.stock, self.cpu, arena, cache) else {
            return Err(PartFault::Refused(EmptyFault::NoneEmpty));
        };
        self.cpu.swap_empty_at(self.stock, arena as usize, index)
    }

    fn swap_fresh(&mut self, arena: u32, cache: u8) -> Result<(), PartFault<FreshFault>> {
        self.steps = self.steps.saturating_add(1);
        let _ = self.stock.count();
        let Some(index) = served(self.stock, self.cpu, arena, cache) else {
            return Err(PartFault::Refused(FreshFault::NotFull));
        };
        self.cpu
            .swap_fresh_at(self.alloc, self.stock, arena as usize, index)
    }

    fn depot_reap(&mut self, arena: u32, cache: u8) -> Result<Option<Segment<D>>, Stopped> {
        self.steps = self.steps.saturating_add(1);
        let _ = self.stock.count();
        let Some(index) = self.stock.cache_at(arena, cache) else {
            return Ok(None);
        };
        let reaped = self.stock.depot_reap(arena as usize, index);
        let _ = self.stock.count();
        Ok(reaped)
    }

    fn pop(&mut self, arena: u32, cache: u8) -> Result<Option<Segment<D>>, Stopped> {
        // For its range, which the count of steps has to keep; here and below.
        let _steps = self.steps;
        let _ = self.stock.count();
        let Some(index) = served(self.stock, self.cpu, arena, cache) else {
            return Ok(None);
        };
        Ok(self.cpu.pop_at(arena as usize, index))
    }

    fn push(
        &mut self,
        arena: u32,
        cache: u8,
        segment: Segment<D>,
    ) -> Result<(), GivenFault<Segment<D>, Segment<D>>> {
        let _steps = self.steps;
        let _ = self.stock.count();
        let Some(index) = served(self.stock, self.cpu, arena, cache) else {
            return Err(GivenFault::Refused(segment));
        };
        match self.cpu.push_at(arena as usize, index, segment) {
            Ok(()) => Ok(()),
            Err(segment) => Err(GivenFault::Refused(segment)),
        }
    }

    fn change(&mut self, arena: u32, cache: u8, size: usize) -> Result<(), PartFault<ChangeFault>> {
        let _steps = self.steps;
        let _ = self.stock.count();
        let Some(index) = served(self.stock, self.cpu, arena, cache) else {
            return Err(PartFault::Refused(ChangeFault::NotGreater));
        };
        let changed = self.cpu.change_at(self.alloc, arena as usize, index, size);
        PartFault::wrap(changed)
    }
}
