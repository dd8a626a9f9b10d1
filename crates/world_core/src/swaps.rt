//! What CPUs' own caches swap with depots, and that they change to other magazines.
ghost use Rattle.std.specs.Prelude.{◌≡◌, [], IfSome, IfNone};
ghost use Rattle.stock.specs.OwnCaches.{OwnCacheState};
ghost use Rattle.world_core.specs.IsWorld.{IsWorld};
ghost use Rattle.world_core.specs.Moves.{IsOwnFor};
ghost use Rattle.world_core.specs.Events.{EndsAs, IsReady};

use crate::events::{EventFault, Outcome, WorldEvent};
use crate::parts::WorldParts;
use deed_core::Deed;
use magazine_layer::{EmptyFault, FullFault, Magazine, PutFullFault, is_magazine_size, two_empty};

/// Ends a magazine that has no round.
fn end_empty<D: Deed>(magazine: Magazine<D>)
    requires { magazine.rounds ≡ [] }
{
    match magazine.discard() {
        Ok(()) => {}
        Err(_) => unreachable!(),
    }
}

impl<D: Deed> WorldParts<D> {
    /// A CPU's own cache with two empty magazines gets a full one.
    pub(crate) fn swap_full(&mut self, cpu: usize, arena: usize, cache: usize) -> Outcome
        requires world { IsWorld self.old }
        ensures { EndsAs (WorldEvent.SwapsFull cpu arena cache) result self.old self.new }
    {
        let Some(index) = self.own_index(cpu, arena, cache) else {
            return Outcome::NotEnabled;
        };
        let own = &mut self.caches[index];
        if !own.is_empty() {
            return Outcome::NotEnabled;
        }
        let swapped = own.swap_full(&mut self.stock);
        // For their clauses, here and below: what is always so of a CPU's cache, and of a stock.
        let _ = own.indexes();
        let _ = self.stock.count();
        match swapped {
            Ok(()) => return Outcome::Done,
            Err(fault) => match fault {
                FullFault::OldSize(_) => return Outcome::Refused(EventFault::OldSize),
                FullFault::NoneFull => return Outcome::Refused(EventFault::NoneFull),
            },
        }
    }

    /// A CPU's own cache with two full magazines gets an empty one.
    pub(crate) fn swap_empty(&mut self, cpu: usize, arena: usize, cache: usize) -> Outcome
        requires world { IsWorld self.old }
        ensures { EndsAs (WorldEvent.SwapsEmpty cpu arena cache) result self.old self.new }
    {
        let Some(index) = self.own_index(cpu, arena, cache) else {
            return Outcome::NotEnabled;
        };
        let own = &mut self.caches[index];
        if !own.is_full() {
            return Outcome::NotEnabled;
        }
        let swapped = own.swap_empty(&mut self.stock);
        let _ = own.indexes();
        let _ = self.stock.count();
        match swapped {
            Ok(()) => return Outcome::Done,
            Err(fault) => match fault {
                EmptyFault::OldSize(_) => return Outcome::Refused(EventFault::OldSize),
                EmptyFault::NoneEmpty => return Outcome::Refused(EventFault::NoneEmpty),
            },
        }
    }

    /// A CPU's own cache with two full magazines gets a new one.
    pub(crate) fn swap_fresh(&mut self, cpu: usize, arena: usize, cache: usize) -> Outcome
        requires world { IsWorld self.old }
        ensures { EndsAs (WorldEvent.SwapsFresh cpu arena cache) result self.old self.new }
    {
        let Some(index) = self.own_index(cpu, arena, cache) else {
            return Outcome::NotEnabled;
        };
        let size = self.stock.depot_size(arena, cache);
        let own = &mut self.caches[index];
        if !own.is_full() {
            return Outcome::NotEnabled;
        }
        if own.size() != size {
            return Outcome::Refused(EventFault::OldSize);
        }
        let Ok(magazine) = Magazine::new(self.alloc, size) else {
            return Outcome::NoMemory;
        };
        let swapped = own.swap_fresh(&mut self.stock, magazine);
        let _ = own.indexes();
        let _ = self.stock.count();
        match swapped {
            Ok(()) => return Outcome::Done,
            Err(fault) => match fault {
                PutFullFault::OldSize(_, magazine) => {
                    end_empty(magazine);
                    return Outcome::Refused(EventFault::OldSize);
                }
                PutFullFault::NoMemory(magazine) => {
                    end_empty(magazine);
                    return Outcome::NoMemory;
                }
            },
        }
    }

    /// The index of the CPU's own cache for this quantum cache, where magazines of this size may
    /// take the place of its own: they are greater, and no greater than the depot's.
    fn index_to_change(&self, cpu: usize, arena: usize, cache: usize, size: usize) -> Option<usize>
        requires world { IsWorld self.now }
        ensures some { IfSome result
            (λ k. (o : OwnCacheState) × IsOwnFor self.now cpu arena cache k o) }
        ensures ready { IfSome result
            (λ k. IsReady (WorldEvent.Changes cpu arena cache size) self.now) }
        ensures none { IfNone result
            (¬ IsReady (WorldEvent.Changes cpu arena cache size) self.now) }
    {
        if !is_magazine_size(size) {
            return None;
        }
        let index = self.own_index(cpu, arena, cache)?;
        let own = &self.caches[index];
        if size <= own.size() || self.stock.depot_size(arena, cache) < size {
            return None;
        }
        Some(index)
    }

    /// A CPU's own cache gets two magazines of a greater size, which is at most its depot's.
    pub(crate) fn change(&mut self, cpu: usize, arena: usize, cache: usize, size: usize) -> Outcome
        requires world { IsWorld self.old }
        ensures { EndsAs (WorldEvent.Changes cpu arena cache size) result self.old self.new }
    {
        let Some(index) = self.index_to_change(cpu, arena, cache, size) else {
            return Outcome::NotEnabled;
        };
        let Ok((loaded, previous)) = two_empty(self.alloc, size) else {
            return Outcome::NoMemory;
        };
        let own = &mut self.caches[index];
        own.change(loaded, previous);
        let _ = own.indexes();
        let _ = own.size();
        let _ = self.stock.count();
        Outcome::Done
    }
}
