//! What CPUs do with the slabs of quantum caches.
ghost use Rattle.std.specs.Prelude.{Some};
ghost use Rattle.world_core.specs.IsWorld.{IsWorld};
ghost use Rattle.world_core.specs.Events.{EndsAs};

use crate::events::{EventFault, Outcome, WorldEvent};
use crate::hands::{put, take};
use crate::parts::WorldParts;
use deed_core::{Deed, Route};
use slab_layer::AddFault;

impl<D: Deed> WorldParts<D> {
    /// A CPU with an empty hand takes an idle chunk.
    pub(crate) fn slab_take(&mut self, cpu: usize, arena: usize, cache: usize) -> Outcome
        requires world { IsWorld self.old }
        ensures { EndsAs (WorldEvent.SlabTakes cpu arena cache) result self.old self.new }
    {
        if !self.has_empty_hand(cpu) || !self.stock.has_cache(arena, cache) {
            return Outcome::NotEnabled;
        }
        let taken = self.stock.slab_take(arena, cache);
        // For its clause, here and below: what is always so of a stock.
        let _ = self.stock.count();
        match taken {
            Some(chunk) => {
                put(&mut self.hands, cpu, chunk);
                return Outcome::Done;
            }
            None => return Outcome::NotEnabled,
        }
    }

    /// A CPU with an empty hand takes a slab that has all its chunks.
    pub(crate) fn slab_reap(&mut self, cpu: usize, arena: usize, cache: usize) -> Outcome
        requires world { IsWorld self.old }
        ensures { EndsAs (WorldEvent.SlabReaps cpu arena cache) result self.old self.new }
    {
        if !self.has_empty_hand(cpu) || !self.stock.has_cache(arena, cache) {
            return Outcome::NotEnabled;
        }
        let reaped = self.stock.slab_reap(arena, cache);
        let _ = self.stock.count();
        match reaped {
            Some(span) => {
                put(&mut self.hands, cpu, span);
                return Outcome::Done;
            }
            None => return Outcome::NotEnabled,
        }
    }

    /// A CPU puts its hand's chunk back into its slab.
    pub(crate) fn slab_put(&mut self, cpu: usize) -> Outcome
        requires world { IsWorld self.old }
        ensures { EndsAs (WorldEvent.SlabPuts cpu) result self.old self.new }
    {
        let Some(seen) = self.seen_in_hand(cpu) else {
            return Outcome::NotEnabled;
        };
        let Route::Cached(_) = seen.route() else {
            return Outcome::NotEnabled;
        };
        let chunk = take(&mut self.hands, cpu);
        let done = self.stock.slab_put(chunk);
        let _ = self.stock.count();
        match done {
            Ok(()) => return Outcome::Done,
            Err(_) => unreachable!(),
        }
    }

    /// A CPU gives its hand's segment to a cache as a slab.
    pub(crate) fn slab_add(&mut self, cpu: usize, arena: usize, cache: usize) -> Outcome
        requires world { IsWorld self.old }
        ensures { EndsAs (WorldEvent.SlabAdds cpu arena cache) result self.old self.new }
    {
        let Some(seen) = self.direct_in_hand(cpu) else {
            return Outcome::NotEnabled;
        };
        if seen.arena() as usize != arena || !self.stock.has_cache(arena, cache) {
            return Outcome::NotEnabled;
        }
        let span = take(&mut self.hands, cpu);
        let added = self.stock.slab_add(arena, cache, span);
        let _ = self.stock.count();
        match added {
            Ok(chunk) => {
                put(&mut self.hands, cpu, chunk);
                return Outcome::Done;
            }
            Err(fault) => match fault {
                AddFault::WrongSize(span) => {
                    put(&mut self.hands, cpu, span);
                    return Outcome::Refused(EventFault::WrongSize);
                }
                AddFault::NoMemory(span) => {
                    put(&mut self.hands, cpu, span);
                    return Outcome::NoMemory;
                }
                _ => unreachable!(),
            },
        }
    }
}
