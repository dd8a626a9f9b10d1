//! What happens to the depots of quantum caches.
ghost use Rattle.std.specs.Prelude.{◌↔◌, IsTrue};
ghost use Rattle.world_core.specs.IsWorld.{IsWorld};
ghost use Rattle.world_core.specs.Events.{EndsAs, HasRoundToReap};

use crate::events::{EventFault, Outcome, WorldEvent};
use crate::hands::put;
use crate::parts::WorldParts;
use deed_core::Deed;
use magazine_layer::is_magazine_size;

impl<D: Deed> WorldParts<D> {
    /// A CPU with an empty hand takes a round that may be reaped.
    pub(crate) fn depot_reap(&mut self, cpu: usize, arena: usize, cache: usize) -> Outcome
        requires world { IsWorld self.old }
        ensures { EndsAs (WorldEvent.DepotReaps cpu arena cache) result self.old self.new }
    {
        if !self.has_empty_hand(cpu) || !self.has_round_to_reap(arena, cache) {
            return Outcome::NotEnabled;
        }
        let reaped = self.stock.depot_reap(arena, cache);
        // For its clause, here and below: what is always so of a stock.
        let _ = self.stock.count();
        match reaped {
            Some(round) => {
                put(&mut self.hands, cpu, round);
                return Outcome::Done;
            }
            None => unreachable!(),
        }
    }

    /// Whether the cache stands there, and a round of its depot may be reaped.
    fn has_round_to_reap(&self, arena: usize, cache: usize) -> bool
        ensures { IsTrue result ↔ HasRoundToReap self.now arena cache }
    {
        self.stock.has_cache(arena, cache) && self.stock.can_reap(arena, cache)
    }

    /// An interval begins in a depot.
    pub(crate) fn tick(&mut self, arena: usize, cache: usize) -> Outcome
        requires world { IsWorld self.old }
        ensures { EndsAs (WorldEvent.Ticks arena cache) result self.old self.new }
    {
        if !self.stock.has_cache(arena, cache) {
            return Outcome::NotEnabled;
        }
        self.stock.tick(arena, cache);
        let _ = self.stock.count();
        Outcome::Done
    }

    /// A depot keeps magazines of a greater size from here on.
    pub(crate) fn resize(&mut self, arena: usize, cache: usize, size: usize) -> Outcome
        requires world { IsWorld self.old }
        ensures { EndsAs (WorldEvent.Resizes arena cache size) result self.old self.new }
    {
        if !self.stock.has_cache(arena, cache) || !is_magazine_size(size) {
            return Outcome::NotEnabled;
        }
        let resized = self.stock.resize(arena, cache, size);
        let _ = self.stock.count();
        match resized {
            Ok(()) => return Outcome::Done,
            Err(_) => return Outcome::Refused(EventFault::NotGreater),
        }
    }
}
