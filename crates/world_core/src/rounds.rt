//! What CPUs do with their own caches, and which of them an event means.
ghost use Rattle.std.specs.Prelude.{◌↔◌, ℕ, IfSome, IfNone, IsTrue};
ghost use Rattle.deed_core.specs.Tag.{Tag};
ghost use Rattle.stock.specs.OwnCaches.{OwnCacheState};
ghost use Rattle.world_core.specs.IsWorld.{IsWorld};
ghost use Rattle.world_core.specs.Moves.{IsOwnFor, TakesHand};
ghost use Rattle.world_core.specs.Events.{EndsAs};

use crate::events::{Outcome, WorldEvent};
use crate::hands::{put, take};
use crate::parts::WorldParts;
use deed_core::Deed;

impl<D: Deed> WorldParts<D> {
    /// Whether the cache at this index of the list is the CPU's for this quantum cache.
    fn is_own_for(&self, cpu: usize, arena: usize, cache: usize, index: usize) -> bool
        ensures { IsTrue result
            ↔ ((o : OwnCacheState) × IsOwnFor self.now cpu arena cache index o) }
    {
        if index >= self.owners.len() || index >= self.caches.len() {
            return false;
        }
        let at = self.caches[index].indexes();
        self.owners[index] == cpu && at.0 == arena && at.1 == cache
    }

    /// The index of the CPU's own cache for this quantum cache.
    pub(crate) fn own_index(&self, cpu: usize, arena: usize, cache: usize) -> Option<usize>
        requires world { IsWorld self.now }
        ensures some { IfSome result
            (λ k. (o : OwnCacheState) × IsOwnFor self.now cpu arena cache k o) }
        ensures none { IfNone result ((k : ℕ) (o : OwnCacheState)
            → ¬ IsOwnFor self.now cpu arena cache k o) }
    {
        for index in 0..self.owners.len() {
            if self.is_own_for(cpu, arena, cache, index) {
                return Some(index);
            }
        }
        None
    }

    /// Whether the cache at this index of the list is the CPU's, and for what its hand has.
    fn takes_hand(&self, cpu: usize, index: usize) -> bool
        ensures { IsTrue result
            ↔ ((o : OwnCacheState) × (t : Tag) × TakesHand self.now cpu index o t) }
    {
        if index >= self.owners.len() || index >= self.caches.len() {
            return false;
        }
        let Some(chunk) = self.in_hand(cpu) else {
            return false;
        };
        self.owners[index] == cpu && self.caches[index].takes(chunk)
    }

    /// The index of the CPU's own cache for what its hand has.
    fn index_for_hand(&self, cpu: usize) -> Option<usize>
        requires world { IsWorld self.now }
        ensures some { IfSome result
            (λ k. (o : OwnCacheState) × (t : Tag) × TakesHand self.now cpu k o t) }
        ensures none { IfNone result ((k : ℕ) (o : OwnCacheState) (t : Tag)
            → ¬ TakesHand self.now cpu k o t) }
    {
        for index in 0..self.owners.len() {
            if self.takes_hand(cpu, index) {
                return Some(index);
            }
        }
        None
    }

    /// A CPU with an empty hand takes a round out of its own cache.
    pub(crate) fn pop(&mut self, cpu: usize, arena: usize, cache: usize) -> Outcome
        requires world { IsWorld self.old }
        ensures { EndsAs (WorldEvent.Pops cpu arena cache) result self.old self.new }
    {
        if !self.has_empty_hand(cpu) {
            return Outcome::NotEnabled;
        }
        let Some(index) = self.own_index(cpu, arena, cache) else {
            return Outcome::NotEnabled;
        };
        let own = &mut self.caches[index];
        let popped = own.pop();
        // For their clauses, here and below: what is always so of a CPU's cache.
        let _ = own.indexes();
        let _ = own.size();
        match popped {
            Some(round) => {
                put(&mut self.hands, cpu, round);
                return Outcome::Done;
            }
            None => return Outcome::NotEnabled,
        }
    }

    /// A CPU puts its hand's chunk into its own cache.
    pub(crate) fn push(&mut self, cpu: usize) -> Outcome
        requires world { IsWorld self.old }
        ensures { EndsAs (WorldEvent.Pushes cpu) result self.old self.new }
    {
        let Some(index) = self.index_for_hand(cpu) else {
            return Outcome::NotEnabled;
        };
        let chunk = take(&mut self.hands, cpu);
        let own = &mut self.caches[index];
        let pushed = own.push(chunk);
        let _ = own.indexes();
        let _ = own.size();
        match pushed {
            Ok(()) => return Outcome::Done,
            Err(chunk) => {
                put(&mut self.hands, cpu, chunk);
                return Outcome::NotEnabled;
            }
        }
    }
}
