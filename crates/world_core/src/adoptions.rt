//! CPUs that have failed: others take over what they had.
ghost use Rattle.std.specs.Prelude.{◌≡◌, ◌≢◌, ◌↔◌, ℕ, ◌<◌, length, IfSome, IfNone, IsTrue};
ghost use Rattle.std.specs.Prelude.{Some, None, true, slice_get};
ghost use Rattle.deed_core.specs.Tag.{Tag};
ghost use Rattle.stock.specs.OwnCaches.{OwnCacheState};
ghost use Rattle.world_core.specs.IsWorld.{IsWorld};
ghost use Rattle.world_core.specs.Moves.{after_failure, HasRoundAt, IsFirstWithRound};
ghost use Rattle.world_core.specs.Events.{EndsAs, HasInHand, IsOfFailed};

use crate::events::{Outcome, WorldEvent, cpu_of};
use crate::hands::{put, take};
use crate::parts::WorldParts;
use deed_core::Deed;

impl<D: Deed> WorldParts<D> {
    /// Whether the event is of a CPU that has failed.
    pub(crate) fn is_of_failed(&self, event: &WorldEvent) -> bool
        ensures { IsTrue result ↔ IsOfFailed event.now self.now }
    {
        let Some(cpu) = cpu_of(event) else {
            return false;
        };
        self.has_failed(cpu)
    }

    /// Whether the CPU has failed.
    fn has_failed(&self, cpu: usize) -> bool
        ensures { IsTrue result ↔ (slice_get self.now.failed cpu ≡ Some true) }
    {
        if cpu >= self.failed.len() {
            return false;
        }
        self.failed[cpu]
    }

    /// The CPU has failed: what it served is forgotten.
    fn fail(&mut self, cpu: usize)
        requires within { cpu < length self.old.failed }
        ensures { self.new ≡ after_failure cpu self.old }
    {
        self.failed[cpu] = true;
        if cpu >= self.tasks.len() {
            return;
        }
        self.tasks[cpu] = None;
    }

    /// A CPU with an empty hand takes over what another has, which has failed by that.
    pub(crate) fn adopt(&mut self, cpu: usize, other: usize) -> Outcome
        requires world { IsWorld self.old }
        ensures { EndsAs (WorldEvent.Adopts cpu other) result self.old self.new }
    {
        if cpu == other || other >= self.failed.len() || !self.has_empty_hand(cpu) {
            return Outcome::NotEnabled;
        }
        if self.in_hand(other).is_some() {
            return self.adopt_hand(cpu, other);
        }
        self.adopt_round(cpu, other)
    }

    /// What is in its hand.
    fn adopt_hand(&mut self, cpu: usize, other: usize) -> Outcome
        requires apart { cpu ≢ other }
        requires within { other < length self.old.failed }
        requires empty { HasInHand self.old cpu None }
        requires held { (t : Tag) × HasInHand self.old other (Some t) }
        ensures { EndsAs (WorldEvent.Adopts cpu other) result self.old self.new }
    {
        let segment = take(&mut self.hands, other);
        put(&mut self.hands, cpu, segment);
        self.fail(other);
        Outcome::Done
    }

    /// A round, where its hand has nothing.
    fn adopt_round(&mut self, cpu: usize, other: usize) -> Outcome
        requires world { IsWorld self.old }
        requires apart { cpu ≢ other }
        requires within { other < length self.old.failed }
        requires empty { HasInHand self.old cpu None }
        requires none { (t : Tag) → ¬ HasInHand self.old other (Some t) }
        ensures { EndsAs (WorldEvent.Adopts cpu other) result self.old self.new }
    {
        let Some(index) = self.first_with_round(other) else {
            return Outcome::NotEnabled;
        };
        let own = &mut self.caches[index];
        let popped = own.pop();
        // For their clauses: what is always so of a CPU's cache.
        let _ = own.indexes();
        let _ = own.size();
        match popped {
            Some(round) => {
                put(&mut self.hands, cpu, round);
                self.fail(other);
                return Outcome::Done;
            }
            None => unreachable!(),
        }
    }

    /// Whether the cache at this index of the list is the CPU's, and has a round.
    fn has_round_at(&self, cpu: usize, index: usize) -> bool
        ensures { IsTrue result ↔ ((o : OwnCacheState) × HasRoundAt self.now cpu index o) }
    {
        if index >= self.owners.len() || index >= self.caches.len() {
            return false;
        }
        self.owners[index] == cpu && !self.caches[index].is_empty()
    }

    /// The index of the first of the CPU's own caches that has a round: by arena, then by number.
    fn first_with_round(&self, cpu: usize) -> Option<usize>
        requires world { IsWorld self.now }
        ensures some { IfSome result
            (λ k. (o : OwnCacheState) × IsFirstWithRound self.now cpu k o) }
        ensures none { IfNone result ((k : ℕ) (o : OwnCacheState)
            → ¬ HasRoundAt self.now cpu k o) }
    {
        for index in 0..self.owners.len() {
            if self.has_round_at(cpu, index) {
                return Some(index);
            }
        }
        None
    }
}
