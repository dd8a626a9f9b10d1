//! What keeps a system in shape while it runs: intervals, sizes of magazines, growing, reaping.
ghost use Rattle.std.specs.Prelude.{◌≡◌, ◌⊎◌, ◌<◌, ◌≤◌, None, true, length};
ghost use Rattle.magazine_layer.specs.Magazines.{IsSize};
ghost use Rattle.locked_parts.specs.GrowAnswers.{AnswersGrow};
ghost use Rattle.locked_parts.specs.Kinds.{AreForSame, count_of_caches};
ghost use Rattle.locked_parts.specs.Walks.{IsResizedFor};
ghost use Rattle.lease_threads.specs.Reaping.{ReapsSoundly, KeepsHand, unbegun};

use crate::cpus::Cpu;
use crate::systems::System;
use deed_core::Range;
use deed_table::Name;
use locked_parts::{Grown, Interval, Misplaced, NoneMissed, NotGrown, OpenGate, Resized, Running};
use quantum_cache::{EmptyingFault, ReapFault, Reaping, reap_arena};
use std::sync::Wait;

impl<N: Name> System<N> {
    /// Begins an interval in each depot, one after another, in order of setup, and tells in how
    /// many arenas.
    pub fn tick<R: Wait>(&self, rt: &R) -> Interval
        ensures { result ≡ length self.now.arenas }
    {
        self.parts.tick(rt)
    }

    /// Has the depots of the arena keep magazines of this size from here on, one after another, and
    /// tells whether one of them kept smaller ones before. An arena that isn't there has none.
    pub fn resize<R: Wait>(&self, rt: &R, arena: u32, size: usize) -> Resized
        requires { IsSize size }
        ensures asked { IsResizedFor self.now.arenas arena size result }
        ensures rose { result.rose ≡ true
            → (3 < size) × (0 < count_of_caches self.now.arenas arena) }
    {
        self.parts.resize(rt, arena, size)
    }

    /// Opens a further root of this range for an arena without a source, and adds it as an owned
    /// span, in one event under the arena's lock, which makes room for its end too. The first fault
    /// that stands is told; of those that lie under the lock the part's own call says exactly when.
    pub fn grow<R: Wait>(&self, rt: &R, arena: u32, range: Range) -> Result<Grown, NotGrown>
        ensures { AnswersGrow self.now.arenas arena range result }
    {
        self.parts.grow(rt, arena, range)
    }

    /// Looks for each part once, under its lock, one after another. It gives the first that wasn't
    /// where it was set up, now or when a call looked for it before: a step that needs that is
    /// answered as where there is no memory or nothing, and a `grow` says so.
    pub fn look<R: Wait>(&self, rt: &R) -> Result<NoneMissed, Misplaced> {
        self.parts.look(rt)
    }

    /// Moves rounds that the depots of the arena may let go to their slabs, and slabs of which no
    /// chunk is out to the arena, in at most `limit` looks. It tries to place the CPU's hand first,
    /// and takes no look while it can't.
    pub fn reap<R: Wait>(&self, rt: &R, cpu: &mut Cpu<N>, arena: u32, limit: u64) -> Reaping
        ensures number { cpu.new.number ≡ cpu.old.number }
        ensures magazines { AreForSame cpu.old.caches cpu.new.caches }
        ensures reaped { arena < length self.now.arenas
            → KeepsHand cpu.old.hand cpu.new.hand limit result
            ⊎ ReapsSoundly self.now.arenas arena limit result cpu.new.hand }
        ensures no_arena { length self.now.arenas ≤ arena → (result ≡ unbegun limit)
            × ((cpu.new.hand ≡ None) ⊎ KeepsHand cpu.old.hand cpu.new.hand limit result) }
    {
        if self.place_hand(rt, cpu).is_err() {
            return unbegun(limit);
        }
        self.reap_empty(rt, cpu, arena, limit)
    }

    /// Reaps with an empty hand.
    fn reap_empty<R: Wait>(&self, rt: &R, cpu: &mut Cpu<N>, arena: u32, limit: u64) -> Reaping
        requires { cpu.old.hand ≡ None }
        ensures number { cpu.new.number ≡ cpu.old.number }
        ensures magazines { AreForSame cpu.old.caches cpu.new.caches }
        ensures reaped { arena < length self.now.arenas
            → ReapsSoundly self.now.arenas arena limit result cpu.new.hand }
        ensures no_arena { length self.now.arenas ≤ arena
            → (result ≡ unbegun limit) × (cpu.new.hand ≡ None) }
    {
        if arena as usize >= self.parts.tree().len() {
            return unbegun(limit);
        }
        let chain = self.parts.tree().chain(arena);
        let number = cpu.number();
        let mut running = Running::new(&self.parts, rt, &OpenGate, number, &mut cpu.caches);
        match reap_arena(&mut running, chain, limit) {
            Ok(reaping) => reaping,
            Err(ReapFault { reaping, cause }) => {
                match cause {
                    EmptyingFault::Stuck(segment) => cpu.hold(segment),
                    EmptyingFault::Stopped(Some(segment)) => cpu.hold(segment),
                    EmptyingFault::Stopped(None) => {}
                }
                reaping
            }
        }
    }
}

/// So many looks may be taken, and none was.
fn unbegun(limit: u64) -> Reaping
    ensures { result ≡ unbegun limit }
{
    Reaping {
        left: limit,
        units: 0,
    }
}
