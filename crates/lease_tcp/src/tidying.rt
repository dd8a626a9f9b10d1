//! How a system is tidied, by whatever does each part of it.
ghost use Rattle.lease_tcp.specs.Tidying.{ReapsBelow, Tidies};

use crate::seats::{Drained, Reaped};
use lease_threads::Interval;

/// What can tidy a system, part by part. A drain, a reap and a tick have to give what only seats
/// and a walk over the depots make, so that none is left out.
pub trait Upkeep {
    ghost use Rattle.std.specs.Prelude.{◌≡◌, ℕ};

    // how many arenas it has
    ghost arenas: { Self → ℕ };

    // how many seats it has
    ghost seats: { Self → ℕ };

    // before and after, what may come of a drain
    ghost may_drain: { Self → Self → Type 0 };

    // and of reaping the arena of this number
    ghost may_reap: { Self → ℕ → Self → Type 0 };

    // and of a tick
    ghost may_tick: { Self → Self → Type 0 };

    /// How many arenas there are.
    fn arenas(&self) -> u32
        ensures { result ≡ arenas self.now };

    /// Gives back what the CPU of each seat holds, as far as that goes and its seat lets it.
    fn drain(&mut self) -> Drained
        ensures all { result ≡ seats self.old }
        ensures drained { may_drain self.old self.new };

    /// Gives back what an arena's caches hold in excess, by a bounded number of steps, and tells what
    /// came of it, or of the last time where it was done several times.
    fn reap(&mut self, arena: u32) -> Reaped
        ensures arena { result.arena ≡ arena }
        ensures reaped { may_reap self.old arena self.new };

    /// Begins an interval in each depot.
    fn tick(&mut self) -> Interval
        ensures all { result ≡ arenas self.old }
        ensures ticked { may_tick self.old self.new };
}

/// That a system was tidied. Only `tidy_by` makes one.
#[derive(PartialEq, Eq, Debug, Drop)]
pub struct Tidied(());

/// Drains, then reaps each arena, then ticks.
pub fn tidy_by<U: Upkeep>(upkeep: &mut U) -> Tidied
    ensures { Tidies U.arenas U.may_drain U.may_reap U.may_tick upkeep.old upkeep.new }
{
    let _ = upkeep.drain();
    reap_each(upkeep);
    let _ = upkeep.tick();
    Tidied(())
}

/// Reaps each arena. Children come before their sources: what they hand back can be reaped there.
fn reap_each<U: Upkeep>(upkeep: &mut U)
    ensures { ReapsBelow U.may_reap (U.arenas upkeep.old) upkeep.old upkeep.new }
{
    for arena in (0..upkeep.arenas()).rev() {
        let _ = upkeep.reap(arena);
    }
}
