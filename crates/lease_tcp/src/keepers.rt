//! What tidies a system whose connections share its CPUs: by time, since such a connection may stay
//! for ever.
ghost use Rattle.std.specs.Prelude.{◌≡◌, None, true};

use crate::houses::House;
use crate::rounds::{Kept, Rounds, keep_rounds};
use crate::seats::{Drained, Reaped};
use crate::shared_cpus::SharedCpus;
use crate::tidying::{Tidied, Upkeep, tidy_by};
use deed_table::Name;
use lease_threads::Interval;
use std::sync::Wait;
use std::thread;
use std::time::{Clock, Duration, Instant};

/// How long, in milliseconds, a keeper sleeps before it looks again whether it is to end.
const KEEPER_TURN: u64 = 20;

/// After how many milliseconds it goes round again.
const ROUND: u64 = 1000;

/// How often each arena is reaped in a round at most, by `REAP_LIMIT` looks at most each time.
const REAPS: u32 = 64;

/// Who keeps a house, when it last went round, and what came of that if it was in this turn.
#[derive(Drop)]
struct Keeper<'a, N: Name, R> {
    rt: &'a R,
    house: &'a House<'a, N>,
    round: Option<Instant>,
    /// What a contract sees: no round is gone without it.
    done: Option<Tidied>,
}

impl<N: Name, R: Wait + Clock> Rounds for Keeper<'_, N, R> {
    ghost use Rattle.std.specs.Prelude.{◌≡◌, ⊤, None, false, true, is_some};

    // (of a flag no contract can say what threads make it, of a clock what it tells, of locks what
    // lies under them)
    ghost may_end = { λ _ _. ⊤ };

    ghost may_rest = { λ _ rested. is_some rested.done ≡ false };

    ghost may_be_due = { λ keeper due. keeper.round ≡ None → due ≡ true };

    ghost may_go = { λ _ gone. is_some gone.done ≡ true };

    fn is_over(&self) -> bool {
        self.house.is_over()
    }

    fn rest(&mut self) {
        self.done = None;
        thread::sleep(self.rt, Duration::from_millis(KEEPER_TURN));
    }

    fn is_due(&self) -> bool {
        is_due(self.rt, self.round)
    }

    fn go(&mut self) {
        self.done = Some(go_round(self.rt, &self.house.cpus));
        self.round = Instant::now(self.rt).ok();
    }
}

/// Goes round each second, as `keep_rounds` does, until all connections have ended.
pub fn keep<N: Name, R: Wait + Clock>(rt: &R, house: &House<'_, N>) -> Kept {
    let mut keeper = Keeper {
        rt,
        house,
        round: Instant::now(rt).ok(),
        done: None,
    };
    keep_rounds(rt, &mut keeper)
}

/// Whether a second has passed since the last round. It has where the clock can't be read.
fn is_due<C: Clock>(clock: &C, round: Option<Instant>) -> bool
    ensures { round ≡ None → result ≡ true }
{
    let Some(since) = round else {
        return true;
    };
    match since.elapsed(clock) {
        Ok(passed) => passed >= Duration::from_millis(ROUND),
        Err(_) => true,
    }
}

/// What tidies the CPUs that connections share.
#[derive(Drop)]
struct SharedUpkeep<'a, N: Name, R> {
    rt: &'a R,
    cpus: &'a SharedCpus<'a, N>,
}

impl<N: Name, R: Wait> Upkeep for SharedUpkeep<'_, N, R> {
    ghost use Rattle.std.specs.Prelude.{◌≡◌, length};

    ghost arenas = { λ u. length u.cpus.now.arenas };

    ghost seats = { λ u. u.cpus.now.seats };

    // (its CPUs stay the same ones; of what lies under their locks no contract can say more)
    ghost may_drain = { λ u v. v.cpus ≡ u.cpus };

    ghost may_reap = { λ u _ v. v.cpus ≡ u.cpus };

    ghost may_tick = { λ u v. v.cpus ≡ u.cpus };

    fn arenas(&self) -> u32 {
        let cpus = self.cpus;
        cpus.system.tree().len() as u32
    }

    fn drain(&mut self) -> Drained {
        drain_each(self.rt, self.cpus)
    }

    fn reap(&mut self, arena: u32) -> Reaped {
        reap_often(self.rt, self.cpus, arena)
    }

    fn tick(&mut self) -> Interval {
        let cpus = self.cpus;
        cpus.system.tick(self.rt)
    }
}

/// Drains each CPU that moved nothing since the last round, reaps each arena, and ticks each
/// depot, as `tidy_by` does. It has one seat at a time, and none for longer than one drain or reap
/// takes.
pub fn go_round<N: Name, R: Wait>(rt: &R, cpus: &SharedCpus<'_, N>) -> Tidied {
    let mut upkeep = SharedUpkeep { rt, cpus };
    tidy_by(&mut upkeep)
}

/// Drains each CPU that moved nothing since the last round.
fn drain_each<N: Name, R: Wait>(rt: &R, cpus: &SharedCpus<'_, N>) -> Drained
    ensures { result ≡ cpus.now.seats }
{
    let mut drained = Drained::none();
    for seat in cpus.seats {
        drained = drained.also(seat.lock(rt).drain_at_rest(rt, cpus.system));
    }
    drained
}

/// Reaps an arena, each time by a seat that is free then, until a reap ends before its limit, and
/// tells what came of the last.
fn reap_often<N: Name, R: Wait>(rt: &R, cpus: &SharedCpus<'_, N>, arena: u32) -> Reaped
    ensures { result.arena ≡ arena }
{
    let mut reaped = reap_once(rt, cpus, arena);
    for _ in 1..REAPS {
        if reaped.left() > 0 {
            break;
        }
        reaped = reap_once(rt, cpus, arena);
    }
    reaped
}

/// Reaps it once.
fn reap_once<N: Name, R: Wait>(rt: &R, cpus: &SharedCpus<'_, N>, arena: u32) -> Reaped
    ensures { result.arena ≡ arena }
{
    cpus.take(rt, 0).reap(rt, cpus.system, arena)
}
