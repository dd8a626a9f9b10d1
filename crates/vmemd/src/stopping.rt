//! How a server stops: no further connection, all CPUs retired, the system shut.
ghost use Rattle.std.specs.Prelude.{IfErr, IfOk};
ghost use Rattle.lease_threads.specs.Ends.{AreRangesLeft, AreRangesOf, IsRestOf, begun};

use crate::retrying::{Alarm, Rest, put_back};
use crate::running::Site;
use crate::signals::Signals;
use deed_core::Range;
use deed_table::Name;
use lease_threads::{Cpu, Halted, System};
use locked_parts::{Misplaced, NoneMissed};
use std::fmt::Display;
use std::marker::Model;
use std::sync::Wait;
use std::thread;
use std::time::{Clock, Duration};
use vmemd_setup::{RunFault, tell_fault};

/// How long, in milliseconds, it waits before it tries again what couldn't be put back at the end.
const SHUT_PAUSE: u64 = 20;

/// What workers share, as it is told of what can't be put back.
#[derive(Drop)]
pub(crate) struct Stuck<'a, R> {
    pub(crate) rt: &'a R,
    pub(crate) signals: &'a Signals,
}

impl<R: Eprint> Alarm for Stuck<'_, R> {
    ghost use Rattle.std.specs.Prelude.{⊤};

    // (of a flag no contract can say what threads make it, nor what was written to standard error)
    ghost may_note = { λ _ _ _. ⊤ };

    ghost may_tell = { λ _ _. ⊤ };

    ghost may_find = { λ _ _. ⊤ };

    fn note(&mut self) -> bool {
        self.signals.note_stuck()
    }

    fn tell(&mut self) {
        tell_fault(self.rt, RunFault::Shut);
    }

    fn is_noted(&self) -> bool {
        self.signals.is_stuck()
    }
}

/// A CPU that is to be retired. A contract sees the CPU.
struct CpuRest<'a, N: Name, R: Wait> {
    rt: &'a R,
    system: &'a System<N>,
    cpu: Cpu<N>,
}

impl<'a, N: Name, R: Wait> Model for CpuRest<'a, N, R> {
    ghost use Rattle.lease_threads.specs.Systems.{CpuState};

    ghost Value = { CpuState };

    ghost view = { λ r. r.cpu };
}

impl<N: Name, R: Wait + Clock> Rest for CpuRest<'_, N, R> {
    ghost use Rattle.std.specs.Prelude.{IfErr};
    ghost use Rattle.vmemd.specs.Retrying.{IsRestOfCpu};

    type Done = ();

    ghost may_end = { λ old ended. IfErr ended (IsRestOfCpu old) };

    fn pause(&self) {
        pause(self.rt);
    }

    fn again(self) -> Result<(), Self> {
        let CpuRest { rt, system, cpu } = self;
        match system.retire(rt, cpu) {
            Ok(()) => Ok(()),
            Err(cpu) => Err(CpuRest { rt, system, cpu }),
        }
    }
}

/// The rest of a system that is to be shut. A contract sees that rest.
struct SystemRest<'a, N: Name, R: Wait> {
    rt: &'a R,
    halted: Halted<N>,
}

impl<'a, N: Name, R: Wait> Model for SystemRest<'a, N, R> {
    ghost use Rattle.lease_threads.specs.Ends.{HaltedState};

    ghost Value = { HaltedState };

    ghost view = { λ r. r.halted };
}

impl<N: Name, R: Wait + Clock> Rest for SystemRest<'_, N, R> {
    ghost use Rattle.std.specs.Prelude.{IfOk, IfErr};
    ghost use Rattle.lease_threads.specs.Ends.{AreRangesLeft, IsRestOf};

    type Done = Vec<Vec<Range>>;

    ghost may_end = { λ old ended. IfOk ended (λ ranges. AreRangesLeft old ranges.items)
        × IfErr ended (IsRestOf old) };

    fn pause(&self) {
        pause(self.rt);
    }

    fn again(self) -> Result<Vec<Vec<Range>>, Self> {
        let SystemRest { rt, halted } = self;
        match halted.again(rt) {
            Ok(ranges) => Ok(ranges),
            Err(halted) => Err(SystemRest { rt, halted }),
        }
    }
}

/// Waits before something is tried again that couldn't be put back.
fn pause<R: Clock>(rt: &R) {
    thread::sleep(rt, Duration::from_millis(SHUT_PAUSE));
}

/// Lets no further connection come, and ends those that there are within the grace, if any.
pub(crate) fn stop<N: Name, R: Wait + Clock>(rt: &R, site: &Site<'_, N>) {
    site.signals.stop();
    site.listener.close();
    if let Some(seconds) = site.plan.grace {
        site.door.roll.end(rt, seconds);
    }
}

/// Retires a CPU, for as long as it takes. Where that is no good at once, it looks for the parts.
pub(crate) fn retire<N: Name, R: Wait + Clock + Eprint>(
    rt: &R,
    system: &System<N>,
    signals: &Signals,
    cpu: Cpu<N>,
) {
    let tried = CpuRest { rt, system, cpu }.again();
    if tried.is_err() {
        let _ = look(rt, system, signals);
    }
    put_back(rt, tried, &mut Stuck { rt, signals });
}

/// Looks for each part once. The first that wasn't found where it was set up, now or before, is
/// told on standard error, once.
pub(crate) fn look<N: Name, R: Wait + Eprint>(
    rt: &R,
    system: &System<N>,
    signals: &Signals,
) -> Result<NoneMissed, Misplaced> {
    let looked = system.look(rt);
    if let Err(misplaced) = &looked {
        tell_missed(rt, signals, *misplaced);
    }
    looked
}

/// Tells that this part is missed, unless one was told.
pub(crate) fn tell_missed<R: Eprint, M: Display + Drop>(rt: &R, signals: &Signals, missed: M) {
    if signals.note_missed() {
        tell_fault(rt, missed);
    }
}

/// Ends the system, for as long as it takes, and gives the ranges of its roots by arena.
pub(crate) fn shut<N: Name, R: Wait + Clock, A: Alarm>(
    rt: &R,
    system: System<N>,
    alarm: &mut A,
) -> Vec<Vec<Range>>
    ensures { AreRangesOf system result.items }
{
    put_back(rt, begin_shut(rt, system), alarm)
}

/// Ends the system, as far as it goes at once.
fn begin_shut<N: Name, R: Wait>(
    rt: &R,
    system: System<N>,
) -> Result<Vec<Vec<Range>>, SystemRest<'_, N, R>>
    ensures ranges { IfOk result (λ ranges. AreRangesLeft (begun system) ranges.items) }
    ensures rest { IfErr result (IsRestOf (begun system)) }
{
    match system.shut(rt) {
        Ok(ranges) => Ok(ranges),
        Err(halted) => Err(SystemRest { rt, halted }),
    }
}
