//! A server by workers, each of which serves one connection after another over a CPU of its own.
ghost use Rattle.std.specs.Prelude.{◌≡◌, ◌⊎◌, ◌<◌, ◌≤◌, Err};
ghost use Rattle.lease_proto.specs.declared.limits.TheConstants.{MOST_CPUS};
ghost use Rattle.vmemd.specs.Musters.{AreReady};
ghost use Rattle.vmemd.specs.Running.{Attends, BothWork, console_streams};
ghost use Rattle.vmemd_setup.specs.declared.commands.TheConstants.{MOST_WORKERS};

use crate::attending::{Attended, attend};
use crate::hosts::Host;
use crate::musters::{Muster, are_ready};
use crate::running::{Console, Site};
use crate::signals::{Signals, Starved, Worked};
use crate::stopping::{retire, stop};
use deed_table::Name;
use std::io::{Read, Write};
use std::net::{Net, TcpListener, TcpStream};
use std::sync::Wait;
use std::thread;
use std::time::{Clock, Duration};
use vmemd_setup::RunFault;

/// The workers of a server, as they tell that they have their CPUs.
#[derive(Drop)]
struct Workers<'a, R> {
    rt: &'a R,
    signals: &'a Signals,
}

impl<R: Clock> Muster for Workers<'_, R> {
    ghost use Rattle.std.specs.Prelude.{⊤};

    // (of a flag and a count no contract can say what threads make them)
    ghost may_starve = { λ _ _. ⊤ };

    ghost may_count = { λ _ _. ⊤ };

    fn is_starved(&self) -> bool {
        self.signals.is_starved()
    }

    fn ready(&self) -> u64 {
        self.signals.ready()
    }

    fn pause(&mut self) {
        thread::sleep(self.rt, Duration::from_millis(1));
    }
}

/// Starts the workers, waits for the end of the input, and stops them.
pub(crate) fn serve_all<N: Name + Send + Sync, R: Host, I: Read + Drop, W: Write + Drop>(
    rt: &R,
    site: &Site<'_, N>,
    console: Console<I, W>,
) -> Attended<I, W>
    requires workers { site.now.plan.workers ≤ MOST_WORKERS }
    requires works { BothWork (console_streams I.remaining W.contents console) }
    ensures { Attends site.now.system.now.arenas (console_streams I.remaining W.contents console)
        (console_streams I.remaining W.contents result.console) result.ended }
{
    let workers = site.plan.workers;
    thread::scope(
        thread::scope_env(),
        rt,
        move |scope| -> Attended<I, W>
            requires workers { workers ≤ MOST_WORKERS }
            requires works { BothWork (console_streams I.remaining W.contents console) }
            ensures { Attends site.entry.now.system.now.arenas
                (console_streams I.remaining W.contents console)
                (console_streams I.remaining W.contents result.console) result.ended }
        {
            let mut all = true;
            for number in 0..workers {
                if scope.spawn(move || work(rt, site, number)).is_err() {
                    all = false;
                    break;
                }
            }
            let signals = site.signals;
            let ran = if all {
                attend_when_ready(rt, site, &mut Workers { rt, signals }, console)
            } else {
                Attended::unserved(console)
            };
            stop(rt, site);
            ran
        },
    )
}

/// Tells the address once each worker has its CPU, and answers the lines of the input until it
/// ends.
fn attend_when_ready<N: Name, R: Wait, M: Muster, I: Read, W: Write>(
    rt: &R,
    site: &Site<'_, N>,
    muster: &mut M,
    console: Console<I, W>,
) -> Attended<I, W>
    requires works { BothWork (console_streams I.remaining W.contents console) }
    ensures attends { Attends site.now.system.now.arenas
        (console_streams I.remaining W.contents console)
        (console_streams I.remaining W.contents result.console) result.ended }
    ensures ready { (result.ended ≡ Err RunFault.Memory)
        ⊎ AreReady M.may_count muster.new site.now.plan.workers }
{
    if are_ready(rt, muster, site.plan.workers) {
        attend(rt, site, console)
    } else {
        Attended::unserved(console)
    }
}

/// What one worker does: it serves once it was counted as ready, or tells that it has no CPU.
fn work<
    N: Name,
    R: Net<Listener = TcpListener, Stream = TcpStream> + Wait + Clock + Eprint + AllocGlobal,
>(rt: &R, site: &Site<'_, N>, number: u32) -> Result<Worked, Starved>
    requires { number < MOST_CPUS }
{
    let ready = site.signals.gather(rt.alloc(), site.system, number)?;
    let (cpu, worked) = ready.serve(rt, rt.alloc(), site.door, site.system);
    retire(rt, site.system, site.signals, cpu);
    Ok(worked)
}
