//! A server with a thread for each connection, which share its CPUs.
ghost use Rattle.std.specs.Prelude.{◌≤◌};
ghost use Rattle.vmemd.specs.Running.{Attends, BothWork, console_streams};
ghost use Rattle.vmemd_setup.specs.declared.commands.TheConstants.{MOST_WORKERS};

use crate::attending::{Attended, attend};
use crate::running::{Console, Site};
use crate::signals::Signals;
use crate::stopping::{retire, stop};
use deed_table::Name;
use lease_tcp::{House, Overseer, Seat, Shortage, keep, new_seats, serve_talks};
use lease_threads::System;
use std::io::{Read, Write};
use std::sync::{Mutex, Wait};
use std::thread;
use std::thread::Threads;
use std::time::Clock;
use vmemd_setup::tell_fault;

/// Tells on standard error what a server lacks, each the first time.
#[derive(Drop)]
struct Teller<'a, R> {
    rt: &'a R,
    signals: &'a Signals,
}

impl<R: Eprint> Overseer for Teller<'_, R> {
    fn lacks(&self, what: Shortage) {
        if self.signals.note_shortage(what) {
            match what {
                Shortage::Descriptor => tell_fault(self.rt, "descriptors"),
                Shortage::Thread => tell_fault(self.rt, "threads"),
            }
        }
    }
}

/// Makes the CPUs, serves connections by them until the input ends, and stops.
pub(crate) fn serve_shared<
    N: Name + Send + Sync,
    R: Threads + Wait + Clock + Eprint + Sync + AllocGlobal,
    I: Read + Drop,
    W: Write + Drop,
>(rt: &R, site: &Site<'_, N>, console: Console<I, W>) -> Attended<I, W>
    requires workers { (1 ≤ site.now.plan.workers) × (site.now.plan.workers ≤ MOST_WORKERS) }
    requires works { BothWork (console_streams I.remaining W.contents console) }
    ensures { Attends site.now.system.now.arenas (console_streams I.remaining W.contents console)
        (console_streams I.remaining W.contents result.console) result.ended }
{
    let system: &System<N> = &*site.system;
    let mut seats: Vec<Mutex<Seat<N>>> = Vec::new(rt.alloc());
    let ran = match new_seats(rt.alloc(), system, site.plan.workers, &mut seats) {
        Ok(()) => {
            let house = House::new(site.door, system, seats.as_slice());
            serve_house(rt, site, &house, console)
        }
        Err(_) => Attended::unserved(console),
    };
    retire_seats(rt, site.system, site.signals, seats);
    ran
}

/// Starts what takes connections and the keeper, waits for the end of the input, and stops them.
fn serve_house<
    N: Name + Send + Sync,
    R: Threads + Wait + Clock + Eprint + Sync + AllocGlobal,
    I: Read + Drop,
    W: Write + Drop,
>(rt: &R, site: &Site<'_, N>, house: &House<'_, N>, console: Console<I, W>) -> Attended<I, W>
    requires works { BothWork (console_streams I.remaining W.contents console) }
    ensures { Attends site.now.system.now.arenas (console_streams I.remaining W.contents console)
        (console_streams I.remaining W.contents result.console) result.ended }
{
    let teller = Teller {
        rt,
        signals: site.signals,
    };
    let overseer = &teller;
    thread::scope(
        thread::scope_env(),
        rt,
        move |scope| -> Attended<I, W>
            requires works { BothWork (console_streams I.remaining W.contents console) }
            ensures { Attends site.entry.now.system.now.arenas
                (console_streams I.remaining W.contents console)
                (console_streams I.remaining W.contents result.console) result.ended }
        {
            let all = scope
                .spawn(move || serve_talks(rt, house, overseer))
                .is_ok()
                && scope.spawn(move || keep(rt, house)).is_ok();
            let ran = if all {
                attend(rt, site, console)
            } else {
                Attended::unserved(console)
            };
            stop(rt, site);
            ran
        },
    )
}

/// Retires the CPU of each seat.
fn retire_seats<N: Name, R: Wait + Clock + Eprint>(
    rt: &R,
    system: &System<N>,
    signals: &Signals,
    mut seats: Vec<Mutex<Seat<N>>>,
) {
    while let Some(seat) = seats.pop() {
        retire(rt, system, signals, seat.into_inner().into_cpu());
    }
    seats.destroy_empty();
}
