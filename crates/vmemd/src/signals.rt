//! What the workers of a server share beside its system, and what each of them has.
ghost use Rattle.std.specs.Prelude.{◌<◌};
ghost use Rattle.lease_proto.specs.declared.limits.TheConstants.{MOST_CPUS};

use deed_table::Name;
use lease_tcp::{Door, Served, Shortage, accept_loop};
use lease_threads::{Cpu, System};
use std::alloc::Global;
use std::sync::Wait;
use std::sync::atomic::{AtomicBool, AtomicU64, Ordering};
use std::time::Clock;

/// What tells workers to stop, and what they tell.
#[derive(Drop)]
pub struct Signals {
    /// Raised once workers are to end.
    stop: AtomicBool,
    /// How many workers have their CPU.
    ready: AtomicU64,
    /// Raised where a worker was out of memory for its CPU.
    starved: AtomicBool,
    /// Raised where something could not be put back at once.
    stuck: AtomicBool,
    /// Raised where a part wasn't found where it was set up.
    missed: AtomicBool,
    /// Raised where there was no descriptor for a connection.
    descriptors: AtomicBool,
    /// Raised where there was no thread for one.
    threads: AtomicBool,
}

/// The CPU of a worker that was counted as ready: only `Signals::gather` makes one. It can do
/// nothing but serve, and isn't to be dropped.
pub struct ReadyCpu<N: Name> {
    cpu: Cpu<N>,
}

/// That a worker that was counted as ready has served: only `ReadyCpu::serve` makes one.
#[derive(PartialEq, Eq, Debug, Drop)]
pub struct Worked(Served);

/// That there was no memory for a worker's CPU, which is told: only `Signals::gather` makes one.
#[derive(PartialEq, Eq, Debug, Drop)]
pub struct Starved(());

impl<N: Name> ReadyCpu<N> {
    /// Serves the door's connections by the system, as `accept_loop` does, and gives the CPU back.
    pub fn serve<R: Wait + Clock>(
        self,
        rt: &R,
        alloc: Global,
        door: Door<'_>,
        system: &System<N>,
    ) -> (Cpu<N>, Worked) {
        let ReadyCpu { cpu } = self;
        let (cpu, served) = accept_loop(rt, alloc, door, system, cpu);
        (cpu, Worked(served))
    }
}

impl Signals {
    /// None is raised.
    pub fn new() -> Signals {
        Signals {
            stop: AtomicBool::new(false),
            ready: AtomicU64::new(0),
            starved: AtomicBool::new(false),
            stuck: AtomicBool::new(false),
            missed: AtomicBool::new(false),
            descriptors: AtomicBool::new(false),
            threads: AtomicBool::new(false),
        }
    }

    /// Has each worker end after the connection that it serves.
    pub fn stop(&self) {
        self.stop.store(true, Ordering::SeqCst);
    }

    /// The flag that `stop` raises.
    pub fn flag(&self) -> &AtomicBool {
        &self.stop
    }

    /// Makes the CPU of this number for a worker, and tells that one more has its own; or tells
    /// that there is no memory for it.
    pub fn gather<N: Name>(
        &self,
        alloc: Global,
        system: &System<N>,
        number: u32,
    ) -> Result<ReadyCpu<N>, Starved>
        requires { number < MOST_CPUS }
    {
        match Cpu::new(alloc, system, number) {
            Ok(Some(cpu)) => {
                self.ready.fetch_add(1, Ordering::SeqCst);
                Ok(ReadyCpu { cpu })
            }
            Ok(None) => unreachable!(),
            Err(_) => {
                self.starved.store(true, Ordering::SeqCst);
                Err(Starved(()))
            }
        }
    }

    /// How many workers have their CPU.
    pub fn ready(&self) -> u64 {
        self.ready.load(Ordering::SeqCst)
    }

    /// Whether there was none for a worker's CPU.
    pub fn is_starved(&self) -> bool {
        self.starved.load(Ordering::SeqCst)
    }

    /// Tells that something could not be put back at once, and says whether it is the first time.
    pub fn note_stuck(&self) -> bool {
        !self.stuck.swap(true, Ordering::SeqCst)
    }

    /// Whether something could not be put back at once.
    pub fn is_stuck(&self) -> bool {
        self.stuck.load(Ordering::SeqCst)
    }

    /// Tells that a part wasn't found where it was set up, and says whether it is the first time.
    pub fn note_missed(&self) -> bool {
        !self.missed.swap(true, Ordering::SeqCst)
    }

    /// Tells that there was none of this for a connection, and says whether it is the first time.
    pub fn note_shortage(&self, what: Shortage) -> bool {
        let noted = match what {
            Shortage::Descriptor => &self.descriptors,
            Shortage::Thread => &self.threads,
        };
        !noted.swap(true, Ordering::SeqCst)
    }
}
