//! A worker of a running system.
ghost use Rattle.std.specs.Prelude.{◌≡◌};

use crate::seats::{Drained, Reaped, Seat};
use crate::tidying::{Tidied, Upkeep, tidy_by};
use deed_table::Name;
use lease_proto::{Line, Reply};
use lease_threads::{Cpu, Interval, System};
use std::alloc::Global;
use std::marker::Model;
use std::sync::Wait;
use std::time::Clock;
use tcp_connections::{
    ClientLines, Door, NoOne, Reception, Served, TcpEntrance, Worker, serve_each,
};

/// In how many steps an arena is reaped at a time, at most.
pub const REAP_LIMIT: u64 = 1024;

/// A worker that answers by a system which others share, over a seat of its own. `into_cpu` ends
/// it. A contract sees the arenas of its system and its CPU.
pub struct SystemWorker<'a, N: Name, R: Wait> {
    rt: &'a R,
    system: &'a System<N>,
    seat: Seat<N>,
}

impl<'a, N: Name, R: Wait> Model for SystemWorker<'a, N, R> {
    ghost use Rattle.lease_tcp.specs.Workers.{SystemWorkerState};

    ghost Value = { SystemWorkerState };

    ghost view = { λ w. record { arenas = w.system.now.arenas; cpu = w.seat.cpu } };
}

impl<'a, N: Name, R: Wait> SystemWorker<'a, N, R> {
    /// A worker of this system. The CPU is one of it.
    pub fn new(rt: &'a R, system: &'a System<N>, cpu: Cpu<N>) -> SystemWorker<'a, N, R>
        ensures arenas { result.arenas ≡ system.entry.now.arenas }
        ensures cpu { result.cpu ≡ cpu }
    {
        let seat = Seat::new(cpu);
        SystemWorker { rt, system, seat }
    }

    /// Its CPU, with what the CPU's hand and magazines hold.
    pub fn into_cpu(self) -> Cpu<N>
        ensures { result ≡ self.entry.cpu }
    {
        let SystemWorker {
            rt: _,
            system: _,
            seat,
        } = self;
        seat.into_cpu()
    }
}

impl<N: Name, R: Wait> Worker for SystemWorker<'_, N, R> {
    ghost use Rattle.deed_table.specs.declared.deeds.SeatDeed.{SeatDeed};
    ghost use Rattle.lease_tcp.specs.Workers.{MayReply, MayTidy};

    type Tidied = Tidied;

    ghost may_reply = { MayReply (SeatDeed N) };

    ghost may_tidy = { MayTidy };

    fn reply(&mut self, line: &Line) -> Reply {
        self.seat.answer(self.rt, self.system, line).reply
    }

    fn tidy(&mut self) -> Tidied {
        tidy_by(self)
    }
}

impl<N: Name, R: Wait> Upkeep for SystemWorker<'_, N, R> {
    ghost use Rattle.lease_tcp.specs.Workers.{MayDrain, MayReap, MayTick, count_of_arenas};

    ghost arenas = { count_of_arenas };

    ghost seats = { λ _. 1 };

    ghost may_drain = { MayDrain };

    ghost may_reap = { MayReap };

    ghost may_tick = { MayTick };

    fn arenas(&self) -> u32 {
        self.system.tree().len() as u32
    }

    fn drain(&mut self) -> Drained {
        self.seat.drain(self.rt, self.system)
    }

    fn reap(&mut self, arena: u32) -> Reaped {
        self.seat.reap(self.rt, self.system, arena)
    }

    fn tick(&mut self) -> Interval {
        self.system.tick(self.rt)
    }
}

/// Serves one connection of the door after another by the system, as `serve_each` does, and gives
/// the CPU back once the door is closed and the accepted connection has ended.
pub fn accept_loop<N: Name, R: Wait + Clock>(
    rt: &R,
    alloc: Global,
    door: Door<'_>,
    system: &System<N>,
    cpu: Cpu<N>,
) -> (Cpu<N>, Served) {
    let tally = door.counts.at(cpu.number() as usize);
    let lines = ClientLines::new(SystemWorker::new(rt, system, cpu), tally);
    let no_one = NoOne;
    let mut reception = Reception {
        arrivals: TcpEntrance::new(rt, alloc, door, &no_one),
        host: lines,
    };
    let served = serve_each(rt, &mut reception);
    let Reception { arrivals: _, host } = reception;
    (host.into_worker().into_cpu(), served)
}
