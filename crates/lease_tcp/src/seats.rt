//! The CPUs of a system, each under a lock, by which connections are served that share them.
ghost use Rattle.std.specs.Prelude.{◌≡◌, ◌+◌, ◌^◌, ◌⊎◌, ◌<◌, ◌≤◌, ◌↔◌, ◌||◌, ◌&&◌};
ghost use Rattle.std.specs.Prelude.{IfSome, IsTrue, OnOk, false, true, length};
ghost use Rattle.deed_table.specs.declared.deeds.SeatDeed.{SeatDeed};
ghost use Rattle.lease_proto.specs.declared.limits.TheConstants.{MOST_CPUS};
ghost use Rattle.lease_threads.specs.Calling.{RunsLine};
ghost use Rattle.lease_threads.specs.Reaping.{KeepsHand, ReapsSoundly};
ghost use Rattle.shared_book.specs.Replying.{IsAgain, IsAnswerTo};
ghost use Rattle.lease_threads.specs.Retiring.{IsDrained, RetiresSoundly};
ghost use Rattle.shared_book.specs.Settling.{IsSettledAsAsked};
ghost use Rattle.lease_tcp.specs.Workers.{StaysCpu, any_step, moves_units};
ghost use Rattle.lease_tcp.specs.declared.system_workers.TheConstants.{REAP_LIMIT};

use crate::system_workers::REAP_LIMIT;
use deed_table::Name;
use lease_proto::{Line, Reply};
use lease_threads::{Cpu, OpenGate, Reaping, System, Told};
use std::alloc::{AllocError, Global};
use std::marker::Model;
use std::sync::{Mutex, Wait};

/// A CPU, and whether anything new was granted or released by it lately. It lies under a lock. It
/// isn't to be dropped: `into_cpu` ends it. A contract sees both.
pub struct Seat<N: Name> {
    cpu: Cpu<N>,
    has_moved: bool,
}

impl<N: Name> Model for Seat<N> {
    ghost use Rattle.lease_tcp.specs.Workers.{SeatState};

    ghost Value = { SeatState };

    ghost view = { λ s. record { cpu = s.cpu; has_moved = s.has_moved } };
}

/// What came of it that a seat reaped the arena of this number. Only `Seat::reap` makes one.
#[derive(PartialEq, Eq, Debug, Drop)]
pub struct Reaped {
    arena: u32,
    reaping: Reaping,
}

impl Model for Reaped {
    ghost use Rattle.lease_tcp.specs.Workers.{ReapedState};

    ghost Value = { ReapedState };

    ghost view = { λ r. record { arena = r.arena; reaping = r.reaping } };

    ghost inverse = { λ r. record { arena = r.arena; reaping = r.reaping } };
}

impl Reaped {
    /// How many looks were left.
    pub fn left(&self) -> u64
        ensures { result ≡ self.now.reaping.left }
    {
        self.reaping.left
    }
}

/// That so many seats were drained, but for those that moved something lately. A seat makes one for
/// itself, and only `also` one for more. A contract sees how many.
#[derive(PartialEq, Eq, Debug, Drop)]
pub struct Drained {
    seats: usize,
}

impl Model for Drained {
    ghost use Rattle.std.specs.Prelude.{ℕ};

    ghost Value = { ℕ };

    ghost view = { λ d. d.seats };

    ghost inverse = { λ n. record { seats = n } };
}

impl Drained {
    /// None yet.
    pub fn none() -> Drained
        ensures { result ≡ 0 }
    {
        Drained { seats: 0 }
    }

    /// These seats, and those after them.
    pub fn also(self, more: Drained) -> Drained
        requires { self + more < 2 ^ 64 }
        ensures { result ≡ self + more }
    {
        Drained {
            seats: self.seats + more.seats,
        }
    }
}

impl<N: Name> Seat<N> {
    /// A CPU that moved nothing yet.
    pub fn new(cpu: Cpu<N>) -> Seat<N>
        ensures { result ≡ record { cpu = cpu; has_moved = false } }
    {
        Seat {
            cpu,
            has_moved: false,
        }
    }

    /// Its CPU, once it answers no more.
    pub fn into_cpu(self) -> Cpu<N>
        ensures { result ≡ self.cpu }
    {
        let Seat { cpu, has_moved: _ } = self;
        cpu
    }

    /// Answers a line by the system, as that does. Where its CPU's hand can't be placed the reply is
    /// `again`.
    pub fn answer<R: Wait>(&mut self, rt: &R, system: &System<N>, line: &Line) -> Told<N>
        ensures runs { RunsLine (SeatDeed N) system.now.arenas any_step self.old.cpu.number
            self.old.cpu.hand line.now self.new.cpu.hand
            result.reply result.receipt result.is_new }
        ensures answers { IsAnswerTo system.now.arenas line.now result.reply result.receipt }
        ensures new { result.is_new ≡ true
            → IsSettledAsAsked system.now.arenas line.now result.receipt }
        ensures held { IfSome self.new.cpu.hand (λ _. IsAgain result.reply) }
        ensures stays { StaysCpu self.old.cpu self.new.cpu }
        ensures noted { self.new.has_moved
            ≡ (self.old.has_moved || (result.is_new && moves_units result.reply)) }
    {
        match system.request(rt, &mut self.cpu, &OpenGate, line) {
            Ok(told) => {
                self.has_moved = self.has_moved || told.is_new && moves_units(&told.reply);
                told
            }
            Err(_) => unreachable!(),
        }
    }

    /// Whether it moved nothing since this was asked last.
    fn rests(&mut self) -> bool
        ensures rests { IsTrue result ↔ (self.old.has_moved ≡ false) }
        ensures new { self.new ≡ record { cpu = self.old.cpu; has_moved = false } }
    {
        let rests = !self.has_moved;
        self.has_moved = false;
        rests
    }

    /// Gives back what its CPU's hand and magazines hold, as far as that goes.
    pub fn drain<R: Wait>(&mut self, rt: &R, system: &System<N>) -> Drained
        ensures one { result ≡ 1 }
        ensures drained { RetiresSoundly system.now.arenas self.old.cpu.hand self.new.cpu.hand }
        ensures emptied { IsDrained system.now.arenas self.new.cpu }
        ensures stays { StaysCpu self.old.cpu self.new.cpu }
        ensures noted { self.new.has_moved ≡ self.old.has_moved }
    {
        system.drain(rt, &mut self.cpu);
        Drained { seats: 1 }
    }

    /// Drains its CPU if that moved nothing since this was asked last.
    pub fn drain_at_rest<R: Wait>(&mut self, rt: &R, system: &System<N>) -> Drained
        ensures one { result ≡ 1 }
        ensures drained { self.old.has_moved ≡ false
            → RetiresSoundly system.now.arenas self.old.cpu.hand self.new.cpu.hand }
        ensures emptied { self.old.has_moved ≡ false → IsDrained system.now.arenas self.new.cpu }
        ensures kept { self.old.has_moved ≡ true → self.new.cpu ≡ self.old.cpu }
        ensures stays { StaysCpu self.old.cpu self.new.cpu }
        ensures noted { self.new.has_moved ≡ false }
    {
        if self.rests() {
            self.drain(rt, system)
        } else {
            Drained { seats: 1 }
        }
    }

    /// Reaps an arena by its CPU, in `REAP_LIMIT` looks at most.
    pub fn reap<R: Wait>(&mut self, rt: &R, system: &System<N>, arena: u32) -> Reaped
        ensures arena { result.arena ≡ arena }
        ensures reaped { arena < length system.now.arenas
            → KeepsHand self.old.cpu.hand self.new.cpu.hand REAP_LIMIT result.reaping
            ⊎ ReapsSoundly system.now.arenas arena REAP_LIMIT result.reaping self.new.cpu.hand }
        ensures stays { StaysCpu self.old.cpu self.new.cpu }
        ensures noted { self.new.has_moved ≡ self.old.has_moved }
    {
        let reaping = system.reap(rt, &mut self.cpu, arena, REAP_LIMIT);
        Reaped { arena, reaping }
    }
}

/// Whether units go through a CPU for a line that is settled by this reply.
fn moves_units(reply: &Reply) -> bool
    ensures { result ≡ moves_units reply.now }
{
    matches!(reply, Reply::Granted(_) | Reply::Released(_))
}

/// Makes so many CPUs of a system, each under its lock. When out of memory, those that were made
/// before are there too.
pub fn new_seats<N: Name>(
    alloc: Global,
    system: &System<N>,
    count: u32,
    seats: &mut Vec<Mutex<Seat<N>>>,
) -> Result<(), AllocError>
    requires { count ≤ MOST_CPUS }
    ensures { OnOk result (length seats.new.items ≡ length seats.old.items + count) }
{
    for number in 0..count {
        seats.reserve(1)?;
        match Cpu::new(alloc, system, number)? {
            Some(cpu) => seats.push_reserved(Mutex::new(Seat::new(cpu))),
            None => unreachable!(),
        }
    }
    Ok(())
}
