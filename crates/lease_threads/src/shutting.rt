//! The end of a system.
ghost use Rattle.std.specs.Prelude.{◌≡◌, ◌≢◌, IfOk, OnOk, IfErr, OnErr, IfSome, IfNone, IsSome};
ghost use Rattle.std.specs.Prelude.{Some, None};
ghost use Rattle.lease_threads.specs.Ends.{AreClosed, AreRangesOf, AreRangesLeft, IsRestOf};
ghost use Rattle.lease_threads.specs.Ends.{begun, stop_of};
ghost use Rattle.lease_threads.specs.Retiring.{RetiresSoundly, IsStuck};
ghost use Rattle.lease_threads.specs.Systems.{HoldsNothing};
ghost use Rattle.lease_threads.specs.declared.shutting.Why.TheVariants as whys;
ghost use Rattle.locked_parts.specs.Kinds.{AreForSame};

use crate::closing::{Open, close_each, first_open};
use crate::cpus::{Cpu, HasSome};
use crate::ending::{Left, end_parts};
use crate::gathering::{NotGathered, gather};
use crate::hands::Unplaced;
use crate::systems::System;
use deed_core::{Range, Segment};
use deed_table::{Name, SeatDeed};
use std::marker::Model;
use std::sync::Wait;

/// The rest of a system that no worker has any more, on its way to its end: the ranges of all its
/// roots, once they are told, what isn't ended yet, and the segment that can't be placed, if there
/// is one. No arena of it grows any more.
pub struct Halted<N: Name> {
    rest: Rest<N>,
    /// Nothing asks for it: it is here so that no end stops without it.
    why: Why,
}

impl<N: Name> Model for Halted<N> {
    ghost use Rattle.std.specs.Prelude.{◌≡◌, None};
    ghost use Rattle.lease_threads.specs.Ends.{HaltedState};
    ghost use Rattle.lease_threads.specs.declared.shutting.Why.TheVariants as whys;

    ghost Value = { HaltedState };

    ghost view = { λ h. h.rest };

    ghost invariant = { λ h. (why : _) → h.why ≡ whys.Untold why → h.rest.told ≡ None };
}

/// Why an end stopped. What each has is made where it was found, and nowhere else.
#[derive(Drop)]
enum Why {
    /// The ranges couldn't be told.
    Untold(NotGathered),
    /// The hand wasn't placed.
    Unplaced(Unplaced),
    /// A root stays open.
    Open(Open),
    /// The CPU of the end has a segment.
    HasSome(HasSome),
    /// A part isn't empty, or a lease stands.
    Left(Left),
}

/// What isn't ended yet.
struct Rest<N: Name> {
    told: Option<Vec<Vec<Range>>>,
    system: System<N>,
    cpu: Cpu<N>,
}

impl<N: Name> Model for Rest<N> {
    ghost use Rattle.std.specs.Option.{option_map};
    ghost use Rattle.lease_threads.specs.Ends.{HaltedState};

    ghost Value = { HaltedState };

    ghost view = { λ h. record {
      told = option_map (λ ranges. ranges.items) h.told;
      system = h.system;
      segment = h.cpu.hand;
    } };
}

/// Where the end of a system stopped. An arena is told by its number.
#[derive(Clone, Copy, PartialEq, Eq, Debug)]
pub enum StoppedAt {
    /// Before anything was ended: the ranges can't be told. Memory for them is taken when a system
    /// is made and when an arena grows, so that no end stops here; the types alone don't say so.
    Memory,
    /// At the segment that can't be placed, which is of this arena.
    Segment(u32),
    /// At the root of this arena, the first one that isn't closed: a unit of the arena is out.
    Root(u32),
    /// Behind the last root: a deed that is of none of them lies in a part, or a lease in the book.
    Parts,
}

impl<N: Name> Halted<N> {
    /// Where the end stopped.
    pub fn stopped_at(&self) -> StoppedAt
        ensures { result ≡ stop_of self.now }
    {
        if self.rest.told.is_none() {
            return StoppedAt::Memory;
        }
        if let Some(segment) = &self.rest.cpu.hand {
            return StoppedAt::Segment(segment.arena());
        }
        // For its clause: how many arenas there are at most.
        let _ = self.rest.system.tree().len();
        match first_open(&self.rest.system.roots) {
            Some(index) => StoppedAt::Root(index as u32),
            None => StoppedAt::Parts,
        }
    }

    /// The segment that can't be placed; None where a unit is still out.
    pub fn segment(&self) -> Option<&Segment<SeatDeed<N>>>
        ensures some { IfSome result (λ t. self.now.segment ≡ Some t.now) }
        ensures none { IfNone result (self.now.segment ≡ None) }
    {
        self.rest.cpu.hand.as_ref()
    }

    /// Places the hand and all rounds of a CPU that still has some, as `System::retire` does.
    pub fn retire<R: Wait>(&self, rt: &R, cpu: Cpu<N>) -> Result<(), Cpu<N>>
        ensures number { IfErr result (λ rest. rest.number ≡ cpu.number) }
        ensures magazines { IfErr result (λ rest. AreForSame cpu.caches rest.caches) }
        ensures rest { IfErr result (λ rest. ¬ HoldsNothing rest) }
        ensures left { IfErr result
            (λ rest. RetiresSoundly self.now.system.arenas cpu.hand rest.hand) }
        ensures stuck { IfErr result (IsStuck self.now.system.arenas) }
    {
        self.rest.system.retire(rt, cpu)
    }

    /// Goes on where the end stopped, with the answers of `shut`.
    pub fn again<R: Wait>(self, rt: &R) -> Result<Vec<Vec<Range>>, Halted<N>>
        ensures ranges { IfOk result (λ ranges. AreRangesLeft self ranges.items) }
        ensures rest { IfErr result (IsRestOf self) }
    {
        let Halted { rest, why: _ } = self;
        rest.end(rt)
    }
}

impl<N: Name> Rest<N> {
    /// Tells the ranges, empties all parts, closes the roots, and ends what is left.
    fn end<R: Wait>(mut self, rt: &R) -> Result<Vec<Vec<Range>>, Halted<N>>
        ensures ranges { IfOk result (λ ranges. AreRangesLeft self ranges.items) }
        ensures rest { IfErr result (IsRestOf self) }
    {
        if let Err(why) = self.tell(rt) {
            return Err(self.halt(Why::Untold(why)));
        }
        match self.empty(rt) {
            Ok(()) => self.end_empty(),
            Err(why) => Err(self.halt(why)),
        }
    }

    /// Ends it once its roots are closed and their ranges told.
    fn end_empty(self) -> Result<Vec<Vec<Range>>, Halted<N>>
        requires told { IsSome self.told }
        requires closed { AreClosed self.system.roots }
        ensures ranges { IfOk result (λ ranges. self.told ≡ Some ranges.items) }
        ensures rest { IfErr result
            (λ rest. (rest.told ≡ self.told) × (rest.system ≡ self.system)) }
    {
        let Rest { told, system, cpu } = self;
        if let Err((cpu, has)) = cpu.end() {
            return Err(Rest { told, system, cpu }.halt(Why::HasSome(has)));
        }
        match end_parts(system) {
            Ok(()) => match told {
                Some(ranges) => Ok(ranges),
                None => unreachable!(),
            },
            Err((system, left)) => {
                let cpu = Cpu::bare(system.parts.alloc());
                Err(Rest { told, system, cpu }.halt(Why::Left(left)))
            }
        }
    }

    /// Its end stopped, for this reason.
    fn halt(self, why: Why) -> Halted<N>
        requires { (untold : _) → why ≡ whys.Untold untold → self.told ≡ None }
        ensures { result ≡ self }
    {
        Halted { rest: self, why }
    }

    /// Tells the ranges of the roots, if they aren't told.
    fn tell<R: Wait>(&mut self, rt: &R) -> Result<(), NotGathered>
        ensures rest { IsRestOf self.old self.new }
        ensures told { OnOk result (IsSome self.new.told) }
        ensures untold { OnErr result (self.new.told ≡ None) }
        ensures segment { self.new.segment ≡ self.old.segment }
    {
        if self.told.is_some() {
            return Ok(());
        }
        let told = gather(rt, &mut self.system)?;
        self.told = Some(told);
        Ok(())
    }

    /// Places all that lies in it, and closes its roots, in the turn in which they stand.
    fn empty<R: Wait>(&mut self, rt: &R) -> Result<(), Why>
        ensures arenas { self.new.system.arenas ≡ self.old.system.arenas }
        ensures told { self.new.told ≡ self.old.told }
        ensures empty { OnOk result
            (AreClosed self.new.system.roots × (self.new.segment ≡ None)) }
        ensures found { IfErr result (λ why. (untold : _) → why ≢ whys.Untold untold) }
    {
        if let Err(unplaced) = self.system.empty_parts(rt, &mut self.cpu) {
            return Err(Why::Unplaced(unplaced));
        }
        match close_each(rt, &mut self.system, &mut self.cpu) {
            Ok(()) => Ok(()),
            Err(open) => Err(Why::Open(open)),
        }
    }
}

impl<N: Name> System<N> {
    /// Ends all leases, empties depots and slabs, hands imported spans back, and closes each root
    /// and the root of the book's mark: gives the ranges of the roots, a list for each arena in
    /// order of setup, which has each once, in order of adding, whether the setup or `grow` added
    /// it. All CPUs are to be retired before; what one of them still has is missing, and the rest
    /// of the system comes back. It takes no memory.
    pub fn shut<R: Wait>(self, rt: &R) -> Result<Vec<Vec<Range>>, Halted<N>>
        ensures ranges { IfOk result (λ ranges. AreRangesOf self ranges.items) }
        ensures rest { IfErr result (IsRestOf (begun self)) }
    {
        let cpu = Cpu::bare(self.parts.alloc());
        let rest = Rest {
            told: None,
            system: self,
            cpu,
        };
        rest.end(rt)
    }
}
