//! The CPU of a worker.
ghost use Rattle.std.specs.Prelude.{◌≡◌, ◌-◌, ◌^◌, ◌≤◌, ◌↔◌, All, Some, None, min};
ghost use Rattle.std.specs.Prelude.{map, IfErr, IfOk, IfSome, IsOk, IsTrue};
ghost use Rattle.magazine_layer.specs.Magazines.{BothEmpty};
ghost use Rattle.lease_proto.specs.declared.limits.TheConstants.{MOST_CPUS};
ghost use Rattle.locked_parts.specs.Kinds.{kinds_of, new_own};
ghost use Rattle.lease_threads.specs.Systems.{HoldsNothing, cpu_units};

use crate::systems::System;
use deed_core::Segment;
use deed_table::{Name, SeatDeed};
use lease_proto::MOST_CPUS;
use locked_parts::{OwnCache, end_rounds, new_rounds};
use std::alloc::{AllocError, Global};
use std::marker::Model;

/// A worker's own: its number, its hand, which is the one segment that it is moving, and two
/// magazines for each quantum cache. It needs no lock. It is never copied or dropped: the system
/// takes it back by `retire`.
pub struct Cpu<N: Name> {
    number: u32,
    pub(crate) hand: Option<Segment<SeatDeed<N>>>,
    pub(crate) caches: Vec<OwnCache<SeatDeed<N>>>,
}

/// That a CPU has a segment in its hand or its magazines. Only `Cpu::end` makes one, where it found
/// some.
#[derive(PartialEq, Eq, Debug, Drop)]
pub(crate) struct HasSome(());

impl<N: Name> Model for Cpu<N> {
    ghost use Rattle.lease_threads.specs.Systems.{CpuState};

    ghost Value = { CpuState };

    ghost view = { λ c. record { number = c.number; hand = c.hand; caches = c.caches.items } };
}

impl<N: Name> Cpu<N> {
    /// A CPU of the system, with an empty hand and new magazines; None where the number is
    /// `MOST_CPUS` or above. The number is a label: each Cpu is one of its own.
    pub fn new(alloc: Global, system: &System<N>, number: u32) -> Result<Option<Cpu<N>>, AllocError>
        ensures exactly { IfOk result (λ cpu. cpu ≡ None ↔ MOST_CPUS ≤ number) }
        ensures number { IfOk result (λ cpu. IfSome cpu (λ c. c.number ≡ number)) }
        ensures empty { IfOk result (λ cpu. IfSome cpu (λ c. c.hand ≡ None)) }
        ensures magazines { IfOk result (λ cpu. IfSome cpu
            (λ c. c.caches ≡ map new_own (kinds_of system.now.arenas))) }
    {
        if number >= MOST_CPUS {
            return Ok(None);
        }
        let caches = new_rounds(alloc, system.tree())?;
        Ok(Some(Cpu {
            number,
            hand: None,
            caches,
        }))
    }

    /// A CPU with no magazines.
    pub(crate) fn bare(alloc: Global) -> Cpu<N>
        ensures { result.hand ≡ None }
    {
        Cpu {
            number: 0,
            hand: None,
            caches: Vec::new(alloc),
        }
    }

    /// Its number.
    pub fn number(&self) -> u32
        ensures { result ≡ self.now.number }
    {
        self.number
    }

    /// The units of its hand and of its magazines; it stays at the greatest number.
    pub fn units(&self) -> u128
        ensures { result ≡ min (cpu_units self.now) (2 ^ 128 - 1) }
    {
        let mut units = match &self.hand {
            None => 0,
            Some(segment) => u128::from(segment.range().len()),
        };
        for own in &self.caches {
            units = units.saturating_add(own.units());
        }
        units
    }

    /// Takes a segment into the empty hand.
    pub(crate) fn hold(&mut self, segment: Segment<SeatDeed<N>>)
        requires { self.old.hand ≡ None }
        ensures { self.new
            ≡ record { number = self.old.number; hand = Some segment; caches = self.old.caches } }
    {
        match self.hand.replace(segment) {
            None => {}
            Some(_) => unreachable!(),
        }
    }

    /// Takes what a list of steps left, if it left anything, into the empty hand.
    pub(crate) fn hold_left(&mut self, left: Option<Segment<SeatDeed<N>>>)
        requires { self.old.hand ≡ None }
        ensures { self.new
            ≡ record { number = self.old.number; hand = left; caches = self.old.caches } }
    {
        match left {
            Some(segment) => self.hold(segment),
            None => {}
        }
    }

    /// Whether no round is left in its magazines.
    fn is_drained(&self) -> bool
        ensures { IsTrue result ↔ All (λ r. BothEmpty r.cpu) self.now.caches }
    {
        self.caches.iter().all(|own| own.is_empty())
    }

    /// Ends one with an empty hand and no round; another comes back.
    pub(crate) fn end(self) -> Result<(), (Cpu<N>, HasSome)>
        ensures exactly { IsOk result ↔ HoldsNothing self }
        ensures handed_back { IfErr result (λ same. same.0 ≡ self) }
    {
        if !self.is_drained() {
            return Err((self, HasSome(())));
        }
        let Cpu {
            number,
            hand,
            caches,
        } = self;
        match hand {
            None => {
                end_rounds(caches);
                Ok(())
            }
            Some(segment) => {
                let cpu = Cpu {
                    number,
                    hand: Some(segment),
                    caches,
                };
                Err((cpu, HasSome(())))
            }
        }
    }
}
