//! Depots: what the CPUs share of a quantum cache's magazines.
ghost use Rattle.std.specs.Prelude.{◌≡◌, ℕ, ◌-◌, ◌*◌, ◌^◌, ◌<◌, ◌↔◌, ◌++◌, [], All, length, min};
ghost use Rattle.std.specs.Prelude.{IfSome, OnOk, IsTrue, option_to_list};
ghost use Rattle.std.specs.Bool.{OnTrue, OnFalse};
ghost use Rattle.deed_core.specs.Covering.{units_in, units_tagged};
ghost use Rattle.deed_core.specs.Weights.{WeighSame, Loses};
ghost use Rattle.magazine_layer.specs.Magazines.{IsSize, AreAmong, IsShaped, BothEmpty, BothFull};
ghost use Rattle.magazine_layer.specs.Depots.{DepotState, IsDepot, CanReap, Begins, new_depot};
ghost use Rattle.magazine_layer.specs.Depots.{after_tick, after_trim, depot_rounds, both_rounds};
ghost use Rattle.magazine_layer.specs.Calls.{SwapFullOf, SwapEmptyOf, PutFullOf, ResizeOf};
ghost use Rattle.magazine_layer.specs.Calls.{DepotReapOf, DepotCloseOf};

use crate::cpu_caches::CpuCache;
use crate::faults::{EmptyFault, FullFault, NotGreater, PutFullFault};
use crate::full_magazines::{FullMagazine, units_of_all};
use crate::lists::{discard_oldest, drain, reserve_one, take_first};
use crate::magazines::{Magazine, units_of_rounds};
use deed_core::{Deed, Segment};
use std::alloc::Global;
use std::collections::VecDeque;
use std::marker::Model;

/// The full and the empty magazines that no CPU has. Both lists are last in, first out. As many as
/// the least length of a list over an interval lie outside its working set, and may be reaped
/// ("Magazines and Vmem", 2001). What is reaped first is our own choice: the oldest. It is never
/// dropped: `close` ends it where it has no round.
pub struct Depot<D: Deed> {
    /// How many rounds each of its magazines may have.
    size: usize,
    full: VecDeque<FullMagazine<D>>,
    /// How many of the full ones may be reaped.
    full_reapable: usize,
    empty: VecDeque<Magazine<D>>,
    /// How many of the empty ones may be reaped.
    empty_reapable: usize,
    /// Full magazines of lesser sizes, from before it was resized; all of them go back.
    old_full: VecDeque<FullMagazine<D>>,
    /// How many rounds those have.
    old_rounds: u128,
    /// What is left of the magazine that is being reaped.
    draining: Vec<Segment<D>>,
}

impl<D: Deed> Model for Depot<D> {
    ghost use Rattle.std.specs.Prelude.{◌≡◌, [], All};
    ghost use Rattle.std.specs.VecDeque.{deque_capacity, deque_len};
    ghost use Rattle.magazine_layer.specs.Depots.{DepotState, IsDepot, ListsHaveRoom, IsOldCount};

    ghost Value = { DepotState };

    ghost view = { λ d. record {
      size = d.size;
      full = d.full.items;
      full_reapable = d.full_reapable;
      empty = deque_len d.empty;
      empty_reapable = d.empty_reapable;
      old_full = d.old_full.items;
      draining = d.draining.items;
    } };

    ghost invariant = { λ d. IsDepot (record {
      size = d.size;
      full = d.full.items;
      full_reapable = d.full_reapable;
      empty = deque_len d.empty;
      empty_reapable = d.empty_reapable;
      old_full = d.old_full.items;
      draining = d.draining.items;
    })
        × All (λ m. m ≡ record { size = d.size; rounds = [] }) d.empty.items
        × ListsHaveRoom (deque_len d.full) (deque_len d.empty) (deque_len d.old_full)
        (deque_capacity d.full) (deque_capacity d.empty) (deque_capacity d.old_full)
        × IsOldCount d.old_full.items d.old_rounds };
}

impl<D: Deed> Depot<D> {
    /// A depot with no magazine, for magazines of `size` rounds. Its interval begins here.
    pub fn new(alloc: Global, size: usize) -> Depot<D>
        requires { IsSize size }
        ensures { result ≡ new_depot size }
    {
        Depot {
            size,
            full: VecDeque::new(alloc),
            full_reapable: 0,
            empty: VecDeque::new(alloc),
            empty_reapable: 0,
            old_full: VecDeque::new(alloc),
            old_rounds: 0,
            draining: Vec::new(alloc),
        }
    }

    /// How many rounds its magazines hold.
    pub fn size(&self) -> usize
        ensures value { result ≡ self.now.size }
        ensures sound { IsDepot self.now }
    {
        self.size
    }

    /// How many rounds it has. It takes constant time.
    pub fn rounds(&self) -> u128
        ensures value { result ≡ length (depot_rounds self.now) }
        // what follows
        ensures units { (each : ℕ) → All (λ t. units_in t.holding ≡ each) (depot_rounds self.now)
            → units_tagged (depot_rounds self.now) ≡ result * each }
    {
        let full = self.full.len() as u128 * self.size as u128;
        self.old_rounds + full + self.draining.len() as u128
    }

    /// The units that its rounds cover, or 2^128 - 1 where they are more. It goes over all rounds.
    pub fn units(&self) -> u128
        ensures { result ≡ min (units_tagged (depot_rounds self.now)) (2 ^ 128 - 1) }
    {
        units_of_all(&self.old_full)
            .saturating_add(units_of_all(&self.full))
            .saturating_add(units_of_rounds(&self.draining))
    }

    /// Whether `reap` gives a round: one is left of the magazine being drained, a full magazine of
    /// an old size stands, or a full one lies outside the working set.
    pub fn can_reap(&self) -> bool
        ensures value { IsTrue result ↔ CanReap self.now }
        ensures sound { IsDepot self.now }
    {
        !self.draining.is_empty() || !self.old_full.is_empty() || self.full_reapable > 0
    }

    /// Gives a CPU whose magazines are both empty a full one for an empty one. It takes no memory,
    /// and refuses a CPU of another size before it looks for a magazine.
    pub fn swap_for_full(&mut self, cpu: &mut CpuCache<D>) -> Result<(), FullFault>
        requires { BothEmpty cpu.old }
        // what it does
        ensures of { SwapFullOf cpu.old self.old result cpu.new self.new }
        // what follows
        ensures weights { WeighSame (both_rounds cpu.old self.old) (both_rounds cpu.new self.new) }
        ensures kinds { AreAmong (both_rounds cpu.new self.new) (both_rounds cpu.old self.old) }
        ensures sizes { (cpu.new.size ≡ cpu.old.size) × (self.new.size ≡ self.old.size) }
        ensures shape { IsShaped cpu.new }
        ensures sound { IsDepot self.new }
    {
        if cpu.size() != self.size {
            return Err(FullFault::OldSize(self.size));
        }
        let Some(full) = self.full.pop_back() else {
            return Err(FullFault::NoneFull);
        };
        let empty = cpu.rotate(full.into_magazine());
        self.empty.push_back_reserved(empty);
        self.full_reapable = self.full_reapable.min(self.full.len());
        self.empty_reapable = self.empty_reapable.min(self.empty.len());
        Ok(())
    }

    /// Gives a CPU whose magazines are both full an empty one for a full one. It takes no memory,
    /// and refuses a CPU of another size before it looks for a magazine.
    pub fn swap_for_empty(&mut self, cpu: &mut CpuCache<D>) -> Result<(), EmptyFault>
        requires { BothFull cpu.old }
        // what it does
        ensures of { SwapEmptyOf cpu.old self.old result cpu.new self.new }
        // what follows
        ensures weights { WeighSame (both_rounds cpu.old self.old) (both_rounds cpu.new self.new) }
        ensures kinds { AreAmong (both_rounds cpu.new self.new) (both_rounds cpu.old self.old) }
        ensures sizes { (cpu.new.size ≡ cpu.old.size) × (self.new.size ≡ self.old.size) }
        ensures shape { IsShaped cpu.new }
        ensures sound { IsDepot self.new }
    {
        if cpu.size() != self.size {
            return Err(EmptyFault::OldSize(self.size));
        }
        let Some(empty) = self.empty.pop_back() else {
            return Err(EmptyFault::NoneEmpty);
        };
        let full = cpu.rotate(empty);
        self.full.push_back_reserved(FullMagazine::new(full));
        self.full_reapable = self.full_reapable.min(self.full.len());
        self.empty_reapable = self.empty_reapable.min(self.empty.len());
        Ok(())
    }

    /// Takes a full magazine of a CPU whose magazines are both full, which gets this one for it. It
    /// makes the room that the other calls need later, and is out of memory for nothing else, which
    /// it tells last.
    pub fn put_full(
        &mut self,
        cpu: &mut CpuCache<D>,
        magazine: Magazine<D>,
    ) -> Result<(), PutFullFault<Magazine<D>>>
        requires { BothFull cpu.old }
        // what it does
        ensures of { PutFullOf cpu.old self.old magazine result cpu.new self.new }
        // what follows
        ensures weights { OnOk result (WeighSame (magazine.rounds ++ both_rounds cpu.old self.old)
            (both_rounds cpu.new self.new)) }
        ensures kinds { AreAmong (both_rounds cpu.new self.new)
            (magazine.rounds ++ both_rounds cpu.old self.old) }
        ensures sizes { (cpu.new.size ≡ cpu.old.size) × (self.new.size ≡ self.old.size) }
        ensures shape { IsShaped cpu.new }
        ensures sound { IsDepot self.new }
    {
        if cpu.size() != self.size || magazine.size() != self.size {
            return Err(PutFullFault::OldSize(self.size, magazine));
        }
        let Ok(()) = reserve_one(&mut self.full, &mut self.empty, &mut self.old_full) else {
            return Err(PutFullFault::NoMemory(magazine));
        };
        let full = cpu.rotate(magazine);
        self.full.push_back_reserved(FullMagazine::new(full));
        self.full_reapable = self.full_reapable.min(self.full.len());
        self.empty_reapable = self.empty_reapable.min(self.empty.len());
        Ok(())
    }

    /// Begins an interval: all that stands in either list may be reaped, but for what is taken out
    /// from then on.
    pub fn tick(&mut self)
        ensures of { self.new ≡ after_tick self.old }
        ensures sound { IsDepot self.new }
    {
        self.full_reapable = self.full.len();
        self.empty_reapable = self.empty.len();
    }

    /// Has magazines of a greater size from here on. The full ones are reaped before any other from
    /// now on, and the empty ones are discarded. It takes no memory.
    pub fn resize(&mut self, size: usize) -> Result<(), NotGreater>
        requires { IsSize size }
        // what it does
        ensures of { ResizeOf self.old size result self.new }
        // what follows
        ensures weights { WeighSame (depot_rounds self.old) (depot_rounds self.new) }
        ensures kinds { AreAmong (depot_rounds self.new) (depot_rounds self.old) }
        ensures sound { IsDepot self.new }
    {
        if size <= self.size {
            return Err(NotGreater);
        }
        self.old_rounds += self.full.len() as u128 * self.size as u128;
        match self.old_full.append(&mut self.full) {
            Ok(()) => {}
            Err(_) => unreachable!(),
        }
        let count = self.empty.len();
        discard_oldest(&mut self.empty, count);
        self.size = size;
        self.full_reapable = 0;
        self.empty_reapable = 0;
        Ok(())
    }

    /// Takes one round of the magazine being drained, else of the oldest full one of an old size,
    /// else of the oldest full one outside the working set. It discards the empty ones outside the
    /// working set in any case, also where it has no round to give. It takes no memory.
    pub fn reap(&mut self) -> Option<Segment<D>>
        // what it does
        ensures of { DepotReapOf self.old result self.new }
        // what follows
        ensures weights { IfSome result
            (λ x. Loses (depot_rounds self.old) (depot_rounds self.new) x) }
        ensures kinds { AreAmong (option_to_list result ++ depot_rounds self.new)
            (depot_rounds self.old) }
        ensures size { self.new.size ≡ self.old.size }
        ensures sound { IsDepot self.new }
    {
        self.trim();
        if !self.begin() {
            return None;
        }
        let Some(segment) = self.draining.pop() else {
            unreachable!()
        };
        Some(segment)
    }

    /// Discards the empty magazines outside the working set.
    fn trim(&mut self)
        ensures { self.new ≡ after_trim self.old }
    {
        discard_oldest(&mut self.empty, self.empty_reapable);
        self.empty_reapable = 0;
    }

    /// Has a magazine drained, if one may be reaped.
    fn begin(&mut self) -> bool
        ensures can { IsTrue result ↔ CanReap self.old }
        ensures begins { OnTrue result (Begins self.old self.new) }
        ensures some { OnTrue result (0 < length self.new.draining) }
        ensures unchanged { OnFalse result (self.new ≡ self.old) }
        ensures sound { IsDepot self.new }
    {
        if !self.draining.is_empty() {
            return true;
        }
        if !self.old_full.is_empty() {
            drain(&mut self.draining, take_first(&mut self.old_full));
            self.old_rounds -= self.draining.len() as u128;
            return true;
        }
        if self.full_reapable == 0 {
            return false;
        }
        drain(&mut self.draining, take_first(&mut self.full));
        self.full_reapable -= 1;
        true
    }

    /// Ends a depot that has no round, and hands back one that has.
    pub fn close(self) -> Result<(), Depot<D>>
        ensures of { DepotCloseOf self result }
    {
        if !self.full.is_empty() {
            return Err(self);
        }
        if !self.old_full.is_empty() {
            return Err(self);
        }
        if !self.draining.is_empty() {
            return Err(self);
        }
        let Depot {
            size: _,
            full,
            full_reapable: _,
            mut empty,
            empty_reapable: _,
            old_full,
            old_rounds: _,
            draining,
        } = self;
        let count = empty.len();
        discard_oldest(&mut empty, count);
        full.destroy_empty();
        empty.destroy_empty();
        old_full.destroy_empty();
        draining.destroy_empty();
        Ok(())
    }
}
