//! A depot as its lock keeps it, and its exchanges with a CPU.
ghost use Rattle.std.specs.Prelude.{◌≡◌, ◌<◌, ◌↔◌, [], IfErr, IfSome, IsOk};
ghost use Rattle.std.specs.Prelude.{◌≤◌, ◌-◌, ◌^◌, true, false, min};
ghost use Rattle.deed_core.specs.Covering.{units_tagged};
ghost use Rattle.magazine_layer.specs.Magazines.{IsSize};
ghost use Rattle.magazine_layer.specs.Depots.{new_depot, after_tick, after_resize, depot_rounds};
ghost use Rattle.magazine_layer.specs.Calls.{DepotReapOf};
ghost use Rattle.locked_parts.specs.Kinds.{IsOfKind};
ghost use Rattle.locked_parts.specs.Saying.{depot_said};
ghost use Rattle.locked_parts.specs.Sums.{DepotTells};
ghost use Rattle.locked_parts.specs.Swaps.{GivesFull, GivesEmpty, TakesFull};
ghost use Rattle.locked_parts.specs.Walks.{IsResizeFor};
ghost use Rattle.locked_parts.specs.Words.{given_word, full_word, empty_word, fresh_word};

use crate::gates::NextStep;
use crate::kinds::CacheKind;
use crate::own_caches::OwnCache;
use crate::said::Said;
use crate::words::{Word, word_of_empty, word_of_full, word_of_given};
use arena_tree::FreshFault;
use deed_core::{Deed, Segment};
use magazine_layer::{Depot, EmptyFault, FullFault, Magazine, PutFullFault};
use std::alloc::Global;
use std::marker::Model;

/// The magazines of a quantum cache that no CPU has: all their rounds are chunks of it.
pub struct KindDepot<D: Deed> {
    pub(crate) kind: CacheKind,
    pub(crate) depot: Depot<D>,
}

impl<D: Deed> Model for KindDepot<D> {
    ghost use Rattle.locked_parts.specs.Kinds.{KindDepotState, IsKindDepot};

    ghost Value = { KindDepotState };

    ghost view = { λ d. record { kind = d.kind; depot = d.depot } };

    ghost invariant = { λ d. IsKindDepot (record { kind = d.kind; depot = d.depot }) };
}

/// What the depot of this quantum cache answered, and at which step it was asked. Only `KindDepot`
/// makes one, where it is asked.
#[derive(Clone, Copy, PartialEq, Eq, Debug)]
pub struct DepotSaid {
    kind: CacheKind,
    step: NextStep,
    word: Word,
}

impl Model for DepotSaid {
    ghost use Rattle.locked_parts.specs.Words.{CacheSaidState};

    ghost Value = { CacheSaidState };

    ghost view = { λ s. record { kind = s.kind; step = s.step; word = s.word } };

    ghost inverse = { λ s. record { kind = s.kind; step = s.step; word = s.word } };
}

/// That an interval began in the depot of this quantum cache. Only `KindDepot` makes one, where it
/// did.
#[derive(PartialEq, Eq, Debug, Drop)]
pub(crate) struct TickSaid {
    kind: CacheKind,
}

impl Model for TickSaid {
    ghost use Rattle.locked_parts.specs.declared.kinds.CacheKind.{CacheKind};

    ghost Value = { CacheKind };

    ghost view = { λ s. s.kind };

    ghost inverse = { λ k. record { kind = k } };
}

/// That the depot of this quantum cache was asked to keep magazines of this size from here on, and
/// whether it had smaller ones. Only `KindDepot` makes one, where it is asked.
#[derive(PartialEq, Eq, Debug, Drop)]
pub(crate) struct ResizeSaid {
    kind: CacheKind,
    size: usize,
    rose: bool,
}

impl Model for ResizeSaid {
    ghost use Rattle.locked_parts.specs.Walks.{ResizeSaidState};

    ghost Value = { ResizeSaidState };

    ghost view = { λ s. record { kind = s.kind; size = s.size; rose = s.rose } };

    ghost inverse = { λ s. record { kind = s.kind; size = s.size; rose = s.rose } };
}

impl ResizeSaid {
    /// Whether it had smaller ones.
    pub(crate) fn rose(&self) -> bool
        ensures { result ≡ self.now.rose }
    {
        self.rose
    }
}

/// That it answered so.
fn depot_says(kind: CacheKind, step: NextStep, word: Word) -> Said
    ensures { result ≡ depot_said kind step word }
{
    Said::Depot(DepotSaid { kind, step, word })
}

/// That a depot is another than that of this quantum cache, which was sought. Only
/// `KindDepot::look` makes one.
#[derive(PartialEq, Eq, Debug, Drop)]
pub(crate) struct OtherDepot {
    sought: CacheKind,
}

impl Model for OtherDepot {
    ghost use Rattle.locked_parts.specs.declared.kinds.CacheKind.{CacheKind};

    ghost Value = { CacheKind };

    ghost view = { λ o. o.sought };

    ghost inverse = { λ k. record { sought = k } };
}

impl<D: Deed> KindDepot<D> {
    /// A depot with no magazine.
    pub(crate) fn new(alloc: Global, kind: CacheKind, size: usize) -> KindDepot<D>
        requires quantum { 0 < kind.quantum }
        requires size { IsSize size }
        ensures { result ≡ record { kind = kind; depot = new_depot size } }
    {
        KindDepot {
            kind,
            depot: Depot::new(alloc, size),
        }
    }

    /// The quantum cache.
    pub(crate) fn kind(&self) -> CacheKind
        ensures value { result ≡ self.now.kind }
        ensures quantum { 0 < result.quantum }
    {
        self.kind
    }

    /// Looks whether it is the depot of the quantum cache that is sought.
    pub(crate) fn look(&self, sought: &CacheKind) -> Result<(), OtherDepot>
        ensures exactly { IsOk result ↔ (self.now.kind ≡ sought.now) }
        ensures other { IfErr result (λ other. other ≡ sought.now) }
    {
        if !self.kind.is(sought) {
            return Err(OtherDepot { sought: *sought });
        }
        Ok(())
    }

    /// Gives a CPU of this cache, whose magazines are both empty, a full one. Another CPU finds
    /// none.
    pub(crate) fn swap_full(
        &mut self,
        said: &mut Said,
        step: NextStep,
        cpu: &mut OwnCache<D>,
    ) -> Result<(), FullFault>
        ensures said { said.new ≡ depot_said self.old.kind step (full_word result) }
        ensures event { GivesFull cpu.old self.old result cpu.new self.new }
        ensures kind { cpu.new.kind ≡ cpu.old.kind }
    {
        let own = self.kind;
        if !self.kind.is(&cpu.kind) || !cpu.cpu.is_empty() {
            *said = depot_says(own, step, Word::NoneFull);
            return Err(FullFault::NoneFull);
        }
        let swapped = self.depot.swap_for_full(&mut cpu.cpu);
        *said = depot_says(own, step, word_of_full(&swapped));
        swapped
    }

    /// Gives a CPU of this cache, whose magazines are both full, an empty one. Another CPU finds
    /// none.
    pub(crate) fn swap_empty(
        &mut self,
        said: &mut Said,
        step: NextStep,
        cpu: &mut OwnCache<D>,
    ) -> Result<(), EmptyFault>
        ensures said { said.new ≡ depot_said self.old.kind step (empty_word result) }
        ensures event { GivesEmpty cpu.old self.old result cpu.new self.new }
        ensures kind { cpu.new.kind ≡ cpu.old.kind }
    {
        let own = self.kind;
        if !self.kind.is(&cpu.kind) || !cpu.cpu.is_full() {
            *said = depot_says(own, step, Word::NoneEmpty);
            return Err(EmptyFault::NoneEmpty);
        }
        let swapped = self.depot.swap_for_empty(&mut cpu.cpu);
        *said = depot_says(own, step, word_of_empty(&swapped));
        swapped
    }

    /// The same by this magazine, which is empty, in place of one that it has.
    pub(crate) fn swap_fresh(
        &mut self,
        said: &mut Said,
        step: NextStep,
        cpu: &mut OwnCache<D>,
        magazine: Magazine<D>,
    ) -> Result<(), FreshFault>
        requires { magazine.rounds ≡ [] }
        ensures said { said.new ≡ depot_said self.old.kind step (fresh_word result) }
        ensures event { TakesFull magazine cpu.old self.old result cpu.new self.new }
        ensures kind { cpu.new.kind ≡ cpu.old.kind }
    {
        let own = self.kind;
        if !self.kind.is(&cpu.kind) || !cpu.cpu.is_full() {
            end_empty(magazine);
            *said = depot_says(own, step, Word::NotFull);
            return Err(FreshFault::NotFull);
        }
        match self.depot.put_full(&mut cpu.cpu, magazine) {
            Ok(()) => {
                *said = depot_says(own, step, Word::Done);
                Ok(())
            }
            Err(PutFullFault::OldSize(size, magazine)) => {
                end_empty(magazine);
                *said = depot_says(own, step, Word::OldSize(size));
                Err(FreshFault::OldSize(size))
            }
            Err(PutFullFault::NoMemory(magazine)) => {
                end_empty(magazine);
                *said = depot_says(own, step, Word::NoMemory);
                Err(FreshFault::NoMemory)
            }
        }
    }

    /// Begins an interval, and says which depot it is.
    pub(crate) fn tick(&mut self) -> TickSaid
        ensures said { result ≡ self.old.kind }
        ensures begun { self.new.depot ≡ after_tick self.old.depot }
        ensures kind { self.new.kind ≡ self.old.kind }
    {
        self.depot.tick();
        TickSaid { kind: self.kind }
    }

    /// Has magazines of this size from here on, if it had smaller ones, and says which depot it is
    /// and whether it had.
    pub(crate) fn resize(&mut self, size: usize) -> ResizeSaid
        requires { IsSize size }
        ensures said { IsResizeFor self.old.kind size result }
        ensures rose { result.rose ≡ true → (self.old.depot.size < size)
            × (self.new.depot ≡ after_resize size self.old.depot) }
        ensures refused { result.rose ≡ false → size ≤ self.old.depot.size }
        ensures unchanged { result.rose ≡ false → self.new ≡ self.old }
        ensures kind { self.new.kind ≡ self.old.kind }
    {
        // For its clause: what is always so of a depot.
        let _ = self.depot.size();
        let rose = self.depot.resize(size).is_ok();
        ResizeSaid {
            kind: self.kind,
            size,
            rose,
        }
    }

    /// The units of its rounds, or 2^128 - 1 where they are more. It takes constant time.
    pub(crate) fn units(&self) -> u128
        ensures tells { DepotTells self.now.kind result }
        ensures told { result ≡ min (units_tagged (depot_rounds self.now.depot)) (2 ^ 128 - 1) }
    {
        let chunk = u128::from(self.kind.number) * u128::from(self.kind.quantum);
        self.depot.rounds().saturating_mul(chunk)
    }

    /// Takes a round that may be reaped, if there is one.
    pub(crate) fn reap(&mut self) -> Option<Segment<D>>
        ensures reaped { DepotReapOf self.old.depot result self.new.depot }
        ensures chunk { IfSome result (IsOfKind self.old.kind) }
        ensures quantum { 0 < self.old.kind.quantum }
        ensures kind { self.new.kind ≡ self.old.kind }
    {
        self.depot.reap()
    }

    /// The same, asked at this step.
    pub(crate) fn reap_at(&mut self, said: &mut Said, step: NextStep) -> Option<Segment<D>>
        ensures said { said.new ≡ depot_said self.old.kind step (given_word result) }
        ensures chunk { IfSome result (IsOfKind self.old.kind) }
        ensures reaped { DepotReapOf self.old.depot result self.new.depot }
        ensures kind { self.new.kind ≡ self.old.kind }
    {
        let own = self.kind;
        let round = self.reap();
        *said = depot_says(own, step, word_of_given(&round));
        round
    }
}

/// Ends a magazine of no rounds.
pub(crate) fn end_empty<D: Deed>(magazine: Magazine<D>)
    requires { magazine.rounds ≡ [] }
{
    match magazine.discard() {
        Ok(()) => {}
        Err(_) => unreachable!(),
    }
}
