//! A CPU's magazines for one quantum cache.
ghost use Rattle.std.specs.Prelude.{◌≡◌, ◌<◌, ◌↔◌, IsTrue, Ok, IfOk, IfSome, length};
ghost use Rattle.magazine_layer.specs.Magazines.{IsSize, BothEmpty, BothFull, cache_rounds};
ghost use Rattle.magazine_layer.specs.Calls.{PopOf};
ghost use Rattle.arena_tree.specs.Sound.{PopsRound, PushesRound};
ghost use Rattle.locked_parts.specs.Kinds.{IsOfKind, new_own};
ghost use Rattle.locked_parts.specs.Owns.{DoesPush, DoesChange};
ghost use Rattle.deed_core.specs.Covering.{units_tagged};

use crate::kinds::CacheKind;
use arena_tree::ChangeFault;
use deed_core::{Deed, Segment};
use magazine_layer::{CpuCache, is_magazine_size, two_empty};
use std::alloc::{AllocError, Global};
use std::marker::Model;

/// How many rounds a new CPU's magazines hold.
pub(crate) const FIRST_SIZE: usize = 3;

/// What a CPU keeps for a quantum cache: all its rounds are chunks of it. It is never copied or
/// dropped.
pub struct OwnCache<D: Deed> {
    pub(crate) kind: CacheKind,
    pub(crate) cpu: CpuCache<D>,
}

impl<D: Deed> Model for OwnCache<D> {
    ghost use Rattle.locked_parts.specs.Kinds.{OwnCacheState, IsOwnCache};

    ghost Value = { OwnCacheState };

    ghost view = { λ r. record { kind = r.kind; cpu = r.cpu } };

    ghost invariant = { λ r. IsOwnCache (record { kind = r.kind; cpu = r.cpu }) };
}

impl<D: Deed> OwnCache<D> {
    /// Two empty magazines of the first size.
    pub(crate) fn new(alloc: Global, kind: CacheKind) -> Result<OwnCache<D>, AllocError>
        requires { 0 < kind.quantum }
        ensures { IfOk result (λ r. r ≡ new_own kind) }
    {
        let cpu = CpuCache::new(alloc, FIRST_SIZE)?;
        Ok(OwnCache { kind, cpu })
    }

    /// Takes a round.
    pub(crate) fn pop(&mut self) -> Option<Segment<D>>
        ensures popped { PopOf self.old.cpu result self.new.cpu }
        ensures chunk { IfSome result (IsOfKind self.old.kind) }
        ensures fewer { PopsRound (Ok result)
            (length (cache_rounds self.old.cpu)) (length (cache_rounds self.new.cpu)) }
        ensures quantum { 0 < self.old.kind.quantum }
        ensures kind { self.new.kind ≡ self.old.kind }
    {
        self.cpu.take()
    }

    /// Keeps a chunk of its cache, if there is room. Another segment comes back.
    pub(crate) fn push(&mut self, segment: Segment<D>) -> Result<(), Segment<D>>
        ensures pushed { DoesPush segment result self.old self.new }
        ensures more { PushesRound result
            (length (cache_rounds self.old.cpu)) (length (cache_rounds self.new.cpu)) }
        ensures kind { self.new.kind ≡ self.old.kind }
    {
        if !self.kind.takes(&segment) {
            return Err(segment);
        }
        self.cpu.give(segment)
    }

    /// Changes over to two new magazines of a greater size.
    pub(crate) fn change(&mut self, alloc: Global, size: usize) -> Result<(), ChangeFault>
        ensures changed { DoesChange size result self.old self.new }
        ensures as_many { length (cache_rounds self.new.cpu) ≡ length (cache_rounds self.old.cpu) }
        ensures kind { self.new.kind ≡ self.old.kind }
    {
        if !is_magazine_size(size) || size <= self.cpu.size() {
            return Err(ChangeFault::NotGreater);
        }
        let Ok((loaded, previous)) = two_empty(alloc, size) else {
            return Err(ChangeFault::NoMemory);
        };
        self.cpu.change(loaded, previous);
        Ok(())
    }

    /// How many rounds each of its two magazines holds.
    pub(crate) fn size(&self) -> usize
        ensures value { result ≡ self.now.cpu.size }
        ensures size { IsSize result }
    {
        self.cpu.size()
    }

    /// Whether both magazines are empty.
    pub fn is_empty(&self) -> bool
        ensures { IsTrue result ↔ BothEmpty self.now.cpu }
    {
        self.cpu.is_empty()
    }

    /// Whether both magazines are full.
    pub(crate) fn is_full(&self) -> bool
        ensures { IsTrue result ↔ BothFull self.now.cpu }
    {
        self.cpu.is_full()
    }

    /// The units of its rounds, in constant time.
    pub fn units(&self) -> u128
        ensures { result ≡ units_tagged (cache_rounds self.now.cpu) }
    {
        self.cpu.units_alike()
    }

    /// Ends it, with no round.
    pub(crate) fn end(self)
        requires { BothEmpty self.cpu }
    {
        let OwnCache { kind: _, cpu } = self;
        match cpu.close() {
            Ok(()) => {}
            Err(_) => unreachable!(),
        }
    }
}
