//! The two magazines of a CPU.
ghost use Rattle.std.specs.Prelude.{◌≡◌, ◌+◌, ◌≤◌, ◌↔◌, ◌⊎◌, ◌++◌, [], ◌∷◌, length, IsTrue};
ghost use Rattle.std.specs.Prelude.{IfSome, IfOk, OnOk, option_to_list};
ghost use Rattle.deed_core.specs.Covering.{units_tagged};
ghost use Rattle.deed_core.specs.Weights.{WeighSame, Gains, Loses};
ghost use Rattle.magazine_layer.specs.Alike.{AreAlike};
ghost use Rattle.magazine_layer.specs.Magazines.{IsSize, AreAmong, IsShaped, BothEmpty, BothFull};
ghost use Rattle.magazine_layer.specs.Magazines.{cache_rounds, with_rounds, after_change};
ghost use Rattle.magazine_layer.specs.Calls.{PopOf, PushOf, ChangeOverOf, CpuCacheCloseOf};

use crate::magazines::{Magazine, discard_empty, two_empty};
use deed_core::{Deed, Segment};
use std::alloc::{AllocError, Global};
use std::marker::Model;
use std::mem;

/// What one CPU keeps for one quantum cache: the loaded magazine, and the one loaded before it,
/// which is empty or full ("Magazines and Vmem", 2001). It is never dropped: `close` ends it where
/// it has no round, and `unload` always.
pub struct CpuCache<D: Deed> {
    loaded: Magazine<D>,
    previous: Magazine<D>,
}

impl<D: Deed> Model for CpuCache<D> {
    ghost use Rattle.std.specs.Prelude.{◌≡◌};
    ghost use Rattle.magazine_layer.specs.Magazines.{CpuCacheState, IsShaped};

    ghost Value = { CpuCacheState };

    ghost view = { λ c.
        record { size = c.loaded.size; loaded = c.loaded.rounds; previous = c.previous.rounds } };

    ghost invariant = { λ c. (c.previous.size ≡ c.loaded.size)
        × IsShaped
        (record { size = c.loaded.size; loaded = c.loaded.rounds; previous = c.previous.rounds }) };
}

impl<D: Deed> CpuCache<D> {
    /// Two empty magazines for `size` rounds each.
    pub fn new(alloc: Global, size: usize) -> Result<CpuCache<D>, AllocError>
        requires { IsSize size }
        ensures { IfOk result (λ c. c ≡ record { size = size; loaded = []; previous = [] }) }
    {
        let (loaded, previous) = two_empty(alloc, size)?;
        Ok(CpuCache { loaded, previous })
    }

    /// How many rounds each of the two can hold.
    pub fn size(&self) -> usize
        ensures value { result ≡ self.now.size }
        ensures shape { IsShaped self.now }
    {
        self.loaded.size()
    }

    /// Whether both magazines are empty, so that there is no round to take.
    pub fn is_empty(&self) -> bool
        ensures value { IsTrue result ↔ BothEmpty self.now }
        ensures shape { IsShaped self.now }
    {
        self.loaded.is_empty() && self.previous.is_empty()
    }

    /// Whether both magazines are full, so that there is no room for a round.
    pub fn is_full(&self) -> bool
        ensures value { IsTrue result ↔ BothFull self.now }
        ensures shape { IsShaped self.now }
    {
        self.loaded.is_full() && self.previous.is_full()
    }

    /// The units that its rounds cover, each counted by itself. It goes over all rounds.
    pub fn units(&self) -> u128
        ensures { result ≡ units_tagged (cache_rounds self.now) }
    {
        self.previous.units() + self.loaded.units()
    }

    /// The same where all of them are alike, in constant time.
    pub fn units_alike(&self) -> u128
        requires { AreAlike (cache_rounds self.now) }
        ensures { result ≡ units_tagged (cache_rounds self.now) }
    {
        self.previous.units_alike() + self.loaded.units_alike()
    }

    /// Takes the last round of loaded, or of previous where loaded is empty and previous is full.
    /// It takes no memory.
    #[tactic(auto, using(crate::proofs::Weighing::pops_weigh))]
    pub fn take(&mut self) -> Option<Segment<D>>
        // what it does
        ensures of { PopOf self.old result self.new }
        // what follows
        ensures weights { IfSome result
            (λ x. Loses (cache_rounds self.old) (cache_rounds self.new) x) }
        ensures kinds { AreAmong (option_to_list result ++ cache_rounds self.new)
            (cache_rounds self.old) }
        ensures size { self.new.size ≡ self.old.size }
        ensures shape { IsShaped self.new }
    {
        if !self.loaded.is_empty() {
            return self.loaded.take();
        }
        mem::swap(&mut self.loaded, &mut self.previous);
        self.loaded.take()
    }

    /// Puts a round on loaded, or on previous where loaded is full and previous is empty. It takes
    /// no memory.
    #[tactic(auto, using(crate::proofs::Weighing::pushes_weigh))]
    pub fn give(&mut self, segment: Segment<D>) -> Result<(), Segment<D>>
        // what it does
        ensures of { PushOf self.old segment result self.new }
        // what follows
        ensures weights { OnOk result
            (Gains (cache_rounds self.old) (cache_rounds self.new) segment) }
        ensures kinds { AreAmong (cache_rounds self.new) (segment ∷ cache_rounds self.old) }
        ensures size { self.new.size ≡ self.old.size }
        ensures shape { IsShaped self.new }
    {
        if self.loaded.is_full() {
            if !self.previous.is_empty() {
                return Err(segment);
            }
            mem::swap(&mut self.loaded, &mut self.previous);
        }
        self.loaded.push(segment);
        Ok(())
    }

    /// Moves all rounds into a loaded magazine of another size, previous's below loaded's, and ends
    /// the two old magazines. It takes no memory.
    pub fn change(&mut self, loaded: Magazine<D>, previous: Magazine<D>)
        requires loaded { loaded.rounds ≡ [] }
        requires previous { previous.rounds ≡ [] }
        requires size { previous.size ≡ loaded.size }
        requires room { length (cache_rounds self.old) ≤ loaded.size }
        // what it does
        ensures of { self.new ≡ after_change loaded.size self.old }
        // what follows
        ensures weights { WeighSame (cache_rounds self.old) (cache_rounds self.new) }
        ensures kinds { AreAmong (cache_rounds self.new) (cache_rounds self.old) }
        ensures shape { IsShaped self.new }
    {
        // For its clause: the magazine's size is one of the four.
        let _ = loaded.size();
        let mut old_loaded = mem::replace(&mut self.loaded, loaded);
        let mut old_previous = mem::replace(&mut self.previous, previous);
        self.loaded.append(&mut old_previous);
        self.loaded.append(&mut old_loaded);
        discard_empty(old_previous);
        discard_empty(old_loaded);
    }

    /// Changes to two new magazines of a size that has room for all rounds in one.
    pub fn change_over(&mut self, alloc: Global, size: usize) -> Result<(), AllocError>
        requires size { IsSize size }
        requires room { length (cache_rounds self.old) ≤ size }
        // what it does
        ensures of { ChangeOverOf self.old size result self.new }
        // what follows
        ensures weights { WeighSame (cache_rounds self.old) (cache_rounds self.new) }
        ensures kinds { AreAmong (cache_rounds self.new) (cache_rounds self.old) }
        ensures shape { IsShaped self.new }
    {
        // For its clause: the cache has its shape.
        let _ = self.size();
        let (first, second) = two_empty(alloc, size)?;
        self.change(first, second);
        Ok(())
    }

    /// Loads a magazine. Loaded is the previous one then, and the previous one comes out.
    pub(crate) fn rotate(&mut self, magazine: Magazine<D>) -> Magazine<D>
        requires size { magazine.size ≡ self.old.size }
        requires whole { (length self.old.loaded ≡ 0) ⊎ (length self.old.loaded ≡ self.old.size) }
        ensures cache { self.new ≡ with_rounds magazine.rounds self.old.loaded self.old }
        ensures out { result ≡ record { size = self.old.size; rounds = self.old.previous } }
        ensures shape { IsShaped self.new }
    {
        // For its clause: the magazine has no more rounds than its size.
        let _ = magazine.size();
        let loaded = mem::replace(&mut self.loaded, magazine);
        mem::replace(&mut self.previous, loaded)
    }

    /// Ends a cache that has no round, and hands back one that has.
    pub fn close(self) -> Result<(), CpuCache<D>>
        ensures of { CpuCacheCloseOf self result }
    {
        let (loaded, previous) = self.unload();
        if !loaded.is_empty() {
            return Err(CpuCache { loaded, previous });
        }
        if !previous.is_empty() {
            return Err(CpuCache { loaded, previous });
        }
        discard_empty(loaded);
        discard_empty(previous);
        Ok(())
    }

    /// Ends the cache and hands out its two magazines. Loaded comes first.
    pub fn unload(self) -> (Magazine<D>, Magazine<D>)
        // what it does
        ensures loaded { result.0 ≡ record { size = self.size; rounds = self.loaded } }
        ensures previous { result.1 ≡ record { size = self.size; rounds = self.previous } }
        // what follows
        ensures kinds { AreAmong (result.1.rounds ++ result.0.rounds) (cache_rounds self) }
    {
        let CpuCache { loaded, previous } = self;
        (loaded, previous)
    }
}
