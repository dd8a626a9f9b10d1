//! The free ranges of an arena, in orders and on lists, as its policy asks.
ghost use Rattle.std.specs.Prelude.{◌≡◌, ◌≢◌, ◌+◌, ◌<◌, ◌≤◌, ◌++◌, ◌∷◌, [], All, Any, OnOk, OnErr};
ghost use Rattle.std.specs.Prelude.{◌-◌, ◌/◌, ◌%◌, ◌^◌, length, max, true, AllPairs, Contains};
ghost use Rattle.std.specs.Prelude.{IfOk, IfSome, MatchOption, option_to_list};
ghost use Rattle.std.specs.Int.{IsPowerOfTwo};
ghost use Rattle.std.specs.Option.{option_map};
ghost use Rattle.deed_core.specs.Covering.{units_held};
ghost use Rattle.deed_core.specs.Extent.{Covers, IsRange, end_of};
ghost use Rattle.deed_core.specs.Holding.{Apart};
ghost use Rattle.deed_core.specs.Request.{IsGood};
ghost use Rattle.tag_arena.specs.Boundaries.{BeginsAt, EndsAt};
ghost use Rattle.tag_arena.specs.Calls.{part};
ghost use Rattle.tag_arena.specs.Choice.{IsBestChoice, IsChoice, IsInstantChoice, IsNextChoice};
ghost use Rattle.tag_arena.specs.declared.policies.Policy.TheVariants.{Instant, Next};
ghost use Rattle.tag_arena.specs.Neighbors.{Without};
ghost use Rattle.tag_arena.specs.Cuts.{CarvesOut, IsCut};
ghost use Rattle.tag_arena.specs.Fits.{base_of, IsFit, ServedByList};
ghost use Rattle.tag_arena.specs.FreeRanges.{keeps_sizes};

use crate::cells::Side;
use crate::cuts::Cut;
use crate::earliest::next_fit;
use crate::filling::fill;
use crate::held_ranges::{HeldRange, held_range_of};
use crate::newest_lists::NewestLists;
use crate::orders::{Order, OrderedIndex};
use crate::policies::{Policy, has_bases, has_lists, has_sizes};
use crate::probes::Probes;
use crate::searches::{Fit, SlotRange, best_fit, newest, range_from, range_with};
use crate::slot_searches::slot_of;
use crate::slots::{Slots, TimedDeed};
use deed_core::{Deed, Request, Stored};
use std::alloc::{AllocError, Global};
use std::marker::Model;

/// The deeds of the free ranges of an arena. A contract sees the ranges from the oldest to the
/// newest, how many there may be, and how many more may become free without memory.
pub(crate) struct FreeIndex<D: Deed> {
    policy: Policy,
    slots: Slots<D>,
    /// In order of bases, where that is kept.
    rising: OrderedIndex,
    /// In order of lengths, where that is kept.
    sizes: OrderedIndex,
    /// By powers of two of lengths, where that is kept.
    lists: NewestLists,
    /// The time at which the newest range became free.
    clock: u64,
    room: usize,
}

impl<D: Deed> Model for FreeIndex<D> {
    ghost use Rattle.std.specs.Prelude.{◌-◌, ◌^◌};
    ghost use Rattle.tag_arena.specs.FreeTags.{ranges_by_age};
    ghost use Rattle.tag_arena.specs.FreeRanges.{FreeIndexState, IsIndexed};

    ghost Value = { FreeIndexState };

    ghost view = { λ f. record {
      policy = f.policy;
      ranges = ranges_by_age f.slots.tags;
      room = f.room;
      ticks = 2 ^ 64 - 1 - f.clock;
    } };

    ghost invariant = { λ f.
        IsIndexed f.policy f.slots f.rising f.sizes f.lists f.clock f.room };
}

/// A piece that was carved, and the slots of the rests beside it.
pub(crate) struct Carved<D: Deed> {
    pub low: Option<usize>,
    pub piece: Stored<D>,
    pub high: Option<usize>,
}

impl<D: Deed> FreeIndex<D> {
    /// No free range, and no room for any.
    pub(crate) fn new(alloc: Global, policy: Policy) -> FreeIndex<D>
        ensures policy { result.policy ≡ policy }
        ensures ranges { result.ranges ≡ [] }
        ensures room { result.room ≡ 0 }
        ensures ticks { result.ticks ≡ 2 ^ 64 - 1 }
    {
        FreeIndex {
            policy,
            slots: Slots::new(alloc),
            rising: OrderedIndex::new(alloc, Order::Rising, has_bases(policy)),
            sizes: OrderedIndex::new(alloc, Order::Sizes, false),
            lists: NewestLists::new(alloc, has_lists(policy)),
            clock: 0,
            room: 0,
        }
    }

    /// Makes room for `room` free ranges in all, and for `ticks` more to become free. Where it
    /// takes memory, room is made for an eighth more ranges, if there is memory for them, so that
    /// rows lie together. Of all calls this one alone takes memory, and a carve what its deed's
    /// splits take.
    pub(crate) fn reserve(
        &mut self,
        alloc: Global,
        room: usize,
        ticks: usize,
    ) -> Result<(), AllocError>
        ensures room { OnOk result (room ≤ self.new.room) }
        ensures ticks { OnOk result (ticks ≤ self.new.ticks) }
        ensures most { self.new.room ≤ max (room + room / 8) self.old.room }
        ensures grows { (self.old.room ≤ self.new.room) × (self.old.ticks ≤ self.new.ticks) }
        ensures rest { self.new ≡ record self.old {
          room = self.new.room;
          ticks = self.new.ticks;
        } }
    {
        if u64::MAX - self.clock < ticks as u64 {
            return Err(AllocError);
        }
        if room <= self.room {
            return Ok(());
        }
        let Ok(()) = self.widen(alloc, room.saturating_add(room / 8)) else {
            return self.widen(alloc, room);
        };
        Ok(())
    }

    /// Makes room for `room` free ranges in all.
    fn widen(&mut self, alloc: Global, room: usize) -> Result<(), AllocError>
        requires { self.old.room < room }
        ensures ok { OnOk result (self.new ≡ record self.old { room = room }) }
        ensures unchanged { OnErr result (self.new ≡ self.old) }
    {
        self.lists.reserve(room)?;
        self.slots.reserve(room)?;
        self.rising.reserve(alloc, room, has_bases(self.policy))?;
        self.sizes.reserve(alloc, room, has_sizes(self.policy))?;
        self.room = room;
        Ok(())
    }

    /// Goes to where the range with this base and length lies, or with length 0 to the first that
    /// begins there or behind it. It is for speed alone: the calls that follow there need no search
    /// in the order of bases.
    pub(crate) fn go_to(&mut self, base: u64, len: u64)
        ensures unchanged { self.new ≡ self.old }
    {
        self.rising.go_to(base, len);
    }

    /// A range becomes free: it is the newest. The answer is its slot. It takes no memory.
    pub(crate) fn insert(&mut self, deed: Stored<D>) -> usize
        requires clear { All (Apart deed) self.old.ranges }
        requires room { length self.old.ranges < self.old.room }
        requires ticks { 0 < self.old.ticks }
        ensures ranges { self.new.ranges ≡ self.old.ranges ++ deed ∷ [] }
        ensures policy { self.new.policy ≡ self.old.policy }
        ensures room { self.new.room ≡ self.old.room }
        ensures ticks { self.new.ticks + 1 ≡ self.old.ticks }
    {
        self.clock += 1;
        let power = held_range_of(&deed).len().ilog2();
        let deed = TimedDeed::new(deed, self.clock, power);
        let tag = deed.tag();
        let slot = self.slots.put(deed);
        self.rising.enter(slot, tag);
        self.sizes.enter(slot, tag);
        self.lists.enter(slot, tag);
        slot
    }

    /// A free range is free no more. Its slot may be the one that is likely.
    pub(crate) fn take(&mut self, range: HeldRange, likely: usize) -> Stored<D>
        requires present { Contains self.old.ranges range }
        ensures value { result ≡ range }
        ensures ranges { Without self.old.ranges range self.new.ranges }
        ensures rest { self.new ≡ record self.old { ranges = self.new.ranges } }
    {
        let found = slot_of(
            self.policy,
            &self.slots,
            &self.rising,
            &self.sizes,
            range,
            likely,
        );
        let Some(slot) = found else { unreachable!() };
        let tag = self.slots.tag(slot);
        self.rising.strike(slot, tag);
        self.sizes.strike(slot, tag);
        self.lists.strike(slot, tag);
        self.slots.take(slot).into_deed()
    }

    /// How many free ranges there are. It takes constant time, so its clauses are the way to know
    /// what is always so of them.
    pub(crate) fn len(&self) -> usize
        ensures len { result ≡ length self.now.ranges }
        ensures ranges { All (λ r. IsRange r.range) self.now.ranges }
    {
        self.slots.taken()
    }

    /// How many units the free ranges have.
    pub(crate) fn units(&self) -> u128
        ensures { result ≡ units_held self.now.ranges }
    {
        self.slots.units()
    }

    /// Whether it is a free range, and in which slot.
    pub(crate) fn find(&self, range: HeldRange) -> Option<usize>
        ensures { let free = self.now.ranges in
            MatchOption result (¬ Contains free range) (λ slot. Contains free range) }
    {
        slot_of(
            self.policy,
            &self.slots,
            &self.rising,
            &self.sizes,
            range,
            0,
        )
    }

    /// Where the policy may ask for the order of sizes, it is kept from now on. It is for speed
    /// alone, and takes no memory.
    pub(crate) fn keep_sizes(&mut self)
        requires apart { AllPairs Apart self.old.ranges }
        ensures unchanged { self.new ≡ self.old }
    {
        if has_sizes(self.policy) {
            fill(&self.slots, &mut self.sizes);
        }
    }

    /// The free range that ends at `end`, if there is one. What stands there may be known; else
    /// under `next` it is the one with the unit below `end`, since none has the unit `end`.
    pub(crate) fn ending_at(&self, end: u64, side: Side) -> Option<SlotRange>
        requires some { 0 < end }
        requires apart { AllPairs Apart self.now.ranges }
        requires known { side ≡ Side.Allocated → All (λ r. end_of r.range ≢ end) self.now.ranges }
        requires clear { All (λ r. ¬ Covers r.range end) self.now.ranges }
        ensures { EndsAt end self.now.ranges (option_map (λ f. f.range) result) }
    {
        if has_bases(self.policy) {
            return range_with(&self.slots, &self.rising, end - 1);
        }
        if side == Side::Allocated {
            return None;
        }
        if let Side::Free(slot) = side {
            if let Some(range) = self.slots.ending_in(slot, end) {
                return Some(SlotRange { range, slot });
            }
        }
        let range = self.slots.ending_at(end)?;
        Some(SlotRange { range, slot: 0 })
    }

    /// The free range that begins at `base`, if there is one. What stands there may be known.
    pub(crate) fn beginning_at(&self, base: u64, side: Side) -> Option<SlotRange>
        requires known { side ≡ Side.Allocated → All (λ r. r.range.base ≢ base) self.now.ranges }
        ensures { BeginsAt base self.now.ranges (option_map (λ f. f.range) result) }
    {
        if has_bases(self.policy) {
            return range_from(&self.slots, &self.rising, base);
        }
        if side == Side::Allocated {
            return None;
        }
        if let Side::Free(slot) = side {
            if let Some(range) = self.slots.beginning_in(slot, base) {
                return Some(SlotRange { range, slot });
            }
        }
        let range = self.slots.beginning_at(base)?;
        Some(SlotRange { range, slot: 0 })
    }

    /// The best range that serves the request, and its least address that does. The order of sizes
    /// is kept from the first such call on: that one looks at each free range. Under `next` there
    /// is no room for it.
    pub(crate) fn best(
        &mut self,
        quantum: u64,
        request: &Request,
        probes: &mut Probes,
    ) -> Option<Fit>
        requires asked { keeps_sizes self.old.policy ≡ true }
        requires quantum { IsPowerOfTwo quantum }
        requires good { IsGood quantum request.now }
        requires apart { AllPairs Apart self.old.ranges }
        ensures choice { IsBestChoice quantum request.now self.old.ranges (base_of result) }
        ensures placed { IfSome result (IsFit quantum request.now self.old.ranges) }
        ensures unchanged { self.new ≡ self.old }
    {
        fill(&self.slots, &mut self.sizes);
        best_fit(&self.slots, &mut self.sizes, quantum, request, probes)
    }

    /// As from power-of-two lists: for a request without constraints the newest range of the least
    /// list whose every member has room, and else, or where there is no such list, the best; but
    /// where the lists show that none is long enough, the order of sizes isn't asked. It is for
    /// `instant`, which alone has the lists.
    pub(crate) fn instant(
        &mut self,
        quantum: u64,
        request: &Request,
        probes: &mut Probes,
    ) -> Option<Fit>
        requires asked { self.old.policy ≡ Instant }
        requires quantum { IsPowerOfTwo quantum }
        requires good { IsGood quantum request.now }
        requires aligned { All (λ r. r.range.base % quantum ≡ 0) self.old.ranges }
        requires apart { AllPairs Apart self.old.ranges }
        ensures choice { IsInstantChoice quantum request.now self.old.ranges (base_of result) }
        ensures placed { IfSome result (IsFit quantum request.now self.old.ranges) }
        ensures unchanged { self.new ≡ self.old }
        ensures one { ServedByList quantum request.now self.old.ranges
            → probes.old.count ≡ 0 → probes.new.count ≡ 1 }
    {
        // The clock is read for the proof alone.
        let _clock = self.clock;
        if request.is_constrained() {
            return self.best(quantum, request, probes);
        }
        let Some(units) = request.units(quantum) else {
            return self.best(quantum, request, probes);
        };
        let Some(newest) = newest(&self.slots, &self.lists, quantum, units) else {
            if self.lists.newest_from(units.ilog2()).is_none() {
                return None;
            }
            return self.best(quantum, request, probes);
        };
        probes.look();
        Some(Fit {
            range: newest.range,
            base: newest.range.base(),
            slot: newest.slot,
        })
    }

    /// The least address at or past the rover that serves the request, else the least that does. It
    /// is what `next` chooses, which always has the order of bases.
    pub(crate) fn next(
        &mut self,
        rover: u64,
        quantum: u64,
        request: &Request,
        probes: &mut Probes,
    ) -> Option<Fit>
        requires is_next { self.old.policy ≡ Next }
        requires quantum { IsPowerOfTwo quantum }
        requires good { IsGood quantum request.now }
        requires rover { rover ≤ 2 ^ 62 }
        requires apart { AllPairs Apart self.old.ranges }
        ensures choice { let free = self.old.ranges in
            IsNextChoice quantum request.now free rover (base_of result) }
        ensures placed { IfSome result (IsFit quantum request.now self.old.ranges) }
        ensures unchanged { self.new ≡ self.old }
    {
        let (slots, rising) = (&self.slots, &mut self.rising);
        next_fit(slots, rising, rover, quantum, request, probes)
    }

    /// What the policy chooses.
    pub(crate) fn chosen(
        &mut self,
        rover: u64,
        quantum: u64,
        request: &Request,
        probes: &mut Probes,
    ) -> Option<Fit>
        requires quantum { IsPowerOfTwo quantum }
        requires good { IsGood quantum request.now }
        requires rover { rover ≤ 2 ^ 62 }
        requires aligned { All (λ r. r.range.base % quantum ≡ 0) self.old.ranges }
        requires apart { AllPairs Apart self.old.ranges }
        ensures choice { let free = self.old.ranges in
            IsChoice self.old.policy quantum request.now free rover (base_of result) }
        ensures placed { IfSome result (IsFit quantum request.now self.old.ranges) }
        ensures unchanged { self.new ≡ self.old }
        ensures one { self.old.policy ≡ Instant → ServedByList quantum request.now self.old.ranges
            → probes.old.count ≡ 0 → probes.new.count ≡ 1 }
    {
        match self.policy {
            Policy::Best => self.best(quantum, request, probes),
            Policy::Next => self.next(rover, quantum, request, probes),
            Policy::Instant => self.instant(quantum, request, probes),
        }
    }

    /// Cuts the units from `base` to `end` out of a free range, which is free no more. Its slot may
    /// be the one that is likely.
    fn cut(
        &mut self,
        range: HeldRange,
        base: u64,
        end: u64,
        likely: usize,
    ) -> Result<Cut<D>, AllocError>
        requires among { Contains self.old.ranges range }
        requires from { range.range.base ≤ base }
        requires some { base < end }
        requires to { end ≤ end_of range.range }
        requires apart { AllPairs Apart self.old.ranges }
        ensures cut { IfOk result (λ cut. IsCut range base end cut.low cut.piece cut.high) }
        ensures ranges { OnOk result (Without self.old.ranges range self.new.ranges) }
        ensures unchanged { OnErr result (self.new.ranges ≡ self.old.ranges) }
        ensures rest { self.new ≡ record self.old { ranges = self.new.ranges } }
    {
        let found = slot_of(
            self.policy,
            &self.slots,
            &self.rising,
            &self.sizes,
            range,
            likely,
        );
        let Some(slot) = found else { unreachable!() };
        let tag = self.slots.tag(slot);
        let cut = self.slots.cut(slot, tag, base, end)?;
        self.rising.strike(slot, tag);
        self.sizes.strike(slot, tag);
        self.lists.strike(slot, tag);
        Ok(cut)
    }

    /// A rest, if there is one, becomes free. The answer is its slot.
    pub(crate) fn insert_rest(&mut self, rest: Option<Stored<D>>) -> Option<usize>
        requires clear { IfSome rest (λ h. All (Apart h) self.old.ranges) }
        requires room { length self.old.ranges < self.old.room }
        requires ticks { 0 < self.old.ticks }
        ensures ranges { self.new.ranges ≡ self.old.ranges ++ option_to_list rest }
        ensures policy { self.new.policy ≡ self.old.policy }
        ensures room { self.new.room ≡ self.old.room }
        ensures ticks { self.old.ticks ≤ self.new.ticks + 1 }
    {
        match rest {
            Some(rest) => Some(self.insert(rest)),
            None => None,
        }
    }

    /// Carves the first `len` units of what was found out of its range, whose rests become free,
    /// the low one first. Where a split is refused, all is as it was.
    pub(crate) fn carve(&mut self, found: Fit, len: u64) -> Result<Carved<D>, AllocError>
        requires among { Contains self.old.ranges found.range }
        requires some { 0 < len }
        requires from { found.range.range.base ≤ found.base }
        requires to { found.base + len ≤ end_of found.range.range }
        requires apart { AllPairs Apart self.old.ranges }
        requires room { length self.old.ranges < self.old.room }
        requires ticks { 1 < self.old.ticks }
        ensures piece { IfOk result (λ c. c.piece ≡ part found.range found.base len) }
        ensures carved { IfOk result (λ c.
            CarvesOut found.range c.piece self.old.ranges self.new.ranges) }
        ensures unchanged { OnErr result (self.new ≡ self.old) }
        ensures setup { (self.new.policy ≡ self.old.policy) × (self.new.room ≡ self.old.room) }
        ensures len { length self.new.ranges ≤ length self.old.ranges + 1 }
        ensures ticks { self.old.ticks ≤ self.new.ticks + 2 }
    {
        let Fit { range, base, slot } = found;
        let units = range.len();
        self.go_to(range.base(), units);
        // For their clauses: each of these ranges has units.
        let _ = range.end();
        let _ = self.len();
        let Cut { low, piece, high } = self.cut(range, base, base + len, slot)?;
        let low = self.insert_rest(low);
        let high = self.insert_rest(high);
        Ok(Carved { low, piece, high })
    }

    /// The cell of the range in a slot, if it has one. It is for speed alone.
    pub(crate) fn cell(&self, slot: usize) -> Option<usize> {
        self.slots.cell(slot)
    }

    /// Tells the cell of the range in a slot. It is for speed alone.
    pub(crate) fn set_cell(&mut self, slot: usize, cell: Option<usize>)
        ensures unchanged { self.new ≡ self.old }
    {
        self.slots.set_cell(slot, cell);
    }

    /// Ends the index where no range is free.
    pub(crate) fn destroy(self)
        requires { self.ranges ≡ [] }
    {
        let FreeIndex {
            policy: _,
            slots,
            rising: _,
            sizes: _,
            lists: _,
            clock: _,
            room: _,
        } = self;
        slots.destroy();
    }
}
