//! Deeds of free ranges in numbered slots.
ghost use Rattle.std.specs.Prelude.{◌≡◌, ◌+◌, ◌^◌, ◌<◌, ◌≤◌, [], None, Some, OnOk, OnErr, IsTrue};
ghost use Rattle.std.specs.Prelude.{◌↔◌, All, length, max, IfOk, IfSome, sum_by};
ghost use Rattle.deed_core.specs.Extent.{IsRange, end_of};
ghost use Rattle.tag_arena.specs.Boundaries.{LiesIn, StandsAt, begin_of, tag_end};
ghost use Rattle.tag_arena.specs.Cuts.{IsCut};
ghost use Rattle.tag_arena.specs.FreeTags.{FreeTag, tag_at, SlotBecomes};
ghost use Rattle.tag_arena.specs.Slotted.{taken_count, slot_units};

use crate::cuts::{Cut, cut_out};
use crate::held_ranges::{HeldRange, held_range_of};
use crate::short_indexes::ShortIndex;
use deed_core::{Deed, Range, Stored};
use std::alloc::{AllocError, Global};
use std::marker::Model;

/// A deed with the time at which its range became free, and the number of the range's
/// power-of-two list. Its cell, if it has one, is for speed alone.
pub(crate) struct TimedDeed<D: Deed> {
    deed: Stored<D>,
    since: u64,
    power: u32,
    /// Where the range stands among the cells; none where it has no cell.
    cell: ShortIndex,
}

impl<D: Deed> Model for TimedDeed<D> {
    ghost use Rattle.tag_arena.specs.FreeTags.{FreeTag};

    ghost Value = { FreeTag };

    ghost view = { λ t. record { range = t.deed; since = t.since; power = t.power } };
}

impl<D: Deed> TimedDeed<D> {
    /// The deed of a range that became free at this time; it has no cell yet.
    pub(crate) fn new(deed: Stored<D>, since: u64, power: u32) -> TimedDeed<D>
        ensures { result ≡ record { range = deed; since = since; power = power } }
    {
        TimedDeed {
            deed,
            since,
            power,
            cell: ShortIndex::none(),
        }
    }

    /// How many units it has.
    fn len(&self) -> u64
        ensures value { result ≡ self.now.range.range.len }
        ensures small { result ≤ 2 ^ 62 }
    {
        self.deed.range().len()
    }

    /// The deed itself.
    pub(crate) fn into_deed(self) -> Stored<D>
        ensures { result ≡ self.range }
    {
        let TimedDeed {
            deed,
            since: _,
            power: _,
            cell: _,
        } = self;
        deed
    }

    /// The same without its deed.
    pub(crate) fn tag(&self) -> SlotTag
        ensures { result ≡ self.now }
    {
        SlotTag {
            range: held_range_of(&self.deed),
            since: self.since,
            power: self.power,
        }
    }
}

/// What is known of a free range, as plain data.
#[derive(Clone, Copy, Debug)]
pub(crate) struct SlotTag {
    range: HeldRange,
    since: u64,
    power: u32,
}

impl Model for SlotTag {
    ghost use Rattle.tag_arena.specs.FreeTags.{FreeTag};

    ghost Value = { FreeTag };

    ghost view = { λ t. record { range = t.range; since = t.since; power = t.power } };

    ghost inverse = { λ t. record { range = t.range; since = t.since; power = t.power } };
}

impl SlotTag {
    /// The free range.
    pub(crate) fn range(&self) -> HeldRange
        ensures value { result ≡ self.now.range }
        ensures range { IsRange self.now.range.range }
    {
        let _ = self.range.len();
        self.range
    }

    /// The time at which it became free.
    pub(crate) fn since(&self) -> u64
        ensures { result ≡ self.now.since }
    {
        self.since
    }

    /// The number of its power-of-two list.
    pub(crate) fn power(&self) -> u32
        ensures { result ≡ self.now.power }
    {
        self.power
    }
}

/// Deeds in numbered slots, with room for a number of them. Their units are counted.
pub(crate) struct Slots<D: Deed> {
    slots: Vec<Option<TimedDeed<D>>>,
    /// The slots with no deed in them, of which the last is filled next.
    vacant: Vec<usize>,
    room: usize,
    /// How many units all the deeds have.
    units: u128,
}

impl<D: Deed> Model for Slots<D> {
    ghost use Rattle.tag_arena.specs.Slotted.{SlotsState, AreSlots};

    ghost Value = { SlotsState };

    ghost view = { λ s. record { tags = s.slots.items; room = s.room } };

    ghost invariant = { λ s. AreSlots s.slots s.vacant s.room s.units };
}

impl<D: Deed> Slots<D> {
    /// No slot, and no room for a deed.
    pub(crate) fn new(alloc: Global) -> Slots<D>
        ensures tags { result.tags ≡ [] }
        ensures room { result.room ≡ 0 }
    {
        Slots {
            slots: Vec::new(alloc),
            vacant: Vec::new(alloc),
            room: 0,
            units: 0,
        }
    }

    /// Makes room for `room` deeds in all.
    pub(crate) fn reserve(&mut self, room: usize) -> Result<(), AllocError>
        ensures ok { OnOk result (self.new.room ≡ max room self.old.room) }
        ensures unchanged { OnErr result (self.new.room ≡ self.old.room) }
        ensures tags { self.new.tags ≡ self.old.tags }
    {
        if room <= self.room {
            return Ok(());
        }
        self.vacant.reserve(room - self.vacant.len())?;
        self.slots.reserve(room - self.slots.len())?;
        self.room = room;
        Ok(())
    }

    /// Puts a deed in a slot, whose number it tells. It takes no memory.
    pub(crate) fn put(&mut self, deed: TimedDeed<D>) -> usize
        requires { taken_count self.old.tags < self.old.room }
        ensures vacant { tag_at self.old.tags result ≡ None }
        ensures becomes { SlotBecomes self.old.tags self.new.tags result (Some deed) }
        ensures taken { taken_count self.new.tags ≡ taken_count self.old.tags + 1 }
        ensures room { self.new.room ≡ self.old.room }
        ensures within { result < self.new.room }
    {
        // For its clause: a `usize` holds the number of all slots.
        let _ = self.slots.len();
        self.units += deed.len() as u128;
        match self.vacant.pop() {
            Some(slot) => {
                match self.slots[slot].replace(deed) {
                    None => {}
                    Some(_) => unreachable!(),
                }
                slot
            }
            None => {
                self.slots.push_reserved(Some(deed));
                self.slots.len() - 1
            }
        }
    }

    /// Takes the deed out of its slot.
    pub(crate) fn take(&mut self, slot: usize) -> TimedDeed<D>
        requires { (t : FreeTag) × (tag_at self.old.tags slot ≡ Some t) }
        ensures value { Some result ≡ tag_at self.old.tags slot }
        ensures becomes { SlotBecomes self.old.tags self.new.tags slot None }
        ensures taken { taken_count self.new.tags + 1 ≡ taken_count self.old.tags }
        ensures room { self.new.room ≡ self.old.room }
    {
        let Some(deed) = self.slots[slot].take() else {
            unreachable!()
        };
        self.units -= deed.len() as u128;
        self.vacant.push_reserved(slot);
        deed
    }

    /// Cuts the units from `base` to `end` out of the deed in a slot, which is vacant then. Where a
    /// split is refused, all is as it was.
    pub(crate) fn cut(
        &mut self,
        at: usize,
        tag: SlotTag,
        base: u64,
        end: u64,
    ) -> Result<Cut<D>, AllocError>
        requires here { tag_at self.old.tags at ≡ Some tag }
        requires from { tag.range.range.base ≤ base }
        requires some { base < end }
        requires to { end ≤ end_of tag.range.range }
        ensures cut { let whole = tag.range in
            IfOk result (λ cut. IsCut whole base end cut.low cut.piece cut.high) }
        ensures becomes { OnOk result (SlotBecomes self.old.tags self.new.tags at None) }
        ensures taken { OnOk result (taken_count self.new.tags + 1 ≡ taken_count self.old.tags) }
        ensures unchanged { OnErr result (self.new.tags ≡ self.old.tags) }
        ensures room { self.new.room ≡ self.old.room }
    {
        let Some(timed) = self.slots[at].take() else {
            unreachable!()
        };
        match cut_out(timed.into_deed(), base, end) {
            Ok(cut) => {
                self.units -= tag.range().len() as u128;
                self.vacant.push_reserved(at);
                Ok(cut)
            }
            Err(same) => {
                let timed = TimedDeed::new(same, tag.since(), tag.power());
                match self.slots[at].replace(timed) {
                    None => {}
                    Some(_) => unreachable!(),
                }
                Err(AllocError)
            }
        }
    }

    /// What lies in a slot.
    pub(crate) fn tag(&self, slot: usize) -> SlotTag
        requires { (t : FreeTag) × (tag_at self.now.tags slot ≡ Some t) }
        ensures { Some result ≡ tag_at self.now.tags slot }
    {
        let Some(deed) = &self.slots[slot] else {
            unreachable!()
        };
        deed.tag()
    }

    /// The range in a slot, whose base and length the caller knows. They aren't read from the slot:
    /// what needs them alone goes on before the slot's memory is at hand.
    pub(crate) fn range_at(&self, slot: usize, base: u64, len: u64) -> HeldRange
        requires here { (t : FreeTag) × (tag_at self.now.tags slot ≡ Some t)
            × (t.range.range ≡ record { base = base; len = len }) }
        requires range { IsRange (record { base = base; len = len }) }
        ensures { (t : FreeTag) → tag_at self.now.tags slot ≡ Some t → result ≡ t.range }
    {
        let Some(timed) = &self.slots[slot] else {
            unreachable!()
        };
        let Some(range) = Range::new(base, len) else {
            unreachable!()
        };
        HeldRange::new(timed.deed.root(), range)
    }

    /// How many slots there are, vacant ones among them.
    pub(crate) fn len(&self) -> usize
        ensures { result ≡ length self.now.tags }
    {
        self.slots.len()
    }

    /// What lies in a slot, if anything does.
    pub(crate) fn peek(&self, slot: usize) -> Option<SlotTag>
        requires { slot < length self.now.tags }
        ensures { result ≡ tag_at self.now.tags slot }
    {
        match &self.slots[slot] {
            Some(deed) => Some(deed.tag()),
            None => None,
        }
    }

    /// The range in a slot, if one lies there and ends at `end`.
    pub(crate) fn ending_in(&self, slot: usize, end: u64) -> Option<HeldRange>
        ensures { IfSome result (λ r. StandsAt tag_end end self.now.tags (Some r)) }
    {
        if slot >= self.slots.len() {
            return None;
        }
        let range = self.peek(slot)?.range();
        if range.end() != end {
            return None;
        }
        Some(range)
    }

    /// The range that ends at `end`, by a look at each.
    pub(crate) fn ending_at(&self, end: u64) -> Option<HeldRange>
        ensures { StandsAt tag_end end self.now.tags result }
    {
        for slot in 0..self.slots.len() {
            if let Some(tag) = self.peek(slot) {
                let range = tag.range();
                if range.end() == end {
                    return Some(range);
                }
            }
        }
        None
    }

    /// The range in a slot, if one lies there and begins at `base`.
    pub(crate) fn beginning_in(&self, slot: usize, base: u64) -> Option<HeldRange>
        ensures { IfSome result (λ r. StandsAt begin_of base self.now.tags (Some r)) }
    {
        if slot >= self.slots.len() {
            return None;
        }
        let range = self.peek(slot)?.range();
        if range.base() != base {
            return None;
        }
        Some(range)
    }

    /// The range that begins at `base`, by a look at each.
    pub(crate) fn beginning_at(&self, base: u64) -> Option<HeldRange>
        ensures { StandsAt begin_of base self.now.tags result }
    {
        for slot in 0..self.slots.len() {
            if let Some(tag) = self.peek(slot) {
                let range = tag.range();
                if range.base() == base {
                    return Some(range);
                }
            }
        }
        None
    }

    /// The slot of a range, if it lies in one, by a look at each.
    pub(crate) fn holding(&self, range: HeldRange) -> Option<usize>
        ensures { LiesIn range self.now.tags result }
    {
        for slot in 0..self.slots.len() {
            if self.is_in(slot, range) {
                return Some(slot);
            }
        }
        None
    }

    /// Whether a range lies in a slot.
    pub(crate) fn is_in(&self, slot: usize, range: HeldRange) -> bool
        ensures { IsTrue result ↔ LiesIn range self.now.tags (Some slot) }
    {
        if slot >= self.slots.len() {
            return false;
        }
        match self.peek(slot) {
            Some(tag) => tag.range() == range,
            None => false,
        }
    }

    /// The cell of the range in a slot, if there is one. It is for speed alone.
    pub(crate) fn cell(&self, slot: usize) -> Option<usize> {
        if slot >= self.slots.len() {
            return None;
        }
        match &self.slots[slot] {
            Some(timed) => timed.cell.get(),
            None => None,
        }
    }

    /// Tells the cell of the range in a slot. It is for speed alone.
    pub(crate) fn set_cell(&mut self, slot: usize, cell: Option<usize>)
        ensures unchanged { self.new ≡ self.old }
    {
        if slot >= self.slots.len() {
            return;
        }
        if let Some(timed) = &mut self.slots[slot] {
            timed.cell = ShortIndex::to(cell);
        }
    }

    /// How many deeds lie in the slots.
    pub(crate) fn taken(&self) -> usize
        ensures { result ≡ taken_count self.now.tags }
    {
        self.slots.len() - self.vacant.len()
    }

    /// How many units the deeds in the slots have.
    pub(crate) fn units(&self) -> u128
        ensures { result ≡ sum_by slot_units self.now.tags }
    {
        self.units
    }

    /// Ends the slots where no deed lies in any.
    pub(crate) fn destroy(self)
        requires { taken_count self.tags ≡ 0 }
    {
        let Slots {
            slots,
            vacant: _,
            room: _,
            units: _,
        } = self;
        drop_vacant(slots);
    }
}

/// Ends a vector of vacant slots.
fn drop_vacant<D: Deed>(mut slots: Vec<Option<TimedDeed<D>>>)
    requires { taken_count slots.items ≡ 0 }
{
    while let Some(slot) = slots.pop() {
        match slot {
            None => {}
            Some(_) => unreachable!(),
        }
    }
    slots.destroy_empty();
}
