//! One index of the free ranges, in one order.
ghost use Rattle.std.specs.Prelude.{◌≡◌, ◌≤◌, ◌+◌, ◌*◌, ◌^◌, [], max, OnOk, true};
ghost use Rattle.tag_arena.specs.Orders.{entry_of, rank_of, IsAbsent, IsPresent, HasRoomForOne};
ghost use Rattle.tag_arena.specs.Orders.{PutsEntry, TakesEntry, weight_of};
ghost use Rattle.sorted_rows.specs.Order.{Rises, first_from, last_to};
ghost use Rattle.sorted_rows.specs.Weights.{first_heavy_from};

use crate::entries::{IndexEntry, key_of};
use crate::reaches::Measure;
use crate::slots::SlotTag;
use sorted_rows::Rows;
use std::alloc::{AllocError, Global};
use std::marker::Model;

/// An order of free ranges.
#[derive(Clone, Copy, PartialEq, Eq, Debug)]
pub(crate) enum Order {
    /// By base.
    Rising,
    /// By length, then by base.
    Sizes,
}

/// The entry of a free range.
pub(crate) fn entry_of(order: Order, slot: usize, tag: SlotTag) -> IndexEntry
    ensures { result ≡ entry_of order slot tag }
{
    let range = tag.range();
    match order {
        Order::Rising => IndexEntry {
            major: range.base(),
            minor: range.len(),
            slot,
        },
        Order::Sizes => IndexEntry {
            major: range.len(),
            minor: range.base(),
            slot,
        },
    }
}

/// An index in one order. Where it isn't kept, it has nothing in it.
#[derive(Drop)]
pub(crate) struct OrderedIndex {
    order: Order,
    kept: bool,
    rows: Rows<IndexEntry>,
}

impl Model for OrderedIndex {
    ghost use Rattle.tag_arena.specs.Orders.{OrderedIndexState};

    ghost Value = { OrderedIndexState };

    ghost view = { λ i. record {
      order = i.order;
      kept = i.kept;
      items = i.rows.items;
      room = i.rows.room;
    } };
}

impl OrderedIndex {
    /// An index with no entry, which is kept from now on or not.
    pub(crate) fn new(alloc: Global, order: Order, kept: bool) -> OrderedIndex
        ensures order { result.order ≡ order }
        ensures is_kept { result.kept ≡ kept }
        ensures items { result.items ≡ [] }
        ensures room { result.room ≡ 0 }
    {
        OrderedIndex {
            order,
            kept,
            rows: Rows::new(alloc),
        }
    }

    /// Whether it is kept.
    pub(crate) fn is_kept(&self) -> bool
        ensures { result ≡ self.now.kept }
    {
        self.kept
    }

    /// From now on it is kept. Its entries are for the caller to put in.
    pub(crate) fn begin(&mut self)
        ensures { self.new ≡ record self.old { kept = true } }
    {
        self.kept = true;
    }

    /// Makes room for `room` entries in all where that is asked for, whether it is kept or not.
    pub(crate) fn reserve(
        &mut self,
        alloc: Global,
        room: usize,
        asked: bool,
    ) -> Result<(), AllocError>
        ensures ok { OnOk result (asked ≡ true → self.new.room ≡ max room self.old.room) }
        ensures rest { self.new ≡ record self.old { room = self.new.room } }
        ensures grows { self.old.room ≤ self.new.room }
    {
        if asked {
            self.rows.reserve(alloc, room)?;
        }
        Ok(())
    }

    /// Goes to where the key of two numbers belongs. It is for speed alone: the calls that follow
    /// near the key need no search, or none for its row.
    pub(crate) fn go_to(&mut self, major: u64, minor: u64)
        ensures unchanged { self.new ≡ self.old }
    {
        self.rows.go_to(key_of(major, minor));
    }

    /// Puts in the entry of a free range, where it is kept.
    pub(crate) fn enter(&mut self, slot: usize, tag: SlotTag)
        requires room { HasRoomForOne self.old.kept self.old.items self.old.room }
        requires absent { let entry = entry_of self.old.order slot tag in
            IsAbsent self.old.kept self.old.items (rank_of entry) }
        ensures items { let entry = entry_of self.old.order slot tag in
            PutsEntry self.old.kept entry self.old.items self.new.items }
        ensures rest { self.new ≡ record self.old { items = self.new.items } }
        ensures rises { Rises rank_of self.old.items }
    {
        let _ = self.rows.len();
        if self.kept {
            self.rows.insert(entry_of(self.order, slot, tag));
        }
    }

    /// Takes out the entry of a free range, where it is kept.
    pub(crate) fn strike(&mut self, slot: usize, tag: SlotTag)
        requires present { let entry = entry_of self.old.order slot tag in
            IsPresent self.old.kept self.old.items (rank_of entry) }
        ensures items { let entry = entry_of self.old.order slot tag in
            TakesEntry self.old.kept (rank_of entry) self.old.items self.new.items }
        ensures rest { self.new ≡ record self.old { items = self.new.items } }
        ensures rises { Rises rank_of self.old.items }
    {
        let _ = self.rows.len();
        if self.kept {
            let entry = entry_of(self.order, slot, tag);
            self.rows.remove(key_of(entry.major, entry.minor));
        }
    }

    /// The first entry at or above the key of two numbers.
    pub(crate) fn first_from(&self, major: u64, minor: u64) -> Option<IndexEntry>
        ensures first { let key = major * 2 ^ 64 + minor in
            result ≡ first_from rank_of key self.now.items }
        ensures rises { Rises rank_of self.now.items }
    {
        let _ = self.rows.len();
        self.rows.least_from(key_of(major, minor))
    }

    /// The last entry at or below the key of two numbers.
    pub(crate) fn last_to(&self, major: u64, minor: u64) -> Option<IndexEntry>
        ensures last { let key = major * 2 ^ 64 + minor in
            result ≡ last_to rank_of key self.now.items }
        ensures rises { Rises rank_of self.now.items }
    {
        let _ = self.rows.len();
        self.rows.greatest_to(key_of(major, minor))
    }

    /// The first entry, from the first at or above the key of two numbers on, that weighs as much
    /// as `least` or more. What it found is kept for the next time, and the entries are the same.
    pub(crate) fn first_weighing(
        &mut self,
        measure: Measure,
        major: u64,
        minor: u64,
        least: u64,
    ) -> Option<IndexEntry>
        ensures first { let key = major * 2 ^ 64 + minor in
            result ≡ first_heavy_from rank_of (weight_of measure) key least self.old.items }
        ensures rises { Rises rank_of self.old.items }
        ensures unchanged { self.new ≡ self.old }
    {
        let _ = self.rows.len();
        self.rows
            .least_weighing(measure, key_of(major, minor), least)
    }
}
