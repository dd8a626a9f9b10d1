//! The rows of a list, with what is known of each without a look at its entries.
ghost use Rattle.std.specs.Prelude.{◌≡◌, ◌+◌, ◌<◌, ◌≤◌, suc, [], ◌∷◌, ◌++◌, length, take, drop};
ghost use Rattle.std.specs.Prelude.{set, insert, remove, slice_index_or, IsTrue, OnOk, None, ◌↔◌};
ghost use Rattle.std.specs.List.{find};
ghost use Rattle.sorted_rows.specs.Layout.{entries_in};
ghost use Rattle.sorted_rows.specs.Tops.{Describes, IsTop};
ghost use Rattle.sorted_rows.specs.Weights.{weighs};

use crate::entries::RowEntry;
use crate::row::{Row, put_in};
use crate::tops::{after_insert, after_remove, after_set, joined, lowered, next_heavy, untell};
use std::alloc::{AllocError, Global};
use std::marker::Model;

/// How many searches in a row by other measures a list keeps its own for. Tops that are wiped for
/// each search in turn would tell nothing.
const PATIENCE: u8 = 8;

/// Rows, with the key of the first entry of each and its top. All that changes one of these goes
/// through here. A contract sees the rows, and how many may stand here.
#[derive(Drop)]
pub(crate) struct HeadedRows<T: RowEntry> {
    /// The key of the first entry of each row.
    firsts: Vec<u128>,
    /// The top of each row.
    tops: Vec<u64>,
    rows: Vec<Row<T>>,
    /// The measure that tops are by.
    measure: T::Measure,
    /// How many searches by other measures came since the last by this one.
    others: u8,
}

impl<T: RowEntry> Model for HeadedRows<T> {
    ghost use Rattle.std.specs.Prelude.{min, vec_capacity};
    ghost use Rattle.sorted_rows.specs.Order.{FirstIs};
    ghost use Rattle.sorted_rows.specs.Tops.{Describes, HeadedState, IsTop};

    ghost Value = { HeadedState T };

    ghost view = { λ a. record {
      items = a.rows.items;
      capacity = min (min (vec_capacity a.firsts) (vec_capacity a.tops)) (vec_capacity a.rows);
    } };

    ghost invariant = { λ a. Describes (FirstIs T.rank) a.firsts.items a.rows.items
        × Describes (IsTop (T.weight a.measure)) a.tops.items a.rows.items };
}

impl<T: RowEntry> HeadedRows<T> {
    /// No row, and tops by the first measure.
    pub(crate) fn new(alloc: Global) -> HeadedRows<T>
        ensures { result.items ≡ [] }
    {
        HeadedRows {
            firsts: Vec::new(alloc),
            tops: Vec::new(alloc),
            rows: Vec::new(alloc),
            measure: T::first_measure(),
            others: 0,
        }
    }

    /// Makes room for `more` rows. Out of memory, there may be room for some of them.
    pub(crate) fn reserve(&mut self, more: usize) -> Result<(), AllocError>
        ensures items { self.new.items ≡ self.old.items }
        ensures ok { OnOk result (length self.new.items + more ≤ self.new.capacity) }
        ensures capacity { self.old.capacity ≤ self.new.capacity }
    {
        self.firsts.reserve(more)?;
        self.tops.reserve(more)?;
        self.rows.reserve(more)
    }

    /// How many rows there are.
    pub(crate) fn len(&self) -> usize
        ensures { result ≡ length self.now.items }
    {
        self.rows.len()
    }

    /// Whether there is no row.
    pub(crate) fn is_empty(&self) -> bool
        ensures { IsTrue result ↔ (length self.now.items ≡ 0) }
    {
        self.rows.is_empty()
    }

    /// The key of a row's first entry.
    pub(crate) fn first(&self, seat: usize) -> u128
        requires within { seat < length self.now.items }
        requires some { 0 < length (slice_index_or self.now.items seat []) }
        ensures { (d : T) → result
            ≡ T.rank (slice_index_or (slice_index_or self.now.items seat []) 0 d) }
    {
        self.firsts[seat]
    }

    /// A row.
    pub(crate) fn row(&self, seat: usize) -> &Row<T>
        requires { seat < length self.now.items }
        ensures { result.now ≡ slice_index_or self.now.items seat [] }
    {
        &self.rows[seat]
    }

    /// Puts an entry in a row.
    pub(crate) fn insert(&mut self, seat: usize, at: usize, entry: T)
        requires within { seat < length self.old.items }
        requires at { at ≤ length (slice_index_or self.old.items seat []) }
        requires room { length (slice_index_or self.old.items seat []) < 64 }
        ensures items { self.new.items ≡ set self.old.items seat
            (insert (slice_index_or self.old.items seat []) at entry) }
        ensures capacity { self.new.capacity ≡ self.old.capacity }
    {
        let row = &mut self.rows[seat];
        row.insert(at, entry);
        self.firsts[seat] = row.first();
        let top = self.tops[seat];
        self.tops[seat] = after_insert(top, entry, self.measure);
    }

    /// Takes an entry out of a row, which may be empty then.
    pub(crate) fn remove(&mut self, seat: usize, at: usize)
        requires within { seat < length self.old.items }
        requires at { at < length (slice_index_or self.old.items seat []) }
        ensures items { self.new.items ≡ set self.old.items seat
            (remove (slice_index_or self.old.items seat []) at) }
        ensures capacity { self.new.capacity ≡ self.old.capacity }
    {
        let row = &mut self.rows[seat];
        let entry = row.remove(at);
        self.firsts[seat] = row.first();
        let top = self.tops[seat];
        self.tops[seat] = after_remove(top, row, entry, self.measure);
    }

    /// Puts an entry in the place of another.
    pub(crate) fn set(&mut self, seat: usize, at: usize, entry: T)
        requires within { seat < length self.old.items }
        requires at { at < length (slice_index_or self.old.items seat []) }
        ensures items { self.new.items ≡ set self.old.items seat
            (insert (remove (slice_index_or self.old.items seat []) at) at entry) }
        ensures capacity { self.new.capacity ≡ self.old.capacity }
    {
        let row = &mut self.rows[seat];
        let old = row.get(at);
        row.set(at, entry);
        self.firsts[seat] = row.first();
        let top = self.tops[seat];
        self.tops[seat] = after_set(top, row, old, entry, self.measure);
    }

    /// Puts an empty row behind the others.
    pub(crate) fn push(&mut self, row: Row<T>)
        requires room { length self.old.items < self.old.capacity }
        requires empty { row ≡ [] }
        ensures items { self.new.items ≡ self.old.items ++ [] ∷ [] }
        ensures capacity { self.new.capacity ≡ self.old.capacity }
    {
        self.firsts.push_reserved(row.first());
        self.tops.push_reserved(0);
        self.rows.push_reserved(row);
    }

    /// Moves the upper half of a full row to an empty one, which comes to stand behind it.
    pub(crate) fn split(&mut self, seat: usize, empty: Row<T>)
        requires within { seat < length self.old.items }
        requires full { length (slice_index_or self.old.items seat []) ≡ 64 }
        requires empty { empty ≡ [] }
        requires room { length self.old.items < self.old.capacity }
        ensures items { self.new.items ≡ insert
            (set self.old.items seat (take 32 (slice_index_or self.old.items seat []))) (seat + 1)
            (drop 32 (slice_index_or self.old.items seat [])) }
        ensures capacity { self.new.capacity ≡ self.old.capacity }
    {
        let mut high = empty;
        let low = &mut self.rows[seat];
        low.split(&mut high);
        self.firsts[seat] = low.first();
        let top = self.tops[seat];
        self.tops[seat] = lowered(top, low, self.measure);
        put_in(&mut self.firsts, seat + 1, high.first());
        put_in(&mut self.tops, seat + 1, lowered(top, &high, self.measure));
        put_in(&mut self.rows, seat + 1, high);
    }

    /// Moves the entries of the next row to this one, and takes that row out.
    pub(crate) fn join(&mut self, seat: usize) -> Row<T>
        requires within { seat + 1 < length self.old.items }
        requires room { length (slice_index_or self.old.items seat [])
            + length (slice_index_or self.old.items (suc seat) []) ≤ 64 }
        ensures items { self.new.items ≡ set (remove self.old.items (suc seat)) seat
            (slice_index_or self.old.items seat [] ++ slice_index_or self.old.items (suc seat) []) }
        ensures capacity { self.new.capacity ≡ self.old.capacity }
        ensures empty { result ≡ [] }
    {
        let mut next = self.rows.remove(seat + 1);
        let _ = self.firsts.remove(seat + 1);
        let high = self.tops.remove(seat + 1);
        let row = &mut self.rows[seat];
        row.join(&mut next);
        self.firsts[seat] = row.first();
        let low = self.tops[seat];
        self.tops[seat] = joined(low, high);
        next
    }

    /// Takes out a row.
    pub(crate) fn take(&mut self, seat: usize) -> Row<T>
        requires { seat < length self.old.items }
        ensures items { self.new.items ≡ remove self.old.items seat }
        ensures row { result ≡ slice_index_or self.old.items seat [] }
        ensures capacity { self.new.capacity ≡ self.old.capacity }
    {
        let _ = self.firsts.remove(seat);
        let _ = self.tops.remove(seat);
        self.rows.remove(seat)
    }

    /// Whether it is known that each entry of a row weighs less than `least`. False is always a
    /// right answer: it is for speed alone.
    pub(crate) fn is_light(&self, seat: usize, measure: T::Measure, least: u64) -> bool
        requires { seat < length self.now.items }
        ensures { IsTrue result → find (weighs (T.weight measure) least)
            (slice_index_or self.now.items seat []) ≡ None }
    {
        self.tops[seat] < least && T::is_same(self.measure, measure)
    }

    /// The first entry behind a row that weighs as much as `least` or more. Tops keep their measure
    /// until so many searches by others came that it seems not to be asked for any more.
    pub(crate) fn search(&mut self, measure: T::Measure, seat: usize, least: u64) -> Option<T>
        requires { seat < length self.old.items }
        ensures value { result ≡ find (weighs (T.weight measure) least)
            (entries_in (drop (seat + 1) self.old.items)) }
        ensures unchanged { self.new ≡ self.old }
    {
        if self.rows.len() - seat == 1 {
            return None;
        }
        if !T::is_same(self.measure, measure) {
            if self.others < PATIENCE {
                self.others += 1;
                return heavy_among(&self.rows, measure, seat + 1, least);
            }
            self.measure = measure;
            untell(&mut self.tops);
        }
        self.others = 0;
        heavy_from(&mut self.tops, &self.rows, measure, seat + 1, least)
    }
}

/// The first entry, from a row on, that weighs so much, without a look at what is known of rows.
#[tactic(auto, using(crate::proofs::HeavyLemmas::found_among))]
fn heavy_among<T: RowEntry>(
    rows: &[Row<T>],
    measure: T::Measure,
    from: usize,
    least: u64,
) -> Option<T>
    ensures { result ≡ find (weighs (T.weight measure) least) (entries_in (drop from rows.now)) }
{
    let mut seat = from;
    while seat < rows.len() {
        if let Some(entry) = rows[seat].heavy(measure, 0, least) {
            return Some(entry);
        }
        seat += 1;
    }
    None
}

/// The first entry, from a row on, that weighs so much. A row that is known to be too light costs
/// one look at its top. One that is searched in vain keeps its greatest weight there.
fn heavy_from<T: RowEntry>(
    tops: &mut [u64],
    rows: &[Row<T>],
    measure: T::Measure,
    from: usize,
    least: u64,
) -> Option<T>
    requires tops { Describes (IsTop (T.weight measure)) tops.old rows.now }
    requires from { from ≤ length rows.now }
    ensures value { result ≡ find (weighs (T.weight measure) least)
        (entries_in (drop from rows.now)) }
    ensures tops { Describes (IsTop (T.weight measure)) tops.new rows.now }
{
    let mut seat = next_heavy(tops, from, least);
    while seat < tops.len() {
        match rows[seat].search(measure, least) {
            Ok(entry) => return Some(entry),
            Err(top) => tops[seat] = top,
        }
        seat = next_heavy(tops, seat + 1, least);
    }
    None
}
