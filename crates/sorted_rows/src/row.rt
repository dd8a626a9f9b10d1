//! One row of a list: a short vector with room for 64 entries.
ghost use Rattle.std.specs.Prelude.{◌≡◌, ◌+◌, ◌-◌, ◌*◌, ◌<◌, ◌≤◌, [], ◌++◌, length, take, drop};
ghost use Rattle.std.specs.Prelude.{insert, remove, slice_index_or, max, IfOk, IfErr, OnErr};
ghost use Rattle.std.specs.Prelude.{IsTrue, Some, None, List, ◌∷◌, vec_len, vec_capacity};
ghost use Rattle.std.specs.List.{find};
ghost use Rattle.sorted_rows.specs.Order.{Rises, IsRankAt, FirstIs};
ghost use Rattle.sorted_rows.specs.Weights.{greatest_weight, weighs};

use crate::entries::RowEntry;
use std::alloc::{AllocError, Global};
use std::marker::Model;

/// The greatest number of entries in a row.
pub(crate) const ROW: usize = 64;

/// The number of entries in a block, by whose last entry a search passes it.
const BLOCK: usize = 8;

/// A row: its entries, and a place for each that it may have. A contract sees the entries.
#[derive(Drop)]
pub(crate) struct Row<T: RowEntry> {
    items: Vec<T>,
}

impl<T: RowEntry> Model for Row<T> {
    ghost use Rattle.std.specs.Prelude.{◌≤◌, List, vec_len, vec_capacity};

    ghost Value = { List T };

    ghost view = { λ r. r.items.items };

    ghost invariant = { λ r. (vec_len r.items ≤ 64) × (64 ≤ vec_capacity r.items) };
}

impl<T: RowEntry> Row<T> {
    /// A row without entries, and with the memory for all that it may have.
    pub(crate) fn new(alloc: Global) -> Result<Row<T>, AllocError>
        ensures { IfOk result (λ row. row ≡ []) }
    {
        let items = Vec::with_capacity(alloc, ROW)?;
        Ok(Row { items })
    }

    /// How many entries it has.
    pub(crate) fn len(&self) -> usize
        ensures len { result ≡ length self.now }
        ensures bound { result ≤ 64 }
    {
        self.items.len()
    }

    /// The key of the first entry; 0 where there is none.
    pub(crate) fn first(&self) -> u128
        ensures { FirstIs T.rank result self.now }
    {
        if self.items.is_empty() {
            return 0;
        }
        self.items[0].key()
    }

    /// The entry at a place.
    pub(crate) fn get(&self, at: usize) -> T
        requires { at < length self.now }
        ensures { (d : T) → result ≡ slice_index_or self.now at d }
    {
        self.items[at]
    }

    /// The greatest weight of its entries, which is `most` or less; 0 where there is none.
    pub(crate) fn greatest(&self, measure: T::Measure, most: u64) -> u64
        requires { greatest_weight (T.weight measure) self.now ≤ most }
        ensures { result ≡ greatest_weight (T.weight measure) self.now }
    {
        greatest_in(&self.items, measure, most)
    }

    /// Its first entry, from the place `from` on, that weighs as much as `least` or more.
    pub(crate) fn heavy(&self, measure: T::Measure, from: usize, least: u64) -> Option<T>
        ensures { result ≡ find (weighs (T.weight measure) least) (drop from self.now) }
    {
        heavy_in(&self.items, measure, from, least)
    }

    /// Its first entry that weighs as much as `least` or more, or else its greatest weight.
    pub(crate) fn search(&self, measure: T::Measure, least: u64) -> Result<T, u64>
        ensures found { IfOk result (λ x. find (weighs (T.weight measure) least) self.now
            ≡ Some x) }
        ensures none { OnErr result (find (weighs (T.weight measure) least) self.now ≡ None) }
        ensures top { IfErr result (λ top. top ≡ greatest_weight (T.weight measure) self.now) }
    {
        heavy_or_top(&self.items, measure, least)
    }

    /// How many entries stand below the key.
    fn below(&self, key: u128) -> usize
        requires { Rises T.rank self.now }
        ensures { IsRankAt T.rank key self.now result }
    {
        below_in(&self.items, key)
    }

    /// Whether the entry before the place, if there is one, is below the key.
    fn is_above(&self, key: u128, place: usize) -> bool
        requires { place ≤ length self.now }
        ensures { IsTrue result → (d : T) → 0 < place
            → T.rank (slice_index_or self.now (place - 1) d) < key }
    {
        place == 0 || self.items[place - 1].key() < key
    }

    /// Whether the entry at the place, if there is one, isn't below the key.
    fn is_up_to(&self, key: u128, place: usize) -> bool
        requires { place ≤ length self.now }
        ensures { IsTrue result → (d : T) → place < length self.now
            → key ≤ T.rank (slice_index_or self.now place d) }
    {
        place == self.items.len() || self.items[place].key() >= key
    }

    /// Whether so many entries stand below the key.
    fn is_place(&self, key: u128, place: usize) -> bool
        requires { Rises T.rank self.now }
        ensures { IsTrue result → IsRankAt T.rank key self.now place }
    {
        if place > self.items.len() {
            return false;
        }
        if !self.is_above(key, place) {
            return false;
        }
        self.is_up_to(key, place)
    }

    /// Whether the key isn't below what stands before the place, nor above what stands behind it.
    /// False is always a right answer: it is for speed alone.
    pub(crate) fn is_between(&self, place: usize, key: u128) -> bool
        requires { place < length self.now }
        ensures above { IsTrue result → (d : T) → 0 < place
            → T.rank (slice_index_or self.now (place - 1) d) < key }
        ensures below { IsTrue result → (d : T) → place + 1 < length self.now
            → key ≤ T.rank (slice_index_or self.now (place + 1) d) }
    {
        // For its clause: a row is short.
        let _ = self.len();
        self.is_above(key, place) && self.is_up_to(key, place + 1)
    }

    /// How many entries stand below the key. They are searched through where `near` isn't given, or
    /// they aren't as many, nor one more or less.
    pub(crate) fn below_near(&self, key: u128, near: Option<usize>) -> usize
        requires { Rises T.rank self.now }
        ensures { IsRankAt T.rank key self.now result }
    {
        let Some(near) = near else {
            return self.below(key);
        };
        let near = near.min(self.items.len());
        if self.is_place(key, near) {
            return near;
        }
        if near > 0 && self.is_place(key, near - 1) {
            return near - 1;
        }
        if self.is_place(key, near + 1) {
            return near + 1;
        }
        self.below(key)
    }

    /// How many entries stand at the key or below it.
    #[tactic(auto, using(crate::proofs::LastLemmas::places_up_to))]
    pub(crate) fn up_to(&self, key: u128, near: Option<usize>) -> usize
        requires { Rises T.rank self.now }
        ensures { IsRankAt T.rank (key + 1) self.now result }
    {
        let at = self.below_near(key, near);
        if at < self.len() && self.get(at).key() == key {
            at + 1
        } else {
            at
        }
    }

    /// Puts an entry at a place; those from there on stand one place further.
    pub(crate) fn insert(&mut self, at: usize, entry: T)
        requires at { at ≤ length self.old }
        requires room { length self.old < 64 }
        ensures { self.new ≡ insert self.old at entry }
    {
        put_in(&mut self.items, at, entry);
    }

    /// Takes out the entry at a place; those behind it close up.
    pub(crate) fn remove(&mut self, at: usize) -> T
        requires { at < length self.old }
        ensures items { self.new ≡ remove self.old at }
        ensures value { (d : T) → result ≡ slice_index_or self.old at d }
    {
        self.items.remove(at)
    }

    /// Puts an entry in the place of another.
    pub(crate) fn set(&mut self, at: usize, entry: T)
        requires { at < length self.old }
        ensures { self.new ≡ insert (remove self.old at) at entry }
    {
        self.items[at] = entry;
    }

    /// Moves the upper half of a full row to an empty one.
    pub(crate) fn split(&mut self, high: &mut Row<T>)
        requires full { length self.old ≡ 64 }
        requires empty { high.old ≡ [] }
        ensures low { self.new ≡ take 32 self.old }
        ensures high { high.new ≡ drop 32 self.old }
    {
        match high.items.extend_from_slice(&self.items[ROW / 2..]) {
            Ok(()) => {}
            Err(_) => unreachable!(),
        }
        self.items.truncate(ROW / 2);
    }

    /// Moves all entries of the next row here.
    pub(crate) fn join(&mut self, next: &mut Row<T>)
        requires room { length self.old + length next.old ≤ 64 }
        ensures items { self.new ≡ self.old ++ next.old }
        ensures next { next.new ≡ [] }
    {
        match self.items.append(&mut next.items) {
            Ok(()) => {}
            Err(_) => unreachable!(),
        }
    }
}

/// Puts an item in, where there is room. LLVM makes a `memmove` of a turn by one, where
/// `Vec::insert` moves entry by entry.
pub(crate) fn put_in<X>(items: &mut Vec<X>, at: usize, item: X)
    requires at { at ≤ vec_len items.old }
    requires room { vec_len items.old < vec_capacity items.old }
    ensures items { items.new.items ≡ insert items.old.items at item }
    ensures len { vec_len items.new ≡ vec_len items.old + 1 }
    ensures capacity { vec_capacity items.new ≡ vec_capacity items.old }
{
    items.push_reserved(item);
    turn_last(items, at);
}

/// Puts the last item at a place, and those from there on behind it.
fn turn_last<X>(items: &mut [X], at: usize)
    requires { at < length items.old }
    ensures { (xs : List X) (x : X) → items.old ≡ xs ++ x ∷ [] → items.new ≡ insert xs at x }
{
    items[at..].rotate_right(1);
}

/// How many entries stand below the key: those of whole blocks, and the rest in the next block.
fn below_in<T: RowEntry>(items: &[T], key: u128) -> usize
    requires { Rises T.rank items.now }
    ensures { IsRankAt T.rank key items.now result }
{
    let start = blocks_below(items, key) * BLOCK;
    let rest = &items[start..];
    start + count_below(&rest[..rest.len().min(BLOCK)], key)
}

/// How many blocks stand below the key, by their last entries. What a key tells is added, so that
/// LLVM makes no branch of it.
fn blocks_below<T: RowEntry>(items: &[T], key: u128) -> usize
    requires { Rises T.rank items.now }
    ensures within { result * 8 ≤ length items.now }
    ensures before { (d : T) → 0 < result
        → T.rank (slice_index_or items.now (result * 8 - 1) d) < key }
    ensures after { (d : T) → result * 8 + 7 < length items.now
        → key ≤ T.rank (slice_index_or items.now (result * 8 + 7) d) }
{
    let mut blocks = 0;
    let mut at = 0;
    while at < items.len() / BLOCK {
        let last = at * BLOCK + (BLOCK - 1);
        if items[last].key() < key {
            blocks += 1;
        }
        at += 1;
    }
    blocks
}

/// How many entries stand below the key. All are looked at, and what a key tells is added.
fn count_below<T: RowEntry>(items: &[T], key: u128) -> usize
    requires { Rises T.rank items.now }
    ensures { IsRankAt T.rank key items.now result }
{
    let mut low = 0;
    let mut at = 0;
    while at < items.len() {
        if items[at].key() < key {
            low += 1;
        }
        at += 1;
    }
    low
}

/// The greater of two weights.
pub(crate) fn greater(one: u64, other: u64) -> u64
    ensures { result ≡ max one other }
{
    if one < other { other } else { one }
}

/// The greatest weight, which is `most` or less. The first that weighs `most` ends the walk.
fn greatest_in<T: RowEntry>(items: &[T], measure: T::Measure, most: u64) -> u64
    requires { greatest_weight (T.weight measure) items.now ≤ most }
    ensures { result ≡ greatest_weight (T.weight measure) items.now }
{
    let mut top = 0;
    let mut at = items.len();
    while at > 0 {
        at -= 1;
        let weight = items[at].weight(measure);
        if weight == most {
            return weight;
        }
        if weight > top {
            top = weight;
        }
    }
    top
}

/// The first, from a place on, that weighs enough.
fn heavy_in<T: RowEntry>(items: &[T], measure: T::Measure, from: usize, least: u64) -> Option<T>
    ensures { result ≡ find (weighs (T.weight measure) least) (drop from items.now) }
{
    let mut at = from;
    while at < items.len() {
        if items[at].weight(measure) >= least {
            return Some(items[at]);
        }
        at += 1;
    }
    None
}

/// The first that weighs enough, or else the greatest weight.
fn heavy_or_top<T: RowEntry>(items: &[T], measure: T::Measure, least: u64) -> Result<T, u64>
    ensures found { IfOk result (λ x. find (weighs (T.weight measure) least) items.now ≡ Some x) }
    ensures none { OnErr result (find (weighs (T.weight measure) least) items.now ≡ None) }
    ensures top { IfErr result (λ top. top ≡ greatest_weight (T.weight measure) items.now) }
{
    let mut top = 0;
    let mut at = 0;
    while at < items.len() {
        let weight = items[at].weight(measure);
        if weight >= least {
            return Ok(items[at]);
        }
        top = greater(top, weight);
        at += 1;
    }
    Err(top)
}
