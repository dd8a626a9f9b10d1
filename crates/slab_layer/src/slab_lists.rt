//! The slabs of a cache: in order, with those listed apart that have a chunk at home.
ghost use Rattle.std.specs.Prelude.{
  ◌≡◌,
  ◌≢◌,
  ℕ,
  ◌<◌,
  ◌≤◌,
  ◌↔◌,
  [],
  true,
  false,
  length,
  take,
  drop,
  slice_index_or,
  slice_set,
  All,
  Any,
  IsTrue,
  MatchOption,
  OnOk,
};
ghost use Rattle.std.specs.List.{insert, remove};
ghost use Rattle.deed_core.specs.Extent.{Overlap, end_of};
ghost use Rattle.slab_layer.specs.Slab.{
  SlabState,
  IsSlab,
  IsAllOut,
  IsComplete,
  IsPartial,
  IsLowestIdle,
  chunk_at,
  with_chunk,
};
ghost use Rattle.slab_layer.specs.Calls.{StandsAt, IsLowest, IsNext};
ghost use Rattle.slab_layer.specs.Sums.{AreSums};

use crate::idle_slabs::IdleSlabs;
use crate::reports::SlabReport;
use crate::search::{find_chunk, index_for, lowest, overlaps};
use crate::slabs::Slab;
use crate::standings::Standing;
use deed_core::{Deed, Range, Stored};
use std::alloc::{AllocError, Global};
use std::collections::VecDeque;
use std::marker::Model;

/// Slabs in order of their bases. The lowest goes first where all are reaped, which moves none in
/// a deque. What lies in them is counted.
pub(crate) struct SlabList<D: Deed> {
    slabs: VecDeque<Slab<D>>,
    /// The slabs with a chunk at home.
    idle: IdleSlabs,
    /// What all of them have.
    sums: SlabReport,
}

impl<D: Deed> Model for SlabList<D> {
    ghost use Rattle.std.specs.Prelude.{min};
    ghost use Rattle.std.specs.VecDeque.{deque_capacity};
    ghost use Rattle.slab_layer.specs.Bases.{SlabListState};
    ghost use Rattle.slab_layer.specs.Sums.{IsSlabList};

    ghost Value = { SlabListState };

    ghost view = { λ l. record {
      items = l.slabs.items;
      room = min (deque_capacity l.slabs) l.idle.room;
    } };

    ghost invariant = { λ l. IsSlabList l.slabs.items l.idle l.sums };
}

impl<D: Deed> SlabList<D> {
    /// No slab, and no room for one.
    pub(crate) fn new(alloc: Global) -> SlabList<D>
        ensures items { result.items ≡ [] }
        ensures room { result.room ≡ 0 }
    {
        SlabList {
            slabs: VecDeque::new(alloc),
            idle: IdleSlabs::new(alloc),
            sums: SlabReport {
                idle: 0,
                gap: 0,
                tail: 0,
            },
        }
    }

    /// Makes room for one more.
    pub(crate) fn reserve(&mut self, alloc: Global) -> Result<(), AllocError>
        ensures room { OnOk result (length self.new.items < self.new.room) }
        ensures kept { self.old.room ≤ self.new.room }
        ensures items { self.new.items ≡ self.old.items }
    {
        let Some(room) = self.slabs.len().checked_add(1) else {
            return Err(AllocError);
        };
        self.slabs.reserve(1)?;
        self.idle.reserve(alloc, room)
    }

    /// For what goes along all of them.
    pub(crate) fn as_deque(&self) -> &VecDeque<Slab<D>>
        ensures { result.now.items ≡ self.now.items }
    {
        &self.slabs
    }

    /// What lies in them, in units.
    pub(crate) fn report(&self) -> SlabReport
        ensures { AreSums self.now.items result }
    {
        self.sums
    }

    /// The lowest slab with all chunks at home.
    pub(crate) fn lowest_complete(&self) -> Option<usize>
        ensures { MatchOption result (All (λ s. ¬ IsComplete s) self.now.items)
            (λ i. (s : SlabState) × IsLowest IsComplete i s self.now.items) }
    {
        lowest(&self.slabs, self.idle.complete())
    }

    /// The lowest slab with a chunk at home and another out.
    fn lowest_partial(&self) -> Option<usize>
        ensures { MatchOption result (All (λ s. ¬ IsPartial s) self.now.items)
            (λ i. (s : SlabState) × IsLowest IsPartial i s self.now.items) }
    {
        lowest(&self.slabs, self.idle.partial())
    }

    /// The slab that gives the next chunk.
    fn next_slab(&self) -> Option<usize>
        ensures { MatchOption result (All (λ s. ¬ IsPartial s) self.now.items
            × All (λ s. ¬ IsComplete s) self.now.items)
            (λ i. (s : SlabState) × IsNext i s self.now.items) }
    {
        let Some(i) = self.lowest_partial() else {
            return self.lowest_complete();
        };
        Some(i)
    }

    /// The next chunk: its slab's index, and its place in it.
    pub(crate) fn next_chunk(&self) -> Option<(usize, usize)>
        requires { All (λ s. 0 < length s.home) self.now.items }
        ensures { MatchOption result (All IsAllOut self.now.items)
            (λ p. (s : SlabState) × IsNext p.0 s self.now.items × IsLowestIdle p.1 s.home) }
    {
        let i = self.next_slab()?;
        let j = self.slabs[i].first_idle()?;
        Some((i, j))
    }

    /// The chunk that covers this range of this root: its slab's index, and its place in it.
    pub(crate) fn find_chunk(&self, root: u32, range: Range) -> Option<(usize, usize)>
        requires { All IsSlab self.now.items }
        ensures { MatchOption result
            (All (λ s. (j : ℕ) → j < length s.home
            → chunk_at s j ≢ record { root = root; range = range }) self.now.items)
            (λ p. (s : SlabState) × StandsAt p.0 s self.now.items × (p.1 < length s.home)
            × (chunk_at s p.1 ≡ record { root = root; range = range })) }
    {
        find_chunk(&self.slabs, root, range)
    }

    /// Whether a slab has a unit in common with the range.
    pub(crate) fn overlaps(&self, range: Range) -> bool
        ensures { IsTrue result ↔ Any (λ s. Overlap s.span.range range) self.now.items }
    {
        overlaps(&self.slabs, range)
    }

    /// The first index from which on no slab begins below `base`.
    pub(crate) fn index_for(&self, base: u64) -> usize
        ensures within { result ≤ length self.now.items }
        ensures below { (k : ℕ) (d : SlabState) → k < result
            → (slice_index_or self.now.items k d).span.range.base < base }
        ensures above { result < length self.now.items → (d : SlabState)
            → base ≤ (slice_index_or self.now.items result d).span.range.base }
    {
        index_for(&self.slabs, base)
    }

    /// Whether the j-th chunk of the i-th slab is at home.
    pub(crate) fn is_home(&self, i: usize, j: usize) -> bool
        requires { (s : SlabState) × StandsAt i s self.now.items × (j < length s.home) }
        ensures { (s : SlabState) → StandsAt i s self.now.items
            → result ≡ slice_index_or s.home j false }
    {
        self.slabs[i].is_home(j)
    }

    /// Takes the j-th chunk of the i-th slab, which is at home. It takes no memory.
    pub(crate) fn take(&mut self, i: usize, j: usize) -> Stored<D>
        requires { (s : SlabState) × StandsAt i s self.old.items × (j < length s.home)
            × (slice_index_or s.home j false ≡ true) }
        ensures chunk { (s : SlabState) → StandsAt i s self.old.items → result ≡ chunk_at s j }
        ensures items { (s : SlabState) → StandsAt i s self.old.items
            → self.new.items ≡ slice_set self.old.items i (with_chunk s j false) }
        ensures room { self.new.room ≡ self.old.room }
    {
        let slab = &mut self.slabs[i];
        let was = slab.standing();
        let deed = slab.take(j);
        self.sums.idle -= slab.chunk();
        self.idle.relist(slab.span().base(), was, slab.standing());
        deed
    }

    /// Puts the j-th chunk of the i-th slab back, which is out. It takes no memory.
    pub(crate) fn put(&mut self, i: usize, j: usize, deed: Stored<D>)
        requires { (s : SlabState) × StandsAt i s self.old.items × (j < length s.home)
            × (slice_index_or s.home j false ≡ false) × (deed ≡ chunk_at s j) }
        ensures items { (s : SlabState) → StandsAt i s self.old.items
            → self.new.items ≡ slice_set self.old.items i (with_chunk s j true) }
        ensures room { self.new.room ≡ self.old.room }
    {
        let slab = &mut self.slabs[i];
        let before = slab.standing();
        slab.put(j, deed);
        self.sums.idle += slab.chunk();
        self.idle
            .relist(slab.span().base(), before, slab.standing());
    }

    /// Puts in a slab where it belongs. It takes no memory.
    pub(crate) fn insert(&mut self, place: usize, slab: Slab<D>)
        requires room { length self.old.items < self.old.room }
        requires within { place ≤ length self.old.items }
        requires below { All (λ s. end_of s.span.range ≤ slab.span.range.base)
            (take place self.old.items) }
        requires above { All (λ s. end_of slab.span.range ≤ s.span.range.base)
            (drop place self.old.items) }
        ensures items { self.new.items ≡ insert self.old.items place slab }
        ensures room { self.old.room ≤ self.new.room }
    {
        // As if it had come with all its chunks out: so it stands in no list.
        self.idle
            .relist(slab.span().base(), Standing::AllOut, slab.standing());
        self.sums.add(&slab);
        match self.slabs.insert(place, slab) {
            Ok(()) => {}
            Err(_) => unreachable!(),
        }
    }

    /// Takes a slab out. Its room stays. It takes no memory.
    pub(crate) fn remove(&mut self, i: usize) -> Slab<D>
        requires { i < length self.old.items }
        ensures slab { result ≡ slice_index_or self.old.items i result }
        ensures items { self.new.items ≡ remove self.old.items i }
        ensures room { self.new.room ≡ self.old.room }
    {
        let slab = self.slabs.remove(i).unwrap();
        self.idle
            .relist(slab.span().base(), slab.standing(), Standing::AllOut);
        self.sums.subtract(&slab);
        slab
    }

    /// The slabs, no longer listed.
    pub(crate) fn into_slabs(self) -> VecDeque<Slab<D>>
        ensures { result.items ≡ self.items }
    {
        let SlabList {
            slabs,
            idle: _,
            sums: _,
        } = self;
        slabs
    }
}
