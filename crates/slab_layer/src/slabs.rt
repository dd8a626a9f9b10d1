//! Slabs: spans cut into a colour gap, chunks and a tail.
ghost use Rattle.std.specs.Prelude.{
  ◌≡◌,
  ◌≢◌,
  ℕ,
  ◌+◌,
  ◌*◌,
  ◌/◌,
  ◌<◌,
  ◌≤◌,
  ◌↔◌,
  [],
  true,
  false,
  length,
  All,
  slice_index_or,
  IsTrue,
  IfOk,
  IfErr,
  MatchOption,
};
ghost use Rattle.std.specs.Option.{option_to_list};
ghost use Rattle.deed_core.specs.Covering.{units_held};
ghost use Rattle.deed_core.specs.Extent.{IsRange};
ghost use Rattle.slab_layer.specs.Standings.{standing_of};
ghost use Rattle.slab_layer.specs.Slab.{
  SlabState,
  IsSlab,
  IsComplete,
  IsLowestIdle,
  chunk_at,
  new_slab,
  with_chunk,
  gap_of,
  tail_of,
  idle_chunks_by,
  deeds_in,
};

use crate::parts::{cut, join};
use crate::rows::{chop, first_some, unchop};
use crate::standings::Standing;
use deed_core::{Deed, Range, Stored};
use std::alloc::Global;
use std::marker::Model;
use std::mem;

/// A span, cut. The deed of each chunk lies at its place while the chunk is at home.
pub(crate) struct Slab<D: Deed> {
    root: u32,
    span: Range,
    colour: u64,
    chunk: u64,
    /// What is left before the first chunk.
    gap: Option<Stored<D>>,
    /// The deed of each chunk that is at home, at the chunk's place.
    home: Vec<Option<Stored<D>>>,
    /// What is left behind the last chunk.
    tail: Option<Stored<D>>,
    /// How many chunks are at home.
    idle_count: usize,
}

impl<D: Deed> Model for Slab<D> {
    ghost use Rattle.std.specs.Prelude.{map, is_some};
    ghost use Rattle.slab_layer.specs.Slab.{SlabState, IsStored};

    ghost Value = { SlabState };

    ghost view = { λ s. record {
      span = record { root = s.root; range = s.span };
      colour = s.colour;
      chunk = s.chunk;
      home = map is_some s.home.items;
    } };

    ghost invariant = { λ s. IsStored (record {
      span = record { root = s.root; range = s.span };
      colour = s.colour;
      chunk = s.chunk;
      home = map is_some s.home.items;
    }) s.gap s.home.items s.tail s.idle_count };
}

impl<D: Deed> Slab<D> {
    /// Cuts a span. Out of memory, the span is whole again.
    pub(crate) fn new(
        alloc: Global,
        deed: Stored<D>,
        colour: u64,
        chunk: u64,
    ) -> Result<Slab<D>, Stored<D>>
        requires some { 0 < chunk }
        requires chunks { 0 < deed.range.len / chunk }
        requires room { colour + deed.range.len / chunk * chunk ≤ deed.range.len }
        ensures ok { IfOk result (λ slab. slab ≡ new_slab deed colour chunk) }
        ensures handed_back { IfErr result (λ same. same ≡ deed) }
    {
        let root = deed.root();
        let span = deed.range();
        let count = (span.len() / chunk) as usize;
        let Ok(mut home) = Vec::with_capacity(alloc, count) else {
            return Err(deed);
        };
        let (gap, rest) = match cut(Some(deed), colour) {
            Ok(parts) => parts,
            Err(same) => {
                home.destroy_empty();
                return Err(same.unwrap());
            }
        };
        match chop(&mut home, rest.unwrap(), chunk, count) {
            Ok(tail) => Ok(Slab {
                root,
                span,
                colour,
                chunk,
                gap,
                home,
                tail,
                idle_count: count,
            }),
            Err(rest) => {
                home.destroy_empty();
                Err(join(gap, Some(rest)).unwrap())
            }
        }
    }

    /// The whole span again.
    pub(crate) fn into_span(self) -> Stored<D>
        requires { IsComplete self }
        ensures { result ≡ self.span }
    {
        let Slab {
            root: _,
            span,
            colour: _,
            chunk: _,
            gap,
            mut home,
            tail,
            idle_count: _,
        } = self;
        // For its clause: the span has a unit.
        let _ = span.len();
        let body = unchop(&mut home, tail);
        home.destroy_empty();
        join(gap, body).unwrap()
    }

    /// The whole range that it was made of: its chunks, and what is left at the ends.
    pub(crate) fn span(&self) -> Range
        ensures value { result ≡ self.now.span.range }
        ensures range { IsRange result }
        ensures shape { IsSlab self.now }
    {
        // For its clause: the span ends at 2^62 or below.
        let _ = self.span.len();
        self.span
    }

    /// The units of a chunk.
    pub(crate) fn chunk(&self) -> u64
        ensures { result ≡ self.now.chunk }
    {
        self.chunk
    }

    /// The lowest chunk at home.
    pub(crate) fn first_idle(&self) -> Option<usize>
        ensures { MatchOption result (All (λ b. b ≡ false) self.now.home)
            (λ j. IsLowestIdle j self.now.home) }
    {
        first_some(&self.home)
    }

    /// Whether none, some or all of its chunks are at home. It looks at none of them.
    pub(crate) fn standing(&self) -> Standing
        ensures { result ≡ standing_of self.now }
    {
        if self.idle_count == self.home.len() {
            return Standing::Complete;
        }
        if self.idle_count == 0 {
            return Standing::AllOut;
        }
        Standing::Partial
    }

    /// Whether the chunk of this index is at home.
    pub(crate) fn is_home(&self, j: usize) -> bool
        requires { j < length self.now.home }
        ensures { result ≡ slice_index_or self.now.home j false }
    {
        self.home[j].is_some()
    }

    /// Which chunk covers this range of this root.
    #[tactic(auto, using(crate::proofs::SlabLemmas::places))]
    pub(crate) fn place_of(&self, root: u32, range: Range) -> Option<usize>
        ensures { MatchOption result
            ((j : ℕ) → j < length self.now.home
            → chunk_at self.now j ≢ record { root = root; range = range })
            (λ j. (j < length self.now.home)
            × (chunk_at self.now j ≡ record { root = root; range = range })) }
    {
        let first = self.span.base() + self.colour;
        if root != self.root || range.len() != self.chunk || range.base() < first {
            return None;
        }
        let offset = range.base() - first;
        if offset % self.chunk != 0 {
            return None;
        }
        if offset / self.chunk >= self.home.len() as u64 {
            return None;
        }
        Some((offset / self.chunk) as usize)
    }

    /// Takes a chunk that is at home.
    pub(crate) fn take(&mut self, j: usize) -> Stored<D>
        requires within { j < length self.old.home }
        requires idle { slice_index_or self.old.home j false ≡ true }
        ensures chunk { result ≡ chunk_at self.old j }
        ensures after { self.new ≡ with_chunk self.old j false }
    {
        self.idle_count -= 1;
        mem::replace(&mut self.home[j], None).unwrap()
    }

    /// Puts a chunk back.
    pub(crate) fn put(&mut self, j: usize, deed: Stored<D>)
        requires within { j < length self.old.home }
        requires is_out { slice_index_or self.old.home j false ≡ false }
        requires chunk { deed ≡ chunk_at self.old j }
        ensures { self.new ≡ with_chunk self.old j true }
    {
        // For its clause: a `usize` holds the number of all chunks.
        let _ = self.home.len();
        self.idle_count += 1;
        match mem::replace(&mut self.home[j], Some(deed)) {
            None => {}
            Some(_) => unreachable!(),
        }
    }

    /// The units of the chunks at home.
    pub(crate) fn idle(&self) -> u64
        ensures value { result ≡ units_held (idle_chunks_by (chunk_at self.now) self.now) }
        ensures bound { result ≤ self.now.span.range.len }
    {
        // For its clause: the span's units fit a `u64`, and the chunks are no more.
        let _ = self.span.len();
        self.idle_count as u64 * self.chunk
    }

    /// The units before the first chunk.
    pub(crate) fn gap(&self) -> u64
        ensures value { result ≡ units_held (option_to_list (gap_of self.now)) }
        ensures bound { result ≤ self.now.span.range.len }
    {
        self.colour
    }

    /// The units behind the last chunk.
    pub(crate) fn tail(&self) -> u64
        ensures value { result ≡ units_held (option_to_list (tail_of self.now)) }
        ensures bound { result ≤ self.now.span.range.len }
    {
        match &self.tail {
            None => 0,
            Some(deed) => deed.range().len(),
        }
    }

    /// Whether no deed lies here.
    pub(crate) fn is_empty(&self) -> bool
        ensures { IsTrue result ↔ (deeds_in self.now ≡ []) }
    {
        if self.gap.is_some() {
            return false;
        }
        if self.tail.is_some() {
            return false;
        }
        self.first_idle().is_none()
    }

    /// Ends a slab in which no deed lies.
    pub(crate) fn discard(self)
        requires { deeds_in self ≡ [] }
    {
        let Slab {
            root: _,
            span: _,
            colour: _,
            chunk: _,
            gap,
            mut home,
            tail,
            idle_count: _,
        } = self;
        match gap {
            None => {}
            Some(_) => unreachable!(),
        }
        match tail {
            None => {}
            Some(_) => unreachable!(),
        }
        while let Some(chunk) = home.pop() {
            match chunk {
                None => {}
                Some(_) => unreachable!(),
            }
        }
        home.destroy_empty();
    }
}
