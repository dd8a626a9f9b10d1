//! Slab caches.
ghost use Rattle.std.specs.Prelude.{
  ◌≡◌,
  ℕ,
  ◌+◌,
  ◌*◌,
  ◌≤◌,
  ◌↔◌,
  [],
  Contains,
  IsTrue,
  IsOk,
  IfOk,
  IfErr,
  IfSome,
  OnOk,
};
ghost use Rattle.deed_core.specs.Covering.{
  covering_held,
  covering_tags,
  covers_tag,
  units_held,
};
ghost use Rattle.deed_core.specs.Weights.{Gains, Loses, WeighSame};
ghost use Rattle.slab_layer.specs.Cache.{
  IsSoundCache,
  IsChunkOf,
  IsSpanFor,
  IsSpanOf,
  chunk_of,
  next_colour as next_colour_of,
  idle_deeds,
  gaps,
  tails,
  deeds_of,
  chunks_out,
  span_tags,
};
ghost use Rattle.slab_layer.specs.Calls.{IsAlike, TakeOf, PutOf, AddOf, ReapOf};

use crate::faults::{AddFault, PutFault};
use crate::reports::{SlabReport, are_empty, discard_all};
use crate::slab_lists::SlabList;
use crate::slabs::Slab;
use deed_core::{Deed, Route, Segment, Stored};
use std::alloc::Global;
use std::marker::Model;

/// Chunks of k quanta, cut from slabs of one size. It can't be dropped: `close` ends it. Contracts
/// see it as `SlabCacheState`, its slabs in order of their bases.
pub struct SlabCache<D: Deed> {
    alloc: Global,
    arena: u32,
    k: u8,
    quantum: u64,
    slab_size: u64,
    slabs: SlabList<D>,
    /// Where the first chunk of the next slab begins.
    colour: u64,
}

impl<D: Deed> Model for SlabCache<D> {
    ghost use Rattle.slab_layer.specs.Cache.{SlabCacheState, IsSoundCache};

    ghost Value = { SlabCacheState };

    ghost view = { λ c. record {
      arena = c.arena;
      k = c.k;
      quantum = c.quantum;
      slab_size = c.slab_size;
      slabs = c.slabs.items;
      colour = c.colour;
    } };

    ghost invariant = { λ c. IsSoundCache (record {
      arena = c.arena;
      k = c.k;
      quantum = c.quantum;
      slab_size = c.slab_size;
      slabs = c.slabs.items;
      colour = c.colour;
    }) };
}

impl<D: Deed> SlabCache<D> {
    /// A cache with no slab, for chunks of `k` quanta of the arena. `quantum` and `slab_size` count
    /// units.
    pub fn new(alloc: Global, arena: u32, k: u8, quantum: u64, slab_size: u64) -> SlabCache<D>
        requires k { 1 ≤ k }
        requires quantum { 1 ≤ quantum }
        requires room { k * quantum ≤ slab_size }
        ensures { result ≡ record {
          arena = arena;
          k = k;
          quantum = quantum;
          slab_size = slab_size;
          slabs = [];
          colour = 0;
        } }
    {
        SlabCache {
            alloc,
            arena,
            k,
            quantum,
            slab_size,
            slabs: SlabList::new(alloc),
            colour: 0,
        }
    }

    /// The number of the arena that the spans come from. The clause `sound` tells what each cache
    /// keeps to whoever holds one of which nothing else is known, as behind a lock.
    pub fn arena(&self) -> u32
        ensures value { result ≡ self.now.arena }
        ensures sound { IsSoundCache self.now }
    {
        self.arena
    }

    /// The quanta of a chunk.
    pub fn k(&self) -> u8
        ensures { result ≡ self.now.k }
    {
        self.k
    }

    /// The units of a quantum.
    pub fn quantum(&self) -> u64
        ensures { result ≡ self.now.quantum }
    {
        self.quantum
    }

    /// The units of a slab.
    pub fn slab_size(&self) -> u64
        ensures { result ≡ self.now.slab_size }
    {
        self.slab_size
    }

    /// The lowest idle chunk of the lowest partial slab, else of the lowest complete one; none
    /// where every chunk is out. It takes no memory.
    ///
    /// That partial slabs are used before complete ones is from "The Slab Allocator", 1994; lowest
    /// first is our own choice.
    pub fn take(&mut self) -> Option<Segment<D>>
        // What it does.
        ensures taken { TakeOf self.old result self.new }
        ensures sound { IsSoundCache self.new }
        ensures alike { IsAlike self.old self.new }

        // What follows, for those above: what the chunk is, and, whatever is counted, that it is
        // out and no longer here.
        ensures chunk { IfSome result (λ t. IsChunkOf self.old t) }
        ensures out { IfSome result (λ t. Gains (chunks_out self.old) (chunks_out self.new) t) }
        ensures deeds { IfSome result (λ t.
            Loses (deeds_of self.old) (deeds_of self.new) t.holding) }
        ensures spans { span_tags self.new ≡ span_tags self.old }
    {
        let (i, j) = self.slabs.next_chunk()?;
        let deed = self.slabs.take(i, j);
        Some(Segment::new(self.arena, Route::Cached(self.k), deed.into_deed()))
    }

    /// Takes a chunk back. It takes no memory. A segment that is refused comes back as it was.
    pub fn put(&mut self, segment: Segment<D>) -> Result<(), PutFault<Segment<D>>>
        // What it does.
        ensures put { PutOf self.old segment result self.new }
        ensures sound { IsSoundCache self.new }
        ensures alike { IsAlike self.old self.new }

        // What follows, for those above: just what is out is taken, and, whatever is counted, it is
        // here and no longer out.
        ensures mine { IsOk result ↔ Contains (chunks_out self.old) segment }
        ensures out { OnOk result (Loses (chunks_out self.old) (chunks_out self.new) segment) }
        ensures deeds { OnOk result
            (Gains (deeds_of self.old) (deeds_of self.new) segment.holding) }
        ensures spans { span_tags self.new ≡ span_tags self.old }
    {
        if !self.is_routed_here(&segment) {
            return Err(PutFault::NotMine(segment));
        }
        let Some((i, j)) = self.slabs.find_chunk(segment.root(), segment.range()) else {
            return Err(PutFault::NotMine(segment));
        };
        if self.slabs.is_home(i, j) {
            return Err(PutFault::AtHome(segment));
        }
        self.slabs.put(i, j, Stored::new(segment.into_deed()));
        Ok(())
    }

    /// Cuts a span into a slab with the next colour, and gives its first chunk.
    ///
    /// The span begins on the quantum's grid, as each segment does that an arena of this quantum
    /// carves. The colours go up by one quantum from slab to slab, from 0 to the units that are in
    /// no chunk, and then begin again ("The Slab Allocator", 1994). A span that is refused comes
    /// back whole.
    pub fn add(&mut self, span: Segment<D>) -> Result<Segment<D>, AddFault<Segment<D>>>
        requires span { IsSpanFor self.old span }

        // What it does.
        ensures added { AddOf self.old span result self.new }
        ensures sound { IsSoundCache self.new }
        ensures alike { IsAlike self.old self.new }

        // What follows, for those above: what the chunk is, and, whatever is counted, that it is
        // out and that each other unit of the span is kept.
        ensures chunk { IfOk result (λ t. IsChunkOf self.old t) }
        ensures out { IfOk result (λ t. Gains (chunks_out self.old) (chunks_out self.new) t) }
        ensures deeds { IfOk result (λ t. (u : ℕ)
            → covering_held u (deeds_of self.old) + covers_tag u span
            ≡ covering_held u (deeds_of self.new) + covers_tag u t) }
        ensures spans { OnOk result (Gains (span_tags self.old) (span_tags self.new) span) }
    {
        let range = span.range();
        let chunk = self.chunk();
        let colour = self.colour;
        let next = self.next_colour();
        if range.len() != self.slab_size {
            return Err(AddFault::WrongSize(span));
        }
        if self.slabs.overlaps(range) {
            return Err(AddFault::Overlaps(span));
        }
        let Ok(()) = self.slabs.reserve(self.alloc) else {
            return Err(AddFault::NoMemory(span));
        };
        let deed = Stored::new(span.into_deed());
        let mut slab = match Slab::new(self.alloc, deed, colour, chunk) {
            Ok(slab) => slab,
            Err(same) => {
                let span = Segment::new(self.arena, Route::Direct, same.into_deed());
                return Err(AddFault::NoMemory(span));
            }
        };
        let first = slab.take(0);
        self.colour = next;
        let place = self.slabs.index_for(range.base());
        self.slabs.insert(place, slab);
        Ok(Segment::new(self.arena, Route::Cached(self.k), first.into_deed()))
    }

    /// Whether a segment is of the arena, and came by this cache.
    fn is_routed_here(&self, segment: &Segment<D>) -> bool
        ensures { IsTrue result
            ↔ ((segment.now.arena ≡ self.now.arena)
            × (segment.now.route ≡ Route.Cached self.now.k)) }
    {
        segment.arena() == self.arena && segment.route() == Route::Cached(self.k)
    }

    /// The units of a chunk.
    fn chunk(&self) -> u64
        ensures value { result ≡ chunk_of self.now }
        ensures sound { IsSoundCache self.now }
    {
        // For its clause: a slab's units fit a `u64`, and a chunk's are no more.
        let _ = self.slab_size();
        u64::from(self.k) * self.quantum
    }

    /// The colour after that of the next slab.
    fn next_colour(&self) -> u64
        ensures { result ≡ next_colour_of self.now }
    {
        let chunk = self.chunk();
        let spare = self.slab_size - self.slab_size / chunk * chunk;
        if self.quantum <= spare - self.colour {
            self.colour + self.quantum
        } else {
            0
        }
    }

    /// Takes the lowest slab with all chunks at home out, whole, to go back to the arena; none
    /// where each slab has a chunk out. It takes no memory.
    ///
    /// Only such slabs are reclaimed ("The Slab Allocator", 1994); lowest first is our own choice.
    pub fn reap(&mut self) -> Option<Segment<D>>
        // What it does.
        ensures reaped { ReapOf self.old result self.new }
        ensures sound { IsSoundCache self.new }
        ensures alike { IsAlike self.old self.new }

        // What follows, for those above: what the span is, and, whatever is counted, that it left
        // and no chunk of it was out.
        ensures span { IfSome result (λ t. IsSpanOf self.old t) }
        ensures out { WeighSame (chunks_out self.old) (chunks_out self.new) }
        ensures deeds { IfSome result (λ t. (u : ℕ)
            → covering_held u (deeds_of self.old)
            ≡ covering_held u (deeds_of self.new) + covers_tag u t) }
        ensures spans { IfSome result (λ t. Loses (span_tags self.old) (span_tags self.new) t) }
    {
        let i = self.slabs.lowest_complete()?;
        let slab = self.slabs.remove(i);
        Some(Segment::new(self.arena, Route::Direct, slab.into_span().into_deed()))
    }

    /// What lies in the cache, in units.
    pub fn report(&self) -> SlabReport
        ensures idle { result.idle ≡ units_held (idle_deeds self.now) }
        ensures gap { result.gap ≡ units_held (gaps self.now) }
        ensures tail { result.tail ≡ units_held (tails self.now) }
        ensures deeds { result.idle + result.gap + result.tail ≡ units_held (deeds_of self.now) }

        // Each unit of a slab is in one chunk, at home or out, in the gap or in the tail.
        ensures once { (u : ℕ) → covering_tags u (span_tags self.now) ≤ 1 }
        ensures tiled { (u : ℕ)
            → covering_held u (deeds_of self.now) + covering_tags u (chunks_out self.now)
            ≡ covering_tags u (span_tags self.now) }
    {
        self.slabs.report()
    }

    /// Ends the cache where no deed lies in it. Chunks that are out then have no slab to go back
    /// to.
    pub fn close(self) -> Result<(), SlabCache<D>>
        ensures empty { IsOk result ↔ (deeds_of self ≡ []) }
        ensures handed_back { IfErr result (λ same. same ≡ self) }
    {
        if !are_empty(self.slabs.as_deque()) {
            return Err(self);
        }
        let SlabCache {
            alloc: _,
            arena: _,
            k: _,
            quantum: _,
            slab_size: _,
            slabs,
            colour: _,
        } = self;
        discard_all(slabs.into_slabs());
        Ok(())
    }
}
