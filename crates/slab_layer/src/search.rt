//! Searches in the slabs of a cache.
ghost use Rattle.std.specs.Prelude.{
  ◌≡◌,
  ◌≢◌,
  ℕ,
  ◌<◌,
  ◌≤◌,
  ◌↔◌,
  Bool,
  true,
  false,
  nat_lt,
  length,
  slice_index_or,
  All,
  AllPairs,
  Any,
  IsTrue,
  MatchOption,
};
ghost use Rattle.deed_core.specs.Extent.{Overlap};
ghost use Rattle.slab_layer.specs.Slab.{SlabState, IsSlab, chunk_at};
ghost use Rattle.slab_layer.specs.Cache.{IsBelow};
ghost use Rattle.slab_layer.specs.declared.standings.Standing.{Standing};
ghost use Rattle.slab_layer.specs.Standings.{standing_of};
ghost use Rattle.slab_layer.specs.Bases.{bases_where};
ghost use Rattle.slab_layer.specs.Calls.{StandsAt, IsLowest};

use crate::bases::Bases;
use crate::slabs::Slab;
use deed_core::{Deed, Range};
use std::collections::VecDeque;

/// The lowest of the slabs whose bases are listed.
pub(crate) fn lowest<D: Deed>(slabs: &VecDeque<Slab<D>>, bases: &Bases) -> Option<usize>
    requires ascending { AllPairs IsBelow slabs.now.items }
    requires some { All (λ s. 0 < s.span.range.len) slabs.now.items }
    ensures { (has : Standing → Bool) → bases.now.items ≡ bases_where has slabs.now.items
        → MatchOption result (All (λ s. has (standing_of s) ≡ false) slabs.now.items)
        (λ i. (s : SlabState) × IsLowest (λ t. has (standing_of t) ≡ true) i s
        slabs.now.items) }
{
    let base = bases.lowest()?;
    Some(index_for(slabs, base))
}

/// The chunk that covers this range of this root: its slab's index, and its place in it.
pub(crate) fn find_chunk<D: Deed>(
    slabs: &VecDeque<Slab<D>>,
    root: u32,
    range: Range,
) -> Option<(usize, usize)>
    requires ascending { AllPairs IsBelow slabs.now.items }
    requires slabs { All IsSlab slabs.now.items }
    ensures { MatchOption result
        (All (λ s. (j : ℕ) → j < length s.home
        → chunk_at s j ≢ record { root = root; range = range }) slabs.now.items)
        (λ p. (s : SlabState) × StandsAt p.0 s slabs.now.items × (p.1 < length s.home)
        × (chunk_at s p.1 ≡ record { root = root; range = range })) }
{
    let i = index_for(slabs, range.end()).checked_sub(1)?;
    let j = slabs[i].place_of(root, range)?;
    Some((i, j))
}

/// Whether a slab has a unit in common with the range: the last that begins below the range's end,
/// if any.
pub(crate) fn overlaps<D: Deed>(slabs: &VecDeque<Slab<D>>, range: Range) -> bool
    requires { AllPairs IsBelow slabs.now.items }
    ensures { IsTrue result ↔ Any (λ s. Overlap s.span.range range) slabs.now.items }
{
    match index_for(slabs, range.end()).checked_sub(1) {
        None => false,
        Some(i) => slabs[i].span().overlaps(&range),
    }
}

/// The first index from which on no slab begins below `base`.
pub(crate) fn index_for<D: Deed>(slabs: &VecDeque<Slab<D>>, base: u64) -> usize
    requires { AllPairs IsBelow slabs.now.items }
    ensures within { result ≤ length slabs.now.items }
    ensures below { (k : ℕ) (d : SlabState) → k < result
        → (slice_index_or slabs.now.items k d).span.range.base < base }
    ensures above { result < length slabs.now.items → (d : SlabState)
        → base ≤ (slice_index_or slabs.now.items result d).span.range.base }
{
    slabs.partition_point(
        |slab: &Slab<D>| -> bool
            ensures { result ≡ nat_lt slab.now.span.range.base base }
        { slab.span().base() < base },
    )
}
