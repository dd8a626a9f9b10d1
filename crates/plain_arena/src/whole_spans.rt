//! Owned spans that are wholly free.
ghost use Rattle.std.specs.Prelude.{◌≡◌, ◌+◌, ◌<◌, Contains, HoldsAt, MatchOption, length};
ghost use Rattle.plain_arena.specs.Found.{LowestSoFar};

use crate::held_ranges::{HeldRange, held_range_at};
use deed_core::{Deed, Stored};

/// An owned span that is a free range, and where it stands in both lists.
#[derive(Clone, Copy)]
pub(crate) struct Whole {
    pub at: usize,
    pub free_at: usize,
    pub span: HeldRange,
}

/// Where the free range with this root and range stands.
fn index_of<D: Deed>(free: &[Stored<D>], range: HeldRange) -> Option<usize>
    ensures { MatchOption result (¬ Contains free.now range)
        (λ at. (at < length free.now) × HoldsAt (λ r. r ≡ range) free.now at) }
{
    for at in 0..free.len() {
        if held_range_at(free, at) == range {
            return Some(at);
        }
    }
    None
}

/// The span that stands at `at` among the owned ones, if it is a free range.
fn whole_at<D: Deed>(free: &[Stored<D>], at: usize, span: HeldRange) -> Option<Whole>
    ensures { MatchOption result (¬ Contains free.now span)
        (λ whole. (whole ≡ record { at = at; free_at = whole.free_at; span = span })
        × (whole.free_at < length free.now) × HoldsAt (λ r. r ≡ span) free.now whole.free_at) }
{
    let free_at = index_of(free, span)?;
    Some(Whole { at, free_at, span })
}

/// The lower of one span more than `lowest` is the lowest of. The free ranges are searched only for
/// a span that is lower than the lowest so far.
fn lower<D: Deed>(
    owned: &[HeldRange],
    free: &[Stored<D>],
    at: usize,
    lowest: Option<Whole>,
) -> Option<Whole>
    requires at { at < length owned.now }
    requires lowest { LowestSoFar owned.now free.now at lowest }
    ensures { LowestSoFar owned.now free.now (at + 1) result }
{
    let span = owned[at];
    let Some(other) = lowest else {
        return whole_at(free, at, span);
    };
    if other.span.base() <= span.base() {
        return Some(other);
    }
    Some(whole_at(free, at, span).unwrap_or(other))
}

/// The lowest owned span that is a free range.
pub(crate) fn lowest_whole<D: Deed>(owned: &[HeldRange], free: &[Stored<D>]) -> Option<Whole>
    ensures { LowestSoFar owned.now free.now (length owned.now) result }
{
    let mut lowest = None;
    for at in 0..owned.len() {
        lowest = lower(owned, free, at, lowest);
    }
    lowest
}
