//! The free neighbors of a range, inside its span.
ghost use Rattle.std.specs.Prelude.{◌≡◌, ◌≢◌, ◌+◌, ◌<◌, ◌≤◌, All, HoldsAt, MatchOption, IfSome};
ghost use Rattle.std.specs.Prelude.{length, vec_len, vec_capacity};
ghost use Rattle.std.specs.Option.{option_map_or};
ghost use Rattle.deed_core.specs.Extent.{end_of};
ghost use Rattle.deed_core.specs.Holding.{GoesOn};
ghost use Rattle.tag_arena.specs.Layout.{IsPartOf};
ghost use Rattle.tag_arena.specs.Neighbors.{IsBeside, Merges, TakesLeft, TakesRight};

use crate::held_ranges::HeldRange;
use deed_core::{Deed, Stored};

/// Where the range that ends at `base` stands.
fn ends_at<D: Deed>(free: &[Stored<D>], base: u64) -> Option<usize>
    ensures { MatchOption result (All (λ r. end_of r.range ≢ base) free.now)
        (λ at. (at < length free.now) × HoldsAt (λ r. end_of r.range ≡ base) free.now at) }
{
    for at in 0..free.len() {
        if free[at].range().end() == base {
            return Some(at);
        }
    }
    None
}

/// Where the range that begins at `end` stands.
fn starts_at<D: Deed>(free: &[Stored<D>], end: u64) -> Option<usize>
    ensures { MatchOption result (All (λ r. r.range.base ≢ end) free.now)
        (λ at. (at < length free.now) × HoldsAt (λ r. r.range.base ≡ end) free.now at) }
{
    for at in 0..free.len() {
        if free[at].range().base() == end {
            return Some(at);
        }
    }
    None
}

/// Takes out the free range that ends at `base`, unless the span begins there.
fn take_left<D: Deed>(free: &mut Vec<Stored<D>>, start: u64, base: u64) -> Option<Stored<D>>
    requires { start ≤ base }
    ensures taken { TakesLeft start base free.old.items result free.new.items }
    ensures len { vec_len free.new ≤ vec_len free.old }
    ensures capacity { vec_capacity free.new ≡ vec_capacity free.old }
{
    if base == start {
        return None;
    }
    let at = ends_at(free, base)?;
    Some(free.remove(at))
}

/// Takes out the free range that begins at `end`, unless the span ends there.
fn take_right<D: Deed>(free: &mut Vec<Stored<D>>, end: u64, limit: u64) -> Option<Stored<D>>
    requires { end ≤ limit }
    ensures taken { TakesRight end limit free.old.items result free.new.items }
    ensures len { vec_len free.new ≤ vec_len free.old }
    ensures capacity { vec_capacity free.new ≡ vec_capacity free.old }
{
    if end == limit {
        return None;
    }
    let at = starts_at(free, end)?;
    Some(free.remove(at))
}

/// The deed and the one before it, if there is one.
fn join_left<D: Deed>(left: Option<Stored<D>>, deed: Stored<D>) -> Stored<D>
    requires { IfSome left (λ left. GoesOn left deed) }
    ensures root { result.root ≡ deed.root }
    ensures base { result.range.base
        ≡ option_map_or (λ left. left.range.base) left deed.range.base }
    ensures end { end_of result.range ≡ end_of deed.range }
{
    match left {
        Some(left) => left.join(deed),
        None => deed,
    }
}

/// The deed and the one behind it, if there is one.
fn join_right<D: Deed>(deed: Stored<D>, right: Option<Stored<D>>) -> Stored<D>
    requires { IfSome right (λ right. GoesOn deed right) }
    ensures root { result.root ≡ deed.root }
    ensures base { result.range.base ≡ deed.range.base }
    ensures end { end_of result.range
        ≡ option_map_or (λ right. end_of right.range) right (end_of deed.range) }
{
    match right {
        Some(right) => deed.join(right),
        None => deed,
    }
}

/// The deed and its free neighbors inside the span, which are taken out.
pub(crate) fn merge<D: Deed>(
    free: &mut Vec<Stored<D>>,
    span: HeldRange,
    deed: Stored<D>,
) -> Stored<D>
    requires inside { IsPartOf span deed }
    requires some { 0 < deed.range.len }
    requires beside { All (IsBeside span) free.old.items }
    ensures merges { Merges span deed free.old.items result free.new.items }
    ensures len { vec_len free.new ≤ vec_len free.old }
    ensures capacity { vec_capacity free.new ≡ vec_capacity free.old }
{
    let range = deed.range();
    let left = take_left(free, span.base(), range.base());
    let right = take_right(free, range.end(), span.end());
    let low = join_left(left, deed);
    join_right(low, right)
}
