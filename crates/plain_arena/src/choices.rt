//! What a policy chooses among the free ranges.
ghost use Rattle.std.specs.Prelude.{◌≡◌, ◌+◌, ◌%◌, ◌^◌, ◌<◌, ◌≤◌, length, All};
ghost use Rattle.std.specs.Prelude.{MatchBool, IfSome};
ghost use Rattle.std.specs.Int.{IsPowerOfTwo};
ghost use Rattle.deed_core.specs.Extent.{IsRange};
ghost use Rattle.deed_core.specs.Request.{IsGood};
ghost use Rattle.tag_arena.specs.Choice.{IsChoice, IsBestChoice, IsNextChoice, ComesFirst};
ghost use Rattle.plain_arena.specs.Found.{BestSoFar, EarliestSoFar, IsPlaced, base_of};

use crate::held_ranges::{HeldRange, held_range_at};
use crate::places::least_in;
use crate::power_lists::instant;
use deed_core::{Deed, Request, Stored};
use tag_arena::Policy;

/// An index in the list of free ranges, the range there, and an address in it.
#[derive(Clone, Copy)]
pub(crate) struct Found {
    pub at: usize,
    pub range: HeldRange,
    pub base: u64,
}

/// Whether the first comes before the second, or at its place: by length, then by base, then by
/// address.
fn comes_first(first: &Found, second: &Found) -> bool
    ensures { MatchBool result
        (ComesFirst first.now.range first.now.base second.now.range second.now.base)
        (ComesFirst second.now.range second.now.base first.now.range first.now.base) }
{
    if first.range.len() != second.range.len() {
        first.range.len() < second.range.len()
    } else if first.range.base() != second.range.base() {
        first.range.base() < second.range.base()
    } else {
        first.base <= second.base
    }
}

/// The best of one range more than `best` is the best of.
fn better<D: Deed>(
    free: &[Stored<D>],
    quantum: u64,
    request: &Request,
    at: usize,
    best: Option<Found>,
) -> Option<Found>
    requires quantum { IsPowerOfTwo quantum }
    requires good { IsGood quantum request.now }
    requires at { at < length free.now }
    requires best { BestSoFar quantum request.now free.now at best }
    ensures { BestSoFar quantum request.now free.now (at + 1) result }
{
    let range = held_range_at(free, at);
    let Some(base) = least_in(request, quantum, range, 0) else {
        return best;
    };
    let found = Found { at, range, base };
    let Some(other) = best else {
        return Some(found);
    };
    if comes_first(&other, &found) {
        Some(other)
    } else {
        Some(found)
    }
}

/// The best range that serves the request, and its least address that does.
pub(crate) fn best<D: Deed>(free: &[Stored<D>], quantum: u64, request: &Request) -> Option<Found>
    requires quantum { IsPowerOfTwo quantum }
    requires good { IsGood quantum request.now }
    ensures choice { IsBestChoice quantum request.now free.now (base_of result) }
    ensures placed { IfSome result (IsPlaced quantum request.now free.now) }
{
    let mut best = None;
    for at in 0..free.len() {
        best = better(free, quantum, request, at, best);
    }
    best
}

/// The earliest of one range more than `earliest` is the earliest of.
fn earlier<D: Deed>(
    free: &[Stored<D>],
    quantum: u64,
    request: &Request,
    start: u64,
    at: usize,
    earliest: Option<Found>,
) -> Option<Found>
    requires quantum { IsPowerOfTwo quantum }
    requires good { IsGood quantum request.now }
    requires start { start ≤ 2 ^ 62 }
    requires at { at < length free.now }
    requires earliest { EarliestSoFar quantum request.now start free.now at earliest }
    ensures { EarliestSoFar quantum request.now start free.now (at + 1) result }
{
    let range = held_range_at(free, at);
    let Some(base) = least_in(request, quantum, range, start) else {
        return earliest;
    };
    let found = Found { at, range, base };
    let Some(other) = earliest else {
        return Some(found);
    };
    if other.base <= base {
        Some(other)
    } else {
        Some(found)
    }
}

/// The least address from `start` on that serves the request.
pub(crate) fn earliest<D: Deed>(
    free: &[Stored<D>],
    quantum: u64,
    request: &Request,
    start: u64,
) -> Option<Found>
    requires quantum { IsPowerOfTwo quantum }
    requires good { IsGood quantum request.now }
    requires start { start ≤ 2 ^ 62 }
    ensures { EarliestSoFar quantum request.now start free.now (length free.now) result }
{
    let mut earliest = None;
    for at in 0..free.len() {
        earliest = earlier(free, quantum, request, start, at, earliest);
    }
    earliest
}

/// The least address at or past the rover that serves, else the least that does.
fn next<D: Deed>(free: &[Stored<D>], rover: u64, quantum: u64, request: &Request) -> Option<Found>
    requires quantum { IsPowerOfTwo quantum }
    requires good { IsGood quantum request.now }
    requires rover { rover ≤ 2 ^ 62 }
    ensures choice { IsNextChoice quantum request.now free.now rover (base_of result) }
    ensures placed { IfSome result (IsPlaced quantum request.now free.now) }
{
    let past = earliest(free, quantum, request, rover);
    if let Some(found) = past {
        return Some(found);
    }
    earliest(free, quantum, request, 0)
}

/// What the policy chooses.
pub(crate) fn chosen<D: Deed>(
    free: &[Stored<D>],
    policy: Policy,
    rover: u64,
    quantum: u64,
    request: &Request,
) -> Option<Found>
    requires quantum { IsPowerOfTwo quantum }
    requires good { IsGood quantum request.now }
    requires below { All (λ r. IsRange r.range) free.now }
    requires aligned { All (λ r. r.range.base % quantum ≡ 0) free.now }
    requires rover { rover ≤ 2 ^ 62 }
    ensures choice { IsChoice policy quantum request.now free.now rover (base_of result) }
    ensures placed { IfSome result (IsPlaced quantum request.now free.now) }
{
    match policy {
        Policy::Best => best(free, quantum, request),
        Policy::Next => next(free, rover, quantum, request),
        Policy::Instant => instant(free, quantum, request),
    }
}
