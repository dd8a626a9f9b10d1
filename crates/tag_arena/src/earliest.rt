//! The least address from a start on that serves a request.
ghost use Rattle.std.specs.Prelude.{◌≡◌, ℕ, ◌+◌, ◌≤◌, ◌^◌, AllPairs, IfSome};
ghost use Rattle.std.specs.Int.{IsPowerOfTwo};
ghost use Rattle.deed_core.specs.Holding.{Apart};
ghost use Rattle.deed_core.specs.Request.{IsGood, rounding_of};
ghost use Rattle.tag_arena.specs.Choice.{IsNextChoice};
ghost use Rattle.tag_arena.specs.FreeTags.{AreTags, ranges_by_age};
ghost use Rattle.tag_arena.specs.Orders.{Mirrors};
ghost use Rattle.tag_arena.specs.Fits.{base_of, IsEarliest, IsFit, NoneBelow};
ghost use Rattle.tag_arena.specs.declared.orders.Order.TheVariants.{Rising};

use crate::orders::OrderedIndex;
use crate::probes::Probes;
use crate::reaches::Measure;
use crate::searches::{Fit, range_with};
use crate::slots::Slots;
use deed_core::{Deed, Range, Request};

/// The least address from `start` on that serves the request, where none does in a range that
/// begins below `first`. Ranges of fewer than `units` are passed by, and of those that are tried
/// only the one that serves is looked at in its slot.
fn earliest_behind<D: Deed>(
    slots: &Slots<D>,
    rising: &mut OrderedIndex,
    quantum: u64,
    request: &Request,
    units: u64,
    start: u64,
    first: u64,
    probes: &mut Probes,
) -> Option<Fit>
    requires quantum { IsPowerOfTwo quantum }
    requires good { IsGood quantum request.now }
    requires units { units ≡ rounding_of quantum request.now.size }
    requires start { start ≤ 2 ^ 62 }
    requires tags { (clock : ℕ) × AreTags clock slots.now.tags }
    requires mirrors { Mirrors Rising rising.old.items slots.now.tags }
    requires apart { AllPairs Apart (ranges_by_age slots.now.tags) }
    requires below { NoneBelow quantum request.now (ranges_by_age slots.now.tags) start first }
    ensures least { let free = ranges_by_age slots.now.tags in
        IsEarliest quantum request.now free start (base_of result) }
    ensures placed { let free = ranges_by_age slots.now.tags in
        IfSome result (IsFit quantum request.now free) }
    ensures unchanged { rising.new ≡ rising.old }
{
    let mut from = first;
    while let Some(entry) = rising.first_weighing(Measure::Minor, from, 0, units) {
        let Some(range) = Range::new(entry.major, entry.minor) else {
            unreachable!()
        };
        if let Some(base) = probes.least_in(request, quantum, range, start) {
            let range = slots.range_at(entry.slot, entry.major, entry.minor);
            return Some(Fit {
                range,
                base,
                slot: entry.slot,
            });
        }
        from = range.base() + 1;
    }
    None
}

/// The least address from `start` on that serves the request. Of the ranges that begin at `start`
/// or below it, only the one with `start` in it reaches past it.
fn earliest_fit<D: Deed>(
    slots: &Slots<D>,
    rising: &mut OrderedIndex,
    quantum: u64,
    request: &Request,
    start: u64,
    probes: &mut Probes,
) -> Option<Fit>
    requires quantum { IsPowerOfTwo quantum }
    requires good { IsGood quantum request.now }
    requires start { start ≤ 2 ^ 62 }
    requires tags { (clock : ℕ) × AreTags clock slots.now.tags }
    requires mirrors { Mirrors Rising rising.old.items slots.now.tags }
    requires apart { AllPairs Apart (ranges_by_age slots.now.tags) }
    ensures least { let free = ranges_by_age slots.now.tags in
        IsEarliest quantum request.now free start (base_of result) }
    ensures placed { let free = ranges_by_age slots.now.tags in
        IfSome result (IsFit quantum request.now free) }
    ensures unchanged { rising.new ≡ rising.old }
{
    let units = request.units(quantum)?;
    rising.go_to(start, u64::MAX);
    if let Some(found) = range_with(slots, rising, start) {
        if let Some(base) = probes.least_in(request, quantum, found.range.range(), start) {
            return Some(Fit {
                range: found.range,
                base,
                slot: found.slot,
            });
        }
    }
    earliest_behind(
        slots,
        rising,
        quantum,
        request,
        units,
        start,
        start + 1,
        probes,
    )
}

/// The least address at or past the rover that serves the request, else the least that does. No
/// address below the request's `min` is looked at.
pub(crate) fn next_fit<D: Deed>(
    slots: &Slots<D>,
    rising: &mut OrderedIndex,
    rover: u64,
    quantum: u64,
    request: &Request,
    probes: &mut Probes,
) -> Option<Fit>
    requires quantum { IsPowerOfTwo quantum }
    requires good { IsGood quantum request.now }
    requires rover { rover ≤ 2 ^ 62 }
    requires tags { (clock : ℕ) × AreTags clock slots.now.tags }
    requires mirrors { Mirrors Rising rising.old.items slots.now.tags }
    requires apart { AllPairs Apart (ranges_by_age slots.now.tags) }
    ensures choice { let free = ranges_by_age slots.now.tags in
        IsNextChoice quantum request.now free rover (base_of result) }
    ensures placed { let free = ranges_by_age slots.now.tags in
        IfSome result (IsFit quantum request.now free) }
    ensures unchanged { rising.new ≡ rising.old }
{
    let low = request.min;
    let past = earliest_fit(slots, rising, quantum, request, rover.max(low), probes);
    if let Some(fit) = past {
        return Some(fit);
    }
    earliest_fit(slots, rising, quantum, request, low, probes)
}
