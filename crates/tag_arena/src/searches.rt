//! What a policy chooses among the free ranges.
ghost use Rattle.std.specs.Prelude.{◌≡◌, ℕ, ◌<◌, ◌≤◌, ◌^◌, AllPairs, IfSome, MatchOption};
ghost use Rattle.std.specs.Int.{IsPowerOfTwo};
ghost use Rattle.std.specs.Option.{option_map};
ghost use Rattle.deed_core.specs.Holding.{Apart};
ghost use Rattle.deed_core.specs.Request.{IsGood, rounding_of};
ghost use Rattle.tag_arena.specs.Boundaries.{BeginsAt};
ghost use Rattle.tag_arena.specs.Choice.{IsBestChoice, IsInstant, NoListServes};
ghost use Rattle.tag_arena.specs.FreeTags.{AreTags, IsTimed, ranges_by_age};
ghost use Rattle.tag_arena.specs.Orders.{Mirrors};
ghost use Rattle.tag_arena.specs.Fits.{base_of, IsFit, IsWith};
ghost use Rattle.tag_arena.specs.Linked.{IsLinked};
ghost use Rattle.tag_arena.specs.declared.orders.Order.TheVariants.{Rising, Sizes};

use crate::held_ranges::HeldRange;
use crate::newest_lists::NewestLists;
use crate::orders::OrderedIndex;
use crate::probes::Probes;
use crate::reaches::{Grid, Measure};
use crate::slots::Slots;
use deed_core::{Deed, Request};

/// A free range, and an address in it.
#[derive(Clone, Copy, Debug)]
pub(crate) struct Fit {
    pub range: HeldRange,
    pub base: u64,
    pub slot: usize,
}

/// The best range that serves the request, and its least address that does.
pub(crate) fn best_fit<D: Deed>(
    slots: &Slots<D>,
    sizes: &mut OrderedIndex,
    quantum: u64,
    request: &Request,
    probes: &mut Probes,
) -> Option<Fit>
    requires quantum { IsPowerOfTwo quantum }
    requires good { IsGood quantum request.now }
    requires tags { (clock : ℕ) × AreTags clock slots.now.tags }
    requires mirrors { Mirrors Sizes sizes.old.items slots.now.tags }
    ensures choice { let free = ranges_by_age slots.now.tags in
        IsBestChoice quantum request.now free (base_of result) }
    ensures placed { let free = ranges_by_age slots.now.tags in
        IfSome result (IsFit quantum request.now free) }
    ensures unchanged { sizes.new ≡ sizes.old }
{
    let units = request.units(quantum)?;
    sizes.go_to(units, 0);
    if request.align == 0 && request.nocross == 0 {
        best_by_length(slots, sizes, quantum, request, units, probes)
    } else {
        best_by_reach(slots, sizes, quantum, request, units, probes)
    }
}

/// The best range for so many units that may stand on any quantum: without a window each that is as
/// long serves.
fn best_by_length<D: Deed>(
    slots: &Slots<D>,
    sizes: &OrderedIndex,
    quantum: u64,
    request: &Request,
    units: u64,
    probes: &mut Probes,
) -> Option<Fit>
    requires quantum { IsPowerOfTwo quantum }
    requires good { IsGood quantum request.now }
    requires units { units ≡ rounding_of quantum request.now.size }
    requires tags { (clock : ℕ) × AreTags clock slots.now.tags }
    requires mirrors { Mirrors Sizes sizes.now.items slots.now.tags }
    ensures choice { let free = ranges_by_age slots.now.tags in
        IsBestChoice quantum request.now free (base_of result) }
    ensures placed { let free = ranges_by_age slots.now.tags in
        IfSome result (IsFit quantum request.now free) }
{
    let mut major = units;
    let mut minor = 0;
    while let Some(entry) = sizes.first_from(major, minor) {
        let range = slots.range_at(entry.slot, entry.minor, entry.major);
        if let Some(base) = probes.least_in(request, quantum, range.range(), 0) {
            return Some(Fit {
                range,
                base,
                slot: entry.slot,
            });
        }
        major = range.len();
        minor = range.base() + 1;
    }
    None
}

/// The best range for so many units on a grid: ranges that have no room for them on it are passed
/// by.
fn best_by_reach<D: Deed>(
    slots: &Slots<D>,
    sizes: &mut OrderedIndex,
    quantum: u64,
    request: &Request,
    units: u64,
    probes: &mut Probes,
) -> Option<Fit>
    requires quantum { IsPowerOfTwo quantum }
    requires good { IsGood quantum request.now }
    requires units { units ≡ rounding_of quantum request.now.size }
    requires tags { (clock : ℕ) × AreTags clock slots.now.tags }
    requires mirrors { Mirrors Sizes sizes.old.items slots.now.tags }
    ensures choice { let free = ranges_by_age slots.now.tags in
        IsBestChoice quantum request.now free (base_of result) }
    ensures placed { let free = ranges_by_age slots.now.tags in
        IfSome result (IsFit quantum request.now free) }
    ensures unchanged { sizes.new ≡ sizes.old }
{
    let grid = Grid::of(request, quantum);
    let mut major = units;
    let mut minor = 0;
    while let Some(entry) = sizes.first_weighing(Measure::Reach(grid), major, minor, units) {
        let range = slots.range_at(entry.slot, entry.minor, entry.major);
        if let Some(base) = probes.least_in(request, quantum, range.range(), 0) {
            return Some(Fit {
                range,
                base,
                slot: entry.slot,
            });
        }
        major = range.len();
        minor = range.base() + 1;
    }
    None
}

/// The free range with this unit in it. Where there is none, it looks at no slot.
pub(crate) fn range_with<D: Deed>(
    slots: &Slots<D>,
    rising: &OrderedIndex,
    unit: u64,
) -> Option<SlotRange>
    requires tags { (clock : ℕ) × AreTags clock slots.now.tags }
    requires mirrors { Mirrors Rising rising.now.items slots.now.tags }
    requires apart { AllPairs Apart (ranges_by_age slots.now.tags) }
    ensures { IsWith unit (ranges_by_age slots.now.tags) (option_map (λ f. f.range) result) }
{
    let entry = rising.last_to(unit, u64::MAX)?;
    if entry.major + entry.minor <= unit {
        return None;
    }
    let range = slots.range_at(entry.slot, entry.major, entry.minor);
    Some(SlotRange {
        range,
        slot: entry.slot,
    })
}

/// The free range that begins at a base.
pub(crate) fn range_from<D: Deed>(
    slots: &Slots<D>,
    rising: &OrderedIndex,
    base: u64,
) -> Option<SlotRange>
    requires tags { (clock : ℕ) × AreTags clock slots.now.tags }
    requires mirrors { Mirrors Rising rising.now.items slots.now.tags }
    ensures { BeginsAt base (ranges_by_age slots.now.tags) (option_map (λ f. f.range) result) }
{
    let entry = rising.first_from(base, 0)?;
    if entry.major != base {
        return None;
    }
    let range = slots.range_at(entry.slot, entry.major, entry.minor);
    Some(SlotRange {
        range,
        slot: entry.slot,
    })
}

/// The number of the least power-of-two list whose every member has room for `units`.
fn least_list(units: u64) -> u32
    requires { 0 < units }
    ensures large { units ≤ 2 ^ result }
    ensures least { (p : ℕ) → units ≤ 2 ^ p → result ≤ p }
{
    if units == 1 {
        return 0;
    }
    (units - 1).ilog2() + 1
}

/// A free range and its slot.
#[derive(Clone, Copy, Debug)]
pub(crate) struct SlotRange {
    pub range: HeldRange,
    pub slot: usize,
}

/// The newest range on the least power-of-two list whose every member has room for `units`.
pub(crate) fn newest<D: Deed>(
    slots: &Slots<D>,
    lists: &NewestLists,
    quantum: u64,
    units: u64,
) -> Option<SlotRange>
    requires quantum { IsPowerOfTwo quantum }
    requires units { quantum ≤ units }
    requires timed { IsTimed slots.now.tags }
    requires tags { (clock : ℕ) × AreTags clock slots.now.tags }
    requires linked { IsLinked lists.now slots.now.tags }
    ensures { let free = ranges_by_age slots.now.tags in
        MatchOption (option_map (λ f. f.range) result)
        (NoListServes quantum units free) (IsInstant quantum units free) }
{
    let Some(slot) = lists.newest_from(least_list(units)) else {
        return None;
    };
    let range = slots.tag(slot).range();
    Some(SlotRange { range, slot })
}
