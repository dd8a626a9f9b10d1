//! The slot of a free range that is known.
ghost use Rattle.std.specs.Prelude.{◌≡◌, ℕ, true};
ghost use Rattle.tag_arena.specs.declared.orders.Order.TheVariants.{Rising, Sizes};
ghost use Rattle.tag_arena.specs.Boundaries.{LiesIn};
ghost use Rattle.tag_arena.specs.FreeTags.{AreTags};
ghost use Rattle.tag_arena.specs.FreeRanges.{keeps_bases};
ghost use Rattle.tag_arena.specs.Orders.{Mirrors};

use crate::held_ranges::HeldRange;
use crate::orders::OrderedIndex;
use crate::policies::Policy;
use crate::slots::Slots;
use deed_core::Deed;

/// The slot of a free range, if it is one: the one that is likely, or else by the order of sizes,
/// or, where that isn't kept, by a look at each slot.
pub(crate) fn slot_by_size<D: Deed>(
    slots: &Slots<D>,
    sizes: &OrderedIndex,
    range: HeldRange,
    likely: usize,
) -> Option<usize>
    requires tags { (clock : ℕ) × AreTags clock slots.now.tags }
    requires mirrors { sizes.now.kept ≡ true → Mirrors Sizes sizes.now.items slots.now.tags }
    ensures { LiesIn range slots.now.tags result }
{
    if slots.is_in(likely, range) {
        return Some(likely);
    }
    if !sizes.is_kept() {
        return slots.holding(range);
    }
    let entry = sizes.first_from(range.len(), range.base())?;
    if slots.tag(entry.slot).range() != range {
        return None;
    }
    Some(entry.slot)
}

/// The slot of a free range, if it is one: the one that is likely, or else by the order of bases.
pub(crate) fn slot_by_base<D: Deed>(
    slots: &Slots<D>,
    rising: &OrderedIndex,
    range: HeldRange,
    likely: usize,
) -> Option<usize>
    requires tags { (clock : ℕ) × AreTags clock slots.now.tags }
    requires mirrors { Mirrors Rising rising.now.items slots.now.tags }
    ensures { LiesIn range slots.now.tags result }
{
    if slots.is_in(likely, range) {
        return Some(likely);
    }
    let entry = rising.first_from(range.base(), range.len())?;
    if slots.tag(entry.slot).range() != range {
        return None;
    }
    Some(entry.slot)
}

/// The slot of a free range, if it is one, by what the policy has.
pub(crate) fn slot_of<D: Deed>(
    policy: Policy,
    slots: &Slots<D>,
    rising: &OrderedIndex,
    sizes: &OrderedIndex,
    range: HeldRange,
    likely: usize,
) -> Option<usize>
    requires tags { (clock : ℕ) × AreTags clock slots.now.tags }
    requires bases { keeps_bases policy ≡ true → Mirrors Rising rising.now.items slots.now.tags }
    requires sizes { sizes.now.kept ≡ true → Mirrors Sizes sizes.now.items slots.now.tags }
    ensures { LiesIn range slots.now.tags result }
{
    match policy {
        Policy::Next => slot_by_base(slots, rising, range, likely),
        Policy::Best | Policy::Instant => slot_by_size(slots, sizes, range, likely),
    }
}
