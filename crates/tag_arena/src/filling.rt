//! The order of sizes, from the time on at which it is needed.
ghost use Rattle.std.specs.Prelude.{◌≡◌, ℕ, ◌≤◌, AllPairs, true};
ghost use Rattle.deed_core.specs.Holding.{Apart};
ghost use Rattle.tag_arena.specs.FreeTags.{AreTags, IsTimed, ranges_by_age};
ghost use Rattle.tag_arena.specs.Orders.{KeepsUp, Mirrors};
ghost use Rattle.tag_arena.specs.Slotted.{taken_count};

use crate::orders::OrderedIndex;
use crate::slots::Slots;
use deed_core::Deed;

/// Sees to it that an index is kept: where it isn't yet, each free range is put in. There is room,
/// so it takes no memory.
pub(crate) fn fill<D: Deed>(slots: &Slots<D>, index: &mut OrderedIndex)
    requires timed { IsTimed slots.now.tags }
    requires tags { (clock : ℕ) × AreTags clock slots.now.tags }
    requires apart { AllPairs Apart (ranges_by_age slots.now.tags) }
    requires keeps_up { let i = index.old in KeepsUp i.kept i.order i.items slots.now.tags }
    requires room { taken_count slots.now.tags ≤ index.old.room }
    ensures mirrors { Mirrors index.old.order index.new.items slots.now.tags }
    ensures rest { index.new ≡ record index.old { kept = true; items = index.new.items } }
{
    if index.is_kept() {
        return;
    }
    index.begin();
    for slot in 0..slots.len() {
        if let Some(tag) = slots.peek(slot) {
            index.enter(slot, tag);
        }
    }
}
