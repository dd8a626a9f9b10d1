//! The lowest span that is wholly free.
ghost use Rattle.std.specs.Prelude.{AllPairs};
ghost use Rattle.std.specs.Option.{option_map};
ghost use Rattle.deed_core.specs.Holding.{Apart};
ghost use Rattle.tag_arena.specs.Spanned.{holdings_of, AreDisjoint, IsLowestFree};

use crate::free_index::FreeIndex;
use crate::searches::SlotRange;
use crate::spans::Spans;
use deed_core::Deed;

/// The lowest span that is a free range, and its slot. The spans are looked at from the lowest up
/// to it.
pub(crate) fn lowest_whole<D: Deed>(spans: &Spans, free: &FreeIndex<D>) -> Option<SlotRange>
    requires disjoint { AreDisjoint (holdings_of spans.now.items) }
    requires apart { AllPairs Apart free.now.ranges }
    ensures { let whole = option_map (λ f. f.range) result in
        IsLowestFree (holdings_of spans.now.items) free.now.ranges whole }
{
    let mut from = 0;
    while let Some(next) = spans.first_past(from) {
        let range = next.span();
        if let Some(slot) = free.find(range) {
            return Some(SlotRange { range, slot });
        }
        from = range.end();
    }
    None
}
