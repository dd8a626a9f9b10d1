//! Pieces of spans that come back: they are merged with the free ranges beside them.
ghost use Rattle.std.specs.Prelude.{◌≡◌, ◌≢◌, ◌+◌, ◌<◌, ◌≤◌, All, AllPairs, length};
ghost use Rattle.deed_core.specs.Extent.{Covers, end_of};
ghost use Rattle.deed_core.specs.Holding.{Apart};
ghost use Rattle.tag_arena.specs.Layout.{IsPartOf};
ghost use Rattle.tag_arena.specs.Neighbors.{IsBeside, IsKnownBeside, Merges, TakesLeft};
ghost use Rattle.tag_arena.specs.Neighbors.{TakesRight};
ghost use Rattle.tag_arena.specs.Returns.{ComesBack, whole_of};

use crate::cells::{Beside, Side, Sides};
use crate::free_index::FreeIndex;
use crate::held_ranges::{HeldRange, held_range_of};
use crate::merges::{join_left, join_right};
use deed_core::{Deed, Stored};

/// A deed with those that were free beside it, and on which sides there was one.
pub(crate) struct Merged<D: Deed> {
    pub deed: Stored<D>,
    pub sides: Sides,
}

/// What a piece that came back has become.
pub(crate) enum Became<D: Deed> {
    /// The whole of a span that was lent.
    Whole(Stored<D>),
    /// A free range, in this slot.
    Free(usize),
}

/// What a piece that came back has become, and on which sides it was merged.
pub(crate) struct GivenBack<D: Deed> {
    pub became: Became<D>,
    pub sides: Sides,
}

impl<D: Deed> FreeIndex<D> {
    /// Takes out the free range that ends at `base`, unless the span begins there.
    fn take_left(&mut self, start: u64, base: u64, side: Side) -> Option<Stored<D>>
        requires start { start ≤ base }
        requires apart { AllPairs Apart self.old.ranges }
        requires known { side ≡ Side.Allocated → All (λ r. end_of r.range ≢ base) self.old.ranges }
        requires clear { All (λ r. ¬ Covers r.range base) self.old.ranges }
        ensures taken { TakesLeft start base self.old.ranges result self.new.ranges }
        ensures rest { self.new ≡ record self.old { ranges = self.new.ranges } }
    {
        if base == start {
            return None;
        }
        let left = self.ending_at(base, side)?;
        Some(self.take(left.range, left.slot))
    }

    /// Takes out the free range that begins at `end`, unless the span ends there.
    fn take_right(&mut self, end: u64, limit: u64, side: Side) -> Option<Stored<D>>
        requires limit { end ≤ limit }
        requires known { side ≡ Side.Allocated → All (λ r. r.range.base ≢ end) self.old.ranges }
        ensures taken { TakesRight end limit self.old.ranges result self.new.ranges }
        ensures rest { self.new ≡ record self.old { ranges = self.new.ranges } }
    {
        if end == limit {
            return None;
        }
        let right = self.beginning_at(end, side)?;
        Some(self.take(right.range, right.slot))
    }

    /// The deed and its free neighbours inside the span, which are taken out. It takes no memory.
    pub(crate) fn merge(&mut self, span: HeldRange, deed: Stored<D>, beside: Beside) -> Merged<D>
        requires inside { IsPartOf span deed }
        requires some { 0 < deed.range.len }
        requires beside { All (IsBeside span) self.old.ranges }
        requires apart { AllPairs Apart self.old.ranges }
        requires clear { All (Apart deed) self.old.ranges }
        requires known { IsKnownBeside beside deed.range self.old.ranges }
        ensures merges { Merges span deed self.old.ranges result.deed self.new.ranges }
        ensures rest { self.new ≡ record self.old { ranges = self.new.ranges } }
    {
        let range = deed.range();
        let base = range.base();
        self.go_to(base, 0);
        let low = self.take_left(span.base(), base, beside.left);
        let high = self.take_right(range.end(), span.end(), beside.right);
        let sides = Sides {
            left: low.is_some(),
            right: high.is_some(),
        };
        let deed = join_right(join_left(low, deed), high);
        Merged { deed, sides }
    }

    /// A piece of a span comes back. With its free neighbours it is the newest range; where that is
    /// the whole of a span that was lent, it is handed back. It takes no memory.
    pub(crate) fn give_back(
        &mut self,
        span: HeldRange,
        lent: bool,
        deed: Stored<D>,
        beside: Beside,
    ) -> GivenBack<D>
        requires inside { IsPartOf span deed }
        requires some { 0 < deed.range.len }
        requires beside { All (IsBeside span) self.old.ranges }
        requires apart { AllPairs Apart self.old.ranges }
        requires clear { All (Apart deed) self.old.ranges }
        requires known { IsKnownBeside beside deed.range self.old.ranges }
        requires room { length self.old.ranges < self.old.room }
        requires ticks { 0 < self.old.ticks }
        ensures returned { let whole = whole_of result.became in
            ComesBack lent span deed self.old.ranges self.new.ranges whole }
        ensures setup { (self.new.policy ≡ self.old.policy) × (self.new.room ≡ self.old.room) }
        ensures ticks { self.old.ticks ≤ self.new.ticks + 1 }
    {
        let Merged { deed, sides } = self.merge(span, deed, beside);
        let became = if lent && held_range_of(&deed) == span {
            Became::Whole(deed)
        } else {
            Became::Free(self.insert(deed))
        };
        GivenBack { became, sides }
    }
}
