//! The spans that an arena owns: which it may get, how they come and go.
ghost use Rattle.std.specs.Prelude.{◌≡◌, ◌↔◌, IsTrue, IfErr, IfSome, OnOk, OnErr, length};
ghost use Rattle.std.specs.Bool.{OnTrue, OnFalse};
ghost use Rattle.std.specs.Option.{option_map};
ghost use Rattle.deed_core.specs.Weights.{Loses};
ghost use Rattle.tag_arena.specs.ArenaState.{IsSoundArena, OnQuantum};
ghost use Rattle.tag_arena.specs.Calls.{AdmitsRange, IsClear, OverlapsSpan, RefusesRange};
ghost use Rattle.tag_arena.specs.Outcomes.{AddSpanOf, KeepsSetup, RemoveOf, WasGrown};

use crate::arenas::Arena;
use crate::cell_notes::tell;
use crate::faults::{RangeFault, SpanFault};
use crate::held_ranges::held_range_of;
use crate::reserves::room_for_span;
use crate::span_searches::overlaps;
use crate::spans::Import;
use crate::whole_spans::lowest_whole;
use deed_core::{Deed, Opens, Range, Stored};
use std::alloc::AllocError;

impl<D: Deed> Arena<D> {
    /// Whether a span of this range could be added, were there memory for it. It takes none.
    pub fn admits(&self, range: &Range) -> Result<(), RangeFault>
        ensures admitted { OnOk result (AdmitsRange self.now range.now) }
        ensures refused { IfErr result (RefusesRange self.now range.now) }
    {
        if self.has_overlap(range) {
            return Err(RangeFault::Overlaps);
        }
        if !self.is_aligned(range) {
            return Err(RangeFault::NotAligned);
        }
        Ok(())
    }

    /// How many spans it owns.
    pub fn owned_count(&self) -> usize
        ensures { result ≡ length self.now.owned }
    {
        self.owned.len()
    }

    /// Opens the range as a root, and adds its deed as an owned span, which is the newest free
    /// range. `Err` is out of memory. All room is made before the root is opened, so what is opened
    /// is added. As by `add_span`, any number of spans may come.
    pub fn grow<O: Opens<D>>(&mut self, range: Range, opener: &mut O) -> Result<(), AllocError>
        requires admitted { AdmitsRange self.old range }
        requires left { O.can_open opener.old }

        // What it does.
        ensures grown { OnOk result
            (WasGrown O.opens self.old opener.old range self.new opener.new) }
        ensures unchanged { OnErr result (self.new ≡ self.old) }
        ensures unopened { OnErr result (opener.new ≡ opener.old) }

        // What follows, for those above.
        ensures sound { IsSoundArena self.new }
        ensures kept { KeepsSetup self.old self.new }
        ensures imported { self.new.imported ≡ self.old.imported }
    {
        let cell = room_for_span(self.alloc, &mut self.owned, &mut self.free, &mut self.tags)?;
        let Ok(deed) = opener.open(range) else {
            self.tags.vacate(cell);
            return Err(AllocError);
        };
        let stored = Stored::new(deed);
        self.owned.put(Import::new(self.id, held_range_of(&stored)));
        let slot = self.free.insert(stored);
        tell(&mut self.free, &mut self.tags, cell, Some(slot));
        Ok(())
    }

    /// Adds an owned span, which is the newest free range. It takes any number of spans: the layer
    /// above keeps to 65,536.
    pub fn add_span(&mut self, deed: D) -> Result<(), SpanFault<D>>
        // What it does.
        ensures added { AddSpanOf self.old deed (D.holding deed) result self.new }

        // What follows, for those above.
        ensures sound { IsSoundArena self.new }
        ensures kept { KeepsSetup self.old self.new }
        ensures imported { self.new.imported ≡ self.old.imported }
    {
        let range = deed.range();
        if self.has_overlap(&range) {
            return Err(SpanFault::Overlaps(deed));
        }
        if !self.is_aligned(&range) {
            return Err(SpanFault::NotAligned(deed));
        }
        let Ok(cell) = room_for_span(self.alloc, &mut self.owned, &mut self.free, &mut self.tags)
        else {
            return Err(SpanFault::NoMemory(deed));
        };
        let stored = Stored::new(deed);
        self.owned.put(Import::new(self.id, held_range_of(&stored)));
        let slot = self.free.insert(stored);
        tell(&mut self.free, &mut self.tags, cell, Some(slot));
        Ok(())
    }

    /// Takes out the lowest owned span that is wholly free. It takes no memory. Under `instant` the
    /// order of sizes is kept from then on.
    pub fn remove_owned(&mut self) -> Option<D>
        // What it does.
        ensures removed { RemoveOf self.old (option_map D.holding result) self.new }

        // What follows, for those above.
        ensures sound { IsSoundArena self.new }
        ensures kept { KeepsSetup self.old self.new }
        ensures imported { self.new.imported ≡ self.old.imported }
        ensures loses { IfSome result (λ deed.
            Loses self.old.owned self.new.owned (D.holding deed)) }
        ensures covering { IfSome result (λ deed.
            Loses self.old.free self.new.free (D.holding deed)) }
    {
        self.free.keep_sizes();
        let Some(whole) = lowest_whole(&self.owned, &self.free) else {
            return None;
        };
        let _ = self.owned.take(whole.range);
        self.tags.vacate(self.free.cell(whole.slot));
        let deed = self.free.take(whole.range, whole.slot);
        Some(deed.into_deed())
    }

    /// Whether a span of this arena overlaps the range.
    pub(crate) fn has_overlap(&self, range: &Range) -> bool
        ensures overlaps { OnTrue result (OverlapsSpan self.now range.now) }
        ensures clear { OnFalse result (IsClear self.now range.now) }
    {
        if overlaps(&self.owned, range) {
            return true;
        }
        if overlaps(&self.imported, range) {
            return true;
        }
        false
    }

    /// Whether the range is in whole quanta of this arena.
    pub(crate) fn is_aligned(&self, range: &Range) -> bool
        ensures { IsTrue result ↔ OnQuantum self.now.quantum range.now }
    {
        range.base() % self.quantum == 0 && range.len() % self.quantum == 0
    }
}
