//! The spans of an arena.
ghost use Rattle.std.specs.Prelude.{◌≡◌, ◌≢◌, ◌^◌, ◌<◌, ◌++◌, ◌∷◌, [], All, Contains, OnOk, length};
ghost use Rattle.deed_core.specs.Covering.{units_held};
ghost use Rattle.deed_core.specs.Extent.{end_of};
ghost use Rattle.deed_core.specs.declared.segments.Route.TheVariants.{Direct};
ghost use Rattle.tag_arena.specs.Spanned.{holdings_of, AreDisjoint, IsFirstPast, WithoutSpan};

use crate::held_ranges::HeldRange;
use crate::span_entries::SpanEntry;
use sorted_rows::Rows;
use std::alloc::{AllocError, Global};
use std::marker::Model;

/// A span, with the arena that it came from, which of an owned one is this arena itself. A contract
/// sees the segment that goes back there.
#[derive(Drop)]
pub(crate) struct Import {
    source: u32,
    span: HeldRange,
}

impl Model for Import {
    ghost use Rattle.deed_core.specs.Tag.{Tag};
    ghost use Rattle.deed_core.specs.declared.segments.Route.TheVariants.{Direct};

    ghost Value = { Tag };

    ghost view = { λ i. record { arena = i.source; route = Direct; holding = i.span } };
}

impl Import {
    /// The span that came from this arena.
    pub(crate) fn new(source: u32, span: HeldRange) -> Import
        ensures { result ≡ record { arena = source; route = Direct; holding = span } }
    {
        Import { source, span }
    }

    /// The arena that the span goes back to.
    pub(crate) fn source(&self) -> u32
        ensures { result ≡ self.now.arena }
    {
        self.source
    }

    /// The span, without the arena that it came from.
    pub(crate) fn span(&self) -> HeldRange
        ensures { result ≡ self.now.holding }
    {
        self.span
    }
}

/// Spans, found by their ends. A contract sees each as the segment that goes back where it came
/// from, in order of coming, and how many more may come without memory.
#[derive(Drop)]
pub(crate) struct Spans {
    rows: Rows<SpanEntry>,
    /// How many spans ever came here.
    clock: u64,
    units: u128,
}

impl Model for Spans {
    ghost use Rattle.std.specs.Prelude.{◌-◌, ◌^◌, length, map, min};
    ghost use Rattle.tag_arena.specs.Spanned.{SpansState, AreSpans, entries_by_coming, tag_of};

    ghost Value = { SpansState };

    ghost view = { λ s. record {
      items = map tag_of (entries_by_coming s.rows.items);
      more = min (s.rows.room - length s.rows.items) (2 ^ 64 - 1 - s.clock);
    } };

    ghost invariant = { λ s. AreSpans s.rows.items s.clock s.units };
}

impl Spans {
    /// No span.
    pub(crate) fn new(alloc: Global) -> Spans
        ensures { result.items ≡ [] }
    {
        Spans {
            rows: Rows::new(alloc),
            clock: 0,
            units: 0,
        }
    }

    /// How many units they have.
    pub(crate) fn units(&self) -> u128
        ensures sum { result ≡ units_held (holdings_of self.now.items) }
        ensures bound { result < 2 ^ 127 }
    {
        // The clock is read for the proof alone.
        let _clock = self.clock;
        self.units
    }

    /// How many there are.
    pub fn len(&self) -> usize
        ensures { result ≡ length self.now.items }
    {
        self.rows.len()
    }

    /// Makes room for one more.
    pub(crate) fn reserve(&mut self, alloc: Global) -> Result<(), AllocError>
        ensures more { OnOk result (0 < self.new.more) }
        ensures items { self.new.items ≡ self.old.items }
    {
        if self.clock == u64::MAX {
            return Err(AllocError);
        }
        let Some(room) = self.rows.len().checked_add(1) else {
            return Err(AllocError);
        };
        self.rows.reserve(alloc, room)
    }

    /// One more comes. It takes no memory.
    pub(crate) fn put(&mut self, import: Import)
        requires more { 0 < self.old.more }
        requires absent { let end = end_of import.holding.range in
            All (λ t. end_of t.holding.range ≢ end) self.old.items }
        ensures { self.new.items ≡ self.old.items ++ import ∷ [] }
    {
        // For its clause: the entries stand in the order of their ends.
        let _ = self.rows.len();
        let Import { source, span } = import;
        self.clock += 1;
        self.units += span.len() as u128;
        self.rows.insert(SpanEntry {
            span,
            source,
            since: self.clock,
        });
    }

    /// Takes a span out. It takes no memory.
    pub(crate) fn take(&mut self, span: HeldRange) -> Import
        requires disjoint { AreDisjoint (holdings_of self.old.items) }
        requires present { Contains (holdings_of self.old.items) span }
        ensures items { WithoutSpan self.old.items result self.new.items }
        ensures span { result.holding ≡ span }
    {
        // For its clause: the entries stand in the order of their ends.
        let _ = self.rows.len();
        let entry = self.rows.remove(span.end() as u128);
        self.units -= entry.span.len() as u128;
        Import::new(entry.source, entry.span)
    }

    /// Of the spans that end past `unit`, the one that ends first.
    pub(crate) fn first_past(&self, unit: u64) -> Option<Import>
        ensures { IsFirstPast unit self.now.items result }
    {
        // For its clause: the entries stand in the order of their ends.
        let _ = self.rows.len();
        let Some(entry) = self.rows.least_from(unit as u128 + 1) else {
            return None;
        };
        Some(Import::new(entry.source, entry.span))
    }
}
