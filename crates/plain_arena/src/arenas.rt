//! The arena, on lists.
ghost use Rattle.std.specs.Prelude.{◌≡◌, ◌+◌, ◌%◌, ◌≤◌, ◌↔◌, ◌<◌, [], ℕ, vec_len, vec_capacity};
ghost use Rattle.std.specs.Prelude.{IsTrue, IsOk, IfOk, IfErr, IfSome, OnOk, OnErr, Some};
ghost use Rattle.std.specs.Prelude.{option_to_list, sum_by};
ghost use Rattle.std.specs.Bool.{OnTrue, OnFalse};
ghost use Rattle.std.specs.Int.{IsPowerOfTwo};
ghost use Rattle.std.specs.Option.{option_map};
ghost use Rattle.std.specs.FinMap as finmap;
ghost use Rattle.deed_core.specs.Extent.{IsRange};
ghost use Rattle.deed_core.specs.Covering.{covers, covers_tag, covering_held, units_held};
ghost use Rattle.deed_core.specs.Tag.{Tag};
ghost use Rattle.deed_core.specs.Request.{IsGood};
ghost use Rattle.deed_core.specs.Weights.{Gains, Loses};
ghost use Rattle.tag_arena.specs.Layout.{FreeIsLongestRuns};
ghost use Rattle.tag_arena.specs.ArenaState.{spans_of, layout_of, ranges_of, tags_of, direct_tag};
ghost use Rattle.tag_arena.specs.ArenaState.{IsChosen, IsSoundArena, OnQuantum, empty_arena};
ghost use Rattle.tag_arena.specs.Calls.{part, after_carve, RefusesCarve, IsClear, OverlapsSpan};
ghost use Rattle.tag_arena.specs.Calls.{after_import, first_units};
ghost use Rattle.plain_arena.specs.Found.{IsCuttable, IsPlaced};
ghost use Rattle.tag_arena.specs.Outcomes.{KeepsSetup, AddSpanOf, CarveOf, IsImportFor, ImportOf};
ghost use Rattle.tag_arena.specs.Outcomes.{ImportCovers, FreeOf, RemoveOf};

use crate::choices::{Found, chosen};
use crate::cuts::{carve, cut_first, push_rest};
use crate::held_ranges::{HeldRange, held_range_of};
use crate::merges::merge;
use crate::spans::{
    Import, free_units, imported_units, index_of_import, overlaps_imported, overlaps_owned,
    owned_units, span_at,
};
use crate::tags::Tags;
use crate::whole_spans::lowest_whole;
use deed_core::{Deed, Range, Request, Route, Segment, Stored};
use std::alloc::{AllocError, Global};
use std::marker::Model;
use tag_arena::{ArenaFault, ArenaReport, Policy, SpanFault};

/// A set of whole numbers, handed out as segments, whose calls look through its lists. It is never
/// copied or dropped.
pub struct PlainArena<D: Deed> {
    id: u32,
    quantum: u64,
    policy: Policy,
    owned: Vec<HeldRange>,
    imported: Vec<Import>,
    free: Vec<Stored<D>>,
    tags: Tags,
    /// The end of the last grant.
    rover: u64,
}

impl<D: Deed> Model for PlainArena<D> {
    ghost use Rattle.std.specs.Prelude.{◌+◌, ◌≤◌, vec_len, vec_capacity};
    ghost use Rattle.std.specs.Coded.{codes, coded_ℕ};
    ghost use Rattle.std.specs.Ordering.{nat_cmp};
    ghost use Rattle.std.specs.FinMap as finmap;
    ghost use Rattle.deed_core.specs.Holding.{Holding};
    ghost use Rattle.tag_arena.specs.ArenaState.{ArenaState, IsSoundArena};

    ghost Value = { ArenaState };

    ghost coded = { Prim.hlevel
        (codes, finmap.code {X = Holding} {R = nat_cmp} coded_ℕ (Prim.hlevel codes)) };

    ghost view = { λ a. record {
      id = a.id;
      quantum = a.quantum;
      policy = a.policy;
      owned = a.owned.items;
      imported = a.imported.items;
      free = a.free.items;
      allocated = a.tags;
      rover = a.rover;
      looks = 0;
    } };

    // What is allocated can come back without memory.
    ghost invariant = { λ a.
        IsSoundArena (record {
          id = a.id;
          quantum = a.quantum;
          policy = a.policy;
          owned = a.owned.items;
          imported = a.imported.items;
          free = a.free.items;
          allocated = a.tags;
          rover = a.rover;
          looks = 0;
        })
        × (vec_len a.free + finmap.len a.tags ≤ vec_capacity a.free) };
}

impl<D: Deed> PlainArena<D> {
    /// An arena with no span.
    pub fn new(alloc: Global, id: u32, quantum: u64, policy: Policy) -> PlainArena<D>
        requires { IsPowerOfTwo quantum }
        ensures { result ≡ empty_arena id quantum policy }
    {
        PlainArena {
            id,
            quantum,
            policy,
            owned: Vec::new(alloc),
            imported: Vec::new(alloc),
            free: Vec::new(alloc),
            tags: Tags::new(alloc),
            rover: 0,
        }
    }

    /// The number that its segments carry. It takes constant time, so its clauses are the way to
    /// know of an arena what is always so.
    pub fn id(&self) -> u32
        ensures value { result ≡ self.now.id }
        ensures sound { IsSoundArena self.now }
        ensures longest { FreeIsLongestRuns (layout_of self.now) }
    {
        self.id
    }

    /// A power of two. Each size is rounded up to a multiple of it, and each base is one.
    pub fn quantum(&self) -> u64
        ensures value { result ≡ self.now.quantum }
        ensures power { IsPowerOfTwo result }
    {
        self.quantum
    }

    /// How it chooses, as it was told when it was made.
    pub fn policy(&self) -> Policy
        ensures { result ≡ self.now.policy }
    {
        self.policy
    }

    /// How many units the spans, the free ranges and the allocated ones have.
    pub fn report(&self) -> ArenaReport
        ensures span { result.span ≡ units_held (spans_of self.now) }
        ensures free { result.free ≡ units_held self.now.free }
        ensures allocated { result.allocated ≡ units_held (ranges_of self.now.allocated) }
        ensures adds_up { result.span ≡ result.free + result.allocated }

        // What is always so of an arena.
        ensures longest { FreeIsLongestRuns (layout_of self.now) }
        ensures sound { IsSoundArena self.now }
    {
        let span = owned_units(&self.owned) + imported_units(&self.imported);
        let free = free_units(&self.free);
        ArenaReport {
            span,
            free,
            allocated: span - free,
        }
    }

    /// Ends the arena where it holds no deed.
    pub fn close(self) -> Result<(), PlainArena<D>>
        ensures empty { IsOk result ↔ (self.free ≡ []) }
        ensures handed_back { IfErr result (λ same. same ≡ self) }
    {
        if !self.free.is_empty() {
            return Err(self);
        }
        let PlainArena {
            id: _,
            quantum: _,
            policy: _,
            owned: _,
            imported: _,
            free,
            tags: _,
            rover: _,
        } = self;
        free.destroy_empty();
        Ok(())
    }

    /// Whether a span of this arena overlaps the range.
    fn has_overlap(&self, range: &Range) -> bool
        ensures overlaps { OnTrue result (OverlapsSpan self.now range.now) }
        ensures clear { OnFalse result (IsClear self.now range.now) }
    {
        if overlaps_owned(&self.owned, range) {
            return true;
        }
        if overlaps_imported(&self.imported, range) {
            return true;
        }
        false
    }

    /// Whether the range is in whole quanta of this arena.
    fn is_aligned(&self, range: &Range) -> bool
        ensures { IsTrue result ↔ OnQuantum self.now.quantum range.now }
    {
        range.base() % self.quantum == 0 && range.len() % self.quantum == 0
    }

    /// Adds an owned span, which is the newest free range. It takes any number of spans: the layer
    /// above keeps to 65,536.
    pub fn add_span(&mut self, deed: D) -> Result<(), SpanFault<D>>
        // What it does.
        ensures added { AddSpanOf self.old deed (D.holding deed) result self.new }

        // What follows, for those above.
        ensures sound { IsSoundArena self.new }
        ensures kept { KeepsSetup self.old self.new }
        ensures imported { self.new.imported ≡ self.old.imported }
    {
        let range = deed.range();
        if self.has_overlap(&range) {
            return Err(SpanFault::Overlaps(deed));
        }
        if !self.is_aligned(&range) {
            return Err(SpanFault::NotAligned(deed));
        }
        let Ok(()) = self.owned.reserve(1) else {
            return Err(SpanFault::NoMemory(deed));
        };
        let Ok(()) = reserve_free(&mut self.free, &self.tags, 1) else {
            return Err(SpanFault::NoMemory(deed));
        };
        let stored = Stored::new(deed);
        self.owned.push_reserved(held_range_of(&stored));
        self.free.push_reserved(stored);
        Ok(())
    }

    /// Carves what the policy chooses for the request.
    pub fn xalloc(&mut self, request: &Request) -> Result<Segment<D>, ArenaFault>
        // What it does.
        ensures carved { CarveOf self.old request.now result self.new }

        // What follows, for those above.
        ensures sound { IsSoundArena self.new }
        ensures kept { KeepsSetup self.old self.new }
        ensures owned { self.new.owned ≡ self.old.owned }
        ensures imported { self.new.imported ≡ self.old.imported }
        ensures gains { IfOk result (Gains (tags_of self.old) (tags_of self.new)) }
        ensures covering { IfOk result (λ s.
            (u : ℕ) → covering_held u self.old.free
            ≡ covering_held u self.new.free + covers u s.holding.range) }
    {
        let found = self.choose(request)?;
        let len = request.units(self.quantum).unwrap();
        Ok(self.carve_found(found, len)?)
    }

    /// What the policy chooses for the request, and where it stands.
    fn choose(&self, request: &Request) -> Result<Found, ArenaFault>
        ensures good { OnOk result (IsGood self.now.quantum request.now) }
        ensures chosen { IfOk result (λ found. IsChosen self.now request.now (Some found.base)) }
        ensures placed { IfOk result (IsPlaced self.now.quantum request.now self.now.free) }
        ensures refused { IfErr result (RefusesCarve self.now request.now) }
    {
        if !request.is_good(self.quantum) {
            return Err(ArenaFault::BadRequest);
        }
        chosen(&self.free, self.policy, self.rover, self.quantum, request).ok_or(ArenaFault::NoFit)
    }

    /// Carves the first `len` units of what was found.
    fn carve_found(&mut self, found: Found, len: u64) -> Result<Segment<D>, AllocError>
        requires { IsCuttable self.old.quantum self.old.free found len }
        ensures segment { let piece = part found.range found.base len in
            IfOk result (λ s. s ≡ direct_tag self.old.id piece) }
        ensures carved { let piece = part found.range found.base len in
            OnOk result (self.new ≡ after_carve self.old found.range piece) }
        ensures range { IfOk result (λ s. IsRange s.holding.range) }
        ensures unchanged { OnErr result (self.new ≡ self.old) }
    {
        // Room for both rests, of which one takes the place of the range, and for the piece.
        reserve_free(&mut self.free, &self.tags, 2)?;
        let piece = HeldRange::new(found.range.root(), piece_of(found.range, found.base, len));
        self.tags.insert(piece)?;
        let Ok(deed) = carve(&mut self.free, found.at, found.range, found.base, len) else {
            self.tags.remove(piece);
            return Err(AllocError);
        };
        self.rover = found.base + len;
        Ok(Segment::new(self.id, Route::Direct, deed.into_deed()))
    }

    /// Adds an imported span, a segment that was carved from its source by no cache, and carves its
    /// first units for the request. So no span of the arena is imported that has no segment out.
    pub fn add_span_and_carve(
        &mut self,
        span: Segment<D>,
        request: &Request,
    ) -> Result<Segment<D>, SpanFault<Segment<D>>>
        requires span { IsImportFor self.old.quantum span request.now }

        // What it does.
        ensures carved { ImportOf self.old span request.now result self.new }

        // What follows, for those above.
        ensures sound { IsSoundArena self.new }
        ensures kept { KeepsSetup self.old self.new }
        ensures owned { self.new.owned ≡ self.old.owned }
        ensures imported { OnOk result (Gains self.old.imported self.new.imported span) }
        ensures gains { IfOk result (Gains (tags_of self.old) (tags_of self.new)) }
        ensures covering { IfOk result (ImportCovers self.old span self.new) }
    {
        let range = span.range();
        if self.has_overlap(&range) {
            return Err(SpanFault::Overlaps(span));
        }
        if !self.is_aligned(&range) {
            return Err(SpanFault::NotAligned(span));
        }
        let len = request.units(self.quantum).unwrap();
        match self.import(span, len) {
            Ok(first) => Ok(first),
            Err(span) => Err(SpanFault::NoMemory(span)),
        }
    }

    /// Adds an imported span that nothing stands against, and carves its first `len` units.
    fn import(&mut self, span: Segment<D>, len: u64) -> Result<Segment<D>, Segment<D>>
        requires route { span.route ≡ Route.Direct }
        requires clear { IsClear self.old span.holding.range }
        requires aligned { OnQuantum self.old.quantum span.holding.range }
        requires some { 0 < len }
        requires room { len ≤ span.holding.range.len }
        requires whole { len % self.old.quantum ≡ 0 }
        ensures segment { IfOk result (λ s.
            s ≡ direct_tag self.old.id (first_units len span.holding)) }
        ensures carved { let first = first_units len span.holding in
            OnOk result (self.new ≡ after_carve (after_import self.old span) span.holding first) }
        ensures range { IfOk result (λ s. IsRange s.holding.range) }
        ensures handed_back { IfErr result (λ same. same ≡ span) }
        ensures unchanged { OnErr result (self.new ≡ self.old) }
    {
        let Ok(()) = self.imported.reserve(1) else {
            return Err(span);
        };
        let Ok(()) = reserve_free(&mut self.free, &self.tags, 2) else {
            return Err(span);
        };
        let whole = HeldRange::new(span.root(), span.range());
        let first = HeldRange::new(span.root(), piece_of(whole, whole.base(), len));
        let Ok(()) = self.tags.insert(first) else {
            return Err(span);
        };
        let source = span.arena();
        let (deed, rest) = match cut_first(span, len) {
            Ok(parts) => parts,
            Err(span) => {
                self.tags.remove(first);
                return Err(span);
            }
        };
        push_rest(&mut self.free, rest);
        self.imported.push_reserved(Import::new(source, whole));
        self.rover = first.end();
        Ok(Segment::new(self.id, Route::Direct, deed.into_deed()))
    }

    /// Frees a segment, and merges its range with its free neighbors inside its span. An imported
    /// span that becomes wholly free is taken out and handed back, to be freed by its source. It
    /// takes no memory. A segment that isn't this arena's comes back.
    pub fn free(&mut self, segment: Segment<D>) -> Result<Option<Segment<D>>, Segment<D>>
        // What it does.
        ensures freed { FreeOf self.old segment result self.new }

        // What follows, for those above.
        ensures sound { IsSoundArena self.new }
        ensures kept { KeepsSetup self.old self.new }
        ensures owned { self.new.owned ≡ self.old.owned }
        ensures loses { OnOk result (Loses (tags_of self.old) (tags_of self.new) segment) }
        ensures returned { IfOk result (λ back.
            (f : Tag → ℕ) → sum_by f self.old.imported
            ≡ sum_by f self.new.imported + sum_by f (option_to_list back)) }
        ensures covering { IfOk result (λ back.
            (u : ℕ) → covering_held u self.new.free + sum_by (covers_tag u) (option_to_list back)
            ≡ covering_held u self.old.free + covers u segment.holding.range) }
        ensures spans { IfOk result (λ back.
            (u : ℕ) → covering_held u (spans_of self.old)
            ≡ covering_held u (spans_of self.new) + sum_by (covers_tag u) (option_to_list back)) }
    {
        if segment.arena() != self.id || segment.route() != Route::Direct {
            return Err(segment);
        }
        let tagged = HeldRange::new(segment.root(), segment.range());
        if self.tags.get(tagged.base()) != Some(tagged) {
            return Err(segment);
        }
        let span = span_at(&self.owned, &self.imported, tagged.base()).unwrap();
        let merged = merge(&mut self.free, span, Stored::new(segment.into_deed()));
        self.tags.remove(tagged);
        let Some(at) = index_of_import(&self.imported, &held_range_of(&merged)) else {
            self.free.push_reserved(merged);
            return Ok(None);
        };
        let import = self.imported.remove(at);
        Ok(Some(Segment::new(import.source(), Route::Direct, merged.into_deed())))
    }

    /// Takes out the lowest owned span that is wholly free. It takes no memory.
    pub fn remove_owned(&mut self) -> Option<D>
        // What it does.
        ensures removed { RemoveOf self.old (option_map D.holding result) self.new }

        // What follows, for those above.
        ensures sound { IsSoundArena self.new }
        ensures kept { KeepsSetup self.old self.new }
        ensures imported { self.new.imported ≡ self.old.imported }
        ensures loses { IfSome result (λ deed.
            Loses self.old.owned self.new.owned (D.holding deed)) }
        ensures covering { IfSome result (λ deed.
            Loses self.old.free self.new.free (D.holding deed)) }
    {
        let Some(whole) = lowest_whole(&self.owned, &self.free) else {
            return None;
        };
        let _ = self.owned.remove(whole.at);
        Some(self.free.remove(whole.free_at).into_deed())
    }
}

/// Makes room for `more` free ranges, and for each allocated range to become free again.
fn reserve_free<D: Deed>(
    free: &mut Vec<Stored<D>>,
    tags: &Tags,
    more: usize,
) -> Result<(), AllocError>
    ensures items { free.new.items ≡ free.old.items }
    ensures room { OnOk result
        (vec_len free.new + finmap.len tags.now + more ≤ vec_capacity free.new) }
    ensures grows { vec_capacity free.old ≤ vec_capacity free.new }
{
    let Some(room) = tags.len().checked_add(more) else {
        return Err(AllocError);
    };
    free.reserve(room)
}

/// The `len` units from `base` on, which lie in the range.
fn piece_of(range: HeldRange, base: u64, len: u64) -> Range
    requires some { 0 < len }
    requires from { range.range.base ≤ base }
    requires to { base + len ≤ range.range.base + range.range.len }
    ensures { result ≡ record { base = base; len = len } }
{
    let _ = range.end();
    Range::new(base, len).unwrap()
}
