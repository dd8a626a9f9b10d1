//! The arena, on the index of its free ranges.
ghost use Rattle.std.specs.Prelude.{◌≡◌, ◌+◌, ◌%◌, ◌≤◌, ◌↔◌, ◌<◌, [], ℕ};
ghost use Rattle.std.specs.Prelude.{IsOk, IfOk, IfErr, OnOk, OnErr, Some};
ghost use Rattle.std.specs.Prelude.{option_to_list, length, sum_by};
ghost use Rattle.std.specs.Int.{IsPowerOfTwo};
ghost use Rattle.deed_core.specs.Extent.{IsRange};
ghost use Rattle.deed_core.specs.Covering.{covers, covers_tag, covering_held, units_held};
ghost use Rattle.deed_core.specs.Tag.{Tag};
ghost use Rattle.deed_core.specs.Request.{IsGood};
ghost use Rattle.deed_core.specs.Weights.{Gains, Loses};
ghost use Rattle.tag_arena.specs.Layout.{FreeIsLongestRuns};
ghost use Rattle.tag_arena.specs.ArenaState.{spans_of, layout_of, ranges_of, tags_of, direct_tag};
ghost use Rattle.tag_arena.specs.ArenaState.{IsChosen, IsSoundArena, OnQuantum, empty_arena};
ghost use Rattle.tag_arena.specs.Calls.{part, after_carve, RefusesCarve, IsClear};
ghost use Rattle.tag_arena.specs.Calls.{after_import, first_units, IsServedByList};
ghost use Rattle.tag_arena.specs.Fits.{IsFit};
ghost use Rattle.tag_arena.specs.Found.{IsCuttable};
ghost use Rattle.tag_arena.specs.Outcomes.{KeepsSetup, CarveOf, IsImportFor};
ghost use Rattle.tag_arena.specs.Outcomes.{ImportOf};
ghost use Rattle.tag_arena.specs.Outcomes.{ImportCovers, FreeOf};

use crate::cell_notes::{origin_in, tell};
use crate::cells::{Origin, Sides};
use crate::cuts::cut_first;
use crate::faults::{ArenaFault, SpanFault};
use crate::free_index::{Carved, FreeIndex};
use crate::held_ranges::{HeldRange, piece_of};
use crate::policies::{Policy, has_sizes};
use crate::probes::Probes;
use crate::reserves::reserve_free;
use crate::returns::{Became, GivenBack};
use crate::searches::Fit;
use crate::span_searches::{is_span, span_at};
use crate::spans::{Import, Spans};
use crate::tags::{Placed, Tags};
use deed_core::{Deed, Request, Route, Segment, Stored};
use std::alloc::{AllocError, Global};
use std::marker::Model;

/// A set of whole numbers, handed out as segments. It is never copied or dropped.
pub struct Arena<D: Deed> {
    pub(crate) alloc: Global,
    pub(crate) id: u32,
    pub(crate) quantum: u64,
    policy: Policy,
    pub(crate) owned: Spans,
    pub(crate) imported: Spans,
    pub(crate) free: FreeIndex<D>,
    pub(crate) tags: Tags,
    /// The end of the last grant.
    rover: u64,
    /// The looks of the last grant.
    probes: Probes,
}

impl<D: Deed> Model for Arena<D> {
    ghost use Rattle.std.specs.Coded.{codes, coded_ℕ};
    ghost use Rattle.std.specs.Ordering.{nat_cmp};
    ghost use Rattle.std.specs.FinMap as finmap;
    ghost use Rattle.deed_core.specs.Holding.{Holding};
    ghost use Rattle.tag_arena.specs.ArenaState.{ArenaState, IsSoundArena};
    ghost use Rattle.tag_arena.specs.FreeRanges.{IsBacked};
    ghost use Rattle.tag_arena.specs.Spanned.{holdings_of};

    ghost Value = { ArenaState };

    ghost coded = { Prim.hlevel
        (codes, finmap.code {X = Holding} {R = nat_cmp} coded_ℕ (Prim.hlevel codes)) };

    ghost view = { λ a. record {
      id = a.id;
      quantum = a.quantum;
      policy = a.policy;
      owned = holdings_of a.owned.items;
      imported = a.imported.items;
      free = a.free.ranges;
      allocated = a.tags;
      rover = a.rover;
      looks = a.probes.count;
    } };

    // What is allocated can come back without memory.
    ghost invariant = { λ a.
        IsSoundArena (record {
          id = a.id;
          quantum = a.quantum;
          policy = a.policy;
          owned = holdings_of a.owned.items;
          imported = a.imported.items;
          free = a.free.ranges;
          allocated = a.tags;
          rover = a.rover;
          looks = a.probes.count;
        })
        × IsBacked a.policy a.free (finmap.len a.tags) };
}

/// How many units an arena has.
#[derive(Clone, Copy, PartialEq, Eq, Debug)]
pub struct ArenaReport {
    /// Those of its spans, owned and imported. `free` and `allocated` add up to it.
    pub span: u128,
    /// Those that a carve may still take.
    pub free: u128,
    /// Those of the segments that are out.
    pub allocated: u128,
}

impl<D: Deed> Arena<D> {
    /// An arena with no span.
    pub fn new(alloc: Global, id: u32, quantum: u64, policy: Policy) -> Arena<D>
        requires { IsPowerOfTwo quantum }
        ensures { result ≡ empty_arena id quantum policy }
    {
        Arena {
            alloc,
            id,
            quantum,
            policy,
            owned: Spans::new(alloc),
            imported: Spans::new(alloc),
            free: FreeIndex::new(alloc, policy),
            tags: Tags::new(alloc, has_sizes(policy)),
            rover: 0,
            probes: Probes::new(),
        }
    }

    /// The number that its segments carry. It takes constant time, so its clauses are the way to
    /// know of an arena what is always so.
    pub fn id(&self) -> u32
        ensures value { result ≡ self.now.id }
        ensures sound { IsSoundArena self.now }
        ensures longest { FreeIsLongestRuns (layout_of self.now) }
    {
        self.id
    }

    /// A power of two. Each size is rounded up to a multiple of it, and each base is one.
    pub fn quantum(&self) -> u64
        ensures value { result ≡ self.now.quantum }
        ensures power { IsPowerOfTwo result }
    {
        self.quantum
    }

    /// How it chooses, as it was told when it was made.
    pub fn policy(&self) -> Policy
        ensures { result ≡ self.now.policy }
    {
        self.policy
    }

    /// How many units the spans, the free ranges and the allocated ones have.
    pub fn report(&self) -> ArenaReport
        ensures span { result.span ≡ units_held (spans_of self.now) }
        ensures free { result.free ≡ units_held self.now.free }
        ensures allocated { result.allocated ≡ units_held (ranges_of self.now.allocated) }
        ensures adds_up { result.span ≡ result.free + result.allocated }

        // What is always so of an arena.
        ensures longest { FreeIsLongestRuns (layout_of self.now) }
        ensures sound { IsSoundArena self.now }
    {
        let span = self.owned.units() + self.imported.units();
        let free = self.free.units();
        ArenaReport {
            span,
            free,
            allocated: span - free,
        }
    }

    /// How many times the last `xalloc` that granted tried a free range whole, 0 before the first.
    /// A range that an index passes by for its length, or for its room on a grid, isn't tried;
    /// under `next` one may be tried twice.
    pub fn probes(&self) -> u64
        ensures { result ≡ self.now.looks }
    {
        self.probes.count
    }

    /// Ends the arena where it holds no deed.
    pub fn close(self) -> Result<(), Arena<D>>
        ensures empty { IsOk result ↔ (self.free ≡ []) }
        ensures handed_back { IfErr result (λ same. same ≡ self) }
    {
        if self.free.len() != 0 {
            return Err(self);
        }
        let Arena {
            alloc: _,
            id: _,
            quantum: _,
            policy: _,
            owned: _,
            imported: _,
            free,
            tags: _,
            rover: _,
            probes: _,
        } = self;
        free.destroy();
        Ok(())
    }

    /// Carves what the policy chooses for the request.
    pub fn xalloc(&mut self, request: &Request) -> Result<Segment<D>, ArenaFault>
        // What it does.
        ensures carved { CarveOf self.old request.now result self.new }

        // What follows, for those above.
        ensures sound { IsSoundArena self.new }
        ensures kept { KeepsSetup self.old self.new }
        ensures owned { self.new.owned ≡ self.old.owned }
        ensures imported { self.new.imported ≡ self.old.imported }
        ensures gains { IfOk result (Gains (tags_of self.old) (tags_of self.new)) }
        ensures one { OnOk result (IsServedByList self.old request.now → self.new.looks ≡ 1) }
        ensures covering { IfOk result (λ s.
            (u : ℕ) → covering_held u self.old.free
            ≡ covering_held u self.new.free + covers u s.holding.range) }
    {
        let mut probes = Probes::new();
        let found = self.choose(request, &mut probes)?;
        let len = request.units(self.quantum).unwrap();
        let segment = self.carve_found(found, len)?;
        self.probes = probes;
        Ok(segment)
    }

    /// What the policy chooses for the request, and where it stands.
    fn choose(&mut self, request: &Request, probes: &mut Probes) -> Result<Fit, ArenaFault>
        ensures good { OnOk result (IsGood self.old.quantum request.now) }
        ensures chosen { IfOk result (λ found. IsChosen self.old request.now (Some found.base)) }
        ensures placed { IfOk result (IsFit self.old.quantum request.now self.old.free) }
        ensures refused { IfErr result (RefusesCarve self.old request.now) }
        ensures one { OnOk result
            (IsServedByList self.old request.now → probes.old.count ≡ 0 → probes.new.count ≡ 1) }
        ensures unchanged { self.new ≡ self.old }
        ensures sound { IsSoundArena self.new }
    {
        if !request.is_good(self.quantum) {
            return Err(ArenaFault::BadRequest);
        }
        let chosen = self.free.chosen(self.rover, self.quantum, request, probes);
        chosen.ok_or(ArenaFault::NoFit)
    }

    /// Carves the first `len` units of what was found.
    fn carve_found(&mut self, found: Fit, len: u64) -> Result<Segment<D>, AllocError>
        requires { IsCuttable self.old.quantum self.old.free found len }
        ensures segment { let piece = part found.range found.base len in
            IfOk result (λ s. s ≡ direct_tag self.old.id piece) }
        ensures carved { let piece = part found.range found.base len in
            OnOk result (self.new ≡ after_carve self.old found.range piece) }
        ensures range { IfOk result (λ s. IsRange s.holding.range) }
        ensures unchanged { OnErr result (self.new ≡ self.old) }
    {
        // Room for both rests, of which one takes the place of the range, and for the piece.
        reserve_free(self.alloc, &mut self.free, &self.tags, 2)?;
        let piece = HeldRange::new(found.range.root(), piece_of(found.range, found.base, len));
        let origin = origin_in(found, len, self.free.cell(found.slot));
        let Placed { cell, behind } = self.tags.insert(piece, origin)?;
        let Ok(Carved { low, piece, high }) = self.free.carve(found, len) else {
            let cell = self.tags.remove(piece, cell);
            let whole = self.tags.join(cell, origin.rests);
            tell(&mut self.free, &mut self.tags, whole, Some(found.slot));
            return Err(AllocError);
        };
        tell(&mut self.free, &mut self.tags, origin.cell, low);
        tell(&mut self.free, &mut self.tags, behind, high);
        self.rover = found.base + len;
        Ok(Segment::new(self.id, Route::Direct, piece.into_deed()))
    }

    /// Adds an imported span, a segment that was carved from its source by no cache, and carves its
    /// first units for the request. So no span of the arena is imported that has no segment out.
    pub fn add_span_and_carve(
        &mut self,
        span: Segment<D>,
        request: &Request,
    ) -> Result<Segment<D>, SpanFault<Segment<D>>>
        requires span { IsImportFor self.old.quantum span request.now }

        // What it does.
        ensures carved { ImportOf self.old span request.now result self.new }

        // What follows, for those above.
        ensures sound { IsSoundArena self.new }
        ensures kept { KeepsSetup self.old self.new }
        ensures owned { self.new.owned ≡ self.old.owned }
        ensures imported { OnOk result (Gains self.old.imported self.new.imported span) }
        ensures gains { IfOk result (Gains (tags_of self.old) (tags_of self.new)) }
        ensures covering { IfOk result (ImportCovers self.old span self.new) }
    {
        let range = span.range();
        if self.has_overlap(&range) {
            return Err(SpanFault::Overlaps(span));
        }
        if !self.is_aligned(&range) {
            return Err(SpanFault::NotAligned(span));
        }
        let len = request.units(self.quantum).unwrap();
        match self.import(span, len) {
            Ok(first) => Ok(first),
            Err(span) => Err(SpanFault::NoMemory(span)),
        }
    }

    /// Adds an imported span that nothing stands against, and carves its first `len` units.
    fn import(&mut self, span: Segment<D>, len: u64) -> Result<Segment<D>, Segment<D>>
        requires route { span.route ≡ Route.Direct }
        requires clear { IsClear self.old span.holding.range }
        requires aligned { OnQuantum self.old.quantum span.holding.range }
        requires some { 0 < len }
        requires room { len ≤ span.holding.range.len }
        requires whole { len % self.old.quantum ≡ 0 }
        ensures segment { IfOk result (λ s.
            s ≡ direct_tag self.old.id (first_units len span.holding)) }
        ensures carved { let first = first_units len span.holding in
            OnOk result (self.new ≡ after_carve (after_import self.old span) span.holding first) }
        ensures range { IfOk result (λ s. IsRange s.holding.range) }
        ensures handed_back { IfErr result (λ same. same ≡ span) }
        ensures unchanged { OnErr result (self.new ≡ self.old) }
    {
        let Ok(()) = self.imported.reserve(self.alloc) else {
            return Err(span);
        };
        let Ok(()) = reserve_free(self.alloc, &mut self.free, &self.tags, 2) else {
            return Err(span);
        };
        let whole = HeldRange::new(span.root(), span.range());
        let first = HeldRange::new(span.root(), piece_of(whole, whole.base(), len));
        let Ok(opened) = self.tags.open() else {
            return Err(span);
        };
        let origin = Origin {
            cell: opened,
            rests: Sides {
                left: false,
                right: first.end() < whole.end(),
            },
        };
        let Ok(Placed { cell, behind }) = self.tags.insert(first, origin) else {
            self.tags.vacate(origin.cell);
            return Err(span);
        };
        let source = span.arena();
        let (deed, rest) = match cut_first(span, len) {
            Ok(parts) => parts,
            Err(span) => {
                let cell = self.tags.remove(first, cell);
                let whole = self.tags.join(cell, origin.rests);
                self.tags.vacate(whole);
                return Err(span);
            }
        };
        let slot = self.free.insert_rest(rest);
        tell(&mut self.free, &mut self.tags, behind, slot);
        self.imported.put(Import::new(source, whole));
        self.rover = first.end();
        Ok(Segment::new(self.id, Route::Direct, deed.into_deed()))
    }

    /// Goes to the allocated range at a base. It is for speed alone: a free of it that follows
    /// needs no search for it.
    pub fn go_to(&mut self, base: u64)
        ensures unchanged { self.new ≡ self.old }
    {
        // The order of bases is searched while the head of the chain is waited for.
        let first = self.tags.head(base);
        if first.get().is_some() {
            self.free.go_to(base, 0);
            self.tags.go_to(first, base);
        }
    }

    /// Frees a segment, and merges its range with its free neighbors inside its span. An imported
    /// span that becomes wholly free is taken out and handed back, to be freed by its source. It
    /// takes no memory. A segment that isn't this arena's comes back.
    pub fn free(&mut self, segment: Segment<D>) -> Result<Option<Segment<D>>, Segment<D>>
        // What it does.
        ensures freed { FreeOf self.old segment result self.new }

        // What follows, for those above.
        ensures sound { IsSoundArena self.new }
        ensures kept { KeepsSetup self.old self.new }
        ensures owned { self.new.owned ≡ self.old.owned }
        ensures loses { OnOk result (Loses (tags_of self.old) (tags_of self.new) segment) }
        ensures returned { IfOk result (λ back.
            (f : Tag → ℕ) → sum_by f self.old.imported
            ≡ sum_by f self.new.imported + sum_by f (option_to_list back)) }
        ensures covering { IfOk result (λ back.
            (u : ℕ) → covering_held u self.new.free + sum_by (covers_tag u) (option_to_list back)
            ≡ covering_held u self.old.free + covers u segment.holding.range) }
        ensures spans { IfOk result (λ back.
            (u : ℕ) → covering_held u (spans_of self.old)
            ≡ covering_held u (spans_of self.new) + sum_by (covers_tag u) (option_to_list back)) }
    {
        if segment.arena() != self.id || segment.route() != Route::Direct {
            return Err(segment);
        }
        let tagged = HeldRange::new(segment.root(), segment.range());
        let cell = match self.tags.get(tagged.base()) {
            Some(found) if found.range == tagged => found.cell,
            _ => return Err(segment),
        };
        let span = span_at(&self.owned, &self.imported, tagged.base()).unwrap();
        let lent = is_span(&self.imported, span);
        let beside = self.tags.beside(cell, tagged.base(), tagged.end());
        let cell = self.tags.remove(tagged, cell);
        let deed = Stored::new(segment.into_deed());
        let GivenBack { became, sides } = self.free.give_back(span, lent, deed, beside);
        let cell = self.tags.join(cell, sides);
        match became {
            Became::Free(slot) => {
                tell(&mut self.free, &mut self.tags, cell, Some(slot));
                Ok(None)
            }
            Became::Whole(whole) => {
                self.tags.vacate(cell);
                let import = self.imported.take(span);
                Ok(Some(Segment::new(import.source(), Route::Direct, whole.into_deed())))
            }
        }
    }
}
