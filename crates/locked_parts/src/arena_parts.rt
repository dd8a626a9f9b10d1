//! An arena as its lock keeps it. What lies there when the lock is taken is known by its type
//! alone, so that it is looked at before an event is asked of it.
ghost use Rattle.std.specs.Prelude.{◌≡◌, ◌≢◌, ◌<◌, ◌≤◌, ◌↔◌, ◌++◌, List, [], Some, None, Ok};
ghost use Rattle.std.specs.Prelude.{IsOk, IsTrue, OnOk, OnErr, IfOk, IfErr};
ghost use Rattle.std.specs.Prelude.{vec_len};
ghost use Rattle.deed_core.specs.Covering.{units_held};
ghost use Rattle.deed_core.specs.Request.{rounding_of, plain_of};
ghost use Rattle.tag_arena.specs.ArenaState.{ranges_of};
ghost use Rattle.tag_arena.specs.Calls.{IsTagged, RefusesCarve, RefusesSpan};
ghost use Rattle.tag_arena.specs.Outcomes.{CarveOf, ImportOf, FreeOf, RemoveOf};
ghost use Rattle.arena_tree.specs.Chains.{Node, quantum_in, source_of};
ghost use Rattle.arena_tree.specs.Events.{Carve, Free, AddCarve};
ghost use Rattle.arena_tree.specs.Tags.{wording_of};
ghost use Rattle.locked_parts.specs.Answers.{AnswersSoundly, IsArenaFor, StaysButArena};
ghost use Rattle.locked_parts.specs.Growing.{CanGrow, HasRootsMore, IsOfArena, PartGrew};
ghost use Rattle.locked_parts.specs.Growing.{IsGrowthBy, IsRefusalBy, RefusesGrow};
ghost use Rattle.locked_parts.specs.Handing.{IsHandedOver};
ghost use Rattle.locked_parts.specs.Saying.{arena_said};
ghost use Rattle.locked_parts.specs.Sums.{ArenaTells};
ghost use Rattle.locked_parts.specs.Words.{carve_word, free_word, span_word};

use crate::end_rooms::EndRoom;
use crate::gates::NextStep;
use crate::said::Said;
use crate::words::{Word, word_of_carve, word_of_free, word_of_span};
use arena_tree::{GivenFault, GrowFault, PartFault};
use deed_core::{Range, Request, Route, Segment};
use deed_table::{Name, Root, Roots, SeatDeed};
use std::alloc::{AllocError, Global};
use std::marker::Model;
use tag_arena::{Arena, ArenaFault, RangeFault, SpanFault};

/// An arena, the number of its source, if it has one, its further roots with their opener, and how
/// many roots it counts beside its lock: those of the setup, none once all were handed over. It
/// keeps room for the end of all these.
pub struct ArenaPart<N: Name> {
    pub(crate) source: Option<u32>,
    pub(crate) arena: Arena<SeatDeed<N>>,
    pub(crate) roots: Roots<N>,
    pub(crate) beside: usize,
    pub(crate) room: EndRoom<N>,
}

impl<N: Name> Model for ArenaPart<N> {
    ghost use Rattle.std.specs.Coded.{codes, coded_ℕ};
    ghost use Rattle.std.specs.Ordering.{nat_cmp};
    ghost use Rattle.std.specs.FinMap as finmap;
    ghost use Rattle.deed_core.specs.Holding.{Holding};
    ghost use Rattle.locked_parts.specs.Answers.{ArenaPartState, IsArenaPart};

    ghost Value = { ArenaPartState };

    ghost coded = { Prim.hlevel
        (codes, finmap.code {X = Holding} {R = nat_cmp} coded_ℕ (Prim.hlevel codes)) };

    ghost view = { λ p.
        record { source = p.source; arena = p.arena; roots = p.roots; beside = p.beside } };

    ghost invariant = { λ p. IsArenaPart
        (record { source = p.source; arena = p.arena; roots = p.roots; beside = p.beside })
        p.room };
}

/// That the arena of this number was asked, and no owned span of it found to be wholly free. Only
/// `ArenaPart` makes one, where it is asked.
#[derive(PartialEq, Eq, Debug, Drop)]
pub struct NoneWhole {
    arena: u32,
}

impl Model for NoneWhole {
    ghost use Rattle.std.specs.Prelude.{ℕ};

    ghost Value = { ℕ };

    ghost view = { λ n. n.arena };

    ghost inverse = { λ n. record { arena = n } };
}

/// That the arena of this number was asked for its roots, and counts fewer beside its lock than
/// were given. Only `ArenaPart` makes one, where it is asked.
#[derive(PartialEq, Eq, Debug, Drop)]
pub struct NotCounted {
    arena: u32,
}

impl Model for NotCounted {
    ghost use Rattle.std.specs.Prelude.{ℕ};

    ghost Value = { ℕ };

    ghost view = { λ n. n.arena };

    ghost inverse = { λ n. record { arena = n } };
}

/// That the arena of this number handed its further roots over, with a list for ranges. Only
/// `ArenaPart` makes one, where it is asked.
#[derive(Drop)]
pub struct HandedOver {
    arena: u32,
    ranges: Vec<Range>,
}

impl Model for HandedOver {
    ghost use Rattle.locked_parts.specs.Handing.{HandedOverState};

    ghost Value = { HandedOverState };

    ghost view = { λ h. record { arena = h.arena; ranges = h.ranges } };
}

impl HandedOver {
    /// The list, which has room for the ranges of all roots of the arena.
    pub fn into_ranges(self) -> Vec<Range>
        ensures { result ≡ self.ranges }
    {
        self.ranges
    }
}

/// What the arena of this number answered, and at which step it was asked. Only `ArenaPart` makes
/// one, where it is asked.
#[derive(Clone, Copy, PartialEq, Eq, Debug)]
pub struct ArenaSaid {
    arena: u32,
    step: NextStep,
    word: Word,
}

impl Model for ArenaSaid {
    ghost use Rattle.locked_parts.specs.Words.{ArenaSaidState};

    ghost Value = { ArenaSaidState };

    ghost view = { λ s. record { arena = s.arena; step = s.step; word = s.word } };

    ghost inverse = { λ s. record { arena = s.arena; step = s.step; word = s.word } };
}

/// That it answered so.
fn arena_says(arena: u32, step: NextStep, word: Word) -> Said
    ensures { result ≡ arena_said arena step word }
{
    Said::Arena(ArenaSaid { arena, step, word })
}

/// That a root was opened for an arena, and its deed added. Only `ArenaPart::grow` makes one.
#[derive(PartialEq, Eq, Debug, Drop)]
pub struct Grown {
    arena: u32,
    range: Range,
}

impl Model for Grown {
    ghost use Rattle.locked_parts.specs.Growing.{GrownState};

    ghost Value = { GrownState };

    ghost view = { λ g. record { arena = g.arena; range = g.range } };

    ghost inverse = { λ g. record { arena = g.arena; range = g.range } };
}

/// That an arena was asked for a growth by this range, and refused it for this fault. Only
/// `ArenaPart::grow` makes one.
#[derive(PartialEq, Eq, Debug, Drop)]
pub struct GrowthRefused {
    arena: u32,
    range: Range,
    fault: GrowFault,
}

impl Model for GrowthRefused {
    ghost use Rattle.locked_parts.specs.Growing.{GrowthRefusedState};

    ghost Value = { GrowthRefusedState };

    ghost view = { λ r. record { arena = r.arena; range = r.range; fault = r.fault } };

    ghost inverse = { λ r. record { arena = r.arena; range = r.range; fault = r.fault } };
}

impl GrowthRefused {
    /// Why.
    pub fn fault(&self) -> GrowFault
        ensures { result ≡ self.now.fault }
    {
        self.fault
    }
}

/// What an arena was set up as: its number, its quantum, and the number of its source, if it has
/// one.
#[derive(Clone, Copy, PartialEq, Eq, Debug)]
pub struct ArenaSet {
    pub number: u32,
    pub quantum: u64,
    pub source: Option<u32>,
}

/// That an arena is another than this one, which was sought. Only `ArenaPart::look` makes one.
#[derive(PartialEq, Eq, Debug, Drop)]
pub(crate) struct OtherArena {
    sought: ArenaSet,
}

impl Model for OtherArena {
    ghost use Rattle.locked_parts.specs.declared.arena_parts.ArenaSet.{ArenaSet};

    ghost Value = { ArenaSet };

    ghost view = { λ o. o.sought };

    ghost inverse = { λ s. record { sought = s } };
}

/// The lowest owned span of the arena of this number that was wholly free, which was taken out.
/// Only `ArenaPart` makes one, where it is asked.
pub struct Taken<N: Name> {
    arena: u32,
    deed: SeatDeed<N>,
}

impl<N: Name> Model for Taken<N> {
    ghost use Rattle.locked_parts.specs.Handing.{TakenState};

    ghost Value = { TakenState };

    ghost view = { λ t. record { arena = t.arena; deed = t.deed } };
}

impl<N: Name> Taken<N> {
    /// The span.
    pub fn into_deed(self) -> SeatDeed<N>
        ensures { result ≡ self.deed }
    {
        let Taken { arena: _, deed } = self;
        deed
    }
}

impl<N: Name> ArenaPart<N> {
    /// What it was set up as.
    pub(crate) fn set(&self) -> ArenaSet
        ensures { IsArenaFor result self.now }
    {
        ArenaSet {
            number: self.arena.id(),
            quantum: self.arena.quantum(),
            source: self.source,
        }
    }

    /// Whether it is this arena.
    fn is(&self, set: &ArenaSet) -> bool
        ensures { IsTrue result ↔ IsArenaFor set.now self.now }
    {
        self.arena.id() == set.number
            && self.arena.quantum() == set.quantum
            && self.source == set.source
    }

    /// Looks whether it is the arena that is sought.
    pub(crate) fn look(&self, sought: &ArenaSet) -> Result<(), OtherArena>
        ensures exactly { IsOk result ↔ IsArenaFor sought.now self.now }
        ensures other { IfErr result (λ other. other ≡ sought.now) }
    {
        if !self.is(sought) {
            return Err(OtherArena { sought: *sought });
        }
        Ok(())
    }

    /// Carves a segment for the request.
    pub(crate) fn carve(
        &mut self,
        said: &mut Said,
        step: NextStep,
        request: &Request,
    ) -> Result<Segment<SeatDeed<N>>, ArenaFault>
        ensures sound { (nodes : List Node)
            → quantum_in nodes self.old.arena.id ≡ self.old.arena.quantum
            → AnswersSoundly nodes (Carve self.old.arena.id request.now)
            (wording_of PartFault.Refused result) }
        ensures said { said.new ≡ arena_said self.old.arena.id step (carve_word result) }
        ensures event { IfOk result (λ t.
            CarveOf self.old.arena request.now (Ok t) self.new.arena) }
        ensures refused { IfErr result (RefusesCarve self.old.arena request.now) }
        ensures rest { StaysButArena self.old self.new }
        ensures unchanged { OnErr result (self.new ≡ self.old) }
    {
        let own = self.arena.id();
        let carved = self.arena.xalloc(request);
        *said = arena_says(own, step, word_of_carve(&carved));
        carved
    }

    /// Frees a segment of it.
    pub(crate) fn free(
        &mut self,
        said: &mut Said,
        step: NextStep,
        segment: Segment<SeatDeed<N>>,
    ) -> Result<Option<Segment<SeatDeed<N>>>, Segment<SeatDeed<N>>>
        ensures sound { (nodes : List Node) → source_of nodes segment.arena ≡ self.old.source
            → AnswersSoundly nodes (Free segment) (wording_of GivenFault.Refused result) }
        ensures said { said.new ≡ arena_said self.old.arena.id step (free_word result) }
        ensures event { IfOk result (λ back.
            FreeOf self.old.arena segment (Ok back) self.new.arena) }
        ensures refused { OnErr result (¬ IsTagged self.old.arena segment) }
        ensures rest { StaysButArena self.old self.new }
        ensures unchanged { OnErr result (self.new ≡ self.old) }
    {
        let own = self.arena.id();
        let freed = self.arena.free(segment);
        *said = arena_says(own, step, word_of_free(&freed));
        freed
    }

    /// Adds a span of its source, and carves the span's first units. One of another arena is
    /// refused.
    pub(crate) fn add_carve(
        &mut self,
        said: &mut Said,
        step: NextStep,
        span: Segment<SeatDeed<N>>,
        size: u64,
    ) -> Result<Segment<SeatDeed<N>>, SpanFault<Segment<SeatDeed<N>>>>
        requires some { 0 < size }
        requires room { rounding_of self.old.arena.quantum size ≤ span.holding.range.len }
        requires direct { span.route ≡ Route.Direct }
        ensures sound { (nodes : List Node)
            → quantum_in nodes self.old.arena.id ≡ self.old.arena.quantum
            → AnswersSoundly nodes (AddCarve self.old.arena.id span size)
            (wording_of GivenFault.Refused result) }
        ensures said { said.new ≡ arena_said self.old.arena.id step (span_word result) }
        ensures event { IfOk result (λ t.
            ImportOf self.old.arena span (plain_of size) (Ok t) self.new.arena) }
        ensures refused { IfErr result (λ f. self.old.source ≡ Some span.arena
            → RefusesSpan self.old.arena span.holding.range span f) }
        ensures foreign { IfErr result (λ f. self.old.source ≢ Some span.arena
            → f ≡ SpanFault.Overlaps span) }
        ensures rest { StaysButArena self.old self.new }
        ensures unchanged { OnErr result (self.new ≡ self.old) }
    {
        let own = self.arena.id();
        if self.source != Some(span.arena()) {
            *said = arena_says(own, step, Word::Overlaps);
            return Err(SpanFault::Overlaps(span));
        }
        // For its clause: what is always so of a range.
        let _ = span.range();
        let request = Request::plain(size);
        let carved = self.arena.add_span_and_carve(span, &request);
        *said = arena_says(own, step, word_of_span(&carved));
        carved
    }

    /// The units of its free ranges and of its allocated ones.
    pub(crate) fn units(&self) -> (u128, u128)
        ensures tells { ArenaTells self.now.arena.id result.0 result.1 }
        ensures free { result.0 ≡ units_held self.now.arena.free }
        ensures allocated { result.1 ≡ units_held (ranges_of self.now.arena.allocated) }
    {
        let report = self.arena.report();
        (report.free, report.allocated)
    }

    /// Whether the arena can have a further root of this range, were there memory for it, or the
    /// first reason why not.
    fn judge_growth(&self, range: &Range) -> Result<(), GrowFault>
        ensures of_arena { IsOfArena result }
        ensures can { OnOk result (CanGrow self.now range.now) }
        ensures refused { IfErr result (RefusesGrow self.now range.now) }
        ensures judged { IfErr result (λ f. f ≢ GrowFault.NoMemory) }
    {
        match self.arena.admits(range) {
            Ok(()) => {}
            Err(RangeFault::Overlaps) => return Err(GrowFault::Overlaps),
            Err(RangeFault::NotAligned) => return Err(GrowFault::NotAligned),
        }
        if self.roots.left() == 0 {
            return Err(GrowFault::TooMany);
        }
        Ok(())
    }

    /// Opens a further root of this range for it, adds its deed, and keeps room for its end.
    pub(crate) fn grow(&mut self, range: Range) -> Result<Grown, GrowthRefused>
        ensures grown { OnOk result (PartGrew self.old range self.new) }
        ensures told { IfOk result (IsGrowthBy self.old.arena.id range) }
        ensures refused { IfErr result (IsRefusalBy self.old.arena.id range) }
        ensures why { IfErr result (λ r. RefusesGrow self.old range r.fault) }
        ensures unchanged { OnErr result (self.new ≡ self.old) }
    {
        let arena = self.arena.id();
        let fault = match self.judge_growth(&range) {
            Ok(()) => match self.open_root(range) {
                Ok(()) => return Ok(Grown { arena, range }),
                Err(AllocError) => GrowFault::NoMemory,
            },
            Err(fault) => fault,
        };
        Err(GrowthRefused {
            arena,
            range,
            fault,
        })
    }

    /// Makes room for the end of one root more, opens the root, and adds its deed.
    fn open_root(&mut self, range: Range) -> Result<(), AllocError>
        requires can { CanGrow self.old range }
        ensures grown { OnOk result (PartGrew self.old range self.new) }
        ensures unchanged { OnErr result (self.new ≡ self.old) }
    {
        let count = self.beside + self.roots.roots().len();
        self.room.make(count + 1)?;
        self.arena.grow(range, &mut self.roots)
    }

    /// Moves its further roots behind those that stand beside the lock, and gives the list that has
    /// room for the ranges of all. It takes no memory. Nothing is done where more stand beside the
    /// lock than it counts there.
    pub(crate) fn hand_over(
        &mut self,
        alloc: Global,
        to: &mut Vec<Root<N>>,
    ) -> Result<HandedOver, NotCounted>
        ensures exactly { IsOk result ↔ (vec_len to.old ≤ self.old.beside) }
        ensures moved { OnOk result ((to.new.items ≡ to.old.items ++ self.old.roots.roots)
            × (self.new.roots.roots ≡ [])) }
        ensures more { HasRootsMore self.old.arena.id to.old.items to.new.items }
        ensures room { IfOk result (IsHandedOver self.old.arena.id to.new) }
        ensures arena { self.new.arena ≡ self.old.arena }
        ensures source { self.new.source ≡ self.old.source }
        ensures counted { OnOk result (self.new.beside ≡ 0) }
        ensures numbers { OnOk result (self.new.roots.left ≡ self.old.roots.left) }
        ensures asked { IfErr result (λ asked. asked ≡ self.old.arena.id) }
        ensures unchanged { OnErr result ((to.new.items ≡ to.old.items) × (self.new ≡ self.old)) }
    {
        let arena = self.arena.id();
        if to.len() > self.beside {
            return Err(NotCounted { arena });
        }
        // For its clause: which numbers the roots have.
        let _ = self.roots.left();
        let ranges = self.room.give(alloc, to);
        match self.roots.hand_over(to) {
            Ok(()) => self.beside = 0,
            Err(AllocError) => unreachable!(),
        }
        Ok(HandedOver { arena, ranges })
    }

    /// Takes out the lowest owned span that is wholly free.
    pub(crate) fn remove_owned(&mut self) -> Result<Taken<N>, NoneWhole>
        ensures taken { IfOk result (λ t. RemoveOf self.old.arena (Some t.deed) self.new.arena) }
        ensures from { IfOk result (λ t. t.arena ≡ self.old.arena.id) }
        ensures none { OnErr result (RemoveOf self.old.arena None self.new.arena) }
        ensures asked { IfErr result (λ asked. asked ≡ self.old.arena.id) }
        ensures rest { StaysButArena self.old self.new }
    {
        let arena = self.arena.id();
        let Some(deed) = self.arena.remove_owned() else {
            return Err(NoneWhole { arena });
        };
        Ok(Taken { arena, deed })
    }
}
