//! An arena.
ghost use Rattle.std.specs.Prelude.{◌≡◌, ◌+◌, ◌≤◌, ℕ, [], IsOk, IfOk, IfErr, IfSome, OnOk, sum_by};
ghost use Rattle.std.specs.Prelude.{OnErr, option_to_list};
ghost use Rattle.std.specs.Option.{option_map};
ghost use Rattle.deed_core.specs.Covering.{covering_held, covers_tag};
ghost use Rattle.deed_core.specs.Extent.{IsRange};
ghost use Rattle.deed_core.specs.Tag.{Tag};
ghost use Rattle.deed_core.specs.Weights.{Gains, Loses, one_at};
ghost use Rattle.tag_arena.specs.ArenaState.{IsSoundArena, layout_of, spans_of, tags_of};
ghost use Rattle.tag_arena.specs.Layout.{FreeIsLongestRuns};
ghost use Rattle.tag_arena.specs.Calls.{AdmitsRange, RefusesRange, IsServedByList};
ghost use Rattle.tag_arena.specs.Laws.{IsAnsweredExactly};
ghost use Rattle.tag_arena.specs.Outcomes.{KeepsSetup, AddSpanOf, CarveOf, IsImportFor, ImportOf};
ghost use Rattle.tag_arena.specs.Outcomes.{ImportCovers, FreeOf, RemoveOf, WasGrown};

use crate::arenas::check_import;
use deed_core::{Deed, Opens, PlainDeed, PlainOpener, Range, Request, Segment};
use std::alloc::AllocError;
use std::process::Abort;
use tag_arena::{
    Arena, ArenaFault, Policy, RangeFault, SpanFault, allocated_laws, arena_laws, serving_laws,
};

/// What is known of any arena, as one taken from behind a lock.
fn known<D: Deed>(arena: &Arena<D>)
    ensures sound { IsSoundArena arena.now }
    ensures longest { FreeIsLongestRuns (layout_of arena.now) }
    ensures once { (u : ℕ) → covering_held u (spans_of arena.now) ≤ 1 }
{
    arena_laws();
    let _ = arena.id();
}

/// A span is added, or is back.
fn add<D: Deed>(arena: &mut Arena<D>, deed: D) -> Result<(), SpanFault<D>>
    ensures added { AddSpanOf arena.old deed (D.holding deed) result arena.new }
    ensures sound { IsSoundArena arena.new }
    ensures kept { KeepsSetup arena.old arena.new }
    ensures imported { arena.new.imported ≡ arena.old.imported }
{
    arena.add_span(deed)
}

/// A range may become a span, or why it may not.
fn admit<D: Deed>(arena: &Arena<D>, range: &Range) -> Result<(), RangeFault>
    ensures admitted { OnOk result (AdmitsRange arena.now range.now) }
    ensures refused { IfErr result (RefusesRange arena.now range.now) }
{
    arena.admits(range)
}

/// A range is opened as a root and added as a span, or neither.
fn grow<D: Deed, O: Opens<D>>(
    arena: &mut Arena<D>,
    range: Range,
    opener: &mut O,
) -> Result<(), AllocError>
    requires admitted { AdmitsRange arena.old range }
    requires left { O.can_open opener.old }
    ensures grown { OnOk result
        (WasGrown O.opens arena.old opener.old range arena.new opener.new) }
    ensures unchanged { OnErr result ((arena.new ≡ arena.old) × (opener.new ≡ opener.old)) }
    ensures sound { IsSoundArena arena.new × KeepsSetup arena.old arena.new }
    ensures imported { arena.new.imported ≡ arena.old.imported }
{
    arena.grow(range, opener)
}

/// A request that a list serves is served at one look.
fn carve_listed<D: Deed>(arena: &mut Arena<D>, request: &Request) -> Result<Segment<D>, ArenaFault>
    requires { IsServedByList arena.old request.now }
    ensures { OnOk result (arena.new.looks ≡ 1) }
{
    arena.xalloc(request)
}

/// A segment is carved, or none: which of the two, and why, is told by the free ranges alone.
fn carve<D: Deed>(arena: &mut Arena<D>, request: &Request) -> Result<Segment<D>, ArenaFault>
    ensures carved { CarveOf arena.old request.now result arena.new }
    ensures exact { IsAnsweredExactly arena.old request.now result }
    ensures sound { IsSoundArena arena.new }
    ensures kept { KeepsSetup arena.old arena.new }
    ensures spans { (arena.new.owned ≡ arena.old.owned)
        × (arena.new.imported ≡ arena.old.imported) }
    ensures gains { IfOk result (Gains (tags_of arena.old) (tags_of arena.new)) }
{
    known(arena);
    serving_laws();
    arena.xalloc(request)
}

/// A carved segment has a unit.
fn carve_some<D: Deed>(arena: &mut Arena<D>, request: &Request) -> Option<Segment<D>>
    ensures { IfSome result (λ t. IsRange t.holding.range) }
{
    match carve(arena, request) {
        Ok(segment) => Some(segment),
        Err(_) => None,
    }
}

/// A span is imported and carved, or is back.
fn import<D: Deed>(
    arena: &mut Arena<D>,
    span: Segment<D>,
    request: &Request,
) -> Result<Segment<D>, SpanFault<Segment<D>>>
    requires span { IsImportFor arena.old.quantum span request.now }
    ensures carved { ImportOf arena.old span request.now result arena.new }
    ensures sound { IsSoundArena arena.new × KeepsSetup arena.old arena.new }
    ensures owned { arena.new.owned ≡ arena.old.owned }
    ensures imported { OnOk result (Gains arena.old.imported arena.new.imported span) }
    ensures gains { IfOk result (Gains (tags_of arena.old) (tags_of arena.new)) }
    ensures covering { IfOk result (ImportCovers arena.old span arena.new) }
{
    arena.add_span_and_carve(span, request)
}

/// A segment is freed, or isn't allocated here and is back.
fn free<D: Deed>(
    arena: &mut Arena<D>,
    segment: Segment<D>,
) -> Result<Option<Segment<D>>, Segment<D>>
    ensures freed { FreeOf arena.old segment result arena.new }
    ensures counts { IfErr result (λ back. sum_by (one_at back) (tags_of arena.old) ≡ 0) }
    ensures sound { IsSoundArena arena.new × KeepsSetup arena.old arena.new }
    ensures owned { arena.new.owned ≡ arena.old.owned }
    ensures loses { OnOk result (Loses (tags_of arena.old) (tags_of arena.new) segment) }
    ensures returned { IfOk result (λ back. (f : Tag → ℕ) → sum_by f arena.old.imported
        ≡ sum_by f arena.new.imported + sum_by f (option_to_list back)) }
    ensures spans { IfOk result (λ back. (u : ℕ) → covering_held u (spans_of arena.old)
        ≡ covering_held u (spans_of arena.new) + sum_by (covers_tag u) (option_to_list back)) }
{
    known(arena);
    allocated_laws();
    match arena.free(segment) {
        Ok(back) => Ok(back),
        Err(same) => Err(same),
    }
}

/// The lowest whole span is taken out.
fn remove<D: Deed>(arena: &mut Arena<D>) -> Option<D>
    ensures removed { RemoveOf arena.old (option_map D.holding result) arena.new }
    ensures sound { IsSoundArena arena.new }
    ensures kept { KeepsSetup arena.old arena.new }
    ensures imported { arena.new.imported ≡ arena.old.imported }
    ensures loses { IfSome result (λ deed.
        Loses arena.old.owned arena.new.owned (D.holding deed)) }
{
    arena.remove_owned()
}

/// An arena of imported spans closes once nothing of it is out.
fn close<D: Deed>(arena: Arena<D>) -> Result<(), Arena<D>>
    requires none { tags_of arena ≡ [] }
    requires owned { arena.owned ≡ [] }
    ensures { IsOk result }
{
    known(&arena);
    arena_laws();
    arena.close()
}

fn span(rt: &impl Abort, base: u64, len: u64) -> PlainDeed {
    PlainDeed::new(0, Range::new(base, len).expect(rt, "a range"))
}

fn granted(rt: &impl Abort, arena: &mut Arena<PlainDeed>, size: u64) -> Segment<PlainDeed> {
    match carve_some(arena, &Request::plain(size)) {
        Some(segment) => segment,
        None => panic!(rt; "a segment"),
    }
}

fn first_of(
    rt: &impl Abort,
    child: &mut Arena<PlainDeed>,
    imported: Segment<PlainDeed>,
    request: &Request,
) -> Segment<PlainDeed> {
    check_import(rt, child.quantum(), &imported, request);
    match import(child, imported, request) {
        Ok(first) => first,
        Err(_) => panic!(rt; "memory"),
    }
}

fn freed(
    rt: &impl Abort,
    arena: &mut Arena<PlainDeed>,
    segment: Segment<PlainDeed>,
) -> Option<Segment<PlainDeed>> {
    match free(arena, segment) {
        Ok(back) => back,
        Err(_) => panic!(rt; "the segment is the arena's"),
    }
}

fn ended(rt: &impl Abort, arena: Arena<PlainDeed>) {
    match arena.close() {
        Ok(()) => {}
        Err(_) => panic!(rt; "a deed is left"),
    }
}

#[test]
fn a_span_is_opened(rt: HostRuntime) {
    let mut arena: Arena<PlainDeed> = Arena::new(rt.alloc(), 1, 1, Policy::Best);
    let range = Range::new(0, 16).expect(&rt, "a range");
    let mut opener = PlainOpener::new(3, 1);
    assert_eq!(rt; admit(&arena, &range), Ok(()));
    match grow(&mut arena, range, &mut opener) {
        Ok(()) => {}
        Err(AllocError) => panic!(rt; "memory"),
    }
    assert_eq!(rt; admit(&arena, &range), Err(RangeFault::Overlaps));
    match remove(&mut arena) {
        Some(deed) => {
            assert_eq!(rt; deed.root(), 3);
            deed.close();
        }
        None => panic!(rt; "the span is whole"),
    }
    ended(&rt, arena);
}

#[test]
fn a_span_goes_and_comes_back(rt: HostRuntime) {
    let mut source = Arena::new(rt.alloc(), 1, 1, Policy::Best);
    let mut child = Arena::new(rt.alloc(), 2, 1, Policy::Best);
    match add(&mut source, span(&rt, 0, 16)) {
        Ok(()) => {}
        Err(_) => panic!(rt; "memory"),
    }
    let imported = granted(&rt, &mut source, 8);
    let first = first_of(&rt, &mut child, imported, &Request::plain(4));
    let back = match freed(&rt, &mut child, first) {
        Some(back) => back,
        None => panic!(rt; "the span is whole"),
    };
    ended(&rt, child);
    match freed(&rt, &mut source, back) {
        Some(_) => panic!(rt; "the span is owned"),
        None => {}
    }
    match remove(&mut source) {
        Some(deed) => assert_eq!(rt; deed.close().len(), 16),
        None => panic!(rt; "the span is whole"),
    }
    ended(&rt, source);
}
