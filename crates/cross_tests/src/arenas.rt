//! Rows of calls of an arena with what they must give, and what is refused.
ghost use Rattle.std.specs.Prelude.{◌<◌};
ghost use Rattle.tag_arena.specs.Outcomes.{IsImportFor};

mod growing;
mod growth;
mod imports;
mod policies;
mod spans;

use crate::same_answers::run_both;
use deed_core::{Deed, PlainDeed, Range, Request, Route, Segment};
use refusing_deed::RefusingDeed;
use std::alloc::{AllocGlobal, Global};
use std::process::Abort;
use std::test::Fail;
use tag_arena::{Arena, ArenaFault, ArenaReport, Policy, SpanFault};

fn span(rt: &impl Abort, root: u32, base: u64, len: u64) -> PlainDeed {
    PlainDeed::new(root, Range::new(base, len).expect(rt, "a range"))
}

fn add<D: Deed>(rt: &impl Abort, arena: &mut Arena<D>, deed: D) {
    match arena.add_span(deed) {
        Ok(()) => {}
        Err(_) => panic!(rt; "the span is added"),
    }
}

/// Why a span is refused.
#[derive(Clone, Copy, PartialEq, Eq, Debug)]
pub(crate) enum SpanWhy {
    Overlaps,
    NotAligned,
    NoMemory,
}

/// A span that was refused, and why.
pub(crate) fn span_back<S>(fault: SpanFault<S>) -> (S, SpanWhy) {
    match fault {
        SpanFault::Overlaps(span) => (span, SpanWhy::Overlaps),
        SpanFault::NotAligned(span) => (span, SpanWhy::NotAligned),
        SpanFault::NoMemory(span) => (span, SpanWhy::NoMemory),
    }
}

fn grant<D: Deed>(
    rt: &impl Abort,
    arena: &mut Arena<D>,
    request: &Request,
    base: u64,
    len: u64,
) -> Segment<D> {
    match arena.xalloc(request) {
        Ok(segment) => {
            stands(rt, &segment, base, len);
            segment
        }
        Err(fault) => panic!(rt; "{fault}"),
    }
}

fn no_grant<D: Deed>(rt: &impl Abort, arena: &mut Arena<D>, request: &Request, why: ArenaFault) {
    match arena.xalloc(request) {
        Ok(_) => panic!(rt; "the request is refused"),
        Err(fault) => assert_eq!(rt; fault, why),
    }
}

fn stands<D: Deed>(rt: &impl Abort, segment: &Segment<D>, base: u64, len: u64) {
    let range = segment.range();
    assert_eq!(rt; range.base(), base);
    assert_eq!(rt; range.len(), len);
}

fn counts<D: Deed>(rt: &impl Abort, arena: &Arena<D>, span: u128, free: u128, allocated: u128) {
    let wanted = ArenaReport {
        span,
        free,
        allocated,
    };
    assert_eq!(rt; arena.report(), wanted);
}

fn give_back<D: Deed>(rt: &impl Abort, arena: &mut Arena<D>, segment: Segment<D>) {
    match arena.free(segment) {
        Ok(None) => {}
        Ok(Some(_back)) => panic!(rt; "no imported span is whole"),
        Err(_) => panic!(rt; "the segment was carved here"),
    }
}

/// A call of an arena, with what it must give.
#[derive(Clone, Copy)]
pub(crate) enum Step {
    /// A grant at this base, of as many units as are asked for.
    Grant(Request, u64),
    /// No range serves the request.
    NoFit(Request),
    /// The segment at this base goes back.
    Free(u64),
}

fn taken_out<D: Deed>(rt: &impl Abort, held: &mut Vec<Segment<D>>, base: u64) -> Segment<D> {
    let at = held
        .iter()
        .position(|segment| segment.range().base() == base)
        .expect(rt, "a segment at the base");
    held.remove(at)
}

fn take_step<D: Deed>(
    rt: &impl Abort,
    arena: &mut Arena<D>,
    held: &mut Vec<Segment<D>>,
    step: Step,
) {
    match step {
        Step::Grant(request, base) => {
            let segment = grant(rt, arena, &request, base, request.size);
            assert!(rt; held.len() < held.capacity());
            held.push_reserved(segment);
        }
        Step::NoFit(request) => no_grant(rt, arena, &request, ArenaFault::NoFit),
        Step::Free(base) => {
            let segment = taken_out(rt, held, base);
            give_back(rt, arena, segment);
        }
    }
}

/// Takes the steps, and then frees what is held.
fn run<D: Deed>(rt: &(impl Abort + AllocGlobal), arena: &mut Arena<D>, steps: &[Step]) {
    let mut held = Vec::with_capacity(rt.alloc(), 16).expect(rt, "room");
    for &step in steps {
        take_step(rt, arena, &mut held, step);
    }
    give_all(rt, arena, held);
}

fn give_all<D: Deed>(rt: &impl Abort, arena: &mut Arena<D>, mut held: Vec<Segment<D>>) {
    while let Some(segment) = held.pop() {
        give_back(rt, arena, segment);
    }
    held.destroy_empty();
}

/// Stops where an arena of this quantum may not be asked to import the span for the request.
pub(crate) fn check_import<D: Deed>(
    rt: &impl Abort,
    quantum: u64,
    span: &Segment<D>,
    request: &Request,
)
    requires { 0 < quantum }
    ensures { IsImportFor quantum span.now request.now }
{
    assert!(rt; span.route() == Route::Direct);
    assert!(rt; request.is_good(quantum));
    assert!(rt; !request.is_constrained());
    let len = request.units(quantum).expect(rt, "a length");
    assert!(rt; len <= span.range().len());
}

fn try_import<D: Deed>(
    rt: &impl Abort,
    arena: &mut Arena<D>,
    span: Segment<D>,
    request: &Request,
) -> Result<Segment<D>, SpanFault<Segment<D>>> {
    check_import(rt, arena.quantum(), &span, request);
    arena.add_span_and_carve(span, request)
}

fn import<D: Deed>(
    rt: &impl Abort,
    arena: &mut Arena<D>,
    span: Segment<D>,
    request: &Request,
) -> Segment<D> {
    match try_import(rt, arena, span, request) {
        Ok(segment) => segment,
        Err(_) => panic!(rt; "the span is imported"),
    }
}

fn take_back<D: Deed>(rt: &impl Abort, arena: &mut Arena<D>, last: Segment<D>) -> Segment<D> {
    match arena.free(last) {
        Ok(Some(back)) => back,
        Ok(None) => panic!(rt; "the imported span is whole"),
        Err(_) => panic!(rt; "the segment was carved here"),
    }
}

fn take_span<D: Deed>(rt: &impl Abort, arena: &mut Arena<D>) -> D {
    arena.remove_owned().expect(rt, "a wholly free span")
}

fn close<D: Deed>(rt: &impl Abort, arena: Arena<D>) {
    match arena.close() {
        Ok(()) => {}
        Err(_) => panic!(rt; "the arena holds no deed"),
    }
}

/// Takes out a span, which must be the one of this range, and ends it.
fn end_span(rt: &impl Abort, arena: &mut Arena<PlainDeed>, base: u64, len: u64) {
    let range = take_span(rt, arena).close();
    assert_eq!(rt; range.base(), base);
    assert_eq!(rt; range.len(), len);
}

/// Takes the steps in an arena of one span.
fn run_alone(rt: &(impl Abort + AllocGlobal), policy: Policy, base: u64, len: u64, steps: &[Step]) {
    run_spans(rt, policy, &[(base, len)], steps);
}

/// Takes the steps in an arena of these spans, from the lowest on, which are whole at the end, and
/// then in both bodies.
fn run_spans(
    rt: &(impl Abort + AllocGlobal),
    policy: Policy,
    spans: &[(u64, u64)],
    steps: &[Step],
) {
    let mut arena = Arena::new(rt.alloc(), 1, 1, policy);
    for &(base, len) in spans {
        add(rt, &mut arena, span(rt, 1, base, len));
    }
    run(rt, &mut arena, steps);
    for &(base, len) in spans {
        end_span(rt, &mut arena, base, len);
    }
    close(rt, arena);
    run_both(rt, policy, spans, steps);
}

/// Numbers cycle before they are used again.
#[test]
fn next_cycles(rt: HostRuntime) {
    let one = Request::plain(1);
    let steps = [
        Step::Grant(one, 1),
        Step::Grant(one, 2),
        Step::Grant(one, 3),
        Step::Free(2),
        Step::Grant(one, 4),
        Step::Grant(one, 5),
        Step::Grant(one, 6),
        Step::Grant(one, 7),
        Step::Grant(one, 8),
        Step::Grant(one, 2),
        Step::NoFit(one),
    ];
    run_alone(&rt, Policy::Next, 1, 8, &steps);
}

/// A segment may end on a boundary, and none straddles one.
#[test]
fn boundaries(rt: HostRuntime) {
    let five = Request {
        align: 8,
        phase: 3,
        nocross: 8,
        ..Request::plain(5)
    };
    let six = Request { size: 6, ..five };
    let steps = [Step::Grant(five, 3), Step::NoFit(six)];
    run_alone(&rt, Policy::Best, 0, 64, &steps);
}

/// The window's end is exclusive.
#[test]
fn windows(rt: HostRuntime) {
    let window = Request {
        min: 10,
        max: 15,
        ..Request::plain(5)
    };
    let steps = [Step::Grant(window, 10), Step::NoFit(window)];
    run_alone(&rt, Policy::Best, 0, 64, &steps);
}

/// A greater list is taken before the exact fit, the exact fit where there is none, and a power of
/// two uses its own list.
#[test]
fn instant_lists(rt: HostRuntime) {
    let steps = [
        Step::Grant(Request::plain(5), 0),
        Step::Grant(Request::plain(1), 5),
        Step::Grant(Request::plain(8), 6),
        Step::Grant(Request::plain(1), 14),
        Step::Free(0),
        Step::Free(6),
        Step::Grant(Request::plain(4), 0),
    ];
    run_alone(&rt, Policy::Instant, 0, 15, &steps);
}

/// The list above the one that a size between two powers of two is on serves it.
#[test]
fn instant_falls_back(rt: HostRuntime) {
    let steps = [
        Step::Grant(Request::plain(5), 0),
        Step::Grant(Request::plain(1), 5),
        Step::Grant(Request::plain(8), 6),
        Step::Grant(Request::plain(1), 14),
        Step::Free(0),
        Step::Free(6),
        Step::Grant(Request::plain(5), 6),
        Step::Grant(Request::plain(5), 0),
    ];
    run_alone(&rt, Policy::Instant, 0, 15, &steps);
}

/// A freed range merges with its neighbors on both sides.
#[test]
fn freed_ranges_merge(rt: HostRuntime) {
    let four = Request::plain(4);
    let steps = [
        Step::Grant(four, 0),
        Step::Grant(four, 4),
        Step::Grant(four, 8),
        Step::Free(0),
        Step::Free(8),
        Step::Free(4),
        Step::Grant(Request::plain(12), 0),
    ];
    run_alone(&rt, Policy::Instant, 0, 12, &steps);
}

/// An imported span goes back when its last segment is freed.
#[test]
fn imported_spans_go_back(rt: HostRuntime) {
    let mut source = Arena::new(rt.alloc(), 1, 1, Policy::Best);
    let mut child = Arena::new(rt.alloc(), 2, 1, Policy::Best);
    add(&rt, &mut source, span(&rt, 1, 0, 64));
    let four = Request::plain(4);
    no_grant(&rt, &mut child, &four, ArenaFault::NoFit);
    let imported = grant(&rt, &mut source, &Request::plain(16), 0, 16);
    let first = import(&rt, &mut child, imported, &four);
    stands(&rt, &first, 0, 4);
    let eight = grant(&rt, &mut source, &Request::plain(8), 16, 8);
    counts(&rt, &source, 64, 40, 24);
    counts(&rt, &child, 16, 12, 4);

    let back = take_back(&rt, &mut child, first);
    assert_eq!(rt; back.arena(), 1);
    stands(&rt, &back, 0, 16);
    close(&rt, child);
    give_back(&rt, &mut source, back);
    let low = grant(&rt, &mut source, &Request::plain(8), 0, 8);
    give_back(&rt, &mut source, low);
    give_back(&rt, &mut source, eight);
    end_span(&rt, &mut source, 0, 64);
    close(&rt, source);
}

/// A carve takes two splits. Refused at either, it leaves the arena as it was. The joined deed is
/// refused once more for each split that went well.
#[test]
fn a_refused_split_leaves_the_arena(rt: HostRuntime) {
    let middle = Request {
        min: 4,
        max: 12,
        ..Request::plain(8)
    };
    for splits in 0..2 {
        let mut arena = Arena::new(rt.alloc(), 1, 1, Policy::Best);
        let range = Range::new(0, 16).expect(&rt, "a range");
        add(&rt, &mut arena, RefusingDeed::new(1, range, splits));
        for _ in 0..=splits {
            no_grant(&rt, &mut arena, &middle, ArenaFault::NoMemory);
            counts(&rt, &arena, 16, 16, 0);
        }
        let segment = grant(&rt, &mut arena, &middle, 4, 8);
        give_back(&rt, &mut arena, segment);
        assert_eq!(rt; take_span(&rt, &mut arena).close(), range);
        close(&rt, arena);
    }
}

/// An imported span whose split is refused comes back, and the arena is as it was.
#[test]
fn a_refused_import_comes_back(rt: HostRuntime) {
    let mut source = Arena::new(rt.alloc(), 1, 1, Policy::Best);
    let mut child = Arena::new(rt.alloc(), 2, 1, Policy::Best);
    let range = Range::new(0, 16).expect(&rt, "a range");
    add(&rt, &mut source, RefusingDeed::new(1, range, 0));
    let span = grant(&rt, &mut source, &Request::plain(16), 0, 16);
    let four = Request::plain(4);
    let span = match try_import(&rt, &mut child, span, &four) {
        Ok(_) => panic!(rt; "the split is refused"),
        Err(fault) => {
            let (span, why) = span_back(fault);
            assert_eq!(rt; why, SpanWhy::NoMemory);
            span
        }
    };
    stands(&rt, &span, 0, 16);
    counts(&rt, &child, 0, 0, 0);
    let first = import(&rt, &mut child, span, &four);
    stands(&rt, &first, 0, 4);
    let back = take_back(&rt, &mut child, first);
    close(&rt, child);
    give_back(&rt, &mut source, back);
    assert_eq!(rt; take_span(&rt, &mut source).close(), range);
    close(&rt, source);
}

fn arena_of_fours(alloc: Global, id: u32) -> Arena<PlainDeed> {
    Arena::new(alloc, id, 4, Policy::Best)
}

/// An arena says what it was made with.
#[test]
fn made_with(rt: HostRuntime) {
    let arena = arena_of_fours(rt.alloc(), 7);
    assert_eq!(rt; arena.id(), 7);
    assert_eq!(rt; arena.quantum(), 4);
    assert_eq!(rt; arena.policy(), Policy::Best);
    close(&rt, arena);
}

/// A request of no units is bad, and one whose alignment is below the quantum. Of others the size
/// is rounded up.
#[test]
fn refused_requests(rt: HostRuntime) {
    let mut arena = arena_of_fours(rt.alloc(), 7);
    add(&rt, &mut arena, span(&rt, 1, 0, 64));
    let none = Request::plain(0);
    let odd = Request {
        align: 2,
        ..Request::plain(4)
    };
    no_grant(&rt, &mut arena, &none, ArenaFault::BadRequest);
    no_grant(&rt, &mut arena, &odd, ArenaFault::BadRequest);
    let segment = grant(&rt, &mut arena, &Request::plain(5), 0, 8);
    give_back(&rt, &mut arena, segment);
    end_span(&rt, &mut arena, 0, 64);
    close(&rt, arena);
}

/// Another arena's segment comes back, and so does an arena that holds a deed.
#[test]
fn handed_back(rt: HostRuntime) {
    let mut arena = arena_of_fours(rt.alloc(), 7);
    add(&rt, &mut arena, span(&rt, 1, 0, 64));
    let segment = grant(&rt, &mut arena, &Request::plain(8), 0, 8);
    let mut other = arena_of_fours(rt.alloc(), 8);
    let segment = match other.free(segment) {
        Ok(_) => panic!(rt; "the segment is another arena's"),
        Err(same) => same,
    };
    close(&rt, other);
    let mut arena = match arena.close() {
        Ok(()) => panic!(rt; "the arena holds deeds"),
        Err(same) => same,
    };
    give_back(&rt, &mut arena, segment);
    end_span(&rt, &mut arena, 0, 64);
    close(&rt, arena);
}

/// The words of the refusals.
#[test]
fn words(rt: HostRuntime) -> Result<(), Fail> {
    for (fault, word) in [
        (ArenaFault::BadRequest, "bad request"),
        (ArenaFault::NoFit, "no fit"),
        (ArenaFault::NoMemory, "out of memory"),
    ] {
        let text = format!(in rt.alloc(); "{fault}")?;
        assert_eq!(rt; text.as_str(), word);
    }
    Ok(())
}
