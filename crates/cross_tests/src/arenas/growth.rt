//! Growth that is refused: the argument is back, the arena is as before, and the call can be made
//! again.

use super::{
    SpanWhy, add, close, end_span, give_all, give_back, grant, import, span_back, stands,
    take_back, try_import,
};
use deed_core::{Deed, PlainDeed, PlainOpener, Range, Request, Segment};
use std::alloc::{AllocError, AllocGlobal};
use std::process::Abort;
use tag_arena::{Arena, ArenaFault, Policy};

/// Adds a span, again where it was out of memory.
fn add_again(rt: &impl Abort, arena: &mut Arena<PlainDeed>, range: Range) {
    let before = arena.report();
    let deed = match arena.add_span(PlainDeed::new(1, range)) {
        Ok(()) => return,
        Err(fault) => {
            let (span, why) = span_back(fault);
            assert_eq!(rt; why, SpanWhy::NoMemory);
            span
        }
    };
    assert_eq!(rt; (deed.range(), arena.report()), (range, before));
    add(rt, arena, deed);
}

/// Opens the range as a root in the arena, again where it was out of memory: then none was opened.
fn grow_again(rt: &impl Abort, arena: &mut Arena<PlainDeed>, range: Range) {
    match arena.admits(&range) {
        Ok(()) => {}
        Err(fault) => panic!(rt; "{fault}"),
    }
    let before = (arena.report(), arena.owned_count());
    let mut opener = PlainOpener::new(1, 1);
    match arena.grow(range, &mut opener) {
        Ok(()) => return,
        Err(AllocError) => assert_eq!(rt; (arena.report(), arena.owned_count()), before),
    }
    arena.grow(range, &mut opener).expect(rt, "refused twice");
}

/// Carves `len` units at `base`, again where it was out of memory.
fn grant_again(
    rt: &impl Abort,
    arena: &mut Arena<PlainDeed>,
    request: &Request,
    base: u64,
    len: u64,
) -> Segment<PlainDeed> {
    let before = arena.report();
    match arena.xalloc(request) {
        Ok(segment) => {
            stands(rt, &segment, base, len);
            return segment;
        }
        Err(fault) => assert_eq!(rt; fault, ArenaFault::NoMemory),
    }
    assert_eq!(rt; arena.report(), before);
    grant(rt, arena, request, base, len)
}

/// Imports a span, again where it was out of memory.
fn import_again(
    rt: &impl Abort,
    arena: &mut Arena<PlainDeed>,
    segment: Segment<PlainDeed>,
    request: &Request,
) -> Segment<PlainDeed> {
    let before = arena.report();
    let range = segment.range();
    let back = match try_import(rt, arena, segment, request) {
        Ok(first) => return first,
        Err(fault) => {
            let (span, why) = span_back(fault);
            assert_eq!(rt; why, SpanWhy::NoMemory);
            span
        }
    };
    assert_eq!(rt; (back.range(), arena.report()), (range, before));
    import(rt, arena, back, request)
}

/// Two spans, an imported one, and twelve segments with gaps between them.
fn make_calls(rt: &(impl Abort + AllocGlobal), policy: Policy) {
    let Ok(mut held) = Vec::with_capacity(rt.alloc(), 12) else {
        return;
    };
    let mut source = Arena::new(rt.alloc(), 1, 1, policy);
    let mut child = Arena::new(rt.alloc(), 2, 1, policy);
    for base in [0, 64] {
        let range = Range::new(base, 64).expect(rt, "a range");
        add_again(rt, &mut source, range);
    }
    let low = Request {
        max: 64,
        ..Request::plain(64)
    };
    let imported = grant_again(rt, &mut source, &low, 0, 64);
    let first = import_again(rt, &mut child, imported, &Request::plain(4));
    stands(rt, &first, 0, 4);
    let two = Request {
        align: 4,
        phase: 1,
        ..Request::plain(2)
    };
    for base in [65, 69, 73, 77, 81, 85, 89, 93, 97, 101, 105, 109] {
        let segment = grant_again(rt, &mut source, &two, base, 2);
        assert!(rt; held.len() < held.capacity());
        held.push_reserved(segment);
    }
    give_all(rt, &mut source, held);
    let back = take_back(rt, &mut child, first);
    give_back(rt, &mut source, back);
    close(rt, child);
    end_span(rt, &mut source, 0, 64);
    end_span(rt, &mut source, 64, 64);
    close(rt, source);
}

#[test]
fn calls_can_be_made_again(rt: HostRuntime) {
    for policy in [Policy::Best, Policy::Next, Policy::Instant] {
        make_calls(&rt, policy);
    }
}

/// Two spans that are opened in the arena.
fn make_growths(rt: &(impl Abort + AllocGlobal), policy: Policy) {
    let mut arena = Arena::new(rt.alloc(), 1, 1, policy);
    for base in [0, 64] {
        let range = Range::new(base, 64).expect(rt, "a range");
        grow_again(rt, &mut arena, range);
    }
    assert_eq!(rt; arena.owned_count(), 2);
    end_span(rt, &mut arena, 0, 64);
    end_span(rt, &mut arena, 64, 64);
    close(rt, arena);
}

#[test]
fn growths_can_be_made_again(rt: HostRuntime) {
    for policy in [Policy::Best, Policy::Next, Policy::Instant] {
        make_growths(&rt, policy);
    }
}

/// Carves segments with gaps between them, so many that the arena turns to another index of its
/// free ranges and that index grows. Where it can't be had, the arena goes on with the first.
fn make_many_gaps(rt: &(impl Abort + AllocGlobal), policy: Policy) {
    let Ok(mut held) = Vec::with_capacity(rt.alloc(), 120) else {
        return;
    };
    let mut arena = Arena::new(rt.alloc(), 1, 1, policy);
    let range = Range::new(0, 480).expect(rt, "a range");
    add_again(rt, &mut arena, range);
    let two = Request {
        align: 4,
        phase: 1,
        ..Request::plain(2)
    };
    for place in 0..120 {
        let segment = grant_again(rt, &mut arena, &two, 4 * place + 1, 2);
        assert!(rt; held.len() < held.capacity());
        held.push_reserved(segment);
    }
    give_all(rt, &mut arena, held);
    end_span(rt, &mut arena, 0, 480);
    close(rt, arena);
}

#[test]
fn calls_of_many_can_be_made_again(rt: HostRuntime) {
    for policy in [Policy::Best, Policy::Instant, Policy::Next] {
        make_many_gaps(&rt, policy);
    }
}
