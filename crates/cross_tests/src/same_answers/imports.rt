//! Imports, and imports of what was imported, by both bodies of each arena.
use super::bodies::{Bodies, Twins};
use deed_core::{Range, Request};
use std::alloc::AllocGlobal;
use std::process::Abort;
use tag_arena::{ArenaFault, ArenaReport, Policy};

/// The arena that all units are of.
pub(super) fn source_of(rt: &(impl Abort + AllocGlobal), quantum: u64, policy: Policy) -> Bodies {
    let mut source = Bodies::new(rt, 1, quantum, policy);
    source.add(rt, 1, Range::new(0, 64).expect(rt, "a range"));
    source
}

/// Carves so many units, which begin at `base`.
pub(super) fn carved(rt: &impl Abort, arena: &mut Bodies, size: u64, base: u64) -> Twins {
    match arena.carve(rt, &Request::plain(size)) {
        Ok(twins) => {
            assert_eq!(rt; twins.range().base(), base);
            twins
        }
        Err(fault) => panic!(rt; "{fault}"),
    }
}

/// So many units fit nowhere.
fn refused(rt: &impl Abort, arena: &mut Bodies, size: u64) {
    match arena.carve(rt, &Request::plain(size)) {
        Ok(_twins) => panic!(rt; "it fits"),
        Err(fault) => assert_eq!(rt; fault, ArenaFault::NoFit),
    }
}

/// Imports a span, and carves its first units, so many.
fn imported(rt: &impl Abort, arena: &mut Bodies, span: Twins, size: u64) -> Twins {
    let base = span.range().base();
    match arena.import(rt, span, &Request::plain(size)) {
        Ok(first) => {
            assert_eq!(rt; first.range().base(), base);
            first
        }
        Err(_span) => panic!(rt; "the span is imported"),
    }
}

/// Frees a segment, by which no imported span is whole.
pub(super) fn freed(rt: &impl Abort, arena: &mut Bodies, twins: Twins) {
    match arena.free(rt, twins) {
        Ok(None) => {}
        Ok(Some(_span)) => panic!(rt; "no imported span is whole"),
        Err(_twins) => panic!(rt; "the arena carved it"),
    }
}

/// Frees the last segment of an imported span, which comes back.
fn span_of(rt: &impl Abort, arena: &mut Bodies, twins: Twins) -> Twins {
    match arena.free(rt, twins) {
        Ok(Some(span)) => span,
        Ok(None) => panic!(rt; "the imported span is whole"),
        Err(_twins) => panic!(rt; "the arena carved it"),
    }
}

/// The units of the spans, the free ones, and those that are allocated.
pub(super) fn stands(rt: &impl Abort, arena: &Bodies, span: u128, free: u128, allocated: u128) {
    let wanted = ArenaReport {
        span,
        free,
        allocated,
    };
    assert_eq!(rt; arena.report(rt), wanted);
}

/// Takes out the one span, and ends the arena.
pub(super) fn end(rt: &impl Abort, mut source: Bodies) {
    let _ = source.remove(rt);
    source.close(rt);
}

/// An imported span goes back when its last segment is freed, and its units are granted again: by
/// `next` later, since its rover is past them.
fn import_once(rt: &(impl Abort + AllocGlobal), policy: Policy, last: u64) {
    let mut source = source_of(rt, 1, policy);
    let mut child = Bodies::new(rt, 2, 1, policy);
    refused(rt, &mut child, 4);
    let span = carved(rt, &mut source, 16, 0);
    let first = imported(rt, &mut child, span, 4);
    let high = carved(rt, &mut source, 8, 16);
    stands(rt, &source, 64, 40, 24);
    stands(rt, &child, 16, 12, 4);
    let span = span_of(rt, &mut child, first);
    freed(rt, &mut source, span);
    let low = carved(rt, &mut source, 8, last);
    stands(rt, &source, 64, 48, 16);
    stands(rt, &child, 0, 0, 0);
    freed(rt, &mut source, low);
    freed(rt, &mut source, high);
    child.close(rt);
    end(rt, source);
}

#[test]
fn same_of_an_import(rt: HostRuntime) {
    import_once(&rt, Policy::Best, 0);
    import_once(&rt, Policy::Next, 24);
    import_once(&rt, Policy::Instant, 0);
}

/// What an arena imports of one that imports climbs to the first one, and goes back all the way.
fn import_twice(rt: &(impl Abort + AllocGlobal), policy: Policy) {
    let mut source = source_of(rt, 16, policy);
    let mut middle = Bodies::new(rt, 2, 4, policy);
    let mut child = Bodies::new(rt, 3, 1, policy);
    refused(rt, &mut child, 5);
    refused(rt, &mut middle, 8);
    let span = carved(rt, &mut source, 16, 0);
    let part = imported(rt, &mut middle, span, 8);
    let lease = imported(rt, &mut child, part, 5);
    stands(rt, &source, 64, 48, 16);
    stands(rt, &middle, 16, 8, 8);
    stands(rt, &child, 8, 3, 5);
    let part = span_of(rt, &mut child, lease);
    let span = span_of(rt, &mut middle, part);
    freed(rt, &mut source, span);
    stands(rt, &source, 64, 64, 0);
    stands(rt, &middle, 0, 0, 0);
    stands(rt, &child, 0, 0, 0);
    child.close(rt);
    middle.close(rt);
    end(rt, source);
}

#[test]
fn same_of_a_chain(rt: HostRuntime) {
    for policy in [Policy::Best, Policy::Next, Policy::Instant] {
        import_twice(&rt, policy);
    }
}
