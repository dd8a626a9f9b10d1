//! Spans that touch, those that are refused, and those that are carved for slabs.

use super::{
    SpanWhy, Step, add, arena_of_fours, close, counts, end_span, no_grant, run_alone, run_spans,
    span, span_back,
};
use deed_core::{PlainDeed, Request};
use std::process::Abort;
use tag_arena::{Arena, ArenaFault, Policy};

fn refuse(rt: &impl Abort, arena: &mut Arena<PlainDeed>, deed: PlainDeed, why: SpanWhy) {
    match arena.add_span(deed) {
        Ok(()) => panic!(rt; "the span is refused"),
        Err(fault) => {
            let (span, told) = span_back(fault);
            span.close();
            assert_eq!(rt; told, why);
        }
    }
}

/// Spans that touch don't merge, and the lowest goes first.
#[test]
fn touching_spans(rt: HostRuntime) {
    let mut arena = Arena::new(rt.alloc(), 1, 1, Policy::Best);
    add(&rt, &mut arena, span(&rt, 2, 8, 8));
    add(&rt, &mut arena, span(&rt, 1, 0, 8));
    no_grant(&rt, &mut arena, &Request::plain(12), ArenaFault::NoFit);
    counts(&rt, &arena, 16, 16, 0);
    end_span(&rt, &mut arena, 0, 8);
    end_span(&rt, &mut arena, 8, 8);
    match arena.remove_owned() {
        None => {}
        Some(_deed) => panic!(rt; "no span is left"),
    }
    close(&rt, arena);
}

/// A span that overlaps another comes back, and so does one that isn't in whole quanta.
#[test]
fn refused_spans(rt: HostRuntime) {
    let mut arena = arena_of_fours(rt.alloc(), 7);
    add(&rt, &mut arena, span(&rt, 1, 0, 64));
    for (base, len, why) in [
        (60, 8, SpanWhy::Overlaps),
        (66, 8, SpanWhy::NotAligned),
        (64, 6, SpanWhy::NotAligned),
    ] {
        refuse(&rt, &mut arena, span(&rt, 2, base, len), why);
    }
    end_span(&rt, &mut arena, 0, 64);
    close(&rt, arena);
}

/// No lease is of two spans, also once both were leased.
#[test]
fn no_lease_of_two_spans(rt: HostRuntime) {
    let eight = Request::plain(8);
    let twelve = Step::NoFit(Request::plain(12));
    let steps = [
        twelve,
        Step::Grant(eight, 0),
        Step::Grant(eight, 8),
        Step::Free(8),
        Step::Free(0),
        twelve,
    ];
    run_spans(&rt, Policy::Best, &[(0, 8), (8, 8)], &steps);
}

/// Slabs are carved one behind the other, and go back as any other segment.
#[test]
fn slabs_of_an_arena(rt: HostRuntime) {
    let slab = Request::plain(16);
    let steps = [
        Step::Grant(slab, 0),
        Step::Grant(slab, 16),
        Step::Free(0),
        Step::Grant(slab, 0),
        Step::Free(16),
        Step::Free(0),
        Step::Grant(Request::plain(64), 0),
    ];
    run_alone(&rt, Policy::Instant, 0, 64, &steps);
}

/// Where no slab fits the units are carved alone.
#[test]
fn no_slab_fits(rt: HostRuntime) {
    let steps = [
        Step::Grant(Request::plain(3), 0),
        Step::NoFit(Request::plain(8)),
        Step::Grant(Request::plain(2), 3),
        Step::Free(3),
        Step::Grant(Request::plain(5), 3),
    ];
    run_alone(&rt, Policy::Instant, 0, 8, &steps);
}
