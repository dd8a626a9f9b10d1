//! More than one imported span, and a span of several quanta.

use super::{
    add, arena_of_fours, close, counts, end_span, give_back, grant, import, span, stands, take_back,
};
use deed_core::Request;
use tag_arena::{Arena, Policy};

/// Two imported spans that touch are each by itself: each goes back when its own segments are free.
#[test]
fn two_imports(rt: HostRuntime) {
    let four = Request::plain(4);
    let sixteen = Request::plain(16);
    let mut source = Arena::new(rt.alloc(), 1, 1, Policy::Best);
    let mut child = Arena::new(rt.alloc(), 2, 1, Policy::Best);
    add(&rt, &mut source, span(&rt, 1, 0, 64));
    let low = grant(&rt, &mut source, &sixteen, 0, 16);
    let high = grant(&rt, &mut source, &sixteen, 16, 16);
    let first = import(&rt, &mut child, low, &four);
    let second = import(&rt, &mut child, high, &four);
    stands(&rt, &first, 0, 4);
    stands(&rt, &second, 16, 4);
    counts(&rt, &child, 32, 24, 8);
    let low = take_back(&rt, &mut child, first);
    stands(&rt, &low, 0, 16);
    counts(&rt, &child, 16, 12, 4);
    let high = take_back(&rt, &mut child, second);
    stands(&rt, &high, 16, 16);
    close(&rt, child);
    give_back(&rt, &mut source, low);
    give_back(&rt, &mut source, high);
    end_span(&rt, &mut source, 0, 64);
    close(&rt, source);
}

/// The first units of an import are rounded up to the quantum.
#[test]
fn an_import_of_quanta(rt: HostRuntime) {
    let mut source = arena_of_fours(rt.alloc(), 1);
    let mut child = arena_of_fours(rt.alloc(), 2);
    add(&rt, &mut source, span(&rt, 1, 0, 64));
    let imported = grant(&rt, &mut source, &Request::plain(16), 0, 16);
    let first = import(&rt, &mut child, imported, &Request::plain(5));
    stands(&rt, &first, 0, 8);
    counts(&rt, &child, 16, 8, 8);
    let second = grant(&rt, &mut child, &Request::plain(8), 8, 8);
    give_back(&rt, &mut child, first);
    let back = take_back(&rt, &mut child, second);
    stands(&rt, &back, 0, 16);
    close(&rt, child);
    give_back(&rt, &mut source, back);
    end_span(&rt, &mut source, 0, 64);
    close(&rt, source);
}
