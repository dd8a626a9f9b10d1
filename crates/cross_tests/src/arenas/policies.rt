//! Constrained requests under each policy that isn't best, and where the rover stands.

use super::{
    Step, add, close, end_span, give_back, grant, import, no_grant, run_alone, span, take_back,
};
use deed_core::Request;
use tag_arena::{Arena, ArenaFault, Policy};

/// The next address from the rover on that meets the constraints, else the least.
#[test]
fn next_keeps_the_constraints(rt: HostRuntime) {
    let two = Request {
        align: 8,
        phase: 4,
        max: 24,
        ..Request::plain(2)
    };
    let steps = [
        Step::Grant(two, 4),
        Step::Grant(two, 12),
        Step::Free(4),
        Step::Grant(two, 20),
        Step::Grant(two, 4),
        Step::NoFit(two),
    ];
    run_alone(&rt, Policy::Next, 0, 64, &steps);
}

/// A constrained request is served by the best range, and not by the newest of a list.
#[test]
fn instant_keeps_the_constraints(rt: HostRuntime) {
    let two = Request {
        align: 4,
        phase: 2,
        ..Request::plain(2)
    };
    let steps = [
        Step::Grant(Request::plain(6), 0),
        Step::Grant(Request::plain(2), 6),
        Step::Grant(Request::plain(4), 8),
        Step::Free(8),
        Step::Free(0),
        Step::Grant(two, 10),
        Step::Grant(two, 2),
        Step::NoFit(two),
    ];
    run_alone(&rt, Policy::Instant, 0, 12, &steps);
}

/// The rover stands at a carve's end, and stays there when the segment is freed.
#[test]
fn the_rover_stands_at_the_end(rt: HostRuntime) {
    let four = Request::plain(4);
    let steps = [
        Step::Grant(four, 0),
        Step::Free(0),
        Step::Grant(four, 4),
        Step::Free(4),
        Step::Grant(four, 8),
        Step::Free(8),
        Step::Grant(four, 0),
    ];
    run_alone(&rt, Policy::Next, 0, 12, &steps);
}

/// The carve of an import moves the rover too.
#[test]
fn an_import_moves_the_rover(rt: HostRuntime) {
    let four = Request::plain(4);
    let mut source = Arena::new(rt.alloc(), 1, 1, Policy::Best);
    let mut child = Arena::new(rt.alloc(), 2, 1, Policy::Next);
    add(&rt, &mut source, span(&rt, 1, 0, 16));
    add(&rt, &mut child, span(&rt, 2, 32, 16));
    let own = grant(&rt, &mut child, &four, 32, 4);
    let imported = grant(&rt, &mut source, &Request::plain(16), 0, 16);
    let first = import(&rt, &mut child, imported, &four);
    let second = grant(&rt, &mut child, &four, 4, 4);
    give_back(&rt, &mut child, own);
    give_back(&rt, &mut child, second);
    let back = take_back(&rt, &mut child, first);
    give_back(&rt, &mut source, back);
    end_span(&rt, &mut child, 32, 16);
    end_span(&rt, &mut source, 0, 16);
    close(&rt, child);
    close(&rt, source);
}

/// Where a list serves, one free range is looked at, and a refused request leaves the count.
#[test]
fn a_list_is_one_look(rt: HostRuntime) {
    let mut arena = Arena::new(rt.alloc(), 1, 1, Policy::Instant);
    assert_eq!(rt; arena.probes(), 0);
    add(&rt, &mut arena, span(&rt, 1, 0, 64));
    assert_eq!(rt; arena.probes(), 0);
    let eight = grant(&rt, &mut arena, &Request::plain(8), 0, 8);
    assert_eq!(rt; arena.probes(), 1);
    no_grant(&rt, &mut arena, &Request::plain(65), ArenaFault::NoFit);
    assert_eq!(rt; arena.probes(), 1);
    give_back(&rt, &mut arena, eight);
    end_span(&rt, &mut arena, 0, 64);
    close(&rt, arena);
}

/// Of four spans the shorter three don't serve the request: all are looked at but the one with no
/// base on its grid.
#[test]
fn each_look_is_counted(rt: HostRuntime) {
    let spans = [(0, 4), (8, 4), (16, 4), (32, 16)];
    let mut arena = Arena::new(rt.alloc(), 1, 1, Policy::Best);
    for (base, len) in spans {
        add(&rt, &mut arena, span(&rt, 1, base, len));
    }
    let bound = Request {
        align: 16,
        min: 17,
        ..Request::plain(4)
    };
    let third = grant(&rt, &mut arena, &bound, 32, 4);
    assert_eq!(rt; arena.probes(), 3);
    let first = grant(&rt, &mut arena, &Request::plain(4), 0, 4);
    assert_eq!(rt; arena.probes(), 1);
    give_back(&rt, &mut arena, third);
    give_back(&rt, &mut arena, first);
    for (base, len) in spans {
        end_span(&rt, &mut arena, base, len);
    }
    close(&rt, arena);
}
