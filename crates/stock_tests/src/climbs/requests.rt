//! Requests that an arena itself serves: they go past its caches, and import nothing.
use super::arrangements::{Walk, begin, begin_with, child, end, only_range, root, set};
use super::calls::{allocate, carve, empty, reap_all, release};
use super::sums::{free_units, magazine_units};
use arena_tree::{PartFault, Setup};
use deed_core::{Deed, Request, Route, Segment};
use refusing_deed::RefusingDeed;
use std::process::Abort;
use tag_arena::{ArenaFault, Policy};

fn hold<D: Deed>(rt: &impl Abort, walk: &mut Walk<D>, segment: Segment<D>) {
    match walk.held.push(segment) {
        Ok(()) => {}
        Err(_) => panic!(rt; "memory"),
    }
}

/// What the arena gives, by one locked step: the base of a segment that is no round.
fn base_of<D: Deed>(
    rt: &impl Abort,
    walk: &mut Walk<D>,
    arena: u32,
    request: Request,
) -> Result<u64, PartFault<ArenaFault>> {
    let answer = carve(rt, walk, arena, &request);
    assert_eq!(rt; walk.steps, 1);
    let segment = answer?;
    let base = segment.range().base();
    assert_eq!(rt; segment.arena(), arena);
    assert_eq!(rt; segment.range().len(), request.size);
    assert_eq!(rt; segment.route(), Route::Direct);
    hold(rt, walk, segment);
    Ok(base)
}

/// All that is held, the last first.
fn release_all<D: Deed>(rt: &impl Abort, walk: &mut Walk<D>) {
    for _ in 0..walk.held.len() {
        let segment = walk.held.pop().expect(rt, "a segment");
        release(rt, walk, segment);
    }
}

/// Three units past a multiple of eight, and across none.
fn after_three(size: u64) -> Request {
    Request {
        align: 8,
        phase: 3,
        nocross: 8,
        ..Request::plain(size)
    }
}

fn between(size: u64, min: u64, max: u64) -> Request {
    Request {
        min,
        max,
        ..Request::plain(size)
    }
}

/// The slab that the first allocation makes is the units 0 to 15, and its first chunk, of five,
/// goes into the CPU's magazine: no request gets one of these. The last one, of any five units, is
/// served by the rule of the arena: neither three units nor six are on a list of which every range
/// has five, but the units from 35 on are.
#[test]
fn past_the_caches(rt: HostRuntime) {
    let mut setup = Setup::new(rt.alloc());
    set(&rt, &mut setup, root(&rt, "d", 64, 1, Policy::Instant, 5));
    let mut walk = begin(&rt, rt.alloc(), setup);
    let chunk = allocate(&rt, &mut walk, 0, 5).expect(&rt, "a chunk");
    assert_eq!(rt; chunk.range().base(), 0);
    release(&rt, &mut walk, chunk);
    assert_eq!(rt; base_of(&rt, &mut walk, 0, after_three(5)), Ok(19));
    assert_eq!(rt;
        base_of(&rt, &mut walk, 0, after_three(6)),
        Err(PartFault::Refused(ArenaFault::NoFit))
    );
    assert_eq!(rt; base_of(&rt, &mut walk, 0, between(5, 30, 35)), Ok(30));
    assert_eq!(rt;
        base_of(&rt, &mut walk, 0, between(5, 30, 35)),
        Err(PartFault::Refused(ArenaFault::NoFit))
    );
    assert_eq!(rt; base_of(&rt, &mut walk, 0, Request::plain(5)), Ok(35));
    assert_eq!(rt; free_units(&rt, &walk, 0), 33);
    assert_eq!(rt; magazine_units(&walk, 0), 5);
    release_all(&rt, &mut walk);
    empty(&rt, &mut walk);
    assert_eq!(rt; reap_all(&rt, &mut walk), 16);
    assert_eq!(rt; free_units(&rt, &walk, 0), 64);
    let _root = end(&rt, walk).close();
}

/// None of these has a base in any arena of units.
#[test]
fn bad_requests(rt: HostRuntime) {
    let mut setup = Setup::new(rt.alloc());
    set(&rt, &mut setup, root(&rt, "d", 64, 1, Policy::Best, 0));
    let mut walk = begin(&rt, rt.alloc(), setup);
    let plain = Request::plain(5);
    let bad = [
        Request::plain(0),
        Request { align: 3, ..plain },
        Request { phase: 1, ..plain },
        Request {
            align: 8,
            phase: 8,
            ..plain
        },
        Request {
            nocross: 4,
            ..plain
        },
        Request {
            nocross: 12,
            ..plain
        },
        between(5, 35, 35),
        between(5, 0, (1 << 62) + 1),
    ];
    for request in bad {
        assert_eq!(rt;
            base_of(&rt, &mut walk, 0, request),
            Err(PartFault::Refused(ArenaFault::BadRequest))
        );
    }
    assert_eq!(rt; free_units(&rt, &walk, 0), 64);
    let _root = end(&rt, walk).close();
}

/// A child imports sixteen units for an allocation, but none for a request.
#[test]
fn no_import(rt: HostRuntime) {
    let mut setup = Setup::new(rt.alloc());
    set(&rt, &mut setup, root(&rt, "r", 64, 1, Policy::Best, 0));
    set(&rt, &mut setup, child(&rt, "c", "r", 1, 16));
    let mut walk = begin(&rt, rt.alloc(), setup);
    assert_eq!(rt;
        base_of(&rt, &mut walk, 1, Request::plain(4)),
        Err(PartFault::Refused(ArenaFault::NoFit))
    );
    assert_eq!(rt; free_units(&rt, &walk, 0), 64);
    let first = allocate(&rt, &mut walk, 1, 4).expect(&rt, "units");
    assert_eq!(rt; first.range().base(), 0);
    hold(&rt, &mut walk, first);
    assert_eq!(rt; base_of(&rt, &mut walk, 1, between(4, 8, 12)), Ok(8));
    assert_eq!(rt;
        base_of(&rt, &mut walk, 1, Request::plain(8)),
        Err(PartFault::Refused(ArenaFault::NoFit))
    );
    assert_eq!(rt; base_of(&rt, &mut walk, 1, Request::plain(4)), Ok(4));
    assert_eq!(rt; free_units(&rt, &walk, 0), 48);
    assert_eq!(rt; free_units(&rt, &walk, 1), 4);
    release_all(&rt, &mut walk);
    assert_eq!(rt; walk.steps, 2);
    assert_eq!(rt; free_units(&rt, &walk, 0), 64);
    assert_eq!(rt; free_units(&rt, &walk, 1), 0);
    let _root = end(&rt, walk).close();
}

/// The first split of the deed is refused, and nothing has changed then: the next request gets what
/// this one would have got.
#[test]
fn out_of_memory(rt: HostRuntime) {
    let mut setup = Setup::new(rt.alloc());
    set(&rt, &mut setup, root(&rt, "a", 8, 1, Policy::Best, 0));
    let deed = RefusingDeed::new(0, only_range(&rt, &setup), 0);
    let mut walk = begin_with(&rt, rt.alloc(), setup, deed);
    assert_eq!(rt;
        base_of(&rt, &mut walk, 0, between(4, 2, 8)),
        Err(PartFault::Refused(ArenaFault::NoMemory))
    );
    assert_eq!(rt; free_units(&rt, &walk, 0), 8);
    assert_eq!(rt; base_of(&rt, &mut walk, 0, between(4, 2, 8)), Ok(2));
    release_all(&rt, &mut walk);
    assert_eq!(rt; free_units(&rt, &walk, 0), 8);
    let _root = end(&rt, walk).close();
}
