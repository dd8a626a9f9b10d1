//! Reaping of one arena, with a limit on its looks.
use super::arrangements::{Walk, begin, caching_child, end, root, set};
use super::calls::{allocate, carve, empty, reap_one, release, tick};
use super::sums::{free_units, slab_units};
use arena_tree::Setup;
use deed_core::{PlainDeed, Request};
use quantum_cache::Reaping;
use std::alloc::Global;
use std::process::Abort;
use tag_arena::Policy;

/// An arena of 64 units with five caches, whose slabs have 16 units.
fn begin_cached(rt: &impl Abort, alloc: Global) -> Walk<PlainDeed> {
    let mut setup = Setup::new(alloc);
    set(rt, &mut setup, root(rt, "d", 64, 1, Policy::Instant, 5));
    begin(rt, alloc, setup)
}

/// So many units of the arena are allocated, from this base on, and freed into the CPU's magazines.
fn use_once(rt: &impl Abort, walk: &mut Walk<PlainDeed>, arena: u32, size: u64, base: u64) {
    let segment = allocate(rt, walk, arena, size).expect(rt, "a segment");
    assert_eq!(rt; segment.range().base(), base);
    release(rt, walk, segment);
}

/// What it comes to, and how many locked steps it takes.
fn reap_in(
    rt: &impl Abort,
    walk: &mut Walk<PlainDeed>,
    arena: u32,
    limit: u64,
    reaping: Reaping,
    steps: u64,
) {
    assert_eq!(rt; reap_one(rt, walk, arena, limit), reaping);
    assert_eq!(rt; walk.steps, steps);
}

/// A child's slab of eight units goes back to its source, whose own slab stays until that arena is
/// reaped. A cache takes two looks that find nothing, the child has two caches and the root five. A
/// slab takes a look, and a locked step more in each arena that its span goes back to.
#[test]
fn one_arena_alone(rt: HostRuntime) {
    let mut setup = Setup::new(rt.alloc());
    set(&rt, &mut setup, root(&rt, "a", 64, 1, Policy::Instant, 5));
    set(&rt, &mut setup, caching_child(&rt, "b", "a", 1, 2, 0));
    let mut walk = begin(&rt, rt.alloc(), setup);
    use_once(&rt, &mut walk, 0, 1, 0);
    use_once(&rt, &mut walk, 1, 1, 16);
    empty(&rt, &mut walk);
    assert_eq!(rt; walk.steps, 2);
    reap_in(&rt, &mut walk, 1, 9, Reaping { left: 4, units: 8 }, 7);
    reap_in(&rt, &mut walk, 1, 9, Reaping { left: 5, units: 0 }, 4);
    assert_eq!(rt; free_units(&rt, &walk, 0), 48);
    assert_eq!(rt; slab_units(&walk, 0), 16);
    reap_in(&rt, &mut walk, 0, 0, Reaping { left: 0, units: 0 }, 0);
    reap_in(&rt, &mut walk, 0, 1, Reaping { left: 0, units: 0 }, 1);
    assert_eq!(rt; slab_units(&walk, 0), 16);
    reap_in(&rt, &mut walk, 0, 12, Reaping { left: 1, units: 16 }, 12);
    assert_eq!(rt; free_units(&rt, &walk, 0), 64);
    let _root = end(&rt, walk).close();
}

/// Of two slabs the one with the smaller chunks goes first, by the second look.
#[test]
fn least_size_first(rt: HostRuntime) {
    let mut walk = begin_cached(&rt, rt.alloc());
    use_once(&rt, &mut walk, 0, 5, 0);
    use_once(&rt, &mut walk, 0, 1, 16);
    empty(&rt, &mut walk);
    reap_in(&rt, &mut walk, 0, 2, Reaping { left: 0, units: 16 }, 3);
    let least = Request {
        min: 16,
        max: 32,
        ..Request::plain(16)
    };
    match carve(&rt, &mut walk, 0, &least) {
        Ok(units) => release(&rt, &mut walk, units),
        Err(_) => panic!(rt; "the slab of the least size"),
    }
    reap_in(&rt, &mut walk, 0, 12, Reaping { left: 1, units: 16 }, 12);
    let _root = end(&rt, walk).close();
}

/// Three rounds are in the depot's one full magazine, which may go after an interval in which it
/// wasn't used. A round takes a locked step more than its look, into its slab.
#[test]
fn rounds_before_slabs(rt: HostRuntime) {
    let mut walk = begin_cached(&rt, rt.alloc());
    for base in 0..7 {
        let segment = allocate(&rt, &mut walk, 0, 1).expect(&rt, "a segment");
        assert_eq!(rt; segment.range().base(), base);
        match walk.held.push(segment) {
            Ok(()) => {}
            Err(_) => panic!(rt; "memory"),
        }
    }
    for _ in 0..7 {
        let segment = walk.held.pop().expect(&rt, "a segment");
        release(&rt, &mut walk, segment);
    }
    empty(&rt, &mut walk);
    assert_eq!(rt; walk.steps, 4);
    reap_in(&rt, &mut walk, 0, 15, Reaping { left: 5, units: 0 }, 10);
    tick(&rt, &mut walk);
    reap_in(&rt, &mut walk, 0, 2, Reaping { left: 0, units: 0 }, 4);
    assert_eq!(rt; slab_units(&walk, 0), 15);
    reap_in(&rt, &mut walk, 0, 15, Reaping { left: 3, units: 16 }, 14);
    assert_eq!(rt; free_units(&rt, &walk, 0), 64);
    let _root = end(&rt, walk).close();
}
