//! The rows, call by call.
use super::arrangements::{Walk, begin, child, end, end_all, root, set};
use super::calls::{
    allocate, change_cpus, climb, empty, grow, hand_back, reap_all, release, resize, tick,
};
use super::sums::{free_units, magazine_units, slab_units};
use arena_tree::{GrowFault, Setup};
use deed_core::{PlainDeed, Segment};
use std::alloc::Global;
use std::process::Abort;
use tag_arena::Policy;

/// A call, with what it gives.
#[derive(Clone, Copy, PartialEq, Eq, Debug)]
enum Step {
    /// Of the arena with this number, so many units: the base.
    Alloc(u32, u64, u64),
    /// By a climb alone.
    Climb(u32, u64, u64),
    /// A climb finds no room for so many units.
    NoFit(u32, u64),
    /// The segment of this arena with this base.
    Free(u32, u64),
    HandBack(u32, u64),
    /// So many locked steps were taken by the last call.
    Steps(u64),
    /// So many units of the arena are free.
    Units(usize, u128),
    /// So many lie in its slabs, out to nobody.
    Slabs(u32, u128),
    /// So many in magazines, of depots and of both CPUs.
    Magazines(u32, u128),
    /// The other CPU calls from here on.
    OtherCpu,
    /// The CPU's magazines are emptied.
    Drain,
    Tick,
    /// The depots keep magazines of so many rounds from here on.
    Resize(usize),
    /// Slabs of so many units are reaped.
    Reap(u128),
    /// The arena grows by so many units from this base on.
    Grow(usize, u64, u64),
    /// It doesn't.
    NotGrown(usize, u64, u64, GrowFault),
}

fn keep(
    rt: &impl Abort,
    walk: &mut Walk<PlainDeed>,
    segment: Option<Segment<PlainDeed>>,
    base: u64,
) {
    let segment = segment.expect(rt, "a segment");
    assert_eq!(rt; segment.range().base(), base);
    match walk.held.push(segment) {
        Ok(()) => {}
        Err(_) => panic!(rt; "memory"),
    }
}

/// The segment of this arena with this base.
fn held(rt: &impl Abort, walk: &mut Walk<PlainDeed>, arena: u32, base: u64) -> Segment<PlainDeed> {
    let index = walk
        .held
        .iter()
        .position(|s| s.arena() == arena && s.range().base() == base)
        .expect(rt, "a segment");
    walk.held.remove(index)
}

/// No room.
fn none(rt: &impl Abort, segment: Option<Segment<PlainDeed>>) {
    match segment {
        None => {}
        Some(_) => panic!(rt; "a segment"),
    }
}

fn go(rt: &impl Abort, walk: &mut Walk<PlainDeed>, step: Step) {
    match step {
        Step::Alloc(arena, size, base) => {
            let answer = allocate(rt, walk, arena, size);
            keep(rt, walk, answer, base);
        }
        Step::Climb(arena, size, base) => {
            let answer = climb(rt, walk, arena, size);
            keep(rt, walk, answer, base);
        }
        Step::NoFit(arena, size) => none(rt, climb(rt, walk, arena, size)),
        Step::Free(arena, base) => {
            let segment = held(rt, walk, arena, base);
            release(rt, walk, segment);
        }
        Step::HandBack(arena, base) => {
            let segment = held(rt, walk, arena, base);
            hand_back(rt, walk, segment);
        }
        Step::Steps(steps) => assert_eq!(rt; walk.steps, steps),
        Step::Units(arena, units) => assert_eq!(rt; free_units(rt, walk, arena), units),
        Step::Slabs(arena, units) => assert_eq!(rt; slab_units(walk, arena), units),
        Step::Magazines(arena, units) => assert_eq!(rt; magazine_units(walk, arena), units),
        Step::OtherCpu => change_cpus(walk),
        Step::Drain => empty(rt, walk),
        Step::Tick => tick(rt, walk),
        Step::Resize(size) => resize(rt, walk, size),
        Step::Reap(units) => assert_eq!(rt; reap_all(rt, walk), units),
        Step::Grow(arena, base, len) => {
            assert_eq!(rt; grow(rt, walk, arena, base, len), Ok(()));
        }
        Step::NotGrown(arena, base, len, fault) => {
            assert_eq!(rt; grow(rt, walk, arena, base, len), Err(fault));
        }
    }
}

fn run(rt: &impl Abort, walk: &mut Walk<PlainDeed>, steps: &[Step]) {
    for step in steps {
        go(rt, walk, *step);
    }
}

/// A span goes back once its last segment is freed.
const SPAN_GOES_BACK: [Step; 12] = [
    Step::Alloc(1, 4, 0),
    Step::Steps(3),
    Step::Alloc(0, 8, 16),
    Step::Steps(1),
    Step::Units(0, 40),
    Step::Units(1, 12),
    Step::Free(1, 0),
    Step::Steps(2),
    Step::Alloc(0, 8, 0),
    Step::Units(0, 48),
    Step::Free(0, 16),
    Step::Free(0, 0),
];

#[test]
fn a_span_goes_back(rt: HostRuntime) {
    let mut setup = Setup::new(rt.alloc());
    set(&rt, &mut setup, root(&rt, "r", 64, 1, Policy::Best, 0));
    set(&rt, &mut setup, child(&rt, "c", "r", 1, 16));
    let mut walk = begin(&rt, rt.alloc(), setup);
    run(&rt, &mut walk, &SPAN_GOES_BACK);
    let _root = end(&rt, walk).close();
}

/// Amounts in whole quanta of each source, with an import minimum.
const THREE_LEVELS: [Step; 10] = [
    Step::Climb(2, 5, 0),
    Step::Steps(5),
    Step::Units(0, 48),
    Step::Units(1, 8),
    Step::Units(2, 3),
    Step::HandBack(2, 0),
    Step::Steps(3),
    Step::Units(0, 64),
    Step::Units(1, 0),
    Step::Units(2, 0),
];

#[test]
fn three_levels(rt: HostRuntime) {
    let mut setup = Setup::new(rt.alloc());
    set(&rt, &mut setup, root(&rt, "a", 64, 16, Policy::Best, 0));
    set(&rt, &mut setup, child(&rt, "b", "a", 4, 0));
    set(&rt, &mut setup, child(&rt, "c", "b", 1, 6));
    let mut walk = begin(&rt, rt.alloc(), setup);
    run(&rt, &mut walk, &THREE_LEVELS);
    let _root = end(&rt, walk).close();
}

/// An arena of 64 units with caches, over which the steps run.
fn walk_cached(rt: &impl Abort, alloc: Global, steps: &[Step]) {
    let mut setup = Setup::new(alloc);
    set(rt, &mut setup, root(rt, "d", 64, 1, Policy::Instant, 5));
    let mut walk = begin(rt, alloc, setup);
    run(rt, &mut walk, steps);
    let _root = end(rt, walk).close();
}

/// The second slab has colour 1.
const COLOURS: [Step; 16] = [
    Step::Alloc(0, 5, 0),
    Step::Alloc(0, 5, 5),
    Step::Alloc(0, 5, 10),
    Step::Alloc(0, 5, 17),
    Step::Units(0, 32),
    Step::Slabs(0, 12),
    Step::Magazines(0, 0),
    Step::Free(0, 0),
    Step::Free(0, 5),
    Step::Free(0, 10),
    Step::Free(0, 17),
    Step::Drain,
    Step::Tick,
    Step::Reap(32),
    Step::Units(0, 64),
    Step::Reap(0),
];

#[test]
fn colours(rt: HostRuntime) {
    walk_cached(&rt, rt.alloc(), &COLOURS);
}

/// Last in, first out.
const LAST_IN_FIRST_OUT: [Step; 19] = [
    Step::Alloc(0, 1, 0),
    Step::Alloc(0, 1, 1),
    Step::Alloc(0, 1, 2),
    Step::Alloc(0, 1, 3),
    Step::Free(0, 0),
    Step::Free(0, 1),
    Step::Free(0, 2),
    Step::Free(0, 3),
    Step::Alloc(0, 1, 3),
    Step::Alloc(0, 1, 2),
    Step::Alloc(0, 1, 1),
    Step::Alloc(0, 1, 0),
    Step::Free(0, 0),
    Step::Free(0, 1),
    Step::Free(0, 2),
    Step::Free(0, 3),
    Step::Drain,
    Step::Tick,
    Step::Reap(16),
];

#[test]
fn last_in_first_out(rt: HostRuntime) {
    walk_cached(&rt, rt.alloc(), &LAST_IN_FIRST_OUT);
}

/// Seven rounds fill two magazines, and a third one goes to the depot.
const REAPED: [Step; 25] = [
    Step::Alloc(0, 1, 0),
    Step::Alloc(0, 1, 1),
    Step::Alloc(0, 1, 2),
    Step::Alloc(0, 1, 3),
    Step::Alloc(0, 1, 4),
    Step::Alloc(0, 1, 5),
    Step::Alloc(0, 1, 6),
    Step::Free(0, 0),
    Step::Free(0, 1),
    Step::Free(0, 2),
    Step::Free(0, 3),
    Step::Free(0, 4),
    Step::Free(0, 5),
    Step::Free(0, 6),
    Step::Units(0, 48),
    Step::Slabs(0, 9),
    Step::Magazines(0, 7),
    Step::Drain,
    Step::Reap(0),
    Step::Tick,
    Step::Reap(16),
    Step::Slabs(0, 0),
    Step::Magazines(0, 0),
    Step::Alloc(0, 64, 0),
    Step::Free(0, 0),
];

#[test]
fn reaped(rt: HostRuntime) {
    walk_cached(&rt, rt.alloc(), &REAPED);
}

/// What one CPU freed is its own: another one gets the next chunk.
const TWO_CPUS: [Step; 14] = [
    Step::Alloc(0, 1, 0),
    Step::Free(0, 0),
    Step::OtherCpu,
    Step::Alloc(0, 1, 1),
    Step::Steps(2),
    Step::Magazines(0, 1),
    Step::OtherCpu,
    Step::Alloc(0, 1, 0),
    Step::Steps(0),
    Step::Free(0, 0),
    Step::Free(0, 1),
    Step::Drain,
    Step::Reap(16),
    Step::Units(0, 64),
];

#[test]
fn two_cpus(rt: HostRuntime) {
    walk_cached(&rt, rt.alloc(), &TWO_CPUS);
}

/// Depots keep greater magazines. A CPU goes over to these where it would exchange one: when both
/// of its own are full, by the exchange that is refused, and when both are empty.
const MAGAZINES_GET_GREATER: [Step; 42] = [
    Step::Alloc(0, 1, 0),
    Step::Alloc(0, 1, 1),
    Step::Alloc(0, 1, 2),
    Step::Alloc(0, 1, 3),
    Step::Alloc(0, 1, 4),
    Step::Alloc(0, 1, 5),
    Step::Alloc(0, 1, 6),
    Step::Alloc(0, 1, 7),
    Step::Resize(7),
    Step::Free(0, 0),
    Step::Free(0, 1),
    Step::Free(0, 2),
    Step::Free(0, 3),
    Step::Free(0, 4),
    Step::Free(0, 5),
    Step::Steps(0),
    Step::Free(0, 6),
    Step::Steps(1),
    Step::Free(0, 7),
    Step::Steps(0),
    Step::Magazines(0, 8),
    Step::Drain,
    Step::OtherCpu,
    Step::Alloc(0, 1, 0),
    Step::Steps(2),
    Step::Alloc(0, 1, 1),
    Step::Alloc(0, 1, 2),
    Step::Alloc(0, 1, 3),
    Step::Alloc(0, 1, 4),
    Step::Alloc(0, 1, 5),
    Step::Alloc(0, 1, 6),
    Step::Free(0, 0),
    Step::Free(0, 1),
    Step::Free(0, 2),
    Step::Free(0, 3),
    Step::Free(0, 4),
    Step::Free(0, 5),
    Step::Free(0, 6),
    Step::Steps(0),
    Step::Drain,
    Step::Reap(16),
    Step::Units(0, 64),
];

#[test]
fn magazines_get_greater(rt: HostRuntime) {
    walk_cached(&rt, rt.alloc(), &MAGAZINES_GET_GREATER);
}

/// Where no slab fits, the size itself is carved.
const NO_ROOM_FOR_A_SLAB: [Step; 7] = [
    Step::Alloc(0, 3, 0),
    Step::Alloc(0, 2, 3),
    Step::Free(0, 3),
    Step::Units(0, 5),
    Step::Slabs(0, 0),
    Step::Magazines(0, 0),
    Step::Free(0, 0),
];

#[test]
fn no_room_for_a_slab(rt: HostRuntime) {
    let mut setup = Setup::new(rt.alloc());
    set(&rt, &mut setup, root(&rt, "s", 8, 1, Policy::Instant, 2));
    let mut walk = begin(&rt, rt.alloc(), setup);
    run(&rt, &mut walk, &NO_ROOM_FOR_A_SLAB);
    let _root = end(&rt, walk).close();
}

/// Four arenas: a climb that goes well takes seven steps, one that finds no room four, and what
/// goes back four.
const FOUR_LEVELS: [Step; 6] = [
    Step::NoFit(3, 9),
    Step::Steps(4),
    Step::Climb(3, 8, 0),
    Step::Steps(7),
    Step::HandBack(3, 0),
    Step::Steps(4),
];

#[test]
fn four_levels(rt: HostRuntime) {
    let mut setup = Setup::new(rt.alloc());
    set(&rt, &mut setup, root(&rt, "a", 8, 1, Policy::Best, 0));
    set(&rt, &mut setup, child(&rt, "b", "a", 1, 0));
    set(&rt, &mut setup, child(&rt, "c", "b", 1, 0));
    set(&rt, &mut setup, child(&rt, "d", "c", 1, 0));
    let mut walk = begin(&rt, rt.alloc(), setup);
    run(&rt, &mut walk, &FOUR_LEVELS);
    let _root = end(&rt, walk).close();
}

/// An arena grows by a range beside its own, which doesn't merge with it; then by none that
/// overlaps it, and no other arena is there.
const GROWS: [Step; 12] = [
    Step::NoFit(0, 12),
    Step::Grow(0, 8, 8),
    Step::NoFit(0, 12),
    Step::Units(0, 16),
    Step::Alloc(0, 8, 0),
    Step::Alloc(0, 8, 8),
    Step::NoFit(0, 1),
    Step::NotGrown(0, 12, 8, GrowFault::Overlaps),
    Step::NotGrown(1, 0, 8, GrowFault::NoArena),
    Step::Units(0, 0),
    Step::Free(0, 0),
    Step::Free(0, 8),
];

#[test]
fn grows(rt: HostRuntime) {
    let mut setup = Setup::new(rt.alloc());
    set(&rt, &mut setup, root(&rt, "m", 8, 1, Policy::Best, 0));
    let mut walk = begin(&rt, rt.alloc(), setup);
    run(&rt, &mut walk, &GROWS);
    end_all(&rt, walk, &[(0, 0, 8), (1, 8, 8)]);
}

/// The root of a chain with caches grows between two imports, while a slab of it and rounds of both
/// CPUs are out; the child doesn't.
const GROWS_BETWEEN_IMPORTS: [Step; 22] = [
    Step::Alloc(0, 1, 0),
    Step::Free(0, 0),
    Step::Alloc(1, 4, 16),
    Step::NoFit(1, 16),
    Step::NotGrown(1, 64, 16, GrowFault::NotRoot),
    Step::NotGrown(0, 24, 16, GrowFault::Overlaps),
    Step::Grow(0, 64, 16),
    Step::Units(0, 16),
    Step::Climb(1, 16, 64),
    Step::Units(0, 0),
    Step::OtherCpu,
    Step::Alloc(0, 1, 1),
    Step::Free(0, 1),
    Step::Magazines(0, 2),
    Step::HandBack(1, 16),
    Step::HandBack(1, 64),
    Step::Units(0, 32),
    Step::Drain,
    Step::OtherCpu,
    Step::Drain,
    Step::Reap(16),
    Step::Units(0, 48),
];

#[test]
fn grows_between_imports(rt: HostRuntime) {
    let mut setup = Setup::new(rt.alloc());
    set(&rt, &mut setup, root(&rt, "r", 32, 1, Policy::Best, 5));
    set(&rt, &mut setup, child(&rt, "c", "r", 1, 16));
    let mut walk = begin(&rt, rt.alloc(), setup);
    run(&rt, &mut walk, &GROWS_BETWEEN_IMPORTS);
    end_all(&rt, walk, &[(0, 0, 32), (1, 64, 16)]);
}
