//! A CPU that fails after each of its events in turn.
use crate::worlds::{carves, ends, hears, lease, release, restarts, root, tells, world_of};
use arena_tree::Setup;
use deed_core::PlainDeed;
use lease_terms::Refusal;
use std::process::Abort;
use tag_arena::Policy;
use world_core::{EventFault, Outcome, World, WorldEvent};

/// An event with how it ends; what is free, in slabs and leased where another CPU has placed all
/// that this one had by then; and how many segments it had.
type Row = (WorldEvent, Outcome, [u128; 3], u32);

const ALL_FREE: [u128; 3] = [64, 0, 0];

/// The slab has all its chunks.
const AT_HOME: [u128; 3] = [48, 16, 0];

/// One chunk of it is leased.
const LEASED: [u128; 3] = [48, 15, 1];

/// A hello, and a lease of 1: the CPU has no round, the depot no magazine, the cache no slab.
fn lease_rows(rt: &impl Abort) -> [Row; 12] {
    let (cpu, arena, cache, client) = (0, 0, 0, 0);
    let (done, none) = (Outcome::Done, Outcome::NotEnabled);
    let refused = Outcome::Refused(EventFault::NoneFull);
    let op = lease(rt, "d", 1);
    let swaps = WorldEvent::SwapsFull { cpu, arena, cache };
    let takes = WorldEvent::SlabTakes { cpu, arena, cache };
    [
        (restarts(client, 1), done, ALL_FREE, 0),
        (WorldEvent::Looks { cpu, which: 0 }, done, ALL_FREE, 0),
        (hears(client, 0), done, ALL_FREE, 0),
        (WorldEvent::Says { client, op }, done, ALL_FREE, 0),
        (WorldEvent::Looks { cpu, which: 1 }, done, ALL_FREE, 0),
        (WorldEvent::Pops { cpu, arena, cache }, none, ALL_FREE, 0),
        (swaps, refused, ALL_FREE, 0),
        (takes, none, ALL_FREE, 0),
        (carves(cpu, arena, 16), done, ALL_FREE, 1),
        (WorldEvent::SlabAdds { cpu, arena, cache }, done, AT_HOME, 1),
        (WorldEvent::Settles { cpu }, done, LEASED, 0),
        (hears(client, 1), done, LEASED, 0),
    ]
}

/// The release of it, which becomes a round, and a lease of 64, which the slab has no room for.
fn other_rows(rt: &impl Abort) -> [Row; 10] {
    let (cpu, arena, client) = (0, 0, 0);
    let done = Outcome::Done;
    let refused = Outcome::Refused(EventFault::NoFit);
    let (gone, op) = (release(rt, "d", 0), lease(rt, "d", 64));
    let refusal = Refusal::NoFit;
    [
        (WorldEvent::Says { client, op: gone }, done, LEASED, 0),
        (WorldEvent::Looks { cpu, which: 2 }, done, LEASED, 0),
        (WorldEvent::Releases { cpu }, done, AT_HOME, 1),
        (WorldEvent::Pushes { cpu }, done, AT_HOME, 1),
        (hears(client, 2), done, AT_HOME, 1),
        (WorldEvent::Says { client, op }, done, AT_HOME, 1),
        (WorldEvent::Looks { cpu, which: 3 }, done, AT_HOME, 1),
        (carves(cpu, arena, 64), refused, AT_HOME, 1),
        (WorldEvent::Declines { cpu, refusal }, done, AT_HOME, 1),
        (hears(client, 3), done, AT_HOME, 1),
    ]
}

/// The first CPU stops after the first event, after the second, and so on. The other then adopts
/// and places what it had, until there is nothing left.
#[test]
fn fail_each(rt: HostRuntime) {
    let mut setup = Setup::new(rt.alloc());
    root(&rt, &mut setup, "d", 0, 64, Policy::Instant, 5);
    for last in 0..22 {
        let mut world = world_of(&rt, rt.alloc(), &setup, 2, 1);
        stopped_after(&rt, &mut world, last);
        world.end();
    }
}

fn stopped_after(rt: &impl Abort, world: &mut World<PlainDeed>, last: usize) {
    let (leases, others) = (lease_rows(rt), other_rows(rt));
    let mut wanted = (ALL_FREE, 0);
    for (index, row) in leases.iter().chain(&others).enumerate() {
        if index <= last {
            let (event, outcome, counts, segments) = row;
            ends(rt, world, *event, *outcome);
            wanted = (*counts, *segments);
        }
    }
    let ([free, slab, leased], segments) = wanted;
    assert!(rt; adopted(rt, world) == segments, "after {last}");
    tells(rt, world, 0, [free, slab, 0, 0, leased, 0]);
    if segments > 0 {
        ends(
            rt,
            world,
            WorldEvent::Looks { cpu: 0, which: 0 },
            Outcome::NotEnabled,
        );
        ends(
            rt,
            world,
            WorldEvent::Adopts { cpu: 0, other: 1 },
            Outcome::NotEnabled,
        );
    }
}

/// The second CPU adopts a segment of the first.
fn adopts() -> WorldEvent {
    WorldEvent::Adopts { cpu: 1, other: 0 }
}

/// How many segments the second CPU adopts of the first, and places.
fn adopted(rt: &impl Abort, world: &mut World<PlainDeed>) -> u32 {
    for segments in 0..8 {
        if world.step(adopts()) != Outcome::Done {
            ends(rt, world, adopts(), Outcome::NotEnabled);
            return segments;
        }
        place(rt, world);
    }
    panic!(rt; "more than it can have")
}

/// The second CPU puts a chunk into its slab, or frees what was carved.
fn place(rt: &impl Abort, world: &mut World<PlainDeed>) {
    if world.step(WorldEvent::SlabPuts { cpu: 1 }) != Outcome::Done {
        ends(rt, world, WorldEvent::Frees { cpu: 1 }, Outcome::Done);
    }
}
