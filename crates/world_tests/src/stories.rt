//! Worlds to which each event of a list happens.
use crate::worlds::{
    all_summed, carves, client, ends, greeted, hears, holds, lease, release, replied, restarts,
    root, tells, world_of,
};
use arena_tree::Setup;
use deed_core::{PlainDeed, Request};
use lease_proto::Op;
use std::alloc::AllocGlobal;
use std::process::Abort;
use tag_arena::Policy;
use world_core::{EventFault, Outcome, World, WorldEvent};

/// A client that restarts loses its lease: another gets the same units, and a late line of its old
/// incarnation gets none. What was granted to the old incarnation comes once more at the end.
#[test]
fn world_story(rt: HostRuntime) {
    let mut setup = Setup::new(rt.alloc());
    root(&rt, &mut setup, "p", 1, 4, Policy::Best, 0);
    let mut world = world_of(&rt, rt.alloc(), &setup, 1, 2);
    first_life(&rt, &mut world);
    tells(&rt, &world, 0, [0, 0, 0, 0, 4, 0]);
    holds(&rt, &world, 0, &[(1, 4)]);
    second_life(&rt, &mut world);
    tells(&rt, &world, 0, [4, 0, 0, 0, 0, 0]);
    second_client(&rt, &mut world);
    tells(&rt, &world, 0, [0, 0, 0, 0, 4, 0]);
    holds(&rt, &world, 0, &[]);
    holds(&rt, &world, 1, &[(1, 4)]);
    let lines = [
        "welcome 1 1",
        "granted 1 1 1 p 1 4",
        "welcome 1 2",
        "welcome 2 1",
        "granted 2 1 1 p 1 4",
        "old 1 2",
    ];
    replied(&rt, &world, &lines);
    world.end();
}

fn first_life<R: Abort + AllocGlobal>(rt: &R, world: &mut World<PlainDeed>) {
    let op = lease(rt, "p", 4);
    let events = [
        restarts(0, 1),
        WorldEvent::Looks { cpu: 0, which: 0 },
        WorldEvent::Hears {
            client: 0,
            which: 0,
        },
        WorldEvent::Says { client: 0, op },
        WorldEvent::Looks { cpu: 0, which: 1 },
        WorldEvent::Carves {
            cpu: 0,
            arena: 0,
            request: Request::plain(4),
        },
        WorldEvent::Settles { cpu: 0 },
        WorldEvent::Hears {
            client: 0,
            which: 1,
        },
    ];
    all_summed(rt, world, &events);
}

fn second_life<R: Abort + AllocGlobal>(rt: &R, world: &mut World<PlainDeed>) {
    let events = [
        restarts(0, 2),
        WorldEvent::Looks { cpu: 0, which: 2 },
        WorldEvent::Sweeps {
            cpu: 0,
            client: client(rt, 1),
        },
        WorldEvent::Frees { cpu: 0 },
        WorldEvent::Hears {
            client: 0,
            which: 2,
        },
    ];
    all_summed(rt, world, &events);
}

fn second_client<R: Abort + AllocGlobal>(rt: &R, world: &mut World<PlainDeed>) {
    let op = lease(rt, "p", 4);
    let events = [
        restarts(1, 1),
        WorldEvent::Looks { cpu: 0, which: 3 },
        WorldEvent::Hears {
            client: 1,
            which: 3,
        },
        WorldEvent::Says { client: 1, op },
        WorldEvent::Looks { cpu: 0, which: 4 },
        WorldEvent::Carves {
            cpu: 0,
            arena: 0,
            request: Request::plain(4),
        },
        WorldEvent::Settles { cpu: 0 },
        WorldEvent::Hears {
            client: 1,
            which: 4,
        },
        WorldEvent::Looks { cpu: 0, which: 1 },
        WorldEvent::Hears {
            client: 0,
            which: 5,
        },
        WorldEvent::Hears {
            client: 0,
            which: 1,
        },
    ];
    all_summed(rt, world, &events);
}

/// Two CPUs look at one line, and both carve for it. The second to settle answers what the first
/// did, and frees what it carved.
#[test]
fn hand_race(rt: HostRuntime) {
    let mut setup = Setup::new(rt.alloc());
    root(&rt, &mut setup, "m", 0, 8, Policy::Best, 0);
    let mut world = world_of(&rt, rt.alloc(), &setup, 2, 1);
    let op = lease(&rt, "m", 4);
    race(&rt, &mut world, op);
    tells(&rt, &world, 0, [0, 0, 0, 0, 4, 4]);
    let reply = "granted 1 1 1 m 0 4";
    replied(&rt, &world, &["welcome 1 1", reply, reply]);
    let freed = [
        WorldEvent::Frees { cpu: 1 },
        WorldEvent::Hears {
            client: 0,
            which: 2,
        },
        WorldEvent::Hears {
            client: 0,
            which: 1,
        },
    ];
    all_summed(&rt, &mut world, &freed);
    tells(&rt, &world, 0, [4, 0, 0, 0, 4, 0]);
    holds(&rt, &world, 0, &[(0, 4)]);
    world.end();
}

fn race<R: Abort + AllocGlobal>(rt: &R, world: &mut World<PlainDeed>, op: Op) {
    let request = Request::plain(4);
    let events = [
        restarts(0, 1),
        WorldEvent::Looks { cpu: 0, which: 0 },
        WorldEvent::Hears {
            client: 0,
            which: 0,
        },
        WorldEvent::Says { client: 0, op },
        WorldEvent::Looks { cpu: 0, which: 1 },
        WorldEvent::Looks { cpu: 1, which: 1 },
        WorldEvent::Carves {
            cpu: 0,
            arena: 0,
            request,
        },
        WorldEvent::Carves {
            cpu: 1,
            arena: 0,
            request,
        },
        WorldEvent::Settles { cpu: 0 },
        WorldEvent::Settles { cpu: 1 },
    ];
    all_summed(rt, world, &events);
}

/// Seven chunks are leased and released, more than the CPU's two magazines of three have room for:
/// one goes to the depot. The CPU is drained, the depot and the slab are reaped, and all units are
/// leased at once. After each event all sums agree.
#[test]
fn rounds_story(rt: HostRuntime) {
    let mut setup = Setup::new(rt.alloc());
    root(&rt, &mut setup, "d", 0, 64, Policy::Instant, 5);
    let mut world = world_of(&rt, rt.alloc(), &setup, 1, 1);
    greeted(&rt, &mut world);
    for index in 0..7 {
        lease_chunk(&rt, &mut world, index);
    }
    tells(&rt, &world, 0, [48, 9, 0, 0, 7, 0]);
    for index in 0..7 {
        release_chunk(&rt, &mut world, index);
    }
    tells(&rt, &world, 0, [48, 9, 7, 0, 0, 0]);
    drained(&rt, &mut world);
    tells(&rt, &world, 0, [48, 13, 3, 0, 0, 0]);
    reaped(&rt, &mut world);
    tells(&rt, &world, 0, [64, 0, 0, 0, 0, 0]);
    all_leased(&rt, &mut world);
    tells(&rt, &world, 0, [0, 0, 0, 0, 64, 0]);
    holds(&rt, &world, 0, &[(0, 64)]);
    world.end();
}

/// The lease with this index is of the unit with this number: of the first chunk of a new slab, or
/// the next chunk of it.
fn lease_chunk<R: Abort + AllocGlobal>(rt: &R, world: &mut World<PlainDeed>, index: usize) {
    let op = lease(rt, "d", 1);
    let which = index.saturating_add(1);
    let (cpu, arena, cache) = (0, 0, 0);
    let asked = [
        WorldEvent::Says { client: 0, op },
        WorldEvent::Looks { cpu, which },
    ];
    all_summed(rt, world, &asked);
    let none = Outcome::NotEnabled;
    ends(rt, world, WorldEvent::Pops { cpu, arena, cache }, none);
    let refused = Outcome::Refused(EventFault::NoneFull);
    let swaps = WorldEvent::SwapsFull { cpu, arena, cache };
    ends(rt, world, swaps, refused);
    let takes = WorldEvent::SlabTakes { cpu, arena, cache };
    if index == 0 {
        ends(rt, world, takes, none);
        let adds = WorldEvent::SlabAdds { cpu, arena, cache };
        all_summed(rt, world, &[carves(cpu, arena, 16), adds]);
    } else {
        all_summed(rt, world, &[takes]);
    }
    all_summed(rt, world, &[WorldEvent::Settles { cpu }, hears(0, which)]);
}

/// The unit with this number becomes a round, the last in a magazine of its own: the two that the
/// CPU had are full by then, and the depot has no empty one.
fn release_chunk<R: Abort + AllocGlobal>(rt: &R, world: &mut World<PlainDeed>, index: usize) {
    let op = release(rt, "d", index as u64);
    let which = index.saturating_add(8);
    let (cpu, arena, cache) = (0, 0, 0);
    let events = [
        WorldEvent::Says { client: 0, op },
        WorldEvent::Looks { cpu, which },
        WorldEvent::Releases { cpu },
    ];
    all_summed(rt, world, &events);
    if index == 6 {
        ends(rt, world, WorldEvent::Pushes { cpu }, Outcome::NotEnabled);
        let refused = Outcome::Refused(EventFault::NoneEmpty);
        ends(
            rt,
            world,
            WorldEvent::SwapsEmpty { cpu, arena, cache },
            refused,
        );
        all_summed(rt, world, &[WorldEvent::SwapsFresh { cpu, arena, cache }]);
    }
    all_summed(
        rt,
        world,
        &[
            WorldEvent::Pushes { cpu },
            WorldEvent::Hears { client: 0, which },
        ],
    );
}

/// The CPU's four rounds go back into the slab.
fn drained<R: Abort + AllocGlobal>(rt: &R, world: &mut World<PlainDeed>) {
    let (cpu, arena, cache) = (0, 0, 0);
    for _ in 0..4 {
        let events = [
            WorldEvent::Pops { cpu, arena, cache },
            WorldEvent::SlabPuts { cpu },
        ];
        all_summed(rt, world, &events);
    }
    ends(
        rt,
        world,
        WorldEvent::Pops { cpu, arena, cache },
        Outcome::NotEnabled,
    );
}

/// An interval passes, the depot's three rounds go back into the slab, and the slab into the arena.
fn reaped<R: Abort + AllocGlobal>(rt: &R, world: &mut World<PlainDeed>) {
    let (cpu, arena, cache) = (0, 0, 0);
    let none = Outcome::NotEnabled;
    ends(
        rt,
        world,
        WorldEvent::DepotReaps { cpu, arena, cache },
        none,
    );
    ends(rt, world, WorldEvent::SlabReaps { cpu, arena, cache }, none);
    all_summed(rt, world, &[WorldEvent::Ticks { arena, cache }]);
    for _ in 0..3 {
        let events = [
            WorldEvent::DepotReaps { cpu, arena, cache },
            WorldEvent::SlabPuts { cpu },
        ];
        all_summed(rt, world, &events);
    }
    ends(
        rt,
        world,
        WorldEvent::DepotReaps { cpu, arena, cache },
        none,
    );
    let events = [
        WorldEvent::SlabReaps { cpu, arena, cache },
        WorldEvent::Frees { cpu },
    ];
    all_summed(rt, world, &events);
}

fn all_leased<R: Abort + AllocGlobal>(rt: &R, world: &mut World<PlainDeed>) {
    let op = lease(rt, "d", 64);
    let events = [
        WorldEvent::Says { client: 0, op },
        WorldEvent::Looks { cpu: 0, which: 15 },
        WorldEvent::Carves {
            cpu: 0,
            arena: 0,
            request: Request::plain(64),
        },
        WorldEvent::Settles { cpu: 0 },
        WorldEvent::Hears {
            client: 0,
            which: 15,
        },
    ];
    all_summed(rt, world, &events);
}
