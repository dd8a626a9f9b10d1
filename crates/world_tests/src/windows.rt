//! A client of the second protocol, with eight requests under way at once.
use crate::worlds::{
    all_done, carves, ends, hears, holds, lease, release, repeats, replied, root, tells, world_of,
};
use arena_tree::Setup;
use deed_core::PlainDeed;
use lease_terms::Protocol;
use std::alloc::AllocGlobal;
use std::process::Abort;
use tag_arena::Policy;
use world_core::{EventFault, Outcome, World, WorldEvent};

/// All replies in the end.
const REPLIES: [&str; 15] = [
    "welcome 1 1 2",
    "granted 1 1 8 q 0 1",
    "granted 1 1 7 q 1 1",
    "granted 1 1 6 q 2 1",
    "granted 1 1 5 q 3 1",
    "granted 1 1 4 q 4 1",
    "granted 1 1 3 q 5 1",
    "granted 1 1 2 q 6 1",
    "granted 1 1 1 q 7 1",
    "granted 1 1 1 q 7 1",
    "granted 1 1 9 q 8 1",
    "stale 1 1 1 9",
    "released 1 1 10",
    "granted 1 1 11 q 8 1",
    "released 1 1 10",
];

/// Eight requests are sent before the first is served, and served the last first. A CPU stops with
/// what it carved for one of them: another takes that over, and serves the request when its client
/// sends it again. Each reply counts once, however often it comes; the oldest is kept until the
/// ninth number is settled. At last a unit is released and leased again before the client hears of
/// either, of the lease first.
#[test]
fn eight_under_way(rt: HostRuntime) {
    let mut setup = Setup::new(rt.alloc());
    root(&rt, &mut setup, "q", 0, 16, Policy::Best, 0);
    let mut world = world_of(&rt, rt.alloc(), &setup, 2, 1);
    sends_eight(&rt, &mut world);
    for which in [8, 7, 6] {
        served(&rt, &mut world, 0, which);
    }
    stops(&rt, &mut world);
    for which in [9, 4, 3, 2, 1] {
        served(&rt, &mut world, 1, which);
    }
    tells(&rt, &world, 0, [8, 0, 0, 0, 8, 0]);
    holds(&rt, &world, 0, &[]);
    all_heard(&rt, &mut world);
    all_heard(&rt, &mut world);
    ninth(&rt, &mut world);
    crossed(&rt, &mut world);
    tells(&rt, &world, 0, [7, 0, 0, 0, 9, 0]);
    replied(&rt, &world, &REPLIES);
    world.end();
}

/// The client asks for a unit.
fn asks(rt: &impl Abort) -> WorldEvent {
    WorldEvent::Says {
        client: 0,
        op: lease(rt, "q", 1),
    }
}

/// A hello of the second protocol, and eight requests, the number of each that of its line.
fn sends_eight<R: Abort + AllocGlobal>(rt: &R, world: &mut World<PlainDeed>) {
    let greeted = [
        WorldEvent::Restarts {
            client: 0,
            incarnation: 1,
            protocol: Protocol::Two,
        },
        WorldEvent::Looks { cpu: 0, which: 0 },
        hears(0, 0),
    ];
    all_done(rt, world, &greeted);
    for _ in 0..8 {
        all_done(rt, world, &[asks(rt)]);
    }
    ends(rt, world, asks(rt), Outcome::Refused(EventFault::Busy));
}

/// A CPU serves the lease in this line.
fn served<R: Abort + AllocGlobal>(rt: &R, world: &mut World<PlainDeed>, cpu: usize, which: usize) {
    let events = [
        WorldEvent::Looks { cpu, which },
        carves(cpu, 0, 1),
        WorldEvent::Settles { cpu },
    ];
    all_done(rt, world, &events);
}

/// The first CPU carves for the fifth request and stops, the other frees that, and the client sends
/// the request again.
fn stops<R: Abort + AllocGlobal>(rt: &R, world: &mut World<PlainDeed>) {
    let events = [
        WorldEvent::Looks { cpu: 0, which: 5 },
        carves(0, 0, 1),
        WorldEvent::Adopts { cpu: 1, other: 0 },
        WorldEvent::Frees { cpu: 1 },
        repeats(0, Some(5)),
    ];
    all_done(rt, world, &events);
    let settles = WorldEvent::Settles { cpu: 0 };
    ends(rt, world, settles, Outcome::NotEnabled);
}

/// The eight replies come to the client, the last number first.
fn all_heard<R: Abort + AllocGlobal>(rt: &R, world: &mut World<PlainDeed>) {
    for which in 1..9 {
        all_done(rt, world, &[hears(0, which)]);
    }
    let wanted = [
        (0, 1),
        (1, 1),
        (2, 1),
        (3, 1),
        (4, 1),
        (5, 1),
        (6, 1),
        (7, 1),
    ];
    holds(rt, world, 0, &wanted);
    let none = Outcome::Refused(EventFault::Nothing);
    ends(rt, world, repeats(0, Some(5)), none);
}

/// The second CPU looks at the line of the first request.
fn looks_at_first() -> WorldEvent {
    WorldEvent::Looks { cpu: 1, which: 1 }
}

/// The first number is answered as before, until the ninth is settled.
fn ninth<R: Abort + AllocGlobal>(rt: &R, world: &mut World<PlainDeed>) {
    all_done(rt, world, &[looks_at_first(), asks(rt)]);
    served(rt, world, 1, 10);
    all_done(rt, world, &[looks_at_first(), hears(0, 10)]);
}

/// A release and a lease of the same unit are settled, and the release is sent again. The grant
/// comes first.
fn crossed<R: Abort + AllocGlobal>(rt: &R, world: &mut World<PlainDeed>) {
    let op = release(rt, "q", 8);
    let events = [
        WorldEvent::Says { client: 0, op },
        asks(rt),
        WorldEvent::Looks { cpu: 1, which: 11 },
        WorldEvent::Releases { cpu: 1 },
        WorldEvent::Frees { cpu: 1 },
    ];
    all_done(rt, world, &events);
    served(rt, world, 1, 12);
    let again = [repeats(0, None), WorldEvent::Looks { cpu: 1, which: 13 }];
    all_done(rt, world, &again);
    all_done(rt, world, &[hears(0, 13), hears(0, 14), hears(0, 12)]);
    let held = world.held(0).expect(rt, "a client");
    assert!(rt; held.len() == 9, "{held:?}");
}
