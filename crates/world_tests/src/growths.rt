//! Worlds whose arenas get further spans while segments are out.
use crate::worlds::{
    all_summed, carves, child, ends, greeted, grows, hears, holds, lease, no_fit, plain_root,
    release, replied, root, said, tells, world_of,
};
use arena_tree::Setup;
use deed_core::PlainDeed;
use std::alloc::AllocGlobal;
use std::process::Abort;
use tag_arena::Policy;
use world_core::{EventFault, Outcome, World, WorldEvent};

/// The arena that has spans of its own.
const SOURCE: usize = 0;

/// The arena that imports from it.
const CHILD: usize = 1;

/// Eight units are all that the source has, and are imported for a first lease. It grows between
/// that and the import for a second one, and once more, by the range between its two spans. In the
/// end all is free, and each of the three spans is still one of its own.
#[test]
fn grow_between_imports(rt: HostRuntime) {
    let mut setup = Setup::new(rt.alloc());
    root(&rt, &mut setup, "r", 0, 8, Policy::Best, 0);
    child(&rt, &mut setup, "c", "r", Policy::Best, 0, 8);
    let mut world = world_of(&rt, rt.alloc(), &setup, 1, 1);
    greeted(&rt, &mut world);
    asked(&rt, &mut world, 1);
    imported(&rt, &mut world, 1);
    tells(&rt, &world, SOURCE, [0, 0, 0, 8, 0, 0]);
    asked(&rt, &mut world, 2);
    no_fit(&rt, &mut world, SOURCE, 8);
    all_summed(&rt, &mut world, &[grows(&rt, SOURCE, 16, 8)]);
    tells(&rt, &world, SOURCE, [8, 0, 0, 8, 0, 0]);
    imported(&rt, &mut world, 2);
    tells(&rt, &world, SOURCE, [0, 0, 0, 16, 0, 0]);
    tells(&rt, &world, CHILD, [0, 0, 0, 0, 16, 0]);
    holds(&rt, &world, 0, &[(0, 8), (16, 8)]);
    all_summed(&rt, &mut world, &[grows(&rt, SOURCE, 8, 8)]);
    tells(&rt, &world, SOURCE, [8, 0, 0, 16, 0, 0]);
    released(&rt, &mut world, 3, 0);
    released(&rt, &mut world, 4, 16);
    tells(&rt, &world, SOURCE, [24, 0, 0, 0, 0, 0]);
    tells(&rt, &world, CHILD, [0, 0, 0, 0, 0, 0]);
    no_fit(&rt, &mut world, SOURCE, 9);
    replied(&rt, &world, &REPLIES);
    world.end();
}

/// All replies in the end.
const REPLIES: [&str; 5] = [
    "welcome 1 1",
    "granted 1 1 1 c 0 8",
    "granted 1 1 2 c 16 8",
    "released 1 1 3",
    "released 1 1 4",
];

/// The client asks for eight units of the child, which has none free.
fn asked<R: Abort + AllocGlobal>(rt: &R, world: &mut World<PlainDeed>, which: usize) {
    said(rt, world, which, lease(rt, "c", 8));
    no_fit(rt, world, CHILD, 8);
}

/// The CPU imports eight units and leases them.
fn imported<R: Abort + AllocGlobal>(rt: &R, world: &mut World<PlainDeed>, which: usize) {
    let adds = WorldEvent::AddCarves {
        cpu: 0,
        child: CHILD,
        size: 8,
    };
    let settles = WorldEvent::Settles { cpu: 0 };
    let events = [carves(0, SOURCE, 8), adds, settles, hears(0, which)];
    all_summed(rt, world, &events);
}

/// What begins at this base goes back into the child, and by that a whole span into the source.
fn released<R: Abort + AllocGlobal>(rt: &R, world: &mut World<PlainDeed>, which: usize, base: u64) {
    said(rt, world, which, release(rt, "c", base));
    let events = [
        WorldEvent::Releases { cpu: 0 },
        WorldEvent::Frees { cpu: 0 },
        WorldEvent::Frees { cpu: 0 },
        hears(0, which),
    ];
    all_summed(rt, world, &events);
}

/// An arena of eight units grows by eight more that touch them: 12 units in one piece don't fit in
/// it then either, and two leases of eight do.
#[test]
fn grown_span_stands_alone(rt: HostRuntime) {
    let mut setup = Setup::new(rt.alloc());
    root(&rt, &mut setup, "m", 0, 8, Policy::Best, 0);
    let mut world = world_of(&rt, rt.alloc(), &setup, 1, 1);
    greeted(&rt, &mut world);
    no_fit(&rt, &mut world, 0, 12);
    all_summed(&rt, &mut world, &[grows(&rt, 0, 8, 8)]);
    no_fit(&rt, &mut world, 0, 12);
    for which in 1..3 {
        said(&rt, &mut world, which, lease(&rt, "m", 8));
        let settles = WorldEvent::Settles { cpu: 0 };
        let events = [carves(0, 0, 8), settles, hears(0, which)];
        all_summed(&rt, &mut world, &events);
    }
    holds(&rt, &world, 0, &[(0, 8), (8, 8)]);
    let overlaps = Outcome::Refused(EventFault::Overlaps);
    ends(&rt, &mut world, grows(&rt, 0, 12, 8), overlaps);
    ends(&rt, &mut world, grows(&rt, 1, 0, 8), Outcome::NotEnabled);
    tells(&rt, &world, 0, [0, 0, 0, 0, 16, 0]);
    world.end();
}

/// An arena that owns 65,536 spans gets no further one. What overlaps one of them, or isn't in
/// whole quanta, is refused for that, and another arena grows still.
#[test]
fn one_span_more(rt: HostRuntime) {
    let mut setup = Setup::new(rt.alloc());
    plain_root(&rt, &mut setup, "w", 0, 2, 2);
    plain_root(&rt, &mut setup, "x", 0, 2, 2);
    let mut world = world_of(&rt, rt.alloc(), &setup, 1, 1);
    for place in 1..65_536 {
        ends(&rt, &mut world, grows(&rt, 0, 4 * place, 2), Outcome::Done);
    }
    let rows = [
        (grows(&rt, 0, 262_144, 2), EventFault::TooMany),
        (grows(&rt, 0, 262_140, 2), EventFault::Overlaps),
        (grows(&rt, 0, 262_145, 2), EventFault::NotAligned),
    ];
    for (event, why) in &rows {
        ends(&rt, &mut world, *event, Outcome::Refused(*why));
    }
    tells(&rt, &world, 0, [131_072, 0, 0, 0, 0, 0]);
    all_summed(&rt, &mut world, &[grows(&rt, 1, 262_144, 2)]);
    tells(&rt, &world, 1, [4, 0, 0, 0, 0, 0]);
    world.end();
}
