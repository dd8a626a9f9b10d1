//! Imports and slabs, event by event. After each the audit, the sums by counts and those by parts
//! agree, and after some they are what was counted by hand.
use crate::worlds::{
    all_summed, carves, child, ends, greeted, hears, lease, name, no_fit, release, replied, root,
    said, tells, world_of,
};
use arena_tree::{NewChild, NewRoot, Setting, Setup};
use deed_core::PlainDeed;
use std::alloc::AllocGlobal;
use std::process::Abort;
use tag_arena::Policy;
use world_core::{Outcome, World, WorldEvent};

/// The CPU gives its hand's span to the child, and gets so many units of it.
fn adds(child: usize, size: u64) -> WorldEvent {
    WorldEvent::AddCarves {
        cpu: 0,
        child,
        size,
    }
}

/// What the CPU has in its hand is leased to the request at this index.
fn leased<R: Abort + AllocGlobal>(rt: &R, world: &mut World<PlainDeed>, which: usize) {
    let settles = WorldEvent::Settles { cpu: 0 };
    all_summed(rt, world, &[settles, hears(0, which)]);
}

/// What begins at this base of the arena goes back, and so many spans that become whole by that.
fn released<R: Abort + AllocGlobal>(
    rt: &R,
    world: &mut World<PlainDeed>,
    which: usize,
    arena: &str,
    spans: usize,
) {
    said(rt, world, which, release(rt, arena, 0));
    all_summed(rt, world, &[WorldEvent::Releases { cpu: 0 }]);
    all_summed(rt, world, &[WorldEvent::Frees { cpu: 0 }]);
    for _ in 0..spans {
        all_summed(rt, world, &[WorldEvent::Frees { cpu: 0 }]);
    }
    all_summed(rt, world, &[hears(0, which)]);
}

/// So many units of the source, which serves them itself.
fn carved<R: Abort + AllocGlobal>(rt: &R, world: &mut World<PlainDeed>, which: usize) {
    said(rt, world, which, lease(rt, "r", 8));
    all_summed(rt, world, &[carves(0, 0, 8)]);
    leased(rt, world, which);
}

/// A child's import of 16 units goes back once its last segment is free, and the next lease of its
/// source is at the lowest base again.
#[test]
fn span_goes_back(rt: HostRuntime) {
    let mut setup = Setup::new(rt.alloc());
    root(&rt, &mut setup, "r", 0, 64, Policy::Best, 0);
    child(&rt, &mut setup, "c", "r", Policy::Best, 0, 16);
    let mut world = world_of(&rt, rt.alloc(), &setup, 1, 1);
    greeted(&rt, &mut world);
    said(&rt, &mut world, 1, lease(&rt, "c", 4));
    no_fit(&rt, &mut world, 1, 4);
    all_summed(&rt, &mut world, &[carves(0, 0, 16), adds(1, 4)]);
    leased(&rt, &mut world, 1);
    carved(&rt, &mut world, 2);
    tells(&rt, &world, 0, [40, 0, 0, 16, 8, 0]);
    tells(&rt, &world, 1, [12, 0, 0, 0, 4, 0]);
    released(&rt, &mut world, 3, "c", 1);
    carved(&rt, &mut world, 4);
    let lines = [
        "welcome 1 1",
        "granted 1 1 1 c 0 4",
        "granted 1 1 2 r 16 8",
        "released 1 1 3",
        "granted 1 1 4 r 0 8",
    ];
    replied(&rt, &world, &lines);
    world.end();
}

/// Three arenas in a chain, in quanta of 16, 4 and 1 units; the last imports 6 units or more.
fn three_arenas(rt: &impl Abort, setup: &mut Setup) {
    let top = NewRoot {
        name: name(rt, "a"),
        base: 0,
        len: 64,
        quantum: 16,
        policy: Policy::Best,
        qcache_max: 0,
    };
    let middle = NewChild {
        name: name(rt, "b"),
        source: name(rt, "a"),
        quantum: 4,
        policy: Policy::Best,
        qcache_max: 0,
        import_min: 0,
    };
    setup.add(&Setting::Root(top)).expect(rt, "a root");
    setup.add(&Setting::Child(middle)).expect(rt, "a child");
    child(rt, setup, "c", "b", Policy::Best, 0, 6);
}

/// Each source rounds an import up to its quantum, and gets it back when the last lease ends.
#[test]
fn import_through_two_sources(rt: HostRuntime) {
    let mut setup = Setup::new(rt.alloc());
    three_arenas(&rt, &mut setup);
    let mut world = world_of(&rt, rt.alloc(), &setup, 1, 1);
    greeted(&rt, &mut world);
    said(&rt, &mut world, 1, lease(&rt, "c", 5));
    no_fit(&rt, &mut world, 2, 5);
    no_fit(&rt, &mut world, 1, 8);
    let events = [carves(0, 0, 16), adds(1, 8), adds(2, 5)];
    all_summed(&rt, &mut world, &events);
    leased(&rt, &mut world, 1);
    tells(&rt, &world, 0, [48, 0, 0, 16, 0, 0]);
    tells(&rt, &world, 1, [8, 0, 0, 8, 0, 0]);
    tells(&rt, &world, 2, [3, 0, 0, 0, 5, 0]);
    released(&rt, &mut world, 2, "c", 2);
    tells(&rt, &world, 0, [64, 0, 0, 0, 0, 0]);
    tells(&rt, &world, 1, [0, 0, 0, 0, 0, 0]);
    tells(&rt, &world, 2, [0, 0, 0, 0, 0, 0]);
    let lines = ["welcome 1 1", "granted 1 1 1 c 0 5", "released 1 1 2"];
    replied(&rt, &world, &lines);
    world.end();
}

/// A chunk of five units is leased: the first one of a new slab, or the next one of the last slab.
fn chunk<R: Abort + AllocGlobal>(
    rt: &R,
    world: &mut World<PlainDeed>,
    which: usize,
    is_first: bool,
) {
    let (cpu, arena, cache) = (0, 0, 4);
    said(rt, world, which, lease(rt, "d", 5));
    let takes = WorldEvent::SlabTakes { cpu, arena, cache };
    if is_first {
        ends(rt, world, takes, Outcome::NotEnabled);
        let adds = WorldEvent::SlabAdds { cpu, arena, cache };
        all_summed(rt, world, &[carves(cpu, arena, 16), adds]);
    } else {
        all_summed(rt, world, &[takes]);
    }
    leased(rt, world, which);
}

/// A slab of 16 units has three chunks of five and a unit over, which is the second slab's gap.
#[test]
fn second_slab_has_a_gap(rt: HostRuntime) {
    let mut setup = Setup::new(rt.alloc());
    root(&rt, &mut setup, "d", 0, 64, Policy::Instant, 5);
    let mut world = world_of(&rt, rt.alloc(), &setup, 1, 1);
    greeted(&rt, &mut world);
    for which in 1..5 {
        chunk(&rt, &mut world, which, which % 3 == 1);
    }
    tells(&rt, &world, 0, [32, 12, 0, 0, 20, 0]);
    let lines = [
        "welcome 1 1",
        "granted 1 1 1 d 0 5",
        "granted 1 1 2 d 5 5",
        "granted 1 1 3 d 10 5",
        "granted 1 1 4 d 17 5",
    ];
    replied(&rt, &world, &lines);
    world.end();
}
