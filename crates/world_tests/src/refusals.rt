//! Events that their parts refuse, and events that can't be tried. Nothing moves at them.
use crate::worlds::{
    all_done, carves, child, client, ends, grows, hears, lease, plain_root, release, repeats,
    restarts, root, sums, world_of,
};
use arena_tree::Setup;
use deed_core::{PlainDeed, Request};
use lease_terms::Refusal;
use std::alloc::AllocGlobal;
use std::process::Abort;
use stock_audit::ArenaSums;
use tag_arena::Policy;
use world_core::{EventFault, Outcome, World, WorldEvent};

/// What is seen of a world of one arena: its sums, and how many lines and replies were sent.
fn seen(rt: &impl Abort, world: &World<PlainDeed>) -> (ArenaSums, usize, usize) {
    let (lines, replies) = (world.requests().len(), world.replies().len());
    (sums(rt, world, 0), lines, replies)
}

/// The event ends so, and what is seen is as before.
fn stays(rt: &impl Abort, world: &mut World<PlainDeed>, event: WorldEvent, wanted: Outcome) {
    let (told, lines, replies) = seen(rt, world);
    ends(rt, world, event, wanted);
    let (told_after, lines_after, replies_after) = seen(rt, world);
    assert!(rt; told == told_after, "{told_after:?}");
    assert!(rt;
        lines == lines_after && replies == replies_after,
        "{event:?}"
    );
}

fn refused(rt: &impl Abort, world: &mut World<PlainDeed>, rows: &[(WorldEvent, EventFault)]) {
    for (event, why) in rows {
        stays(rt, world, *event, Outcome::Refused(*why));
    }
}

fn not_enabled(rt: &impl Abort, world: &mut World<PlainDeed>, events: &[WorldEvent]) {
    for event in events {
        stays(rt, world, *event, Outcome::NotEnabled);
    }
}

/// Of each name but `Exhausted`, for which a client would have to send 2^62 requests.
#[test]
fn refused_by_their_parts(rt: HostRuntime) {
    let mut setup = Setup::new(rt.alloc());
    root(&rt, &mut setup, "d", 0, 64, Policy::Best, 5);
    let mut world = world_of(&rt, rt.alloc(), &setup, 2, 1);
    clients_refuse(&rt, &mut world);
    arenas_refuse(&rt, &mut world);
    depots_refuse(&rt, &mut world);
    world.end();
}

/// The client asks for a unit.
fn says(rt: &impl Abort) -> WorldEvent {
    WorldEvent::Says {
        client: 0,
        op: lease(rt, "d", 1),
    }
}

/// The client gives one back.
fn gives_back(rt: &impl Abort) -> WorldEvent {
    WorldEvent::Says {
        client: 0,
        op: release(rt, "d", 0),
    }
}

/// So many rounds in a magazine of the cache.
fn resizes(size: usize) -> WorldEvent {
    WorldEvent::Resizes {
        arena: 0,
        cache: 0,
        size,
    }
}

/// So many rounds in each magazine of the CPU's for the cache.
fn changes(cpu: usize, size: usize) -> WorldEvent {
    WorldEvent::Changes {
        cpu,
        arena: 0,
        cache: 0,
        size,
    }
}

fn clients_refuse<R: Abort + AllocGlobal>(rt: &R, world: &mut World<PlainDeed>) {
    let client = 0;
    let first = [
        (says(rt), EventFault::NotOpen),
        (repeats(client, None), EventFault::Nothing),
        (repeats(client, Some(1)), EventFault::Nothing),
        (restarts(client, 0), EventFault::NotGreater),
        (restarts(client, (1 << 62) + 1), EventFault::NotGreater),
    ];
    refused(rt, world, &first);
    all_done(rt, world, &[restarts(client, 1)]);
    let second = [
        (restarts(client, 1), EventFault::NotGreater),
        (says(rt), EventFault::NotOpen),
    ];
    refused(rt, world, &second);
    welcomed_refuses(rt, world);
}

/// The same client, once it was welcomed.
fn welcomed_refuses<R: Abort + AllocGlobal>(rt: &R, world: &mut World<PlainDeed>) {
    let welcomed = [WorldEvent::Looks { cpu: 0, which: 0 }, hears(0, 0)];
    all_done(rt, world, &welcomed);
    refused(rt, world, &[(gives_back(rt), EventFault::NotHeld)]);
    all_done(rt, world, &[says(rt)]);
    let busy = [
        (says(rt), EventFault::Busy),
        (gives_back(rt), EventFault::Busy),
        (repeats(0, Some(2)), EventFault::Nothing),
    ];
    refused(rt, world, &busy);
    all_done(rt, world, &[WorldEvent::Looks { cpu: 1, which: 1 }]);
    let refusal = Refusal::NotYours;
    not_enabled(rt, world, &[WorldEvent::Declines { cpu: 1, refusal }]);
}

fn arenas_refuse<R: Abort + AllocGlobal>(rt: &R, world: &mut World<PlainDeed>) {
    let (cpu, arena, cache) = (0, 0, 0);
    let rows = [
        (carves(cpu, arena, 0), EventFault::BadRequest),
        (carves(cpu, arena, 65), EventFault::NoFit),
    ];
    refused(rt, world, &rows);
    all_done(rt, world, &[carves(cpu, arena, 8)]);
    let adds = WorldEvent::SlabAdds { cpu, arena, cache };
    refused(rt, world, &[(adds, EventFault::WrongSize)]);
    all_done(rt, world, &[WorldEvent::Frees { cpu }]);
}

/// Six chunks of a slab fill a CPU's two magazines.
fn fill<R: Abort + AllocGlobal>(rt: &R, world: &mut World<PlainDeed>) {
    let (cpu, arena, cache) = (0, 0, 0);
    let events = [
        WorldEvent::Carves {
            cpu,
            arena,
            request: Request::plain(16),
        },
        WorldEvent::SlabAdds { cpu, arena, cache },
        WorldEvent::Pushes { cpu },
    ];
    all_done(rt, world, &events);
    for _ in 0..5 {
        let events = [
            WorldEvent::SlabTakes { cpu, arena, cache },
            WorldEvent::Pushes { cpu },
        ];
        all_done(rt, world, &events);
    }
}

fn depots_refuse<R: Abort + AllocGlobal>(rt: &R, world: &mut World<PlainDeed>) {
    let (cpu, arena, cache) = (0, 0, 0);
    let swaps_full = WorldEvent::SwapsFull { cpu, arena, cache };
    let swaps_fresh = WorldEvent::SwapsFresh { cpu, arena, cache };
    refused(rt, world, &[(swaps_full, EventFault::NoneFull)]);
    fill(rt, world);
    let swaps_empty = WorldEvent::SwapsEmpty { cpu, arena, cache };
    refused(rt, world, &[(swaps_empty, EventFault::NoneEmpty)]);
    refused(rt, world, &[(resizes(3), EventFault::NotGreater)]);
    all_done(rt, world, &[resizes(7)]);
    let others = WorldEvent::SwapsFull {
        cpu: 1,
        arena,
        cache,
    };
    let swaps_old = WorldEvent::SwapsEmpty { cpu, arena, cache };
    let rows = [
        (resizes(7), EventFault::NotGreater),
        (swaps_old, EventFault::OldSize),
        (swaps_fresh, EventFault::OldSize),
        (others, EventFault::OldSize),
    ];
    refused(rt, world, &rows);
    not_enabled(rt, world, &[changes(1, 15)]);
    all_done(rt, world, &[changes(1, 7)]);
    not_enabled(rt, world, &[changes(1, 7)]);
}

/// An arena in quanta of four gets no span that overlaps one of its own, aligned or not, and none
/// that isn't aligned. One that imports, or isn't there, gets none.
#[test]
fn grows_by_none_of_these(rt: HostRuntime) {
    let mut setup = Setup::new(rt.alloc());
    plain_root(&rt, &mut setup, "q", 8, 16, 4);
    child(&rt, &mut setup, "i", "q", Policy::Best, 0, 0);
    let mut world = world_of(&rt, rt.alloc(), &setup, 1, 1);
    let overlaps = EventFault::Overlaps;
    let not_aligned = EventFault::NotAligned;
    let rows = [
        (grows(&rt, 0, 8, 16), overlaps),
        (grows(&rt, 0, 4, 8), overlaps),
        (grows(&rt, 0, 12, 4), overlaps),
        (grows(&rt, 0, 23, 3), overlaps),
        (grows(&rt, 0, 26, 4), not_aligned),
        (grows(&rt, 0, 24, 6), not_aligned),
    ];
    refused(&rt, &mut world, &rows);
    let nowhere = [
        grows(&rt, 1, 24, 4),
        grows(&rt, 1, 8, 16),
        grows(&rt, 2, 24, 4),
    ];
    not_enabled(&rt, &mut world, &nowhere);
    let grown = [grows(&rt, 0, 24, 4), grows(&rt, 0, 4, 4)];
    all_done(&rt, &mut world, &grown);
    let again = [
        (grows(&rt, 0, 24, 4), overlaps),
        (grows(&rt, 0, 7, 2), overlaps),
    ];
    refused(&rt, &mut world, &again);
    world.end();
}

/// A client, a CPU, its hand, its request or a message isn't as the event asks.
#[test]
fn not_as_they_ask(rt: HostRuntime) {
    let mut setup = Setup::new(rt.alloc());
    root(&rt, &mut setup, "d", 0, 64, Policy::Best, 5);
    let mut world = world_of(&rt, rt.alloc(), &setup, 2, 1);
    nobody_there(&rt, &mut world);
    no_such_cache(&rt, &mut world);
    idle_cpus(&rt, &mut world);
    full_hands(&rt, &mut world);
    world.end();
}

fn nobody_there(rt: &impl Abort, world: &mut World<PlainDeed>) {
    let op = lease(rt, "d", 1);
    let id = client(rt, 1);
    let events = [
        restarts(1, 1),
        WorldEvent::Says { client: 1, op },
        repeats(1, None),
        repeats(1, Some(1)),
        hears(0, 0),
        WorldEvent::Looks { cpu: 0, which: 0 },
        carves(2, 0, 1),
        carves(0, 1, 1),
        WorldEvent::Sweeps { cpu: 0, client: id },
    ];
    not_enabled(rt, world, &events);
}

/// No cache has these indexes, magazines have no size of 8, and those of CPUs are as large as the
/// depot's.
fn no_such_cache(rt: &impl Abort, world: &mut World<PlainDeed>) {
    let (cpu, arena, cache) = (0, 0, 5);
    let events = [
        WorldEvent::SlabTakes { cpu, arena, cache },
        WorldEvent::SlabReaps { cpu, arena, cache },
        WorldEvent::DepotReaps { cpu, arena, cache },
        WorldEvent::Pops { cpu, arena, cache },
        WorldEvent::Ticks { arena, cache },
        resizes(8),
        changes(cpu, 3),
        changes(cpu, 7),
    ];
    not_enabled(rt, world, &events);
}

/// They serve nothing and have nothing.
fn idle_cpus(rt: &impl Abort, world: &mut World<PlainDeed>) {
    let (cpu, arena, cache) = (0, 0, 0);
    let events = [
        WorldEvent::Settles { cpu },
        WorldEvent::Declines {
            cpu,
            refusal: Refusal::NoFit,
        },
        WorldEvent::GivesUp { cpu },
        WorldEvent::Releases { cpu },
        WorldEvent::Frees { cpu },
        WorldEvent::AddCarves {
            cpu,
            child: 0,
            size: 1,
        },
        WorldEvent::SlabTakes { cpu, arena, cache },
        WorldEvent::SlabPuts { cpu },
        WorldEvent::SlabAdds { cpu, arena, cache },
        WorldEvent::SlabReaps { cpu, arena, cache },
        WorldEvent::DepotReaps { cpu, arena, cache },
        WorldEvent::Pops { cpu, arena, cache },
        WorldEvent::Pushes { cpu },
        WorldEvent::SwapsEmpty { cpu, arena, cache },
        WorldEvent::SwapsFresh { cpu, arena, cache },
    ];
    not_enabled(rt, world, &events);
}

/// A CPU has eight units that it carved.
fn full_hands<R: Abort + AllocGlobal>(rt: &R, world: &mut World<PlainDeed>) {
    let (cpu, arena, cache) = (0, 0, 0);
    let request = Request::plain(8);
    let begun = [
        restarts(0, 1),
        WorldEvent::Carves {
            cpu,
            arena,
            request,
        },
    ];
    all_done(rt, world, &begun);
    let events = [
        WorldEvent::Looks { cpu, which: 0 },
        WorldEvent::Settles { cpu },
        WorldEvent::Carves {
            cpu,
            arena,
            request,
        },
        WorldEvent::AddCarves {
            cpu,
            child: 0,
            size: 1,
        },
        WorldEvent::SlabPuts { cpu },
        WorldEvent::SlabAdds {
            cpu,
            arena: 1,
            cache,
        },
        WorldEvent::Pushes { cpu },
        WorldEvent::Frees { cpu: 1 },
    ];
    not_enabled(rt, world, &events);
}
