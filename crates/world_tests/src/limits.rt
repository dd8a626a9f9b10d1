//! A world at its limits: the last of 64 CPUs, the client with the last number, and as many leases
//! as one client may have.
use crate::worlds::{all_done, carves, client, hears, lease, reads, restarts, root, tells};
use arena_tree::Setup;
use deed_core::PlainDeed;
use std::alloc::{AllocGlobal, Global};
use std::process::Abort;
use tag_arena::Policy;
use world_core::{World, WorldEvent};

/// The last CPU.
const CPU: usize = 63;

/// 1,024 units are leased one by one. The next request is refused, and the unit that was carved for
/// it stays in the hand, to be freed.
#[test]
fn one_lease_more(rt: HostRuntime) {
    let mut setup = Setup::new(rt.alloc());
    root(&rt, &mut setup, "p", 0, 1_025, Policy::Best, 0);
    let mut world = greatest_world(&rt, rt.alloc(), &setup);
    let looks = WorldEvent::Looks { cpu: CPU, which: 0 };
    all_done(&rt, &mut world, &[restarts(0, 1), looks, hears(0, 0)]);
    for which in 1..1_025 {
        served(&rt, &mut world, which);
    }
    tells(&rt, &world, 0, [1, 0, 0, 0, 1_024, 0]);
    last_reply(&rt, &world, "granted 65536 1 1024 p 1023 1");
    served(&rt, &mut world, 1_025);
    tells(&rt, &world, 0, [0, 0, 0, 0, 1_024, 1]);
    last_reply(&rt, &world, "refused 65536 1 1025 leases");
    all_done(&rt, &mut world, &[WorldEvent::Frees { cpu: CPU }]);
    tells(&rt, &world, 0, [1, 0, 0, 0, 1_024, 0]);
    let held = world.held(0).expect(&rt, "a client");
    assert!(rt; held.len() == 1_024);
    world.end();
}

/// With 64 CPUs, and the client 65,536.
fn greatest_world(rt: &impl Abort, alloc: Global, setup: &Setup) -> World<PlainDeed> {
    let mut made = match World::new(alloc, setup, 64) {
        Ok(world) => world,
        Err(_) => panic!(rt; "memory"),
    };
    match made.add_client(alloc, client(rt, 65_536)) {
        Ok(()) => {}
        Err(_) => panic!(rt; "memory"),
    }
    made
}

/// The client asks for a unit in the line at this index, and the last CPU serves it.
fn served<R: Abort + AllocGlobal>(rt: &R, world: &mut World<PlainDeed>, which: usize) {
    let op = lease(rt, "p", 1);
    let events = [
        WorldEvent::Says { client: 0, op },
        WorldEvent::Looks { cpu: CPU, which },
        carves(CPU, 0, 1),
        WorldEvent::Settles { cpu: CPU },
        hears(0, which),
    ];
    all_done(rt, world, &events);
}

/// The last reply is written so.
fn last_reply<R: Abort + AllocGlobal>(rt: &R, world: &World<PlainDeed>, text: &str) {
    let reply = world.replies().last().expect(rt, "a reply");
    reads(rt, reply, text);
}
