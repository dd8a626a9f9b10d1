//! What the tests share: a world with its clients, what they ask for, and how a world is looked at.
ghost use Rattle.std.specs.Prelude.{◌≡◌, ◌<◌, ◌≤◌};
ghost use Rattle.lease_proto.specs.declared.limits.TheConstants.{MOST_CPUS};

use arena_tree::{NewChild, NewRoot, Setting, Setup};
use deed_core::{PlainDeed, Range, Request};
use lease_proto::{LeaseLine, LeaseOptions, Op, ReleaseLine, Reply};
use lease_terms::{ArenaName, ClientId, Protocol, Quantity};
use std::alloc::{AllocGlobal, Global};
use std::process::Abort;
use stock_audit::{ArenaSums, SumsRoom};
use tag_arena::Policy;
use world_core::{EventFault, Outcome, World, WorldEvent};

/// The units of one arena: free, in slabs, in magazines, exported, leased, in hands.
pub(crate) type Counts = [u128; 6];

pub(crate) fn name(rt: &impl Abort, text: &str) -> ArenaName {
    ArenaName::new(text.as_bytes()).expect(rt, "a name")
}

pub(crate) fn units(rt: &impl Abort, units: u64) -> Quantity {
    Quantity::new(units).expect(rt, "a quantity")
}

/// The client with this number.
pub(crate) fn client(rt: &impl Abort, number: u32) -> ClientId
    ensures { result ≡ number }
{
    ClientId::new(number).expect(rt, "a client")
}

/// A root of so many units from `base` on, which has caches for up to `qcache_max`.
pub(crate) fn root(
    rt: &impl Abort,
    setup: &mut Setup,
    text: &str,
    base: u64,
    len: u64,
    policy: Policy,
    qcache_max: u64,
) {
    let root = NewRoot {
        name: name(rt, text),
        base,
        len,
        quantum: 1,
        policy,
        qcache_max,
    };
    setup.add(&Setting::Root(root)).expect(rt, "a root");
}

/// A root of so many units from `base` on, in quanta of `quantum` units, which has no caches.
pub(crate) fn plain_root(
    rt: &impl Abort,
    setup: &mut Setup,
    text: &str,
    base: u64,
    len: u64,
    quantum: u64,
) {
    let root = NewRoot {
        name: name(rt, text),
        base,
        len,
        quantum,
        policy: Policy::Best,
        qcache_max: 0,
    };
    setup.add(&Setting::Root(root)).expect(rt, "a root");
}

/// An arena that imports `import_min` units or more of its source.
pub(crate) fn child(
    rt: &impl Abort,
    setup: &mut Setup,
    text: &str,
    source: &str,
    policy: Policy,
    qcache_max: u64,
    import_min: u64,
) {
    let child = NewChild {
        name: name(rt, text),
        source: name(rt, source),
        quantum: 1,
        policy,
        qcache_max,
        import_min,
    };
    setup.add(&Setting::Child(child)).expect(rt, "a child");
}

/// The world of the setup, with the clients 1, 2 and so on.
pub(crate) fn world_of(
    rt: &impl Abort,
    alloc: Global,
    setup: &Setup,
    cpus: usize,
    clients: u32,
) -> World<PlainDeed>
    requires some { 0 < cpus }
    requires few { cpus ≤ MOST_CPUS }
{
    let mut made = match World::new(alloc, setup, cpus) {
        Ok(world) => world,
        Err(_) => panic!(rt; "memory"),
    };
    for index in 0..clients {
        let id = client(rt, index + 1);
        match made.add_client(alloc, id) {
            Ok(()) => {}
            Err(_) => panic!(rt; "memory"),
        }
    }
    made
}

/// Asks for so many units of the arena.
pub(crate) fn lease(rt: &impl Abort, arena: &str, size: u64) -> Op {
    Op::Lease(LeaseLine {
        arena: name(rt, arena),
        size: units(rt, size),
        options: LeaseOptions::none(),
    })
}

/// Gives back what begins at this base of the arena.
pub(crate) fn release(rt: &impl Abort, arena: &str, base: u64) -> Op {
    Op::Release(ReleaseLine {
        arena: name(rt, arena),
        base: units(rt, base),
    })
}

/// The client begins this incarnation, by the first protocol.
pub(crate) fn restarts(client: usize, incarnation: u64) -> WorldEvent {
    WorldEvent::Restarts {
        client,
        incarnation,
        protocol: Protocol::One,
    }
}

/// The client sends again the request with this number, or the first that waits.
pub(crate) fn repeats(client: usize, number: Option<u64>) -> WorldEvent {
    WorldEvent::Repeats { client, number }
}

/// The client hears this reply.
pub(crate) fn hears(client: usize, which: usize) -> WorldEvent {
    WorldEvent::Hears { client, which }
}

/// The CPU carves so many units of the arena.
pub(crate) fn carves(cpu: usize, arena: usize, size: u64) -> WorldEvent {
    WorldEvent::Carves {
        cpu,
        arena,
        request: Request::plain(size),
    }
}

/// The arena gets a further span of so many units from `base` on.
pub(crate) fn grows(rt: &impl Abort, arena: usize, base: u64, len: u64) -> WorldEvent {
    WorldEvent::Grows {
        arena,
        range: Range::new(base, len).expect(rt, "a range"),
    }
}

/// The event ends so.
pub(crate) fn ends(
    rt: &impl Abort,
    world: &mut World<PlainDeed>,
    event: WorldEvent,
    wanted: Outcome,
) {
    let outcome = world.step(event);
    assert!(rt; outcome == wanted, "{event:?}: {outcome:?}");
}

/// Each of the events happens.
pub(crate) fn all_done<R: Abort + AllocGlobal>(
    rt: &R,
    world: &mut World<PlainDeed>,
    events: &[WorldEvent],
) {
    let outcomes = world.run(rt.alloc(), events).expect(rt, "memory");
    assert!(rt; outcomes.len() == events.len(), "{outcomes:?}");
    for (event, outcome) in events.iter().zip(&outcomes) {
        assert!(rt; *outcome == Outcome::Done, "{event:?}: {outcome:?}");
    }
}

/// The sums of the arena at the index.
pub(crate) fn sums(rt: &impl Abort, world: &World<PlainDeed>, arena: usize) -> ArenaSums {
    assert!(rt; arena < world.arenas(), "no arena");
    world.audit(arena)
}

/// An audit, the sums by counts and those by parts tell the same of each arena.
pub(crate) fn same_sums(rt: &impl Abort, world: &World<PlainDeed>) {
    let mut room = SumsRoom::new();
    let sums = world.sums(&mut room);
    for arena in 0..world.arenas() {
        let told = world.audit(arena);
        assert_eq!(rt; sums[arena], told);
        assert_eq!(rt; world.audit_by_parts(arena), told);
    }
}

/// The sums of two arenas at most are others than these, which one event before they were.
pub(crate) fn changes_two(rt: &impl Abort, world: &World<PlainDeed>, before: &[ArenaSums]) {
    let mut room = SumsRoom::new();
    let sums = world.sums(&mut room);
    assert_eq!(rt; sums.len(), before.len());
    let mut changed: usize = 0;
    for (new, old) in sums.iter().zip(before) {
        if new != old {
            changed = changed.saturating_add(1);
        }
    }
    assert!(rt; changed <= 2, "{changed} arenas");
}

/// Each of the events happens; after each of them all sums agree, and those of two arenas at most
/// have changed.
pub(crate) fn all_summed<R: Abort + AllocGlobal>(
    rt: &R,
    world: &mut World<PlainDeed>,
    events: &[WorldEvent],
) {
    for event in events {
        let mut room = SumsRoom::new();
        let before = world.sums(&mut room);
        all_done(rt, world, &[*event]);
        changes_two(rt, world, before);
        same_sums(rt, world);
    }
}

/// The first client's first hello is answered by the first CPU.
pub(crate) fn greeted<R: Abort + AllocGlobal>(rt: &R, world: &mut World<PlainDeed>) {
    let looks = WorldEvent::Looks { cpu: 0, which: 0 };
    all_summed(rt, world, &[restarts(0, 1), looks, hears(0, 0)]);
}

/// The first client's line comes to the first CPU, at the index of its request's number.
pub(crate) fn said<R: Abort + AllocGlobal>(
    rt: &R,
    world: &mut World<PlainDeed>,
    which: usize,
    op: Op,
) {
    let says = WorldEvent::Says { client: 0, op };
    all_summed(rt, world, &[says, WorldEvent::Looks { cpu: 0, which }]);
}

/// So many units in one piece aren't free in the arena.
pub(crate) fn no_fit(rt: &impl Abort, world: &mut World<PlainDeed>, arena: usize, size: u64) {
    let refused = Outcome::Refused(EventFault::NoFit);
    ends(rt, world, carves(0, arena, size), refused);
    same_sums(rt, world);
}

/// The sums of the arena at the index are these.
pub(crate) fn tells(rt: &impl Abort, world: &World<PlainDeed>, arena: usize, counts: Counts) {
    let [free, slab, magazine, exported, leased, hand] = counts;
    let wanted = ArenaSums {
        free,
        slab,
        magazine,
        exported,
        leased,
        hand,
    };
    let told = sums(rt, world, arena);
    assert!(rt; told == wanted, "{told:?}");
}

/// The client at the index holds just these, each by its base and length.
pub(crate) fn holds(
    rt: &impl Abort,
    world: &World<PlainDeed>,
    client: usize,
    wanted: &[(u64, u64)],
) {
    let held = world.held(client).expect(rt, "a client");
    assert!(rt; held.len() == wanted.len(), "{held:?}");
    for (segment, (base, len)) in held.iter().zip(wanted) {
        assert!(rt;
            segment.base.get() == *base && segment.len.get() == *len,
            "{segment:?}"
        );
    }
}

/// The reply is written so.
pub(crate) fn reads<R: Abort + AllocGlobal>(rt: &R, reply: &Reply, text: &str) {
    let mut out = Vec::new(rt.alloc());
    reply.write(&mut out).expect(rt, "memory");
    out.pop();
    assert!(rt; out.as_slice() == text.as_bytes(), "{reply:?}");
}

/// All replies, each as it is written, are these lines.
pub(crate) fn replied<R: Abort + AllocGlobal>(rt: &R, world: &World<PlainDeed>, wanted: &[&str]) {
    let replies = world.replies();
    assert!(rt; replies.len() == wanted.len(), "{replies:?}");
    for (reply, text) in replies.iter().zip(wanted) {
        reads(rt, reply, text);
    }
}
