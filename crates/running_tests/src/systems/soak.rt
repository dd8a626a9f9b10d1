//! Four workers over one system for ten seconds.
ghost use Rattle.std.specs.Prelude.{◌≡◌};

use super::{child, cpu, made, retire, root, shut};
use arena_tree::Setup;
use deed_table::{Ground, Name};
use lease_client::{Client, HeldSegment};
use lease_proto::{LeaseLine, LeaseOptions, Line, Op, ReleaseLine, Reply};
use lease_terms::{ArenaName, ClientId, Protocol, Quantity};
use lease_threads::{Cpu, OpenGate, RequestStopped, System};
use std::alloc::AllocGlobal;
use std::marker::Brand;
use std::process::Abort;
use std::rt::Clock;
use std::sync::Wait;
use std::test::Fail;
use std::thread;
use std::thread::Threads;
use std::time::{Duration, Instant};
use tag_arena::Policy;

/// For how many seconds.
const SOAK: u64 = 10;

/// How many segments a worker holds at most.
const MOST_HELD: usize = 64;

/// What a worker's client has at the end, and how many lines were answered, grants and releases
/// among them.
#[derive(Drop)]
struct Tended {
    client: Client,
    lines: u64,
    grants: u64,
    releases: u64,
}

#[test]
fn four_workers_keep_apart(rt: HostRuntime) -> Result<(), Fail> {
    let mut setup = Setup::new(rt.alloc());
    root(&rt, &mut setup, "a", 0, 1024, Policy::Best, 0);
    child(&rt, &mut setup, "b", "a");
    root(&rt, &mut setup, "d", 1024, 1024, Policy::Best, 5);
    soaked::<Brand, _>(&rt, Ground::new(rt.alloc())?, setup);
    Ok(())
}

fn soaked<N: Name + Send + Sync, R: Abort + Wait + Threads + Clock + AllocGlobal + Sync>(
    rt: &R,
    ground: Ground,
    setup: Setup,
)
    requires { ground ≡ N.table }
{
    let system: System<N> = made(rt, ground, setup);
    let start = Instant::now(rt).expect(rt, "a clock");
    let shared = &system;
    let ((one, two), (three, four)) = thread::join(
        rt,
        move || {
            thread::join(
                rt,
                move || tend(rt, shared, 0, start),
                move || tend(rt, shared, 1, start),
            )
        },
        move || {
            thread::join(
                rt,
                move || tend(rt, shared, 2, start),
                move || tend(rt, shared, 3, start),
            )
        },
    );
    let all = [one, two, three, four];
    are_apart(rt, &all);
    shut(rt, system, &[(0, 1024), (1024, 1024)]);
}

/// Each worker got and released segments, and no two leases overlap. All arenas have units of their
/// own, or those that they got of another.
fn are_apart(rt: &impl Abort, all: &[Tended]) {
    for (index, one) in all.iter().enumerate() {
        assert!(rt; one.grants > 100 && one.releases > 100);
        are_all_apart(rt, one.client.held());
        for (later, other) in all.iter().enumerate() {
            if index < later {
                is_apart(rt, one.client.held(), other.client.held());
            }
        }
    }
}

fn are_all_apart(rt: &impl Abort, held: &[HeldSegment]) {
    for (index, one) in held.iter().enumerate() {
        for (later, other) in held.iter().enumerate() {
            if index < later {
                apart(rt, one, other);
            }
        }
    }
}

fn is_apart(rt: &impl Abort, ones: &[HeldSegment], others: &[HeldSegment]) {
    for one in ones {
        for other in others {
            apart(rt, one, other);
        }
    }
}

fn apart(rt: &impl Abort, one: &HeldSegment, other: &HeldSegment) {
    let apart = end(one) <= other.base.get() || end(other) <= one.base.get();
    assert!(rt; apart, "two leases overlap");
}

fn end(segment: &HeldSegment) -> u64 {
    segment.base.get().saturating_add(segment.len.get())
}

/// What one worker does: it leases and releases, and reaps at times. Two of the four clients are of
/// each protocol.
fn tend<N: Name, R: Abort + Wait + Clock + AllocGlobal>(
    rt: &R,
    system: &System<N>,
    number: u32,
    start: Instant,
) -> Tended {
    let mut cpu = cpu(rt, system, number);
    let client = Client::new(
        rt.alloc(),
        ClientId::new(number.saturating_add(1)).expect(rt, "a client"),
    );
    let mut tended = Tended {
        client,
        lines: 0,
        grants: 0,
        releases: 0,
    };
    tended.greet(rt, system, &mut cpu);
    let mut seed = u64::from(number)
        .wrapping_mul(977)
        .wrapping_add(88172645463325252);
    for _ in rt.forever() {
        if start.elapsed(rt).expect(rt, "a clock") >= Duration::from_secs(SOAK) {
            break;
        }
        seed = after(seed);
        let op = next_op(rt, &tended.client, seed);
        let line = tended.client.send(op).expect(rt, "a line");
        tended.answer(rt, system, &mut cpu, &line);
        if tended.lines % 64 == 0 {
            let _ = system.tick(rt);
            system.reap(rt, &mut cpu, (seed % 3) as u32, 1024);
        }
    }
    retire(rt, system, cpu);
    tended
}

/// The next of the numbers that choose what is done.
fn after(seed: u64) -> u64 {
    let one = seed ^ (seed << 13);
    let two = one ^ (one >> 7);
    two ^ (two << 17)
}

/// A lease of 1 to 24 units, or a release of what the client holds.
fn next_op(rt: &impl Abort, client: &Client, seed: u64) -> Op {
    let held = client.held();
    let index = (seed / 4096) as usize % MOST_HELD;
    if let Some(segment) = held.get(index) {
        return Op::Release(ReleaseLine {
            arena: segment.arena,
            base: segment.base,
        });
    }
    let name: &[u8] = match seed % 3 {
        0 => b"a",
        1 => b"b",
        _ => b"d",
    };
    Op::Lease(LeaseLine {
        arena: ArenaName::new(name).expect(rt, "a name"),
        size: Quantity::new(seed / 64 % 24 + 1).expect(rt, "a size"),
        options: LeaseOptions::none(),
    })
}

impl Tended {
    /// Says hello by the protocol of the CPU's number.
    fn greet<N: Name, R: Abort + Wait>(&mut self, rt: &R, system: &System<N>, cpu: &mut Cpu<N>) {
        let protocol = if cpu.number() % 2 == 0 {
            Protocol::One
        } else {
            Protocol::Two
        };
        let hello = self
            .client
            .restart(1, protocol)
            .expect(rt, "an incarnation");
        self.answer(rt, system, cpu, &hello);
    }

    /// Sends the line until it is answered by another reply than `again`.
    fn answer<N: Name, R: Abort + Wait>(
        &mut self,
        rt: &R,
        system: &System<N>,
        cpu: &mut Cpu<N>,
        line: &Line,
    ) {
        for _ in rt.forever() {
            match system.request(rt, cpu, &OpenGate, line) {
                Ok(told) => self.take(&told.reply),
                Err(RequestStopped) => panic!(rt; "stopped"),
            }
            if self.client.resend().is_err() {
                break;
            }
        }
    }

    fn take(&mut self, reply: &Reply) {
        self.client.got(reply);
        self.lines = self.lines.saturating_add(1);
        match reply {
            Reply::Granted(_) => self.grants = self.grants.saturating_add(1),
            Reply::Released(_) => self.releases = self.releases.saturating_add(1),
            _ => {}
        }
    }
}
