//! A CPU fails in the middle of a line, and is drained while another worker leases and releases.
ghost use Rattle.std.specs.Prelude.{◌≡◌};

use super::gates::{Halting, halted_lease, halted_release, raised, stop};
use super::{ask, child, cpu, made, retire, root, shut, stuck};
use arena_tree::Setup;
use deed_table::{Ground, Name};
use lease_client::Client;
use lease_proto::{LeaseLine, LeaseOptions, Line, Op, ReleaseLine};
use lease_terms::{ArenaName, ClientId, Protocol, Quantity};
use lease_threads::{Cpu, OpenGate, System};
use std::alloc::AllocGlobal;
use std::marker::Brand;
use std::process::Abort;
use std::rt::Clock;
use std::sync::Wait;
use std::sync::atomic::{AtomicBool, Ordering};
use std::thread;
use std::thread::Threads;
use tag_arena::Policy;

/// How many turns the other worker takes at least.
const TURNS: u64 = 20;

/// What the two workers tell each other.
#[derive(Drop)]
struct Flags {
    /// The first CPU stopped.
    stopped: AtomicBool,
    /// The other worker leases and releases.
    runs: AtomicBool,
    /// The failed CPU is drained.
    drained: AtomicBool,
}

/// Each step of a lease by a new slab, and of a release, in a system of its own.
#[test]
fn drain_step_beside_another(rt: HostRuntime) {
    fail_at_each(&rt, &halted_lease());
    fail_at_each(&rt, &halted_release());
}

fn fail_at_each<R: Abort + Wait + Threads + Clock + AllocGlobal + Sync>(rt: &R, row: &Halting) {
    for turn in 0..row.held.len() {
        let mut setup = Setup::new(rt.alloc());
        root(rt, &mut setup, "d", 0, 64, Policy::Instant, 5);
        child(rt, &mut setup, "b", "d");
        let ground = Ground::new(rt.alloc()).expect(rt, "a table");
        fail_beside::<Brand, _>(rt, ground, setup, row, turn);
    }
}

fn fail_beside<N: Name + Send + Sync, R: Abort + Wait + Threads + Clock + AllocGlobal + Sync>(
    rt: &R,
    ground: Ground,
    setup: Setup,
    row: &Halting,
    turn: usize,
)
    requires { ground ≡ N.table }
{
    let system: System<N> = made(rt, ground, setup);
    let flags = Flags {
        stopped: AtomicBool::new(false),
        runs: AtomicBool::new(false),
        drained: AtomicBool::new(false),
    };
    let (shared, told) = (&system, &flags);
    thread::join(
        rt,
        move || fail(rt, shared, told, row, turn),
        move || lease_and_release(rt, shared, told),
    );
    shut(rt, system, &[(0, 64)]);
}

/// A CPU stops before a step of a line, and is drained once the other worker runs.
fn fail<N: Name, R: Abort + Wait + Clock + AllocGlobal>(
    rt: &R,
    system: &System<N>,
    flags: &Flags,
    row: &Halting,
    turn: usize,
) {
    let mut failed = cpu(rt, system, 0);
    for (text, wanted) in row.before {
        ask(rt, system, &mut failed, text, wanted);
    }
    let held = row.held.get(turn).expect(rt, "a step");
    stop(rt, system, &mut failed, row.text, turn as u64, *held);
    flags.stopped.store(true, Ordering::SeqCst);
    assert!(rt; raised(rt, &flags.runs), "the other worker doesn't run");
    match system.drain_failed(rt, failed) {
        Ok(()) => {}
        Err(cpu) => stuck(rt, cpu),
    }
    flags.drained.store(true, Ordering::SeqCst);
}

/// Leases one, two and five units and releases them, from when the other CPU stopped until it is
/// drained.
fn lease_and_release<N: Name, R: Abort + Wait + Clock + AllocGlobal>(
    rt: &R,
    system: &System<N>,
    flags: &Flags,
) {
    assert!(rt; raised(rt, &flags.stopped), "the first CPU doesn't stop");
    let mut cpu = cpu(rt, system, 1);
    let mut client = Client::new(rt.alloc(), ClientId::new(2).expect(rt, "a client"));
    let hello = client
        .restart(1, Protocol::One)
        .expect(rt, "an incarnation");
    tell(rt, system, &mut cpu, &mut client, &hello);
    let mut turns: u64 = 0;
    for _ in rt.forever() {
        if turns >= TURNS && flags.drained.load(Ordering::SeqCst) {
            break;
        }
        for size in [1, 2, 5] {
            send(rt, system, &mut cpu, &mut client, lease(rt, size));
        }
        assert!(rt; client.held().len() == 3, "a lease of few units is granted");
        for _ in 0..3 {
            let held = client.held().first().expect(rt, "a lease");
            let op = Op::Release(ReleaseLine {
                arena: held.arena,
                base: held.base,
            });
            send(rt, system, &mut cpu, &mut client, op);
        }
        turns = turns.saturating_add(1);
        flags.runs.store(true, Ordering::SeqCst);
    }
    retire(rt, system, cpu);
}

fn lease(rt: &impl Abort, size: u64) -> Op {
    Op::Lease(LeaseLine {
        arena: ArenaName::new(b"d").expect(rt, "a name"),
        size: Quantity::new(size).expect(rt, "a size"),
        options: LeaseOptions::none(),
    })
}

fn send<N: Name, R: Abort + Wait>(
    rt: &R,
    system: &System<N>,
    cpu: &mut Cpu<N>,
    client: &mut Client,
    op: Op,
) {
    let line = client.send(op).expect(rt, "a line");
    tell(rt, system, cpu, client, &line);
}

/// Asks a line, and gives its client the reply.
fn tell<N: Name, R: Abort + Wait>(
    rt: &R,
    system: &System<N>,
    cpu: &mut Cpu<N>,
    client: &mut Client,
    line: &Line,
) {
    match system.request(rt, cpu, &OpenGate, line) {
        Ok(told) => {
            client.got(&told.reply);
        }
        Err(_) => panic!(rt; "an open gate stops nothing"),
    }
}
