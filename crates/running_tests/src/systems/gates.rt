//! Requests that a gate holds or stops.
ghost use Rattle.std.specs.Prelude.{◌≡◌};

use super::{ask, ask_each, child, cpu, line, made, reaps, retire, root, same, shut, stuck};
use arena_tree::Setup;
use deed_table::{Ground, Name};
use lease_threads::{Cpu, EventName, Gate, NextStep, Pass, RequestStopped, System};
use std::alloc::AllocGlobal;
use std::marker::Brand;
use std::process::Abort;
use std::rt::Clock;
use std::sync::Wait;
use std::sync::atomic::{AtomicBool, Ordering};
use std::test::Fail;
use std::thread;
use std::thread::Threads;
use std::time::Duration;
use tag_arena::Policy;

/// Raises `held` at a settle, and holds it until `answered` is raised, for 10,000 looks at most.
#[derive(Drop)]
struct Hold<'a, R: Clock> {
    rt: &'a R,
    held: &'a AtomicBool,
    answered: &'a AtomicBool,
}

impl<R: Clock> Gate for Hold<'_, R> {
    ghost use Rattle.std.specs.Prelude.{◌≡◌};
    ghost use Rattle.locked_parts.specs.declared.gates.EventName.TheVariants.{Settle};

    ghost may_stop = { λ _ step. step.event ≡ Settle };

    ghost passed = { λ _ _. Unit {0} };

    fn pass(&self, step: &NextStep) -> Pass {
        if step.event != EventName::Settle {
            return Pass::Go;
        }
        self.held.store(true, Ordering::SeqCst);
        if raised(self.rt, self.answered) {
            Pass::Go
        } else {
            Pass::Stop
        }
    }
}

/// Waits until a flag is raised, for 10,000 looks at most.
pub(super) fn raised<R: Clock>(rt: &R, flag: &AtomicBool) -> bool {
    for _ in 0..10_000 {
        if flag.load(Ordering::SeqCst) {
            return true;
        }
        let _ = thread::sleep(rt, Duration::from_micros(100));
    }
    false
}

#[test]
fn two_at_once(rt: HostRuntime) -> Result<(), Fail> {
    let mut setup = Setup::new(rt.alloc());
    root(&rt, &mut setup, "m", 0, 8, Policy::Best, 0);
    root(&rt, &mut setup, "p", 8, 8, Policy::Best, 0);
    at_once::<Brand, _>(&rt, Ground::new(rt.alloc())?, setup);
    Ok(())
}

/// What two workers tell each other.
#[derive(Drop)]
struct Flags {
    /// The second worker runs.
    runs: AtomicBool,
    /// Call 1 is held before its settle.
    held: AtomicBool,
    /// Call 2 is answered.
    answered: AtomicBool,
}

/// The gate holds call 1, which begins once the second worker runs, before its settle until call 2
/// is answered.
fn at_once<N: Name + Send + Sync, R: Abort + Wait + Threads + Clock + AllocGlobal + Sync>(
    rt: &R,
    ground: Ground,
    setup: Setup,
)
    requires { ground ≡ N.table }
{
    let system: System<N> = made(rt, ground, setup);
    let flags = Flags {
        runs: AtomicBool::new(false),
        held: AtomicBool::new(false),
        answered: AtomicBool::new(false),
    };
    let (shared, told) = (&system, &flags);
    thread::join(
        rt,
        move || second(rt, shared, told),
        move || first(rt, shared, told),
    );
    shut(rt, system, &[(0, 8), (8, 8)]);
}

fn first<N: Name, R: Abort + Wait + Clock + AllocGlobal>(
    rt: &R,
    system: &System<N>,
    flags: &Flags,
) {
    let mut cpu = cpu(rt, system, 0);
    assert!(rt; raised(rt, &flags.runs), "the second worker doesn't run");
    ask(rt, system, &mut cpu, "hello 1 1", "welcome 1 1");
    let gate = Hold {
        rt,
        held: &flags.held,
        answered: &flags.answered,
    };
    match system.request(rt, &mut cpu, &gate, &line(rt, "lease 1 1 1 m 4")) {
        Ok(told) => same(rt, &told.reply, "granted 1 1 1 m 0 4"),
        Err(RequestStopped) => panic!(rt; "call 2 wasn't answered beside call 1"),
    }
    retire(rt, system, cpu);
}

/// Asks once call 1 is held before its settle, which then waits for the answers.
fn second<N: Name, R: Abort + Wait + Clock + AllocGlobal>(
    rt: &R,
    system: &System<N>,
    flags: &Flags,
) {
    let mut cpu = cpu(rt, system, 1);
    flags.runs.store(true, Ordering::SeqCst);
    assert!(rt; raised(rt, &flags.held), "call 1 isn't held");
    ask(rt, system, &mut cpu, "hello 2 1", "welcome 2 1");
    ask(
        rt,
        system,
        &mut cpu,
        "lease 2 1 1 m 4",
        "granted 2 1 1 m 4 4",
    );
    ask(
        rt,
        system,
        &mut cpu,
        "lease 2 1 2 p 4",
        "granted 2 1 2 p 8 4",
    );
    flags.answered.store(true, Ordering::SeqCst);
    retire(rt, system, cpu);
}

/// Stops before one step of a request.
#[derive(Clone, Copy, Drop)]
struct StopAt(u64);

impl Gate for StopAt {
    ghost use Rattle.std.specs.Prelude.{◌≡◌, ◌≢◌};

    ghost may_stop = { λ g step. step.turn ≡ g.0 };

    ghost passed = { λ g step. step.turn ≢ g.0 };

    fn pass(&self, step: &NextStep) -> Pass {
        if step.turn == self.0 {
            Pass::Stop
        } else {
            Pass::Go
        }
    }
}

/// Asks a line that its gate stops before a step. The CPU then holds so many units.
pub(super) fn stop<N: Name, R: Abort + Wait>(
    rt: &R,
    system: &System<N>,
    cpu: &mut Cpu<N>,
    text: &str,
    turn: u64,
    units: u128,
) {
    match system.request(rt, cpu, &StopAt(turn), &line(rt, text)) {
        Ok(_) => panic!(rt; "it wasn't stopped"),
        Err(RequestStopped) => {}
    }
    assert_eq!(rt; cpu.units(), units);
}

/// A CPU fails, what it has is placed, and another one is asked a line.
fn taken_up<N: Name, R: Abort + Wait + AllocGlobal>(
    rt: &R,
    system: System<N>,
    one: Cpu<N>,
    text: &str,
    wanted: &str,
) {
    match system.drain_failed(rt, one) {
        Ok(()) => {}
        Err(cpu) => stuck(rt, cpu),
    }
    let mut two = cpu(rt, &system, 1);
    ask(rt, &system, &mut two, text, wanted);
    retire(rt, &system, two);
    shut(rt, system, &[(0, 64)]);
}

/// A line that a gate stops, before each of its steps in turn.
#[derive(Drop)]
pub(super) struct Halting<'a> {
    /// Lines that are answered before it.
    pub(super) before: &'a [(&'a str, &'a str)],
    pub(super) text: &'a str,
    /// How many units the CPU holds before each step.
    pub(super) held: &'a [u128],
    /// What another CPU is asked then, and is answered.
    then: (&'a str, &'a str),
}

/// A lease by a new slab: the look, the pop, the swap for a full magazine, the chunk, the carve of
/// a slab, the slab, the settle.
pub(super) fn halted_lease() -> Halting<'static> {
    Halting {
        before: &[("hello 1 1", "welcome 1 1")],
        text: "lease 1 1 1 d 1",
        held: &[0, 0, 0, 0, 0, 16, 1],
        then: ("lease 1 1 1 d 1", "granted 1 1 1 d 0 1"),
    }
}

/// A release: the release, the push.
pub(super) fn halted_release() -> Halting<'static> {
    Halting {
        before: &[
            ("hello 1 1", "welcome 1 1"),
            ("lease 1 1 1 d 1", "granted 1 1 1 d 0 1"),
        ],
        text: "release 1 1 2 d 0",
        held: &[0, 1],
        then: ("release 1 1 2 d 0", "released 1 1 2"),
    }
}

#[test]
fn drain_step(rt: HostRuntime) {
    stop_at_each(&rt, &halted_lease());
    stop_at_each(&rt, &halted_release());
}

/// A lease that imports: the look, the two carves, the span that is added, the settle.
#[test]
fn import_step(rt: HostRuntime) {
    let lease = Halting {
        before: &[("hello 1 1", "welcome 1 1")],
        text: "lease 1 1 1 b 6",
        held: &[0, 0, 0, 16, 6],
        then: ("lease 1 1 1 b 6", "granted 1 1 1 b 0 6"),
    };
    stop_at_each(&rt, &lease);
}

/// A release, and a sweep, of a lease whose import goes back by a second free.
#[test]
fn return_step(rt: HostRuntime) {
    let release = Halting {
        before: &[
            ("hello 1 1", "welcome 1 1"),
            ("lease 1 1 1 b 6", "granted 1 1 1 b 0 6"),
        ],
        text: "release 1 1 2 b 0",
        held: &[0, 6, 16],
        then: ("release 1 1 2 b 0", "released 1 1 2"),
    };
    stop_at_each(&rt, &release);
    let sweep = Halting {
        before: &[
            ("hello 1 1", "welcome 1 1"),
            ("lease 1 1 1 b 6", "granted 1 1 1 b 0 6"),
        ],
        text: "hello 1 2",
        held: &[0, 0, 6, 16, 0],
        then: ("hello 1 2", "welcome 1 2"),
    };
    stop_at_each(&rt, &sweep);
}

/// What would be refused is stopped, before its settle last: then nothing is settled, and the same
/// number is still free for a lease.
#[test]
fn refusal_step(rt: HostRuntime) {
    let rows: [(&str, &[u128]); 4] = [
        ("lease 1 1 1 d 65", &[0, 0, 0]),
        ("lease 1 1 1 d 0", &[0, 0, 0]),
        ("lease 1 1 1 z 1", &[0, 0]),
        ("release 1 1 1 d 0", &[0]),
    ];
    for (text, held) in &rows {
        let row = Halting {
            before: &[("hello 1 1", "welcome 1 1")],
            text,
            held,
            then: ("lease 1 1 1 d 1", "granted 1 1 1 d 0 1"),
        };
        stop_at_each(&rt, &row);
    }
}

/// Each step in a system of its own: an arena with caches, and one that imports of it.
fn stop_at_each<R: Abort + Wait + AllocGlobal>(rt: &R, row: &Halting) {
    for turn in 0..row.held.len() {
        let mut setup = Setup::new(rt.alloc());
        root(rt, &mut setup, "d", 0, 64, Policy::Instant, 5);
        child(rt, &mut setup, "b", "d");
        let ground = Ground::new(rt.alloc()).expect(rt, "a table");
        stop_at::<Brand, _>(rt, ground, setup, row, turn);
    }
}

fn stop_at<N: Name, R: Abort + Wait + AllocGlobal>(
    rt: &R,
    ground: Ground,
    setup: Setup,
    row: &Halting,
    turn: usize,
)
    requires { ground ≡ N.table }
{
    let system: System<N> = made(rt, ground, setup);
    let mut one = cpu(rt, &system, 0);
    ask_each(rt, &system, &mut one, row.before);
    let held = row.held.get(turn).expect(rt, "a step");
    stop(rt, &system, &mut one, row.text, turn as u64, *held);
    let (text, wanted) = row.then;
    taken_up(rt, system, one, text, wanted);
}

/// What a stopped request left in the hand is placed before the next line is served, and before a
/// reaping: else there would be no room for it.
#[test]
fn hand_is_placed_first(rt: HostRuntime) -> Result<(), Fail> {
    let mut setup = Setup::new(rt.alloc());
    root(&rt, &mut setup, "d", 0, 64, Policy::Instant, 5);
    placed_first::<Brand, _>(&rt, Ground::new(rt.alloc())?, setup);
    Ok(())
}

/// The hand holds all but the slab of another CPU, which the reaping finds.
fn placed_first<N: Name, R: Abort + Wait + AllocGlobal>(rt: &R, ground: Ground, setup: Setup)
    requires { ground ≡ N.table }
{
    let system: System<N> = made(rt, ground, setup);
    let mut one = cpu(rt, &system, 0);
    leave_slab(rt, &system);
    ask(rt, &system, &mut one, "hello 1 1", "welcome 1 1");
    let lease = "lease 1 1 1 d 48";
    stop(rt, &system, &mut one, lease, 2, 48);
    ask(rt, &system, &mut one, lease, "granted 1 1 1 d 16 48");
    assert_eq!(rt; one.units(), 0);
    let release = "release 1 1 2 d 16";
    stop(rt, &system, &mut one, release, 1, 48);
    ask(rt, &system, &mut one, "hello 1 2", "welcome 1 2");
    assert_eq!(rt; one.units(), 0);
    stop(rt, &system, &mut one, "lease 1 2 1 d 48", 2, 48);
    reaps(rt, &system, &mut one, 0, 16);
    assert_eq!(rt; one.units(), 0);
    ask(
        rt,
        &system,
        &mut one,
        "lease 1 2 1 d 64",
        "granted 1 2 1 d 0 64",
    );
    retire(rt, &system, one);
    shut(rt, system, &[(0, 64)]);
}

/// Another CPU leases a unit and releases it, and is retired: a slab is left, with no chunk out.
fn leave_slab<N: Name, R: Abort + Wait + AllocGlobal>(rt: &R, system: &System<N>) {
    let mut two = cpu(rt, system, 1);
    let rows = [
        ("hello 2 1", "welcome 2 1"),
        ("lease 2 1 1 d 1", "granted 2 1 1 d 0 1"),
        ("release 2 1 2 d 0", "released 2 1 2"),
    ];
    ask_each(rt, system, &mut two, &rows);
    retire(rt, system, two);
}
