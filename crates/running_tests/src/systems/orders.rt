//! The order of a request's steps, of which each takes one lock or none.
ghost use Rattle.std.specs.Prelude.{◌≡◌};

use super::{ask, ask_each, child, cpu, line, made, retire, root, same, shut};
use arena_tree::Setup;
use deed_table::{Ground, Name};
use lease_threads::{Cpu, EventName, Gate, NextStep, Pass, RequestStopped, System};
use std::alloc::AllocGlobal;
use std::marker::Brand;
use std::process::Abort;
use std::sync::Wait;
use std::sync::atomic::{AtomicBool, AtomicU64, Ordering};
use tag_arena::Policy;

/// Looks whether the steps are those that are wanted, each asked for once, in their order, of this
/// CPU.
#[derive(Drop)]
struct InOrder<'a> {
    cpu: u32,
    wanted: &'a [EventName],
    /// Another step came.
    astray: &'a AtomicBool,
    /// How often it was asked.
    asked: &'a AtomicU64,
}

impl Gate for InOrder<'_> {
    ghost may_stop = { λ _ _. ⊥ };

    ghost passed = { λ _ _. Unit {0} };

    fn pass(&self, step: &NextStep) -> Pass {
        let asked = self.asked.fetch_add(1, Ordering::SeqCst);
        match self.wanted.get(asked as usize) {
            Some(event) if *event == step.event && step.turn == asked && step.cpu == self.cpu => {}
            _ => self.astray.store(true, Ordering::SeqCst),
        }
        Pass::Go
    }
}

/// Asks a line that is answered so, by these steps.
fn ask_by<N: Name, R: Abort + Wait + AllocGlobal>(
    rt: &R,
    system: &System<N>,
    cpu: &mut Cpu<N>,
    text: &str,
    wanted: &str,
    steps: &[EventName],
) {
    let (astray, asked) = (AtomicBool::new(false), AtomicU64::new(0));
    let gate = InOrder {
        cpu: cpu.number(),
        wanted: steps,
        astray: &astray,
        asked: &asked,
    };
    match system.request(rt, cpu, &gate, &line(rt, text)) {
        Ok(told) => same(rt, &told.reply, wanted),
        Err(RequestStopped) => panic!(rt; "stopped"),
    }
    assert!(rt; !astray.load(Ordering::SeqCst), "another step");
    assert!(rt;
        asked.load(Ordering::SeqCst) == steps.len() as u64,
        "too few steps"
    );
}

/// A line, what it is answered, and its steps.
type Row<'a> = (&'a str, &'a str, &'a [EventName]);

/// What one CPU of a system is asked.
#[derive(Drop)]
struct Asked<'a> {
    /// First, by whichever steps.
    before: &'a [(&'a str, &'a str)],
    /// The arena of which the depots keep magazines of 15 rounds from then on.
    resized: Option<u32>,
    rows: &'a [Row<'a>],
}

/// The system has these ranges at its end.
fn by_steps<R: Abort + Wait + AllocGlobal>(
    rt: &R,
    setup: Setup,
    asked: &Asked,
    wanted: &[(u64, u64)],
) {
    let ground = Ground::new(rt.alloc()).expect(rt, "a table");
    in_order::<Brand, _>(rt, ground, setup, asked, wanted);
}

fn in_order<N: Name, R: Abort + Wait + AllocGlobal>(
    rt: &R,
    ground: Ground,
    setup: Setup,
    asked: &Asked,
    wanted: &[(u64, u64)],
)
    requires { ground ≡ N.table }
{
    let system: System<N> = made(rt, ground, setup);
    let mut one = cpu(rt, &system, 5);
    ask_each(rt, &system, &mut one, asked.before);
    if let Some(arena) = asked.resized {
        assert!(rt; system.resize(rt, arena, 15).rose());
    }
    for (text, reply, steps) in asked.rows {
        ask_by(rt, &system, &mut one, text, reply, steps);
    }
    retire(rt, &system, one);
    shut(rt, system, wanted);
}

/// The same with no more than the rows.
fn rows_by_steps<R: Abort + Wait + AllocGlobal>(
    rt: &R,
    setup: Setup,
    rows: &[Row],
    wanted: &[(u64, u64)],
) {
    let asked = Asked {
        before: &[],
        resized: None,
        rows,
    };
    by_steps(rt, setup, &asked, wanted);
}

/// The magazines are empty at first, and so are the depot and the slabs. The chunk that comes back
/// is a round, and is given next, or pushed again where its lease is swept. What isn't cached is
/// carved.
#[test]
fn gates_in_order(rt: HostRuntime) {
    use EventName::{Carve, Look, Pop, Push, Release, Settle, SlabAdd, SlabTake, Sweep, SwapFull};
    let mut setup = Setup::new(rt.alloc());
    root(&rt, &mut setup, "d", 0, 64, Policy::Instant, 5);
    let made: &[EventName] = &[Look, Pop, SwapFull, SlabTake, Carve, SlabAdd, Settle];
    let rows: [Row; 9] = [
        ("hello 1 1", "welcome 1 1", &[Look, Sweep]),
        ("lease 1 1 1 d 1", "granted 1 1 1 d 0 1", made),
        ("lease 1 1 1 d 1", "granted 1 1 1 d 0 1", &[Look]),
        ("release 1 1 2 d 0", "released 1 1 2", &[Release, Push]),
        (
            "lease 1 1 3 d 1",
            "granted 1 1 3 d 0 1",
            &[Look, Pop, Settle],
        ),
        (
            "lease 1 1 4 d 64",
            "refused 1 1 4 nofit",
            &[Look, Carve, Settle],
        ),
        ("lease 1 1 5 z 1", "refused 1 1 5 noarena", &[Look, Settle]),
        ("hello 1 2", "welcome 1 2", &[Look, Sweep, Push, Sweep]),
        ("hello 1 1", "old 1 2", &[Look]),
    ];
    rows_by_steps(&rt, setup, &rows, &[(0, 64)]);
}

/// What isn't there is imported, unless the lease is constrained. What comes back last frees the
/// import too.
#[test]
fn imports_in_order(rt: HostRuntime) {
    use EventName::{AddCarve, Carve, Free, Look, Release, Settle, Sweep};
    let mut setup = Setup::new(rt.alloc());
    root(&rt, &mut setup, "a", 0, 64, Policy::Best, 0);
    child(&rt, &mut setup, "b", "a");
    let imported: &[EventName] = &[Look, Carve, Carve, AddCarve, Settle];
    let refused: &[EventName] = &[Look, Carve, Carve, Settle];
    let (carved, freed): (&[EventName], &[EventName]) = (&[Look, Carve, Settle], &[Release, Free]);
    let swept_back: &[EventName] = &[Look, Sweep, Free, Free, Sweep];
    let swept: &[EventName] = &[Look, Sweep, Free, Sweep];
    let rows: [Row; 12] = [
        ("hello 1 1", "welcome 1 1", &[Look, Sweep]),
        ("lease 1 1 1 b 6 align 8", "refused 1 1 1 nofit", carved),
        ("lease 1 1 2 b 6", "granted 1 1 2 b 0 6", imported),
        ("lease 1 1 3 b 6", "granted 1 1 3 b 6 6", carved),
        ("release 1 1 4 b 0", "released 1 1 4", freed),
        (
            "release 1 1 5 b 6",
            "released 1 1 5",
            &[Release, Free, Free],
        ),
        ("lease 1 1 6 b 65", "refused 1 1 6 nofit", refused),
        ("lease 1 1 7 b 6", "granted 1 1 7 b 0 6", imported),
        ("hello 1 2", "welcome 1 2", swept_back),
        ("hello 1 2", "welcome 1 2", &[Look, Sweep]),
        ("lease 1 2 1 a 64", "granted 1 2 1 a 0 64", carved),
        ("hello 1 3", "welcome 1 3", swept),
    ];
    rows_by_steps(&rt, setup, &rows, &[(0, 64)]);
}

/// Seven leases, and releases of all but the last, so that both magazines are full.
const FILLED: [(&str, &str); 14] = [
    ("hello 1 1", "welcome 1 1"),
    ("lease 1 1 1 d 1", "granted 1 1 1 d 0 1"),
    ("lease 1 1 2 d 1", "granted 1 1 2 d 1 1"),
    ("lease 1 1 3 d 1", "granted 1 1 3 d 2 1"),
    ("lease 1 1 4 d 1", "granted 1 1 4 d 3 1"),
    ("lease 1 1 5 d 1", "granted 1 1 5 d 4 1"),
    ("lease 1 1 6 d 1", "granted 1 1 6 d 5 1"),
    ("lease 1 1 7 d 1", "granted 1 1 7 d 6 1"),
    ("release 1 1 8 d 0", "released 1 1 8"),
    ("release 1 1 9 d 1", "released 1 1 9"),
    ("release 1 1 10 d 2", "released 1 1 10"),
    ("release 1 1 11 d 3", "released 1 1 11"),
    ("release 1 1 12 d 4", "released 1 1 12"),
    ("release 1 1 13 d 5", "released 1 1 13"),
];

/// The first time the depot has no empty magazine for the seventh round, and one is made; then it
/// has the one that it got for its full one.
#[test]
fn exchanges_in_order(rt: HostRuntime) {
    use EventName::{Look, Pop, Push, Release, Settle, SwapEmpty, SwapFull};
    let mut setup = Setup::new(rt.alloc());
    root(&rt, &mut setup, "d", 0, 64, Policy::Instant, 5);
    let (own, kept): (&[EventName], &[EventName]) = (&[Look, Pop, Settle], &[Release, Push]);
    let full: &[EventName] = &[Look, Pop, SwapFull, Pop, Settle];
    let fresh: &[EventName] = &[Release, Push, SwapEmpty, SwapEmpty, Push];
    let empty: &[EventName] = &[Release, Push, SwapEmpty, Push];
    let rows: [Row; 11] = [
        ("release 1 1 14 d 6", "released 1 1 14", fresh),
        ("lease 1 1 15 d 1", "granted 1 1 15 d 6 1", own),
        ("lease 1 1 16 d 1", "granted 1 1 16 d 5 1", own),
        ("lease 1 1 17 d 1", "granted 1 1 17 d 4 1", own),
        ("lease 1 1 18 d 1", "granted 1 1 18 d 3 1", own),
        ("lease 1 1 19 d 1", "granted 1 1 19 d 2 1", full),
        ("release 1 1 20 d 2", "released 1 1 20", kept),
        ("release 1 1 21 d 3", "released 1 1 21", kept),
        ("release 1 1 22 d 4", "released 1 1 22", kept),
        ("release 1 1 23 d 5", "released 1 1 23", kept),
        ("release 1 1 24 d 6", "released 1 1 24", empty),
    ];
    let asked = Asked {
        before: &FILLED,
        resized: None,
        rows: &rows,
    };
    by_steps(&rt, setup, &asked, &[(0, 64)]);
}

/// A CPU whose magazines are empty changes them at a lease, for each quantum cache by itself, and
/// for no arena but the one whose depots keep greater ones.
#[test]
fn changes_at_leases(rt: HostRuntime) {
    use EventName::{Carve, Change, Look, Pop, Settle, SlabAdd, SlabTake, SwapFull};
    let mut setup = Setup::new(rt.alloc());
    root(&rt, &mut setup, "c", 0, 64, Policy::Instant, 5);
    root(&rt, &mut setup, "d", 64, 64, Policy::Instant, 5);
    let made: &[EventName] = &[Look, Pop, SwapFull, SlabTake, Carve, SlabAdd, Settle];
    let changed: &[EventName] = &[
        Look, Pop, SwapFull, Change, SlabTake, Carve, SlabAdd, Settle,
    ];
    let taken: &[EventName] = &[Look, Pop, SwapFull, SlabTake, Settle];
    let rows: [Row; 5] = [
        ("lease 1 1 1 c 1", "granted 1 1 1 c 0 1", made),
        ("lease 1 1 2 d 1", "granted 1 1 2 d 64 1", changed),
        ("lease 1 1 3 d 2", "granted 1 1 3 d 80 2", changed),
        ("lease 1 1 4 d 1", "granted 1 1 4 d 65 1", taken),
        ("lease 1 1 5 d 2", "granted 1 1 5 d 82 2", taken),
    ];
    let asked = Asked {
        before: &[("hello 1 1", "welcome 1 1")],
        resized: Some(1),
        rows: &rows,
    };
    by_steps(&rt, setup, &asked, &[(0, 64), (64, 64)]);
}

/// A CPU whose magazines are full changes them at a release, and has room from then on.
#[test]
fn changes_at_a_release(rt: HostRuntime) {
    use EventName::{Change, Look, Pop, Push, Release, Settle, SwapEmpty};
    let mut setup = Setup::new(rt.alloc());
    root(&rt, &mut setup, "d", 0, 64, Policy::Instant, 5);
    let (own, kept): (&[EventName], &[EventName]) = (&[Look, Pop, Settle], &[Release, Push]);
    let changed: &[EventName] = &[Release, Push, SwapEmpty, Change, Push];
    let rows: [Row; 4] = [
        ("release 1 1 14 d 6", "released 1 1 14", changed),
        ("lease 1 1 15 d 1", "granted 1 1 15 d 6 1", own),
        ("lease 1 1 16 d 1", "granted 1 1 16 d 5 1", own),
        ("release 1 1 17 d 5", "released 1 1 17", kept),
    ];
    let asked = Asked {
        before: &FILLED,
        resized: Some(0),
        rows: &rows,
    };
    by_steps(&rt, setup, &asked, &[(0, 64)]);
}

/// For each size that magazines rise to, a CPU changes to it at its first lease, and both of its
/// magazines take as many rounds. For one round more the depot gets the first of them, and a fresh
/// one is made, of that size too.
#[test]
fn fills_each_size(rt: HostRuntime) {
    for size in [7, 15, 31] {
        fill(&rt, size);
    }
}

/// In a system of its own.
fn fill<R: Abort + Wait + AllocGlobal>(rt: &R, size: u64) {
    let mut setup = Setup::new(rt.alloc());
    root(rt, &mut setup, "d", 0, 64, Policy::Instant, 5);
    let ground = Ground::new(rt.alloc()).expect(rt, "a table");
    filled::<Brand, _>(rt, ground, setup, size);
}

fn filled<N: Name, R: Abort + Wait + AllocGlobal>(rt: &R, ground: Ground, setup: Setup, size: u64)
    requires { ground ≡ N.table }
{
    let system: System<N> = made(rt, ground, setup);
    resized(rt, &system, size);
    let mut one = cpu(rt, &system, 5);
    let last = size.saturating_mul(2);
    changes(rt, &system, &mut one);
    for unit in 1..last.saturating_add(1) {
        leased(rt, &system, &mut one, unit, &TAKEN);
    }
    for unit in 0..last {
        released(rt, &system, &mut one, unit, last, &KEPT);
    }
    assert!(rt; one.units() == u128::from(last));
    released(rt, &system, &mut one, last, last, &FRESH);
    assert!(rt; one.units() == u128::from(size).saturating_add(1));
    let sums = system.sums(rt, 0).expect(rt, "an arena");
    assert!(rt; sums.magazine == u128::from(size) && sums.leased == 0);
    retire(rt, &system, one);
    shut(rt, system, &[(0, 64)]);
}

/// Magazines rise to this size.
fn resized<N: Name, R: Abort + Wait>(rt: &R, system: &System<N>, size: u64) {
    let rose = match size {
        7 => system.resize(rt, 0, 7).rose(),
        15 => system.resize(rt, 0, 15).rose(),
        _ => system.resize(rt, 0, 31).rose(),
    };
    assert!(rt; rose, "no greater size");
}

/// A chunk comes out of a slab while the depot has no round.
const TAKEN: [EventName; 5] = [
    EventName::Look,
    EventName::Pop,
    EventName::SwapFull,
    EventName::SlabTake,
    EventName::Settle,
];

/// A magazine of the CPU has room for the round.
const KEPT: [EventName; 2] = [EventName::Release, EventName::Push];

/// None has, the depot has no empty one, and one is made.
const FRESH: [EventName; 5] = [
    EventName::Release,
    EventName::Push,
    EventName::SwapEmpty,
    EventName::SwapEmpty,
    EventName::Push,
];

/// The CPU changes its magazines at the first lease.
fn changes<N: Name, R: Abort + Wait + AllocGlobal>(rt: &R, system: &System<N>, cpu: &mut Cpu<N>) {
    use EventName::{Carve, Change, Look, Pop, Settle, SlabAdd, SlabTake, SwapFull};
    ask(rt, system, cpu, "hello 1 1", "welcome 1 1");
    let changed = [
        Look, Pop, SwapFull, Change, SlabTake, Carve, SlabAdd, Settle,
    ];
    leased(rt, system, cpu, 0, &changed);
}

/// Leases the unit with this number by the request of the next one, by these steps; a new slab
/// takes two more.
fn leased<N: Name, R: Abort + Wait + AllocGlobal>(
    rt: &R,
    system: &System<N>,
    cpu: &mut Cpu<N>,
    unit: u64,
    steps: &[EventName],
) {
    let number = unit.saturating_add(1);
    let lease = format!(in rt.alloc(); "lease 1 1 {number} d 1").expect(rt, "room");
    let granted = format!(in rt.alloc(); "granted 1 1 {number} d {unit} 1").expect(rt, "room");
    if unit > 0 && unit % 16 == 0 {
        ask(rt, system, cpu, &lease, &granted);
    } else {
        ask_by(rt, system, cpu, &lease, &granted, steps);
    }
}

/// Releases the unit with this number by these steps, by the request of that number behind those of
/// the leases, of which the last one was this.
fn released<N: Name, R: Abort + Wait + AllocGlobal>(
    rt: &R,
    system: &System<N>,
    cpu: &mut Cpu<N>,
    unit: u64,
    last: u64,
    steps: &[EventName],
) {
    let number = last.saturating_add(2).saturating_add(unit);
    let release = format!(in rt.alloc(); "release 1 1 {number} d {unit}").expect(rt, "room");
    let released = format!(in rt.alloc(); "released 1 1 {number}").expect(rt, "room");
    ask_by(rt, system, cpu, &release, &released, steps);
}
