//! A running system with growths of memory refused, by `tools/starve`, one in each run: what was
//! given is back, what stands is as before, and the same call then succeeds.
ghost use Rattle.std.specs.Prelude.{◌≡◌};

use super::{have, line, retire, stuck};
use arena_tree::{GrowFault, NewChild, NewRoot, NewSpan, Setting, Setup, SetupFault};
use deed_core::Range;
use deed_table::{Ground, Name};
use lease_proto::{Line, Reply};
use lease_terms::ArenaName;
use lease_threads::{Cpu, LineAnswer, OpenGate, System};
use std::alloc::AllocGlobal;
use std::marker::Brand;
use std::process::Abort;
use std::sync::Wait;
use tag_arena::Policy;

/// Lines of two clients and what each is answered, by an arena without caches, one with them, and
/// one that imports. Two CPUs are asked them in turn.
const ROWS: [(&str, &str); 15] = [
    ("hello 1 1", "welcome 1 1"),
    ("hello 2 1", "welcome 2 1"),
    ("lease 1 1 1 m 4", "granted 1 1 1 m 0 4"),
    ("lease 1 1 1 m 4", "granted 1 1 1 m 0 4"),
    ("lease 2 1 1 m 8", "refused 2 1 1 nofit"),
    ("release 1 1 2 m 0", "released 1 1 2"),
    ("release 1 1 2 m 0", "released 1 1 2"),
    ("lease 2 1 2 m 8 align 8", "granted 2 1 2 m 0 8"),
    ("lease 2 1 3 z 4", "refused 2 1 3 noarena"),
    ("lease 2 1 4 d 2", "granted 2 1 4 d 8 2"),
    ("lease 2 1 5 c 3", "granted 2 1 5 c 128 3"),
    ("release 2 1 6 d 8", "released 2 1 6"),
    ("release 2 1 7 c 128", "released 2 1 7"),
    ("hello 2 2", "welcome 2 2"),
    ("lease 1 1 3 m 8", "granted 1 1 3 m 0 8"),
];

/// Seven units of a slab come back to one CPU, for the last of which it needs a magazine more.
const ROUNDS: [(&str, &str); 15] = [
    ("hello 3 1", "welcome 3 1"),
    ("lease 3 1 1 d 1", "granted 3 1 1 d 24 1"),
    ("lease 3 1 2 d 1", "granted 3 1 2 d 25 1"),
    ("lease 3 1 3 d 1", "granted 3 1 3 d 26 1"),
    ("lease 3 1 4 d 1", "granted 3 1 4 d 27 1"),
    ("lease 3 1 5 d 1", "granted 3 1 5 d 28 1"),
    ("lease 3 1 6 d 1", "granted 3 1 6 d 29 1"),
    ("lease 3 1 7 d 1", "granted 3 1 7 d 30 1"),
    ("release 3 1 8 d 24", "released 3 1 8"),
    ("release 3 1 9 d 25", "released 3 1 9"),
    ("release 3 1 10 d 26", "released 3 1 10"),
    ("release 3 1 11 d 27", "released 3 1 11"),
    ("release 3 1 12 d 28", "released 3 1 12"),
    ("release 3 1 13 d 29", "released 3 1 13"),
    ("release 3 1 14 d 30", "released 3 1 14"),
];

/// Leases of a unit each. Which it is depends on what was refused.
const LAST: [&str; 7] = [
    "lease 3 1 15 d 1",
    "lease 3 1 16 d 1",
    "lease 3 1 17 d 1",
    "lease 3 1 18 d 1",
    "lease 3 1 19 d 1",
    "lease 3 1 20 d 1",
    "lease 3 1 21 d 1",
];

fn add(rt: &impl Abort, setup: &mut Setup, setting: &Setting) {
    match setup.add(setting) {
        Ok(()) => {}
        Err(SetupFault::NoMemory) => setup.add(setting).expect(rt, "room"),
        Err(_) => panic!(rt; "a good setting"),
    }
}

fn name(rt: &impl Abort, text: &str) -> ArenaName {
    ArenaName::new(text.as_bytes()).expect(rt, "a name")
}

fn root(rt: &impl Abort, setup: &mut Setup, arena: &str, base: u64, len: u64, qcache_max: u64) {
    let root = NewRoot {
        name: name(rt, arena),
        base,
        len,
        quantum: 1,
        policy: Policy::Best,
        qcache_max,
    };
    add(rt, setup, &Setting::Root(root));
}

fn setup(rt: &(impl Abort + AllocGlobal)) -> Setup {
    let mut setup = Setup::new(rt.alloc());
    root(rt, &mut setup, "m", 0, 8, 0);
    root(rt, &mut setup, "d", 8, 64, 5);
    root(rt, &mut setup, "s", 128, 64, 0);
    let span = NewSpan {
        name: name(rt, "s"),
        base: 512,
        len: 64,
    };
    add(rt, &mut setup, &Setting::Span(span));
    let child = NewChild {
        name: name(rt, "c"),
        source: name(rt, "s"),
        quantum: 1,
        policy: Policy::Instant,
        qcache_max: 3,
        import_min: 16,
    };
    add(rt, &mut setup, &Setting::Child(child));
    setup
}

fn cpu<N: Name, R: Abort + AllocGlobal>(rt: &R, system: &System<N>, number: u32) -> Cpu<N> {
    for _ in 0..2 {
        if let Ok(Some(cpu)) = Cpu::new(rt.alloc(), system, number) {
            return cpu;
        }
    }
    panic!(rt; "refused twice")
}

/// The greatest chunk that an arena here caches.
const MOST_CACHED: u128 = 5;

/// The answer to a line, asked again where it is `again`: then nothing was settled, and the CPU has
/// at most a chunk more, which was taken of a slab.
fn answer<N: Name, R: Abort + Wait>(
    rt: &R,
    system: &System<N>,
    cpu: &mut Cpu<N>,
    line: &Line,
) -> Reply {
    let most = cpu.units().saturating_add(MOST_CACHED);
    for _ in 0..2 {
        match system.request(rt, cpu, &OpenGate, line) {
            Ok(
                LineAnswer {
                    reply: Reply::Again(_),
                    receipt,
                    ..
                },
            ) => {
                assert!(rt; receipt.is_none() && cpu.units() <= most);
            }
            Ok(told) => return told.reply,
            Err(_) => panic!(rt; "an open gate stops nothing"),
        }
    }
    panic!(rt; "refused twice")
}

fn ask<N: Name, R: Abort + Wait>(
    rt: &R,
    system: &System<N>,
    cpu: &mut Cpu<N>,
    text: &str,
    wanted: &str,
) {
    let reply = answer(rt, system, cpu, &line(rt, text));
    assert!(rt;
        Reply::read(wanted.as_bytes()).ok() == Some(reply),
        "at {text}"
    );
}

/// A magazine is made for the last release, and then two greater ones for the leases.
fn change<N: Name, R: Abort + Wait>(rt: &R, system: &System<N>, cpu: &mut Cpu<N>) {
    for (text, wanted) in &ROUNDS {
        ask(rt, system, cpu, text, wanted);
    }
    assert!(rt; system.resize(rt, 1, 7).rose());
    for text in &LAST {
        let reply = answer(rt, system, cpu, &line(rt, text));
        assert!(rt; matches!(&reply, Reply::Granted(_)), "at {text}");
    }
    ask(rt, system, cpu, "hello 3 2", "welcome 3 2");
}

/// Asks the lines of two CPUs; the setup comes back where no system could be made.
fn converse<N: Name, R: Abort + Wait + AllocGlobal>(
    rt: &R,
    ground: Ground,
    setup: Setup,
) -> Option<Setup>
    requires { ground ≡ N.table }
{
    let system: System<N> = match System::new(rt.alloc(), ground, setup) {
        Ok(system) => system,
        Err(setup) => return Some(setup),
    };
    let mut one = cpu(rt, &system, 0);
    let mut two = cpu(rt, &system, 1);
    for (index, (text, wanted)) in ROWS.iter().enumerate() {
        if index % 2 == 0 {
            ask(rt, &system, &mut one, text, wanted);
        } else {
            ask(rt, &system, &mut two, text, wanted);
        }
    }
    change(rt, &system, &mut one);
    grow(rt, &system, 2, 192, 64);
    grow(rt, &system, 0, 192, 64);
    grow(rt, &system, 2, 0, 64);
    retire(rt, &system, one);
    retire(rt, &system, two);
    match system.shut(rt) {
        Ok(arenas) => have_four(rt, &arenas),
        Err(halted) => stuck(rt, halted),
    }
    None
}

/// The ranges of each arena.
fn have_four(rt: &impl Abort, arenas: &[Vec<Range>]) {
    assert!(rt; arenas.len() == 4);
    have(rt, &arenas[0], &[(0, 8), (192, 64)]);
    have(rt, &arenas[1], &[(8, 64)]);
    have(rt, &arenas[2], &[(128, 64), (512, 64), (192, 64), (0, 64)]);
    assert!(rt; arenas[3].is_empty());
}

/// Adds a range to the arena. Where memory is refused nothing is added, and what overlaps is
/// refused for that.
fn grow<N: Name, R: Abort + Wait>(rt: &R, system: &System<N>, arena: u32, base: u64, len: u64) {
    let range = Range::new(base, len).expect(rt, "a range");
    let before = free(rt, system, arena);
    for _ in 0..2 {
        match system.grow(rt, arena, range) {
            Ok(_) => {
                assert!(rt; free(rt, system, arena) == before.saturating_add(u128::from(len)));
                let again = system.grow(rt, arena, range);
                assert!(rt; again.is_err_and(|why| why.fault() == Some(GrowFault::Overlaps)));
                return;
            }
            Err(why) => assert!(rt; why.fault() == Some(GrowFault::NoMemory)),
        }
        assert!(rt; free(rt, system, arena) == before);
    }
    panic!(rt; "refused twice")
}

/// The units that a carve may still take.
fn free<N: Name, R: Abort + Wait>(rt: &R, system: &System<N>, arena: u32) -> u128 {
    system.sums(rt, arena).expect(rt, "an arena").free
}

fn begun<R: Abort + Wait + AllocGlobal>(rt: &R, setup: Setup) -> Option<Setup> {
    let ground = match Ground::new(rt.alloc()) {
        Ok(ground) => ground,
        Err(_) => Ground::new(rt.alloc()).ok().expect(rt, "refused twice"),
    };
    converse::<Brand, _>(rt, ground, setup)
}

#[test]
fn starved_threads(rt: HostRuntime) {
    if let Some(setup) = begun(&rt, setup(&rt)) {
        let refused = begun(&rt, setup);
        assert!(rt; refused.is_none(), "refused twice");
    }
}

/// The end takes no memory: a system that grew is shut with memory refused from any growth on, and
/// comes back whole. How often it grew is known by what was refused.
#[test]
fn ends_without_memory(rt: HostRuntime) {
    let mut setup = Setup::new(rt.alloc());
    let whole = NewRoot {
        name: name(&rt, "m"),
        base: 0,
        len: 8,
        quantum: 1,
        policy: Policy::Instant,
        qcache_max: 0,
    };
    if setup.add(&Setting::Root(whole)).is_err() {
        return;
    }
    if let Ok(ground) = Ground::new(rt.alloc()) {
        grown_and_ended::<Brand, _>(&rt, ground, setup);
    }
}

/// How often the arena grows.
const GROWS: u64 = 40;

fn grown_and_ended<N: Name, R: Abort + Wait + AllocGlobal>(rt: &R, ground: Ground, setup: Setup)
    requires { ground ≡ N.table }
{
    let system: System<N> = match System::new(rt.alloc(), ground, setup) {
        Ok(system) => system,
        Err(_) => return,
    };
    let mut grown: u64 = 0;
    for turn in 0..GROWS {
        let range = Range::new(turn * 8 + 8, 8).expect(rt, "a range");
        match system.grow(rt, 0, range) {
            Ok(_) => grown = grown.saturating_add(1),
            Err(why) => assert!(rt; why.fault() == Some(GrowFault::NoMemory)),
        }
    }
    match system.shut(rt) {
        Ok(arenas) => {
            assert!(rt; arenas.len() == 1 && arenas[0].len() as u64 == grown.saturating_add(1));
        }
        Err(halted) => stuck(rt, halted),
    }
}
