//! Arenas that get further spans while a system runs.
ghost use Rattle.std.specs.Prelude.{◌≡◌};

use super::{
    are, ask, ask_each, child, cpu, grow, line, made, retire, root, shut, shut_into, span,
};
use arena_tree::{GrowFault, NewRoot, Setting, Setup};
use deed_core::Range;
use deed_table::{Ground, Name};
use lease_proto::Reply;
use lease_terms::ArenaName;
use lease_threads::{Cpu, LineAnswer, OpenGate, RequestStopped, System};
use std::alloc::AllocGlobal;
use std::marker::Brand;
use std::process::Abort;
use std::sync::Wait;
use std::test::Fail;
use std::thread;
use std::thread::Threads;
use tag_arena::Policy;

/// How often a unit is leased and released beside the grow.
const TURNS: u64 = 200;

/// How often the arena grows beside four workers, and how often each of these leases a unit.
const GROWS: u64 = 1000;

/// Why the arena doesn't grow by these units.
fn refused<N: Name, R: Abort + Wait>(
    rt: &R,
    system: &System<N>,
    arena: u32,
    base: u64,
    len: u64,
) -> GrowFault {
    let range = Range::new(base, len).expect(rt, "a range");
    match system.grow(rt, arena, range) {
        Ok(_) => panic!(rt; "it grew"),
        Err(why) => why.fault().expect(rt, "the arena isn't there"),
    }
}

/// A root in quanta of so many units.
fn coarse(rt: &impl Abort, setup: &mut Setup, name: &str, base: u64, len: u64, quantum: u64) {
    let root = NewRoot {
        name: ArenaName::new(name.as_bytes()).expect(rt, "a name"),
        base,
        len,
        quantum,
        policy: Policy::Best,
        qcache_max: 0,
    };
    setup.add(&Setting::Root(root)).expect(rt, "a root");
}

/// A worker leases a unit and releases it while another thread adds [4, 8) to [0, 4): then two
/// leases of 4 are granted and a third isn't, and both ranges come back.
#[test]
fn grow_running(rt: HostRuntime) -> Result<(), Fail> {
    let mut setup = Setup::new(rt.alloc());
    root(&rt, &mut setup, "m", 0, 4, Policy::Best, 0);
    grown::<Brand, _>(&rt, Ground::new(rt.alloc())?, setup);
    Ok(())
}

fn grown<N: Name + Send + Sync, R: Abort + Wait + Threads + AllocGlobal + Sync>(
    rt: &R,
    ground: Ground,
    setup: Setup,
)
    requires { ground ≡ N.table }
{
    let system: System<N> = made(rt, ground, setup);
    let shared = &system;
    thread::join(
        rt,
        move || take_turns(rt, shared, 0, TURNS),
        move || grow(rt, shared, 0, 4, 4),
    );
    let mut one = cpu(rt, &system, 1);
    let rows = [
        ("hello 2 1", "welcome 2 1"),
        ("lease 2 1 1 m 4", "granted 2 1 1 m 0 4"),
        ("lease 2 1 2 m 4", "granted 2 1 2 m 4 4"),
        ("lease 2 1 3 m 4", "refused 2 1 3 nofit"),
        ("release 2 1 4 m 0", "released 2 1 4"),
        ("release 2 1 5 m 4", "released 2 1 5"),
    ];
    ask_each(rt, &system, &mut one, &rows);
    assert!(rt; refused(rt, &system, 0, 6, 4) == GrowFault::Overlaps);
    retire(rt, &system, one);
    shut(rt, system, &[(0, 4), (4, 4)]);
}

/// Leases a unit and releases it, so many times, by a client whose number is one more than the
/// CPU's.
fn take_turns<N: Name, R: Abort + Wait + AllocGlobal>(
    rt: &R,
    system: &System<N>,
    number: u32,
    turns: u64,
) {
    let mut own = cpu(rt, system, number);
    let client = u64::from(number).saturating_add(1);
    let hello = format!(in rt.alloc(); "hello {client} 1").expect(rt, "room");
    let welcome = format!(in rt.alloc(); "welcome {client} 1").expect(rt, "room");
    ask(rt, system, &mut own, &hello, &welcome);
    for turn in 0..turns {
        let first = turn.saturating_mul(2).saturating_add(1);
        let base = leased(rt, system, &mut own, client, first);
        let second = first.saturating_add(1);
        let release = format!(in rt.alloc(); "release {client} 1 {second} m {base}").expect(
            rt, "room",
        );
        let released = format!(in rt.alloc(); "released {client} 1 {second}").expect(rt, "room");
        ask(rt, system, &mut own, &release, &released);
    }
    retire(rt, system, own);
}

/// The unit that the client is granted.
fn leased<N: Name, R: Abort + Wait + AllocGlobal>(
    rt: &R,
    system: &System<N>,
    cpu: &mut Cpu<N>,
    client: u64,
    number: u64,
) -> u64 {
    let lease = format!(in rt.alloc(); "lease {client} 1 {number} m 1").expect(rt, "room");
    match system.request(rt, cpu, &OpenGate, &line(rt, &lease)) {
        Ok(
            LineAnswer {
                reply: Reply::Granted(granted),
                ..
            },
        ) => granted.base.get(),
        Ok(_) => panic!(rt; "no unit"),
        Err(RequestStopped) => panic!(rt; "stopped"),
    }
}

/// Four workers lease and release units while a fifth thread adds a range of a unit a thousand
/// times. Each range comes back, in order of adding.
#[test]
fn grows_beside_four(rt: HostRuntime) -> Result<(), Fail> {
    let mut setup = Setup::new(rt.alloc());
    root(&rt, &mut setup, "m", 0, 4, Policy::Instant, 0);
    beside_four::<Brand, _>(&rt, Ground::new(rt.alloc())?, setup);
    Ok(())
}

fn beside_four<N: Name + Send + Sync, R: Abort + Wait + Threads + AllocGlobal + Sync>(
    rt: &R,
    ground: Ground,
    setup: Setup,
)
    requires { ground ≡ N.table }
{
    let system: System<N> = made(rt, ground, setup);
    let shared = &system;
    thread::join(
        rt,
        move || grow_each(rt, shared),
        move || {
            thread::join(
                rt,
                move || two_workers(rt, shared, 0),
                move || two_workers(rt, shared, 2),
            );
        },
    );
    let sums = system.sums(rt, 0).expect(rt, "an arena");
    assert!(rt; sums.free == 4 + u128::from(GROWS) && sums.allocated == 0 && sums.leased == 0);
    let arenas = shut_into(rt, system);
    assert!(rt; arenas.len() == 1 && arenas[0].len() == 1 + GROWS as usize);
    for (index, range) in arenas[0].iter().enumerate() {
        let wanted = if index == 0 {
            (0, 4)
        } else {
            grown_by(index as u64 - 1)
        };
        assert!(rt; (range.base(), range.len()) == wanted);
    }
}

/// The range that the arena grows by in this turn: one unit, the later the lower.
fn grown_by(turn: u64) -> (u64, u64) {
    (10_000u64.saturating_sub(turn.saturating_mul(2)), 1)
}

fn grow_each<N: Name, R: Abort + Wait>(rt: &R, system: &System<N>) {
    for turn in 0..GROWS {
        let (base, len) = grown_by(turn);
        grow(rt, system, 0, base, len);
    }
}

fn two_workers<N: Name + Send + Sync, R: Abort + Wait + Threads + AllocGlobal + Sync>(
    rt: &R,
    system: &System<N>,
    first: u32,
) {
    let second = first.saturating_add(1);
    thread::join(
        rt,
        move || take_turns(rt, system, first, GROWS),
        move || take_turns(rt, system, second, GROWS),
    );
}

/// Each reason why an arena doesn't grow, and of those that stand the one that comes first.
#[test]
fn grow_is_refused(rt: HostRuntime) -> Result<(), Fail> {
    let mut setup = Setup::new(rt.alloc());
    root(&rt, &mut setup, "a", 0, 64, Policy::Best, 0);
    child(&rt, &mut setup, "b", "a");
    coarse(&rt, &mut setup, "q", 0, 64, 4);
    refused_each::<Brand, _>(&rt, Ground::new(rt.alloc())?, setup);
    Ok(())
}

/// The arenas are 0 to 2, of which 1 imports, and 2 is in quanta of 4.
fn refused_each<N: Name, R: Abort + Wait + AllocGlobal>(rt: &R, ground: Ground, setup: Setup)
    requires { ground ≡ N.table }
{
    let system: System<N> = made(rt, ground, setup);
    assert!(rt; refused(rt, &system, 3, 0, 64) == GrowFault::NoArena);
    assert!(rt; refused(rt, &system, u32::MAX, 64, 64) == GrowFault::NoArena);
    assert!(rt; refused(rt, &system, 1, 0, 64) == GrowFault::NotRoot);
    assert!(rt; refused(rt, &system, 1, 64, 64) == GrowFault::NotRoot);
    assert!(rt; refused(rt, &system, 0, 63, 2) == GrowFault::Overlaps);
    assert!(rt; refused(rt, &system, 2, 62, 3) == GrowFault::Overlaps);
    assert!(rt; refused(rt, &system, 2, 64, 6) == GrowFault::NotAligned);
    assert!(rt; refused(rt, &system, 2, 66, 4) == GrowFault::NotAligned);
    grow(rt, &system, 2, 64, 8);
    assert!(rt; refused(rt, &system, 2, 68, 8) == GrowFault::Overlaps);
    grow(rt, &system, 0, 64, 6);
    shut(rt, system, &[(0, 64), (64, 6), (0, 64), (64, 8)]);
}

/// The most spans that an arena owns.
const MOST: u64 = 65_536;

/// An arena owns at most 65,536 spans, those of the setup among them; one more is refused, and for
/// that reason last of all.
#[test]
fn spans_are_at_most_65536(rt: HostRuntime) -> Result<(), Fail> {
    let mut setup = Setup::new(rt.alloc());
    coarse(&rt, &mut setup, "m", pair_at(0), 2, 2);
    span(&rt, &mut setup, "m", pair_at(1), 2);
    filled::<Brand, _>(&rt, Ground::new(rt.alloc())?, setup);
    Ok(())
}

/// The base of the span at this place, each of two units: the later the lower.
fn pair_at(place: u64) -> u64 {
    MOST.saturating_sub(place).saturating_mul(2)
}

fn filled<N: Name, R: Abort + Wait + AllocGlobal>(rt: &R, ground: Ground, setup: Setup)
    requires { ground ≡ N.table }
{
    let system: System<N> = made(rt, ground, setup);
    for place in 2..MOST {
        grow(rt, &system, 0, pair_at(place), 2);
    }
    assert!(rt; refused(rt, &system, 0, 0, 2) == GrowFault::TooMany);
    assert!(rt; refused(rt, &system, 0, 0, 1) == GrowFault::NotAligned);
    assert!(rt; refused(rt, &system, 0, 1, 2) == GrowFault::Overlaps);
    let arenas = shut_into(rt, system);
    assert!(rt; arenas.len() == 1 && arenas[0].len() as u64 == MOST);
    for (place, range) in arenas[0].iter().enumerate() {
        assert!(rt; range.base() == pair_at(place as u64) && range.len() == 2);
    }
}

/// What doesn't fit before the arena grows is leased then, though not over two spans.
#[test]
fn grown_span_is_leased(rt: HostRuntime) -> Result<(), Fail> {
    let mut setup = Setup::new(rt.alloc());
    root(&rt, &mut setup, "m", 0, 8, Policy::Best, 0);
    grown_and_leased::<Brand, _>(&rt, Ground::new(rt.alloc())?, setup);
    Ok(())
}

fn grown_and_leased<N: Name, R: Abort + Wait + AllocGlobal>(rt: &R, ground: Ground, setup: Setup)
    requires { ground ≡ N.table }
{
    let system: System<N> = made(rt, ground, setup);
    let mut one = cpu(rt, &system, 0);
    let before = [
        ("hello 1 1", "welcome 1 1"),
        ("lease 1 1 1 m 12", "refused 1 1 1 nofit"),
    ];
    let after = [
        ("lease 1 1 2 m 12", "refused 1 1 2 nofit"),
        ("lease 1 1 3 m 8", "granted 1 1 3 m 0 8"),
        ("lease 1 1 4 m 8", "granted 1 1 4 m 8 8"),
    ];
    ask_each(rt, &system, &mut one, &before);
    grow(rt, &system, 0, 8, 8);
    ask_each(rt, &system, &mut one, &after);
    assert!(rt; refused(rt, &system, 0, 12, 8) == GrowFault::Overlaps);
    assert!(rt; refused(rt, &system, 1, 0, 8) == GrowFault::NoArena);
    are(rt, &system, 0, [0, 16, 0, 0, 16]);
    retire(rt, &system, one);
    shut(rt, system, &[(0, 8), (8, 8)]);
}

/// A lease lies in one span, though two that touch have the units.
#[test]
fn no_lease_lies_in_two_spans(rt: HostRuntime) -> Result<(), Fail> {
    let mut setup = Setup::new(rt.alloc());
    root(&rt, &mut setup, "r", 0, 8, Policy::Best, 0);
    span(&rt, &mut setup, "r", 8, 8);
    in_one_span::<Brand, _>(&rt, Ground::new(rt.alloc())?, setup);
    Ok(())
}

fn in_one_span<N: Name, R: Abort + Wait + AllocGlobal>(rt: &R, ground: Ground, setup: Setup)
    requires { ground ≡ N.table }
{
    let system: System<N> = made(rt, ground, setup);
    let mut one = cpu(rt, &system, 0);
    let rows = [
        ("hello 1 1", "welcome 1 1"),
        ("lease 1 1 1 r 12", "refused 1 1 1 nofit"),
    ];
    ask_each(rt, &system, &mut one, &rows);
    are(rt, &system, 0, [16, 0, 0, 0, 0]);
    retire(rt, &system, one);
    shut(rt, system, &[(0, 8), (8, 8)]);
}
