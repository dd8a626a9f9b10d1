//! Lines and their answers, the lines asked of two CPUs in turn.
ghost use Rattle.std.specs.Prelude.{◌≡◌};

use super::{
    ask, ask_all, ask_each, child, cpu, grow, have, have_each, made, reaps, retire, root, shut,
    span, stuck,
};
use arena_tree::Setup;
use deed_table::{Ground, Name};
use lease_threads::{Halted, StoppedAt, System};
use std::alloc::AllocGlobal;
use std::marker::Brand;
use std::process::Abort;
use std::sync::Wait;
use std::test::Fail;
use tag_arena::Policy;

#[test]
fn read_back(rt: HostRuntime) -> Result<(), Fail> {
    let mut setup = Setup::new(rt.alloc());
    root(&rt, &mut setup, "m", 0, 4, Policy::Best, 0);
    read_back_in::<Brand, _>(&rt, Ground::new(rt.alloc())?, setup);
    Ok(())
}

fn read_back_in<N: Name, R: Abort + Wait + AllocGlobal>(rt: &R, ground: Ground, setup: Setup)
    requires { ground ≡ N.table }
{
    let system: System<N> = made(rt, ground, setup);
    let mut one = cpu(rt, &system, 0);
    let mut two = cpu(rt, &system, 1);
    let rows = [
        ("hello 1 1", "welcome 1 1"),
        ("hello 2 1", "welcome 2 1"),
        ("lease 1 1 1 m 4", "granted 1 1 1 m 0 4"),
        ("lease 1 1 1 m 4", "granted 1 1 1 m 0 4"),
        ("lease 2 1 1 m 4", "refused 2 1 1 nofit"),
        ("release 1 1 2 m 0", "released 1 1 2"),
        ("release 1 1 2 m 0", "released 1 1 2"),
        ("lease 2 1 2 m 4", "granted 2 1 2 m 0 4"),
        ("lease 2 1 3 z 4", "refused 2 1 3 noarena"),
        ("hello 2 2", "welcome 2 2"),
        ("lease 1 1 3 m 4", "granted 1 1 3 m 0 4"),
    ];
    ask_all(rt, &system, &mut one, &mut two, &rows);
    retire(rt, &system, one);
    retire(rt, &system, two);
    shut(rt, system, &[(0, 4)]);
}

#[test]
fn reap_running(rt: HostRuntime) -> Result<(), Fail> {
    let mut setup = Setup::new(rt.alloc());
    root(&rt, &mut setup, "d", 0, 64, Policy::Instant, 5);
    reaped::<Brand, _>(&rt, Ground::new(rt.alloc())?, setup);
    Ok(())
}

/// Seven units of an arena are leased and released.
const SEVEN_UNITS: [(&str, &str); 15] = [
    ("hello 1 1", "welcome 1 1"),
    ("lease 1 1 1 d 1", "granted 1 1 1 d 0 1"),
    ("lease 1 1 2 d 1", "granted 1 1 2 d 1 1"),
    ("lease 1 1 3 d 1", "granted 1 1 3 d 2 1"),
    ("lease 1 1 4 d 1", "granted 1 1 4 d 3 1"),
    ("lease 1 1 5 d 1", "granted 1 1 5 d 4 1"),
    ("lease 1 1 6 d 1", "granted 1 1 6 d 5 1"),
    ("lease 1 1 7 d 1", "granted 1 1 7 d 6 1"),
    ("release 1 1 8 d 0", "released 1 1 8"),
    ("release 1 1 9 d 1", "released 1 1 9"),
    ("release 1 1 10 d 2", "released 1 1 10"),
    ("release 1 1 11 d 3", "released 1 1 11"),
    ("release 1 1 12 d 4", "released 1 1 12"),
    ("release 1 1 13 d 5", "released 1 1 13"),
    ("release 1 1 14 d 6", "released 1 1 14"),
];

fn reaped<N: Name, R: Abort + Wait + AllocGlobal>(rt: &R, ground: Ground, setup: Setup)
    requires { ground ≡ N.table }
{
    let system: System<N> = made(rt, ground, setup);
    let mut one = cpu(rt, &system, 0);
    let mut two = cpu(rt, &system, 1);
    for (text, wanted) in &SEVEN_UNITS {
        ask(rt, &system, &mut one, text, wanted);
        let _ = system.tick(rt);
        reaps(rt, &system, &mut two, 0, 0);
    }
    assert!(rt; one.units() > 0);
    retire(rt, &system, one);
    let _ = system.tick(rt);
    reaps(rt, &system, &mut two, 0, 16);
    assert!(rt; two.units() == 0);
    ask(
        rt,
        &system,
        &mut two,
        "lease 1 1 15 d 64",
        "granted 1 1 15 d 0 64",
    );
    assert!(rt; system.resize(rt, 0, 7).rose());
    assert!(rt; !system.resize(rt, 0, 7).rose());
    retire(rt, &system, two);
    shut(rt, system, &[(0, 64)]);
}

/// A size rises where it is greater, past others too; one that isn't changes nothing.
#[test]
fn sizes_rise(rt: HostRuntime) -> Result<(), Fail> {
    let mut setup = Setup::new(rt.alloc());
    root(&rt, &mut setup, "d", 0, 64, Policy::Instant, 5);
    risen::<Brand, _>(&rt, Ground::new(rt.alloc())?, setup);
    Ok(())
}

fn risen<N: Name, R: Abort + Wait + AllocGlobal>(rt: &R, ground: Ground, setup: Setup)
    requires { ground ≡ N.table }
{
    let system: System<N> = made(rt, ground, setup);
    assert!(rt; system.resize(rt, 0, 15).rose());
    assert!(rt; !system.resize(rt, 0, 15).rose());
    assert!(rt; !system.resize(rt, 0, 7).rose());
    assert!(rt; !system.resize(rt, 1, 31).rose());
    assert!(rt; system.resize(rt, 0, 31).rose());
    assert!(rt; !system.resize(rt, 0, 15).rose());
    shut(rt, system, &[(0, 64)]);
}

/// The depot of a second arena's second cache has a full magazine. It isn't reaped before a tick,
/// also where it is asked twice, and is after one, which begins an interval that doesn't need it.
#[test]
fn reap_second(rt: HostRuntime) -> Result<(), Fail> {
    let mut setup = Setup::new(rt.alloc());
    root(&rt, &mut setup, "c", 0, 64, Policy::Instant, 5);
    root(&rt, &mut setup, "d", 64, 64, Policy::Instant, 5);
    second_reaped::<Brand, _>(&rt, Ground::new(rt.alloc())?, setup);
    Ok(())
}

/// Seven times two units of the second of two arenas are leased and released.
const SEVEN_PAIRS: [(&str, &str); 15] = [
    ("hello 1 1", "welcome 1 1"),
    ("lease 1 1 1 d 2", "granted 1 1 1 d 64 2"),
    ("lease 1 1 2 d 2", "granted 1 1 2 d 66 2"),
    ("lease 1 1 3 d 2", "granted 1 1 3 d 68 2"),
    ("lease 1 1 4 d 2", "granted 1 1 4 d 70 2"),
    ("lease 1 1 5 d 2", "granted 1 1 5 d 72 2"),
    ("lease 1 1 6 d 2", "granted 1 1 6 d 74 2"),
    ("lease 1 1 7 d 2", "granted 1 1 7 d 76 2"),
    ("release 1 1 8 d 64", "released 1 1 8"),
    ("release 1 1 9 d 66", "released 1 1 9"),
    ("release 1 1 10 d 68", "released 1 1 10"),
    ("release 1 1 11 d 70", "released 1 1 11"),
    ("release 1 1 12 d 72", "released 1 1 12"),
    ("release 1 1 13 d 74", "released 1 1 13"),
    ("release 1 1 14 d 76", "released 1 1 14"),
];

/// Of the seven rounds that come back, the depot gets three for the last one's sake.
fn second_reaped<N: Name, R: Abort + Wait + AllocGlobal>(rt: &R, ground: Ground, setup: Setup)
    requires { ground ≡ N.table }
{
    let system: System<N> = made(rt, ground, setup);
    let mut one = cpu(rt, &system, 0);
    let mut two = cpu(rt, &system, 1);
    ask_each(rt, &system, &mut one, &SEVEN_PAIRS);
    assert!(rt; one.units() == 8);
    retire(rt, &system, one);
    reaps(rt, &system, &mut two, 1, 0);
    reaps(rt, &system, &mut two, 1, 0);
    let _ = system.tick(rt);
    reaps(rt, &system, &mut two, 0, 0);
    reaps(rt, &system, &mut two, 1, 16);
    ask(
        rt,
        &system,
        &mut two,
        "lease 1 1 15 d 64",
        "granted 1 1 15 d 64 64",
    );
    retire(rt, &system, two);
    shut(rt, system, &[(0, 64), (64, 64)]);
}

/// All units come back, those of arenas that import and of slabs too: of each arena the range of
/// each root once, in order of adding, whether the setup added it or a grow.
#[test]
fn shut_whole(rt: HostRuntime) -> Result<(), Fail> {
    let mut setup = Setup::new(rt.alloc());
    root(&rt, &mut setup, "a", 0, 64, Policy::Best, 0);
    child(&rt, &mut setup, "b", "a");
    root(&rt, &mut setup, "d", 64, 64, Policy::Best, 5);
    span(&rt, &mut setup, "d", 512, 64);
    span(&rt, &mut setup, "a", 256, 64);
    span(&rt, &mut setup, "d", 448, 64);
    whole::<Brand, _>(&rt, Ground::new(rt.alloc())?, setup);
    Ok(())
}

fn whole<N: Name, R: Abort + Wait + AllocGlobal>(rt: &R, ground: Ground, setup: Setup)
    requires { ground ≡ N.table }
{
    let system: System<N> = made(rt, ground, setup);
    let mut one = cpu(rt, &system, 0);
    let mut two = cpu(rt, &system, 1);
    let rows = [
        ("hello 1 1", "welcome 1 1"),
        ("lease 1 1 1 b 5", "granted 1 1 1 b 0 5"),
        ("lease 1 1 2 b 20", "granted 1 1 2 b 16 20"),
        ("lease 1 1 3 d 2", "granted 1 1 3 d 64 2"),
        ("release 1 1 4 b 0", "released 1 1 4"),
        ("lease 1 1 5 d 9 align 16 phase 3", "granted 1 1 5 d 83 9"),
    ];
    ask_all(rt, &system, &mut one, &mut two, &rows);
    grow(rt, &system, 2, 1024, 96);
    grow(rt, &system, 0, 128, 96);
    let rows = [
        ("lease 1 1 6 a 96", "granted 1 1 6 a 128 96"),
        ("lease 1 1 7 d 96", "granted 1 1 7 d 1024 96"),
    ];
    ask_all(rt, &system, &mut one, &mut two, &rows);
    grow(rt, &system, 0, 64, 64);
    retire(rt, &system, one);
    retire(rt, &system, two);
    let of_a = [(0, 64), (256, 64), (128, 96), (64, 64)];
    let of_d = [(64, 64), (512, 64), (448, 64), (1024, 96)];
    match system.shut(rt) {
        Ok(arenas) => {
            assert!(rt; arenas.len() == 3);
            have(rt, &arenas[0], &of_a);
            assert!(rt; arenas[1].is_empty());
            have(rt, &arenas[2], &of_d);
        }
        Err(halted) => stuck(rt, halted),
    }
}

/// A system in which a unit is out stops at the root of that one, and goes on when it is back.
#[test]
fn shut_goes_on(rt: HostRuntime) -> Result<(), Fail> {
    let mut setup = Setup::new(rt.alloc());
    root(&rt, &mut setup, "m", 0, 8, Policy::Best, 0);
    root(&rt, &mut setup, "d", 64, 64, Policy::Best, 5);
    goes_on::<Brand, _>(&rt, Ground::new(rt.alloc())?, setup);
    Ok(())
}

/// A CPU still has a round of the second arena's first span when the system is shut, and is retired
/// then. The spans below and above that one are closed before.
fn goes_on<N: Name, R: Abort + Wait + AllocGlobal>(rt: &R, ground: Ground, setup: Setup)
    requires { ground ≡ N.table }
{
    let system: System<N> = made(rt, ground, setup);
    let mut one = cpu(rt, &system, 0);
    let rows = [
        ("hello 1 1", "welcome 1 1"),
        ("lease 1 1 1 m 8", "granted 1 1 1 m 0 8"),
        ("lease 1 1 2 d 1", "granted 1 1 2 d 64 1"),
        ("release 1 1 3 d 64", "released 1 1 3"),
    ];
    ask_each(rt, &system, &mut one, &rows);
    assert!(rt; one.units() == 1);
    grow(rt, &system, 1, 0, 64);
    grow(rt, &system, 1, 128, 64);
    grow(rt, &system, 0, 8, 8);
    let halted = halt(rt, system);
    assert!(rt; halted.segment().is_none());
    assert!(rt; halted.stopped_at() == StoppedAt::Root(1), "another place");
    match halted.retire(rt, one) {
        Ok(()) => {}
        Err(cpu) => stuck(rt, cpu),
    }
    match halted.again(rt) {
        Ok(arenas) => have_each(rt, &arenas, &[(0, 8), (8, 8), (64, 64), (0, 64), (128, 64)]),
        Err(fault) => stuck(rt, fault),
    }
}

/// Shuts a system of which a unit is out.
fn halt<N: Name, R: Abort + Wait>(rt: &R, system: System<N>) -> Halted<N> {
    match system.shut(rt) {
        Ok(_) => panic!(rt; "a unit is out"),
        Err(halted) => halted,
    }
}
