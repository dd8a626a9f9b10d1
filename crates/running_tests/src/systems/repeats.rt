//! A line that is settled, and one that comes again.
ghost use Rattle.std.specs.Prelude.{◌≡◌};

use super::{ask, cpu, line, made, retire, root, same, shut};
use arena_tree::Setup;
use deed_table::{Ground, Name};
use lease_threads::{Cpu, OpenGate, RequestStopped, System};
use std::alloc::AllocGlobal;
use std::marker::Brand;
use std::process::Abort;
use std::sync::Wait;
use std::test::Fail;
use tag_arena::Policy;

#[test]
fn repeats_are_told(rt: HostRuntime) -> Result<(), Fail> {
    let mut setup = Setup::new(rt.alloc());
    root(&rt, &mut setup, "m", 0, 8, Policy::Best, 0);
    root(&rt, &mut setup, "d", 64, 64, Policy::Best, 5);
    repeated::<Brand, _>(&rt, Ground::new(rt.alloc())?, setup);
    Ok(())
}

/// By the second protocol. A reply is told again out of order too, also after its lease ended,
/// until a number was settled that is greater by the window: then the greatest is told. A number
/// further above those that are all settled than the window is told the last of these.
const WINDOW: [(&str, &str, bool); 14] = [
    ("lease 2 1 3 m 2", "granted 2 1 3 m 0 2", true),
    ("lease 2 1 9 m 2", "gap 2 1 9 0", false),
    ("lease 2 1 8 m 2", "granted 2 1 8 m 2 2", true),
    ("release 2 1 8 m 0", "granted 2 1 8 m 2 2", false),
    ("lease 2 1 3 m 2", "granted 2 1 3 m 0 2", false),
    ("lease 2 1 1 m 8", "refused 2 1 1 nofit", true),
    ("lease 2 1 1 m 1", "refused 2 1 1 nofit", false),
    ("release 2 1 2 m 0", "released 2 1 2", true),
    ("lease 2 1 3 m 2", "granted 2 1 3 m 0 2", false),
    ("lease 2 1 12 m 2", "gap 2 1 12 3", false),
    ("release 2 1 11 m 2", "released 2 1 11", true),
    ("lease 2 1 3 m 2", "stale 2 1 3 11", false),
    ("lease 2 1 12 m 2", "gap 2 1 12 3", false),
    ("release 2 1 4 m 0", "refused 2 1 4 notyours", true),
];

/// Each line with its answer, and whether it is settled by that. What comes again is another line
/// in part: it is answered as the first one was. A number before the last one, or beyond the next,
/// is told the last one.
fn repeated<N: Name, R: Abort + Wait + AllocGlobal>(rt: &R, ground: Ground, setup: Setup)
    requires { ground ≡ N.table }
{
    let system: System<N> = made(rt, ground, setup);
    let mut one = cpu(rt, &system, 0);
    ask(rt, &system, &mut one, "hello 1 1", "welcome 1 1");
    let rows = [
        ("lease 1 1 1 m 4", "granted 1 1 1 m 0 4", true),
        ("lease 1 1 1 d 2", "granted 1 1 1 m 0 4", false),
        ("release 1 1 1 z 0", "granted 1 1 1 m 0 4", false),
        ("lease 1 1 2 m 5", "refused 1 1 2 nofit", true),
        ("lease 1 1 2 m 4", "refused 1 1 2 nofit", false),
        ("release 1 1 3 m 1", "refused 1 1 3 notyours", true),
        ("lease 1 1 1 m 4", "stale 1 1 1 3", false),
        ("lease 1 1 2 z 4", "stale 1 1 2 3", false),
        ("release 1 1 1 m 0", "stale 1 1 1 3", false),
        ("release 1 1 2 z 0", "stale 1 1 2 3", false),
        ("release 1 1 5 m 0", "gap 1 1 5 3", false),
        ("release 1 1 5 z 0", "gap 1 1 5 3", false),
        ("release 1 1 4 m 0", "released 1 1 4", true),
        ("release 1 1 4 m 0", "released 1 1 4", false),
        ("lease 1 1 5 z 4", "refused 1 1 5 noarena", true),
        ("lease 1 1 7 m 4", "gap 1 1 7 5", false),
    ];
    for (text, wanted, is_new) in &rows {
        told(rt, &system, &mut one, text, wanted, *is_new);
    }
    ask(rt, &system, &mut one, "hello 2 1 2", "welcome 2 1 2");
    for (text, wanted, is_new) in &WINDOW {
        told(rt, &system, &mut one, text, wanted, *is_new);
    }
    retire(rt, &system, one);
    shut(rt, system, &[(0, 8), (64, 64)]);
}

fn told<N: Name, R: Abort + Wait + AllocGlobal>(
    rt: &R,
    system: &System<N>,
    cpu: &mut Cpu<N>,
    text: &str,
    wanted: &str,
    is_new: bool,
) {
    match system.request(rt, cpu, &OpenGate, &line(rt, text)) {
        Ok(told) => {
            same(rt, &told.reply, wanted);
            assert!(rt; told.is_new == is_new, "settled at another time");
        }
        Err(RequestStopped) => panic!(rt; "stopped"),
    }
}
