//! Whole conversations with a running system, asked of one CPU: setup lines, then lines and what
//! they are answered, the same as of a script.
ghost use Rattle.std.specs.Prelude.{◌≡◌};

use super::{ask, ask_each, cpu, made, retire, stuck};
use arena_tree::{NewChild, NewRoot, Setting, Setup};
use deed_table::{Ground, Name};
use lease_proto::{
    ChildLine, LeaseLine, LeaseOptions, Line, Op, PolicyWord, Reply, RootLine, SetupLine,
};
use lease_terms::{ArenaName, ClientId, Ordinal, Quantity, RequestId};
use lease_threads::{Cpu, LineAnswer, OpenGate, System};
use std::alloc::AllocGlobal;
use std::marker::Brand;
use std::process::Abort;
use std::sync::Wait;
use tag_arena::Policy;

#[test]
fn running_rows(rt: HostRuntime) {
    of_roots(&rt);
    of_incarnations(&rt);
    of_windows(&rt);
    of_constraints(&rt);
    of_policies(&rt);
    of_caches(&rt);
    of_imports(&rt);
    of_most_leases(&rt);
}

fn of_roots<R: Abort + Wait + AllocGlobal>(rt: &R) {
    talk(
        rt,
        &["root m 0 64 1 best 0"],
        &[
            ("hello 1 1", "welcome 1 1"),
            ("lease 1 1 1 m 8", "granted 1 1 1 m 0 8"),
            ("release 1 1 2 m 0", "released 1 1 2"),
        ],
    );
    talk(
        rt,
        &["root m 0 64 1 best 0"],
        &[
            ("hello 1 1", "welcome 1 1"),
            ("lease 1 1 1 m 8", "granted 1 1 1 m 0 8"),
            ("lease 1 1 1 m 8", "granted 1 1 1 m 0 8"),
        ],
    );
    talk(
        rt,
        &["root p 1 4 1 best 0"],
        &[
            ("hello 1 1", "welcome 1 1"),
            ("lease 1 1 1 p 4", "granted 1 1 1 p 1 4"),
            ("hello 1 2", "welcome 1 2"),
            ("hello 2 1", "welcome 2 1"),
            ("lease 2 1 1 p 4", "granted 2 1 1 p 1 4"),
            ("lease 1 1 1 p 4", "old 1 2"),
        ],
    );
    talk(
        rt,
        &["root p 1 4 1 best 0"],
        &[
            ("hello 1 1", "welcome 1 1"),
            ("lease 1 1 1 p 2", "granted 1 1 1 p 1 2"),
            ("hello 2 1", "welcome 2 1"),
            ("release 2 1 1 p 1", "refused 2 1 1 notyours"),
            ("release 2 1 1 p 1", "refused 2 1 1 notyours"),
        ],
    );
    // a hello ends no lease of another client, nor of its own incarnation
    talk(
        rt,
        &["root p 1 4 1 best 0"],
        &[
            ("hello 1 1", "welcome 1 1"),
            ("lease 1 1 1 p 4", "granted 1 1 1 p 1 4"),
            ("hello 2 1", "welcome 2 1"),
            ("lease 2 1 1 p 4", "refused 2 1 1 nofit"),
            ("hello 1 1", "welcome 1 1"),
            ("lease 2 1 2 p 4", "refused 2 1 2 nofit"),
        ],
    );
    // and all of its older ones
    talk(
        rt,
        &["root p 1 4 1 best 0"],
        &[
            ("hello 1 1", "welcome 1 1"),
            ("lease 1 1 1 p 2", "granted 1 1 1 p 1 2"),
            ("lease 1 1 2 p 2", "granted 1 1 2 p 3 2"),
            ("hello 1 2", "welcome 1 2"),
            ("hello 2 1", "welcome 2 1"),
            ("lease 2 1 1 p 4", "granted 2 1 1 p 1 4"),
        ],
    );
}

/// A hello of a lower incarnation is refused, and changes nothing: neither the incarnation, nor its
/// last number, nor a lease. Nor is a request of another incarnation served, or of a client that
/// never said hello.
fn of_incarnations<R: Abort + Wait + AllocGlobal>(rt: &R) {
    talk(
        rt,
        &["root m 0 64 1 best 0"],
        &[
            ("hello 1 2", "welcome 1 2"),
            ("hello 1 1", "old 1 2"),
            ("lease 1 2 1 m 60", "granted 1 2 1 m 0 60"),
            ("hello 1 1", "old 1 2"),
            ("lease 1 1 1 m 4", "old 1 2"),
            ("lease 1 3 1 m 4", "old 1 2"),
            ("release 1 1 2 m 0", "old 1 2"),
            ("lease 2 1 1 m 4", "old 2 0"),
            ("release 2 1 1 m 0", "old 2 0"),
            ("lease 1 2 2 m 8", "refused 1 2 2 nofit"),
        ],
    );
}

/// By the second protocol numbers may come in any order within a window of eight. A later hello of
/// the incarnation is told by which protocol it began.
fn of_windows<R: Abort + Wait + AllocGlobal>(rt: &R) {
    talk(
        rt,
        &["root m 0 64 1 best 0"],
        &[
            ("hello 1 1 2", "welcome 1 1 2"),
            ("hello 1 1", "welcome 1 1 2"),
            ("lease 1 1 2 m 4", "granted 1 1 2 m 0 4"),
            ("lease 1 1 9 m 4", "gap 1 1 9 0"),
            ("lease 1 1 8 m 4", "granted 1 1 8 m 4 4"),
            ("lease 1 1 1 m 8", "granted 1 1 1 m 8 8"),
            ("lease 1 1 2 m 4", "granted 1 1 2 m 0 4"),
            ("lease 1 1 10 m 4", "granted 1 1 10 m 16 4"),
            ("lease 1 1 11 m 4", "gap 1 1 11 2"),
            ("lease 1 1 2 m 4", "stale 1 1 2 10"),
            ("hello 1 2", "welcome 1 2"),
            ("hello 1 2 2", "welcome 1 2"),
            ("lease 1 2 2 m 64", "gap 1 2 2 0"),
            ("lease 1 2 1 m 64", "granted 1 2 1 m 0 64"),
        ],
    );
}

fn of_constraints<R: Abort + Wait + AllocGlobal>(rt: &R) {
    talk(
        rt,
        &["root m 0 64 1 best 0"],
        &[
            ("hello 1 1", "welcome 1 1"),
            (
                "lease 1 1 1 m 5 align 8 phase 3 nocross 8",
                "granted 1 1 1 m 3 5",
            ),
            (
                "lease 1 1 2 m 6 align 8 phase 3 nocross 8",
                "refused 1 1 2 nofit",
            ),
        ],
    );
    talk(
        rt,
        &["root m 0 64 1 best 0"],
        &[
            ("hello 1 1", "welcome 1 1"),
            ("lease 1 1 1 m 5 min 10 max 15", "granted 1 1 1 m 10 5"),
            ("lease 1 1 2 m 5 min 10 max 15", "refused 1 1 2 nofit"),
        ],
    );
    talk(
        rt,
        &["root q 0 64 4 best 0"],
        &[
            ("hello 1 1", "welcome 1 1"),
            ("lease 1 1 1 q 5", "granted 1 1 1 q 0 8"),
            ("lease 1 1 2 q 0", "refused 1 1 2 badrequest"),
            ("lease 1 1 3 q 4 align 2", "refused 1 1 3 badrequest"),
            ("lease 1 1 4 z 4", "refused 1 1 4 noarena"),
        ],
    );
}

fn of_policies<R: Abort + Wait + AllocGlobal>(rt: &R) {
    talk(
        rt,
        &["root pid 1 8 1 next 0"],
        &[
            ("hello 1 1", "welcome 1 1"),
            ("lease 1 1 1 pid 1", "granted 1 1 1 pid 1 1"),
            ("lease 1 1 2 pid 1", "granted 1 1 2 pid 2 1"),
            ("lease 1 1 3 pid 1", "granted 1 1 3 pid 3 1"),
            ("release 1 1 4 pid 2", "released 1 1 4"),
            ("lease 1 1 5 pid 1", "granted 1 1 5 pid 4 1"),
            ("lease 1 1 6 pid 1", "granted 1 1 6 pid 5 1"),
            ("lease 1 1 7 pid 1", "granted 1 1 7 pid 6 1"),
            ("lease 1 1 8 pid 1", "granted 1 1 8 pid 7 1"),
            ("lease 1 1 9 pid 1", "granted 1 1 9 pid 8 1"),
            ("lease 1 1 10 pid 1", "granted 1 1 10 pid 2 1"),
            ("lease 1 1 11 pid 1", "refused 1 1 11 nofit"),
        ],
    );
    talk(
        rt,
        &["root x 0 15 1 instant 0"],
        &[
            ("hello 1 1", "welcome 1 1"),
            ("lease 1 1 1 x 5", "granted 1 1 1 x 0 5"),
            ("lease 1 1 2 x 1", "granted 1 1 2 x 5 1"),
            ("lease 1 1 3 x 8", "granted 1 1 3 x 6 8"),
            ("lease 1 1 4 x 1", "granted 1 1 4 x 14 1"),
            ("release 1 1 5 x 0", "released 1 1 5"),
            ("release 1 1 6 x 6", "released 1 1 6"),
            ("lease 1 1 7 x 5", "granted 1 1 7 x 6 5"),
            ("lease 1 1 8 x 5", "granted 1 1 8 x 0 5"),
        ],
    );
    talk(
        rt,
        &["root x 0 15 1 instant 0"],
        &[
            ("hello 1 1", "welcome 1 1"),
            ("lease 1 1 1 x 5", "granted 1 1 1 x 0 5"),
            ("lease 1 1 2 x 1", "granted 1 1 2 x 5 1"),
            ("lease 1 1 3 x 8", "granted 1 1 3 x 6 8"),
            ("lease 1 1 4 x 1", "granted 1 1 4 x 14 1"),
            ("release 1 1 5 x 0", "released 1 1 5"),
            ("release 1 1 6 x 6", "released 1 1 6"),
            ("lease 1 1 7 x 4", "granted 1 1 7 x 0 4"),
        ],
    );
    talk(
        rt,
        &["root t 0 12 1 instant 0"],
        &[
            ("hello 1 1", "welcome 1 1"),
            ("lease 1 1 1 t 4", "granted 1 1 1 t 0 4"),
            ("lease 1 1 2 t 4", "granted 1 1 2 t 4 4"),
            ("lease 1 1 3 t 4", "granted 1 1 3 t 8 4"),
            ("release 1 1 4 t 0", "released 1 1 4"),
            ("release 1 1 5 t 8", "released 1 1 5"),
            ("release 1 1 6 t 4", "released 1 1 6"),
            ("lease 1 1 7 t 12", "granted 1 1 7 t 0 12"),
        ],
    );
}

fn of_caches<R: Abort + Wait + AllocGlobal>(rt: &R) {
    talk(
        rt,
        &["root d 0 64 1 instant 5"],
        &[
            ("hello 1 1", "welcome 1 1"),
            ("lease 1 1 1 d 5", "granted 1 1 1 d 0 5"),
            ("lease 1 1 2 d 5", "granted 1 1 2 d 5 5"),
            ("lease 1 1 3 d 5", "granted 1 1 3 d 10 5"),
            ("lease 1 1 4 d 5", "granted 1 1 4 d 17 5"),
        ],
    );
    talk(
        rt,
        &["root d 0 64 1 instant 5"],
        &[
            ("hello 1 1", "welcome 1 1"),
            ("lease 1 1 1 d 1", "granted 1 1 1 d 0 1"),
            ("lease 1 1 2 d 1", "granted 1 1 2 d 1 1"),
            ("lease 1 1 3 d 1", "granted 1 1 3 d 2 1"),
            ("lease 1 1 4 d 1", "granted 1 1 4 d 3 1"),
            ("release 1 1 5 d 0", "released 1 1 5"),
            ("release 1 1 6 d 1", "released 1 1 6"),
            ("release 1 1 7 d 2", "released 1 1 7"),
            ("release 1 1 8 d 3", "released 1 1 8"),
            ("lease 1 1 9 d 1", "granted 1 1 9 d 3 1"),
            ("lease 1 1 10 d 1", "granted 1 1 10 d 2 1"),
            ("lease 1 1 11 d 1", "granted 1 1 11 d 1 1"),
            ("lease 1 1 12 d 1", "granted 1 1 12 d 0 1"),
        ],
    );
    talk(
        rt,
        &["root d 0 64 1 instant 5"],
        &[
            ("hello 1 1", "welcome 1 1"),
            ("lease 1 1 1 d 1", "granted 1 1 1 d 0 1"),
            ("lease 1 1 2 d 1", "granted 1 1 2 d 1 1"),
            ("lease 1 1 3 d 1", "granted 1 1 3 d 2 1"),
            ("lease 1 1 4 d 1", "granted 1 1 4 d 3 1"),
            ("lease 1 1 5 d 1", "granted 1 1 5 d 4 1"),
            ("lease 1 1 6 d 1", "granted 1 1 6 d 5 1"),
            ("lease 1 1 7 d 1", "granted 1 1 7 d 6 1"),
            ("release 1 1 8 d 0", "released 1 1 8"),
            ("release 1 1 9 d 1", "released 1 1 9"),
            ("release 1 1 10 d 2", "released 1 1 10"),
            ("release 1 1 11 d 3", "released 1 1 11"),
            ("release 1 1 12 d 4", "released 1 1 12"),
            ("release 1 1 13 d 5", "released 1 1 13"),
            ("release 1 1 14 d 6", "released 1 1 14"),
            ("lease 1 1 15 d 1", "granted 1 1 15 d 6 1"),
            ("lease 1 1 16 d 1", "granted 1 1 16 d 5 1"),
            ("lease 1 1 17 d 1", "granted 1 1 17 d 4 1"),
            ("lease 1 1 18 d 1", "granted 1 1 18 d 3 1"),
            ("lease 1 1 19 d 1", "granted 1 1 19 d 2 1"),
            ("lease 1 1 20 d 1", "granted 1 1 20 d 1 1"),
            ("lease 1 1 21 d 1", "granted 1 1 21 d 0 1"),
        ],
    );
    talk(
        rt,
        &["root s 0 8 1 instant 2"],
        &[
            ("hello 1 1", "welcome 1 1"),
            ("lease 1 1 1 s 3", "granted 1 1 1 s 0 3"),
            ("lease 1 1 2 s 2", "granted 1 1 2 s 3 2"),
            ("release 1 1 3 s 3", "released 1 1 3"),
        ],
    );
}

fn of_imports<R: Abort + Wait + AllocGlobal>(rt: &R) {
    talk(
        rt,
        &["root r 0 64 1 best 0", "child c r 1 best 0 16"],
        &[
            ("hello 1 1", "welcome 1 1"),
            ("lease 1 1 1 c 4", "granted 1 1 1 c 0 4"),
            ("lease 1 1 2 r 8", "granted 1 1 2 r 16 8"),
            ("release 1 1 3 c 0", "released 1 1 3"),
            ("lease 1 1 4 r 8", "granted 1 1 4 r 0 8"),
        ],
    );
    talk(
        rt,
        &[
            "root a 0 64 16 best 0",
            "child b a 4 best 0 0",
            "child c b 1 best 0 6",
        ],
        &[
            ("hello 1 1", "welcome 1 1"),
            ("lease 1 1 1 c 5", "granted 1 1 1 c 0 5"),
            ("release 1 1 2 c 0", "released 1 1 2"),
        ],
    );
}

/// A client that has 1,024 leases, as many as one may.
fn of_most_leases<R: Abort + Wait + AllocGlobal>(rt: &R) {
    let mut setup = Setup::new(rt.alloc());
    set_up(rt, &mut setup, "root m 0 2048 1 best 0");
    let ground = Ground::new(rt.alloc()).expect(rt, "a table");
    leased::<Brand, _>(rt, ground, setup);
}

/// Asks the lines of a system of the setup, which ends then.
fn talk<R: Abort + Wait + AllocGlobal>(rt: &R, setup_lines: &[&str], rows: &[(&str, &str)]) {
    let mut setup = Setup::new(rt.alloc());
    for line in setup_lines {
        set_up(rt, &mut setup, line);
    }
    let ground = Ground::new(rt.alloc()).expect(rt, "a table");
    talked::<Brand, _>(rt, ground, setup, rows);
}

fn talked<N: Name, R: Abort + Wait + AllocGlobal>(
    rt: &R,
    ground: Ground,
    setup: Setup,
    rows: &[(&str, &str)],
)
    requires { ground ≡ N.table }
{
    let system: System<N> = made(rt, ground, setup);
    let mut one = cpu(rt, &system, 0);
    ask_each(rt, &system, &mut one, rows);
    end(rt, system, one);
}

fn leased<N: Name, R: Abort + Wait + AllocGlobal>(rt: &R, ground: Ground, setup: Setup)
    requires { ground ≡ N.table }
{
    let system: System<N> = made(rt, ground, setup);
    let mut one = cpu(rt, &system, 0);
    ask(rt, &system, &mut one, "hello 1 1", "welcome 1 1");
    for number in 1..=1024 {
        lease_one(rt, &system, &mut one, number);
    }
    let full = "refused 1 1 1025 leases";
    ask(rt, &system, &mut one, "lease 1 1 1025 m 1", full);
    ask(rt, &system, &mut one, "lease 1 1 1025 m 1", full);
    end(rt, system, one);
}

/// The client's request of this number gets the unit before it.
fn lease_one<N: Name, R: Abort + Wait + AllocGlobal>(
    rt: &R,
    system: &System<N>,
    cpu: &mut Cpu<N>,
    number: u64,
) {
    let id = RequestId {
        client: ClientId::new(1).expect(rt, "a client"),
        incarnation: Ordinal::new(1).expect(rt, "an incarnation"),
        number: Ordinal::new(number).expect(rt, "a number"),
    };
    let lease = LeaseLine {
        arena: ArenaName::new(b"m").expect(rt, "a name"),
        size: Quantity::new(1).expect(rt, "a size"),
        options: LeaseOptions::none(),
    };
    match system.request(rt, cpu, &OpenGate, &Line::Request(id, Op::Lease(lease))) {
        Ok(
            LineAnswer {
                reply: Reply::Granted(grant),
                ..
            },
        ) => {
            assert!(rt; grant.base.get() == number.saturating_sub(1) && grant.len.get() == 1);
        }
        _ => panic!(rt; "no grant"),
    }
}

fn end<N: Name, R: Abort + Wait>(rt: &R, system: System<N>, cpu: Cpu<N>) {
    retire(rt, &system, cpu);
    match system.shut(rt) {
        Ok(_) => {}
        Err(fault) => stuck(rt, fault),
    }
}

fn set_up(rt: &impl Abort, setup: &mut Setup, text: &str) {
    let setting = match SetupLine::read(text.as_bytes()) {
        Ok(SetupLine::Root(line)) => Setting::Root(root_of(&line)),
        Ok(SetupLine::Child(line)) => Setting::Child(child_of(&line)),
        _ => panic!(rt; "no setup line"),
    };
    setup.add(&setting).expect(rt, "an arena");
}

fn root_of(line: &RootLine) -> NewRoot {
    NewRoot {
        name: line.name,
        base: line.base.get(),
        len: line.len.get(),
        quantum: line.quantum.get(),
        policy: policy_of(line.policy),
        qcache_max: line.qcache_max.get(),
    }
}

fn child_of(line: &ChildLine) -> NewChild {
    NewChild {
        name: line.name,
        source: line.source,
        quantum: line.quantum.get(),
        policy: policy_of(line.policy),
        qcache_max: line.qcache_max.get(),
        import_min: line.import_min.get(),
    }
}

fn policy_of(word: PolicyWord) -> Policy {
    match word {
        PolicyWord::Instant => Policy::Instant,
        PolicyWord::Best => Policy::Best,
        PolicyWord::Next => Policy::Next,
    }
}
