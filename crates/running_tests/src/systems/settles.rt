//! Another CPU is asked lines just before a step of a request.
ghost use Rattle.std.specs.Prelude.{◌≡◌};

use super::{ask, ask_each, cpu, line, made, retire, root, same, shut};
use arena_tree::Setup;
use deed_table::{Ground, Name};
use lease_threads::{Cpu, EventName, Gate, NextStep, Pass, RequestStopped, System};
use std::alloc::AllocGlobal;
use std::marker::Brand;
use std::process::Abort;
use std::sync::{Mutex, Wait};
use std::test::Fail;
use tag_arena::Policy;

/// A line with its answer.
type Row<'a> = (&'a str, &'a str);

/// What two CPUs of a system with one arena, `m` of eight units, are asked, in this order.
#[derive(Drop)]
struct Story<'a> {
    first: &'a [Row<'a>],
    /// The other CPU is asked these before this step of the line.
    event: EventName,
    between: &'a [Row<'a>],
    line: Row<'a>,
    then: Row<'a>,
}

/// Before its step the other CPU is asked what comes between.
#[derive(Drop)]
struct Before<'a, N: Name, R: Abort + Wait + AllocGlobal> {
    rt: &'a R,
    system: &'a System<N>,
    other: &'a Mutex<Cpu<N>>,
    event: EventName,
    rows: &'a [Row<'a>],
}

impl<N: Name, R: Abort + Wait + AllocGlobal> Gate for Before<'_, N, R> {
    ghost may_stop = { λ _ _. ⊥ };

    ghost passed = { λ _ _. Unit {0} };

    fn pass(&self, step: &NextStep) -> Pass {
        if step.event == self.event {
            let mut other = self.other.lock(self.rt);
            ask_each(self.rt, self.system, &mut other, self.rows);
        }
        Pass::Go
    }
}

/// Asks a line that another CPU's lines come before: it isn't settled by this, is answered so, and
/// the hand is empty.
fn late<N: Name, R: Abort + Wait + AllocGlobal>(
    rt: &R,
    gate: &Before<N, R>,
    one: &mut Cpu<N>,
    row: &Row,
) {
    match gate.system.request(rt, one, gate, &line(rt, row.0)) {
        Ok(told) => {
            same(rt, &told.reply, row.1);
            assert!(rt; !told.is_new, "settled twice");
        }
        Err(RequestStopped) => panic!(rt; "stopped"),
    }
    assert_eq!(rt; one.units(), 0);
}

const LEASE: &str = "lease 1 1 1 m 4";

/// The lease of the second CPU is settled first: its segment is the one that both are told.
#[test]
fn one_request_twice(rt: HostRuntime) -> Result<(), Fail> {
    let granted = (LEASE, "granted 1 1 1 m 4 4");
    let then = ("lease 1 1 2 m 4", "granted 1 1 2 m 0 4");
    settled(&rt, &[granted, granted, then]);
    Ok(())
}

/// The first CPU has all units in its hand, so that the second one finds none and settles that.
/// Both are told so, and all units are free.
#[test]
fn last_units_twice(rt: HostRuntime) -> Result<(), Fail> {
    let refused = ("lease 1 1 1 m 8", "refused 1 1 1 nofit");
    let then = ("lease 1 1 2 m 8", "granted 1 1 2 m 0 8");
    settled(&rt, &[refused, refused, then]);
    Ok(())
}

/// A release of that number is refused first: the lease gets its answer.
#[test]
fn refusal_before_settle(rt: HostRuntime) -> Result<(), Fail> {
    let refused = "refused 1 1 1 notyours";
    let then = ("lease 1 1 2 m 4", "granted 1 1 2 m 0 4");
    settled(
        &rt,
        &[("release 1 1 1 m 0", refused), (LEASE, refused), then],
    );
    Ok(())
}

/// The client says hello again before its lease is settled.
#[test]
fn hello_before_settle(rt: HostRuntime) -> Result<(), Fail> {
    let hello = ("hello 1 2", "welcome 1 2");
    let then = ("lease 1 2 1 m 8", "granted 1 2 1 m 0 8");
    settled(&rt, &[hello, (LEASE, "old 1 2"), then]);
    Ok(())
}

/// A hello comes twice. The first CPU has the older lease in its hand, so that the second one finds
/// none to end: it answers `welcome`, and the units aren't free yet.
#[test]
fn one_hello_twice(rt: HostRuntime) -> Result<(), Fail> {
    let hello = ("hello 1 2", "welcome 1 2");
    let story = Story {
        first: &[
            ("hello 1 1", "welcome 1 1"),
            ("lease 1 1 1 m 8", "granted 1 1 1 m 0 8"),
        ],
        event: EventName::Free,
        between: &[hello, ("lease 1 2 1 m 8", "refused 1 2 1 nofit")],
        line: hello,
        then: ("lease 1 2 2 m 8", "granted 1 2 2 m 0 8"),
    };
    told(&rt, &story);
    Ok(())
}

/// What the other CPU is asked before the settle, the lease, and what comes after.
fn settled<R: Abort + Wait + AllocGlobal>(rt: &R, rows: &[Row; 3]) {
    let [before, asked, then] = rows;
    let story = Story {
        first: &[("hello 1 1", "welcome 1 1")],
        event: EventName::Settle,
        between: &[*before],
        line: *asked,
        then: *then,
    };
    told(rt, &story);
}

fn told<R: Abort + Wait + AllocGlobal>(rt: &R, story: &Story) {
    let mut setup = Setup::new(rt.alloc());
    root(rt, &mut setup, "m", 0, 8, Policy::Best, 0);
    let ground = Ground::new(rt.alloc()).expect(rt, "a table");
    told_in::<Brand, _>(rt, ground, setup, story);
}

fn told_in<N: Name, R: Abort + Wait + AllocGlobal>(
    rt: &R,
    ground: Ground,
    setup: Setup,
    story: &Story,
)
    requires { ground ≡ N.table }
{
    let system: System<N> = made(rt, ground, setup);
    let mut one = cpu(rt, &system, 0);
    let other = Mutex::new(cpu(rt, &system, 1));
    ask_each(rt, &system, &mut one, story.first);
    let gate = Before {
        rt,
        system: &system,
        other: &other,
        event: story.event,
        rows: story.between,
    };
    late(rt, &gate, &mut one, &story.line);
    ask(rt, &system, &mut one, story.then.0, story.then.1);
    let two = other.into_inner();
    assert_eq!(rt; two.units(), 0);
    retire(rt, &system, one);
    retire(rt, &system, two);
    shut(rt, system, &[(0, 8)]);
}
