//! Between the steps of a request no lock is held.
ghost use Rattle.std.specs.Prelude.{◌≡◌};

use super::{ask, child, cpu, line, made, retire, root, shut};
use arena_tree::Setup;
use deed_table::{Ground, Name};
use lease_proto::Reply;
use lease_threads::{Cpu, Gate, LineAnswer, NextStep, OpenGate, Pass, RequestStopped, System};
use std::alloc::AllocGlobal;
use std::marker::Brand;
use std::process::Abort;
use std::sync::atomic::{AtomicU64, Ordering};
use std::sync::{Mutex, Wait};
use std::test::Fail;
use tag_arena::Policy;

/// Before each step another CPU is served, and every part is looked at: the book, the arena, the
/// slabs and the depots. It would wait for ever for a lock that the request held.
#[derive(Drop)]
struct Between<'a, N: Name, R: Abort + Wait + AllocGlobal> {
    rt: &'a R,
    system: &'a System<N>,
    other: &'a Mutex<Cpu<N>>,
    /// How many lines the other CPU was asked.
    asked: &'a AtomicU64,
}

impl<N: Name, R: Abort + Wait + AllocGlobal> Gate for Between<'_, N, R> {
    ghost may_stop = { λ _ _. ⊥ };

    ghost passed = { λ _ _. Unit {0} };

    fn pass(&self, _step: &NextStep) -> Pass {
        let mut other = self.other.lock(self.rt);
        let asked = self.asked.load(Ordering::SeqCst);
        let base = leased(self.rt, self.system, &mut other, asked);
        released(self.rt, self.system, &mut other, asked, base);
        self.asked.store(asked.saturating_add(2), Ordering::SeqCst);
        let _ = self.system.tick(self.rt);
        assert!(self.rt; !self.system.resize(self.rt, 0, 3).rose());
        self.system.reap(self.rt, &mut other, 0, 8);
        Pass::Go
    }
}

/// Leases two units, for which the arena has a cache, by the request after so many, and gives their
/// base.
fn leased<N: Name, R: Abort + Wait + AllocGlobal>(
    rt: &R,
    system: &System<N>,
    other: &mut Cpu<N>,
    asked: u64,
) -> u64 {
    let number = asked.saturating_add(1);
    let text = format!(in rt.alloc(); "lease 2 1 {number} d 2").expect(rt, "room");
    match system.request(rt, other, &OpenGate, &line(rt, &text)) {
        Ok(
            LineAnswer {
                reply: Reply::Granted(granted),
                ..
            },
        ) => granted.base.get(),
        _ => panic!(rt; "the other CPU isn't served"),
    }
}

fn released<N: Name, R: Abort + Wait + AllocGlobal>(
    rt: &R,
    system: &System<N>,
    other: &mut Cpu<N>,
    asked: u64,
    base: u64,
) {
    let number = asked.saturating_add(2);
    let text = format!(in rt.alloc(); "release 2 1 {number} d {base}").expect(rt, "room");
    match system.request(rt, other, &OpenGate, &line(rt, &text)) {
        Ok(
            LineAnswer {
                reply: Reply::Released(_),
                ..
            },
        ) => {}
        _ => panic!(rt; "the other CPU isn't served"),
    }
}

#[test]
fn no_lock_between_steps(rt: HostRuntime) -> Result<(), Fail> {
    let mut setup = Setup::new(rt.alloc());
    root(&rt, &mut setup, "d", 0, 256, Policy::Best, 5);
    child(&rt, &mut setup, "e", "d");
    served_between::<Brand, _>(&rt, Ground::new(rt.alloc())?, setup);
    Ok(())
}

/// Asks a line that has so many steps. Between them the other CPU is asked two lines each.
fn ask_between<N: Name, R: Abort + Wait + AllocGlobal>(
    rt: &R,
    gate: &Between<N, R>,
    one: &mut Cpu<N>,
    text: &str,
    steps: u64,
) {
    let before = gate.asked.load(Ordering::SeqCst);
    match gate.system.request(rt, one, gate, &line(rt, text)) {
        Ok(_) => {}
        Err(RequestStopped) => panic!(rt; "stopped"),
    }
    let after = gate.asked.load(Ordering::SeqCst);
    assert_eq!(rt; after, before.saturating_add(steps.saturating_mul(2)));
}

/// Lines, and how many steps each has: a lease by a new slab, one that is carved, one that is
/// refused, one that imports, and what comes back of them.
fn served_between<N: Name, R: Abort + Wait + AllocGlobal>(rt: &R, ground: Ground, setup: Setup)
    requires { ground ≡ N.table }
{
    let system: System<N> = made(rt, ground, setup);
    let mut one = cpu(rt, &system, 0);
    let mut two = cpu(rt, &system, 1);
    ask(rt, &system, &mut two, "hello 2 1", "welcome 2 1");
    let (other, asked) = (Mutex::new(two), AtomicU64::new(0));
    let gate = Between {
        rt,
        system: &system,
        other: &other,
        asked: &asked,
    };
    let rows = [
        ("hello 1 1", 2),
        ("lease 1 1 1 d 1", 7),
        ("lease 1 1 1 d 1", 1),
        ("lease 1 1 2 d 40", 3),
        ("lease 1 1 3 d 256", 3),
        ("release 1 1 4 z 0", 1),
        ("lease 1 1 5 e 6", 5),
        ("hello 1 2", 9),
    ];
    for (text, steps) in &rows {
        ask_between(rt, &gate, &mut one, text, *steps);
    }
    retire(rt, &system, one);
    retire(rt, &system, other.into_inner());
    shut(rt, system, &[(0, 256)]);
}
