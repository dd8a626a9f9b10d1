//! What the tests share: settings, lines, and a system from its making to its end.
ghost use Rattle.std.specs.Prelude.{◌≡◌};

mod between;
mod conversations;
mod draining;
mod gates;
mod growing;
mod orders;
mod pipeline;
mod repeats;
mod rows;
mod settles;
mod soak;
mod starved_threads;
mod watching;

use arena_tree::{NewChild, NewRoot, NewSpan, Setting, Setup};
use deed_core::Range;
use deed_table::{Ground, Name};
use lease_proto::{Line, Reply};
use lease_terms::ArenaName;
use lease_threads::{Cpu, OpenGate, RequestStopped, System, SystemSums};
use std::alloc::AllocGlobal;
use std::process::Abort;
use std::sync::Wait;
use tag_arena::Policy;

pub(crate) fn root(
    rt: &impl Abort,
    setup: &mut Setup,
    name: &str,
    base: u64,
    len: u64,
    policy: Policy,
    qcache_max: u64,
) {
    let name = ArenaName::new(name.as_bytes()).expect(rt, "a name");
    let root = NewRoot {
        name,
        base,
        len,
        quantum: 1,
        policy,
        qcache_max,
    };
    setup.add(&Setting::Root(root)).expect(rt, "a root");
}

/// An arena that imports 16 units or more of another, and caches up to 5.
pub(crate) fn child(rt: &impl Abort, setup: &mut Setup, name: &str, source: &str) {
    let child = NewChild {
        name: ArenaName::new(name.as_bytes()).expect(rt, "a name"),
        source: ArenaName::new(source.as_bytes()).expect(rt, "a name"),
        quantum: 1,
        policy: Policy::Best,
        qcache_max: 5,
        import_min: 16,
    };
    setup.add(&Setting::Child(child)).expect(rt, "a child");
}

/// A further span of a root.
fn span(rt: &impl Abort, setup: &mut Setup, name: &str, base: u64, len: u64) {
    let span = NewSpan {
        name: ArenaName::new(name.as_bytes()).expect(rt, "a name"),
        base,
        len,
    };
    setup.add(&Setting::Span(span)).expect(rt, "a span");
}

fn line(rt: &impl Abort, text: &str) -> Line {
    Line::read(text.as_bytes()).expect(rt, "a line")
}

fn same(rt: &(impl Abort + AllocGlobal), reply: &Reply, text: &str) {
    let mut out = Vec::new(rt.alloc());
    reply.write(&mut out).expect(rt, "room");
    out.pop();
    assert!(rt; out.as_slice() == text.as_bytes(), "another reply");
}

/// Ends the test, with what it held.
pub(crate) fn stuck<X, R: Abort>(rt: &R, held: X) -> ! {
    let _held = held;
    panic!(rt; "refused")
}

fn ask<N: Name, R: Abort + Wait + AllocGlobal>(
    rt: &R,
    system: &System<N>,
    cpu: &mut Cpu<N>,
    text: &str,
    wanted: &str,
) {
    match system.request(rt, cpu, &OpenGate, &line(rt, text)) {
        Ok(told) => same(rt, &told.reply, wanted),
        Err(RequestStopped) => panic!(rt; "stopped"),
    }
}

fn cpu<N: Name, R: Abort + AllocGlobal>(rt: &R, system: &System<N>, number: u32) -> Cpu<N> {
    match Cpu::new(rt.alloc(), system, number) {
        Ok(Some(cpu)) => cpu,
        _ => panic!(rt; "no cpu"),
    }
}

fn made<N: Name, R: Abort + AllocGlobal>(rt: &R, ground: Ground, setup: Setup) -> System<N>
    requires { ground ≡ N.table }
{
    match System::new(rt.alloc(), ground, setup) {
        Ok(system) => system,
        Err(_) => panic!(rt; "memory"),
    }
}

/// Adds a range to an arena.
fn grow<N: Name, R: Abort + Wait>(rt: &R, system: &System<N>, arena: u32, base: u64, len: u64) {
    let range = Range::new(base, len).expect(rt, "a range");
    match system.grow(rt, arena, range) {
        Ok(_) => {}
        Err(_) => panic!(rt; "no growth"),
    }
}

fn retire<N: Name, R: Abort + Wait>(rt: &R, system: &System<N>, cpu: Cpu<N>) {
    match system.retire(rt, cpu) {
        Ok(()) => {}
        Err(cpu) => stuck(rt, cpu),
    }
}

/// Shuts the system, which has these ranges, by arena.
fn shut<N: Name, R: Abort + Wait>(rt: &R, system: System<N>, wanted: &[(u64, u64)]) {
    have_each(rt, &shut_into(rt, system), wanted);
}

/// Of the arenas together the ranges are these.
fn have_each(rt: &impl Abort, arenas: &[Vec<Range>], wanted: &[(u64, u64)]) {
    let mut left = wanted;
    for ranges in arenas {
        assert!(rt; ranges.len() <= left.len());
        let (first, rest) = left.split_at(ranges.len());
        have(rt, ranges, first);
        left = rest;
    }
    assert!(rt; left.is_empty());
}

/// Reaps the arena with enough looks, by this CPU: so many units of slabs.
fn reaps<N: Name, R: Abort + Wait>(
    rt: &R,
    system: &System<N>,
    cpu: &mut Cpu<N>,
    arena: u32,
    units: u128,
) {
    assert!(rt; system.reap(rt, cpu, arena, 1024).units == units);
}

/// Shuts the system, and gives its ranges by arena.
fn shut_into<N: Name, R: Abort + Wait>(rt: &R, system: System<N>) -> Vec<Vec<Range>> {
    match system.shut(rt) {
        Ok(ranges) => ranges,
        Err(halted) => stuck(rt, halted),
    }
}

fn have(rt: &impl Abort, ranges: &[Range], wanted: &[(u64, u64)]) {
    assert!(rt; ranges.len() == wanted.len());
    for (range, (base, len)) in ranges.iter().zip(wanted) {
        assert!(rt; range.base() == *base && range.len() == *len);
    }
}

/// The arena's units: free, allocated, in slabs, in magazines of depots, and leased.
fn are<N: Name, R: Abort + Wait>(rt: &R, system: &System<N>, arena: u32, wanted: [u128; 5]) {
    let [free, allocated, slab, magazine, leased] = wanted;
    let wanted = SystemSums {
        free,
        allocated,
        slab,
        magazine,
        leased,
    };
    assert!(rt; system.sums(rt, arena) == Some(wanted), "other sums");
}

/// Asks each line of one Cpu, and looks at its answer.
fn ask_each<N: Name, R: Abort + Wait + AllocGlobal>(
    rt: &R,
    system: &System<N>,
    cpu: &mut Cpu<N>,
    rows: &[(&str, &str)],
) {
    for (text, wanted) in rows {
        ask(rt, system, cpu, text, wanted);
    }
}

/// Asks each line, a line of the text and then its answer, of one Cpu or of two in turn.
fn ask_all<N: Name, R: Abort + Wait + AllocGlobal>(
    rt: &R,
    system: &System<N>,
    one: &mut Cpu<N>,
    two: &mut Cpu<N>,
    rows: &[(&str, &str)],
) {
    for (index, (text, wanted)) in rows.iter().enumerate() {
        if index % 2 == 0 {
            ask(rt, system, one, text, wanted);
        } else {
            ask(rt, system, two, text, wanted);
        }
    }
}
