//! The limits of a desk and of its setup, and what is answered out of memory.
use crate::asking::{add, ask, desk_of, opened, root, span};
use arena_tree::{MOST_ARENAS, MOST_SPANS, Setting, Setup, SetupFault};
use std::alloc::AllocGlobal;
use std::process::Abort;
use stock_desk::Desk;
use tag_arena::Policy;

/// Asks for one unit by request `n`, which is granted at this base.
fn ask_one(rt: &(impl Abort + AllocGlobal), desk: &mut Desk, n: u32, base: u32) {
    let line = format!(in rt.alloc(); "lease 1 1 {n} m 1").ok();
    let reply = format!(in rt.alloc(); "granted 1 1 {n} m {base} 1\n").ok();
    let (line, reply) = (line.expect(rt, "memory"), reply.expect(rt, "memory"));
    ask(rt, desk, &[(line.as_str(), reply.as_str())]);
}

/// A client has at most 1,024 leases.
#[test]
fn too_many_leases(rt: HostRuntime) {
    let mut desk = desk_of(&rt, "m", 0, 2048, 1, Policy::Best);
    ask(&rt, &mut desk, &[("hello 1 1", "welcome 1 1\n")]);
    for base in 0..1024u32 {
        ask_one(&rt, &mut desk, base + 1, base);
    }
    ask(
        &rt,
        &mut desk,
        &[
            ("lease 1 1 1025 m 1", "refused 1 1 1025 leases\n"),
            ("clients", "client 1 1 1025 1024\n"),
            (
                "audit",
                "arena m free 1024 slab 0 magazine 0 exported 0 leased 1024 hand 0\n",
            ),
        ],
    );
    desk.close();
}

/// Each refusal of a setup, in its order; the desk has what was taken.
#[test]
fn refuses_setups(rt: HostRuntime) {
    let mut setup = Setup::new(rt.alloc());
    add(&rt, &mut setup, root(&rt, "a", 0, 8, 4, Policy::Best, 0));
    for (text, numbers, fault) in [
        ("a", (0, 0, 3, 1), SetupFault::NameTaken),
        ("z", (0, 0, 3, 1), SetupFault::BadQuantum),
        ("z", (0, 0, 4, 1), SetupFault::BadCache),
        ("z", (0, 0, 4, 68), SetupFault::BadCache),
        ("z", (0, 0, 4, 0), SetupFault::BadRange),
        ("z", (0, 6, 4, 0), SetupFault::BadRange),
        ("z", (4611686018427387888, 17, 1, 0), SetupFault::BadRange),
    ] {
        let (base, len, quantum, cached) = numbers;
        let asked = root(&rt, text, base, len, quantum, Policy::Best, cached);
        assert_eq!(rt; setup.add(&asked), Err(fault));
    }
    for (text, base, len, fault) in [
        ("z", 0, 0, SetupFault::NoArena),
        ("a", 8, 0, SetupFault::BadRange),
        ("a", 4, 8, SetupFault::BadRange),
    ] {
        assert_eq!(rt; setup.add(&span(&rt, text, base, len)), Err(fault));
    }
    add(&rt, &mut setup, span(&rt, "a", 8, 8));
    let mut desk = opened(&rt, setup);
    let audit = "arena a free 16 slab 0 magazine 0 exported 0 leased 0 hand 0\n";
    ask(&rt, &mut desk, &[("audit", audit)]);
    desk.close();
}

/// A 33rd arena is refused before its quantum is looked at.
#[test]
fn too_many_arenas(rt: HostRuntime) {
    assert_eq!(rt; (MOST_ARENAS, MOST_SPANS), (32, 65_536));
    let mut setup = Setup::new(rt.alloc());
    for n in 0..32 {
        match format!(in rt.alloc(); "a{n}") {
            Ok(text) => {
                let asked = root(&rt, text.as_str(), 0, 8, 1, Policy::Next, 0);
                add(&rt, &mut setup, asked)
            }
            Err(_) => panic!(rt; "out of memory"),
        }
    }
    let more = root(&rt, "b", 0, 8, 3, Policy::Next, 0);
    assert_eq!(rt; setup.add(&more), Err(SetupFault::TooMany));
    opened(&rt, setup).close();
}

/// Lines of an operator, at a desk without arenas.
#[test]
fn operators_lines(rt: HostRuntime) {
    let mut desk = opened(&rt, Setup::new(rt.alloc()));
    ask(
        &rt,
        &mut desk,
        &[
            ("audit", ""),
            ("clients", ""),
            ("audit a", "error badline\n"),
            ("clients 1", "error badline\n"),
            ("tick", "ok\n"),
            ("reap", "reaped 0\n"),
            ("cpu 63", "ok\n"),
            ("cpu 64", "error number\n"),
            ("offline 7", "ok\n"),
            ("resize d 7", "error noarena\n"),
            ("resize d 8", "error number\n"),
            ("grow d 0 8", "error noarena\n"),
            ("grow d 0 0", "error noarena\n"),
            ("audit ", "error badline\n"),
        ],
    );
    desk.close();
}

/// Whether an answer tells that it was out of memory.
fn is_refusal(text: &[u8]) -> bool {
    text.starts_with(b"again ") || text == b"error memory\n".as_slice()
}

/// The line gets its reply behind what is there: at once, or the second time where the first
/// was out of memory.
fn ask_twice(rt: &(impl Abort + AllocGlobal), desk: &mut Desk, line: &str, reply: &str) {
    let mut out = Vec::new(rt.alloc());
    for _ in 0..2 {
        match desk.answer(line.as_bytes(), &mut out) {
            Ok(()) if out.as_slice() == reply.as_bytes() => return,
            Ok(()) => assert!(rt; is_refusal(out.as_slice())),
            Err(_) => assert!(rt; out.is_empty()),
        }
        out.clear();
    }
    panic!(rt; "refused twice");
}

/// Adds what is asked for: at once, or the second time where the first was out of memory.
fn add_twice(rt: &impl Abort, setup: &mut Setup, setting: Setting) {
    match setup.add(&setting) {
        Ok(()) => {}
        Err(fault) => {
            assert_eq!(rt; fault, SetupFault::NoMemory);
            add(rt, setup, setting);
        }
    }
}

/// A setup of two spans of one root.
fn two_spans(rt: &(impl Abort + AllocGlobal)) -> Setup {
    let mut setup = Setup::new(rt.alloc());
    add_twice(rt, &mut setup, root(rt, "a", 0, 64, 4, Policy::Best, 0));
    add_twice(rt, &mut setup, span(rt, "a", 128, 64));
    setup
}

/// Where one growth is refused, the same call made again is served as if it had not been. Run with
/// each growth refused in turn.
#[test]
fn a_refused_growth_is_made_up_for(rt: HostRuntime) {
    let setup = two_spans(&rt);
    let mut desk = match Desk::open(rt.alloc(), setup) {
        Ok(desk) => desk,
        Err(_) => opened(&rt, two_spans(&rt)),
    };
    let lines = [
        ("hello 1 1", "welcome 1 1\n"),
        ("lease 1 1 1 a 16 align 16", "granted 1 1 1 a 0 16\n"),
        ("lease 1 1 2 a 5 min 20", "granted 1 1 2 a 20 8\n"),
        ("hello 2 7", "welcome 2 7\n"),
        ("lease 2 7 1 a 64", "granted 2 7 1 a 128 64\n"),
        ("release 1 1 3 a 0", "released 1 1 3\n"),
        ("lease 1 1 4 b 4", "refused 1 1 4 noarena\n"),
        ("hello 2 8", "welcome 2 8\n"),
        ("lease 2 8 1 a 61", "granted 2 8 1 a 128 64\n"),
        ("hello 2 9 2", "welcome 2 9 2\n"),
        ("lease 2 9 8 a 61", "granted 2 9 8 a 128 64\n"),
        ("cpu 9", "ok\n"),
        ("offline 9", "ok\n"),
        ("reap", "reaped 0\n"),
        ("grow a 64 64", "ok\n"),
        ("lease 1 1 5 a 64", "granted 1 1 5 a 64 64\n"),
        ("grow a 256 8", "ok\n"),
        ("grow a 60 8", "error range\n"),
        ("clients", "client 1 1 5 2\nclient 2 9 8 1\n"),
        (
            "audit",
            "arena a free 64 slab 0 magazine 0 exported 0 leased 136 hand 0\n",
        ),
    ];
    for (line, reply) in &lines {
        ask_twice(&rt, &mut desk, line, reply);
    }
    desk.close();
}

/// Replies stand behind what the buffer holds, and a client's lines and an operator's alike.
#[test]
fn replies_are_appended(rt: HostRuntime) {
    let mut desk = desk_of(&rt, "m", 0, 64, 1, Policy::Best);
    let mut out = Vec::new(rt.alloc());
    for line in [
        "hello 3 1",
        "tick 1",
        "lease 3 1 1 m 8",
        "clients",
        "audit",
        "lease 3 1 1",
    ] {
        assert!(rt; desk.answer(line.as_bytes(), &mut out).is_ok());
    }
    let replies = "welcome 3 1\nerror badline\ngranted 3 1 1 m 0 8\nclient 3 1 1 1\n\
         arena m free 56 slab 0 magazine 0 exported 0 leased 8 hand 0\nerror badline\n";
    assert_eq!(rt; out.as_slice(), replies.as_bytes());
    desk.close();
}
