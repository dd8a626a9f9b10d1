//! A desk that is asked, for tests.
use arena_tree::{NewRoot, NewSpan, Setting, Setup};
use lease_terms::ArenaName;
use std::alloc::AllocGlobal;
use std::process::Abort;
use stock_desk::Desk;
use tag_arena::Policy;

fn name(rt: &impl Abort, text: &str) -> ArenaName {
    match ArenaName::new(text.as_bytes()) {
        Some(name) => name,
        None => panic!(rt; "no name"),
    }
}

pub(crate) fn root(
    rt: &impl Abort,
    text: &str,
    base: u64,
    len: u64,
    quantum: u64,
    policy: Policy,
    qcache_max: u64,
) -> Setting {
    Setting::Root(NewRoot {
        name: name(rt, text),
        base,
        len,
        quantum,
        policy,
        qcache_max,
    })
}

pub(crate) fn span(rt: &impl Abort, text: &str, base: u64, len: u64) -> Setting {
    Setting::Span(NewSpan {
        name: name(rt, text),
        base,
        len,
    })
}

/// Adds what is asked for, which nothing speaks against.
pub(crate) fn add(rt: &impl Abort, setup: &mut Setup, setting: Setting) {
    assert_eq!(rt; setup.add(&setting), Ok(()));
}

/// The desk of a setup.
pub(crate) fn opened(rt: &(impl Abort + AllocGlobal), setup: Setup) -> Desk {
    match Desk::open(rt.alloc(), setup) {
        Ok(desk) => desk,
        Err(_) => panic!(rt; "out of memory"),
    }
}

/// A desk with one root without caches.
pub(crate) fn desk_of(
    rt: &(impl Abort + AllocGlobal),
    text: &str,
    base: u64,
    len: u64,
    quantum: u64,
    policy: Policy,
) -> Desk {
    let mut setup = Setup::new(rt.alloc());
    add(
        rt,
        &mut setup,
        root(rt, text, base, len, quantum, policy, 0),
    );
    opened(rt, setup)
}

/// Each line gets its reply.
pub(crate) fn ask(rt: &(impl Abort + AllocGlobal), desk: &mut Desk, lines: &[(&str, &str)]) {
    let mut out = Vec::new(rt.alloc());
    for (line, reply) in lines {
        out.clear();
        match desk.answer(line.as_bytes(), &mut out) {
            Ok(()) => assert_eq!(rt; out.as_slice(), reply.as_bytes()),
            Err(_) => panic!(rt; "out of memory"),
        }
    }
}
