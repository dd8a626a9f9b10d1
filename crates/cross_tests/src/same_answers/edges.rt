//! The highest units that there are, and requests that a quantum makes bad, by both bodies.
use super::bodies::Bodies;
use super::imports::{carved, end, freed, source_of, stands};
use deed_core::{Range, Request};
use std::alloc::AllocGlobal;
use std::process::Abort;
use tag_arena::{ArenaFault, Policy};

/// The first of the 16 highest units.
const HIGH: u64 = (1 << 62) - 16;

/// The 16 highest units are carved at once.
fn highest(rt: &(impl Abort + AllocGlobal), policy: Policy) {
    let mut arena = Bodies::new(rt, 1, 1, policy);
    arena.add(rt, 1, Range::new(HIGH, 16).expect(rt, "a range"));
    let all = carved(rt, &mut arena, 16, HIGH);
    stands(rt, &arena, 16, 0, 16);
    freed(rt, &mut arena, all);
    end(rt, arena);
}

/// The arena refuses it as a bad request.
fn is_bad(rt: &impl Abort, arena: &mut Bodies, request: &Request) {
    match arena.carve(rt, request) {
        Ok(_twins) => panic!(rt; "it is carved"),
        Err(fault) => assert_eq!(rt; fault, ArenaFault::BadRequest),
    }
}

/// By a quantum of 4 five units are eight, no unit is none, and an align of 2 is less than it.
fn quanta(rt: &(impl Abort + AllocGlobal), policy: Policy) {
    let mut arena = source_of(rt, 4, policy);
    let eight = carved(rt, &mut arena, 5, 0);
    stands(rt, &arena, 64, 56, 8);
    is_bad(rt, &mut arena, &Request::plain(0));
    let aligned = Request {
        align: 2,
        ..Request::plain(4)
    };
    is_bad(rt, &mut arena, &aligned);
    freed(rt, &mut arena, eight);
    end(rt, arena);
}

#[test]
fn same_at_the_edges(rt: HostRuntime) {
    for policy in [Policy::Best, Policy::Next, Policy::Instant] {
        highest(&rt, policy);
        quanta(&rt, policy);
    }
}
