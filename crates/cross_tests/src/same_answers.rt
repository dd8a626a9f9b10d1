//! Both bodies of an arena, `tag_arena`'s and the plain one for tests, answer each call alike.
mod bodies;
mod chances;
mod edges;
mod imports;
mod walks;

use self::bodies::Bodies;
use self::chances::Chances;
use self::walks::Walk;
use super::arenas::Step;
use deed_core::Range;
use std::alloc::AllocGlobal;
use std::process::Abort;
use tag_arena::Policy;

/// Takes the steps of a row in both bodies of an arena of these spans, which are whole at the end.
pub(crate) fn run_both(
    rt: &(impl Abort + AllocGlobal),
    policy: Policy,
    spans: &[(u64, u64)],
    steps: &[Step],
) {
    let mut walk = Walk::new(rt, policy, 1, 16);
    for &(base, len) in spans {
        let range = Range::new(base, len).expect(rt, "a range");
        walk.source.add(rt, 1, range);
    }
    for &step in steps {
        match step {
            Step::Grant(request, _) | Step::NoFit(request) => walk.lease(rt, &request),
            Step::Free(base) => walk.free_at(rt, base),
        }
        walk.source.report(rt);
    }
    walk.end(rt);
}

/// How many spans and random calls a walk has, and how many segments of an arena are out at most.
#[derive(Clone, Copy)]
struct WalkSize {
    roots: u32,
    most: u32,
    calls: u32,
}

/// Takes random calls of arenas of a policy and a quantum, one importing from the other.
fn walk(rt: &(impl Abort + AllocGlobal), policy: Policy, quantum: u64, size: WalkSize) {
    let mut chances = Chances::new(quantum);
    let mut walk = Walk::new(rt, policy, quantum, size.most);
    add_roots(rt, &mut walk, size.roots);
    for _ in 0..size.calls {
        walk.step(rt, &mut chances);
    }
    walk.end(rt);
}

/// Adds spans to the source, of which every second touches the next.
fn add_roots(rt: &impl Abort, walk: &mut Walk, roots: u32) {
    for root in 0..roots {
        let range = Range::new(u64::from(root) * 256, 256 - 64 * u64::from(root % 2));
        walk.source.add(rt, root, range.expect(rt, "a range"));
    }
}

#[test]
fn same_answers(rt: HostRuntime) {
    let size = WalkSize {
        roots: 6,
        most: 160,
        calls: 50_000,
    };
    for policy in [Policy::Best, Policy::Next, Policy::Instant] {
        for quantum in [1, 4] {
            walk(&rt, policy, quantum, size);
        }
    }
}

/// With more than 64 free ranges most of the time, where the index of them is another.
#[test]
fn same_answers_of_many(rt: HostRuntime) {
    let size = WalkSize {
        roots: 24,
        most: 400,
        calls: 15_000,
    };
    for policy in [Policy::Best, Policy::Next, Policy::Instant] {
        walk(&rt, policy, 1, size);
    }
}
