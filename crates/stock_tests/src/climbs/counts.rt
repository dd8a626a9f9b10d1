//! How often a CPU goes to its depot and how many locks its calls take, over a long run of calls.
use super::arrangements::{Walk, begin, end, root, set};
use super::calls::{allocate, empty, reap_all, release, tick};
use super::sums::depot_units;
use arena_tree::Setup;
use deed_core::PlainDeed;
use std::process::Abort;
use tag_arena::Policy;

/// So far.
struct Counts {
    calls: u64,
    exchanges: u64,
    steps: u64,
}

impl Counts {
    /// Of a call, before which the depot had so many units. Only an exchange changes that.
    fn note(&mut self, walk: &Walk<PlainDeed>, before: u128) {
        self.calls = self.calls.saturating_add(1);
        self.steps = self.steps.saturating_add(walk.steps);
        if depot_units(walk, 0, 1) != before {
            self.exchanges = self.exchanges.saturating_add(1);
        }
    }
}

/// So many allocations of one unit.
fn take(rt: &impl Abort, walk: &mut Walk<PlainDeed>, counts: &mut Counts, times: u64) {
    for _ in 0..times {
        let before = depot_units(walk, 0, 1);
        let segment = allocate(rt, walk, 0, 1).expect(rt, "a segment");
        counts.note(walk, before);
        match walk.held.push(segment) {
            Ok(()) => {}
            Err(_) => panic!(rt; "memory"),
        }
    }
}

/// So many are freed, the last first.
fn give(rt: &impl Abort, walk: &mut Walk<PlainDeed>, counts: &mut Counts, times: u64) {
    for _ in 0..times {
        let before = depot_units(walk, 0, 1);
        let segment = walk.held.pop().expect(rt, "a segment");
        release(rt, walk, segment);
        counts.note(walk, before);
    }
}

/// Runs of 500 calls of one kind, so that magazines of three rounds fill and empty one after
/// another. Of 500 frees each third one exchanges from the seventh on, and of 500 allocations each
/// third one from the sixth on; but the first 500 allocations find no round. So 19 runs have 165
/// exchanges each. One takes a locked step, and two in the first run of frees, which makes the
/// magazines. The first run of allocations makes 32 slabs of 16 chunks, with four locked steps for
/// the first chunk of a slab and two for each other.
#[test]
fn exchanges_of_ten_thousand_calls(rt: HostRuntime) {
    let mut setup = Setup::new(rt.alloc());
    set(&rt, &mut setup, root(&rt, "d", 1024, 1, Policy::Instant, 5));
    let mut walk = begin(&rt, rt.alloc(), setup);
    let mut counts = Counts {
        calls: 0,
        exchanges: 0,
        steps: 0,
    };
    for _ in 0..10 {
        take(&rt, &mut walk, &mut counts, 500);
        give(&rt, &mut walk, &mut counts, 500);
    }
    let Counts {
        calls,
        exchanges,
        steps,
    } = counts;
    assert_eq!(rt; calls, 10000);
    let most = 1 + calls / 3;
    let _ = println!(rt;
        "{calls} calls: {exchanges} exchanges (bound {most}), {steps} locked steps"
    );
    assert!(rt; exchanges <= most);
    assert_eq!(rt; exchanges, 3135);
    assert_eq!(rt; steps, 4364);
    empty(&rt, &mut walk);
    tick(&rt, &mut walk);
    assert_eq!(rt; reap_all(&rt, &mut walk), 512);
    let _root = end(&rt, walk).close();
}
