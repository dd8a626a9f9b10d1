//! Worked runs of giving and taking over a CPU's cache and its depot, most of them with magazines
//! of three rounds. A round is told by its base.
ghost use Rattle.std.specs.Prelude.{◌≡◌, All};
ghost use Rattle.deed_core.specs.Covering.{units_in};
ghost use Rattle.magazine_layer.specs.Magazines.{cache_rounds};

mod steps;

use self::steps::{
    NOTHING, Step, base, cache_of, close, close_depot, round, run, run_anew, single, take_all,
};
use deed_core::{PlainDeed, Range, Route, Segment};
use magazine_layer::{
    CpuCache, Depot, FullFault, Magazine, NotGreater, RoundAnswer, RoundOp, RoundRun,
    is_magazine_size, run_rounds, two_empty,
};
use std::alloc::{AllocGlobal, Global};
use std::process::Abort;

#[test]
fn rounds(rt: HostRuntime) {
    let steps = [Step::Run {
        given: (0, 7),
        taken: (7, 0),
        exchanges: 2,
    }];
    run_anew(&rt, 3, 3, &steps);
}

/// Magazines of each size: two of them and one round more are given, and taken again.
#[test]
fn sizes(rt: HostRuntime) {
    for (size, units, most) in [(3, 3, 7), (7, 7, 15), (15, 15, 31), (31, 31, 63)] {
        let steps = [
            Step::Run {
                given: (0, most),
                taken: NOTHING,
                exchanges: 1,
            },
            Step::Units(units + 1, units),
            Step::Run {
                given: NOTHING,
                taken: (most, 0),
                exchanges: 1,
            },
        ];
        run_anew(&rt, size, size, &steps);
    }
    for size in [0, 1, 2, 4, 6, 8, 14, 16, 30, 32, 63] {
        assert!(rt; !is_magazine_size(size));
    }
}

/// A second run meets an empty magazine in the depot, where the first had to make one.
#[test]
fn empty_magazines_come_back(rt: HostRuntime) {
    let steps = [
        Step::Run {
            given: (0, 7),
            taken: (7, 0),
            exchanges: 2,
        },
        Step::Run {
            given: (10, 17),
            taken: NOTHING,
            exchanges: 1,
        },
        Step::Units(4, 3),
        Step::Run {
            given: NOTHING,
            taken: (17, 10),
            exchanges: 1,
        },
    ];
    run_anew(&rt, 3, 3, &steps);
}

/// A CPU whose magazines are of an old size changes over, with no exchange, as it needs room.
#[test]
fn a_full_cache_changes_over(rt: HostRuntime) {
    let steps = [
        Step::Run {
            given: (0, 6),
            taken: NOTHING,
            exchanges: 0,
        },
        Step::Size(3),
        Step::Run {
            given: (6, 7),
            taken: NOTHING,
            exchanges: 0,
        },
        Step::Size(7),
        Step::Run {
            given: (7, 15),
            taken: NOTHING,
            exchanges: 1,
        },
        Step::Units(8, 7),
        Step::Run {
            given: NOTHING,
            taken: (15, 0),
            exchanges: 1,
        },
    ];
    run_anew(&rt, 3, 7, &steps);
}

/// So does one that has no round to give: it gets none, and is of the depot's size from then on.
#[test]
fn an_empty_cache_changes_over(rt: HostRuntime) {
    run_anew(&rt, 3, 15, &[Step::NoRound, Step::Size(15)]);
}

#[test]
fn working_set(rt: HostRuntime) {
    let steps = [
        Step::Run {
            given: (0, 13),
            taken: NOTHING,
            exchanges: 3,
        },
        Step::Reaps(&[]),
        Step::Tick,
        Step::Run {
            given: NOTHING,
            taken: (13, 8),
            exchanges: 1,
        },
        Step::Reaps(&[2, 1, 0, 5, 4, 3]),
        Step::Takes(8, 6),
        Step::Resize(3, Err(NotGreater)),
        Step::Resize(7, Ok(())),
    ];
    let mut cpu = cache_of(&rt, 3);
    let mut depot = Depot::new(rt.alloc(), 3);
    run(&rt, &mut cpu, &mut depot, &steps);
    change_over(&rt, &mut depot);
    close_depot(&rt, depot);
    close(&rt, cpu);
}

/// After a resize the full magazines of the old size go first, the oldest of them at the start; one
/// of the new size goes once it stood over an interval.
#[test]
fn old_sizes_are_reaped_first(rt: HostRuntime) {
    let first = [
        Step::Run {
            given: (0, 10),
            taken: NOTHING,
            exchanges: 2,
        },
        Step::Resize(7, Ok(())),
    ];
    let second = [
        Step::Run {
            given: (20, 35),
            taken: NOTHING,
            exchanges: 1,
        },
        Step::Units(8, 13),
        Step::Reaps(&[2, 1, 0, 5, 4, 3]),
        Step::Tick,
        Step::Reaps(&[26, 25, 24, 23, 22, 21, 20]),
        Step::Takes(35, 27),
    ];
    let mut old = cache_of(&rt, 3);
    let mut cpu = cache_of(&rt, 7);
    let mut depot = Depot::new(rt.alloc(), 3);
    run(&rt, &mut old, &mut depot, &first);
    run(&rt, &mut cpu, &mut depot, &second);
    take_all(&rt, &mut old, 10, 6);
    close(&rt, old);
    close(&rt, cpu);
    close_depot(&rt, depot);
}

/// An empty cache of size 3 asks a depot of size 7 for a full magazine, before and after it changes
/// over.
fn change_over(rt: &(impl Abort + AllocGlobal), depot: &mut Depot<PlainDeed>) {
    let mut cpu = cache_of(rt, 3);
    assert_eq!(rt; depot.swap_for_full(&mut cpu), Err(FullFault::OldSize(7)));
    let (loaded, previous) = two_empty(rt.alloc(), 7).ok().expect(rt, "memory");
    cpu.change(loaded, previous);
    assert_eq!(rt; depot.swap_for_full(&mut cpu), Err(FullFault::NoneFull));
    close(rt, cpu);
}

/// What a cache is unloaded into is given and taken by itself.
#[test]
fn unloads(rt: HostRuntime) {
    let alloc = rt.alloc();
    let mut cpu = CpuCache::new(alloc, 3).ok().expect(&rt, "memory");
    for base in 0..4 {
        match cpu.give(round(&rt, base)) {
            Ok(()) => {}
            Err(_) => panic!(rt; "no room"),
        }
    }
    let (mut loaded, mut previous) = cpu.unload();
    assert_eq!(rt; loaded.take().map(base), Some(3));
    for wanted in [2, 1, 0] {
        assert_eq!(rt; previous.take().map(base), Some(wanted));
    }
    discard(&rt, loaded);
    discard(&rt, previous);
}

fn discard(rt: &impl Abort, magazine: Magazine<PlainDeed>) {
    match magazine.discard() {
        Ok(()) => {}
        Err(_) => panic!(rt; "the magazine has rounds"),
    }
}

/// Five rounds of four units lie in both magazines: by their number they have as many units as
/// counted one after another.
#[test]
fn alike_rounds(rt: HostRuntime) {
    let mut cpu = cache_of(&rt, 3);
    assert_eq!(rt; cpu.units_alike(), 0);
    for at in 0..5 {
        give_four(&rt, &mut cpu, 4 * at);
    }
    assert_eq!(rt; (cpu.units_alike(), cpu.units()), (20, 20));
    for wanted in [16, 12, 8, 4, 0] {
        assert_eq!(rt; cpu.take().map(base), Some(wanted));
    }
    close(&rt, cpu);
}

/// The round of four units at this base is kept, beside others of four.
fn give_four(rt: &impl Abort, cpu: &mut CpuCache<PlainDeed>, at: u64)
    requires { All (λ t. units_in t.holding ≡ 4) (cache_rounds cpu.old) }
    ensures { All (λ t. units_in t.holding ≡ 4) (cache_rounds cpu.new) }
{
    let range = Range::new(at, 4).expect(rt, "range");
    match cpu.give(Segment::new(1, Route::Cached(4), PlainDeed::new(1, range))) {
        Ok(()) => {}
        Err(_) => panic!(rt; "no room"),
    }
}

/// Each round is kept, or comes back where it is out of memory and is then kept, and each is taken
/// again. So the cache changes over, and its full magazines are exchanged for ones that are made.
#[test]
fn no_round_is_lost(rt: HostRuntime) {
    let alloc = rt.alloc();
    let mut cpu = match CpuCache::new(alloc, 3) {
        Ok(cpu) => cpu,
        Err(_) => CpuCache::new(alloc, 3).ok().expect(&rt, "refused twice"),
    };
    let mut depot = Depot::new(alloc, 7);
    let mut left: u128 = 0;
    for at in 0..20 {
        if !gives_one(&rt, alloc, &mut cpu, &mut depot, at) {
            assert_eq!(rt; cpu.units().saturating_add(depot.units()), left);
            assert!(rt; gives_one(&rt, alloc, &mut cpu, &mut depot, at));
        }
        left = left.saturating_add(1);
        assert_eq!(rt; cpu.units().saturating_add(depot.units()), left);
    }
    for _ in 0..24 {
        if takes_one(&rt, alloc, &mut cpu, &mut depot) {
            left = left.saturating_sub(1);
        }
        assert_eq!(rt; cpu.units().saturating_add(depot.units()), left);
    }
    assert_eq!(rt; left, 0);
    close(&rt, cpu);
    close_depot(&rt, depot);
}

/// Gives the round at this base by a run of its own, and tells whether it is kept.
fn gives_one(
    rt: &impl Abort,
    alloc: Global,
    cpu: &mut CpuCache<PlainDeed>,
    depot: &mut Depot<PlainDeed>,
    at: u64,
) -> bool {
    let Ok(mut ops) = Vec::with_capacity(alloc, 1) else {
        return false;
    };
    ops.push_reserved(RoundOp::Give(round(rt, at)));
    match only_one(rt, alloc, cpu, depot, ops) {
        RoundAnswer::Kept => true,
        RoundAnswer::Refused(round) => {
            assert_eq!(rt; base(round), at);
            false
        }
        _ => panic!(rt; "no answer to a giving"),
    }
}

/// Takes a round by a run of its own, and tells whether there was one.
fn takes_one(
    rt: &impl Abort,
    alloc: Global,
    cpu: &mut CpuCache<PlainDeed>,
    depot: &mut Depot<PlainDeed>,
) -> bool {
    let Ok(mut ops) = Vec::with_capacity(alloc, 1) else {
        return false;
    };
    ops.push_reserved(RoundOp::Take);
    match only_one(rt, alloc, cpu, depot, ops) {
        RoundAnswer::Taken(round) => {
            let _ = base(round);
            true
        }
        RoundAnswer::Nothing => false,
        _ => panic!(rt; "no answer to a taking"),
    }
}

/// Runs one operation. Where its answer is out of memory, what was given comes back.
fn only_one(
    rt: &impl Abort,
    alloc: Global,
    cpu: &mut CpuCache<PlainDeed>,
    depot: &mut Depot<PlainDeed>,
    ops: Vec<RoundOp<PlainDeed>>,
) -> RoundAnswer<PlainDeed> {
    if cpu.size() > depot.size() {
        panic!(rt; "the depot is of an older size")
    }
    match run_rounds(alloc, cpu, depot, ops) {
        Ok(
            RoundRun {
                answers,
                exchanges: _,
            },
        ) => single(rt, answers),
        Err(ops) => match single(rt, ops) {
            RoundOp::Give(round) => RoundAnswer::Refused(round),
            RoundOp::Take => RoundAnswer::Nothing,
        },
    }
}
