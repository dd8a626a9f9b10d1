//! What is done with a CPU's cache and its depot, step by step. A round is told by its base.
ghost use Rattle.std.specs.Prelude.{◌≡◌, []};
ghost use Rattle.magazine_layer.specs.Magazines.{IsSize};

use deed_core::{PlainDeed, Range, Route, Segment};
use magazine_layer::{
    CpuCache, Depot, NotGreater, RoundAnswer, RoundOp, RoundRun, is_magazine_size, run_rounds,
};
use std::alloc::AllocGlobal;
use std::process::Abort;

/// What is done with a CPU's cache and its depot, and what must come of it.
#[derive(Clone, Copy)]
pub(super) enum Step {
    /// One run: the rounds from the first base of `given` to below the second are kept, and those
    /// below the first base of `taken` come, down to the second.
    Run {
        given: (u64, u64),
        taken: (u64, u64),
        exchanges: usize,
    },
    /// A run of one taking, which finds no round and exchanges nothing.
    NoRound,
    /// The units of the cache's rounds, and of the depot's.
    Units(u128, u128),
    /// The size of the cache's magazines.
    Size(usize),
    /// The depot's interval ends.
    Tick,
    /// What the depot answers to a new size.
    Resize(usize, Result<(), NotGreater>),
    /// The depot gives these rounds up, and then no more.
    Reaps(&'static [u64]),
    /// The cache alone gives the rounds below the first base, down to the second.
    Takes(u64, u64),
}

pub(super) const NOTHING: (u64, u64) = (0, 0);

/// The round of one unit at `base`.
pub(super) fn round(rt: &impl Abort, base: u64) -> Segment<PlainDeed> {
    let range = Range::new(base, 1).expect(rt, "range");
    Segment::new(1, Route::Cached(1), PlainDeed::new(1, range))
}

/// Where a round stands, and its end.
pub(super) fn base(round: Segment<PlainDeed>) -> u64 {
    round.into_deed().close().base()
}

/// Gives the rounds of the bases from the first to below the second, and then takes as many as
/// those lie between the other two.
fn ops(
    rt: &(impl Abort + AllocGlobal),
    given: (u64, u64),
    taken: (u64, u64),
) -> Vec<RoundOp<PlainDeed>> {
    let mut ops = Vec::new(rt.alloc());
    for base in given.0..given.1 {
        push(rt, &mut ops, RoundOp::Give(round(rt, base)));
    }
    for _ in taken.1..taken.0 {
        push(rt, &mut ops, RoundOp::Take);
    }
    ops
}

fn push(rt: &impl Abort, ops: &mut Vec<RoundOp<PlainDeed>>, op: RoundOp<PlainDeed>) {
    match ops.push(op) {
        Ok(()) => {}
        Err(_) => panic!(rt; "memory"),
    }
}

/// The answers to a run of these operations, and its exchanges.
fn answers_of(
    rt: &(impl Abort + AllocGlobal),
    cpu: &mut CpuCache<PlainDeed>,
    depot: &mut Depot<PlainDeed>,
    ops: Vec<RoundOp<PlainDeed>>,
) -> RoundRun<PlainDeed> {
    if cpu.size() > depot.size() {
        panic!(rt; "the depot is of an older size")
    }
    match run_rounds(rt.alloc(), cpu, depot, ops) {
        Ok(run) => run,
        Err(_) => panic!(rt; "memory"),
    }
}

/// Each round given is kept, and these are taken. It tells the exchanges.
fn run_ops(
    rt: &(impl Abort + AllocGlobal),
    cpu: &mut CpuCache<PlainDeed>,
    depot: &mut Depot<PlainDeed>,
    given: (u64, u64),
    taken: (u64, u64),
) -> usize {
    let RoundRun { answers, exchanges } = answers_of(rt, cpu, depot, ops(rt, given, taken));
    keep_and_take(rt, answers, given, taken);
    exchanges
}

/// Each round given is kept, and these are taken.
fn keep_and_take(
    rt: &impl Abort,
    answers: Vec<RoundAnswer<PlainDeed>>,
    given: (u64, u64),
    taken: (u64, u64),
) {
    let mut answers = answers.into_iter();
    for _ in given.0..given.1 {
        match answers.next() {
            Some(RoundAnswer::Kept) => {}
            _ => panic!(rt; "a round is kept"),
        }
    }
    for wanted in (taken.1..taken.0).rev() {
        match answers.next() {
            Some(RoundAnswer::Taken(round)) => assert_eq!(rt; base(round), wanted),
            _ => panic!(rt; "a round is taken"),
        }
    }
    if answers.len() != 0 {
        panic!(rt; "more answers than operations")
    }
    answers.destroy_empty();
}

/// A taking finds no round.
fn find_none(
    rt: &(impl Abort + AllocGlobal),
    cpu: &mut CpuCache<PlainDeed>,
    depot: &mut Depot<PlainDeed>,
) {
    let RoundRun { answers, exchanges } = answers_of(rt, cpu, depot, ops(rt, NOTHING, (1, 0)));
    assert_eq!(rt; exchanges, 0);
    match single(rt, answers) {
        RoundAnswer::Nothing => {}
        _ => panic!(rt; "a round from nowhere"),
    }
}

/// The depot gives these rounds up, and then none.
fn reap_all(rt: &impl Abort, depot: &mut Depot<PlainDeed>, bases: &[u64]) {
    for wanted in bases {
        assert_eq!(rt; depot.reap().map(base), Some(*wanted));
    }
    match depot.reap() {
        None => {}
        Some(_round) => panic!(rt; "no more is reaped"),
    }
}

/// The cache gives these rounds.
pub(super) fn take_all(rt: &impl Abort, cpu: &mut CpuCache<PlainDeed>, above: u64, last: u64) {
    for wanted in (last..above).rev() {
        assert_eq!(rt; cpu.take().map(base), Some(wanted));
    }
}

fn take_step(
    rt: &(impl Abort + AllocGlobal),
    cpu: &mut CpuCache<PlainDeed>,
    depot: &mut Depot<PlainDeed>,
    step: Step,
) {
    match step {
        Step::Run {
            given,
            taken,
            exchanges,
        } => {
            let made = run_ops(rt, cpu, depot, given, taken);
            assert_eq!(rt; made, exchanges);
        }
        Step::NoRound => find_none(rt, cpu, depot),
        Step::Units(cached, shared) => {
            assert_eq!(rt; (cpu.units(), depot.units()), (cached, shared));
        }
        Step::Size(size) => assert_eq!(rt; cpu.size(), size),
        Step::Tick => depot.tick(),
        Step::Resize(size, answer) => {
            assert!(rt; is_magazine_size(size));
            assert_eq!(rt; depot.resize(size), answer);
        }
        Step::Reaps(bases) => reap_all(rt, depot, bases),
        Step::Takes(above, last) => take_all(rt, cpu, above, last),
    }
}

pub(super) fn run(
    rt: &(impl Abort + AllocGlobal),
    cpu: &mut CpuCache<PlainDeed>,
    depot: &mut Depot<PlainDeed>,
    steps: &[Step],
) {
    for &step in steps {
        take_step(rt, cpu, depot, step);
    }
}

pub(super) fn cache_of(rt: &(impl Abort + AllocGlobal), size: usize) -> CpuCache<PlainDeed>
    requires { IsSize size }
    ensures { result ≡ record { size = size; loaded = []; previous = [] } }
{
    CpuCache::new(rt.alloc(), size).ok().expect(rt, "memory")
}

/// Takes the steps with a new cache and a new depot of these sizes, which have no round at the end.
pub(super) fn run_anew(
    rt: &(impl Abort + AllocGlobal),
    cached: usize,
    shared: usize,
    steps: &[Step],
) {
    assert!(rt; is_magazine_size(cached) && is_magazine_size(shared));
    let mut cpu = cache_of(rt, cached);
    let mut depot = Depot::new(rt.alloc(), shared);
    run(rt, &mut cpu, &mut depot, steps);
    close(rt, cpu);
    close_depot(rt, depot);
}

/// Ends a cache that has no round.
pub(super) fn close(rt: &impl Abort, cpu: CpuCache<PlainDeed>) {
    match cpu.close() {
        Ok(()) => {}
        Err(_) => panic!(rt; "the cache has rounds"),
    }
}

/// Ends a depot that has no round.
pub(super) fn close_depot(rt: &impl Abort, depot: Depot<PlainDeed>) {
    match depot.close() {
        Ok(()) => {}
        Err(_) => panic!(rt; "the depot has rounds"),
    }
}

/// The only member of a list.
pub(super) fn single<T>(rt: &impl Abort, mut items: Vec<T>) -> T {
    let Some(item) = items.pop() else {
        panic!(rt; "none")
    };
    if !items.is_empty() {
        panic!(rt; "more than one")
    }
    items.destroy_empty();
    item
}
