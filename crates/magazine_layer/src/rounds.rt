//! Runs of giving and taking over one CPU's cache and its depot.
ghost use Rattle.std.specs.Prelude.{◌≡◌, ◌+◌, ◌/◌, ◌≤◌, ◌++◌, IfOk, IfErr, IfSome};
ghost use Rattle.std.specs.Prelude.{IfNone, OnErr, OnSome, flat_map, vec_len};
ghost use Rattle.deed_core.specs.Weights.{WeighSame};
ghost use Rattle.magazine_layer.specs.Magazines.{AreAmong, IsShaped, BothFull};
ghost use Rattle.magazine_layer.specs.Depots.{IsDepot, both_rounds};
ghost use Rattle.magazine_layer.specs.Rounds.{TakesRound, GivesRound, MakesRoom, NeedsMemory};
ghost use Rattle.magazine_layer.specs.Rounds.{StepsRound, RunsRounds, cpu_depot, rounds_of_op};
ghost use Rattle.magazine_layer.specs.Rounds.{rounds_of_answer};

use crate::cpu_caches::CpuCache;
use crate::depots::Depot;
use crate::faults::{EmptyFault, FullFault, PutFullFault};
use crate::magazines::{Magazine, discard_empty};
use deed_core::{Deed, Segment};
use std::alloc::Global;

/// One operation of a run.
pub enum RoundOp<D: Deed> {
    /// Put this round in.
    Give(Segment<D>),
    /// Take a round out.
    Take,
}

/// What an operation gave.
pub enum RoundAnswer<D: Deed> {
    /// The round given is kept.
    Kept,
    /// There was no room for the round given.
    Refused(Segment<D>),
    /// The round taken.
    Taken(Segment<D>),
    /// There was no round to take.
    Nothing,
}

/// What a run gave.
pub struct RoundRun<D: Deed> {
    /// An answer to each operation, in order.
    pub answers: Vec<RoundAnswer<D>>,
    /// How many exchanges with the depot it made.
    pub exchanges: usize,
}

/// What one operation gave.
struct Step<D: Deed> {
    answer: RoundAnswer<D>,
    exchanges: usize,
}

/// Takes a round, of the CPU's cache or of a full magazine of the depot's.
fn take_round<D: Deed>(alloc: Global, cpu: &mut CpuCache<D>, depot: &mut Depot<D>) -> Step<D>
    requires { cpu.old.size ≤ depot.old.size }
    ensures takes { TakesRound (cpu_depot cpu.old depot.old) (cpu_depot cpu.new depot.new)
        result.answer result.exchanges }
    ensures most { result.exchanges ≤ 1 }
    ensures shape { IsShaped cpu.new }
    ensures sizes { cpu.new.size ≤ depot.new.size }
    ensures size { depot.new.size ≡ depot.old.size }
{
    if let Some(segment) = cpu.take() {
        return Step {
            answer: RoundAnswer::Taken(segment),
            exchanges: 0,
        };
    }
    match depot.swap_for_full(cpu) {
        Ok(()) => {
            let Some(segment) = cpu.take() else {
                unreachable!()
            };
            Step {
                answer: RoundAnswer::Taken(segment),
                exchanges: 1,
            }
        }
        Err(FullFault::NoneFull) => Step {
            answer: RoundAnswer::Nothing,
            exchanges: 0,
        },
        Err(FullFault::OldSize(size)) => {
            // Out of memory leaves the cache as it is, and there is no round to take in any case.
            let _ = cpu.change_over(alloc, size);
            Step {
                answer: RoundAnswer::Nothing,
                exchanges: 0,
            }
        }
    }
}

/// Makes room in a CPU's cache whose magazines are both full, and tells the exchanges that it took,
/// unless out of memory.
fn make_room<D: Deed>(alloc: Global, cpu: &mut CpuCache<D>, depot: &mut Depot<D>) -> Option<usize>
    requires full { BothFull cpu.old }
    requires sizes { cpu.old.size ≤ depot.old.size }
    ensures made { IfSome result
        (λ exchanges. MakesRoom (cpu_depot cpu.old depot.old) (cpu_depot cpu.new depot.new)
        exchanges) }
    ensures room { OnSome result (¬ BothFull cpu.new) }
    ensures most { IfSome result (λ exchanges. exchanges ≤ 1) }
    ensures memory { IfNone result (NeedsMemory (cpu_depot cpu.old depot.old)) }
    ensures unchanged { IfNone result (cpu_depot cpu.new depot.new ≡ cpu_depot cpu.old depot.old) }
    ensures shape { IsShaped cpu.new }
    ensures sizes { cpu.new.size ≤ depot.new.size }
    ensures size { depot.new.size ≡ depot.old.size }
{
    match depot.swap_for_empty(cpu) {
        Ok(()) => Some(1),
        Err(EmptyFault::NoneEmpty) => put_new(alloc, cpu, depot),
        Err(EmptyFault::OldSize(size)) => {
            if cpu.change_over(alloc, size).is_err() {
                return None;
            }
            Some(0)
        }
    }
}

/// Makes room by a new magazine, unless out of memory.
fn put_new<D: Deed>(alloc: Global, cpu: &mut CpuCache<D>, depot: &mut Depot<D>) -> Option<usize>
    requires full { BothFull cpu.old }
    requires sizes { cpu.old.size ≡ depot.old.size }
    requires none { depot.old.empty ≡ 0 }
    ensures made { IfSome result
        (λ exchanges. MakesRoom (cpu_depot cpu.old depot.old) (cpu_depot cpu.new depot.new)
        exchanges) }
    ensures room { OnSome result (¬ BothFull cpu.new) }
    ensures most { IfSome result (λ exchanges. exchanges ≤ 1) }
    ensures unchanged { IfNone result (cpu_depot cpu.new depot.new ≡ cpu_depot cpu.old depot.old) }
    ensures shape { IsShaped cpu.new }
    ensures sizes { cpu.new.size ≤ depot.new.size }
    ensures size { depot.new.size ≡ depot.old.size }
{
    let Ok(magazine) = Magazine::new(alloc, depot.size()) else {
        // For its clause: the cache has its shape.
        let _ = cpu.size();
        return None;
    };
    match depot.put_full(cpu, magazine) {
        Ok(()) => Some(1),
        Err(PutFullFault::OldSize(_, magazine) | PutFullFault::NoMemory(magazine)) => {
            discard_empty(magazine);
            None
        }
    }
}

/// Gives a round, to the CPU's cache or once room is made there.
fn give_round<D: Deed>(
    alloc: Global,
    cpu: &mut CpuCache<D>,
    depot: &mut Depot<D>,
    segment: Segment<D>,
) -> Step<D>
    requires { cpu.old.size ≤ depot.old.size }
    ensures gives { GivesRound segment (cpu_depot cpu.old depot.old) (cpu_depot cpu.new depot.new)
        result.answer result.exchanges }
    ensures most { result.exchanges ≤ 1 }
    ensures shape { IsShaped cpu.new }
    ensures sizes { cpu.new.size ≤ depot.new.size }
    ensures size { depot.new.size ≡ depot.old.size }
{
    let Err(segment) = cpu.give(segment) else {
        return Step {
            answer: RoundAnswer::Kept,
            exchanges: 0,
        };
    };
    let Some(exchanges) = make_room(alloc, cpu, depot) else {
        return Step {
            answer: RoundAnswer::Refused(segment),
            exchanges: 0,
        };
    };
    match cpu.give(segment) {
        Ok(()) => {}
        Err(_) => unreachable!(),
    }
    Step {
        answer: RoundAnswer::Kept,
        exchanges,
    }
}

/// Runs one operation.
fn run_one<D: Deed>(
    alloc: Global,
    cpu: &mut CpuCache<D>,
    depot: &mut Depot<D>,
    op: RoundOp<D>,
) -> Step<D>
    requires { cpu.old.size ≤ depot.old.size }
    ensures step { StepsRound op (cpu_depot cpu.old depot.old) (cpu_depot cpu.new depot.new)
        result.answer result.exchanges }
    ensures most { result.exchanges ≤ 1 }
    ensures shape { IsShaped cpu.new }
    ensures sizes { cpu.new.size ≤ depot.new.size }
    ensures size { depot.new.size ≡ depot.old.size }
{
    match op {
        RoundOp::Give(segment) => give_round(alloc, cpu, depot, segment),
        RoundOp::Take => take_round(alloc, cpu, depot),
    }
}

/// Runs operations in order. Each takes a round from the CPU's cache or gives it one, and where the
/// cache is empty or full it first exchanges a magazine with the depot, or changes over to the
/// depot's size. The depot's size is at least the cache's. Where the answers are out of memory, the
/// operations come back.
pub fn run_rounds<D: Deed>(
    alloc: Global,
    cpu: &mut CpuCache<D>,
    depot: &mut Depot<D>,
    ops: Vec<RoundOp<D>>,
) -> Result<RoundRun<D>, Vec<RoundOp<D>>>
    requires { cpu.old.size ≤ depot.old.size }
    // what it does
    ensures run { IfOk result (λ r. RunsRounds (cpu_depot cpu.old depot.old) ops.items
        r.answers.items (cpu_depot cpu.new depot.new) r.exchanges) }
    ensures counts { IfOk result (λ r. (vec_len r.answers ≡ vec_len ops)
        × (r.exchanges ≤ 1 + vec_len ops / depot.old.size)) }
    ensures handed_back { IfErr result (λ back. back ≡ ops) }
    ensures unchanged { OnErr result ((cpu.new ≡ cpu.old) × (depot.new ≡ depot.old)) }
    // what follows
    ensures weights { IfOk result
        (λ r. WeighSame (both_rounds cpu.old depot.old ++ flat_map rounds_of_op ops.items)
        (both_rounds cpu.new depot.new ++ flat_map rounds_of_answer r.answers.items)) }
    ensures kinds { IfOk result
        (λ r. AreAmong (both_rounds cpu.new depot.new ++ flat_map rounds_of_answer r.answers.items)
        (both_rounds cpu.old depot.old ++ flat_map rounds_of_op ops.items)) }
    ensures sizes { (cpu.new.size ≤ depot.new.size) × (depot.new.size ≡ depot.old.size) }
    ensures sound { IsShaped cpu.new × IsDepot depot.new }
{
    // For their clauses: the cache has its shape, and the depot's size is one of the four.
    let _ = cpu.size();
    let _ = depot.size();
    let Ok(answers) = Vec::with_capacity(alloc, ops.len()) else {
        return Err(ops);
    };
    let mut run = RoundRun {
        answers,
        exchanges: 0,
    };
    let mut rest = ops.into_iter();
    while let Some(op) = rest.next() {
        let Step { answer, exchanges } = run_one(alloc, cpu, depot, op);
        run.answers.push_reserved(answer);
        run.exchanges += exchanges;
    }
    rest.destroy_empty();
    // For its clause: the depot is sound.
    let _ = depot.size();
    Ok(run)
}
