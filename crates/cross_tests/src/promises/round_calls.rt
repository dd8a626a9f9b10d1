//! A CPU's cache, its depot, and magazines.
ghost use Rattle.std.specs.Prelude.{◌≡◌, ◌≤◌, ◌++◌, ◌∷◌, ◌↔◌, [], All, IfOk, IsTrue, OnOk, IfSome};
ghost use Rattle.std.specs.Prelude.{length};
ghost use Rattle.std.specs.Prelude.{flat_map, option_to_list};
ghost use Rattle.deed_core.specs.Weights.{Gains, Loses, WeighSame};
ghost use Rattle.magazine_layer.specs.Calls.{PopOf, PushOf, SwapFullOf, SwapEmptyOf, PutFullOf};
ghost use Rattle.magazine_layer.specs.Calls.{ResizeOf, DepotReapOf, ChangeOverOf};
ghost use Rattle.magazine_layer.specs.Depots.{CanReap, IsDepot, both_rounds, depot_rounds};
ghost use Rattle.magazine_layer.specs.Magazines.{AreAmong, BothEmpty, BothFull, IsMagazine};
ghost use Rattle.magazine_layer.specs.Magazines.{IsShaped};
ghost use Rattle.magazine_layer.specs.Magazines.{IsSize};
ghost use Rattle.magazine_layer.specs.Magazines.{cache_rounds};
ghost use Rattle.magazine_layer.specs.Rounds.{rounds_of_answer, rounds_of_op};

use deed_core::{Deed, PlainDeed, Range, Route, Segment};
use magazine_layer::{
    CpuCache, Depot, EmptyFault, FullFault, Magazine, NotGreater, PutFullFault, RoundOp, RoundRun,
    run_rounds, two_empty,
};
use std::alloc::{AllocError, Global};
use std::process::Abort;

/// A round is taken, of those that were there.
fn take<D: Deed>(cpu: &mut CpuCache<D>) -> Option<Segment<D>>
    ensures of { PopOf cpu.old result cpu.new }
    ensures weights { IfSome result (λ x. Loses (cache_rounds cpu.old) (cache_rounds cpu.new) x) }
    ensures kinds { AreAmong (option_to_list result ++ cache_rounds cpu.new)
        (cache_rounds cpu.old) }
    ensures shape { IsShaped cpu.new }
{
    cpu.take()
}

/// A round is given, or is back.
fn give<D: Deed>(cpu: &mut CpuCache<D>, round: Segment<D>) -> Result<(), Segment<D>>
    ensures of { PushOf cpu.old round result cpu.new }
    ensures weights { OnOk result (Gains (cache_rounds cpu.old) (cache_rounds cpu.new) round) }
    ensures kinds { AreAmong (cache_rounds cpu.new) (round ∷ cache_rounds cpu.old) }
    ensures shape { IsShaped cpu.new }
{
    cpu.give(round)
}

/// A full magazine is loaded, or none.
fn load_full<D: Deed>(cpu: &mut CpuCache<D>, depot: &mut Depot<D>) -> Result<(), FullFault>
    requires { BothEmpty cpu.old }
    ensures of { SwapFullOf cpu.old depot.old result cpu.new depot.new }
    ensures weights { WeighSame (both_rounds cpu.old depot.old) (both_rounds cpu.new depot.new) }
    ensures kinds { AreAmong (both_rounds cpu.new depot.new) (both_rounds cpu.old depot.old) }
    ensures sizes { (cpu.new.size ≡ cpu.old.size) × (depot.new.size ≡ depot.old.size) }
    ensures sound { IsShaped cpu.new × IsDepot depot.new }
{
    depot.swap_for_full(cpu)
}

/// An empty magazine is loaded, or none.
fn load_empty<D: Deed>(cpu: &mut CpuCache<D>, depot: &mut Depot<D>) -> Result<(), EmptyFault>
    requires { BothFull cpu.old }
    ensures of { SwapEmptyOf cpu.old depot.old result cpu.new depot.new }
    ensures weights { WeighSame (both_rounds cpu.old depot.old) (both_rounds cpu.new depot.new) }
    ensures kinds { AreAmong (both_rounds cpu.new depot.new) (both_rounds cpu.old depot.old) }
    ensures sizes { (cpu.new.size ≡ cpu.old.size) × (depot.new.size ≡ depot.old.size) }
    ensures sound { IsShaped cpu.new × IsDepot depot.new }
{
    depot.swap_for_empty(cpu)
}

/// A new magazine is loaded, and a full one is the depot's.
fn load_new<D: Deed>(
    cpu: &mut CpuCache<D>,
    depot: &mut Depot<D>,
    magazine: Magazine<D>,
) -> Result<(), PutFullFault<Magazine<D>>>
    requires { BothFull cpu.old }
    ensures of { PutFullOf cpu.old depot.old magazine result cpu.new depot.new }
    ensures kinds { AreAmong (both_rounds cpu.new depot.new)
        (magazine.rounds ++ both_rounds cpu.old depot.old) }
    ensures sizes { (cpu.new.size ≡ cpu.old.size) × (depot.new.size ≡ depot.old.size) }
    ensures sound { IsShaped cpu.new × IsDepot depot.new }
{
    depot.put_full(cpu, magazine)
}

/// Two magazines of a size are new, and the cache's rounds move into them.
fn change<D: Deed>(cpu: &mut CpuCache<D>, alloc: Global, size: usize) -> Result<(), AllocError>
    requires size { IsSize size }
    requires room { length (cache_rounds cpu.old) ≤ size }
    ensures of { ChangeOverOf cpu.old size result cpu.new }
    ensures weights { WeighSame (cache_rounds cpu.old) (cache_rounds cpu.new) }
    ensures kinds { AreAmong (cache_rounds cpu.new) (cache_rounds cpu.old) }
    ensures shape { IsShaped cpu.new }
{
    cpu.change_over(alloc, size)
}

/// A depot of greater magazines.
fn resize<D: Deed>(depot: &mut Depot<D>, size: usize) -> Result<(), NotGreater>
    requires { IsSize size }
    ensures of { ResizeOf depot.old size result depot.new }
    ensures weights { WeighSame (depot_rounds depot.old) (depot_rounds depot.new) }
    ensures kinds { AreAmong (depot_rounds depot.new) (depot_rounds depot.old) }
    ensures sound { IsDepot depot.new }
{
    depot.resize(size)
}

/// A round is reaped, of those that were there.
fn reap<D: Deed>(depot: &mut Depot<D>) -> Option<Segment<D>>
    ensures of { DepotReapOf depot.old result depot.new }
    ensures weights { IfSome result
        (λ x. Loses (depot_rounds depot.old) (depot_rounds depot.new) x) }
    ensures kinds { AreAmong (option_to_list result ++ depot_rounds depot.new)
        (depot_rounds depot.old) }
    ensures sound { (depot.new.size ≡ depot.old.size) × IsDepot depot.new }
{
    depot.reap()
}

/// A run leaves a proper cache and a proper depot, with the rounds that were there or were given.
fn run<D: Deed>(
    alloc: Global,
    cpu: &mut CpuCache<D>,
    depot: &mut Depot<D>,
    ops: Vec<RoundOp<D>>,
) -> Result<RoundRun<D>, Vec<RoundOp<D>>>
    requires { cpu.old.size ≤ depot.old.size }
    ensures kinds { IfOk result (λ r.
        AreAmong (both_rounds cpu.new depot.new ++ flat_map rounds_of_answer r.answers.items)
        (both_rounds cpu.old depot.old ++ flat_map rounds_of_op ops.items)) }
    ensures sizes { (cpu.new.size ≤ depot.new.size) × (depot.new.size ≡ depot.old.size) }
    ensures sound { IsShaped cpu.new × IsDepot depot.new }
{
    run_rounds(alloc, cpu, depot, ops)
}

/// Whatever is so of all rounds is so of them after a swap: here, that they are of one arena.
fn load_full_of_arena<D: Deed>(
    cpu: &mut CpuCache<D>,
    depot: &mut Depot<D>,
    arena: u32,
) -> Result<(), FullFault>
    requires empty { BothEmpty cpu.old }
    requires kind { All (λ t. t.arena ≡ arena) (both_rounds cpu.old depot.old) }
    ensures kind { All (λ t. t.arena ≡ arena) (both_rounds cpu.new depot.new) }
{
    load_full(cpu, depot)
}

fn round(rt: &impl Abort, base: u64) -> Segment<PlainDeed> {
    let range = Range::new(base, 1).expect(rt, "a range");
    Segment::new(1, Route::Cached(1), PlainDeed::new(0, range))
}

fn filled(rt: &impl Abort, cpu: &mut CpuCache<PlainDeed>) {
    for base in 0..6 {
        match give(cpu, round(rt, base)) {
            Ok(()) => {}
            Err(_) => panic!(rt; "room is left"),
        }
    }
    assert!(rt; cpu.is_full() && !cpu.is_empty());
}

fn taken(rt: &impl Abort, cpu: &mut CpuCache<PlainDeed>, wanted: [u64; 3]) {
    for base in wanted {
        match take(cpu) {
            Some(round) => assert_eq!(rt; round.into_deed().close().base(), base),
            None => panic!(rt; "a round is left"),
        }
    }
    assert!(rt; cpu.is_empty() && !cpu.is_full());
}

/// A full cache gets a new magazine of the two, and the depot its full one.
fn stored(
    rt: &impl Abort,
    alloc: Global,
    cpu: &mut CpuCache<PlainDeed>,
    depot: &mut Depot<PlainDeed>,
) {
    assert!(rt; cpu.is_full());
    assert_eq!(rt; load_empty(cpu, depot), Err(EmptyFault::NoneEmpty));
    let (one, other) = two_empty(alloc, 3).ok().expect(rt, "memory");
    assert!(rt; one.is_empty() && !one.is_full());
    assert!(rt; cpu.is_full());
    match load_new(cpu, depot, one) {
        Ok(()) => {}
        Err(_) => panic!(rt; "memory"),
    }
    match other.discard() {
        Ok(()) => {}
        Err(_) => panic!(rt; "it is empty"),
    }
}

/// Each call that moves rounds, once, and the tests that say when they may be made.
#[test]
fn rounds_move(rt: HostRuntime) {
    let alloc = rt.alloc();
    let mut cpu = CpuCache::new(alloc, 3).ok().expect(&rt, "memory");
    let mut depot = Depot::new(alloc, 3);
    assert!(rt; cpu.is_empty() && !cpu.is_full() && !depot.can_reap());
    filled(&rt, &mut cpu);
    stored(&rt, alloc, &mut cpu, &mut depot);
    taken(&rt, &mut cpu, [5, 4, 3]);
    depot.tick();
    assert!(rt; depot.can_reap() && cpu.is_empty());
    assert_eq!(rt; load_full(&mut cpu, &mut depot), Ok(()));
    assert!(rt; !depot.can_reap());
    taken(&rt, &mut cpu, [2, 1, 0]);
    assert!(rt; cpu.is_empty());
    change(&mut cpu, alloc, 7).expect(&rt, "memory");
    assert_eq!(rt; (cpu.size(), resize(&mut depot, 7)), (7, Ok(())));
    match reap(&mut depot) {
        Some(_) => panic!(rt; "no round is left"),
        None => {}
    }
    match (cpu.close(), depot.close()) {
        (Ok(()), Ok(())) => {}
        _ => panic!(rt; "no round is left"),
    }
}

/// Whether a round may be reaped.
fn may_reap<D: Deed>(depot: &Depot<D>) -> bool
    ensures { IsTrue result ↔ CanReap depot.now }
{
    depot.can_reap()
}

/// An interval begins.
fn begin_interval<D: Deed>(depot: &mut Depot<D>)
    ensures { IsDepot depot.new }
{
    depot.tick();
}

/// The two magazines come out with the cache's rounds.
fn unload<D: Deed>(cpu: CpuCache<D>) -> (Magazine<D>, Magazine<D>)
    ensures { AreAmong (result.1.rounds ++ result.0.rounds) (cache_rounds cpu) }
{
    cpu.unload()
}

/// A magazine's last round comes out.
fn take_last<D: Deed>(magazine: &mut Magazine<D>) -> Option<Segment<D>>
    ensures kinds { AreAmong (option_to_list result ++ magazine.new.rounds) magazine.old.rounds }
    ensures shape { IsMagazine magazine.new }
{
    magazine.take()
}
