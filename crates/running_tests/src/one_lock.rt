//! Each event of a shared part takes the lock of that part, and no other: it is answered while the
//! locks of other parts are held. An event that took one of these would wait forever.
ghost use Rattle.std.specs.Prelude.{◌≡◌, ◌<◌, ◌≤◌, ◌%◌, Some, length};
ghost use Rattle.deed_core.specs.Request.{plain_of, rounding_of};
ghost use Rattle.arena_tree.specs.Chains.{IsGrant, quantum_in, source_of};
ghost use Rattle.arena_tree.specs.Trees.{nodes_of};

use crate::systems::{child, root, stuck};
use arena_tree::{GrowFault, PartFault, Parts, Setup, Stopped, Tree};
use deed_core::{Range, Request, Route, Segment};
use deed_table::{Ground, Name, Root, SeatDeed, close};
use locked_parts::{
    Cause, LockedParts, Misplaced, NewArena, OpenGate, OwnCache, PartName, Running, Said,
    end_rounds, new_rounds,
};
use std::alloc::AllocGlobal;
use std::marker::Brand;
use std::mem;
use std::process::Abort;
use std::sync::Wait;
use std::test::Fail;
use tag_arena::{ArenaFault, Policy};

/// The magazines of the CPU that asks.
type Rounds<N> = Vec<OwnCache<SeatDeed<N>>>;

/// Each event of a shared part takes that part's lock, and no other.
#[test]
fn one_lock_an_event(rt: HostRuntime) -> Result<(), Fail> {
    let mut setup = Setup::new(rt.alloc());
    root(&rt, &mut setup, "d", 0, 64, Policy::Best, 5);
    child(&rt, &mut setup, "e", "d");
    events_of::<Brand, _>(&rt, Ground::new(rt.alloc())?, setup);
    Ok(())
}

/// The events of the arenas, those of the first one's slabs, and those of its depots; then those of
/// parts that aren't where they were set up.
fn events_of<N: Name, R: Abort + Wait + AllocGlobal>(rt: &R, ground: Ground, setup: Setup)
    requires { ground ≡ N.table }
{
    let (parts, roots) = made::<N, R>(rt, ground, setup);
    let Ok(mut caches) = new_rounds(rt.alloc(), parts.tree()) else {
        stuck(rt, (parts, roots))
    };
    of_arenas(rt, &parts, &mut caches);
    of_slabs(rt, &parts, &mut caches);
    of_depot(rt, &parts, &mut caches);
    close_all(rt, &parts, roots);
    end(rt, parts, &mut caches);
    if !caches.iter().all(|own| own.is_empty()) {
        stuck(rt, caches)
    }
    end_rounds(caches);
}

/// Ends the parts, of which none was missed before.
fn end<N: Name, R: Abort + Wait + AllocGlobal>(
    rt: &R,
    mut parts: LockedParts<N>,
    caches: &mut Rounds<N>,
)
    requires { 0 < length parts.arenas }
{
    none_missed(rt, &parts);
    of_moved(rt, &parts, caches);
    if parts.end_arenas().is_err() {
        stuck(rt, parts)
    }
    of_none(rt, &parts, caches);
    parts.end();
}

/// No part was missed until now.
fn none_missed<N: Name, R: Abort + Wait>(rt: &R, parts: &LockedParts<N>) {
    assert!(rt; parts.look(rt).is_ok());
}

/// The parts of a setup of two arenas, the first of which alone owns spans, and its roots.
fn made<N: Name, R: Abort + AllocGlobal>(
    rt: &R,
    ground: Ground,
    setup: Setup,
) -> (LockedParts<N>, Vec<Root<N>>)
    requires { ground ≡ N.table }
    ensures { length result.0.arenas ≡ 2 }
{
    assert!(rt; setup.tree().len() == 2);
    let mut numbers = ground.start();
    let Ok(first) = NewArena::<N>::open(rt.alloc(), setup.tree(), 0, setup.spans(), &mut numbers)
    else {
        panic!(rt; "memory")
    };
    let Ok(second) = NewArena::<N>::open(rt.alloc(), setup.tree(), 1, setup.spans(), &mut numbers)
    else {
        stuck(rt, first)
    };
    let Ok(mut arenas) = Vec::with_capacity(rt.alloc(), 2) else {
        stuck(rt, (first, second))
    };
    let (locked, roots) = first.lock();
    arenas.push_reserved(locked);
    let (locked, none) = second.lock();
    arenas.push_reserved(locked);
    if !none.is_empty() {
        stuck(rt, (arenas, roots, none))
    }
    none.destroy_empty();
    let parts = LockedParts::new(rt.alloc(), setup.into_tree(), arenas);
    (parts, roots)
}

/// Closes the first arena's roots, those that it was made with and those that were opened since.
fn close_all<N: Name, R: Abort + Wait>(rt: &R, parts: &LockedParts<N>, mut roots: Vec<Root<N>>) {
    let Ok(_) = parts.hand_over(rt, 0, &mut roots) else {
        stuck(rt, roots)
    };
    while !roots.is_empty() {
        let root = roots.remove(0);
        let Ok(taken) = parts.remove_owned(rt, 0) else {
            stuck(rt, (root, roots))
        };
        match close(root, taken.into_deed()) {
            Ok(_) => {}
            Err(held) => stuck(rt, (held, roots)),
        }
    }
    roots.destroy_empty();
}

/// A segment that the first arena carved.
fn carved<N: Name, R: Abort + Wait>(
    rt: &R,
    parts: &LockedParts<N>,
    caches: &mut Rounds<N>,
) -> Segment<SeatDeed<N>>
    requires { 0 < length parts.now.arenas }
    ensures { IsGrant (nodes_of parts.now.arenas) 0 (plain_of 16) result }
{
    let mut cpu = Running::new(parts, rt, &OpenGate, 0, caches);
    match cpu.carve(0, &Request::plain(16)) {
        Ok(segment) => segment,
        Err(_) => panic!(rt; "no segment"),
    }
}

/// Frees a segment of either arena, and gives the span that this made whole.
fn freed<N: Name, R: Abort + Wait>(
    rt: &R,
    parts: &LockedParts<N>,
    caches: &mut Rounds<N>,
    segment: Segment<SeatDeed<N>>,
) -> Option<Segment<SeatDeed<N>>> {
    let mut cpu = Running::new(parts, rt, &OpenGate, 0, caches);
    match cpu.free(segment) {
        Ok(whole) => whole,
        Err(fault) => stuck(rt, fault),
    }
}

/// The part gave no segment.
fn none_came<X, R: Abort>(rt: &R, given: Result<Option<X>, Stopped>) {
    match given {
        Ok(None) => {}
        Ok(Some(segment)) => stuck(rt, segment),
        Err(Stopped) => panic!(rt; "stopped"),
    }
}

/// Frees a segment of the first arena, which makes no span whole.
fn freed_alone<N: Name, R: Abort + Wait>(
    rt: &R,
    parts: &LockedParts<N>,
    caches: &mut Rounds<N>,
    segment: Segment<SeatDeed<N>>,
) {
    match freed(rt, parts, caches, segment) {
        None => {}
        Some(other) => stuck(rt, other),
    }
}

/// The first arena lends a span to the second, and grows by a range beside its own.
fn of_arenas<N: Name, R: Abort + Wait>(rt: &R, parts: &LockedParts<N>, caches: &mut Rounds<N>)
    requires { length parts.now.arenas ≡ 2 }
{
    let (Ok(_slabs), Ok(_depot)) = (
        parts.reach_slabs(rt, None, 0, 1),
        parts.reach_depot(rt, None, 0, 1),
    ) else {
        panic!(rt; "no cache")
    };
    let span = carved(rt, parts, caches);
    let back = through_child(rt, parts, caches, span);
    freed_alone(rt, parts, caches, back);
    grows(rt, parts);
}

/// A range that overlaps the first arena's own is refused, and one beside it isn't.
fn grows<N: Name, R: Abort + Wait>(rt: &R, parts: &LockedParts<N>) {
    let over = Range::new(60, 8).expect(rt, "a range");
    let refused = parts.grow(rt, 0, over);
    assert!(rt; refused.is_err_and(|why| why.fault() == Some(GrowFault::Overlaps)));
    let beside = Range::new(64, 8).expect(rt, "a range");
    assert!(rt; parts.grow(rt, 0, beside).is_ok());
}

/// The second arena adds the span and carves of it, while the first one's lock is held too. What it
/// carved goes back, and the span is whole again.
fn through_child<N: Name, R: Abort + Wait>(
    rt: &R,
    parts: &LockedParts<N>,
    caches: &mut Rounds<N>,
    span: Segment<SeatDeed<N>>,
) -> Segment<SeatDeed<N>>
    requires count { length parts.now.arenas ≡ 2 }
    requires direct { span.route ≡ Route.Direct }
{
    let (Ok(_source), Ok(_slabs), Ok(_depot)) = (
        parts.reach_arena(rt, None, 0),
        parts.reach_slabs(rt, None, 1, 1),
        parts.reach_depot(rt, None, 1, 1),
    ) else {
        stuck(rt, span)
    };
    let segment = added(rt, parts, caches, span);
    match freed(rt, parts, caches, segment) {
        Some(whole) => whole,
        None => panic!(rt; "no span"),
    }
}

/// What the second arena carves of a span of the first.
fn added<N: Name, R: Abort + Wait>(
    rt: &R,
    parts: &LockedParts<N>,
    caches: &mut Rounds<N>,
    span: Segment<SeatDeed<N>>,
) -> Segment<SeatDeed<N>>
    requires count { length parts.now.arenas ≡ 2 }
    requires direct { span.route ≡ Route.Direct }
{
    check_import(rt, parts.tree(), span.arena(), span.range().len());
    let mut cpu = Running::new(parts, rt, &OpenGate, 0, caches);
    match cpu.add_carve(1, span, 16) {
        Ok(segment) => segment,
        held => stuck(rt, held),
    }
}

/// The second arena imports from this one, and has room for 16 units in so many.
#[tactic(auto, using(crate::proofs::Stands::second_source))]
fn check_import(rt: &impl Abort, tree: &Tree, source: u32, len: u64)
    requires { length tree.now ≡ 2 }
    ensures source { source_of (nodes_of tree.now) 1 ≡ Some source }
    ensures room { rounding_of (quantum_in (nodes_of tree.now) 1) 16 ≤ len }
{
    assert!(rt; tree.arena(1).source == Some(source));
    assert!(rt; tree.quantum(1) == 1);
    assert!(rt; len >= 16);
}

/// The events of the slabs of the first arena's first cache.
fn of_slabs<N: Name, R: Abort + Wait>(rt: &R, parts: &LockedParts<N>, caches: &mut Rounds<N>)
    requires { length parts.now.arenas ≡ 2 }
{
    let span = carved(rt, parts, caches);
    let back = through_slabs(rt, parts, caches, span);
    freed_alone(rt, parts, caches, back);
}

/// The span is a slab's, one chunk of which goes out and back twice, and comes back then.
fn through_slabs<N: Name, R: Abort + Wait>(
    rt: &R,
    parts: &LockedParts<N>,
    caches: &mut Rounds<N>,
    span: Segment<SeatDeed<N>>,
) -> Segment<SeatDeed<N>>
    requires within { 0 < length parts.now.arenas }
    requires of_arena { span.arena ≡ 0 }
    requires direct { span.route ≡ Route.Direct }
    requires grid { span.holding.range.base % quantum_in (nodes_of parts.now.arenas) 0 ≡ 0 }
{
    let (Ok(_arena), Ok(_depot)) = (
        parts.reach_arena(rt, None, 0),
        parts.reach_depot(rt, None, 0, 1),
    ) else {
        stuck(rt, span)
    };
    let chunk = slab_made(rt, parts, caches, span);
    put(rt, parts, caches, chunk);
    let chunk = taken(rt, parts, caches);
    put(rt, parts, caches, chunk);
    let mut cpu = Running::new(parts, rt, &OpenGate, 0, caches);
    match cpu.slab_reap(0, 1) {
        Ok(Some(span)) => span,
        held => stuck(rt, held),
    }
}

/// The first chunk of a slab that is made of a span of the first arena.
fn slab_made<N: Name, R: Abort + Wait>(
    rt: &R,
    parts: &LockedParts<N>,
    caches: &mut Rounds<N>,
    span: Segment<SeatDeed<N>>,
) -> Segment<SeatDeed<N>>
    requires within { 0 < length parts.now.arenas }
    requires of_arena { span.arena ≡ 0 }
    requires direct { span.route ≡ Route.Direct }
    requires grid { span.holding.range.base % quantum_in (nodes_of parts.now.arenas) 0 ≡ 0 }
{
    let mut cpu = Running::new(parts, rt, &OpenGate, 0, caches);
    match cpu.slab_add(0, 1, span) {
        Ok(chunk) => chunk,
        held => stuck(rt, held),
    }
}

/// A chunk of a slab.
fn taken<N: Name, R: Abort + Wait>(
    rt: &R,
    parts: &LockedParts<N>,
    caches: &mut Rounds<N>,
) -> Segment<SeatDeed<N>> {
    let mut cpu = Running::new(parts, rt, &OpenGate, 0, caches);
    match cpu.slab_take(0, 1) {
        Ok(Some(chunk)) => chunk,
        held => stuck(rt, held),
    }
}

/// Puts the chunk back.
fn put<N: Name, R: Abort + Wait>(
    rt: &R,
    parts: &LockedParts<N>,
    caches: &mut Rounds<N>,
    chunk: Segment<SeatDeed<N>>,
) {
    let mut cpu = Running::new(parts, rt, &OpenGate, 0, caches);
    match cpu.slab_put(chunk) {
        Ok(()) => {}
        held => stuck(rt, held),
    }
}

/// A depot with no magazine, and a CPU with two empty ones.
fn of_depot<N: Name, R: Abort + Wait>(rt: &R, parts: &LockedParts<N>, caches: &mut Rounds<N>) {
    let (Ok(_arena), Ok(_slabs)) = (
        parts.reach_arena(rt, None, 0),
        parts.reach_slabs(rt, None, 0, 1),
    ) else {
        panic!(rt; "no cache")
    };
    swaps_nothing(rt, parts, caches);
    let mut cpu = Running::new(parts, rt, &OpenGate, 0, caches);
    none_came(rt, cpu.depot_reap(0, 1));
    let _ = parts.tick(rt);
    assert!(rt; parts.resize(rt, 0, 7).rose());
}

/// No exchange with that depot comes about.
fn swaps_nothing<N: Name, R: Abort + Wait>(rt: &R, parts: &LockedParts<N>, caches: &mut Rounds<N>) {
    let mut cpu = Running::new(parts, rt, &OpenGate, 0, caches);
    assert!(rt; cpu.swap_full(0, 1).is_err());
    assert!(rt; cpu.swap_empty(0, 1).is_err());
    assert!(rt; cpu.swap_fresh(0, 1).is_err());
}

/// The slabs of the first arena's first two caches change places under their locks, which no
/// contract forbids.
fn change_slabs<N: Name, R: Abort + Wait>(rt: &R, parts: &LockedParts<N>) {
    let (Ok((_, mut one)), Ok((_, mut other))) = (
        parts.reach_slabs(rt, None, 0, 1),
        parts.reach_slabs(rt, None, 0, 2),
    ) else {
        panic!(rt; "no slabs")
    };
    mem::swap(&mut *one, &mut *other);
}

/// So do their depots.
fn change_depots<N: Name, R: Abort + Wait>(rt: &R, parts: &LockedParts<N>) {
    let (Ok(mut one), Ok(mut other)) = (
        parts.reach_depot(rt, None, 0, 1),
        parts.reach_depot(rt, None, 0, 2),
    ) else {
        panic!(rt; "no depots")
    };
    mem::swap(&mut *one, &mut *other);
}

/// And so do the two arenas.
fn change_arenas<N: Name, R: Abort + Wait>(rt: &R, parts: &LockedParts<N>) {
    let (Ok(mut one), Ok(mut other)) = (
        parts.reach_arena(rt, None, 0),
        parts.reach_arena(rt, None, 1),
    ) else {
        panic!(rt; "no arenas")
    };
    mem::swap(&mut *one, &mut *other);
}

/// The part that was missed where one was asked.
fn missed<R: Abort>(rt: &R, said: Said) -> Misplaced {
    match said {
        Said::Missing(misplaced) => misplaced,
        _ => panic!(rt; "another answer"),
    }
}

/// No chunk comes of the slabs of the cache with this number, which are missed.
fn take_missed<N: Name, R: Abort + Wait>(
    rt: &R,
    parts: &LockedParts<N>,
    caches: &mut Rounds<N>,
    cache: u8,
) -> Misplaced {
    let mut cpu = Running::new(parts, rt, &OpenGate, 0, caches);
    none_came(rt, cpu.slab_take(0, cache));
    missed(rt, cpu.said)
}

/// No round comes of the depot of the first cache, which is missed.
fn reap_missed<N: Name, R: Abort + Wait>(
    rt: &R,
    parts: &LockedParts<N>,
    caches: &mut Rounds<N>,
) -> Misplaced {
    let mut cpu = Running::new(parts, rt, &OpenGate, 0, caches);
    none_came(rt, cpu.depot_reap(0, 1));
    missed(rt, cpu.said)
}

/// No segment is carved in the first arena, which is missed for this cause.
fn carve_missed<N: Name, R: Abort + Wait>(
    rt: &R,
    parts: &LockedParts<N>,
    caches: &mut Rounds<N>,
    cause: Cause,
)
    requires { 0 < length parts.now.arenas }
{
    let mut cpu = Running::new(parts, rt, &OpenGate, 0, caches);
    match cpu.carve(0, &Request::plain(16)) {
        Ok(segment) => stuck(rt, segment),
        Err(fault) => assert!(rt; fault == PartFault::Refused(ArenaFault::NoMemory)),
    }
    let misplaced = missed(rt, cpu.said);
    assert!(rt; misplaced.part() == PartName::Arena(0) && misplaced.cause() == cause);
}

/// The first part that was missed is kept: the slabs of the first arena's second cache.
fn first_is_kept<N: Name, R: Abort + Wait>(rt: &R, parts: &LockedParts<N>) {
    let kept = parts.look(rt);
    assert!(rt; kept.is_err_and(|first| first.part() == PartName::Slabs(0, 2)));
}

/// Then none is where it was set up, and the first that is sought is kept.
fn of_moved<N: Name, R: Abort + Wait + AllocGlobal>(
    rt: &R,
    parts: &LockedParts<N>,
    caches: &mut Rounds<N>,
)
    requires { 0 < length parts.now.arenas }
{
    change_slabs(rt, parts);
    change_depots(rt, parts);
    change_arenas(rt, parts);
    let misplaced = take_missed(rt, parts, caches, 2);
    let text = format!(in rt.alloc(); "{misplaced}").expect(rt, "room");
    assert!(rt;
        text.as_str() == "misplaced: the slabs of cache 2 of arena number 0: another lies there"
    );
    let misplaced = reap_missed(rt, parts, caches);
    assert!(rt; misplaced.part() == PartName::Depot(0, 1) && misplaced.cause() == Cause::Other);
    carve_missed(rt, parts, caches, Cause::Other);
    first_is_kept(rt, parts);
}

/// An arena that is ended isn't where it was set up; the first part that was missed is kept.
fn of_none<N: Name, R: Abort + Wait>(rt: &R, parts: &LockedParts<N>, caches: &mut Rounds<N>)
    requires { 0 < length parts.now.arenas }
{
    let _ = take_missed(rt, parts, caches, 1);
    carve_missed(rt, parts, caches, Cause::None);
    let beside = Range::new(64, 8).expect(rt, "a range");
    let refused = parts.grow(rt, 0, beside);
    assert!(rt; refused.is_err_and(|why| why.fault().is_none()));
    first_is_kept(rt, parts);
}
