//! An arena over the deeds of running threads.
ghost use Rattle.std.specs.Prelude.{◌≡◌};

use deed_core::{Deed, Range, Request, Segment};
use deed_table::{Ground, Name, Opener, Root, Roots, SeatDeed, close};
use std::alloc::{AllocError, Global};
use std::marker::Brand;
use std::process::Abort;
use std::test::*;
use tag_arena::{Arena, Policy};

/// Three segments of a root of twelve units, freed in an order that leaves each a neighbor to merge
/// with: all twelve are one range again, and the deed of the whole closes its root.
#[test]
fn frees_leave_one_range(rt: HostRuntime) -> Result<(), Fail> {
    carved_and_closed::<Brand, _>(&rt, rt.alloc(), Ground::new(rt.alloc())?)
}

fn carved_and_closed<N: Name, R: Abort>(rt: &R, alloc: Global, ground: Ground) -> Result<(), Fail>
    requires { ground ≡ N.table }
{
    let whole = Range::new(0, 12).expect(rt, "a range");
    let mut opener: Opener<N> = ground.start();
    let (root, deed) = opener.open_root(whole).expect(rt, "memory");
    let mut arena: Arena<SeatDeed<N>> = Arena::new(alloc, 0, 1, Policy::Instant);
    match arena.add_span(deed) {
        Ok(()) => {}
        Err(back) => stuck(rt, back),
    }
    let first = carved(rt, &mut arena, 4, 0);
    let second = carved(rt, &mut arena, 4, 4);
    let third = carved(rt, &mut arena, 4, 8);
    freed(rt, &mut arena, first);
    freed(rt, &mut arena, third);
    freed(rt, &mut arena, second);
    let all = carved(rt, &mut arena, 12, 0);
    freed(rt, &mut arena, all);
    let deed = match arena.remove_owned() {
        Some(deed) => deed,
        None => panic!(rt; "a unit is missing"),
    };
    match arena.close() {
        Ok(()) => {}
        Err(arena) => stuck(rt, arena),
    }
    match close(root, deed) {
        Ok(range) => assert!(rt; range == whole),
        Err(both) => stuck(rt, both),
    }
    Ok(())
}

/// Ranges that come one after another are roots of their own, and the deeds of the spans close
/// them.
#[test]
fn spans_are_roots(rt: HostRuntime) -> Result<(), Fail> {
    grown_and_closed::<Brand, _>(&rt, rt.alloc(), Ground::new(rt.alloc())?)
}

fn grown_and_closed<N: Name, R: Abort>(rt: &R, alloc: Global, ground: Ground) -> Result<(), Fail>
    requires { ground ≡ N.table }
{
    let mut roots: Roots<N> = Roots::new(alloc, ground.start());
    let mut arena: Arena<SeatDeed<N>> = Arena::new(alloc, 0, 1, Policy::Best);
    grown(rt, &mut arena, &mut roots, 8, 4);
    grown(rt, &mut arena, &mut roots, 0, 8);
    let second = carved(rt, &mut arena, 8, 0);
    let first = carved(rt, &mut arena, 4, 8);
    freed(rt, &mut arena, first);
    freed(rt, &mut arena, second);
    let mut told = Vec::new(alloc);
    roots.hand_over(&mut told).expect(rt, "memory");
    roots.end();
    end_span(rt, &mut arena, &mut told, 1, 0, 8);
    end_span(rt, &mut arena, &mut told, 0, 8, 4);
    assert!(rt; told.is_empty());
    told.destroy_empty();
    match arena.close() {
        Ok(()) => Ok(()),
        Err(arena) => stuck(rt, arena),
    }
}

/// Opens the range as a root of the arena.
fn grown<N: Name, R: Abort>(
    rt: &R,
    arena: &mut Arena<SeatDeed<N>>,
    roots: &mut Roots<N>,
    base: u64,
    len: u64,
) {
    let range = Range::new(base, len).expect(rt, "a range");
    assert!(rt; roots.left() > 0);
    match arena.admits(&range) {
        Ok(()) => {}
        Err(fault) => panic!(rt; "{fault}"),
    }
    arena.grow(range, roots).expect(rt, "memory");
}

/// Closes the last of the roots, which must be the one of this number, by the lowest span, which
/// must be its whole range.
fn end_span<N: Name, R: Abort>(
    rt: &R,
    arena: &mut Arena<SeatDeed<N>>,
    told: &mut Vec<Root<N>>,
    number: u32,
    base: u64,
    len: u64,
) {
    let root = told.pop().expect(rt, "a root");
    let deed = arena.remove_owned().expect(rt, "a whole span");
    assert_eq!(rt; (root.number(), deed.root()), (number, number));
    match close(root, deed) {
        Ok(range) => assert_eq!(rt; (range.base(), range.len()), (base, len)),
        Err(both) => stuck(rt, both),
    }
}

fn carved<D: Deed, R: Abort>(rt: &R, arena: &mut Arena<D>, size: u64, base: u64) -> Segment<D> {
    let segment = match arena.xalloc(&Request::plain(size)) {
        Ok(segment) => segment,
        Err(fault) => panic!(rt; "{fault}"),
    };
    assert_eq!(rt;
        (segment.range().base(), segment.range().len()),
        (base, size)
    );
    segment
}

fn freed<D: Deed, R: Abort>(rt: &R, arena: &mut Arena<D>, segment: Segment<D>) {
    match arena.free(segment) {
        Ok(None) => {}
        Ok(Some(span)) => stuck(rt, span),
        Err(segment) => stuck(rt, segment),
    }
}

fn stuck<X, R: Abort>(rt: &R, held: X) -> ! {
    let _held = held;
    panic!(rt; "refused")
}
