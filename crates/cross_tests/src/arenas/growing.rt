//! Arenas that get further spans of their own while they are in use.

use super::{
    add, arena_of_fours, close, counts, end_span, give_back, grant, import, no_grant, span,
    take_back, take_span,
};
use deed_core::{Deed, PlainDeed, PlainOpener, Range, Request};
use std::alloc::AllocGlobal;
use std::process::Abort;
use tag_arena::{Arena, ArenaFault, Policy, RangeFault};

/// Opens the range as a root of this number in the arena.
fn grow(rt: &impl Abort, arena: &mut Arena<PlainDeed>, root: u16, base: u64, len: u64) {
    let range = Range::new(base, len).expect(rt, "a range");
    let mut opener = PlainOpener::new(u32::from(root), 1);
    match arena.admits(&range) {
        Ok(()) => {}
        Err(fault) => panic!(rt; "{fault}"),
    }
    arena.grow(range, &mut opener).expect(rt, "memory");
}

/// Takes out a span, which must be of this root and this range, and ends it.
fn end_root(rt: &impl Abort, arena: &mut Arena<PlainDeed>, root: u32, base: u64, len: u64) {
    let deed = take_span(rt, arena);
    assert_eq!(rt; deed.root(), root);
    let range = deed.close();
    assert_eq!(rt; (range.base(), range.len()), (base, len));
}

/// What an arena says of each of these ranges.
fn judge(rt: &impl Abort, arena: &Arena<PlainDeed>, rows: &[(u64, u64, Result<(), RangeFault>)]) {
    for &(base, len, told) in rows {
        let range = Range::new(base, len).expect(rt, "a range");
        assert_eq!(rt; arena.admits(&range), told);
    }
}

/// A range beside the spans, in whole quanta, is admitted. Of one that is neither it is told that
/// it overlaps.
#[test]
fn ranges_admitted(rt: HostRuntime) {
    let rows = [
        (64, 8, Ok(())),
        (0, 16, Ok(())),
        (60, 8, Err(RangeFault::Overlaps)),
        (12, 8, Err(RangeFault::Overlaps)),
        (62, 7, Err(RangeFault::Overlaps)),
        (66, 8, Err(RangeFault::NotAligned)),
        (64, 6, Err(RangeFault::NotAligned)),
    ];
    let mut arena = arena_of_fours(rt.alloc(), 7);
    add(&rt, &mut arena, span(&rt, 1, 16, 48));
    judge(&rt, &arena, &rows);
    end_span(&rt, &mut arena, 16, 48);
    close(&rt, arena);
}

/// An imported span stands against a range too, while it is there.
#[test]
fn ranges_beside_an_import(rt: HostRuntime) {
    let four = Request::plain(4);
    let mut source = Arena::new(rt.alloc(), 1, 1, Policy::Best);
    let mut child = arena_of_fours(rt.alloc(), 2);
    add(&rt, &mut source, span(&rt, 1, 0, 16));
    let imported = grant(&rt, &mut source, &Request::plain(16), 0, 16);
    let first = import(&rt, &mut child, imported, &four);
    assert_eq!(rt; child.owned_count(), 0);
    judge(
        &rt,
        &child,
        &[(12, 8, Err(RangeFault::Overlaps)), (16, 8, Ok(()))],
    );
    let back = take_back(&rt, &mut child, first);
    judge(&rt, &child, &[(12, 8, Ok(()))]);
    give_back(&rt, &mut source, back);
    close(&rt, child);
    end_span(&rt, &mut source, 0, 16);
    close(&rt, source);
}

/// What comes while a segment is out is a span of its own: it serves at once, nothing is carved
/// from two, and it ends as the root that it was opened as.
fn grow_in_use(rt: &(impl Abort + AllocGlobal), policy: Policy) {
    let (eight, twelve) = (Request::plain(8), Request::plain(12));
    let mut arena = Arena::new(rt.alloc(), 1, 1, policy);
    add(rt, &mut arena, span(rt, 5, 0, 8));
    let first = grant(rt, &mut arena, &eight, 0, 8);
    no_grant(rt, &mut arena, &eight, ArenaFault::NoFit);
    grow(rt, &mut arena, 6, 8, 8);
    assert_eq!(rt; arena.owned_count(), 2);
    counts(rt, &arena, 16, 8, 8);
    no_grant(rt, &mut arena, &twelve, ArenaFault::NoFit);
    let second = grant(rt, &mut arena, &eight, 8, 8);
    give_back(rt, &mut arena, first);
    give_back(rt, &mut arena, second);
    no_grant(rt, &mut arena, &twelve, ArenaFault::NoFit);
    end_root(rt, &mut arena, 5, 0, 8);
    end_root(rt, &mut arena, 6, 8, 8);
    assert_eq!(rt; arena.owned_count(), 0);
    close(rt, arena);
}

#[test]
fn grown_in_use(rt: HostRuntime) {
    for policy in [Policy::Best, Policy::Next, Policy::Instant] {
        grow_in_use(&rt, policy);
    }
}

/// A span that comes later is the newest free range, which `instant` takes first, at one look.
#[test]
fn newest_first(rt: HostRuntime) {
    let eight = Request::plain(8);
    let mut arena = Arena::new(rt.alloc(), 1, 1, Policy::Instant);
    grow(&rt, &mut arena, 0, 0, 8);
    grow(&rt, &mut arena, 1, 16, 8);
    let late = grant(&rt, &mut arena, &eight, 16, 8);
    assert_eq!(rt; arena.probes(), 1);
    let early = grant(&rt, &mut arena, &eight, 0, 8);
    assert_eq!(rt; arena.probes(), 1);
    give_back(&rt, &mut arena, late);
    give_back(&rt, &mut arena, early);
    end_root(&rt, &mut arena, 0, 0, 8);
    end_root(&rt, &mut arena, 1, 16, 8);
    close(&rt, arena);
}
