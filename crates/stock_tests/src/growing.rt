//! Arenas that grow: each refusal where others stand as well, of which the first is told; how many
//! spans an arena owns at most; and growths of memory that are refused, by `tools/starve` one in
//! each run.
use crate::stocks::name;
use arena_tree::{GrowFault, MOST_SPANS, NewChild, NewRoot, Setting, Setup};
use deed_core::{PlainDeed, Range};
use std::alloc::Global;
use std::process::Abort;
use stock::{Stock, plain_stock};
use tag_arena::Policy;

/// A root of so many units from 0, without caches.
fn root(rt: &impl Abort, text: &str, len: u64, quantum: u64) -> Setting {
    Setting::Root(NewRoot {
        name: name(rt, text),
        base: 0,
        len,
        quantum,
        policy: Policy::Best,
        qcache_max: 0,
    })
}

/// The root a, of 64 units in quanta of eight, its child b, and the root c of eight units.
fn three_arenas(rt: &impl Abort, alloc: Global) -> Stock<PlainDeed> {
    let mut setup = Setup::new(alloc);
    let child = Setting::Child(NewChild {
        name: name(rt, "b"),
        source: name(rt, "a"),
        quantum: 1,
        policy: Policy::Best,
        qcache_max: 0,
        import_min: 0,
    });
    setup.add(&root(rt, "a", 64, 8)).expect(rt, "a root");
    setup.add(&child).expect(rt, "a child");
    setup.add(&root(rt, "c", 8, 1)).expect(rt, "a root");
    plain_stock(alloc, &setup, 3).expect(rt, "a stock")
}

/// The arena grows by so many units from this base on, or says why not.
fn grow(
    rt: &impl Abort,
    stock: &mut Stock<PlainDeed>,
    arena: usize,
    base: u64,
    len: u64,
) -> Result<(), GrowFault> {
    let range = Range::new(base, len).expect(rt, "a range");
    stock.grow_by(arena, range)
}

/// So many units of the arena are free, of as many in its spans.
fn is_free(rt: &impl Abort, stock: &Stock<PlainDeed>, arena: usize, units: u128) {
    assert!(rt; arena < stock.count());
    let report = stock.arena_report(arena);
    assert_eq!(rt; report.free, units);
    assert_eq!(rt; report.span, units);
    assert_eq!(rt; report.allocated, 0);
}

/// Ends a stock of this many arenas, which own so many spans in all.
fn end(rt: &impl Abort, mut stock: Stock<PlainDeed>, spans: usize) {
    let mut taken: usize = 0;
    for arena in 0..stock.count() {
        for _ in 0..spans {
            assert!(rt; arena < stock.count());
            let Some(deed) = stock.remove_owned(arena) else {
                break;
            };
            let _ = deed.close();
            taken = taken.saturating_add(1);
        }
    }
    assert_eq!(rt; taken, spans);
    match stock.close() {
        Ok(()) => {}
        Err(_) => panic!(rt; "a deed is left"),
    }
}

/// Of the refusals that stand the first is told. A span of another arena is in nobody's way.
#[test]
fn first_refusal_told(rt: HostRuntime) {
    let mut stock = three_arenas(&rt, rt.alloc());
    let refused = [
        (3, 4, 12, GrowFault::NoArena),
        (3, 64, 8, GrowFault::NoArena),
        (1, 4, 12, GrowFault::NotRoot),
        (1, 64, 8, GrowFault::NotRoot),
        (0, 60, 12, GrowFault::Overlaps),
        (0, 56, 16, GrowFault::Overlaps),
        (0, 68, 8, GrowFault::NotAligned),
        (0, 64, 12, GrowFault::NotAligned),
        (2, 7, 1, GrowFault::Overlaps),
    ];
    for (arena, base, len, fault) in refused {
        assert_eq!(rt; grow(&rt, &mut stock, arena, base, len), Err(fault));
    }
    is_free(&rt, &stock, 0, 64);
    is_free(&rt, &stock, 2, 8);
    assert_eq!(rt; grow(&rt, &mut stock, 0, 64, 8), Ok(()));
    assert_eq!(rt; grow(&rt, &mut stock, 0, 64, 8), Err(GrowFault::Overlaps));
    assert_eq!(rt; grow(&rt, &mut stock, 2, 16, 1), Ok(()));
    assert_eq!(rt; grow(&rt, &mut stock, 2, 8, 9), Err(GrowFault::Overlaps));
    assert_eq!(rt; grow(&rt, &mut stock, 2, 8, 8), Ok(()));
    is_free(&rt, &stock, 0, 72);
    is_free(&rt, &stock, 1, 0);
    is_free(&rt, &stock, 2, 17);
    end(&rt, stock, 5);
}

/// A stock of one root of two units, in quanta of two, if there is memory for it.
fn small(rt: &impl Abort, alloc: Global) -> Option<Stock<PlainDeed>> {
    let mut setup = Setup::new(alloc);
    if setup.add(&root(rt, "s", 2, 2)).is_err() {
        return None;
    }
    plain_stock(alloc, &setup, 3).ok()
}

/// Of as many spans as an arena may own none is taken out, so there is none more; but what overlaps
/// one or isn't in whole quanta is told so. Each span lies two units behind the one before it.
#[test]
fn most_spans(rt: HostRuntime) {
    let mut stock = small(&rt, rt.alloc()).expect(&rt, "a stock");
    for place in 1..65536 {
        assert_eq!(rt; grow(&rt, &mut stock, 0, 4 * place, 2), Ok(()));
    }
    is_free(&rt, &stock, 0, 131072);
    assert_eq!(rt; grow(&rt, &mut stock, 0, 1, 2), Err(GrowFault::Overlaps));
    assert_eq!(rt;
        grow(&rt, &mut stock, 0, 262142, 3),
        Err(GrowFault::NotAligned)
    );
    assert_eq!(rt; grow(&rt, &mut stock, 0, 2, 2), Err(GrowFault::TooMany));
    assert_eq!(rt;
        grow(&rt, &mut stock, 0, 262144, 2),
        Err(GrowFault::TooMany)
    );
    is_free(&rt, &stock, 0, 131072);
    end(&rt, stock, MOST_SPANS);
}

/// The arena grows by two units, once more where the first time is refused.
fn grow_again(rt: &impl Abort, stock: &mut Stock<PlainDeed>, base: u64, free: u128) {
    match grow(rt, stock, 0, base, 2) {
        Ok(()) => {}
        Err(fault) => {
            assert_eq!(rt; fault, GrowFault::NoMemory);
            is_free(rt, stock, 0, free);
            assert_eq!(rt; grow(rt, stock, 0, base, 2), Ok(()));
        }
    }
}

/// Where a growth of memory is refused, nothing is opened and all is as it was.
#[test]
fn grows_again(rt: HostRuntime) {
    let Some(mut stock) = small(&rt, rt.alloc()) else {
        return;
    };
    for place in 1..100 {
        grow_again(&rt, &mut stock, 4 * place, 2 * u128::from(place));
        is_free(&rt, &stock, 0, 2 * u128::from(place) + 2);
    }
    end(&rt, stock, 100);
}
