//! A stock of two roots that own several spans: all that they own is free at first, and comes back
//! span by span. A root's number is 65,536 times its arena's, plus its place among the arena's.
ghost use Rattle.std.specs.Prelude.{[]};
ghost use Rattle.stock.specs.Accounts.{Frames};

use crate::stocks::name;
use arena_tree::{NewRoot, NewSpan, Setting, Setup};
use deed_core::{Deed, PlainDeed, Range};
use std::alloc::Global;
use std::process::Abort;
use stock::{Stock, plain_stock};
use stock_audit::audit;
use tag_arena::Policy;

/// A root of so many units from 0.
fn root(rt: &impl Abort, text: &str, len: u64, qcache_max: u64) -> Setting {
    Setting::Root(NewRoot {
        name: name(rt, text),
        base: 0,
        len,
        quantum: 1,
        policy: Policy::Best,
        qcache_max,
    })
}

/// A further span of a root.
fn span(rt: &impl Abort, text: &str, base: u64, len: u64) -> Setting {
    Setting::Span(NewSpan {
        name: name(rt, text),
        base,
        len,
    })
}

/// The roots a, of 64 units and of 32 further ones, and b, of 16 and of 8, each span set up after
/// those of both before it.
fn two_roots(rt: &impl Abort, alloc: Global) -> Setup {
    let mut setup = Setup::new(alloc);
    setup.add(&root(rt, "a", 64, 2)).expect(rt, "a root");
    setup.add(&root(rt, "b", 16, 0)).expect(rt, "a root");
    setup.add(&span(rt, "a", 128, 32)).expect(rt, "a span");
    setup.add(&span(rt, "b", 32, 8)).expect(rt, "a span");
    setup
}

/// The arena grows by eight units from 96 on.
fn grow(rt: &impl Abort, stock: &mut Stock<PlainDeed>, arena: usize)
    ensures frame { Frames stock.old [] stock.new [] }
{
    let range = Range::new(96, 8).expect(rt, "a range");
    assert_eq!(rt; stock.grow_by(arena, range), Ok(()));
}

/// The lowest owned span of the arena comes out: the root, base and length of its deed.
fn taken_out(
    rt: &impl Abort,
    stock: &mut Stock<PlainDeed>,
    arena: usize,
) -> Option<(u32, u64, u64)> {
    assert!(rt; arena < stock.count());
    let deed = stock.remove_owned(arena)?;
    let root = deed.root();
    let range = deed.close();
    Some((root, range.base(), range.len()))
}

#[test]
fn spans_of_two_roots(rt: HostRuntime) {
    let setup = two_roots(&rt, rt.alloc());
    let mut stock = plain_stock(rt.alloc(), &setup, 3).expect(&rt, "a stock");
    assert_eq!(rt; stock.count(), 2);
    assert_eq!(rt; audit(&stock, 0, &[], &[], &[]).free, 96);
    assert_eq!(rt; audit(&stock, 1, &[], &[], &[]).free, 24);
    grow(&rt, &mut stock, 0);
    grow(&rt, &mut stock, 1);
    assert!(rt; stock.count() == 2);
    assert_eq!(rt; audit(&stock, 0, &[], &[], &[]).free, 104);
    assert_eq!(rt; audit(&stock, 1, &[], &[], &[]).free, 32);
    match stock.reap_all() {
        Ok(()) => {}
        Err(_) => panic!(rt; "a reaping"),
    }
    assert_eq!(rt; taken_out(&rt, &mut stock, 0), Some((0, 0, 64)));
    assert_eq!(rt; taken_out(&rt, &mut stock, 0), Some((2, 96, 8)));
    assert_eq!(rt; taken_out(&rt, &mut stock, 0), Some((1, 128, 32)));
    assert_eq!(rt; taken_out(&rt, &mut stock, 0), None);
    assert_eq!(rt; taken_out(&rt, &mut stock, 1), Some((65536, 0, 16)));
    assert_eq!(rt; taken_out(&rt, &mut stock, 1), Some((65537, 32, 8)));
    assert_eq!(rt; taken_out(&rt, &mut stock, 1), Some((65538, 96, 8)));
    assert_eq!(rt; taken_out(&rt, &mut stock, 1), None);
    match stock.close() {
        Ok(()) => {}
        Err(_) => panic!(rt; "a deed is left"),
    }
}
