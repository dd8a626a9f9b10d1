//! An opener with the roots that it opened, and what it does where growths are refused.
ghost use Rattle.std.specs.Prelude.{◌≡◌};

use super::end;
use deed_core::{Deed, Opens, Range};
use deed_table::{Ground, Name, Root, Roots, SeatDeed};
use std::alloc::Global;
use std::marker::Brand;
use std::process::Abort;
use std::test::*;

/// Opens the units from 0 to 15 as the next root, again where it was out of memory: then no number
/// was used.
fn open<N: Name, R: Abort>(rt: &R, roots: &mut Roots<N>) -> SeatDeed<N> {
    let before = (roots.left(), roots.roots().len());
    assert!(rt; before.0 > 0);
    let range = Range::new(0, 16).expect(rt, "a range");
    match roots.open(range) {
        Ok(deed) => return deed,
        Err(_) => assert_eq!(rt; (roots.left(), roots.roots().len()), before),
    }
    roots.open(range).expect(rt, "refused twice")
}

/// Moves all roots behind those that were told, again where it was out of memory: then none was
/// moved.
fn hand_over<N: Name, R: Abort>(rt: &R, roots: &mut Roots<N>, told: &mut Vec<Root<N>>) {
    let before = (told.len(), roots.roots().len(), roots.left());
    match roots.hand_over(told) {
        Ok(()) => return,
        Err(_) => assert_eq!(rt; (told.len(), roots.roots().len(), roots.left()), before),
    }
    roots.hand_over(told).expect(rt, "refused twice");
}

/// Closes the last of the roots, which must be the one of this number, by its deed.
fn end_last<N: Name, R: Abort>(rt: &R, told: &mut Vec<Root<N>>, number: u32, deed: SeatDeed<N>) {
    let root = told.pop().expect(rt, "a root");
    assert_eq!(rt; (root.number(), deed.root()), (number, number));
    end(rt, root, deed);
}

/// It keeps its roots in order, and goes on with the numbers that are left after they were handed
/// over.
fn handed_over<N: Name, R: Abort>(rt: &R, alloc: Global, ground: Ground)
    requires { ground ≡ N.table }
{
    let mut roots: Roots<N> = Roots::new(alloc, ground.start());
    let mut told = Vec::new(alloc);
    assert_eq!(rt; (roots.left(), roots.roots().len()), (1 << 32, 0));
    let first = open(rt, &mut roots);
    let second = open(rt, &mut roots);
    assert_eq!(rt; (roots.left(), roots.roots().len()), ((1 << 32) - 2, 2));
    hand_over(rt, &mut roots, &mut told);
    assert_eq!(rt; (roots.roots().len(), told.len()), (0, 2));
    let third = open(rt, &mut roots);
    hand_over(rt, &mut roots, &mut told);
    assert!(rt; roots.roots().is_empty());
    roots.end();
    end_last(rt, &mut told, 2, third);
    end_last(rt, &mut told, 1, second);
    end_last(rt, &mut told, 0, first);
    assert!(rt; told.is_empty());
    told.destroy_empty();
}

#[test]
fn roots(rt: HostRuntime) {
    let ground = match Ground::new(rt.alloc()) {
        Ok(ground) => ground,
        Err(_) => Ground::new(rt.alloc()).expect(&rt, "refused twice"),
    };
    handed_over::<Brand, _>(&rt, rt.alloc(), ground);
}
