//! What `deed_table` does: roots, deeds of running threads, and two of them shown apart.
ghost use Rattle.std.specs.Prelude.{◌≡◌, ◌<◌};
ghost use Rattle.deed_core.specs.Holding.{GoesOn};

mod roots;

use crate::base::border_moved;
use deed_core::{Deed, Range, Refused};
use deed_table::{Ground, Name, Opener, Pair, Root, SeatDeed, apart, close};
use std::alloc::{AllocError, Global};
use std::marker::Brand;
use std::process::Abort;
use std::sync::atomic::{AtomicU64, Ordering};
use std::test::*;
use std::thread;
use std::thread::Threads;

#[test]
fn deeds(rt: HostRuntime) -> Result<(), Fail> {
    cut_and_closed::<Brand, _>(&rt, Ground::new(rt.alloc())?)
}

/// A root is opened, its deed is cut, the parts are shown apart and made whole, and the root is
/// closed.
fn cut_and_closed<N: Name, R: Abort>(rt: &R, ground: Ground) -> Result<(), Fail>
    requires { ground ≡ N.table }
{
    let mut opener: Opener<N> = ground.start();
    let (root, deed) = opened(rt, &mut opener);
    assert_eq!(rt; deed.root(), 0);
    let (low, high) = cut(rt, deed, 8);
    assert_eq!(rt; bounds(&low.range()), (0, 8));
    assert_eq!(rt; bounds(&high.range()), (8, 8));
    let (high, low) = match apart(high, low) {
        Ok(both) => both,
        Err(pair) => stuck(rt, pair),
    };
    let range = match close(root, low.join(high)) {
        Ok(range) => range,
        Err(both) => stuck(rt, both),
    };
    assert_eq!(rt; bounds(&range), (0, 16));
    Ok(())
}

#[test]
fn borders(rt: HostRuntime) -> Result<(), Fail> {
    border_of_seats::<Brand, _>(&rt, Ground::new(rt.alloc())?)
}

/// The law of deeds over the deeds of running threads.
fn border_of_seats<N: Name, R: Abort>(rt: &R, ground: Ground) -> Result<(), Fail>
    requires { ground ≡ N.table }
{
    let mut opener: Opener<N> = ground.start();
    let range = Range::new(8, 12).expect(rt, "a range");
    let (root, deed) = opener.open_root(range).expect(rt, "memory");
    let deed = border_moved(rt, deed);
    match close(root, deed) {
        Ok(range) => assert_eq!(rt; bounds(&range), (8, 12)),
        Err(both) => stuck(rt, both),
    }
    Ok(())
}

#[test]
fn closes_no_part(rt: HostRuntime) -> Result<(), Fail> {
    part_refused::<Brand, _>(&rt, Ground::new(rt.alloc())?)
}

/// A deed that was split once does not close its root, and both come back.
fn part_refused<N: Name, R: Abort>(rt: &R, ground: Ground) -> Result<(), Fail>
    requires { ground ≡ N.table }
{
    let mut opener: Opener<N> = ground.start();
    let (root, deed) = opened(rt, &mut opener);
    let (low, high) = cut(rt, deed, 8);
    let (root, low) = match close(root, low) {
        Ok(_) => panic!(rt; "a part closed the root"),
        Err(both) => both,
    };
    assert_eq!(rt; root.number(), 0);
    assert_eq!(rt; bounds(&root.range()), (0, 16));
    assert_eq!(rt; bounds(&low.range()), (0, 8));
    match close(root, low.join(high)) {
        Ok(range) => assert_eq!(rt; bounds(&range), (0, 16)),
        Err(both) => stuck(rt, both),
    }
    Ok(())
}

#[test]
fn shares_numbers(rt: HostRuntime) -> Result<(), Fail> {
    two_openers::<Brand, _>(&rt, Ground::new(rt.alloc())?)
}

/// Two openers open the numbers that they have, and a deed of another root does not close a root.
fn two_openers<N: Name, R: Abort>(rt: &R, ground: Ground) -> Result<(), Fail>
    requires { ground ≡ N.table }
{
    let mut rest: Opener<N> = ground.start();
    assert_eq!(rt; rest.left(), 1 << 32);
    let mut shared = rest.share(1 << 16).expect(rt, "memory");
    assert_eq!(rt;
        (shared.left(), rest.left()),
        (1 << 16, (1 << 32) - (1 << 16))
    );
    assert_eq!(rt; (shared.first(), rest.first()), (0, 1 << 16));
    let (first, one) = opened(rt, &mut shared);
    let (second, other) = opened(rt, &mut rest);
    assert_eq!(rt; (first.number(), second.number()), (0, 1 << 16));
    assert_eq!(rt; shared.left(), (1 << 16) - 1);
    let (first, other) = match close(first, other) {
        Ok(_) => panic!(rt; "the deed of another root closed the root"),
        Err(both) => both,
    };
    end(rt, first, one);
    end(rt, second, other);
    Ok(())
}

/// Where growths are refused, numbers are shared and roots opened again.
#[test]
fn openers_go_on(rt: HostRuntime) {
    let ground = match Ground::new(rt.alloc()) {
        Ok(ground) => ground,
        Err(_) => Ground::new(rt.alloc()).expect(&rt, "refused twice"),
    };
    goes_on::<Brand, _>(&rt, ground);
}

fn goes_on<N: Name, R: Abort>(rt: &R, ground: Ground)
    requires { ground ≡ N.table }
{
    let mut rest: Opener<N> = ground.start();
    let mut shared = share_again(rt, &mut rest);
    let (first, one) = open_again(rt, &mut shared);
    let (second, other) = open_again(rt, &mut rest);
    assert_eq!(rt; (first.number(), second.number()), (0, 1 << 16));
    end(rt, first, one);
    end(rt, second, other);
}

/// Gives 2^16 numbers away, again where it was out of memory: then none had moved.
fn share_again<N: Name, R: Abort>(rt: &R, opener: &mut Opener<N>) -> Opener<N> {
    let before = (opener.first(), opener.left());
    assert!(rt; before.1 >= 1 << 16);
    match opener.share(1 << 16) {
        Ok(shared) => return shared,
        Err(_) => assert_eq!(rt; (opener.first(), opener.left()), before),
    }
    opener.share(1 << 16).expect(rt, "refused twice")
}

/// Opens the next number, again where it was out of memory: then none was used.
fn open_again<N: Name, R: Abort>(rt: &R, opener: &mut Opener<N>) -> (Root<N>, SeatDeed<N>) {
    let before = (opener.first(), opener.left());
    assert!(rt; before.1 > 0);
    let range = Range::new(0, 16).expect(rt, "a range");
    match opener.open_root(range) {
        Ok(both) => return both,
        Err(_) => assert_eq!(rt; (opener.first(), opener.left()), before),
    }
    opener.open_root(range).expect(rt, "refused twice")
}

#[test]
fn pairs(rt: HostRuntime) -> Result<(), Fail> {
    paired::<Brand, _>(&rt, Ground::new(rt.alloc())?)
}

/// Two deeds that stayed joined tell their ranges, and are parted later.
fn paired<N: Name, R: Abort>(rt: &R, ground: Ground) -> Result<(), Fail>
    requires { ground ≡ N.table }
{
    let mut opener: Opener<N> = ground.start();
    let (root, deed) = opened(rt, &mut opener);
    let (low, high) = cut(rt, deed, 4);
    let pair = Pair::new(high, low);
    assert_eq!(rt; pair.root(), 0);
    assert_eq!(rt; bounds(&pair.first()), (4, 12));
    assert_eq!(rt; bounds(&pair.second()), (0, 4));
    let (high, low) = match pair.part() {
        Ok(both) => both,
        Err(pair) => stuck(rt, pair),
    };
    end(rt, root, low.join(high));
    Ok(())
}

#[test]
fn threads(rt: HostRuntime) -> Result<(), Fail> {
    two_threads::<Brand, _>(&rt, Ground::new(rt.alloc())?)
}

/// The parts of a root go to two threads, which cut them and make them whole in step: each joins
/// its parts only once the other has cut its own.
fn two_threads<N: Name + Send + Sync, R: Abort + Threads + Sync>(
    rt: &R,
    ground: Ground,
) -> Result<(), Fail>
    requires { ground ≡ N.table }
{
    let mut opener: Opener<N> = ground.start();
    let (root, deed) = opened(rt, &mut opener);
    let (low, high) = cut(rt, deed, 8);
    let (mut low, mut high) = (Some(low), Some(high));
    let (first, second) = (&mut low, &mut high);
    let arrivals = AtomicU64::new(0);
    let met = &arrivals;
    let (one, other) = thread::join(
        rt,
        move || recut(rt, first, met),
        move || recut(rt, second, met),
    );
    ended(rt, low);
    ended(rt, high);
    let (low, high) = (one, other);
    assert_eq!(rt; bounds(&low.range()), (0, 8));
    assert_eq!(rt; bounds(&high.range()), (8, 8));
    assert!(rt; low.root() == high.root() && low.range().end() == high.range().base());
    end(rt, root, low.join(high));
    Ok(())
}

/// Takes the deed, cuts it at each of its units in turn, meets the other thread, and makes it
/// whole.
fn recut<N: Name, R: Abort>(
    rt: &R,
    slot: &mut Option<SeatDeed<N>>,
    arrivals: &AtomicU64,
) -> SeatDeed<N> {
    let mut deed = match slot.take() {
        Some(deed) => deed,
        None => panic!(rt; "no deed"),
    };
    let base = deed.range().base();
    for turn in 1..8 {
        let (low, high) = cut(rt, deed, base + turn);
        meet(rt, arrivals, 2 * turn);
        deed = low.join(high);
    }
    deed
}

/// Counts an arrival and waits until there are `wanted`, for ten million turns at most.
fn meet<R: Abort>(rt: &R, arrivals: &AtomicU64, wanted: u64) {
    arrivals.fetch_add(1, Ordering::SeqCst);
    for _ in 0..10_000_000 {
        if arrivals.load(Ordering::SeqCst) >= wanted {
            return;
        }
        thread::yield_now();
    }
    panic!(rt; "the other thread does not come")
}

/// Ends a slot whose deed was taken.
fn ended<D: Deed, R: Abort>(rt: &R, slot: Option<D>) {
    match slot {
        None => {}
        Some(deed) => stuck(rt, deed),
    }
}

/// Opens the next number as a root of the units from 0 to 15.
fn opened<N: Name, R: Abort>(rt: &R, opener: &mut Opener<N>) -> (Root<N>, SeatDeed<N>)
    requires { 0 < opener.old.left }
    ensures { result.1 ≡ result.0 }
{
    let range = Range::new(0, 16).expect(rt, "a range");
    opener.open_root(range).expect(rt, "memory")
}

/// Cuts a deed that has the unit below `at` and the unit `at`.
fn cut<N: Name, R: Abort>(rt: &R, deed: SeatDeed<N>, at: u64) -> (SeatDeed<N>, SeatDeed<N>)
    ensures { GoesOn result.0 result.1 }
{
    let range = deed.range();
    assert!(rt; range.base() < at && at < range.end());
    match deed.split(at) {
        Ok(parts) => parts,
        Err(Refused { deed }) => stuck(rt, deed),
    }
}

/// Closes a root by the deed of the whole.
fn end<N: Name, R: Abort>(rt: &R, root: Root<N>, deed: SeatDeed<N>) {
    match close(root, deed) {
        Ok(range) => assert_eq!(rt; bounds(&range), (0, 16)),
        Err(both) => stuck(rt, both),
    }
}

/// The base and the length.
fn bounds(range: &Range) -> (u64, u64) {
    (range.base(), range.len())
}

/// Ends the test, with what it held.
fn stuck<X, R: Abort>(rt: &R, held: X) -> ! {
    let _held = held;
    panic!(rt; "refused")
}
