//! What is told of a running system: sums of an arena, of the book, and who holds what.
ghost use Rattle.std.specs.Prelude.{◌≡◌};

use super::{are, ask, ask_all, ask_each, cpu, made, retire, root, shut};
use arena_tree::Setup;
use deed_table::{Ground, Name};
use lease_book::MOST_LEASES;
use lease_threads::{BookSums, System};
use std::alloc::AllocGlobal;
use std::marker::Brand;
use std::process::Abort;
use std::sync::Wait;
use std::test::Fail;
use tag_arena::Policy;

/// Two CPUs lease four times 5 units of an arena of 64, by slabs of 16, which have three such each,
/// and release them.
#[test]
fn sums_are_told(rt: HostRuntime) -> Result<(), Fail> {
    let mut setup = Setup::new(rt.alloc());
    root(&rt, &mut setup, "d", 0, 64, Policy::Instant, 5);
    root(&rt, &mut setup, "m", 64, 64, Policy::Best, 0);
    told::<Brand, _>(&rt, Ground::new(rt.alloc())?, setup);
    Ok(())
}

fn told<N: Name, R: Abort + Wait + AllocGlobal>(rt: &R, ground: Ground, setup: Setup)
    requires { ground ≡ N.table }
{
    let system: System<N> = made(rt, ground, setup);
    let mut one = cpu(rt, &system, 0);
    let mut two = cpu(rt, &system, 1);
    are(rt, &system, 0, [64, 0, 0, 0, 0]);
    assert!(rt; system.sums(rt, 2).is_none());
    let rows = [
        ("hello 1 1", "welcome 1 1"),
        ("lease 1 1 1 d 5", "granted 1 1 1 d 0 5"),
        ("lease 1 1 2 d 5", "granted 1 1 2 d 5 5"),
        ("lease 1 1 3 d 5", "granted 1 1 3 d 10 5"),
        ("lease 1 1 4 d 5", "granted 1 1 4 d 17 5"),
        ("lease 1 1 5 m 9", "granted 1 1 5 m 64 9"),
    ];
    ask_all(rt, &system, &mut one, &mut two, &rows);
    are(rt, &system, 0, [32, 32, 12, 0, 20]);
    are(rt, &system, 1, [55, 9, 0, 0, 9]);
    let rows = [
        ("release 1 1 6 d 0", "released 1 1 6"),
        ("release 1 1 7 d 5", "released 1 1 7"),
        ("release 1 1 8 d 10", "released 1 1 8"),
        ("release 1 1 9 d 17", "released 1 1 9"),
    ];
    ask_all(rt, &system, &mut one, &mut two, &rows);
    assert!(rt; one.units() == 10 && two.units() == 10);
    are(rt, &system, 0, [32, 32, 12, 0, 0]);
    system.drain(rt, &mut one);
    system.drain(rt, &mut two);
    let sums = system.sums(rt, 0).expect(rt, "an arena");
    assert!(rt; sums.free == 32 && sums.allocated == 32 && sums.leased == 0);
    assert!(rt; sums.slab.saturating_add(sums.magazine) == 32);
    are(rt, &system, 1, [55, 9, 0, 0, 9]);
    retire(rt, &system, one);
    retire(rt, &system, two);
    shut(rt, system, &[(0, 64), (64, 64)]);
}

/// Clients in order of first hello, and the leases of each in order of grant, by the requests that
/// they were granted to.
#[test]
fn holders_are_told(rt: HostRuntime) -> Result<(), Fail> {
    let mut setup = Setup::new(rt.alloc());
    root(&rt, &mut setup, "m", 0, 64, Policy::Best, 0);
    holders::<Brand, _>(&rt, Ground::new(rt.alloc())?, setup);
    Ok(())
}

fn holders<N: Name, R: Abort + Wait + AllocGlobal>(rt: &R, ground: Ground, setup: Setup)
    requires { ground ≡ N.table }
{
    let system: System<N> = made(rt, ground, setup);
    let mut one = cpu(rt, &system, 0);
    let none = BookSums {
        clients: 0,
        leases: 0,
    };
    assert!(rt; system.book_sums(rt) == none);
    assert!(rt; system.client_at(rt, 0).is_none());
    let rows = [
        ("hello 7 1", "welcome 7 1"),
        ("hello 2 1", "welcome 2 1"),
        ("lease 7 1 1 m 4", "granted 7 1 1 m 0 4"),
        ("lease 2 1 1 m 8", "granted 2 1 1 m 4 8"),
        ("lease 7 1 2 m 1", "granted 7 1 2 m 12 1"),
        ("lease 7 1 3 m 99", "refused 7 1 3 nofit"),
        ("lease 7 1 4 m 2", "granted 7 1 4 m 13 2"),
        ("release 7 1 5 m 0", "released 7 1 5"),
    ];
    ask_each(rt, &system, &mut one, &rows);
    let three = BookSums {
        clients: 2,
        leases: 3,
    };
    assert!(rt; system.book_sums(rt) == three);
    holds(rt, &system, 0, (7, 5), &[(2, 12, 1), (4, 13, 2)]);
    holds(rt, &system, 1, (2, 1), &[(1, 4, 8)]);
    assert!(rt; system.client_at(rt, 2).is_none());
    ask(rt, &system, &mut one, "hello 7 2", "welcome 7 2");
    let one_lease = BookSums {
        clients: 2,
        leases: 1,
    };
    assert!(rt; system.book_sums(rt) == one_lease);
    retire(rt, &system, one);
    shut(rt, system, &[(0, 64)]);
}

/// The client at the index, with the greatest number of its first incarnation that is settled, and
/// the leases that it holds, each by the number of its request, its base and its units.
fn holds<N: Name, R: Abort + Wait + AllocGlobal>(
    rt: &R,
    system: &System<N>,
    index: usize,
    (client, last): (u32, u64),
    wanted: &[(u64, u64, u64)],
) {
    let report = system.client_at(rt, index).expect(rt, "a client");
    assert!(rt; report.client.get() == client && report.incarnation.get() == 1);
    assert!(rt; report.last.get() == last && report.leases == wanted.len());
    let Ok(mut leases) = Vec::with_capacity(rt.alloc(), MOST_LEASES) else {
        panic!(rt; "memory")
    };
    let same = system.leases_at(rt, index, &mut leases);
    assert!(rt; same == Some(report));
    assert!(rt; leases.len() == wanted.len());
    for (lease, (number, base, units)) in leases.iter().zip(wanted) {
        assert!(rt; lease.incarnation.get() == 1 && lease.number.get() == *number);
        assert!(rt; lease.arena == 0 && lease.base == *base && lease.units == *units);
    }
}
