//! The leases that a book tells of a client.

use super::{
    ARENA, Bounds, Id, Row, Told, client_of, close, end, id_of, make_book, ordinal_of, take_row,
    take_rows,
};
use deed_core::PlainDeed;
use lease_book::{Book, LeaseReport, MOST_LEASES, SweepEnd, Taken};
use lease_terms::Protocol;
use std::alloc::AllocGlobal;
use std::process::Abort;

/// The leases of the client at an index.
fn leases_at(
    rt: &(impl Abort + AllocGlobal),
    book: &Book<PlainDeed>,
    index: usize,
) -> Vec<LeaseReport> {
    let mut told = Vec::with_capacity(rt.alloc(), MOST_LEASES).expect(rt, "memory");
    book.leases_at(index, &mut told);
    told
}

/// Checks them: the incarnation and the number of the request, the base and the units of each.
fn check(
    rt: &(impl Abort + AllocGlobal),
    book: &Book<PlainDeed>,
    index: usize,
    wanted: &[(u64, u64, u64, u64)],
) {
    let told = leases_at(rt, book, index);
    assert_eq!(rt; told.len(), wanted.len());
    for (lease, &wanted) in told.iter().zip(wanted) {
        let request = (lease.incarnation.get(), lease.number.get());
        assert_eq!(rt; (request.0, request.1, lease.base, lease.units), wanted);
        assert_eq!(rt; lease.arena, ARENA);
    }
}

/// In order of grant, without those that were released, with those of the older incarnation.
#[test]
fn leases_of_each(rt: HostRuntime) {
    let rows = [
        Row::Hello(4, 1, None),
        Row::Hello(2, 1, None),
        Row::Hello(3, 1, None),
        Row::Lease((4, 1, 1), (0, 4), Told::Granted(0, 4)),
        Row::Lease((4, 1, 2), (32, 4), Told::Granted(32, 4)),
        Row::Lease((2, 1, 1), (16, 8), Told::Granted(16, 8)),
        Row::Lease((4, 1, 3), (8, 1), Told::Granted(8, 1)),
        Row::Release((4, 1, 4), 0, Told::Released),
        Row::Hello(4, 2, None),
        Row::Lease((4, 2, 1), (4, 2), Told::Granted(4, 2)),
    ];
    let mut book = make_book(&rt, rt.alloc());
    take_rows(&rt, &mut book, &rows);
    check(&rt, &book, 0, &[(1, 2, 32, 4), (1, 3, 8, 1), (2, 1, 4, 2)]);
    check(&rt, &book, 1, &[(1, 1, 16, 8)]);
    check(&rt, &book, 2, &[]);
    check(&rt, &book, 3, &[]);
    end(&rt, book);
}

/// A hundred leases, of which each second was released.
#[test]
fn leases_of_many(rt: HostRuntime) {
    let mut book = make_book(&rt, rt.alloc());
    take_row(&rt, &mut book, Row::Hello(1, 1, None));
    for number in 1..=100 {
        let base = 8 * number;
        let row = Row::Lease((1, 1, number), (base, 8), Told::Granted(base, 8));
        take_row(&rt, &mut book, row);
    }
    for turn in 0..50 {
        let row = Row::Release((1, 1, 101 + turn), 16 * turn + 8, Told::Released);
        take_row(&rt, &mut book, row);
    }
    let told = leases_at(&rt, &book, 0);
    assert_eq!(rt; told.len(), 50);
    for (lease, turn) in told.iter().zip(1..=50u64) {
        let number = turn.saturating_mul(2);
        assert_eq!(rt;
            (lease.number.get(), lease.base),
            (number, number.saturating_mul(8))
        );
    }
    end(&rt, book);
}

/// The protocol by which the client of a hello is welcome, or the lease that ended first, with the
/// request that was granted it.
fn welcome(book: &mut Book<PlainDeed>, taken: &Taken<PlainDeed>) -> Result<Protocol, (Id, Bounds)> {
    match book.welcome(taken) {
        SweepEnd::Ended(request, segment) => Err((id_of(request), close(segment))),
        SweepEnd::Welcome(welcomed) => Ok(welcomed.protocol()),
    }
}

// A client is welcome once no lease of an older incarnation is left, by the protocol that stands.
#[test]
fn welcome_after_the_last(rt: HostRuntime) {
    let rows = [
        Row::Hello(4, 1, None),
        Row::Lease((4, 1, 1), (0, 4), Told::Granted(0, 4)),
        Row::Lease((4, 1, 2), (32, 4), Told::Granted(32, 4)),
        Row::Welcome(4, 2, Protocol::Two, Protocol::Two),
        Row::Lease((4, 2, 1), (8, 1), Told::Granted(8, 1)),
    ];
    let mut book = make_book(&rt, rt.alloc());
    take_rows(&rt, &mut book, &rows);
    let (client, incarnation) = (client_of(&rt, 4), ordinal_of(&rt, 2));
    let taken = book
        .hello(client, incarnation, Protocol::One)
        .ok()
        .expect(&rt, "a hello");
    assert_eq!(rt; welcome(&mut book, &taken), Err(((4, 1, 1), (0, 4))));
    assert_eq!(rt; welcome(&mut book, &taken), Err(((4, 1, 2), (32, 4))));
    assert_eq!(rt; welcome(&mut book, &taken), Ok(Protocol::Two));
    check(&rt, &book, 0, &[(2, 1, 8, 1)]);
    end(&rt, book);
}
