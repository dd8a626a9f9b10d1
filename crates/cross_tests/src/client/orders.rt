//! Replies to requests that wait at once, in every order.
use super::{Step, client, take_steps};
use lease_client::Nothing;
use lease_terms::Protocol;
use std::alloc::Global;
use std::process::Abort;
use std::test::Fail;

/// A client that holds four units at 0.
const HELD: [Step<'static>; 4] = [
    Step::Begins(1, Protocol::Two, "hello 1 1 2"),
    Step::Accepts("welcome 1 1 2"),
    Step::Says("lease 1 1 1 m 4"),
    Step::Accepts("granted 1 1 1 m 0 4"),
];

/// A release and a lease wait, and the service grants the same base again, or two leases wait: the
/// replies may come in either order, whichever was sent first.
const PAIRS: [[Step<'static>; 6]; 6] = [
    [
        Step::Says("release 1 1 2 m 0"),
        Step::Says("lease 1 1 3 m 4"),
        Step::Accepts("released 1 1 2"),
        Step::Holds(&[]),
        Step::Accepts("granted 1 1 3 m 0 4"),
        Step::Holds(&[0]),
    ],
    [
        Step::Says("release 1 1 2 m 0"),
        Step::Says("lease 1 1 3 m 4"),
        Step::Accepts("granted 1 1 3 m 0 4"),
        Step::Holds(&[0]),
        Step::Accepts("released 1 1 2"),
        Step::Holds(&[0]),
    ],
    [
        Step::Says("lease 1 1 2 m 4"),
        Step::Says("release 1 1 3 m 0"),
        Step::Accepts("released 1 1 3"),
        Step::Holds(&[]),
        Step::Accepts("granted 1 1 2 m 0 4"),
        Step::Holds(&[0]),
    ],
    [
        Step::Says("lease 1 1 2 m 4"),
        Step::Says("release 1 1 3 m 0"),
        Step::Accepts("granted 1 1 2 m 0 4"),
        Step::Holds(&[0]),
        Step::Accepts("released 1 1 3"),
        Step::Holds(&[0]),
    ],
    [
        Step::Says("lease 1 1 2 m 4"),
        Step::Says("lease 1 1 3 m 4"),
        Step::Accepts("granted 1 1 2 m 4 4"),
        Step::Holds(&[0, 4]),
        Step::Accepts("granted 1 1 3 m 8 4"),
        Step::Holds(&[0, 4, 8]),
    ],
    [
        Step::Says("lease 1 1 2 m 4"),
        Step::Says("lease 1 1 3 m 4"),
        Step::Accepts("granted 1 1 3 m 4 4"),
        Step::Holds(&[0, 4]),
        Step::Accepts("granted 1 1 2 m 8 4"),
        Step::Holds(&[0, 4, 8]),
    ],
];

/// The base is released, granted anew and released again before the first release is answered.
const TWO_RELEASES: [Step<'static>; 6] = [
    Step::Says("release 1 1 2 m 0"),
    Step::Says("lease 1 1 3 m 4"),
    Step::Accepts("granted 1 1 3 m 0 4"),
    Step::Says("release 1 1 4 m 0"),
    Step::Says("lease 1 1 5 m 4"),
    Step::Holds(&[]),
];

/// The replies to both releases and to the lease after them, in each order: what is held is what
/// the grant gave, and from there on.
const TRIPLES: [[Step<'static>; 6]; 6] = [
    [
        Step::Accepts("released 1 1 2"),
        Step::Holds(&[]),
        Step::Accepts("released 1 1 4"),
        Step::Holds(&[]),
        Step::Accepts("granted 1 1 5 m 0 4"),
        Step::Holds(&[0]),
    ],
    [
        Step::Accepts("released 1 1 2"),
        Step::Holds(&[]),
        Step::Accepts("granted 1 1 5 m 0 4"),
        Step::Holds(&[0]),
        Step::Accepts("released 1 1 4"),
        Step::Holds(&[0]),
    ],
    [
        Step::Accepts("released 1 1 4"),
        Step::Holds(&[]),
        Step::Accepts("released 1 1 2"),
        Step::Holds(&[]),
        Step::Accepts("granted 1 1 5 m 0 4"),
        Step::Holds(&[0]),
    ],
    [
        Step::Accepts("released 1 1 4"),
        Step::Holds(&[]),
        Step::Accepts("granted 1 1 5 m 0 4"),
        Step::Holds(&[0]),
        Step::Accepts("released 1 1 2"),
        Step::Holds(&[0]),
    ],
    [
        Step::Accepts("granted 1 1 5 m 0 4"),
        Step::Holds(&[0]),
        Step::Accepts("released 1 1 2"),
        Step::Holds(&[0]),
        Step::Accepts("released 1 1 4"),
        Step::Holds(&[0]),
    ],
    [
        Step::Accepts("granted 1 1 5 m 0 4"),
        Step::Holds(&[0]),
        Step::Accepts("released 1 1 4"),
        Step::Holds(&[0]),
        Step::Accepts("released 1 1 2"),
        Step::Holds(&[0]),
    ],
];

/// A client that holds four units at 0 takes these steps, and then waits for nothing.
fn take_row(
    rt: &impl Abort,
    alloc: Global,
    first: &[Step<'_>],
    row: &[Step<'_>],
) -> Result<(), Fail> {
    let mut client = client(alloc, 1)?;
    take_steps(rt, &mut client, &HELD)?;
    take_steps(rt, &mut client, first)?;
    take_steps(rt, &mut client, row)?;
    assert_eq!(rt; client.resend(), Err(Nothing));
    Ok(())
}

#[test]
fn each_order_of_two_requests(rt: HostRuntime) -> Result<(), Fail> {
    for row in PAIRS {
        take_row(&rt, rt.alloc(), &[], row.as_slice())?;
    }
    Ok(())
}

#[test]
fn each_order_of_two_releases_and_a_lease(rt: HostRuntime) -> Result<(), Fail> {
    for row in TRIPLES {
        take_row(&rt, rt.alloc(), &TWO_RELEASES, row.as_slice())?;
    }
    Ok(())
}
