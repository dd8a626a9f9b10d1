//! Requests of the second protocol, eight of which may come at once, in any order.

use super::{ARENA, Row, Told, run};
use lease_terms::{Protocol, Refusal};

const ONE: Protocol = Protocol::One;

const TWO: Protocol = Protocol::Two;

/// A number more than eight above those that are all settled is a gap, and a number eight or more
/// below the greatest is stale.
#[test]
fn eight_at_once(rt: HostRuntime) {
    let rows = [
        Row::Welcome(1, 1, TWO, TWO),
        Row::Welcome(1, 1, ONE, TWO),
        Row::Lease((1, 1, 2), (0, 4), Told::Granted(0, 4)),
        Row::Lease((1, 1, 9), (4, 4), Told::Gap(0)),
        Row::Lease((1, 1, 8), (4, 4), Told::Granted(4, 4)),
        Row::Lease((1, 1, 1), (8, 8), Told::Granted(8, 8)),
        Row::Lease((1, 1, 2), (16, 4), Told::KeptGrant(0, 4)),
        Row::Lease((1, 1, 10), (16, 4), Told::Granted(16, 4)),
        Row::Lease((1, 1, 11), (20, 4), Told::Gap(2)),
        Row::Lease((1, 1, 2), (20, 4), Told::Stale(10)),
        Row::Units(ARENA, 20),
    ];
    run(&rt, &rows);
}

/// From the last to the first: each is settled once, and kept until the greatest is eight above it.
#[test]
fn last_first(rt: HostRuntime) {
    let no_fit = Refusal::NoFit;
    let rows = [
        Row::Welcome(1, 1, TWO, TWO),
        Row::Refuse((1, 1, 8), no_fit, Told::Refused(no_fit)),
        Row::Refuse((1, 1, 7), no_fit, Told::Refused(no_fit)),
        Row::Refuse((1, 1, 6), no_fit, Told::Refused(no_fit)),
        Row::Refuse((1, 1, 5), no_fit, Told::Refused(no_fit)),
        Row::Refuse((1, 1, 4), no_fit, Told::Refused(no_fit)),
        Row::Refuse((1, 1, 3), no_fit, Told::Refused(no_fit)),
        Row::Refuse((1, 1, 2), no_fit, Told::Refused(no_fit)),
        Row::Look((1, 1, 9), Told::Gap(0)),
        Row::Refuse((1, 1, 1), Refusal::NoArena, Told::Refused(Refusal::NoArena)),
        Row::Refuse((1, 1, 8), Refusal::NoArena, Told::KeptRefusal(no_fit)),
        Row::Refuse((1, 1, 1), no_fit, Told::KeptRefusal(Refusal::NoArena)),
        Row::Look((1, 1, 9), Told::New),
        Row::Look((1, 1, 17), Told::Gap(8)),
        Row::Refuse((1, 1, 16), no_fit, Told::Refused(no_fit)),
        Row::Look((1, 1, 8), Told::Stale(16)),
        Row::Look((1, 1, 9), Told::New),
        Row::Look((1, 1, 17), Told::Gap(8)),
        Row::Refuse((1, 1, 9), no_fit, Told::Refused(no_fit)),
        Row::Look((1, 1, 9), Told::KeptRefusal(no_fit)),
        Row::Look((1, 1, 17), Told::New),
        Row::Look((1, 1, 18), Told::Gap(9)),
    ];
    run(&rt, &rows);
}

/// The first hello of an incarnation fixes its protocol, and the next incarnation begins anew.
#[test]
fn protocols(rt: HostRuntime) {
    let rows = [
        Row::Welcome(1, 1, TWO, TWO),
        Row::Lease((1, 1, 3), (0, 4), Told::Granted(0, 4)),
        Row::Welcome(1, 1, ONE, TWO),
        Row::Look((1, 1, 3), Told::KeptGrant(0, 4)),
        Row::Look((1, 1, 2), Told::New),
        Row::Welcome(1, 2, ONE, ONE),
        Row::Look((1, 2, 2), Told::Gap(0)),
        Row::Welcome(1, 2, TWO, ONE),
        Row::Look((1, 2, 2), Told::Gap(0)),
        Row::Refuse((1, 2, 1), Refusal::NoFit, Told::Refused(Refusal::NoFit)),
        Row::Welcome(1, 3, TWO, TWO),
        Row::Hello(1, 2, Some(3)),
        Row::Look((1, 3, 1), Told::New),
        Row::Look((1, 3, 8), Told::New),
        Row::Look((1, 3, 9), Told::Gap(0)),
        Row::Look((1, 1, 3), Told::Old(3)),
        Row::Sweep(1, Some(((1, 1, 3), (0, 4)))),
    ];
    run(&rt, &rows);
}

/// A lease of [0, 4) by number 1; then number 2 gives it back, and number 3 asks for it or gives it
/// back too. They come in either order, and each gets one answer, by what stands when it comes, and
/// the same one again.
#[test]
fn release_and_another(rt: HostRuntime) {
    let not_yours = Refusal::NotYours;
    let rows = [
        Row::Welcome(1, 1, TWO, TWO),
        Row::Lease((1, 1, 1), (0, 4), Told::Granted(0, 4)),
        Row::Release((1, 1, 2), 0, Told::Released),
        Row::Lease((1, 1, 3), (0, 4), Told::Granted(0, 4)),
        Row::Release((1, 1, 2), 0, Told::KeptRelease),
        Row::Units(ARENA, 4),
        Row::Welcome(1, 2, TWO, TWO),
        Row::Sweep(1, Some(((1, 1, 3), (0, 4)))),
        Row::Lease((1, 2, 1), (0, 4), Told::Granted(0, 4)),
        Row::Lease((1, 2, 3), (4, 4), Told::Granted(4, 4)),
        Row::Release((1, 2, 2), 0, Told::Released),
        Row::Lease((1, 2, 3), (0, 4), Told::KeptGrant(4, 4)),
        Row::Units(ARENA, 4),
        Row::Welcome(1, 3, TWO, TWO),
        Row::Sweep(1, Some(((1, 2, 3), (4, 4)))),
        Row::Lease((1, 3, 1), (0, 4), Told::Granted(0, 4)),
        Row::Release((1, 3, 2), 0, Told::Released),
        Row::Release((1, 3, 3), 0, Told::Refused(not_yours)),
        Row::Release((1, 3, 2), 0, Told::KeptRelease),
        Row::Units(ARENA, 0),
        Row::Welcome(1, 4, TWO, TWO),
        Row::Lease((1, 4, 1), (0, 4), Told::Granted(0, 4)),
        Row::Release((1, 4, 3), 0, Told::Released),
        Row::Release((1, 4, 2), 0, Told::Refused(not_yours)),
        Row::Release((1, 4, 3), 0, Told::KeptRelease),
        Row::Units(ARENA, 0),
    ];
    run(&rt, &rows);
}

/// The same where number 2 asks for a lease, and number 3 gives the first one back or asks for one
/// too.
#[test]
fn lease_and_another(rt: HostRuntime) {
    let rows = [
        Row::Welcome(1, 1, TWO, TWO),
        Row::Lease((1, 1, 1), (0, 4), Told::Granted(0, 4)),
        Row::Lease((1, 1, 2), (4, 4), Told::Granted(4, 4)),
        Row::Release((1, 1, 3), 0, Told::Released),
        Row::Lease((1, 1, 2), (0, 4), Told::KeptGrant(4, 4)),
        Row::Units(ARENA, 4),
        Row::Welcome(1, 2, TWO, TWO),
        Row::Sweep(1, Some(((1, 1, 2), (4, 4)))),
        Row::Lease((1, 2, 1), (0, 4), Told::Granted(0, 4)),
        Row::Release((1, 2, 3), 0, Told::Released),
        Row::Lease((1, 2, 2), (0, 4), Told::Granted(0, 4)),
        Row::Release((1, 2, 3), 0, Told::KeptRelease),
        Row::Units(ARENA, 4),
        Row::Welcome(1, 3, TWO, TWO),
        Row::Sweep(1, Some(((1, 2, 2), (0, 4)))),
        Row::Lease((1, 3, 1), (0, 4), Told::Granted(0, 4)),
        Row::Lease((1, 3, 2), (4, 4), Told::Granted(4, 4)),
        Row::Lease((1, 3, 3), (8, 4), Told::Granted(8, 4)),
        Row::Lease((1, 3, 2), (12, 4), Told::KeptGrant(4, 4)),
        Row::Welcome(1, 4, TWO, TWO),
        Row::Sweep(1, Some(((1, 3, 1), (0, 4)))),
        Row::Sweep(1, Some(((1, 3, 2), (4, 4)))),
        Row::Sweep(1, Some(((1, 3, 3), (8, 4)))),
        Row::Lease((1, 4, 1), (0, 4), Told::Granted(0, 4)),
        Row::Lease((1, 4, 3), (4, 4), Told::Granted(4, 4)),
        Row::Lease((1, 4, 2), (8, 4), Told::Granted(8, 4)),
        Row::Lease((1, 4, 3), (12, 4), Told::KeptGrant(4, 4)),
        Row::Units(ARENA, 12),
    ];
    run(&rt, &rows);
}

/// Where an allocation is refused, as by `rt try --test --fail-alloc N`, a hello that begins an
/// incarnation changes nothing; a refusal takes no memory.
#[test]
fn room_for_eight(rt: HostRuntime) {
    let no_fit = Refusal::NoFit;
    let rows = [
        Row::Hello(1, 1, None),
        Row::Refuse((1, 1, 1), no_fit, Told::Refused(no_fit)),
        Row::Welcome(1, 2, TWO, TWO),
        Row::Refuse((1, 2, 8), no_fit, Told::Refused(no_fit)),
        Row::Refuse((1, 2, 2), no_fit, Told::Refused(no_fit)),
        Row::Refuse((1, 2, 1), no_fit, Told::Refused(no_fit)),
        Row::Welcome(2, 1, TWO, TWO),
        Row::Refuse((2, 1, 1), no_fit, Told::Refused(no_fit)),
        Row::Welcome(1, 3, TWO, TWO),
        Row::Refuse((1, 3, 7), no_fit, Told::Refused(no_fit)),
        Row::Clients(2),
    ];
    run(&rt, &rows);
}
