//! Requests: what is good, and what fits.
use super::range;
use deed_core::{LIMIT, Request, is_power_of_two};

/// Five units at 3 modulo 8 that cross no multiple of 8 end on the boundary; of six, each place
/// straddles one.
#[test]
fn a_segment_may_end_on_a_boundary(rt: HostRuntime) {
    let five = Request {
        align: 8,
        phase: 3,
        nocross: 8,
        ..Request::plain(5)
    };
    let six = Request { size: 6, ..five };
    assert!(rt; five.is_good(1) && six.is_good(1));
    assert!(rt; five.fits(1, &range(&rt, 3, 5)));
    assert!(rt; !five.fits(1, &range(&rt, 4, 5)));
    for base in 0..59 {
        assert!(rt; !six.fits(1, &range(&rt, base, 6)), "{base}");
    }
}

/// The greatest end is exclusive: [10, 15) fits a window from 10 to 15, and nothing else of five
/// units does.
#[test]
fn the_window_is_exclusive(rt: HostRuntime) {
    let request = Request {
        min: 10,
        max: 15,
        ..Request::plain(5)
    };
    for base in 0..60 {
        assert_eq!(rt; request.fits(1, &range(&rt, base, 5)), base == 10, "{base}");
    }
}

/// With a quantum of 4 a size of 5 is served by 8 units.
#[test]
fn sizes_are_rounded_up(rt: HostRuntime) {
    let five = Request::plain(5);
    assert!(rt; !five.is_constrained());
    assert_eq!(rt; five.units(4), Some(8));
    assert!(rt; five.fits(4, &range(&rt, 0, 8)));
    for (base, len) in [(0, 5), (0, 4), (0, 12), (2, 8)] {
        assert!(rt; !five.fits(4, &range(&rt, base, len)), "{base} {len}");
    }
    assert_eq!(rt; Request::plain(u64::MAX).units(4), None);
    assert_eq!(rt; Request::plain(u64::MAX - 3).units(4), Some(u64::MAX - 3));
}

/// Four units at `phase` past a multiple of `align`, in one block of `nocross`.
fn placed(align: u64, phase: u64, nocross: u64) -> Request {
    Request {
        align,
        phase,
        nocross,
        ..Request::plain(4)
    }
}

/// Units between two bounds.
fn between(size: u64, min: u64, max: u64) -> Request {
    Request {
        min,
        max,
        ..Request::plain(size)
    }
}

#[test]
fn bad_requests_are_known(rt: HostRuntime) {
    let five = Request::plain(5);
    let most = Request {
        align: u64::MAX,
        phase: u64::MAX,
        nocross: u64::MAX,
        ..between(u64::MAX, u64::MAX, u64::MAX)
    };
    let bad = [
        Request::plain(0),
        placed(2, 0, 0),
        placed(12, 0, 0),
        placed(8, 8, 0),
        placed(0, 4, 0),
        placed(8, 2, 0),
        placed(0, 0, 2),
        placed(0, 0, 12),
        Request { nocross: 4, ..five },
        Request {
            size: u64::MAX,
            ..placed(0, 0, 1 << 63)
        },
        between(4, 8, 8),
        between(4, 0, LIMIT + 1),
        most,
    ];
    for (k, request) in bad.iter().enumerate() {
        assert!(rt; !request.is_good(4), "{k}");
    }
}

#[test]
fn a_good_request_is_known(rt: HostRuntime) {
    let good = Request {
        min: 4,
        max: 60,
        ..placed(8, 4, 16)
    };
    assert!(rt; good.is_good(4) && good.is_constrained());
}

#[test]
fn powers_of_two_are_known(rt: HostRuntime) {
    let mut power: u64 = 1;
    for k in 0..64 {
        assert!(rt; is_power_of_two(power), "{k}");
        power = power.wrapping_mul(2);
    }
}

#[test]
fn other_numbers_are_no_powers_of_two(rt: HostRuntime) {
    for n in [0, 3, 6, u64::MAX, (1 << 63) + 1] {
        assert!(rt; !is_power_of_two(n), "{n}");
    }
}
