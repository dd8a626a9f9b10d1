//! Ranges, and where they end.
use super::range;
use deed_core::{LIMIT, Range};

#[test]
fn ranges_end_at_the_limit(rt: HostRuntime) {
    assert_eq!(rt; LIMIT, 4611686018427387904);
    let last = range(&rt, LIMIT - 16, 16);
    assert_eq!(rt; last.end(), LIMIT);
    for (base, len) in [
        (LIMIT - 16, 17),
        (LIMIT, 1),
        (0, LIMIT + 1),
        (5, 0),
        (u64::MAX, u64::MAX),
        (1, u64::MAX),
    ] {
        assert!(rt; Range::new(base, len).is_none(), "{base} {len}");
    }
    let (low, high) = (range(&rt, 0, 8), range(&rt, 8, 8));
    assert!(rt; !low.overlaps(&high));
    assert!(rt; low.overlaps(&range(&rt, 7, 1)));
}
