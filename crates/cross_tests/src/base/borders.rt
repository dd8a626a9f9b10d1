//! The law of deeds over each type of deed, and what a refused split leaves.
ghost use Rattle.std.specs.Prelude.{◌≡◌};

use super::range;
use deed_core::{Deed, PlainDeed, Refused, join_three, move_border};
use refusing_deed::RefusingDeed;
use std::process::Abort;

#[test]
fn a_border_moves_over_plain_deeds(rt: HostRuntime) {
    let deed = border_moved(&rt, PlainDeed::new(7, range(&rt, 8, 12)));
    assert_eq!(rt; deed.close(), range(&rt, 8, 12));
}

#[test]
fn a_border_moves_over_counting_deeds(rt: HostRuntime) {
    let deed = border_moved(&rt, RefusingDeed::new(5, range(&rt, 8, 12), 9));
    assert_eq!(rt; deed.close(), range(&rt, 8, 12));
}

/// Twelve units from 8 on are cut at 12, the border moves to 17 and to 9, the upper part is cut
/// again, and the three parts are made whole.
pub fn border_moved<D: Deed, R: Abort>(rt: &R, deed: D) -> D
    requires { (D.holding deed).range ≡ record { base = 8; len = 12 } }
    ensures { D.holding result ≡ D.holding deed }
{
    let root = deed.root();
    let (low, high) = match deed.split(12) {
        Ok(parts) => parts,
        Err(refused) => stuck(rt, refused),
    };
    let (low, high) = match move_border(low, high, 17) {
        Ok(parts) => parts,
        Err(both) => stuck(rt, both),
    };
    assert_eq!(rt; bounds(&low), (root, 8, 9));
    assert_eq!(rt; bounds(&high), (root, 17, 3));
    let (low, high) = match move_border(low, high, 9) {
        Ok(parts) => parts,
        Err(both) => stuck(rt, both),
    };
    assert_eq!(rt; bounds(&low), (root, 8, 1));
    assert_eq!(rt; bounds(&high), (root, 9, 11));
    let (middle, high) = match high.split(12) {
        Ok(parts) => parts,
        Err(refused) => stuck(rt, refused),
    };
    join_three(low, middle, high)
}

/// The second split is refused, of the lower deed and then of the upper one: both come back as they
/// were, and the next try goes well.
#[test]
fn a_refused_border_stays(rt: HostRuntime) {
    for (at, len) in [(10, 2), (17, 9)] {
        let deed = RefusingDeed::new(5, range(&rt, 8, 12), 1);
        let (low, high) = match deed.split(12) {
            Ok(parts) => parts,
            Err(refused) => stuck(&rt, refused),
        };
        let (low, high) = match move_border(low, high, at) {
            Ok(_) => panic!(rt; "the second split is refused"),
            Err(both) => both,
        };
        assert_eq!(rt;
            (bounds(&low), bounds(&high)),
            ((5, 8, 4), (5, 12, 8)),
            "{at}"
        );
        let (low, high) = match move_border(low, high, at) {
            Ok(parts) => parts,
            Err(both) => stuck(&rt, both),
        };
        assert_eq!(rt; bounds(&low), (5, 8, len), "{at}");
        assert_eq!(rt; low.join(high).close(), range(&rt, 8, 12), "{at}");
    }
}

#[test]
fn a_refused_split_leaves_the_deed(rt: HostRuntime) {
    match RefusingDeed::new(5, range(&rt, 8, 12), 0).split(10) {
        Ok(_) => panic!(rt; "the first split is refused"),
        Err(Refused { deed }) => {
            assert_eq!(rt; deed.splits_left, None);
            assert_eq!(rt; deed.close(), range(&rt, 8, 12));
        }
    }
}

/// The root, the base and the length.
fn bounds<D: Deed>(deed: &D) -> (u32, u64, u64) {
    let range = deed.range();
    (deed.root(), range.base(), range.len())
}

/// Ends the test, with what it held.
fn stuck<X, R: Abort>(rt: &R, held: X) -> ! {
    let _held = held;
    panic!(rt; "refused")
}
