//! What opens plain deeds.
ghost use Rattle.std.specs.Prelude.{◌≡◌, ◌-◌, ◌<◌};

use deed_core::{Deed, Opens, PlainDeed, PlainOpener, Range};
use std::process::Abort;

/// Opens the units from 8 to 11, as the root of this number.
fn open(rt: &impl Abort, opener: &mut PlainOpener, number: u32) -> PlainDeed
    requires { 0 < opener.old.left }
    ensures { opener.new.left ≡ opener.old.left - 1 }
{
    let range = Range::new(8, 4).expect(rt, "a range");
    let deed: PlainDeed = opener.open(range).expect(rt, "it takes no memory");
    assert_eq!(rt; (deed.root(), deed.range()), (number, range));
    deed
}

/// Roots get one number after another, and may be of one range: it is for the caller to keep them
/// apart.
#[test]
fn numbers_go_on(rt: HostRuntime) {
    let mut opener = PlainOpener::new(7, 3);
    open(&rt, &mut opener, 7).close();
    open(&rt, &mut opener, 8).close();
    open(&rt, &mut opener, 9).close();
}
