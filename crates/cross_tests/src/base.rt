//! What `deed_core` and `refusing_deed` do: ranges, requests, segments and deeds.
ghost use Rattle.std.specs.Prelude.{◌≡◌};
ghost use Rattle.deed_core.specs.Extent.{IsRange};

mod borders;
mod openers;
mod ranges;
mod requests;
mod segments;

pub use borders::border_moved;
use deed_core::Range;
use std::process::Abort;

fn range(rt: &impl Abort, base: u64, len: u64) -> Range
    ensures value { result ≡ record { base = base; len = len } }
    ensures range { IsRange result }
{
    Range::new(base, len).expect(rt, "a range")
}
