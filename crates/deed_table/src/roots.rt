//! Roots: whole ranges that were opened, and how they end.
ghost use Rattle.std.specs.Prelude.{◌≡◌, ◌↔◌, IsOk, IfOk, IfErr};
ghost use Rattle.deed_core.specs.Extent.{IsRange};
ghost use Rattle.deed_core.specs.Holding.{Holding};

use crate::deeds::SeatDeed;
use crate::names::Name;
use deed_core::Range;
use std::marker::{Model, PhantomData};

/// A root that was opened, which ends only by `close`. Contracts see it as the deed of the whole.
pub struct Root<N: Name> {
    pub(crate) number: u32,
    pub(crate) range: Range,
    pub(crate) name: PhantomData<N>,
}

impl<N: Name> Model for Root<N> {
    ghost Value = { Holding };

    ghost view = { λ r. record { root = r.number; range = r.range } };

    ghost invariant = { λ r. IsRange r.range };
}

impl<N: Name> Root<N> {
    /// The number that no other root of the table has.
    pub fn number(&self) -> u32
        ensures { result ≡ self.now.root }
    {
        self.number
    }

    /// The units of the whole.
    pub fn range(&self) -> Range
        ensures value { result ≡ self.now.range }
        ensures range { IsRange result }
    {
        self.range
    }
}

/// Ends a root by the deed of the whole. At `Err` the deed is not that, and both come back. Its
/// number is never opened again.
pub fn close<N: Name>(root: Root<N>, deed: SeatDeed<N>) -> Result<Range, (Root<N>, SeatDeed<N>)>
    ensures whole { IsOk result ↔ (deed ≡ root) }
    ensures range { IfOk result (λ range. range ≡ root.range) }
    ensures handed_back { IfErr result (λ both. both ≡ (root, deed)) }
{
    if deed.root != root.number || deed.range != root.range {
        return Err((root, deed));
    }
    let Root {
        number: _,
        range,
        name: _,
    } = root;
    let SeatDeed {
        root: _,
        range: _,
        seat: _,
        table: _,
        name: _,
    } = deed;
    Ok(range)
}
