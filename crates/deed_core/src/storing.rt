//! Deeds that lie in vectors.
ghost use Rattle.std.specs.Prelude.{◌≡◌, IfOk, IfErr};
ghost use Rattle.deed_core.specs.Extent.{IsRange, IsInside};
ghost use Rattle.deed_core.specs.Holding.{low_side, high_side, join_of, GoesOn};

use crate::deeds::{Deed, Refused};
use crate::ranges::Range;
use std::marker::Model;

/// A deed in a collection. Contracts see it as the range and the root that it stands for, so a
/// vector of these is a plain list to them.
pub struct Stored<D: Deed> {
    deed: D,
}

impl<D: Deed> Model for Stored<D> {
    ghost use Rattle.deed_core.specs.Holding.{Holding};

    ghost Value = { Holding };

    ghost view = { λ s. D.holding s.deed };
}

impl<D: Deed> Stored<D> {
    /// The deed as one that can lie in a collection.
    pub fn new(deed: D) -> Stored<D>
        ensures { result ≡ D.holding deed }
    {
        Stored { deed }
    }

    /// The deed itself.
    pub fn into_deed(self) -> D
        ensures { D.holding result ≡ self }
    {
        let Stored { deed } = self;
        deed
    }

    /// The number of the root.
    pub fn root(&self) -> u32
        ensures { result ≡ self.now.root }
    {
        self.deed.root()
    }

    /// The units that the deed stands for.
    pub fn range(&self) -> Range
        ensures value { result ≡ self.now.range }
        ensures range { IsRange result }
    {
        self.deed.range()
    }

    /// The deeds of the units below `at` and from `at` on. Out of memory, the deed as it was.
    pub fn split(self, at: u64) -> Result<(Stored<D>, Stored<D>), Stored<D>>
        requires { IsInside at self.range }
        ensures ok { IfOk result (λ parts.
            (parts.0 ≡ low_side at self) × (parts.1 ≡ high_side at self)) }
        ensures handed_back { IfErr result (λ same. same ≡ self) }
    {
        match self.into_deed().split(at) {
            Ok((low, high)) => Ok((Stored::new(low), Stored::new(high))),
            Err(refused) => {
                let Refused { deed } = refused;
                Err(Stored::new(deed))
            }
        }
    }

    /// One deed for what this one and the next stand for.
    pub fn join(self, next: Stored<D>) -> Stored<D>
        requires { GoesOn self next }
        ensures { result ≡ join_of self next }
    {
        Stored::new(self.into_deed().join(next.into_deed()))
    }
}
