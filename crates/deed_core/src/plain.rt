//! Deeds that are numbers alone, for one thread.
ghost use Rattle.std.specs.Prelude.{◌≡◌, IsOk, IfOk, IfErr};
ghost use Rattle.deed_core.specs.Extent.{IsRange, IsInside};
ghost use Rattle.deed_core.specs.Holding.{Holding, low_side, high_side};

use crate::deeds::{Deed, Refused};
use crate::ranges::Range;
use std::marker::Model;

/// A deed that stands for a range by its numbers alone. Nothing keeps two of them apart but the
/// code that makes them, so they serve one thread that makes each root once. Contracts see it as
/// its root and its range.
pub struct PlainDeed {
    root: u32,
    range: Range,
}

impl Model for PlainDeed {
    ghost Value = { Holding };

    ghost view = { λ d. record { root = d.root; range = d.range } };

    ghost invariant = { λ d. IsRange d.range };
}

impl PlainDeed {
    /// The deed of a range of the root with this number.
    pub fn new(root: u32, range: Range) -> PlainDeed
        ensures { result ≡ record { root = root; range = range } }
    {
        let _ = range.len();
        PlainDeed { root, range }
    }

    /// Ends the deed, and tells what it covered.
    pub fn close(self) -> Range
        ensures { result ≡ self.range }
    {
        let PlainDeed { root: _, range } = self;
        range
    }
}

impl Deed for PlainDeed {
    ghost holding = { λ d. d };

    fn root(&self) -> u32 {
        self.root
    }

    fn range(&self) -> Range {
        self.range
    }

    /// A plain deed takes no memory, so its split is never refused.
    fn split(self, at: u64) -> Result<(PlainDeed, PlainDeed), Refused<PlainDeed>>
        requires { IsInside at self.range }
        ensures ok { IfOk result (λ parts.
            (parts.0 ≡ low_side at self) × (parts.1 ≡ high_side at self)) }
        ensures handed_back { IfErr result (λ refused. refused.deed ≡ self) }
        ensures succeeds { IsOk result }
    {
        let PlainDeed { root, range } = self;
        let (low, high) = range.split_at(at);
        Ok((PlainDeed::new(root, low), PlainDeed::new(root, high)))
    }

    fn join(self, next: PlainDeed) -> PlainDeed {
        let PlainDeed { root, range } = self;
        PlainDeed::new(root, range.join(next.close()))
    }
}
