//! Deeds: tokens that stand for ranges.
ghost use Rattle.std.specs.Prelude.{◌≡◌, ◌+◌, ◌^◌, ◌<◌, ◌≤◌, IfOk, IfErr};
ghost use Rattle.deed_core.specs.Extent.{IsRange, IsInside};
ghost use Rattle.deed_core.specs.Holding.{Holding, low_side, high_side, join_of, GoesOn};

use crate::ranges::Range;

/// A split that was out of memory.
pub struct Refused<D> {
    /// The deed as it was.
    pub deed: D,
}

/// A token that covers one range of one root. A type of deeds is neither `Copy` nor `Drop`, so a
/// deed ends only by a call that its type has for that. The deeds of one system carry one name in
/// their type, under which a root's number stands for one root.
pub trait Deed {
    /// The root, and the range of it.
    ghost holding: { Self → Holding };

    /// The number of the root.
    fn root(&self) -> u32
        ensures { result ≡ (holding self.now).root };

    /// The units that it covers.
    fn range(&self) -> Range
        ensures value { result ≡ (holding self.now).range }
        ensures range { IsRange result };

    /// The deeds of the units below `at` and from `at` on. It is refused only when out of memory.
    fn split(self, at: u64) -> Result<(Self, Self), Refused<Self>>
        requires { IsInside at (holding self).range }
        ensures ok { IfOk result (λ parts.
            (holding parts.0 ≡ low_side at (holding self))
            × (holding parts.1 ≡ high_side at (holding self))) }
        ensures handed_back { IfErr result (λ refused. holding refused.deed ≡ holding self) };

    /// One deed for what this one and the next cover. It takes no memory.
    fn join(self, next: Self) -> Self
        requires { GoesOn (holding self) (holding next) }
        ensures { holding result ≡ join_of (holding self) (holding next) };
}
