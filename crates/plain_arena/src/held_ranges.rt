//! What a deed stands for, as plain data.
ghost use Rattle.std.specs.Prelude.{◌≡◌, ◌<◌, HoldsAt, length};
ghost use Rattle.deed_core.specs.Extent.{IsRange, end_of};

use deed_core::{Deed, Range, Stored};
use std::marker::Model;

/// A range of a root. A contract sees it as a deed of the same is seen.
#[derive(Clone, Copy, PartialEq, Eq, Debug)]
pub(crate) struct HeldRange {
    root: u32,
    range: Range,
}

impl Model for HeldRange {
    ghost use Rattle.deed_core.specs.Holding.{Holding};

    ghost Value = { Holding };

    ghost view = { λ s. record { root = s.root; range = s.range } };

    ghost inverse = { λ h. record { root = h.root; range = h.range } };
}

impl HeldRange {
    /// This range of this root.
    pub(crate) fn new(root: u32, range: Range) -> HeldRange
        ensures { result ≡ record { root = root; range = range } }
    {
        HeldRange { root, range }
    }

    /// The root that it is a range of.
    pub(crate) fn root(&self) -> u32
        ensures { result ≡ self.now.root }
    {
        self.root
    }

    /// Its units, without the root.
    pub(crate) fn range(&self) -> Range
        ensures { result ≡ self.now.range }
    {
        self.range
    }

    /// Its first unit.
    pub(crate) fn base(&self) -> u64
        ensures value { result ≡ self.now.range.base }
        ensures range { IsRange self.now.range }
    {
        self.range.base()
    }

    /// How many units it has.
    pub(crate) fn len(&self) -> u64
        ensures value { result ≡ self.now.range.len }
        ensures range { IsRange self.now.range }
    {
        self.range.len()
    }

    /// The first unit past it.
    pub(crate) fn end(&self) -> u64
        ensures value { result ≡ end_of self.now.range }
        ensures range { IsRange self.now.range }
    {
        self.range.end()
    }
}

/// What the deed stands for.
pub(crate) fn held_range_of<D: Deed>(stored: &Stored<D>) -> HeldRange
    ensures value { result ≡ stored.now }
    ensures range { IsRange stored.now.range }
{
    HeldRange::new(stored.root(), stored.range())
}

/// What the deed at an index stands for.
pub(crate) fn held_range_at<D: Deed>(free: &[Stored<D>], at: usize) -> HeldRange
    requires { at < length free.now }
    ensures here { HoldsAt (λ r. r ≡ result) free.now at }
    ensures range { IsRange result.range }
{
    held_range_of(&free[at])
}
