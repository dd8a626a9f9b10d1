//! The allocated ranges, by their bases.
ghost use Rattle.std.specs.Prelude.{◌≡◌, ◌+◌, ◌^◌, ◌<◌, OnOk, OnErr, Some, None};
ghost use Rattle.std.specs.FinMap as finmap;

use crate::held_ranges::HeldRange;
use std::alloc::{AllocError, Global};
use std::collections::HashMap;
use std::marker::Model;

/// Each allocated range at its base, and how many they are.
#[derive(Drop)]
pub(crate) struct Tags {
    ranges: HashMap<u64, HeldRange>,
    count: usize,
}

impl Model for Tags {
    ghost use Rattle.std.specs.Prelude.{◌≡◌};
    ghost use Rattle.std.specs.Ordering.{nat_cmp};
    ghost use Rattle.std.specs.Coded.{codes, coded_ℕ};
    ghost use Rattle.std.specs.FinMap as finmap;
    ghost use Rattle.deed_core.specs.Holding.{Holding};

    ghost Value = { finmap.FinMap nat_cmp Holding };

    ghost coded = { finmap.code coded_ℕ (Prim.hlevel codes) };

    ghost view = { λ a. finmap.from_entries a.ranges.entries };

    ghost invariant = { λ a.
        a.count ≡ finmap.len (finmap.from_entries {R = nat_cmp} a.ranges.entries) };
}

impl Tags {
    /// No range.
    pub(crate) fn new(alloc: Global) -> Tags
        ensures { result ≡ finmap.empty }
    {
        Tags {
            ranges: HashMap::new(alloc),
            count: 0,
        }
    }

    /// How many ranges are allocated.
    pub(crate) fn len(&self) -> usize
        ensures { result ≡ finmap.len self.now }
    {
        self.count
    }

    /// The allocated range at a base, where one stands.
    pub(crate) fn get(&self, base: u64) -> Option<HeldRange>
        ensures { result ≡ finmap.get self.now base }
    {
        self.ranges.get(&base).copied()
    }

    /// Puts in a range at whose base none stands.
    pub(crate) fn insert(&mut self, range: HeldRange) -> Result<(), AllocError>
        requires absent { finmap.get self.old range.range.base ≡ None }
        requires room { finmap.len self.old + 1 < 2 ^ 64 }
        ensures ok { OnOk result (self.new ≡ finmap.insert self.old range.range.base range) }
        ensures unchanged { OnErr result (self.new ≡ self.old) }
    {
        self.ranges.insert(range.base(), range)?;
        self.count += 1;
        Ok(())
    }

    /// Takes out a range that stands.
    pub(crate) fn remove(&mut self, range: HeldRange)
        requires { finmap.get self.old range.range.base ≡ Some range }
        ensures { self.new ≡ finmap.remove self.old range.range.base }
    {
        self.ranges.remove(&range.base());
        self.count -= 1;
    }
}
