//! Lists of the bases of slabs.
ghost use Rattle.std.specs.Prelude.{
  ◌≡◌,
  ℕ,
  ◌<◌,
  ◌++◌,
  ◌∷◌,
  [],
  max,
  length,
  List,
  true,
  false,
  MatchOption,
  OnOk,
  OnErr,
};
ghost use Rattle.slab_layer.specs.Bases.{base_if, IsAround};

use sorted_rows::{RowEntry, Rows};
use std::alloc::{AllocError, Global};
use std::marker::Model;

/// A base as it stands in a sorted list.
#[derive(Clone, Copy, Debug)]
struct SlabBase {
    base: u64,
}

impl Model for SlabBase {
    ghost use Rattle.std.specs.Prelude.{ℕ};

    ghost Value = { ℕ };

    ghost view = { λ s. s.base };

    ghost inverse = { λ n. record { base = n } };
}

impl RowEntry for SlabBase {
    type Measure = ();

    ghost rank = { λ b. b };

    ghost weight = { λ m b. 0 };

    fn key(&self) -> u128 {
        u128::from(self.base)
    }

    fn weight(&self, _measure: ()) -> u64 {
        0
    }

    fn is_same(_one: (), _other: ()) -> bool {
        true
    }

    fn first_measure() {}
}

/// The bases of some of the slabs of a cache, in order.
#[derive(Drop)]
pub(crate) struct Bases {
    rows: Rows<SlabBase>,
}

impl Model for Bases {
    ghost use Rattle.std.specs.Prelude.{ℕ};
    ghost use Rattle.sorted_rows.specs.Layout.{RowsState};

    ghost Value = { RowsState ℕ };

    ghost view = { λ b. b.rows };
}

impl Bases {
    /// None, and no room for one.
    pub(crate) fn new(alloc: Global) -> Bases
        ensures items { result.items ≡ [] }
        ensures room { result.room ≡ 0 }
    {
        Bases {
            rows: Rows::new(alloc),
        }
    }

    /// Makes room for so many in all.
    pub(crate) fn reserve(&mut self, alloc: Global, room: usize) -> Result<(), AllocError>
        ensures ok { OnOk result (self.new.room ≡ max room self.old.room) }
        ensures unchanged { OnErr result (self.new.room ≡ self.old.room) }
        ensures items { self.new.items ≡ self.old.items }
    {
        self.rows.reserve(alloc, room)
    }

    /// The lowest.
    pub(crate) fn lowest(&self) -> Option<u64>
        ensures { MatchOption result (self.now.items ≡ [])
            (λ base. (rest : List ℕ) × (self.now.items ≡ base ∷ rest)) }
    {
        let lowest = self.rows.least_from(0)?;
        Some(lowest.base)
    }

    /// Lists a base, or takes it off, or neither: it `was_listed` or not, and is to be or not. It
    /// takes no memory.
    pub(crate) fn relist(&mut self, base: u64, was_listed: bool, listed: bool)
        requires place { (low : List ℕ) × (high : List ℕ) × IsAround base low high
            × (self.old.items ≡ low ++ (base_if was_listed base ++ high)) }
        requires room { was_listed ≡ false → listed ≡ true
            → length self.old.items < self.old.room }
        ensures items { (low high : List ℕ) → IsAround base low high
            → self.old.items ≡ low ++ (base_if was_listed base ++ high)
            → self.new.items ≡ low ++ (base_if listed base ++ high) }
        ensures room { self.new.room ≡ self.old.room }
    {
        if was_listed == listed {
            return;
        }
        if listed {
            self.rows.insert(SlabBase { base });
        } else {
            let _ = self.rows.remove(u128::from(base));
        }
    }
}
