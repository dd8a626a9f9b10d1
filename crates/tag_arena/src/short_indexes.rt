//! The numbers of slots and of cells, in a quarter of the room of an `Option<usize>`.
ghost use Rattle.std.specs.Prelude.{◌≡◌, ◌<◌, None, IfSome};

use std::marker::Model;

/// What stands for none.
const NO_INDEX: u32 = u32::MAX;

/// How many can be told apart: 4,294,967,295.
pub(crate) const MOST_INDEXES: usize = NO_INDEX as usize;

/// The number of a slot or of a cell, below `MOST_INDEXES`, or none.
#[derive(Clone, Copy, Debug)]
pub(crate) struct ShortIndex {
    number: u32,
}

impl Model for ShortIndex {
    ghost use Rattle.std.specs.Prelude.{ℕ, Option};
    ghost use Rattle.tag_arena.specs.ShortIndexes.{index_of, number_of, number_of-index_of};
    ghost use Rattle.std.proofs.Common.{ap};

    ghost Value = { Option ℕ };

    ghost view = { λ i. index_of i.number };

    ghost inverse = { λ i. record { number = number_of i } };

    ghost inverse_ok = { λ i h. ap (λ n. record { number = n }) (number_of-index_of i.number) };
}

impl ShortIndex {
    /// None.
    pub(crate) fn none() -> ShortIndex
        ensures { result ≡ None }
    {
        ShortIndex { number: NO_INDEX }
    }

    /// A number, if there is one. One that is too great counts as none.
    pub(crate) fn to(index: Option<usize>) -> ShortIndex
        ensures { IfSome index (λ i. i < MOST_INDEXES) → result ≡ index }
    {
        match index {
            Some(at) if at < MOST_INDEXES => ShortIndex { number: at as u32 },
            _ => ShortIndex::none(),
        }
    }

    /// The number, if there is one.
    pub(crate) fn get(self) -> Option<usize>
        ensures { result ≡ self }
    {
        if self.number == NO_INDEX {
            return None;
        }
        Some(self.number as usize)
    }
}
