//! What stands in an index.
ghost use Rattle.std.specs.Prelude.{◌≡◌, ◌+◌, ◌*◌, ◌^◌};

use crate::reaches::Measure;
use deed_core::LIMIT;
use sorted_rows::RowEntry;

/// A free range in one order: the two numbers of its key, and its slot.
#[derive(Clone, Copy, Debug)]
pub(crate) struct IndexEntry {
    pub major: u64,
    pub minor: u64,
    pub slot: usize,
}

/// The key of two numbers: by the first, then by the second.
pub(crate) fn key_of(major: u64, minor: u64) -> u128
    ensures { result ≡ major * 2 ^ 64 + minor }
{
    (major as u128) * (1 << 64) + minor as u128
}

impl RowEntry for IndexEntry {
    ghost use Rattle.tag_arena.specs.Orders.{rank_of, weight_of};

    type Measure = Measure;

    ghost rank = { rank_of };

    ghost weight = { weight_of };

    fn key(&self) -> u128 {
        key_of(self.major, self.minor)
    }

    fn weight(&self, measure: Measure) -> u64 {
        match measure {
            Measure::Minor => self.minor,
            Measure::Reach(grid) => {
                // An entry of sizes is of a range, which no bound changes.
                let end = self.major.saturating_add(self.minor);
                grid.reach(self.minor.min(LIMIT), end.min(LIMIT))
            }
        }
    }

    fn is_same(one: Measure, other: Measure) -> bool {
        one == other
    }

    fn first_measure() -> Measure {
        Measure::Minor
    }
}
