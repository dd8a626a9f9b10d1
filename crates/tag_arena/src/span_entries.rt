//! A span as it stands in a sorted list.
ghost use Rattle.std.specs.Prelude.{◌≡◌};

use crate::held_ranges::HeldRange;
use sorted_rows::RowEntry;

/// A span, the arena that it came from, and how many came before it.
#[derive(Clone, Copy, Debug)]
pub(crate) struct SpanEntry {
    pub span: HeldRange,
    pub source: u32,
    pub since: u64,
}

impl RowEntry for SpanEntry {
    ghost use Rattle.tag_arena.specs.Spanned.{end_rank};

    type Measure = ();

    ghost rank = { end_rank };

    ghost weight = { λ m e. 0 };

    fn key(&self) -> u128 {
        self.span.end() as u128
    }

    fn weight(&self, _measure: ()) -> u64 {
        0
    }

    fn is_same(_one: (), _other: ()) -> bool {
        true
    }

    fn first_measure() {}
}
