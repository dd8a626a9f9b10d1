//! What a step on the word is told, in the proofs alone.
ghost use Rattle.std.specs.Prelude.{ℕ};

use std::marker::Brand;

/// A number that a call picks, with `Brand`.
pub(crate) trait Chosen {
    ghost number: { ℕ };
}

impl Chosen for Brand {
    ghost number = { 0 };
}

/// A range that a call picks, with `Brand`.
pub(crate) trait ChosenRange {
    ghost use Rattle.deed_core.specs.Extent.{Extent};

    ghost range: { Extent };
}

impl ChosenRange for Brand {
    ghost range = { record { base = 0; len = 1 } };
}
