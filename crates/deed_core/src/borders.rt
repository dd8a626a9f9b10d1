//! Laws of deeds, as code over any type of them: what is split off one deed is joined to another,
//! and three deeds end to end are one, whichever two are joined first.
ghost use Rattle.std.specs.Prelude.{◌≡◌, ◌⊎◌, IfOk, IfErr};
ghost use Rattle.deed_core.specs.Extent.{IsInside};
ghost use Rattle.deed_core.specs.Holding.{GoesOn, join_of, low_side, high_side};

use crate::deeds::{Deed, Refused};

/// Moves the border between two deeds that meet: the one that has `at` inside is split there, and
/// its part that lies on the other's side is joined to the other. That gives the split at `at` of
/// what both cover. Out of memory, both come back as they were.
pub fn move_border<D: Deed>(first: D, second: D, at: u64) -> Result<(D, D), (D, D)>
    requires meet { GoesOn (D.holding first) (D.holding second) }
    requires inside { IsInside at (D.holding first).range ⊎ IsInside at (D.holding second).range }
    ensures low { IfOk result
        (λ parts. D.holding parts.0 ≡ low_side at (join_of (D.holding first) (D.holding second))) }
    ensures high { IfOk result
        (λ parts. D.holding parts.1 ≡ high_side at (join_of (D.holding first) (D.holding second))) }
    ensures handed_back { IfErr result (λ both.
        (D.holding both.0 ≡ D.holding first) × (D.holding both.1 ≡ D.holding second)) }
{
    if at < first.range().end() {
        return match first.split(at) {
            Ok((low, high)) => Ok((low, high.join(second))),
            Err(Refused { deed }) => Err((deed, second)),
        };
    }
    match second.split(at) {
        Ok((low, high)) => Ok((first.join(low), high)),
        Err(Refused { deed }) => Err((first, deed)),
    }
}

/// Joins three deeds end to end, the last two first. That gives what joining the first two first
/// does.
pub fn join_three<D: Deed>(first: D, second: D, third: D) -> D
    requires near { GoesOn (D.holding first) (D.holding second) }
    requires far { GoesOn (D.holding second) (D.holding third) }
    ensures { D.holding result
        ≡ join_of (join_of (D.holding first) (D.holding second)) (D.holding third) }
{
    first.join(second.join(third))
}
