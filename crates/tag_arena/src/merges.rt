//! A deed and its neighbours.
ghost use Rattle.std.specs.Prelude.{◌≡◌, IfSome};
ghost use Rattle.std.specs.Option.{option_map_or};
ghost use Rattle.deed_core.specs.Extent.{end_of};
ghost use Rattle.deed_core.specs.Holding.{GoesOn};

use deed_core::{Deed, Stored};

/// The deed and the one before it, if there is one.
pub(crate) fn join_left<D: Deed>(left: Option<Stored<D>>, deed: Stored<D>) -> Stored<D>
    requires { IfSome left (λ left. GoesOn left deed) }
    ensures root { result.root ≡ deed.root }
    ensures base { result.range.base
        ≡ option_map_or (λ left. left.range.base) left deed.range.base }
    ensures end { end_of result.range ≡ end_of deed.range }
{
    match left {
        Some(left) => left.join(deed),
        None => deed,
    }
}

/// The deed and the one behind it, if there is one.
pub(crate) fn join_right<D: Deed>(deed: Stored<D>, right: Option<Stored<D>>) -> Stored<D>
    requires { IfSome right (λ right. GoesOn deed right) }
    ensures root { result.root ≡ deed.root }
    ensures base { result.range.base ≡ deed.range.base }
    ensures end { end_of result.range
        ≡ option_map_or (λ right. end_of right.range) right (end_of deed.range) }
{
    match right {
        Some(right) => deed.join(right),
        None => deed,
    }
}
