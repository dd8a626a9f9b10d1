//! Deeds that are missing where they would cover nothing: a colour gap of colour 0, a tail of no
//! units.
ghost use Rattle.std.specs.Prelude.{◌≡◌, IfOk, IfErr};
ghost use Rattle.slab_layer.specs.Parts.{front_of, back_of, Follows, joined_parts};

use deed_core::{Deed, Stored};

/// What a cut gives: the first units, and those behind them.
pub(crate) type Cut<D> = (Option<Stored<D>>, Option<Stored<D>>);

/// Cuts a part behind its first `len` units, or gives it back as it was.
pub(crate) fn cut<D: Deed>(part: Option<Stored<D>>, len: u64) -> Result<Cut<D>, Option<Stored<D>>>
    ensures ok { IfOk result (λ parts. (parts.0 ≡ front_of len part)
        × (parts.1 ≡ back_of len part)) }
    ensures handed_back { IfErr result (λ same. same ≡ part) }
{
    let Some(deed) = part else {
        return Ok((None, None));
    };
    if len == 0 {
        // For its clause: the deed has a unit, so what is behind its first none is all of it.
        let _ = deed.range();
        return Ok((None, Some(deed)));
    }
    let range = deed.range();
    if range.len() <= len {
        return Ok((Some(deed), None));
    }
    match deed.split(range.base() + len) {
        Ok((low, high)) => Ok((Some(low), Some(high))),
        Err(same) => Err(Some(same)),
    }
}

/// Joins a part and the one that goes on from it.
pub(crate) fn join<D: Deed>(low: Option<Stored<D>>, high: Option<Stored<D>>) -> Option<Stored<D>>
    requires { Follows low high }
    ensures { result ≡ joined_parts low high }
{
    let Some(first) = low else {
        return high;
    };
    let Some(second) = high else {
        return Some(first);
    };
    Some(first.join(second))
}
