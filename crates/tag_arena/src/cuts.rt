//! Cuts of a deed.
ghost use Rattle.std.specs.Prelude.{◌≡◌, ◌-◌, ◌<◌, ◌≤◌, IfOk, IfErr, IfNone, IfSome};
ghost use Rattle.std.specs.Prelude.{◌+◌, option_to_list};
ghost use Rattle.deed_core.specs.Extent.{end_of};
ghost use Rattle.deed_core.specs.Holding.{join_of, GoesOn};
ghost use Rattle.tag_arena.specs.Calls.{part, rest_between};
ghost use Rattle.tag_arena.specs.Cuts.{IsCut};

use deed_core::{Deed, Segment, Stored};

/// A piece of a deed, and what is left of the deed on either side.
pub(crate) struct Cut<D: Deed> {
    pub low: Option<Stored<D>>,
    pub piece: Stored<D>,
    pub high: Option<Stored<D>>,
}

/// What is below `base`, and what is from there on.
fn cut_low<D: Deed>(
    whole: Stored<D>,
    base: u64,
) -> Result<(Option<Stored<D>>, Stored<D>), Stored<D>>
    requires from { whole.range.base ≤ base }
    requires to { base < end_of whole.range }
    ensures low { IfOk result (λ parts.
        option_to_list parts.0 ≡ rest_between whole whole.range.base base) }
    ensures rest { IfOk result (λ parts. parts.1 ≡ part whole base (end_of whole.range - base)) }
    ensures joins { IfOk result (λ parts. IfSome parts.0 (λ low.
        GoesOn low parts.1 × (join_of low parts.1 ≡ whole))) }
    ensures alone { IfOk result (λ parts. IfNone parts.0 (parts.1 ≡ whole)) }
    ensures handed_back { IfErr result (λ same. same ≡ whole) }
{
    if whole.range().base() == base {
        return Ok((None, whole));
    }
    match whole.split(base) {
        Ok((low, rest)) => Ok((Some(low), rest)),
        Err(same) => Err(same),
    }
}

/// What is below `end`, and what is from there on.
fn cut_high<D: Deed>(
    whole: Stored<D>,
    end: u64,
) -> Result<(Stored<D>, Option<Stored<D>>), Stored<D>>
    requires from { whole.range.base < end }
    requires to { end ≤ end_of whole.range }
    ensures piece { IfOk result (λ parts.
        parts.0 ≡ part whole whole.range.base (end - whole.range.base)) }
    ensures high { IfOk result (λ parts.
        option_to_list parts.1 ≡ rest_between whole end (end_of whole.range)) }
    ensures handed_back { IfErr result (λ same. same ≡ whole) }
{
    if whole.range().end() == end {
        return Ok((whole, None));
    }
    match whole.split(end) {
        Ok((piece, high)) => Ok((piece, Some(high))),
        Err(same) => Err(same),
    }
}

/// The two parts of a cut, together again.
fn rejoin<D: Deed>(low: Option<Stored<D>>, rest: Stored<D>) -> Stored<D>
    requires { IfSome low (λ low. GoesOn low rest) }
    ensures some { IfSome low (λ low. result ≡ join_of low rest) }
    ensures none { IfNone low (result ≡ rest) }
{
    match low {
        Some(low) => low.join(rest),
        None => rest,
    }
}

/// The units from `base` to `end`, or the deed as it was.
pub(crate) fn cut_out<D: Deed>(whole: Stored<D>, base: u64, end: u64) -> Result<Cut<D>, Stored<D>>
    requires from { whole.range.base ≤ base }
    requires some { base < end }
    requires to { end ≤ end_of whole.range }
    ensures cut { IfOk result (λ cut. IsCut whole base end cut.low cut.piece cut.high) }
    ensures handed_back { IfErr result (λ same. same ≡ whole) }
{
    let (low, rest) = match cut_low(whole, base) {
        Ok(parts) => parts,
        Err(same) => return Err(same),
    };
    match cut_high(rest, end) {
        Ok((piece, high)) => Ok(Cut { low, piece, high }),
        Err(rest) => Err(rejoin(low, rest)),
    }
}

/// Cuts the first `len` units off a segment's deed.
pub(crate) fn cut_first<D: Deed>(
    segment: Segment<D>,
    len: u64,
) -> Result<(Stored<D>, Option<Stored<D>>), Segment<D>>
    requires some { 0 < len }
    requires to { len ≤ segment.holding.range.len }
    ensures piece { IfOk result (λ parts.
        parts.0 ≡ part segment.holding segment.holding.range.base len) }
    ensures high { let whole = segment.holding in IfOk result (λ parts.
        option_to_list parts.1 ≡ rest_between whole (whole.range.base + len) (end_of whole.range)) }
    ensures handed_back { IfErr result (λ same. same ≡ segment) }
{
    let (arena, route, range) = (segment.arena(), segment.route(), segment.range());
    let _ = range.end();
    match cut_high(Stored::new(segment.into_deed()), range.base() + len) {
        Ok(parts) => Ok(parts),
        Err(same) => Err(Segment::new(arena, route, same.into_deed())),
    }
}
