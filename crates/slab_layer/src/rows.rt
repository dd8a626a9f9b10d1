//! A deed cut into a row of chunks, and a row joined.
ghost use Rattle.std.specs.Prelude.{
  ◌≡◌,
  ◌+◌,
  ◌-◌,
  ◌*◌,
  ◌<◌,
  ◌≤◌,
  [],
  true,
  false,
  map,
  is_some,
  replicate,
  All,
  vec_capacity,
  MatchOption,
  IfOk,
  IfErr,
  OnOk,
  OnErr,
};
ghost use Rattle.deed_core.specs.Holding.{piece};
ghost use Rattle.slab_layer.specs.Parts.{piece_or_none, AreEndToEnd, joined_row};
ghost use Rattle.slab_layer.specs.Slab.{IsLowestIdle, stored_row};

use crate::parts::{cut, join};
use deed_core::{Deed, Stored};

/// The first place with a deed.
pub(crate) fn first_some<D: Deed>(row: &[Option<Stored<D>>]) -> Option<usize>
    ensures { MatchOption result (All (λ b. b ≡ false) (map is_some row.now))
        (λ j. IsLowestIdle j (map is_some row.now)) }
{
    for (j, deed) in row.iter().enumerate() {
        if deed.is_some() {
            return Some(j);
        }
    }
    None
}

/// Joins a row of parts and what is behind it.
pub(crate) fn unchop<D: Deed>(
    row: &mut Vec<Option<Stored<D>>>,
    rest: Option<Stored<D>>,
) -> Option<Stored<D>>
    requires { AreEndToEnd row.old.items rest }
    ensures joined { result ≡ joined_row row.old.items rest }
    ensures empty { row.new.items ≡ [] }
{
    let mut rest = rest;
    while let Some(last) = row.pop() {
        rest = join(last, rest);
    }
    rest
}

/// Cuts `count` chunks off a deed, and gives what is left. Out of memory, the deed is whole
/// again.
pub(crate) fn chop<D: Deed>(
    row: &mut Vec<Option<Stored<D>>>,
    whole: Stored<D>,
    chunk: u64,
    count: usize,
) -> Result<Option<Stored<D>>, Stored<D>>
    requires empty { row.old.items ≡ [] }
    requires capacity { count ≤ vec_capacity row.old }
    requires some { 0 < chunk }
    requires room { count * chunk ≤ whole.range.len }
    ensures ok { IfOk result (λ rest. rest
        ≡ piece_or_none whole.root (whole.range.base + count * chunk)
        (whole.range.len - count * chunk)) }
    ensures row { OnOk result (row.new.items
        ≡ stored_row (λ i. piece whole.root (whole.range.base + i * chunk) chunk) 0
        (replicate count true)) }
    ensures handed_back { IfErr result (λ same. same ≡ whole) }
    ensures emptied { OnErr result (row.new.items ≡ []) }
{
    // For its clause: the deed has a unit.
    let _ = whole.range();
    let mut rest = Some(whole);
    for done in 0..count {
        match cut(rest, chunk) {
            Ok((low, high)) => {
                row.push_reserved(low);
                rest = high;
            }
            Err(same) => return Err(unchop(row, same).unwrap()),
        }
    }
    Ok(rest)
}
