//! The spans of an arena.
ghost use Rattle.std.specs.Prelude.{◌≡◌, ◌≢◌, ◌+◌, ◌*◌, ◌^◌, ◌<◌, ◌≤◌, ◌++◌, map, All, Any};
ghost use Rattle.std.specs.Prelude.{Contains, HoldsAt, MatchBool, MatchOption};
ghost use Rattle.std.specs.Prelude.{length};
ghost use Rattle.deed_core.specs.Covering.{units_held};
ghost use Rattle.deed_core.specs.Extent.{Covers, Overlap};
ghost use Rattle.deed_core.specs.declared.segments.Route.TheVariants.{Direct};

use crate::held_ranges::HeldRange;
use deed_core::{Deed, Range, Stored};
use std::marker::Model;

/// An imported span, with the arena that it came from. A contract sees the segment that goes back
/// there.
#[derive(Drop)]
pub(crate) struct Import {
    source: u32,
    span: HeldRange,
}

impl Model for Import {
    ghost use Rattle.deed_core.specs.Tag.{Tag};
    ghost use Rattle.deed_core.specs.declared.segments.Route.TheVariants.{Direct};

    ghost Value = { Tag };

    ghost view = { λ i. record { arena = i.source; route = Direct; holding = i.span } };
}

impl Import {
    /// The span that came from this arena.
    pub(crate) fn new(source: u32, span: HeldRange) -> Import
        ensures { result ≡ record { arena = source; route = Direct; holding = span } }
    {
        Import { source, span }
    }

    /// The arena that the span goes back to.
    pub(crate) fn source(&self) -> u32
        ensures { result ≡ self.now.arena }
    {
        self.source
    }

    /// The span, without the arena that it came from.
    pub(crate) fn span(&self) -> HeldRange
        ensures { result ≡ self.now.holding }
    {
        self.span
    }
}

/// Whether an owned span overlaps the range.
pub(crate) fn overlaps_owned(owned: &[HeldRange], range: &Range) -> bool
    ensures { MatchBool result (Any (λ s. Overlap s.range range.now) owned.now)
        (All (λ s. ¬ Overlap s.range range.now) owned.now) }
{
    for span in owned {
        if span.range().overlaps(range) {
            return true;
        }
    }
    false
}

/// Whether an imported span overlaps the range.
pub(crate) fn overlaps_imported(imported: &[Import], range: &Range) -> bool
    ensures { MatchBool result (Any (λ t. Overlap t.holding.range range.now) imported.now)
        (All (λ t. ¬ Overlap t.holding.range range.now) imported.now) }
{
    for import in imported {
        if import.span().range().overlaps(range) {
            return true;
        }
    }
    false
}

/// The owned span that `base` lies in.
fn owned_at(owned: &[HeldRange], base: u64) -> Option<HeldRange>
    ensures { MatchOption result (All (λ s. ¬ Covers s.range base) owned.now)
        (λ s. Contains owned.now s × Covers s.range base) }
{
    for span in owned {
        if span.base() <= base && base < span.end() {
            return Some(*span);
        }
    }
    None
}

/// The imported span that `base` lies in.
fn imported_at(imported: &[Import], base: u64) -> Option<HeldRange>
    ensures { let spans = map (λ t. t.holding) imported.now in
        MatchOption result (All (λ s. ¬ Covers s.range base) spans)
        (λ s. Contains spans s × Covers s.range base) }
{
    for import in imported {
        let span = import.span();
        if span.base() <= base && base < span.end() {
            return Some(span);
        }
    }
    None
}

/// The span that `base` lies in.
pub(crate) fn span_at(owned: &[HeldRange], imported: &[Import], base: u64) -> Option<HeldRange>
    ensures { let spans = owned.now ++ map (λ t. t.holding) imported.now in
        MatchOption result (All (λ s. ¬ Covers s.range base) spans)
        (λ s. Contains spans s × Covers s.range base) }
{
    if let Some(span) = owned_at(owned, base) {
        return Some(span);
    }
    imported_at(imported, base)
}

/// Where the imported span with this root and range stands.
pub(crate) fn index_of_import(imported: &[Import], span: &HeldRange) -> Option<usize>
    ensures { MatchOption result (All (λ t. t.holding ≢ span.now) imported.now)
        (λ at. (at < length imported.now)
        × HoldsAt (λ t. t.holding ≡ span.now) imported.now at) }
{
    for (at, import) in imported.iter().enumerate() {
        if import.span() == *span {
            return Some(at);
        }
    }
    None
}

/// How many units the owned spans have.
pub(crate) fn owned_units(owned: &[HeldRange]) -> u128
    ensures sum { result ≡ units_held owned.now }
    ensures bound { result ≤ length owned.now * 2 ^ 62 }
{
    let mut units: u128 = 0;
    for span in owned {
        units += span.len() as u128;
    }
    units
}

/// How many units the imported spans have.
pub(crate) fn imported_units(imported: &[Import]) -> u128
    ensures sum { result ≡ units_held (map (λ t. t.holding) imported.now) }
    ensures bound { result ≤ length imported.now * 2 ^ 62 }
{
    let mut units: u128 = 0;
    for import in imported {
        units += import.span().len() as u128;
    }
    units
}

/// How many units the free ranges have.
pub(crate) fn free_units<D: Deed>(free: &[Stored<D>]) -> u128
    ensures { result ≡ units_held free.now }
{
    let mut units: u128 = 0;
    for at in 0..free.len() {
        units += free[at].range().len() as u128;
    }
    units
}
